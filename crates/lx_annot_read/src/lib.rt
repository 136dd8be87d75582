//! Interface texts: which capabilities each call of the kernel checks, copies and transfers.
//!
//! ```text
//! interface 1
//! reftype device
//! slot probe : i32 (ptr dev) principal(dev) pre(copy(ref(device), dev))
//! field %struct.dev_ops 0 : probe
//! export kmalloc : ptr (i64 n) post(if (return != 0) transfer(write, return, n))
//! ```
//!
//! A text that begins with `interface 2` may lend capabilities for the length of a call: `pre(lend(write, p, n))`. The
//! loans that a call's actions open end behind all its other actions.
//!
//! [`read_interface`] answers the interface that a text says, or the first fault that is met in it, with its line and
//! its words. [`tokens_say_all`] states that spaces and comments say nothing.
#![tactic(auto)]

mod draft;
mod fault;
mod head;
mod parts;
mod said;
mod text;
mod typed;

pub use draft::{empty_interface, read_iterator_body};
pub use fault::{Failure, InterfaceFault, Kind, Met, lexical, met_at_end};
pub use parts::{Clauses, Items, Scope, clauses_at, items_at};
pub use text::{behind, failed, read_interface, tokens_say_all, window};
