//! The text of an interface, as statements.
//!
//! Of an interface with the slot and the field of `struct ops { int (*probe)(void *dev) principal(dev + 8); };` [`print_interface`] writes
//!
//! ```text
//! interface 2
//! slot probe : i32 (ptr dev) principal((dev + 8))
//! field %struct.ops 0 : probe
//! ```
//!
//! It is written to be read again as the same interface, but for its lines.
#![tactic(auto)]

mod clauses;
mod expressions;
mod lines;
mod pieces;

pub use lines::print_interface;
