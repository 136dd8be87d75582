//! Instrumenting: making the image of a module, with a mark before each instruction that wants one, calls of wrappers in place of
//! imports, and the wrappers behind the module's functions.
//!
//! ```text
//! // Before `store i32 7, ptr @g` stands `call void @lxfi.guard(ptr @g, i64 4)`.
//! let image = instrument(alloc, &interface, &verified, &annotated)?;
//! // The same with a guard before each store, also those to a function's own stack.
//! let full = instrument_full(alloc, &interface, &verified, &annotated)?;
//! ```
#![tactic(auto)]

mod blocks;
mod callees;
mod functions;
mod image;
mod instrs;
mod marks;
mod numbers;
mod room;

pub use image::{instrument, instrument_full, instrument_module, instrument_module_full};
