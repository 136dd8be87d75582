//! Spared stores: which stores of a function write straight to bytes of the stack that it allocated and keeps to itself, by a table
//! of its registers that is made once for the function.
//!
//! ```text
//! // `%x = alloca i32`, and `store i32 7, ptr %x`, where `%x` is not stored, passed, compared or indexed: the store is spared.
//! let rooms = rooms_of(alloc, &module, &function)?;
//! rooms.spares(&store);
//! ```
#![tactic(auto)]

mod closing;
mod rooms;
mod sizes;
mod table;
mod widening;

pub use sizes::scalar_size;
pub use table::{Rooms, rooms_of};
