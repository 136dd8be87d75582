//! Walks over the blocks of a function: where control comes to a block from, which blocks every walk to a block goes through, and the
//! first read of a register that some walk did not assign.
//!
//! ```text
//! // A function of the blocks `a: br label %b` and `b: %x = add i32 %y, 1`, `ret void`. Nothing gives `%y`.
//! let blocks = Blocks::of(alloc, &f)?;
//! // Block 0 alone.
//! blocks.before(b"b");
//! // Some(Read { block: 1, place: 0, .. }), with the number of `%y` and the line of the `add`.
//! first_unassigned(alloc, &f)?;
//! ```
#![tactic(auto)]

mod block_index;
mod blocks;
mod depth_first;
mod dominators;
mod exits;
mod first;
mod givers;
mod names;
mod reads;
mod search;
mod semidominators;
mod sources;
mod tree;

pub use block_index::{BlockIndex, instrs_at};
pub use blocks::Blocks;
pub use dominators::Dominators;
pub use exits::{last_of, successors};
pub use first::first_unassigned;
pub use reads::Read;
