//! What the names of a text name: things that are numbered in order, and a table that finds them by the number of a name.
//!
//! ```text
//! // Over three names a first thing, whose name is the last of them.
//! let mut types = Numbering::new(alloc, 3)?;
//! types.add(Some(2))?;
//! // [None, None, Some(0)]
//! types.table();
//! ```
#![tactic(auto)]

mod numbering;
mod registers;
mod symbols;

pub use numbering::Numbering;
pub use registers::number_registers;
pub use symbols::{own_numbers, symbols_by};
