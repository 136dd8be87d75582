//! The code that a machine runs: what the numbers, the names and the constants of a program name, and tables of what is known of a
//! function's instructions before they run, so that while it runs no label, case or edge is searched for, and no large type is laid out.
//!
//! ```text
//! let code = Code::new(alloc, program, actions)?;
//! // What the import with the number 2 of module 0 is: a native, a slot type, a function of the kernel, or nothing.
//! code.target(Some(0), 2);
//! let tables = CodeTables::new(alloc, &text, blocks)?;
//! // The number of the block, and the place of the case 7 in the switch at place 3 of block 0.
//! tables.block_named(b"loop");
//! tables.case(0, 3, 7);
//! ```
#![tactic(auto)]

mod code;
mod code_tables;
mod constants;
mod instructions;
mod named;
mod names;
mod numbers;
mod parts;
mod places;
mod routes;
mod tables;
mod targets;
mod text;
mod words;

pub use code::{ActionCounts, Code};
pub use code_tables::CodeTables;
pub use constants::constant_of;
pub use parts::{Part, element_of, field_named};
pub use routes::{Leg, Room, Route};
pub use targets::Target;
pub use text::PlacedText;
pub use words::width_of;
