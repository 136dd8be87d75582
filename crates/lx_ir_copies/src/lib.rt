//! Copies of parts of modules, each equal to what is copied.
//!
//! ```text
//! let same = copied_op(alloc, &op)?;
//! let params = copies(alloc, function.params.as_slice())?;
//! ```
#![tactic(auto)]

mod copied;
mod inits;
mod module;
mod ops;
mod types;

pub use copied::{Copied, copies};
pub use inits::copied_init;
pub use ops::{copied_call, copied_op};
pub use types::{copied_named_types, copied_type};
