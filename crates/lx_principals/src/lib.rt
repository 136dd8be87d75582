//! The names of the instances of modules.
//!
//! A module's instances are numbered in the order in which they are made, and are named by values. The newest name
//! counts, and an instance's first name is its oldest.
//!
//! ```text
//! let mut principals = Principals::new(alloc, 1)?;
//! let device = principals.named(0, 0x1000000)?;
//! principals.alias(device, 0x1000000, 0x2000000)?;
//! // The two values name one instance, whose first name is the first of them.
//! principals.named(0, 0x2000000)?;
//! ```
#![tactic(auto)]

mod fault;
mod principals;

pub use fault::AliasFault;
pub use principals::Principals;
