//! What is wrong in the instructions of an image: marks that are missing, stray or of another place or size, calls past wrappers, and
//! mentions of what images alone have.
//!
//! ```text
//! // A guard with `i64 2` before a store of four bytes: a fault of the kind `GuardDiffers`, with its line, its function and its place.
//! let text = ImageText::new(alloc, &image)?;
//! check_instructions(alloc, &text)?;
//! ```
#![tactic(auto)]

mod fault;
mod imports;
mod kinds;
mod marks;
mod means;
mod mentions;
mod names;
mod text;
mod walk;

pub use fault::{FaultKind, ImageFault, Refusal, refuse};
pub use imports::Imports;
pub use mentions::constant_mentions;
pub use names::{is_own_name, is_wrapper};
pub use text::ImageText;
pub use walk::check_instructions;
