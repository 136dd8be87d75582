//! The checker of images. It says of a text that a stranger hands in whether it is the image of some program, with its guards, its
//! checks and its wrappers, and names the first fault where it is none; and it gives the program of an image that it took.
//!
//! ```text
//! // A guard with `i64 2` before a store of four bytes is refused: the program prints `img.ll:4: image 2 @main 0`.
//! let checked = check(alloc, &interface, verified)?;
//! let module = erase(alloc, &checked)?;
//! ```
#![tactic(auto)]

mod checked;
mod erased;
mod globals;
mod heads;
mod lines;
mod places;
mod right;
mod stripped;
mod whole;
mod wrappers;

pub use checked::{Checked, check, first_fault};
pub use erased::erase;
pub use lx_image_marks::{FaultKind, ImageFault, Refusal};
