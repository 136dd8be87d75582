//! The opening of a linked program: what its memory holds and what its modules own before the first call, and the world
//! of images of its modules that begins so.
//!
//! ```text
//! // The first image that is not that of its module's text: OpenFault::ImageDiffers { module }.
//! let world = open_world(alloc, program, images, script, &annotated, caps)?;
//! ```
#![tactic(auto)]

mod bytes;
mod code;
mod differing;
mod events;
mod fault;
mod grants;
mod inits;
mod open;
mod part;
mod space;

pub use fault::OpenFault;
pub use open::{open_code, open_world};
pub use part::open_part;
