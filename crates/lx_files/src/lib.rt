//! The files of a command, read in their order.
//!
//! ```text
//! let sources = read_sources(alloc, &mut shelf, "one.case", Asked { module: None, schedule: None, image: None })?;
//! // For a module `cut.ll` that ends too early the fault is printed as `cut.ll:3: ir 2 end`.
//! let line = fault_text(alloc, &fault)?;
//! ```
//!
//! A shelf is asked for the case, the kernel, the interface in either dialect, the modules in the order of the case, and the
//! schedule and the image where they are asked for; each is read as it comes. The first file that is not read, or the first fault, ends it.
#![tactic(auto)]

mod file;
mod line;
mod reading;
mod sources;
mod stop;
mod turns;

pub use line::{FaultKind, FaultLine, fault_text};
pub use sources::{Asked, Besides, ImageFile, Sources, file_laws, read_sources};
pub use stop::{InputStop, fault_at};
pub use turns::Modules;
