//! The code that a machine of images runs: a program, the images of its modules, and tables of where the jumps of their functions
//! go, of which imports their wrappers wrap, and of the wrappers by which functions are entered.
//!
//! ```text
//! let code = Code::new(alloc, program, images, actions)?;
//! // The wrapper by which the function is entered from elsewhere, and what the first line of it does: Line::Enter.
//! let wrapper = code.entered_wrapper(number);
//! code.line(wrapper, 0);
//! ```
#![tactic(auto)]

mod code;
mod entered;
mod fault;
mod form;
mod functions;
mod imports;
mod jumps;
mod kernel;
mod line;
mod tables;
mod wrappers;

pub use code::Code;
pub use fault::CodeFault;
pub use line::Line;
pub use wrappers::Wrapper;
