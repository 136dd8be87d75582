//! The input of a command: its files are read, checked and linked.
//!
//! ```text
//! let asked = Asked { module: None, schedule: Some("one.schedule"), image: None };
//! let input = read_input(alloc, &mut shelf, "one.case", asked)?;
//! // The linked program, the calls of each thread, and the schedule that was asked for.
//! (input.program, input.script, input.besides);
//! ```
//!
//! The files are read in their order, the kernel and each module is verified, slot types are found, and all is linked. The first file that is not
//! read, or the first fault, ends it: for a module `un.ll` that reads a register which nothing assigns, the fault that [`fault_text`] prints as
//! `un.ll:2: verify 3 %x`.
#![tactic(auto)]

mod checks;
mod input;
mod linked;
mod stop;

pub use input::{Input, input_laws, read_input};
pub use lx_files::{
    Asked, Besides, FaultKind, FaultLine, ImageFile, InputStop, fault_text, read_sources,
};
