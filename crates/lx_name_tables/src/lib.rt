//! Names of texts, interfaces and programs in tables, so that none is searched for in a list.
//!
//! ```text
//! let names = ProgramNames::new(alloc, &program);
//! // The number in the program of `@kmalloc`, which the kernel defines, and the address of `@buffer` of module 0.
//! names.function_named(None, b"kmalloc");
//! names.global_named(Some(0), b"buffer");
//! ```
//!
//! A table that there is no memory for is left out, and its list is searched instead: no answer waits for memory.
#![tactic(auto)]

mod behind;
mod interfaces;
mod keys;
mod modules;
mod named;
mod places;
mod programs;
mod texts;

pub use interfaces::InterfaceNames;
pub use programs::ProgramNames;
pub use texts::TextNames;
