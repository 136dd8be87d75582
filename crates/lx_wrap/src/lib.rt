//! Wrappers: the functions of an image that stand before calls out of a module and into one. A wrapper enters the function, does
//! the actions of its annotation before the body, calls it with the arguments that it got itself, does the actions behind the
//! body, leaves, and returns what the call gave.
//!
//! ```text
//! // Before calls of the import `@kmalloc`: the function `@lxfi.out.kmalloc`; before calls into `@my_probe`, `@lxfi.in.my_probe`.
//! let wrapper = wrapper_of(alloc, &kmalloc, number, &annotation, Side::Out)?;
//! // All wrappers of a module, in the order in which they stand behind its functions.
//! let list = wrappers(alloc, &interface, &module, &annotated)?;
//! ```
#![tactic(auto)]

mod exports;
mod functions;
mod lines;
mod module;
mod names;
mod signature;

pub use functions::{wrapper, wrapper_of};
pub use module::{is_wrapped, push_wrappers, wrappers};
pub use names::{Side, wrapper_name};
