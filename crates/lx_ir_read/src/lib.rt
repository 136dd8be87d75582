//! Modules from IR text, or the first fault of the text with its line and what names it.
//!
//! ```text
//! // A function with the register `x`, which it only reads.
//! let module = read_module(alloc, TextForm::Program, b"define i32 @f() { ret i32 %x }")?;
//! // Err(ReadFault::Unknown { line: 1, .. }) with `@h`
//! read_module(alloc, TextForm::Program, b"@g = global i32 @h");
//! ```
//!
//! [`read_module`] reads forward, first by a context that knows no names, up to the first fault, and then again by the numbers of all names.
//! A reader meets a fault at a token, with so many tokens left, or at a byte that begins none, and it is told with its line and what names it.
#![tactic(auto)]

mod again;
mod draft;
mod early;
mod fault;
mod first;
mod module_error;
mod reading;
mod tables;
mod what;

pub use draft::Draft;
pub use fault::{ReadFault, TextFault};
pub use first::{FirstReading, Found, Progress};
pub use lx_ir_calls::TextForm;
pub use reading::{module_laws, read_module};
pub use what::{line_shown, name_at, shown};
