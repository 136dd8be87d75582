//! Modules of IR, plain and instrumented: their types with the layout of these, globals and functions, and their text.
//!
//! ```text
//! // The named type of `%struct.dev = type { i32, ptr }` takes 16 bytes, and its second field begins at byte 8.
//! size_of(&module, &dev);
//! offset_of(&module, &dev, 1);
//! // The text, which reads again as the same module.
//! let text = print(alloc, &module)?;
//! ```
#![tactic(auto)]

ghost use Rattle.lx_ir.specs.Rows.{WorkedLayouts};
ghost use Rattle.lx_ir.specs.RowsOfText.{WorkedTexts};

pub mod instr;
mod layout;
pub mod module;
mod named;
mod sizes;
mod text;
pub mod types;

pub use layout::{Layout, MOST_NAMES, fit_type, fitting_layouts};
pub use named::NamedTypes;
pub use sizes::{align_of, offset_at, offset_of, size_of, unnamed};
pub use text::print;

/// Worked rows of layout.
pub fn worked_layouts()
    ensures { WorkedLayouts }
{}

/// Worked rows of text, and of lawful modules.
pub fn worked_texts()
    ensures { WorkedTexts }
{}
