//! Calls in IR text, the lines of images among them: which tokens they are, and how they are read.
//!
//! ```text
//! // At `ptr @kmalloc(i64 8)`, behind `%p = call`: a call that gives the register `p`.
//! let op = call(alloc, &mut reader, &context, TextForm::Program, Some(p))?;
//! // Some(BlockWrite::Fill { width: Width::W64 })
//! block_write_named(b"llvm.memset.p0.i64");
//! ```
#![tactic(auto)]

ghost use Rattle.lx_ir_calls.specs.Laws.{CallsAreRead, CallsAreFound};

mod arguments;
mod calls;
mod image_lines;
mod intrinsics;
mod writes;

pub use calls::{call, has_tail_word, tail_call};
pub use image_lines::ImageLine;
pub use intrinsics::{Intrinsic, TextForm};
pub use writes::{BlockWrite, block_write_named};

/// Reading and the grammar of calls agree.
pub fn call_laws()
    ensures read { CallsAreRead }
    ensures found { CallsAreFound }
{}
