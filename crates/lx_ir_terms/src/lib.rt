//! Types of IR text, and the reader and the names' context over which all parts of IR text are read: which tokens they are, and how they are read.
//!
//! ```text
//! let mut reader = Reader::new(toks);
//! // At `{ i32, ptr } zeroinitializer` the struct, and the reader stands behind it; at `,` the fault `Statement`.
//! let ty = reader.ty(alloc, &context)?;
//! ```
#![tactic(auto)]

ghost use Rattle.lx_ir_terms.specs.Laws.{TypesAreRead, TypesAreFound, TypesAreRefused, WrittenAreRead, WrittenAreFound, WrittenAreRefused};

mod context;
mod fault;
mod reader;
mod types;
mod words;

pub use context::Context;
pub use fault::{Fault, FaultKind, ReadError};
pub use reader::{Reader, is_mark, refusal};
pub use types::DEPTH_LIMIT;

/// Reading and the grammar of types agree, and a token at which reading stops cannot stand there.
pub fn type_laws()
    ensures read { TypesAreRead }
    ensures found { TypesAreFound }
    ensures refused { TypesAreRefused }
    ensures written_read { WrittenAreRead }
    ensures written_found { WrittenAreFound }
    ensures written_refused { WrittenAreRefused }
{}
