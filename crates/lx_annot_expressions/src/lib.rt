//! Tokens and names of interface texts, and the expressions of annotations: which tokens they are, and how they are read.
//!
//! ```text
//! // At `dev + 8`, where `dev` is the first parameter: the sum of that parameter and 8.
//! let mut reader = Reader::new(text, tokens);
//! let sum = reader.expr(alloc, &Scope::new(params, None))?;
//! ```
#![tactic(auto)]

ghost use Rattle.lx_annot_expressions.specs.Laws.{ExprsAreFound, ExprsAreRead};

mod exprs;
mod fault;
mod names;
mod operators;
mod reader;
mod table;

pub use exprs::{Scope, place_of};
pub use fault::{Fault, FaultKind, ReadError};
pub use names::NameTable;
pub use reader::{MOST_TOKENS, Reader};
pub use table::found;

/// Reading and the grammar of expressions agree.
pub fn expr_laws()
    ensures read { ExprsAreRead }
    ensures found { ExprsAreFound }
{}
