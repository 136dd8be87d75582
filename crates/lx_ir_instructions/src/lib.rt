//! Instructions of IR text: which tokens they are, and how they are read.
//!
//! ```text
//! // At `%r = freeze i8 %a`: an `Op::Unary` with the registers that the context says for both names.
//! let op = instruction(alloc, &mut reader, &context, TextForm::Program)?;
//! ```
#![tactic(auto)]

ghost use Rattle.lx_ir_instructions.specs.Laws.{InstrsAreRead, InstrsAreFound};

mod instructions;

pub use instructions::instruction;
pub use lx_ir_calls::TextForm;

/// Reading and the grammar agree on instructions.
pub fn instruction_laws()
    ensures read { InstrsAreRead }
    ensures found { InstrsAreFound }
{}
