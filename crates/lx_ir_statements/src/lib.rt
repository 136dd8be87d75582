//! Statements of IR text, with the heads and the blocks of the functions that they declare and define: which tokens they are, and how they are read.
//!
//! ```text
//! // At `declare ptr @kmalloc(i64 noundef)`: an import with one parameter, an `i64`, whose result is a `ptr`.
//! let import = statement(alloc, &mut reader, &context, TextForm::Program, places, &defined)?;
//! // A second statement that defines the name is a fault.
//! defined.define(&context, &import)?;
//! ```
#![tactic(auto)]

ghost use Rattle.lx_ir_statements.specs.HeadLaws.{ParametersAgree, WordsAgree};
ghost use Rattle.lx_ir_statements.specs.BlockLaws.{BodiesAreRead, BodiesAreFound};
ghost use Rattle.lx_ir_statements.specs.Laws.{StatementsAreRead, StatementsAreFound};

mod body;
mod declared_parameters;
mod defined;
mod form;
mod functions;
mod globals;
mod head;
mod imports;
mod numbers;
mod reading;
mod symbols;
mod types;
mod words;

pub use body::{blocks, line};
pub use declared_parameters::import_parameters;
pub use defined::{Defined, is_block_write};
pub use form::Statement;
pub use head::{Head, decimal_name, parameters};
pub use lx_ir_calls::TextForm;
pub use lx_ir_instructions::instruction_laws;
pub use numbers::Numbers;
pub use reading::statement;
pub use words::{function_attributes, import_attributes, skip_linkage};

/// Reading and the grammar agree on results, on parameters, and on the words around them.
pub fn head_laws()
    ensures parameters { ParametersAgree }
    ensures words { WordsAgree }
{}

/// Reading and the grammar of blocks agree.
pub fn block_laws()
    ensures read { BodiesAreRead }
    ensures found { BodiesAreFound }
{
    instruction_laws();
}

/// Reading and the grammar of statements agree.
pub fn statement_laws()
    ensures read { StatementsAreRead }
    ensures found { StatementsAreFound }
{
    instruction_laws();
}
