//! Operands of instructions in IR text, and what is passed over around them: which tokens they are, and how they are read.
//!
//! ```text
//! // At `i32 7`: the type and the value.
//! let argument = typed(alloc, &mut reader, &context)?;
//! // At `, label %done`: the name `done`.
//! let label = next_label(alloc, &mut reader, &context)?;
//! // At `, !dbg !5` the reader goes over all metadata.
//! metadata(&mut reader)?;
//! ```
#![tactic(auto)]

ghost use Rattle.lx_ir_operands.specs.Laws.{OperandsAgree, LabelsAgree, ListsAgree, PassedOverAgrees, OperandsAreRefused, ListsAreRefused, AttributesAreRefused};

mod operands;
mod steps;

pub use operands::{
    address, again, case, edge, flagged_scalar, flagged_type, flagged_typed, has_case,
    has_label_word, local, next_label, same_scalar, scalar_in, scalar_refusal, second, truth_type,
    type_word_refusal, typed,
};
pub use steps::{
    align, attributes, has_further, metadata, one_align, one_attribute, skip_flags, when,
    word_refusal,
};

/// Reading and the grammar agree on operands, labels, lists of them, and what is passed over around them; and a token at
/// which their reading stops cannot stand there, whatever follows it. Behind a call what follows may not make a label of it.
pub fn operand_laws()
    ensures operands { OperandsAgree }
    ensures labels { LabelsAgree }
    ensures lists { ListsAgree }
    ensures passed_over { PassedOverAgrees }
    ensures operands_refused { OperandsAreRefused }
    ensures lists_refused { ListsAreRefused }
    ensures attributes_refused { AttributesAreRefused }
{}
