//! Constants, operands and initialisers of IR text: which tokens they are, and how they are read.
//!
//! ```text
//! // At `7`, behind `i32`: the number 7 of 32 bits.
//! let seven = constant(alloc, &mut reader, &context, Scalar::Int(Width::W32))?;
//! // At `%p`, behind `ptr`: the register that the context says for the name.
//! let p = value(alloc, &mut reader, &context, Scalar::Ptr)?;
//! ```
#![tactic(auto)]

ghost use Rattle.lx_ir_constants.specs.Laws.{ConstantsAreRead, ConstantsAreFound, ValuesAreRead, ValuesAreFound, InitsAreRead, InitsAreFound, ConstantsAreRefused, ValuesAreRefused, InitsAreRefused};

mod constants;
mod element;
mod inits;
mod misplaced;
mod numbers;
mod pointers;

pub use constants::{constant, value};
pub use element::Element;
pub use inits::init;
pub use misplaced::is_misplaced;
pub use numbers::number_in;

/// Reading and the grammar of constants, operands and initialisers agree, and a token at which reading stops cannot stand
/// there.
pub fn constant_laws()
    ensures constants_read { ConstantsAreRead }
    ensures constants_found { ConstantsAreFound }
    ensures values_read { ValuesAreRead }
    ensures values_found { ValuesAreFound }
    ensures inits_read { InitsAreRead }
    ensures inits_found { InitsAreFound }
    ensures constants_refused { ConstantsAreRefused }
    ensures values_refused { ValuesAreRefused }
    ensures inits_refused { InitsAreRefused }
{}
