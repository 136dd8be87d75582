//! Linking: the program of a kernel, an interface and modules, and the calls of a script by numbers and words; or the first fault between them.
//!
//! ```text
//! // Where a module imports what the interface does not export, the fault has the module's file, the line and the import's name.
//! let linked = link(alloc, texts, &annotated, &case)?;
//! let (program, calls) = linked.into_parts();
//! ```
#![tactic(auto)]

ghost use Rattle.lx_link.specs.Laws.{AreWellLinked, CallsFit};

mod answers;
mod arguments;
mod calls;
mod fault;
mod linked;
mod linking;
mod means;
mod names;
mod texts;

pub use fault::LinkFault;
pub use linked::{Linked, LinkedParts};
pub use linking::link;
pub use texts::VerifiedTexts;

/// Sound texts without a fault are linked to a well-formed program, and its calls fit the functions that they name.
#[tactic(auto, using(crate::proofs::Fitting::well_linked, crate::proofs::Fitting::calls_fit))]
pub fn link_laws()
    ensures program { AreWellLinked }
    ensures calls { CallsFit }
{
    lx_link_texts::text_laws();
}
