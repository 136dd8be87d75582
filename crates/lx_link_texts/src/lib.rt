//! Texts that are linked: the kernel, an interface and modules. What is wrong with them, and their program.
//!
//! ```text
//! check_texts(&sources, &annotated)?;
//! // The natives, then the functions that the kernel defines, then those of each module.
//! let functions = functions_of(alloc, &sources)?;
//! // Each global at the next address divisible by 16, or `PlaceError::Past`.
//! let globals = globals_of(alloc, &sources)?;
//! ```
#![tactic(auto)]

ghost use Rattle.lx_link_texts.specs.Laws.{AreWellFormed, VerifiedHaveLimits};

pub mod fault;
mod functions;
mod globals;
mod imports;
mod kernel;
mod limits;
mod lookup;
mod signatures;
mod slots;
pub mod sources;
mod texts;

pub use functions::functions_of;
pub use globals::{PlaceError, globals_of};
pub use limits::check_limits;
pub use lookup::{defines, is_alias, is_indirect_call};
pub use texts::check_texts;

/// Sound texts without a fault make a well-formed program, and verified ones are within what is numbered.
#[tactic(auto, using(crate::proofs::Sound::are_well_formed, crate::proofs::Sound::verified_have_limits))]
pub fn text_laws()
    ensures well_formed { AreWellFormed }
    ensures limits { VerifiedHaveLimits }
{}
