//! Tables of a linked program: where annotations stand, how many actions they have, and what the images of modules have.
//!
//! ```text
//! let sources = sources_of(alloc, &program, annotated)?;
//! // Of each function how many actions stand before its body and behind it.
//! let counts = action_counts(alloc, &program, &sources)?;
//! // Of each module how many guards, checks and wrappers its image has.
//! let images = image_counts(alloc, &program, annotated)?;
//! ```
#![tactic(auto)]

ghost use Rattle.lx_annotation_tables.specs.Laws.{AreLinked, AreSized, AreWithinReach};

mod counts;
mod images;
mod marked;
mod sources;

pub use counts::action_counts;
pub use images::image_counts;
pub use sources::sources_of;

/// A machine runs every well-formed program, and the monitor serves it. In every lawful module, an image too, the types that are
/// laid out are within the limits.
#[tactic(auto, using(crate::proofs::Reached::within_reach, crate::proofs::Reached::linked, crate::proofs::Reached::sized_module))]
pub fn reach_laws()
    ensures reach { AreWithinReach }
    ensures linked { AreLinked }
    ensures sized { AreSized }
{}
