//! The faults of images.
ghost use Rattle.std.specs.Prelude.{◌≡◌, Some};
ghost use Rattle.lx_image_marks.specs.Told.{IsAnswer, IsAnswerOr, kind_number, kind_of};

use crate::means::Means;
use lx_words::{Memory, Name};
use std::alloc::{AllocError, Global};
use thiserror::Error;

/// The kinds of faults, numbered from 1 on.
#[derive(Clone, Copy, Debug, Error)]
pub enum FaultKind {
    /// A store or block write without its guard, but a spared store.
    #[error("a store or block write has no guard")]
    BareStore,
    /// A guard or check with another operand or size than what stands behind it asks for.
    #[error("a guard or check has another operand or size than what follows it")]
    GuardDiffers,
    /// An indirect call without its check.
    #[error("an indirect call has no check")]
    BareIndirect,
    /// A wrapper that is missing or differs, or what no image has as a whole.
    #[error("a wrapper is missing or differs, or the text is no image as a whole")]
    WrapperDiffers,
    /// A call of an import in the place of its wrapper's, or a mention of a name that images alone have.
    #[error("an import is called past its wrapper, or a name that images alone have is mentioned")]
    BodyReached,
    /// A guard or check before nothing that wants one, or a line that wrappers alone have.
    #[error("a guard or check precedes nothing that wants one, or a wrapper's line stands outside of wrappers")]
    StrayGuard,
}

impl FaultKind {
    /// Its number, from 1 to 6.
    pub fn number(self) -> u8
        ensures { result ≡ kind_number (kind_of self) }
    {
        match self {
            FaultKind::BareStore => 1,
            FaultKind::GuardDiffers => 2,
            FaultKind::BareIndirect => 3,
            FaultKind::WrapperDiffers => 4,
            FaultKind::BodyReached => 5,
            FaultKind::StrayGuard => 6,
        }
    }
}

/// A fault of a text as an image: its kind, its line, the name of the function, and the number of the instruction in the function, from
/// 0 on. Where no instruction can be named the number is 0 and the line is the function's, or 1 for a function that is missing.
#[derive(Debug, Drop, Error)]
#[error("line {line}: `@{function}`, instruction {place}: {kind}")]
pub struct ImageFault {
    pub kind: FaultKind,
    pub line: u32,
    pub function: Name,
    pub place: u32,
}

/// Why a text is not taken for an image.
#[derive(Debug, Drop, Error)]
pub enum Refusal {
    /// The first fault of the text.
    #[error("{0}")]
    Fault(ImageFault),
    /// There was not enough memory.
    #[error("out of memory")]
    Memory,
}

impl From<Memory> for Refusal {
    ghost use Rattle.std.specs.Prelude.{◌≡◌};
    ghost use Rattle.lx_image_marks.specs.declared.fault.Refusal.TheVariants.{Memory as no_memory};

    ghost from_gives = { λ _ e. e ≡ no_memory };

    fn from(_want: Memory) -> Self {
        Refusal::Memory
    }
}

impl From<AllocError> for Refusal {
    ghost use Rattle.std.specs.Prelude.{◌≡◌};
    ghost use Rattle.lx_image_marks.specs.declared.fault.Refusal.TheVariants.{Memory as no_memory};

    ghost from_gives = { λ _ e. e ≡ no_memory };

    fn from(_want: AllocError) -> Self {
        Refusal::Memory
    }
}

/// The refusal for a fault of this kind, or for want of memory for the function's name, over any means.
#[tactic(auto, using(crate::proofs::Passes::wanted))]
pub(crate) fn refuse_by<M: Means>(
    means: &M,
    kind: FaultKind,
    line: u32,
    function: &[u8],
    place: u32,
) -> Refusal
    ensures { IsAnswerOr (M.lacks means.now) (Some (record { kind = kind_of kind; line = line; function = function.now; place = place })) result }
{
    match means.name(function) {
        Ok(function) => Refusal::Fault(ImageFault {
            kind,
            line,
            function,
            place,
        }),
        Err(_) => Refusal::Memory,
    }
}

/// The refusal for a fault of this kind, or for want of memory for the function's name.
#[tactic(auto, using(crate::proofs::Passes::any_want))]
pub fn refuse(alloc: Global, kind: FaultKind, line: u32, function: &[u8], place: u32) -> Refusal
    ensures { IsAnswer (Some (record { kind = kind_of kind; line = line; function = function.now; place = place })) result }
{
    refuse_by(&alloc, kind, line, function, place)
}
