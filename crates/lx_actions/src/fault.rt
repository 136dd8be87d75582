//! Why an action is not done.
use lx_model::request::Refusal;
use lx_words::Memory;
use thiserror::Error;

/// Why an action is not done.
#[derive(Clone, Copy, Debug, Error)]
pub enum ActFault {
    /// An item is refused.
    #[error("the action is refused: {0:?}")]
    Refused(Refusal),
    /// A `load64` that was evaluated looked at eight bytes of which this one is the first that is not mapped.
    #[error("address 0x{at:x} is not mapped")]
    Unmapped { at: u64 },
    /// There was not enough memory.
    #[error("out of memory")]
    Memory,
}

impl From<Memory> for ActFault {
    ghost use Rattle.std.specs.Prelude.{◌≡◌};
    ghost use Rattle.lx_actions.specs.declared.fault.ActFault.TheVariants.{Memory};

    ghost from_gives = { λ _ e. e ≡ Memory };

    fn from(_: Memory) -> Self {
        ActFault::Memory
    }
}
