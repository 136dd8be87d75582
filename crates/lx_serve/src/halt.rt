//! Why a request is not done.
use lx_model::request::Outcome;
use lx_words::Memory;

/// Why a request is not done.
#[derive(Clone, Copy)]
pub(crate) enum Halt {
    /// The call comes to this outcome.
    Ended(Outcome),
    /// There was not enough memory.
    Memory,
}

impl From<Memory> for Halt {
    ghost use Rattle.std.specs.Prelude.{◌≡◌};
    ghost use Rattle.lx_serve.specs.declared.halt.Halt.TheVariants.{Memory};

    ghost from_gives = { λ _ e. e ≡ Memory };

    fn from(_: Memory) -> Self {
        Halt::Memory
    }
}
