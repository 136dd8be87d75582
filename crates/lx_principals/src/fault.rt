//! Why a further name is not given.
use lx_words::Memory;
use thiserror::Error;

/// Why an instance is not given a further name.
#[derive(Clone, Copy, Debug, PartialEq, Eq, Error)]
pub enum AliasFault {
    /// The known value names nobody in the caller's module, or the caller is neither that instance nor the module's
    /// global principal.
    #[error("0x{known:x} names no instance as which the caller acts")]
    NotCurrent { known: u64 },
    /// The further value names somebody in the caller's module already.
    #[error("0x{further:x} is a name already")]
    NameTaken { further: u64 },
    /// There was not enough memory.
    #[error("out of memory")]
    Memory,
}

impl From<Memory> for AliasFault {
    ghost use Rattle.std.specs.Prelude.{◌≡◌};
    ghost use Rattle.lx_principals.specs.declared.fault.AliasFault.TheVariants.{Memory};

    ghost from_gives = { λ _ e. e ≡ Memory };

    fn from(_: Memory) -> Self {
        AliasFault::Memory
    }
}
