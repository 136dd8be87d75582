//! What is wrong with the places of a module's functions.
use lx_words::{Memory, Name};
use std::alloc::AllocError;
use thiserror::Error;

/// Why a module's functions get no slot types.
#[derive(Debug, Drop, Error)]
pub enum PropagateFault {
    /// Fault 1, with the line and the name of the first function that gets two slot types whose annotations differ,
    /// and the names of the two: the first that it gets in interface order, and the first that differs from it.
    #[error("line {line}: `@{function}` gets the slot types `{first}` and `{second}`, whose annotations differ")]
    Conflict {
        line: u32,
        function: Name,
        first: Name,
        second: Name,
    },
    /// There was not enough memory.
    #[error("out of memory")]
    Memory,
}

impl From<Memory> for PropagateFault {
    ghost use Rattle.std.specs.Prelude.{◌≡◌};
    ghost use Rattle.lx_propagate.specs.declared.fault.PropagateFault.TheVariants.{Memory as no_memory};

    ghost from_gives = { λ _ e. e ≡ no_memory };

    fn from(_want: Memory) -> Self {
        PropagateFault::Memory
    }
}

impl From<AllocError> for PropagateFault {
    ghost use Rattle.std.specs.Prelude.{◌≡◌};
    ghost use Rattle.lx_propagate.specs.declared.fault.PropagateFault.TheVariants.{Memory as no_memory};

    ghost from_gives = { λ _ e. e ≡ no_memory };

    fn from(_want: AllocError) -> Self {
        PropagateFault::Memory
    }
}
