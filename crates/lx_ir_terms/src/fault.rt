//! Why a text could not be read.

ghost use Rattle.std.specs.Prelude.{◌≡◌};
ghost use Rattle.lx_ir_terms.specs.declared.fault.ReadError.TheVariants.{Memory as no_memory};

use lx_words::Memory;
use std::alloc::{AllocError, AllocFailed};
use thiserror::Error;

/// The kinds of faults of IR text.
#[derive(Clone, Copy, Debug, PartialEq, Eq)]
pub enum FaultKind {
    /// A token that cannot stand there.
    Statement,
    /// A word or a type outside the profile, a number outside its range, or a nesting that is too deep.
    OutOfProfile,
    /// A name that is defined twice.
    Twice,
    /// A name that is not defined.
    Unknown,
}

/// A fault, and how many tokens are left with the one that it is at; none are left where it is at the text's end.
#[derive(Clone, Copy, Debug)]
pub struct Fault {
    pub kind: FaultKind,
    pub left: usize,
}

/// Why a rule of the grammar did not read what stands next.
#[derive(Debug, Drop, Error)]
pub enum ReadError {
    #[error("out of memory")]
    Memory,
    #[error("{0:?}")]
    Fault(Fault),
}

impl From<Memory> for ReadError {
    ghost from_gives = { λ _ e. e ≡ no_memory };

    fn from(_want: Memory) -> ReadError {
        ReadError::Memory
    }
}

impl From<AllocError> for ReadError {
    ghost from_gives = { λ _ e. e ≡ no_memory };

    fn from(_error: AllocError) -> ReadError {
        ReadError::Memory
    }
}

impl<T: Drop> From<AllocFailed<T>> for ReadError {
    ghost from_gives = { λ _ e. e ≡ no_memory };

    fn from(_error: AllocFailed<T>) -> ReadError {
        ReadError::Memory
    }
}
