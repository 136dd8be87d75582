//! Why a part of an interface could not be read.

ghost use Rattle.std.specs.Prelude.{◌≡◌};
ghost use Rattle.lx_annot_expressions.specs.declared.fault.ReadError.TheVariants.{Memory as no_memory};

use lx_words::Memory;
use std::alloc::{AllocError, AllocFailed};
use thiserror::Error;

/// The kinds of faults that are met at a token.
#[derive(Clone, Copy, Debug)]
pub enum FaultKind {
    /// A token that cannot stand there.
    Statement,
    /// A name that is not declared, or `return` where it means nothing.
    Unknown,
    /// A name that is declared twice in its kind.
    Twice,
    /// A `write` without a size.
    NeedsSize,
}

/// A fault, and how many tokens are left with the one that it is at; none are left where it is at the end.
#[derive(Clone, Copy, Debug)]
pub struct Fault {
    pub kind: FaultKind,
    pub left: usize,
}

/// Why a rule of the grammar did not read what stands next.
#[derive(Debug, Drop, Error)]
pub enum ReadError {
    #[error("out of memory")]
    Memory,
    #[error("{0:?}")]
    Fault(Fault),
}

impl From<Memory> for ReadError {
    ghost from_gives = { λ _ e. e ≡ no_memory };

    fn from(_want: Memory) -> ReadError {
        ReadError::Memory
    }
}

impl From<AllocError> for ReadError {
    ghost from_gives = { λ _ e. e ≡ no_memory };

    fn from(_error: AllocError) -> ReadError {
        ReadError::Memory
    }
}

impl<T: Drop> From<AllocFailed<T>> for ReadError {
    ghost from_gives = { λ _ e. e ≡ no_memory };

    fn from(_error: AllocFailed<T>) -> ReadError {
        ReadError::Memory
    }
}
