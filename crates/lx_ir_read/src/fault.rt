//! Why a text is no module.

ghost use Rattle.std.specs.Prelude.{◌≡◌};
ghost use Rattle.lx_ir_read.specs.declared.fault.ReadFault.TheVariants.{Memory as no_memory};
ghost use Rattle.lx_ir_read.specs.Fault.{fault_of};

use lx_ir_terms::{Fault, FaultKind};
use lx_words::{Memory, Name, Stop};
use std::alloc::AllocError;
use thiserror::Error;

/// The first fault of a text: its line, counted from 1, and what names it.
#[derive(Debug, Drop, Error)]
pub enum ReadFault {
    /// A byte that begins no token; `what` is the byte, as `0x9`.
    #[error("line {line}: the byte {what} begins no token")]
    Lexical { line: u32, what: Name },
    /// A token that cannot stand where it does; `what` is the token, or `end` where the text ends too early.
    #[error("line {line}: `{what}` cannot stand here")]
    Statement { line: u32, what: Name },
    /// A word, a type or a number outside the profile; `what` is the token.
    #[error("line {line}: `{what}` is outside the language that is read")]
    OutOfProfile { line: u32, what: Name },
    /// A name that is defined twice; `what` is the name with its `%` or `@`.
    #[error("line {line}: `{what}` is defined twice")]
    Twice { line: u32, what: Name },
    /// A name that is not defined; `what` is the name with its `%` or `@`.
    #[error("line {line}: `{what}` is not defined")]
    Unknown { line: u32, what: Name },
    /// There is not enough memory to read the text.
    #[error("out of memory")]
    Memory,
}

/// Where a text has its first fault.
#[derive(Clone, Copy)]
pub enum TextFault {
    /// At a token, or at the end of all tokens.
    Token(Fault),
    /// At the first byte that begins none.
    Byte(Stop),
}

impl From<AllocError> for ReadFault {
    ghost from_gives = { λ _ e. e ≡ no_memory };

    fn from(_want: AllocError) -> ReadFault {
        ReadFault::Memory
    }
}

impl From<Memory> for ReadFault {
    ghost from_gives = { λ _ e. e ≡ no_memory };

    fn from(_want: Memory) -> ReadFault {
        ReadFault::Memory
    }
}

/// A fault of this kind.
pub fn fault_of(kind: FaultKind, line: u32, what: Name) -> ReadFault
    ensures { result ≡ fault_of kind line what }
{
    match kind {
        FaultKind::Statement => ReadFault::Statement { line, what },
        FaultKind::OutOfProfile => ReadFault::OutOfProfile { line, what },
        FaultKind::Twice => ReadFault::Twice { line, what },
        FaultKind::Unknown => ReadFault::Unknown { line, what },
    }
}
