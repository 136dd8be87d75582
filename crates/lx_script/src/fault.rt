//! Why a text could not be read.

ghost use Rattle.std.specs.Prelude.{◌≡◌};
ghost use Rattle.lx_words.specs.Text.{hex_text};
ghost use Rattle.lx_script.specs.Faults.{IsMet, answer, fault_of};
ghost use Rattle.lx_script.specs.declared.fault.CaseFault.TheVariants as faults;
ghost use Rattle.lx_script.specs.declared.fault.ReadError.TheVariants as errors;

use lx_words::{Memory, Name, put_hex};
use std::alloc::{AllocError, AllocFailed, Global};
use thiserror::Error;

/// What kind of fault a text has.
#[derive(Clone, Copy)]
pub enum FaultKind {
    Lexical,
    Statement,
    Unknown,
    Twice,
    Range,
    Limit,
}

/// A fault that is met in a line, counted from 1, and the words that name it.
#[derive(Drop)]
pub struct Fault {
    pub kind: FaultKind,
    pub line: u32,
    pub what: Name,
}

/// Why a part of a text could not be read.
#[derive(Drop)]
pub enum ReadError {
    Fault(Fault),
    Memory,
}

impl From<AllocError> for ReadError {
    ghost from_gives = { λ _ e. e ≡ errors.Memory };

    fn from(_want: AllocError) -> ReadError {
        ReadError::Memory
    }
}

impl From<Memory> for ReadError {
    ghost from_gives = { λ _ e. e ≡ errors.Memory };

    fn from(_want: Memory) -> ReadError {
        ReadError::Memory
    }
}

impl<T: Drop> From<AllocFailed<T>> for ReadError {
    ghost from_gives = { λ _ e. e ≡ errors.Memory };

    fn from(_want: AllocFailed<T>) -> ReadError {
        ReadError::Memory
    }
}

/// A fault with words of its own, or want of memory for these.
pub fn met(alloc: Global, kind: FaultKind, line: u32, what: &[u8]) -> ReadError
    ensures { IsMet kind line what.now result }
{
    match Name::from_bytes(alloc, what) {
        Ok(what) => ReadError::Fault(Fault { kind, line, what }),
        Err(_) => ReadError::Memory,
    }
}

/// The fault of a byte that cuts a line off.
pub fn met_byte(alloc: Global, line: u32, byte: u8) -> ReadError
    ensures { IsMet FaultKind.Lexical line (hex_text byte) result }
{
    let mut text = Vec::new(alloc);
    match put_hex(&mut text, u64::from(byte)) {
        Ok(()) => ReadError::Fault(Fault {
            kind: FaultKind::Lexical,
            line,
            what: Name::from_vec(text),
        }),
        Err(_) => ReadError::Memory,
    }
}

/// The first fault of a case or a schedule: its line, counted from 1, and the words that name it.
#[derive(Debug, Drop, Error)]
pub enum CaseFault {
    /// A control byte, or one from 128 on; `what` is the byte, as `0x9`.
    #[error("line {line}: the byte {what} stands in no word")]
    Lexical { line: u32, what: Name },
    /// A word that cannot stand where it does; `what` is the word, or `end` where the line or the text ends too early.
    #[error("line {line}: `{what}` cannot stand here")]
    Statement { line: u32, what: Name },
    /// A module that the case does not name before; `what` is its name.
    #[error("line {line}: the case names no module `{what}`")]
    Unknown { line: u32, what: Name },
    /// A module that is named twice; `what` is its name.
    #[error("line {line}: the case names the module `{what}` twice")]
    Twice { line: u32, what: Name },
    /// A number that is too large or too small; `what` is the number as it is written.
    #[error("line {line}: the number `{what}` is out of range")]
    Range { line: u32, what: Name },
    /// There are too many; `what` says of what: `modules`, `threads`, `calls`, `fuel` or `entries`.
    #[error("line {line}: the limit on {what} is passed")]
    Limit { line: u32, what: Name },
    /// There is not enough memory to read the text.
    #[error("out of memory")]
    Memory,
}

impl From<AllocError> for CaseFault {
    ghost from_gives = { λ _ e. e ≡ faults.Memory };

    fn from(_want: AllocError) -> CaseFault {
        CaseFault::Memory
    }
}

impl From<Memory> for CaseFault {
    ghost from_gives = { λ _ e. e ≡ faults.Memory };

    fn from(_want: Memory) -> CaseFault {
        CaseFault::Memory
    }
}

impl<T: Drop> From<AllocFailed<T>> for CaseFault {
    ghost from_gives = { λ _ e. e ≡ faults.Memory };

    fn from(_want: AllocFailed<T>) -> CaseFault {
        CaseFault::Memory
    }
}

fn fault_with(kind: FaultKind, line: u32, what: Name) -> CaseFault
    ensures { result ≡ fault_of kind line what }
{
    match kind {
        FaultKind::Lexical => CaseFault::Lexical { line, what },
        FaultKind::Statement => CaseFault::Statement { line, what },
        FaultKind::Unknown => CaseFault::Unknown { line, what },
        FaultKind::Twice => CaseFault::Twice { line, what },
        FaultKind::Range => CaseFault::Range { line, what },
        FaultKind::Limit => CaseFault::Limit { line, what },
    }
}

impl From<ReadError> for CaseFault {
    ghost from_gives = { λ e answered. answered ≡ answer e };

    fn from(error: ReadError) -> CaseFault {
        match error {
            ReadError::Memory => CaseFault::Memory,
            ReadError::Fault(Fault { kind, line, what }) => fault_with(kind, line, what),
        }
    }
}
