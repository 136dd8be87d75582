//! Why an interface could not be read.

ghost use Rattle.std.specs.Prelude.{◌≡◌, ◌++◌, All, IfOk, codes, slice_get};
ghost use Rattle.lx_words.specs.Cuts.{IsWithin};
ghost use Rattle.lx_annot_read.specs.Faults.{IsError, answer, fault_of, kind_of, last_line, lexical, met_as, met_at, met_at_end};
ghost use Rattle.lx_annot_read.specs.Said.{struct_of, what_of};
ghost use Rattle.lx_annot_read.specs.declared.fault.InterfaceFault.TheVariants as faults;
ghost use Rattle.lx_annot_read.specs.declared.fault.Failure.TheVariants as failures;

use crate::said::struct_of;
use lx_annot_expressions::FaultKind;
use lx_words::{Memory, Name, Stop, Token, TokenKind, put_hex};
use std::alloc::Global;
use thiserror::Error;

/// The first fault of an interface: its line, counted from 1, and the words that name it.
#[derive(Debug, Drop, Error)]
pub enum InterfaceFault {
    /// A byte that begins no token; `what` is the byte, as `0x9`.
    #[error("line {line}: the byte {what} begins no token")]
    Lexical { line: u32, what: Name },
    /// A token that cannot stand where it does; `what` is the token, or `end` where the text ends too early.
    #[error("line {line}: `{what}` cannot stand here")]
    Statement { line: u32, what: Name },
    /// A name that is not declared before, or `return` where it means nothing; `what` is the name.
    #[error("line {line}: `{what}` is not declared")]
    Unknown { line: u32, what: Name },
    /// A name that is declared twice in its kind, or a field that is typed twice; `what` is the name.
    #[error("line {line}: `{what}` is declared twice")]
    Twice { line: u32, what: Name },
    /// A `write` without a size; `what` is `write`.
    #[error("line {line}: `{what}` has no size")]
    NeedsSize { line: u32, what: Name },
    /// There is not enough memory to read the text.
    #[error("out of memory")]
    Memory,
}

/// What kind of fault a text has.
#[derive(Clone, Copy)]
pub enum Kind {
    Lexical,
    Statement,
    Unknown,
    Twice,
    NeedsSize,
}

/// A fault that is met in a line, counted from 1, and the words that name it.
#[derive(Drop)]
pub struct Met {
    pub kind: Kind,
    pub line: u32,
    pub what: Name,
}

/// Why a part of a text could not be read.
#[derive(Drop)]
pub enum Failure {
    Fault(Met),
    Memory,
}

impl From<Memory> for Failure {
    ghost from_gives = { λ _ e. e ≡ failures.Memory };

    fn from(_want: Memory) -> Failure {
        Failure::Memory
    }
}

fn fault_with(kind: Kind, line: u32, what: Name) -> InterfaceFault
    ensures { result ≡ fault_of kind line what }
{
    match kind {
        Kind::Lexical => InterfaceFault::Lexical { line, what },
        Kind::Statement => InterfaceFault::Statement { line, what },
        Kind::Unknown => InterfaceFault::Unknown { line, what },
        Kind::Twice => InterfaceFault::Twice { line, what },
        Kind::NeedsSize => InterfaceFault::NeedsSize { line, what },
    }
}

impl From<Memory> for InterfaceFault {
    ghost from_gives = { λ _ e. e ≡ faults.Memory };

    fn from(_want: Memory) -> InterfaceFault {
        InterfaceFault::Memory
    }
}

impl From<Failure> for InterfaceFault {
    ghost from_gives = { λ e answered. answered ≡ answer e };

    fn from(failure: Failure) -> InterfaceFault {
        match failure {
            Failure::Memory => InterfaceFault::Memory,
            Failure::Fault(Met { kind, line, what }) => fault_with(kind, line, what),
        }
    }
}

fn kind_of(kind: FaultKind) -> Kind
    ensures { result ≡ kind_of kind }
{
    match kind {
        FaultKind::Statement => Kind::Statement,
        FaultKind::Unknown => Kind::Unknown,
        FaultKind::Twice => Kind::Twice,
        FaultKind::NeedsSize => Kind::NeedsSize,
    }
}

/// A fault with words of its own, or want of memory for these.
fn fault_met(alloc: Global, kind: Kind, line: u32, what: &[u8]) -> Failure
    ensures { IsError (met_as kind line what.now) result }
{
    match Name::from_bytes(alloc, what) {
        Ok(what) => Failure::Fault(Met { kind, line, what }),
        Err(_) => Failure::Memory,
    }
}

/// The fault of a byte that begins no token.
pub fn lexical(alloc: Global, stop: Stop) -> Failure
    ensures { IsError (lexical stop) result }
{
    let mut text = Vec::new(alloc);
    match put_hex(&mut text, u64::from(stop.byte)) {
        Ok(()) => Failure::Fault(Met {
            kind: Kind::Lexical,
            line: stop.line,
            what: Name::from_vec(text),
        }),
        Err(_) => Failure::Memory,
    }
}

/// The name of a struct, as a fault writes it.
fn struct_text(alloc: Global, bytes: &[u8]) -> Result<Name, Memory>
    ensures { IfOk result (λ what. what ≡ codes "%" ++ struct_of bytes.now) }
{
    let mut what = Vec::from_slice(alloc, b"%")?;
    what.extend_from_slice(struct_of(bytes))?;
    Ok(Name::from_vec(what))
}

/// A fault at a struct that is typed twice.
fn met_struct(alloc: Global, line: u32, bytes: &[u8]) -> Failure
    ensures { IsError (met_as Kind.Twice line (codes "%" ++ struct_of bytes.now)) result }
{
    match struct_text(alloc, bytes) {
        Ok(what) => Failure::Fault(Met {
            kind: Kind::Twice,
            line,
            what,
        }),
        Err(_) => Failure::Memory,
    }
}

/// The fault of a kind at a token.
fn met_at_token(
    alloc: Global,
    kind: FaultKind,
    token: TokenKind,
    line: u32,
    bytes: &[u8],
) -> Failure
    ensures { IsError (met_as (kind_of kind) line (what_of kind token bytes.now)) result }
{
    match (kind, token) {
        (FaultKind::Twice, TokenKind::Local) => met_struct(alloc, line, bytes),
        _ => fault_met(alloc, kind_of(kind), line, bytes),
    }
}

fn last_line(tokens: &[Token]) -> u32
    ensures { result ≡ last_line tokens.now }
{
    match tokens.last() {
        Some(token) => token.line,
        None => 1,
    }
}

/// The fault where the tokens end.
pub fn met_at_end(alloc: Global, tokens: &[Token], stop: Option<Stop>) -> Failure
    ensures { IsError (met_at_end tokens.now stop) result }
{
    match stop {
        Some(stop) => lexical(alloc, stop),
        None => fault_met(alloc, Kind::Statement, last_line(tokens), b"end"),
    }
}

/// The fault of a kind at the token at this place, or at the end where there is none.
pub fn met_at(
    alloc: Global,
    text: &[u8],
    stop: Option<Stop>,
    tokens: &[Token],
    kind: FaultKind,
    place: usize,
) -> Failure
    requires { All (IsWithin text.now) tokens.now }
    ensures { IsError (met_at text.now stop tokens.now kind (slice_get tokens.now place)) result }
{
    match tokens.get(place) {
        Some(token) => met_at_token(alloc, kind, token.kind, token.line, token.bytes(text)),
        None => met_at_end(alloc, tokens, stop),
    }
}
