//! Reading forward.

ghost use Rattle.std.specs.Prelude.{◌≡◌, ◌≤◌, length, if◌then◌else◌};
ghost use Rattle.lx_ir_terms.specs.Reading.{Gives, Passes, at, refusal, picked, is_mark, is_times, is_to, has, behind, next_at, mark_at};

use crate::fault::{Fault, FaultKind, ReadError};
use lx_ir_tokens::{Keyword, Kind, Mark, Tok};
use std::marker::Model;

/// The tokens that are left.
#[derive(Drop)]
pub struct Reader<'a> {
    pub rest: &'a [Tok],
}

impl<'a> Model for Reader<'a> {
    ghost use Rattle.std.specs.Prelude.{List};
    ghost use Rattle.lx_ir_tokens.specs.declared.token.Tok.{Tok};

    ghost Value = { List Tok };

    ghost view = { λ r. r.rest.now };
}

/// How a token is refused where a type or a constant has to stand.
pub fn refusal(kind: Kind) -> FaultKind
    ensures { result ≡ refusal kind }
{
    match kind {
        Kind::Word(word) if !word.is_in_profile() => FaultKind::OutOfProfile,
        _ => FaultKind::Statement,
    }
}

/// Whether a token is this mark.
pub fn is_mark(kind: Kind, mark: Mark) -> bool
    ensures { result ≡ is_mark mark kind }
{
    matches!(kind, Kind::Mark(other) if other == mark)
}

impl<'a> Reader<'a> {
    /// A reader of these tokens.
    pub fn new(tokens: &'a [Tok]) -> Self
        ensures { result ≡ tokens.now }
    {
        Reader { rest: tokens }
    }

    /// How many tokens are left.
    pub fn left(&self) -> usize
        ensures { result ≡ length self.now }
    {
        self.rest.len()
    }

    /// The fault at the next token.
    pub fn fault(&self, kind: FaultKind) -> ReadError
        ensures { result ≡ ReadError.Fault (at kind self.now) }
    {
        ReadError::Fault(Fault {
            kind,
            left: self.rest.len(),
        })
    }

    /// Whether a mark stands next.
    pub fn has(&self, mark: Mark) -> bool
        ensures { result ≡ has (is_mark mark) self.now }
    {
        match self.rest {
            [] => false,
            [token, ..] => is_mark(token.kind, mark),
        }
    }

    /// Goes over the next token.
    pub fn skip(&mut self)
        ensures { self.new ≡ behind self.old }
    {
        if let [_, rest @ ..] = self.rest {
            self.rest = rest;
        }
    }

    /// Goes over a mark, where it stands next.
    pub fn takes(&mut self, mark: Mark) -> bool
        ensures taken { result ≡ has (is_mark mark) self.old }
        ensures rest { self.new ≡ (if has (is_mark mark) self.old then behind self.old else self.old) }
    {
        let taken = self.has(mark);
        if taken {
            self.skip();
        }
        taken
    }

    /// Goes over a mark, which has to stand next.
    pub fn mark(&mut self, mark: Mark) -> Result<(), ReadError>
        ensures reads { Passes result self.new (mark_at mark self.old) }
        ensures shrinks { length self.new ≤ length self.old }
    {
        if !self.has(mark) {
            return Err(self.fault(FaultKind::Statement));
        }
        self.skip();
        Ok(())
    }

    /// Goes over the `x` of an array type.
    pub fn times(&mut self) -> Result<(), ReadError>
        ensures reads { Passes result self.new (next_at is_times self.old) }
        ensures shrinks { length self.new ≤ length self.old }
    {
        match self.rest {
            [
                Tok {
                    kind: Kind::Word(Keyword::Times),
                    ..
                },
                rest @ ..,
            ] => {
                self.rest = rest;
                Ok(())
            }
            _ => Err(self.fault(FaultKind::Statement)),
        }
    }

    /// Goes over the `to` of a conversion.
    pub fn to(&mut self) -> Result<(), ReadError>
        ensures reads { Passes result self.new (next_at is_to self.old) }
        ensures shrinks { length self.new ≤ length self.old }
    {
        match self.rest {
            [
                Tok {
                    kind: Kind::Word(Keyword::To),
                    ..
                },
                rest @ ..,
            ] => {
                self.rest = rest;
                Ok(())
            }
            _ => Err(self.fault(FaultKind::Statement)),
        }
    }

    /// Goes over the next token, where something was picked from it; else the fault at it.
    pub fn picked<T: Drop>(&mut self, what: Option<T>, kind: FaultKind) -> Result<T, ReadError>
        ensures reads { Gives result self.new (picked what kind self.old) }
        ensures shrinks { length self.new ≤ length self.old }
    {
        match what {
            Some(x) => {
                self.skip();
                Ok(x)
            }
            None => Err(self.fault(kind)),
        }
    }
}
