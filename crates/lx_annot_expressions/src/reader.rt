//! Reading the tokens of a statement forward.

ghost use Rattle.std.specs.Prelude.{◌≡◌, ◌≤◌, [], ◌∷◌, All, length, if◌then◌else◌, MatchOption, IfSome, IfOk};
ghost use Rattle.lx_words.specs.Cuts.{IsWithin};
ghost use Rattle.lx_annot_expressions.specs.Tokens.{toks_of, most_tokens};
ghost use Rattle.lx_annot_expressions.specs.Reading.{Gives, GivesBy, Passes, at, behind, has, next_at, number_at, number_of, picked, refused, unless_word, within, word_at, word_of};

use crate::fault::{Fault, FaultKind, ReadError};
use lx_words::{Token, TokenKind, are_digits, decimal_of};
use std::marker::Model;

/// How many tokens a statement has at most.
pub const MOST_TOKENS: usize = 1024;

/// The tokens of a statement that are left: at most 1,024. Contracts see what each is, with its bytes.
#[derive(Drop)]
pub struct Reader<'a> {
    text: &'a [u8],
    rest: &'a [Token],
}

impl<'a> Model for Reader<'a> {
    ghost use Rattle.std.specs.Prelude.{All, List, ◌≤◌, length};
    ghost use Rattle.lx_words.specs.Cuts.{IsWithin};
    ghost use Rattle.lx_annot_expressions.specs.Tokens.{Tok, toks_of, most_tokens};

    ghost Value = { List Tok };

    ghost view = { λ r. toks_of r.text.now r.rest.now };

    ghost invariant = { λ r. All (IsWithin r.text.now) r.rest.now × (length r.rest.now ≤ most_tokens) };
}

/// How a token is refused where a word has to stand that names something.
pub fn unless_word(kind: FaultKind, token: TokenKind) -> FaultKind
    ensures { result ≡ unless_word kind token }
{
    match token {
        TokenKind::Word => kind,
        _ => FaultKind::Statement,
    }
}

/// What digits say, where that is at most `limit`.
fn within(limit: u64, digits: &[u8]) -> Option<u64>
    ensures said { result ≡ within limit digits.now }
    ensures bound { IfSome result (λ n. n ≤ limit) }
{
    if !are_digits(digits) {
        return None;
    }
    match decimal_of(digits) {
        Some(n) if n <= limit => Some(n),
        _ => None,
    }
}

/// The number that a token says, where it is at most `limit`.
pub fn number_of(limit: u64, kind: TokenKind, bytes: &[u8]) -> Option<u64>
    ensures said { result ≡ number_of limit kind bytes.now }
    ensures bound { IfSome result (λ n. n ≤ limit) }
{
    match kind {
        TokenKind::Number => within(limit, bytes),
        _ => None,
    }
}

impl<'a> Reader<'a> {
    /// A reader of these tokens of a text.
    pub fn new(text: &'a [u8], tokens: &'a [Token]) -> Self
        requires within { All (IsWithin text.now) tokens.now }
        requires room { length tokens.now ≤ most_tokens }
        ensures { result ≡ toks_of text.now tokens.now }
    {
        Reader { text, rest: tokens }
    }

    /// How many tokens are left.
    pub fn left(&self) -> usize
        ensures left { result ≡ length self.now }
        ensures room { result ≤ most_tokens }
    {
        self.rest.len()
    }

    /// The fault at the next token.
    pub fn fault(&self, kind: FaultKind) -> ReadError
        ensures { result ≡ ReadError.Fault (at kind self.now) }
    {
        ReadError::Fault(Fault {
            kind,
            left: self.rest.len(),
        })
    }

    /// What the next token is, with its bytes.
    pub fn token(&self) -> Option<(TokenKind, &'a [u8])>
        ensures { MatchOption result (self.now ≡ []) (λ t. self.now ≡ record { kind = t.0; bytes = t.1.now } ∷ behind self.now) }
    {
        let token = self.rest.first()?;
        Some((token.kind, token.bytes(self.text)))
    }

    /// Whether the token of these bytes stands next.
    pub fn has(&self, text: &[u8]) -> bool
        ensures { result ≡ has text.now self.now }
    {
        match self.token() {
            Some((_, bytes)) => bytes == text,
            None => false,
        }
    }

    /// A second reader of the same tokens.
    pub fn here(&self) -> Reader<'a>
        ensures { result ≡ self.now }
    {
        Reader {
            text: self.text,
            rest: self.rest,
        }
    }

    /// A reader of the tokens behind the next.
    pub fn behind(&self) -> Reader<'a>
        ensures { result ≡ behind self.now }
    {
        let mut rest = self.here();
        rest.skip();
        rest
    }

    /// Goes over the next token.
    pub fn skip(&mut self)
        ensures { self.new ≡ behind self.old }
    {
        if let [_, rest @ ..] = self.rest {
            self.rest = rest;
        }
    }

    /// Goes over the token of these bytes, where it stands next.
    pub fn takes(&mut self, text: &[u8]) -> bool
        ensures taken { result ≡ has text.now self.old }
        ensures rest { self.new ≡ (if has text.now self.old then behind self.old else self.old) }
    {
        let taken = self.has(text);
        if taken {
            self.skip();
        }
        taken
    }

    /// Goes over the token of these bytes, which has to stand next.
    pub fn expect(&mut self, text: &[u8]) -> Result<(), ReadError>
        ensures reads { Passes result self.new (next_at text.now self.old) }
        ensures shrinks { length self.new ≤ length self.old }
    {
        if !self.has(text) {
            return Err(self.fault(FaultKind::Statement));
        }
        self.skip();
        Ok(())
    }

    /// Goes over the next token, where something was picked from it; else the fault at it.
    pub fn picked<T: Drop>(&mut self, what: Option<T>, kind: FaultKind) -> Result<T, ReadError>
        ensures reads { Gives result self.new (picked what kind self.old) }
        ensures shrinks { length self.new ≤ length self.old }
    {
        match what {
            Some(x) => {
                self.skip();
                Ok(x)
            }
            None => Err(self.fault(kind)),
        }
    }

    /// A word, whatever it says.
    pub fn word(&mut self) -> Result<&'a [u8], ReadError>
        ensures reads { GivesBy (λ w. w.now) result self.new (word_at self.old) }
        ensures shrinks { length self.new ≤ length self.old }
    {
        match self.token() {
            Some((TokenKind::Word, bytes)) => {
                self.skip();
                Ok(bytes)
            }
            _ => Err(self.fault(FaultKind::Statement)),
        }
    }

    /// A number that is at most `limit`.
    pub fn number(&mut self, limit: u64) -> Result<u64, ReadError>
        ensures reads { Gives result self.new (number_at limit self.old) }
        ensures shrinks { length self.new ≤ length self.old }
        ensures bound { IfOk result (λ n. n ≤ limit) }
    {
        let Some((kind, bytes)) = self.token() else {
            return Err(self.fault(FaultKind::Statement));
        };
        match number_of(limit, kind, bytes) {
            Some(number) => {
                self.skip();
                Ok(number)
            }
            None => Err(self.fault(FaultKind::Statement)),
        }
    }
}
