//! The tokens of a text.

ghost use Rattle.std.specs.Prelude.{◌≡◌, ℕ, List, ◌+◌, ◌^◌, ◌<◌, ◌≤◌, length, All, ◌++◌, IfOk, OnOk, IfErr};
ghost use Rattle.lx_words.specs.declared.token.TokenRule.{TokenRule};
ghost use Rattle.lx_words.specs.Cuts.{bytes_of, feeds, token_at, IsTokenOf, IsWithin, OneWay, Scans, SplitFails, Splits};

use crate::front::front;
use crate::memory::Memory;
use crate::token::{LexFault, Lexeme, Scan, Stop, Token, TokenRule, Tokens};
use std::alloc::Global;

impl Token {
    /// The bytes of a token of this text.
    pub fn bytes<'a>(&self, text: &'a [u8]) -> &'a [u8]
        requires { IsWithin text.now self.now }
        ensures { result.now ≡ bytes_of text.now self.now }
    {
        &text[self.start as usize..self.end as usize]
    }
}

fn line_feeds(text: &[u8]) -> usize
    ensures value { result ≡ feeds text.now }
    ensures within { result ≤ length text.now }
{
    text.iter().filter(|b| **b == b'\n').count()
}

/// Adds the token that a lexeme is, where it is one.
fn add_token(
    tokens: &mut Tokens,
    lexeme: Lexeme,
    start: u32,
    end: u32,
    line: u32,
) -> Result<(), Memory>
    ensures { OnOk result (tokens.new ≡ tokens.old ++ token_at lexeme start end line) }
{
    match lexeme {
        Lexeme::Space | Lexeme::Comment => Ok(()),
        Lexeme::Token(kind) => {
            tokens.push(Token {
                kind,
                start,
                end,
                line,
            })?;
            Ok(())
        }
    }
}

/// The tokens of a text up to the first byte that begins none, and that byte where there is one.
pub fn scan(alloc: Global, text: &[u8], rule: TokenRule) -> Result<Scan, Memory>
    requires { length text.now + 1 < 2 ^ 32 }
    ensures scans { IfOk result (λ s. Scans rule text.now s.tokens s.stop) }
    ensures each { IfOk result (λ s. All (IsTokenOf rule text.now) s.tokens) }
{
    let mut tokens = Tokens::new(alloc);
    let mut rest = text;
    let mut at: u32 = 0;
    let mut line: u32 = 1;
    while !rest.is_empty() {
        let Some((lexeme, behind)) = front(rule, rest) else {
            let byte = rest[0];
            return Ok(Scan {
                tokens,
                stop: Some(Stop { line, byte }),
            });
        };
        let (piece, after) = rest.split_at(behind + 1);
        let end = at + piece.len() as u32;
        add_token(&mut tokens, lexeme, at, end, line)?;
        line += line_feeds(piece) as u32;
        at = end;
        rest = after;
    }
    Ok(Scan { tokens, stop: None })
}

/// The tokens of a text.
///
/// # Errors
/// `LexFault::Byte` exactly where some byte begins no token, with the first such byte and its line.
pub fn split(alloc: Global, text: &[u8], rule: TokenRule) -> Result<Tokens, LexFault>
    requires { length text.now + 1 < 2 ^ 32 }
    ensures ok { IfOk result (λ tokens. Splits rule text.now tokens) }
    ensures each { IfOk result (λ tokens. All (IsTokenOf rule text.now) tokens) }
    ensures fault { IfErr result (λ fault. SplitFails rule text.now fault) }
{
    let scanned = scan(alloc, text, rule)?;
    match scanned.stop {
        None => Ok(scanned.tokens),
        Some(Stop { line, byte }) => Err(LexFault::Byte { line, byte }),
    }
}

/// A text has one way to be cut into tokens: what `scan` and `split` answer is the only answer.
pub fn one_way()
    ensures { (rule : TokenRule) (text : List ℕ) → OneWay rule text }
{}
