//! Lines that say nothing to the grammar, and are passed over.

ghost use Rattle.std.specs.Prelude.{◌≡◌, ◌==◌, ◌++◌, ◌∷◌, [], ◌<◌, All, length, IfOk, OnOk, if◌then◌else◌};
ghost use Rattle.lx_words.specs.Cuts.{bytes_of, IsWithin};
ghost use Rattle.lx_ir_tokens.specs.Lines.{begins_silence, colon_first, is_mark, is_silent, kept_tokens, last_line, Ascends};

use crate::words::keyword;
use lx_words::{Memory, Token, TokenKind, Tokens};
use std::alloc::Global;

fn is_mark(byte: u8, kind: TokenKind, bytes: &[u8]) -> bool
    requires { 0 < length bytes.now }
    ensures { result ≡ is_mark byte kind bytes.now }
{
    kind == TokenKind::Mark && bytes[0] == byte
}

/// Whether a token begins a line that is passed over, unless `:` follows.
fn begins_silence(kind: TokenKind, bytes: &[u8]) -> bool
    requires { 0 < length bytes.now }
    ensures { result ≡ begins_silence kind bytes.now }
{
    if kind == TokenKind::Word {
        bytes[0] == b'$' || keyword(bytes).is_heading()
    } else {
        is_mark(b'!', kind, bytes)
    }
}

fn colon_first(text: &[u8], tokens: &[Token]) -> bool
    requires { All (IsWithin text.now) tokens.now }
    ensures { result ≡ colon_first text.now tokens.now }
{
    match tokens.split_first() {
        Some((first, _)) => is_mark(b':', first.kind, first.bytes(text)),
        None => false,
    }
}

/// Whether a line that begins with this token is passed over.
fn is_silent(text: &[u8], first: Token, behind: &[Token]) -> bool
    requires first { IsWithin text.now first }
    requires behind { All (IsWithin text.now) behind.now }
    ensures { result ≡ is_silent text.now (first ∷ behind.now) }
{
    begins_silence(first.kind, first.bytes(text)) && !colon_first(text, behind)
}

/// The same where the token before stands in `line`, and `silent` says whether that is passed over.
fn stays_silent(text: &[u8], first: Token, behind: &[Token], line: u32, silent: bool) -> bool
    requires first { IsWithin text.now first }
    requires behind { All (IsWithin text.now) behind.now }
    ensures { result ≡ (if first.line == line then silent else is_silent text.now (first ∷ behind.now)) }
{
    if first.line == line {
        silent
    } else {
        is_silent(text, first, behind)
    }
}

fn add_unless(tokens: &mut Tokens, token: Token, silent: bool) -> Result<(), Memory>
    ensures { OnOk result (tokens.new ≡ tokens.old ++ (if silent then [] else token ∷ [])) }
{
    if !silent {
        tokens.push(token)?;
    }
    Ok(())
}

/// The tokens of the lines that are not passed over.
pub fn kept_tokens(alloc: Global, text: &[u8], tokens: &[Token]) -> Result<Tokens, Memory>
    requires within { All (IsWithin text.now) tokens.now }
    requires ascending { Ascends 1 tokens.now }
    ensures { IfOk result (λ kept. kept ≡ kept_tokens text.now tokens.now) }
{
    let mut kept = Tokens::new(alloc);
    let mut rest = tokens;
    let mut line = 0;
    let mut silent = false;
    while let Some((token, behind)) = rest.split_first() {
        silent = stays_silent(text, *token, behind, line, silent);
        line = token.line;
        add_unless(&mut kept, *token, silent)?;
        rest = behind;
    }
    Ok(kept)
}

/// The line of the last token, or 1 where there is none.
pub fn last_line(tokens: &[Token]) -> u32
    ensures { result ≡ last_line tokens.now }
{
    tokens.last().map_or(1, |token| token.line)
}
