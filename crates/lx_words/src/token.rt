//! What a text is cut into.

ghost use Rattle.std.specs.Prelude.{◌≡◌};
ghost use Rattle.lx_words.specs.declared.token.LexFault.TheVariants.{Memory as no_memory};

use crate::items::Items;
use crate::memory::Memory;
use thiserror::Error;

/// Which text form the tokens are of.
#[derive(Clone, Copy)]
pub enum TokenRule {
    /// Programs and images.
    Ir,
    /// Interfaces.
    Interface,
    /// Interfaces written as annotated C prototypes.
    Prototype,
}

/// What a token is.
#[derive(Clone, Copy, PartialEq, Eq)]
pub enum TokenKind {
    /// A keyword, or a name without a sigil.
    Word,
    /// A name with `%`.
    Local,
    /// A name with `@`.
    Global,
    /// A decimal number, in a program's text perhaps with `-`.
    Number,
    /// Bytes between quotes.
    Text,
    /// A byte string, `c` and bytes between quotes.
    Bytes,
    /// A mark of punctuation or an operator.
    Mark,
}

/// A piece of a text: a space, a comment, or a token.
#[derive(Clone, Copy)]
pub enum Lexeme {
    Space,
    Comment,
    Token(TokenKind),
}

/// A token: its bytes stand in the text from `start` up to `end`, and begin in line `line`, counted from 1.
#[derive(Clone, Copy)]
pub struct Token {
    pub kind: TokenKind,
    pub start: u32,
    pub end: u32,
    pub line: u32,
}

/// The tokens of a text, in order.
pub type Tokens = Items<Token>;

/// The first byte that begins no token, and its line.
#[derive(Clone, Copy)]
pub struct Stop {
    pub line: u32,
    pub byte: u8,
}

/// The tokens before the first byte that begins none, and that byte where there is one.
#[derive(Drop)]
pub struct Scan {
    pub tokens: Tokens,
    pub stop: Option<Stop>,
}

/// Why a text does not fall into tokens.
#[derive(Clone, Copy, Debug, Error)]
pub enum LexFault {
    #[error("out of memory")]
    Memory,
    #[error("line {line}: the byte {byte:#x} begins no token")]
    Byte { line: u32, byte: u8 },
}

impl From<Memory> for LexFault {
    ghost from_gives = { λ _ fault. fault ≡ no_memory };

    fn from(_want: Memory) -> LexFault {
        LexFault::Memory
    }
}
