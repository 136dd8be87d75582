//! Tokens of IR text as its grammar sees them.

use crate::keyword::Keyword;
use lx_words::Items;

/// A mark of punctuation.
#[derive(Clone, Copy, PartialEq, Eq)]
pub enum Mark {
    Equal,
    Comma,
    OpenParenthesis,
    CloseParenthesis,
    OpenBrace,
    CloseBrace,
    OpenBracket,
    CloseBracket,
    Less,
    Greater,
    Hash,
    Exclamation,
    Colon,
}

/// What a token is.
#[derive(Clone, Copy, PartialEq, Eq)]
pub enum Kind {
    /// A word, with what it may be; its name is its bytes.
    Word(Keyword),
    /// A name with `%`.
    Local,
    /// A name with `@`.
    Global,
    /// A decimal number: its value where that has 128 bits with its sign, and whether `-` stands before its digits. Its
    /// name is its bytes.
    Number { value: Option<i128>, minus: bool },
    /// Bytes between quotes. It has no name.
    Text,
    /// A byte string, whose name is the bytes that it says.
    Bytes,
    /// A mark of punctuation. It has no name.
    Mark(Mark),
}

/// A token: what it is, and the number of its name in the table of names, which is 0 where it has none.
#[derive(Clone, Copy)]
pub struct Tok {
    pub kind: Kind,
    pub name: u32,
}

/// Tokens, in order.
pub type Toks = Items<Tok>;
