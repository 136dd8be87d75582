//! Machine words and the results of instructions on them, the text of numbers, the tokens of texts, and lists.
//!
//! ```text
//! let a = Word::new(Width::W8, 200);
//! // 44: the sum of two words of 8 bits, cut to 8 bits.
//! binary(BinOp::Add, a, Word::new(Width::W8, 100))?;
//! // 200 is -56 where the highest bit is a sign.
//! is_negative(a);
//! // `out` ends in `0x1000`.
//! put_hex(&mut out, 0x1000)?;
//! ```
#![tactic(auto)]

mod classes;
mod front;
mod items;
mod lexer;
mod memory;
mod number;
mod operators;
mod text;
mod token;
mod word;

pub use items::Items;
pub use lexer::{one_way, scan, split};
pub use memory::{Memory, number_of};
pub use number::{are_digits, are_hex_digits, decimal_of, hex_of};
pub use operators::{DivFault, below_minus_one, binary, compare, is_negative, resize};
pub use text::{number_texts, put_decimal, put_hex};
pub use token::{LexFault, Lexeme, Scan, Stop, Token, TokenKind, TokenRule, Tokens};
pub use word::{BinOp, Pred, Width, Word};

/// The bytes of a name.
pub type Name = Items<u8>;
/// A list of names.
pub type Names = Items<Name>;
/// A list of words.
pub type Words = Items<Word>;
/// A list of thread numbers.
pub type Schedule = Items<u32>;

ghost use Rattle.lx_words.specs.Rows.{WorkedWords};

/// Worked rows of the instructions' results.
pub fn worked_words()
    ensures { WorkedWords }
{}
