//! The tokens of IR text: words with what they may be, names by number, and no line that says nothing.
//!
//! ```text
//! // `%"x" = add i32 %x, 7`
//! let ir = read_tokens(alloc, text)?;
//! // Local, Mark(Equal), the words of an operator and of a scalar type, Local, Mark(Comma), and a Number of value 7.
//! ir.toks.as_slice();
//! // The two Local have one name number, whose name is `x`.
//! ir.names.name(number);
//! ```
//!
//! They go up to the first byte that begins no token. [`NameTable`] has the name of each number, and `places` tells where each token stands.
#![tactic(auto)]

mod keyword;
mod lines;
mod names;
mod read;
mod said;
mod token;
mod words;

ghost use Rattle.lx_ir_tokens.specs.Rows.{WorkedTokens};

pub use keyword::{
    ConstantWord, ConversionWord, InstructionWord, Keyword, ScalarWord, StatementWord,
};
pub use names::NameTable;
pub use read::{IrTokens, read_tokens, readings};
pub use token::{Kind, Mark, Tok, Toks};

/// Worked rows of words, names, byte strings and numbers.
pub fn worked_tokens()
    ensures { WorkedTokens }
{}
