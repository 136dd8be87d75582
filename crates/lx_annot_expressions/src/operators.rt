//! The operators of expressions.

ghost use Rattle.std.specs.Prelude.{◌≡◌, bytes_eq, find, map};
ghost use Rattle.std.specs.Option.{option_map};
ghost use Rattle.std.specs.Map.{lookup};
ghost use Rattle.lx_annot_expressions.specs.Operators.{if_of_level, operator_next, operator_of, prefix_next};

use crate::reader::Reader;
use crate::table::found;
use lx_annot::expr::Mark;

/// How many levels of operators there are.
pub const LEVELS: u32 = 10;

/// The operators with two sides, each with the number of levels of operators that bind more tightly.
const OPERATORS: [(&[u8], (u32, Mark)); 16] = [
    (b"||", (9, Mark::Either)),
    (b"&&", (8, Mark::Both)),
    (b"|", (7, Mark::Or)),
    (b"^", (6, Mark::Xor)),
    (b"&", (5, Mark::And)),
    (b"==", (4, Mark::Equal)),
    (b"!=", (4, Mark::Differs)),
    (b"<", (3, Mark::Less)),
    (b"<=", (3, Mark::AtMost)),
    (b">", (3, Mark::Greater)),
    (b">=", (3, Mark::AtLeast)),
    (b"<<", (2, Mark::ShiftLeft)),
    (b">>", (2, Mark::ShiftRight)),
    (b"+", (1, Mark::Add)),
    (b"-", (1, Mark::Sub)),
    (b"*", (0, Mark::Mul)),
];

/// The operator of these bytes, with its level.
#[tactic(auto, unfolding(crate::specs::Operators::operator_of))]
fn operator_of(bytes: &[u8]) -> Option<(u32, Mark)>
    ensures { result ≡ operator_of bytes.now }
{
    found(&OPERATORS, bytes)
}

impl<'a> Reader<'a> {
    /// The operator of a level, where one stands next.
    pub fn operator(&self, level: u32) -> Option<Mark>
        ensures { result ≡ operator_next level self.now }
    {
        let (_, bytes) = self.token()?;
        let (found, mark) = operator_of(bytes)?;
        if found == level { Some(mark) } else { None }
    }

    /// The operator with one side, where one stands next.
    pub fn prefix(&self) -> Option<Mark>
        ensures { result ≡ prefix_next self.now }
    {
        if self.has(b"-") {
            Some(Mark::Negate)
        } else if self.has(b"!") {
            Some(Mark::Invert)
        } else {
            None
        }
    }
}
