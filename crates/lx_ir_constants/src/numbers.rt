//! Numbers at a width.

ghost use Rattle.std.specs.Prelude.{◌≡◌};
ghost use Rattle.lx_ir_constants.specs.Constants.{word_in, number_in};

use lx_ir_tokens::Kind;
use lx_words::{Width, Word};

/// The word that a number says at a width; none where it is below the least signed one or above the greatest unsigned
/// one.
fn word_in(width: Width, value: i128) -> Option<Word>
    ensures { result ≡ word_in width value }
{
    let mask = width.mask();
    if value < 0 {
        let below = -1 - value;
        if below > i128::from(mask >> 1) {
            return None;
        }
        let bits = mask - below as u64;
        return Some(Word { width, bits });
    }
    if value > i128::from(mask) {
        return None;
    }
    let bits = value as u64;
    Some(Word { width, bits })
}

/// The word that a token says at a width, where it is a number.
pub fn number_in(width: Width, kind: Kind) -> Option<Word>
    ensures { result ≡ number_in width kind }
{
    match kind {
        Kind::Number {
            value: Some(value),
            ..
        } => word_in(width, value),
        _ => None,
    }
}
