//! Numbers in decimal.
ghost use Rattle.std.specs.Prelude.{◌≡◌};
ghost use Rattle.lx_cli.specs.Words.{begins_well, count_of, is_number};

use lx_generate::MOST_CALLS;
use lx_words::{are_digits, decimal_of};

/// Whether a number of these digits is written without a zero before it.
fn begins_well(digits: &[u8]) -> bool
    ensures { result ≡ begins_well digits.now }
{
    match digits {
        [] => false,
        [_] => true,
        [first, ..] => *first != b'0',
    }
}

/// Whether a word is a number in decimal.
fn is_number(word: &[u8]) -> bool
    ensures { result ≡ is_number word.now }
{
    begins_well(word) && are_digits(word)
}

/// The number of calls that a word says, if it is not too large.
pub(crate) fn count_of(word: &[u8]) -> Option<u32>
    ensures { result ≡ count_of word.now }
{
    if !is_number(word) {
        return None;
    }
    let count = decimal_of(word)?;
    if count <= u64::from(MOST_CALLS) {
        Some(count as u32)
    } else {
        None
    }
}
