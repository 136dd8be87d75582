//! One word of a schedule.

ghost use Rattle.std.specs.Prelude.{◌≡◌, ◌+◌, ◌<◌, ◌^◌, IsTrue, length};
ghost use Rattle.std.specs.List.{list_all, prefix_len};
ghost use Rattle.lx_words.specs.Lexemes.{is_digit, some_all};
ghost use Rattle.lx_script.specs.Says.{SaysWord};
ghost use Rattle.lx_script.specs.Runs.{has_run_form, number_says, count_says, run_says};

use crate::fault::FaultKind;
use lx_words::{are_digits, decimal_of};

fn digits_len(text: &[u8]) -> usize
    ensures { result ≡ prefix_len is_digit text.now }
{
    text.iter()
        .take_while(|b| b'0' <= **b && **b <= b'9')
        .count()
}

/// What a word of a schedule says: a thread, and how often it comes.
#[derive(Clone, Copy)]
pub struct Run {
    pub thread: u32,
    pub count: u32,
}

/// What is wrong with a word.
#[derive(Clone, Copy)]
pub struct WordFault<'a> {
    pub kind: FaultKind,
    pub what: &'a [u8],
}

/// A number of 32 bits.
fn number_of(digits: &[u8]) -> Result<u32, WordFault<'_>>
    requires { IsTrue (list_all is_digit digits.now) }
    ensures { SaysWord (λ n. n) result (number_says digits.now) }
{
    match decimal_of(digits) {
        Some(number) if number <= u64::from(u32::MAX) => Ok(number as u32),
        _ => Err(WordFault {
            kind: FaultKind::Range,
            what: digits,
        }),
    }
}

/// A number of 32 bits that is not 0.
fn count_of(digits: &[u8]) -> Result<u32, WordFault<'_>>
    requires { IsTrue (list_all is_digit digits.now) }
    ensures { SaysWord (λ n. n) result (count_says digits.now) }
{
    match decimal_of(digits) {
        Some(number) if 0 < number && number <= u64::from(u32::MAX) => Ok(number as u32),
        _ => Err(WordFault {
            kind: FaultKind::Range,
            what: digits,
        }),
    }
}

#[tactic(auto, using(crate::proofs::Fronts::some_all_is))]
pub fn is_a_number(text: &[u8]) -> bool
    ensures { result ≡ some_all is_digit text.now }
{
    !text.is_empty() && are_digits(text)
}

/// Whether a word is digits, `*` and digits; `len` is how many digits are at its front.
fn is_run(word: &[u8], len: usize) -> bool
    requires { len ≡ prefix_len is_digit word.now }
    ensures { result ≡ has_run_form word.now }
{
    len > 0 && len < word.len() && word[len] == b'*' && is_a_number(&word[len + 1..])
}

/// The thread and the count that a word says.
#[tactic(auto, unfolding(crate::specs::Runs::run_says))]
pub fn run_of(word: &[u8]) -> Result<Run, WordFault<'_>>
    ensures { SaysWord (λ r. (r.thread, r.count)) result (run_says word.now) }
{
    let len = digits_len(word);
    if !is_run(word, len) {
        return Err(WordFault {
            kind: FaultKind::Statement,
            what: word,
        });
    }
    let thread = number_of(&word[..len])?;
    let count = count_of(&word[len + 1..])?;
    Ok(Run { thread, count })
}
