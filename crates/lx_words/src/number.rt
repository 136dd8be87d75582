//! Numbers read from digits.

ghost use Rattle.std.specs.Prelude.{◌≡◌, ◌^◌, ◌<◌, ◌≤◌, IsTrue, MatchOption};
ghost use Rattle.std.specs.List.{list_all};
ghost use Rattle.lx_words.specs.Lexemes.{is_digit, is_hex};
ghost use Rattle.lx_words.specs.Text.{decimal_value, digit_value, hex_value};

use crate::classes::{is_a_digit, is_a_hex_digit};

/// Whether each byte is a decimal digit.
pub fn are_digits(text: &[u8]) -> bool
    ensures { result ≡ list_all is_digit text.now }
{
    text.iter().all(|b| is_a_digit(*b))
}

/// Whether each byte is a hexadecimal digit.
pub fn are_hex_digits(text: &[u8]) -> bool
    ensures { result ≡ list_all is_hex text.now }
{
    text.iter().all(|b| is_a_hex_digit(*b))
}

/// The number that decimal digits say, or none where it has more than 64 bits.
pub fn decimal_of(digits: &[u8]) -> Option<u64>
    requires { IsTrue (list_all is_digit digits.now) }
    ensures { MatchOption result (2 ^ 64 ≤ decimal_value digits.now) (λ n. n ≡ decimal_value digits.now) }
{
    let mut number: u64 = 0;
    for digit in digits {
        number = number.checked_mul(10)?.checked_add(digit_value(*digit))?;
    }
    Some(number)
}

/// The number that hexadecimal digits say, or none where it has more than 64 bits.
pub fn hex_of(digits: &[u8]) -> Option<u64>
    requires { IsTrue (list_all is_hex digits.now) }
    ensures { MatchOption result (2 ^ 64 ≤ hex_value digits.now) (λ n. n ≡ hex_value digits.now) }
{
    let mut number: u64 = 0;
    for digit in digits {
        number = number.checked_mul(16)?.checked_add(digit_value(*digit))?;
    }
    Some(number)
}

/// What a decimal or hexadecimal digit counts.
fn digit_value(digit: u8) -> u64
    requires { IsTrue (is_hex digit) }
    ensures { result ≡ digit_value digit }
{
    let value = if digit <= b'9' {
        digit - b'0'
    } else if digit <= b'F' {
        digit - b'A' + 10
    } else {
        digit - b'a' + 10
    };
    u64::from(value)
}
