//! What the bytes of a token say.

ghost use Rattle.std.specs.Prelude.{◌≡◌, ◌==◌, ◌&&◌, ◌*◌, ◌+◌, ◌^◌, ◌<◌, ◌≤◌, [], ◌∷◌, drop, length, slice_index, IfOk, IsTrue, MatchOption};
ghost use Rattle.lx_words.specs.Lexemes.{is_hex};
ghost use Rattle.lx_words.specs.Text.{decimal_value, digit_value, hex_value};
ghost use Rattle.lx_ir_tokens.specs.Said.{all_but_last, bytes_said, digits_of, fitting, has_minus, kind_of, mark_of, name_said, unescaped, unquoted, value_of_number, with_sign};

use crate::token::{Kind, Mark};
use crate::words::keyword;
use lx_words::{Memory, TokenKind, are_hex_digits};
use std::alloc::Global;

/// What is left behind the first `n` bytes.
fn behind(text: &[u8], n: usize) -> &[u8]
    ensures { result.now ≡ drop n text.now }
{
    if n < text.len() {
        text.split_at(n).1
    } else {
        &[]
    }
}

/// The bytes without the last of them.
fn all_but_last(text: &[u8]) -> &[u8]
    ensures { result.now ≡ all_but_last text.now }
{
    if text.is_empty() {
        text
    } else {
        text.split_at(text.len() - 1).0
    }
}

fn begins_with(text: &[u8], b: u8) -> bool
    requires { 0 < b }
    ensures { result ≡ (slice_index text.now 0 == b) }
{
    !text.is_empty() && text[0] == b
}

/// The name behind the `%` or `@` of a token, without quotes.
pub fn name_said(bytes: &[u8]) -> &[u8]
    ensures { result.now ≡ name_said bytes.now }
{
    let name = behind(bytes, 1);
    if begins_with(name, b'"') {
        all_but_last(behind(name, 1))
    } else {
        name
    }
}

/// What a hexadecimal digit counts. Bytes that are none give some number too, so that no caller has to rule them out.
fn digit_value(digit: u8) -> u8
    ensures { result ≡ digit_value digit }
{
    if digit <= b'9' {
        digit.saturating_sub(b'0')
    } else if digit <= b'F' {
        digit.saturating_sub(b'A' - 10)
    } else {
        digit.saturating_sub(b'a' - 10)
    }
}

/// The number that decimal digits say, or none where it has more than 128 bits.
fn magnitude(digits: &[u8]) -> Option<u128>
    ensures { MatchOption result (2 ^ 128 ≤ decimal_value digits.now) (λ n. n ≡ decimal_value digits.now) }
{
    let mut number: u128 = 0;
    for digit in digits {
        number = number
            .checked_mul(10)?
            .checked_add(u128::from(digit_value(*digit)))?;
    }
    Some(number)
}

/// The number of this sign and magnitude, where it has 128 bits.
fn signed(minus: bool, magnitude: u128) -> Option<i128>
    ensures { result ≡ fitting (with_sign minus magnitude) }
{
    if !minus {
        i128::try_from(magnitude).ok()
    } else if magnitude == 0 {
        Some(0)
    } else {
        let below = i128::try_from(magnitude - 1).ok()?;
        Some(-1 - below)
    }
}

/// Whether a text begins with a backslash and two hexadecimal digits behind `first`.
fn is_escape(first: u8, rest: &[u8]) -> bool
    ensures some { IsTrue result → 2 ≤ length rest.now }
    ensures test { 2 ≤ length rest.now → result ≡ (first == 92 && is_hex (slice_index rest.now 0) && is_hex (slice_index rest.now 1)) }
{
    first == b'\\' && rest.len() >= 2 && are_hex_digits(&rest[..1]) && are_hex_digits(&rest[1..2])
}

/// The first byte that the inside of a byte string says, and what stands behind it.
fn first_said(text: &[u8]) -> Option<(u8, &[u8])>
    ensures { MatchOption result (text.now ≡ []) (λ p. (unescaped text.now ≡ p.0 ∷ unescaped p.1.now) × (length p.1.now < length text.now)) }
{
    let (first, rest) = text.split_first()?;
    if is_escape(*first, rest) {
        let (digits, behind) = rest.split_at(2);
        Some((16 * digit_value(digits[0]) + digit_value(digits[1]), behind))
    } else {
        Some((*first, rest))
    }
}

/// The bytes that a byte string says.
pub fn bytes_said(alloc: Global, bytes: &[u8]) -> Result<Vec<u8>, Memory>
    ensures { IfOk result (λ said. said.items ≡ bytes_said bytes.now) }
{
    let mut said = Vec::new(alloc);
    let mut rest = all_but_last(behind(bytes, 2));
    while let Some((byte, behind)) = first_said(rest) {
        said.push(byte)?;
        rest = behind;
    }
    Ok(said)
}

/// Whether `-` stands before the digits of a number.
fn has_minus(bytes: &[u8]) -> bool
    ensures { result ≡ has_minus bytes.now }
{
    begins_with(bytes, b'-')
}

/// A number without its `-`.
fn digits_of(bytes: &[u8]) -> &[u8]
    ensures { result.now ≡ digits_of bytes.now }
{
    if has_minus(bytes) {
        behind(bytes, 1)
    } else {
        bytes
    }
}

/// The value of a number, where it has 128 bits with its sign.
#[tactic(auto, unfolding(crate::specs::Said::value_of_number))]
fn value_of(bytes: &[u8]) -> Option<i128>
    ensures { result ≡ value_of_number bytes.now }
{
    let magnitude = magnitude(digits_of(bytes))?;
    signed(has_minus(bytes), magnitude)
}

fn mark(byte: u8) -> Mark
    ensures { result ≡ mark_of byte }
{
    match byte {
        b'=' => Mark::Equal,
        b',' => Mark::Comma,
        b'(' => Mark::OpenParenthesis,
        b')' => Mark::CloseParenthesis,
        b'{' => Mark::OpenBrace,
        b'}' => Mark::CloseBrace,
        b'[' => Mark::OpenBracket,
        b']' => Mark::CloseBracket,
        b'<' => Mark::Less,
        b'>' => Mark::Greater,
        b'#' => Mark::Hash,
        b'!' => Mark::Exclamation,
        _ => Mark::Colon,
    }
}

/// What a token of these bytes is to the grammar.
pub fn kind_of(kind: TokenKind, bytes: &[u8]) -> Kind
    requires { 0 < length bytes.now }
    ensures { result ≡ kind_of kind bytes.now }
{
    match kind {
        TokenKind::Word => Kind::Word(keyword(bytes)),
        TokenKind::Local => Kind::Local,
        TokenKind::Global => Kind::Global,
        TokenKind::Number => Kind::Number {
            value: value_of(bytes),
            minus: has_minus(bytes),
        },
        TokenKind::Text => Kind::Text,
        TokenKind::Bytes => Kind::Bytes,
        TokenKind::Mark => Kind::Mark(mark(bytes[0])),
    }
}
