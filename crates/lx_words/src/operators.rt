//! The results of instructions on words, by masks and shifts.

ghost use Rattle.std.specs.Prelude.{◌≡◌, ◌+◌, ◌*◌, ◌/◌, ◌^◌, ◌<◌, ◌==◌, ◌&&◌, ◌||◌, min, true, false, pos, negsuc, neg_ℤ, int_lt, unsigned_abs, if◌then◌else◌, Some, None, MatchResult};
ghost use Rattle.lx_words.specs.Width.{bit_count};
ghost use Rattle.lx_words.specs.Word.{binary, compare, is_least, is_minus_one, is_negative, resize, shift_right, signed, word, word_of_int};

use crate::word::{BinOp, Pred, Width, Word};
use thiserror::Error;

/// Why an operator has no result.
#[derive(Clone, Copy, Debug, Error)]
pub enum DivFault {
    /// The divisor is 0, or the least signed value is divided by -1.
    #[error("division has no result")]
    Divide,
}

/// A number cut to a width.
fn cut(width: Width, bits: u64) -> Word
    ensures { result ≡ word width bits }
{
    Word {
        width,
        bits: bits & width.mask(),
    }
}

impl Word {
    /// The number cut to the width: its lowest bits.
    pub fn new(width: Width, bits: u64) -> Word
        ensures { result ≡ word width bits }
    {
        cut(width, bits)
    }
}

/// The number that lies as far below -1 as `below` lies above 0, cut to a width.
fn cut_negative(width: Width, below: u64) -> Word
    ensures { result ≡ word_of_int width (negsuc below) }
{
    cut(width, !below)
}

/// Whether a word is below 0 when its highest bit is a sign.
pub fn is_negative(a: Word) -> bool
    ensures { result ≡ is_negative a }
{
    a.bits > a.width.mask() >> 1
}

/// How far a negative word lies below -1.
pub fn below_minus_one(a: Word) -> u64
    requires { is_negative a ≡ true }
    ensures { signed a ≡ negsuc result }
{
    a.width.mask() - a.bits
}

fn magnitude(a: Word) -> u64
    ensures { result ≡ unsigned_abs (signed a) }
{
    if is_negative(a) {
        below_minus_one(a) + 1
    } else {
        a.bits
    }
}

/// A number with a sign, cut to a width.
fn with_sign(width: Width, negative: bool, magnitude: u64) -> Word
    ensures { result ≡ word_of_int width (if negative then neg_ℤ (pos magnitude) else pos magnitude) }
{
    if negative && magnitude > 0 {
        cut_negative(width, magnitude - 1)
    } else {
        cut(width, magnitude)
    }
}

/// The word at another width: cut, or extended by zeros or, where it is signed, by its sign.
pub fn resize(a: Word, to: Width, signed: bool) -> Word
    ensures { result ≡ resize a to signed }
{
    if signed && is_negative(a) {
        cut_negative(to, below_minus_one(a))
    } else {
        cut(to, a.bits)
    }
}

fn is_signed_less(a: Word, b: Word) -> bool
    ensures { result ≡ int_lt (signed a) (signed b) }
{
    if is_negative(a) {
        !is_negative(b) || below_minus_one(b) < below_minus_one(a)
    } else {
        !is_negative(b) && a.bits < b.bits
    }
}

/// The quotient, rounded towards 0.
fn signed_quotient(a: Word, b: Word) -> Result<Word, DivFault>
    ensures { MatchResult result (λ q. binary BinOp.SDiv a b ≡ Some q) (λ _. binary BinOp.SDiv a b ≡ None) }
{
    if has_no_quotient(a, b) {
        return Err(DivFault::Divide);
    }
    let negative = is_negative(a) != is_negative(b);
    Ok(with_sign(a.width, negative, magnitude(a) / magnitude(b)))
}

/// The remainder of that division, which has the sign of the dividend.
fn signed_remainder(a: Word, b: Word) -> Result<Word, DivFault>
    ensures { MatchResult result (λ r. binary BinOp.SRem a b ≡ Some r) (λ _. binary BinOp.SRem a b ≡ None) }
{
    if has_no_quotient(a, b) {
        return Err(DivFault::Divide);
    }
    Ok(with_sign(a.width, is_negative(a), magnitude(a) % magnitude(b)))
}

/// Whether the divisor is 0, or the least value is divided by -1.
fn has_no_quotient(a: Word, b: Word) -> bool
    ensures { result ≡ (b.bits == 0 || is_least a && is_minus_one b) }
{
    b.bits == 0 || (a.bits == (a.width.mask() >> 1) + 1 && b.bits == b.width.mask())
}

fn shift_left(a: Word, by: u64) -> Word
    ensures { result ≡ word a.width (a.bits * 2 ^ min by (bit_count a.width)) }
{
    if by < u64::from(a.width.bit_count()) {
        cut(a.width, a.bits << by)
    } else {
        cut(a.width, 0)
    }
}

fn shift_right(a: Word, by: u64) -> Word
    ensures { result ≡ word a.width (a.bits / 2 ^ min by (bit_count a.width)) }
{
    if by < u64::from(a.width.bit_count()) {
        cut(a.width, a.bits >> by)
    } else {
        cut(a.width, 0)
    }
}

/// The sign comes in at the top.
fn shift_right_signed(a: Word, by: u64) -> Word
    ensures { result ≡ word_of_int a.width (shift_right (signed a) (min by (bit_count a.width))) }
{
    if is_negative(a) {
        cut_negative(a.width, below_minus_one(a) >> by.min(63))
    } else {
        cut(a.width, a.bits >> by.min(63))
    }
}

/// The result of an operator on two words of one width.
///
/// # Errors
/// `DivFault::Divide` exactly where a divisor is 0, or the least signed value is divided by -1.
pub fn binary(op: BinOp, a: Word, b: Word) -> Result<Word, DivFault>
    ensures { MatchResult result (λ r. binary op a b ≡ Some r) (λ _. binary op a b ≡ None) }
{
    let bits = match op {
        BinOp::Add => a.bits.wrapping_add(b.bits),
        BinOp::Sub => a.bits.wrapping_sub(b.bits),
        BinOp::Mul => a.bits.wrapping_mul(b.bits),
        BinOp::UDiv => a.bits.checked_div(b.bits).ok_or(DivFault::Divide)?,
        BinOp::URem => a.bits.checked_rem(b.bits).ok_or(DivFault::Divide)?,
        BinOp::SDiv => return signed_quotient(a, b),
        BinOp::SRem => return signed_remainder(a, b),
        BinOp::And => a.bits & b.bits,
        BinOp::Or => a.bits | b.bits,
        BinOp::Xor => a.bits ^ b.bits,
        BinOp::Shl => return Ok(shift_left(a, b.bits)),
        BinOp::LShr => return Ok(shift_right(a, b.bits)),
        BinOp::AShr => return Ok(shift_right_signed(a, b.bits)),
    };
    Ok(cut(a.width, bits))
}

/// Whether a comparison of two words of one width holds.
pub fn compare(p: Pred, a: Word, b: Word) -> bool
    ensures { result ≡ compare p a b }
{
    match p {
        Pred::Eq => a.bits == b.bits,
        Pred::Ne => a.bits != b.bits,
        Pred::Ugt => a.bits > b.bits,
        Pred::Uge => a.bits >= b.bits,
        Pred::Ult => a.bits < b.bits,
        Pred::Ule => a.bits <= b.bits,
        Pred::Sgt => is_signed_less(b, a),
        Pred::Sge => !is_signed_less(a, b),
        Pred::Slt => is_signed_less(a, b),
        Pred::Sle => !is_signed_less(b, a),
    }
}
