//! Pieces of text.

ghost use Rattle.std.specs.Prelude.{◌≡◌, ◌++◌, ◌≤◌, pos, OnOk};
ghost use Rattle.lx_report.specs.Report.{address_text, number_text, signed_word_text};
ghost use Rattle.lx_words.specs.Width.{modulus};
ghost use Rattle.lx_words.specs.Word.{signed};

use lx_words::{Memory, Width, Word, put_decimal, put_hex};

/// Adds a text. Want of memory is the only error.
pub fn put(out: &mut Vec<u8>, text: &str) -> Result<(), Memory>
    ensures { OnOk result (out.new.items ≡ out.old.items ++ text.now) }
{
    out.extend_from_slice(text.as_bytes())?;
    Ok(())
}

/// Adds bytes. Want of memory is the only error.
pub fn put_bytes(out: &mut Vec<u8>, bytes: &[u8]) -> Result<(), Memory>
    ensures { OnOk result (out.new.items ≡ out.old.items ++ bytes.now) }
{
    out.extend_from_slice(bytes)?;
    Ok(())
}

/// Adds a number in decimal digits. Want of memory is the only error.
#[tactic(auto, unfolding(crate::specs::Report::number_text))]
pub fn put_number(out: &mut Vec<u8>, n: u64) -> Result<(), Memory>
    ensures { OnOk result (out.new.items ≡ out.old.items ++ number_text n) }
{
    put_decimal(out, i128::from(n))
}

/// Adds an address: `0x` and hexadecimal digits without padding. Want of memory is the only error.
#[tactic(auto, unfolding(crate::specs::Report::address_text))]
pub fn put_address(out: &mut Vec<u8>, at: u64) -> Result<(), Memory>
    ensures { OnOk result (out.new.items ≡ out.old.items ++ address_text at) }
{
    put_hex(out, at)
}

fn modulus(width: Width) -> i128
    ensures { result ≡ pos (modulus width) }
{
    match width {
        Width::W1 => 1 << 1,
        Width::W8 => 1 << 8,
        Width::W16 => 1 << 16,
        Width::W32 => 1 << 32,
        Width::W64 => 1 << 64,
    }
}

fn signed(word: Word) -> i128
    ensures { result ≡ signed word }
{
    let bits = i128::from(word.bits);
    let modulus = modulus(word.width);
    if modulus <= 2 * bits {
        bits - modulus
    } else {
        bits
    }
}

/// Adds a word as a signed number. Want of memory is the only error.
#[tactic(auto, unfolding(crate::specs::Report::signed_word_text))]
pub fn put_signed(out: &mut Vec<u8>, word: Word) -> Result<(), Memory>
    ensures { OnOk result (out.new.items ≡ out.old.items ++ signed_word_text word) }
{
    put_decimal(out, signed(word))
}
