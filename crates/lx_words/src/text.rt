//! Numbers as text.

ghost use Rattle.std.specs.Prelude.{◌≡◌, ◌++◌, ◌+◌, ◌<◌, ◌≤◌, drop, length, OnOk, OnErr};
ghost use Rattle.lx_words.specs.Text.{digit, hex_text, signed_text};
ghost use Rattle.lx_words.specs.TextLaws.{NumberTexts};

use crate::memory::Memory;
use itoa::Buffer;

/// The bytes of the longest hexadecimal text: `0x` and sixteen digits.
const HEX_BYTES: usize = 18;

/// Appends the decimal text of a number; without memory for it `out` stays.
pub fn put_decimal(out: &mut Vec<u8>, v: i128) -> Result<(), Memory>
    ensures ok { OnOk result (out.new.items ≡ out.old.items ++ signed_text v) }
    ensures err { OnErr result (out.new.items ≡ out.old.items) }
{
    let mut buffer = Buffer::new();
    out.extend_from_slice(buffer.format(v).as_bytes())?;
    Ok(())
}

/// Appends `0x` and the hexadecimal digits of a number; without memory for them `out` stays.
pub fn put_hex(out: &mut Vec<u8>, v: u64) -> Result<(), Memory>
    ensures ok { OnOk result (out.new.items ≡ out.old.items ++ hex_text v) }
    ensures err { OnErr result (out.new.items ≡ out.old.items) }
{
    let mut buffer = [0; HEX_BYTES];
    let start = write_hex(&mut buffer, v);
    out.extend_from_slice(&buffer[start..])?;
    Ok(())
}

/// The digit of a number below 16.
fn hex_digit(n: u8) -> u8
    requires { n < 16 }
    ensures { result ≡ digit n }
{
    if n < 10 { b'0' + n } else { b'a' - 10 + n }
}

/// Writes a hexadecimal text at the end of the buffer, and gives the place where it begins.
fn write_hex(buffer: &mut [u8; HEX_BYTES], v: u64) -> usize
    ensures within { result ≤ 18 }
    ensures text { drop result buffer.new ≡ hex_text v }
{
    let mut left = 16;
    let mut rest = v;
    while rest >= 16 {
        buffer[left + 1] = hex_digit((rest % 16) as u8);
        rest /= 16;
        left -= 1;
    }
    buffer[left + 1] = hex_digit(rest as u8);
    buffer[left] = b'x';
    buffer[left - 1] = b'0';
    left - 1
}

/// Different numbers have different texts, and a decimal text is digits alone.
pub fn number_texts()
    ensures { NumberTexts }
{}
