//! Which bytes stand where.

ghost use Rattle.std.specs.Prelude.{◌≡◌};
ghost use Rattle.lx_words.specs.Lexemes.{is_space, is_digit, is_word_start, is_word_byte, is_name_byte, is_hex, is_quoted_name_byte, is_plain_byte, is_ir_mark};

pub fn is_a_space(b: u8) -> bool
    ensures { result ≡ is_space b }
{
    b == b' ' || b == b'\t' || b == b'\n' || b == b'\r'
}

pub fn is_a_digit(b: u8) -> bool
    ensures { result ≡ is_digit b }
{
    b'0' <= b && b <= b'9'
}

pub fn starts_word(b: u8) -> bool
    ensures { result ≡ is_word_start b }
{
    (b'A' <= b && b <= b'Z') || (b'a' <= b && b <= b'z') || b == b'$' || b == b'.' || b == b'_'
}

pub fn continues_word(b: u8) -> bool
    ensures { result ≡ is_word_byte b }
{
    starts_word(b) || is_a_digit(b)
}

pub fn continues_name(b: u8) -> bool
    ensures { result ≡ is_name_byte b }
{
    continues_word(b) || b == b'-'
}

pub fn is_a_hex_digit(b: u8) -> bool
    ensures { result ≡ is_hex b }
{
    is_a_digit(b) || (b'A' <= b && b <= b'F') || (b'a' <= b && b <= b'f')
}

pub fn stands_in_quoted_name(b: u8) -> bool
    ensures { result ≡ is_quoted_name_byte b }
{
    b' ' <= b && b <= b'~' && b != b'"' && b != b'\\'
}

pub fn is_plain(b: u8) -> bool
    ensures { result ≡ is_plain_byte b }
{
    b' ' <= b && b != 127
}

pub fn is_a_mark(b: u8) -> bool
    ensures { result ≡ is_ir_mark b }
{
    matches!(
        b,
        b'=' | b',' | b'(' | b')' | b'{' | b'}' | b'[' | b']' | b'<' | b'>' | b'#' | b'!' | b':'
    )
}
