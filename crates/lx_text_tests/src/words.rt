//! The tables of words, number texts and tokens at their edges.

use lx_words::{
    BinOp, DivFault, LexFault, Memory, Name, Pred, Schedule, TokenKind, TokenRule, Tokens, Width,
    Word, binary, compare, put_decimal, put_hex, resize, scan, split,
};
use std::alloc::Global;
use std::test::Fail;

fn word(width: Width, bits: u64) -> Word {
    let wide = Word {
        width: Width::W64,
        bits,
    };
    resize(wide, width, false)
}

/// An operator at a width, its operands, and its result.
struct Row(BinOp, Width, u64, u64, Option<u64>);

static ROWS: [Row; 24] = [
    Row(BinOp::Add, Width::W1, 1, 1, Some(0)),
    Row(BinOp::Sub, Width::W1, 0, 1, Some(1)),
    Row(BinOp::SDiv, Width::W1, 1, 1, None),
    Row(BinOp::Mul, Width::W8, 16, 16, Some(0)),
    Row(BinOp::SDiv, Width::W8, 0x80, 0xff, None),
    Row(BinOp::SRem, Width::W8, 0x80, 0xff, None),
    Row(BinOp::SDiv, Width::W8, 0xf9, 2, Some(0xfd)),
    Row(BinOp::SRem, Width::W8, 0xf9, 2, Some(0xff)),
    Row(BinOp::UDiv, Width::W8, 7, 0, None),
    Row(BinOp::URem, Width::W8, 7, 0, None),
    Row(BinOp::Shl, Width::W16, 1, 15, Some(0x8000)),
    Row(BinOp::Shl, Width::W16, 1, 16, Some(0)),
    Row(BinOp::LShr, Width::W16, 0x8000, 16, Some(0)),
    Row(BinOp::AShr, Width::W16, 0x8000, 16, Some(0xffff)),
    Row(BinOp::AShr, Width::W16, 0x7fff, 16, Some(0)),
    Row(
        BinOp::AShr,
        Width::W32,
        0x8000_0000,
        0xffff_ffff,
        Some(0xffff_ffff),
    ),
    Row(BinOp::Xor, Width::W32, 0xffff_ffff, 1, Some(0xffff_fffe)),
    Row(BinOp::Add, Width::W64, u64::MAX, 1, Some(0)),
    Row(BinOp::SDiv, Width::W64, 1 << 63, u64::MAX, None),
    Row(BinOp::SRem, Width::W64, 1 << 63, u64::MAX, None),
    Row(BinOp::Shl, Width::W64, 1, 64, Some(0)),
    Row(BinOp::LShr, Width::W64, u64::MAX, 64, Some(0)),
    Row(BinOp::AShr, Width::W64, 1 << 63, 64, Some(u64::MAX)),
    Row(BinOp::AShr, Width::W64, 1 << 63, 63, Some(u64::MAX)),
];

fn is_right(row: &Row) -> bool {
    let result = binary(row.0, word(row.1, row.2), word(row.1, row.3));
    match (result, row.4) {
        (Ok(found), Some(bits)) => found.bits == bits,
        (Err(DivFault::Divide), None) => true,
        _ => false,
    }
}

#[test]
fn results_at_the_edges_of_each_width(rt: HostRuntime) {
    assert_eq!(rt; ROWS.iter().position(|row| !is_right(row)), None);
}

/// Comparisons of bytes that hold.
static COMPARISONS: [(Pred, u64, u64); 3] = [
    (Pred::Slt, 0x80, 0x7f),
    (Pred::Ugt, 0x80, 0x7f),
    (Pred::Sge, 0x80, 0x80),
];

/// A width and its bits, the width that they get, whether with their sign, and the bits then.
struct Conversion(Width, u64, Width, bool, u64);

static CONVERSIONS: [Conversion; 4] = [
    Conversion(Width::W8, 0x80, Width::W64, true, 0xffff_ffff_ffff_ff80),
    Conversion(Width::W8, 0x80, Width::W64, false, 0x80),
    Conversion(Width::W1, 1, Width::W16, true, 0xffff),
    Conversion(Width::W8, 0x80, Width::W1, true, 0),
];

fn compares_so(row: &(Pred, u64, u64)) -> bool {
    compare(row.0, word(Width::W8, row.1), word(Width::W8, row.2))
}

fn converts_so(row: &Conversion) -> bool {
    resize(word(row.0, row.1), row.2, row.3).bits == row.4
}

#[test]
fn signs_in_comparisons_and_conversions(rt: HostRuntime) {
    assert_eq!(rt; COMPARISONS.iter().position(|row| !compares_so(row)), None);
    assert_eq!(rt; CONVERSIONS.iter().position(|row| !converts_so(row)), None);
}

static DECIMALS: [i128; 5] = [
    0,
    -1,
    0xffff_ffff_ffff_ffff,
    -0x8000_0000_0000_0000,
    i128::MIN,
];

static HEXES: [u64; 3] = [0, 0x100_0000, u64::MAX];

static NUMBERS: &[u8] = b"0 -1 18446744073709551615 -9223372036854775808 \
    -170141183460469231731687303715884105728 0x0 0x1000000 0xffffffffffffffff ";

/// Puts each number with a space behind it.
fn put_decimals(out: &mut Vec<u8>) -> Result<(), Memory> {
    for number in DECIMALS.iter() {
        put_decimal(out, *number)?;
        out.push(b' ')?;
    }
    Ok(())
}

fn put_hexes(out: &mut Vec<u8>) -> Result<(), Memory> {
    for number in HEXES.iter() {
        put_hex(out, *number)?;
        out.push(b' ')?;
    }
    Ok(())
}

fn put_numbers(out: &mut Vec<u8>) -> Result<(), Memory> {
    put_decimals(out)?;
    put_hexes(out)?;
    Ok(())
}

#[test]
fn numbers_at_their_ends_as_text(rt: HostRuntime) -> Result<(), Fail> {
    let mut out = Vec::new(rt.alloc());
    let put = put_numbers(&mut out);
    if put.is_ok() {
        assert_eq!(rt; out.as_slice(), NUMBERS);
    }
    drop(out);
    put?;
    Ok(())
}

/// Whether the tokens have these kinds and ends.
fn are(tokens: &Tokens, expected: &[(TokenKind, u32)]) -> bool {
    tokens.len() == expected.len()
        && tokens
            .as_slice()
            .iter()
            .zip(expected)
            .all(|(t, e)| t.kind == e.0 && t.end == e.1)
}

static OF_IR: [(TokenKind, u32); 11] = [
    (TokenKind::Local, 5),
    (TokenKind::Global, 11),
    (TokenKind::Text, 15),
    (TokenKind::Bytes, 22),
    (TokenKind::Word, 23),
    (TokenKind::Text, 26),
    (TokenKind::Number, 28),
    (TokenKind::Mark, 29),
    (TokenKind::Word, 34),
    (TokenKind::Local, 36),
    (TokenKind::Mark, 37),
];

static OF_AN_INTERFACE: [(TokenKind, u32); 10] = [
    (TokenKind::Word, 1),
    (TokenKind::Mark, 3),
    (TokenKind::Number, 4),
    (TokenKind::Mark, 5),
    (TokenKind::Local, 7),
    (TokenKind::Mark, 9),
    (TokenKind::Mark, 10),
    (TokenKind::Mark, 12),
    (TokenKind::Word, 13),
    (TokenKind::Mark, 15),
];

static OF_PROTOTYPES: [(TokenKind, u32); 7] = [
    (TokenKind::Word, 1),
    (TokenKind::Mark, 12),
    (TokenKind::Number, 13),
    (TokenKind::Mark, 20),
    (TokenKind::Local, 27),
    (TokenKind::Mark, 29),
    (TokenKind::Mark, 30),
];

/// Whether a text is split into tokens with these kinds and ends.
fn splits_so(alloc: Global, expected: &[(TokenKind, u32)]) -> Result<bool, LexFault> {
    let text = b"%a.1-@\"x y\"\"s\\\"c\"d\\0A\"c\"\\\"-5=word7%7:;c";
    let tokens = split(alloc, text, TokenRule::Ir)?;
    Ok(are(&tokens, expected))
}

/// Whether a text of an interface has tokens with these kinds and ends, and no byte that begins none.
fn scans_so(alloc: Global, expected: &[(TokenKind, u32)]) -> Result<bool, Memory> {
    let text = b"a<<5-%b&&|!=c<=#d";
    let found = scan(alloc, text, TokenRule::Interface)?;
    Ok(are(&found.tokens, expected) && found.stop.is_none())
}

/// The same of a text of prototypes.
fn prototypes_scan_so(alloc: Global, expected: &[(TokenKind, u32)]) -> Result<bool, Memory> {
    let text = b"a/* * /**/<<5//-%b\n-/*\n*/%b&&|";
    let found = scan(alloc, text, TokenRule::Prototype)?;
    Ok(are(&found.tokens, expected) && found.stop.is_none())
}

#[test]
fn each_token_ends_where_the_next_begins(rt: HostRuntime) -> Result<(), Fail> {
    assert!(rt; splits_so(rt.alloc(), &OF_IR)?);
    assert!(rt; scans_so(rt.alloc(), &OF_AN_INTERFACE)?);
    assert!(rt; prototypes_scan_so(rt.alloc(), &OF_PROTOTYPES)?);
    Ok(())
}

/// A text, its rule, and the first byte that begins no token, with its line before it.
struct Stopped(&'static [u8], TokenRule, u32, u8);

static STOPPED: [Stopped; 11] = [
    Stopped(b"a\n\"\n\" \"", TokenRule::Ir, 3, b'"'),
    Stopped(b";\x80\n\n-", TokenRule::Ir, 3, b'-'),
    Stopped(b"%", TokenRule::Ir, 1, b'%'),
    Stopped(b"\n@\"\"", TokenRule::Ir, 2, b'@'),
    Stopped(b"-1\n[", TokenRule::Interface, 2, b'['),
    Stopped(b"#\n=", TokenRule::Interface, 2, b'='),
    Stopped(b"a\n/*\n", TokenRule::Prototype, 2, b'/'),
    Stopped(b"a\n/*/", TokenRule::Prototype, 2, b'/'),
    Stopped(b"// #\n#", TokenRule::Prototype, 2, b'#'),
    Stopped(b"/* \x80\n*/ / 2", TokenRule::Prototype, 2, b'/'),
    Stopped(b"a//\n\x00", TokenRule::Prototype, 2, 0),
];

fn stops_so(alloc: Global, row: &Stopped) -> bool {
    if row.0.len() > 1000 {
        return false;
    }
    match split(alloc, row.0, row.1) {
        Err(LexFault::Byte { line, byte }) => line == row.2 && byte == row.3,
        _ => false,
    }
}

#[test]
fn the_first_byte_that_begins_no_token(rt: HostRuntime) {
    let alloc = rt.alloc();
    assert_eq!(rt; STOPPED.iter().position(|row| !stops_so(alloc, row)), None);
}

#[test]
fn a_byte_that_begins_no_token_is_told(rt: HostRuntime) -> Result<(), Fail> {
    let fault = LexFault::Byte { line: 3, byte: 9 };
    let text = format!(in rt.alloc(); "{fault}")?;
    assert_eq!(rt; text.as_str(), "line 3: the byte 0x9 begins no token");
    Ok(())
}

/// Whether a name keeps its bytes and one that is pushed.
fn name_is_kept(alloc: Global) -> Result<bool, Memory> {
    let mut name = Name::from_bytes(alloc, b"kmallo")?;
    let pushed = name.push(b'c').is_ok();
    Ok(pushed && name.is_same(b"kmalloc") && !name.is_same(b"kmallo"))
}

/// Whether a schedule that is empty keeps the entry that is pushed.
fn entry_is_kept(alloc: Global) -> bool {
    let mut schedule = Schedule::new(alloc);
    let empty = schedule.is_empty();
    let pushed = schedule.push(3).is_ok();
    let entries = schedule.into_vec();
    empty && pushed && entries.as_slice() == [3].as_slice()
}

#[test]
fn lists_keep_what_they_are_given(rt: HostRuntime) -> Result<(), Fail> {
    assert!(rt; name_is_kept(rt.alloc())?);
    assert!(rt; entry_is_kept(rt.alloc()));
    Ok(())
}
