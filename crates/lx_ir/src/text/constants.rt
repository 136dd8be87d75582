//! The text of constants and initialisers.
ghost use Rattle.std.specs.Prelude.{◌≡◌, ◌++◌, ◌<◌, ◌^◌, OnOk, codes, flat_map, pos};
ghost use Rattle.lx_words.specs.Width.{bit_count, modulus};
ghost use Rattle.lx_words.specs.Word.{signed};
ghost use Rattle.lx_ir.specs.Text.{symbol_name, symbol_text, symbol_offset_text, moved_text, number_text, offset_text, blank_text, pointer_text, constant_text, byte_text, stands_in_string, capital_digit, init_text, item_texts, spaced_list, opening, closing};
ghost use Rattle.lx_ir.specs.InitNodes.{inits_of_list};

use crate::module::{Blank, Brackets, Constant, Init, InitNode, Module, Pointer, Symbol};
use crate::text::pieces::{put, put_global, put_separator};
use crate::text::types::{put_type, put_width};
use crate::types::IrType;
use lx_words::{Memory, Width, Word, put_decimal};

/// The name of a function or a global; a number that names nothing has the empty name.
fn symbol_name(m: &Module, symbol: Symbol) -> &[u8]
    ensures { result.now ≡ symbol_name m.now symbol }
{
    match symbol {
        Symbol::Function(k) => match m.functions.items.get(k as usize) {
            Some(function) => function.name.as_slice(),
            None => b"",
        },
        Symbol::Global(k) => match m.globals.items.get(k as usize) {
            Some(global) => global.name.as_slice(),
            None => b"",
        },
    }
}

/// Appends the name of a function or a global.
pub fn put_symbol(out: &mut Vec<u8>, m: &Module, symbol: Symbol) -> Result<(), Memory>
    ensures { OnOk result (out.new.items ≡ out.old.items ++ symbol_text m.now symbol) }
{
    put_global(out, symbol_name(m, symbol))
}

/// 2 to a width.
fn modulus(width: Width) -> i128
    ensures { result ≡ pos (modulus width) }
{
    match width {
        Width::W1 => 0x2,
        Width::W8 => 0x100,
        Width::W16 => 0x1_0000,
        Width::W32 => 0x1_0000_0000,
        Width::W64 => 0x1_0000_0000_0000_0000,
    }
}

/// The signed value of a word.
fn signed(word: Word) -> i128
    ensures { result ≡ signed word }
{
    let bits = i128::from(word.bits);
    let modulus = modulus(word.width);
    if 2 * bits >= modulus {
        bits - modulus
    } else {
        bits
    }
}

/// Appends a number with its sign.
pub fn put_number(out: &mut Vec<u8>, word: Word) -> Result<(), Memory>
    ensures { OnOk result (out.new.items ≡ out.old.items ++ number_text word.width word.bits) }
{
    put_decimal(out, signed(word))
}

/// Appends a number of 64 bits with its sign.
fn put_offset(out: &mut Vec<u8>, offset: u64) -> Result<(), Memory>
    ensures { OnOk result (out.new.items ≡ out.old.items ++ offset_text offset) }
{
    put_number(
        out,
        Word {
            width: Width::W64,
            bits: offset,
        },
    )
}

fn put_blank(out: &mut Vec<u8>, blank: Blank) -> Result<(), Memory>
    ensures { OnOk result (out.new.items ≡ out.old.items ++ blank_text blank) }
{
    match blank {
        Blank::Undef => put(out, b"undef"),
        Blank::Poison => put(out, b"poison"),
        Blank::Zero => put(out, b"zeroinitializer"),
    }
}

/// Appends an offset as the last argument of a constant.
fn put_offset_argument(out: &mut Vec<u8>, offset: u64) -> Result<(), Memory>
    ensures { OnOk result (out.new.items ≡ out.old.items ++ (codes ", i64 " ++ offset_text offset ++ codes ")")) }
{
    put(out, b", i64 ")?;
    put_offset(out, offset)?;
    put(out, b")")
}

/// Appends the address that is so many bytes behind a name.
fn put_moved(out: &mut Vec<u8>, m: &Module, symbol: Symbol, offset: u64) -> Result<(), Memory>
    ensures { OnOk result (out.new.items ≡ out.old.items ++ moved_text m.now symbol offset) }
{
    put(out, b"getelementptr (i8, ptr ")?;
    put_symbol(out, m, symbol)?;
    put_offset_argument(out, offset)
}

/// Appends a name with an offset, which is not written where it is 0.
fn put_symbol_offset(
    out: &mut Vec<u8>,
    m: &Module,
    symbol: Symbol,
    offset: u64,
) -> Result<(), Memory>
    ensures { OnOk result (out.new.items ≡ out.old.items ++ symbol_offset_text m.now symbol offset) }
{
    if offset == 0 {
        put_symbol(out, m, symbol)
    } else {
        put_moved(out, m, symbol, offset)
    }
}

fn put_pointer(out: &mut Vec<u8>, m: &Module, pointer: Pointer) -> Result<(), Memory>
    ensures { OnOk result (out.new.items ≡ out.old.items ++ pointer_text m.now pointer) }
{
    match pointer {
        Pointer::Null => put(out, b"null"),
        Pointer::Blank(blank) => put_blank(out, blank),
        Pointer::Number(number) => {
            put(out, b"inttoptr (i64 ")?;
            put_offset(out, number)?;
            put(out, b" to ptr)")
        }
        Pointer::Symbol(symbol, offset) => put_symbol_offset(out, m, symbol, offset),
    }
}

/// Appends a constant of a register's type.
pub fn put_constant(out: &mut Vec<u8>, m: &Module, constant: Constant) -> Result<(), Memory>
    ensures { OnOk result (out.new.items ≡ out.old.items ++ constant_text m.now constant) }
{
    match constant {
        Constant::Number(word) => put_number(out, word),
        Constant::Truth(true) => put(out, b"true"),
        Constant::Truth(false) => put(out, b"false"),
        Constant::Blank(blank, _) => put_blank(out, blank),
        Constant::Pointer(pointer) => put_pointer(out, m, pointer),
        Constant::Cast(pointer, width) => {
            put(out, b"ptrtoint (ptr ")?;
            put_pointer(out, m, pointer)?;
            put(out, b" to ")?;
            put_width(out, width)?;
            put(out, b")")
        }
    }
}

/// Whether a byte stands in a byte string as itself.
fn stands_in_string(byte: u8) -> bool
    ensures { result ≡ stands_in_string byte }
{
    (b' '..0x7f).contains(&byte) && byte != b'"' && byte != b'\\'
}

/// A digit of hexadecimal, in capitals.
fn capital_digit(digit: u8) -> u8
    requires { digit < 16 }
    ensures { result ≡ capital_digit digit }
{
    if digit < 10 {
        b'0' + digit
    } else {
        b'A' - 10 + digit
    }
}

/// Appends a byte of a byte string.
fn put_byte(out: &mut Vec<u8>, byte: u8) -> Result<(), Memory>
    ensures { OnOk result (out.new.items ≡ out.old.items ++ byte_text byte) }
{
    if stands_in_string(byte) {
        put(out, &[byte])
    } else {
        put(
            out,
            &[b'\\', capital_digit(byte / 16), capital_digit(byte % 16)],
        )
    }
}

/// Appends the bytes of a byte string.
fn put_bytes(out: &mut Vec<u8>, bytes: &[u8]) -> Result<(), Memory>
    ensures { OnOk result (out.new.items ≡ out.old.items ++ flat_map byte_text bytes.now) }
{
    for byte in bytes {
        put_byte(out, *byte)?;
    }
    Ok(())
}

fn opening(brackets: Brackets) -> &'static [u8]
    ensures { result.now ≡ opening brackets }
{
    match brackets {
        Brackets::Struct => b"{",
        Brackets::Packed => b"<{",
        Brackets::Array => b"[",
    }
}

fn closing(brackets: Brackets) -> &'static [u8]
    ensures { result.now ≡ closing brackets }
{
    match brackets {
        Brackets::Struct => b"}",
        Brackets::Packed => b"}>",
        Brackets::Array => b"]",
    }
}

/// Appends an initialiser.
#[cycle(put_init)]
pub fn put_init(out: &mut Vec<u8>, m: &Module, init: &Init) -> Result<(), Memory>
    ensures { OnOk result (out.new.items ≡ out.old.items ++ init_text m.now init.now) }
{
    match &init.node {
        InitNode::Plain(constant) => put_constant(out, m, *constant),
        InitNode::Blank(blank) => put_blank(out, *blank),
        InitNode::Bytes(bytes) => {
            put(out, b"c\"")?;
            put_bytes(out, bytes.as_slice())?;
            put(out, b"\"")
        }
        InitNode::Group(brackets, types, items) => {
            put(out, opening(*brackets))?;
            put_items(out, m, types.as_slice(), items)?;
            put(out, closing(*brackets))
        }
    }
}

/// Appends the items of a group, each behind its type, as they stand inside its brackets.
#[cycle(put_init)]
fn put_items(out: &mut Vec<u8>, m: &Module, types: &[IrType], items: &[Init]) -> Result<(), Memory>
    ensures { OnOk result (out.new.items ≡ out.old.items ++ spaced_list (item_texts m.now types.now (inits_of_list items.now))) }
{
    let count = types.len().min(items.len());
    if count == 0 {
        return Ok(());
    }
    put(out, b" ")?;
    for i in 0..count {
        put_separator(out, i)?;
        put_type(out, m, &types[i])?;
        put(out, b" ")?;
        put_init(out, m, &items[i])?;
    }
    put(out, b" ")
}
