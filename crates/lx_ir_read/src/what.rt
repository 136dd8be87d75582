//! What names a fault.

ghost use Rattle.std.specs.Prelude.{◌≡◌, ◌+◌, ◌<◌, ◌≤◌, ◌^◌, ◌∷◌, All, Some, None, IfOk, MatchOption};
ghost use Rattle.lx_ir_terms.specs.Reading.{has, is_mark};
ghost use Rattle.lx_words.specs.Cuts.{IsWithin};
ghost use Rattle.lx_words.specs.Text.{decimal_text, hex_text};
ghost use Rattle.lx_ir_read.specs.Fault.{name_at, place_of, sigil, no_parameters, count_parameter, count_name, is_number, is_define, is_local, count_token, numbered_in, is_scalar_word, is_nameless, name_shown, token_shown, line_shown, names_token, what_shown, line_of_fault, shown, IsTold};

use crate::fault::{ReadFault, TextFault, fault_of};
use lx_ir_terms::{Fault, FaultKind, is_mark};
use lx_ir_tokens::{IrTokens, Keyword, Kind, Mark, NameTable, StatementWord, Tok};
use lx_words::{Memory, Name, Stop, Token, are_digits, put_decimal, put_hex};
use std::alloc::Global;

/// The name of a number, or no bytes.
pub fn name_at(names: &NameTable, number: u32) -> &[u8]
    ensures { result.now ≡ name_at names.now number }
{
    if number < names.len() {
        names.name(number)
    } else {
        &[]
    }
}

/// How many parameters before have a number for a name, and whether the one that is read does.
#[derive(Clone, Copy)]
pub struct Count {
    numbered: usize,
    counts: bool,
}

fn no_parameters() -> Count
    ensures { result ≡ no_parameters }
{
    Count {
        numbered: 0,
        counts: true,
    }
}

/// A parameter ends.
fn count_parameter(count: Count) -> Count
    requires { count.numbered + 1 < 2 ^ 64 }
    ensures value { result ≡ count_parameter count }
    ensures little { result.numbered ≤ count.numbered + 1 }
{
    let numbered = if count.counts {
        count.numbered + 1
    } else {
        count.numbered
    };
    Count {
        numbered,
        counts: true,
    }
}

fn is_number(name: &[u8]) -> bool
    ensures { result ≡ is_number name.now }
{
    are_digits(name)
}

fn is_define(kind: Kind) -> bool
    ensures { result ≡ is_define kind }
{
    matches!(kind, Kind::Word(Keyword::Statement(StatementWord::Define)))
}

/// A function begins, a parameter ends, or a parameter has a name.
fn count_token(names: &NameTable, count: Count, token: Tok) -> Count
    requires { count.numbered + 1 < 2 ^ 64 }
    ensures value { result ≡ count_token names.now count token }
    ensures little { result.numbered ≤ count.numbered + 1 }
{
    if is_define(token.kind) {
        return no_parameters();
    }
    if is_mark(token.kind, Mark::Comma) {
        return count_parameter(count);
    }
    match token.kind {
        Kind::Local => Count {
            numbered: count.numbered,
            counts: is_number(name_at(names, token.name)),
        },
        _ => count,
    }
}

/// How many parameters of the last function before have a number for a name.
fn numbered_in(names: &NameTable, before: &[Tok]) -> usize
    ensures { result ≡ numbered_in names.now before.now }
{
    let mut count = no_parameters();
    for token in before {
        count = count_token(names, count, *token);
    }
    count.numbered
}

fn is_scalar_word(kind: Kind) -> bool
    ensures { result ≡ is_scalar_word kind }
{
    matches!(kind, Kind::Word(Keyword::Scalar(_)))
}

fn begins_with(toks: &[Tok], mark: Mark) -> bool
    ensures { result ≡ has (is_mark mark) toks.now }
{
    match toks {
        [] => false,
        [token, ..] => is_mark(token.kind, mark),
    }
}

/// Whether a token before these is the type of a parameter without a name, and no label.
fn is_nameless(kind: Kind, behind: &[Tok]) -> bool
    ensures { result ≡ is_nameless kind behind.now }
{
    is_scalar_word(kind) && !begins_with(behind, Mark::Colon)
}

fn sigil(kind: Kind) -> u8
    ensures { result ≡ sigil kind }
{
    match kind {
        Kind::Global => b'@',
        _ => b'%',
    }
}

/// The name that is the next number of a parameter.
fn next_name(alloc: Global, number: usize) -> Result<Vec<u8>, Memory>
    ensures { IfOk result (λ name. name.items ≡ 37 ∷ decimal_text number) }
{
    let mut name = vec![in alloc; b'%']?;
    put_decimal(&mut name, number as i128)?;
    Ok(name)
}

fn written_name(alloc: Global, names: &NameTable, token: Tok) -> Result<Vec<u8>, Memory>
    ensures { IfOk result (λ name. name.items ≡ sigil token.kind ∷ name_at names.now token.name) }
{
    let mut name = vec![in alloc; sigil(token.kind)]?;
    name.extend_from_slice(name_at(names, token.name))?;
    Ok(name)
}

/// The name at the first of these tokens, with its mark and without quotes.
fn name_shown(
    alloc: Global,
    names: &NameTable,
    before: &[Tok],
    toks: &[Tok],
) -> Result<Vec<u8>, Memory>
    ensures { IfOk result (λ name. name.items ≡ name_shown names.now before.now toks.now) }
{
    let Some((token, behind)) = toks.split_first() else {
        return Ok(Vec::new(alloc));
    };
    if is_nameless(token.kind, behind) {
        let name = next_name(alloc, numbered_in(names, before))?;
        return Ok(name);
    }
    let name = written_name(alloc, names, *token)?;
    Ok(name)
}

/// The place of the token with which so many are left.
fn place_of(places: &[Token], left: usize) -> Option<&Token>
    ensures { MatchOption result (place_of places.now left ≡ None) (λ t. place_of places.now left ≡ Some t.now) }
{
    places.get(places.len().saturating_sub(left))
}

/// The line of the token with which so many are left.
pub fn line_shown(places: &[Token], left: usize) -> u32
    ensures { result ≡ line_shown places.now left }
{
    match place_of(places, left) {
        Some(token) => token.line,
        None => 1,
    }
}

/// The token with which so many are left, as it stands.
fn token_shown<'a>(text: &'a [u8], places: &[Token], left: usize) -> &'a [u8]
    requires { All (IsWithin text.now) places.now }
    ensures { result.now ≡ token_shown text.entry.now places.now left }
{
    match place_of(places, left) {
        Some(token) => token.bytes(text),
        None => &[],
    }
}

fn names_token(kind: FaultKind) -> bool
    ensures { result ≡ names_token kind }
{
    matches!(kind, FaultKind::Statement | FaultKind::OutOfProfile)
}

/// What names a fault.
fn what_shown(alloc: Global, text: &[u8], ir: &IrTokens, fault: Fault) -> Result<Name, Memory>
    requires { All (IsWithin text.now) ir.now.places }
    ensures { IfOk result (λ what. what ≡ what_shown text.now ir.now fault) }
{
    if fault.left == 0 {
        let end = Name::from_bytes(alloc, b"end")?;
        return Ok(end);
    }
    if names_token(fault.kind) {
        let token = token_shown(text, ir.places.as_slice(), fault.left);
        let what = Name::from_bytes(alloc, token)?;
        return Ok(what);
    }
    let toks = ir.toks.as_slice();
    let (before, from) = toks.split_at(toks.len().saturating_sub(fault.left));
    let name = name_shown(alloc, &ir.names, before, from)?;
    Ok(Name::from_vec(name))
}

/// The line of a fault; at the text's end that of the last token.
fn line_of_fault(ir: &IrTokens, left: usize) -> u32
    ensures { result ≡ line_of_fault ir.now left }
{
    if left == 0 {
        ir.last_line
    } else {
        line_shown(ir.places.as_slice(), left)
    }
}

fn shown_byte(alloc: Global, stop: Stop) -> ReadFault
    ensures { IsTold result (ReadFault.Lexical stop.line (hex_text stop.byte)) }
{
    let mut what = Vec::new(alloc);
    match put_hex(&mut what, u64::from(stop.byte)) {
        Ok(()) => ReadFault::Lexical {
            line: stop.line,
            what: Name::from_vec(what),
        },
        Err(_) => ReadFault::Memory,
    }
}

/// A fault with its line and what names it.
pub fn shown(alloc: Global, text: &[u8], ir: &IrTokens, fault: TextFault) -> ReadFault
    requires { All (IsWithin text.now) ir.now.places }
    ensures { IsTold result (shown text.now ir.now fault) }
{
    match fault {
        TextFault::Byte(stop) => shown_byte(alloc, stop),
        TextFault::Token(met) => match what_shown(alloc, text, ir, met) {
            Ok(what) => fault_of(met.kind, line_of_fault(ir, met.left), what),
            Err(_) => ReadFault::Memory,
        },
    }
}
