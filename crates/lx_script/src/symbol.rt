//! Single words of a case: names, numbers and symbols.

ghost use Rattle.std.specs.Prelude.{◌≡◌, ℕ, ◌<◌, ◌≤◌, ◌^◌, ◌+◌, length, position, MatchOption};
ghost use Rattle.std.specs.List.{list_all};
ghost use Rattle.lx_script.specs.Reading.{Gives, address_at, argument_at, digits_of, fuel_at, fuel_in, has_decimal_form, has_hex_form, has_hex_mark, is_address, is_colon, is_module_name, is_name_part, is_negative, names_of, number_in, signed, symbol_at, symbol_in};

use crate::case::CaseArg;
use crate::fault::{FaultKind, ReadError, met};
use crate::keyword::KERNEL;
use crate::modules::Modules;
use crate::run::is_a_number;
use lx_words::{Name, are_hex_digits, decimal_of, hex_of};
use std::alloc::Global;

/// The fuel that one call may have at most, and all calls together.
pub const MOST_FUEL: u32 = 1_048_576;

fn are_name_parts(text: &[u8]) -> bool
    ensures { result ≡ list_all is_name_part text.now }
{
    text.iter().all(|b| { b'a' <= *b && *b <= b'z' || b'0' <= *b && *b <= b'9' || *b == b'_' })
}

/// Whether a word may name a module.
pub fn names_module(word: &[u8]) -> bool
    ensures { result ≡ is_module_name word.now }
{
    match word.split_first() {
        Some((first, rest)) => {
            b'a' <= *first && *first <= b'z' && are_name_parts(rest) && word != KERNEL
        }
        None => false,
    }
}

/// A symbol: a module by its number, or the kernel, and a name in it.
#[derive(Clone, Copy)]
pub struct Symbol<'a> {
    pub module: Option<u32>,
    pub name: &'a [u8],
}

fn colon_in(text: &[u8]) -> Option<usize>
    ensures { result ≡ position is_colon text.now }
{
    text.iter().position(|b| *b == b':')
}

#[tactic(auto, unfolding(crate::specs::Reading::symbol_in))]
/// The symbol of a module's and a function's name, which stand in a word.
fn symbol_from<'a>(
    alloc: Global,
    modules: &Modules<'_>,
    row: u32,
    whole: &[u8],
    part: &[u8],
    name: &'a [u8],
) -> Result<Symbol<'a>, ReadError>
    ensures { Gives (λ s. (s.«module», s.name.now)) result (symbol_in (names_of modules.now) row whole.now part.now name.now) }
{
    if name.is_empty() {
        return Err(met(alloc, FaultKind::Statement, row, whole));
    }
    if part == KERNEL {
        return Ok(Symbol { module: None, name });
    }
    if !names_module(part) {
        return Err(met(alloc, FaultKind::Statement, row, whole));
    }
    match modules.number_of(part) {
        Some(number) => Ok(Symbol {
            module: Some(number),
            name,
        }),
        None => Err(met(alloc, FaultKind::Unknown, row, part)),
    }
}

#[tactic(auto, unfolding(crate::specs::Reading::symbol_at))]
/// The symbol that a text says, where `whole` is the word that it stands in.
pub fn symbol_in<'a>(
    alloc: Global,
    modules: &Modules<'_>,
    row: u32,
    whole: &[u8],
    text: &'a [u8],
) -> Result<Symbol<'a>, ReadError>
    ensures { Gives (λ s. (s.«module», s.name.now)) result (symbol_at (names_of modules.now) row whole.now text.now) }
{
    match colon_in(text) {
        Some(at) => {
            let symbol = symbol_from(alloc, modules, row, whole, &text[..at], &text[at + 1..])?;
            Ok(symbol)
        }
        None => Err(met(alloc, FaultKind::Statement, row, whole)),
    }
}

fn has_sign(word: &[u8]) -> bool
    ensures { result ≡ is_negative word.now }
{
    word.first() == Some(&b'-')
}

fn digits_in(word: &[u8]) -> &[u8]
    ensures { result.now ≡ digits_of word.now }
{
    if has_sign(word) { &word[1..] } else { word }
}

fn is_hex_number(word: &[u8]) -> bool
    ensures { result ≡ has_hex_form word.now }
{
    word.starts_with(b"0x") && word.len() > 2 && are_hex_digits(&word[2..])
}

fn names_address(word: &[u8]) -> bool
    ensures { result ≡ is_address word.now }
{
    word.first() == Some(&b'&')
}

fn signed_number(negative: bool, number: u64) -> i128
    ensures { result ≡ signed negative number }
{
    if negative {
        -i128::from(number)
    } else {
        i128::from(number)
    }
}

/// A number as an argument, from its sign and the number behind it, where this has no more than 64 bits.
fn number(
    alloc: Global,
    row: u32,
    word: &[u8],
    negative: bool,
    number: Option<u64>,
) -> Result<CaseArg, ReadError>
    ensures { (n : ℕ) → MatchOption number (2 ^ 64 ≤ n) (λ m. m ≡ n) → Gives (λ a. a) result (number_in row word.now negative n) }
{
    match number {
        Some(number) if !negative || number <= 1 << 63 => {
            Ok(CaseArg::Number(signed_number(negative, number)))
        }
        _ => Err(met(alloc, FaultKind::Range, row, word)),
    }
}

#[tactic(auto, unfolding(crate::specs::Reading::address_at))]
fn address(
    alloc: Global,
    modules: &Modules<'_>,
    row: u32,
    word: &[u8],
) -> Result<CaseArg, ReadError>
    requires { 0 < length word.now }
    ensures { Gives (λ a. a) result (address_at (names_of modules.now) row word.now) }
{
    let symbol = symbol_in(alloc, modules, row, word, &word[1..])?;
    let name = Name::from_bytes(alloc, symbol.name)?;
    Ok(CaseArg::Address {
        module: symbol.module,
        name,
    })
}

#[tactic(auto, unfolding(crate::specs::Reading::argument_at))]
/// What a word says as an argument.
pub fn argument(
    alloc: Global,
    modules: &Modules<'_>,
    row: u32,
    word: &[u8],
) -> Result<CaseArg, ReadError>
    ensures { Gives (λ a. a) result (argument_at (names_of modules.now) row word.now) }
{
    if names_address(word) {
        let address = address(alloc, modules, row, word)?;
        return Ok(address);
    }
    if is_hex_number(word) {
        let number_read = number(alloc, row, word, false, hex_of(&word[2..]))?;
        return Ok(number_read);
    }
    let digits = digits_in(word);
    if !is_a_number(digits) {
        return Err(met(alloc, FaultKind::Statement, row, word));
    }
    let number_read = number(alloc, row, word, has_sign(word), decimal_of(digits))?;
    Ok(number_read)
}

#[tactic(auto, unfolding(crate::specs::Reading::fuel_at))]
/// What a word says as the fuel of a call.
pub fn fuel(alloc: Global, row: u32, word: &[u8]) -> Result<u32, ReadError>
    ensures { Gives (λ n. n) result (fuel_at row word.now) }
{
    let digits = digits_in(word);
    if !is_a_number(digits) {
        return Err(met(alloc, FaultKind::Statement, row, word));
    }
    match decimal_of(digits) {
        Some(n) if n == 0 || (n <= u64::from(MOST_FUEL) && !has_sign(word)) => Ok(n as u32),
        _ => Err(met(alloc, FaultKind::Range, row, word)),
    }
}
