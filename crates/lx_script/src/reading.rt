//! One statement of a case, word by word.

ghost use Rattle.std.specs.Prelude.{◌≡◌, ◌≤◌};
ghost use Rattle.lx_script.specs.Faults.{IsError};
ghost use Rattle.lx_script.specs.Reading.{Gives, arguments_at, call_in, end_at, file_at, fixed_at, lack, last_at, names_of, next_argument_at, origin_at, place_at, spent_at, version_at, word_at};

use crate::case::{CaseArg, CaseArgs, CaseCall, CaseTarget, Origin};
use crate::fault::{FaultKind, ReadError, met, met_byte};
use crate::keyword::{BUILTIN, CASE, FILE, FUEL, LXFI, NONE, VERSION};
use crate::modules::Modules;
use crate::statement::Statement;
use crate::symbol::{MOST_FUEL, argument, fuel, symbol_in};
use lx_words::Name;
use std::alloc::Global;

/// What is met where a line has no word more: its end, or the byte that cuts it off.
fn lacks(alloc: Global, row: u32, stop: Option<u8>) -> ReadError
    ensures { IsError (lack row stop) result }
{
    match stop {
        None => met(alloc, FaultKind::Statement, row, b"end"),
        Some(byte) => met_byte(alloc, row, byte),
    }
}

#[tactic(auto, unfolding(crate::specs::Reading::word_at))]
/// The next word.
pub fn word<'a>(alloc: Global, s: &mut Statement<'a>) -> Result<&'a [u8], ReadError>
    ensures { Gives (λ w. (w.now, s.new)) result (word_at s.old) }
{
    let (row, stop) = (s.row, s.stop);
    match s.word() {
        Some(word) => Ok(word),
        None => Err(lacks(alloc, row, stop)),
    }
}

#[tactic(auto, unfolding(crate::specs::Reading::end_at))]
/// The end of the line.
pub fn end(alloc: Global, s: &mut Statement<'_>) -> Result<(), ReadError>
    ensures { Gives (λ _. tt) result (end_at s.old) }
{
    let (row, stop) = (s.row, s.stop);
    match s.word() {
        Some(word) => Err(met(alloc, FaultKind::Statement, row, word)),
        None => match stop {
            Some(byte) => Err(met_byte(alloc, row, byte)),
            None => Ok(()),
        },
    }
}

#[tactic(auto, unfolding(crate::specs::Reading::fixed_at))]
/// A word that can only be this one.
fn fixed(alloc: Global, text: &[u8], s: &mut Statement<'_>) -> Result<(), ReadError>
    ensures { Gives (λ _. s.new) result (fixed_at text.now s.old) }
{
    let row = s.row;
    let found = word(alloc, s)?;
    if found != text {
        return Err(met(alloc, FaultKind::Statement, row, found));
    }
    Ok(())
}

#[tactic(auto, unfolding(crate::specs::Reading::version_at))]
/// The version of a case's form.
pub fn version(alloc: Global, s: &mut Statement<'_>) -> Result<(), ReadError>
    ensures { Gives (λ _. tt) result (version_at s.old) }
{
    fixed(alloc, LXFI, s)?;
    fixed(alloc, CASE, s)?;
    fixed(alloc, VERSION, s)?;
    end(alloc, s)?;
    Ok(())
}

#[tactic(auto, unfolding(crate::specs::Reading::last_at))]
fn last(alloc: Global, origin: Origin, s: &mut Statement<'_>) -> Result<Origin, ReadError>
    ensures { Gives (λ o. o) result (last_at origin s.old) }
{
    end(alloc, s)?;
    Ok(origin)
}

#[tactic(auto, unfolding(crate::specs::Reading::file_at))]
fn file(alloc: Global, s: &mut Statement<'_>) -> Result<Origin, ReadError>
    ensures { Gives (λ o. o) result (file_at s.old) }
{
    let name = word(alloc, s)?;
    let name = Name::from_bytes(alloc, name)?;
    let origin = last(alloc, Origin::File(name), s)?;
    Ok(origin)
}

#[tactic(auto, unfolding(crate::specs::Reading::place_at))]
/// Where a text comes from, where `from` is the first word that says so.
fn place(alloc: Global, row: u32, from: &[u8], s: &mut Statement<'_>) -> Result<Origin, ReadError>
    ensures { Gives (λ o. o) result (place_at row from.now s.old) }
{
    if from == NONE {
        let origin = last(alloc, Origin::None, s)?;
        Ok(origin)
    } else if from == BUILTIN {
        let origin = last(alloc, Origin::Builtin, s)?;
        Ok(origin)
    } else if from == FILE {
        let origin = file(alloc, s)?;
        Ok(origin)
    } else {
        Err(met(alloc, FaultKind::Statement, row, from))
    }
}

#[tactic(auto, unfolding(crate::specs::Reading::origin_at))]
/// Where the text that a keyword speaks of comes from.
pub fn origin(alloc: Global, keyword: &[u8], s: &mut Statement<'_>) -> Result<Origin, ReadError>
    ensures { Gives (λ o. o) result (origin_at keyword.now s.old) }
{
    let row = s.row;
    fixed(alloc, keyword, s)?;
    let from = word(alloc, s)?;
    let origin = place(alloc, row, from, s)?;
    Ok(origin)
}

#[tactic(auto, unfolding(crate::specs::Reading::next_argument_at))]
/// The next argument, or none at the word `fuel`.
fn next_argument(
    alloc: Global,
    modules: &Modules<'_>,
    s: &mut Statement<'_>,
) -> Result<Option<CaseArg>, ReadError>
    ensures { Gives (λ a. (a, s.new)) result (next_argument_at (names_of modules.now) s.old) }
{
    let row = s.row;
    let word = word(alloc, s)?;
    if word == FUEL {
        return Ok(None);
    }
    let argument = argument(alloc, modules, row, word)?;
    Ok(Some(argument))
}

/// The arguments up to the word `fuel`.
fn arguments(
    alloc: Global,
    modules: &Modules<'_>,
    s: &mut Statement<'_>,
) -> Result<CaseArgs, ReadError>
    ensures { Gives (λ a. (a, s.new)) result (arguments_at (names_of modules.now) s.old) }
{
    let mut arguments = CaseArgs::new(alloc);
    while let Some(argument) = next_argument(alloc, modules, s)? {
        arguments.push(argument)?;
    }
    Ok(arguments)
}

#[tactic(auto, unfolding(crate::specs::Reading::spent_at))]
/// Fuel that fits beside the fuel so far.
fn spent(alloc: Global, row: u32, so_far: u32, s: &mut Statement<'_>) -> Result<u32, ReadError>
    requires { so_far ≤ MOST_FUEL }
    ensures { Gives (λ n. (n, s.new)) result (spent_at row so_far s.old) }
{
    let word = word(alloc, s)?;
    let fuel = fuel(alloc, row, word)?;
    if fuel > MOST_FUEL - so_far {
        return Err(met(alloc, FaultKind::Limit, row, FUEL));
    }
    Ok(fuel)
}

#[tactic(auto, unfolding(crate::specs::Reading::call_in))]
/// A call: its target, its arguments and its fuel.
pub fn call(
    alloc: Global,
    modules: &Modules<'_>,
    so_far: u32,
    s: &mut Statement<'_>,
) -> Result<CaseCall, ReadError>
    requires { so_far ≤ MOST_FUEL }
    ensures { Gives (λ c. c) result (call_in (names_of modules.now) so_far s.old) }
{
    let line = s.row;
    let target = word(alloc, s)?;
    let target = symbol_in(alloc, modules, line, target, target)?;
    let function = Name::from_bytes(alloc, target.name)?;
    let args = arguments(alloc, modules, s)?;
    let fuel = spent(alloc, line, so_far, s)?;
    end(alloc, s)?;
    Ok(CaseCall {
        target: CaseTarget {
            module: target.module,
            function,
        },
        args,
        fuel,
        line,
    })
}
