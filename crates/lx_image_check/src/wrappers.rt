//! The wrappers of a text, beside those that it ought to have.
ghost use Rattle.std.specs.Prelude.{◌≡◌, ℕ, Some, IsTrue, List, cond, find, length, option_copied, slice_get, true, OnOk, IfOk};
ghost use Rattle.std.specs.List.{list_all};
ghost use Rattle.lx_ir.specs.Faults.{first_some};
ghost use Rattle.lx_ir.specs.Lookup.{instrs_of};
ghost use Rattle.lx_image_texts.specs.ImageFaults.{compared, difference, different_from, head_fault, missing_fault};
ghost use Rattle.lx_image_marks.specs.Named.{at_name};
ghost use Rattle.lx_image_marks.specs.Told.{Gives};
ghost use Rattle.lx_image_check.specs.Compared.{has_one_block};
ghost use Rattle.lx_image_check.specs.Expected.{HasDefined, defines};

use crate::heads::is_same_head;
use crate::lines::check_lines;
use indexmap::IndexMap;
use lx_image_marks::{FaultKind, Refusal, refuse};
use lx_ir::instr::Instr;
use lx_ir::module::{Block, Function, Module};
use lx_ir_uses::blocks_of;
use lx_words::Memory;
use std::alloc::Global;

// Puts a function at its name, if its text defines it.
fn put_defined<'a>(
    places: &mut IndexMap<&'a [u8], usize>,
    f: &'a Function,
    place: usize,
) -> Result<(), Memory>
    ensures { OnOk result ((name : List ℕ) → at_name places.new.entries name ≡ cond (defines name f.now) (Some place) (at_name places.old.entries name)) }
{
    if f.blocks.is_some() {
        places.insert(f.name.as_slice(), place)?;
        Ok(())
    } else {
        Ok(())
    }
}

// The places of the functions that a text defines. The map is filled from the last to the first, so that of equal names the first stays.
fn defined_in<'a>(
    alloc: Global,
    functions: &'a [Function],
) -> Result<IndexMap<&'a [u8], usize>, Memory>
    ensures { IfOk result (λ places. HasDefined functions.now places.entries) }
{
    let mut places = IndexMap::new(alloc);
    let mut left = functions.len();
    while left > 0 {
        left -= 1;
        put_defined(&mut places, &functions[left], left)?;
    }
    Ok(places)
}

fn place_of(places: &IndexMap<&[u8], usize>, name: &[u8]) -> Option<usize>
    ensures { result ≡ at_name places.now.entries name.now }
{
    places.get(name).copied()
}

fn function_at(functions: &[Function], place: usize) -> Option<&Function>
    ensures { option_copied result ≡ slice_get functions.now place }
{
    functions.get(place)
}

/// The function that a text defines by this name.
fn defined<'a>(
    functions: &'a [Function],
    places: &IndexMap<&[u8], usize>,
    name: &[u8],
) -> Option<&'a Function>
    requires { HasDefined functions.now places.now.entries }
    ensures { option_copied result ≡ find (defines name.now) functions.now }
{
    match place_of(places, name) {
        Some(place) => function_at(functions, place),
        None => None,
    }
}

fn first_of(blocks: &[Block]) -> Option<&Block>
    ensures { option_copied result ≡ slice_get blocks.now 0 }
{
    blocks.first()
}

/// The lines of a wrapper as it ought to be.
fn lines_of(wrapper: &Function) -> &[Instr]
    requires { IsTrue (has_one_block wrapper.now) }
    ensures { result.now ≡ instrs_of wrapper.now }
{
    match first_of(blocks_of(wrapper)) {
        Some(block) => block.instrs.as_slice(),
        None => &[],
    }
}

fn check_head(alloc: Global, wrapper: &Function, lines: usize, f: &Function) -> Result<(), Refusal>
    requires { lines ≡ length (instrs_of wrapper.now) }
    ensures { Gives (head_fault wrapper.now f.now) result }
{
    if is_same_head(wrapper, lines, f) {
        Ok(())
    } else {
        Err(refuse(
            alloc,
            FaultKind::WrapperDiffers,
            f.line,
            f.name.as_slice(),
            0,
        ))
    }
}

/// Compares a function with the wrapper that it ought to be.
#[tactic(auto, using(crate::proofs::OneBlock::difference_is, lx_image_marks::proofs::Passes::first_answer))]
fn check_found(alloc: Global, wrapper: &Function, f: &Function) -> Result<(), Refusal>
    requires { IsTrue (has_one_block wrapper.now) }
    ensures { Gives (difference wrapper.now f.now (different_from 0 (instrs_of wrapper.now) (instrs_of f.now))) result }
{
    let lines = lines_of(wrapper);
    check_lines(alloc, f.name.as_slice(), lines, blocks_of(f))?;
    check_head(alloc, wrapper, lines.len(), f)?;
    Ok(())
}

/// Compares a wrapper that a text ought to have with the function of its name, if there is one.
fn check_wrapper(alloc: Global, wrapper: &Function, found: Option<&Function>) -> Result<(), Refusal>
    requires { IsTrue (has_one_block wrapper.now) }
    ensures { Gives (compared wrapper.now (option_copied found.entry)) result }
{
    match found {
        Some(f) => check_found(alloc, wrapper, f),
        None => Err(refuse(
            alloc,
            FaultKind::WrapperDiffers,
            1,
            wrapper.name.as_slice(),
            0,
        )),
    }
}

fn check_missing(
    alloc: Global,
    m: &Module,
    places: &IndexMap<&[u8], usize>,
    wrapper: &Function,
) -> Result<(), Refusal>
    requires block { IsTrue (has_one_block wrapper.now) }
    requires places { HasDefined m.now.functions places.now.entries }
    ensures { Gives (missing_fault m.now wrapper.now) result }
{
    let found = defined(m.functions.as_slice(), places, wrapper.name.as_slice());
    check_wrapper(alloc, wrapper, found)
}

#[tactic(auto, using(lx_ir_verify::proofs::Passes::first_step, lx_ir_verify::proofs::Passes::first_end, lx_image_marks::proofs::Passes::first_answer))]
fn check_each(
    alloc: Global,
    m: &Module,
    places: &IndexMap<&[u8], usize>,
    wrappers: &[Function],
) -> Result<(), Refusal>
    requires blocks { list_all has_one_block wrappers.now ≡ true }
    requires places { HasDefined m.now.functions places.now.entries }
    ensures { Gives (first_some (missing_fault m.now) wrappers.now) result }
{
    for wrapper in wrappers {
        check_missing(alloc, m, places, wrapper)?;
    }
    Ok(())
}

/// Finds the first wrapper that a text ought to have and has not, or has otherwise.
pub(crate) fn check_wrappers(
    alloc: Global,
    m: &Module,
    wrappers: &[Function],
) -> Result<(), Refusal>
    requires { list_all has_one_block wrappers.now ≡ true }
    ensures { Gives (first_some (missing_fault m.now) wrappers.now) result }
{
    let places = defined_in(alloc, m.functions.as_slice())?;
    check_each(alloc, m, &places, wrappers)
}
