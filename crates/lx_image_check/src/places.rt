//! The order of the functions of a text.
ghost use Rattle.std.specs.Prelude.{◌≡◌, ◌++◌, Some, cond, drop, filter, map, option_copied, slice_get, IfOk, OnOk};
ghost use Rattle.lx_ir.specs.Lookup.{is_defined};
ghost use Rattle.lx_image_texts.specs.ImageFaults.{defined_names, misplaced};
ghost use Rattle.lx_image_marks.specs.Told.{Gives};
ghost use Rattle.lx_image_check.specs.Expected.{expected, fault_if_defined, is_body, name_if, place_fault};

use lx_image_marks::{FaultKind, Refusal, is_wrapper, refuse};
use lx_ir::module::{Function, Module};
use lx_words::{Memory, Name, Names};
use std::alloc::Global;

fn push_name_if(alloc: Global, names: &mut Names, f: &Function, holds: bool) -> Result<(), Memory>
    ensures { OnOk result (names.new ≡ names.old ++ name_if holds f.now) }
{
    if holds {
        let name = Name::from_bytes(alloc, f.name.as_slice())?;
        names.push(name)?;
        Ok(())
    } else {
        Ok(())
    }
}

/// Whether a function is one of the program that the text defines.
fn is_body(f: &Function) -> bool
    ensures { result ≡ is_body f.now }
{
    f.blocks.is_some() && !is_wrapper(f)
}

#[tactic(auto, using(crate::proofs::Ordering::names_step, crate::proofs::Ordering::names_end))]
fn push_defined(alloc: Global, names: &mut Names, functions: &[Function]) -> Result<(), Memory>
    ensures { OnOk result (names.new ≡ names.old ++ defined_names functions.now) }
{
    for f in functions {
        push_name_if(alloc, names, f, is_body(f))?;
    }
    Ok(())
}

#[tactic(auto, using(crate::proofs::Ordering::wrappers_step, crate::proofs::Ordering::wrappers_end))]
fn push_wrappers(alloc: Global, names: &mut Names, wrappers: &[Function]) -> Result<(), Memory>
    ensures { OnOk result (names.new ≡ names.old ++ map (λ w. w.name) wrappers.now) }
{
    for f in wrappers {
        push_name_if(alloc, names, f, true)?;
    }
    Ok(())
}

/// The names of the functions that a text ought to define, in order: those of its program, and then its wrappers.
fn expected(alloc: Global, functions: &[Function], wrappers: &[Function]) -> Result<Names, Memory>
    ensures { IfOk result (λ names. names ≡ expected functions.now wrappers.now) }
{
    let mut names = Names::new(alloc);
    push_defined(alloc, &mut names, functions)?;
    push_wrappers(alloc, &mut names, wrappers)?;
    Ok(names)
}

/// Compares the name of a function with the one that is expected in its place.
fn check_place(alloc: Global, expected: Option<&Name>, f: &Function) -> Result<(), Refusal>
    ensures { Gives (place_fault (option_copied expected.entry) f.now) result }
{
    match expected {
        Some(name) => check_name(alloc, name, f),
        None => Err(refuse(
            alloc,
            FaultKind::WrapperDiffers,
            f.line,
            f.name.as_slice(),
            0,
        )),
    }
}

fn check_name(alloc: Global, expected: &Name, f: &Function) -> Result<(), Refusal>
    ensures { Gives (place_fault (Some expected.now) f.now) result }
{
    if expected.is_same(f.name.as_slice()) {
        Ok(())
    } else {
        Err(refuse(
            alloc,
            FaultKind::WrapperDiffers,
            f.line,
            f.name.as_slice(),
            0,
        ))
    }
}

fn first_of(names: &[Name]) -> Option<&Name>
    ensures { option_copied result ≡ slice_get names.now 0 }
{
    names.first()
}

/// The same for a function that the text defines; imports have no place.
fn check_if_defined(alloc: Global, expected: &[Name], f: &Function) -> Result<(), Refusal>
    ensures { Gives (fault_if_defined (slice_get expected.now 0) f.now) result }
{
    if f.blocks.is_some() {
        check_place(alloc, first_of(expected), f)
    } else {
        Ok(())
    }
}

/// The names that are expected behind a function.
fn behind<'a>(expected: &'a [Name], f: &Function) -> &'a [Name]
    ensures { result.now ≡ cond (is_defined f.now) (drop 1 expected.now) expected.now }
{
    if f.blocks.is_some() {
        without_first(expected)
    } else {
        expected
    }
}

fn without_first(names: &[Name]) -> &[Name]
    ensures { result.now ≡ drop 1 names.now }
{
    match names.split_first() {
        Some((_, rest)) => rest,
        None => &[],
    }
}

#[tactic(auto, using(crate::proofs::Ordering::place_step, crate::proofs::Ordering::place_end, lx_image_marks::proofs::Passes::first_answer))]
fn check_order(alloc: Global, expected: &[Name], functions: &[Function]) -> Result<(), Refusal>
    ensures { Gives (misplaced expected.now (filter is_defined functions.now)) result }
{
    let mut rest = expected;
    for f in functions {
        check_if_defined(alloc, rest, f)?;
        rest = behind(rest, f);
    }
    Ok(())
}

/// Finds the first function that does not stand in its place: first the functions of the program, then these wrappers.
pub(crate) fn check_places(alloc: Global, m: &Module, wrappers: &[Function]) -> Result<(), Refusal>
    ensures { Gives (misplaced (expected m.now.functions wrappers.now) (filter is_defined m.now.functions)) result }
{
    let names = expected(alloc, m.functions.as_slice(), wrappers)?;
    check_order(alloc, names.as_slice(), m.functions.as_slice())
}
