//! The slot type of a function, and whether all that it gets agree.

ghost use Rattle.std.specs.Prelude.{◌≡◌, ◌++◌, ◌<◌, IfOk, MatchResult, OnOk, Some, length, option_to_list};
ghost use Rattle.lx_propagate.specs.Answers.{GivesOr, IsAnswerOr};
ghost use Rattle.lx_propagate.specs.Decide.{conflict_in, first_conflict, mark_in, marked_in};
ghost use Rattle.lx_propagate.specs.Slots.{conflict, slot_name};
ghost use Rattle.lx_propagate.specs.Told.{told_sum};

use crate::fault::PropagateFault;
use crate::means::Means;
use crate::slots::SlotTypes;
use lx_annot::interface::Interface;
use lx_ir::module::Function;
use lx_slot_sums::SlotSum;
use lx_slot_types::Marked;
use lx_words::Memory;
use std::alloc::Global;

/// The name of the slot type with this number.
fn slot_name(i: &Interface, slot: u32) -> &[u8]
    ensures { result.now ≡ slot_name i.now slot }
{
    match i.slots.as_slice().get(slot as usize) {
        Some(slot) => slot.name.as_slice(),
        None => &[],
    }
}

/// The conflict of two slot types of a function.
fn conflict<M: Means>(
    means: &M,
    i: &Interface,
    f: &Function,
    first: u32,
    second: u32,
) -> Result<PropagateFault, Memory>
    ensures { MatchResult result (IsAnswerOr ⊥ (Some (conflict i.now f.now first second))) (λ _. M.lacks means.now) }
{
    let function = means.name(f.name.as_slice())?;
    let first = means.name(slot_name(i, first))?;
    let second = means.name(slot_name(i, second))?;
    Ok(PropagateFault::Conflict {
        line: f.line,
        function,
        first,
        second,
    })
}

/// The same, or want of memory for its names.
#[tactic(auto, using(crate::proofs::Passes::is_answer))]
fn told<M: Means>(means: &M, i: &Interface, f: &Function, first: u32, second: u32) -> PropagateFault
    ensures { IsAnswerOr (M.lacks means.now) (Some (conflict i.now f.now first second)) result }
{
    match conflict(means, i, f, first, second) {
        Ok(fault) => fault,
        Err(_) => PropagateFault::Memory,
    }
}

/// Finds a conflict of a function whose slot types come to this.
fn check_sum<M: Means>(
    means: &M,
    i: &Interface,
    f: &Function,
    sum: SlotSum,
) -> Result<(), PropagateFault>
    ensures { GivesOr (M.lacks means.now) (conflict_in i.now f.now sum) result }
{
    if f.blocks.is_none() {
        return Ok(());
    }
    match sum.first {
        None => Ok(()),
        Some(first) => match sum.other {
            None => Ok(()),
            Some(second) => Err(told(means, i, f, first, second)),
        },
    }
}

/// Finds a conflict of the function with this number.
fn check_function<M: Means>(
    means: &M,
    i: &Interface,
    f: &Function,
    number: usize,
    types: &SlotTypes,
) -> Result<(), PropagateFault>
    ensures { GivesOr (M.lacks means.now) (conflict_in i.now f.now (told_sum types.now number)) result }
{
    check_sum(means, i, f, types.sum_of(number))
}

/// Finds the first function with a conflict.
#[tactic(auto, using(crate::proofs::Passes::conflict_step, crate::proofs::Passes::conflict_end, crate::proofs::Passes::first_answer))]
pub fn check_functions<M: Means>(
    means: &M,
    i: &Interface,
    functions: &[Function],
    types: &SlotTypes,
) -> Result<(), PropagateFault>
    ensures { GivesOr (M.lacks means.now) (first_conflict i.now (told_sum types.now) 0 functions.now) result }
{
    for (k, f) in functions.iter().enumerate() {
        check_function(means, i, f, k, types)?;
    }
    Ok(())
}

/// The first slot type of a function whose slot types come to this, with the function's number; none for an import.
fn mark_in(number: u32, f: &Function, sum: SlotSum) -> Option<Marked>
    ensures { result ≡ mark_in number f.now sum }
{
    if f.blocks.is_none() {
        return None;
    }
    match sum.first {
        None => None,
        Some(slot) => Some(Marked {
            function: number,
            slot,
        }),
    }
}

fn push_mark(out: &mut Vec<Marked>, mark: Option<Marked>) -> Result<(), Memory>
    ensures { OnOk result (out.new.items ≡ out.old.items ++ option_to_list mark) }
{
    match mark {
        Some(mark) => {
            out.push(mark)?;
            Ok(())
        }
        None => Ok(()),
    }
}

/// Appends a function with its first slot type.
fn push_function_mark(
    out: &mut Vec<Marked>,
    f: &Function,
    number: u32,
    types: &SlotTypes,
) -> Result<(), Memory>
    ensures { OnOk result (out.new.items ≡ out.old.items ++ option_to_list (mark_in number f.now (told_sum types.now number))) }
{
    push_mark(out, mark_in(number, f, types.sum_of(number as usize)))
}

/// Functions with their first slot types.
pub fn marked_in(
    alloc: Global,
    functions: &[Function],
    types: &SlotTypes,
) -> Result<Vec<Marked>, Memory>
    requires { length functions.now < 4294967295 }
    ensures { IfOk result (λ list. list.items ≡ marked_in (told_sum types.now) 0 functions.now) }
{
    let mut list = Vec::new(alloc);
    for (k, f) in functions.iter().enumerate() {
        push_function_mark(&mut list, f, k as u32, types)?;
    }
    Ok(list)
}
