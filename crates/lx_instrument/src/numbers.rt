//! The numbers by which functions are called in an image.
ghost use Rattle.std.specs.Prelude.{◌≡◌, ◌++◌, ◌∷◌, [], cond, IfOk, OnOk};
ghost use Rattle.lx_image_texts.specs.Marks.{is_wrapped, one_if};
ghost use Rattle.lx_instrument.specs.Made.{called_numbers, numbers_from};

use lx_ir::module::{Function, Module};
use lx_words::{Items, Memory};
use lx_wrap::is_wrapped;
use std::alloc::Global;

/// A count as a number of 32 bits: a module with more functions is none that can be read.
fn number_of(count: usize) -> Result<u32, Memory>
    ensures { IfOk result (λ n. n ≡ count) }
{
    match u32::try_from(count) {
        Ok(number) => Ok(number),
        Err(_) => Err(Memory),
    }
}

/// The number of the wrapper behind a function.
fn next_behind(f: &Function, next: u32) -> Result<u32, Memory>
    ensures { IfOk result (λ n. n ≡ one_if (is_wrapped f.now) next) }
{
    if is_wrapped(f) {
        match next.checked_add(1) {
            Some(next) => Ok(next),
            None => Err(Memory),
        }
    } else {
        Ok(next)
    }
}

/// The number by which a function is called: its wrapper's, if it has one.
fn called(f: &Function, next: u32, place: u32) -> u32
    ensures { result ≡ cond (is_wrapped f.now) next place }
{
    if is_wrapped(f) { next } else { place }
}

/// Adds the number by which the function at a place is called.
fn push_number(
    numbers: &mut Items<u32>,
    f: &Function,
    next: u32,
    place: usize,
) -> Result<(), Memory>
    ensures { OnOk result (numbers.new ≡ numbers.old ++ cond (is_wrapped f.now) next place ∷ []) }
{
    let place = number_of(place)?;
    numbers.push(called(f, next, place))?;
    Ok(())
}

/// Adds the numbers by which functions are called, where `first` is the number of the first wrapper.
#[tactic(auto, using(crate::proofs::Counted::numbers_step, crate::proofs::Counted::numbers_end))]
fn push_numbers(numbers: &mut Items<u32>, first: u32, functions: &[Function]) -> Result<(), Memory>
    ensures { OnOk result (numbers.new ≡ numbers.old ++ numbers_from first 0 functions.now) }
{
    let mut next = first;
    for (place, f) in functions.iter().enumerate() {
        push_number(numbers, f, next, place)?;
        next = next_behind(f, next)?;
    }
    Ok(())
}

/// The numbers by which the functions of a module are called in its image.
pub(crate) fn called_numbers(alloc: Global, m: &Module) -> Result<Items<u32>, Memory>
    ensures { IfOk result (λ numbers. numbers ≡ called_numbers m.now) }
{
    let first = number_of(m.functions.len())?;
    let mut numbers = Items::new(alloc);
    push_numbers(&mut numbers, first, m.functions.as_slice())?;
    Ok(numbers)
}
