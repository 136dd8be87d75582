//! Maps from numbers to the places of the first cases with them. They are filled from the last to the first, so that of
//! equal cases the first stays.
ghost use Rattle.std.specs.Prelude.{◌≡◌, ℕ, Some, List, cond, IfOk, OnOk};
ghost use Rattle.std.specs.List.{list_all};
ghost use Rattle.lx_code.specs.Firsts.{at_number, is_case, is_constant, is_fixed, number_of, HasCases};

use crate::text::PlacedText;
use indexmap::IndexMap;
use lx_ir::instr::SwitchCase;
use lx_ir::module::Value;
use lx_words::Memory;
use std::alloc::Global;

// The number that a value is each time, if it is a constant.
fn number_of<C: PlacedText>(text: &C, value: &Value) -> Option<u64>
    ensures { result ≡ number_of (C.comes_to text.now) value.now }
{
    match value {
        Value::Constant(constant) => Some(text.number(constant)),
        Value::Register(_) => None,
    }
}

fn is_constant(value: &Value) -> bool
    ensures { result ≡ is_constant value.now }
{
    match value {
        Value::Constant(_) => true,
        Value::Register(_) => false,
    }
}

fn is_fixed(case: &SwitchCase) -> bool
    ensures { result ≡ is_fixed case.now }
{
    is_constant(&case.value)
}

/// Whether each case is the same number each time.
pub(crate) fn are_fixed(cases: &[SwitchCase]) -> bool
    ensures { result ≡ list_all is_fixed cases.now }
{
    cases.iter().all(|case| is_fixed(case))
}

// Puts a case at its number, if it is a constant.
fn put_case<C: PlacedText>(
    text: &C,
    numbers: &mut IndexMap<u64, usize>,
    case: &SwitchCase,
    place: usize,
) -> Result<(), Memory>
    ensures { OnOk result ((n : ℕ) → at_number numbers.new.entries n ≡ cond (is_case (C.comes_to text.now) n case.now) (Some place) (at_number numbers.old.entries n)) }
{
    match number_of(text, &case.value) {
        Some(number) => {
            numbers.insert(number, place)?;
            Ok(())
        }
        None => Ok(()),
    }
}

/// The place of the first case of each number.
pub(crate) fn cases_of<C: PlacedText>(
    alloc: Global,
    text: &C,
    cases: &[SwitchCase],
) -> Result<IndexMap<u64, usize>, Memory>
    ensures { IfOk result (λ numbers. HasCases (C.comes_to text.now) cases.now numbers.entries) }
{
    let mut numbers = IndexMap::new(alloc);
    let mut left = cases.len();
    while left > 0 {
        left -= 1;
        put_case(text, &mut numbers, &cases[left], left)?;
    }
    Ok(numbers)
}
