//! Numbers of spreads that are known, and the names and types of a module by their numbers.
ghost use Rattle.std.specs.Prelude.{◌≡◌, ℕ, None, Some, IfOk, if◌then◌else◌, nat_eq, nat_lt, ◌&&◌, length, option_copied, option_map, slice_get};
ghost use Rattle.lx_slot_sums.specs.Known.{known};

use lx_ir::module::Module;
use lx_ir::types::IrType;
use lx_words::Memory;
use std::alloc::Global;

/// The number of the spread of the type or the global with a number, if it has one.
pub(crate) fn known(numbers: &[Option<u32>], number: u32) -> Option<u32>
    ensures { result ≡ known numbers.now number }
{
    numbers.get(number as usize).copied().flatten()
}

/// Keeps the number of the spread of the named type with a number, if there is such a type.
pub(crate) fn keep(numbers: &mut Vec<Option<u32>>, number: u32, spread: Option<u32>)
    ensures { (n : ℕ) → known numbers.new.items n ≡ (if nat_eq number n && nat_lt n (length numbers.old.items) then spread else known numbers.old.items n) }
{
    if (number as usize) < numbers.len() {
        numbers[number as usize] = spread;
    }
}

/// Of so many named types, no spreads.
#[tactic(auto, using(crate::proofs::Kept::none_more, crate::proofs::Kept::none_at_first))]
pub(crate) fn nothing_known(alloc: Global, count: usize) -> Result<Vec<Option<u32>>, Memory>
    ensures { IfOk result (λ numbers. (n : ℕ) → known numbers.items n ≡ None) }
{
    let mut numbers = Vec::new(alloc);
    for _ in 0..count {
        numbers.push(None)?;
    }
    Ok(numbers)
}

/// The number of the name of the named type with a number, if an interface types a field of it.
pub(crate) fn name_number(names: &[Option<usize>], number: u32) -> Option<usize>
    ensures { result ≡ known names.now number }
{
    names.get(number as usize).copied().flatten()
}

/// The type of the global with a number.
pub(crate) fn global_type(m: &Module, number: u32) -> Option<&IrType>
    ensures { option_copied result ≡ option_map (λ g. g.ty) (slice_get m.entry.now.globals number) }
{
    match m.globals.as_slice().get(number as usize) {
        Some(global) => Some(&global.ty),
        None => None,
    }
}

/// The type that a number names.
pub(crate) fn named_type(m: &Module, number: u32) -> Option<&IrType>
    ensures { option_copied result ≡ option_map (λ t. t.ty) (slice_get m.entry.now.types number) }
{
    match m.types.get(number) {
        Some(named) => Some(&named.ty),
        None => None,
    }
}
