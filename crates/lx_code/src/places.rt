//! Maps of what stands first. They are filled from the last to the first, so that of equal keys the first stays.
ghost use Rattle.std.specs.Prelude.{◌≡◌, ℕ, ◌≤◌, ◌<◌, Some, List, cond, length, OnOk, IfOk};
ghost use Rattle.lx_code.specs.Places.{at_key, at_name, defines, is_named, is_global, HasNumbers, HasNames, HasAddresses};
ghost use Rattle.lx_model.specs.Program.{Home, is_entry};

use indexmap::IndexMap;
use lx_annot::interface::Slot;
use lx_ir::module::Function;
use lx_model::program::{ProgramFunction, ProgramGlobal};
use lx_words::Memory;
use std::alloc::Global;

/// A text, the kernel's where it is none, and the number of a function or of a global there.
pub(crate) type Key = (Option<u32>, usize);

// Puts a function of a text at its key.
fn put_number(
    numbers: &mut IndexMap<Key, u32>,
    entry: &ProgramFunction,
    number: usize,
) -> Result<(), Memory>
    requires { number < 4294967296 }
    ensures { OnOk result ((home : Home) → (f : ℕ) → at_key numbers.new.entries home f ≡ cond (is_entry home f entry.now) (Some number) (at_key numbers.old.entries home f)) }
{
    match entry {
        ProgramFunction::Of { module, function } => {
            numbers.insert((*module, *function as usize), number as u32)?;
            Ok(())
        }
        ProgramFunction::Native(_) => Ok(()),
    }
}

/// The numbers of a program's functions, by their keys.
pub(crate) fn numbers_of(
    alloc: Global,
    functions: &[ProgramFunction],
) -> Result<IndexMap<Key, u32>, Memory>
    requires { length functions.now ≤ 4294967296 }
    ensures { IfOk result (λ numbers. HasNumbers functions.now numbers.entries) }
{
    let mut numbers = IndexMap::new(alloc);
    let mut left = functions.len();
    while left > 0 {
        left -= 1;
        put_number(&mut numbers, &functions[left], left)?;
    }
    Ok(numbers)
}

// Puts a function at its name, if its text defines it.
fn put_defined<'a>(
    names: &mut IndexMap<&'a [u8], usize>,
    function: &'a Function,
    place: usize,
) -> Result<(), Memory>
    ensures { OnOk result ((name : List ℕ) → at_name names.new.entries name ≡ cond (defines name function.now) (Some place) (at_name names.old.entries name)) }
{
    if function.blocks.is_some() {
        names.insert(function.name.as_slice(), place)?;
        Ok(())
    } else {
        Ok(())
    }
}

/// The places of the functions that a text defines, by their names.
pub(crate) fn defined_in<'a>(
    alloc: Global,
    functions: &'a [Function],
) -> Result<IndexMap<&'a [u8], usize>, Memory>
    ensures { IfOk result (λ names. HasNames defines functions.now names.entries) }
{
    let mut names = IndexMap::new(alloc);
    let mut left = functions.len();
    while left > 0 {
        left -= 1;
        put_defined(&mut names, &functions[left], left)?;
    }
    Ok(names)
}

// Puts a slot type at its name.
fn put_slot<'a>(
    names: &mut IndexMap<&'a [u8], u32>,
    slot: &'a Slot,
    number: usize,
) -> Result<(), Memory>
    requires { number < 4294967296 }
    ensures { OnOk result ((name : List ℕ) → at_name names.new.entries name ≡ cond (is_named name slot.now) (Some number) (at_name names.old.entries name)) }
{
    names.insert(slot.name.as_slice(), number as u32)?;
    Ok(())
}

/// The numbers of slot types, by their names.
pub(crate) fn slots_in<'a>(
    alloc: Global,
    slots: &'a [Slot],
) -> Result<IndexMap<&'a [u8], u32>, Memory>
    requires { length slots.now ≤ 4294967296 }
    ensures { IfOk result (λ names. HasNames is_named slots.now names.entries) }
{
    let mut names = IndexMap::new(alloc);
    let mut left = slots.len();
    while left > 0 {
        left -= 1;
        put_slot(&mut names, &slots[left], left)?;
    }
    Ok(names)
}

// Puts the address of a global at its key.
fn put_address(addresses: &mut IndexMap<Key, u64>, global: &ProgramGlobal) -> Result<(), Memory>
    ensures { OnOk result ((home : Home) → (g : ℕ) → at_key addresses.new.entries home g ≡ cond (is_global home g global.now) (Some global.now.at) (at_key addresses.old.entries home g)) }
{
    addresses.insert((global.module, global.global as usize), global.at)?;
    Ok(())
}

/// The addresses of globals, by their keys.
pub(crate) fn addresses_of(
    alloc: Global,
    globals: &[ProgramGlobal],
) -> Result<IndexMap<Key, u64>, Memory>
    ensures { IfOk result (λ addresses. HasAddresses globals.now addresses.entries) }
{
    let mut addresses = IndexMap::new(alloc);
    let mut left = globals.len();
    while left > 0 {
        left -= 1;
        put_address(&mut addresses, &globals[left])?;
    }
    Ok(addresses)
}
