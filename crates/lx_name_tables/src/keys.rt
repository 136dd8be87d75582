//! Maps from a text and a number there to what it is in a program. They are filled from the last to the first, so that of
//! equal keys the first stays.
ghost use Rattle.std.specs.Prelude.{◌≡◌, ℕ, ◌≤◌, ◌<◌, Some, List, cond, find, length, position, option_map, IfOk, IfSome, OnOk};
ghost use Rattle.lx_model.specs.Program.{Home, is_entry, same_home};
ghost use Rattle.lx_name_tables.specs.Keys.{at_key, is_global, HasAddresses, HasNumbers};

use indexmap::IndexMap;
use lx_model::program::{ProgramFunction, ProgramGlobal};
use lx_words::Memory;
use std::alloc::Global;

/// A text, the kernel's where it is none, and the number of a function or of a global there.
pub(crate) type Key = (Option<u32>, usize);

/// Whether two texts are the same; none is the kernel's.
fn is_same_home(home: Option<u32>, other: Option<u32>) -> bool
    ensures { result ≡ same_home home other }
{
    match (home, other) {
        (None, None) => true,
        (Some(m), Some(n)) => m == n,
        _ => false,
    }
}

fn is_entry(entry: &ProgramFunction, home: Option<u32>, number: usize) -> bool
    ensures { result ≡ is_entry home number entry.now }
{
    match entry {
        ProgramFunction::Of { module, function } => {
            is_same_home(home, *module) && number == *function as usize
        }
        ProgramFunction::Native(_) => false,
    }
}

fn is_global(global: &ProgramGlobal, home: Option<u32>, number: usize) -> bool
    ensures { result ≡ is_global home number global.now }
{
    is_same_home(global.module, home) && global.global as usize == number
}

/// Puts a function of a text at its key.
fn put_number(
    numbers: &mut IndexMap<Key, u32>,
    entry: &ProgramFunction,
    number: usize,
) -> Result<(), Memory>
    requires { number < 4294967296 }
    ensures { OnOk result ((home : Home) → (f : ℕ) → at_key numbers.new.entries home f ≡ cond (is_entry home f entry.now) (Some number) (at_key numbers.old.entries home f)) }
{
    match entry {
        ProgramFunction::Of { module, function } => {
            numbers.insert((*module, *function as usize), number as u32)?;
            Ok(())
        }
        ProgramFunction::Native(_) => Ok(()),
    }
}

fn filled_numbers(
    alloc: Global,
    functions: &[ProgramFunction],
) -> Result<IndexMap<Key, u32>, Memory>
    requires { length functions.now ≤ 4294967296 }
    ensures { IfOk result (λ numbers. HasNumbers functions.now numbers.entries) }
{
    let mut numbers = IndexMap::new(alloc);
    let mut left = functions.len();
    while left > 0 {
        left -= 1;
        put_number(&mut numbers, &functions[left], left)?;
    }
    Ok(numbers)
}

/// The numbers of a program's functions, by their keys; none, where there is no memory for them.
pub(crate) fn numbers_of(alloc: Global, functions: &[ProgramFunction]) -> Option<IndexMap<Key, u32>>
    requires { length functions.now ≤ 4294967296 }
    ensures { IfSome result (λ numbers. HasNumbers functions.now numbers.entries) }
{
    match filled_numbers(alloc, functions) {
        Ok(numbers) => Some(numbers),
        Err(_) => None,
    }
}

fn place_of(functions: &[ProgramFunction], home: Option<u32>, number: usize) -> Option<usize>
    ensures place { result ≡ position (is_entry home number) functions.now }
    ensures small { IfSome result (λ n. n < length functions.now) }
{
    functions
        .iter()
        .position(|entry| is_entry(entry, home, number))
}

/// The number in a program of a function that a text defines. Without a map the functions are searched.
pub(crate) fn number_of(
    functions: &[ProgramFunction],
    numbers: &Option<IndexMap<Key, u32>>,
    home: Option<u32>,
    function: usize,
) -> Option<u32>
    requires few { length functions.now ≤ 4294967296 }
    requires table { IfSome numbers.now (λ numbers. HasNumbers functions.now numbers.entries) }
    ensures { result ≡ position (is_entry home function) functions.now }
{
    match numbers {
        Some(numbers) => numbers.get(&(home, function)).copied(),
        None => match place_of(functions, home, function) {
            Some(place) => Some(place as u32),
            None => None,
        },
    }
}

/// Puts the address of a global at its key.
fn put_address(addresses: &mut IndexMap<Key, u64>, global: &ProgramGlobal) -> Result<(), Memory>
    ensures { OnOk result ((home : Home) → (g : ℕ) → at_key addresses.new.entries home g ≡ cond (is_global home g global.now) (Some global.now.at) (at_key addresses.old.entries home g)) }
{
    addresses.insert((global.module, global.global as usize), global.at)?;
    Ok(())
}

fn filled_addresses(alloc: Global, globals: &[ProgramGlobal]) -> Result<IndexMap<Key, u64>, Memory>
    ensures { IfOk result (λ addresses. HasAddresses globals.now addresses.entries) }
{
    let mut addresses = IndexMap::new(alloc);
    let mut left = globals.len();
    while left > 0 {
        left -= 1;
        put_address(&mut addresses, &globals[left])?;
    }
    Ok(addresses)
}

/// The addresses of globals, by their keys; none, where there is no memory for them.
pub(crate) fn addresses_of(alloc: Global, globals: &[ProgramGlobal]) -> Option<IndexMap<Key, u64>>
    ensures { IfSome result (λ addresses. HasAddresses globals.now addresses.entries) }
{
    match filled_addresses(alloc, globals) {
        Ok(addresses) => Some(addresses),
        Err(_) => None,
    }
}

/// The address of a global, if there is one. Without a map the globals are searched.
pub(crate) fn address_of(
    globals: &[ProgramGlobal],
    addresses: &Option<IndexMap<Key, u64>>,
    home: Option<u32>,
    number: usize,
) -> Option<u64>
    requires { IfSome addresses.now (λ addresses. HasAddresses globals.now addresses.entries) }
    ensures { result ≡ option_map (λ x. x.at) (find (is_global home number) globals.now) }
{
    match addresses {
        Some(addresses) => addresses.get(&(home, number)).copied(),
        None => match globals
            .iter()
            .find(|global| is_global(global, home, number))
        {
            Some(global) => Some(global.at),
            None => None,
        },
    }
}
