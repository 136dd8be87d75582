//! Where registers are given.
ghost use Rattle.std.specs.Prelude.{◌≡◌, None, Some, IfOk, replicate, slice_index_or, slice_set};
ghost use Rattle.lx_ir_walks.specs.Givers.{AreGivers, noted};

use crate::instrs_at;
use lx_ir::module::Function;
use lx_ir_uses::{blocks_of, given_by};
use lx_words::Memory;
use std::alloc::Global;

/// Where an instruction stands: in which block, and behind how many others of it.
#[derive(Clone, Copy)]
pub struct Place {
    pub block: usize,
    pub place: usize,
}

#[tactic(auto, using(std::proofs::lemmas::List::set_past))]
fn set(table: &mut Vec<Option<Place>>, register: usize, place: Place)
    ensures { table.new.items ≡ slice_set table.old.items register (Some place) }
{
    if register < table.len() {
        table[register] = Some(place);
    }
}

// Notes the place of an instruction for the register that it gives.
fn note(table: &mut Vec<Option<Place>>, given: Option<u32>, place: Place)
    ensures { table.new.items ≡ noted table.old.items given place }
{
    match given {
        None => {}
        Some(register) => set(table, register as usize, place),
    }
}

fn note_block(table: &mut Vec<Option<Place>>, f: &Function, block: usize)
    ensures { AreGivers f.now table.old.items → AreGivers f.now table.new.items }
{
    let instrs = instrs_at(f, block);
    for (place, instr) in instrs.iter().enumerate() {
        note(table, given_by(&instr.op), Place { block, place });
    }
}

/// For the registers of a function places where they are given.
pub fn givers(alloc: Global, f: &Function) -> Result<Vec<Option<Place>>, Memory>
    ensures { IfOk result (λ table. AreGivers f.now table.items) }
{
    let mut table = no_givers(alloc, f)?;
    for block in 0..blocks_of(f).len() {
        note_block(&mut table, f, block);
    }
    Ok(table)
}

// As many registers as have names, and no place yet.
fn no_givers(alloc: Global, f: &Function) -> Result<Vec<Option<Place>>, Memory>
    ensures { IfOk result (λ table. AreGivers f.now table.items) }
{
    let table = no_places(alloc, f.params.len().saturating_add(f.locals.len()))?;
    Ok(table)
}

fn no_places(alloc: Global, count: usize) -> Result<Vec<Option<Place>>, Memory>
    ensures { IfOk result (λ table. table.items ≡ replicate count None) }
{
    let table = vec![in alloc; None; count]?;
    Ok(table)
}

/// Where a register is given, if that is known.
pub fn giver_of(table: &[Option<Place>], register: usize) -> Option<Place>
    ensures { result ≡ slice_index_or table.now register None }
{
    match table.get(register) {
        None => None,
        Some(place) => *place,
    }
}
