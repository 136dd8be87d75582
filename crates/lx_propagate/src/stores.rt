//! Functions in stores.

ghost use Rattle.std.specs.Prelude.{◌≡◌, ◌++◌, List, OnOk, flat_map};
ghost use Rattle.lx_ir.specs.declared.instr.Instr.{Instr};
ghost use Rattle.lx_ir.specs.Lookup.{instrs_of};
ghost use Rattle.lx_slot_types.specs.Sites.{address_fields, function_sites, function_value, register_fields, sites_at, store_sites};
ghost use Rattle.lx_slot_sums.specs.Sums.{sum_of};
ghost use Rattle.lx_propagate.specs.Tables.{Adds, AddsStores, HasRegisters};

use crate::constants::function_value;
use crate::registers::registers_of;
use crate::table::{Table, add_sum, sum_at};
use lx_ir::instr::{Instr, Op};
use lx_ir::module::{Block, Constant, Function, Module, Pointer, Symbol, Value};
use lx_slot_sums::{SlotSum, SlotSums};
use lx_words::Memory;
use std::alloc::Global;

/// What the fields come to that an address names, where it is a constant.
fn address_sum(sums: &SlotSums, at: Value) -> SlotSum
    ensures { result ≡ sum_of sums.now.interface sums.now.text (address_fields sums.now.text at) }
{
    match at {
        Value::Constant(Constant::Pointer(Pointer::Symbol(Symbol::Global(number), offset))) => {
            sums.of_global(number, offset)
        }
        _ => sums.empty(),
    }
}

/// What the fields come to that an address names.
fn stored_sum(sums: &SlotSums, registers: &Table, at: Value) -> SlotSum
    ensures { (all : List Instr) → HasRegisters sums.now.interface sums.now.text all registers.now.entries → result ≡ sum_of sums.now.interface sums.now.text (address_fields sums.now.text at ++ register_fields sums.now.text all at) }
{
    match at {
        Value::Register(register) => sum_at(registers, register as usize),
        Value::Constant(_) => address_sum(sums, at),
    }
}

/// Adds the sites of a store of a value.
#[tactic(auto, using(crate::proofs::Adding::stores_nothing))]
fn add_store(
    table: &mut Table,
    sums: &SlotSums,
    registers: &Table,
    value: Value,
    at: Value,
) -> Result<(), Memory>
    ensures { OnOk result (AddsStores sums.now.interface sums.now.text registers.now.entries (λ all. sites_at (address_fields sums.now.text at ++ register_fields sums.now.text all at) (function_value value)) table.old.entries table.new.entries) }
{
    match function_value(value) {
        None => Ok(()),
        Some(function) => {
            add_sum(table, sums, function, stored_sum(sums, registers, at))?;
            Ok(())
        }
    }
}

/// Adds the sites of an instruction.
#[tactic(auto, using(crate::proofs::Adding::stores_nothing))]
fn add_instr(table: &mut Table, sums: &SlotSums, registers: &Table, op: &Op) -> Result<(), Memory>
    ensures { OnOk result (AddsStores sums.now.interface sums.now.text registers.now.entries (λ all. store_sites sums.now.text all op.now) table.old.entries table.new.entries) }
{
    match op {
        Op::Store { value, at, .. } => add_store(table, sums, registers, *value, *at),
        _ => Ok(()),
    }
}

/// Adds those of instructions.
#[tactic(auto, using(crate::proofs::Adding::stores_none))]
fn add_instrs(
    table: &mut Table,
    sums: &SlotSums,
    registers: &Table,
    instrs: &[Instr],
) -> Result<(), Memory>
    ensures { OnOk result (AddsStores sums.now.interface sums.now.text registers.now.entries (λ all. flat_map (λ i. store_sites sums.now.text all i.op) instrs.now) table.old.entries table.new.entries) }
{
    for instr in instrs {
        add_instr(table, sums, registers, &instr.op)?;
    }
    Ok(())
}

/// Adds those of blocks.
#[tactic(auto, using(crate::proofs::Adding::stores_none))]
fn add_blocks(
    table: &mut Table,
    sums: &SlotSums,
    registers: &Table,
    blocks: &[Block],
) -> Result<(), Memory>
    ensures { OnOk result (AddsStores sums.now.interface sums.now.text registers.now.entries (λ all. flat_map (λ i. store_sites sums.now.text all i.op) (flat_map (λ b. b.instrs) blocks.now)) table.old.entries table.new.entries) }
{
    for block in blocks {
        add_instrs(table, sums, registers, block.instrs.as_slice())?;
    }
    Ok(())
}

/// Adds the sites in a function with these blocks.
fn add_body(
    alloc: Global,
    table: &mut Table,
    sums: &SlotSums,
    m: &Module,
    blocks: &[Block],
) -> Result<(), Memory>
    requires { sums.now.text ≡ m.now }
    ensures { OnOk result (Adds sums.now.interface m.now (function_sites m.now (flat_map (λ b. b.instrs) blocks.now)) table.old.entries table.new.entries) }
{
    let registers = registers_of(alloc, sums, m, blocks)?;
    add_blocks(table, sums, &registers, blocks)?;
    Ok(())
}

/// Adds the sites in a function; an import has none.
#[tactic(auto, using(crate::proofs::Adding::adds_nothing))]
fn add_function(
    alloc: Global,
    table: &mut Table,
    sums: &SlotSums,
    m: &Module,
    f: &Function,
) -> Result<(), Memory>
    requires { sums.now.text ≡ m.now }
    ensures { OnOk result (Adds sums.now.interface m.now (function_sites m.now (instrs_of f.now)) table.old.entries table.new.entries) }
{
    match &f.blocks {
        Some(blocks) => add_body(alloc, table, sums, m, blocks.as_slice()),
        None => Ok(()),
    }
}

/// Adds the sites in functions of a module.
#[tactic(auto, using(crate::proofs::Adding::adds_none))]
pub(crate) fn add_functions(
    alloc: Global,
    table: &mut Table,
    sums: &SlotSums,
    m: &Module,
    functions: &[Function],
) -> Result<(), Memory>
    requires { sums.now.text ≡ m.now }
    ensures { OnOk result (Adds sums.now.interface m.now (flat_map (λ f. function_sites m.now (instrs_of f)) functions.now) table.old.entries table.new.entries) }
{
    for function in functions {
        add_function(alloc, table, sums, m, function)?;
    }
    Ok(())
}
