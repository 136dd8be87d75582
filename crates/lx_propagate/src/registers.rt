//! The fields that the registers of a function point to.

ghost use Rattle.std.specs.Prelude.{◌≡◌, IfOk, OnOk, flat_map};
ghost use Rattle.lx_propagate.specs.Names.{element_sites, register_sites};
ghost use Rattle.lx_propagate.specs.Tables.{Adds, HasRegisters};

use crate::parts::last_field;
use crate::table::{Table, add_field};
use indexmap::IndexMap;
use lx_ir::instr::{Instr, Op};
use lx_ir::module::{Block, Module};
use lx_slot_sums::SlotSums;
use lx_words::Memory;
use std::alloc::Global;

/// Adds the field that an instruction names to those of the register that it gives.
#[tactic(auto, using(crate::proofs::Adding::adds_nothing))]
fn add_element(table: &mut Table, sums: &SlotSums, m: &Module, op: &Op) -> Result<(), Memory>
    ensures { OnOk result (Adds sums.now.interface sums.now.text (element_sites m.now.types op.now) table.old.entries table.new.entries) }
{
    match op {
        Op::GetElementPtr {
            to,
            ty,
            indices,
            ..
        } => add_field(
            table,
            sums,
            last_field(m, ty, indices.as_slice()),
            Some(*to),
        ),
        _ => Ok(()),
    }
}

/// Adds those of instructions.
#[tactic(auto, using(crate::proofs::Adding::adds_none))]
fn add_elements(
    table: &mut Table,
    sums: &SlotSums,
    m: &Module,
    instrs: &[Instr],
) -> Result<(), Memory>
    ensures { OnOk result (Adds sums.now.interface sums.now.text (register_sites m.now.types instrs.now) table.old.entries table.new.entries) }
{
    for instr in instrs {
        add_element(table, sums, m, &instr.op)?;
    }
    Ok(())
}

/// Adds those of blocks.
#[tactic(auto, using(crate::proofs::Adding::adds_none))]
fn add_blocks(
    table: &mut Table,
    sums: &SlotSums,
    m: &Module,
    blocks: &[Block],
) -> Result<(), Memory>
    ensures { OnOk result (Adds sums.now.interface sums.now.text (register_sites m.now.types (flat_map (λ b. b.instrs) blocks.now)) table.old.entries table.new.entries) }
{
    for block in blocks {
        add_elements(table, sums, m, block.instrs.as_slice())?;
    }
    Ok(())
}

/// What the fields come to that each register of a function with these blocks points to.
#[tactic(auto, using(crate::proofs::Adding::all_registers))]
pub(crate) fn registers_of(
    alloc: Global,
    sums: &SlotSums,
    m: &Module,
    blocks: &[Block],
) -> Result<Table, Memory>
    requires { sums.now.text ≡ m.now }
    ensures { IfOk result (λ table. HasRegisters sums.now.interface m.now (flat_map (λ b. b.instrs) blocks.now) table.entries) }
{
    let mut table = IndexMap::new(alloc);
    add_blocks(&mut table, sums, m, blocks)?;
    Ok(table)
}
