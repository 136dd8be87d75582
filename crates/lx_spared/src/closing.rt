//! Registers whose address goes elsewhere than to loads and stores.
ghost use Rattle.std.specs.Prelude.{◌≡◌, ℕ, cond, flat_map, OnOk};
ghost use Rattle.lx_image_texts.specs.Spared.{is_register, reads, uses_as_address};
ghost use Rattle.lx_spared.specs.Rooms.{room_at};
ghost use Rattle.lx_spared.specs.Stack.{kept_room};

use crate::rooms::{Table, close};
use lx_ir::instr::{Argument, Instr, Op};
use lx_ir::module::{Block, Value};
use lx_ir_uses::operands_of;
use lx_words::Memory;
use std::alloc::Global;

fn close_value(rooms: &mut Table, value: Value) -> Result<(), Memory>
    ensures { OnOk result ((r : ℕ) → room_at rooms.new.entries r ≡ cond (is_register r value) 0 (room_at rooms.old.entries r)) }
{
    match value {
        Value::Register(register) => close(rooms, register),
        Value::Constant(_) => Ok(()),
    }
}

fn close_operands(rooms: &mut Table, operands: &[Argument]) -> Result<(), Memory>
    ensures { OnOk result ((r : ℕ) → room_at rooms.new.entries r ≡ cond (reads r operands.now) 0 (room_at rooms.old.entries r)) }
{
    for operand in operands {
        close_value(rooms, operand.value)?;
    }
    Ok(())
}

/// Takes the rooms of the registers whose address an instruction lets go.
fn close_op(alloc: Global, rooms: &mut Table, op: &Op) -> Result<(), Memory>
    ensures { OnOk result ((r : ℕ) → room_at rooms.new.entries r ≡ cond (uses_as_address r op.now) (room_at rooms.old.entries r) 0) }
{
    match op {
        Op::Load { .. } => Ok(()),
        Op::Guard { .. } => Ok(()),
        Op::Store { value, .. } => close_value(rooms, *value),
        _ => {
            let operands = operands_of(alloc, op)?;
            close_operands(rooms, operands.as_slice())
        }
    }
}

fn close_instrs(alloc: Global, rooms: &mut Table, instrs: &[Instr]) -> Result<(), Memory>
    ensures { OnOk result ((r : ℕ) → room_at rooms.new.entries r ≡ kept_room r instrs.now (room_at rooms.old.entries r)) }
{
    for instr in instrs {
        close_op(alloc, rooms, &instr.op)?;
    }
    Ok(())
}

/// Takes the rooms of the registers whose address some instruction of these blocks lets go.
pub(crate) fn close_blocks(alloc: Global, rooms: &mut Table, blocks: &[Block]) -> Result<(), Memory>
    ensures { OnOk result ((r : ℕ) → room_at rooms.new.entries r ≡ kept_room r (flat_map (λ b. b.instrs) blocks.now) (room_at rooms.old.entries r)) }
{
    for block in blocks {
        close_instrs(alloc, rooms, block.instrs.as_slice())?;
    }
    Ok(())
}
