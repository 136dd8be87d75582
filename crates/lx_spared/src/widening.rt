//! Registers that have bytes of the stack, and how many.
ghost use Rattle.std.specs.Prelude.{◌≡◌, ℕ, max, flat_map, IsTrue, OnOk};
ghost use Rattle.std.specs.List.{list_all};
ghost use Rattle.lx_ir.specs.Lawful.{has_form};
ghost use Rattle.lx_spared.specs.Rooms.{room_at};
ghost use Rattle.lx_spared.specs.Stack.{allocated, widest};

use crate::rooms::{Table, widen};
use lx_ir::instr::{Instr, Op};
use lx_ir::module::{Block, Module};
use lx_ir::size_of;
use lx_words::Memory;

/// Makes the room of a register that an instruction gives bytes of the stack at least so wide.
fn widen_by(rooms: &mut Table, m: &Module, op: &Op) -> Result<(), Memory>
    requires { IsTrue (has_form m.now op.now) }
    ensures { OnOk result ((r : ℕ) → room_at rooms.new.entries r ≡ max (room_at rooms.old.entries r) (allocated m.now.types r op.now)) }
{
    match op {
        Op::Alloca { to, ty } => widen(rooms, *to, size_of(m, ty)),
        _ => Ok(()),
    }
}

fn widen_instrs(rooms: &mut Table, m: &Module, instrs: &[Instr]) -> Result<(), Memory>
    requires { IsTrue (list_all (λ i. has_form m.now i.op) instrs.now) }
    ensures { OnOk result ((r : ℕ) → room_at rooms.new.entries r ≡ widest m.now.types r (room_at rooms.old.entries r) instrs.now) }
{
    for instr in instrs {
        widen_by(rooms, m, &instr.op)?;
    }
    Ok(())
}

/// Makes rooms as wide as the allocas of these blocks are.
pub(crate) fn widen_blocks(rooms: &mut Table, m: &Module, blocks: &[Block]) -> Result<(), Memory>
    requires { IsTrue (list_all (λ b. list_all (λ i. has_form m.now i.op) b.instrs) blocks.now) }
    ensures { OnOk result ((r : ℕ) → room_at rooms.new.entries r ≡ widest m.now.types r (room_at rooms.old.entries r) (flat_map (λ b. b.instrs) blocks.now)) }
{
    for block in blocks {
        widen_instrs(rooms, m, block.instrs.as_slice())?;
    }
    Ok(())
}
