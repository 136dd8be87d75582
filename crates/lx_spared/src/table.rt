//! The table of a function's registers, by which its stores are spared.
ghost use Rattle.std.specs.Prelude.{◌≡◌, [], IsTrue, IfOk};
ghost use Rattle.lx_ir.specs.Lawful.{is_lawful_function};
ghost use Rattle.lx_spared.specs.Rooms.{AreRoomsOf, spared_by};

use crate::closing::close_blocks;
use crate::rooms::{Table, is_spared_by};
use crate::widening::widen_blocks;
use indexmap::IndexMap;
use lx_ir::instr::Op;
use lx_ir::module::{Function, Module};
use lx_ir_uses::blocks_of;
use lx_words::Memory;
use std::alloc::Global;
use std::marker::Model;

/// How many bytes of the stack a function may write through each of its registers without a guard. Contracts see the table as a list of
/// registers with their bytes, which `spared_by` reads.
#[derive(Drop)]
pub struct Rooms {
    table: Table,
}

impl Model for Rooms {
    ghost use Rattle.std.specs.Prelude.{ℕ, List};

    ghost Value = { List (ℕ × ℕ) };

    ghost view = { λ r. r.table.entries };
}

impl Rooms {
    /// No room for any register, so that no store is spared.
    pub fn none(alloc: Global) -> Rooms
        ensures { result ≡ [] }
    {
        Rooms {
            table: IndexMap::new(alloc),
        }
    }

    /// Whether an instruction is a store that may lack its guard.
    pub fn spares(&self, op: &Op) -> bool
        ensures { result ≡ spared_by self.now op.now }
    {
        is_spared_by(&self.table, op)
    }
}

/// The rooms of the registers of a function, which spare just those of its stores that may lack their guard. Guards and checks in an
/// image let no address go, so that a function's image has the rooms of the function.
///
/// # Errors
/// Want of memory.
pub fn rooms_of(alloc: Global, m: &Module, f: &Function) -> Result<Rooms, Memory>
    requires { IsTrue (is_lawful_function m.now f.now) }
    ensures { IfOk result (λ rooms. AreRoomsOf m.now f.now rooms) }
{
    let mut table = IndexMap::new(alloc);
    widen_blocks(&mut table, m, blocks_of(f))?;
    close_blocks(alloc, &mut table, blocks_of(f))?;
    Ok(Rooms { table })
}
