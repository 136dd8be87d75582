//! How many bytes of the stack a function may write through its registers without a guard.
ghost use Rattle.std.specs.Prelude.{◌≡◌, ℕ, cond, max, nat_eq, OnOk};
ghost use Rattle.lx_spared.specs.Rooms.{has_room, spared_by, room_at};

use crate::sizes::scalar_size;
use indexmap::IndexMap;
use lx_ir::instr::Op;
use lx_ir::module::Value;
use lx_words::Memory;

/// The rooms by the numbers of registers; a register that it lacks has none.
pub(crate) type Table = IndexMap<u32, u64>;

/// The room of a register.
fn room_at(rooms: &Table, register: u32) -> u64
    ensures { result ≡ room_at rooms.now.entries register }
{
    match rooms.get(&register) {
        Some(room) => *room,
        None => 0,
    }
}

/// Sets the room of a register.
fn put_room(rooms: &mut Table, register: u32, room: u64) -> Result<(), Memory>
    ensures { OnOk result ((r : ℕ) → room_at rooms.new.entries r ≡ cond (nat_eq register r) room (room_at rooms.old.entries r)) }
{
    rooms.insert(register, room)?;
    Ok(())
}

/// Makes the room of a register at least so many bytes.
pub(crate) fn widen(rooms: &mut Table, register: u32, size: u64) -> Result<(), Memory>
    ensures { OnOk result ((r : ℕ) → room_at rooms.new.entries r ≡ max (room_at rooms.old.entries r) (cond (nat_eq register r) size 0)) }
{
    if room_at(rooms, register) < size {
        put_room(rooms, register, size)
    } else {
        Ok(())
    }
}

/// Takes the room of a register, whose address goes elsewhere.
pub(crate) fn close(rooms: &mut Table, register: u32) -> Result<(), Memory>
    ensures { OnOk result ((r : ℕ) → room_at rooms.new.entries r ≡ cond (nat_eq register r) 0 (room_at rooms.old.entries r)) }
{
    if room_at(rooms, register) > 0 {
        put_room(rooms, register, 0)
    } else {
        Ok(())
    }
}

/// Whether so many bytes may be written to a place without a guard.
fn has_room(rooms: &Table, size: u8, at: Value) -> bool
    ensures { result ≡ has_room rooms.now.entries size at }
{
    match at {
        Value::Register(register) => u64::from(size) <= room_at(rooms, register),
        Value::Constant(_) => false,
    }
}

/// Whether an instruction is a store that may lack its guard.
pub(crate) fn is_spared_by(rooms: &Table, op: &Op) -> bool
    ensures { result ≡ spared_by rooms.now.entries op.now }
{
    match op {
        Op::Store { ty, at, .. } => has_room(rooms, scalar_size(*ty), *at),
        _ => false,
    }
}
