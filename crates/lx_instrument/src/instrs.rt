//! Instructions in an image, each behind its mark.
ghost use Rattle.std.specs.Prelude.{◌≡◌, ◌++◌, ◌∷◌, [], flat_map, option_to_list, IfOk, OnOk};
ghost use Rattle.lx_image_texts.specs.Marks.{mark_of};
ghost use Rattle.lx_image_texts.specs.Instrumented.{unless_left};
ghost use Rattle.lx_instrument.specs.Made.{instr_by, lined};
ghost use Rattle.lx_spared.specs.Rooms.{spared_by};

use crate::callees::op_by;
use crate::marks::mark_of;
use lx_ir::instr::{Instr, Op};
use lx_spared::Rooms;
use lx_words::{Items, Memory};
use std::alloc::Global;

/// The mark that stands before an instruction of a function with these rooms.
fn wanted_mark(rooms: &Rooms, op: &Op) -> Option<Op>
    ensures { option_to_list result ≡ unless_left (spared_by rooms.now op.now) (mark_of op.now) }
{
    if rooms.spares(op) { None } else { mark_of(op) }
}

fn push_line(list: &mut Items<Instr>, op: Op, line: u32) -> Result<(), Memory>
    ensures { OnOk result (list.new ≡ list.old ++ record { op = op; line = line } ∷ []) }
{
    list.push(Instr { op, line })?;
    Ok(())
}

fn push_mark(list: &mut Items<Instr>, mark: Option<Op>, line: u32) -> Result<(), Memory>
    ensures { OnOk result (list.new ≡ list.old ++ lined line (option_to_list mark)) }
{
    match mark {
        Some(op) => push_line(list, op, line),
        None => Ok(()),
    }
}

/// Adds an instruction behind its mark.
fn push_instr(
    alloc: Global,
    list: &mut Items<Instr>,
    numbers: &[u32],
    rooms: &Rooms,
    instr: &Instr,
) -> Result<(), Memory>
    ensures { OnOk result (list.new ≡ list.old ++ instr_by numbers.now (spared_by rooms.now) instr.now) }
{
    push_mark(list, wanted_mark(rooms, &instr.op), instr.line)?;
    let op = op_by(alloc, numbers, &instr.op)?;
    push_line(list, op, instr.line)
}

fn push_instrs(
    alloc: Global,
    list: &mut Items<Instr>,
    numbers: &[u32],
    rooms: &Rooms,
    instrs: &[Instr],
) -> Result<(), Memory>
    ensures { OnOk result (list.new ≡ list.old ++ flat_map (instr_by numbers.now (spared_by rooms.now)) instrs.now) }
{
    for instr in instrs {
        push_instr(alloc, list, numbers, rooms, instr)?;
    }
    Ok(())
}

/// The instructions of a block in the image.
pub(crate) fn instrs_by(
    alloc: Global,
    numbers: &[u32],
    rooms: &Rooms,
    instrs: &[Instr],
) -> Result<Items<Instr>, Memory>
    ensures { IfOk result (λ list. list ≡ flat_map (instr_by numbers.now (spared_by rooms.now)) instrs.now) }
{
    let mut list = Items::new(alloc);
    match push_instrs(alloc, &mut list, numbers, rooms, instrs) {
        Ok(()) => Ok(list),
        Err(why) => {
            drop(list);
            Err(why)
        }
    }
}
