//! What is asked.

ghost use Rattle.std.specs.Prelude.{◌≡◌, ◌++◌, OnOk};
ghost use Rattle.lx_trace_text.specs.Text.{action_text, between_text, copy_text, enter_text, fill_text, load_text, native_text, room_text, side_word, store_text, typed_text, way_text, what_text};

use crate::blocks::Near;
use crate::pieces::{
    Spot, native_name, put_args, put_function_spot, put_spot, put_width, put_word, slot_name,
    spot_of,
};
use lx_caps::Principal;
use lx_model::program::Program;
use lx_model::request::{Way, What};
use lx_report::{Teller, put, put_address, put_bytes, put_called, put_number, put_principal};
use lx_words::{Memory, Width, Word, Words};

fn put_load(out: &mut Vec<u8>, program: &Program, at: Spot, width: Width) -> Result<(), Memory>
    ensures { OnOk result (out.new.items ≡ out.old.items ++ load_text program.now at width) }
{
    put(out, "load ")?;
    put_width(out, width)?;
    put(out, " at ")?;
    put_spot(out, program, at)
}

/// The width and the value of a word.
fn put_typed(out: &mut Vec<u8>, word: Word) -> Result<(), Memory>
    ensures { OnOk result (out.new.items ≡ out.old.items ++ typed_text word) }
{
    put_width(out, word.width)?;
    put(out, " ")?;
    put_word(out, word)
}

fn put_store(out: &mut Vec<u8>, program: &Program, at: Spot, value: Word) -> Result<(), Memory>
    ensures { OnOk result (out.new.items ≡ out.old.items ++ store_text program.now at value) }
{
    put(out, "store ")?;
    put_typed(out, value)?;
    put(out, " at ")?;
    put_spot(out, program, at)
}

fn put_copy(
    out: &mut Vec<u8>,
    program: &Program,
    to: Spot,
    from: Spot,
    len: u64,
) -> Result<(), Memory>
    ensures { OnOk result (out.new.items ≡ out.old.items ++ copy_text program.now to from len) }
{
    put(out, "copy ")?;
    put_number(out, len)?;
    put(out, " from ")?;
    put_spot(out, program, from)?;
    put(out, " to ")?;
    put_spot(out, program, to)
}

fn put_fill(
    out: &mut Vec<u8>,
    program: &Program,
    to: Spot,
    byte: u8,
    len: u64,
) -> Result<(), Memory>
    ensures { OnOk result (out.new.items ≡ out.old.items ++ fill_text program.now to byte len) }
{
    put(out, "fill ")?;
    put_number(out, len)?;
    put(out, " with ")?;
    put_number(out, u64::from(byte))?;
    put(out, " at ")?;
    put_spot(out, program, to)
}

/// So many bytes from an address on.
fn put_room(out: &mut Vec<u8>, word: &str, size: u64, at: u64) -> Result<(), Memory>
    ensures { OnOk result (out.new.items ≡ out.old.items ++ room_text word.now size at) }
{
    put(out, word)?;
    put_number(out, size)?;
    put(out, " at ")?;
    put_address(out, at)
}

fn put_way(out: &mut Vec<u8>, program: &Program, way: Way) -> Result<(), Memory>
    ensures { OnOk result (out.new.items ≡ out.old.items ++ way_text program.now way) }
{
    match way {
        Way::Script(function) => put_called(out, program, function),
        Way::Direct(function) => put_called(out, program, function),
        Way::Indirect(at) => put_function_spot(out, program, at),
        Way::Slot { slot, ty } => {
            put(out, "slot ")?;
            put_bytes(out, slot_name(program, ty))?;
            put(out, " at ")?;
            put_address(out, slot)
        }
    }
}

fn put_enter(out: &mut Vec<u8>, program: &Program, way: Way, args: &Words) -> Result<(), Memory>
    ensures { OnOk result (out.new.items ≡ out.old.items ++ enter_text program.now way args.now) }
{
    put(out, "calls ")?;
    put_way(out, program, way)?;
    put_args(out, args.as_slice())
}

fn put_native(out: &mut Vec<u8>, native: u32, args: &Words) -> Result<(), Memory>
    ensures { OnOk result (out.new.items ≡ out.old.items ++ native_text native args.now) }
{
    put(out, "calls ")?;
    put(out, native_name(native))?;
    put_args(out, args.as_slice())
}

/// Before a function's body, or behind it.
fn put_side(out: &mut Vec<u8>, post: bool) -> Result<(), Memory>
    ensures { OnOk result (out.new.items ≡ out.old.items ++ side_word post) }
{
    if post {
        put(out, "post ")
    } else {
        put(out, "pre ")
    }
}

/// An action of a function's annotation.
fn put_action(
    out: &mut Vec<u8>,
    program: &Program,
    function: u32,
    post: bool,
    index: u32,
) -> Result<(), Memory>
    ensures { OnOk result (out.new.items ≡ out.old.items ++ action_text program.now function post index) }
{
    put_side(out, post)?;
    put_number(out, u64::from(index))?;
    put(out, " of ")?;
    put_called(out, program, function)
}

/// Who gives, and who gets.
fn put_between(
    out: &mut Vec<u8>,
    teller: &Teller,
    source: Principal,
    dest: Principal,
) -> Result<(), Memory>
    ensures { OnOk result (out.new.items ≡ out.old.items ++ between_text teller.now.program.now teller.now.names source dest) }
{
    put(out, " from ")?;
    put_principal(out, teller, source)?;
    put(out, " to ")?;
    put_principal(out, teller, dest)
}

/// What is asked, by the blocks in which it reads and writes memory.
pub(crate) fn put_what(
    out: &mut Vec<u8>,
    teller: &Teller,
    near: Near,
    what: &What,
) -> Result<(), Memory>
    ensures { OnOk result (out.new.items ≡ out.old.items ++ what_text teller.now.program.now teller.now.names near what.now) }
{
    let program = teller.program;
    match what {
        What::Load { at, width } => put_load(out, program, spot_of(*at, near.to), *width),
        What::Store { at, value } => put_store(out, program, spot_of(*at, near.to), *value),
        What::Copy { to, from, len } => {
            put_copy(
                out,
                program,
                spot_of(*to, near.to),
                spot_of(*from, near.from),
                *len,
            )
        }
        What::Fill { to, byte, len } => put_fill(out, program, spot_of(*to, near.to), *byte, *len),
        What::Alloca { at, size } => put_room(out, "alloca ", *size, *at),
        What::Enter { way, args } => put_enter(out, program, *way, args),
        What::Perform {
            function,
            post,
            index,
            env: _,
            source,
            dest,
        } => {
            put_action(out, program, *function, *post, *index)?;
            put_between(out, teller, *source, *dest)
        }
        What::Return { low, high } => put_room(out, "leaves ", high.saturating_sub(*low), *low),
        What::Native { native, args } => put_native(out, *native, args),
        What::Finish { outcome: _ } => put(out, "ends"),
    }
}
