//! Registers of functions that are entered. What a function may need of them is made room for before it is known which
//! function that is, and a place of the room is first written to where the function has a register there: room that
//! nobody touches costs nothing.
ghost use Rattle.std.specs.Prelude.{◌≡◌, ◌+◌, ◌≤◌, ◌++◌, [], IsTrue, OnOk, length, replicate, vec_capacity};
ghost use Rattle.lx_model.specs.Thread.{zero_word};

use lx_words::{Memory, Width, Word};

// The word of a register that nothing was written to.
fn blank_word() -> Word
    ensures { result ≡ zero_word }
{
    Word {
        width: Width::W1,
        bits: 0,
    }
}

/// Makes room for so many arguments and for as many registers more; none is there yet. Room that is there already stays.
pub(crate) fn empty_with_room(
    registers: &mut Vec<Word>,
    args: usize,
    locals: usize,
) -> Result<(), Memory>
    ensures empty { registers.new.items ≡ [] }
    ensures room { OnOk result (args + locals ≤ vec_capacity registers.new) }
{
    registers.clear();
    match args.checked_add(locals) {
        Some(count) => registers.reserve(count)?,
        None => return Err(Memory),
    }
    Ok(())
}

// Whether no register is there yet, and there is room for the arguments and for as many registers more.
fn has_room(registers: &Vec<Word>, args: &[Word], locals: usize) -> bool
    ensures has { registers.now.items ≡ [] → length args.now + locals ≤ vec_capacity registers.now → IsTrue result }
    ensures empty { IsTrue result → registers.now.items ≡ [] }
    ensures room { IsTrue result → length args.now + locals ≤ vec_capacity registers.now }
{
    let room = registers.capacity();
    registers.is_empty() && args.len() <= room && locals <= room - args.len()
}

// The registers of a function: the arguments, and a blank word for each of its own.
fn fill_room(registers: &mut Vec<Word>, args: &[Word], locals: usize)
    requires empty { registers.old.items ≡ [] }
    requires room { length args.now + locals ≤ vec_capacity registers.old }
    ensures { registers.new.items ≡ args.now ++ replicate locals zero_word }
{
    if registers.extend_from_slice(args).is_err() {
        unreachable!()
    }
    if registers.resize(args.len() + locals, blank_word()).is_err() {
        unreachable!()
    }
}

/// The registers of a function, in the room that was made for them: the arguments, and a blank word for each of its
/// own. This takes no memory; where there is no room, it does nothing.
pub(crate) fn fill(registers: &mut Vec<Word>, args: &[Word], locals: usize)
    ensures { registers.old.items ≡ [] → length args.now + locals ≤ vec_capacity registers.old → registers.new.items ≡ args.now ++ replicate locals zero_word }
{
    if has_room(registers, args, locals) {
        fill_room(registers, args, locals);
    }
}
