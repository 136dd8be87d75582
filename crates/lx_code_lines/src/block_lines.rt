//! The lines that the places of a block have.
ghost use Rattle.std.specs.Prelude.{◌≡◌, ◌<◌, ◌-◌, cond, count_by, IfOk, IsTrue};
ghost use Rattle.lx_image_texts.specs.Marks.{is_mark};
ghost use Rattle.lx_model.specs.Effect.{is_phi};
ghost use Rattle.lx_code_lines.specs.Lines.{is_counted, line_in, line_in_list, line_left, HasBlockLines, HasPlaceLines};

use lx_ir::instr::{Instr, Op};
use lx_words::{Items, Memory};
use std::alloc::Global;

/// The lines of the text that the places of an image's block have, in order: as the function's first block is entered, and where a jump led to
/// the block, whose phis then are behind it.
pub(crate) struct BlockLines {
    entered: Items<Option<u32>>,
    arrived: Items<Option<u32>>,
}

impl Drop for BlockLines {
    fn drop(self) {
        let BlockLines {
            entered: _,
            arrived: _,
        } = self;
    }
}

fn is_mark(op: &Op) -> bool
    ensures { result ≡ is_mark op.now }
{
    matches!(op, Op::Guard { .. } | Op::Check { .. })
}

fn is_phi(op: &Op) -> bool
    ensures { result ≡ is_phi op.now }
{
    matches!(op, Op::Phi { .. })
}

// Whether an instruction of an image is counted: one of the text that may still be ahead.
fn is_counted(arrived: bool, op: &Op) -> bool
    ensures { result ≡ is_counted arrived op.now }
{
    !is_mark(op) && !(arrived && is_phi(op))
}

// How many instructions are counted.
fn left_in(arrived: bool, instrs: &[Instr]) -> usize
    ensures { result ≡ count_by (λ i. is_counted arrived i.op) instrs.now }
{
    instrs
        .iter()
        .filter(|instr| is_counted(arrived, &instr.op))
        .count()
}

// How many are left behind an instruction, with which so many are left.
fn left_behind(arrived: bool, instr: &Instr, left: usize) -> usize
    requires { IsTrue (is_counted arrived instr.now.op) → 0 < left }
    ensures { result ≡ (left - cond (is_counted arrived instr.now.op) 1 0) }
{
    if is_counted(arrived, &instr.op) {
        left - 1
    } else {
        left
    }
}

// The line of the instruction of a text's block with which so many are left.
fn line_left(text: &[Instr], left: usize) -> Option<u32>
    ensures { result ≡ line_left text.now left }
{
    if left <= text.len() {
        match text.get(text.len() - left) {
            Some(instr) => Some(instr.line),
            None => None,
        }
    } else {
        None
    }
}

// The lines that the places of a block have.
fn place_lines(
    alloc: Global,
    arrived: bool,
    instrs: &[Instr],
    text: &[Instr],
) -> Result<Items<Option<u32>>, Memory>
    ensures { IfOk result (λ lines. HasPlaceLines arrived instrs.now text.now lines) }
{
    let mut left = left_in(arrived, instrs);
    let mut lines = Items::new(alloc);
    for instr in instrs {
        lines.push(line_left(text, left))?;
        left = left_behind(arrived, instr, left);
    }
    Ok(lines)
}

// The line that a list has for a place; none, past the last one.
fn line_in_list(lines: &[Option<u32>], place: usize) -> Option<u32>
    ensures { result ≡ line_in_list lines.now place }
{
    match lines.get(place) {
        Some(line) => *line,
        None => None,
    }
}

impl BlockLines {
    /// The lines of a block of an image with these instructions, whose block of the text has those.
    pub(crate) fn new(alloc: Global, instrs: &[Instr], text: &[Instr]) -> Result<BlockLines, Memory>
        ensures { IfOk result (λ lines. HasBlockLines instrs.now text.now lines) }
    {
        let entered = place_lines(alloc, false, instrs, text)?;
        let arrived = place_lines(alloc, true, instrs, text)?;
        Ok(BlockLines { entered, arrived })
    }

    /// The line that a place has.
    pub(crate) fn line(&self, arrived: bool, place: usize) -> Option<u32>
        ensures { result ≡ line_in self.now arrived place }
    {
        if arrived {
            line_in_list(self.arrived.as_slice(), place)
        } else {
            line_in_list(self.entered.as_slice(), place)
        }
    }
}
