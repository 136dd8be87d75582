//! The lines of wrappers.
ghost use Rattle.std.specs.Prelude.{◌≡◌, Some, drop, option_copied, slice_get};
ghost use Rattle.lx_ir.specs.Lookup.{blocks_of};
ghost use Rattle.lx_images.specs.Wrappers.{lines_of, plain_lines};
ghost use Rattle.lx_image_code.specs.Wrappers.{first_op, line_of};

use lx_ir::instr::{Instr, Op};
use lx_ir::module::{Block, Function};
use lx_ir_uses::blocks_of;

/// What a line of a wrapper does. `Other` is any line that no wrapper has, and what stands behind the last line.
#[derive(Clone, Copy)]
pub enum Line {
    Enter,
    Pre(u32),
    Call,
    Post(u32),
    Leave,
    Ret,
    Other,
}

fn line_of(op: &Op) -> Line
    ensures { result ≡ line_of (Some op.now) }
{
    match op {
        Op::Enter { .. } => Line::Enter,
        Op::Pre { k, .. } => Line::Pre(*k),
        Op::Call { .. } => Line::Call,
        Op::Post { k, .. } => Line::Post(*k),
        Op::Leave { .. } => Line::Leave,
        Op::Ret { .. } => Line::Ret,
        _ => Line::Other,
    }
}

fn first_block(function: &Function) -> Option<&Block>
    ensures { option_copied result ≡ slice_get (blocks_of function.now) 0 }
{
    blocks_of(function).first()
}

fn instr_at(block: &Block, at: usize) -> Option<&Instr>
    ensures { option_copied result ≡ slice_get block.now.instrs at }
{
    block.instrs.items.get(at)
}

/// The line at a place of a function's first block.
#[tactic(auto, using(crate::proofs::LineSteps::line_found, crate::proofs::LineSteps::line_past, crate::proofs::LineSteps::line_of_none))]
pub(crate) fn line_in(function: &Function, at: usize) -> Line
    ensures { result ≡ line_of (first_op (drop at (lines_of (Some function.now)))) }
{
    match first_block(function) {
        Some(block) => match instr_at(block, at) {
            Some(instr) => line_of(&instr.op),
            None => Line::Other,
        },
        None => Line::Other,
    }
}

/// The line at a place of a wrapper without actions.
pub(crate) fn plain_line(at: usize) -> Line
    ensures { result ≡ line_of (first_op (drop at plain_lines)) }
{
    match at {
        0 => Line::Enter,
        1 => Line::Call,
        2 => Line::Leave,
        3 => Line::Ret,
        _ => Line::Other,
    }
}
