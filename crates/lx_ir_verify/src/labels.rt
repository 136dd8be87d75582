//! Where control goes: the ends of blocks, and their labels.
ghost use Rattle.std.specs.Prelude.{◌≡◌, flat_map, map, option_copied};
ghost use Rattle.lx_ir.specs.Operands.{labels_of};
ghost use Rattle.lx_ir.specs.Faults.{end_fault, first_some, is_end, label_fault, line_or};
ghost use Rattle.lx_ir_verify.specs.Shown.{Gives, missing_fault};

use crate::fault::VerifyFault;
use crate::operands::is_terminator;
use lx_ir::instr::{Edge, Instr, Op, SwitchCase};
use lx_ir::module::{Block, Function};
use lx_ir_walks::{Blocks, last_of};
use lx_words::Name;
use std::alloc::Global;

fn is_ended(last: Option<&Instr>) -> bool
    ensures { result ≡ is_end (option_copied last.entry) }
{
    match last {
        None => false,
        Some(instr) => is_terminator(&instr.op),
    }
}

/// The line of an instruction, or another one where there is none.
fn line_or(line: u32, instr: Option<&Instr>) -> u32
    ensures { result ≡ line_or line (option_copied instr.entry) }
{
    match instr {
        None => line,
        Some(instr) => instr.line,
    }
}

fn check_end(alloc: Global, f: &Function, block: &Block) -> Result<(), VerifyFault>
    ensures { Gives (end_fault f.now block.now) result }
{
    let last = last_of(block.instrs.as_slice());
    if is_ended(last) {
        return Ok(());
    }
    let what = Name::from_bytes(alloc, block.name.as_slice())?;
    Err(VerifyFault::NoTerminator {
        line: line_or(f.line, last),
        what,
    })
}

/// Finds the first block that ends without a terminator.
#[tactic(auto, using(crate::proofs::Passes::first_step, crate::proofs::Passes::first_end, crate::proofs::Passes::first_answer))]
pub fn check_ends(alloc: Global, f: &Function, blocks: &[Block]) -> Result<(), VerifyFault>
    ensures { Gives (first_some (end_fault f.now) blocks.now) result }
{
    for block in blocks {
        check_end(alloc, f, block)?;
    }
    Ok(())
}

fn check_label(alloc: Global, f: &Blocks, line: u32, label: &[u8]) -> Result<(), VerifyFault>
    ensures { Gives (missing_fault f.now line label.now) result }
{
    if f.has(label) {
        return Ok(());
    }
    let what = Name::from_bytes(alloc, label)?;
    Err(VerifyFault::NoSuchLabel { line, what })
}

#[tactic(auto, using(crate::proofs::Passes::first_map_step, crate::proofs::Passes::first_map_end, crate::proofs::Passes::first_answer))]
fn check_edges(alloc: Global, f: &Blocks, line: u32, edges: &[Edge]) -> Result<(), VerifyFault>
    ensures { Gives (first_some (missing_fault f.now line) (map (λ e. e.label) edges.now)) result }
{
    for edge in edges {
        check_label(alloc, f, line, edge.label.as_slice())?;
    }
    Ok(())
}

#[tactic(auto, using(crate::proofs::Passes::first_map_step, crate::proofs::Passes::first_map_end, crate::proofs::Passes::first_answer))]
fn check_cases(
    alloc: Global,
    f: &Blocks,
    line: u32,
    cases: &[SwitchCase],
) -> Result<(), VerifyFault>
    ensures { Gives (first_some (missing_fault f.now line) (map (λ c. c.label) cases.now)) result }
{
    for case in cases {
        check_label(alloc, f, line, case.label.as_slice())?;
    }
    Ok(())
}

#[tactic(auto, using(crate::proofs::Passes::first_answer))]
fn check_instr(alloc: Global, f: &Blocks, line: u32, op: &Op) -> Result<(), VerifyFault>
    ensures { Gives (first_some (missing_fault f.now line) (labels_of op.now)) result }
{
    match op {
        Op::Phi { edges, .. } => {
            check_edges(alloc, f, line, edges.as_slice())?;
            Ok(())
        }
        Op::Jump { label } => {
            check_label(alloc, f, line, label.as_slice())?;
            Ok(())
        }
        Op::Branch {
            if_true,
            if_false,
            ..
        } => {
            check_label(alloc, f, line, if_true.as_slice())?;
            check_label(alloc, f, line, if_false.as_slice())?;
            Ok(())
        }
        Op::Switch {
            otherwise,
            cases,
            ..
        } => {
            check_label(alloc, f, line, otherwise.as_slice())?;
            check_cases(alloc, f, line, cases.as_slice())?;
            Ok(())
        }
        _ => Ok(()),
    }
}

#[tactic(auto, using(crate::proofs::FirstLabel::label_step, crate::proofs::Passes::first_end, crate::proofs::Passes::first_answer))]
fn check_block(alloc: Global, f: &Blocks, instrs: &[Instr]) -> Result<(), VerifyFault>
    ensures { Gives (first_some (label_fault f.now) instrs.now) result }
{
    for instr in instrs {
        check_instr(alloc, f, instr.line, &instr.op)?;
    }
    Ok(())
}

/// Finds the first label that the function lacks.
#[tactic(auto, using(crate::proofs::Passes::first_flat_step, crate::proofs::Passes::first_flat_end, crate::proofs::Passes::first_answer))]
pub fn check_labels(alloc: Global, f: &Blocks, blocks: &[Block]) -> Result<(), VerifyFault>
    ensures { Gives (first_some (label_fault f.now) (flat_map (λ b. b.instrs) blocks.now)) result }
{
    for block in blocks {
        check_block(alloc, f, block.instrs.as_slice())?;
    }
    Ok(())
}
