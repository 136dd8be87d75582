//! Walks over the instructions of an image: the first fault at one.
ghost use Rattle.std.specs.Prelude.{◌≡◌, ◌+◌, None, IsTrue, MatchResult, drop, length, option_copied, option_map};
ghost use Rattle.lx_ir.specs.Faults.{first_some};
ghost use Rattle.lx_ir.specs.Lawful.{IsLawful, is_lawful_function};
ghost use Rattle.lx_image_texts.specs.ImageFaults.{fault_in_block, fault_in_blocks, fault_in_function, first_op};
ghost use Rattle.lx_image_marks.specs.Told.{Gives, GivesOr, kind_of};
ghost use Rattle.lx_image_marks.specs.Sites.{HasRooms, fault_of, kind_of_site};

use crate::fault::{FaultKind, Refusal, refuse_by};
use crate::kinds::mark_kind;
use crate::means::Means;
use crate::names::is_wrapper;
use crate::text::ImageText;
use lx_ir::instr::{Instr, Op};
use lx_ir::module::{Block, Function};
use lx_ir_uses::blocks_of;
use lx_spared::Rooms;
use lx_words::Memory;
use std::alloc::Global;

/// A function of an image, with the rooms by which its stores are spared.
#[derive(Drop)]
pub(crate) struct Body<'a> {
    pub(crate) text: &'a ImageText<'a>,
    pub(crate) function: &'a Function,
    pub(crate) rooms: Rooms,
}

/// An instruction with its number in its function, and those directly before and behind it in its block.
#[derive(Drop)]
pub(crate) struct Site<'a> {
    pub(crate) place: u32,
    pub(crate) before: Option<&'a Op>,
    pub(crate) instr: &'a Instr,
    pub(crate) next: Option<&'a Op>,
}

/// The kind of the fault at an instruction: the faults are tried in the order 6, 2, 1, 3, 5.
fn kind_at<M: Means>(
    means: &M,
    body: &Body<'_>,
    site: &Site<'_>,
) -> Result<Option<FaultKind>, Memory>
    requires { HasRooms body.now }
    ensures { MatchResult result (λ kind. option_map kind_of kind ≡ kind_of_site body.now site.now) (λ _. M.lacks means.now) }
{
    if let Some(kind) = mark_kind(body, site) {
        return Ok(Some(kind));
    }
    let reaches = means.reaches_body(body.text, &site.instr.op)?;
    if reaches {
        Ok(Some(FaultKind::BodyReached))
    } else {
        Ok(None)
    }
}

#[tactic(auto, using(crate::proofs::Passes::wanted))]
fn check_instr<M: Means>(means: &M, body: &Body<'_>, site: &Site<'_>) -> Result<(), Refusal>
    requires { HasRooms body.now }
    ensures { GivesOr (M.lacks means.now) (fault_of body.now site.now) result }
{
    match kind_at(means, body, site)? {
        Some(kind) => Err(refuse_by(
            means,
            kind,
            site.instr.line,
            body.function.name.as_slice(),
            site.place,
        )),
        None => Ok(()),
    }
}

fn op_at(instrs: &[Instr], k: usize) -> Option<&Op>
    ensures { option_copied result ≡ first_op (drop k instrs.now) }
{
    match instrs.get(k) {
        Some(instr) => Some(&instr.op),
        None => None,
    }
}

#[tactic(auto, using(crate::proofs::Passes::block_step, crate::proofs::Passes::block_end, crate::proofs::Passes::first_told, crate::proofs::Passes::wanted))]
fn check_block<M: Means>(
    means: &M,
    body: &Body<'_>,
    first: u32,
    instrs: &[Instr],
) -> Result<(), Refusal>
    requires { HasRooms body.now }
    ensures { GivesOr (M.lacks means.now) (fault_in_block body.now.text.now body.now.function.now first None instrs.now) result }
{
    let mut place = first;
    let mut before = None;
    for (k, instr) in instrs.iter().enumerate() {
        let site = Site {
            place,
            before,
            instr,
            next: op_at(instrs, k + 1),
        };
        check_instr(means, body, &site)?;
        place = means.behind_by(place, 1)?;
        before = Some(&instr.op);
    }
    Ok(())
}

#[tactic(auto, using(crate::proofs::Passes::blocks_step, crate::proofs::Passes::blocks_end, crate::proofs::Passes::first_told, crate::proofs::Passes::wanted))]
fn check_blocks<M: Means>(means: &M, body: &Body<'_>, blocks: &[Block]) -> Result<(), Refusal>
    requires { HasRooms body.now }
    ensures { GivesOr (M.lacks means.now) (fault_in_blocks body.now.text.now body.now.function.now 0 blocks.now) result }
{
    let mut place = 0;
    for block in blocks {
        check_block(means, body, place, block.instrs.as_slice())?;
        place = means.behind_by(place, block.instrs.len())?;
    }
    Ok(())
}

#[tactic(auto, using(crate::proofs::Passes::wanted))]
fn check_function<M: Means>(means: &M, text: &ImageText<'_>, f: &Function) -> Result<(), Refusal>
    requires { IsTrue (is_lawful_function text.now f.now) }
    ensures { GivesOr (M.lacks means.now) (fault_in_function text.now f.now) result }
{
    if is_wrapper(f) {
        return Ok(());
    }
    let rooms = means.rooms_of(text.module(), f)?;
    let body = Body {
        text,
        function: f,
        rooms,
    };
    check_blocks(means, &body, blocks_of(f))
}

/// Finds the first fault at an instruction over any means.
#[tactic(auto, using(crate::proofs::Passes::first_step, crate::proofs::Passes::first_end, crate::proofs::Passes::first_told))]
fn check_functions<M: Means>(means: &M, text: &ImageText<'_>) -> Result<(), Refusal>
    requires { IsLawful text.now }
    ensures { GivesOr (M.lacks means.now) (first_some (fault_in_function text.now) text.now.functions) result }
{
    for f in text.module().functions.as_slice() {
        check_function(means, text, f)?;
    }
    Ok(())
}

/// Finds the first fault at an instruction of an image, functions and instructions in order. Wrappers are passed by.
///
/// # Errors
/// The first fault, or want of memory; more instructions in a function than numbers of 32 bits count are that too. A fault that was
/// found is told as want of memory only where there was none for its name.
#[tactic(auto, using(crate::proofs::Passes::any_want))]
pub fn check_instructions(alloc: Global, text: &ImageText<'_>) -> Result<(), Refusal>
    requires { IsLawful text.now }
    ensures { Gives (first_some (fault_in_function text.now) text.now.functions) result }
{
    check_functions(&alloc, text)?;
    Ok(())
}
