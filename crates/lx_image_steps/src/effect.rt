//! The effect of an instruction.
ghost use Rattle.std.specs.Prelude.{◌≡◌, IfOk, IsTrue, MatchResult, true};
ghost use Rattle.lx_model.specs.declared.program.Program.{Program};
ghost use Rattle.lx_model.specs.Thread.{Activation as Running};
ghost use Rattle.lx_model.specs.Effect.{division, effect, types_of};
ghost use Rattle.lx_image_steps.specs.Effects.{effect_of, is_call, label_after, Leads, Stays};
ghost use Rattle.lx_code.specs.Reach.{is_sized};
ghost use Rattle.lx_image_steps.specs.Standing.{run_of};

use crate::activation::Activation;
use crate::calls::call;
use crate::elements::element;
use crate::jumps::{branch, jump, switch};
use crate::memory::{alloca, copy, fill, load, store};
use crate::operand::operand;
use crate::values::{binary, compare, convert, select, unary};
use lx_image_code::Code;
use lx_ir::instr::Op;
use lx_model::request::{Trap, What};
use lx_words::{Memory, Word, Words};
use std::alloc::Global;

/// What an instruction does.
#[derive(Drop)]
pub enum Effect {
    /// It gives a value, and the function goes past it.
    Gives(Word),
    /// Control goes to the block with this number.
    Jumps(usize),
    /// It asks something that adds no frame.
    Wants(What),
    /// It asks something that adds a frame.
    Enters(What),
    /// It calls a function of the same text.
    Calls { function: u32, args: Words },
    /// The program can not go on.
    Traps(Trap),
}

// A value is given; a division without a result traps.
fn given(value: Option<Word>) -> Effect
    ensures does { (p : Program) → (a : Running) → effect_of p a result ≡ division a value }
    ensures stays { Stays result }
{
    match value {
        Some(word) => Effect::Gives(word),
        None => Effect::Traps(Trap::Division),
    }
}

/// What an instruction of a running function does. `Memory` where there is no room for the arguments of a call.
#[tactic(auto, using(crate::proofs::Leading::stays))]
pub(crate) fn instruction_effect(
    alloc: Global,
    code: &Code,
    run: &Activation,
    op: &Op,
) -> Result<Effect, Memory>
    requires { IsTrue (is_sized (types_of code.now.program (run_of code.now run.now)) op.now) }
    ensures does { MatchResult result (λ e. effect_of code.now.program (run_of code.now run.now) e ≡ effect code.now.program (run_of code.now run.now) op.now) (λ _. is_call op.now ≡ true) }
    ensures leads { IfOk result (Leads (run_of code.now run.now) (label_after code.now.program (run_of code.now run.now) op.now)) }
{
    match op {
        Op::Binary { op, a, b, .. } => Ok(given(binary(code, run, *op, a, b))),
        Op::Compare { pred, a, b, .. } => Ok(Effect::Gives(compare(code, run, *pred, a, b))),
        Op::Convert { how, a, into, .. } => Ok(Effect::Gives(convert(code, run, *how, a, into))),
        Op::Unary { op, a, .. } => Ok(Effect::Gives(unary(*op, operand(code, run, a)))),
        Op::Select {
            condition,
            a,
            b,
            ..
        } => Ok(Effect::Gives(select(code, run, condition, a, b))),
        Op::Alloca { ty, .. } => Ok(Effect::Wants(alloca(code, run, ty))),
        Op::Load { ty, at, .. } => Ok(Effect::Wants(load(code, run, ty, at))),
        Op::Store { ty, value, at } => Ok(Effect::Wants(store(code, run, ty, value, at))),
        Op::GetElementPtr {
            ty,
            base,
            indices,
            ..
        } => Ok(Effect::Gives(element(code, run, ty, base, indices.as_slice()))),
        Op::Call { callee, args, .. } => {
            let effect = call(alloc, code, run, callee, args.as_slice())?;
            Ok(effect)
        }
        Op::CopyBlock {
            dest,
            source,
            len,
            ..
        } => Ok(Effect::Wants(copy(code, run, dest, source, len))),
        Op::FillBlock { dest, byte, len } => Ok(Effect::Wants(fill(code, run, dest, byte, len))),
        Op::Ret { .. } => Ok(Effect::Wants(What::Return {
            low: run.low,
            high: run.high,
        })),
        Op::Jump { label } => Ok(jump(code, run, label)),
        Op::Branch {
            condition,
            if_true,
            if_false,
        } => Ok(branch(code, run, condition, if_true, if_false)),
        Op::Switch {
            value,
            otherwise,
            cases,
            ..
        } => Ok(switch(code, run, value, otherwise, cases.as_slice())),
        _ => Ok(Effect::Traps(Trap::Unreachable)),
    }
}
