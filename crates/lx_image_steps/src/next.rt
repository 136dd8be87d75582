//! What the next instruction does.
ghost use Rattle.std.specs.Prelude.{◌≡◌, Some, IfSome, IsTrue, MatchResult, true};
ghost use Rattle.lx_image_code.specs.Jumps.{op_at};
ghost use Rattle.lx_code.specs.Reach.{is_sized};
ghost use Rattle.lx_model.specs.Effect.{effect, types_of};
ghost use Rattle.lx_images.specs.Image.{image_routine};
ghost use Rattle.lx_image_steps.specs.Effects.{effect_of, is_call, label_after, Leads};
ghost use Rattle.lx_image_steps.specs.Next.{IsNext, IsStep, calls_next};
ghost use Rattle.lx_image_steps.specs.Standing.{head_of, run_of};

use crate::activation::Activation;
use crate::effect::{Effect, instruction_effect};
use crate::jumps::switch_by_table;
use crate::memory::alloca_by_table;
use crate::routes::element_by_table;
use crate::steps::{instr_at, instrs_of, next_place};
use crate::wrapped::{arguments_of, wrapped_by, wrapper_by};
use lx_image_code::{Code, Wrapper};
use lx_ir::instr::Op;
use lx_words::{Memory, Words};
use std::alloc::Global;

/// What the next instruction of a function does.
#[derive(Drop)]
pub enum Step {
    /// It calls this wrapper of the kernel's function with this number, with these arguments.
    Crosses {
        function: u32,
        args: Words,
        wrapper: Wrapper,
    },
    /// It calls no wrapper, and has this effect.
    Does(Effect),
}

// What an instruction at a place of the block that runs does, where a table tells it.
fn effect_by_table(code: &Code, run: &Activation, place: usize, op: &Op) -> Option<Effect>
    requires { op_at (image_routine code.now run.now.function).blocks run.now.block place ≡ Some op.now }
    ensures does { IfSome result (λ e. effect_of code.now.program (run_of code.now run.now) e ≡ effect code.now.program (run_of code.now run.now) op.now) }
    ensures leads { IfSome result (Leads (run_of code.now run.now) (label_after code.now.program (run_of code.now run.now) op.now)) }
{
    match op {
        Op::Switch { .. } => switch_by_table(code, run, place, op),
        Op::GetElementPtr { .. } => match element_by_table(code, run, place, op) {
            Some(word) => Some(Effect::Gives(word)),
            None => None,
        },
        Op::Alloca { .. } => match alloca_by_table(code, run, place, op) {
            Some(what) => Some(Effect::Wants(what)),
            None => None,
        },
        _ => None,
    }
}

// What an instruction at a place of the block that runs does: it calls a wrapper, or has an effect.
fn step_at(
    alloc: Global,
    code: &Code,
    run: &Activation,
    place: usize,
    op: &Op,
) -> Result<Step, Memory>
    requires sized { IsTrue (is_sized (types_of code.now.program (run_of code.now run.now)) op.now) }
    requires stands { op_at (image_routine code.now run.now.function).blocks run.now.block place ≡ Some op.now }
    ensures { MatchResult result (IsStep code.now (run_of code.now run.now) op.now) (λ _. is_call op.now ≡ true) }
{
    match wrapped_by(code, run, op) {
        Some(function) => {
            let args = arguments_of(alloc, code, run, op)?;
            Ok(Step::Crosses {
                function,
                args,
                wrapper: wrapper_by(code, run, op),
            })
        }
        None => match effect_by_table(code, run, place, op) {
            Some(effect) => Ok(Step::Does(effect)),
            None => {
                let effect = instruction_effect(alloc, code, run, op)?;
                Ok(Step::Does(effect))
            }
        },
    }
}

/// What the next instruction of a running function does; none, where there is none. The case of a large switch is found by
/// a table and not by a search, and a large type is not laid out again. `Memory` comes at calls alone, where there is no room for the arguments.
pub fn next_step(alloc: Global, code: &Code, run: &Activation) -> Result<Option<Step>, Memory>
    ensures { MatchResult result (IsNext code.now (run_of code.now run.now) (head_of (run_of code.now run.now).code)) (λ _. calls_next (head_of (run_of code.now run.now).code) ≡ true) }
{
    let _program = code.program();
    let instrs = instrs_of(code, run);
    let place = next_place(instrs, run.arrived, run.place);
    match instr_at(instrs, place) {
        Some(instr) => {
            let step = step_at(alloc, code, run, place, &instr.op)?;
            Ok(Some(step))
        }
        None => Ok(None),
    }
}
