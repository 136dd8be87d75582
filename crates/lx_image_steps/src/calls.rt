//! Calls.
ghost use Rattle.std.specs.Prelude.{◌≡◌, IfOk};
ghost use Rattle.lx_model.specs.Effect.{call_effect, slot_effect, target_effect, argument_words, text_of};
ghost use Rattle.lx_model.specs.Program.{target};
ghost use Rattle.lx_image_steps.specs.Effects.{effect_of, Stays};
ghost use Rattle.lx_image_steps.specs.Standing.{run_of};

use crate::activation::Activation;
use crate::effect::Effect;
use crate::operand::{arguments, operand, register};
use lx_code::Target;
use lx_image_code::Code;
use lx_ir::instr::{Argument, Callee};
use lx_ir::module::Symbol;
use lx_model::request::{Trap, Way, What};
use lx_words::Memory;
use std::alloc::Global;

// A call of what a slot holds: its first argument is the slot.
fn call_slot(
    alloc: Global,
    code: &Code,
    run: &Activation,
    ty: u32,
    args: &[Argument],
) -> Result<Effect, Memory>
    ensures does { IfOk result (λ e. effect_of code.now.program (run_of code.now run.now) e ≡ slot_effect ty (argument_words code.now.program (run_of code.now run.now) args.now)) }
    ensures stays { IfOk result Stays }
{
    match args.split_first() {
        Some((first, others)) => {
            let slot = operand(code, run, &first.value).bits;
            let args = arguments(alloc, code, run, others)?;
            Ok(Effect::Enters(What::Enter {
                way: Way::Slot { slot, ty },
                args,
            }))
        }
        None => Ok(Effect::Traps(Trap::Unreachable)),
    }
}

// A call of a function by its number in the text that runs.
fn call_function(
    alloc: Global,
    code: &Code,
    run: &Activation,
    number: u32,
    args: &[Argument],
) -> Result<Effect, Memory>
    ensures does { IfOk result (λ e. effect_of code.now.program (run_of code.now run.now) e ≡ target_effect (target code.now.program (text_of code.now.program (run_of code.now run.now)) number) (argument_words code.now.program (run_of code.now run.now) args.now)) }
    ensures stays { IfOk result Stays }
{
    let program = code.program_code();
    match program.target(program.home(run.function), number) {
        Target::Native(native) => {
            let args = arguments(alloc, code, run, args)?;
            Ok(Effect::Wants(What::Native { native, args }))
        }
        Target::Slot(ty) => {
            let effect = call_slot(alloc, code, run, ty, args)?;
            Ok(effect)
        }
        Target::Import(function) => {
            let args = arguments(alloc, code, run, args)?;
            Ok(Effect::Enters(What::Enter {
                way: Way::Direct(function),
                args,
            }))
        }
        Target::Own(function) => {
            let args = arguments(alloc, code, run, args)?;
            Ok(Effect::Calls { function, args })
        }
        Target::Nowhere => Ok(Effect::Traps(Trap::Unreachable)),
    }
}

/// A call.
pub(crate) fn call(
    alloc: Global,
    code: &Code,
    run: &Activation,
    callee: &Callee,
    args: &[Argument],
) -> Result<Effect, Memory>
    ensures does { IfOk result (λ e. effect_of code.now.program (run_of code.now run.now) e ≡ call_effect code.now.program (run_of code.now run.now) callee.now (argument_words code.now.program (run_of code.now run.now) args.now)) }
    ensures stays { IfOk result Stays }
{
    match callee {
        Callee::Symbol(Symbol::Function(number)) => {
            let effect = call_function(alloc, code, run, *number, args)?;
            Ok(effect)
        }
        Callee::Symbol(Symbol::Global(_)) => Ok(Effect::Traps(Trap::Unreachable)),
        Callee::Register(number) => {
            let at = register(run.registers.as_slice(), *number).bits;
            let args = arguments(alloc, code, run, args)?;
            Ok(Effect::Enters(What::Enter {
                way: Way::Indirect(at),
                args,
            }))
        }
    }
}
