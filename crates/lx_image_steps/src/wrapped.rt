//! Calls of the wrappers of imports.
ghost use Rattle.std.specs.Prelude.{◌≡◌, MatchResult, Some, true};
ghost use Rattle.lx_model.specs.Effect.{text_of};
ghost use Rattle.lx_images.specs.Image.{wrapped_import, wrapper_args};
ghost use Rattle.lx_images.specs.Code.{Code as Images};
ghost use Rattle.lx_images.specs.Wrappers.{called_lines, function_in_image, lines_of};
ghost use Rattle.lx_image_code.specs.Wrappers.{wrapper_lines};
ghost use Rattle.lx_image_steps.specs.Effects.{is_call};
ghost use Rattle.lx_image_steps.specs.Standing.{run_of};

use crate::activation::Activation;
use crate::operand::arguments;
use lx_image_code::{Code, Wrapper};
use lx_ir::instr::{Callee, Op};
use lx_ir::module::Symbol;
use lx_words::{Items, Memory, Words};
use std::alloc::Global;

/// The kernel's function, by its number in the program, whose wrapper an instruction calls.
pub(crate) fn wrapped_by(code: &Code, run: &Activation, op: &Op) -> Option<u32>
    ensures { result ≡ wrapped_import code.now (text_of code.now.program (run_of code.now run.now)) op.now }
{
    match op {
        Op::Call {
            callee: Callee::Symbol(Symbol::Function(number)),
            ..
        } => code.wrapped_import(code.program_code().home(run.function), *number),
        _ => None,
    }
}

// The wrapper that the function with this number in a text is there; the kernel's text has none.
fn wrapper_at(home: Option<u32>, function: u32) -> Wrapper
    ensures { (c : Images) → wrapper_lines c result ≡ lines_of (function_in_image c home function) }
{
    match home {
        Some(module) => Wrapper::Image { module, function },
        None => Wrapper::Missing,
    }
}

/// The wrapper that an instruction calls; one without lines, where it calls none.
pub(crate) fn wrapper_by(code: &Code, run: &Activation, op: &Op) -> Wrapper
    ensures { wrapper_lines code.now result ≡ called_lines code.now (text_of code.now.program (run_of code.now run.now)) op.now }
{
    match op {
        Op::Call {
            callee: Callee::Symbol(Symbol::Function(number)),
            ..
        } => wrapper_at(code.program_code().home(run.function), *number),
        _ => Wrapper::Missing,
    }
}

/// The arguments of a call; none, where an instruction is no call. `Memory` where there is no room for them.
pub(crate) fn arguments_of(
    alloc: Global,
    code: &Code,
    run: &Activation,
    op: &Op,
) -> Result<Words, Memory>
    ensures { MatchResult result (λ args. args ≡ wrapper_args code.now (run_of code.now run.now) op.now) (λ _. is_call op.now ≡ true) }
{
    match op {
        Op::Call { args, .. } => {
            let args = arguments(alloc, code, run, args.as_slice())?;
            Ok(args)
        }
        _ => Ok(Items::new(alloc)),
    }
}
