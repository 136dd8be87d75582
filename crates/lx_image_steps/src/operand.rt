//! Operands of instructions.
ghost use Rattle.std.specs.Prelude.{◌≡◌, ◌<◌, MatchResult, length, map, slice_index_or};
ghost use Rattle.lx_model.specs.Thread.{zero_word};
ghost use Rattle.lx_model.specs.Effect.{operand, argument_words, text_of};
ghost use Rattle.lx_model.specs.Program.{module_of};
ghost use Rattle.lx_image_steps.specs.Standing.{run_of};

use crate::activation::Activation;
use lx_code::constant_of;
use lx_image_code::Code;
use lx_ir::instr::Argument;
use lx_ir::module::{Module, Value};
use lx_words::{Items, Memory, Width, Word, Words};
use std::alloc::Global;

/// The word of a register that nothing was written to.
pub(crate) fn blank_word() -> Word
    ensures { result ≡ zero_word }
{
    Word {
        width: Width::W1,
        bits: 0,
    }
}

/// The word of a register.
pub(crate) fn register(registers: &[Word], number: u32) -> Word
    ensures { result ≡ slice_index_or registers.now number zero_word }
{
    match registers.get(number as usize) {
        Some(word) => *word,
        None => blank_word(),
    }
}

/// The text whose function runs.
pub(crate) fn text_of<'a>(code: &'a Code, run: &Activation) -> &'a Module
    ensures { result.now ≡ module_of code.now.program (text_of code.now.program (run_of code.now run.now)) }
{
    let program = code.program_code();
    program.text(program.home(run.function))
}

/// The word of an operand.
pub(crate) fn operand(code: &Code, run: &Activation, value: &Value) -> Word
    ensures { result ≡ operand code.now.program (run_of code.now run.now) value.now }
{
    match value {
        Value::Register(number) => register(run.registers.as_slice(), *number),
        Value::Constant(constant) => {
            let program = code.program_code();
            constant_of(program, program.home(run.function), constant)
        },
    }
}

/// The words of the arguments of a call. None takes no memory.
pub(crate) fn arguments(
    alloc: Global,
    code: &Code,
    run: &Activation,
    args: &[Argument],
) -> Result<Words, Memory>
    ensures { MatchResult result (λ words. words ≡ argument_words code.now.program (run_of code.now run.now) args.now) (λ _. 0 < length args.now) }
{
    let mut words = Vec::with_capacity(alloc, args.len())?;
    for arg in args {
        words.push(operand(code, run, &arg.value))?;
    }
    Ok(Items::from_vec(words))
}
