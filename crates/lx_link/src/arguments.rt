//! The arguments of a call: whether they fit the parameters, and their words.
ghost use Rattle.std.specs.Prelude.{◌≡◌, IfOk, is_some};
ghost use Rattle.lx_link.specs.Calls.{all_fit, are_in_range, argument_value, argument_word, argument_words, value_or_zero, word_in, word_of_argument};

use crate::names::named_address;
use lx_call_targets::width_of;
use lx_ir::module::Parameter;
use lx_name_tables::ProgramNames;
use lx_script::CaseArg;
use lx_words::{Items, Memory, Width, Word, Words};
use std::alloc::Global;

/// The word of a value at a width; none where it is below the least signed one or above the greatest unsigned one.
fn word_in(width: Width, value: i128) -> Option<Word>
    ensures { result ≡ word_in width value }
{
    let mask = width.mask();
    if value < 0 {
        let below = -1 - value;
        if below > i128::from(mask >> 1) {
            return None;
        }
        let bits = mask - below as u64;
        return Some(Word { width, bits });
    }
    if value > i128::from(mask) {
        return None;
    }
    let bits = value as u64;
    Some(Word { width, bits })
}

/// The value of an argument; 0, where its name names nothing.
fn value_of(names: &ProgramNames<'_>, argument: &CaseArg) -> i128
    ensures { result ≡ value_or_zero (argument_value names.now argument.now) }
{
    match argument {
        CaseArg::Number(value) => *value,
        CaseArg::Address { module, name } => {
            match named_address(names, *module, name.as_slice()) {
                None => 0,
                Some(address) => i128::from(address),
            }
        }
    }
}

fn word_of(names: &ProgramNames<'_>, parameter: &Parameter, argument: &CaseArg) -> Option<Word>
    ensures { result ≡ word_of_argument names.now parameter.now argument.now }
{
    word_in(width_of(parameter.ty), value_of(names, argument))
}

fn is_in_range(names: &ProgramNames<'_>, parameter: &Parameter, argument: &CaseArg) -> bool
    ensures { result ≡ is_some (word_of_argument names.now parameter.now argument.now) }
{
    word_of(names, parameter, argument).is_some()
}

fn are_in_range(names: &ProgramNames<'_>, parameters: &[Parameter], arguments: &[CaseArg]) -> bool
    ensures { result ≡ are_in_range names.now parameters.now arguments.now }
{
    parameters.iter().zip(arguments).all(|(parameter, argument)| is_in_range(
        names, parameter, argument,
    ))
}

/// Whether arguments are as many as the parameters, and each is in its parameter's range.
pub fn all_fit(names: &ProgramNames<'_>, parameters: &[Parameter], arguments: &[CaseArg]) -> bool
    ensures { result ≡ all_fit names.now parameters.now arguments.now }
{
    parameters.len() == arguments.len() && are_in_range(names, parameters, arguments)
}

fn argument_word(names: &ProgramNames<'_>, parameter: &Parameter, argument: &CaseArg) -> Word
    ensures { result ≡ argument_word names.now parameter.now argument.now }
{
    match word_of(names, parameter, argument) {
        Some(word) => word,
        None => Word {
            width: width_of(parameter.ty),
            bits: 0,
        },
    }
}

/// The arguments as words of the parameters' widths; what is more of either is left out.
#[tactic(auto, using(crate::proofs::Spoken::words_step, crate::proofs::Spoken::words_end, crate::proofs::Spoken::words_out))]
pub fn argument_words(
    alloc: Global,
    names: &ProgramNames<'_>,
    parameters: &[Parameter],
    arguments: &[CaseArg],
) -> Result<Words, Memory>
    ensures { IfOk result (λ words. words ≡ argument_words names.now parameters.now arguments.now) }
{
    let mut words = Items::new(alloc);
    for (place, parameter) in parameters.iter().enumerate() {
        if place >= arguments.len() {
            return Ok(words);
        }
        let word = argument_word(names, parameter, &arguments[place]);
        words.push(word)?;
    }
    Ok(words)
}
