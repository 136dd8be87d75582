//! The parameters of wrappers, and the arguments that they hand on.
ghost use Rattle.std.specs.Prelude.{◌≡◌, ◌++◌, ◌∷◌, [], IfOk, OnOk};
ghost use Rattle.lx_words.specs.Text.{decimal_text};
ghost use Rattle.lx_ir.specs.declared.module.Value.TheVariants as value;
ghost use Rattle.lx_image_texts.specs.WrapperText.{wrapper_args, wrapper_params};

use crate::names::parameter_name;
use lx_ir::instr::Argument;
use lx_ir::module::{Parameter, Value};
use lx_words::{Items, Memory};
use std::alloc::Global;

/// A count as a number of 32 bits: no text that is read has more parameters or actions.
pub(crate) fn number_of(count: usize) -> Result<u32, Memory>
    ensures { IfOk result (λ n. n ≡ count) }
{
    match u32::try_from(count) {
        Ok(number) => Ok(number),
        Err(_) => Err(Memory),
    }
}

fn push_parameter(
    alloc: Global,
    list: &mut Items<Parameter>,
    place: usize,
    parameter: &Parameter,
) -> Result<(), Memory>
    ensures { OnOk result (list.new ≡ list.old ++ record { name = decimal_text place; ty = parameter.now.ty } ∷ []) }
{
    let name = parameter_name(alloc, place)?;
    list.push(Parameter {
        name,
        ty: parameter.ty,
    })?;
    Ok(())
}

#[tactic(auto, using(crate::proofs::Steps::params_step, crate::proofs::Steps::params_end))]
fn push_parameters(
    alloc: Global,
    list: &mut Items<Parameter>,
    parameters: &[Parameter],
) -> Result<(), Memory>
    ensures { OnOk result (list.new ≡ list.old ++ wrapper_params 0 parameters.now) }
{
    for (place, parameter) in parameters.iter().enumerate() {
        push_parameter(alloc, list, place, parameter)?;
    }
    Ok(())
}

/// The parameters of a wrapper: those of the function, with numbers for names.
pub(crate) fn wrapper_params(
    alloc: Global,
    parameters: &[Parameter],
) -> Result<Items<Parameter>, Memory>
    ensures { IfOk result (λ list. list ≡ wrapper_params 0 parameters.now) }
{
    let mut list = Items::new(alloc);
    push_parameters(alloc, &mut list, parameters)?;
    Ok(list)
}

fn push_argument(
    list: &mut Items<Argument>,
    place: usize,
    parameter: &Parameter,
) -> Result<(), Memory>
    ensures { OnOk result (list.new ≡ list.old ++ record { ty = parameter.now.ty; value = value.Register place } ∷ []) }
{
    let register = number_of(place)?;
    list.push(Argument {
        ty: parameter.ty,
        value: Value::Register(register),
    })?;
    Ok(())
}

/// The arguments of the call in a wrapper: its own parameters.
#[tactic(auto, using(crate::proofs::Steps::args_step, crate::proofs::Steps::args_end))]
pub(crate) fn wrapper_args(
    alloc: Global,
    parameters: &[Parameter],
) -> Result<Items<Argument>, Memory>
    ensures { IfOk result (λ list. list ≡ wrapper_args 0 parameters.now) }
{
    let mut list = Items::new(alloc);
    for (place, parameter) in parameters.iter().enumerate() {
        push_argument(&mut list, place, parameter)?;
    }
    Ok(list)
}
