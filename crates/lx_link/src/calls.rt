//! The calls of a script: what is wrong with them, and the calls by numbers and words.
ghost use Rattle.std.specs.Prelude.{◌≡◌, IfOk, Some, map};
ghost use Rattle.lx_ir.specs.Faults.{first_some};
ghost use Rattle.lx_link_texts.specs.declared.fault.Source;
ghost use Rattle.lx_link_texts.specs.Faults.{Gives, fault};
ghost use Rattle.lx_link.specs.Calls.{argument_fault, call_fault, call_fault_by, call_to, calls_of, parameters, resolved, script_fault, target, thread_fault};

use crate::arguments::{all_fit, argument_words};
use crate::names::{function_named, functions_in, named_address};
use lx_ir::module::Parameter;
use lx_link_texts::fault::{FaultKind, Found, Source};
use lx_model::program::{Calls, Program, ProgramFunction, ScriptCall};
use lx_name_tables::ProgramNames;
use lx_script::{CaseArg, CaseCall, CaseThread};
use lx_words::{Items, Memory};
use std::alloc::Global;

/// The parameters of a function by its number.
fn parameters(program: &Program, number: u32) -> &[Parameter]
    ensures { result.now ≡ parameters program.now number }
{
    match program.functions.as_slice().get(number as usize) {
        Some(ProgramFunction::Of { module, function }) => {
            match functions_in(program, *module).get(*function as usize) {
                Some(function) => function.params.as_slice(),
                None => &[],
            }
        }
        _ => &[],
    }
}

/// The function that a call calls.
fn target(names: &ProgramNames<'_>, call: &CaseCall) -> Option<u32>
    ensures { result ≡ target names.now call.now }
{
    function_named(names, call.target.module, call.target.function.as_slice())
}

fn check_argument<'a>(
    names: &ProgramNames<'_>,
    line: u32,
    argument: &'a CaseArg,
) -> Result<(), Found<'a>>
    ensures { Gives (argument_fault names.now line argument.now) result }
{
    match argument {
        CaseArg::Number(_) => Ok(()),
        CaseArg::Address { module, name } => {
            match named_address(names, *module, name.as_slice()) {
                Some(_) => Ok(()),
                None => Err(Found {
                    kind: FaultKind::Missing,
                    source: Source::Case,
                    line,
                    name: name.as_slice(),
                }),
            }
        }
    }
}

/// Finds the first argument whose name names nothing.
#[tactic(auto, using(crate::proofs::Passes::first_step, crate::proofs::Passes::first_end, lx_link_texts::proofs::Passes::first_answer))]
fn check_arguments<'a>(
    names: &ProgramNames<'_>,
    line: u32,
    arguments: &'a [CaseArg],
) -> Result<(), Found<'a>>
    ensures { Gives (first_some (argument_fault names.now line) arguments.now) result }
{
    for argument in arguments {
        check_argument(names, line, argument)?;
    }
    Ok(())
}

/// A fault of a call, with its target's name.
fn of_target(kind: FaultKind, call: &CaseCall) -> Found<'_>
    ensures { result ≡ fault kind Source.Case call.now.line call.now.target.function }
{
    Found {
        kind,
        source: Source::Case,
        line: call.line,
        name: call.target.function.as_slice(),
    }
}

/// Looks at the arguments of a call of the function with this number.
#[tactic(auto, using(lx_link_texts::proofs::Passes::first_answer, lx_link_texts::proofs::Passes::passed))]
fn check_known<'a>(
    names: &ProgramNames<'_>,
    call: &'a CaseCall,
    number: u32,
) -> Result<(), Found<'a>>
    ensures { Gives (call_fault_by names.now call.now (Some number)) result }
{
    let arguments = call.args.as_slice();
    check_arguments(names, call.line, arguments)?;
    if !all_fit(names, parameters(names.program(), number), arguments) {
        return Err(of_target(FaultKind::SignatureDiffers, call));
    }
    Ok(())
}

fn check_call<'a>(names: &ProgramNames<'_>, call: &'a CaseCall) -> Result<(), Found<'a>>
    ensures { Gives (call_fault names.now call.now) result }
{
    match target(names, call) {
        None => Err(of_target(FaultKind::Missing, call)),
        Some(number) => check_known(names, call, number),
    }
}

#[tactic(auto, using(crate::proofs::Passes::first_step, crate::proofs::Passes::first_end, lx_link_texts::proofs::Passes::first_answer))]
fn check_thread<'a>(names: &ProgramNames<'_>, calls: &'a CaseThread) -> Result<(), Found<'a>>
    ensures { Gives (thread_fault names.now calls.now) result }
{
    for call in calls.as_slice() {
        check_call(names, call)?;
    }
    Ok(())
}

/// Finds the first call of a script whose target or an argument's name is missing, or whose arguments do not fit.
#[tactic(auto, using(crate::proofs::Passes::first_step, crate::proofs::Passes::first_end, lx_link_texts::proofs::Passes::first_answer))]
pub fn check_script<'a>(
    names: &ProgramNames<'_>,
    threads: &'a [CaseThread],
) -> Result<(), Found<'a>>
    ensures { Gives (script_fault names.now threads.now) result }
{
    for calls in threads {
        check_thread(names, calls)?;
    }
    Ok(())
}

fn call_to(
    alloc: Global,
    names: &ProgramNames<'_>,
    call: &CaseCall,
    number: u32,
) -> Result<ScriptCall, Memory>
    ensures { IfOk result (λ c. c ≡ call_to names.now call.now number) }
{
    let args = argument_words(
        alloc,
        names,
        parameters(names.program(), number),
        call.args.as_slice(),
    )?;
    Ok(ScriptCall {
        function: number,
        args,
        fuel: call.fuel,
    })
}

fn resolve_call(
    alloc: Global,
    names: &ProgramNames<'_>,
    call: &CaseCall,
) -> Result<ScriptCall, Memory>
    ensures { IfOk result (λ c. c ≡ resolved names.now call.now) }
{
    match target(names, call) {
        None => call_to(alloc, names, call, 0),
        Some(number) => call_to(alloc, names, call, number),
    }
}

fn resolve_thread(
    alloc: Global,
    names: &ProgramNames<'_>,
    calls: &CaseThread,
) -> Result<Calls, Memory>
    ensures { IfOk result (λ list. list ≡ map (resolved names.now) calls.now) }
{
    let mut list = Items::new(alloc);
    for call in calls.as_slice() {
        list.push(resolve_call(alloc, names, call)?)?;
    }
    Ok(list)
}

/// The calls of each thread by numbers and words.
pub fn resolve(
    alloc: Global,
    names: &ProgramNames<'_>,
    threads: &[CaseThread],
) -> Result<Items<Calls>, Memory>
    ensures { IfOk result (λ list. list ≡ calls_of names.now threads.now) }
{
    let mut list = Items::new(alloc);
    for calls in threads {
        list.push(resolve_thread(alloc, names, calls)?)?;
    }
    Ok(list)
}
