//! What modules can call at the beginning, and the whole bound.
ghost use Rattle.std.specs.Prelude.{◌≡◌, ◌≤◌, [], IfOk, None, OnOk, Some, bytes_eq, codes, length, option_copied, unwrap_or};
ghost use Rattle.lx_model.specs.Program.{empty_module, kernel_function, module_of};
ghost use Rattle.lx_serve.specs.Sources.{Knows};
ghost use Rattle.lx_surface.specs.Bound.{IsExact};
ghost use Rattle.lx_surface.specs.Work.{IsEmpty};
ghost use Rattle.lx_surface.specs.Begun.{Declares, DeclaresAll, DeclaresFrom, Opens, OpensAll, declared_in};

use crate::Thing;
use crate::closing::close;
use crate::giving::{Gift, give_before};
use crate::limits::Bound;
use crate::work::Work;
use lx_call_targets::home_of;
use lx_ir::module::{Function, Module};
use lx_model::program::Program;
use lx_name_tables::ProgramNames;
use lx_serve::Source;
use lx_words::{Memory, number_of};
use std::alloc::Global;

/// Puts a function of a module, and what it is given before its body.
#[tactic(auto, using(crate::proofs::Beginnings::kernels_own, crate::proofs::Beginnings::of_no_text))]
fn open_function(
    program: &Program,
    sources: &[Option<Source>],
    work: &mut Work,
    function: u32,
) -> Result<(), Memory>
    requires few { length program.now.functions ≤ 0x100000000 }
    requires sources { Knows program.now sources.now }
    ensures { OnOk result (Opens program.now work.old work.new function) }
{
    match home_of(program, function) {
        Some(Some(module)) => {
            work.give(module, None, Thing::Function(function))?;
            let gift = Gift {
                to: module,
                from: None,
            };
            give_before(program, sources, work, gift, function)?;
            Ok(())
        }
        Some(None) => Ok(()),
        None => Ok(()),
    }
}

/// Puts the functions of modules, and what they are given before their bodies.
fn open_functions(
    program: &Program,
    sources: &[Option<Source>],
    work: &mut Work,
) -> Result<(), Memory>
    requires few { length program.now.functions ≤ 0x100000000 }
    requires sources { Knows program.now sources.now }
    ensures { OnOk result (OpensAll program.now work.old work.new) }
{
    let count = number_of(program.functions.len())?;
    let mut function = 0u32;
    while function < count {
        open_function(program, sources, work, function)?;
        function += 1;
    }
    Ok(())
}

fn kernel_function(names: &ProgramNames<'_>, name: &[u8]) -> Option<u32>
    ensures { result ≡ kernel_function names.now name.now }
{
    names.function_named(None, name)
}

fn is_alias(name: &[u8]) -> bool
    ensures { result ≡ bytes_eq name.now (codes "lxfi_princ_alias") }
{
    name == b"lxfi_princ_alias".as_slice()
}

/// The function of the kernel that a module declares so.
fn declared_in(names: &ProgramNames<'_>, function: &Function) -> Option<u32>
    ensures { result ≡ declared_in names.now function.now }
{
    if function.blocks.is_some() {
        None
    } else if is_alias(function.name.as_slice()) {
        None
    } else {
        kernel_function(names, function.name.as_slice())
    }
}

/// Puts the function of the kernel that a module declares so.
#[tactic(auto, using(crate::proofs::Beginnings::none_declared))]
fn declare(
    names: &ProgramNames<'_>,
    work: &mut Work,
    module: u32,
    function: &Function,
) -> Result<(), Memory>
    ensures { OnOk result (Declares names.now work.old work.new «module» function.now) }
{
    match declared_in(names, function) {
        Some(number) => {
            work.give(module, None, Thing::Function(number))?;
            Ok(())
        }
        None => Ok(()),
    }
}

/// Puts what functions of a module declare.
fn declare_each(
    names: &ProgramNames<'_>,
    work: &mut Work,
    module: u32,
    functions: &[Function],
) -> Result<(), Memory>
    ensures { OnOk result (DeclaresFrom names.now work.old work.new «module» functions.now) }
{
    for function in functions {
        declare(names, work, module, function)?;
    }
    Ok(())
}

fn text_of(program: &Program, module: u32) -> Option<&Module>
    ensures { unwrap_or (option_copied result) empty_module ≡ module_of program.now (Some «module») }
{
    match program.modules.items.get(module as usize) {
        Some(entry) => Some(&entry.module),
        None => None,
    }
}

/// Puts what a module declares.
#[tactic(auto, using(crate::proofs::Beginnings::this_text, crate::proofs::Beginnings::no_such_text))]
fn declare_text(names: &ProgramNames<'_>, work: &mut Work, module: u32) -> Result<(), Memory>
    ensures { OnOk result (DeclaresFrom names.now work.old work.new «module» (module_of names.now (Some «module»)).functions) }
{
    match text_of(names.program(), module) {
        Some(text) => declare_each(names, work, module, text.functions.as_slice()),
        None => Ok(()),
    }
}

/// Puts what modules declare.
fn declare_all(names: &ProgramNames<'_>, work: &mut Work) -> Result<(), Memory>
    ensures { OnOk result (DeclaresAll names.now work.old work.new) }
{
    let count = number_of(names.program().modules.len())?;
    let mut module = 0u32;
    while module < count {
        declare_text(names, work, module)?;
        module += 1;
    }
    Ok(())
}

/// Puts all that modules can come to hold.
fn fill(names: &ProgramNames<'_>, sources: &[Option<Source>], work: &mut Work) -> Result<(), Memory>
    requires few { length names.now.functions ≤ 0x100000000 }
    requires sources { Knows names.now sources.now }
    requires empty { IsEmpty work.old }
    ensures { OnOk result (IsExact names.now work.new.bound) }
{
    let program = names.program();
    open_functions(program, sources, work)?;
    declare_all(names, work)?;
    close(program, sources, work)?;
    Ok(())
}

/// What each module of a program can come to hold. `sources` tells where the annotation of each function stands.
///
/// # Errors
/// Want of memory.
pub fn bound_of(
    alloc: Global,
    program: &Program,
    sources: &[Option<Source>],
) -> Result<Bound, Memory>
    requires few { length program.now.functions ≤ 0x100000000 }
    requires sources { Knows program.now sources.now }
    ensures { IfOk result (λ bound. IsExact program.now bound) }
{
    let names = ProgramNames::new(alloc, program);
    let mut work = Work::new(alloc);
    let filled = fill(&names, sources, &mut work);
    drop(names);
    filled?;
    Ok(work.into_bound())
}
