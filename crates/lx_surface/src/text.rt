//! The text of a bound.
ghost use Rattle.std.specs.Prelude.{◌≡◌, ◌++◌, IfOk, OnOk, flat_map, option_copied, slice_get};
ghost use Rattle.std.specs.List.{enumerate_from};
ghost use Rattle.lx_surface.specs.Text.{bound_text, call_line, entry_line, function_line, module_lines, named_line, ref_line, type_line};

use crate::{Bound, Thing};
use lx_ir::module::Function;
use lx_model::program::{Program, ProgramFunction, ProgramModule};
use lx_words::{Memory, Name, number_of};
use std::alloc::Global;

fn put(out: &mut Vec<u8>, text: &str) -> Result<(), Memory>
    ensures { OnOk result (out.new.items ≡ out.old.items ++ text.now) }
{
    out.extend_from_slice(text.as_bytes())?;
    Ok(())
}

fn put_bytes(out: &mut Vec<u8>, bytes: &[u8]) -> Result<(), Memory>
    ensures { OnOk result (out.new.items ≡ out.old.items ++ bytes.now) }
{
    out.extend_from_slice(bytes)?;
    Ok(())
}

#[tactic(auto, unfolding(crate::specs::Text::ref_line))]
fn put_ref(out: &mut Vec<u8>, name: &[u8], ty: &[u8]) -> Result<(), Memory>
    ensures { OnOk result (out.new.items ≡ out.old.items ++ ref_line name.now ty.now) }
{
    put(out, "surface ")?;
    put_bytes(out, name)?;
    put(out, " ref ")?;
    put_bytes(out, ty)?;
    put(out, "\n")?;
    Ok(())
}

#[tactic(auto, unfolding(crate::specs::Text::call_line))]
fn put_call(out: &mut Vec<u8>, name: &[u8], function: &[u8]) -> Result<(), Memory>
    ensures { OnOk result (out.new.items ≡ out.old.items ++ call_line name.now function.now) }
{
    put(out, "surface ")?;
    put_bytes(out, name)?;
    put(out, " call ")?;
    put_bytes(out, function)?;
    put(out, "\n")?;
    Ok(())
}

/// Whose lines are put, and of which bound: a module by its number and its name.
#[derive(Clone, Copy)]
struct Scope<'a> {
    program: &'a Program,
    bound: &'a Bound,
    home: u32,
    name: &'a [u8],
}

/// Puts the line of a type, if the module can come to hold references of it.
#[tactic(auto, using(crate::proofs::Lines::line, crate::proofs::Lines::no_line))]
fn put_type(out: &mut Vec<u8>, scope: Scope, place: usize, ty: &Name) -> Result<(), Memory>
    ensures { OnOk result (out.new.items ≡ out.old.items ++ type_line scope.entry.bound.now scope.entry.home scope.entry.name.now (place, ty.now)) }
{
    let number = number_of(place)?;
    if scope.bound.has(scope.home, Thing::RefType(number)) {
        put_ref(out, scope.name, ty.as_slice())?;
    }
    Ok(())
}

/// Puts the lines of types.
fn put_types(out: &mut Vec<u8>, scope: Scope, types: &[Name]) -> Result<(), Memory>
    ensures { OnOk result (out.new.items ≡ out.old.items ++ flat_map (type_line scope.entry.bound.now scope.entry.home scope.entry.name.now) (enumerate_from 0 types.now)) }
{
    for (place, ty) in types.iter().enumerate() {
        put_type(out, scope, place, ty)?;
    }
    Ok(())
}

fn kernel_text(program: &Program, function: u32) -> Option<&Function>
    ensures { option_copied result ≡ slice_get program.now.kernel.functions function }
{
    program.kernel.functions.items.get(function as usize)
}

/// Puts the line of a function of the kernel, if there is one and the module can come to call it.
#[tactic(auto, using(crate::proofs::Lines::named, crate::proofs::Lines::unnamed))]
fn put_named(
    out: &mut Vec<u8>,
    scope: Scope,
    number: u32,
    function: Option<&Function>,
) -> Result<(), Memory>
    ensures { OnOk result (out.new.items ≡ out.old.items ++ named_line scope.entry.bound.now scope.entry.home scope.entry.name.now number (option_copied function.entry)) }
{
    match function {
        Some(function) => {
            if scope.bound.has(scope.home, Thing::Function(number)) {
                put_call(out, scope.name, function.name.as_slice())?;
            }
            Ok(())
        }
        None => Ok(()),
    }
}

/// Puts the line of a function, if it is the kernel's and the module can come to call it.
#[tactic(auto, using(crate::proofs::Lines::kernels, crate::proofs::Lines::others))]
fn put_entry(
    out: &mut Vec<u8>,
    scope: Scope,
    place: usize,
    entry: &ProgramFunction,
) -> Result<(), Memory>
    ensures { OnOk result (out.new.items ≡ out.old.items ++ function_line scope.entry.program.now scope.entry.bound.now scope.entry.home scope.entry.name.now (place, entry.now)) }
{
    let number = number_of(place)?;
    match *entry {
        ProgramFunction::Of {
            module: None,
            function,
        } => {
            let text = kernel_text(scope.program, function);
            put_named(out, scope, number, text)?;
            Ok(())
        }
        _ => Ok(()),
    }
}

/// Puts the lines of functions.
fn put_functions(
    out: &mut Vec<u8>,
    scope: Scope,
    functions: &[ProgramFunction],
) -> Result<(), Memory>
    ensures { OnOk result (out.new.items ≡ out.old.items ++ flat_map (function_line scope.entry.program.now scope.entry.bound.now scope.entry.home scope.entry.name.now) (enumerate_from 0 functions.now)) }
{
    for (place, entry) in functions.iter().enumerate() {
        put_entry(out, scope, place, entry)?;
    }
    Ok(())
}

/// Puts the lines of a module.
fn put_module(
    out: &mut Vec<u8>,
    program: &Program,
    bound: &Bound,
    place: usize,
    entry: &ProgramModule,
) -> Result<(), Memory>
    ensures { OnOk result (out.new.items ≡ out.old.items ++ module_lines program.now bound.now (place, entry.now)) }
{
    let scope = Scope {
        program,
        bound,
        home: number_of(place)?,
        name: entry.name.as_slice(),
    };
    put_types(out, scope, program.interface.reftypes.as_slice())?;
    put_functions(out, scope, program.functions.as_slice())?;
    Ok(())
}

/// Puts the lines of modules.
fn put_modules(
    out: &mut Vec<u8>,
    program: &Program,
    bound: &Bound,
    modules: &[ProgramModule],
) -> Result<(), Memory>
    ensures { OnOk result (out.new.items ≡ out.old.items ++ flat_map (module_lines program.now bound.now) (enumerate_from 0 modules.now)) }
{
    for (place, entry) in modules.iter().enumerate() {
        put_module(out, program, bound, place, entry)?;
    }
    Ok(())
}

/// The text of a bound: for each module a line for each type of references that it can come to hold, and one for each
/// function of the kernel that it can come to call.
///
/// # Errors
/// Want of memory.
pub fn bound_text(alloc: Global, program: &Program, bound: &Bound) -> Result<Vec<u8>, Memory>
    ensures { IfOk result (λ text. text.items ≡ bound_text program.now bound.now) }
{
    let mut out = Vec::new(alloc);
    put_modules(&mut out, program, bound, program.modules.as_slice())?;
    Ok(out)
}
