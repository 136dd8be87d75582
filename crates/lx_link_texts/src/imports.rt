//! What is wrong with the imports of modules.
ghost use Rattle.std.specs.Prelude.{◌<◌, ◌^◌, Some, length};
ghost use Rattle.lx_ir.specs.Faults.{first_some};
ghost use Rattle.lx_link_texts.specs.Faults.{Gives, defined, first_module, import_fault, import_fault_by, imports_fault, module_import_fault};

use crate::fault::{FaultKind, Found, Source};
use crate::lookup::{is_alias, is_kernel_name};
use crate::signatures::{has_native_signature, have_same_signature};
use lx_ir::module::{Function, Module};
use lx_model::program::ProgramModule;
use lx_name_tables::{InterfaceNames, TextNames};

/// The number of the native that modules call.
const ALIAS: u32 = 5;

/// Looks at an import that the kernel defines.
fn check_defined<'a>(
    interface: &InterfaceNames<'_>,
    source: Source,
    import: &'a Function,
    function: &Function,
) -> Result<(), Found<'a>>
    ensures { Gives (import_fault_by interface.now source import.now (Some function.now)) result }
{
    if !interface.is_exported(import.name.as_slice()) {
        return Err(Found::at(FaultKind::Unannotated, source, import));
    }
    if !have_same_signature(import, function) {
        return Err(Found::at(FaultKind::SignatureDiffers, source, import));
    }
    Ok(())
}

/// Looks at an import that is a function of the kernel.
fn check_import<'a>(
    kernel: &TextNames<'_>,
    interface: &InterfaceNames<'_>,
    source: Source,
    import: &'a Function,
) -> Result<(), Found<'a>>
    ensures { Gives (import_fault_by interface.now source import.now (defined kernel.now import.now.name)) result }
{
    match kernel.defined(import.name.as_slice()) {
        None => Err(Found::at(FaultKind::Missing, source, import)),
        Some(function) => check_defined(interface, source, import, function),
    }
}

/// Looks at a function that a module declares.
fn check_declared<'a>(
    kernel: &TextNames<'_>,
    interface: &InterfaceNames<'_>,
    source: Source,
    import: &'a Function,
) -> Result<(), Found<'a>>
    ensures { Gives (import_fault kernel.now interface.now source import.now) result }
{
    let name = import.name.as_slice();
    if is_alias(name) {
        if has_native_signature(ALIAS, import) {
            return Ok(());
        }
        return Err(Found::at(FaultKind::SignatureDiffers, source, import));
    }
    if is_kernel_name(name) {
        return Err(Found::at(FaultKind::Missing, source, import));
    }
    check_import(kernel, interface, source, import)
}

fn check_function<'a>(
    kernel: &TextNames<'_>,
    interface: &InterfaceNames<'_>,
    source: Source,
    function: &'a Function,
) -> Result<(), Found<'a>>
    ensures { Gives (module_import_fault kernel.now interface.now source function.now) result }
{
    if function.blocks.is_some() {
        return Ok(());
    }
    check_declared(kernel, interface, source, function)
}

/// Finds the first fault of the imports of a module.
#[tactic(auto, using(crate::proofs::Passes::first_step, crate::proofs::Passes::first_end, crate::proofs::Passes::first_answer))]
fn check_module<'a>(
    kernel: &TextNames<'_>,
    interface: &InterfaceNames<'_>,
    number: u32,
    m: &'a Module,
) -> Result<(), Found<'a>>
    ensures { Gives (imports_fault kernel.now interface.now number m.now) result }
{
    for function in m.functions.as_slice() {
        check_function(kernel, interface, Source::Module(number), function)?;
    }
    Ok(())
}

/// Finds the first import that is missing, is not exported, or has another signature than the kernel's function.
#[tactic(auto, using(crate::proofs::Passes::module_step, crate::proofs::Passes::module_end, crate::proofs::Passes::first_answer))]
pub fn check_imports<'a>(
    kernel: &TextNames<'_>,
    interface: &InterfaceNames<'_>,
    modules: &'a [ProgramModule],
) -> Result<(), Found<'a>>
    requires { length modules.now < 2 ^ 32 }
    ensures { Gives (first_module (imports_fault kernel.now interface.now) 0 modules.now) result }
{
    for (number, entry) in modules.iter().enumerate() {
        check_module(kernel, interface, number as u32, &entry.module)?;
    }
    Ok(())
}
