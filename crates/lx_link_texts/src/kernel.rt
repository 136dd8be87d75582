//! What is wrong with the kernel: its indirect calls, its exports and its imports.
ghost use Rattle.std.specs.Prelude.{◌≡◌, option_copied};
ghost use Rattle.lx_ir.specs.Faults.{first_some};
ghost use Rattle.lx_link_texts.specs.declared.fault.Source.TheVariants as sources;
ghost use Rattle.lx_link_texts.specs.Faults.{Gives, export_fault, export_fault_by, kernel_call_fault, kernel_import_fault, kernel_import_fault_by, kernel_native, slot_called, fault_of, fault_unless};

use crate::fault::{FaultKind, Found, Source};
use crate::lookup::{calls_indirectly, kernel_native};
use crate::signatures::{has_export_signature, has_native_signature, has_slot_call_signature};
use lx_annot::interface::{Export, Interface, Slot};
use lx_ir::module::{Function, Module};
use lx_name_tables::{InterfaceNames, TextNames};

fn check_call(function: &Function) -> Result<(), Found<'_>>
    ensures { Gives (kernel_call_fault function.now) result }
{
    if calls_indirectly(function) {
        return Err(Found::at(FaultKind::KernelIndirect, Source::Kernel, function));
    }
    Ok(())
}

/// Finds the first function of the kernel that calls what a register holds.
#[tactic(auto, using(crate::proofs::Passes::first_step, crate::proofs::Passes::first_end, crate::proofs::Passes::first_answer))]
pub fn check_calls(kernel: &Module) -> Result<(), Found<'_>>
    ensures { Gives (first_some kernel_call_fault kernel.now.functions) result }
{
    for function in kernel.functions.as_slice() {
        check_call(function)?;
    }
    Ok(())
}

/// The fault of an export.
fn export_fault(kind: FaultKind, export: &Export) -> Found<'_>
    ensures { result ≡ record { kind = kind; source = Source.Interface; line = export.entry.now.line; name = export.entry.now.name } }
{
    Found {
        kind,
        source: Source::Interface,
        line: export.line,
        name: export.name.as_slice(),
    }
}

fn check_export<'a>(kernel: &TextNames<'_>, export: &'a Export) -> Result<(), Found<'a>>
    ensures { Gives (export_fault kernel.now export.now) result }
{
    match kernel.defined(export.name.as_slice()) {
        None => Err(export_fault(FaultKind::Missing, export)),
        Some(function) => {
            if has_export_signature(export, function) {
                Ok(())
            } else {
                Err(export_fault(FaultKind::SignatureDiffers, export))
            }
        }
    }
}

/// Finds the first export that the kernel lacks, or has with another signature.
#[tactic(auto, using(crate::proofs::Passes::first_step, crate::proofs::Passes::first_end, crate::proofs::Passes::first_answer))]
pub fn check_exports<'a>(kernel: &TextNames<'_>, interface: &'a Interface) -> Result<(), Found<'a>>
    ensures { Gives (first_some (export_fault kernel.now) interface.now.exports) result }
{
    for export in interface.exports.as_slice() {
        check_export(kernel, export)?;
    }
    Ok(())
}

/// A fault, unless the test passes.
fn unless(passes: bool, kind: FaultKind, function: &Function) -> Result<(), Found<'_>>
    ensures { Gives (fault_unless passes (fault_of kind Source.Kernel function.now)) result }
{
    if passes {
        Ok(())
    } else {
        Err(Found::at(kind, Source::Kernel, function))
    }
}

/// The slot type through which a function of that name calls.
fn slot_called<'a>(interface: &InterfaceNames<'a>, name: &[u8]) -> Option<&'a Slot>
    ensures { option_copied result ≡ slot_called interface.now name.now }
{
    interface.slot_called(name)
}

/// Looks at a function that the kernel declares.
fn check_declared<'a>(
    interface: &InterfaceNames<'_>,
    function: &'a Function,
) -> Result<(), Found<'a>>
    ensures { Gives (kernel_import_fault_by function.now (kernel_native function.now.name) (slot_called interface.now function.now.name)) result }
{
    let name = function.name.as_slice();
    match kernel_native(name) {
        Some(native) => unless(
            has_native_signature(native, function),
            FaultKind::SignatureDiffers,
            function,
        ),
        None => match slot_called(interface, name) {
            Some(slot) => unless(
                has_slot_call_signature(slot, function),
                FaultKind::SignatureDiffers,
                function,
            ),
            None => Err(Found::at(FaultKind::Missing, Source::Kernel, function)),
        },
    }
}

fn check_import<'a>(interface: &InterfaceNames<'_>, function: &'a Function) -> Result<(), Found<'a>>
    ensures { Gives (kernel_import_fault interface.now function.now) result }
{
    if function.blocks.is_some() {
        return Ok(());
    }
    check_declared(interface, function)
}

/// Finds the first import of the kernel that is neither a native nor a call through a slot, or has another
/// signature.
#[tactic(auto, using(crate::proofs::Passes::first_step, crate::proofs::Passes::first_end, crate::proofs::Passes::first_answer))]
pub fn check_imports<'a>(
    kernel: &'a Module,
    interface: &InterfaceNames<'_>,
) -> Result<(), Found<'a>>
    ensures { Gives (first_some (kernel_import_fault interface.now) kernel.now.functions) result }
{
    for function in kernel.functions.as_slice() {
        check_import(interface, function)?;
    }
    Ok(())
}
