//! What is wrong with annotated functions.
ghost use Rattle.std.specs.Prelude.{◌≡◌, ◌<◌, ◌^◌, Some, length};
ghost use Rattle.lx_ir.specs.Faults.{first_some};
ghost use Rattle.lx_link_texts.specs.declared.fault.Source.TheVariants as sources;
ghost use Rattle.lx_propagate.specs.Slots.{annotated_of};
ghost use Rattle.lx_link_texts.specs.Faults.{Gives, all_annotated, first_module, slot_fault, slot_fault_by, slots_fault};

use crate::fault::{FaultKind, Found, Source};
use crate::sources::Sources;
use lx_annot::interface::{Interface, Slot};
use lx_call_targets::has_slot_signature;
use lx_ir::module::{Function, Module};
use lx_slot_types::{Annotated, Marked};

/// Looks at a function and its slot type.
fn check_signature<'a>(source: Source, slot: &Slot, function: &'a Function) -> Result<(), Found<'a>>
    ensures { Gives (slot_fault_by source (Some slot.now) (Some function.now)) result }
{
    if has_slot_signature(slot, function) {
        return Ok(());
    }
    Err(Found::at(FaultKind::SignatureDiffers, source, function))
}

fn check_marked<'a>(
    interface: &Interface,
    source: Source,
    m: &'a Module,
    marked: Marked,
) -> Result<(), Found<'a>>
    ensures { Gives (slot_fault interface.now source m.now marked) result }
{
    let slot = interface.slots.as_slice().get(marked.slot as usize);
    let function = m.functions.as_slice().get(marked.function as usize);
    match (slot, function) {
        (Some(slot), Some(function)) => check_signature(source, slot, function),
        _ => Ok(()),
    }
}

/// Finds the first annotated function of a module whose signature is not its slot type's.
#[tactic(auto, using(crate::proofs::Passes::first_step, crate::proofs::Passes::first_end, crate::proofs::Passes::first_answer))]
fn check_each<'a>(
    interface: &Interface,
    number: u32,
    m: &'a Module,
    annotated: &[Marked],
) -> Result<(), Found<'a>>
    ensures { Gives (first_some (slot_fault interface.now (sources.Module number) m.now) annotated.now) result }
{
    for marked in annotated {
        check_marked(interface, Source::Module(number), m, *marked)?;
    }
    Ok(())
}

/// Finds the first fault of the annotated functions of a module.
fn check_module<'a>(
    interface: &Interface,
    number: u32,
    m: &'a Module,
    annotated: &Annotated,
) -> Result<(), Found<'a>>
    requires { annotated.now ≡ annotated_of interface.now m.now }
    ensures { Gives (slots_fault interface.now number m.now) result }
{
    check_each(interface, number, m, annotated.as_slice())
}

/// Finds the first annotated function whose signature is not its slot type's.
#[tactic(auto, using(crate::proofs::Passes::module_step, crate::proofs::Passes::module_end, crate::proofs::Passes::first_answer, crate::proofs::Passes::map_at, crate::proofs::Passes::map_long))]
pub fn check_slots<'a>(sources: &'a Sources, annotated: &[Annotated]) -> Result<(), Found<'a>>
    requires few { length sources.now.modules < 2 ^ 32 }
    requires annotated { annotated.now ≡ all_annotated sources.now }
    ensures { Gives (first_module (slots_fault sources.now.interface) 0 sources.now.modules) result }
{
    for (number, entry) in sources.modules.as_slice().iter().enumerate() {
        check_module(
            &sources.interface,
            number as u32,
            &entry.module,
            &annotated[number],
        )?;
    }
    Ok(())
}
