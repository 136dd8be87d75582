//! The passes over the texts, in their order.
ghost use Rattle.std.specs.Prelude.{◌≡◌, ◌<◌, ◌^◌, length};
ghost use Rattle.lx_link_texts.specs.Faults.{Gives, all_annotated, text_fault};

use crate::fault::Found;
use crate::sources::Sources;
use crate::{imports, kernel, slots};
use lx_name_tables::{InterfaceNames, TextNames};
use lx_slot_types::Annotated;
use std::alloc::Global;

/// The passes over the texts, one after the other.
#[tactic(auto, using(crate::proofs::Passes::first_answer, crate::proofs::Passes::passed))]
fn check_named<'a>(
    kernel: &TextNames<'_>,
    interface: &InterfaceNames<'_>,
    sources: &'a Sources,
    annotated: &[Annotated],
) -> Result<(), Found<'a>>
    requires few { length sources.now.modules < 2 ^ 32 }
    requires annotated { annotated.now ≡ all_annotated sources.now }
    requires kernel { kernel.now ≡ sources.now.kernel }
    requires interface { interface.now ≡ sources.now.interface }
    ensures { Gives (text_fault sources.now) result }
{
    kernel::check_calls(&sources.kernel)?;
    kernel::check_exports(kernel, &sources.interface)?;
    kernel::check_imports(&sources.kernel, interface)?;
    imports::check_imports(kernel, interface, sources.modules.as_slice())?;
    slots::check_slots(sources, annotated)?;
    Ok(())
}

/// The allocator that the texts were made with.
fn allocator_of(sources: &Sources) -> Global {
    *sources.kernel.functions.items.allocator()
}

/// Finds the first fault of the texts: an indirect call of the kernel, an export that the kernel does not define with
/// its signature, an import of the kernel, an import of a module, an annotated function with another signature than its
/// slot type's. `annotated` has the slot types of the functions of each module. Names are looked up in tables, and where
/// there is no memory for a table in its list, so want of memory never stands in the place of a fault.
pub fn check_texts<'a>(sources: &'a Sources, annotated: &[Annotated]) -> Result<(), Found<'a>>
    requires few { length sources.now.modules < 2 ^ 32 }
    requires annotated { annotated.now ≡ all_annotated sources.now }
    ensures { Gives (text_fault sources.now) result }
{
    let alloc = allocator_of(sources);
    let kernel = TextNames::new(alloc, &sources.kernel);
    let interface = InterfaceNames::new(alloc, &sources.interface);
    let checked = check_named(&kernel, &interface, sources, annotated);
    drop(interface);
    drop(kernel);
    checked
}
