//! Where the annotations of functions stand.
ghost use Rattle.std.specs.Prelude.{◌≡◌, ◌<◌, ◌^◌, IfOk, None, Some, bytes_eq, find, length, nat_eq, option_copied, option_map, position, slice_get};
ghost use Rattle.lx_link_texts.specs.WellFormed.{IsWellFormed};
ghost use Rattle.lx_model.specs.declared.program.ProgramFunction.TheVariants as functions;
ghost use Rattle.lx_serve.specs.declared.source.Source.TheVariants as source;
ghost use Rattle.lx_serve.specs.Sources.{Knows};
ghost use Rattle.lx_annotation_tables.specs.Entries.{IsEntry, IsRising, all_annotated, annotation_by, annotation_of};

use crate::marked::marked_in;
use lx_ir::module::{Function, Module};
use lx_model::program::{Program, ProgramFunction};
use lx_name_tables::InterfaceNames;
use lx_serve::Source;
use lx_slot_types::Annotated;
use lx_words::Memory;
use std::alloc::Global;

/// Where the annotation of an exported function stands.
fn export_source(interface: &InterfaceNames<'_>, function: &Function) -> Option<Source>
    requires { length interface.now.exports < 2 ^ 32 }
    ensures { result ≡ option_map source.Export (position (λ e. bytes_eq e.name function.now.name) interface.now.exports) }
{
    match interface.export_place(function.name.as_slice()) {
        Some(place) => Some(Source::Export(place as u32)),
        None => None,
    }
}

fn function_in(text: &Module, number: u32) -> Option<&Function>
    ensures { option_copied result ≡ slice_get text.now.functions number }
{
    text.functions.items.get(number as usize)
}

/// Where the annotation of a function of the kernel stands.
#[tactic(auto, using(crate::proofs::Told::kernel_untold))]
fn kernel_source(program: &Program, interface: &InterfaceNames<'_>, function: u32) -> Option<Source>
    requires few { length interface.now.exports < 2 ^ 32 }
    requires same { interface.now ≡ program.now.interface }
    ensures { annotation_by program.now result ≡ annotation_of program.now (functions.Of None function) }
{
    match function_in(&program.kernel, function) {
        Some(function) => export_source(interface, function),
        None => None,
    }
}

/// Where the annotation of a module's function stands that is among the annotated ones.
fn slot_source(annotated: &Annotated, function: u32) -> Option<Source>
    requires { IsRising annotated.now }
    ensures { result ≡ option_map (λ x. source.Slot x.slot) (find (λ x. nat_eq x.function function) annotated.now) }
{
    match marked_in(annotated.as_slice(), function as usize) {
        Some(marked) => Some(Source::Slot(marked.slot)),
        None => None,
    }
}

fn annotated_of(annotated: &[Annotated], home: u32) -> Option<&Annotated>
    ensures { option_copied result ≡ slice_get annotated.now home }
{
    annotated.get(home as usize)
}

/// Where the annotation of a function of a module stands.
#[tactic(auto, using(crate::proofs::Told::module_untold))]
fn module_source(
    program: &Program,
    annotated: &[Annotated],
    home: u32,
    function: u32,
) -> Option<Source>
    requires entry { IsEntry program.now (functions.Of (Some home) function) }
    requires annotated { annotated.now ≡ all_annotated program.now }
    ensures { annotation_by program.now result ≡ annotation_of program.now (functions.Of (Some home) function) }
{
    match annotated_of(annotated, home) {
        Some(list) => slot_source(list, function),
        None => None,
    }
}

/// Where the annotation of a function stands.
#[tactic(auto, using(crate::proofs::Told::native_told))]
fn source_of(
    program: &Program,
    interface: &InterfaceNames<'_>,
    annotated: &[Annotated],
    entry: &ProgramFunction,
) -> Option<Source>
    requires few { length interface.now.exports < 2 ^ 32 }
    requires same { interface.now ≡ program.now.interface }
    requires entry { IsEntry program.now entry.now }
    requires annotated { annotated.now ≡ all_annotated program.now }
    ensures { annotation_by program.now result ≡ annotation_of program.now entry.now }
{
    match *entry {
        ProgramFunction::Native(_) => None,
        ProgramFunction::Of { module, function } => match module {
            None => kernel_source(program, interface, function),
            Some(home) => module_source(program, annotated, home, function),
        },
    }
}

/// Where the annotation of each function of a program stands, over the names of its interface.
fn named_sources(
    alloc: Global,
    program: &Program,
    interface: &InterfaceNames<'_>,
    annotated: &[Annotated],
) -> Result<Vec<Option<Source>>, Memory>
    requires well_formed { IsWellFormed program.now }
    requires same { interface.now ≡ program.now.interface }
    requires annotated { annotated.now ≡ all_annotated program.now }
    ensures { IfOk result (λ sources. Knows program.now sources.items) }
{
    let mut sources = Vec::new(alloc);
    for entry in program.functions.as_slice() {
        sources.push(source_of(program, interface, annotated, entry))?;
    }
    Ok(sources)
}

/// Where the annotation of each function of a program stands: of an exported function of the kernel at its export, and
/// of a module's function at the first slot type that it gets. `annotated` has the functions of each module that get a
/// slot type.
///
/// # Errors
/// Want of memory.
pub fn sources_of(
    alloc: Global,
    program: &Program,
    annotated: &[Annotated],
) -> Result<Vec<Option<Source>>, Memory>
    requires well_formed { IsWellFormed program.now }
    requires annotated { annotated.now ≡ all_annotated program.now }
    ensures { IfOk result (λ sources. Knows program.now sources.items) }
{
    let interface = InterfaceNames::new(alloc, &program.interface);
    let sources = named_sources(alloc, program, &interface, annotated);
    drop(interface);
    sources
}
