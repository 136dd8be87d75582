//! The two annotations of a refused slot call.

ghost use Rattle.std.specs.Prelude.{◌≡◌, ◌++◌, OnOk, IfOk, Some, option_and_then, option_copied, option_map, slice_get, unwrap_or};
ghost use Rattle.lx_annot.specs.Canonical.{canonical};
ghost use Rattle.lx_slot_types.specs.Gets.{slot_of};
ghost use Rattle.lx_model.specs.Program.{export_annotation, function_of, module_of, no_annotation, slot_annotation};
ghost use Rattle.lx_report.specs.Report.{annotation_text, slot_annotation_text};

use crate::names::function_of;
use crate::text::put_bytes;
use crate::told::Told;
use lx_annot::action::Annotation;
use lx_annot::canonical::canonical;
use lx_annot::interface::Interface;
use lx_model::program::{Program, ProgramFunction};
use lx_words::Memory;
use std::alloc::Global;

fn slot_annotation(i: &Interface, slot: u32) -> Option<&Annotation>
    ensures { option_copied result ≡ slot_annotation i.now slot }
{
    match i.slots.as_slice().get(slot as usize) {
        Some(slot) => Some(&slot.annotation),
        None => None,
    }
}

/// The annotation of the export with this number.
fn annotation_at(i: &Interface, place: usize) -> Option<&Annotation>
    ensures { option_copied result ≡ option_map (λ e. e.annotation) (slice_get i.now.exports place) }
{
    match i.exports.as_slice().get(place) {
        Some(export) => Some(&export.annotation),
        None => None,
    }
}

fn export_annotation<'a>(told: &Told<'a>, name: &[u8]) -> Option<&'a Annotation>
    ensures { option_copied result ≡ export_annotation told.now.teller.program.now.interface name.now }
{
    match told.interface.export_place(name) {
        Some(place) => annotation_at(&told.teller.program.interface, place),
        None => None,
    }
}

/// The canonical text of an annotation; where there is none, that of the empty one.
fn put_annotation(
    alloc: Global,
    out: &mut Vec<u8>,
    i: &Interface,
    annotation: Option<&Annotation>,
) -> Result<(), Memory>
    ensures { OnOk result (out.new.items ≡ out.old.items ++ canonical i.now (unwrap_or (option_copied annotation.entry) no_annotation)) }
{
    match annotation {
        Some(annotation) => {
            let text = canonical(alloc, i, annotation)?;
            put_bytes(out, &text)
        }
        None => Ok(()),
    }
}

pub(crate) fn put_slot_annotation(out: &mut Vec<u8>, told: &Told, slot: u32) -> Result<(), Memory>
    ensures { OnOk result (out.new.items ≡ out.old.items ++ slot_annotation_text told.now.teller.program.now slot) }
{
    let interface = &told.teller.program.interface;
    put_annotation(told.alloc, out, interface, slot_annotation(interface, slot))
}

/// The annotation of a function of the kernel's text.
fn exported<'a>(told: &Told<'a>, n: u32) -> Option<&'a Annotation>
    ensures { option_copied result ≡ option_and_then (λ g. export_annotation told.now.teller.program.now.interface g.name) (function_of told.now.teller.program.now n) }
{
    match function_of(told.teller.program, n) {
        Some(function) => export_annotation(told, function.name.as_slice()),
        None => None,
    }
}

/// The first slot type that a function of a module gets.
fn slot_in(told: &Told, home: u32, function: u32) -> Result<Option<u32>, Memory>
    ensures { IfOk result (λ slot. slot ≡ slot_of told.now.teller.program.now.interface (module_of told.now.teller.program.now (Some home)) function) }
{
    told.slots.slot_of(told.alloc, home, function)
}

/// The text of the annotation of a module's function.
fn put_marked(out: &mut Vec<u8>, told: &Told, home: u32, function: u32) -> Result<(), Memory>
    ensures { OnOk result (out.new.items ≡ out.old.items ++ canonical told.now.teller.program.now.interface (unwrap_or (option_and_then (slot_annotation told.now.teller.program.now.interface) (slot_of told.now.teller.program.now.interface (module_of told.now.teller.program.now (Some home)) function)) no_annotation)) }
{
    let slot = slot_in(told, home, function)?;
    match slot {
        Some(slot) => put_slot_annotation(out, told, slot),
        None => Ok(()),
    }
}

/// The text of a function's annotation: an export's, or the slot type's that a function of a module gets.
pub(crate) fn put_function_annotation(out: &mut Vec<u8>, told: &Told, n: u32) -> Result<(), Memory>
    ensures { OnOk result (out.new.items ≡ out.old.items ++ annotation_text told.now.teller.program.now n) }
{
    match told.teller.program.functions.as_slice().get(n as usize) {
        Some(ProgramFunction::Of { module: None, .. }) => put_annotation(
            told.alloc,
            out,
            &told.teller.program.interface,
            exported(told, n),
        ),
        Some(
            ProgramFunction::Of {
                module: Some(home),
                function,
            },
        ) => put_marked(out, told, *home, *function),
        _ => Ok(()),
    }
}
