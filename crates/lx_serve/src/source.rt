//! Where annotations stand, and what they say.
ghost use Rattle.std.specs.Prelude.{◌≡◌, option_copied, option_and_then, slice_get};
ghost use Rattle.lx_model.specs.Enter.{same_annotation};
ghost use Rattle.lx_model.specs.Next.{actions_of};
ghost use Rattle.lx_model.specs.Program.{annotation_of, is_annotated, slot_annotation};
ghost use Rattle.lx_model.specs.declared.program.Program.{Program};
ghost use Rattle.lx_serve.specs.Sources.{annotation_at, export_at, Knows, source_of};
ghost use Rattle.lx_serve.specs.Texts.{HasTexts};

use crate::texts::Texts;
use lx_annot::action::{Action, Annotation};
use lx_annot::interface::Interface;
use lx_model::program::Program;

/// Where the annotation of a function stands in the interface.
#[derive(Clone, Copy)]
pub enum Source {
    /// At the slot type with this number.
    Slot(u32),
    /// At the export with this number.
    Export(u32),
}

fn source_of(sources: &[Option<Source>], function: u32) -> Option<Source>
    ensures { result ≡ source_of (slice_get sources.now function) }
{
    match sources.get(function as usize) {
        Some(source) => *source,
        None => None,
    }
}

fn slot_annotation(i: &Interface, slot: u32) -> Option<&Annotation>
    ensures { option_copied result ≡ slot_annotation i.now slot }
{
    match i.slots.items.get(slot as usize) {
        Some(slot) => Some(&slot.annotation),
        None => None,
    }
}

fn export_annotation(i: &Interface, export: u32) -> Option<&Annotation>
    ensures { option_copied result ≡ export_at i.now export }
{
    match i.exports.items.get(export as usize) {
        Some(export) => Some(&export.annotation),
        None => None,
    }
}

/// The annotation that stands in an interface where a source says; none where there is no source.
pub fn annotation_at(i: &Interface, source: Option<Source>) -> Option<&Annotation>
    ensures { option_copied result ≡ option_and_then (annotation_at i.now) source }
{
    match source {
        Some(Source::Slot(slot)) => slot_annotation(i, slot),
        Some(Source::Export(export)) => export_annotation(i, export),
        None => None,
    }
}

/// What a function is annotated with.
pub(crate) fn annotation_of<'a>(
    program: &'a Program,
    sources: &[Option<Source>],
    function: u32,
) -> Option<&'a Annotation>
    ensures { Knows program.now sources.now → option_copied result ≡ annotation_of program.now function }
{
    annotation_at(&program.interface, source_of(sources, function))
}

/// Whether a function is annotated.
pub(crate) fn is_annotated(program: &Program, sources: &[Option<Source>], function: u32) -> bool
    ensures { Knows program.now sources.now → result ≡ is_annotated program.now function }
{
    match annotation_of(program, sources, function) {
        Some(_) => true,
        None => false,
    }
}

/// Whether a function has the annotation of a slot type, by their canonical texts.
#[tactic(auto, using(crate::proofs::Compared::same_told))]
pub(crate) fn has_annotation(
    texts: &Texts,
    sources: &[Option<Source>],
    ty: u32,
    function: u32,
) -> bool
    ensures { (p : Program) → HasTexts p.interface texts.now → Knows p sources.now → result ≡ same_annotation p ty function }
{
    texts.is_of_slot(ty, source_of(sources, function))
}

fn nth(actions: &[Action], index: u32) -> Option<&Action>
    ensures { option_copied result ≡ slice_get actions.now index }
{
    actions.get(index as usize)
}

/// An action of a crossing, by its number.
#[tactic(auto, using(crate::proofs::Annotated::action_behind, crate::proofs::Annotated::action_before, crate::proofs::Annotated::no_action))]
pub(crate) fn action_of<'a>(
    program: &'a Program,
    sources: &[Option<Source>],
    function: u32,
    post: bool,
    index: u32,
) -> Option<&'a Action>
    ensures { Knows program.now sources.now → option_copied result ≡ slice_get (actions_of program.now function post) index }
{
    match annotation_of(program, sources, function) {
        Some(annotation) => {
            if post {
                nth(annotation.post.as_slice(), index)
            } else {
                nth(annotation.pre.as_slice(), index)
            }
        }
        None => None,
    }
}
