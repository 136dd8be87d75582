//! The input of a command.

ghost use Rattle.std.specs.Prelude.{◌≡◌, IfOk, List, Some};
ghost use Rattle.lx_outside.specs.declared.file_text.FileText.{FileText};
ghost use Rattle.lx_files.specs.Asked.{AreThere, asked_by};
ghost use Rattle.lx_files.specs.Turns.{HasNoted};
ghost use Rattle.lx_input.specs.Inputs.{InputTurn};
ghost use Rattle.lx_input.specs.Laws.{IsReady, MissingFilesEnd, OneInput};

use crate::linked::check_sources;
use lx_files::{Asked, Besides, InputStop, read_sources};
use lx_model::program::{Calls, Program};
use lx_outside::Shelf;
use lx_slot_types::Annotated;
use lx_words::Items;
use std::alloc::Global;

/// A linked program, the calls of each thread, for each module the functions that have a slot type, and what was asked for
/// besides the case.
#[derive(Drop)]
pub struct Input {
    pub program: Program,
    pub script: Items<Calls>,
    pub annotated: Items<Annotated>,
    pub besides: Besides,
}

/// Reads the case of this name and the files that it names, and the schedule and the image, where they are asked for. Then the
/// kernel and each module is verified, slot types are handed on in each module, all is linked, and the image is verified.
///
/// # Errors
/// The first file that the shelf does not give is `Unread`. `Fault` is the first fault: of the files in their order, then of
/// what the verifier finds in the kernel and in each module, then of functions that get two slot types, then of what does
/// not link, then of what the verifier finds in the image. What comes first ends the input. `Memory` where there is not enough memory; then the shelf has no new fault.
pub fn read_input<S: Shelf>(
    alloc: Global,
    shelf: &mut S,
    case: &str,
    asked: Asked<'_>,
) -> Result<Input, InputStop>
    ensures told { (files : List FileText) → S.files shelf.old ≡ Some files → InputTurn files case.now (asked_by asked.entry) result }
    ensures files { S.files shelf.new ≡ S.files shelf.old }
    ensures noted { HasNoted (S.faults shelf.old) (S.faults shelf.new) result }
    ensures ready { IfOk result IsReady }
    ensures there { IfOk result (λ i. AreThere (asked_by asked.entry) i.besides) }
{
    let sources = read_sources(alloc, shelf, case, asked)?;
    let input = check_sources(alloc, case.as_bytes(), sources)?;
    Ok(input)
}

/// What the files of a command come to is settled: they are one input at most or have one first fault, and not both; and
/// neither behind a file that is asked for and not there.
pub fn input_laws()
    ensures one { OneInput }
    ensures missing { MissingFilesEnd }
{
    lx_files::file_laws();
    lx_ir_verify::verifier_laws();
}
