//! What the commands on images answer.
ghost use Rattle.std.specs.Prelude.{◌≡◌, ◌⊎◌, ◌++◌, List, ℕ, IfOk, None, codes, is_some, true};
ghost use Rattle.lx_ir.specs.Lawful.{IsPlain};
ghost use Rattle.lx_ir.specs.Verified.{IsVerified};
ghost use Rattle.lx_propagate.specs.Slots.{annotated_of, conflict_of};
ghost use Rattle.lx_image_marks.specs.Told.{told};
ghost use Rattle.lx_input.specs.Files.FaultLine.{FaultLine};
ghost use Rattle.lx_input.specs.Laws.{IsReady};
ghost use Rattle.lx_cli.specs.Answer.{IsAccepted, IsImageOf, IsImageText, IsRefusedBy, image_line, place_what};
ghost use Rattle.lx_cli.specs.Told.{Judges};

use crate::answer::Answer;
use lx_annot::interface::Interface;
use lx_image_check::first_fault;
use lx_image_marks::ImageFault;
use lx_image_texts::image_laws;
use lx_input::{FaultKind, FaultLine, ImageFile, Input};
use lx_instrument::instrument_module;
use lx_ir::module::Module;
use lx_ir::print;
use lx_slot_types::Annotated;
use lx_words::{Memory, Name, put_decimal};
use std::alloc::Global;

/// The text of a module's image.
fn image_text(
    alloc: Global,
    i: &Interface,
    module: &Module,
    annotated: &Annotated,
) -> Result<Answer, Memory>
    requires verified { IsVerified module.now }
    requires plain { IsPlain module.now }
    requires annotated { annotated.now ≡ annotated_of i.now module.now }
    requires agrees { conflict_of i.now module.now ≡ None }
    ensures { IfOk result (λ a. (text : List ℕ) × (a ≡ Answer.Text text) × IsImageOf i.now module.now text) }
{
    let image = instrument_module(alloc, i, module, annotated)?;
    let text = print(alloc, image.module())?;
    Ok(Answer::Text(Name::from_vec(text)))
}

/// The image of the module that is named.
pub(crate) fn instrument_input(alloc: Global, input: &Input) -> Result<Answer, Memory>
    requires ready { IsReady input.now }
    requires number { is_some input.now.besides.number ≡ true }
    ensures { IfOk result (λ a. (text : List ℕ) × (a ≡ Answer.Text text) × IsImageText input.now text) }
{
    let number = input.besides.number.unwrap();
    let program = &input.program;
    let module = &program.modules.as_slice()[number];
    image_text(
        alloc,
        &program.interface,
        &module.module,
        &input.annotated.as_slice()[number],
    )
}

/// `@FUNCTION PLACE`.
#[tactic(auto, unfolding(crate::specs::Answer::place_what))]
fn place_what(alloc: Global, function: &[u8], place: u32) -> Result<Name, Memory>
    ensures { IfOk result (λ what. what ≡ place_what function.now place) }
{
    let mut what = Vec::from_slice(alloc, b"@")?;
    what.extend_from_slice(function)?;
    what.extend_from_slice(b" ")?;
    put_decimal(&mut what, i128::from(place))?;
    Ok(Name::from_vec(what))
}

/// The line about a fault of an image in this file.
fn image_line(alloc: Global, file: &[u8], fault: &ImageFault) -> Result<FaultLine, Memory>
    ensures { IfOk result (λ line. line ≡ image_line file.now (told fault.now)) }
{
    let what = place_what(alloc, fault.function.as_slice(), fault.place)?;
    Ok(FaultLine {
        file: Name::from_bytes(alloc, file)?,
        line: fault.line,
        kind: FaultKind::Image,
        number: u32::from(fault.kind.number()),
        what,
    })
}

/// Whether some program has the image in a file.
fn judge_image(alloc: Global, i: &Interface, image: &ImageFile) -> Result<Answer, Memory>
    requires { IsVerified image.now.text }
    ensures { IfOk result (Judges i.now image.now) }
{
    image_laws();
    match first_fault(alloc, i, &image.text)? {
        None => Ok(Answer::Accepted),
        Some(fault) => {
            let line = image_line(alloc, image.file.as_slice(), &fault)?;
            Ok(Answer::Refused(line))
        }
    }
}

/// Whether some program has the image that is checked.
pub(crate) fn check_input(alloc: Global, input: &Input) -> Result<Answer, Memory>
    requires ready { IsReady input.now }
    requires image { is_some input.now.besides.image ≡ true }
    ensures { IfOk result (λ a. ((a ≡ Answer.Accepted) × IsAccepted input.now) ⊎ ((line : FaultLine) × (a ≡ Answer.Refused line) × IsRefusedBy input.now line)) }
{
    let image = input.besides.image.as_ref().unwrap();
    judge_image(alloc, &input.program.interface, image)
}
