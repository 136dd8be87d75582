//! All files of a command.

ghost use Rattle.std.specs.Prelude.{◌≡◌, IfOk, List, Some, is_some, option_copied};
ghost use Rattle.lx_outside.specs.declared.file_text.FileText.{FileText};
ghost use Rattle.lx_files.specs.Asked.{AreThere, asked_by};
ghost use Rattle.lx_files.specs.Inputs.{BehindWord, SourcesTurn};
ghost use Rattle.lx_files.specs.Laws.{MissingFilesEnd, OneInput};
ghost use Rattle.lx_files.specs.Names.{NamesAreText};
ghost use Rattle.lx_files.specs.Sound.{AreSound, IsOneOfCase};
ghost use Rattle.lx_files.specs.Turns.{HasNoted, Took};

use crate::stop::InputStop;
use crate::turns::{
    Modules, case_turn, image_turn, interface_turn, kernel_turn, modules_turn, schedule_turn,
    word_turn,
};
use lx_annot::interface::Interface;
use lx_annot_laws::{interface_laws, prototype_laws};
use lx_ir::module::Module;
use lx_ir_complete::{first_fault_laws, module_is_read_laws};
use lx_outside::Shelf;
use lx_script::{Case, one_case, one_schedule};
use lx_words::{Name, Schedule};
use std::alloc::Global;

/// What a command asks for besides its case: a module by its name in the case, a schedule and an image by the names of their
/// files.
#[derive(Clone, Copy)]
pub struct Asked<'a> {
    pub module: Option<&'a str>,
    pub schedule: Option<&'a str>,
    pub image: Option<&'a str>,
}

/// What a file says as an image, and the file's name.
#[derive(Drop)]
pub struct ImageFile {
    pub file: Name,
    pub text: Module,
}

/// What a command asked for besides its case: the number of a module, counted from 0 in the order of the case, a schedule and
/// an image.
#[derive(Drop)]
pub struct Besides {
    pub number: Option<usize>,
    pub schedule: Option<Schedule>,
    pub image: Option<ImageFile>,
}

/// What the files of a command say. The modules stand in the order of the case.
#[derive(Drop)]
pub struct Sources {
    pub case: Case,
    pub kernel: Module,
    pub interface: Interface,
    pub modules: Modules,
    pub besides: Besides,
}

/// Reads what the case names, and the schedule and the image, where they are asked for.
fn read_texts<S: Shelf>(
    alloc: Global,
    shelf: &mut S,
    case: Case,
    number: Option<usize>,
    asked: Asked<'_>,
) -> Result<Sources, InputStop>
    requires named { NamesAreText case }
    requires number { IsOneOfCase case number }
    requires given { is_some number ≡ is_some (option_copied asked.«module») }
    ensures turn { Took (S.files shelf.old) (S.files shelf.new) (S.faults shelf.old) (S.faults shelf.new) (λ files. BehindWord files (asked_by asked.entry) case number) result }
    ensures sound { IfOk result AreSound }
    ensures there { IfOk result (λ s. AreThere (asked_by asked.entry) s.besides) }
{
    let kernel = kernel_turn(alloc, shelf, &case.kernel)?;
    let interface = interface_turn(alloc, shelf, &case.interface)?;
    let modules = modules_turn(alloc, shelf, case.modules.as_slice())?;
    let schedule = schedule_turn(alloc, shelf, asked.schedule)?;
    let image = image_turn(alloc, shelf, asked.image)?;
    let besides = Besides {
        number,
        schedule,
        image,
    };
    Ok(Sources {
        case,
        kernel,
        interface,
        modules,
        besides,
    })
}

/// Reads the case of this name, looks for the module that is named beside it, and reads the kernel, the interface and the
/// modules that the case names, and at last the schedule and the image, where they are asked for.
///
/// # Errors
/// The first file that the shelf does not give is `Unread`, and the first fault of a file, that it has more than 1,048,576
/// bytes, or that the case lacks the module, is `Fault`; what comes first ends the input. `Memory` where there is not enough
/// memory; then the shelf has no new fault.
pub fn read_sources<S: Shelf>(
    alloc: Global,
    shelf: &mut S,
    name: &str,
    asked: Asked<'_>,
) -> Result<Sources, InputStop>
    ensures told { (files : List FileText) → S.files shelf.old ≡ Some files → SourcesTurn files name.now (asked_by asked.entry) result }
    ensures files { S.files shelf.new ≡ S.files shelf.old }
    ensures noted { HasNoted (S.faults shelf.old) (S.faults shelf.new) result }
    ensures sound { IfOk result AreSound }
    ensures there { IfOk result (λ s. AreThere (asked_by asked.entry) s.besides) }
{
    let case = case_turn(alloc, shelf, name)?;
    let number = word_turn(alloc, name, &case, asked.module)?;
    read_texts(alloc, shelf, case, number, asked)
}

/// What the files of a command come to is settled: they say one thing at most or have one first fault, and not both; and
/// neither behind a file that is asked for and not there.
pub fn file_laws()
    ensures one { OneInput }
    ensures missing { MissingFilesEnd }
{
    one_case();
    one_schedule();
    module_is_read_laws();
    first_fault_laws();
    interface_laws();
    prototype_laws();
}
