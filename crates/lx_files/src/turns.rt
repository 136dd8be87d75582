//! The turns of the files.

ghost use Rattle.std.specs.Prelude.{◌≡◌, ◌<◌, ◌++◌, ◌∷◌, [], All, IfOk, IfSome, is_some, length, option_copied};
ghost use Rattle.std.specs.Str.{IsAscii};
ghost use Rattle.lx_files.specs.Inputs.{CaseTurn, ImageFileTurn, ImageTurn, InterfaceFileTurn, InterfaceTurn, KernelTurn, ModuleTurn, ModulesTurn, NamedImageTurn, NumberTurn, ScheduleFileTurn, ScheduleTurn, WordTurn, module_named, no_interface};
ghost use Rattle.lx_files.specs.Names.{AreNamed, IsNamed, NamesAreText};
ghost use Rattle.lx_ir.specs.Lawful.{IsLawful};
ghost use Rattle.lx_files.specs.Sound.{IsOneOfCase, IsSoundImage, IsSoundModule};
ghost use Rattle.lx_files.specs.Turns.{Took};
ghost use Rattle.lx_annot.specs.Lawful.{IsLawfulInterface};

use crate::file::{file_text, name_text};
use crate::line::FaultKind;
use crate::reading::{
    case_of_text, image_of_text, interface_of_text, module_of_text, schedule_of_text,
};
use crate::sources::ImageFile;
use crate::stop::{InputStop, fault_at};
use lx_annot::interface::Interface;
use lx_generate::{interface_text, kernel_text};
use lx_ir::NamedTypes;
use lx_ir::module::Module;
use lx_outside::Shelf;
use lx_script::{Case, CaseModule, Origin};
use lx_words::{Items, Name, Schedule};
use std::alloc::Global;

/// The file name of what the program brings along.
const BUILTIN: &[u8] = b"builtin";

/// A list of modules.
pub type Modules = Items<Module>;

/// The turn of the case.
pub fn case_turn<S: Shelf>(alloc: Global, shelf: &mut S, name: &str) -> Result<Case, InputStop>
    ensures turn { Took (S.files shelf.old) (S.files shelf.new) (S.faults shelf.old) (S.faults shelf.new) (λ files. CaseTurn files name.now) result }
    ensures named { IfOk result (λ case. NamesAreText case) }
{
    let text = file_text(alloc, shelf, name)?;
    let case = case_of_text(alloc, name.as_bytes(), text.as_slice())?;
    Ok(case)
}

/// The number of the case's module with this name.
fn module_named(case: &Case, word: &[u8]) -> Option<usize>
    ensures number { result ≡ module_named case.now word.now }
    ensures below { IfSome result (λ k. k < length case.now.modules) }
{
    case.modules
        .as_slice()
        .iter()
        .position(|module| module.name.is_same(word))
}

/// The turn of the name of a module; `name` is that of the case.
fn number_turn(alloc: Global, name: &[u8], case: &Case, word: &[u8]) -> Result<usize, InputStop>
    ensures turn { NumberTurn name.now case.now word.now result }
    ensures below { IfOk result (λ k. k < length case.now.modules) }
{
    match module_named(case, word) {
        Some(number) => Ok(number),
        None => {
            let what = Name::from_bytes(alloc, word)?;
            Err(fault_at(alloc, name, FaultKind::Case, 3, 0, what))
        }
    }
}

/// The turn of the module that is named beside the case, where one is; `name` is that of the case.
pub fn word_turn(
    alloc: Global,
    name: &str,
    case: &Case,
    word: Option<&str>,
) -> Result<Option<usize>, InputStop>
    ensures turn { WordTurn name.now case.now (option_copied word.entry) result }
    ensures number { IfOk result (IsOneOfCase case.now) }
    ensures given { IfOk result (λ n. is_some n ≡ is_some (option_copied word.entry)) }
{
    match word {
        None => Ok(None),
        Some(word) => {
            let number = number_turn(alloc, name.as_bytes(), case, word.as_bytes())?;
            Ok(Some(number))
        }
    }
}

/// The turn of a module's file.
fn module_turn<S: Shelf>(alloc: Global, shelf: &mut S, name: &[u8]) -> Result<Module, InputStop>
    requires { IsAscii name.now }
    ensures turn { Took (S.files shelf.old) (S.files shelf.new) (S.faults shelf.old) (S.faults shelf.new) (λ files. ModuleTurn files name.now) result }
    ensures sound { IfOk result IsSoundModule }
{
    let file = name_text(alloc, name)?;
    let text = file_text(alloc, shelf, file.as_str())?;
    let module = module_of_text(alloc, name, text.as_slice())?;
    Ok(module)
}

/// The turn of an interface's file.
fn interface_file_turn<S: Shelf>(
    alloc: Global,
    shelf: &mut S,
    name: &[u8],
) -> Result<Interface, InputStop>
    requires { IsAscii name.now }
    ensures turn { Took (S.files shelf.old) (S.files shelf.new) (S.faults shelf.old) (S.faults shelf.new) (λ files. InterfaceFileTurn files name.now) result }
    ensures lawful { IfOk result IsLawfulInterface }
{
    let file = name_text(alloc, name)?;
    let text = file_text(alloc, shelf, file.as_str())?;
    let interface = interface_of_text(alloc, name, text.as_slice())?;
    Ok(interface)
}

/// The turn of a schedule's file.
fn schedule_file_turn<S: Shelf>(
    alloc: Global,
    shelf: &mut S,
    name: &str,
) -> Result<Schedule, InputStop>
    ensures { Took (S.files shelf.old) (S.files shelf.new) (S.faults shelf.old) (S.faults shelf.new) (λ files. ScheduleFileTurn files name.now) result }
{
    let text = file_text(alloc, shelf, name)?;
    let entries = schedule_of_text(alloc, name.as_bytes(), text.as_slice())?;
    Ok(entries)
}

/// The turn of the kernel.
pub fn kernel_turn<S: Shelf>(
    alloc: Global,
    shelf: &mut S,
    origin: &Origin,
) -> Result<Module, InputStop>
    requires { IsNamed origin.now }
    ensures turn { Took (S.files shelf.old) (S.files shelf.new) (S.faults shelf.old) (S.faults shelf.new) (λ files. KernelTurn files origin.now) result }
    ensures sound { IfOk result IsSoundModule }
{
    match origin {
        Origin::None => Ok(Module {
            types: NamedTypes::empty(alloc),
            globals: Items::new(alloc),
            functions: Items::new(alloc),
        }),
        Origin::Builtin => module_of_text(alloc, BUILTIN, kernel_text().as_bytes()),
        Origin::File(name) => module_turn(alloc, shelf, name.as_slice()),
    }
}

/// The interface that stands for none.
fn no_interface(alloc: Global) -> Interface
    ensures { result ≡ no_interface }
{
    Interface {
        reftypes: Items::new(alloc),
        iterators: Items::new(alloc),
        slots: Items::new(alloc),
        fields: Items::new(alloc),
        exports: Items::new(alloc),
    }
}

/// The turn of the interface.
pub fn interface_turn<S: Shelf>(
    alloc: Global,
    shelf: &mut S,
    origin: &Origin,
) -> Result<Interface, InputStop>
    requires { IsNamed origin.now }
    ensures turn { Took (S.files shelf.old) (S.files shelf.new) (S.faults shelf.old) (S.faults shelf.new) (λ files. InterfaceTurn files origin.now) result }
    ensures lawful { IfOk result IsLawfulInterface }
{
    match origin {
        Origin::None => Ok(no_interface(alloc)),
        Origin::Builtin => interface_of_text(alloc, BUILTIN, interface_text().as_bytes()),
        Origin::File(name) => interface_file_turn(alloc, shelf, name.as_slice()),
    }
}

/// The turns of the modules' files, in the order of the case.
pub fn modules_turn<S: Shelf>(
    alloc: Global,
    shelf: &mut S,
    modules: &[CaseModule],
) -> Result<Modules, InputStop>
    requires { AreNamed modules.now }
    ensures turn { Took (S.files shelf.old) (S.files shelf.new) (S.faults shelf.old) (S.faults shelf.new) (λ files. ModulesTurn files modules.now) result }
    ensures sound { IfOk result (All IsSoundModule) }
    ensures as_many { IfOk result (λ read. length read ≡ length modules.now) }
{
    let mut read = Modules::new(alloc);
    for entry in modules {
        let module = module_turn(alloc, shelf, entry.file.as_slice())?;
        read.push(module)?;
    }
    Ok(read)
}

/// The turn of the schedule, where there is one.
pub fn schedule_turn<S: Shelf>(
    alloc: Global,
    shelf: &mut S,
    name: Option<&str>,
) -> Result<Option<Schedule>, InputStop>
    ensures turn { Took (S.files shelf.old) (S.files shelf.new) (S.faults shelf.old) (S.faults shelf.new) (λ files. ScheduleTurn files (option_copied name.entry)) result }
    ensures given { IfOk result (λ s. is_some s ≡ is_some (option_copied name.entry)) }
{
    match name {
        None => Ok(None),
        Some(name) => {
            let entries = schedule_file_turn(alloc, shelf, name)?;
            Ok(Some(entries))
        }
    }
}

/// The turn of an image's file.
fn image_file_turn<S: Shelf>(alloc: Global, shelf: &mut S, name: &str) -> Result<Module, InputStop>
    ensures turn { Took (S.files shelf.old) (S.files shelf.new) (S.faults shelf.old) (S.faults shelf.new) (λ files. ImageFileTurn files name.now) result }
    ensures lawful { IfOk result IsLawful }
{
    let text = file_text(alloc, shelf, name)?;
    let image = image_of_text(alloc, name.as_bytes(), text.as_slice())?;
    Ok(image)
}

/// The turn of an image's file, whose name is kept.
fn named_image_turn<S: Shelf>(
    alloc: Global,
    shelf: &mut S,
    name: &str,
) -> Result<ImageFile, InputStop>
    ensures turn { Took (S.files shelf.old) (S.files shelf.new) (S.faults shelf.old) (S.faults shelf.new) (λ files. NamedImageTurn files name.now) result }
    ensures lawful { IfOk result (λ x. IsLawful x.text) }
{
    let file = Name::from_bytes(alloc, name.as_bytes())?;
    let text = image_file_turn(alloc, shelf, name)?;
    Ok(ImageFile { file, text })
}

/// The turn of the image, where there is one.
pub fn image_turn<S: Shelf>(
    alloc: Global,
    shelf: &mut S,
    name: Option<&str>,
) -> Result<Option<ImageFile>, InputStop>
    ensures turn { Took (S.files shelf.old) (S.files shelf.new) (S.faults shelf.old) (S.faults shelf.new) (λ files. ImageTurn files (option_copied name.entry)) result }
    ensures sound { IfOk result IsSoundImage }
    ensures given { IfOk result (λ x. is_some x ≡ is_some (option_copied name.entry)) }
{
    match name {
        None => Ok(None),
        Some(name) => {
            let image = named_image_turn(alloc, shelf, name)?;
            Ok(Some(image))
        }
    }
}
