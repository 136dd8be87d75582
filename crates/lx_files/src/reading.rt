//! Texts of files, as they are read.

ghost use Rattle.std.specs.Prelude.{◌≡◌, ◌≤◌, length, IfOk};
ghost use Rattle.lx_files.specs.Names.{NamesAreText};
ghost use Rattle.lx_ir.specs.Lawful.{IsLawful};
ghost use Rattle.lx_files.specs.Inputs.{ReadsCase, ReadsImage, ReadsInterface, ReadsModule, ReadsSchedule};
ghost use Rattle.lx_files.specs.Sound.{IsSoundModule};
ghost use Rattle.lx_files.specs.Turns.{Reads, Tells, most_bytes};
ghost use Rattle.lx_files.specs.Faults.{interface_line};
ghost use Rattle.lx_annot_laws.specs.Statements.{IsInterface};
ghost use Rattle.lx_annot_laws.specs.FaultOfText.{IsFirstInterfaceFault, IsFirstPrototypeFault};
ghost use Rattle.lx_annot_laws.specs.Declarations.{ArePrototypes};
ghost use Rattle.lx_annot.specs.Lawful.{IsLawfulInterface};

use crate::line::FaultKind;
use crate::stop::{InputStop, interface_stop, module_stop, script_stop};
use lx_annot::interface::Interface;
use lx_annot_laws::{
    first_interface_fault_laws, interface_laws, lawful_laws, lawful_prototype_laws, prototype_laws,
};
use lx_annot_read::read_interface;
use lx_cproto::{is_cproto, read_cproto};
use lx_ir::module::Module;
use lx_ir_complete::first_fault_laws;
use lx_ir_lawful::whole_laws;
use lx_ir_read::{TextForm, module_laws, read_module};
use lx_script::{Case, read_case, read_schedule};
use lx_words::Schedule;
use std::alloc::Global;

/// The case that the text of a file says.
#[tactic(auto, using(crate::proofs::Told::case_told, crate::proofs::CaseNames::names_are_text))]
pub fn case_of_text(alloc: Global, file: &[u8], text: &[u8]) -> Result<Case, InputStop>
    requires { length text.now ≤ most_bytes }
    ensures reads { ReadsCase file.now text.now result }
    ensures named { IfOk result (λ case. NamesAreText case) }
{
    match read_case(alloc, text) {
        Ok(case) => Ok(case),
        Err(fault) => Err(script_stop(alloc, FaultKind::Case, file, fault)),
    }
}

/// The module that the text of a file is.
pub fn module_of_text(alloc: Global, file: &[u8], text: &[u8]) -> Result<Module, InputStop>
    requires { length text.now ≤ most_bytes }
    ensures reads { ReadsModule file.now text.now result }
    ensures sound { IfOk result IsSoundModule }
{
    whole_laws();
    module_laws();
    first_fault_laws();
    match read_module(alloc, TextForm::Program, text) {
        Ok(module) => Ok(module),
        Err(fault) => Err(module_stop(alloc, file, fault)),
    }
}

/// The image that the text of a file is.
pub fn image_of_text(alloc: Global, file: &[u8], text: &[u8]) -> Result<Module, InputStop>
    requires { length text.now ≤ most_bytes }
    ensures reads { ReadsImage file.now text.now result }
    ensures lawful { IfOk result IsLawful }
{
    whole_laws();
    module_laws();
    first_fault_laws();
    match read_module(alloc, TextForm::Image, text) {
        Ok(image) => Ok(image),
        Err(fault) => Err(module_stop(alloc, file, fault)),
    }
}

/// The interface that the text of a file is in statements.
fn statements_of_text(alloc: Global, file: &[u8], text: &[u8]) -> Result<Interface, InputStop>
    requires { length text.now ≤ most_bytes }
    ensures reads { Reads IsInterface (Tells IsFirstInterfaceFault (interface_line FaultKind.Interface file.now)) text.now result }
    ensures lawful { IfOk result IsLawfulInterface }
{
    lawful_laws();
    interface_laws();
    first_interface_fault_laws();
    match read_interface(alloc, text) {
        Ok(interface) => Ok(interface),
        Err(fault) => Err(interface_stop(alloc, FaultKind::Interface, file, fault)),
    }
}

/// The interface that the text of a file is in prototypes.
fn prototypes_of_text(alloc: Global, file: &[u8], text: &[u8]) -> Result<Interface, InputStop>
    requires { length text.now ≤ most_bytes }
    ensures reads { Reads ArePrototypes (Tells IsFirstPrototypeFault (interface_line FaultKind.Cproto file.now)) text.now result }
    ensures lawful { IfOk result IsLawfulInterface }
{
    lawful_prototype_laws();
    prototype_laws();
    first_interface_fault_laws();
    match read_cproto(alloc, text) {
        Ok(interface) => Ok(interface),
        Err(fault) => Err(interface_stop(alloc, FaultKind::Cproto, file, fault)),
    }
}

/// The interface that the text of a file is, in the dialect that its first line tells.
pub fn interface_of_text(alloc: Global, file: &[u8], text: &[u8]) -> Result<Interface, InputStop>
    requires { length text.now ≤ most_bytes }
    ensures reads { ReadsInterface file.now text.now result }
    ensures lawful { IfOk result IsLawfulInterface }
{
    if is_cproto(text) {
        prototypes_of_text(alloc, file, text)
    } else {
        statements_of_text(alloc, file, text)
    }
}

/// The entries that the text of a file says as a schedule.
#[tactic(auto, using(crate::proofs::Told::schedule_told))]
pub fn schedule_of_text(alloc: Global, file: &[u8], text: &[u8]) -> Result<Schedule, InputStop>
    requires { length text.now ≤ most_bytes }
    ensures { ReadsSchedule file.now text.now result }
{
    match read_schedule(alloc, text) {
        Ok(entries) => Ok(entries),
        Err(fault) => Err(script_stop(alloc, FaultKind::Schedule, file, fault)),
    }
}
