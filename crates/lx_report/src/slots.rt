//! The slot types that functions of a program's modules get.

ghost use Rattle.std.specs.Prelude.{◌≡◌, All, Some, IfOk, IfSome, OnOk, option_copied, unwrap_or};
ghost use Rattle.std.specs.List.{list_any};
ghost use Rattle.lx_ir.specs.Lawful.{IsLawful};
ghost use Rattle.lx_model.specs.declared.program.ProgramModule.{ProgramModule as Entry};
ghost use Rattle.lx_model.specs.Program.{empty_module, module_of};
ghost use Rattle.lx_report.specs.Lawful.{HasLawfulModules};
ghost use Rattle.lx_report.specs.Slots.{AreTypesOf, AddsTypes, tells_annotation};
ghost use Rattle.lx_slot_types.specs.Gets.{slot_of};

use lx_annot::interface::Interface;
use lx_ir::module::Module;
use lx_model::account::CallOutcome;
use lx_model::program::{Program, ProgramModule};
use lx_model::request::{Outcome, Refusal};
use lx_propagate::{SlotTypes, slot_of};
use lx_words::Memory;
use std::alloc::Global;
use std::marker::Model;

/// A program with tables of the slot types that the functions of its modules get; where none will be asked for, with no
/// tables. Contracts see the program.
#[derive(Drop)]
pub(crate) struct ModuleSlots<'a> {
    program: &'a Program,
    tables: Vec<SlotTypes>,
}

impl<'a> Model for ModuleSlots<'a> {
    ghost use Rattle.lx_model.specs.declared.program.Program.{Program as Meaning};
    ghost use Rattle.lx_model.specs.contracts.program.Program as program_row;
    ghost use Rattle.lx_report.specs.Lawful.{HasLawfulModules};
    ghost use Rattle.lx_report.specs.Slots.{AreTypesOf};

    ghost Value = { Meaning };

    ghost coded = { program_row.the_row.coded };

    ghost view = { λ s. s.program.now };

    ghost invariant = { λ s. HasLawfulModules s.program.now × AreTypesOf s.program.now.interface s.program.now.modules s.tables.items };
}

/// Whether the text of a reply has the annotation of a function.
fn tells_annotation(outcome: Outcome) -> bool
    ensures { result ≡ tells_annotation outcome }
{
    matches!(outcome, Outcome::Refused(Refusal::OtherAnnotation { .. }))
}

fn tell_annotations(calls: &[CallOutcome]) -> bool
    ensures { result ≡ list_any (λ c. tells_annotation c.outcome) calls.now }
{
    calls.iter().any(|call| tells_annotation(call.outcome))
}

/// Puts the table of a module behind the others.
#[tactic(auto, using(crate::proofs::Tables::adds_types, crate::proofs::Tables::lawful_types))]
fn add_types(
    alloc: Global,
    tables: &mut Vec<SlotTypes>,
    i: &Interface,
    m: &Module,
) -> Result<(), Memory>
    requires { IsLawful m.now }
    ensures { OnOk result (AddsTypes i.now m.now tables.old.items tables.new.items) }
{
    let types = SlotTypes::new(alloc, i, m)?;
    tables.push(types)?;
    Ok(())
}

/// The tables of all modules.
#[tactic(auto, using(crate::proofs::Tables::lawful_there, crate::proofs::Tables::no_first_types, crate::proofs::Tables::first_types_more, crate::proofs::Tables::all_types))]
fn tables_of(
    alloc: Global,
    i: &Interface,
    modules: &[ProgramModule],
) -> Result<Vec<SlotTypes>, Memory>
    requires { All (λ (m : Entry). IsLawful m.«module») modules.now }
    ensures { IfOk result (λ tables. AreTypesOf i.now modules.now tables.items) }
{
    let mut tables = Vec::new(alloc);
    for module in modules {
        add_types(alloc, &mut tables, i, &module.module)?;
    }
    Ok(tables)
}

/// The tables of all modules, if the report of a call asks for one; else none.
#[tactic(auto, using(crate::proofs::Tables::no_types))]
fn tables_for(
    alloc: Global,
    i: &Interface,
    modules: &[ProgramModule],
    calls: &[CallOutcome],
) -> Result<Vec<SlotTypes>, Memory>
    requires { All (λ (m : Entry). IsLawful m.«module») modules.now }
    ensures { IfOk result (λ tables. AreTypesOf i.now modules.now tables.items) }
{
    if tell_annotations(calls) {
        tables_of(alloc, i, modules)
    } else {
        Ok(Vec::new(alloc))
    }
}

/// A module of a program, if it has one with this number.
#[tactic(auto, using(crate::proofs::Modules::lawful_at))]
fn module_at(p: &Program, home: u32) -> Option<&Module>
    requires { HasLawfulModules p.now }
    ensures text { unwrap_or (option_copied result) empty_module ≡ module_of p.now (Some home) }
    ensures lawful { IfSome result (λ m. IsLawful m.now) }
{
    match p.modules.as_slice().get(home as usize) {
        Some(entry) => Some(&entry.module),
        None => None,
    }
}

/// The first slot type that a function of a module gets, found in the module's text.
#[tactic(auto, using(crate::proofs::Modules::no_slot))]
fn slot_in(alloc: Global, p: &Program, home: u32, function: u32) -> Result<Option<u32>, Memory>
    requires { HasLawfulModules p.now }
    ensures { IfOk result (λ slot. slot ≡ slot_of p.now.interface (module_of p.now (Some home)) function) }
{
    match module_at(p, home) {
        Some(m) => slot_of(alloc, &p.interface, m, function as usize),
        None => Ok(None),
    }
}

/// The first slot type that a function of a module gets: from the module's table, or else from its text.
fn slot_by(
    alloc: Global,
    p: &Program,
    tables: &[SlotTypes],
    home: u32,
    function: u32,
) -> Result<Option<u32>, Memory>
    requires lawful { HasLawfulModules p.now }
    requires tables { AreTypesOf p.now.interface p.now.modules tables.now }
    ensures { IfOk result (λ slot. slot ≡ slot_of p.now.interface (module_of p.now (Some home)) function) }
{
    match tables.get(home as usize) {
        Some(types) => Ok(types.slot_of(function as usize)),
        None => slot_in(alloc, p, home, function),
    }
}

impl<'a> ModuleSlots<'a> {
    /// A program with tables for what the report of calls will ask for. Want of memory is the only error.
    pub(crate) fn new(
        alloc: Global,
        program: &'a Program,
        calls: &[CallOutcome],
    ) -> Result<Self, Memory>
        requires { HasLawfulModules program.now }
        ensures { IfOk result (λ slots. slots ≡ program.now) }
    {
        let tables = tables_for(alloc, &program.interface, program.modules.as_slice(), calls)?;
        Ok(ModuleSlots { program, tables })
    }

    /// The first slot type in interface order that a function of a module gets. Want of memory is the only error.
    pub(crate) fn slot_of(
        &self,
        alloc: Global,
        home: u32,
        function: u32,
    ) -> Result<Option<u32>, Memory>
        ensures { IfOk result (λ slot. slot ≡ slot_of self.now.interface (module_of self.now (Some home)) function) }
    {
        slot_by(alloc, self.program, self.tables.as_slice(), home, function)
    }
}
