//! The slot types of the functions of a module, in a table.

ghost use Rattle.std.specs.Prelude.{◌≡◌, IfOk, OnOk};
ghost use Rattle.lx_annot.specs.declared.interface.Interface.{Interface};
ghost use Rattle.lx_ir.specs.declared.module.Module.{Module};
ghost use Rattle.lx_slot_types.specs.Gets.{slot_of};
ghost use Rattle.lx_slot_types.specs.Sites.{sites_of};
ghost use Rattle.lx_propagate.specs.Tables.{Adds};
ghost use Rattle.lx_propagate.specs.Told.{HasSlotTypes, told_sum};
ghost use Rattle.lx_propagate.specs.Within.{HasLawfulTypes};

use crate::inits::add_globals;
use crate::stores::add_functions;
use crate::table::{Table, sum_at};
use indexmap::IndexMap;
use lx_annot::interface::Interface;
use lx_ir::module::Module;
use lx_slot_sums::{SlotSum, SlotSums};
use lx_words::Memory;
use std::alloc::Global;

/// The slot types that the functions of a module get from an interface, for those who ask for many of them.
#[derive(Drop)]
pub struct SlotTypes {
    sums: Table,
}

/// Adds all sites of a module: those in initialisers, and then those of stores.
#[tactic(auto, using(crate::proofs::Adding::module_added))]
fn add_sites(alloc: Global, table: &mut Table, sums: &SlotSums, m: &Module) -> Result<(), Memory>
    requires { sums.now.text ≡ m.now }
    ensures { OnOk result (Adds sums.now.interface m.now (sites_of m.now) table.old.entries table.new.entries) }
{
    add_globals(table, sums, m.globals.as_slice())?;
    add_functions(alloc, table, sums, m, m.functions.as_slice())?;
    Ok(())
}

impl SlotTypes {
    /// The slot types of the functions of a module, found in one pass over its initialisers and its instructions.
    ///
    /// # Errors
    /// Want of memory.
    #[tactic(auto, using(crate::proofs::Adding::types_made))]
    pub fn new(alloc: Global, i: &Interface, m: &Module) -> Result<SlotTypes, Memory>
        requires { HasLawfulTypes m.now }
        ensures { IfOk result (HasSlotTypes i.now m.now) }
    {
        let sums = SlotSums::new(alloc, i, m)?;
        let mut table = IndexMap::new(alloc);
        add_sites(alloc, &mut table, &sums, m)?;
        Ok(SlotTypes { sums: table })
    }

    /// What the slot types of a function come to.
    pub(crate) fn sum_of(&self, function: usize) -> SlotSum
        ensures { result ≡ told_sum self.now function }
    {
        sum_at(&self.sums, function)
    }

    /// The first slot type in interface order that a function of the module gets, if it gets one.
    #[tactic(auto, using(crate::proofs::Agree::slot_is))]
    pub fn slot_of(&self, function: usize) -> Option<u32>
        ensures { (i : Interface) → (m : Module) → HasSlotTypes i m self.now → result ≡ slot_of i m function }
    {
        self.sum_of(function).first
    }
}
