//! The sums of an interface and a module.
ghost use Rattle.std.specs.Prelude.{◌≡◌, ◌++◌, ◌∷◌, [], List, IfOk};
ghost use Rattle.lx_slot_types.specs.Sites.{FieldName, global_fields_at};
ghost use Rattle.lx_slot_sums.specs.Sums.{sum_of};
ghost use Rattle.lx_slot_sums.specs.Within.{HasLawfulTypes};

use crate::field_sums::FieldSums;
use crate::fields::FieldName;
use crate::known::known;
use crate::making::{Spreads, no_spreads, spread_globals};
use crate::spread::sum_at;
use crate::sums::SlotSum;
use lx_annot::interface::Interface;
use lx_ir::module::Module;
use lx_words::Memory;
use std::alloc::Global;
use std::marker::Model;

/// The sums of the fields of an interface and a module: by their names, and by the offsets of globals. Contracts see the interface
/// and the module.
#[derive(Drop)]
pub struct SlotSums<'a> {
    sums: FieldSums<'a>,
    spreads: Spreads,
    globals: Vec<Option<u32>>,
}

impl<'a> Model for SlotSums<'a> {
    ghost use Rattle.lx_slot_sums.specs.Sums.{Typing as Meaning};
    ghost use Rattle.lx_annot.specs.contracts.interface.Interface as interface_row;
    ghost use Rattle.lx_ir.specs.contracts.module.Module as module_row;
    ghost use Rattle.lx_slot_sums.specs.Known.{AreGlobals};
    ghost use Rattle.std.specs.Coded.{codes};

    ghost Value = { Meaning };

    ghost coded = { Prim.hlevel (codes, interface_row.the_row.coded, module_row.the_row.coded) };

    ghost view = { λ s. s.sums };

    ghost invariant = { λ s. AreGlobals s.sums s.spreads.all.items s.globals.items };
}

impl<'a> SlotSums<'a> {
    /// The sums of an interface and a module. Each type that is written in the module is gone over at most once, and each text of an
    /// annotation is made once.
    ///
    /// # Errors
    /// Want of memory for the tables.
    pub fn new(alloc: Global, interface: &'a Interface, module: &'a Module) -> Result<Self, Memory>
        requires { HasLawfulTypes module.now }
        ensures { IfOk result (λ sums. sums ≡ record { interface = interface.now; text = module.now }) }
    {
        let sums = FieldSums::new(alloc, interface, module)?;
        let mut spreads = no_spreads(alloc, &sums)?;
        let globals = spread_globals(&sums, &mut spreads)?;
        Ok(SlotSums {
            sums,
            spreads,
            globals,
        })
    }

    /// The module.
    pub fn module(&self) -> &'a Module
        ensures { result.now ≡ self.now.text }
    {
        self.sums.module()
    }

    /// The sum of no fields.
    pub fn empty(&self) -> SlotSum
        ensures { result ≡ sum_of self.now.interface self.now.text [] }
    {
        self.sums.empty()
    }

    /// The sum of two lists of fields.
    pub fn join(&self, a: SlotSum, b: SlotSum) -> SlotSum
        ensures { (xs ys : List FieldName) → a ≡ sum_of self.now.interface self.now.text xs → b ≡ sum_of self.now.interface self.now.text ys → result ≡ sum_of self.now.interface self.now.text (xs ++ ys) }
    {
        self.sums.join(a, b)
    }

    /// The sum of a field.
    pub fn of_field(&self, field: FieldName) -> SlotSum
        ensures { result ≡ sum_of self.now.interface self.now.text (field ∷ []) }
    {
        self.sums.of_field(field)
    }

    /// The sum of the fields that begin at an offset of a global.
    pub fn of_global(&self, number: u32, offset: u64) -> SlotSum
        ensures { result ≡ sum_of self.now.interface self.now.text (global_fields_at self.now.text number offset) }
    {
        let spread = known(&self.globals, number);
        sum_at(&self.spreads.all, spread, offset)
    }
}
