//! The sums of fields by their names, of an interface and a module.
ghost use Rattle.std.specs.Prelude.{◌≡◌, ◌++◌, ◌∷◌, [], List, IfOk};
ghost use Rattle.lx_slot_types.specs.Sites.{FieldName};
ghost use Rattle.lx_slot_sums.specs.Sums.{sum_of};
ghost use Rattle.lx_slot_sums.specs.Within.{HasLawfulTypes};

use crate::classes::classes_of;
use crate::fields::FieldName;
use crate::known::name_number;
use crate::sums::{SlotSum, join, no_sum};
use crate::typed::{Key, name_numbers, sum_at, type_numbers, typed_sums};
use indexmap::IndexMap;
use lx_annot::interface::Interface;
use lx_ir::module::Module;
use lx_words::{Items, Memory};
use std::alloc::Global;
use std::marker::Model;

/// The sums of the fields that an interface types, by the classes of its slot types, and the numbers of the names of a module's types.
/// Contracts see the interface and the module.
#[derive(Drop)]
pub(crate) struct FieldSums<'a> {
    interface: &'a Interface,
    module: &'a Module,
    classes: Items<usize>,
    typed: IndexMap<Key, SlotSum>,
    names: Items<Option<usize>>,
}

impl<'a> Model for FieldSums<'a> {
    ghost use Rattle.lx_slot_sums.specs.Sums.{Typing as Meaning};
    ghost use Rattle.lx_annot.specs.contracts.interface.Interface as interface_row;
    ghost use Rattle.lx_ir.specs.contracts.module.Module as module_row;
    ghost use Rattle.lx_slot_sums.specs.Known.{IsSummed};
    ghost use Rattle.std.specs.Coded.{codes};

    ghost Value = { Meaning };

    ghost coded = { Prim.hlevel (codes, interface_row.the_row.coded, module_row.the_row.coded) };

    ghost view = { λ s. record { interface = s.interface.now; text = s.«module».now } };

    ghost invariant = { λ s. IsSummed s.interface.now s.«module».now s.classes s.typed.entries s.names };
}

impl<'a> FieldSums<'a> {
    /// The sums of the fields that an interface types in a module. Each text of an annotation is made once, and each name
    /// of a type looked up once.
    pub fn new(alloc: Global, interface: &'a Interface, module: &'a Module) -> Result<Self, Memory>
        requires { HasLawfulTypes module.now }
        ensures { IfOk result (λ sums. sums ≡ record { interface = interface.now; text = module.now }) }
    {
        let classes = classes_of(alloc, interface)?;
        let numbers = name_numbers(alloc, interface.fields.as_slice())?;
        let typed = typed_sums(alloc, interface, classes.as_slice(), &numbers)?;
        let names = type_numbers(alloc, interface, &numbers, module)?;
        Ok(FieldSums {
            interface,
            module,
            classes,
            typed,
            names,
        })
    }

    /// The module.
    pub fn module(&self) -> &'a Module
        ensures { result.now ≡ self.now.text }
    {
        self.module
    }

    /// The module's types are within the limits.
    pub fn lawful(&self)
        ensures { HasLawfulTypes self.now.text }
    {
        let _ = &self.module;
    }

    /// The sum of no fields.
    #[tactic(auto, using(crate::proofs::Joining::no_list))]
    pub fn empty(&self) -> SlotSum
        ensures { result ≡ sum_of self.now.interface self.now.text [] }
    {
        no_sum()
    }

    /// The sum of two lists of fields.
    pub fn join(&self, a: SlotSum, b: SlotSum) -> SlotSum
        ensures { (xs ys : List FieldName) → a ≡ sum_of self.now.interface self.now.text xs → b ≡ sum_of self.now.interface self.now.text ys → result ≡ sum_of self.now.interface self.now.text (xs ++ ys) }
    {
        join(self.classes.as_slice(), a, b)
    }

    /// The sum of a field. Its struct's name is not gone over.
    pub fn of_field(&self, field: FieldName) -> SlotSum
        ensures { result ≡ sum_of self.now.interface self.now.text (field ∷ []) }
    {
        match name_number(self.names.as_slice(), field.struct_number) {
            Some(name) => sum_at(&self.typed, name, field.index),
            None => no_sum(),
        }
    }
}
