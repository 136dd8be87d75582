//! The names of a text.
ghost use Rattle.std.specs.Prelude.{◌≡◌, find, option_copied, position, slice_get};
ghost use Rattle.lx_name_tables.specs.Places.{defines, is_global};

use crate::places::{place_of, places_of};
use indexmap::IndexMap;
use lx_ir::module::{Function, Module};
use std::alloc::Global;
use std::marker::Model;

/// A text, and where its defined functions and its globals stand by their names. Contracts see the text.
#[derive(Drop)]
pub struct TextNames<'a> {
    text: &'a Module,
    functions: Option<IndexMap<&'a [u8], usize>>,
    globals: Option<IndexMap<&'a [u8], usize>>,
}

impl<'a> Model for TextNames<'a> {
    ghost use Rattle.std.specs.Prelude.{IfSome};
    ghost use Rattle.lx_ir.specs.declared.module.Module.{Module as Meaning};
    ghost use Rattle.lx_ir.specs.contracts.module.Module as module_row;
    ghost use Rattle.lx_name_tables.specs.Places.{HasNames, defines, is_global};

    ghost Value = { Meaning };

    ghost coded = { module_row.the_row.coded };

    ghost view = { λ n. n.text.now };

    ghost invariant = { λ n. IfSome n.functions (λ places. HasNames defines n.text.now.functions places.entries) × IfSome n.globals (λ places. HasNames is_global n.text.now.globals places.entries) };
}

fn function_in(text: &Module, number: usize) -> Option<&Function>
    ensures { option_copied result ≡ slice_get text.now.functions number }
{
    text.functions.items.get(number)
}

impl<'a> TextNames<'a> {
    /// The names of a text.
    pub fn new(alloc: Global, text: &'a Module) -> Self
        ensures { result ≡ text.now }
    {
        TextNames {
            text,
            functions: places_of(alloc, text.functions.as_slice()),
            globals: places_of(alloc, text.globals.as_slice()),
        }
    }

    /// The names of a text without tables, which takes no memory: its lists are searched.
    pub fn without_tables(text: &'a Module) -> Self
        ensures { result ≡ text.now }
    {
        TextNames {
            text,
            functions: None,
            globals: None,
        }
    }

    /// The number of the function of that name that the text defines.
    pub fn defined_place(&self, name: &[u8]) -> Option<usize>
        ensures { result ≡ position (defines name.now) self.now.functions }
    {
        place_of(self.text.functions.as_slice(), &self.functions, name)
    }

    /// The function of that name that the text defines.
    #[tactic(auto, using(lx_words::proofs::Lists::none_found))]
    pub fn defined(&self, name: &[u8]) -> Option<&'a Function>
        ensures { option_copied result ≡ find (defines name.now) self.now.functions }
    {
        match self.defined_place(name) {
            Some(place) => function_in(self.text, place),
            None => None,
        }
    }

    /// The number of the global of that name.
    pub fn global_place(&self, name: &[u8]) -> Option<usize>
        ensures { result ≡ position (is_global name.now) self.now.globals }
    {
        place_of(self.text.globals.as_slice(), &self.globals, name)
    }
}
