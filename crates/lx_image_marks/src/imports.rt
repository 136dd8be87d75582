//! The imports of an image's program, by their names.
ghost use Rattle.std.specs.Prelude.{◌≡◌, ℕ, Some, List, cond, OnOk, IfOk};
ghost use Rattle.lx_image_texts.specs.Erased.{wrapped_number};
ghost use Rattle.lx_image_marks.specs.Named.{HasImports, at_name, imports_as};

use crate::names::{behind, has_out_wrapper};
use indexmap::IndexMap;
use lx_ir::module::{Function, Module};
use lx_words::Memory;
use std::alloc::Global;
use std::marker::Model;

// Puts a function at its name, if it is an import that has a wrapper.
fn put_import<'a>(
    places: &mut IndexMap<&'a [u8], usize>,
    f: &'a Function,
    place: usize,
) -> Result<(), Memory>
    ensures { OnOk result ((name : List ℕ) → at_name places.new.entries name ≡ cond (imports_as name f.now) (Some place) (at_name places.old.entries name)) }
{
    if has_out_wrapper(f) {
        places.insert(f.name.as_slice(), place)?;
        Ok(())
    } else {
        Ok(())
    }
}

// The places of the imports that have wrappers. The map is filled from the last to the first, so that of equal names the first stays.
fn places_of<'a>(
    alloc: Global,
    functions: &'a [Function],
) -> Result<IndexMap<&'a [u8], usize>, Memory>
    ensures { IfOk result (λ places. HasImports functions.now places.entries) }
{
    let mut places = IndexMap::new(alloc);
    let mut left = functions.len();
    while left > 0 {
        left -= 1;
        put_import(&mut places, &functions[left], left)?;
    }
    Ok(places)
}

/// An image, with the places of the imports that its wrappers stand for, so that no name is searched for. Contracts see the image.
#[derive(Drop)]
pub struct Imports<'a> {
    text: &'a Module,
    places: IndexMap<&'a [u8], usize>,
}

impl<'a> Model for Imports<'a> {
    ghost use Rattle.lx_ir.specs.declared.module.Module.{Module as Meaning};
    ghost use Rattle.lx_ir.specs.contracts.module.Module as module_row;
    ghost use Rattle.lx_image_marks.specs.Named.{HasImports};

    ghost Value = { Meaning };

    ghost coded = { module_row.the_row.coded };

    ghost view = { λ i. i.text.now };

    ghost invariant = { λ i. HasImports i.text.now.functions i.places.entries };
}

impl<'a> Imports<'a> {
    /// Those of an image.
    ///
    /// # Errors
    /// Want of memory.
    pub fn new(alloc: Global, text: &'a Module) -> Result<Self, Memory>
        ensures { IfOk result (λ imports. imports ≡ text.now) }
    {
        let places = places_of(alloc, text.functions.as_slice())?;
        Ok(Imports { text, places })
    }

    /// The image.
    pub fn text(&self) -> &'a Module
        ensures { result.now ≡ self.now }
    {
        self.text
    }

    /// The number of the first import whose wrapper has this name.
    pub fn wrapped_number(&self, name: &[u8]) -> Option<usize>
        ensures { result ≡ wrapped_number self.now name.now }
    {
        match behind(b"lxfi.out.", name) {
            Some(import) => self.places.get(import).copied(),
            None => None,
        }
    }
}
