//! The fields that are typed so far.

ghost use Rattle.std.specs.Prelude.{◌≡◌, [], ◌∷◌, ◌++◌, false, OnErr, OnOk};
ghost use Rattle.std.specs.List.{list_any};
ghost use Rattle.lx_annot_read.specs.Typed.{is_place};

use indexmap::IndexSet;
use lx_words::Memory;
use std::alloc::Global;
use std::marker::Model;

/// The fields that have a slot type: each once, by the name of its struct and its number there.
#[derive(Drop)]
pub struct TypedFields<'a> {
    places: IndexSet<(&'a [u8], u32)>,
}

impl<'a> Model for TypedFields<'a> {
    ghost use Rattle.std.specs.Prelude.{ℕ, List, map};

    ghost Value = { List (List ℕ × ℕ) };

    ghost view = { λ t. map (λ place. (place.0.now, place.1)) t.places.keys };
}

impl<'a> TypedFields<'a> {
    /// No field, in a set that keeps `alloc` for those that it is given later.
    pub fn new(alloc: Global) -> Self
        ensures { result ≡ [] }
    {
        TypedFields {
            places: IndexSet::new(alloc),
        }
    }

    /// Whether the field of this number of a struct is among them.
    pub fn has(&self, name: &'a [u8], index: u32) -> bool
        ensures { result ≡ list_any (is_place name.now index) self.now }
    {
        self.places.contains(&(name, index))
    }

    /// Adds a field that is not among them. Without memory for it they stay.
    pub fn add(&mut self, name: &'a [u8], index: u32) -> Result<(), Memory>
        requires absent { list_any (is_place name.now index) self.old ≡ false }
        ensures ok { OnOk result (self.new ≡ self.old ++ (name.now, index) ∷ []) }
        ensures err { OnErr result (self.new ≡ self.old) }
    {
        self.places.insert((name, index))?;
        Ok(())
    }
}
