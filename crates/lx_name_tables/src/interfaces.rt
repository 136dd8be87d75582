//! The names of an interface.
ghost use Rattle.std.specs.Prelude.{◌≡◌, ◌<◌, ◌++◌, IfSome, bytes_eq, codes, find, length, option_copied, position, slice_get};
ghost use Rattle.std.specs.List.{list_any};
ghost use Rattle.lx_name_tables.specs.Places.{is_export, is_slot};

use crate::behind::behind;
use crate::places::{place_of, places_of};
use indexmap::IndexMap;
use lx_annot::interface::{Interface, Slot};
use std::alloc::Global;
use std::marker::Model;

/// An interface, and where its exports and its slot types stand by their names. Contracts see the interface.
#[derive(Drop)]
pub struct InterfaceNames<'a> {
    interface: &'a Interface,
    exports: Option<IndexMap<&'a [u8], usize>>,
    slots: Option<IndexMap<&'a [u8], usize>>,
}

impl<'a> Model for InterfaceNames<'a> {
    ghost use Rattle.std.specs.Prelude.{IfSome};
    ghost use Rattle.lx_annot.specs.declared.interface.Interface.{Interface as Meaning};
    ghost use Rattle.lx_annot.specs.contracts.interface.Interface as interface_row;
    ghost use Rattle.lx_name_tables.specs.Places.{HasNames, is_export, is_slot};

    ghost Value = { Meaning };

    ghost coded = { interface_row.the_row.coded };

    ghost view = { λ n. n.interface.now };

    ghost invariant = { λ n. IfSome n.exports (λ places. HasNames is_export n.interface.now.exports places.entries) × IfSome n.slots (λ places. HasNames is_slot n.interface.now.slots places.entries) };
}

fn slot_in(interface: &Interface, number: usize) -> Option<&Slot>
    ensures { option_copied result ≡ slice_get interface.now.slots number }
{
    interface.slots.items.get(number)
}

impl<'a> InterfaceNames<'a> {
    /// The names of an interface.
    pub fn new(alloc: Global, interface: &'a Interface) -> Self
        ensures { result ≡ interface.now }
    {
        InterfaceNames {
            interface,
            exports: places_of(alloc, interface.exports.as_slice()),
            slots: places_of(alloc, interface.slots.as_slice()),
        }
    }

    /// The number of the first export of that name.
    #[tactic(auto, using(crate::proofs::Firsts::is_within))]
    pub fn export_place(&self, name: &[u8]) -> Option<usize>
        ensures place { result ≡ position (is_export name.now) self.now.exports }
        ensures within { IfSome result (λ k. k < length self.now.exports) }
    {
        place_of(self.interface.exports.as_slice(), &self.exports, name)
    }

    /// Whether the interface exports a function of that name.
    #[tactic(auto, using(crate::proofs::Firsts::there, crate::proofs::Firsts::not_there))]
    pub fn is_exported(&self, name: &[u8]) -> bool
        ensures { result ≡ list_any (is_export name.now) self.now.exports }
    {
        match self.export_place(name) {
            Some(_) => true,
            None => false,
        }
    }

    /// The number of the first slot type of that name.
    fn slot_place(&self, name: &[u8]) -> Option<usize>
        ensures { result ≡ position (is_slot name.now) self.now.slots }
    {
        place_of(self.interface.slots.as_slice(), &self.slots, name)
    }

    /// The slot type of that name.
    #[tactic(auto, using(lx_words::proofs::Lists::none_found))]
    fn slot_named(&self, name: &[u8]) -> Option<&'a Slot>
        ensures { option_copied result ≡ find (is_slot name.now) self.now.slots }
    {
        match self.slot_place(name) {
            Some(place) => slot_in(self.interface, place),
            None => None,
        }
    }

    /// The slot type through which a function of that name calls, which is `k.slot.` and the slot type's name.
    pub fn slot_called(&self, name: &[u8]) -> Option<&'a Slot>
        ensures { option_copied result ≡ find (λ s. bytes_eq (codes "k.slot." ++ s.name) name.now) self.now.slots }
    {
        match behind(b"k.slot.", name) {
            Some(rest) => self.slot_named(rest),
            None => None,
        }
    }
}
