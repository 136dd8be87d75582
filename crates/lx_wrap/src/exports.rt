//! The annotations that functions have by an interface.
ghost use Rattle.std.specs.Prelude.{◌≡◌, ℕ, Some, List, cond, option_copied, option_map, slice_get, OnOk, IfOk};
ghost use Rattle.lx_wrap.specs.Exported.{HasPlaces, at_name, exported, is_named, of_slot};

use indexmap::IndexMap;
use lx_annot::action::Annotation;
use lx_annot::interface::{Export, Interface};
use lx_ir::module::Function;
use lx_words::Memory;
use std::alloc::Global;

// Puts an export at its name.
fn put_export<'a>(
    places: &mut IndexMap<&'a [u8], usize>,
    export: &'a Export,
    place: usize,
) -> Result<(), Memory>
    ensures { OnOk result ((name : List ℕ) → at_name places.new.entries name ≡ cond (is_named name export.now) (Some place) (at_name places.old.entries name)) }
{
    places.insert(export.name.as_slice(), place)?;
    Ok(())
}

/// The places of the first exports of names. It is filled from the last to the first, so that of equal names the first stays.
pub(crate) fn export_places<'a>(
    alloc: Global,
    exports: &'a [Export],
) -> Result<IndexMap<&'a [u8], usize>, Memory>
    ensures { IfOk result (λ places. HasPlaces exports.now places.entries) }
{
    let mut places = IndexMap::new(alloc);
    let mut left = exports.len();
    while left > 0 {
        left -= 1;
        put_export(&mut places, &exports[left], left)?;
    }
    Ok(places)
}

fn annotation_at(i: &Interface, place: usize) -> Option<&Annotation>
    ensures { option_copied result ≡ option_map (λ e. e.annotation) (slice_get i.now.exports place) }
{
    match i.exports.items.get(place) {
        Some(export) => Some(&export.annotation),
        None => None,
    }
}

fn place_of(places: &IndexMap<&[u8], usize>, name: &[u8]) -> Option<usize>
    ensures { result ≡ at_name places.now.entries name.now }
{
    places.get(name).copied()
}

/// The annotation of the first export of a function's name.
pub(crate) fn exported<'a>(
    i: &'a Interface,
    places: &IndexMap<&[u8], usize>,
    f: &Function,
) -> Option<&'a Annotation>
    requires { HasPlaces i.now.exports places.now.entries }
    ensures { option_copied result ≡ exported i.now f.now.name }
{
    match place_of(places, f.name.as_slice()) {
        Some(place) => annotation_at(i, place),
        None => None,
    }
}

/// The annotation of the slot type with this number.
pub(crate) fn of_slot(i: &Interface, slot: u32) -> Option<&Annotation>
    ensures { option_copied result ≡ of_slot i.now slot }
{
    match i.slots.items.get(slot as usize) {
        Some(slot) => Some(&slot.annotation),
        None => None,
    }
}
