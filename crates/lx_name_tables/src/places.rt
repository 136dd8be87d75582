//! Maps from names to the places of what stands first under them. They are filled from the last to the first, so that
//! of equal names the first stays.
ghost use Rattle.std.specs.Prelude.{◌≡◌, ℕ, Some, List, cond, position, IfOk, IfSome, OnOk};
ghost use Rattle.lx_name_tables.specs.Places.{at_name, HasNames};

use crate::named::Named;
use indexmap::IndexMap;
use lx_words::Memory;
use std::alloc::Global;

/// Puts a thing at its name, if it answers to one.
fn put<'a, T: Named>(
    places: &mut IndexMap<&'a [u8], usize>,
    thing: &'a T,
    place: usize,
) -> Result<(), Memory>
    ensures { OnOk result ((name : List ℕ) → at_name places.new.entries name ≡ cond (T.answers name thing.now) (Some place) (at_name places.old.entries name)) }
{
    match thing.known_as() {
        Some(name) => {
            places.insert(name, place)?;
            Ok(())
        }
        None => Ok(()),
    }
}

/// The places of things, by the names that they answer to.
fn filled<'a, T: Named>(alloc: Global, things: &'a [T]) -> Result<IndexMap<&'a [u8], usize>, Memory>
    ensures { IfOk result (λ places. HasNames T.answers things.now places.entries) }
{
    let mut places = IndexMap::new(alloc);
    let mut left = things.len();
    while left > 0 {
        left -= 1;
        put(&mut places, &things[left], left)?;
    }
    Ok(places)
}

/// The places of things, by the names that they answer to; none, where there is no memory for them.
pub(crate) fn places_of<'a, T: Named>(
    alloc: Global,
    things: &'a [T],
) -> Option<IndexMap<&'a [u8], usize>>
    ensures { IfSome result (λ places. HasNames T.answers things.now places.entries) }
{
    match filled(alloc, things) {
        Ok(places) => Some(places),
        Err(_) => None,
    }
}

/// The place of the first thing that answers to a name. Without a map the things are searched.
pub(crate) fn place_of<T: Named>(
    things: &[T],
    places: &Option<IndexMap<&[u8], usize>>,
    name: &[u8],
) -> Option<usize>
    requires { IfSome places.now (λ places. HasNames T.answers things.now places.entries) }
    ensures { result ≡ position (T.answers name.now) things.now }
{
    match places {
        Some(places) => places.get(name).copied(),
        None => things.iter().position(|thing| thing.is_known_as(name)),
    }
}
