//! Classes of slot types: those of one class have annotations of the same canonical text, and each text is made once.
ghost use Rattle.std.specs.Prelude.{◌≡◌, ℕ, Some, List, IfOk, OnOk, bytes_eq, cond, map, position};
ghost use Rattle.lx_annot.specs.Canonical.{canonical};
ghost use Rattle.lx_slot_sums.specs.Classes.{HasTexts, IsClassed, at_text, place_or_none};

use indexmap::IndexMap;
use lx_annot::canonical::canonical;
use lx_annot::interface::{Interface, Slot};
use lx_words::{Items, Memory, Name, Names};
use std::alloc::Global;

/// The canonical text of the annotation of a slot type.
fn slot_text(alloc: Global, i: &Interface, slot: &Slot) -> Result<Name, Memory>
    ensures { IfOk result (λ text. text ≡ canonical i.now slot.now.annotation) }
{
    let text = canonical(alloc, i, &slot.annotation)?;
    Ok(Name::from_vec(text))
}

/// The canonical texts of the annotations of slot types.
fn slot_texts(alloc: Global, i: &Interface, slots: &[Slot]) -> Result<Names, Memory>
    ensures { IfOk result (λ texts. texts ≡ map (λ s. canonical i.now s.annotation) slots.now) }
{
    let mut texts = Names::new(alloc);
    for slot in slots {
        texts.push(slot_text(alloc, i, slot)?)?;
    }
    Ok(texts)
}

/// Puts the place of a text at it.
pub(crate) fn put_text<'a>(
    places: &mut IndexMap<&'a [u8], usize>,
    text: &'a Name,
    place: usize,
) -> Result<(), Memory>
    ensures { OnOk result ((bytes : List ℕ) → at_text places.new.entries bytes ≡ cond (bytes_eq text.now bytes) (Some place) (at_text places.old.entries bytes)) }
{
    places.insert(text.as_slice(), place)?;
    Ok(())
}

/// The first place of each text. They are put from the last to the first, so that of equal texts the first stays.
fn first_places<'a>(alloc: Global, texts: &'a [Name]) -> Result<IndexMap<&'a [u8], usize>, Memory>
    ensures { IfOk result (λ places. HasTexts texts.now places.entries) }
{
    let mut places = IndexMap::new(alloc);
    let mut left = texts.len();
    while left > 0 {
        left -= 1;
        put_text(&mut places, &texts[left], left)?;
    }
    Ok(places)
}

/// The first place of a text; 0 for one that is not there.
pub(crate) fn class_of(places: &IndexMap<&[u8], usize>, text: &[u8]) -> usize
    ensures { result ≡ place_or_none (at_text places.now.entries text.now) }
{
    match places.get(text).copied() {
        Some(place) => place,
        None => 0,
    }
}

/// The first place of each text among them all.
fn all_classes(
    alloc: Global,
    places: &IndexMap<&[u8], usize>,
    texts: &[Name],
) -> Result<Items<usize>, Memory>
    ensures { IfOk result (λ classes. classes ≡ map (λ t. place_or_none (at_text places.now.entries t)) texts.now) }
{
    let mut classes = Items::new(alloc);
    for text in texts {
        classes.push(class_of(places, text.as_slice()))?;
    }
    Ok(classes)
}

/// The first place of each text, among those same texts.
fn classes_among(alloc: Global, texts: &[Name]) -> Result<Items<usize>, Memory>
    ensures { IfOk result (λ classes. classes ≡ map (λ t. place_or_none (position (λ u. bytes_eq u t) texts.now)) texts.now) }
{
    let places = first_places(alloc, texts)?;
    let classes = all_classes(alloc, &places, texts)?;
    Ok(classes)
}

/// The classes of an interface's slot types.
pub(crate) fn classes_of(alloc: Global, i: &Interface) -> Result<Items<usize>, Memory>
    ensures { IfOk result (λ classes. IsClassed i.now classes) }
{
    let texts = slot_texts(alloc, i, i.slots.as_slice())?;
    let classes = classes_among(alloc, texts.as_slice())?;
    Ok(classes)
}
