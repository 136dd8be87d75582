//! The canonical texts of what an interface annotates.
ghost use Rattle.std.specs.Prelude.{◌≡◌, [], bytes_eq, map, slice_get, unwrap_or, IfOk};
ghost use Rattle.lx_serve.specs.Texts.{HasTexts, export_text, slot_text, text_at, text_of_source};

use crate::source::Source;
use lx_annot::canonical::canonical;
use lx_annot::interface::{Export, Interface, Slot};
use lx_words::{Memory, Name, Names};
use std::alloc::Global;

/// The canonical texts of the annotations of slot types and of exports, in the order of the interface. They are made before
/// the first call, so that to compare annotations takes no memory.
pub(crate) struct Texts {
    slots: Names,
    exports: Names,
}

impl Drop for Texts {
    fn drop(self) {
        let Texts {
            slots: _,
            exports: _,
        } = self;
    }
}

fn slot_text(alloc: Global, i: &Interface, slot: &Slot) -> Result<Name, Memory>
    ensures { IfOk result (λ text. text ≡ slot_text i.now slot.now) }
{
    let text = canonical(alloc, i, &slot.annotation)?;
    Ok(Name::from_vec(text))
}

fn export_text(alloc: Global, i: &Interface, export: &Export) -> Result<Name, Memory>
    ensures { IfOk result (λ text. text ≡ export_text i.now export.now) }
{
    let text = canonical(alloc, i, &export.annotation)?;
    Ok(Name::from_vec(text))
}

fn slot_texts(alloc: Global, i: &Interface, slots: &[Slot]) -> Result<Names, Memory>
    ensures { IfOk result (λ texts. texts ≡ map (slot_text i.now) slots.now) }
{
    let mut texts = Names::new(alloc);
    for slot in slots {
        texts.push(slot_text(alloc, i, slot)?)?;
    }
    Ok(texts)
}

fn export_texts(alloc: Global, i: &Interface, exports: &[Export]) -> Result<Names, Memory>
    ensures { IfOk result (λ texts. texts ≡ map (export_text i.now) exports.now) }
{
    let mut texts = Names::new(alloc);
    for export in exports {
        texts.push(export_text(alloc, i, export)?)?;
    }
    Ok(texts)
}

/// The text with this number; past the last there is none.
fn text_at(texts: &Names, k: u32) -> &[u8]
    ensures { result.now ≡ text_at texts.now k }
{
    match texts.items.get(k as usize) {
        Some(text) => text.as_slice(),
        None => b"",
    }
}

fn is_same(a: &[u8], b: &[u8]) -> bool
    ensures { result ≡ bytes_eq a.now b.now }
{
    a == b
}

impl Texts {
    /// The texts of an interface.
    pub(crate) fn new(alloc: Global, i: &Interface) -> Result<Self, Memory>
        ensures { IfOk result (λ texts. HasTexts i.now texts) }
    {
        let slots = slot_texts(alloc, i, i.slots.as_slice())?;
        let exports = export_texts(alloc, i, i.exports.as_slice())?;
        Ok(Texts { slots, exports })
    }

    /// The text of the annotation that stands there; none is the empty one.
    fn of_source(&self, source: Option<Source>) -> &[u8]
        ensures { result.now ≡ text_of_source self.now source }
    {
        match source {
            Some(Source::Slot(slot)) => text_at(&self.slots, slot),
            Some(Source::Export(export)) => text_at(&self.exports, export),
            None => b"",
        }
    }

    /// Whether the annotation that stands there is that of a slot type.
    pub(crate) fn is_of_slot(&self, ty: u32, source: Option<Source>) -> bool
        ensures { result ≡ bytes_eq (text_at self.now.slots ty) (text_of_source self.now source) }
    {
        is_same(text_at(&self.slots, ty), self.of_source(source))
    }
}
