//! The bound while it is made.
ghost use Rattle.std.specs.Prelude.{◌≡◌, OnOk};
ghost use Rattle.lx_surface.specs.Work.{IsEmpty, given, given_from};

use crate::Thing;
use crate::limits::Bound;
use crate::marks::Marks;
use crate::waits::Waits;
use lx_words::Memory;
use std::alloc::Global;

/// The bound while it is made, with who waits for what, and what was given whole.
#[derive(Drop)]
pub(crate) struct Work {
    pub(crate) bound: Bound,
    pub(crate) waits: Waits,
    pub(crate) marks: Marks,
}

impl Work {
    /// Nothing is held yet.
    pub(crate) fn new(alloc: Global) -> Self
        ensures { IsEmpty result }
    {
        Work {
            bound: Bound::new(alloc),
            waits: Waits::new(alloc),
            marks: Marks::new(alloc),
        }
    }

    /// The bound that was made.
    pub(crate) fn into_bound(self) -> Bound
        ensures { result ≡ self.bound }
    {
        self.bound
    }

    /// Gives a module a thing that comes from nobody of whom it is asked, or from a module, as soon as that one can hold it.
    pub(crate) fn give(&mut self, to: u32, from: Option<u32>, what: Thing) -> Result<(), Memory>
        ensures { OnOk result (self.new ≡ given self.old to from what) }
    {
        match from {
            None => self.bound.put(to, what),
            Some(holder) => self.give_from(to, holder, what),
        }
    }

    fn give_from(&mut self, to: u32, holder: u32, what: Thing) -> Result<(), Memory>
        ensures { OnOk result (self.new ≡ given_from self.old to holder what) }
    {
        if self.bound.has(holder, what) {
            self.bound.put(to, what)?;
        }
        self.waits.put(to, holder, what)
    }
}
