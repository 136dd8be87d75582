//! What each module can come to hold.
ghost use Rattle.std.specs.Prelude.{◌≡◌, OnOk, []};
ghost use Rattle.lx_surface.specs.Bound.{allows, with_thing};

use crate::Thing;
use crate::pairs::Pairs;
use lx_words::Memory;
use std::alloc::Global;

/// What each module can come to hold: types of references, and functions by their numbers.
#[derive(Drop)]
pub struct Bound {
    pub(crate) references: Pairs,
    pub(crate) functions: Pairs,
}

impl Bound {
    /// Nothing.
    pub(crate) fn new(alloc: Global) -> Self
        ensures references { result.references ≡ [] }
        ensures functions { result.functions ≡ [] }
    {
        Bound {
            references: Pairs::new(alloc),
            functions: Pairs::new(alloc),
        }
    }

    /// Whether the module can come to hold this.
    pub fn has(&self, module: u32, what: Thing) -> bool
        ensures { result ≡ allows self.now «module» what }
    {
        match what {
            Thing::RefType(ty) => self.references.has(module, ty),
            Thing::Function(function) => self.functions.has(module, function),
        }
    }

    /// Puts what a module can come to hold.
    pub(crate) fn put(&mut self, module: u32, what: Thing) -> Result<(), Memory>
        ensures { OnOk result (self.new ≡ with_thing self.old «module» what) }
    {
        match what {
            Thing::RefType(ty) => self.references.put(module, ty),
            Thing::Function(function) => self.functions.put(module, function),
        }
    }
}
