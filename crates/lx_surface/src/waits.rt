//! What modules are given as soon as another one can hold it.
ghost use Rattle.std.specs.Prelude.{◌≡◌, [], OnOk, slice_get};
ghost use Rattle.lx_surface.specs.Waits.{has_number, has_triple, waits, with_number, with_triple, with_wait};

use crate::Thing;
use indexmap::IndexSet;
use lx_words::Memory;
use std::alloc::Global;
use std::marker::Model;

/// Triples of a module, the module that it waits for, and a number of a type or of a function, each once.
#[derive(Drop)]
pub(crate) struct Triples {
    triples: IndexSet<(u32, u32, u32)>,
}

impl Model for Triples {
    ghost use Rattle.std.specs.Prelude.{ℕ, List};

    ghost Value = { List (ℕ × ℕ × ℕ) };

    ghost view = { λ t. t.triples.keys };
}

impl Triples {
    fn new(alloc: Global) -> Self
        ensures { result ≡ [] }
    {
        Triples {
            triples: IndexSet::new(alloc),
        }
    }

    fn has(&self, to: u32, from: u32, number: u32) -> bool
        ensures { result ≡ has_triple self.now to from number }
    {
        self.triples.contains(&(to, from, number))
    }

    fn put(&mut self, to: u32, from: u32, number: u32) -> Result<(), Memory>
        ensures { OnOk result (self.new ≡ with_triple self.old to from number) }
    {
        self.triples.insert((to, from, number))?;
        Ok(())
    }
}

/// Modules, each once, in the order in which they came.
#[derive(Drop)]
pub(crate) struct Modules {
    numbers: IndexSet<u32>,
}

impl Model for Modules {
    ghost use Rattle.std.specs.Prelude.{ℕ, List};

    ghost Value = { List ℕ };

    ghost view = { λ m. m.numbers.keys };
}

impl Modules {
    fn new(alloc: Global) -> Self
        ensures { result ≡ [] }
    {
        Modules {
            numbers: IndexSet::new(alloc),
        }
    }

    /// The module that came as this one, from 0 on.
    pub(crate) fn at(&self, place: usize) -> Option<u32>
        ensures { result ≡ slice_get self.now place }
    {
        self.numbers.get_index(place).copied()
    }

    fn put(&mut self, number: u32) -> Result<(), Memory>
        ensures { OnOk result (self.new ≡ with_number self.old number) }
    {
        self.numbers.insert(number)?;
        Ok(())
    }
}

/// What modules are given as soon as another one can hold it, and all modules that wait so.
#[derive(Drop)]
pub(crate) struct Waits {
    references: Triples,
    functions: Triples,
    pub(crate) receivers: Modules,
}

impl Waits {
    /// Nobody waits.
    pub(crate) fn new(alloc: Global) -> Self
        ensures references { result.references ≡ [] }
        ensures functions { result.functions ≡ [] }
        ensures receivers { result.receivers ≡ [] }
    {
        Waits {
            references: Triples::new(alloc),
            functions: Triples::new(alloc),
            receivers: Modules::new(alloc),
        }
    }

    /// Whether the module waits for the other one to hold this.
    pub(crate) fn has(&self, to: u32, from: u32, what: Thing) -> bool
        ensures { result ≡ waits self.now to from what }
    {
        match what {
            Thing::RefType(ty) => self.references.has(to, from, ty),
            Thing::Function(function) => self.functions.has(to, from, function),
        }
    }

    /// Lets the module wait for the other one to hold this.
    pub(crate) fn put(&mut self, to: u32, from: u32, what: Thing) -> Result<(), Memory>
        ensures { OnOk result (self.new ≡ with_wait self.old to from what) }
    {
        self.receivers.put(to)?;
        match what {
            Thing::RefType(ty) => self.references.put(to, from, ty),
            Thing::Function(function) => self.functions.put(to, from, function),
        }
    }
}
