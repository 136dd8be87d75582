//! Pairs of a module and a number.
ghost use Rattle.std.specs.Prelude.{◌≡◌, [], OnOk, slice_get};
ghost use Rattle.lx_surface.specs.Pairs.{has_pair, with_pair};

use indexmap::IndexSet;
use lx_words::Memory;
use std::alloc::Global;
use std::marker::Model;

/// Pairs of a module and a number, each once. Contracts see the list of them, in the order in which they came.
#[derive(Drop)]
pub struct Pairs {
    pairs: IndexSet<(u32, u32)>,
}

impl Model for Pairs {
    ghost use Rattle.std.specs.Prelude.{ℕ, List};

    ghost Value = { List (ℕ × ℕ) };

    ghost view = { λ p. p.pairs.keys };
}

impl Pairs {
    /// No pair.
    pub(crate) fn new(alloc: Global) -> Self
        ensures { result ≡ [] }
    {
        Pairs {
            pairs: IndexSet::new(alloc),
        }
    }

    /// Whether the pair is among them.
    pub(crate) fn has(&self, module: u32, number: u32) -> bool
        ensures { result ≡ has_pair self.now «module» number }
    {
        self.pairs.contains(&(module, number))
    }

    /// The pair that came as this one, from 0 on.
    pub(crate) fn at(&self, place: usize) -> Option<(u32, u32)>
        ensures { result ≡ slice_get self.now place }
    {
        self.pairs.get_index(place).copied()
    }

    /// Puts the pair among them.
    pub(crate) fn put(&mut self, module: u32, number: u32) -> Result<(), Memory>
        ensures { OnOk result (self.new ≡ with_pair self.old «module» number) }
    {
        self.pairs.insert((module, number))?;
        Ok(())
    }
}
