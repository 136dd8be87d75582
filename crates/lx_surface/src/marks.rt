//! What was given whole.
ghost use Rattle.std.specs.Prelude.{◌≡◌, [], OnOk};
ghost use Rattle.lx_surface.specs.Marks.{has_mark, with_mark};

use indexmap::IndexSet;
use lx_words::Memory;
use std::alloc::Global;
use std::marker::Model;

/// Which modules were given all that an iterator names, or every defined function, and from whom. Without it, each function that
/// names a long list would have the list gone over again.
#[derive(Drop)]
pub(crate) struct Marks {
    marks: IndexSet<(u32, Option<u32>, Option<u32>)>,
}

impl Model for Marks {
    ghost use Rattle.std.specs.Prelude.{ℕ, List, Option};

    ghost Value = { List (ℕ × Option ℕ × Option ℕ) };

    ghost view = { λ m. m.marks.keys };
}

impl Marks {
    /// No mark.
    pub(crate) fn new(alloc: Global) -> Self
        ensures { result ≡ [] }
    {
        Marks {
            marks: IndexSet::new(alloc),
        }
    }

    /// Whether the module was given all of the list from there. The list is an iterator, or, where it is none, every defined function.
    pub(crate) fn has(&self, to: u32, from: Option<u32>, list: Option<u32>) -> bool
        ensures { result ≡ has_mark self.now to from list }
    {
        self.marks.contains(&(to, from, list))
    }

    /// Notes that the module was given all of the list from there.
    pub(crate) fn put(
        &mut self,
        to: u32,
        from: Option<u32>,
        list: Option<u32>,
    ) -> Result<(), Memory>
        ensures { OnOk result (self.new ≡ with_mark self.old to from list) }
    {
        self.marks.insert((to, from, list))?;
        Ok(())
    }
}
