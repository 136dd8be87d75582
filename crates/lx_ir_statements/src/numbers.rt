//! Lists of numbers of names.

ghost use Rattle.std.specs.Prelude.{◌≡◌, [], OnOk, OnErr};
ghost use Rattle.lx_ir_statements.specs.Numbers.{has_number, has_some, with_number, with_some};

use indexmap::IndexSet;
use lx_words::Memory;
use std::alloc::Global;
use std::marker::Model;

/// Numbers of names, each once, in the order in which they were added.
#[derive(Drop)]
pub struct Numbers {
    set: IndexSet<u32>,
}

impl Model for Numbers {
    ghost use Rattle.std.specs.Prelude.{ℕ, List};
    ghost use Rattle.std.specs.Coded.{coded_list, coded_ℕ};

    ghost Value = { List ℕ };

    ghost coded = { coded_list coded_ℕ };

    ghost view = { λ n. n.set.keys };
}

impl Numbers {
    /// No number. The list keeps `alloc` for those that it is given later.
    pub fn new(alloc: Global) -> Self
        ensures { result ≡ [] }
    {
        Numbers {
            set: IndexSet::new(alloc),
        }
    }

    /// Whether a number is one of these.
    pub fn has(&self, number: u32) -> bool
        ensures { result ≡ has_number self.now number }
    {
        self.set.contains(&number)
    }

    /// Whether there is a number and it is one of these.
    pub fn has_some(&self, number: Option<u32>) -> bool
        ensures { result ≡ has_some self.now number }
    {
        match number {
            Some(number) => self.has(number),
            None => false,
        }
    }

    /// Adds a number, where it is none of these. Without memory for it they stay.
    pub fn add(&mut self, number: u32) -> Result<(), Memory>
        ensures ok { OnOk result (self.new ≡ with_number self.old number) }
        ensures err { OnErr result (self.new ≡ self.old) }
    {
        self.set.insert(number)?;
        Ok(())
    }

    /// Adds a number, where there is one and it is none of these. Without memory for it they stay.
    pub fn add_some(&mut self, number: Option<u32>) -> Result<(), Memory>
        ensures ok { OnOk result (self.new ≡ with_some self.old number) }
        ensures err { OnErr result (self.new ≡ self.old) }
    {
        if let Some(number) = number {
            self.add(number)?;
        }
        Ok(())
    }
}
