//! Names by number.

ghost use Rattle.std.specs.Prelude.{◌≡◌, ◌+◌, ◌^◌, ◌<◌, [], ◌∷◌, ◌++◌, None, Some, length, slice_get, IfOk, IfSome, MatchOption, OnErr, OnOk};
ghost use Rattle.lx_ir_tokens.specs.Names.{number_of, with_name};

use indexmap::IndexSet;
use lx_words::Memory;
use std::alloc::Global;
use std::marker::Model;

/// Names, each once, fewer than 2^32. The number of a name is its place.
pub struct NameTable {
    names: IndexSet<Vec<u8>>,
}

impl Drop for NameTable {
    fn drop(self) {
        let NameTable { names: _ } = self;
    }
}

impl Model for NameTable {
    ghost use Rattle.std.specs.Prelude.{ℕ, List, ◌<◌, ◌^◌, length, map};
    ghost use Rattle.std.specs.Coded.{coded_list, coded_ℕ};

    ghost Value = { List (List ℕ) };

    ghost coded = { coded_list (coded_list coded_ℕ) };

    ghost view = { λ t. map (λ name. name.items) t.names.keys };

    ghost invariant = { λ t. length t.names.keys < 2 ^ 32 };
}

impl NameTable {
    /// The table without names, which keeps `alloc` for those that it is given later.
    pub fn new(alloc: Global) -> Self
        ensures { result ≡ [] }
    {
        NameTable {
            names: IndexSet::new(alloc),
        }
    }

    /// How many names there are.
    pub fn len(&self) -> u32
        ensures { result ≡ length self.now }
    {
        self.names.len() as u32
    }

    /// The name of a number.
    pub fn name(&self, number: u32) -> &[u8]
        requires { number < length self.now }
        ensures { slice_get self.now number ≡ Some result.now }
    {
        self.names[number as usize].as_slice()
    }

    /// The number of a name, where it is in the table.
    #[tactic(auto, using(crate::proofs::Numbered::position_mapped))]
    pub fn number_of(&self, name: &[u8]) -> Option<u32>
        ensures { result ≡ number_of self.now name.now }
    {
        let number = self.names.get_index_of(name)?;
        Some(number as u32)
    }

    /// Adds a name that the table lacks.
    fn add(&mut self, alloc: Global, name: &[u8]) -> Result<u32, Memory>
        requires room { length self.old + 1 < 2 ^ 32 }
        requires absent { number_of self.old name.now ≡ None }
        ensures number { IfOk result (λ n. n ≡ length self.old) }
        ensures ok { OnOk result (self.new ≡ self.old ++ name.now ∷ []) }
        ensures err { OnErr result (self.new ≡ self.old) }
    {
        let number = self.names.len() as u32;
        let bytes = Vec::from_slice(alloc, name)?;
        self.names.insert(bytes)?;
        Ok(number)
    }

    /// The number of a name, which is added to the table where it lacks it. Without memory for it the table stays.
    #[tactic(auto, using(crate::proofs::Numbered::named, lx_words::proofs::Lists::at_end))]
    pub fn intern(&mut self, alloc: Global, name: &[u8]) -> Result<u32, Memory>
        requires { length self.old + 1 < 2 ^ 32 }
        ensures number { IfOk result (λ n. slice_get self.new n ≡ Some name.now) }
        ensures ok { OnOk result (self.new ≡ with_name self.old name.now) }
        ensures err { OnErr result (self.new ≡ self.old) }
    {
        match self.number_of(name) {
            Some(number) => Ok(number),
            None => self.add(alloc, name),
        }
    }
}
