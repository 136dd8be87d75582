//! The modules that a case names.

ghost use Rattle.std.specs.Prelude.{◌≡◌, ◌+◌, ◌<◌, ◌≤◌, [], ◌∷◌, ◌++◌, length, position, bytes_eq, is_some, false, IfSome, IfOk, OnOk, OnErr};
ghost use Rattle.lx_script.specs.Reading.{names_of};

use crate::case::{CaseModule, CaseModules};
use indexmap::IndexMap;
use lx_words::{Memory, Name};
use std::alloc::{AllocFailed, Global};
use std::marker::Model;

/// The modules of a case so far, by name: at most 64. Contracts see the list.
#[derive(Drop)]
pub struct Modules<'a> {
    files: IndexMap<&'a [u8], &'a [u8]>,
}

impl<'a> Model for Modules<'a> {
    ghost use Rattle.std.specs.Prelude.{List, map, length, ◌≤◌};
    ghost use Rattle.lx_script.specs.declared.case.CaseModule.{CaseModule};
    ghost use Rattle.lx_script.specs.Case.{most_modules};

    ghost Value = { List CaseModule };

    ghost view = { λ m. map (λ e. record { name = e.0.now; file = e.1.now }) m.files.entries };

    ghost invariant = { λ m. length m.files.entries ≤ most_modules };
}

impl<'a> Modules<'a> {
    /// No modules.
    pub fn new(alloc: Global) -> Self
        ensures { result ≡ [] }
    {
        Modules {
            files: IndexMap::new(alloc),
        }
    }

    /// How many there are.
    pub fn len(&self) -> u32
        ensures { result ≡ length self.now }
    {
        self.files.len() as u32
    }

    /// The number of the module of this name.
    pub fn number_of(&self, name: &[u8]) -> Option<u32>
        ensures { result ≡ position (bytes_eq name.now) (names_of self.now) }
    {
        match self.files.get_index_of(name) {
            Some(index) => Some(index as u32),
            None => None,
        }
    }

    /// Adds a module at the end; without memory for it the modules stay.
    pub fn add(
        &mut self,
        name: &'a [u8],
        file: &'a [u8],
    ) -> Result<(), AllocFailed<(&'a [u8], &'a [u8])>>
        requires room { length self.old < 64 }
        requires new { is_some (position (bytes_eq name.now) (names_of self.old)) ≡ false }
        ensures ok { OnOk result (self.new ≡ self.old ++ record { name = name.now; file = file.now } ∷ []) }
        ensures err { OnErr result (self.new ≡ self.old) }
    {
        self.files.insert(name, file)?;
        Ok(())
    }

    /// The modules as a list of their own.
    pub fn to_list(&self, alloc: Global) -> Result<CaseModules, Memory>
        ensures { IfOk result (λ list. list ≡ self.now) }
    {
        let mut list = CaseModules::new(alloc);
        for (name, file) in self.files.iter() {
            let name = Name::from_bytes(alloc, name)?;
            let file = Name::from_bytes(alloc, file)?;
            list.push(CaseModule { name, file })?;
        }
        Ok(list)
    }
}
