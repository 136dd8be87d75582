//! Names by number.

ghost use Rattle.std.specs.Prelude.{◌≡◌, ◌≤◌, [], ◌∷◌, ◌++◌, None, length, IfOk, OnErr, OnOk};
ghost use Rattle.lx_annot_expressions.specs.Names.{number_among, known_at, known_of, fresh_at, fresh_of, unless_known};
ghost use Rattle.lx_annot_expressions.specs.Reading.{Gives, GivesBy, pick_at, unless_word};

use crate::fault::{FaultKind, ReadError};
use crate::reader::{Reader, unless_word};
use indexmap::IndexSet;
use lx_words::{Memory, TokenKind};
use std::alloc::Global;
use std::marker::Model;

/// How many names have a number.
const MOST_NAMES: usize = u32::MAX as usize;

/// Names of a text, each once, fewer than 2^32. The number of a name is its place.
#[derive(Drop)]
pub struct NameTable<'a> {
    names: IndexSet<&'a [u8]>,
}

impl<'a> Model for NameTable<'a> {
    ghost use Rattle.std.specs.Prelude.{ℕ, List, ◌<◌, ◌^◌, length, map};

    ghost Value = { List (List ℕ) };

    ghost view = { λ t. map (λ name. name.now) t.names.keys };

    ghost invariant = { λ t. length t.names.keys < 2 ^ 32 };
}

impl<'a> NameTable<'a> {
    /// The table without names, which keeps `alloc` for those that it is given later.
    pub fn new(alloc: Global) -> Self
        ensures { result ≡ [] }
    {
        NameTable {
            names: IndexSet::new(alloc),
        }
    }

    /// How many names there are.
    pub fn len(&self) -> u32
        ensures { result ≡ length self.now }
    {
        self.names.len() as u32
    }

    /// The number of a name, where it is in the table.
    #[tactic(auto, using(crate::proofs::Numbered::position_mapped))]
    pub fn number_of(&self, name: &[u8]) -> Option<u32>
        ensures { result ≡ number_among self.now name.now }
    {
        let number = self.names.get_index_of(name)?;
        Some(number as u32)
    }

    /// Adds a name that the table lacks. Without memory for it, as where it has so many that no number is left, the
    /// table stays.
    pub fn add(&mut self, name: &'a [u8]) -> Result<(), Memory>
        requires absent { number_among self.old name.now ≡ None }
        ensures ok { OnOk result (self.new ≡ self.old ++ name.now ∷ []) }
        ensures err { OnErr result (self.new ≡ self.old) }
    {
        if self.names.len() >= MOST_NAMES {
            return Err(Memory);
        }
        self.names.insert(name)?;
        Ok(())
    }

    fn known_of(&self, kind: TokenKind, bytes: &[u8]) -> Option<u32>
        ensures { result ≡ known_of self.now kind bytes.now }
    {
        match kind {
            TokenKind::Word => self.number_of(bytes),
            _ => None,
        }
    }
}

impl<'a> Reader<'a> {
    /// The number of a name that is in the table.
    pub fn known(&mut self, names: &NameTable<'_>) -> Result<u32, ReadError>
        ensures reads { Gives result self.new (known_at names.now self.old) }
        ensures shrinks { length self.new ≤ length self.old }
    {
        let Some((kind, bytes)) = self.token() else {
            return Err(self.fault(FaultKind::Statement));
        };
        let number = self.picked(
            names.known_of(kind, bytes),
            unless_word(FaultKind::Unknown, kind),
        )?;
        Ok(number)
    }

    /// A name that the table lacks.
    pub fn fresh(&mut self, names: &NameTable<'_>) -> Result<&'a [u8], ReadError>
        ensures reads { GivesBy (λ w. w.now) result self.new (fresh_at names.now self.old) }
        ensures shrinks { length self.new ≤ length self.old }
        ensures absent { IfOk result (λ w. number_among names.now w.now ≡ None) }
    {
        match self.token() {
            Some((TokenKind::Word, bytes)) => match names.number_of(bytes) {
                Some(_) => Err(self.fault(FaultKind::Twice)),
                None => {
                    self.skip();
                    Ok(bytes)
                }
            },
            _ => Err(self.fault(FaultKind::Statement)),
        }
    }
}
