//! Linked programs.
ghost use Rattle.std.specs.Prelude.{◌≡◌, ◌<◌, [], length, slice_index_or};
ghost use Rattle.lx_link_texts.specs.WellFormed.{FitsCalls, IsWellFormed};
ghost use Rattle.lx_link.specs.Laws.{IsLinked};

use lx_model::program::{Calls, Program};
use lx_words::Items;
use std::marker::Model;

/// A program, and the calls of each thread of a case by numbers and words.
#[derive(Drop)]
pub struct LinkedParts {
    pub program: Program,
    pub calls: Items<Calls>,
}

/// A well-formed program, and the calls of each thread of its case, which fit it. Contracts see the parts.
#[derive(Drop)]
pub struct Linked {
    parts: LinkedParts,
}

impl Model for Linked {
    ghost use Rattle.lx_link.specs.declared.linked.LinkedParts.{LinkedParts as Meaning};
    ghost use Rattle.lx_link.specs.Laws.{IsLinked};
    ghost use Rattle.lx_link.specs.contracts.linked.LinkedParts as parts_row;

    ghost Value = { Meaning };

    ghost coded = { parts_row.the_row.coded };

    ghost view = { λ l. l.parts };

    ghost invariant = { λ l. IsLinked l.parts };
}

impl Linked {
    pub(crate) fn new(parts: LinkedParts) -> Self
        requires { IsLinked parts }
        ensures { result ≡ parts }
    {
        Linked { parts }
    }

    /// The program.
    pub fn program(&self) -> &Program
        ensures program { result.now ≡ self.now.program }
        ensures well_formed { IsWellFormed self.now.program }
    {
        &self.parts.program
    }

    /// The calls of a thread of the case.
    pub fn calls(&self, thread: u32) -> &Calls
        requires { thread < length self.now.calls }
        ensures calls { result.now ≡ slice_index_or self.now.calls thread [] }
        ensures fit { FitsCalls self.now.program self.now.calls }
    {
        &self.parts.calls.as_slice()[thread as usize]
    }

    /// The program, and the calls of each thread.
    pub fn into_parts(self) -> (Program, Items<Calls>)
        ensures program { result.0 ≡ self.program }
        ensures calls { result.1 ≡ self.calls }
        ensures well_formed { IsWellFormed self.program }
        ensures fit { FitsCalls self.program self.calls }
    {
        (self.parts.program, self.parts.calls)
    }
}
