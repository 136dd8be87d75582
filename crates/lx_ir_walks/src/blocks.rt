//! The blocks of a function.
ghost use Rattle.std.specs.Prelude.{◌≡◌, true, IfOk};
ghost use Rattle.lx_ir.specs.Faults.{block_number, has_block};
ghost use Rattle.lx_ir_walks.specs.Sources.{ArePredecessors};

use crate::names::Names;
use crate::sources::{Sources, sources_of};
use indexmap::IndexSet;
use lx_ir::module::Function;
use lx_words::Memory;
use std::alloc::Global;
use std::marker::Model;

/// A function with two tables: the numbers of its blocks by their names, and for each block the numbers of its predecessors. They
/// are made once, in a pass over the ends of its blocks; then no label is searched for. Contracts see the function.
#[derive(Drop)]
pub struct Blocks<'a> {
    names: Names<'a>,
    sources: Sources,
}

impl<'a> Model for Blocks<'a> {
    ghost use Rattle.lx_ir.specs.declared.module.Function.{Function as Meaning};
    ghost use Rattle.lx_ir.specs.contracts.module.Function as function_row;
    ghost use Rattle.lx_ir_walks.specs.Sources.{HasSources};

    ghost Value = { Meaning };

    ghost coded = { function_row.the_row.coded };

    ghost view = { λ b. b.names };

    ghost invariant = { λ b. HasSources b.names b.sources.items };
}

impl<'a> Blocks<'a> {
    /// The blocks of a function.
    ///
    /// # Errors
    /// Where there was not enough memory.
    pub fn of(alloc: Global, function: &'a Function) -> Result<Self, Memory>
        ensures { IfOk result (λ blocks. blocks ≡ function.now) }
    {
        let names = Names::of(alloc, function)?;
        let sources = sources_of(alloc, &names)?;
        Ok(Blocks { names, sources })
    }

    /// The function.
    pub fn function(&self) -> &'a Function
        ensures { result.now ≡ self.now }
    {
        self.names.function()
    }

    /// The number of the first block with this name.
    pub fn number_of(&self, label: &[u8]) -> Option<usize>
        ensures { result ≡ block_number self.now label.now }
    {
        self.names.number_of(label)
    }

    /// Whether there is a block with this name.
    #[tactic(auto, using(crate::proofs::FirstBlocks::present))]
    pub fn has(&self, label: &[u8]) -> bool
        ensures { result ≡ has_block self.now label.now }
    {
        self.number_of(label).is_some()
    }

    /// The numbers of the predecessors of the blocks with this name, by the names that these have.
    pub fn before(&self, name: &[u8]) -> &IndexSet<usize>
        requires { has_block self.now name.now ≡ true }
        ensures { ArePredecessors self.now name.now result.now.keys }
    {
        match self.number_of(name) {
            Some(number) => &self.sources[number],
            None => unreachable!(),
        }
    }
}
