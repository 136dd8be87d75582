//! The numbers of blocks by their names. The map is filled from the last to the first, so that of equal names the first stays.
ghost use Rattle.std.specs.Prelude.{◌≡◌, ℕ, ◌<◌, Some, List, cond, bytes_eq, length, is_some, OnOk, IfOk, IfSome};
ghost use Rattle.lx_ir.specs.Faults.{block_number, has_block};
ghost use Rattle.lx_ir.specs.Lookup.{blocks_of};
ghost use Rattle.lx_ir_walks.specs.Numbers.{at_name, is_named, HasNumbers};

use indexmap::IndexMap;
use lx_ir::module::{Block, Function};
use lx_ir_uses::blocks_of;
use lx_words::Memory;
use std::alloc::Global;
use std::marker::Model;

// Puts a block at its name.
fn put_block<'a>(
    numbers: &mut IndexMap<&'a [u8], usize>,
    block: &'a Block,
    number: usize,
) -> Result<(), Memory>
    ensures { OnOk result ((name : List ℕ) → at_name numbers.new.entries name ≡ cond (is_named name block.now) (Some number) (at_name numbers.old.entries name)) }
{
    numbers.insert(block.name.as_slice(), number)?;
    Ok(())
}

// The number of the first block of each name.
fn numbers_of<'a>(alloc: Global, blocks: &'a [Block]) -> Result<IndexMap<&'a [u8], usize>, Memory>
    ensures { IfOk result (λ numbers. HasNumbers blocks.now numbers.entries) }
{
    let mut numbers = IndexMap::new(alloc);
    let mut left = blocks.len();
    while left > 0 {
        left -= 1;
        put_block(&mut numbers, &blocks[left], left)?;
    }
    Ok(numbers)
}

/// A function, with the numbers of its blocks by their names. Contracts see the function.
#[derive(Drop)]
pub(crate) struct Names<'a> {
    function: &'a Function,
    numbers: IndexMap<&'a [u8], usize>,
}

impl<'a> Model for Names<'a> {
    ghost use Rattle.lx_ir.specs.declared.module.Function.{Function as Meaning};
    ghost use Rattle.lx_ir.specs.Lookup.{blocks_of};
    ghost use Rattle.lx_ir.specs.contracts.module.Function as function_row;
    ghost use Rattle.lx_ir_walks.specs.Numbers.{HasNumbers};

    ghost Value = { Meaning };

    ghost coded = { function_row.the_row.coded };

    ghost view = { λ n. n.function.now };

    ghost invariant = { λ n. HasNumbers (blocks_of n.function.now) n.numbers.entries };
}

impl<'a> Names<'a> {
    /// The names of a function's blocks.
    pub(crate) fn of(alloc: Global, function: &'a Function) -> Result<Self, Memory>
        ensures { IfOk result (λ names. names ≡ function.now) }
    {
        let numbers = numbers_of(alloc, blocks_of(function))?;
        Ok(Names { function, numbers })
    }

    /// The function.
    pub(crate) fn function(&self) -> &'a Function
        ensures { result.now ≡ self.now }
    {
        self.function
    }

    /// The number of the first block with this name.
    pub(crate) fn number_of(&self, label: &[u8]) -> Option<usize>
        ensures { result ≡ block_number self.now label.now }
    {
        self.numbers.get(label).copied()
    }
}
