//! The lines of all functions.
ghost use Rattle.std.specs.Prelude.{◌≡◌, IfOk, option_copied};
ghost use Rattle.lx_ir.specs.Lookup.{block_named};
ghost use Rattle.lx_model.specs.Program.{function_of};
ghost use Rattle.lx_images.specs.Code.{Code as Images};
ghost use Rattle.lx_images.specs.Guarded.{Accepted};
ghost use Rattle.lx_image_code.specs.Jumps.{blocks_or_none};
ghost use Rattle.lx_interp.specs.Places.{stand_in};
ghost use Rattle.lx_code_lines.specs.Place.{image_place, line_of};
ghost use Rattle.lx_code_lines.specs.Lines.{AreFunctionLines, AreLinesOf, HasBlockLines, instrs_or_none, line_at, line_among};

use crate::block_lines::BlockLines;
use crate::functions::{instrs_named, text_blocks};
use lx_image_code::Code;
use lx_interp::Standing;
use lx_ir::module::Block;
use lx_words::{Items, Memory, number_of};
use std::alloc::Global;

/// The line of the program's text for each place of the code of its images: tables of each function's blocks.
pub struct Lines {
    functions: Items<Items<BlockLines>>,
}

impl Drop for Lines {
    fn drop(self) {
        let Lines { functions: _ } = self;
    }
}

// The lines of a block of an image, among these blocks of its function's text.
fn block_lines(
    alloc: Global,
    code: &Code,
    number: u32,
    text: &[Block],
    block: &Block,
) -> Result<BlockLines, Memory>
    requires accepted { Accepted code.now }
    requires text { text.now ≡ blocks_or_none (function_of code.now.program number) }
    ensures { IfOk result (λ lines. HasBlockLines block.now.instrs (instrs_or_none (block_named text.now block.now.name)) lines) }
{
    let instrs = instrs_named(code, number, text, block.name.as_slice());
    let lines = BlockLines::new(alloc, block.instrs.as_slice(), instrs)?;
    Ok(lines)
}

// The lines of the blocks of a function.
fn function_lines(alloc: Global, code: &Code, number: u32) -> Result<Items<BlockLines>, Memory>
    requires { Accepted code.now }
    ensures { IfOk result (λ lines. AreFunctionLines code.now number lines) }
{
    let text = text_blocks(code, number);
    let mut lines = Items::new(alloc);
    for block in code.blocks(number) {
        let of_block = block_lines(alloc, code, number, text, block)?;
        lines.push(of_block)?;
    }
    Ok(lines)
}

// The line that a place of a function's block has.
fn line_among(blocks: &[BlockLines], at: Standing) -> Option<u32>
    ensures { result ≡ line_among blocks.now at.block at.arrived at.place }
{
    match blocks.get(at.block) {
        Some(lines) => lines.line(at.arrived, at.place),
        None => None,
    }
}

impl Lines {
    /// The lines of accepted images, in time that is linear in their code and the program's.
    ///
    /// # Errors
    /// Want of memory; more functions than a number of 32 bits counts are that too.
    pub fn new(alloc: Global, code: &Code) -> Result<Lines, Memory>
        requires { Accepted code.now }
        ensures { IfOk result (λ lines. AreLinesOf code.now lines) }
    {
        let count = number_of(code.program().functions.len())?;
        let mut functions = Items::new(alloc);
        for number in 0..count {
            let lines = function_lines(alloc, code, number)?;
            functions.push(lines)?;
        }
        Ok(Lines { functions })
    }

    // What the tables have where a function stands.
    fn look_up(&self, at: Standing) -> Option<u32>
        ensures { result ≡ line_at self.now at }
    {
        match self.functions.items.get(at.function as usize) {
            Some(blocks) => line_among(blocks.as_slice(), at),
            None => None,
        }
    }

    /// The line of the program's text where a function stands: that of the instruction that is next there, whatever marks stand before it. None,
    /// where no instruction is left in the block, and where there is no such function or block.
    pub fn line(&self, at: Standing) -> Option<u32>
        ensures { (c : Images) → AreLinesOf c self.now → result ≡ line_of c.program (image_place (stand_in c at)) }
    {
        self.look_up(at)
    }
}
