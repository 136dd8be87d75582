//! The functions of a program's text, and the blocks that stand there for those of an image.
ghost use Rattle.std.specs.Prelude.{◌≡◌, option_copied, slice_get};
ghost use Rattle.lx_ir.specs.Lookup.{block_named};
ghost use Rattle.lx_model.specs.Program.{function_of};
ghost use Rattle.lx_images.specs.Guarded.{Accepted};
ghost use Rattle.lx_image_code.specs.Jumps.{blocks_or_none};
ghost use Rattle.lx_code_lines.specs.Lines.{instrs_or_none};

use lx_image_code::Code;
use lx_ir::instr::Instr;
use lx_ir::module::{Block, Function, Module};
use lx_ir_uses::blocks_of;
use lx_model::program::ProgramFunction;

fn function_in<'a>(text: &'a Module, number: u32) -> Option<&'a Function>
    ensures { option_copied result ≡ slice_get text.now.functions number }
{
    text.functions.items.get(number as usize)
}

// The function of a text with this number in the program.
fn function_of(code: &Code, number: u32) -> Option<&Function>
    ensures { option_copied result ≡ function_of code.now.program number }
{
    match code.program().functions.items.get(number as usize) {
        Some(ProgramFunction::Of { module, function }) => {
            function_in(code.program_code().text(*module), *function)
        }
        Some(ProgramFunction::Native(_)) => None,
        None => None,
    }
}

/// The blocks in the text of the function with this number; none, where no text defines it.
pub(crate) fn text_blocks(code: &Code, number: u32) -> &[Block]
    ensures { result.now ≡ blocks_or_none (function_of code.now.program number) }
{
    match function_of(code, number) {
        Some(function) => blocks_of(function),
        None => &[],
    }
}

// The instructions of the block with a number; none, where there is no such block.
fn instrs_at(blocks: &[Block], place: usize) -> &[Instr]
    ensures { result.now ≡ instrs_or_none (slice_get blocks.now place) }
{
    match blocks.get(place) {
        Some(block) => block.instrs.as_slice(),
        None => &[],
    }
}

/// The instructions of the first block with a label, of these blocks of a function's text. Its image has the labels in the same order, and has
/// them in a table.
pub(crate) fn instrs_named<'a>(
    code: &Code,
    number: u32,
    blocks: &'a [Block],
    label: &[u8],
) -> &'a [Instr]
    requires accepted { Accepted code.now }
    requires blocks { blocks.now ≡ blocks_or_none (function_of code.now.program number) }
    ensures { result.now ≡ instrs_or_none (block_named blocks.now label.now) }
{
    match code.block_named(number, label) {
        Some(place) => instrs_at(blocks, place),
        None => &[],
    }
}
