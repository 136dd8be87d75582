//! The globals of a program, and their blocks.

ghost use Rattle.std.specs.Prelude.{◌≡◌, [], IfOk, OnOk, option_copied, slice_get, unwrap_or};
ghost use Rattle.lx_model.specs.Program.{empty_module, module_of};
ghost use Rattle.lx_trace_text.specs.Blocks.{Holds, global_block, known_first, variable_of, variable_size};

use crate::blocks::{Block, Blocks, Giver, give};
use lx_ir::fit_type;
use lx_ir::module::{GlobalVar, Module};
use lx_model::program::{Program, ProgramGlobal};
use lx_words::Memory;
use std::alloc::Global;
use std::collections::BTreeMap;

/// The text of the kernel, or of a module, if the program has one with this number.
fn text_of(program: &Program, home: Option<u32>) -> Option<&Module>
    ensures { unwrap_or (option_copied result) empty_module ≡ module_of program.now home }
{
    match home {
        None => Some(&program.kernel),
        Some(number) => match program.modules.as_slice().get(number as usize) {
            Some(entry) => Some(&entry.module),
            None => None,
        },
    }
}

/// The global of a text with this number.
fn variable_in(text: &Module, number: u32) -> Option<&GlobalVar>
    ensures { option_copied result ≡ slice_get text.now.globals number }
{
    text.globals.as_slice().get(number as usize)
}

/// The global of a program's text.
pub(crate) fn variable_of(program: &Program, home: Option<u32>, number: u32) -> Option<&GlobalVar>
    ensures { option_copied result ≡ variable_of program.now home number }
{
    match text_of(program, home) {
        Some(text) => variable_in(text, number),
        None => None,
    }
}

/// How many bytes a global takes.
fn variable_size(text: &Module, number: u32) -> u64
    ensures { result ≡ variable_size text.now.types (slice_get text.now.globals number) }
{
    match variable_in(text, number) {
        None => 0,
        Some(variable) => match fit_type(text.types.layouts(), &variable.ty) {
            None => 0,
            Some(layout) => layout.size(),
        },
    }
}

/// How many bytes a program's global takes.
fn global_size(program: &Program, global: ProgramGlobal) -> u64
    ensures { result ≡ (global_block program.now global).size }
{
    match text_of(program, global.module) {
        Some(text) => variable_size(text, global.global),
        None => 0,
    }
}

/// A global's block.
fn global_block(program: &Program, global: ProgramGlobal) -> Block
    ensures { result ≡ global_block program.now global }
{
    Block {
        start: global.at,
        size: global_size(program, global),
        giver: Giver::Global {
            home: global.module,
            number: global.global,
        },
    }
}

/// Knows the blocks of globals too.
fn give_globals(blocks: &mut Blocks, program: &Program) -> Result<(), Memory>
    ensures { Holds [] blocks.old → OnOk result (Holds (known_first program.now) blocks.new) }
{
    for global in program.globals.as_slice() {
        give(blocks, global_block(program, *global))?;
    }
    Ok(())
}

/// The blocks that are known before all events.
pub(crate) fn known_first(alloc: Global, program: &Program) -> Result<Blocks, Memory>
    ensures { IfOk result (Holds (known_first program.now)) }
{
    let mut blocks = BTreeMap::new(alloc);
    match give_globals(&mut blocks, program) {
        Ok(()) => Ok(blocks),
        Err(why) => {
            drop(blocks);
            Err(why)
        }
    }
}
