//! Places, words and names.

ghost use Rattle.std.specs.Prelude.{◌≡◌, ◌++◌, IfOk, OnOk, flat_map};
ghost use Rattle.lx_ir.specs.Text.{width_text};
ghost use Rattle.lx_model.specs.Program.{function_at, numbered};
ghost use Rattle.lx_trace_text.specs.Text.{args_text, block_text, bracketed, function_spot_text, further_text, giver_text, list_text, native_name, site_text, slot_name, spot, spot_text, variable_name, word_text};
ghost use Rattle.lx_report.specs.Report.{home_text};
ghost use Rattle.lx_trace_text.specs.Blocks.{variable_of};
ghost use Rattle.lx_trace_text.specs.declared.blocks.Giver.TheVariants.{Global};

use crate::Site;
use crate::blocks::{Block, Giver};
use crate::globals::variable_of;
use lx_model::program::{Program, ProgramFunction};
use lx_report::{put, put_address, put_bytes, put_called, put_number, put_signed};
use lx_words::{Memory, Width, Word, number_of};

/// The number, if it is that of a function of a text.
fn numbered(program: &Program, number: u64) -> Result<Option<u32>, Memory>
    ensures { IfOk result (λ found. found ≡ numbered program.now number) }
{
    match program.functions.items.get(number as usize) {
        Some(ProgramFunction::Of { .. }) => {
            let number = number_of(number as usize)?;
            Ok(Some(number))
        }
        Some(ProgramFunction::Native(_)) => Ok(None),
        None => Ok(None),
    }
}

/// The function of a text whose address this is; a native is none.
fn function_at(program: &Program, at: u64) -> Result<Option<u32>, Memory>
    ensures { IfOk result (λ found. found ≡ function_at program.now at) }
{
    if at >= 0x10000 && at % 16 == 0 {
        numbered(program, (at - 0x10000) / 16)
    } else {
        Ok(None)
    }
}

/// A function in brackets, where there is one.
fn put_bracketed(out: &mut Vec<u8>, program: &Program, function: Option<u32>) -> Result<(), Memory>
    ensures { OnOk result (out.new.items ≡ out.old.items ++ bracketed program.now function) }
{
    match function {
        None => Ok(()),
        Some(number) => {
            put(out, " (")?;
            put_called(out, program, number)?;
            put(out, ")")
        }
    }
}

/// An address, and the function whose address it is.
pub(crate) fn put_function_spot(out: &mut Vec<u8>, program: &Program, at: u64) -> Result<(), Memory>
    ensures { OnOk result (out.new.items ≡ out.old.items ++ function_spot_text program.now at) }
{
    let function = function_at(program, at)?;
    put_address(out, at)?;
    put_bracketed(out, program, function)
}

/// An address, and the block in which it lies.
#[derive(Clone, Copy)]
pub(crate) struct Spot {
    at: u64,
    block: Option<Block>,
}

pub(crate) fn spot_of(at: u64, block: Option<Block>) -> Spot
    ensures { result ≡ spot at block }
{
    Spot { at, block }
}

/// The kernel, or the name of a module.
fn put_home(out: &mut Vec<u8>, program: &Program, home: Option<u32>) -> Result<(), Memory>
    ensures { OnOk result (out.new.items ≡ out.old.items ++ home_text program.now home) }
{
    match home {
        None => put(out, "kernel"),
        Some(number) => match program.modules.as_slice().get(number as usize) {
            Some(module) => put_bytes(out, module.name.as_slice()),
            None => Ok(()),
        },
    }
}

/// The name of a global.
fn variable_name(program: &Program, home: Option<u32>, number: u32) -> &[u8]
    ensures { result.now ≡ variable_name (variable_of program.now home number) }
{
    match variable_of(program, home, number) {
        Some(variable) => variable.name.as_slice(),
        None => &[],
    }
}

/// A global, by the text that defines it and its name there.
fn put_variable(
    out: &mut Vec<u8>,
    program: &Program,
    home: Option<u32>,
    number: u32,
) -> Result<(), Memory>
    ensures { OnOk result (out.new.items ≡ out.old.items ++ giver_text program.now (Global home number)) }
{
    put_home(out, program, home)?;
    put(out, ":@")?;
    put_bytes(out, variable_name(program, home, number))
}

/// What gave a block.
fn put_giver(out: &mut Vec<u8>, program: &Program, giver: Giver) -> Result<(), Memory>
    ensures { OnOk result (out.new.items ≡ out.old.items ++ giver_text program.now giver) }
{
    match giver {
        Giver::Global { home, number } => put_variable(out, program, home, number),
        Giver::Event(n) => {
            put(out, "event ")?;
            put_number(out, n)
        }
    }
}

/// A block in brackets, and how far behind its start an address lies in it.
fn put_block(
    out: &mut Vec<u8>,
    program: &Program,
    at: u64,
    block: Option<Block>,
) -> Result<(), Memory>
    ensures { OnOk result (out.new.items ≡ out.old.items ++ block_text program.now at block) }
{
    match block {
        None => Ok(()),
        Some(block) => {
            put(out, " (")?;
            put_giver(out, program, block.giver)?;
            put(out, "+")?;
            put_number(out, at.saturating_sub(block.start))?;
            put(out, ")")
        }
    }
}

/// An address, and the function whose address it is or the block in which it lies.
pub(crate) fn put_spot(out: &mut Vec<u8>, program: &Program, spot: Spot) -> Result<(), Memory>
    ensures { OnOk result (out.new.items ≡ out.old.items ++ spot_text program.now spot) }
{
    put_function_spot(out, program, spot.at)?;
    put_block(out, program, spot.at, spot.block)
}

/// The place that asks.
pub(crate) fn put_site(
    out: &mut Vec<u8>,
    program: &Program,
    site: Option<Site>,
) -> Result<(), Memory>
    ensures { OnOk result (out.new.items ≡ out.old.items ++ site_text program.now site) }
{
    match site {
        None => put(out, "script"),
        Some(site) => {
            put_called(out, program, site.function)?;
            put(out, ":")?;
            put_number(out, u64::from(site.line))
        }
    }
}

pub(crate) fn put_width(out: &mut Vec<u8>, width: Width) -> Result<(), Memory>
    ensures { OnOk result (out.new.items ≡ out.old.items ++ width_text width) }
{
    match width {
        Width::W1 => put(out, "i1"),
        Width::W8 => put(out, "i8"),
        Width::W16 => put(out, "i16"),
        Width::W32 => put(out, "i32"),
        Width::W64 => put(out, "i64"),
    }
}

/// A word: an address, a truth value, or a signed number.
pub(crate) fn put_word(out: &mut Vec<u8>, word: Word) -> Result<(), Memory>
    ensures { OnOk result (out.new.items ≡ out.old.items ++ word_text word) }
{
    match word.width {
        Width::W64 => put_address(out, word.bits),
        Width::W1 => put_number(out, word.bits),
        Width::W8 | Width::W16 | Width::W32 => put_signed(out, word),
    }
}

/// An argument behind another one.
fn put_further(out: &mut Vec<u8>, word: Word) -> Result<(), Memory>
    ensures { OnOk result (out.new.items ≡ out.old.items ++ further_text word) }
{
    put(out, ", ")?;
    put_word(out, word)
}

fn put_furthers(out: &mut Vec<u8>, words: &[Word]) -> Result<(), Memory>
    ensures { OnOk result (out.new.items ≡ out.old.items ++ flat_map further_text words.now) }
{
    for word in words {
        put_further(out, *word)?;
    }
    Ok(())
}

fn put_list(out: &mut Vec<u8>, words: &[Word]) -> Result<(), Memory>
    ensures { OnOk result (out.new.items ≡ out.old.items ++ list_text words.now) }
{
    match words.split_first() {
        None => Ok(()),
        Some((first, further)) => {
            put_word(out, *first)?;
            put_furthers(out, further)
        }
    }
}

/// Arguments in round brackets.
pub(crate) fn put_args(out: &mut Vec<u8>, words: &[Word]) -> Result<(), Memory>
    ensures { OnOk result (out.new.items ≡ out.old.items ++ args_text words.now) }
{
    put(out, "(")?;
    put_list(out, words)?;
    put(out, ")")
}

/// The name of a slot type.
pub(crate) fn slot_name(program: &Program, ty: u32) -> &[u8]
    ensures { result.now ≡ slot_name program.now ty }
{
    match program.interface.slots.as_slice().get(ty as usize) {
        Some(slot) => slot.name.as_slice(),
        None => &[],
    }
}

/// The name of a native.
pub(crate) fn native_name(native: u32) -> &'static str
    ensures { result.now ≡ native_name native }
{
    match native {
        0 => "k.alloc",
        1 => "k.free",
        2 => "k.zero",
        3 => "k.try_lock",
        4 => "k.note",
        5 => "lxfi_princ_alias",
        _ => "",
    }
}
