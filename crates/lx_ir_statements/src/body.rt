//! The blocks of a function.

ghost use Rattle.std.specs.Prelude.{◌≡◌, ◌≤◌, ◌<◌, [], length, IfOk};
ghost use Rattle.lx_ir.specs.Operands.{is_terminator};
ghost use Rattle.lx_ir_terms.specs.Reading.{Gives, Passes, at, behind};
ghost use Rattle.lx_ir_constants.specs.Constants.{first_name};
ghost use Rattle.lx_ir_statements.specs.Going.{GivesWith, Leaves};
ghost use Rattle.lx_ir_statements.specs.Blocks.{line_at, may_be_label, has_label, ends_in_label, ends_block, given, line_of_text, instr_at, run_goes_on, run_step, further_instrs_at, run_at, block_behind, labelled_block_at, unlabelled_block_at, first_block_at, body_step, further_blocks_at, some_blocks_at, close_at, blocks_at};

use crate::{Numbers, decimal_name};
use lx_ir::instr::{Instr, Op};
use lx_ir::module::{Block, Constant, Value};
use lx_ir_instructions::{TextForm, instruction, instruction_laws};
use lx_ir_terms::{Context, Fault, FaultKind, ReadError, Reader, is_mark};
use lx_ir_tokens::{Kind, Mark, Tok};
use lx_words::{Items, Memory, Name, Token};
use std::alloc::Global;

/// The registers and labels that a function defines so far, by the numbers of their names in the table of names.
#[derive(Drop)]
pub struct Locals {
    pub registers: Numbers,
    pub labels: Numbers,
}

/// The instructions of a block, as far as they are read.
#[derive(Drop)]
pub struct Run {
    pub instrs: Items<Instr>,
    /// Whether the last of them is no terminator, so that a further one may stand behind it.
    pub goes_on: bool,
}

/// The line of the token at which reading stands, among the places of all tokens of the text.
pub fn line(places: &[Token], reader: &Reader<'_>) -> u32
    ensures { result ≡ line_at places.now reader.now }
{
    let place = places.len().saturating_sub(reader.left());
    places.get(place).map_or(1, |token| token.line)
}

/// Whether a token may be a label.
fn may_be_label(kind: Kind) -> bool
    ensures { result ≡ may_be_label kind }
{
    matches!(kind, Kind::Word(_) | Kind::Number { minus: false, .. })
}

/// Whether a label stands next, with its colon.
fn has_label(reader: &Reader<'_>) -> bool
    ensures { result ≡ has_label reader.now }
{
    match reader.rest {
        [token, colon, ..] => may_be_label(token.kind) && is_mark(colon.kind, Mark::Colon),
        _ => false,
    }
}

/// Whether the text ends behind a token that may yet be a label.
fn ends_in_label(reader: &Reader<'_>) -> bool
    ensures { result ≡ ends_in_label reader.now }
{
    match reader.rest {
        [token] => may_be_label(token.kind),
        _ => false,
    }
}

/// Whether a block ends here.
fn ends_block(reader: &Reader<'_>) -> bool
    ensures { result ≡ ends_block reader.now }
{
    match reader.rest {
        [] => true,
        [token, ..] => is_mark(token.kind, Mark::CloseBrace) || has_label(reader),
    }
}

/// The register that the instruction at which reading stands gives, by the number of its name.
fn given(reader: &Reader<'_>) -> Option<u32>
    ensures { result ≡ given reader.now }
{
    match reader.rest {
        [
            Tok {
                kind: Kind::Local,
                name,
            },
            ..
        ] => Some(*name),
        _ => None,
    }
}

/// Whether an instruction ends its block.
fn is_terminator(op: &Op) -> bool
    ensures { result ≡ is_terminator op.now }
{
    matches!(
        op,
        Op::Ret { .. } | Op::Jump { .. } | Op::Branch { .. } | Op::Switch { .. } | Op::Unreachable
    )
}

/// An instruction with its line.
fn line_of_text(
    alloc: Global,
    reader: &mut Reader<'_>,
    context: &Context<'_>,
    form: TextForm,
    places: &[Token],
) -> Result<Instr, ReadError>
    ensures reads { Gives result reader.new (line_of_text context.now form places.now reader.old) }
    ensures shrinks { IfOk result (λ i. length reader.new < length reader.old) }
    ensures stays { length reader.new ≤ length reader.old }
{
    // An instruction has a token.
    instruction_laws();
    let line = line(places, reader);
    let op = instruction(alloc, reader, context, form)?;
    Ok(Instr { op, line })
}

/// The fault that the text ends.
fn end() -> ReadError
    ensures { result ≡ ReadError.Fault (at FaultKind.Statement []) }
{
    ReadError::Fault(Fault {
        kind: FaultKind::Statement,
        left: 0,
    })
}

/// An instruction, which gives no register that was given before.
fn instr(
    alloc: Global,
    reader: &mut Reader<'_>,
    context: &Context<'_>,
    form: TextForm,
    places: &[Token],
    locals: &mut Locals,
) -> Result<Instr, ReadError>
    ensures reads { GivesWith result locals.new reader.new (instr_at context.now form places.now locals.old reader.old) }
    ensures shrinks { IfOk result (λ i. length reader.new < length reader.old) }
    ensures stays { length reader.new ≤ length reader.old }
{
    let register = given(reader);
    if locals.registers.has_some(register) {
        return Err(reader.fault(FaultKind::Twice));
    }
    if ends_in_label(reader) {
        return Err(end());
    }
    let instr = line_of_text(alloc, reader, context, form, places)?;
    locals.registers.add_some(register)?;
    Ok(instr)
}

/// Whether a further instruction of the block stands next.
fn run_goes_on(run: &Run, reader: &Reader<'_>) -> bool
    ensures { result ≡ run_goes_on run.now reader.now }
{
    run.goes_on && !ends_block(reader)
}

/// A further instruction of a block.
fn run_step(
    alloc: Global,
    reader: &mut Reader<'_>,
    context: &Context<'_>,
    form: TextForm,
    places: &[Token],
    run: &mut Run,
    locals: &mut Locals,
) -> Result<(), ReadError>
    ensures reads { Leaves result (run.new, locals.new) reader.new (run_step context.now form places.now (run.old, locals.old) reader.old) }
    ensures shrinks { IfOk result (λ i. length reader.new < length reader.old) }
    ensures stays { length reader.new ≤ length reader.old }
{
    let instr = instr(alloc, reader, context, form, places, locals)?;
    run.goes_on = !is_terminator(&instr.op);
    run.instrs.push(instr)?;
    Ok(())
}

/// Further instructions of a block: up to a terminator, or to where the block ends without one.
fn further_instrs(
    alloc: Global,
    reader: &mut Reader<'_>,
    context: &Context<'_>,
    form: TextForm,
    places: &[Token],
    run: &mut Run,
    locals: &mut Locals,
) -> Result<(), ReadError>
    ensures reads { Leaves result (run.new, locals.new) reader.new (further_instrs_at context.now form places.now (run.old, locals.old) reader.old) }
    ensures shrinks { length reader.new ≤ length reader.old }
{
    while run_goes_on(run, reader) {
        run_step(alloc, reader, context, form, places, run, locals)?;
    }
    Ok(())
}

/// The instructions of a block.
fn instrs(
    alloc: Global,
    reader: &mut Reader<'_>,
    context: &Context<'_>,
    form: TextForm,
    places: &[Token],
    locals: &mut Locals,
) -> Result<Items<Instr>, ReadError>
    ensures reads { GivesWith result locals.new reader.new (run_at context.now form places.now locals.old reader.old) }
    ensures shrinks { length reader.new ≤ length reader.old }
{
    let mut run = Run {
        instrs: Items::new(alloc),
        goes_on: true,
    };
    further_instrs(alloc, reader, context, form, places, &mut run, locals)?;
    Ok(run.instrs)
}

/// A block of this name behind its label.
fn block(
    alloc: Global,
    reader: &mut Reader<'_>,
    context: &Context<'_>,
    form: TextForm,
    places: &[Token],
    name: Name,
    locals: &mut Locals,
) -> Result<Block, ReadError>
    ensures reads { GivesWith result locals.new reader.new (block_behind context.now form places.now name locals.old reader.old) }
    ensures shrinks { length reader.new ≤ length reader.old }
{
    let instrs = instrs(alloc, reader, context, form, places, locals)?;
    Ok(Block { name, instrs })
}

/// A block with its label, where one stands next.
fn labelled_block(
    alloc: Global,
    reader: &mut Reader<'_>,
    context: &Context<'_>,
    form: TextForm,
    places: &[Token],
    locals: &mut Locals,
) -> Result<Block, ReadError>
    ensures reads { GivesWith result locals.new reader.new (labelled_block_at context.now form places.now locals.old reader.old) }
    ensures shrinks { IfOk result (λ b. length reader.new ≤ length (behind reader.old)) }
    ensures stays { length reader.new ≤ length reader.old }
{
    let label = first_name(reader);
    if locals.labels.has(label) {
        return Err(reader.fault(FaultKind::Twice));
    }
    let name = Items::from_bytes(alloc, context.bytes(label))?;
    locals.labels.add(label)?;
    reader.skip();
    reader.skip();
    let block = block(alloc, reader, context, form, places, name, locals)?;
    Ok(block)
}

/// The first block without a label.
fn unlabelled_block(
    alloc: Global,
    reader: &mut Reader<'_>,
    context: &Context<'_>,
    form: TextForm,
    places: &[Token],
    numbered: usize,
    locals: &mut Locals,
) -> Result<Block, ReadError>
    ensures reads { GivesWith result locals.new reader.new (unlabelled_block_at context.now form places.now numbered locals.old reader.old) }
    ensures shrinks { length reader.new ≤ length reader.old }
{
    let name = decimal_name(alloc, numbered)?;
    let label = context.names.number_of(name.as_slice());
    locals.labels.add_some(label)?;
    let block = block(alloc, reader, context, form, places, name, locals)?;
    Ok(block)
}

/// The first block of a function.
fn first_block(
    alloc: Global,
    reader: &mut Reader<'_>,
    context: &Context<'_>,
    form: TextForm,
    places: &[Token],
    numbered: usize,
    locals: &mut Locals,
) -> Result<Block, ReadError>
    ensures reads { GivesWith result locals.new reader.new (first_block_at context.now form places.now numbered locals.old reader.old) }
    ensures shrinks { length reader.new ≤ length reader.old }
{
    if has_label(reader) {
        let block = labelled_block(alloc, reader, context, form, places, locals)?;
        return Ok(block);
    }
    let block = unlabelled_block(alloc, reader, context, form, places, numbered, locals)?;
    Ok(block)
}

/// A further block of a function.
fn body_step(
    alloc: Global,
    reader: &mut Reader<'_>,
    context: &Context<'_>,
    form: TextForm,
    places: &[Token],
    blocks: &mut Items<Block>,
    locals: &mut Locals,
) -> Result<(), ReadError>
    ensures reads { Leaves result (blocks.new, locals.new) reader.new (body_step context.now form places.now (blocks.old, locals.old) reader.old) }
    ensures shrinks { IfOk result (λ b. length reader.new ≤ length (behind reader.old)) }
    ensures stays { length reader.new ≤ length reader.old }
{
    let block = labelled_block(alloc, reader, context, form, places, locals)?;
    blocks.push(block)?;
    Ok(())
}

/// Further blocks of a function, as long as labels stand next.
fn further_blocks(
    alloc: Global,
    reader: &mut Reader<'_>,
    context: &Context<'_>,
    form: TextForm,
    places: &[Token],
    blocks: &mut Items<Block>,
    locals: &mut Locals,
) -> Result<(), ReadError>
    ensures reads { Leaves result (blocks.new, locals.new) reader.new (further_blocks_at context.now form places.now (blocks.old, locals.old) reader.old) }
    ensures shrinks { length reader.new ≤ length reader.old }
{
    while has_label(reader) {
        body_step(alloc, reader, context, form, places, blocks, locals)?;
    }
    Ok(())
}

/// One block or more.
fn some_blocks(
    alloc: Global,
    reader: &mut Reader<'_>,
    context: &Context<'_>,
    form: TextForm,
    places: &[Token],
    numbered: usize,
    registers: Numbers,
) -> Result<Items<Block>, ReadError>
    ensures reads { Gives result reader.new (some_blocks_at context.now form places.now numbered registers reader.old) }
    ensures shrinks { length reader.new ≤ length reader.old }
{
    let mut locals = Locals {
        registers,
        labels: Numbers::new(alloc),
    };
    let first = first_block(alloc, reader, context, form, places, numbered, &mut locals)?;
    let mut blocks = Items::new(alloc);
    blocks.push(first)?;
    further_blocks(
        alloc,
        reader,
        context,
        form,
        places,
        &mut blocks,
        &mut locals,
    )?;
    Ok(blocks)
}

/// Goes over the brace behind the blocks.
fn close(reader: &mut Reader<'_>) -> Result<(), ReadError>
    ensures reads { Passes result reader.new (close_at reader.old) }
    ensures shrinks { length reader.new ≤ length reader.old }
{
    if reader.takes(Mark::CloseBrace) {
        return Ok(());
    }
    if ends_in_label(reader) {
        return Err(end());
    }
    Err(reader.fault(FaultKind::Statement))
}

/// The blocks of a function behind its brace, and the brace behind them.
///
/// `numbered` parameters have a number for a name, which is the name of the first block where that has no label, and
/// `registers` are the numbers of the parameters' names. A register that is given twice, and a label that stands twice, are
/// fault `Twice`. What stands behind a terminator has to be a label or the brace; where the text ends behind a word that may
/// yet be a label, the fault is at the end.
pub fn blocks(
    alloc: Global,
    reader: &mut Reader<'_>,
    context: &Context<'_>,
    form: TextForm,
    places: &[Token],
    numbered: usize,
    registers: Numbers,
) -> Result<Items<Block>, ReadError>
    ensures reads { Gives result reader.new (blocks_at context.now form places.now numbered registers reader.old) }
    ensures shrinks { length reader.new ≤ length reader.old }
{
    let blocks = some_blocks(alloc, reader, context, form, places, numbered, registers)?;
    close(reader)?;
    Ok(blocks)
}

/// The number of the name of the next token.
fn first_name(reader: &Reader<'_>) -> u32
    ensures { result ≡ first_name reader.now }
{
    match reader.rest {
        [] => 0,
        [token, ..] => token.name,
    }
}
