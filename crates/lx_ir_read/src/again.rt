//! The further readings of a text, by a context that knows all its names.

ghost use Rattle.std.specs.Prelude.{◌≡◌, [], length, OnOk};
ghost use Rattle.lx_ir_tables.specs.Numbering.{numbering, table_of};
ghost use Rattle.lx_ir_read.specs.Again.{registers_in, with_registers, no_draft, again_at, all_again};
ghost use Rattle.lx_ir_read.specs.Fault.{line_shown};
ghost use Rattle.lx_ir_read.specs.Says.{Becomes, Answers};

use crate::draft::Draft;
use crate::first::Found;
use crate::line_shown;
use crate::tables::tokens_left;
use lx_ir_calls::TextForm;
use lx_ir_statements::{Statement, statement};
use lx_ir_tables::{Numbering, number_registers};
use lx_ir_terms::{Context, ReadError, Reader};
use lx_ir_tokens::{IrTokens, NameTable};
use lx_words::Memory;
use std::alloc::Global;

/// Numbers the registers of a statement, which only a function has.
fn add_registers(
    alloc: Global,
    names: &NameTable,
    statement: &Statement,
    registers: &mut Numbering,
) -> Result<(), Memory>
    requires { registers.old ≡ numbering (length names.now) [] }
    ensures { OnOk result (registers.new ≡ registers_in names.now statement.now) }
{
    if let Statement::Function { params, blocks, .. } = statement {
        number_registers(
            alloc,
            names,
            params.as_slice(),
            blocks.as_slice(),
            registers,
        )?;
    }
    Ok(())
}

fn with_registers<'a>(context: &Context<'a>, registers: &'a [Option<u32>]) -> Context<'a>
    ensures { result ≡ with_registers context.now registers.entry.now }
{
    Context {
        types: context.types,
        symbols: context.symbols,
        registers,
        known: context.known,
        limits: context.limits,
        names: context.names,
        complete: context.complete,
    }
}

/// Reads a statement again, whose registers are these.
fn read_again(
    alloc: Global,
    context: &Context<'_>,
    form: TextForm,
    ir: &IrTokens,
    registers: &Numbering,
    draft: &mut Draft,
    found: &Found,
) -> Result<(), ReadError>
    requires { registers.now ≡ registers_in context.now.names found.now.statement }
    ensures { Becomes result draft.new (again_at context.now form ir.now.places ir.now.toks draft.old found.now) }
{
    let known = with_registers(context, registers.table());
    let mut reader = Reader::new(tokens_left(found.left, ir.toks.as_slice()));
    let places = ir.places.as_slice();
    let again = statement(alloc, &mut reader, &known, form, places, &draft.defined)?;
    let line = line_shown(places, found.left);
    draft.add(alloc, context, registers, line, again)?;
    Ok(())
}

/// Reads a statement again. The table of registers is as before, but where memory runs out.
fn again(
    alloc: Global,
    context: &Context<'_>,
    form: TextForm,
    ir: &IrTokens,
    registers: &mut Numbering,
    draft: &mut Draft,
    found: &Found,
) -> Result<(), ReadError>
    requires { registers.old ≡ numbering (length context.now.names) [] }
    ensures draft { Becomes result draft.new (again_at context.now form ir.now.places ir.now.toks draft.old found.now) }
    ensures registers { OnOk result (registers.new ≡ numbering (length context.now.names) []) }
{
    add_registers(alloc, context.names, &found.statement, registers)?;
    read_again(alloc, context, form, ir, registers, draft, found)?;
    registers.clear();
    Ok(())
}

/// Reads statements again, up to the first fault.
pub fn all_again(
    alloc: Global,
    context: &Context<'_>,
    form: TextForm,
    ir: &IrTokens,
    found: &[Found],
) -> Result<Draft, ReadError>
    ensures { Answers result (all_again context.now form ir.now.places ir.now.toks no_draft found.now) }
{
    let mut registers = Numbering::new(alloc, context.names.len())?;
    let mut draft = Draft::new(alloc);
    for f in found {
        again(alloc, context, form, ir, &mut registers, &mut draft, f)?;
    }
    Ok(draft)
}
