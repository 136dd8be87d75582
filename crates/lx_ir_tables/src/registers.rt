//! The numbers of the registers of a function.

ghost use Rattle.std.specs.Prelude.{◌≡◌, OnOk};
ghost use Rattle.lx_ir_tables.specs.Registers.{with_parameters, with_given, with_given_by, with_all_given, with_read, with_operands, with_read_by, with_all_read, registers_of};

use crate::numbering::Numbering;
use lx_ir::instr::{Argument, Instr};
use lx_ir::module::{Block, Parameter, Value};
use lx_ir_tokens::NameTable;
use lx_ir_uses::{given_by, operands_where};
use lx_words::Memory;
use std::alloc::Global;

fn add_parameters(
    registers: &mut Numbering,
    names: &NameTable,
    params: &[Parameter],
) -> Result<(), Memory>
    ensures { OnOk result (registers.new ≡ with_parameters names.now registers.old params.now) }
{
    for param in params {
        registers.add(names.number_of(param.name.as_slice()))?;
    }
    Ok(())
}

fn add_given(registers: &mut Numbering, given: Option<u32>) -> Result<(), Memory>
    ensures { OnOk result (registers.new ≡ with_given registers.old given) }
{
    if given.is_some() {
        registers.add(given)?;
    }
    Ok(())
}

fn add_given_by(registers: &mut Numbering, instrs: &[Instr]) -> Result<(), Memory>
    ensures { OnOk result (registers.new ≡ with_given_by registers.old instrs.now) }
{
    for instr in instrs {
        add_given(registers, given_by(&instr.op))?;
    }
    Ok(())
}

/// Adds what the instructions of blocks give.
fn add_all_given(registers: &mut Numbering, blocks: &[Block]) -> Result<(), Memory>
    ensures { OnOk result (registers.new ≡ with_all_given registers.old blocks.now) }
{
    for block in blocks {
        add_given_by(registers, block.instrs.as_slice())?;
    }
    Ok(())
}

fn add_read(registers: &mut Numbering, value: Value) -> Result<(), Memory>
    ensures { OnOk result (registers.new ≡ with_read registers.old value) }
{
    if let Value::Register(name) = value {
        if registers.is_new(name) {
            registers.add(Some(name))?;
        }
    }
    Ok(())
}

fn add_operands(registers: &mut Numbering, operands: &[Argument]) -> Result<(), Memory>
    ensures { OnOk result (registers.new ≡ with_operands registers.old operands.now) }
{
    for operand in operands {
        add_read(registers, operand.value)?;
    }
    Ok(())
}

fn add_read_by(
    alloc: Global,
    registers: &mut Numbering,
    instrs: &[Instr],
    lines: bool,
) -> Result<(), Memory>
    ensures { OnOk result (registers.new ≡ with_read_by lines registers.old instrs.now) }
{
    for instr in instrs {
        let operands = operands_where(alloc, &instr.op, lines)?;
        add_operands(registers, &operands)?;
    }
    Ok(())
}

/// Adds what the instructions of blocks only read: the lines that images alone have (`lines`), or all others.
fn add_all_read(
    alloc: Global,
    registers: &mut Numbering,
    blocks: &[Block],
    lines: bool,
) -> Result<(), Memory>
    ensures { OnOk result (registers.new ≡ with_all_read lines registers.old blocks.now) }
{
    for block in blocks {
        add_read_by(alloc, registers, block.instrs.as_slice(), lines)?;
    }
    Ok(())
}

/// Numbering the registers of a function, in whose instructions each register is the number of its name: the parameters,
/// then what the instructions give, then those that they only read, where they are first read, and last those that only the
/// lines read that images alone have.
pub fn number_registers(
    alloc: Global,
    names: &NameTable,
    params: &[Parameter],
    blocks: &[Block],
    registers: &mut Numbering,
) -> Result<(), Memory>
    ensures { OnOk result (registers.new ≡ registers_of names.now registers.old params.now blocks.now) }
{
    add_parameters(registers, names, params)?;
    add_all_given(registers, blocks)?;
    add_all_read(alloc, registers, blocks, false)?;
    add_all_read(alloc, registers, blocks, true)?;
    Ok(())
}
