//! Mentions of names that images alone have.
ghost use Rattle.std.specs.Prelude.{◌≡◌, IfOk};
ghost use Rattle.std.specs.List.{list_any};
ghost use Rattle.lx_ir.specs.Text.{symbol_name};
ghost use Rattle.lx_image_texts.specs.ImageFaults.{calls_well, constant_mentions, is_own_symbol, pointer_mentions, reaches_body, value_mentions};

use crate::names::is_own_name;
use crate::text::ImageText;
use lx_ir::instr::{Argument, Op};
use lx_ir::module::{Constant, Module, Pointer, Symbol, Value};
use lx_ir_uses::operands_of;
use lx_words::Memory;
use std::alloc::Global;

/// The name of a function or a global; a number that names nothing has the empty name.
fn symbol_name(m: &Module, symbol: Symbol) -> &[u8]
    ensures { result.now ≡ symbol_name m.now symbol }
{
    match symbol {
        Symbol::Function(k) => match m.functions.items.get(k as usize) {
            Some(function) => function.name.as_slice(),
            None => b"",
        },
        Symbol::Global(k) => match m.globals.items.get(k as usize) {
            Some(global) => global.name.as_slice(),
            None => b"",
        },
    }
}

fn is_own_symbol(m: &Module, symbol: Symbol) -> bool
    ensures { result ≡ is_own_symbol m.now symbol }
{
    is_own_name(symbol_name(m, symbol))
}

fn pointer_mentions(m: &Module, pointer: Pointer) -> bool
    ensures { result ≡ pointer_mentions m.now pointer }
{
    match pointer {
        Pointer::Symbol(symbol, _) => is_own_symbol(m, symbol),
        _ => false,
    }
}

/// Whether a constant names a function or global with a name that images alone have.
pub fn constant_mentions(m: &Module, constant: Constant) -> bool
    ensures { result ≡ constant_mentions m.now constant }
{
    match constant {
        Constant::Pointer(pointer) | Constant::Cast(pointer, _) => pointer_mentions(m, pointer),
        _ => false,
    }
}

fn value_mentions(m: &Module, value: Value) -> bool
    ensures { result ≡ value_mentions m.now value }
{
    match value {
        Value::Register(_) => false,
        Value::Constant(constant) => constant_mentions(m, constant),
    }
}

fn operands_mention(m: &Module, operands: &[Argument]) -> bool
    ensures { result ≡ list_any (λ a. value_mentions m.now a.value) operands.now }
{
    operands
        .iter()
        .any(|operand| value_mentions(m, operand.value))
}

/// Whether an instruction calls, if anything, what may be called.
fn calls_well(text: &ImageText<'_>, op: &Op) -> bool
    ensures { result ≡ calls_well text.now op.now }
{
    match op {
        Op::Call { callee, .. } => text.may_call(*callee),
        _ => true,
    }
}

/// Whether an instruction calls an import in the place of its wrapper, or mentions a name that images alone have.
pub(crate) fn reaches_body(alloc: Global, text: &ImageText<'_>, op: &Op) -> Result<bool, Memory>
    ensures { IfOk result (λ reaches. reaches ≡ reaches_body text.now op.now) }
{
    let operands = operands_of(alloc, op)?;
    Ok(!calls_well(text, op) || operands_mention(text.module(), &operands))
}
