//! What is called in an image.
ghost use Rattle.std.specs.Prelude.{◌≡◌, slice_get, IfOk};
ghost use Rattle.lx_instrument.specs.Made.{called_at, callee_by, op_by};

use lx_ir::instr::{Callee, Op};
use lx_ir::module::Symbol;
use lx_ir_copies::{copied_call, copied_op};
use lx_words::Memory;
use std::alloc::Global;

fn number_at(numbers: &[u32], f: u32) -> Option<u32>
    ensures { result ≡ slice_get numbers.now f }
{
    numbers.get(f as usize).copied()
}

/// The function with this number in the image; a number past the functions calls nothing.
fn called_at(number: Option<u32>) -> Callee
    ensures { result ≡ called_at number }
{
    match number {
        Some(number) => Callee::Symbol(Symbol::Function(number)),
        None => Callee::Symbol(Symbol::Global(0)),
    }
}

/// What is called in the image, by the numbers of functions there.
fn callee_by(numbers: &[u32], callee: Callee) -> Callee
    ensures { result ≡ callee_by numbers.now callee }
{
    match callee {
        Callee::Symbol(Symbol::Function(f)) => called_at(number_at(numbers, f)),
        Callee::Symbol(Symbol::Global(g)) => Callee::Symbol(Symbol::Global(g)),
        Callee::Register(register) => Callee::Register(register),
    }
}

/// What an instruction of the module is in its image, by the numbers of functions there.
pub(crate) fn op_by(alloc: Global, numbers: &[u32], op: &Op) -> Result<Op, Memory>
    ensures { IfOk result (λ o. o ≡ op_by numbers.now op.now) }
{
    match op {
        Op::Call {
            to,
            ret,
            callee,
            args,
        } => copied_call(
            alloc,
            *to,
            *ret,
            callee_by(numbers, *callee),
            args.as_slice(),
        ),
        Op::Guard { .. } => Ok(Op::Unreachable),
        Op::Check { .. } => Ok(Op::Unreachable),
        _ => copied_op(alloc, op),
    }
}
