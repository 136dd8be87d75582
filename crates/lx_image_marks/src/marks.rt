//! Guards and checks, and what wants them.
ghost use Rattle.std.specs.Prelude.{◌≡◌, ◌&&◌};
ghost use Rattle.lx_words.specs.declared.word.Width.TheVariants.{W64};
ghost use Rattle.lx_words.specs.Word.{word};
ghost use Rattle.lx_ir.specs.declared.instr.Op.TheVariants as op;
ghost use Rattle.lx_ir.specs.Lookup.{is_indirect_call, is_register, is_write};
ghost use Rattle.lx_ir.specs.Faults.{same_value};
ghost use Rattle.lx_image_texts.specs.Marks.{is_narrow, mark_of, size_value};
ghost use Rattle.lx_image_texts.specs.ImageFaults.{is_mark_of, same_narrow};
ghost use Rattle.lx_image_marks.specs.Sites.{fits_called};

use lx_ir::instr::{Callee, Op};
use lx_ir::module::{Constant, Value};
use lx_ir::types::Scalar;
use lx_ir_verify::is_same_value;
use lx_spared::scalar_size;
use lx_words::{Width, Word};

/// Whether an instruction is a store or a block write.
pub(crate) fn is_write(op: &Op) -> bool
    ensures { result ≡ is_write op.now }
{
    matches!(
        op,
        Op::Store { .. } | Op::CopyBlock { .. } | Op::FillBlock { .. }
    )
}

fn is_register(callee: Callee) -> bool
    ensures { result ≡ is_register callee }
{
    matches!(callee, Callee::Register(_))
}

/// Whether an instruction calls by a register.
pub(crate) fn is_indirect_call(op: &Op) -> bool
    ensures { result ≡ is_indirect_call op.now }
{
    match op {
        Op::Call { callee, .. } => is_register(*callee),
        _ => false,
    }
}

fn long(bits: u8) -> Word
    ensures { result ≡ word W64 bits }
{
    Word {
        width: Width::W64,
        bits: u64::from(bits),
    }
}

/// The size of a stored value, as a guard names it.
fn size_value(ty: Scalar) -> Value
    ensures { result ≡ size_value ty }
{
    Value::Constant(Constant::Number(long(scalar_size(ty))))
}

/// Whether a length has the guard of 32 bits.
fn is_narrow(ty: Scalar) -> bool
    ensures { result ≡ is_narrow ty }
{
    match ty {
        Scalar::Int(Width::W32) => true,
        _ => false,
    }
}

/// A guard: the place, the size, and whether that is named in 32 bits.
#[derive(Clone, Copy)]
pub(crate) struct Guard {
    pub(crate) at: Value,
    pub(crate) size: Value,
    pub(crate) narrow: bool,
}

fn is_same_narrow(a: bool, b: bool) -> bool
    ensures { result ≡ same_narrow a b }
{
    if a { b } else { !b }
}

/// Whether a guard has this place and this size.
fn guards(guard: &Guard, at: Value, size: Value, narrow: bool) -> bool
    ensures { result ≡ (same_value guard.now.at at && same_value guard.now.size size && same_narrow guard.now.narrow narrow) }
{
    is_same_value(guard.at, at)
        && is_same_value(guard.size, size)
        && is_same_narrow(guard.narrow, narrow)
}

/// Whether a guard is the mark that an instruction wants, if it wants one.
#[tactic(auto, using(crate::proofs::Fitting::guard_called))]
pub(crate) fn guard_fits(guard: &Guard, next: &Op) -> bool
    ensures { result ≡ is_mark_of (op.Guard guard.now.at guard.now.size guard.now.narrow) (mark_of next.now) }
{
    match next {
        Op::Store { ty, at, .. } => guards(guard, *at, size_value(*ty), false),
        Op::CopyBlock { dest, len, .. } => guards(guard, *dest, len.value, is_narrow(len.ty)),
        Op::FillBlock { dest, len, .. } => guards(guard, *dest, len.value, is_narrow(len.ty)),
        Op::Call { callee, .. } => !is_register(*callee),
        _ => true,
    }
}

/// Whether a check of this is the one that a call wants, if it wants one.
fn check_fits_called(target: Value, callee: Callee) -> bool
    ensures { result ≡ fits_called (op.Check target) callee }
{
    match callee {
        Callee::Register(register) => is_same_value(target, Value::Register(register)),
        Callee::Symbol(_) => true,
    }
}

/// Whether a check of this is the mark that an instruction wants, if it wants one.
#[tactic(auto, using(crate::proofs::Fitting::check_called))]
pub(crate) fn check_fits(target: Value, next: &Op) -> bool
    ensures { result ≡ is_mark_of (op.Check target) (mark_of next.now) }
{
    match next {
        Op::Store { .. } => false,
        Op::CopyBlock { .. } => false,
        Op::FillBlock { .. } => false,
        Op::Call { callee, .. } => check_fits_called(target, *callee),
        _ => true,
    }
}
