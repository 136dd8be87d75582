//! The guards and checks before instructions.
ghost use Rattle.std.specs.Prelude.{◌≡◌, option_to_list};
ghost use Rattle.lx_words.specs.declared.word.Width.TheVariants.{W64};
ghost use Rattle.lx_words.specs.Word.{word};
ghost use Rattle.lx_ir.specs.declared.module.Value.TheVariants as value;
ghost use Rattle.lx_ir.specs.declared.instr.Op.TheVariants as op;
ghost use Rattle.lx_image_texts.specs.Marks.{is_narrow, mark_of, size_value};
ghost use Rattle.lx_instrument.specs.Made.{check_of};

use lx_ir::instr::{Callee, Op};
use lx_ir::module::{Constant, Value};
use lx_ir::types::Scalar;
use lx_spared::scalar_size;
use lx_words::{Width, Word};

fn long(bits: u8) -> Word
    ensures { result ≡ word W64 bits }
{
    Word {
        width: Width::W64,
        bits: u64::from(bits),
    }
}

/// The size of a stored value, as a guard names it.
fn size_value(ty: Scalar) -> Value
    ensures { result ≡ size_value ty }
{
    Value::Constant(Constant::Number(long(scalar_size(ty))))
}

/// Whether a length has the guard of 32 bits.
fn is_narrow(ty: Scalar) -> bool
    ensures { result ≡ is_narrow ty }
{
    match ty {
        Scalar::Int(Width::W32) => true,
        _ => false,
    }
}

/// The check of what is called.
fn check_of(callee: Callee) -> Option<Op>
    ensures { option_to_list result ≡ check_of callee }
{
    match callee {
        Callee::Register(register) => Some(Op::Check {
            target: Value::Register(register),
        }),
        Callee::Symbol(_) => None,
    }
}

/// The guard or check that stands before an instruction.
pub(crate) fn mark_of(op: &Op) -> Option<Op>
    ensures { option_to_list result ≡ mark_of op.now }
{
    match op {
        Op::Store { ty, at, .. } => Some(Op::Guard {
            at: *at,
            size: size_value(*ty),
            narrow: false,
        }),
        Op::CopyBlock { dest, len, .. } => Some(Op::Guard {
            at: *dest,
            size: len.value,
            narrow: is_narrow(len.ty),
        }),
        Op::FillBlock { dest, len, .. } => Some(Op::Guard {
            at: *dest,
            size: len.value,
            narrow: is_narrow(len.ty),
        }),
        Op::Call { callee, .. } => check_of(*callee),
        _ => None,
    }
}
