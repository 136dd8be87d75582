//! Instructions that ask for memory.
ghost use Rattle.std.specs.Prelude.{◌≡◌, ◌<◌, ◌≤◌, Some, IfSome, IsTrue};
ghost use Rattle.std.specs.Int.{next_multiple_of};
ghost use Rattle.lx_image_code.specs.Jumps.{op_at};
ghost use Rattle.lx_model.specs.declared.request.What.TheVariants as what;
ghost use Rattle.lx_images.specs.Image.{image_routine};
ghost use Rattle.lx_model.specs.Effect.{effect, types_of, Wants};
ghost use Rattle.lx_ir.specs.declared.instr.Op.TheVariants as op;
ghost use Rattle.lx_ir.specs.Layout.{is_lawful_type};
ghost use Rattle.lx_image_steps.specs.Standing.{run_of};
ghost use Rattle.std.specs.Prelude.{ℕ, Bool};

use crate::activation::Activation;
use crate::operand::{operand, text_of};
use lx_code::{Room, width_of};
use lx_image_code::Code;
use lx_ir::instr::{Argument, Op};
use lx_ir::module::Value;
use lx_ir::types::{IrType, Scalar};
use lx_ir::{align_of, size_of};
use lx_model::request::What;
use lx_words::{Width, Word};

/// Bytes of the stack for a value of a type.
pub(crate) fn alloca(code: &Code, run: &Activation, ty: &IrType) -> What
    requires { IsTrue (is_lawful_type (types_of code.now.program (run_of code.now run.now)) ty.now) }
    ensures { (to : ℕ) → Wants result ≡ effect code.now.program (run_of code.now run.now) (op.Alloca to ty.now) }
{
    let text = text_of(code, run);
    let align = align_of(text, ty);
    What::Alloca {
        at: run.high.next_multiple_of(align),
        size: size_of(text, ty),
    }
}

// Bytes of the stack for a room.
fn alloca_of(run: &Activation, room: Room) -> What
    requires nonzero { 0 < room.align }
    requires small { room.align ≤ 8 }
    ensures { result ≡ what.Alloca (next_multiple_of run.now.high room.align) room.size }
{
    What::Alloca {
        at: run.high.next_multiple_of(room.align),
        size: room.size,
    }
}

/// What an `alloca` at a place of the block that runs asks, by the room that a table has; none, where it has none.
pub(crate) fn alloca_by_table(code: &Code, run: &Activation, place: usize, op: &Op) -> Option<What>
    requires { op_at (image_routine code.now run.now.function).blocks run.now.block place ≡ Some op.now }
    ensures { IfSome result (λ w. Wants w ≡ effect code.now.program (run_of code.now run.now) op.now) }
{
    match op {
        Op::Alloca { .. } => match code.room(run.function, run.block, place) {
            Some(room) => Some(alloca_of(run, room)),
            None => None,
        },
        _ => None,
    }
}

/// A word of memory.
pub(crate) fn load(code: &Code, run: &Activation, ty: &Scalar, at: &Value) -> What
    ensures { (to : ℕ) → Wants result ≡ effect code.now.program (run_of code.now run.now) (op.Load to ty.now at.now) }
{
    What::Load {
        at: operand(code, run, at).bits,
        width: width_of(ty),
    }
}

/// A word into memory.
pub(crate) fn store(code: &Code, run: &Activation, ty: &Scalar, value: &Value, at: &Value) -> What
    ensures { Wants result ≡ effect code.now.program (run_of code.now run.now) (op.Store ty.now value.now at.now) }
{
    let value = operand(code, run, value);
    What::Store {
        at: operand(code, run, at).bits,
        value: Word::new(width_of(ty), value.bits),
    }
}

/// Bytes of memory to another place.
pub(crate) fn copy(
    code: &Code,
    run: &Activation,
    dest: &Value,
    source: &Value,
    len: &Argument,
) -> What
    ensures { (moves : Bool) → Wants result ≡ effect code.now.program (run_of code.now run.now) (op.CopyBlock moves dest.now source.now len.now) }
{
    What::Copy {
        to: operand(code, run, dest).bits,
        from: operand(code, run, source).bits,
        len: operand(code, run, &len.value).bits,
    }
}

/// A byte into bytes of memory.
pub(crate) fn fill(
    code: &Code,
    run: &Activation,
    dest: &Value,
    byte: &Value,
    len: &Argument,
) -> What
    ensures { Wants result ≡ effect code.now.program (run_of code.now run.now) (op.FillBlock dest.now byte.now len.now) }
{
    let byte = operand(code, run, byte).bits % 0x100;
    What::Fill {
        to: operand(code, run, dest).bits,
        byte: byte as u8,
        len: operand(code, run, &len.value).bits,
    }
}
