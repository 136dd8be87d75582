//! Addresses of parts of values, by routes that are reckoned before the program runs.
ghost use Rattle.std.specs.Prelude.{◌≡◌, ℕ, ◌^◌, Some, IfSome};
ghost use Rattle.lx_words.specs.Word.{signed, modulo};
ghost use Rattle.lx_ir.specs.IrType.{IrType};
ghost use Rattle.lx_ir.specs.Layout.{element_offset};
ghost use Rattle.lx_ir.specs.declared.instr.Op.TheVariants as op;
ghost use Rattle.lx_image_code.specs.Jumps.{op_at};
ghost use Rattle.lx_code.specs.Routes.{leg_offset, legs_offset, route_offset};
ghost use Rattle.lx_model.specs.Effect.{effect, types_of, indices_of, value_effect};
ghost use Rattle.lx_images.specs.Image.{image_routine};
ghost use Rattle.lx_image_steps.specs.Standing.{run_of};

use crate::activation::Activation;
use crate::elements::signed_bits;
use crate::operand::operand;
use lx_code::{Leg, Route};
use lx_image_code::Code;
use lx_ir::instr::{Argument, Op};
use lx_ir::module::Value;
use lx_words::{Width, Word};

// How far an index goes, modulo 2^64.
fn leg_bytes(leg: Leg, index: Word) -> u64
    ensures { result ≡ modulo (leg_offset leg (signed index)) (2 ^ 64) }
{
    match leg {
        Leg::Stride(size) => signed_bits(index).wrapping_mul(size),
        Leg::Start(offset) => offset,
    }
}

// How far indices go by their legs, modulo 2^64.
fn legs_bytes(code: &Code, run: &Activation, legs: &[Leg], indices: &[Argument]) -> u64
    ensures { result ≡ modulo (legs_offset legs.now (indices_of code.now.program (run_of code.now run.now) indices.now)) (2 ^ 64) }
{
    let mut offset = 0u64;
    for place in 0..legs.len().min(indices.len()) {
        let index = operand(code, run, &indices[place].value);
        offset = offset.wrapping_add(leg_bytes(legs[place], index));
    }
    offset
}

// How far indices go by a route, modulo 2^64.
fn route_bytes(code: &Code, run: &Activation, route: &Route, indices: &[Argument]) -> u64
    ensures { result ≡ modulo (route_offset route.now (indices_of code.now.program (run_of code.now run.now) indices.now)) (2 ^ 64) }
{
    match indices.split_first() {
        Some((first, others)) => {
            let count = signed_bits(operand(code, run, &first.value));
            let start = count.wrapping_mul(route.size);
            start.wrapping_add(legs_bytes(code, run, route.legs.as_slice(), others))
        }
        None => 0,
    }
}

// The address that a route leads to from an address.
fn element_along(
    code: &Code,
    run: &Activation,
    route: &Route,
    base: &Value,
    indices: &[Argument],
) -> Word
    ensures { (to : ℕ) → (ty : IrType) → element_offset (types_of code.now.program (run_of code.now run.now)) ty (indices_of code.now.program (run_of code.now run.now) indices.now) ≡ route_offset route.now (indices_of code.now.program (run_of code.now run.now) indices.now) → value_effect (run_of code.now run.now) result ≡ effect code.now.program (run_of code.now run.now) (op.GetElementPtr to ty base.now indices.now) }
{
    let base = operand(code, run, base).bits;
    Word {
        width: Width::W64,
        bits: base.wrapping_add(route_bytes(code, run, route, indices)),
    }
}

/// What a `getelementptr` at a place of the block that runs gives, by its route; none, where it has none.
pub(crate) fn element_by_table(code: &Code, run: &Activation, place: usize, op: &Op) -> Option<Word>
    requires { op_at (image_routine code.now run.now.function).blocks run.now.block place ≡ Some op.now }
    ensures { IfSome result (λ w. value_effect (run_of code.now run.now) w ≡ effect code.now.program (run_of code.now run.now) op.now) }
{
    match op {
        Op::GetElementPtr { base, indices, .. } => {
            match code.route(run.function, run.block, place) {
                Some(route) => Some(element_along(code, run, route, base, indices.as_slice())),
                None => None,
            }
        }
        _ => None,
    }
}
