//! Addresses of parts of values.
ghost use Rattle.std.specs.Prelude.{◌≡◌, ℕ, ◌+◌, ◌%◌, ◌^◌, IsTrue};
ghost use Rattle.lx_words.specs.Word.{signed, modulo};
ghost use Rattle.lx_ir.specs.Layout.{element_offset, is_lawful_type, part_at, part_of, unnamed};
ghost use Rattle.lx_image_steps.specs.Parts.{IsPartModulo};
ghost use Rattle.lx_ir.specs.declared.instr.Op.TheVariants as op;
ghost use Rattle.lx_model.specs.Effect.{effect, types_of, indices_of, value_effect};
ghost use Rattle.lx_image_steps.specs.Standing.{run_of};

use crate::activation::Activation;
use crate::operand::{operand, text_of};
use lx_code::{Part, element_of, field_named};
use lx_image_code::Code;
use lx_ir::instr::Argument;
use lx_ir::module::{Module, Value};
use lx_ir::types::IrType;
use lx_ir::{size_of, unnamed};
use lx_words::{Width, Word, resize};

/// The signed value of a word, modulo 2^64.
pub(crate) fn signed_bits(word: Word) -> u64
    ensures { result ≡ modulo (signed word) (2 ^ 64) }
{
    resize(word, Width::W64, true).bits
}

// The part that an index names, an element of an array or a field of a struct: how far it lies is modulo 2^64.
fn part_of<'a>(text: &'a Module, ty: &'a IrType, index: Word) -> Part<'a>
    requires { IsTrue (is_lawful_type text.now.types ty.now) }
    ensures part { IsPartModulo text.now.types result.offset result.ty.now (part_of text.now.types (unnamed text.now.types ty.now) (signed index)) }
    ensures sized { IsTrue (is_lawful_type text.now.types result.ty.now) }
{
    match element_of(unnamed(text, ty)) {
        Some(element) => Part {
            offset: signed_bits(index).wrapping_mul(size_of(text, element)),
            ty: element,
        },
        None => field_named(text, ty, index),
    }
}

// How far indices go within a value, modulo 2^64.
fn inner_offset(
    code: &Code,
    run: &Activation,
    text: &Module,
    ty: &IrType,
    indices: &[Argument],
) -> u64
    requires { IsTrue (is_lawful_type text.now.types ty.now) }
    ensures { result ≡ modulo (part_at text.now.types ty.now (indices_of code.now.program (run_of code.now run.now) indices.now)).offset (2 ^ 64) }
{
    let mut offset = 0u64;
    let mut inner = ty;
    for index in indices {
        let part = part_of(text, inner, operand(code, run, &index.value));
        offset = offset.wrapping_add(part.offset);
        inner = part.ty;
    }
    offset
}

// How far indices go, modulo 2^64: the first counts whole values.
fn offset(code: &Code, run: &Activation, text: &Module, ty: &IrType, indices: &[Argument]) -> u64
    requires { IsTrue (is_lawful_type text.now.types ty.now) }
    ensures { result ≡ modulo (element_offset text.now.types ty.now (indices_of code.now.program (run_of code.now run.now) indices.now)) (2 ^ 64) }
{
    match indices.split_first() {
        Some((first, others)) => {
            let count = signed_bits(operand(code, run, &first.value));
            let start = count.wrapping_mul(size_of(text, ty));
            start.wrapping_add(inner_offset(code, run, text, ty, others))
        }
        None => 0,
    }
}

/// The address of a part of a value at an address.
pub(crate) fn element(
    code: &Code,
    run: &Activation,
    ty: &IrType,
    base: &Value,
    indices: &[Argument],
) -> Word
    requires { IsTrue (is_lawful_type (types_of code.now.program (run_of code.now run.now)) ty.now) }
    ensures { (to : ℕ) → value_effect (run_of code.now run.now) result ≡ effect code.now.program (run_of code.now run.now) (op.GetElementPtr to ty.now base.now indices.now) }
{
    let text = text_of(code, run);
    let base = operand(code, run, base).bits;
    Word {
        width: Width::W64,
        bits: base.wrapping_add(offset(code, run, text, ty, indices)),
    }
}
