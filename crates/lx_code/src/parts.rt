//! Parts of types.
ghost use Rattle.std.specs.Prelude.{◌≡◌, IsTrue, nat_abs, option_copied, slice_get};
ghost use Rattle.lx_words.specs.Word.{signed};
ghost use Rattle.lx_ir.specs.Layout.{fields_of, field_of, is_lawful_type, part_or, unnamed};
ghost use Rattle.lx_code.specs.Parts.{IsPart, element_in};

use lx_ir::module::Module;
use lx_ir::types::{IrType, TypeNode};
use lx_ir::{offset_at, unnamed};
use lx_words::{Word, below_minus_one, is_negative};

/// A part of a type: how many bytes it lies behind the start, and its type.
#[derive(Clone, Copy)]
pub struct Part<'a> {
    pub offset: u64,
    pub ty: &'a IrType,
}

// How far a word lies from 0.
fn magnitude(word: Word) -> u64
    ensures { result ≡ nat_abs (signed word) }
{
    if is_negative(word) {
        below_minus_one(word) + 1
    } else {
        word.bits
    }
}

// The fields of a struct.
#[tactic(auto, using(lx_ir::proofs::Layouts::list_back))]
fn fields_of(ty: &IrType) -> &[IrType]
    ensures { result.now ≡ fields_of ty.now }
{
    match &ty.node {
        TypeNode::Struct(fields) | TypeNode::Packed(fields) => fields.as_slice(),
        _ => &[],
    }
}

fn field_at(fields: &[IrType], number: usize) -> Option<&IrType>
    ensures { option_copied result ≡ slice_get fields.now number }
{
    fields.get(number)
}

/// The type of an array's elements; none, where the type is no array.
pub fn element_of(ty: &IrType) -> Option<&IrType>
    ensures { option_copied result ≡ element_in ty.now }
{
    match &ty.node {
        TypeNode::Array(_, element) => Some(element),
        _ => None,
    }
}

// The field with a number; where there is none, the type itself.
fn field_of<'a>(text: &'a Module, ty: &'a IrType, number: u64) -> Part<'a>
    requires { IsTrue (is_lawful_type text.now.types ty.now) }
    ensures part { IsPart text.now.types result.offset result.ty.now (part_or (field_of text.now.types (unnamed text.now.types ty.now) number) (unnamed text.now.types ty.now)) }
    ensures sized { IsTrue (is_lawful_type text.now.types result.ty.now) }
{
    let number = number as usize;
    let fields = fields_of(unnamed(text, ty));
    match offset_at(text, ty, number) {
        Some(offset) => match field_at(fields, number) {
            Some(field) => Part { offset, ty: field },
            None => unreachable!(),
        },
        None => Part { offset: 0, ty },
    }
}

/// The field that an index names, by its distance from 0; where there is none, the type itself.
pub fn field_named<'a>(text: &'a Module, ty: &'a IrType, index: Word) -> Part<'a>
    requires { IsTrue (is_lawful_type text.now.types ty.now) }
    ensures part { IsPart text.now.types result.offset result.ty.now (part_or (field_of text.now.types (unnamed text.now.types ty.now) (nat_abs (signed index))) (unnamed text.now.types ty.now)) }
    ensures sized { IsTrue (is_lawful_type text.now.types result.ty.now) }
{
    field_of(text, ty, magnitude(index))
}
