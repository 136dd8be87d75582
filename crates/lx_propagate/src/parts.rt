//! The field that the last index of a `getelementptr` selects.

ghost use Rattle.std.specs.Prelude.{◌≡◌, ◌∷◌, [], map, option_copied, option_to_list, slice_get};
ghost use Rattle.lx_ir.specs.Layout.{fields_of, part_at, unnamed};
ghost use Rattle.lx_slot_types.specs.Sites.{behind_first, field_if_named, index_number, last_field};
ghost use Rattle.lx_propagate.specs.Parts.{element_in, field_or};

use crate::constants::field_number;
use lx_ir::instr::Argument;
use lx_ir::module::Module;
use lx_ir::types::{IrType, TypeNode};
use lx_ir::unnamed;
use lx_slot_sums::FieldName;

/// The field with a number, where the type is a named struct.
pub fn field_if_named(t: &IrType, index: u64) -> Option<FieldName>
    ensures { field_if_named t.now index ≡ option_to_list result }
{
    match &t.node {
        TypeNode::Named(struct_number) => Some(FieldName {
            struct_number: *struct_number,
            index,
        }),
        _ => None,
    }
}

/// The fields of a struct.
#[tactic(auto, using(lx_ir::proofs::Layouts::list_back))]
fn fields_of(t: &IrType) -> &[IrType]
    ensures { result.now ≡ fields_of t.now }
{
    match &t.node {
        TypeNode::Struct(fields) | TypeNode::Packed(fields) => fields.as_slice(),
        _ => &[],
    }
}

fn field_at(fields: &[IrType], number: u64) -> Option<&IrType>
    ensures { option_copied result ≡ slice_get fields.now number }
{
    fields.get(number as usize)
}

/// The type of an array's elements.
fn element_of(t: &IrType) -> Option<&IrType>
    ensures { option_copied result ≡ element_in t.now }
{
    match &t.node {
        TypeNode::Array(_, element) => Some(element),
        _ => None,
    }
}

/// The type of the field with a number; where there is none, the struct itself.
fn field_or_itself<'a>(t: &'a IrType, number: u64) -> &'a IrType
    ensures { result.now ≡ field_or t.entry.now (slice_get (fields_of t.entry.now) number) }
{
    match field_at(fields_of(t), number) {
        Some(field) => field,
        None => t,
    }
}

/// The type of the part that an index names; where it names none, the type itself, with its name written out.
fn part_type<'a>(m: &'a Module, t: &'a IrType, index: &Argument) -> &'a IrType
    ensures { result.now ≡ (part_at m.entry.now.types t.entry.now (index_number index.now ∷ [])).ty }
{
    let outer = unnamed(m, t);
    match element_of(outer) {
        Some(element) => element,
        None => field_or_itself(outer, field_number(index)),
    }
}

/// The field that the last of several indices selects; the first counts whole values of the type.
pub fn last_field(m: &Module, t: &IrType, indices: &[Argument]) -> Option<FieldName>
    ensures { last_field m.now.types t.now (behind_first (map index_number indices.now)) ≡ option_to_list result }
{
    if indices.len() < 2 {
        return None;
    }
    let last = indices.len() - 1;
    let mut inner = t;
    for k in 1..last {
        inner = part_type(m, inner, &indices[k]);
    }
    field_if_named(inner, field_number(&indices[last]))
}
