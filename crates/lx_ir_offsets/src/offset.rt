//! How far indices go.

ghost use Rattle.std.specs.Prelude.{◌≡◌, Option, Some, None, MatchOption};
ghost use Rattle.lx_ir.specs.Layout.{layout, unnamed};
ghost use Rattle.lx_ir.specs.TypeNodes.{types_of_list};
ghost use Rattle.lx_ir_offsets.specs.Known.{named_in, layouts_in};
ghost use Rattle.lx_ir_offsets.specs.Offsets.{field_number, field_type, part_type, part_at, scaled, part, field_after, part_of, field_kept, moved, distance};

use crate::known::KnownTypes;
use lx_ir::types::{IrType, NamedType, TypeNode};
use lx_ir::{Layout, NamedTypes, fit_type};
use lx_words::{Width, Word, resize};

/// The type that a name names.
fn unnamed<'a>(named: &'a [NamedType], t: &'a IrType) -> &'a IrType
    ensures { result.now ≡ unnamed named.entry.now t.entry.now }
{
    match &t.node {
        TypeNode::Named(k) => match named.get(*k as usize) {
            Some(entry) => &entry.ty,
            None => t,
        },
        _ => t,
    }
}

/// The number of the field that an index names.
fn field_number(i: Word) -> Option<u64>
    ensures { result ≡ field_number i }
{
    match i.width {
        Width::W32 => Some(i.bits),
        _ => None,
    }
}

/// The type of the field that an index names.
fn field_type(fields: &[IrType], i: Word) -> Option<&IrType>
    ensures { MatchOption result (field_type (types_of_list fields.entry.now) i ≡ None) (λ t. field_type (types_of_list fields.entry.now) i ≡ Some t.now) }
{
    let k = field_number(i)? as usize;
    if k < fields.len() {
        Some(&fields[k])
    } else {
        None
    }
}

/// The type of the part that an index names. What is behind a name that is not known is not looked at.
fn part_type(t: &IrType, i: Word) -> Option<&IrType>
    ensures { MatchOption result (part_type t.entry.now i ≡ None) (λ u. part_type t.entry.now i ≡ Some u.now) }
{
    match &t.node {
        TypeNode::Scalar(_) => None,
        TypeNode::Array(_, element) => Some(element),
        TypeNode::Struct(fields) | TypeNode::Packed(fields) => field_type(fields, i),
        TypeNode::Named(_) => Some(t),
    }
}

/// The type of the part that indices name; none where one of them names no field or goes into no struct or array.
pub fn part_at<'a>(named: &'a [NamedType], t: &'a IrType, indices: &[Word]) -> Option<&'a IrType>
    ensures { MatchOption result (part_at named.entry.now t.entry.now indices.now ≡ None) (λ u. part_at named.entry.now t.entry.now indices.now ≡ Some u.now) }
{
    let mut part = t;
    for i in indices {
        part = part_type(unnamed(named, part), *i)?;
    }
    Some(part)
}

/// How far an index goes, counted in values of so many bytes, modulo 2^64.
fn scaled(i: Word, size: u64) -> u64
    ensures { result ≡ scaled i size }
{
    resize(i, Width::W64, true).bits.wrapping_mul(size)
}

/// Where a field begins, and its type.
fn field_after<'a>(
    layouts: &[Option<Layout>],
    packed: bool,
    fields: &'a [IrType],
    k: u64,
) -> Option<(u64, &'a IrType)>
    ensures { MatchOption result (field_after layouts.now packed (types_of_list fields.entry.now) (layout 0 1) k ≡ None) (λ p. field_after layouts.now packed (types_of_list fields.entry.now) (layout 0 1) k ≡ Some (part p.0 p.1.now)) }
{
    let mut laid = Layout::empty();
    let mut left = k;
    for field in fields {
        let next = fit_type(layouts, field)?;
        if left == 0 {
            return Some((laid.field_start(packed, next), field));
        }
        laid = laid.beside(packed, next)?;
        left -= 1;
    }
    None
}

/// Where the part of a type as it is written begins that an index names, and its type.
fn written_part<'a>(layouts: &[Option<Layout>], t: &'a IrType, i: Word) -> Option<(u64, &'a IrType)>
    ensures { MatchOption result (part_of layouts.now t.entry.now i ≡ None) (λ p. part_of layouts.now t.entry.now i ≡ Some (part p.0 p.1.now)) }
{
    match &t.node {
        TypeNode::Array(_, element) => {
            let size = fit_type(layouts, element)?.size();
            Some((scaled(i, size), element))
        }
        TypeNode::Struct(fields) => field_after(layouts, false, fields, field_number(i)?),
        TypeNode::Packed(fields) => field_after(layouts, true, fields, field_number(i)?),
        TypeNode::Scalar(_) | TypeNode::Named(_) => None,
    }
}

/// The field that an index names of the type with a number, whose fields these are, by where the fields of that type begin.
fn field_kept<'a>(
    types: &NamedTypes,
    number: u32,
    fields: &'a [IrType],
    i: Word,
) -> Option<(u64, &'a IrType)>
    ensures { MatchOption result (field_kept types.now number fields.entry.now i ≡ None) (λ p. field_kept types.now number fields.entry.now i ≡ Some (part p.0 p.1.now)) }
{
    let k = field_number(i)? as usize;
    match (types.field_start(number, k), fields.get(k)) {
        (Some(start), Some(field)) => Some((start, field)),
        _ => None,
    }
}

/// Where the part that an index names begins, and its type.
#[tactic(auto, using(crate::proofs::Begun::struct_part, crate::proofs::Begun::packed_part))]
fn part_of<'a>(types: KnownTypes<'a>, t: &'a IrType, i: Word) -> Option<(u64, &'a IrType)>
    ensures { MatchOption result (part_of (layouts_in types.entry) (unnamed (named_in types.entry) t.entry.now) i ≡ None) (λ p. part_of (layouts_in types.entry) (unnamed (named_in types.entry) t.entry.now) i ≡ Some (part p.0 p.1.now)) }
{
    let shown = unnamed(types.named(), t);
    match (types, &t.node, &shown.node) {
        (
            KnownTypes::Laid(laid),
            TypeNode::Named(number),
            TypeNode::Struct(fields) | TypeNode::Packed(fields),
        ) => field_kept(laid, *number, fields, i),
        _ => written_part(types.layouts(), shown, i),
    }
}

/// How far the indices of a `getelementptr` go, modulo 2^64: the first counts whole values of the type. None where one
/// names no part, or where the type or a part on the way is outside the limits.
pub fn distance(types: KnownTypes<'_>, t: &IrType, indices: &[Word]) -> Option<u64>
    ensures { result ≡ distance (named_in types.entry) (layouts_in types.entry) t.now indices.now }
{
    let [first, rest @ ..] = indices else {
        return Some(0);
    };
    let start = scaled(*first, fit_type(types.layouts(), t)?.size());
    moved(types, start, t, rest)
}

/// How far indices go behind an offset.
fn moved(types: KnownTypes<'_>, offset: u64, t: &IrType, indices: &[Word]) -> Option<u64>
    ensures { result ≡ moved (named_in types.entry) (layouts_in types.entry) offset t.now indices.now }
{
    let mut offset = offset;
    let mut t = t;
    for i in indices {
        let (start, part) = part_of(types, t, *i)?;
        offset = offset.wrapping_add(start);
        t = part;
    }
    Some(offset)
}
