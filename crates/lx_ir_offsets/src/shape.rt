//! The limits on types as they are written.

ghost use Rattle.std.specs.Prelude.{◌≡◌, ◌*◌, ◌≤◌, ◌<◌, suc, IfOk, IsTrue, map, unwrap_or, slice_get};
ghost use Rattle.lx_ir.specs.Layout.{layout, beside, padded, scalar_size};
ghost use Rattle.lx_ir.specs.TypeNodes.{types_of_list};
ghost use Rattle.lx_ir_offsets.specs.Shapes.{shape, layout_of_shape, with_field, endless, empty_shape, shape_of, fields_shape, shapes_through, named_shapes, is_past_limits, is_outside, left_behind, left_behind_fields, left_behind_more};

use lx_ir::MOST_NAMES;
use lx_ir::types::{IrType, NamedType, Scalar, TypeNode};
use lx_words::{Items, Memory, Width};
use std::alloc::Global;
use std::marker::Model;

/// The size that stands for every size past the limit of 2^32 bytes.
const PAST_SIZE: u64 = (1 << 32) + 1;

/// The nesting that stands for every nesting past the limit of 64.
const PAST_NESTING: u32 = 65;

/// How a type lies in memory and how deep it nests. What is past a limit counts as just past it.
#[derive(Clone, Copy)]
pub struct Shape {
    size: u64,
    align: u64,
    nesting: u32,
}

impl Model for Shape {
    ghost use Rattle.std.specs.Prelude.{◌<◌, ◌≤◌};
    ghost use Rattle.lx_ir_offsets.specs.Shapes.{Shape as Meaning};

    ghost Value = { Meaning };

    ghost view = { λ s. record { size = s.size; align = s.align; nesting = s.nesting } };

    ghost invariant = { λ s. (s.size ≤ 4294967297) × (0 < s.align) × (s.align ≤ 8) × (s.nesting ≤ 65) };

    ghost inverse = { λ s. record { size = s.size; align = s.align; nesting = s.nesting } };
}

impl Shape {
    /// A shape of so many bytes and nestings, where those past the limits count as just past them.
    fn capped(size: u64, align: u64, nesting: u32) -> Self
        requires some { 0 < align }
        requires few { align ≤ 8 }
        ensures { result ≡ shape (layout size align) nesting }
    {
        Shape {
            size: size.min(PAST_SIZE),
            align,
            nesting: nesting.min(PAST_NESTING),
        }
    }

    /// A struct without fields, before it is closed.
    fn empty() -> Self
        ensures { result ≡ empty_shape }
    {
        Shape::capped(0, 1, 0)
    }

    /// A type that goes on without end.
    fn endless() -> Self
        ensures { result ≡ endless }
    {
        Shape {
            size: 0,
            align: 1,
            nesting: PAST_NESTING,
        }
    }

    fn scalar(ty: Scalar) -> Self
        ensures { result ≡ shape (layout (scalar_size ty) (scalar_size ty)) 0 }
    {
        let size = match ty {
            Scalar::Int(Width::W1 | Width::W8) => 1,
            Scalar::Int(Width::W16) => 2,
            Scalar::Int(Width::W32) => 4,
            Scalar::Int(Width::W64) | Scalar::Ptr => 8,
        };
        Shape::capped(size, size, 0)
    }

    /// So many values, one behind another.
    fn times(self, count: u64) -> Self
        ensures { result ≡ shape (layout (count * self.size) self.align) (suc self.nesting) }
    {
        Shape::capped(
            count.saturating_mul(self.size),
            self.align,
            self.nesting + 1,
        )
    }

    /// The struct with a further field; a packed one leaves no room before it.
    fn with_field(self, packed: bool, field: Shape) -> Self
        ensures { result ≡ with_field packed self field }
    {
        let nesting = self.nesting.max(field.nesting);
        if packed {
            return Shape::capped(self.size + field.size, 1, nesting);
        }
        let start = self.size.next_multiple_of(field.align);
        Shape::capped(start + field.size, self.align.max(field.align), nesting)
    }

    /// The struct behind its last field, padded to its greatest alignment.
    fn padded(self) -> Self
        ensures { result ≡ shape (padded (layout_of_shape self)) (suc self.nesting) }
    {
        let size = self.size.next_multiple_of(self.align);
        Shape::capped(size, self.align, self.nesting + 1)
    }

    /// The packed struct behind its last field.
    fn closed(self) -> Self
        ensures { result ≡ shape (layout_of_shape self) (suc self.nesting) }
    {
        Shape::capped(self.size, self.align, self.nesting + 1)
    }

    fn is_same(self, other: Shape) -> bool
        ensures { IsTrue result → self ≡ other }
    {
        self.size == other.size && self.align == other.align && self.nesting == other.nesting
    }

    /// Whether the type is larger than 2^32 bytes, or nests deeper than 64.
    fn is_past_limits(self) -> bool
        ensures { result ≡ is_past_limits self }
    {
        self.size >= PAST_SIZE || self.nesting >= PAST_NESTING
    }
}

fn named_shape(shapes: &[Shape], k: u32) -> Shape
    ensures { result ≡ unwrap_or (slice_get shapes.now k) endless }
{
    match shapes.get(k as usize) {
        Some(shape) => *shape,
        None => Shape::endless(),
    }
}

/// The shape of a type, by those of the named types.
#[cycle(shapes)]
fn shape_of(shapes: &[Shape], t: &IrType) -> Shape
    ensures { result ≡ shape_of shapes.now t.now }
{
    match &t.node {
        TypeNode::Scalar(scalar) => Shape::scalar(*scalar),
        TypeNode::Array(count, element) => shape_of(shapes, element).times(*count),
        TypeNode::Struct(fields) => fields_shape(shapes, false, fields).padded(),
        TypeNode::Packed(fields) => fields_shape(shapes, true, fields).closed(),
        TypeNode::Named(k) => named_shape(shapes, *k),
    }
}

/// Fields, one behind another.
#[cycle(shapes)]
fn fields_shape(shapes: &[Shape], packed: bool, fields: &[IrType]) -> Shape
    ensures { result ≡ fields_shape shapes.now packed (types_of_list fields.now) empty_shape }
{
    let mut laid = Shape::empty();
    for field in fields {
        laid = laid.with_field(packed, shape_of(shapes, field));
    }
    laid
}

/// Whether the type is outside the limits, whatever the types are that are written in it.
pub fn is_outside(shapes: &[Shape], t: &IrType) -> bool
    ensures { result ≡ is_outside shapes.now t.now }
{
    shape_of(shapes, t).is_past_limits()
}

/// The shapes of the named types by one name more.
fn next_shapes(alloc: Global, types: &[NamedType], shapes: &[Shape]) -> Result<Items<Shape>, Memory>
    ensures { IfOk result (λ next. next ≡ map (λ e. shape_of shapes.now e.ty) types.now) }
{
    let mut next = Items::new(alloc);
    for named in types {
        next.push(shape_of(shapes, &named.ty))?;
    }
    Ok(next)
}

fn endless_shapes(alloc: Global, types: &[NamedType]) -> Result<Items<Shape>, Memory>
    ensures { IfOk result (λ shapes. shapes ≡ map (λ e. endless) types.now) }
{
    let mut shapes = Items::new(alloc);
    for _ in types {
        shapes.push(Shape::endless())?;
    }
    Ok(shapes)
}

fn are_same(shapes: &[Shape], others: &[Shape]) -> bool
    ensures { IsTrue result → shapes.now ≡ others.now }
{
    if shapes.len() != others.len() {
        return false;
    }
    for k in 0..shapes.len() {
        if !shapes[k].is_same(others[k]) {
            return false;
        }
    }
    true
}

/// The shapes of the named types, by which the limits on types are tried. What a pass leaves as it was, all further ones do.
pub fn named_shapes(alloc: Global, types: &[NamedType]) -> Result<Items<Shape>, Memory>
    ensures { IfOk result (λ shapes. shapes ≡ named_shapes types.now) }
{
    let mut shapes = endless_shapes(alloc, types)?;
    for _ in 0..MOST_NAMES {
        let next = next_shapes(alloc, types, shapes.as_slice())?;
        if are_same(next.as_slice(), shapes.as_slice()) {
            return Ok(next);
        }
        shapes = next;
    }
    Ok(shapes)
}

/// How many tokens are left behind a type that is written with so many left; or with the first token of the first type
/// in it that is outside the limits.
#[cycle(places)]
pub fn left_behind(shapes: &[Shape], t: &IrType, left: usize) -> Result<usize, usize>
    ensures { result ≡ left_behind shapes.now t.now left }
{
    if is_outside(shapes, t) {
        return Err(left);
    }
    match &t.node {
        TypeNode::Scalar(_) | TypeNode::Named(_) => Ok(left.saturating_sub(1)),
        TypeNode::Array(_, element) => {
            let behind = left_behind(shapes, element, left.saturating_sub(3))?;
            Ok(behind.saturating_sub(1))
        }
        TypeNode::Struct(fields) => {
            let behind = left_behind_fields(shapes, fields, left.saturating_sub(1))?;
            Ok(behind)
        }
        TypeNode::Packed(fields) => {
            let behind = left_behind_fields(shapes, fields, left.saturating_sub(2))?;
            Ok(behind.saturating_sub(1))
        }
    }
}

/// The same of fields with commas between them, and the brace that closes them.
#[cycle(places)]
fn left_behind_fields(shapes: &[Shape], fields: &[IrType], left: usize) -> Result<usize, usize>
    ensures { result ≡ left_behind_fields shapes.now (types_of_list fields.now) left }
{
    if fields.is_empty() {
        return Ok(left.saturating_sub(1));
    }
    let mut left = left;
    for field in fields {
        left = left_behind(shapes, field, left)?.saturating_sub(1);
    }
    Ok(left)
}
