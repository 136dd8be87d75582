//! How types lie in memory, by the layouts of the named types. Types may be outside the limits.

ghost use Rattle.std.specs.Prelude.{◌≡◌, ◌*◌, ◌<◌, ◌≤◌, None, IfOk, IsTrue, map, slice_get};
ghost use Rattle.lx_ir.specs.Layout.{layout, field_start, beside, padded, scalar_size};
ghost use Rattle.lx_ir.specs.TypeNodes.{types_of_list};
ghost use Rattle.lx_ir.specs.Fitting.{limited, named_layout, laid_beside, fit_type, fit_fields, layouts_through, fitting_layouts, starts_in, ◌>>?◌};

use crate::types::{IrType, NamedType, Scalar, TypeNode};
use lx_words::{Items, Memory, Width};
use std::alloc::Global;
use std::marker::Model;

/// The most bytes that a type may take.
const MOST_BYTES: u64 = 1 << 32;

/// How many names a type within the limits goes through at most, one in another.
pub const MOST_NAMES: u32 = 64;

/// How many bytes a type takes, at most 2^32, and what its addresses are divisible by.
#[derive(Clone, Copy)]
pub struct Layout {
    size: u64,
    align: u64,
}

impl Model for Layout {
    ghost use Rattle.std.specs.Prelude.{◌<◌, ◌≤◌};
    ghost use Rattle.lx_ir.specs.Layout.{Layout as Meaning};

    ghost Value = { Meaning };

    ghost view = { λ l. record { size = l.size; align = l.align } };

    ghost invariant = { λ l. (l.size ≤ 4294967296) × (0 < l.align) × (l.align ≤ 8) };

    ghost inverse = { λ l. record { size = l.size; align = l.align } };
}

impl Layout {
    /// A layout of so many bytes, where they are not too many.
    fn limited(size: u64, align: u64) -> Option<Self>
        requires some { 0 < align }
        requires few { align ≤ 8 }
        ensures { result ≡ limited (layout size align) }
    {
        if size <= MOST_BYTES {
            Some(Layout { size, align })
        } else {
            None
        }
    }

    /// A struct without fields.
    pub fn empty() -> Self
        ensures { result ≡ layout 0 1 }
    {
        Layout { size: 0, align: 1 }
    }

    /// How many bytes the type takes.
    pub fn size(self) -> u64
        ensures { result ≡ self.size }
    {
        self.size
    }

    /// What the type's addresses are divisible by.
    pub fn align(self) -> u64
        ensures { result ≡ self.align }
    {
        self.align
    }

    /// Where a further field begins; a packed struct leaves no room before it.
    pub fn field_start(self, packed: bool, field: Layout) -> u64
        ensures { result ≡ field_start packed self field }
    {
        if packed {
            self.size
        } else {
            self.size.next_multiple_of(field.align)
        }
    }

    /// The struct with a further field.
    pub fn beside(self, packed: bool, field: Layout) -> Option<Self>
        ensures { result ≡ laid_beside packed self field }
    {
        let size = self.field_start(packed, field) + field.size;
        let align = if packed {
            1
        } else {
            self.align.max(field.align)
        };
        Layout::limited(size, align)
    }

    /// The struct, padded to its greatest alignment.
    fn padded(self) -> Option<Self>
        ensures { result ≡ limited (padded self) }
    {
        Layout::limited(self.size.next_multiple_of(self.align), self.align)
    }

    /// So many values, one behind another.
    fn times(self, count: u64) -> Option<Self>
        ensures { result ≡ limited (layout (count * self.size) self.align) }
    {
        Layout::limited(count.checked_mul(self.size)?, self.align)
    }
}

fn scalar_layout(ty: Scalar) -> Layout
    ensures { result ≡ layout (scalar_size ty) (scalar_size ty) }
{
    let size = match ty {
        Scalar::Int(Width::W1 | Width::W8) => 1,
        Scalar::Int(Width::W16) => 2,
        Scalar::Int(Width::W32) => 4,
        Scalar::Int(Width::W64) | Scalar::Ptr => 8,
    };
    Layout { size, align: size }
}

fn named_layout(layouts: &[Option<Layout>], k: u32) -> Option<Layout>
    ensures { result ≡ named_layout layouts.now k }
{
    layouts.get(k as usize).copied().flatten()
}

/// The layout of a type, by those of the named types; none where it, or a type in it, is outside the limits.
#[cycle(layout)]
pub fn fit_type(layouts: &[Option<Layout>], t: &IrType) -> Option<Layout>
    ensures { result ≡ fit_type layouts.now t.now }
{
    match &t.node {
        TypeNode::Scalar(scalar) => Some(scalar_layout(*scalar)),
        TypeNode::Array(count, element) => fit_type(layouts, element)?.times(*count),
        TypeNode::Struct(fields) => fit_fields(layouts, false, fields)?.padded(),
        TypeNode::Packed(fields) => fit_fields(layouts, true, fields),
        TypeNode::Named(k) => named_layout(layouts, *k),
    }
}

/// Fields, one behind another.
#[cycle(layout)]
fn fit_fields(layouts: &[Option<Layout>], packed: bool, fields: &[IrType]) -> Option<Layout>
    ensures { result ≡ fit_fields layouts.now packed (types_of_list fields.now) (layout 0 1) }
{
    let mut laid = Layout::empty();
    for field in fields {
        laid = laid.beside(packed, fit_type(layouts, field)?)?;
    }
    Some(laid)
}

/// The layouts of the named types through one name more.
fn next_layouts(
    alloc: Global,
    types: &[NamedType],
    layouts: &[Option<Layout>],
) -> Result<Items<Option<Layout>>, Memory>
    ensures { IfOk result (λ next. next ≡ map (λ e. fit_type layouts.now e.ty) types.now) }
{
    let mut next = Items::new(alloc);
    for named in types {
        next.push(fit_type(layouts, &named.ty))?;
    }
    Ok(next)
}

fn no_layouts(alloc: Global, types: &[NamedType]) -> Result<Items<Option<Layout>>, Memory>
    ensures { IfOk result (λ layouts. layouts ≡ map (λ e. None) types.now) }
{
    let mut layouts = Items::new(alloc);
    for _ in types {
        layouts.push(None)?;
    }
    Ok(layouts)
}

fn is_same(layout: Option<Layout>, other: Option<Layout>) -> bool
    ensures { IsTrue result → layout ≡ other }
{
    match (layout, other) {
        (Some(layout), Some(other)) => layout.size == other.size && layout.align == other.align,
        (None, None) => true,
        _ => false,
    }
}

fn are_same(layouts: &[Option<Layout>], others: &[Option<Layout>]) -> bool
    ensures { IsTrue result → layouts.now ≡ others.now }
{
    if layouts.len() != others.len() {
        return false;
    }
    for k in 0..layouts.len() {
        if !is_same(layouts[k], others[k]) {
            return false;
        }
    }
    true
}

/// The layouts of the named types; none for one that is outside the limits, or that a type in it is. What a pass leaves as it
/// was, all further ones do.
#[tactic(auto, unfolding(crate::specs::Fitting::fitting_layouts))]
pub fn fitting_layouts(alloc: Global, types: &[NamedType]) -> Result<Items<Option<Layout>>, Memory>
    ensures { IfOk result (λ layouts. layouts ≡ fitting_layouts types.now) }
{
    let mut layouts = no_layouts(alloc, types)?;
    for _ in 0..MOST_NAMES {
        let next = next_layouts(alloc, types, layouts.as_slice())?;
        if are_same(next.as_slice(), layouts.as_slice()) {
            return Ok(next);
        }
        layouts = next;
    }
    Ok(layouts)
}

/// Where the fields of a struct begin, up to the first that is outside the limits.
pub fn field_starts(
    alloc: Global,
    layouts: &[Option<Layout>],
    packed: bool,
    fields: &[IrType],
) -> Result<Items<u64>, Memory>
    ensures { IfOk result (λ starts. starts ≡ starts_in layouts.now packed (types_of_list fields.now) (layout 0 1)) }
{
    let mut starts = Items::new(alloc);
    let mut laid = Layout::empty();
    for field in fields {
        let Some(next) = fit_type(layouts, field) else {
            return Ok(starts);
        };
        starts.push(laid.field_start(packed, next))?;
        let Some(more) = laid.beside(packed, next) else {
            return Ok(starts);
        };
        laid = more;
    }
    Ok(starts)
}

/// Where the field with a number begins, unless it or one before it is outside the limits.
pub fn start_at(
    layouts: &[Option<Layout>],
    packed: bool,
    fields: &[IrType],
    number: usize,
) -> Option<u64>
    ensures { result ≡ slice_get (starts_in layouts.now packed (types_of_list fields.now) (layout 0 1)) number }
{
    let mut laid = Layout::empty();
    for (k, field) in fields.iter().enumerate() {
        let next = fit_type(layouts, field)?;
        if k == number {
            return Some(laid.field_start(packed, next));
        }
        laid = laid.beside(packed, next)?;
    }
    None
}
