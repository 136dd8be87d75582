//! Sizes, alignments and offsets of types within the limits.
ghost use Rattle.std.specs.Prelude.{◌≡◌, IsTrue, option_map, pos};
ghost use Rattle.lx_ir.specs.Layout.{layout_of, size_of, align_of, offset_of, is_lawful_type, unnamed};

use crate::layout::{Layout, fit_type, start_at};
use crate::module::Module;
use crate::types::{IrType, TypeNode};

/// The layout of a type within the limits.
#[tactic(auto, using(crate::proofs::Fits::lawful_fits))]
fn layout_of(m: &Module, t: &IrType) -> Layout
    requires { IsTrue (is_lawful_type m.now.types t.now) }
    ensures { result ≡ layout_of m.now.types t.now }
{
    match fit_type(m.types.layouts(), t) {
        Some(layout) => layout,
        None => unreachable!(),
    }
}

/// The bytes of a type within the limits.
pub fn size_of(m: &Module, t: &IrType) -> u64
    requires { IsTrue (is_lawful_type m.now.types t.now) }
    ensures { result ≡ size_of m.now.types t.now }
{
    layout_of(m, t).size()
}

/// What the addresses of a type within the limits are divisible by.
pub fn align_of(m: &Module, t: &IrType) -> u64
    requires { IsTrue (is_lawful_type m.now.types t.now) }
    ensures { result ≡ align_of m.now.types t.now }
{
    layout_of(m, t).align()
}

/// Where a field of a type within the limits begins; none exactly where there is no such field. Fields are counted as a
/// list counts them.
#[tactic(auto, using(crate::proofs::Fits::struct_start, crate::proofs::Fits::packed_start, crate::proofs::Fits::named_start))]
pub fn offset_at(m: &Module, t: &IrType, field: usize) -> Option<u64>
    requires { IsTrue (is_lawful_type m.now.types t.now) }
    ensures { option_map pos result ≡ offset_of m.now.types t.now field }
{
    match &t.node {
        TypeNode::Struct(fields) => start_at(m.types.layouts(), false, fields, field),
        TypeNode::Packed(fields) => start_at(m.types.layouts(), true, fields, field),
        TypeNode::Named(number) => m.types.field_start(*number, field),
        TypeNode::Scalar(_) | TypeNode::Array(_, _) => None,
    }
}

/// Where a field of a type within the limits begins; none exactly where there is no such field.
pub fn offset_of(m: &Module, t: &IrType, field: u32) -> Option<u64>
    requires { IsTrue (is_lawful_type m.now.types t.now) }
    ensures { option_map pos result ≡ offset_of m.now.types t.now field }
{
    offset_at(m, t, field as usize)
}

/// The type that a name names.
pub fn unnamed<'a>(m: &'a Module, t: &'a IrType) -> &'a IrType
    ensures { result.now ≡ unnamed m.entry.now.types t.entry.now }
{
    match &t.node {
        TypeNode::Named(k) => match m.types.get(*k) {
            Some(entry) => &entry.ty,
            None => t,
        },
        _ => t,
    }
}
