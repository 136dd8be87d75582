//! The text of types.
ghost use Rattle.std.specs.Prelude.{◌≡◌, ◌++◌, ◌+◌, OnOk, codes, map};
ghost use Rattle.lx_words.specs.Text.{decimal_text};
ghost use Rattle.lx_ir.specs.Text.{scalar_text, width_text, result_text, type_text, type_name, spaced_list};

use crate::module::Module;
use crate::text::pieces::{put, put_local, put_separator};
use crate::types::{IrType, Scalar, TypeNode};
use lx_words::{Memory, Width, put_decimal};

/// Appends the type of a word of a width.
pub fn put_width(out: &mut Vec<u8>, width: Width) -> Result<(), Memory>
    ensures { OnOk result (out.new.items ≡ out.old.items ++ width_text width) }
{
    match width {
        Width::W1 => put(out, b"i1"),
        Width::W8 => put(out, b"i8"),
        Width::W16 => put(out, b"i16"),
        Width::W32 => put(out, b"i32"),
        Width::W64 => put(out, b"i64"),
    }
}

/// Appends the type of a register.
pub fn put_scalar(out: &mut Vec<u8>, ty: Scalar) -> Result<(), Memory>
    ensures { OnOk result (out.new.items ≡ out.old.items ++ scalar_text ty) }
{
    match ty {
        Scalar::Int(width) => put_width(out, width),
        Scalar::Ptr => put(out, b"ptr"),
    }
}

/// Appends the type of a result.
pub fn put_result(out: &mut Vec<u8>, ty: Option<Scalar>) -> Result<(), Memory>
    ensures { OnOk result (out.new.items ≡ out.old.items ++ result_text ty) }
{
    match ty {
        None => put(out, b"void"),
        Some(ty) => put_scalar(out, ty),
    }
}

/// Appends how many elements an array has, behind its bracket.
fn put_count(out: &mut Vec<u8>, count: u64) -> Result<(), Memory>
    ensures { OnOk result (out.new.items ≡ out.old.items ++ (codes "[" ++ decimal_text count ++ codes " x ")) }
{
    put(out, b"[")?;
    put_decimal(out, i128::from(count))?;
    put(out, b" x ")
}

/// Appends a type.
#[cycle(put_type)]
pub fn put_type(out: &mut Vec<u8>, m: &Module, ty: &IrType) -> Result<(), Memory>
    ensures { OnOk result (out.new.items ≡ out.old.items ++ type_text m.now.types ty.now) }
{
    match &ty.node {
        TypeNode::Scalar(scalar) => put_scalar(out, *scalar),
        TypeNode::Array(count, element) => {
            put_count(out, *count)?;
            put_type(out, m, element)?;
            put(out, b"]")
        }
        TypeNode::Struct(fields) => {
            put(out, b"{")?;
            put_fields(out, m, fields)?;
            put(out, b"}")
        }
        TypeNode::Packed(fields) => {
            put(out, b"<{")?;
            put_fields(out, m, fields)?;
            put(out, b"}>")
        }
        TypeNode::Named(k) => put_local(out, type_name(m, *k)),
    }
}

/// The name of a type by its number; a number that names nothing has the empty name.
fn type_name(m: &Module, k: u32) -> &[u8]
    ensures { result.now ≡ type_name m.now.types k }
{
    match m.types.as_slice().get(k as usize) {
        Some(entry) => entry.name.as_slice(),
        None => b"",
    }
}

/// Appends the fields of a struct, as they stand inside its braces.
#[cycle(put_type)]
fn put_fields(out: &mut Vec<u8>, m: &Module, fields: &[IrType]) -> Result<(), Memory>
    ensures { OnOk result (out.new.items ≡ out.old.items ++ spaced_list (map (type_text m.now.types) fields.now)) }
{
    if fields.is_empty() {
        return Ok(());
    }
    put(out, b" ")?;
    for (i, field) in fields.iter().enumerate() {
        put_separator(out, i)?;
        put_type(out, m, field)?;
    }
    put(out, b" ")
}
