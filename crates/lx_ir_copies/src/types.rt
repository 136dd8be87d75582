//! Copies of types.
ghost use Rattle.std.specs.Prelude.{◌≡◌, IfOk};
ghost use Rattle.lx_ir.specs.IrType.{Array};

use crate::copied::{Copied, copies};
use lx_ir::NamedTypes;
use lx_ir::types::{IrType, NamedType, TypeNode};
use lx_words::Memory;
use std::alloc::Global;

/// An array of so many elements of a type.
fn array(alloc: Global, count: u64, element: IrType) -> Result<IrType, Memory>
    ensures { IfOk result (λ ty. ty ≡ Array count element) }
{
    let element = Box::new(alloc, element)?;
    Ok(IrType {
        node: TypeNode::Array(count, element),
    })
}

/// A copy of a type.
///
/// # Errors
/// Want of memory.
#[cycle(types)]
pub fn copied_type(alloc: Global, ty: &IrType) -> Result<IrType, Memory>
    ensures { IfOk result (λ copy. copy ≡ ty.now) }
{
    match &ty.node {
        TypeNode::Scalar(scalar) => Ok(IrType {
            node: TypeNode::Scalar(*scalar),
        }),
        TypeNode::Array(count, element) => {
            let element = copied_type(alloc, element)?;
            array(alloc, *count, element)
        }
        TypeNode::Struct(fields) => {
            let fields = copied_types(alloc, fields)?;
            Ok(IrType {
                node: TypeNode::Struct(fields),
            })
        }
        TypeNode::Packed(fields) => {
            let fields = copied_types(alloc, fields)?;
            Ok(IrType {
                node: TypeNode::Packed(fields),
            })
        }
        TypeNode::Named(number) => Ok(IrType {
            node: TypeNode::Named(*number),
        }),
    }
}

/// Copies of types, in order.
#[cycle(types)]
fn copied_types(alloc: Global, types: &[IrType]) -> Result<Vec<IrType>, Memory>
    ensures { IfOk result (λ copies. copies.items ≡ types.now) }
{
    let mut copies = Vec::new(alloc);
    for i in 0..types.len() {
        copies.push(copied_type(alloc, &types[i])?)?;
    }
    Ok(copies)
}

/// A copy of the named types of a module.
///
/// # Errors
/// Want of memory.
pub fn copied_named_types(alloc: Global, types: &NamedTypes) -> Result<NamedTypes, Memory>
    ensures { IfOk result (λ copy. copy ≡ types.now) }
{
    let entries = copies(alloc, types.as_slice())?;
    let copy = NamedTypes::new(alloc, entries)?;
    Ok(copy)
}

impl Copied for IrType {
    fn copied(&self, alloc: Global) -> Result<IrType, Memory> {
        copied_type(alloc, self)
    }
}

impl Copied for NamedType {
    fn copied(&self, alloc: Global) -> Result<NamedType, Memory> {
        let name = self.name.copied(alloc)?;
        let ty = copied_type(alloc, &self.ty)?;
        Ok(NamedType { name, ty })
    }
}
