//! Copies of initialisers.
ghost use Rattle.std.specs.Prelude.{◌≡◌, IfOk};
ghost use Rattle.lx_ir.specs.Init.{Bytes, Group};
ghost use Rattle.lx_ir.specs.InitNodes.{inits_of_list};

use crate::copied::copies;
use lx_ir::module::{Brackets, Init, InitNode};
use lx_ir::types::IrType;
use lx_words::{Items, Memory};
use std::alloc::Global;

/// An initialiser of these items.
fn group(
    alloc: Global,
    brackets: Brackets,
    types: &[IrType],
    items: Vec<Init>,
) -> Result<Init, Memory>
    ensures { IfOk result (λ init. init ≡ Group brackets types.now (inits_of_list items.items)) }
{
    match copies(alloc, types) {
        Ok(types) => Ok(Init {
            node: InitNode::Group(brackets, types, items),
        }),
        Err(why) => {
            drop(items);
            Err(why)
        }
    }
}

fn bytes(alloc: Global, bytes: &[u8]) -> Result<Init, Memory>
    ensures { IfOk result (λ init. init ≡ Bytes bytes.now) }
{
    let bytes = Items::from_slice(alloc, bytes)?;
    Ok(Init {
        node: InitNode::Bytes(bytes),
    })
}

/// A copy of an initialiser.
///
/// # Errors
/// Want of memory.
#[cycle(inits)]
pub fn copied_init(alloc: Global, init: &Init) -> Result<Init, Memory>
    ensures { IfOk result (λ copy. copy ≡ init.now) }
{
    match &init.node {
        InitNode::Plain(constant) => Ok(Init {
            node: InitNode::Plain(*constant),
        }),
        InitNode::Blank(blank) => Ok(Init {
            node: InitNode::Blank(*blank),
        }),
        InitNode::Bytes(text) => bytes(alloc, text.as_slice()),
        InitNode::Group(brackets, types, items) => {
            let items = copied_inits(alloc, items)?;
            group(alloc, *brackets, types.as_slice(), items)
        }
    }
}

/// Copies of initialisers, in order.
#[cycle(inits)]
fn copied_inits(alloc: Global, items: &[Init]) -> Result<Vec<Init>, Memory>
    ensures { IfOk result (λ copies. copies.items ≡ items.now) }
{
    let mut copies = Vec::new(alloc);
    for i in 0..items.len() {
        copies.push(copied_init(alloc, &items[i])?)?;
    }
    Ok(copies)
}
