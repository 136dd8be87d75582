//! Modules that have one thing alone, as they are printed.

use lx_ir::module::{Block, Function, GlobalVar, Module, Parameter};
use lx_ir::types::{NamedType, Scalar};
use lx_ir::{NamedTypes, print};
use lx_ir_tokens::NameTable;
use lx_words::{Items, Memory, Name, Names};
use std::alloc::Global;

/// A function whose registers behind the parameters have no names yet.
pub fn function_with(
    alloc: Global,
    name: Name,
    params: Items<Parameter>,
    ret: Option<Scalar>,
    blocks: Option<Items<Block>>,
) -> Function {
    Function {
        name,
        params,
        locals: Items::new(alloc),
        ret,
        blocks,
        line: 1,
    }
}

/// Whether a module is printed so.
fn is_printed(alloc: Global, module: Module, wanted: &[u8]) -> bool {
    let printed = print(alloc, &module);
    drop(module);
    match printed {
        Ok(text) => text.as_slice() == wanted,
        Err(_) => false,
    }
}

/// Whether a module of one type is printed so.
pub fn type_is_printed(alloc: Global, entry: NamedType, wanted: &[u8]) -> Result<bool, Memory> {
    let entries = vec![in alloc; entry]?;
    let types = NamedTypes::new(alloc, Items::from_vec(entries))?;
    let module = Module {
        types,
        globals: Items::new(alloc),
        functions: Items::new(alloc),
    };
    Ok(is_printed(alloc, module, wanted))
}

/// Whether a module of one global is printed so.
pub fn global_is_printed(alloc: Global, global: GlobalVar, wanted: &[u8]) -> Result<bool, Memory> {
    let globals = vec![in alloc; global]?;
    let module = Module {
        types: NamedTypes::empty(alloc),
        globals: Items::from_vec(globals),
        functions: Items::new(alloc),
    };
    Ok(is_printed(alloc, module, wanted))
}

/// Whether a module of one function is printed so.
pub fn function_is_printed(
    alloc: Global,
    function: Function,
    wanted: &[u8],
) -> Result<bool, Memory> {
    let functions = vec![in alloc; function]?;
    let module = Module {
        types: NamedTypes::empty(alloc),
        globals: Items::new(alloc),
        functions: Items::from_vec(functions),
    };
    Ok(is_printed(alloc, module, wanted))
}

/// Adds all names of a table to those of registers.
fn put_locals(alloc: Global, names: &NameTable, locals: &mut Names) -> Result<(), Memory> {
    for number in 0..names.len() {
        let name = Items::from_bytes(alloc, names.name(number))?;
        locals.push(name)?;
    }
    Ok(())
}

/// Whether a function is printed so, once its registers have all names of a table.
pub fn body_is_printed(
    alloc: Global,
    names: &NameTable,
    mut function: Function,
    wanted: &[u8],
) -> Result<bool, Memory> {
    let put = put_locals(alloc, names, &mut function.locals);
    match put {
        Ok(()) => function_is_printed(alloc, function, wanted),
        Err(error) => {
            drop(function);
            Err(error)
        }
    }
}
