//! The functions and globals by their names.

ghost use Rattle.std.specs.Prelude.{◌≡◌, IfOk};
ghost use Rattle.lx_ir_tables.specs.Numbering.{symbol_by, symbols_by, own_numbers};

use lx_ir::module::Symbol;
use lx_words::{Items, Memory};
use std::alloc::Global;

fn symbol_by(global: Option<u32>, function: Option<u32>) -> Option<Symbol>
    ensures { result ≡ symbol_by global function }
{
    match (global, function) {
        (Some(k), _) => Some(Symbol::Global(k)),
        (None, Some(k)) => Some(Symbol::Function(k)),
        (None, None) => None,
    }
}

/// What each name names, by the tables of the globals and of the functions.
pub fn symbols_by(
    alloc: Global,
    globals: &[Option<u32>],
    functions: &[Option<u32>],
) -> Result<Items<Option<Symbol>>, Memory>
    ensures { IfOk result (λ symbols. symbols ≡ symbols_by globals.now functions.now) }
{
    let mut symbols = Items::new(alloc);
    let mut rest = functions;
    for global in globals {
        let Some((function, behind)) = rest.split_first() else {
            return Ok(symbols);
        };
        symbols.push(symbol_by(*global, *function))?;
        rest = behind;
    }
    Ok(symbols)
}

/// The table in which each of so many names stands for its own number.
pub fn own_numbers(alloc: Global, count: u32) -> Result<Items<Option<u32>>, Memory>
    ensures { IfOk result (λ own. own ≡ own_numbers 0 count) }
{
    let mut own = Items::new(alloc);
    for name in 0..count {
        own.push(Some(name))?;
    }
    Ok(own)
}
