//! What the names of short texts mean.

use lx_ir::module::Symbol;
use lx_ir_offsets::KnownTypes;
use lx_ir_terms::Context;
use lx_ir_tokens::IrTokens;
use lx_words::{Items, Memory};

/// What names mean: each is the register of its number, and the first function; but `@unknown` is no function.
#[derive(Drop)]
pub struct Known {
    pub registers: Items<Option<u32>>,
    pub symbols: Items<Option<Symbol>>,
}

/// Adds the names of a text, where none is known yet.
pub fn put_names(tokens: &IrTokens, known: &mut Known) -> Result<(), Memory> {
    for number in 0..tokens.names.len() {
        let is_function = tokens.names.name(number) != b"unknown".as_slice();
        let symbol = if is_function {
            Some(Symbol::Function(0))
        } else {
            None
        };
        known.registers.push(Some(number))?;
        known.symbols.push(symbol)?;
    }
    Ok(())
}

/// What the names of a text mean, where these registers and symbols are known.
pub fn meaning<'a>(
    tokens: &'a IrTokens,
    registers: &'a [Option<u32>],
    symbols: &'a [Option<Symbol>],
    complete: bool,
) -> Context<'a> {
    Context {
        types: &[],
        symbols,
        registers,
        known: KnownTypes::Listed(&[], &[]),
        limits: None,
        names: &tokens.names,
        complete,
    }
}
