//! The names that statements define.

ghost use Rattle.std.specs.Prelude.{◌≡◌, OnOk};
ghost use Rattle.lx_ir_statements.specs.Numbers.{has_number};
ghost use Rattle.lx_ir_statements.specs.Defined.{nothing_defined, is_block_write, with_statement, is_imported_twice, names_block_write};

use crate::Numbers;
use crate::form::Statement;
use lx_ir_calls::block_write_named;
use lx_ir_terms::Context;
use lx_words::Memory;
use std::alloc::Global;

/// The names that the statements before define, by their numbers in the table of names.
#[derive(Drop)]
pub struct Defined {
    pub types: Numbers,
    /// Functions and globals.
    pub symbols: Numbers,
}

/// Whether the calls of a name are block writes.
pub fn is_block_write(context: &Context<'_>, name: u32) -> bool
    ensures { result ≡ is_block_write context.now name }
{
    block_write_named(context.bytes(name)).is_some()
}

/// Whether a name, where there is one, is a block write's.
pub fn names_block_write(context: &Context<'_>, name: Option<u32>) -> bool
    ensures { result ≡ names_block_write context.now name }
{
    match name {
        Some(name) => is_block_write(context, name),
        None => false,
    }
}

impl Defined {
    /// No names.
    pub fn new(alloc: Global) -> Self
        ensures { result ≡ nothing_defined }
    {
        Defined {
            types: Numbers::new(alloc),
            symbols: Numbers::new(alloc),
        }
    }

    /// Whether a type of this name is defined.
    pub fn has_type(&self, name: u32) -> bool
        ensures { result ≡ has_number self.now.types name }
    {
        self.types.has(name)
    }

    /// Whether a function or global of this name is defined.
    pub fn has_symbol(&self, name: u32) -> bool
        ensures { result ≡ has_number self.now.symbols name }
    {
        self.symbols.has(name)
    }

    /// Adds the name that a statement defines. The `declare` of a block write defines none.
    pub fn define(&mut self, context: &Context<'_>, statement: &Statement) -> Result<(), Memory>
        ensures { OnOk result (self.new ≡ with_statement context.now self.old statement.now) }
    {
        match statement {
            Statement::Type { name, .. } => self.types.add(*name)?,
            Statement::Import { name, .. } => {
                if !is_block_write(context, *name) {
                    self.symbols.add(*name)?;
                }
            }
            Statement::Global { name, .. } | Statement::Function { name, .. } => {
                self.symbols.add(*name)?;
            }
        }
        Ok(())
    }

    /// Whether an import of this name, where there is one, was defined before and is no block write.
    pub fn is_imported_twice(&self, context: &Context<'_>, name: Option<u32>) -> bool
        ensures { result ≡ is_imported_twice context.now self.now name }
    {
        match name {
            Some(name) => self.has_symbol(name) && !is_block_write(context, name),
            None => false,
        }
    }
}
