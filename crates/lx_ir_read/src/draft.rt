//! A module, as far as its statements are read.

ghost use Rattle.std.specs.Prelude.{◌≡◌, ◌++◌, ◌∷◌, [], None, length, drop, map, IfOk, OnOk};
ghost use Rattle.lx_ir_read.specs.Again.{register_name, local_names, no_draft, nameless, import_of, with_named, with_variable, with_declared, with_body, kept, with_defined, module_of};

use crate::name_at;
use lx_ir::NamedTypes;
use lx_ir::module::{Block, Function, GlobalVar, Init, Module, Parameter};
use lx_ir::types::{IrType, NamedType, Scalar};
use lx_ir_statements::{Defined, Statement, is_block_write};
use lx_ir_tables::Numbering;
use lx_ir_terms::Context;
use lx_ir_tokens::NameTable;
use lx_words::{Items, Memory, Name, Names};
use std::alloc::Global;

/// What the statements of a text say that were read, and the names that they define. Imports stand apart.
#[derive(Drop)]
pub struct Draft {
    pub defined: Defined,
    pub types: Items<NamedType>,
    pub globals: Items<GlobalVar>,
    pub imports: Items<Function>,
    pub functions: Items<Function>,
}

fn register_name(alloc: Global, names: &NameTable, register: Option<u32>) -> Result<Name, Memory>
    ensures { IfOk result (λ name. name ≡ register_name names.now register) }
{
    let name = match register {
        Some(number) => Name::from_bytes(alloc, name_at(names, number))?,
        None => Name::new(alloc),
    };
    Ok(name)
}

fn names_of(alloc: Global, names: &NameTable, registers: &[Option<u32>]) -> Result<Names, Memory>
    ensures { IfOk result (λ list. list ≡ map (register_name names.now) registers.now) }
{
    let mut list = Names::new(alloc);
    for register in registers {
        list.push(register_name(alloc, names, *register)?)?;
    }
    Ok(list)
}

/// The names of the registers behind so many parameters.
fn local_names(
    alloc: Global,
    names: &NameTable,
    params: usize,
    registers: &Numbering,
) -> Result<Names, Memory>
    ensures { IfOk result (λ list. list ≡ local_names names.now params registers.now) }
{
    let things = registers.things();
    if params < things.len() {
        let locals = names_of(alloc, names, things.split_at(params).1)?;
        Ok(locals)
    } else {
        Ok(Names::new(alloc))
    }
}

/// Parameters of these types, without names.
fn nameless(alloc: Global, types: &[Scalar]) -> Result<Items<Parameter>, Memory>
    ensures { IfOk result (λ params. params ≡ map nameless types.now) }
{
    let mut params = Items::new(alloc);
    for ty in types {
        params.push(Parameter {
            name: Name::new(alloc),
            ty: *ty,
        })?;
    }
    Ok(params)
}

/// An import, which keeps no names.
fn import_of(
    alloc: Global,
    name: Name,
    ret: Option<Scalar>,
    types: &[Scalar],
    line: u32,
) -> Result<Function, Memory>
    ensures { IfOk result (λ f. f ≡ import_of name ret types.now line) }
{
    let params = nameless(alloc, types)?;
    Ok(Function {
        name,
        params,
        locals: Names::new(alloc),
        ret,
        blocks: None,
        line,
    })
}

impl Draft {
    /// Nothing read.
    pub fn new(alloc: Global) -> Self
        ensures { result ≡ no_draft }
    {
        Draft {
            defined: Defined::new(alloc),
            types: Items::new(alloc),
            globals: Items::new(alloc),
            imports: Items::new(alloc),
            functions: Items::new(alloc),
        }
    }

    fn add_type(&mut self, name: Name, ty: IrType) -> Result<(), Memory>
        ensures { OnOk result (self.new ≡ with_named self.old (record { name = name; ty = ty })) }
    {
        self.types.push(NamedType { name, ty })?;
        Ok(())
    }

    fn add_global(&mut self, global: GlobalVar) -> Result<(), Memory>
        ensures { OnOk result (self.new ≡ with_variable self.old global) }
    {
        self.globals.push(global)?;
        Ok(())
    }

    fn add_import(&mut self, import: Function) -> Result<(), Memory>
        ensures { OnOk result (self.new ≡ with_declared self.old import) }
    {
        self.imports.push(import)?;
        Ok(())
    }

    fn add_function(&mut self, function: Function) -> Result<(), Memory>
        ensures { OnOk result (self.new ≡ with_body self.old function) }
    {
        self.functions.push(function)?;
        Ok(())
    }

    /// Keeps what a statement says, whose registers and line are these. The import of a block write is not kept.
    fn keep(
        &mut self,
        alloc: Global,
        context: &Context<'_>,
        registers: &Numbering,
        line: u32,
        statement: Statement,
    ) -> Result<(), Memory>
        ensures { OnOk result (self.new ≡ kept context.now registers.now line self.old statement) }
    {
        match statement {
            Statement::Type { name, ty } => {
                let name = Name::from_bytes(alloc, context.bytes(name))?;
                self.add_type(name, ty)?;
            }
            Statement::Global {
                name,
                constant,
                ty,
                init,
            } => {
                let name = Name::from_bytes(alloc, context.bytes(name))?;
                self.add_global(GlobalVar {
                    name,
                    constant,
                    ty,
                    init,
                    line,
                })?;
            }
            Statement::Import { name, ret, params } => {
                if !is_block_write(context, name) {
                    let name = Name::from_bytes(alloc, context.bytes(name))?;
                    let import = import_of(alloc, name, ret, params.as_slice(), line)?;
                    self.add_import(import)?;
                }
            }
            Statement::Function {
                name,
                ret,
                params,
                blocks,
            } => {
                let name = Name::from_bytes(alloc, context.bytes(name))?;
                let locals = local_names(alloc, context.names, params.len(), registers)?;
                self.add_function(Function {
                    name,
                    params,
                    locals,
                    ret,
                    blocks: Some(blocks),
                    line,
                })?;
            }
        }
        Ok(())
    }

    /// Adds a statement, whose registers and line are these.
    pub fn add(
        &mut self,
        alloc: Global,
        context: &Context<'_>,
        registers: &Numbering,
        line: u32,
        statement: Statement,
    ) -> Result<(), Memory>
        ensures { OnOk result (self.new ≡ kept context.now registers.now line (with_defined context.now self.old statement) statement) }
    {
        self.defined.define(context, &statement)?;
        self.keep(alloc, context, registers, line, statement)?;
        Ok(())
    }

    /// The module, in which the imports stand before the functions that are defined.
    pub fn into_module(self, alloc: Global) -> Result<Module, Memory>
        ensures { IfOk result (λ m. m ≡ module_of self) }
    {
        let mut functions = self.imports.into_vec();
        let mut defined = self.functions.into_vec();
        functions.append(&mut defined)?;
        Ok(Module {
            types: NamedTypes::new(alloc, self.types)?,
            globals: self.globals,
            functions: Items::from_vec(functions),
        })
    }
}
