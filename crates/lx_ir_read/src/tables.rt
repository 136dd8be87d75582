//! What the statements of a text define, by number.

ghost use Rattle.std.specs.Prelude.{◌≡◌, ◌++◌, [], length, fold, option_to_list, IfOk, OnOk};
ghost use Rattle.lx_ir_tables.specs.Numbering.{numbering};
ghost use Rattle.lx_ir_read.specs.Tables.{with_type, types_of, with_global, globals_of, with_import, with_function, functions_of, symbols_of, tokens_left, naming_types, is_type, type_in, type_read, type_again, with_type_again, named_types};

use crate::first::Found;
use lx_ir::module::Symbol;
use lx_ir::types::NamedType;
use lx_ir_calls::TextForm;
use lx_ir_offsets::KnownTypes;
use lx_ir_statements::{Defined, Statement, is_block_write, statement};
use lx_ir_tables::{Numbering, symbols_by};
use lx_ir_terms::{Context, ReadError, Reader};
use lx_ir_tokens::{IrTokens, NameTable, Tok};
use lx_words::{Items, Memory, Name, Token};
use std::alloc::Global;

fn add_type(types: &mut Numbering, statement: &Statement) -> Result<(), Memory>
    ensures { OnOk result (types.new ≡ with_type types.old statement.now) }
{
    if let Statement::Type { name, .. } = statement {
        types.add(Some(*name))?;
    }
    Ok(())
}

/// The types that statements define, in the order of the text, over a table of so many names.
pub fn types_of(alloc: Global, count: u32, found: &[Found]) -> Result<Numbering, Memory>
    ensures { IfOk result (λ types. types ≡ types_of count found.now) }
{
    let mut types = Numbering::new(alloc, count)?;
    for f in found {
        add_type(&mut types, &f.statement)?;
    }
    Ok(types)
}

fn add_global(globals: &mut Numbering, statement: &Statement) -> Result<(), Memory>
    ensures { OnOk result (globals.new ≡ with_global globals.old statement.now) }
{
    if let Statement::Global { name, .. } = statement {
        globals.add(Some(*name))?;
    }
    Ok(())
}

fn globals_of(alloc: Global, count: u32, found: &[Found]) -> Result<Numbering, Memory>
    ensures { IfOk result (λ globals. globals ≡ globals_of count found.now) }
{
    let mut globals = Numbering::new(alloc, count)?;
    for f in found {
        add_global(&mut globals, &f.statement)?;
    }
    Ok(globals)
}

fn add_import(
    functions: &mut Numbering,
    context: &Context<'_>,
    statement: &Statement,
) -> Result<(), Memory>
    ensures { OnOk result (functions.new ≡ with_import context.now functions.old statement.now) }
{
    if let Statement::Import { name, .. } = statement {
        if !is_block_write(context, *name) {
            functions.add(Some(*name))?;
        }
    }
    Ok(())
}

/// Adds the imports; that of a block write is none.
fn add_imports(
    functions: &mut Numbering,
    context: &Context<'_>,
    found: &[Found],
) -> Result<(), Memory>
    ensures { OnOk result (functions.new ≡ fold (λ t f. with_import context.now t f.statement) functions.old found.now) }
{
    for f in found {
        add_import(functions, context, &f.statement)?;
    }
    Ok(())
}

fn add_function(functions: &mut Numbering, statement: &Statement) -> Result<(), Memory>
    ensures { OnOk result (functions.new ≡ with_function functions.old statement.now) }
{
    if let Statement::Function { name, .. } = statement {
        functions.add(Some(*name))?;
    }
    Ok(())
}

/// Adds the functions that are defined.
fn add_functions(functions: &mut Numbering, found: &[Found]) -> Result<(), Memory>
    ensures { OnOk result (functions.new ≡ fold (λ t f. with_function t f.statement) functions.old found.now) }
{
    for f in found {
        add_function(functions, &f.statement)?;
    }
    Ok(())
}

/// The imports, and then the functions that are defined.
fn functions_of(
    alloc: Global,
    context: &Context<'_>,
    count: u32,
    found: &[Found],
) -> Result<Numbering, Memory>
    ensures { IfOk result (λ functions. functions ≡ functions_of context.now count found.now) }
{
    let mut functions = Numbering::new(alloc, count)?;
    add_imports(&mut functions, context, found)?;
    add_functions(&mut functions, found)?;
    Ok(functions)
}

/// What each name behind `@` names.
pub fn symbols_of(
    alloc: Global,
    context: &Context<'_>,
    count: u32,
    found: &[Found],
) -> Result<Items<Option<Symbol>>, Memory>
    ensures { IfOk result (λ symbols. symbols ≡ symbols_of context.now count found.now) }
{
    let globals = globals_of(alloc, count, found)?;
    let functions = functions_of(alloc, context, count, found)?;
    let symbols = symbols_by(alloc, globals.table(), functions.table())?;
    Ok(symbols)
}

/// The last so many tokens.
pub fn tokens_left(left: usize, toks: &[Tok]) -> &[Tok]
    ensures { result.now ≡ tokens_left left toks.entry.now }
{
    toks.split_at(toks.len().saturating_sub(left)).1
}

/// A context in which names of types have their numbers.
pub fn naming_types<'a>(
    names: &'a NameTable,
    types: &'a [Option<u32>],
    named: &'a [NamedType],
) -> Context<'a>
    ensures { result ≡ naming_types names.entry.now types.entry.now named.entry.now }
{
    Context {
        types,
        symbols: &[],
        registers: &[],
        known: KnownTypes::Listed(named, &[]),
        limits: None,
        names,
        complete: false,
    }
}

fn is_type(statement: &Statement) -> bool
    ensures { result ≡ is_type statement.now }
{
    matches!(statement, Statement::Type { .. })
}

/// The type that a statement defines.
fn type_in(
    alloc: Global,
    context: &Context<'_>,
    statement: Statement,
) -> Result<Option<NamedType>, Memory>
    ensures { IfOk result (λ t. t ≡ type_in context.now statement) }
{
    match statement {
        Statement::Type { name, ty } => {
            let name = Name::from_bytes(alloc, context.bytes(name))?;
            Ok(Some(NamedType { name, ty }))
        }
        _ => Ok(None),
    }
}

/// The type that a statement defines, read again.
fn type_again(
    alloc: Global,
    context: &Context<'_>,
    form: TextForm,
    places: &[Token],
    toks: &[Tok],
    found: &Found,
) -> Result<Option<NamedType>, Memory>
    ensures { IfOk result (λ t. t ≡ type_again context.now form places.now toks.now found.now) }
{
    if !is_type(&found.statement) {
        return Ok(None);
    }
    let mut reader = Reader::new(tokens_left(found.left, toks));
    let defined = Defined::new(alloc);
    match statement(alloc, &mut reader, context, form, places, &defined) {
        Ok(again) => {
            let named = type_in(alloc, context, again)?;
            Ok(named)
        }
        Err(ReadError::Fault(_)) => Ok(None),
        Err(ReadError::Memory) => Err(Memory),
    }
}

fn push_some(list: &mut Items<NamedType>, named: Option<NamedType>) -> Result<(), Memory>
    ensures { OnOk result (list.new ≡ list.old ++ option_to_list named) }
{
    if let Some(named) = named {
        list.push(named)?;
    }
    Ok(())
}

fn add_type_again(
    alloc: Global,
    context: &Context<'_>,
    form: TextForm,
    places: &[Token],
    toks: &[Tok],
    named: &mut Items<NamedType>,
    found: &Found,
) -> Result<(), Memory>
    ensures { OnOk result (named.new ≡ with_type_again context.now form places.now toks.now named.old found.now) }
{
    let again = type_again(alloc, context, form, places, toks, found)?;
    push_some(named, again)?;
    Ok(())
}

/// The types that statements define, read again by a context in which their names have numbers.
fn types_again(
    alloc: Global,
    context: &Context<'_>,
    form: TextForm,
    places: &[Token],
    toks: &[Tok],
    found: &[Found],
) -> Result<Items<NamedType>, Memory>
    ensures { IfOk result (λ named. named ≡ fold (with_type_again context.now form places.now toks.now) [] found.now) }
{
    let mut named = Items::new(alloc);
    for f in found {
        add_type_again(alloc, context, form, places, toks, &mut named, f)?;
    }
    Ok(named)
}

/// The types that the statements of a text define, by the numbers that their names have in `types`.
pub fn named_types(
    alloc: Global,
    form: TextForm,
    ir: &IrTokens,
    types: &Numbering,
    found: &[Found],
) -> Result<Items<NamedType>, Memory>
    requires { types.now ≡ types_of (length ir.now.names) found.now }
    ensures { IfOk result (λ named. named ≡ named_types form ir.now.names ir.now.places ir.now.toks found.now) }
{
    let context = naming_types(&ir.names, types.table(), &[]);
    let named = types_again(
        alloc,
        &context,
        form,
        ir.places.as_slice(),
        ir.toks.as_slice(),
        found,
    )?;
    Ok(named)
}
