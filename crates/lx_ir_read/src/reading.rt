//! Modules from texts.

ghost use Rattle.std.specs.Prelude.{◌≡◌, ◌+◌, ◌^◌, ◌<◌, length, IfOk, IfErr};
ghost use Rattle.lx_ir_read.specs.First.{first_reading};
ghost use Rattle.lx_ir_read.specs.Tables.{types_of, named_types};
ghost use Rattle.lx_ir_read.specs.Again.{no_draft, all_again};
ghost use Rattle.lx_ir_read.specs.Reading.{told, types_in, symbols_in, tables_of, full_context, module_by_tables, module_found, unless_faulty, module_by, module_at, SaysModule, ModuleFails};
ghost use Rattle.lx_ir_read.specs.Says.{AnswersText};
ghost use Rattle.lx_ir_read.specs.Laws.{OneModule, OneFault, NotBoth, ModulesAreFound};

use crate::again::all_again;
use crate::draft::Draft;
use crate::early::front_fault;
use crate::first::{FirstReading, Found, first_reading, knowing_registers};
use crate::module_error::ModuleError;
use crate::tables::{named_types, symbols_of, types_of};
use crate::{ReadFault, TextFault, shown};
use lx_ir::NamedTypes;
use lx_ir::module::{Module, Symbol};
use lx_ir_calls::TextForm;
use lx_ir_offsets::{KnownTypes, Shape, named_shapes};
use lx_ir_statements::statement_laws;
use lx_ir_tables::own_numbers;
use lx_ir_terms::{Context, ReadError};
use lx_ir_tokens::{IrTokens, read_tokens, readings};
use lx_words::{Items, Memory};
use std::alloc::Global;

/// What the statements of a text define, by number, and what is reckoned of its types.
#[derive(Drop)]
struct Tables {
    types: Items<Option<u32>>,
    symbols: Items<Option<Symbol>>,
    named: NamedTypes,
    shapes: Items<Shape>,
}

/// The types that statements define, and the numbers of their names.
#[derive(Drop)]
struct Types {
    numbers: Items<Option<u32>>,
    named: NamedTypes,
}

/// The types of the statements that were found.
fn types_in(alloc: Global, form: TextForm, ir: &IrTokens, found: &[Found]) -> Result<Types, Memory>
    ensures { IfOk result (λ t. t ≡ types_in form ir.now found.now) }
{
    let types = types_of(alloc, ir.names.len(), found)?;
    let entries = named_types(alloc, form, ir, &types, found)?;
    let numbers = Items::from_slice(alloc, types.table())?;
    let named = NamedTypes::new(alloc, entries)?;
    Ok(Types { numbers, named })
}

/// What each name behind `@` names in the statements that were found.
fn symbols_in(
    alloc: Global,
    ir: &IrTokens,
    found: &[Found],
) -> Result<Items<Option<Symbol>>, Memory>
    ensures { IfOk result (λ s. s ≡ symbols_in ir.now found.now) }
{
    let count = ir.names.len();
    let own = own_numbers(alloc, count)?;
    let context = knowing_registers(&ir.names, own.as_slice());
    let symbols = symbols_of(alloc, &context, count, found)?;
    Ok(symbols)
}

/// The tables of the statements that were found. They are made part by part: each way out drops what is there by then.
fn tables_of(
    alloc: Global,
    form: TextForm,
    ir: &IrTokens,
    found: &[Found],
) -> Result<Tables, Memory>
    ensures { IfOk result (λ t. t ≡ tables_of form ir.now found.now) }
{
    let types = types_in(alloc, form, ir, found)?;
    let shapes = named_shapes(alloc, types.named.as_slice())?;
    let symbols = symbols_in(alloc, ir, found)?;
    Ok(Tables {
        types: types.numbers,
        symbols,
        named: types.named,
        shapes,
    })
}

/// A context that knows all names of the text, and perhaps the limits on types.
fn full_context<'a>(ir: &'a IrTokens, tables: &'a Tables, limited: bool) -> Context<'a>
    ensures { result ≡ full_context ir.entry.now tables.entry.now limited }
{
    let limits = if limited {
        Some(tables.shapes.as_slice())
    } else {
        None
    };
    Context {
        types: tables.types.as_slice(),
        symbols: tables.symbols.as_slice(),
        registers: &[],
        known: KnownTypes::Laid(&tables.named),
        limits,
        names: &ir.names,
        complete: true,
    }
}

/// Reads the statements again by a context that knows all names.
fn read_all(
    alloc: Global,
    context: &Context<'_>,
    form: TextForm,
    ir: &IrTokens,
    found: &[Found],
) -> Result<Draft, ModuleError>
    ensures { AnswersText result (told (all_again context.now form ir.now.places ir.now.toks no_draft found.now)) }
{
    match all_again(alloc, context, form, ir, found) {
        Ok(draft) => Ok(draft),
        Err(ReadError::Fault(fault)) => Err(ModuleError::Fault(TextFault::Token(fault))),
        Err(ReadError::Memory) => Err(ModuleError::Memory),
    }
}

/// The module that the statements say which were found, by what they define.
fn module_by_tables(
    alloc: Global,
    form: TextForm,
    ir: &IrTokens,
    found: &[Found],
    tables: &Tables,
) -> Result<Module, ModuleError>
    ensures { AnswersText result (module_by_tables form ir.now found.now tables.now) }
{
    let known = full_context(ir, tables, false);
    read_all(alloc, &known, form, ir, found)?;
    let limited = full_context(ir, tables, true);
    let draft = read_all(alloc, &limited, form, ir, found)?;
    let module = draft.into_module(alloc)?;
    Ok(module)
}

/// The module that the statements say which were found.
fn module_found(
    alloc: Global,
    form: TextForm,
    ir: &IrTokens,
    found: &[Found],
) -> Result<Module, ModuleError>
    ensures { AnswersText result (module_found form ir.now found.now) }
{
    let tables = tables_of(alloc, form, ir, found)?;
    let module = module_by_tables(alloc, form, ir, found, &tables)?;
    Ok(module)
}

/// The module that the statements say which were found, where there is no fault before it.
fn module_unless(
    alloc: Global,
    form: TextForm,
    ir: &IrTokens,
    fault: Option<TextFault>,
    found: &[Found],
) -> Result<Module, ModuleError>
    ensures { AnswersText result (unless_faulty fault (module_found form ir.now found.now)) }
{
    match fault {
        Some(fault) => Err(ModuleError::Fault(fault)),
        None => {
            let module = module_found(alloc, form, ir, found)?;
            Ok(module)
        }
    }
}

/// The module that the tokens of a text say, or the first fault.
fn module_in(alloc: Global, form: TextForm, ir: &IrTokens) -> Result<Module, ModuleError>
    ensures { AnswersText result (module_at form ir.now) }
{
    let reading = first_reading(alloc, form, ir)?;
    let fault = front_fault(alloc, form, ir, &reading)?;
    let module = module_unless(alloc, form, ir, fault, reading.statements.as_slice())?;
    Ok(module)
}

/// The module that a text says.
///
/// # Errors
/// The first fault of the text: `Lexical`, `Statement`, `OutOfProfile`, `Twice` or `Unknown`. `Memory` where there is not
/// enough memory for the module.
pub fn read_module(alloc: Global, form: TextForm, bytes: &[u8]) -> Result<Module, ReadFault>
    requires { length bytes.now + 1 < 2 ^ 32 }
    ensures module { IfOk result (λ m. SaysModule form bytes.now m) }
    ensures fault { IfErr result (λ e. ModuleFails form bytes.now e) }
{
    let ir = read_tokens(alloc, bytes)?;
    match module_in(alloc, form, &ir) {
        Ok(module) => Ok(module),
        Err(ModuleError::Fault(fault)) => Err(shown(alloc, bytes, &ir, fault)),
        Err(ModuleError::Memory) => Err(ReadFault::Memory),
    }
}

/// A text says one module at most, has one first fault at most, and not both; and what is read as a module is one of the
/// grammar.
pub fn module_laws()
    ensures module { OneModule }
    ensures fault { OneFault }
    ensures apart { NotBoth }
    ensures found { ModulesAreFound }
{
    readings();
    statement_laws();
}
