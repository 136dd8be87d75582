//! The first reading of a text.

ghost use Rattle.std.specs.Prelude.{◌≡◌, length, IfOk, OnOk};
ghost use Rattle.lx_ir_terms.specs.Reading.{Gives};
ghost use Rattle.lx_ir_read.specs.First.{knowing_registers, no_progress, with_found, found_at, stopped, leftover, first_at, first_reading};

use lx_ir_calls::TextForm;
use lx_ir_offsets::KnownTypes;
use lx_ir_statements::{Defined, Statement, statement};
use lx_ir_tables::own_numbers;
use lx_ir_terms::{Context, Fault, FaultKind, ReadError, Reader};
use lx_ir_tokens::{IrTokens, NameTable, Tok};
use lx_words::{Items, Memory, Token};
use std::alloc::Global;

/// A statement, and how many tokens are left with its first.
#[derive(Drop)]
pub struct Found {
    pub left: usize,
    pub statement: Statement,
}

/// The statements that were read, and the names that they define.
#[derive(Drop)]
pub struct Progress {
    pub defined: Defined,
    pub statements: Items<Found>,
}

/// The statements before the first fault, and that fault.
#[derive(Drop)]
pub struct FirstReading {
    pub statements: Items<Found>,
    pub fault: Option<Fault>,
}

/// A context that knows no names but those of registers.
pub fn knowing_registers<'a>(names: &'a NameTable, own: &'a [Option<u32>]) -> Context<'a>
    ensures { result ≡ knowing_registers names.entry.now own.entry.now }
{
    Context {
        types: &[],
        symbols: &[],
        registers: own,
        known: KnownTypes::Listed(&[], &[]),
        limits: None,
        names,
        complete: false,
    }
}

/// A statement, where those before define these names.
fn next(
    alloc: Global,
    reader: &mut Reader<'_>,
    context: &Context<'_>,
    form: TextForm,
    places: &[Token],
    defined: &Defined,
) -> Result<Found, ReadError>
    ensures { Gives result reader.new (found_at context.now form places.now defined.now reader.old) }
{
    let left = reader.left();
    let statement = statement(alloc, reader, context, form, places, defined)?;
    Ok(Found { left, statement })
}

impl Progress {
    /// Keeps a statement.
    fn add(&mut self, context: &Context<'_>, found: Found) -> Result<(), Memory>
        ensures { OnOk result (self.new ≡ with_found context.now self.old found) }
    {
        self.defined.define(context, &found.statement)?;
        self.statements.push(found)?;
        Ok(())
    }

    /// What was read up to a fault, or up to the end.
    fn stopped(self, fault: Option<Fault>) -> FirstReading
        ensures { result ≡ stopped self fault }
    {
        FirstReading {
            statements: self.statements,
            fault,
        }
    }
}

/// The fault that an error says.
fn met(error: ReadError) -> Result<Fault, Memory>
    ensures { IfOk result (λ fault. error ≡ ReadError.Fault fault) }
{
    match error {
        ReadError::Fault(fault) => Ok(fault),
        ReadError::Memory => Err(Memory),
    }
}

/// The fault at the next token, where one is left.
fn leftover(reader: &Reader<'_>) -> Option<Fault>
    ensures { result ≡ leftover reader.now }
{
    match reader.rest {
        [] => None,
        rest => Some(Fault {
            kind: FaultKind::Statement,
            left: rest.len(),
        }),
    }
}

/// Reads statements up to the first fault.
fn statements(
    alloc: Global,
    toks: &[Tok],
    context: &Context<'_>,
    form: TextForm,
    places: &[Token],
) -> Result<FirstReading, Memory>
    ensures { IfOk result (λ r. r ≡ first_at context.now form places.now (length toks.now) no_progress toks.now) }
{
    let mut reader = Reader::new(toks);
    let mut progress = Progress {
        defined: Defined::new(alloc),
        statements: Items::new(alloc),
    };
    let mut fuel = toks.len();
    while fuel > 0 && reader.left() > 0 {
        fuel -= 1;
        match next(alloc, &mut reader, context, form, places, &progress.defined) {
            Ok(found) => progress.add(context, found)?,
            Err(error) => {
                let fault = met(error)?;
                return Ok(progress.stopped(Some(fault)));
            }
        }
    }
    Ok(progress.stopped(leftover(&reader)))
}

/// The statements of a text, as they are read by a context that knows no names, up to the first fault.
pub fn first_reading(alloc: Global, form: TextForm, ir: &IrTokens) -> Result<FirstReading, Memory>
    ensures { IfOk result (λ r. r ≡ first_reading form ir.now.names ir.now.places ir.now.toks) }
{
    let own = own_numbers(alloc, ir.names.len())?;
    let context = knowing_registers(&ir.names, own.as_slice());
    let reading = statements(
        alloc,
        ir.toks.as_slice(),
        &context,
        form,
        ir.places.as_slice(),
    )?;
    Ok(reading)
}
