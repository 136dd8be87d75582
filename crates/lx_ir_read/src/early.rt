//! Faults before the one at which the first reading stops: they are met at a token, but shown by what stands elsewhere.

ghost use Rattle.std.specs.Prelude.{◌≡◌, ◌-◌, length, take, IfOk};
ghost use Rattle.lx_ir.specs.Lawful.{is_own_name};
ghost use Rattle.lx_ir_read.specs.Fault.{name_at};
ghost use Rattle.lx_ir_read.specs.Reading.{is_own, is_early, first_early, left_at, or_byte, first_of, early_context, front_fault};

use crate::first::{FirstReading, Found};
use crate::tables::{named_types, naming_types, types_of};
use crate::{TextFault, name_at};
use lx_ir_calls::TextForm;
use lx_ir_constants::is_misplaced;
use lx_ir_terms::{Context, Fault, FaultKind};
use lx_ir_tokens::{IrTokens, Kind, NameTable, Tok};
use lx_words::{Memory, Stop};
use std::alloc::Global;

/// Whether a name is one that a program's own text never has.
fn is_own_name(name: &[u8]) -> bool
    ensures { result ≡ is_own_name name.now }
{
    name.starts_with(b"lxfi.")
}

fn is_own(form: TextForm, names: &NameTable, token: Tok) -> bool
    ensures { result ≡ is_own form names.now token.kind token.name }
{
    match (form, token.kind) {
        (TextForm::Program, Kind::Global) => is_own_name(name_at(names, token.name)),
        _ => false,
    }
}

/// Whether a name of an image's own, or a constant `getelementptr` whose indices name no part, stands first.
fn is_early(
    alloc: Global,
    form: TextForm,
    context: &Context<'_>,
    toks: &[Tok],
) -> Result<bool, Memory>
    ensures { IfOk result (λ early. early ≡ is_early form context.now toks.now) }
{
    let [token, ..] = toks else {
        return Ok(false);
    };
    if is_own(form, context.names, *token) {
        return Ok(true);
    }
    let misplaced = is_misplaced(alloc, toks, context)?;
    Ok(misplaced)
}

/// How many tokens are left with the first such before the last so many, which are not looked at.
fn first_early(
    alloc: Global,
    form: TextForm,
    context: &Context<'_>,
    stop: usize,
    toks: &[Tok],
) -> Result<Option<usize>, Memory>
    ensures { IfOk result (λ left. left ≡ first_early form context.now stop toks.now) }
{
    let mut rest = toks;
    while let Some((_, behind)) = rest.split_first() {
        let before = rest.split_at(rest.len().saturating_sub(stop)).0;
        if is_early(alloc, form, context, before)? {
            return Ok(Some(rest.len()));
        }
        rest = behind;
    }
    Ok(None)
}

fn left_at(fault: Option<Fault>) -> usize
    ensures { result ≡ left_at fault }
{
    fault.map_or(0, |fault| fault.left)
}

fn or_byte(fault: Fault, stop: Option<Stop>) -> TextFault
    ensures { result ≡ or_byte fault stop }
{
    match stop {
        Some(stop) if fault.left == 0 => TextFault::Byte(stop),
        _ => TextFault::Token(fault),
    }
}

/// The first of the fault before the stop, the fault at the stop, and the byte behind all tokens that begins none.
fn first_of(early: Option<usize>, fault: Option<Fault>, stop: Option<Stop>) -> Option<TextFault>
    ensures { result ≡ first_of early fault stop }
{
    if let Some(left) = early {
        return Some(TextFault::Token(Fault {
            kind: FaultKind::OutOfProfile,
            left,
        }));
    }
    match fault {
        Some(fault) => Some(or_byte(fault, stop)),
        None => Some(TextFault::Byte(stop?)),
    }
}

/// The first fault of a text but those of unknown names and of types that are outside the limits.
pub fn front_fault(
    alloc: Global,
    form: TextForm,
    ir: &IrTokens,
    reading: &FirstReading,
) -> Result<Option<TextFault>, Memory>
    ensures { IfOk result (λ fault. fault ≡ front_fault form ir.now reading.now) }
{
    let found = reading.statements.as_slice();
    let types = types_of(alloc, ir.names.len(), found)?;
    let named = named_types(alloc, form, ir, &types, found)?;
    let context = naming_types(&ir.names, types.table(), named.as_slice());
    let stop = left_at(reading.fault);
    let early = first_early(alloc, form, &context, stop, ir.toks.as_slice())?;
    Ok(first_of(early, reading.fault, ir.stop))
}
