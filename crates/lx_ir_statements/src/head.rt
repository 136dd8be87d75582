//! The parameters of a function that is defined.

ghost use Rattle.std.specs.Prelude.{◌≡◌, ◌≤◌, length, IfOk, OnOk};
ghost use Rattle.lx_words.specs.Text.{decimal_text};
ghost use Rattle.lx_ir_terms.specs.Reading.{behind};
ghost use Rattle.lx_ir_statements.specs.Going.{Leaves};
ghost use Rattle.lx_ir_statements.specs.Parameters.{is_number, no_parameters, with_parameter, written_parameter, nameless_parameter, parameter_named, parameter_at, further_parameters_at, some_parameters_at, listed_parameters_at, parameters_at};
ghost use Rattle.lx_ir_terms.specs.Reading.{Gives};

use crate::numbers::Numbers;
use lx_ir::module::Parameter;
use lx_ir::types::Scalar;
use lx_ir_terms::{Context, Fault, FaultKind, ReadError, Reader};
use lx_ir_tokens::{Kind, Mark, Tok};
use lx_words::{Items, Memory, Name, are_digits, put_decimal};
use std::alloc::Global;

/// The parameters of a function, as far as they are read.
#[derive(Drop)]
pub struct Head {
    pub params: Items<Parameter>,
    /// The numbers of their names, in the table of names; a name that was not written may have none.
    pub registers: Numbers,
    /// How many of them have a number for a name.
    pub numbered: usize,
}

/// Whether a name is a number.
fn is_number(name: &[u8]) -> bool
    ensures { result ≡ is_number name.now }
{
    are_digits(name)
}

/// The name that a number is.
pub fn decimal_name(alloc: Global, number: usize) -> Result<Name, Memory>
    ensures { IfOk result (λ name. name ≡ decimal_text number) }
{
    let mut bytes = Vec::new(alloc);
    put_decimal(&mut bytes, number as i128)?;
    Ok(Items::from_vec(bytes))
}

impl Head {
    /// No parameter.
    fn new(alloc: Global) -> Self
        ensures { result ≡ no_parameters }
    {
        Head {
            params: Items::new(alloc),
            registers: Numbers::new(alloc),
            numbered: 0,
        }
    }

    /// Adds a parameter, whose name has this number in the table of names, where it stands there.
    fn add(&mut self, number: Option<u32>, name: Name, ty: Scalar) -> Result<(), Memory>
        requires counts { self.old.numbered ≤ length self.old.params }
        ensures ok { OnOk result (self.new ≡ with_parameter self.old number name ty) }
        ensures counts { self.new.numbered ≤ length self.new.params }
    {
        self.registers.add_some(number)?;
        let counts = is_number(name.as_slice());
        self.params.push(Parameter { name, ty })?;
        if counts {
            let room = self.numbered < self.params.len();
            prove!(room);
            self.numbered += 1;
        }
        Ok(())
    }
}

/// A parameter of this name, which stands next.
fn written(
    alloc: Global,
    reader: &mut Reader<'_>,
    context: &Context<'_>,
    head: &mut Head,
    ty: Scalar,
    name: u32,
) -> Result<(), ReadError>
    requires counts { head.old.numbered ≤ length head.old.params }
    ensures reads { Leaves result head.new reader.new (written_parameter context.now head.old ty name reader.old) }
    ensures shrinks { length reader.new ≤ length reader.old }
    ensures counts { head.new.numbered ≤ length head.new.params }
{
    if head.registers.has(name) {
        return Err(reader.fault(FaultKind::Twice));
    }
    let bytes = Items::from_bytes(alloc, context.bytes(name))?;
    head.add(Some(name), bytes, ty)?;
    reader.skip();
    Ok(())
}

/// A parameter without a name, whose type stood where so many tokens were left.
fn nameless(
    alloc: Global,
    reader: &mut Reader<'_>,
    context: &Context<'_>,
    head: &mut Head,
    ty: Scalar,
    start: &Reader<'_>,
) -> Result<(), ReadError>
    requires counts { head.old.numbered ≤ length head.old.params }
    ensures reads { Leaves result head.new reader.new (nameless_parameter context.now head.old ty start.now reader.old) }
    ensures shrinks { length reader.new ≤ length reader.old }
    ensures counts { head.new.numbered ≤ length head.new.params }
{
    let name = decimal_name(alloc, head.numbered)?;
    let number = context.names.number_of(name.as_slice());
    if head.registers.has_some(number) {
        return Err(start.fault(FaultKind::Twice));
    }
    head.add(number, name, ty)?;
    Ok(())
}

/// A parameter behind its type and the words there.
fn named(
    alloc: Global,
    reader: &mut Reader<'_>,
    context: &Context<'_>,
    head: &mut Head,
    ty: Scalar,
    start: &Reader<'_>,
) -> Result<(), ReadError>
    requires counts { head.old.numbered ≤ length head.old.params }
    ensures reads { Leaves result head.new reader.new (parameter_named context.now head.old ty start.now reader.old) }
    ensures shrinks { length reader.new ≤ length reader.old }
    ensures counts { head.new.numbered ≤ length head.new.params }
{
    let [token, ..] = reader.rest else {
        return Err(reader.fault(FaultKind::Statement));
    };
    match token.kind {
        Kind::Local => written(alloc, reader, context, head, ty, token.name)?,
        Kind::Word(_) => return Err(reader.fault(FaultKind::OutOfProfile)),
        _ => nameless(alloc, reader, context, head, ty, start)?,
    }
    Ok(())
}

/// A parameter.
fn parameter(
    alloc: Global,
    reader: &mut Reader<'_>,
    context: &Context<'_>,
    head: &mut Head,
) -> Result<(), ReadError>
    requires counts { head.old.numbered ≤ length head.old.params }
    ensures reads { Leaves result head.new reader.new (parameter_at context.now head.old reader.old) }
    ensures shrinks { length reader.new ≤ length reader.old }
    ensures counts { head.new.numbered ≤ length head.new.params }
{
    let start = Reader::new(reader.rest);
    let ty = reader.scalar()?;
    reader.passed(false)?;
    named(alloc, reader, context, head, ty, &start)?;
    Ok(())
}

/// A parameter behind a comma.
fn further_parameter(
    alloc: Global,
    reader: &mut Reader<'_>,
    context: &Context<'_>,
    head: &mut Head,
) -> Result<(), ReadError>
    requires counts { head.old.numbered ≤ length head.old.params }
    ensures reads { Leaves result head.new reader.new (parameter_at context.now head.old (behind reader.old)) }
    ensures shrinks { length reader.new ≤ length (behind reader.old) }
    ensures counts { head.new.numbered ≤ length head.new.params }
{
    reader.skip();
    parameter(alloc, reader, context, head)?;
    Ok(())
}

/// Further parameters, each behind a comma.
fn further_parameters(
    alloc: Global,
    reader: &mut Reader<'_>,
    context: &Context<'_>,
    head: &mut Head,
) -> Result<(), ReadError>
    requires counts { head.old.numbered ≤ length head.old.params }
    ensures reads { Leaves result head.new reader.new (further_parameters_at context.now head.old reader.old) }
    ensures shrinks { length reader.new ≤ length reader.old }
    ensures counts { head.new.numbered ≤ length head.new.params }
{
    while reader.has(Mark::Comma) {
        further_parameter(alloc, reader, context, head)?;
    }
    Ok(())
}

/// One parameter or more, and the parenthesis behind them.
fn some_parameters(
    alloc: Global,
    reader: &mut Reader<'_>,
    context: &Context<'_>,
) -> Result<Head, ReadError>
    ensures reads { Gives result reader.new (some_parameters_at context.now reader.old) }
    ensures shrinks { length reader.new ≤ length reader.old }
{
    let mut head = Head::new(alloc);
    parameter(alloc, reader, context, &mut head)?;
    further_parameters(alloc, reader, context, &mut head)?;
    reader.mark(Mark::CloseParenthesis)?;
    Ok(head)
}

/// Parameters behind their parenthesis.
fn listed_parameters(
    alloc: Global,
    reader: &mut Reader<'_>,
    context: &Context<'_>,
) -> Result<Head, ReadError>
    ensures reads { Gives result reader.new (listed_parameters_at context.now reader.old) }
    ensures shrinks { length reader.new ≤ length reader.old }
{
    if reader.takes(Mark::CloseParenthesis) {
        return Ok(Head::new(alloc));
    }
    let head = some_parameters(alloc, reader, context)?;
    Ok(head)
}

/// The parameters of a function that is defined, in their parentheses.
///
/// A parameter without a name takes the next number, which counts the parameters before it whose name is a number. A name
/// that is taken is fault `Twice`, at the name, or at the type of a parameter without one; a word that is not passed over
/// behind a type is outside the profile.
pub fn parameters(
    alloc: Global,
    reader: &mut Reader<'_>,
    context: &Context<'_>,
) -> Result<Head, ReadError>
    ensures reads { Gives result reader.new (parameters_at context.now reader.old) }
    ensures shrinks { length reader.new ≤ length reader.old }
{
    reader.mark(Mark::OpenParenthesis)?;
    let head = listed_parameters(alloc, reader, context)?;
    Ok(head)
}
