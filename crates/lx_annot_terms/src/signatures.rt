//! Reading the signature of a slot or an export.

ghost use Rattle.std.specs.Prelude.{◌≡◌, ◌≤◌, length, codes};
ghost use Rattle.lx_annot_expressions.specs.Reading.{Gives, GivesBy, Leaves, adding_at, behind, has, steps_at};
ghost use Rattle.lx_annot_terms.specs.Signatures.{closed_params_at, is_reserved, param_behind, param_name_at, params_behind, signature_at, some_params_at, type_at, type_of};
ghost use Rattle.lx_annot_expressions.specs.Names.{fresh_at};
ghost use Rattle.lx_annot_expressions.specs.Exprs.{names_of_params};

use lx_annot::expr::Ty;
use lx_annot::interface::{Parameter, Parameters};
use lx_annot_expressions::{FaultKind, ReadError, Reader, found, place_of};
use lx_words::{Name, TokenKind};
use std::alloc::Global;
use std::marker::Model;

/// The words of types.
const TYPES: [(&[u8], Ty); 10] = [
    (b"void", Ty::Void),
    (b"bool", Ty::Bool),
    (b"i8", Ty::I8),
    (b"u8", Ty::U8),
    (b"i16", Ty::I16),
    (b"u16", Ty::U16),
    (b"i32", Ty::I32),
    (b"u32", Ty::U32),
    (b"i64", Ty::I64),
    (b"ptr", Ty::Ptr),
];

/// The type that a word stands for.
#[tactic(auto, unfolding(crate::specs::Signatures::type_of))]
fn type_of(bytes: &[u8]) -> Option<Ty>
    ensures { result ≡ type_of bytes.now }
{
    found(&TYPES, bytes)
}

/// How many parameters have a number.
const MOST_PARAMS: usize = u32::MAX as usize;

/// What a slot or an export takes and gives: fewer than 2^32 parameters.
#[derive(Drop)]
pub struct Signature {
    pub ret: Ty,
    pub params: Parameters,
}

impl Model for Signature {
    ghost use Rattle.std.specs.Prelude.{◌<◌, ◌^◌, length};
    ghost use Rattle.lx_annot_terms.specs.Signatures.{Signature as Meaning};

    ghost Value = { Meaning };

    ghost view = { λ s. record { ret = s.ret; params = s.params } };

    ghost invariant = { λ s. length s.params < 2 ^ 32 };
}

/// A type.
pub fn ty(reader: &mut Reader<'_>) -> Result<Ty, ReadError>
    ensures reads { Gives result reader.new (type_at reader.old) }
    ensures shrinks { length reader.new ≤ length reader.old }
{
    let Some((_, bytes)) = reader.token() else {
        return Err(reader.fault(FaultKind::Statement));
    };
    let ty = reader.picked(type_of(bytes), FaultKind::Statement)?;
    Ok(ty)
}

/// Whether a word stands next that names no parameter.
fn has_reserved(reader: &Reader<'_>) -> bool
    ensures { result ≡ is_reserved reader.now }
{
    reader.has(b"return") || reader.has(b"shared") || reader.has(b"global")
}

/// A word that is the name of no parameter so far.
fn fresh_among<'a>(reader: &mut Reader<'a>, params: &[Parameter]) -> Result<&'a [u8], ReadError>
    ensures reads { GivesBy (λ w. w.now) result reader.new (fresh_at (names_of_params params.now) reader.old) }
    ensures shrinks { length reader.new ≤ length reader.old }
{
    match reader.token() {
        Some((TokenKind::Word, bytes)) => {
            if place_of(params, bytes).is_some() {
                return Err(reader.fault(FaultKind::Twice));
            }
            reader.skip();
            Ok(bytes)
        }
        _ => Err(reader.fault(FaultKind::Statement)),
    }
}

/// The name of a parameter behind these.
pub fn read_param_name<'a>(
    reader: &mut Reader<'a>,
    params: &[Parameter],
) -> Result<&'a [u8], ReadError>
    ensures reads { GivesBy (λ w. w.now) result reader.new (param_name_at (names_of_params params.now) reader.old) }
    ensures shrinks { length reader.new ≤ length reader.old }
{
    if has_reserved(reader) {
        return Err(reader.fault(FaultKind::Statement));
    }
    let name = fresh_among(reader, params)?;
    Ok(name)
}

/// A parameter behind these.
fn param(
    alloc: Global,
    reader: &mut Reader<'_>,
    before: &[Parameter],
) -> Result<Parameter, ReadError>
    ensures reads { Gives result reader.new (param_behind before.now reader.old) }
    ensures shrinks { length reader.new ≤ length reader.old }
{
    let ty = ty(reader)?;
    let name = read_param_name(reader, before)?;
    let name = Name::from_bytes(alloc, name)?;
    Ok(Parameter { name, ty })
}

/// A comma, and a parameter behind those that stand already.
fn add_param(
    alloc: Global,
    reader: &mut Reader<'_>,
    params: &mut Parameters,
) -> Result<(), ReadError>
    ensures reads { Leaves params.new result reader.new (adding_at param_behind params.old reader.old) }
    ensures shrinks { length reader.new ≤ length (behind reader.old) }
{
    reader.skip();
    let param = param(alloc, reader, params.as_slice())?;
    params.push(param)?;
    Ok(())
}

/// Parameters behind the first, each behind a comma.
fn further_params(
    alloc: Global,
    reader: &mut Reader<'_>,
    first: Parameters,
) -> Result<Parameters, ReadError>
    ensures reads { Gives result reader.new (steps_at (has (codes ",")) (adding_at param_behind) (length reader.old) first reader.old) }
    ensures shrinks { length reader.new ≤ length reader.old }
{
    let mut params = first;
    while reader.has(b",") {
        add_param(alloc, reader, &mut params)?;
    }
    Ok(params)
}

/// One parameter or more.
#[tactic(auto, unfolding(crate::specs::Signatures::some_params_at))]
fn some_params(alloc: Global, reader: &mut Reader<'_>) -> Result<Parameters, ReadError>
    ensures reads { Gives result reader.new (some_params_at reader.old) }
    ensures shrinks { length reader.new ≤ length reader.old }
{
    let param = param(alloc, reader, &[])?;
    let mut first = Parameters::new(alloc);
    first.push(param)?;
    let params = further_params(alloc, reader, first)?;
    Ok(params)
}

/// Parameters up to the bracket that closes them.
fn params(alloc: Global, reader: &mut Reader<'_>) -> Result<Parameters, ReadError>
    ensures reads { Gives result reader.new (params_behind reader.old) }
    ensures shrinks { length reader.new ≤ length reader.old }
{
    if reader.takes(b")") {
        return Ok(Parameters::new(alloc));
    }
    let params = some_params(alloc, reader)?;
    reader.expect(b")")?;
    Ok(params)
}

/// The signature of a slot or an export. There is no memory for so many parameters that one has no number.
#[tactic(auto, unfolding(crate::specs::Signatures::signature_at))]
pub fn read_signature(alloc: Global, reader: &mut Reader<'_>) -> Result<Signature, ReadError>
    ensures reads { Gives result reader.new (signature_at reader.old) }
    ensures shrinks { length reader.new ≤ length reader.old }
{
    reader.expect(b":")?;
    let ret = ty(reader)?;
    reader.expect(b"(")?;
    let params = params(alloc, reader)?;
    if params.len() > MOST_PARAMS {
        return Err(ReadError::Memory);
    }
    Ok(Signature { ret, params })
}
