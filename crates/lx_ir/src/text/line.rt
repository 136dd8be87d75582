//! What the lines of a function are put together of.
ghost use Rattle.std.specs.Prelude.{◌≡◌, ◌++◌, OnOk, flat_map};
ghost use Rattle.lx_ir.specs.Pieces.{piece_text};

use crate::instr::Callee;
use crate::module::{Symbol, Value};
use crate::text::constants::{put_number, put_symbol};
use crate::text::operands::{Scope, put_callee, put_given, put_operand, put_value};
use crate::text::pieces::{put, put_global, put_local};
use crate::text::types::{put_result, put_scalar, put_type};
use crate::types::{IrType, Scalar};
use lx_words::{Memory, Word};

/// A piece of a line.
#[derive(Clone, Copy)]
pub enum Piece<'a> {
    /// These bytes.
    Text(&'a [u8]),
    /// The name of a register or a label.
    Local(&'a [u8]),
    /// The name of a function or a global.
    Global(&'a [u8]),
    /// The register that an instruction gives.
    Given(u32),
    Value(Value),
    /// A value behind its type.
    Operand(Scalar, Value),
    Scalar(Scalar),
    Result(Option<Scalar>),
    Type(&'a IrType),
    Symbol(Symbol),
    Callee(Callee),
    Number(Word),
}

fn put_piece(out: &mut Vec<u8>, scope: Scope, piece: &Piece<'_>) -> Result<(), Memory>
    ensures { OnOk result (out.new.items ≡ out.old.items ++ piece_text scope.entry.m.now scope.entry.f.now piece.now) }
{
    match piece {
        Piece::Text(text) => put(out, text),
        Piece::Local(name) => put_local(out, name),
        Piece::Global(name) => put_global(out, name),
        Piece::Given(to) => put_given(out, scope, *to),
        Piece::Value(value) => put_value(out, scope, *value),
        Piece::Operand(ty, value) => put_operand(out, scope, *ty, *value),
        Piece::Scalar(ty) => put_scalar(out, *ty),
        Piece::Result(ty) => put_result(out, *ty),
        Piece::Type(ty) => put_type(out, scope.m, ty),
        Piece::Symbol(symbol) => put_symbol(out, scope.m, *symbol),
        Piece::Callee(callee) => put_callee(out, scope, *callee),
        Piece::Number(word) => put_number(out, *word),
    }
}

/// Appends pieces, one behind another.
pub fn put_pieces(out: &mut Vec<u8>, scope: Scope, pieces: &[Piece<'_>]) -> Result<(), Memory>
    ensures { OnOk result (out.new.items ≡ out.old.items ++ flat_map (piece_text scope.entry.m.now scope.entry.f.now) pieces.now) }
{
    for piece in pieces {
        put_piece(out, scope, piece)?;
    }
    Ok(())
}
