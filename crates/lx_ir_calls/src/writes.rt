//! Calls that write a block of memory.

ghost use Rattle.std.specs.Prelude.{◌≡◌, ◌≤◌, length};
ghost use Rattle.lx_ir_terms.specs.Reading.{Gives, Passes, pick_at};
ghost use Rattle.lx_ir_constants.specs.Constants.{when, word_refusal};
ghost use Rattle.lx_ir_calls.specs.Writes.{is_false_word, not_volatile_at, block_write_named, copy_behind, fill_behind, block_write_behind};

use crate::arguments::{given_argument, given_type, next_argument};
use lx_ir::instr::{Argument, Op};
use lx_ir::types::Scalar;
use lx_ir_operands::{when, word_refusal};
use lx_ir_terms::{Context, FaultKind, ReadError, Reader};
use lx_ir_tokens::{ConstantWord, Keyword, Kind, Mark};
use lx_words::Width;
use std::alloc::Global;

/// A call that writes a block of memory, with the width of its length.
#[derive(Clone, Copy)]
pub enum BlockWrite {
    /// `llvm.memcpy`, or `llvm.memmove` where it moves.
    Copy { moves: bool, width: Width },
    /// `llvm.memset`
    Fill { width: Width },
}

fn is_false_word(kind: Kind) -> bool
    ensures { result ≡ is_false_word kind }
{
    matches!(kind, Kind::Word(Keyword::Constant(ConstantWord::False)))
}

/// Goes over `false`, where words are passed over before it.
fn false_word(reader: &mut Reader<'_>) -> Result<(), ReadError>
    ensures reads { Passes result reader.new (pick_at (λ t. when (is_false_word t.kind)) word_refusal reader.old) }
    ensures shrinks { length reader.new ≤ length reader.old }
{
    let [token, ..] = reader.rest else {
        return Err(reader.fault(FaultKind::Statement));
    };
    reader.picked(when(is_false_word(token.kind)), word_refusal(token.kind))?;
    Ok(())
}

/// Goes over the last argument of a block write, which says that it is not volatile, and its parenthesis.
fn not_volatile(reader: &mut Reader<'_>) -> Result<(), ReadError>
    ensures reads { Passes result reader.new (not_volatile_at reader.old) }
    ensures shrinks { length reader.new ≤ length reader.old }
{
    reader.mark(Mark::Comma)?;
    given_type(reader, Scalar::Int(Width::W1))?;
    reader.passed(false)?;
    false_word(reader)?;
    reader.mark(Mark::CloseParenthesis)?;
    Ok(())
}

/// The block write that a name calls, without its `@`; none where it is another name.
pub fn block_write_named(name: &[u8]) -> Option<BlockWrite>
    ensures { result ≡ block_write_named name.now }
{
    if name == b"llvm.memcpy.p0.p0.i32".as_slice() {
        Some(BlockWrite::Copy {
            moves: false,
            width: Width::W32,
        })
    } else if name == b"llvm.memcpy.p0.p0.i64".as_slice() {
        Some(BlockWrite::Copy {
            moves: false,
            width: Width::W64,
        })
    } else if name == b"llvm.memmove.p0.p0.i32".as_slice() {
        Some(BlockWrite::Copy {
            moves: true,
            width: Width::W32,
        })
    } else if name == b"llvm.memmove.p0.p0.i64".as_slice() {
        Some(BlockWrite::Copy {
            moves: true,
            width: Width::W64,
        })
    } else if name == b"llvm.memset.p0.i32".as_slice() {
        Some(BlockWrite::Fill { width: Width::W32 })
    } else if name == b"llvm.memset.p0.i64".as_slice() {
        Some(BlockWrite::Fill { width: Width::W64 })
    } else {
        None
    }
}

/// A copy of a block behind the called name.
fn copy(
    alloc: Global,
    reader: &mut Reader<'_>,
    context: &Context<'_>,
    moves: bool,
    width: Width,
) -> Result<Op, ReadError>
    ensures reads { Gives result reader.new (copy_behind context.now moves width reader.old) }
    ensures shrinks { length reader.new ≤ length reader.old }
{
    let ty = Scalar::Int(width);
    reader.mark(Mark::OpenParenthesis)?;
    let dest = given_argument(alloc, reader, context, Scalar::Ptr)?;
    let source = next_argument(alloc, reader, context, Scalar::Ptr)?;
    let value = next_argument(alloc, reader, context, ty)?;
    not_volatile(reader)?;
    let len = Argument { ty, value };
    Ok(Op::CopyBlock {
        moves,
        dest,
        source,
        len,
    })
}

/// A filling of a block behind the called name.
fn fill(
    alloc: Global,
    reader: &mut Reader<'_>,
    context: &Context<'_>,
    width: Width,
) -> Result<Op, ReadError>
    ensures reads { Gives result reader.new (fill_behind context.now width reader.old) }
    ensures shrinks { length reader.new ≤ length reader.old }
{
    let ty = Scalar::Int(width);
    reader.mark(Mark::OpenParenthesis)?;
    let dest = given_argument(alloc, reader, context, Scalar::Ptr)?;
    let byte = next_argument(alloc, reader, context, Scalar::Int(Width::W8))?;
    let value = next_argument(alloc, reader, context, ty)?;
    not_volatile(reader)?;
    let len = Argument { ty, value };
    Ok(Op::FillBlock { dest, byte, len })
}

/// A block write behind the called name.
pub fn block_write(
    alloc: Global,
    reader: &mut Reader<'_>,
    context: &Context<'_>,
    write: BlockWrite,
) -> Result<Op, ReadError>
    ensures reads { Gives result reader.new (block_write_behind context.now write reader.old) }
    ensures shrinks { length reader.new ≤ length reader.old }
{
    let op = match write {
        BlockWrite::Copy { moves, width } => copy(alloc, reader, context, moves, width)?,
        BlockWrite::Fill { width } => fill(alloc, reader, context, width)?,
    };
    Ok(op)
}
