//! Calls whose names say what they do.

ghost use Rattle.std.specs.Prelude.{◌≡◌, ◌≤◌, length};
ghost use Rattle.lx_ir_terms.specs.Reading.{Gives};
ghost use Rattle.lx_ir_calls.specs.Intrinsics.{line_named, intrinsic_named, intrinsic_of, intrinsic_next, intrinsic_behind};

use crate::image_lines::{ImageLine, image_line, image_line_named};
use crate::writes::{BlockWrite, block_write, block_write_named};
use lx_ir::instr::Op;
use lx_ir_terms::{Context, ReadError, Reader};
use lx_ir_tokens::{Kind, Tok};
use std::alloc::Global;

/// What a text is: a program, or the image of one, which has lines of its own.
#[derive(Clone, Copy)]
pub enum TextForm {
    Program,
    Image,
}

/// A call whose name says what it does.
#[derive(Clone, Copy)]
pub enum Intrinsic {
    Write(BlockWrite),
    Line(ImageLine),
}

/// The line of an image that a name calls, which only the text of an image has.
fn line_named(form: TextForm, name: &[u8]) -> Option<ImageLine>
    ensures { result ≡ line_named form name.now }
{
    match form {
        TextForm::Program => None,
        TextForm::Image => image_line_named(name),
    }
}

fn intrinsic_named(form: TextForm, name: &[u8]) -> Option<Intrinsic>
    ensures { result ≡ intrinsic_named form name.now }
{
    if let Some(write) = block_write_named(name) {
        return Some(Intrinsic::Write(write));
    }
    Some(Intrinsic::Line(line_named(form, name)?))
}

/// What the name that stands next says that its calls do.
pub fn intrinsic_next(
    reader: &Reader<'_>,
    context: &Context<'_>,
    form: TextForm,
) -> Option<Intrinsic>
    ensures { result ≡ intrinsic_next context.now form reader.now }
{
    match reader.rest {
        [
            Tok {
                kind: Kind::Global,
                name,
            },
            ..
        ] => intrinsic_named(form, context.bytes(*name)),
        _ => None,
    }
}

/// Such a call behind its name.
pub fn intrinsic_behind(
    alloc: Global,
    reader: &mut Reader<'_>,
    context: &Context<'_>,
    intrinsic: Intrinsic,
) -> Result<Op, ReadError>
    ensures reads { Gives result reader.new (intrinsic_behind context.now intrinsic reader.old) }
    ensures shrinks { length reader.new ≤ length reader.old }
{
    let op = match intrinsic {
        Intrinsic::Write(write) => block_write(alloc, reader, context, write)?,
        Intrinsic::Line(line) => image_line(alloc, reader, context, line)?,
    };
    Ok(op)
}
