//! Functions in an image.
ghost use Rattle.std.specs.Prelude.{◌≡◌, IsTrue, IfOk};
ghost use Rattle.lx_ir.specs.Lawful.{is_lawful_function};
ghost use Rattle.lx_image_texts.specs.Spared.{is_spared};
ghost use Rattle.lx_instrument.specs.Made.{function_by};
ghost use Rattle.lx_spared.specs.Rooms.{spared_by};

use crate::blocks::body_by;
use lx_ir::module::{Function, Module};
use lx_ir_copies::{Copied, copies};
use lx_spared::{Rooms, rooms_of};
use lx_words::Memory;
use std::alloc::Global;

/// A function in the image.
pub(crate) fn function_by(
    alloc: Global,
    numbers: &[u32],
    rooms: &Rooms,
    f: &Function,
) -> Result<Function, Memory>
    ensures { IfOk result (λ g. g ≡ function_by numbers.now (spared_by rooms.now) f.now) }
{
    let name = f.name.copied(alloc)?;
    let params = copies(alloc, f.params.as_slice())?;
    let locals = copies(alloc, f.locals.as_slice())?;
    let blocks = body_by(alloc, numbers, rooms, &f.blocks)?;
    Ok(Function {
        name,
        params,
        locals,
        ret: f.ret,
        blocks,
        line: f.line,
    })
}

/// A function of a module in the image in which spared stores lack their guards.
pub(crate) fn spared_function(
    alloc: Global,
    m: &Module,
    numbers: &[u32],
    f: &Function,
) -> Result<Function, Memory>
    requires { IsTrue (is_lawful_function m.now f.now) }
    ensures { IfOk result (λ g. g ≡ function_by numbers.now (is_spared m.now f.now) f.now) }
{
    let rooms = rooms_of(alloc, m, f)?;
    function_by(alloc, numbers, &rooms, f)
}
