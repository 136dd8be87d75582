//! All that follows of what is allowed.
ghost use Rattle.std.specs.Prelude.{◌≡◌, ◌≤◌, OnOk, length};
ghost use Rattle.lx_serve.specs.Sources.{Knows};
ghost use Rattle.lx_surface.specs.Given.{Closes, FollowedAll, PassedAll};

use crate::Thing;
use crate::following::{follow, pass_on};
use crate::work::Work;
use lx_model::program::Program;
use lx_serve::Source;
use lx_words::Memory;

/// Gives each function that a module can call its turn, those that come meanwhile too.
fn follow_all(program: &Program, sources: &[Option<Source>], work: &mut Work) -> Result<(), Memory>
    requires few { length program.now.functions ≤ 0x100000000 }
    requires sources { Knows program.now sources.now }
    ensures { OnOk result (FollowedAll program.now work.old work.new) }
{
    for place in 0..usize::MAX {
        match work.bound.functions.at(place) {
            Some((module, function)) => {
                follow(program, sources, work, module, function)?;
                pass_on(program, work, module, Thing::Function(function))?;
            }
            None => return Ok(()),
        }
    }
    Err(Memory)
}

/// Gives each reference its turn. References bring no function.
fn pass_references(program: &Program, work: &mut Work) -> Result<(), Memory>
    ensures { OnOk result (PassedAll program.now work.old work.new) }
{
    for place in 0..usize::MAX {
        match work.bound.references.at(place) {
            Some((module, ty)) => {
                pass_on(program, work, module, Thing::RefType(ty))?;
            }
            None => return Ok(()),
        }
    }
    Err(Memory)
}

/// Puts all that follows.
///
/// # Errors
/// Want of memory.
pub(crate) fn close(
    program: &Program,
    sources: &[Option<Source>],
    work: &mut Work,
) -> Result<(), Memory>
    requires few { length program.now.functions ≤ 0x100000000 }
    requires sources { Knows program.now sources.now }
    ensures { OnOk result (Closes program.now work.old work.new) }
{
    follow_all(program, sources, work)?;
    pass_references(program, work)?;
    Ok(())
}
