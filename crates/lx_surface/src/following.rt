//! What follows of what is allowed.
ghost use Rattle.std.specs.Prelude.{◌≡◌, ◌≤◌, OnOk, length};
ghost use Rattle.lx_serve.specs.Sources.{Knows};
ghost use Rattle.lx_surface.specs.Given.{Followed, Passed, PassedTo};

use crate::Thing;
use crate::giving::{Gift, give_behind};
use crate::work::Work;
use lx_call_targets::home_of;
use lx_model::program::Program;
use lx_serve::Source;
use lx_words::Memory;

/// Gives a module what a function gives behind its body that the module can call.
#[tactic(auto, using(crate::proofs::Follows::of_no_text))]
pub(crate) fn follow(
    program: &Program,
    sources: &[Option<Source>],
    work: &mut Work,
    module: u32,
    function: u32,
) -> Result<(), Memory>
    requires few { length program.now.functions ≤ 0x100000000 }
    requires sources { Knows program.now sources.now }
    ensures { OnOk result (Followed program.now work.old work.new «module» function) }
{
    match home_of(program, function) {
        Some(from) => {
            let gift = Gift { to: module, from };
            give_behind(program, sources, work, gift, function)?;
            Ok(())
        }
        None => Ok(()),
    }
}

/// Puts it, if the module waits for the holder to hold it.
#[tactic(auto, using(crate::proofs::Passing::not_waited))]
fn pass_to(
    _program: &Program,
    work: &mut Work,
    holder: u32,
    what: Thing,
    module: u32,
) -> Result<(), Memory>
    ensures { OnOk result (PassedTo _program.now work.old work.new holder what «module») }
{
    if work.waits.has(module, holder, what) {
        work.give(module, None, what)?;
    }
    Ok(())
}

/// Passes what a module can hold on to all who wait for it.
pub(crate) fn pass_on(
    program: &Program,
    work: &mut Work,
    holder: u32,
    what: Thing,
) -> Result<(), Memory>
    ensures { OnOk result (Passed program.now work.old work.new holder what) }
{
    for place in 0..usize::MAX {
        match work.waits.receivers.at(place) {
            Some(module) => {
                pass_to(program, work, holder, what, module)?;
            }
            None => return Ok(()),
        }
    }
    Err(Memory)
}
