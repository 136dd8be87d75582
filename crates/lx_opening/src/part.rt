//! What threads share before the first call.
ghost use Rattle.std.specs.Prelude.{◌≡◌, ◌≤◌, [], IfOk};
ghost use Rattle.std.specs.Arc.{arc_value};
ghost use Rattle.lx_link_texts.specs.WellFormed.{IsWellFormed};
ghost use Rattle.lx_actions.specs.Shown.{IsShownBy};
ghost use Rattle.lx_model.specs.Opening.{opening_history, opening_state, with_globals};
ghost use Rattle.lx_serve.specs.Room.{journal_room};
ghost use Rattle.lx_serve.specs.Sources.{Knows};
ghost use Rattle.lx_serve.specs.Stands.{StandsForState};
ghost use Rattle.lx_writer_sets.specs.RecordedStands.{StandsRecorded};

use crate::grants::open_modules;
use crate::inits::put_globals;
use crate::space::blank;
use lx_annotation_tables::reach_laws;
use lx_caps::CapStore;
use lx_code::Code;
use lx_memory::Space;
use lx_model::program::Program;
use lx_serve::{SharedPart, Source};
use lx_words::Memory;
use lx_writer_sets::Recorded;
use std::alloc::Global;
use std::sync::Arc;

/// Memory before the first call, and who owns what in it.
fn owned_space<C: CapStore + Drop>(
    alloc: Global,
    code: &Code,
    caps: C,
) -> Result<(Space, Recorded<C>), Memory>
    requires well_formed { IsWellFormed code.now }
    requires new { C.stands caps [] }
    ensures written { IfOk result (λ x. IsShownBy x.0 (with_globals code.now code.now.globals [])) }
    ensures owned { IfOk result (λ x. StandsRecorded C.stands x.1 (opening_history code.now)) }
{
    let mut space = match blank(alloc) {
        Ok(space) => space,
        Err(why) => {
            drop(caps);
            return Err(why);
        }
    };
    put_globals(&mut space, code);
    let mut caps = Recorded::new(alloc, caps);
    match open_modules(&mut caps, code) {
        Ok(()) => Ok((space, caps)),
        Err(why) => {
            drop(space);
            drop(caps);
            Err(why)
        }
    }
}

/// What threads share before the first call of a well-formed program: the globals hold what they begin as, and each
/// module owns its globals but the constant ones, and the calls of the kernel's functions that it declares and of those
/// that it defines. `program` is that of the code, `caps` is new, and `sources` tells where the annotation of each function
/// stands. The journal has room for so many events.
///
/// # Errors
/// Want of memory; more modules or functions than a number of 32 bits counts are that too.
pub fn open_part<C: CapStore + Drop>(
    alloc: Global,
    code: &Code,
    program: Arc<Program>,
    caps: C,
    sources: Vec<Option<Source>>,
    events: usize,
) -> Result<SharedPart<C>, Memory>
    requires same { arc_value program ≡ code.now }
    requires well_formed { IsWellFormed code.now }
    requires new { C.stands caps [] }
    requires known { Knows code.now sources.items }
    ensures opens { IfOk result (λ part. StandsForState C.stands code.now part (opening_state code.now)) }
    ensures room { IfOk result (λ part. events ≤ journal_room part) }
{
    reach_laws();
    match owned_space(alloc, code, caps) {
        Ok((space, caps)) => SharedPart::open(alloc, program, space, caps, sources, events),
        Err(why) => {
            drop(program);
            drop(sources);
            Err(why)
        }
    }
}
