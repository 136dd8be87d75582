//! One event of a thread of images.
ghost use Rattle.std.specs.Prelude.{◌≡◌, ◌<◌, ◌≤◌, ◌+◌, ◌*◌, true, false, length, OnOk, OnErr, IfOk, IsTrue};
ghost use Rattle.lx_model.specs.declared.program.Program.{Program};
ghost use Rattle.lx_model.specs.State.{State};
ghost use Rattle.lx_model.specs.Serve.{serve};
ghost use Rattle.lx_model.specs.Thread.{has_call};
ghost use Rattle.lx_images.specs.Image.{ImageThread};
ghost use Rattle.lx_interp.specs.Runner.{calls_left, events_left, is_spent, request_of};
ghost use Rattle.lx_run_laws.specs.Servable.{is_servable};
ghost use Rattle.lx_serve.specs.Room.{journal_room, store_room, taken_by, takes_no_memory};
ghost use Rattle.lx_serve.specs.Stands.{IsUndecided, Serves, StandsForState};
ghost use Rattle.lx_world.specs.Wants.{may_want};
ghost use Rattle.lx_world.specs.Worlds.{StandsFor, HasTurned, HasStayed};

use crate::laws::image_request_laws;
use lx_caps::CapStore;
use lx_interp::{Code, Runner};
use lx_model::request::{Reply, Request};
use lx_serve::SharedPart;
use lx_words::Memory;

/// Serves a request of a thread.
#[tactic(auto, using(crate::proofs::Turns::spent_by))]
fn answer<C: CapStore + Drop>(
    shared: &mut SharedPart<C>,
    thread: u32,
    request: &Request,
) -> Result<Reply, Memory>
    ensures served { IfOk result (λ reply. (p : Program) (s : State) → StandsForState C.stands p shared.old s
        → is_servable p thread request.now ≡ true → Serves C.stands p shared.new reply (serve p s thread request.now)) }
    ensures spent { IfOk result (λ reply. is_spent request.now.what reply ≡ true) }
    ensures memory { OnErr result ((p : Program) (s : State) → StandsForState C.stands p shared.old s → StandsForState C.stands p shared.new s) }
    ensures room { OnOk result (journal_room shared.old ≤ journal_room shared.new + 1) }
    ensures room_stays { OnErr result (journal_room shared.old ≤ journal_room shared.new) }
    ensures leaves { IfOk result (λ reply. store_room C.spare shared.old ≤ store_room C.spare shared.new + taken_by reply) }
    ensures store_stays { OnErr result (store_room C.spare shared.old ≤ store_room C.spare shared.new) }
    ensures undecided { OnErr result (0 < journal_room shared.old → 2 ≤ store_room C.spare shared.old → (p : Program) (s : State) → StandsForState C.stands p shared.old s
        → IsUndecided p s thread request.now.who request.now.what) }
    ensures no_memory { OnErr result (0 < journal_room shared.old → 2 ≤ store_room C.spare shared.old → takes_no_memory request.now.what ≡ false) }
{
    match shared.serve(thread, request) {
        Ok(reply) => Ok(reply),
        Err(why) => Err(why),
    }
}

/// One event of a thread that has a call left: its next request is served, and it takes in the reply, which is told. Where there is room for
/// the event, serving a load, a store, a block write or the end of a call never wants memory.
pub(crate) fn turn<C: CapStore + Drop>(
    shared: &mut SharedPart<C>,
    runner: &mut Runner,
    code: &Code,
    thread: u32,
) -> Result<Reply, Memory>
    requires thread { thread < 16 }
    requires work { IsTrue (has_call (calls_left runner.old)) }
    ensures turns { IfOk result (λ reply. (s : State) (v : ImageThread) → StandsForState C.stands code.now.program shared.old s → StandsFor code.now thread runner.old v
        → HasTurned C.stands code.now thread shared.new runner.new reply s v) }
    ensures memory { OnErr result ((s : State) (v : ImageThread) → StandsForState C.stands code.now.program shared.old s → StandsFor code.now thread runner.old v
        → HasStayed C.stands code.now thread shared.new runner.new s v) }
    ensures fewer { OnOk result (events_left runner.new < events_left runner.old) }
    ensures no_more { OnErr result (events_left runner.new ≤ events_left runner.old) }
    ensures room { OnOk result (journal_room shared.old ≤ journal_room shared.new + 1) }
    ensures room_stays { OnErr result (journal_room shared.old ≤ journal_room shared.new) }
    ensures ends { (s : State) (v : ImageThread) → StandsForState C.stands code.now.program shared.old s → StandsFor code.now thread runner.old v
        → 2 * length (calls_left runner.new) + store_room C.spare shared.old ≤ 2 * length (calls_left runner.old) + store_room C.spare shared.new }
    ensures no_memory { OnErr result (0 < journal_room shared.old → 2 ≤ store_room C.spare shared.old → may_want (request_of runner.new) ≡ true) }
{
    image_request_laws();
    runner.local(code)?;
    match runner.request() {
        Some(request) => {
            let reply = answer(shared, thread, request)?;
            runner.absorb(code, &reply);
            Ok(reply)
        }
        None => unreachable!(),
    }
}
