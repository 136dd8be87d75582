//! The world: what threads share, and a runner of images for each thread.
ghost use Rattle.std.specs.Prelude.{◌≡◌, ◌≤◌, ◌+◌, ◌*◌, length, map, IfOk, IfSome, OnOk};
ghost use Rattle.std.specs.List.{list_all, sum_by};
ghost use Rattle.lx_interp.specs.Runner.{calls_left, events_left};
ghost use Rattle.lx_model.specs.declared.program.Program.{Program};
ghost use Rattle.lx_model.specs.State.{State};
ghost use Rattle.lx_images.specs.ImageWorld.{fresh_image_thread};
ghost use Rattle.lx_serve.specs.Room.{journal_room, store_room};
ghost use Rattle.lx_serve.specs.Stands.{StandsForState};
ghost use Rattle.lx_world.specs.Exact.{AreAt};
ghost use Rattle.lx_world.specs.InCall.{kept_call};
ghost use Rattle.lx_world.specs.Worlds.{AllStand, is_idle, script_calls, script_events};

use crate::fault::EventFault;
use crate::runners::Runners;
use crate::turn::turn;
use lx_caps::CapStore;
use lx_interp::{Code, Runner, Standing};
use lx_model::program::{Calls, Program};
use lx_model::request::{Reply, Request};
use lx_serve::SharedPart;
use lx_words::Memory;
use std::alloc::Global;

/// A world of a program with images: what its threads share, their runners, and the code that they run.
pub struct World<C: CapStore + Drop> {
    pub(crate) shared: SharedPart<C>,
    pub(crate) runners: Runners,
    pub(crate) code: Code,
}

impl<C: CapStore + Drop> Drop for World<C> {
    fn drop(self) {
        let World {
            shared: _,
            runners: _,
            code: _,
        } = self;
    }
}

/// The sum of two counts, if a number can tell it.
fn sum(first: u64, second: u64) -> Option<u64>
    ensures { IfSome result (λ n. n ≡ first + second) }
{
    first.checked_add(second)
}

/// How many calls a thread has.
fn count_of(calls: &Calls) -> u64
    ensures { result ≡ length calls.now }
{
    calls.len() as u64
}

/// How many calls a script has, if a number can tell it.
fn script_calls(script: &[Calls]) -> Option<u64>
    ensures { IfSome result (λ n. n ≡ script_calls script.now) }
{
    let mut count = 0u64;
    for calls in script {
        count = sum(count, count_of(calls))?;
    }
    Some(count)
}

/// Makes room in the store for the ends of a script's calls, two acts of each.
fn reserve_ends<C: CapStore + Drop>(
    shared: &mut SharedPart<C>,
    script: &[Calls],
) -> Result<(), Memory>
    ensures room { OnOk result (2 * script_calls script.now ≤ store_room C.spare shared.new) }
    ensures journal { journal_room shared.new ≡ journal_room shared.old }
    ensures stands { (p : Program) (s : State) → StandsForState C.stands p shared.old s → StandsForState C.stands p shared.new s }
{
    let Some(calls) = script_calls(script) else {
        return Err(Memory);
    };
    let Some(acts) = sum(calls, calls) else {
        return Err(Memory);
    };
    shared.reserve(acts)?;
    Ok(())
}

/// The runners of a script, and room in the store for the ends of its calls.
fn open_runners<C: CapStore + Drop>(
    alloc: Global,
    code: &Code,
    script: &[Calls],
    shared: &mut SharedPart<C>,
) -> Result<Runners, Memory>
    requires { length script.now ≤ 16 }
    ensures stand { IfOk result (λ runners. AllStand code.now 0 runners.list.items (map fresh_image_thread script.now)) }
    ensures exact { IfOk result (λ runners. AreAt code.now runners.list.items (map fresh_image_thread script.now)) }
    ensures events { IfOk result (λ runners. sum_by events_left runners.list.items ≡ script_events script.now) }
    ensures calls { IfOk result (λ runners. sum_by (λ r. length (calls_left r)) runners.list.items ≡ script_calls script.now) }
    ensures room { OnOk result (2 * script_calls script.now ≤ store_room C.spare shared.new) }
    ensures journal { journal_room shared.new ≡ journal_room shared.old }
    ensures stands { (p : Program) (s : State) → StandsForState C.stands p shared.old s → StandsForState C.stands p shared.new s }
{
    reserve_ends(shared, script)?;
    let runners = Runners::open(alloc, code, script)?;
    Ok(runners)
}

/// How many calls of a runner have ended, and the function that the first one left calls.
fn call_of(runner: &Runner) -> Option<(usize, u32)>
    ensures { result ≡ kept_call runner.now }
{
    let ended = runner.endings().len();
    match runner.current_call() {
        Some(call) => Some((ended, call.function)),
        None => None,
    }
}

fn are_done(runners: &[Runner]) -> bool
    ensures { result ≡ list_all is_idle runners.now }
{
    runners.iter().all(|runner| runner.done())
}

impl<C: CapStore + Drop> World<C> {
    ghost use Rattle.std.specs.Prelude.{◌≡◌, ◌<◌, ◌↔◌, ℕ, false, true, ◌≤◌, OnOk, OnErr, IfOk, IsErrOf, Some, length, option_and_then, option_copied, option_map, slice_get};
    ghost use Rattle.lx_model.specs.Serve.{serve};
    ghost use Rattle.lx_images.specs.Image.{Code, ImageThread, image_next};
    ghost use Rattle.lx_images.specs.ImageWorld.{ImageWorld, image_event, image_opening};
    ghost use Rattle.lx_images.specs.Shown.{shown};
    ghost use Rattle.lx_model.specs.World.{can_act, is_done};
    ghost use Rattle.lx_model.specs.Account.{schedule_of};
    ghost use Rattle.lx_model.specs.Opening.{opening_state};
    ghost use Rattle.lx_images.specs.Asker.{image_asks_at};
    ghost use Rattle.lx_interp.specs.Places.{stand_in};
    ghost use Rattle.lx_world.specs.Exact.{IsExact, IsExactBut};
    ghost use Rattle.lx_world.specs.InCall.{call_at, kept_call};
    ghost use Rattle.lx_world.specs.Parts.{AreParts};
    ghost use Rattle.lx_world.specs.Wants.{asked_at, asked_of, image_asks, may_want};
    ghost use Rattle.lx_world.specs.Worlds.{HasEndsRoom, HasRoom, StandsForWorld, code_of, program_of, events_in, is_idle_at, script_events};
    ghost use Rattle.lx_serve.specs.Room.{journal_room};
    ghost use Rattle.lx_serve.specs.Stands.{StandsForState};
    ghost use Rattle.lx_world.specs.declared.fault.EventFault.{EventFault};

    /// The opening of a script, a list of calls for each thread, over what threads share before the first call. The store
    /// gets room for the end of each call. Where the shared journal has room for the events of the script, the world has
    /// room for all its events.
    ///
    /// # Errors
    /// Want of memory.
    pub fn open(
        alloc: Global,
        code: Code,
        script: &[Calls],
        shared: SharedPart<C>,
    ) -> Result<Self, Memory>
        requires opened { StandsForState C.stands code.program shared (opening_state code.program) }
        requires threads { length script.now ≤ 16 }
        ensures opens { IfOk result (λ world. StandsForWorld C.stands code world (image_opening code script.now)) }
        ensures exact { IfOk result (λ world. IsExact code world (image_opening code script.now)) }
        ensures code { IfOk result (λ world. code_of world ≡ code) }
        ensures events { IfOk result (λ world. events_in world ≡ script_events script.now) }
        ensures room { IfOk result (λ world. script_events script.now ≤ journal_room shared → HasRoom world) }
        ensures ends { IfOk result (λ world. HasEndsRoom C.spare world) }
    {
        let mut shared = shared;
        match open_runners(alloc, &code, script, &mut shared) {
            Ok(runners) => Ok(World {
                shared,
                runners,
                code,
            }),
            Err(why) => {
                drop(code);
                drop(shared);
                Err(why)
            }
        }
    }

    /// The program that runs.
    pub fn program(&self) -> &Program
        ensures { result.now ≡ program_of self.now }
    {
        self.code.program()
    }

    /// The code that runs.
    pub fn code(&self) -> &Code
        ensures { result.now ≡ code_of self.now }
    {
        &self.code
    }

    fn is_idle(&self, place: usize) -> bool
        ensures idle { result ≡ is_idle_at self.now.runners.list.items place }
        ensures there { result ≡ false → place < length self.now.runners.list.items }
    {
        match self.runners.list.get(place) {
            Some(runner) => runner.done(),
            None => true,
        }
    }

    /// One event of a thread: its next request is served, and it takes in the reply. Room for all events stays room for all
    /// that are left, and room for the ends of all calls stays room for the ends of those that are left.
    ///
    /// # Errors
    /// `NoWork` exactly where there is no such thread or it has no call left, which changes nothing. After `Memory` only
    /// register steps of that thread may have gone on. Where there is room for all events and for the ends of all calls, it
    /// came from register steps, which are still due, or from serving a request that takes memory: no load, no store, no
    /// block write and no end of a call that the thread has come to ever wants any.
    pub fn event(&mut self, thread: u32) -> Result<(), EventFault>
        ensures event { OnOk result ((c : Code) (v : ImageWorld) → StandsForWorld C.stands c self.old v → StandsForWorld C.stands c self.new (image_event c thread v)) }
        ensures exact { OnOk result ((c : Code) (v : ImageWorld) → StandsForWorld C.stands c self.old v → IsExactBut thread c self.old v → IsExact c self.new (image_event c thread v)) }
        ensures fault { OnErr result ((c : Code) (v : ImageWorld) → StandsForWorld C.stands c self.old v → StandsForWorld C.stands c self.new v) }
        ensures no_work { (c : Code) (v : ImageWorld) → StandsForWorld C.stands c self.old v → IsErrOf result (EventFault.NoWork thread) ↔ (can_act (shown v) thread ≡ false) }
        ensures number { (n : ℕ) → IsErrOf result (EventFault.NoWork n) → n ≡ thread }
        ensures unchanged { IsErrOf result (EventFault.NoWork thread) → self.new ≡ self.old }
        ensures code { code_of self.new ≡ code_of self.old }
        ensures fewer { OnOk result (events_in self.new < events_in self.old) }
        ensures room { HasRoom self.old → HasRoom self.new }
        ensures ends { (c : Code) (v : ImageWorld) → StandsForWorld C.stands c self.old v → HasEndsRoom C.spare self.old → HasEndsRoom C.spare self.new }
        ensures no_memory { IsErrOf result EventFault.Memory → HasRoom self.old → HasEndsRoom C.spare self.old → may_want (asked_at self.new.runners.list.items thread) ≡ true }
    {
        match self.answer(thread) {
            Ok(_) => Ok(()),
            Err(why) => Err(why),
        }
    }

    /// One event of a thread, as [`World::event`] has it, and the reply that the thread took in.
    ///
    /// # Errors
    /// As in [`World::event`].
    pub fn answer(&mut self, thread: u32) -> Result<Reply, EventFault>
        ensures reply { IfOk result (λ reply. (c : Code) (v : ImageWorld) (x : ImageThread) → StandsForWorld C.stands c self.old v → slice_get v.threads thread ≡ Some x → reply ≡ (serve c.program v.state thread (image_next c x).request).reply) }
        ensures event { OnOk result ((c : Code) (v : ImageWorld) → StandsForWorld C.stands c self.old v → StandsForWorld C.stands c self.new (image_event c thread v)) }
        ensures exact { OnOk result ((c : Code) (v : ImageWorld) → StandsForWorld C.stands c self.old v → IsExactBut thread c self.old v → IsExact c self.new (image_event c thread v)) }
        ensures fault { OnErr result ((c : Code) (v : ImageWorld) → StandsForWorld C.stands c self.old v → StandsForWorld C.stands c self.new v) }
        ensures no_work { (c : Code) (v : ImageWorld) → StandsForWorld C.stands c self.old v → IsErrOf result (EventFault.NoWork thread) ↔ (can_act (shown v) thread ≡ false) }
        ensures number { (n : ℕ) → IsErrOf result (EventFault.NoWork n) → n ≡ thread }
        ensures unchanged { IsErrOf result (EventFault.NoWork thread) → self.new ≡ self.old }
        ensures code { code_of self.new ≡ code_of self.old }
        ensures fewer { OnOk result (events_in self.new < events_in self.old) }
        ensures room { HasRoom self.old → HasRoom self.new }
        ensures ends { (c : Code) (v : ImageWorld) → StandsForWorld C.stands c self.old v → HasEndsRoom C.spare self.old → HasEndsRoom C.spare self.new }
        ensures no_memory { IsErrOf result EventFault.Memory → HasRoom self.old → HasEndsRoom C.spare self.old → may_want (asked_at self.new.runners.list.items thread) ≡ true }
    {
        let place = thread as usize;
        if self.is_idle(place) {
            return Err(EventFault::NoWork { thread });
        }
        let reply = turn(
            &mut self.shared,
            self.runners.at(thread),
            &self.code,
            thread,
        )?;
        Ok(reply)
    }

    /// Takes the register steps of a thread that are due before its next request, and nothing else: behind them [`World::request`] gives
    /// what the thread asks, and its next event serves just that.
    ///
    /// # Errors
    /// `NoWork` as in [`World::event`]. After `Memory` the steps are still due, as far as they have not gone on.
    pub fn local(&mut self, thread: u32) -> Result<(), EventFault>
        ensures stands { (c : Code) (v : ImageWorld) → StandsForWorld C.stands c self.old v → StandsForWorld C.stands c self.new v }
        ensures asks { OnOk result ((c : Code) (v : ImageWorld) → StandsForWorld C.stands c self.old v → asked_of self.new thread ≡ image_asks c thread v) }
        ensures no_work { (c : Code) (v : ImageWorld) → StandsForWorld C.stands c self.old v → IsErrOf result (EventFault.NoWork thread) ↔ (can_act (shown v) thread ≡ false) }
        ensures number { (n : ℕ) → IsErrOf result (EventFault.NoWork n) → n ≡ thread }
        ensures unchanged { IsErrOf result (EventFault.NoWork thread) → self.new ≡ self.old }
        ensures code { code_of self.new ≡ code_of self.old }
        ensures room { HasRoom self.old → HasRoom self.new }
        ensures ends { HasEndsRoom C.spare self.old → HasEndsRoom C.spare self.new }
    {
        match self.local_from(thread) {
            Ok(_) => Ok(()),
            Err(why) => Err(why),
        }
    }

    /// Takes the register steps of a thread as [`World::local`] does, and tells where in the code of images the thread asks behind them: the
    /// instruction at whose step the request is made, of the function that runs, or of the one that called the wrapper on top. None, where a
    /// script asks or the end of a call does. The place is exact where no step of the thread was taken before, as behind the opening and behind
    /// each event; where the thread asks something already, none is told.
    ///
    /// # Errors
    /// As in [`World::local`].
    pub fn local_from(&mut self, thread: u32) -> Result<Option<Standing>, EventFault>
        ensures stands { (c : Code) (v : ImageWorld) → StandsForWorld C.stands c self.old v → StandsForWorld C.stands c self.new v }
        ensures asks { OnOk result ((c : Code) (v : ImageWorld) → StandsForWorld C.stands c self.old v → asked_of self.new thread ≡ image_asks c thread v) }
        ensures from { IfOk result (λ at. (c : Code) (v : ImageWorld) (x : ImageThread) → IsExact c self.old v → slice_get v.threads thread ≡ Some x → option_map (stand_in c) at ≡ image_asks_at c x) }
        ensures others { (c : Code) (v : ImageWorld) → IsExactBut thread c self.old v → IsExactBut thread c self.new v }
        ensures apart { (c : Code) (v : ImageWorld) → IsExact c self.old v → IsExactBut thread c self.new v }
        ensures no_work { (c : Code) (v : ImageWorld) → StandsForWorld C.stands c self.old v → IsErrOf result (EventFault.NoWork thread) ↔ (can_act (shown v) thread ≡ false) }
        ensures number { (n : ℕ) → IsErrOf result (EventFault.NoWork n) → n ≡ thread }
        ensures unchanged { IsErrOf result (EventFault.NoWork thread) → self.new ≡ self.old }
        ensures code { code_of self.new ≡ code_of self.old }
        ensures room { HasRoom self.old → HasRoom self.new }
        ensures ends { HasEndsRoom C.spare self.old → HasEndsRoom C.spare self.new }
    {
        let place = thread as usize;
        if self.is_idle(place) {
            return Err(EventFault::NoWork { thread });
        }
        let from = self.runners.at(thread).local_from(&self.code)?;
        Ok(from)
    }

    fn kept_call(&self, thread: u32) -> Option<(usize, u32)>
        ensures { result ≡ option_and_then kept_call (slice_get self.now.runners.list.items thread) }
    {
        match self.runners.list.get(thread as usize) {
            Some(runner) => call_of(runner),
            None => None,
        }
    }

    /// Which call a thread is in, or comes to next: how many of its calls have ended, and the number of the function that the first
    /// one left calls. None, where there is no such thread or it has no call left.
    pub fn call(&self, thread: u32) -> Option<(usize, u32)>
        ensures { (c : Code) (v : ImageWorld) → StandsForWorld C.stands c self.now v → result ≡ call_at v thread }
    {
        self.kept_call(thread)
    }

    /// What a thread asks; nothing, where register steps are due or no call is left.
    pub fn request(&self, thread: u32) -> Option<&Request>
        ensures { option_copied result ≡ asked_of self.now thread }
    {
        match self.runners.list.get(thread as usize) {
            Some(runner) => runner.request(),
            None => None,
        }
    }

    /// What all threads share.
    pub fn shared(&self) -> &SharedPart<C>
        ensures { (c : Code) (v : ImageWorld) → StandsForWorld C.stands c self.now v → StandsForState C.stands c.program result.now v.state }
    {
        &self.shared
    }

    /// Whether no thread has a call left.
    pub fn done(&self) -> bool
        ensures { (c : Code) (v : ImageWorld) → StandsForWorld C.stands c self.now v → result ≡ is_done (shown v) }
    {
        are_done(self.runners.list.as_slice())
    }

    /// The threads of the events so far.
    pub fn schedule(&self) -> &[u32]
        ensures { (c : Code) (v : ImageWorld) → StandsForWorld C.stands c self.now v → result.now ≡ schedule_of (shown v) }
    {
        self.shared.threads()
    }

    /// What its threads share, their runners, and the code that they run.
    pub fn into_parts(self) -> (SharedPart<C>, Runners, Code)
        ensures { AreParts self result.0 result.1 result.2 }
    {
        let World {
            shared,
            runners,
            code,
        } = self;
        (shared, runners, code)
    }

    /// The world of these parts.
    pub fn from_parts(shared: SharedPart<C>, runners: Runners, code: Code) -> Self
        ensures { AreParts result shared runners code }
    {
        World {
            shared,
            runners,
            code,
        }
    }
}
