//! Register steps, up to the next request.
ghost use Rattle.std.specs.Prelude.{◌≡◌, ℕ, ◌≤◌, ◌<◌, false, not, IsTrue, drop, IfOk, OnOk, OnErr, IsSome, IsNone, Some, None, option_copied, slice_get};
ghost use Rattle.lx_model.specs.declared.request.Way.TheVariants.{Script};
ghost use Rattle.lx_model.specs.declared.request.What.TheVariants as what;
ghost use Rattle.lx_model.specs.Thread.{first_fuel, has_call};
ghost use Rattle.lx_images.specs.Image.{Code as Images, ImageAsking, ImageThread, Marks, image_next, start_step};
ghost use Rattle.lx_images.specs.ImageWorld.{fresh_image_thread};
ghost use Rattle.lx_frames.specs.Frames.{frames_of, line_on, marked_frame_step, running_on};
ghost use Rattle.lx_interp.specs.Lacks.{MayLack, NextOn, RunLacks, TopLacks};
ghost use Rattle.lx_interp.specs.Runner.{GoesOn, HasStayed, HasTaken, IsAsking, IsAt, IsMarked, StandsFor, StepsAlike, calls_left, events_left, events_of, instruction_in, instruction_on, marked_step, marks_in, next_in, poorer, request_of, steps_before, thread_of};

use super::Runner;
use super::effects::finishing;
use crate::ending::Ending;
use lx_caps::Principal;
use lx_frames::{FrameStack, copies_of};
use lx_image_code::Code;
use lx_image_steps::{Step, next_step};
use lx_model::program::{Calls, ScriptCall};
use lx_model::request::{Outcome, Request, Trap, Way, What};
use lx_words::{Items, Memory};
use std::alloc::Global;

// The fuel of the call at a place, and 0 behind the last.
pub(super) fn fuel_at(calls: &Calls, place: usize) -> u32
    ensures { result ≡ first_fuel (drop place calls.now) }
{
    match calls.items.get(place) {
        Some(call) => call.fuel,
        None => 0,
    }
}

// What a script asks to start a call.
fn entry(alloc: Global, call: &ScriptCall) -> Result<What, Memory>
    ensures { IfOk result (λ w. w ≡ what.Enter (Script call.now.function) call.now.args) }
{
    let args = Items::from_slice(alloc, call.args.as_slice())?;
    Ok(What::Enter {
        way: Way::Script(call.function),
        args,
    })
}

impl Runner {
    /// The runner of the thread with this number before its first call. It keeps copies of the calls.
    ///
    /// # Errors
    /// Want of memory for the copies, for the endings of the calls and for the shadow stack.
    pub fn open(alloc: Global, thread: u32, calls: &Calls) -> Result<Runner, Memory>
        ensures fresh { IfOk result (λ r. (c : Images) → StandsFor c thread r (fresh_image_thread calls.now)) }
        ensures at { IfOk result (λ r. (c : Images) → IsAt c thread r (fresh_image_thread calls.now)) }
        ensures idle { IfOk result (λ r. request_of r ≡ None) }
        ensures events { IfOk result (λ r. events_left r ≡ events_of calls.now) }
    {
        let calls = copies_of(alloc, calls.as_slice())?;
        let endings = Vec::with_capacity(alloc, calls.len())?;
        let stack = FrameStack::open(alloc)?;
        let fuel = fuel_at(&calls, 0);
        Ok(Runner {
            alloc,
            thread,
            calls,
            endings,
            fuel,
            due: None,
            stack,
            marks: None,
            request: None,
        })
    }

    /// Whether no call is left.
    #[tactic(auto, using(crate::proofs::Calls::none_left))]
    pub fn done(&self) -> bool
        ensures work { (c : Images) → (t : ℕ) → (thread : ImageThread) → StandsFor c t self.now thread → result ≡ not (has_call thread.calls) }
        ensures left { result ≡ not (has_call (calls_left self.now)) }
    {
        self.calls.len() <= self.endings.as_slice().len()
    }

    /// The call that the thread is in, or comes to next: the first one that has not ended. None, where all have.
    #[tactic(auto, using(crate::proofs::Calls::first_left, crate::proofs::Calls::call_of))]
    pub fn current_call(&self) -> Option<&ScriptCall>
        ensures left { option_copied result ≡ slice_get (calls_left self.now) 0 }
        ensures stands { (c : Images) → (t : ℕ) → (thread : ImageThread) → StandsFor c t self.now thread → option_copied result ≡ slice_get thread.calls 0 }
    {
        self.calls.as_slice().get(self.endings.len())
    }

    // The first call that is left starts.
    fn start(&mut self, code: &Code) -> Result<(), Memory>
        requires request { self.old.request ≡ None }
        requires top { self.old.stack.top ≡ None }
        requires work { IsTrue (has_call (calls_left self.old)) }
        ensures steps { OnOk result (HasTaken code.now self.old self.new (start_step (calls_left self.old) (thread_of code.now self.old))) }
        ensures stays { OnErr result (HasStayed code.now self.old self.new) }
        ensures lacks { OnErr result (TopLacks code.now self.new.fuel self.new.stack.top) }
        ensures spares { events_left self.new ≤ events_left self.old }
    {
        if self.fuel == 0 {
            self.stop(&Outcome::Budget);
            return Ok(());
        }
        let place = self.endings.len();
        let what = entry(self.alloc, &self.calls.as_slice()[place])?;
        self.stack.make_room(code, &what)?;
        self.fuel -= 1; // the start of a call costs a unit
        self.marks = None;
        self.request = Some(Request {
            who: Principal::Kernel,
            what,
        });
        Ok(())
    }

    // What the next instruction of the function on top does; none, where there is no instruction.
    #[tactic(auto, using(crate::proofs::Lines::next_found, crate::proofs::Lines::nothing_found, crate::proofs::Lacking::next_on, crate::proofs::Lacking::nothing_on, crate::proofs::Lacking::call_lacks))]
    fn next_step(&self, code: &Code) -> Result<Option<Step>, Memory>
        ensures step { IfOk result (λ s. (m : Marks) → (v : ImageThread) → instruction_in code.now m v (frames_of code.now self.now.stack.top self.now.stack.below) ≡ next_in code.now m v (frames_of code.now self.now.stack.top self.now.stack.below) s) }
        ensures next { IfOk result (NextOn code.now self.now.stack.top) }
        ensures lacks { OnErr result (RunLacks code.now self.now.stack.top) }
    {
        match self.stack.running() {
            Some(run) => {
                let step = next_step(self.alloc, code, run)?;
                Ok(step)
            }
            None => Ok(None),
        }
    }

    // The function takes its next instruction: the call of a wrapper, or another one.
    fn take_instruction(&mut self, code: &Code) -> Result<(), Memory>
        requires fuel { 0 < self.old.fuel }
        requires request { self.old.request ≡ None }
        requires top { IsSome (running_on self.old.stack.top) }
        ensures steps { OnOk result (HasTaken code.now self.old self.new (instruction_on code.now (marks_in self.old.marks) (poorer (thread_of code.now self.old)))) }
        ensures stays { OnErr result (HasStayed code.now self.old self.new) }
        ensures lacks { OnErr result (RunLacks code.now self.old.stack.top) }
        ensures spares { events_left self.new ≤ events_left self.old }
    {
        let next = self.next_step(code)?;
        match next {
            Some(
                Step::Crosses {
                    function,
                    args,
                    wrapper,
                },
            ) => self.call_wrapper(code, function, args, wrapper)?,
            Some(Step::Does(effect)) => self.apply(code, effect)?,
            None => self.trap(Trap::Unreachable),
        }
        Ok(())
    }

    // The function on top takes a step, behind its marks.
    fn run(&mut self, code: &Code) -> Result<(), Memory>
        requires request { self.old.request ≡ None }
        requires top { IsSome (running_on self.old.stack.top) }
        requires marks { IsSome self.old.marks }
        ensures steps { OnOk result (HasTaken code.now self.old self.new (marked_frame_step code.now self.old.marks (thread_of code.now self.old) (frames_of code.now self.old.stack.top self.old.stack.below))) }
        ensures stays { OnErr result (HasStayed code.now self.old self.new) }
        ensures lacks { OnErr result (TopLacks code.now self.new.fuel self.new.stack.top) }
        ensures spares { events_left self.new ≤ events_left self.old }
    {
        if self.fuel == 0 {
            self.stop(&Outcome::Budget);
            return Ok(());
        }
        self.take_instruction(code)?;
        Ok(())
    }

    // A call that has come to an outcome asks to end.
    fn finish(&mut self, outcome: &Outcome)
        requires request { self.old.request ≡ None }
        requires due { self.old.due ≡ Some outcome.now }
        ensures steps { (c : Images) → HasTaken c self.old self.new (marked_step c self.old.marks (thread_of c self.old)) }
        ensures spares { events_left self.new ≤ events_left self.old }
    {
        self.marks = None;
        self.request = Some(finishing(outcome));
    }

    // A step of the function on top, or the start of a call where no frame is.
    fn run_or_start(&mut self, code: &Code) -> Result<(), Memory>
        requires request { self.old.request ≡ None }
        requires line { line_on (frames_of code.now self.old.stack.top self.old.stack.below) ≡ None }
        requires marked { IsSome (running_on self.old.stack.top) → IsSome self.old.marks }
        requires work { IsTrue (has_call (calls_left self.old)) }
        ensures steps { OnOk result (HasTaken code.now self.old self.new (marked_frame_step code.now self.old.marks (thread_of code.now self.old) (frames_of code.now self.old.stack.top self.old.stack.below))) }
        ensures stays { OnErr result (HasStayed code.now self.old self.new) }
        ensures lacks { OnErr result (TopLacks code.now self.new.fuel self.new.stack.top) }
        ensures spares { events_left self.new ≤ events_left self.old }
    {
        if self.stack.running().is_some() {
            self.run(code)?;
        } else {
            self.start(code)?;
        }
        Ok(())
    }

    // A step of a call that has come to no outcome.
    fn advance(&mut self, code: &Code) -> Result<(), Memory>
        requires request { self.old.request ≡ None }
        requires due { self.old.due ≡ None }
        requires marked { IsMarked self.old }
        requires work { IsTrue (has_call (calls_left self.old)) }
        ensures steps { OnOk result (HasTaken code.now self.old self.new (marked_step code.now self.old.marks (thread_of code.now self.old))) }
        ensures stays { OnErr result (HasStayed code.now self.old self.new) }
        ensures lacks { OnErr result (MayLack code.now self.new) }
        ensures spares { events_left self.new ≤ events_left self.old }
    {
        match self.stack.line(code) {
            Some(line) => self.go_on(code, line)?,
            None => self.run_or_start(code)?,
        }
        Ok(())
    }

    // A step of a thread that has a call left and asks nothing.
    fn take_step(&mut self, code: &Code) -> Result<(), Memory>
        requires request { self.old.request ≡ None }
        requires marked { IsMarked self.old }
        requires work { IsTrue (has_call (calls_left self.old)) }
        ensures steps { OnOk result (HasTaken code.now self.old self.new (marked_step code.now self.old.marks (thread_of code.now self.old))) }
        ensures stays { OnErr result (HasStayed code.now self.old self.new) }
        ensures lacks { OnErr result (MayLack code.now self.new) }
        ensures spares { events_left self.new ≤ events_left self.old }
    {
        let due = self.due;
        match due {
            Some(outcome) => self.finish(&outcome),
            None => self.advance(code)?,
        }
        Ok(())
    }

    // Goes past the guards and checks before the next instruction, unless that was done before a want of memory.
    fn pass_marks(&mut self, code: &Code)
        requires { self.old.request ≡ None }
        ensures goes_on { GoesOn code.now self.old self.new }
        ensures marked { IsMarked self.new }
        ensures step { StepsAlike code.now self.old self.new }
        ensures before { steps_before code.now self.new None ≡ steps_before code.now self.old None }
        ensures idle { self.new.request ≡ None }
        ensures spares { events_left self.new ≡ events_left self.old }
    {
        if self.due.is_some() || self.marks.is_some() {
            return;
        }
        if let Some(frame) = &mut self.stack.top {
            self.marks = frame.take_marks(code);
        }
    }

    // The function on top goes past its next instruction, where that gives a value of its operands alone. `false`, where it does not, and
    // without fuel, where an outcome is due and where marks have been taken; nothing changes then.
    #[tactic(auto, using(crate::proofs::Marking::given_taken, lx_words::proofs::Options::no_value))]
    fn give_next(&mut self, code: &Code) -> bool
        requires { self.old.request ≡ None }
        ensures steps { IsTrue result → HasTaken code.now self.old self.new (marked_step code.now self.old.marks (thread_of code.now self.old)) }
        ensures stays { result ≡ false → self.new ≡ self.old }
        ensures spares { events_left self.new ≤ events_left self.old }
    {
        if self.fuel == 0 || self.due.is_some() || self.marks.is_some() {
            return false;
        }
        if let Some(frame) = &mut self.stack.top {
            if frame.give_next(code) {
                self.fuel -= 1; // an instruction costs a unit
                return true;
            }
        }
        false
    }

    // The next step of a thread that has a call left and asks nothing: past an instruction that gives a value, or past the marks before another
    // one, and that.
    #[tactic(auto, using(crate::proofs::Goings::behind_marks, crate::proofs::Goings::stays_behind))]
    pub(super) fn take_next(&mut self, code: &Code) -> Result<(), Memory>
        requires request { self.old.request ≡ None }
        requires work { IsTrue (has_call (calls_left self.old)) }
        ensures steps { OnOk result (HasTaken code.now self.old self.new (marked_step code.now self.old.marks (thread_of code.now self.old))) }
        ensures stays { OnErr result (GoesOn code.now self.old self.new) }
        ensures asks_nothing { OnErr result (self.new.request ≡ None) }
        ensures lacks { OnErr result (MayLack code.now self.new) }
        ensures spares { events_left self.new ≤ events_left self.old }
    {
        if self.give_next(code) {
            return Ok(());
        }
        self.pass_marks(code);
        self.take_step(code)?;
        Ok(())
    }

    // Steps up to the next request.
    fn go(&mut self, code: &Code) -> Result<(), Memory>
        requires work { IsTrue (has_call (calls_left self.old)) }
        requires request { self.old.request ≡ None }
        ensures goes_on { GoesOn code.now self.old self.new }
        ensures asks { OnOk result (IsSome self.new.request) }
        ensures asks_nothing { OnErr result (self.new.request ≡ None) }
        ensures lacks { OnErr result (MayLack code.now self.new) }
        ensures spares { events_left self.new ≤ events_left self.old }
    {
        while self.request.is_none() {
            self.take_next(code)?;
        }
        Ok(())
    }

    /// Takes register steps up to the next request, and makes the room that its reply needs. After `Memory` the runner asks
    /// nothing yet, and a further call goes on from where this one stood.
    pub fn local(&mut self, code: &Code) -> Result<(), Memory>
        ensures stands { (t : ℕ) → (thread : ImageThread) → StandsFor code.now t self.old thread → StandsFor code.now t self.new thread }
        ensures asks { OnOk result ((t : ℕ) → (thread : ImageThread) → StandsFor code.now t self.old thread → IsTrue (has_call thread.calls) → IsAsking code.now t self.new (image_next code.now thread)) }
        ensures calls { calls_left self.new ≡ calls_left self.old }
        ensures events { events_left self.new ≤ events_left self.old }
        ensures waits { OnOk result (IsTrue (has_call (calls_left self.old)) → IsSome (request_of self.new)) }
        ensures asks_nothing { OnErr result (request_of self.new ≡ None) }
        ensures lacks { OnErr result (MayLack code.now self.new) }
    {
        if self.request.is_some() || self.done() {
            return Ok(());
        }
        self.go(code)?;
        Ok(())
    }

    /// What the runner asks; nothing, where no call is left or register steps are due.
    #[tactic(auto, using(crate::proofs::Goings::asks_nothing))]
    pub fn request(&self) -> Option<&Request>
        ensures value { option_copied result ≡ request_of self.now }
        ensures asked { (c : Images) → (t : ℕ) → (asking : ImageAsking) → IsAsking c t self.now asking → option_copied result ≡ Some asking.request }
        ensures idle { (c : Images) → (t : ℕ) → (thread : ImageThread) → StandsFor c t self.now thread → has_call thread.calls ≡ false → IsNone result }
    {
        self.request.as_ref()
    }

    /// The calls that have ended, in their order.
    pub fn endings(&self) -> &[Ending]
        ensures stands { (c : Images) → (t : ℕ) → (thread : ImageThread) → StandsFor c t self.now thread → result.now ≡ thread.ended }
        ensures kept { result.now ≡ self.now.endings.items }
    {
        self.endings.as_slice()
    }
}
