//! What the effect of an instruction does to the runner.
ghost use Rattle.std.specs.Prelude.{◌≡◌, ◌<◌, ◌≤◌, OnOk, OnErr, IsSome, None, Some, true};
ghost use Rattle.lx_images.specs.Image.{Code as Images, comes_to, has_room};
ghost use Rattle.lx_model.specs.Next.{finish};
ghost use Rattle.lx_image_steps.specs.declared.effect.Effect.TheVariants as effect;
ghost use Rattle.lx_frames.specs.Frames.{frames_of, running_on};
ghost use Rattle.lx_frames.specs.Stack.{takes_room};
ghost use Rattle.lx_interp.specs.Lacks.{FoundLacksOn};
ghost use Rattle.lx_interp.specs.Runner.{HasStayed, HasTaken, asker_in, effect_on, events_left, marks_in, poorer, thread_of};

use super::Runner;
use lx_caps::Principal;
use lx_image_code::Code;
use lx_image_steps::{Effect, Marks, asker, registers_of};
use lx_model::request::{Outcome, Request, Trap, What};
use lx_words::{Memory, Word, Words};

/// The request that ends a call.
pub(super) fn finishing(outcome: &Outcome) -> Request
    ensures { result ≡ finish outcome.now }
{
    Request {
        who: Principal::Kernel,
        what: What::Finish { outcome: *outcome },
    }
}

impl Runner {
    /// The call comes to an outcome, and asks to end.
    pub(super) fn stop(&mut self, outcome: &Outcome)
        ensures stops { (c : Images) → HasTaken c self.old self.new (comes_to outcome.now (thread_of c self.old)) }
        ensures spares { events_left self.new ≤ events_left self.old }
    {
        self.due = Some(*outcome);
        self.stack.top = None;
        self.stack.shadow.clear();
        self.marks = None;
        self.request = Some(finishing(outcome));
    }

    /// A unit of fuel is spent, and the call comes to a trap.
    pub(super) fn trap(&mut self, trap: Trap)
        requires fuel { 0 < self.old.fuel }
        ensures stops { (c : Images) → HasTaken c self.old self.new (comes_to (Outcome.Trapped trap) (poorer (thread_of c self.old))) }
        ensures spares { events_left self.new ≤ events_left self.old }
    {
        self.fuel -= 1;
        self.stop(&Outcome::Trapped(trap));
    }

    // What guards and checks have left for the instruction.
    fn marks_left(&self) -> Marks
        ensures { result ≡ marks_in self.now.marks }
    {
        match &self.marks {
            Some(marks) => *marks,
            None => Marks {
                guarded: None,
                checked: None,
            },
        }
    }

    // The function goes past its instruction with a value.
    fn give(&mut self, code: &Code, word: Word)
        requires fuel { 0 < self.old.fuel }
        requires request { self.old.request ≡ None }
        requires top { IsSome (running_on self.old.stack.top) }
        ensures steps { HasTaken code.now self.old self.new (effect_on code.now (marks_in self.old.marks) (poorer (thread_of code.now self.old)) (effect.Gives word)) }
        ensures spares { events_left self.new ≤ events_left self.old }
    {
        self.fuel -= 1; // an instruction costs a unit
        self.marks = None; // marks are for one instruction
        if let Some(frame) = &mut self.stack.top {
            frame.pass(code, &Some(word));
        }
    }

    // The function goes to a block of its own.
    fn jump(&mut self, code: &Code, block: usize) -> Result<(), Memory>
        requires fuel { 0 < self.old.fuel }
        requires request { self.old.request ≡ None }
        requires top { IsSome (running_on self.old.stack.top) }
        ensures steps { OnOk result (HasTaken code.now self.old self.new (effect_on code.now (marks_in self.old.marks) (poorer (thread_of code.now self.old)) (effect.Jumps block))) }
        ensures stays { OnErr result (HasStayed code.now self.old self.new) }
        ensures lacks { OnErr result (FoundLacksOn code.now self.old.stack.top (effect.Jumps block)) }
        ensures spares { events_left self.new ≤ events_left self.old }
    {
        if let Some(frame) = &mut self.stack.top {
            if frame.arrive(self.alloc, code, block)? {
                self.fuel -= 1;
                self.marks = None;
            } else {
                self.trap(Trap::Unreachable);
            }
        }
        Ok(())
    }

    // For whom the function asks something.
    fn asker(&self, code: &Code, what: &What) -> Principal
        ensures { result ≡ asker_in code.now (marks_in self.now.marks) self.now.stack.shadow.principals (frames_of code.now self.now.stack.top self.now.stack.below) what.now }
    {
        match self.stack.running() {
            Some(run) => asker(
                code.program_code().home(run.function),
                &self.marks_left(),
                self.stack.shadow.top(),
                what,
            ),
            None => Principal::Kernel,
        }
    }

    // The function asks something.
    fn ask(&mut self, code: &Code, what: What) -> Result<(), Memory>
        requires fuel { 0 < self.old.fuel }
        requires request { self.old.request ≡ None }
        requires top { IsSome (running_on self.old.stack.top) }
        ensures steps { OnOk result (HasTaken code.now self.old self.new (effect_on code.now (marks_in self.old.marks) (poorer (thread_of code.now self.old)) (effect.Wants what))) }
        ensures stays { OnErr result (HasStayed code.now self.old self.new) }
        ensures lacks { OnErr result (takes_room what ≡ true) }
        ensures spares { events_left self.new ≤ events_left self.old }
    {
        let who = self.asker(code, &what);
        self.stack.make_room(code, &what)?;
        self.fuel -= 1;
        self.marks = None;
        self.request = Some(Request { who, what });
        Ok(())
    }

    // The function asks to enter another.
    fn ask_entry(&mut self, code: &Code, what: What) -> Result<(), Memory>
        requires fuel { 0 < self.old.fuel }
        requires request { self.old.request ≡ None }
        requires top { IsSome (running_on self.old.stack.top) }
        ensures steps { OnOk result (HasTaken code.now self.old self.new (effect_on code.now (marks_in self.old.marks) (poorer (thread_of code.now self.old)) (effect.Enters what))) }
        ensures stays { OnErr result (HasStayed code.now self.old self.new) }
        ensures spares { events_left self.new ≤ events_left self.old }
    {
        if self.stack.has_room() {
            self.ask(code, what)?;
        } else {
            self.trap(Trap::TooDeep);
        }
        Ok(())
    }

    // The function calls another of the same text.
    fn call(&mut self, code: &Code, function: u32, args: Words) -> Result<(), Memory>
        requires fuel { 0 < self.old.fuel }
        requires request { self.old.request ≡ None }
        requires top { IsSome (running_on self.old.stack.top) }
        ensures steps { OnOk result (HasTaken code.now self.old self.new (effect_on code.now (marks_in self.old.marks) (poorer (thread_of code.now self.old)) (effect.Calls function args))) }
        ensures stays { OnErr result (HasStayed code.now self.old self.new) }
        ensures spares { events_left self.new ≤ events_left self.old }
    {
        if !self.stack.has_room() {
            self.trap(Trap::TooDeep);
            return Ok(());
        }
        let registers = registers_of(args.into_vec(), code.locals(function))?;
        self.stack.below.reserve(1)?;
        self.fuel -= 1;
        self.marks = None;
        self.stack.run_function(self.thread, function, registers);
        Ok(())
    }

    /// What an instruction does to the runner.
    pub(super) fn apply(&mut self, code: &Code, effect: Effect) -> Result<(), Memory>
        requires fuel { 0 < self.old.fuel }
        requires request { self.old.request ≡ None }
        requires top { IsSome (running_on self.old.stack.top) }
        ensures steps { OnOk result (HasTaken code.now self.old self.new (effect_on code.now (marks_in self.old.marks) (poorer (thread_of code.now self.old)) effect)) }
        ensures stays { OnErr result (HasStayed code.now self.old self.new) }
        ensures lacks { OnErr result (FoundLacksOn code.now self.old.stack.top effect) }
        ensures spares { events_left self.new ≤ events_left self.old }
    {
        match effect {
            Effect::Gives(word) => self.give(code, word),
            Effect::Jumps(block) => self.jump(code, block)?,
            Effect::Wants(what) => self.ask(code, what)?,
            Effect::Enters(what) => self.ask_entry(code, what)?,
            Effect::Calls { function, args } => self.call(code, function, args)?,
            Effect::Traps(trap) => self.trap(trap),
        }
        Ok(())
    }
}
