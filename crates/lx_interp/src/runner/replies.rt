//! What a reply does to the runner. This takes no memory.
ghost use Rattle.std.specs.Prelude.{◌≡◌, ℕ, ◌+◌, ◌<◌, ◌≤◌, IsTrue, None, Some, length};
ghost use Rattle.lx_model.specs.declared.request.What.TheVariants as what;
ghost use Rattle.lx_model.specs.Next.{way_address, with_alloca};
ghost use Rattle.lx_model.specs.Thread.{activation_behind, has_call};
ghost use Rattle.lx_words.specs.declared.word.Width.TheVariants.{W64};
ghost use Rattle.lx_words.specs.Word.{word};
ghost use Rattle.lx_images.specs.Image.{Code as Images, ImageAsking, after_end, after_entry, after_reply, after_ret, behind_line, fits_site, image_absorb, on_running, past_instruction, with_due, with_frames};
ghost use Rattle.lx_frames.specs.Frames.{HasSpaceOn, frames_of};
ghost use Rattle.lx_frames.specs.Stack.{CanEnter, CanGoOn, HasRoomFor};
ghost use Rattle.lx_interp.specs.Runner.{Becomes, IsAsking, IsAt, KeepsFuel, StandsFor, behind_direct, calls_left, end_in, events_left, is_direct, may_answer, reply_value, request_of, spends, thread_of};

use super::Runner;
use super::steps::fuel_at;
use crate::ending::Ending;
use lx_caps::Principal;
use lx_frames::Entry;
use lx_image_code::Code;
use lx_model::request::{Outcome, Reply, Trap, Way, What};
use lx_words::{Word, Words};

// The address of an indirect call.
fn way_address(way: &Way) -> u64
    ensures { result ≡ way_address way.now }
{
    match way {
        Way::Indirect(at) => *at,
        _ => 0,
    }
}

// The value that a reply brings.
fn value_of(reply: &Reply) -> Option<Word>
    ensures { result ≡ reply_value reply.now }
{
    match reply {
        Reply::Value(word) => Some(*word),
        _ => None,
    }
}

// The outcome that a reply ends a call with.
fn end_of(reply: &Reply) -> Option<Outcome>
    ensures { result ≡ end_in reply.now }
{
    match reply {
        Reply::Ended(outcome) => Some(*outcome),
        _ => None,
    }
}

// Whether a call enters an import, as wrappers do.
fn is_direct(way: &Way) -> bool
    ensures { result ≡ is_direct way.now }
{
    matches!(way, Way::Direct(_))
}

impl Runner {
    // The first call that is left has ended.
    fn end(&mut self, outcome: &Outcome)
        ensures { (c : Images) → Becomes c self.old self.new (after_end outcome.now (thread_of c self.old)) }
    {
        let place = self.endings.len();
        if place < self.calls.len() {
            let calls = self.calls.as_slice();
            let ending = Ending {
                function: calls[place].function,
                outcome: *outcome,
            };
            if self.endings.push(ending).is_err() {
                unreachable!()
            }
        }
        self.fuel = fuel_at(&self.calls, self.endings.len());
        self.due = None;
        self.stack.top = None;
        self.stack.shadow.clear();
    }

    // The function goes past its instruction, with a value or none.
    fn go_past(&mut self, code: &Code, value: &Option<Word>)
        ensures becomes { Becomes code.now self.old self.new (past_instruction value.now (thread_of code.now self.old)) }
        ensures rest { KeepsFuel self.old self.new }
    {
        if let Some(frame) = &mut self.stack.top {
            frame.pass(code, value);
        }
    }

    // The function has the bytes of the stack that it asked for, and goes on with their address.
    fn take_stack_bytes(&mut self, code: &Code, at: u64, size: u64)
        ensures becomes { HasSpaceOn self.old.stack.top → at + size ≤ 9223372036854775808 → Becomes code.now self.old self.new (with_frames (on_running (λ a. activation_behind (Some (word W64 at)) (with_alloca at size a)) (frames_of code.now self.old.stack.top self.old.stack.below)) (thread_of code.now self.old)) }
        ensures rest { KeepsFuel self.old self.new }
    {
        if let Some(frame) = &mut self.stack.top {
            frame.lodge(code, at, size);
        }
    }

    // The function that was entered has another signature than its call.
    fn trap_at_signature(&mut self, way: &Way)
        ensures becomes { (c : Images) → Becomes c self.old self.new (with_due (Outcome.Trapped (Trap.Signature (way_address way.now))) (thread_of c self.old)) }
        ensures rest { KeepsFuel self.old self.new }
    {
        self.due = Some(Outcome::Trapped(Trap::Signature {
            at: way_address(way),
        }));
        self.stack.top = None;
        self.stack.shadow.clear();
    }

    // A call that is no wrapper's is behind its entry, or comes to a trap where the function does not fit its site.
    fn enter_or_trap(&mut self, code: &Code, way: &Way, args: Words, entry: Entry)
        ensures becomes { CanEnter code.now self.old.stack (length args) 2 → 0 < self.old.stack.shadow.room → Becomes code.now self.old self.new (after_entry code.now self.old.thread (fits_site code.now way.now (frames_of code.now self.old.stack.top self.old.stack.below) entry.function) way.now args entry.function entry.principal entry.crosses (thread_of code.now self.old)) }
        ensures rest { KeepsFuel self.old self.new }
    {
        if self.stack.fits(code, way, entry.function) {
            self.stack.enter(code, self.thread, args, entry);
        } else {
            self.trap_at_signature(way);
        }
    }

    // The wrapper on top is behind its enter.
    fn enter_wrapped(&mut self, code: &Code, principal: Principal)
        ensures becomes { CanGoOn code.now self.old.stack self.old.stack.top → 0 < self.old.stack.shadow.room → Becomes code.now self.old self.new (behind_direct code.now self.old.thread principal (thread_of code.now self.old)) }
        ensures rest { KeepsFuel self.old self.new }
    {
        self.stack.enter_wrapped(code, self.thread, principal);
    }

    // What was asked to be entered is entered, or not.
    fn answer_entry(&mut self, code: &Code, way: &Way, args: Words, reply: &Reply)
        ensures becomes { HasRoomFor code.now self.old.stack (what.Enter way.now args) → Becomes code.now self.old self.new (after_reply code.now self.old.thread (thread_of code.now self.old) (what.Enter way.now args) reply.now) }
        ensures rest { KeepsFuel self.old self.new }
    {
        match reply {
            Reply::Entered {
                function,
                principal,
                crosses,
            } => {
                if is_direct(way) {
                    self.enter_wrapped(code, *principal);
                } else {
                    let entry = Entry {
                        function: *function,
                        principal: *principal,
                        crosses: *crosses,
                    };
                    self.enter_or_trap(code, way, args, entry);
                }
            }
            _ => self.go_past(code, &value_of(reply)),
        }
    }

    // What stands on top is behind the line that asked for an action.
    fn end_line(&mut self, code: &Code)
        ensures becomes { CanGoOn code.now self.old.stack self.old.stack.top → Becomes code.now self.old self.new (with_frames (behind_line code.now self.old.thread (frames_of code.now self.old.stack.top self.old.stack.below)) (thread_of code.now self.old)) }
        ensures rest { KeepsFuel self.old self.new }
    {
        self.stack.end_line(code, self.thread);
    }

    // The function has returned, and is left.
    fn return_from_body(&mut self, code: &Code)
        ensures becomes { Becomes code.now self.old self.new (after_ret code.now (frames_of code.now self.old.stack.top self.old.stack.below) (thread_of code.now self.old)) }
        ensures rest { KeepsFuel self.old self.new }
    {
        if let Some(value) = self.stack.returned(code) {
            self.leave(code, &value);
        }
    }

    // A reply that ends nothing is taken in.
    fn take_in(&mut self, code: &Code, what: What, reply: &Reply)
        ensures becomes { HasRoomFor code.now self.old.stack what → IsTrue (may_answer what reply.now) → end_in reply.now ≡ None → Becomes code.now self.old self.new (after_reply code.now self.old.thread (thread_of code.now self.old) what reply.now) }
        ensures rest { KeepsFuel self.old self.new }
    {
        match what {
            What::Alloca { at, size } => self.take_stack_bytes(code, at, size),
            What::Enter { way, args } => self.answer_entry(code, &way, args, reply),
            What::Perform { .. } => self.end_line(code),
            What::Return { .. } => self.return_from_body(code),
            What::Load { .. }
            | What::Store { .. }
            | What::Copy { .. }
            | What::Fill { .. }
            | What::Native { .. }
            | What::Finish { .. } => self.go_past(code, &value_of(reply)),
        }
    }

    /// Takes in the reply to what the runner asks. It takes no memory.
    pub fn absorb(&mut self, code: &Code, reply: &Reply)
        ensures stands { (t : ℕ) → (asking : ImageAsking) → IsAsking code.now t self.old asking → IsTrue (may_answer asking.request.what reply.now) → StandsFor code.now t self.new (image_absorb code.now t asking.thread asking.request reply.now) }
        ensures at { (t : ℕ) → (asking : ImageAsking) → IsAsking code.now t self.old asking → IsTrue (may_answer asking.request.what reply.now) → IsAt code.now t self.new (image_absorb code.now t asking.thread asking.request reply.now) }
        ensures idle { request_of self.new ≡ None }
        ensures events { (t : ℕ) → (asking : ImageAsking) → IsAsking code.now t self.old asking → IsTrue (may_answer asking.request.what reply.now) → events_left self.new < events_left self.old }
        ensures spends { IsTrue (has_call (calls_left self.old)) → IsTrue (spends (request_of self.old) reply.now) → events_left self.new < events_left self.old }
    {
        self.marks = None;
        let asked = self.request.take();
        match end_of(reply) {
            Some(outcome) => self.end(&outcome),
            None => {
                if let Some(request) = asked {
                    self.take_in(code, request.what, reply);
                }
            }
        }
    }
}
