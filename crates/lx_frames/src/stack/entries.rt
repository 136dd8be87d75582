//! What is entered: functions, and wrappers round them. Nothing here takes memory.
ghost use Rattle.std.specs.Prelude.{◌≡◌, ◌+◌, ◌<◌, ◌≤◌, ◌∷◌, ◌++◌, List, None, Some, length, replicate};
ghost use Rattle.lx_words.specs.Word.{Word};
ghost use Rattle.lx_model.specs.declared.request.Way.{Way};
ghost use Rattle.lx_model.specs.declared.request.What.TheVariants as what;
ghost use Rattle.lx_model.specs.Thread.{start_of, zero_word};
ghost use Rattle.lx_images.specs.Image.{Code as Images, Runs, Wraps, behind_line, entered_frames, image_routine, shadow_with, stack_top};
ghost use Rattle.lx_image_code.specs.Wrappers.{wrapper_lines};
ghost use Rattle.lx_frames.specs.Frames.{CountsOn, IsWrapper, frame_of, frames_of, is_call, is_call_if, line_on, past_line_on};
ghost use Rattle.lx_frames.specs.Stack.{CanEnter, CanGoIn, CanGoOn, HasRoomFor, Shows, arrived, body_behind};

use super::FrameStack;
use crate::frame::Frame;
use crate::registers::fill;
use lx_caps::Principal;
use lx_image_code::{Code, Line, Wrapper};
use lx_image_steps::Activation;
use lx_words::{Word, Words};
use std::mem;

/// What is entered: a function, for a principal, and whether the call crosses into it.
#[derive(Clone, Copy)]
pub struct Entry {
    pub function: u32,
    pub principal: Principal,
    pub crosses: bool,
}

// Whether a line is the call of a wrapper.
fn is_call(line: Line) -> bool
    ensures { result ≡ is_call line }
{
    matches!(line, Line::Call)
}

impl FrameStack {
    // A frame stands on the others.
    fn push(&mut self, frame: Frame)
        requires { 0 < self.old.below.room }
        ensures frames { (c : Images) → frames_of c self.new.top self.new.below ≡ frame_of c frame ∷ frames_of c self.old.top self.old.below }
        ensures top { self.new.top ≡ Some frame }
        ensures takes { self.old.below.room ≤ self.new.below.room + 1 }
        ensures registers { self.new.registers ≡ self.old.registers }
        ensures shadow { self.new.shadow ≡ self.old.shadow }
    {
        match mem::replace(&mut self.top, Some(frame)) {
            Some(caller) => self.below.push(caller),
            None => self.below.clear(),
        }
    }

    /// A wrapper stands on the function that calls it, at its first line.
    pub fn push_wrapper(&mut self, function: u32, args: Words, wrapper: Wrapper)
        requires { 0 < self.old.below.room }
        ensures frames { (c : Images) → frames_of c self.new.top self.new.below ≡ Wraps function args (wrapper_lines c wrapper) None ∷ frames_of c self.old.top self.old.below }
        ensures shadow { self.new.shadow ≡ self.old.shadow }
        ensures ready { (c : Images) → (way : Way) → CanEnter c self.old (length args) 3 → 0 < self.old.shadow.room → HasRoomFor c self.new (what.Enter way args) }
    {
        self.push(Frame::Wraps {
            function,
            args,
            wrapper,
            at: 0,
            value: None,
        });
    }

    // A frame stands on the others, where a place was made for it.
    fn push_in_place(&mut self, frame: Frame)
        ensures frames { (c : Images) → 0 < self.old.below.room → frames_of c self.new.top self.new.below ≡ frame_of c frame ∷ frames_of c self.old.top self.old.below }
        ensures top { 0 < self.old.below.room → self.new.top ≡ Some frame }
        ensures takes { self.old.below.room ≤ self.new.below.room + 1 }
        ensures registers { self.new.registers ≡ self.old.registers }
        ensures shadow { self.new.shadow ≡ self.old.shadow }
    {
        if self.below.room() > 0 {
            self.push(frame);
        }
    }

    /// A function runs on the frames that there are in the thread with a number, with these registers, where a place was made for
    /// it.
    pub fn run_function(&mut self, thread: u32, function: u32, registers: Vec<Word>)
        ensures frames { (c : Images) → (args : List Word) → registers.items ≡ args ++ replicate (image_routine c function).locals zero_word → 0 < self.old.below.room → frames_of c self.new.top self.new.below ≡ Runs (start_of function (image_routine c function) args (stack_top thread (frames_of c self.old.top self.old.below))) ∷ frames_of c self.old.top self.old.below }
        ensures shadow { self.new.shadow ≡ self.old.shadow }
    {
        let low = self.stack_top(thread);
        let run = Activation::start(self.alloc, function, registers, low);
        self.push_in_place(Frame::Runs(run));
    }

    // The room for registers. The function that is entered has all of it, of which the part that it does not need was never
    // written to.
    fn take_room(&mut self) -> Vec<Word>
        ensures room { result ≡ self.old.registers }
        ensures top { self.new.top ≡ self.old.top }
        ensures below { self.new.below ≡ self.old.below }
        ensures shadow { self.new.shadow ≡ self.old.shadow }
    {
        mem::replace(&mut self.registers, Vec::new(self.alloc))
    }

    // A function is entered with these arguments, without a wrapper.
    fn enter_function(&mut self, code: &Code, thread: u32, function: u32, args: &[Word])
        ensures frames { CanEnter code.now self.old (length args.now) 1 → frames_of code.now self.new.top self.new.below ≡ Runs (start_of function (image_routine code.now function) args.now (stack_top thread (frames_of code.now self.old.top self.old.below))) ∷ frames_of code.now self.old.top self.old.below }
        ensures shadow { self.new.shadow ≡ self.old.shadow }
    {
        let mut registers = self.take_room();
        fill(&mut registers, args, code.locals(function));
        self.run_function(thread, function, registers);
    }

    // The wrapper on top goes past its line.
    fn pass_line(&mut self)
        ensures top { CountsOn self.old.top → self.new.top ≡ past_line_on self.old.top }
        ensures below { self.new.below ≡ self.old.below }
        ensures registers { self.new.registers ≡ self.old.registers }
        ensures shadow { self.new.shadow ≡ self.old.shadow }
    {
        if let Some(frame) = &mut self.top {
            frame.pass_line();
        }
    }

    // Whether the wrapper on top stands at its call.
    fn is_at_call(&self, code: &Code) -> bool
        ensures { result ≡ is_call_if (line_on (frames_of code.now self.now.top self.now.below)) }
    {
        match self.line(code) {
            Some(line) => is_call(line),
            None => false,
        }
    }

    // The wrapper on top goes into its body, behind the line of the call.
    #[tactic(auto, using(crate::proofs::Arriving::line_more))]
    fn go_into(&mut self, code: &Code, thread: u32)
        requires { IsWrapper self.old.top }
        ensures frames { CanGoIn code.now self.old self.old.top → frames_of code.now self.new.top self.new.below ≡ body_behind code.now thread (frames_of code.now self.old.top self.old.below) }
        ensures shadow { self.new.shadow ≡ self.old.shadow }
    {
        self.pass_line();
        let function = self.function();
        let mut registers = self.take_room();
        fill(&mut registers, self.args(), code.locals(function));
        self.run_function(thread, function, registers);
    }

    // What stands on top has come to its line: a wrapper whose line is the call goes into its body.
    fn arrive(&mut self, code: &Code, thread: u32)
        ensures frames { CanGoIn code.now self.old self.old.top → frames_of code.now self.new.top self.new.below ≡ arrived code.now thread (frames_of code.now self.old.top self.old.below) }
        ensures shadow { self.new.shadow ≡ self.old.shadow }
    {
        if self.is_at_call(code) {
            self.go_into(code, thread);
        }
    }

    /// What stands on top is behind the line that it asked by.
    pub fn end_line(&mut self, code: &Code, thread: u32)
        ensures frames { CanGoOn code.now self.old self.old.top → frames_of code.now self.new.top self.new.below ≡ behind_line code.now thread (frames_of code.now self.old.top self.old.below) }
        ensures shadow { self.new.shadow ≡ self.old.shadow }
    {
        self.pass_line();
        self.arrive(code, thread);
    }

    // A principal goes on the others, where a place was made for it.
    fn cross(&mut self, principal: Principal)
        ensures principals { 0 < self.old.shadow.room → self.new.shadow.principals ≡ principal ∷ self.old.shadow.principals }
        ensures top { self.new.top ≡ self.old.top }
        ensures below { self.new.below ≡ self.old.below }
        ensures registers { self.new.registers ≡ self.old.registers }
    {
        if self.shadow.room() > 0 {
            self.shadow.push(principal);
        }
    }

    /// A call is behind its entry: where it crosses, the wrapper of the function is entered, and otherwise the function.
    pub fn enter(&mut self, code: &Code, thread: u32, args: Words, entry: Entry)
        ensures { CanEnter code.now self.old (length args) 2 → 0 < self.old.shadow.room → Shows code.now self.new (entered_frames code.now thread entry.crosses entry.function args (frames_of code.now self.old.top self.old.below)) (shadow_with entry.crosses entry.principal self.old.shadow.principals) }
    {
        if entry.crosses {
            self.cross(entry.principal);
            self.push_in_place(Frame::Wraps {
                function: entry.function,
                args,
                wrapper: code.entered_wrapper(entry.function),
                at: 1, // the request to enter was the first line
                value: None,
            });
            self.arrive(code, thread);
        } else {
            self.enter_function(code, thread, entry.function, args.as_slice());
        }
    }

    /// The wrapper on top is behind its enter, and its principal on the others.
    pub fn enter_wrapped(&mut self, code: &Code, thread: u32, principal: Principal)
        ensures { CanGoOn code.now self.old self.old.top → 0 < self.old.shadow.room → Shows code.now self.new (behind_line code.now thread (frames_of code.now self.old.top self.old.below)) (principal ∷ self.old.shadow.principals) }
    {
        self.cross(principal);
        self.end_line(code, thread);
    }
}
