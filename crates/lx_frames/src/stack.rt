//! The frames of a thread, and the principals of the wrappers among them.
ghost use Rattle.std.specs.Prelude.{◌≡◌, ◌≤◌, [], IfOk, IfSome, IsSome, OnErr, option_copied, option_map};
ghost use Rattle.lx_images.specs.Asker.{acting};
ghost use Rattle.lx_images.specs.Image.{Code as Images, fits_site, has_room, stack_top};
ghost use Rattle.lx_image_steps.specs.Standing.{run_of};
ghost use Rattle.lx_frames.specs.Frames.{IsUncountedOn, args_on, frames_of, function_on, high_on, line_behind_on, line_on, running_on, value_on};
ghost use Rattle.lx_frames.specs.Stack.{returned_on};
ghost use Rattle.lx_model.specs.Program.{same_result};

mod entries;
mod room;

use crate::Shadow;
use crate::callers::{Callers, high_of};
use crate::frame::Frame;
pub use entries::Entry;
use lx_caps::stack_start;
use lx_image_code::{Code, Line};
use lx_image_steps::{Activation, call_result, returned};
use lx_model::request::Way;
use lx_words::{Memory, Width, Word};
use std::alloc::Global;

/// How many functions of a thread may run at a time. Wrappers do not count.
const MOST_RUNNING: usize = 256;

/// The frames of a thread: the one on top, those below it, and the principals of the wrappers among them, with room for the
/// registers of a function that may be entered.
pub struct FrameStack {
    alloc: Global,
    pub top: Option<Frame>,
    pub below: Callers,
    pub shadow: Shadow,
    registers: Vec<Word>,
}

impl Drop for FrameStack {
    fn drop(self) {
        let FrameStack {
            alloc: _,
            top: _,
            below: _,
            shadow: _,
            registers: _,
        } = self;
    }
}

// Whether two results are of one width, or both are none.
fn is_same_result(a: Option<Width>, b: Option<Width>) -> bool
    ensures { result ≡ same_result a b }
{
    match (a, b) {
        (None, None) => true,
        (Some(v), Some(w)) => v.bit_count() == w.bit_count(),
        _ => false,
    }
}

impl FrameStack {
    /// No frame and no principal.
    ///
    /// # Errors
    /// Want of memory for the principals to come.
    pub fn open(alloc: Global) -> Result<FrameStack, Memory>
        ensures frames { IfOk result (λ s. (c : Images) → frames_of c s.top s.below ≡ []) }
        ensures principals { IfOk result (λ s. s.shadow.principals ≡ []) }
    {
        let shadow = Shadow::open(alloc)?;
        Ok(FrameStack {
            alloc,
            top: None,
            below: Callers::new(alloc),
            shadow,
            registers: Vec::new(alloc),
        })
    }

    /// The function that runs on top; none, where a wrapper or nothing does.
    pub fn running(&self) -> Option<&Activation>
        ensures { option_copied result ≡ running_on self.now.top }
    {
        match &self.top {
            Some(frame) => frame.running(),
            None => None,
        }
    }

    /// The function for which the frames act: the one that runs on top, or the one that called the wrapper there. None, where neither
    /// is: without a frame, and in a wrapper that a script calls.
    #[tactic(auto, using(crate::proofs::Acting::acts_on_top, crate::proofs::Acting::acts_below))]
    pub fn acting(&self) -> Option<&Activation>
        ensures { (c : Images) → option_map (run_of c) (option_copied result) ≡ acting (frames_of c self.now.top self.now.below) }
    {
        match &self.top {
            Some(frame) => match frame.running() {
                Some(run) => Some(run),
                None => self.below.newest(),
            },
            None => None,
        }
    }

    /// The line at which the wrapper on top stands; none, where no wrapper is there.
    pub fn line(&self, code: &Code) -> Option<Line>
        ensures { result ≡ line_on (frames_of code.now self.now.top self.now.below) }
    {
        match &self.top {
            Some(frame) => frame.line(code),
            None => None,
        }
    }

    /// The line behind that; none, where no wrapper is there.
    ///
    /// # Errors
    /// `Memory`, where the wrapper has more lines than a number counts.
    pub fn line_behind(&self, code: &Code) -> Result<Option<Line>, Memory>
        ensures line { IfOk result (λ line. line ≡ line_behind_on (frames_of code.now self.now.top self.now.below)) }
        ensures uncounted { OnErr result (IsUncountedOn self.now.top) }
    {
        match &self.top {
            Some(frame) => {
                let line = frame.line_behind(code)?;
                Ok(line)
            }
            None => Ok(None),
        }
    }

    /// What the call of the wrapper on top gave; none, before that and where no wrapper is there.
    pub fn value(&self) -> Option<Word>
        ensures { result ≡ value_on self.now.top }
    {
        match &self.top {
            Some(frame) => frame.value(),
            None => None,
        }
    }

    /// The number of the function that the wrapper on top wraps, and 0 where no wrapper is there.
    pub fn function(&self) -> u32
        ensures { result ≡ function_on self.now.top }
    {
        match &self.top {
            Some(frame) => frame.function(),
            None => 0,
        }
    }

    /// The arguments that the wrapper on top was called with; none, where no wrapper is there.
    pub fn args(&self) -> &[Word]
        ensures { result.now ≡ args_on self.now.top }
    {
        match &self.top {
            Some(frame) => frame.args(),
            None => &[],
        }
    }

    /// Whether a further function may run.
    pub fn has_room(&self) -> bool
        requires { IsSome (running_on self.now.top) }
        ensures { (c : Images) → result ≡ has_room (frames_of c self.now.top self.now.below) }
    {
        self.below.running() < MOST_RUNNING - 1
    }

    /// The value that the function on top returns, where one runs there.
    pub fn returned(&self, code: &Code) -> Option<Option<Word>>
        ensures { result ≡ returned_on code.now (frames_of code.now self.now.top self.now.below) }
    {
        match self.running() {
            Some(run) => Some(returned(code, run)),
            None => None,
        }
    }

    /// Whether the site of an indirect call has the function's result.
    pub fn fits(&self, code: &Code, way: &Way, function: u32) -> bool
        ensures { result ≡ fits_site code.now way.now (frames_of code.now self.now.top self.now.below) function }
    {
        match way {
            Way::Indirect(_) => match self.running() {
                Some(run) => is_same_result(
                    call_result(code, run),
                    code.program_code().result_width(function),
                ),
                None => true,
            },
            _ => true,
        }
    }

    // Where the stack of the newest function that runs ends; none, where none runs.
    fn high(&self) -> Option<u64>
        ensures high { result ≡ high_on self.now.top self.now.below }
        ensures small { IfSome result (λ high. high ≤ 9223372036854775808) }
    {
        match &self.top {
            Some(frame) => high_of(frame, &self.below),
            None => None,
        }
    }

    // Where the next frame's part of the stack begins, in the thread with a number.
    #[tactic(auto, using(crate::proofs::Counting::high_found, crate::proofs::Counting::high_missing))]
    fn stack_top(&self, thread: u32) -> u64
        ensures top { (c : Images) → result ≡ stack_top thread (frames_of c self.now.top self.now.below) }
        ensures small { result ≤ 9223372036854775808 }
    {
        match self.high() {
            Some(high) => high,
            None => stack_start(thread),
        }
    }
}
