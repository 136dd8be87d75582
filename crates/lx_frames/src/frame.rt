//! Frames of a thread: functions that run, and the wrappers round those that calls cross into.
ghost use Rattle.std.specs.Prelude.{◌≡◌, ◌+◌, ◌≤◌, ◌∷◌, IfOk, IfSome, IsNone, IsSome, IsTrue, List, None, OnErr, OnOk, Some, false, find, option_copied, slice_get, true};
ghost use Rattle.lx_words.specs.declared.word.Width.TheVariants.{W64};
ghost use Rattle.lx_words.specs.Word.{word};
ghost use Rattle.lx_model.specs.Thread.{activation_behind};
ghost use Rattle.lx_model.specs.Effect.{arrival, is_phi};
ghost use Rattle.lx_model.specs.Next.{with_alloca};
ghost use Rattle.lx_images.specs.Image.{Code as Images, Goes, ImageFrame, ImageThread, frame_step, if_paid, with_frames};
ghost use Rattle.lx_image_steps.specs.declared.activation.Activation.{Activation as Running};
ghost use Rattle.lx_image_steps.specs.Standing.{block_at, run_of};
ghost use Rattle.lx_frames.specs.Frames.{Counts, HasSpace, IsUncounted, arrival_in, changed, frame_of, line_at, line_behind, marked_frame_step, past_line, resumed, runs, wrapped_args, wrapped_function, wrapped_value};

use lx_image_code::{Code, Line, Wrapper};
use lx_image_steps::{Activation, Marks};
use lx_words::{Memory, Width, Word, Words};
use std::alloc::Global;

/// A function that runs, or the wrapper round one: the number of the function that it wraps, its arguments, whose lines it has, at
/// which of them it stands, and what its call gave.
#[derive(Drop)]
pub enum Frame {
    Runs(Activation),
    Wraps {
        function: u32,
        args: Words,
        wrapper: Wrapper,
        at: usize,
        value: Option<Word>,
    },
}

impl Frame {
    /// The line at which a wrapper stands; none, in a function.
    pub(crate) fn line(&self, code: &Code) -> Option<Line>
        ensures { result ≡ line_at (frame_of code.now self.now) }
    {
        match self {
            Frame::Runs(_) => None,
            Frame::Wraps { wrapper, at, .. } => Some(code.line(*wrapper, *at)),
        }
    }

    /// The line behind that; none, in a function.
    ///
    /// # Errors
    /// `Memory`, where the wrapper has more lines than a number counts.
    #[tactic(auto, using(crate::proofs::Arriving::line_more))]
    pub(crate) fn line_behind(&self, code: &Code) -> Result<Option<Line>, Memory>
        ensures line { IfOk result (λ line. line ≡ line_behind (frame_of code.now self.now)) }
        ensures uncounted { OnErr result (IsUncounted self.now) }
    {
        match self {
            Frame::Runs(_) => Ok(None),
            Frame::Wraps { wrapper, at, .. } => match at.checked_add(1) {
                Some(behind) => Ok(Some(code.line(*wrapper, behind))),
                None => Err(Memory),
            },
        }
    }

    /// What the call of a wrapper gave; none, before that and in a function.
    pub(crate) fn value(&self) -> Option<Word>
        ensures { result ≡ wrapped_value self.now }
    {
        match self {
            Frame::Runs(_) => None,
            Frame::Wraps { value, .. } => *value,
        }
    }

    /// Whether a number counts the two lines behind the one at which a wrapper stands.
    pub(crate) fn counts_on(&self) -> bool
        ensures { result ≡ true → Counts (past_line self.now) }
    {
        match self {
            Frame::Runs(_) => true,
            Frame::Wraps { at, .. } => *at < usize::MAX - 1,
        }
    }

    /// The number of the function that a wrapper wraps, and 0 in a function.
    pub(crate) fn function(&self) -> u32
        ensures { result ≡ wrapped_function self.now }
    {
        match self {
            Frame::Runs(_) => 0,
            Frame::Wraps { function, .. } => *function,
        }
    }

    /// The arguments that a wrapper was called with; none in a function.
    pub(crate) fn args(&self) -> &[Word]
        ensures { result.now ≡ wrapped_args self.now }
    {
        match self {
            Frame::Runs(_) => &[],
            Frame::Wraps { args, .. } => args.as_slice(),
        }
    }

    /// The function that runs; none, in a wrapper.
    pub(crate) fn running(&self) -> Option<&Activation>
        ensures { option_copied result ≡ runs self.now }
    {
        match self {
            Frame::Runs(run) => Some(run),
            Frame::Wraps { .. } => None,
        }
    }

    /// A running function goes past its instruction, with a value or none; a wrapper stays.
    pub fn pass(&mut self, code: &Code, value: &Option<Word>)
        ensures { frame_of code.now self.new ≡ changed (activation_behind value.now) (frame_of code.now self.old) }
    {
        match self {
            Frame::Runs(run) => run.pass(code, value),
            Frame::Wraps { .. } => {}
        }
    }

    /// A running function goes past its next instruction, where that gives a value of its operands alone, for a unit of fuel. `false`,
    /// where it does not and in a wrapper; nothing changes then.
    pub fn give_next(&mut self, code: &Code) -> bool
        ensures gives { IsTrue result → (v : ImageThread) → (fs : List ImageFrame) → frame_step code.now v (frame_of code.now self.old ∷ fs) ≡ if_paid v (λ w. Goes (with_frames (frame_of code.now self.new ∷ fs) w)) }
        ensures stays { result ≡ false → self.new ≡ self.old }
    {
        match self {
            Frame::Runs(run) => run.give_next(code),
            Frame::Wraps { .. } => false,
        }
    }

    /// What it called has returned: a function goes past its instruction with the value, and a wrapper goes on with it.
    pub fn resume(&mut self, code: &Code, value: &Option<Word>)
        ensures { frame_of code.now self.new ≡ resumed value.now (frame_of code.now self.old) }
    {
        match self {
            Frame::Runs(run) => run.pass(code, value),
            Frame::Wraps { value: given, .. } => *given = *value,
        }
    }

    /// A wrapper goes past its line.
    pub(crate) fn pass_line(&mut self)
        ensures { Counts self.old → self.new ≡ past_line self.old }
    {
        match self {
            Frame::Runs(_) => {}
            Frame::Wraps { at, .. } => *at = at.saturating_add(1),
        }
    }

    /// A running function has room for bytes of the stack more.
    pub(crate) fn make_space(&mut self) -> Result<(), Memory>
        ensures space { OnOk result (HasSpace self.new) }
        ensures stays { (c : Images) → frame_of c self.new ≡ frame_of c self.old }
    {
        match self {
            Frame::Runs(run) => run.allocas.reserve(1)?,
            Frame::Wraps { .. } => {}
        }
        Ok(())
    }

    /// A running function has the bytes of the stack that it asked for, and goes past its instruction with their address.
    pub fn lodge(&mut self, code: &Code, at: u64, size: u64)
        ensures { HasSpace self.old → at + size ≤ 9223372036854775808 → frame_of code.now self.new ≡ changed (λ a. activation_behind (Some (word W64 at)) (with_alloca at size a)) (frame_of code.now self.old) }
    {
        match self {
            Frame::Runs(run) => {
                run.lodge(at, size);
                let address = Word {
                    width: Width::W64,
                    bits: at,
                };
                run.pass(code, &Some(address));
            }
            Frame::Wraps { .. } => {}
        }
    }

    /// A running function goes to the block with a number; `false`, where there is no such block, and in a wrapper.
    ///
    /// # Errors
    /// Want of memory, only where the block has phis; the function stays where it is.
    pub fn arrive(&mut self, alloc: Global, code: &Code, block: usize) -> Result<bool, Memory>
        ensures arrives { IfOk result (λ there. (run : Running) → runs self.old ≡ Some run → arrival code.now.program (run_of code.now run) (slice_get (run_of code.now run).blocks block) ≡ arrival_in there (frame_of code.now self.new)) }
        ensures there { IfOk result (λ there. IsTrue there → IsSome (runs self.new)) }
        ensures stays { OnErr result (frame_of code.now self.new ≡ frame_of code.now self.old) }
        ensures phis { OnErr result ((run : Running) → runs self.old ≡ Some run → IsSome (find is_phi (block_at (run_of code.now run).blocks block).code)) }
    {
        match self {
            Frame::Runs(run) => {
                let there = run.arrive(alloc, code, block)?;
                Ok(there)
            }
            Frame::Wraps { .. } => Ok(false),
        }
    }

    /// A running function goes past the guards and checks before its next other instruction; what they leave for that. None, in a
    /// wrapper.
    pub fn take_marks(&mut self, code: &Code) -> Option<Marks>
        ensures step { IfSome result (λ m. (v : ImageThread) → (fs : List ImageFrame) → marked_frame_step code.now None v (frame_of code.now self.old ∷ fs) ≡ marked_frame_step code.now (Some m) v (frame_of code.now self.new ∷ fs)) }
        ensures there { IfSome result (λ m. IsSome (runs self.new)) }
        ensures all { IsSome (runs self.new) → IsSome result }
        ensures stays { IsNone result → self.new ≡ self.old }
    {
        match self {
            Frame::Runs(run) => Some(run.take_marks(code)),
            Frame::Wraps { .. } => None,
        }
    }
}
