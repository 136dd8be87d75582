//! The frames below the top one.
ghost use Rattle.std.specs.Prelude.{◌≡◌, ◌+◌, ◌-◌, ◌<◌, ◌≤◌, ◌∷◌, ◌++◌, [], IfSome, OnErr, OnOk, option_copied, vec_capacity, vec_len};
ghost use Rattle.lx_frames.specs.Frames.{high_in, newest, older, running_in, running_on};

use crate::frame::Frame;
use lx_image_steps::Activation;
use lx_words::Memory;
use std::alloc::Global;
use std::marker::Model;

/// The frames below the top one, and how many of them run a function. Contracts see the frames, the newest first, and the room
/// for more.
pub struct Callers {
    frames: Vec<Frame>,
    running: usize,
}

impl Drop for Callers {
    fn drop(self) {
        let Callers {
            frames: _,
            running: _,
        } = self;
    }
}

impl Model for Callers {
    ghost use Rattle.std.specs.Prelude.{◌≡◌, ◌-◌, reverse, vec_capacity, vec_len};
    ghost use Rattle.lx_frames.specs.Frames.{Stack, running_in};

    ghost Value = { Stack };

    ghost view = { λ s. record { frames = reverse s.frames.items; room = vec_capacity s.frames - vec_len s.frames } };

    ghost invariant = { λ s. s.running ≡ running_in s.frames.items };
}

// How many functions a frame runs: one, or none.
fn count_of(frame: &Frame) -> usize
    ensures count { result ≡ running_in (frame.now ∷ []) }
    ensures one { result ≤ 1 }
{
    match frame.running() {
        Some(_) => 1,
        None => 0,
    }
}

// A frame goes to the end, for which there is room.
fn append(frames: &mut Vec<Frame>, frame: Frame)
    requires { vec_len frames.old < vec_capacity frames.old }
    ensures items { frames.new.items ≡ frames.old.items ++ frame ∷ [] }
    ensures room { vec_capacity frames.old - vec_len frames.old ≤ vec_capacity frames.new - vec_len frames.new + 1 }
{
    if frames.push(frame).is_err() {
        unreachable!()
    }
}

impl Callers {
    /// No frame.
    pub(crate) fn new(alloc: Global) -> Self
        ensures { result.frames ≡ [] }
    {
        Callers {
            frames: Vec::new(alloc),
            running: 0,
        }
    }

    /// Makes room for so many frames more. Where there is room for them already, this takes no memory.
    ///
    /// # Errors
    /// Want of memory; the frames stay.
    pub fn reserve(&mut self, count: usize) -> Result<(), Memory>
        ensures room { OnOk result (count ≤ self.new.room) }
        ensures full { OnErr result (self.old.room < count) }
        ensures stays { self.new.frames ≡ self.old.frames }
    {
        self.frames.reserve(count)?;
        Ok(())
    }

    /// How many frames there is room for.
    pub(crate) fn room(&self) -> usize
        ensures { result ≡ self.now.room }
    {
        self.frames.capacity() - self.frames.len()
    }

    /// A frame stands on the others. This takes no memory.
    pub(crate) fn push(&mut self, frame: Frame)
        requires { 0 < self.old.room }
        ensures on_top { self.new.frames ≡ frame ∷ self.old.frames }
        ensures takes { self.old.room ≤ self.new.room + 1 }
    {
        self.running += count_of(&frame);
        append(&mut self.frames, frame);
    }

    /// Takes the newest frame away; none, where there is none.
    pub fn pop(&mut self) -> Option<Frame>
        ensures popped { result ≡ newest self.old.frames }
        ensures rest { self.new.frames ≡ older self.old.frames }
        ensures grows { self.old.room ≤ self.new.room }
    {
        match self.frames.pop() {
            Some(frame) => {
                self.running -= count_of(&frame);
                Some(frame)
            }
            None => None,
        }
    }

    /// No frame is left.
    pub(crate) fn clear(&mut self)
        ensures empty { self.new.frames ≡ [] }
        ensures grows { self.old.room ≤ self.new.room }
    {
        self.frames.clear();
        self.running = 0;
    }

    /// How many frames run a function.
    pub(crate) fn running(&self) -> usize
        ensures { result ≡ running_in self.now.frames }
    {
        self.running
    }

    /// The function that runs in the newest frame; none, where a wrapper or nothing does.
    pub(crate) fn newest(&self) -> Option<&Activation>
        ensures { option_copied result ≡ running_on (newest self.now.frames) }
    {
        match self.frames.last() {
            Some(frame) => frame.running(),
            None => None,
        }
    }

    /// Where the stack of the newest function that runs ends; none, where none runs. Wrappers are passed over: there is at most one
    /// between two functions of accepted code.
    pub(crate) fn high(&self) -> Option<u64>
        ensures high { result ≡ high_in self.now.frames }
        ensures small { IfSome result (λ high. high ≤ 9223372036854775808) }
    {
        let mut left = self.frames.len();
        while left > 0 {
            left -= 1;
            if let Some(run) = self.frames[left].running() {
                return Some(run.high);
            }
        }
        None
    }
}

/// Where the stack of the newest function that runs ends, with a frame on others; none, where none runs.
pub(crate) fn high_of(top: &Frame, below: &Callers) -> Option<u64>
    ensures high { result ≡ high_in (top.now ∷ below.now.frames) }
    ensures small { IfSome result (λ high. high ≤ 9223372036854775808) }
{
    match top.running() {
        Some(run) => Some(run.high),
        None => below.high(),
    }
}
