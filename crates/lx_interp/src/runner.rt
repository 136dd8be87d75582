//! The runner.
ghost use Rattle.std.specs.Prelude.{◌≤◌, length, vec_capacity};

mod effects;
mod replies;
mod standing;
mod steps;
mod wrappers;

use crate::ending::Ending;
use lx_frames::FrameStack;
use lx_image_steps::Marks;
use lx_model::program::Calls;
use lx_model::request::{Outcome, Request};
use std::alloc::Global;

/// The runner of a thread: its calls and how the first of them ended, the fuel of the one that runs, an outcome that it comes
/// to, its frames with the principals of its wrappers, what guards and checks have left for the next instruction, if they have been
/// gone past already, and what it asks.
pub struct Runner {
    alloc: Global,
    thread: u32,
    calls: Calls,
    endings: Vec<Ending>,
    fuel: u32,
    due: Option<Outcome>,
    stack: FrameStack,
    marks: Option<Marks>,
    request: Option<Request>,
    ghost room: { length calls ≤ vec_capacity endings },
}

impl Drop for Runner {
    fn drop(self) {
        let Runner {
            alloc: _,
            thread: _,
            calls: _,
            endings: _,
            fuel: _,
            due: _,
            stack: _,
            marks: _,
            request: _,
        } = self;
    }
}
