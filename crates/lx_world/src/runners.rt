//! The runners of a world.
ghost use Rattle.std.specs.Prelude.{◌≡◌, ◌<◌, ◌≤◌, length, map, slice_index_or, IfOk};
ghost use Rattle.std.specs.Borrow.{sem};
ghost use Rattle.std.specs.List.{sum_by};
ghost use Rattle.lx_interp.specs.Runner.{calls_left, events_left};
ghost use Rattle.lx_images.specs.ImageWorld.{fresh_image_thread};

use lx_interp::{Code, Runner};
use lx_model::program::Calls;
use lx_words::Memory;
use std::alloc::Global;

/// A runner for each thread, of which there are at most 16.
pub struct Runners {
    pub(crate) list: Vec<Runner>,
    ghost few: { length list.items ≤ 16 },
}

impl Drop for Runners {
    fn drop(self) {
        let Runners { list: _ } = self;
    }
}

impl Runners {
    ghost use Rattle.lx_world.specs.Exact.{AreAt};
    ghost use Rattle.lx_world.specs.Parts.{list_of};
    ghost use Rattle.lx_world.specs.Lending.{LendsRunner};
    ghost use Rattle.lx_world.specs.Worlds.{AllStand, script_calls, script_events};

    /// A runner for each list of calls.
    pub(crate) fn open(alloc: Global, code: &Code, script: &[Calls]) -> Result<Self, Memory>
        requires { length script.now ≤ 16 }
        ensures stand { IfOk result (λ runners. AllStand code.now 0 runners.list.items (map fresh_image_thread script.now)) }
        ensures exact { IfOk result (λ runners. AreAt code.now runners.list.items (map fresh_image_thread script.now)) }
        ensures events { IfOk result (λ runners. sum_by events_left runners.list.items ≡ script_events script.now) }
        ensures calls { IfOk result (λ runners. sum_by (λ r. length (calls_left r)) runners.list.items ≡ script_calls script.now) }
    {
        let mut list = Vec::with_capacity(alloc, script.len())?;
        for calls in script {
            let thread = list.len() as u32;
            let runner = Runner::open(alloc, thread, calls)?;
            list.push(runner)?;
        }
        Ok(Runners { list })
    }

    /// The runner of a thread.
    pub fn at(&mut self, thread: u32) -> &mut Runner
        requires { thread < length (list_of self.old) }
        ensures value { result.now ≡ slice_index_or (list_of self.old) thread result.now }
        ensures* stays { sem 𝓛 (LendsRunner self.entry thread result) }
    {
        &mut self.list[thread as usize]
    }

    /// The runners by value, by thread.
    pub fn into_list(self) -> Vec<Runner>
        ensures list { result.items ≡ list_of self }
        ensures few { length result.items ≤ 16 }
    {
        let Runners { list } = self;
        list
    }

    /// The runners of a list, by thread.
    pub fn of_list(list: Vec<Runner>) -> Runners
        requires { length list.items ≤ 16 }
        ensures { list_of result ≡ list.items }
    {
        Runners { list }
    }
}
