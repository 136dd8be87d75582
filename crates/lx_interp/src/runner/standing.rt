//! Register steps up to the next request, and where in the code it is asked.
ghost use Rattle.std.specs.Prelude.{◌≡◌, ℕ, ◌≤◌, IsTrue, IfOk, OnOk, OnErr, IsSome, None, option_map};
ghost use Rattle.lx_model.specs.Thread.{has_call};
ghost use Rattle.lx_images.specs.Asker.{acting, code_place, image_asks_at};
ghost use Rattle.lx_images.specs.Image.{Code as Images, ImageThread, image_next};
ghost use Rattle.lx_frames.specs.Frames.{frames_of};
ghost use Rattle.lx_interp.specs.Lacks.{MayLack};
ghost use Rattle.lx_interp.specs.Places.{stand_in};
ghost use Rattle.lx_interp.specs.Runner.{GoesOn, IsAsking, IsAt, StandsFor, calls_left, events_left, request_of, thread_of};

use super::Runner;
use crate::standing::Standing;
use lx_image_code::Code;
use lx_words::Memory;

impl Runner {
    // Where the function stands for which the thread acts; none, where none is.
    fn standing(&self) -> Option<Standing>
        ensures { (c : Images) → option_map (stand_in c) result ≡ option_map code_place (acting (frames_of c self.now.stack.top self.now.stack.below)) }
    {
        match self.stack.acting() {
            Some(run) => Some(Standing::of(run)),
            None => None,
        }
    }

    // Steps up to the next request, and where the function stood at whose step it is asked.
    fn go_from(&mut self, code: &Code) -> Result<Option<Standing>, Memory>
        requires work { IsTrue (has_call (calls_left self.old)) }
        requires request { self.old.request ≡ None }
        ensures goes_on { GoesOn code.now self.old self.new }
        ensures from { IfOk result (λ at. self.old.marks ≡ None → option_map (stand_in code.now) at ≡ image_asks_at code.now (thread_of code.now self.old)) }
        ensures asks { OnOk result (IsSome self.new.request) }
        ensures asks_nothing { OnErr result (self.new.request ≡ None) }
        ensures lacks { OnErr result (MayLack code.now self.new) }
        ensures spares { events_left self.new ≤ events_left self.old }
    {
        let mut at = None;
        while self.request.is_none() {
            at = self.standing();
            self.take_next(code)?;
        }
        Ok(at)
    }

    /// Takes register steps up to the next request, as `local` does, and tells where in the code it is asked: where the function
    /// stood, before the marks of its instruction, at whose step the request was made; in a wrapper, the one that called it. None, where
    /// a script or the end of a call asks, and where no step was left to take, since something is asked already or no call is left. The
    /// place is exact where the runner was exactly at its thread, as it is opened and behind each reply; it need not be after `Memory`.
    ///
    /// # Errors
    /// Want of memory; the runner asks nothing yet, and a further call goes on from where this one stood.
    pub fn local_from(&mut self, code: &Code) -> Result<Option<Standing>, Memory>
        ensures stands { (t : ℕ) → (thread : ImageThread) → StandsFor code.now t self.old thread → StandsFor code.now t self.new thread }
        ensures asks { OnOk result ((t : ℕ) → (thread : ImageThread) → StandsFor code.now t self.old thread → IsTrue (has_call thread.calls) → IsAsking code.now t self.new (image_next code.now thread)) }
        ensures from { IfOk result (λ at. (t : ℕ) → (thread : ImageThread) → IsAt code.now t self.old thread → IsTrue (has_call thread.calls) → option_map (stand_in code.now) at ≡ image_asks_at code.now thread) }
        ensures calls { calls_left self.new ≡ calls_left self.old }
        ensures events { events_left self.new ≤ events_left self.old }
        ensures waits { OnOk result (IsTrue (has_call (calls_left self.old)) → IsSome (request_of self.new)) }
        ensures asks_nothing { OnErr result (request_of self.new ≡ None) }
        ensures lacks { OnErr result (MayLack code.now self.new) }
    {
        if self.request.is_some() || self.done() {
            return Ok(None);
        }
        let at = self.go_from(code)?;
        Ok(at)
    }
}
