//! What the lock wants of the part in it.
use lx_model::request::{Reply, Request};
use lx_words::Memory;

/// What serves requests one after the other, as the monitor of one program does.
pub trait Part {
    ghost use Rattle.std.specs.Prelude.{ℕ};
    ghost use Rattle.lx_model.specs.State.{State};
    ghost use Rattle.lx_model.specs.declared.program.Program.{Program};
    ghost use Rattle.lx_model.specs.declared.request.Request.{Request};

    /// The program whose requests are served. No call changes it.
    ghost program: { Self → Program };

    /// The part stands for the state.
    ghost stands: { Self → State → Type 0 };

    /// The request of the thread with this number may be served.
    ghost takes: { Program → ℕ → Request → Type 0 };

    /// The part may lack the memory for the request of the thread.
    ghost lacks: { Self → ℕ → Request → Type 0 };

    ghost use Rattle.std.specs.Prelude.{◌≡◌, IfOk, OnErr};
    ghost use Rattle.lx_model.specs.Fits.{Fits};
    ghost use Rattle.lx_model.specs.Serve.{serve};
    ghost use Rattle.lx_caplock.specs.Serving.{IsServed};

    /// Serves a request of the thread: answers as the monitor does, and stands for the state that the monitor leaves.
    ///
    /// # Errors
    /// Want of memory, where the part may lack it. It leaves what the part stands for.
    fn serve(&mut self, thread: u32, request: &Request) -> Result<Reply, Memory>
        requires { takes (program self.old) thread request.now }
        ensures program { program self.new ≡ program self.old }
        ensures served { IfOk result (λ reply. (s : State) → stands self.old s → IsServed stands self.new reply (serve (program self.old) s thread request.now)) }
        ensures memory { OnErr result ((s : State) → stands self.old s → stands self.new s) }
        ensures lacks { OnErr result (lacks self.old thread request.now) };

    /// What a lawful caller asks may be served.
    ghost takes_fitting: { (p : Program) (t : ℕ) (r : Request) → Fits p t r → takes p t r };
}
