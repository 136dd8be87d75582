//! What runs with a seat.
use lx_model::request::{Reply, Request};
use lx_words::Memory;

/// What a thread runs outside the lock: it takes register steps up to its next request, and takes in the reply. `K` is
/// the code that it runs.
pub trait Asker<K> {
    ghost use Rattle.std.specs.Prelude.{ℕ};
    ghost use Rattle.lx_model.specs.declared.program.Program.{Program};
    ghost use Rattle.lx_model.specs.declared.request.Request.{Request};
    ghost use Rattle.lx_threads.specs.Machines.{Machine};

    /// The states of a thread.
    ghost Thread: { Type 0 };

    /// The program of the code.
    ghost program: { K → Program };

    /// What a thread of the code is as a machine.
    ghost machine: { K → Machine Thread };

    /// It stands for the state of the thread with this number.
    ghost stands: { K → ℕ → Self → Thread → Type 0 };

    /// It asks what the thread in this state asks.
    ghost asks: { K → ℕ → Self → Thread → Type 0 };

    /// It may lack memory for its steps where it has come to.
    ghost lacks: { K → Self → Type 0 };

    /// Threads ask only such requests.
    ghost fits: { Program → ℕ → Request → Type 0 };

    ghost use Rattle.std.specs.Prelude.{◌≡◌, ◌<◌, IsTrue, IfSome, IsSome, not, OnErr, OnOk};
    ghost use Rattle.lx_model.specs.Serve.{serve};
    ghost use Rattle.lx_model.specs.State.{State};

    /// Whether no work is left.
    fn done(&self) -> bool
        ensures { (code : K) (t : ℕ) (x : Thread) → stands code t self.now x → result ≡ not ((machine code).works x) };

    /// Takes register steps up to the next request.
    ///
    /// # Errors
    /// Want of memory, where it may lack it. A further call goes on from there.
    fn local(&mut self, code: &K) -> Result<(), Memory>
        ensures stands { (t : ℕ) (x : Thread) → stands code.now t self.old x → stands code.now t self.new x }
        ensures asks { OnOk result ((t : ℕ) (x : Thread) → t < 16 → stands code.now t self.old x → IsTrue ((machine code.now).works x) → asks code.now t self.new x) }
        ensures lacks { OnErr result (lacks code.now self.new) };

    /// What it asks, where it has come to a request.
    fn request(&self) -> Option<&Request>
        ensures some { (code : K) (t : ℕ) (x : Thread) → asks code t self.now x → IsSome result }
        ensures asked { IfSome result (λ r. (code : K) (t : ℕ) (x : Thread) → asks code t self.now x → r.now ≡ (machine code).asks t x) }
        ensures fits { IfSome result (λ r. (code : K) (t : ℕ) (x : Thread) → asks code t self.now x → fits (program code) t r.now) };

    /// Takes in the reply to what it asked.
    fn absorb(&mut self, code: &K, reply: &Reply)
        ensures { (t : ℕ) (x : Thread) (s : State) → asks code.now t self.old x → reply.now ≡ (serve (program code.now) s t ((machine code.now).asks t x)).reply
            → stands code.now t self.new ((machine code.now).absorbs t x reply.now) };
}
