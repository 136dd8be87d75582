//! Calls by an address.
ghost use Rattle.std.specs.Prelude.{◌≡◌, ℕ};
ghost use Rattle.lx_model.specs.declared.request.What.TheVariants as what;
ghost use Rattle.lx_model.specs.declared.request.Way.TheVariants as way;
ghost use Rattle.lx_model.specs.Program.{function_at};
ghost use Rattle.lx_model.specs.State.{State};
ghost use Rattle.lx_serve.specs.Entering.{RunsAs, runs_called};
ghost use Rattle.lx_serve.specs.Sources.{IsLinked};
ghost use Rattle.lx_serve.specs.Stands.{Keeps, Tries};
ghost use Rattle.lx_serve.specs.Targets.{Finds, unless_called};
ghost use Rattle.lx_writer_sets.specs.RecordedStands.{spare_of};

use crate::halt::Halt;
use crate::monitor::Monitor;
use crate::targets::{target, text_of};
use lx_call_targets::is_in;
use lx_caps::{Cap, CapStore, Principal};
use lx_model::program::Program;
use lx_model::request::{Outcome, Refusal, Reply};
use lx_words::Words;

impl<C: CapStore + Drop> Monitor<C> {
    ghost use Rattle.std.specs.Prelude.{◌≡◌, ◌<◌, ◌≤◌, true};

    /// The function at an address that a principal may call with these arguments. The call has to be held.
    #[tactic(auto, using(crate::proofs::Targeted::call_held, crate::proofs::Targeted::call_lacking))]
    fn called(&self, program: &Program, who: Principal, at: u64, args: &Words) -> Result<u32, Halt>
        requires { IsLinked program.now }
        ensures { (s : State) → Keeps C.stands program.now self.now s
            → Finds (function_at program.now at) (unless_called program.now s who at args.now) result }
    {
        if self.caps.holds(who, Cap::Call { at }) {
            target(program, &self.sources, who, at, args.as_slice())
        } else {
            Err(Halt::Ended(Outcome::Refused(Refusal::Call { who, at })))
        }
    }

    /// As whom a function runs that is called by an address: inside one text the principal stays.
    #[tactic(auto, using(crate::proofs::Targeted::run_inside, crate::proofs::Targeted::run_across))]
    fn run_called(
        &mut self,
        program: &Program,
        who: Principal,
        function: u32,
        args: &Words,
    ) -> Result<Principal, Halt>
        ensures runs { (s : State) → Keeps C.stands program.now self.old s
            → RunsAs C.stands program.now self.new s (runs_called program.now s who function args.now) result }
        ensures spare { spare_of C.spare self.new.caps ≡ spare_of C.spare self.old.caps }
    {
        if is_in(program, text_of(who), function) {
            Ok(who)
        } else {
            self.run_in(program, function, args)
        }
    }

    /// A call by an address.
    #[tactic(auto, using(crate::proofs::Targeted::address_stops, crate::proofs::Targeted::address_halts, crate::proofs::Targeted::address_enters))]
    pub(crate) fn enter_address(
        &mut self,
        program: &Program,
        who: Principal,
        at: u64,
        args: &Words,
    ) -> Result<Reply, Halt>
        requires { IsLinked program.now }
        ensures tries { (s : State) (t : ℕ) → Keeps C.stands program.now self.old s
            → Tries C.stands program.now self.new s t who (what.Enter (way.Indirect at) args.now) result }
        ensures spare { spare_of C.spare self.new.caps ≡ spare_of C.spare self.old.caps }
    {
        let function = self.called(program, who, at, args)?;
        let principal = self.run_called(program, who, function, args)?;
        Ok(Reply::Entered {
            function,
            principal,
            crosses: !is_in(program, text_of(who), function),
        })
    }
}
