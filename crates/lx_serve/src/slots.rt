//! Calls through a slot.
ghost use Rattle.std.specs.Prelude.{◌≡◌, ◌+◌, ◌≤◌, ◌^◌, ℕ};
ghost use Rattle.lx_model.specs.declared.request.What.TheVariants as what;
ghost use Rattle.lx_model.specs.declared.request.Way.TheVariants as way;
ghost use Rattle.lx_model.specs.Enter.{by_writers, slot_target, slot_writers};
ghost use Rattle.lx_model.specs.Program.{function_at};
ghost use Rattle.lx_model.specs.State.{State};
ghost use Rattle.lx_serve.specs.Sources.{IsLinked};
ghost use Rattle.lx_serve.specs.Stands.{Keeps, Tries};
ghost use Rattle.lx_serve.specs.Targets.{Finds, unless_allowed, unless_slot};
ghost use Rattle.lx_writer_sets.specs.RecordedStands.{spare_of};

use crate::halt::Halt;
use crate::monitor::Monitor;
use crate::space::read;
use crate::targets::{clean_target, fitting, written_target};
use crate::terms::unless_mapped;
use lx_call_targets::{SlotWriters, is_module_function, slot_writers};
use lx_caps::{CapStore, Principal};
use lx_model::program::Program;
use lx_model::request::{Outcome, Refusal, Reply};
use lx_words::Words;

impl<C: CapStore + Drop> Monitor<C> {
    ghost use Rattle.std.specs.Prelude.{◌≡◌, ◌<◌, ◌≤◌, true};

    /// The function at the address in a slot, where the slot's writers allow it: each of them has to hold the call, and, where
    /// there is one, the function to have the annotation of the slot type.
    #[tactic(auto, using(crate::proofs::Targeted::by_nobody, crate::proofs::Targeted::by_holders, crate::proofs::Targeted::by_lacking))]
    fn by_writers(
        &self,
        program: &Program,
        who: Principal,
        slot: u64,
        ty: u32,
        at: u64,
    ) -> Result<u32, Halt>
        requires linked { IsLinked program.now }
        requires slot { slot + 8 ≤ 2 ^ 64 }
        ensures { (s : State) → Keeps C.stands program.now self.now s
            → Finds (function_at program.now at) (by_writers program.now s who slot ty at (function_at program.now at) (slot_writers program.now s slot)) result }
    {
        let seen = slot_writers(&self.caps, &self.names, slot, at);
        match seen {
            SlotWriters::Nobody => clean_target(program, &self.sources, who, at),
            SlotWriters::AllHold => {
                written_target(program, &self.texts, &self.sources, who, at, ty)
            }
            SlotWriters::Lacks(writer) => Err(Halt::Ended(Outcome::Refused(Refusal::Writer {
                who: writer,
                at,
                slot,
            }))),
        }
    }

    /// The function at the address in a slot, where a slot of that type may hold it.
    #[tactic(auto, using(crate::proofs::Targeted::first_decides, crate::proofs::Targeted::second_decides))]
    fn allowed(
        &self,
        program: &Program,
        who: Principal,
        slot: u64,
        ty: u32,
        at: u64,
    ) -> Result<u32, Halt>
        requires linked { IsLinked program.now }
        requires slot { slot + 8 ≤ 2 ^ 64 }
        ensures { (s : State) → Keeps C.stands program.now self.now s
            → Finds (function_at program.now at) (unless_allowed program.now s who slot ty at) result }
    {
        let function = self.by_writers(program, who, slot, ty, at)?;
        fitting(program, ty, at, function)
    }

    /// The function that a slot holds, where a call through the slot may enter it.
    #[tactic(auto, using(lx_caps::proofs::Covering::slot_end, crate::proofs::Targeted::slot_unmapped, crate::proofs::Targeted::slot_mapped))]
    fn in_slot(&self, program: &Program, who: Principal, slot: u64, ty: u32) -> Result<u32, Halt>
        requires { IsLinked program.now }
        ensures { (s : State) → Keeps C.stands program.now self.now s
            → Finds (slot_target program.now s slot) (unless_slot program.now s who slot ty) result }
    {
        match unless_mapped(slot, 8) {
            Some(outcome) => Err(Halt::Ended(outcome)),
            None => self.allowed(program, who, slot, ty, read(&self.space, slot, 8)),
        }
    }

    /// A call through a slot.
    #[tactic(auto, using(crate::proofs::Targeted::slot_stops, crate::proofs::Targeted::slot_halts, crate::proofs::Targeted::slot_enters))]
    pub(crate) fn enter_slot(
        &mut self,
        program: &Program,
        who: Principal,
        slot: u64,
        ty: u32,
        args: &Words,
    ) -> Result<Reply, Halt>
        requires { IsLinked program.now }
        ensures tries { (s : State) (t : ℕ) → Keeps C.stands program.now self.old s
            → Tries C.stands program.now self.new s t who (what.Enter (way.Slot slot ty) args.now) result }
        ensures spare { spare_of C.spare self.new.caps ≡ spare_of C.spare self.old.caps }
    {
        let function = self.in_slot(program, who, slot, ty)?;
        let principal = self.run_in(program, function, args)?;
        Ok(Reply::Entered {
            function,
            principal,
            crosses: is_module_function(program, function),
        })
    }
}
