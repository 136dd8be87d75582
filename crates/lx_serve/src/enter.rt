//! Calls that enter a function, and as whom it runs.
ghost use Rattle.std.specs.Prelude.{◌≡◌, ℕ, List, IsTrue, None, Some, option_copied, unwrap_or};
ghost use Rattle.lx_words.specs.Word.{Word};
ghost use Rattle.lx_annot.specs.Value.{value};
ghost use Rattle.lx_caps.specs.Memory.{Memory as Writes, load64};
ghost use Rattle.lx_caps.specs.declared.Principal.{Principal};
ghost use Rattle.lx_actions.specs.Shown.{IsShownBy};
ghost use Rattle.lx_model.specs.declared.program.Program.{Program};
ghost use Rattle.lx_model.specs.declared.request.What.TheVariants as what;
ghost use Rattle.lx_model.specs.declared.request.Way.TheVariants as way;
ghost use Rattle.lx_model.specs.Enter.{instance_named, runs_by, runs_in};
ghost use Rattle.lx_model.specs.Program.{home_of, is_in, no_annotation};
ghost use Rattle.lx_model.specs.State.{State};
ghost use Rattle.lx_serve.specs.Entering.{IsInstance, IsValue, RunsAs};
ghost use Rattle.lx_serve.specs.Stands.{Keeps, Tries};
ghost use Rattle.lx_writer_sets.specs.RecordedStands.{spare_of};

use crate::halt::Halt;
use crate::monitor::Monitor;
use crate::source::annotation_of;
use crate::terms::unmapped;
use lx_actions::SpaceLook;
use lx_annot::action::{Annotation, Who};
use lx_annot::expr::Expr;
use lx_annot::value::value_at_entry;
use lx_call_targets::{home_of, is_module_function};
use lx_caps::{CapStore, Principal};
use lx_memory::Space;
use lx_model::program::Program;
use lx_model::request::Reply;
use lx_words::{Memory, Words};

fn principal_of(annotation: Option<&Annotation>) -> Option<&Who>
    ensures { option_copied result ≡ (unwrap_or (option_copied annotation.entry) no_annotation).principal }
{
    match annotation {
        Some(annotation) => annotation.principal.as_ref(),
        None => None,
    }
}

/// The value of a principal's expression. It takes no memory.
fn value_of(space: &Space, e: &Expr, args: &Words) -> Result<u64, Halt>
    ensures { (m : Writes) → IsShownBy space.now m → IsValue (value (load64 m) (record { args = args.now; ret = None }) e.now) result }
{
    match value_at_entry(e, args.as_slice(), &SpaceLook { space }) {
        Ok(value) => Ok(value),
        Err(fault) => Err(Halt::Ended(unmapped(fault.at))),
    }
}

impl<C: CapStore + Drop> Monitor<C> {
    ghost use Rattle.std.specs.Prelude.{◌≡◌, ◌<◌, ◌≤◌, true};

    /// The instance with this name, which is made where the value names nobody. A module that the part does not know is
    /// want of memory.
    fn instance(&mut self, home: u32, value: u64) -> Result<Principal, Memory>
        ensures named { (p : Program) (s : State) → Keeps C.stands p self.old s → IsInstance C.stands p self.new s (instance_named s.names home value) result }
        ensures spare { spare_of C.spare self.new.caps ≡ spare_of C.spare self.old.caps }
    {
        if home as usize >= self.names.modules() {
            return Err(Memory);
        }
        let principal = self.names.named(home, value)?;
        Ok(principal)
    }

    /// As whom a module's function runs whose annotation tells it.
    fn run_as(&mut self, home: u32, who: &Who, args: &Words) -> Result<Principal, Halt>
        ensures runs { (p : Program) (s : State) → Keeps C.stands p self.old s
            → RunsAs C.stands p self.new s (runs_by s home args.now (Some who.now)) result }
        ensures spare { spare_of C.spare self.new.caps ≡ spare_of C.spare self.old.caps }
    {
        match who {
            Who::Shared => Ok(Principal::Shared(home)),
            Who::Global => Ok(Principal::Global(home)),
            Who::Value(e) => {
                let value = value_of(&self.space, e, args)?;
                let principal = self.instance(home, value)?;
                Ok(principal)
            }
        }
    }

    /// As whom a module's function runs.
    fn run_by(&mut self, home: u32, who: Option<&Who>, args: &Words) -> Result<Principal, Halt>
        ensures runs { (p : Program) (s : State) → Keeps C.stands p self.old s
            → RunsAs C.stands p self.new s (runs_by s home args.now (option_copied who.entry)) result }
        ensures spare { spare_of C.spare self.new.caps ≡ spare_of C.spare self.old.caps }
    {
        match who {
            Some(who) => self.run_as(home, who, args),
            None => Ok(Principal::Shared(home)),
        }
    }

    /// As whom a function runs that is called across texts.
    pub(crate) fn run_in(
        &mut self,
        program: &Program,
        function: u32,
        args: &Words,
    ) -> Result<Principal, Halt>
        ensures runs { (s : State) → Keeps C.stands program.now self.old s
            → RunsAs C.stands program.now self.new s (runs_in program.now s function args.now (home_of program.now function)) result }
        ensures spare { spare_of C.spare self.new.caps ≡ spare_of C.spare self.old.caps }
    {
        match home_of(program, function) {
            Some(Some(home)) => {
                let annotation = annotation_of(program, &self.sources, function);
                self.run_by(home, principal_of(annotation), args)
            }
            Some(None) => Ok(Principal::Kernel),
            None => Ok(Principal::Kernel),
        }
    }

    /// A script's call.
    pub(crate) fn enter_script(
        &mut self,
        program: &Program,
        function: u32,
        args: &Words,
    ) -> Result<Reply, Halt>
        ensures tries { (s : State) (t : ℕ) (by : Principal) → Keeps C.stands program.now self.old s
            → Tries C.stands program.now self.new s t by (what.Enter (way.Script function) args.now) result }
        ensures spare { spare_of C.spare self.new.caps ≡ spare_of C.spare self.old.caps }
    {
        let principal = self.run_in(program, function, args)?;
        Ok(Reply::Entered {
            function,
            principal,
            crosses: is_module_function(program, function),
        })
    }

    /// A module's call of a function of the kernel.
    pub(crate) fn enter_kernel(&self, function: u32) -> Result<Reply, Halt>
        ensures { (p : Program) (s : State) (t : ℕ) (by : Principal) (args : List Word) → Keeps C.stands p self.now s → IsTrue (is_in p None function)
            → Tries C.stands p self.now s t by (what.Enter (way.Direct function) args) result }
    {
        Ok(Reply::Entered {
            function,
            principal: Principal::Kernel,
            crosses: true,
        })
    }
}
