//! A run that tells each event with its place.
ghost use Rattle.std.specs.Prelude.{◌≡◌, ◌≤◌, [], ℕ, IfOk, IsErrOf, List, length, option_map};
ghost use Rattle.lx_annotation_tables.specs.Entries.{all_annotated};
ghost use Rattle.lx_code_lines.specs.Lines.{AreLinesOf};
ghost use Rattle.lx_images.specs.Image.{Code};
ghost use Rattle.lx_images.specs.ImageWorld.{ImageWorld};
ghost use Rattle.lx_interp.specs.Places.{stand_in};
ghost use Rattle.lx_link_texts.specs.WellFormed.{IsWellFormed};
ghost use Rattle.lx_model.specs.declared.program.Program.{Program};
ghost use Rattle.lx_model.specs.declared.program.ScriptCall.{ScriptCall};
ghost use Rattle.lx_opening.specs.Differing.{IsFirstDifferent};
ghost use Rattle.lx_opening.specs.declared.fault.OpenFault.{OpenFault};
ghost use Rattle.lx_code_lines.specs.Place.{image_place};
ghost use Rattle.lx_simulation.specs.Accepted.{AreAccepted};
ghost use Rattle.lx_simulation.specs.Images.{AreFullImages};
ghost use Rattle.lx_trace.specs.Asked.{answered, asked_by, asked_if};
ghost use Rattle.lx_trace.specs.Trace.{behind, site_of, traced_at};

use lx_caps::CapStore;
use lx_code_lines::{Lines, place_laws};
use lx_image_check::Checked;
use lx_model::account::{Account, ImageCount};
use lx_model::program::{Calls, Program};
use lx_model::request::{Reply, Request};
use lx_opening::{OpenFault, open_world};
use lx_simulation::simulation_laws;
use lx_slot_types::Annotated;
use lx_trace_text::{Site, Traced, request_copy};
use lx_words::{Items, Memory, number_of};
use lx_world::{EventFault, Standing, World};
use std::alloc::Global;

/// A run of a program's images, in which each store has its guard, with the lines of the program's text at which they stand.
#[derive(Drop)]
pub struct TraceRun<C: CapStore + Drop> {
    world: World<C>,
    lines: Lines,
}

/// What is known of an event before it is served: its call, the place, and a copy of what is asked.
#[derive(Drop)]
struct Asked {
    call: u32,
    function: u32,
    site: Option<Site>,
    request: Request,
}

/// The line of a place, if it has one.
fn site_at(lines: &Lines, at: Option<Standing>) -> Option<Site>
    ensures { (c : Code) → AreLinesOf c lines.now → result ≡ site_of c.program (option_map image_place (option_map (stand_in c) at)) }
{
    match at {
        None => None,
        Some(at) => match lines.line(at) {
            None => None,
            Some(line) => Some(Site {
                function: at.function,
                line,
            }),
        },
    }
}

/// The event of what is asked, with its reply.
fn answered(thread: u32, asked: Asked, reply: Reply) -> Traced
    ensures { result ≡ answered thread asked reply }
{
    let Asked {
        call,
        function,
        site,
        request,
    } = asked;
    Traced {
        thread,
        call,
        function,
        site,
        request,
        reply,
    }
}

impl<C: CapStore + Drop> TraceRun<C> {
    ghost use Rattle.std.specs.Prelude.{◌++◌, ◌∷◌, ◌↔◌, Some, false, slice_get, OnErr, OnOk};
    ghost use Rattle.lx_model.specs.Account.{account};
    ghost use Rattle.lx_model.specs.World.{can_act, is_done};
    ghost use Rattle.lx_runs.specs.Runs.{images_of};
    ghost use Rattle.lx_trace.specs.Run.{IsOfRun, IsPrepared, StandsForTrace};
    ghost use Rattle.lx_why.specs.Opened.{IsFullOpening};
    ghost use Rattle.lx_world.specs.InCall.{call_at};
    ghost use Rattle.lx_world.specs.Wants.{asked_of};
    ghost use Rattle.lx_world.specs.Worlds.{StandsForWorld};
    ghost use Rattle.lx_world.specs.declared.fault.EventFault.{EventFault};

    /// The run of a script, a list of calls for each thread, before its first event: over a well-formed program and checked images of its
    /// modules, one for each in the modules' order, in which each store and block write has its guard. `annotated` has the functions of
    /// each module that get a slot type, and `caps` is new.
    ///
    /// # Errors
    /// Those of [`open_world`].
    pub fn open(
        alloc: Global,
        program: Program,
        images: Vec<Checked>,
        script: &[Calls],
        annotated: &[Annotated],
        caps: C,
    ) -> Result<Self, OpenFault>
        requires well_formed { IsWellFormed program }
        requires annotated { annotated.now ≡ all_annotated program }
        requires threads { length script.now ≤ 16 }
        requires new { C.stands caps [] }
        requires count { length images.items ≡ length program.modules }
        requires accepted { AreAccepted program images.items }
        requires full { AreFullImages program images.items }
        ensures opens { IfOk result (λ run. StandsForTrace C.stands program script.now [] run) }
        ensures differs { (n : ℕ) → IsErrOf result (OpenFault.ImageDiffers n) → IsFirstDifferent program images.items n }
    {
        simulation_laws();
        let world = open_world(alloc, program, images, script, annotated, caps)?;
        let run = Self::over(alloc, world)?;
        Ok(run)
    }

    /// The run of a world that is opened over images in which each store and block write has its guard.
    ///
    /// # Errors
    /// Want of memory; more functions than a number of 32 bits counts are that too.
    pub fn over(alloc: Global, world: World<C>) -> Result<Self, Memory>
        requires { (p : Program) × (script : List (List ScriptCall)) × IsFullOpening C.stands p script world }
        ensures { IfOk result (λ run. (p : Program) (script : List (List ScriptCall)) → IsFullOpening C.stands p script world → StandsForTrace C.stands p script [] run) }
    {
        match Lines::new(alloc, world.code()) {
            Ok(lines) => Ok(TraceRun { world, lines }),
            Err(why) => {
                drop(world);
                Err(why)
            }
        }
    }

    /// What a thread that has taken its register steps asks for, at this place of the images; nothing, where no call is left.
    fn asked(
        &self,
        alloc: Global,
        thread: u32,
        at: Option<Standing>,
    ) -> Result<Option<Asked>, Memory>
        ensures { IfOk result (λ found. (c : Code) (v : ImageWorld) → StandsForWorld C.stands c self.now.world v → AreLinesOf c self.now.lines
            → found ≡ asked_if (site_of c.program (option_map image_place (option_map (stand_in c) at))) (call_at v thread) (asked_of self.now.world thread)) }
    {
        let Some((ended, function)) = self.world.call(thread) else {
            return Ok(None);
        };
        let Some(request) = self.world.request(thread) else {
            return Ok(None);
        };
        let call = number_of(ended)?;
        let request = request_copy(alloc, request)?;
        Ok(Some(Asked {
            call,
            function,
            site: site_at(&self.lines, at),
            request,
        }))
    }

    /// Takes the register steps of a thread that are due, and tells what is known of its next event.
    fn prepare(&mut self, alloc: Global, thread: u32) -> Result<Asked, EventFault>
        ensures asked { IfOk result (λ asked. (p : Program) (script : List (List ScriptCall)) (s : List ℕ) → StandsForTrace C.stands p script s self.old
            → option_map (asked_by p thread) (slice_get (behind p script s).threads thread) ≡ Some asked) }
        ensures stands { (p : Program) (script : List (List ScriptCall)) (s : List ℕ) → StandsForTrace C.stands p script s self.old → IsPrepared C.stands p script s thread self.new }
        ensures no_work { (p : Program) (script : List (List ScriptCall)) (s : List ℕ) → StandsForTrace C.stands p script s self.old
            → IsErrOf result (EventFault.NoWork thread) ↔ (can_act (behind p script s) thread ≡ false) }
        ensures number { (n : ℕ) → IsErrOf result (EventFault.NoWork n) → n ≡ thread }
        ensures unchanged { (p : Program) (script : List (List ScriptCall)) (s : List ℕ) → StandsForTrace C.stands p script s self.old
            → IsErrOf result (EventFault.NoWork thread) → self.new ≡ self.old }
    {
        simulation_laws();
        place_laws();
        let at = self.world.local_from(thread)?;
        match self.asked(alloc, thread, at)? {
            Some(asked) => Ok(asked),
            None => Err(EventFault::NoWork { thread }),
        }
    }

    /// One event of a thread: which call it belongs to, the line of the text at which it is asked for, what is asked, and what is replied.
    ///
    /// # Errors
    /// `NoWork` exactly where there is no such thread or it has no call left, which changes nothing. After `Memory` only register steps of
    /// that thread may have gone on; then its next event is the same, but where it is asked for may not be told any more. More calls of a
    /// thread than a number of 32 bits counts are want of memory too.
    pub fn step(&mut self, alloc: Global, thread: u32) -> Result<Traced, EventFault>
        ensures traced { IfOk result (λ e. (p : Program) (script : List (List ScriptCall)) (s : List ℕ) → StandsForTrace C.stands p script s self.old
            → traced_at p thread (behind p script s) ≡ Some e) }
        ensures event { OnOk result ((p : Program) (script : List (List ScriptCall)) (s : List ℕ) → StandsForTrace C.stands p script s self.old
            → StandsForTrace C.stands p script (s ++ thread ∷ []) self.new) }
        ensures fault { OnErr result ((p : Program) (script : List (List ScriptCall)) (s : List ℕ) → StandsForTrace C.stands p script s self.old
            → IsOfRun C.stands p script s self.new) }
        ensures no_work { (p : Program) (script : List (List ScriptCall)) (s : List ℕ) → StandsForTrace C.stands p script s self.old
            → IsErrOf result (EventFault.NoWork thread) ↔ (can_act (behind p script s) thread ≡ false) }
        ensures number { (n : ℕ) → IsErrOf result (EventFault.NoWork n) → n ≡ thread }
        ensures unchanged { (p : Program) (script : List (List ScriptCall)) (s : List ℕ) → StandsForTrace C.stands p script s self.old
            → IsErrOf result (EventFault.NoWork thread) → self.new ≡ self.old }
    {
        simulation_laws();
        let asked = self.prepare(alloc, thread)?;
        match self.world.answer(thread) {
            Ok(reply) => Ok(answered(thread, asked, reply)),
            Err(fault) => {
                drop(asked);
                Err(fault)
            }
        }
    }

    /// Whether no thread has a call left.
    pub fn done(&self) -> bool
        ensures { (p : Program) (script : List (List ScriptCall)) (s : List ℕ) → IsOfRun C.stands p script s self.now → result ≡ is_done (behind p script s) }
    {
        simulation_laws();
        self.world.done()
    }

    /// The program that runs.
    pub fn program(&self) -> &Program
        ensures { (p : Program) (script : List (List ScriptCall)) (s : List ℕ) → IsOfRun C.stands p script s self.now → result.now ≡ p }
    {
        self.world.program()
    }

    /// The account of the run so far, as [`World::account`] has it. `images` is what the images of the program's modules have beyond the modules.
    ///
    /// # Errors
    /// Those of [`World::account`].
    pub fn account(&self, alloc: Global, images: Items<ImageCount>) -> Result<Account, Memory>
        requires { (p : Program) × (script : List (List ScriptCall)) × (s : List ℕ) × IsOfRun C.stands p script s self.now × (images ≡ images_of p) }
        ensures { IfOk result (λ a. (p : Program) (script : List (List ScriptCall)) (s : List ℕ) → IsOfRun C.stands p script s self.now → a ≡ account p (behind p script s)) }
    {
        simulation_laws();
        self.world.account(alloc, images)
    }
}
