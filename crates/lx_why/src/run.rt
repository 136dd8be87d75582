//! A run that certifies each need of its events.
ghost use Rattle.std.specs.Prelude.{◌≡◌, ◌≤◌, [], ℕ, IfOk, IsErrOf, List, length};
ghost use Rattle.lx_act_index.specs.Standing.{StandsForActs};
ghost use Rattle.lx_simulation.specs.Accepted.{AreAccepted};
ghost use Rattle.lx_annotation_tables.specs.Entries.{all_annotated};
ghost use Rattle.lx_certificates.specs.Needs.{AreCertsOf};
ghost use Rattle.lx_certificates.specs.Told.{told};
ghost use Rattle.lx_link_texts.specs.WellFormed.{IsWellFormed};
ghost use Rattle.lx_model.specs.declared.program.Program.{Program};
ghost use Rattle.lx_model.specs.declared.program.ScriptCall.{ScriptCall};
ghost use Rattle.lx_model.specs.State.{State};
ghost use Rattle.lx_opening.specs.Differing.{IsFirstDifferent};
ghost use Rattle.lx_opening.specs.declared.fault.OpenFault.{OpenFault};
ghost use Rattle.lx_run_laws.specs.Needs.{needs_of};
ghost use Rattle.lx_serve.specs.Stands.{StandsForState};
ghost use Rattle.lx_simulation.specs.Images.{AreFullImages};
ghost use Rattle.lx_why.specs.Noted.{HasNoted};

use crate::logged::Logged;
use crate::needs_of;
use crate::noted::Noted;
use lx_act_index::ActIndex;
use lx_caps::{Acts, CapStore};
use lx_certificates::{Certs, told_acts, told_laws};
use lx_image_check::Checked;
use lx_model::account::InstanceName;
use lx_model::program::{Calls, Program};
use lx_model::request::Request;
use lx_opening::{OpenFault, open_world};
use lx_serve::SharedPart;
use lx_simulation::simulation_laws;
use lx_slot_types::Annotated;
use lx_words::{Memory, number_of};
use lx_world::{EventFault, World, instance_names};
use std::alloc::Global;

/// A run of a program's images, in which each store has its guard. Each event of it comes with the certificates of what it needs.
#[derive(Drop)]
pub struct WhyRun<C: CapStore + Drop> {
    world: World<Logged<C>>,
    noted: Noted,
}

/// Makes an index that has seen nothing.
fn nothing_noted(alloc: Global) -> Result<Noted, Memory>
    ensures { IfOk result (λ n. HasNoted n [] × (n.seen ≡ 0)) }
{
    let index = ActIndex::new(alloc)?;
    Ok(Noted { index, seen: 0 })
}

/// The certificates of what a request needs.
fn request_certs<C: CapStore + Drop>(
    alloc: Global,
    part: &SharedPart<Logged<C>>,
    index: &ActIndex,
    request: &Request,
) -> Result<Certs, Memory>
    ensures { IfOk result (λ certs. (p : Program) (s : State) → StandsForState ⟦<Logged<C> as CapStore>⟧.stands p part.now s → StandsForActs index.now (told s.history)
        → AreCertsOf (told s.history) (needs_of p s request.now) certs) }
{
    told_laws();
    let needs = needs_of(alloc, part, request)?;
    let certs = index.certs_for(alloc, needs.as_slice());
    drop(needs);
    certs
}

impl<C: CapStore + Drop> WhyRun<C> {
    ghost use Rattle.std.specs.Prelude.{◌++◌, ◌∷◌, ◌↔◌, false, reverse, OnErr, OnOk};
    ghost use Rattle.lx_model.specs.Account.{account};
    ghost use Rattle.lx_model.specs.World.{can_act, is_done};
    ghost use Rattle.lx_why.specs.Certified.{CertifiesNext, acts_so_far};
    ghost use Rattle.lx_why.specs.Opened.{IsFullOpening};
    ghost use Rattle.lx_why.specs.Run.{IsPrepared, StandsForWhy, acts_of};
    ghost use Rattle.lx_why.specs.Why.{behind};
    ghost use Rattle.lx_world.specs.declared.fault.EventFault.{EventFault};

    /// The run of a script, a list of calls for each thread, before its first event: over a well-formed program and checked images of its
    /// modules, one for each in the modules' order, in which each store and block write has its guard. `annotated` has the functions of
    /// each module that get a slot type, and `caps` is new.
    ///
    /// # Errors
    /// Those of [`open_world`].
    pub fn open(
        alloc: Global,
        program: Program,
        images: Vec<Checked>,
        script: &[Calls],
        annotated: &[Annotated],
        caps: C,
    ) -> Result<Self, OpenFault>
        requires well_formed { IsWellFormed program }
        requires annotated { annotated.now ≡ all_annotated program }
        requires threads { length script.now ≤ 16 }
        requires new { C.stands caps [] }
        requires count { length images.items ≡ length program.modules }
        requires accepted { AreAccepted program images.items }
        requires full { AreFullImages program images.items }
        ensures opens { IfOk result (λ run. StandsForWhy ⟦<Logged<C> as CapStore>⟧.stands program script.now [] run) }
        ensures differs { (n : ℕ) → IsErrOf result (OpenFault.ImageDiffers n) → IsFirstDifferent program images.items n }
    {
        simulation_laws();
        let store = Logged::new(alloc, caps);
        let world = open_world(alloc, program, images, script, annotated, store)?;
        let run = Self::over(alloc, world)?;
        Ok(run)
    }

    /// The run of a world that is opened over images in which each store and block write has its guard.
    ///
    /// # Errors
    /// Want of memory.
    pub fn over(alloc: Global, world: World<Logged<C>>) -> Result<Self, Memory>
        ensures { IfOk result (λ run. (p : Program) (script : List (List ScriptCall)) → IsFullOpening ⟦<Logged<C> as CapStore>⟧.stands p script world
            → StandsForWhy ⟦<Logged<C> as CapStore>⟧.stands p script [] run) }
    {
        let noted = nothing_noted(alloc)?;
        Ok(WhyRun { world, noted })
    }

    /// Notes the acts since the last event.
    fn catch_up(&mut self) -> Result<(), Memory>
        ensures ok { OnOk result ((p : Program) (script : List (List ScriptCall)) (s : List ℕ) → StandsForWhy ⟦<Logged<C> as CapStore>⟧.stands p script s self.old
            → StandsForWhy ⟦<Logged<C> as CapStore>⟧.stands p script s self.new × (length (acts_of (behind p script s)) ≤ self.new.noted.seen)) }
        ensures err { OnErr result ((p : Program) (script : List (List ScriptCall)) (s : List ℕ) → StandsForWhy ⟦<Logged<C> as CapStore>⟧.stands p script s self.old
            → StandsForWhy ⟦<Logged<C> as CapStore>⟧.stands p script s self.new) }
        ensures world { self.new.world ≡ self.old.world }
    {
        simulation_laws();
        let acts = self.world.shared().caps().store().acts();
        self.noted.catch_up(acts)?;
        Ok(())
    }

    /// Takes the register steps of a thread that are due, and notes the acts since the last event.
    fn prepare(&mut self, thread: u32) -> Result<(), EventFault>
        ensures ok { OnOk result ((p : Program) (script : List (List ScriptCall)) (s : List ℕ) → StandsForWhy ⟦<Logged<C> as CapStore>⟧.stands p script s self.old
            → IsPrepared ⟦<Logged<C> as CapStore>⟧.stands p script s thread self.new) }
        ensures err { OnErr result ((p : Program) (script : List (List ScriptCall)) (s : List ℕ) → StandsForWhy ⟦<Logged<C> as CapStore>⟧.stands p script s self.old
            → StandsForWhy ⟦<Logged<C> as CapStore>⟧.stands p script s self.new) }
        ensures no_work { (p : Program) (script : List (List ScriptCall)) (s : List ℕ) → StandsForWhy ⟦<Logged<C> as CapStore>⟧.stands p script s self.old
            → IsErrOf result (EventFault.NoWork thread) ↔ (can_act (behind p script s) thread ≡ false) }
        ensures number { (n : ℕ) → IsErrOf result (EventFault.NoWork n) → n ≡ thread }
        ensures unchanged { IsErrOf result (EventFault.NoWork thread) → self.new ≡ self.old }
    {
        simulation_laws();
        self.world.local(thread)?;
        self.catch_up()?;
        Ok(())
    }

    /// The certificates of what a thread's next request needs.
    fn next_certs(&self, alloc: Global, thread: u32) -> Result<Certs, Memory>
        ensures { IfOk result (λ certs. (p : Program) (script : List (List ScriptCall)) (s : List ℕ) → IsPrepared ⟦<Logged<C> as CapStore>⟧.stands p script s thread self.now
            → CertifiesNext p thread (behind p script s) certs) }
    {
        simulation_laws();
        told_laws();
        match self.world.request(thread) {
            Some(request) => request_certs(alloc, self.world.shared(), &self.noted.index, request),
            None => Ok(Certs::new(alloc)),
        }
    }

    /// One event of a thread, and the certificates of the needs of its request, by the acts before it, in the order in which they are asked
    /// for: behind one that is not met there is none.
    ///
    /// # Errors
    /// `NoWork` exactly where there is no such thread or it has no call left, which changes nothing. After `Memory` only register steps of
    /// that thread may have gone on.
    pub fn step(&mut self, alloc: Global, thread: u32) -> Result<Certs, EventFault>
        ensures event { OnOk result ((p : Program) (script : List (List ScriptCall)) (s : List ℕ) → StandsForWhy ⟦<Logged<C> as CapStore>⟧.stands p script s self.old
            → StandsForWhy ⟦<Logged<C> as CapStore>⟧.stands p script (s ++ thread ∷ []) self.new) }
        ensures certs { IfOk result (λ certs. (p : Program) (script : List (List ScriptCall)) (s : List ℕ) → StandsForWhy ⟦<Logged<C> as CapStore>⟧.stands p script s self.old
            → CertifiesNext p thread (behind p script s) certs) }
        ensures fault { OnErr result ((p : Program) (script : List (List ScriptCall)) (s : List ℕ) → StandsForWhy ⟦<Logged<C> as CapStore>⟧.stands p script s self.old
            → StandsForWhy ⟦<Logged<C> as CapStore>⟧.stands p script s self.new) }
        ensures no_work { (p : Program) (script : List (List ScriptCall)) (s : List ℕ) → StandsForWhy ⟦<Logged<C> as CapStore>⟧.stands p script s self.old
            → IsErrOf result (EventFault.NoWork thread) ↔ (can_act (behind p script s) thread ≡ false) }
        ensures number { (n : ℕ) → IsErrOf result (EventFault.NoWork n) → n ≡ thread }
        ensures unchanged { (p : Program) (script : List (List ScriptCall)) (s : List ℕ) → StandsForWhy ⟦<Logged<C> as CapStore>⟧.stands p script s self.old
            → IsErrOf result (EventFault.NoWork thread) → self.new ≡ self.old }
    {
        simulation_laws();
        self.prepare(thread)?;
        let certs = self.next_certs(alloc, thread)?;
        match self.world.event(thread) {
            Ok(()) => Ok(certs),
            Err(fault) => {
                drop(certs);
                Err(fault)
            }
        }
    }

    /// Whether no thread has a call left.
    pub fn done(&self) -> bool
        ensures { (p : Program) (script : List (List ScriptCall)) (s : List ℕ) → StandsForWhy ⟦<Logged<C> as CapStore>⟧.stands p script s self.now → result ≡ is_done (behind p script s) }
    {
        simulation_laws();
        self.world.done()
    }

    /// The acts so far, the oldest first: the grants, lends and strips that have an atom, and the loans. Certificates count in them.
    ///
    /// # Errors
    /// Want of memory.
    pub fn acts(&self, alloc: Global) -> Result<Acts, Memory>
        ensures { IfOk result (λ acts. (p : Program) (script : List (List ScriptCall)) (s : List ℕ) → StandsForWhy ⟦<Logged<C> as CapStore>⟧.stands p script s self.now
            → acts.list ≡ reverse (acts_so_far (behind p script s))) }
    {
        simulation_laws();
        told_laws();
        told_acts(alloc, self.world.shared().caps().store().acts())
    }

    /// The program that runs.
    pub fn program(&self) -> &Program
        ensures { (p : Program) (script : List (List ScriptCall)) (s : List ℕ) → StandsForWhy ⟦<Logged<C> as CapStore>⟧.stands p script s self.now → result.now ≡ p }
    {
        self.world.program()
    }

    /// The first names of the program's instances, as an account lists them.
    ///
    /// # Errors
    /// Want of memory; more modules than a number of 32 bits counts are that too.
    pub fn names(&self, alloc: Global) -> Result<Vec<InstanceName>, Memory>
        requires { (p : Program) × (script : List (List ScriptCall)) × (s : List ℕ) × StandsForWhy ⟦<Logged<C> as CapStore>⟧.stands p script s self.now }
        ensures { IfOk result (λ names. (p : Program) (script : List (List ScriptCall)) (s : List ℕ) → StandsForWhy ⟦<Logged<C> as CapStore>⟧.stands p script s self.now
            → names.items ≡ (account p (behind p script s)).names) }
    {
        simulation_laws();
        let modules = number_of(self.world.program().modules.len())?;
        instance_names(alloc, self.world.shared().names(), modules)
    }
}
