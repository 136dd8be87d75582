//! A store of capabilities with its writer sets.
ghost use Rattle.std.specs.Prelude.{◌≡◌, ◌↔◌, ◌+◌, ◌^◌, ◌<◌, ◌≤◌, ◌∷◌, [], Bool, false, true, IsTrue};
ghost use Rattle.lx_caps.specs.declared.Act.TheVariants.{Zero};
ghost use Rattle.lx_caps.specs.declared.Principal.{Principal};
ghost use Rattle.lx_caps.specs.History.{History, without_zeros};
ghost use Rattle.lx_caps.specs.Regions.{mapped};
ghost use Rattle.lx_caps.specs.Writers.{is_slot_writer};
ghost use Rattle.lx_writer_sets.specs.Sets.{IsFirstWriter, IsNextWriter, IsSomeWriter};

use crate::noted::note_cap;
use crate::{PrincipalTest, WriterSets, writer_set_laws};
use lx_caps::{Atom, Cap, CapStore, Principal, history_laws};
use lx_words::Memory;
use std::alloc::Global;

/// A store of capabilities, and the writers of each byte by what the store was told.
pub struct Recorded<C: CapStore + Drop> {
    caps: C,
    sets: WriterSets,
}

impl<C: CapStore + Drop> Drop for Recorded<C> {
    fn drop(self) {
        let Recorded { caps: _, sets: _ } = self;
    }
}

impl<C: CapStore + Drop> CapStore for Recorded<C> {
    ghost use Rattle.lx_writer_sets.specs.Stands as written;
    ghost use Rattle.lx_writer_sets.specs.Recorded.{IsRecorded, lesser};

    ghost stands = { λ r h. IsRecorded C.stands r.caps r.sets h };

    ghost spare = { λ r. lesser (C.spare r.caps) (written.spare_of r.sets) };

    ghost lies_in_memory = { λ r h is. is.placed };

    fn spare(&self) -> u64 {
        let caps = self.caps.spare();
        let sets = self.sets.spare();
        if caps <= sets { caps } else { sets }
    }

    fn reserve(&mut self, n: u64) -> Result<(), Memory> {
        // What the sets do not record, as a strip, takes none of their room. They gather none by it: they never have
        // more than the most that was asked for.
        self.caps.reserve(n)?;
        self.sets.reserve(n)?;
        Ok(())
    }

    fn grant(&mut self, to: Principal, cap: Cap) {
        self.caps.grant(to, cap);
        note_cap(&mut self.sets, to, cap);
    }

    fn strip(&mut self, cap: Cap) {
        // Who wrote the bytes wrote them all the same, so the sets stay.
        writer_set_laws();
        self.caps.strip(cap);
    }

    fn open_loan(&mut self, thread: u32) {
        writer_set_laws();
        self.caps.open_loan(thread);
    }

    fn lend(&mut self, thread: u32, to: Principal, cap: Cap) {
        history_laws();
        self.caps.lend(thread, to, cap);
        note_cap(&mut self.sets, to, cap);
    }

    fn shut(&mut self, thread: u32, count: u32) {
        // Who wrote on loan wrote all the same.
        writer_set_laws();
        self.caps.shut(thread, count);
    }

    fn shut_all(&mut self, thread: u32) {
        writer_set_laws();
        self.caps.shut_all(thread);
    }

    fn holds(&self, who: Principal, cap: Cap) -> bool {
        history_laws();
        self.caps.holds(who, cap)
    }

    fn keeps(&self, who: Principal, cap: Cap) -> bool {
        history_laws();
        self.caps.keeps(who, cap)
    }

    fn next_owner(&self, atom: Atom, after: Option<Principal>) -> Option<Principal> {
        history_laws();
        self.caps.next_owner(atom, after)
    }

    fn next_owned(&self, who: Principal, after: Option<Atom>) -> Option<Atom> {
        history_laws();
        self.caps.next_owned(who, after)
    }

    fn calls_and_refs(&self, alloc: Global, who: Principal) -> Result<Vec<Atom>, Memory> {
        history_laws();
        let atoms = self.caps.calls_and_refs(alloc, who)?;
        Ok(atoms)
    }

    fn byte_ranges(&self, alloc: Global, who: Principal) -> Result<Vec<Cap>, Memory> {
        history_laws();
        let ranges = self.caps.byte_ranges(alloc, who)?;
        Ok(ranges)
    }
}

impl<C: CapStore + Drop> Recorded<C> {
    ghost use Rattle.lx_writer_sets.specs.Stands as written;
    ghost use Rattle.lx_writer_sets.specs.Stands.{StandsForWriters};
    ghost use Rattle.lx_writer_sets.specs.Recorded.{IsRecorded, lesser};

    /// A store that stands for the empty history, over a store that does.
    pub fn new(alloc: Global, caps: C) -> Self
        requires { C.stands caps [] }
        ensures { ⟦<Recorded<C> as CapStore>⟧.stands result [] }
    {
        Recorded {
            caps,
            sets: WriterSets::new(alloc),
        }
    }

    /// The store of capabilities. It stands for the history without its zeros.
    pub fn store(&self) -> &C
        ensures { (h : History) → ⟦<Recorded<C> as CapStore>⟧.stands self.now h → C.stands result.now (without_zeros h) }
    {
        &self.caps
    }

    /// Who wrote where.
    pub fn writers(&self) -> &WriterSets
        ensures { (h : History) → ⟦<Recorded<C> as CapStore>⟧.stands self.now h → StandsForWriters result.now h }
    {
        &self.sets
    }

    /// Records that bytes were zeroed. Nobody loses or gains any, but only their owners are writers of them from now on.
    /// It takes no memory.
    pub fn zero(&mut self, at: u64, size: u64)
        requires placed { mapped at size ≡ true }
        ensures appends { (h : History) → ⟦<Recorded<C> as CapStore>⟧.stands self.old h → ⟦<Recorded<C> as CapStore>⟧.stands self.new (Zero at size ∷ h) }
        ensures keeps { ⟦<Recorded<C> as CapStore>⟧.spare self.new ≡ ⟦<Recorded<C> as CapStore>⟧.spare self.old }
    {
        self.sets.zero(at, size, &self.caps);
    }

    /// Gives the first writer of a slot, in the order of principals, that passes the test: the first principal of those that
    /// owned one of the slot's eight bytes at some moment since that byte was last zeroed, that moment included. Each
    /// writer is asked at most once for each of the parts of 64 bytes that the slot lies in.
    pub fn first_writer<T: PrincipalTest>(&self, slot: u64, test: &T) -> Option<Principal>
        requires { slot + 8 ≤ 2 ^ 64 }
        ensures { (h : History) → ⟦<Recorded<C> as CapStore>⟧.stands self.now h → (t : Principal → Bool) → T.stands test.now t → IsFirstWriter h slot t result }
    {
        self.sets.first_writer(slot, test)
    }

    /// Gives some writer of a slot that passes the test, and asks nobody behind the one that is given. There is none exactly
    /// where no principal passes that owned one of the slot's eight bytes at some moment since that byte was last zeroed,
    /// that moment included.
    pub fn some_writer<T: PrincipalTest>(&self, slot: u64, test: &T) -> Option<Principal>
        requires { slot + 8 ≤ 2 ^ 64 }
        ensures { (h : History) → ⟦<Recorded<C> as CapStore>⟧.stands self.now h → (t : Principal → Bool) → T.stands test.now t → IsSomeWriter h slot t result }
    {
        self.sets.some_writer(slot, test)
    }

    /// Gives the next writer of a slot, in the order of principals, behind `after`: the next principal that owned one of the
    /// slot's eight bytes at some moment since that byte was last zeroed, that moment included.
    pub fn next_writer(&self, slot: u64, after: Option<Principal>) -> Option<Principal>
        requires { slot + 8 ≤ 2 ^ 64 }
        ensures { (h : History) → ⟦<Recorded<C> as CapStore>⟧.stands self.now h → IsNextWriter h slot after result }
    {
        self.sets.next_writer(slot, after)
    }

    /// Says whether the principal is a writer of the slot.
    pub fn is_slot_writer(&self, slot: u64, who: Principal) -> bool
        requires { slot + 8 ≤ 2 ^ 64 }
        ensures { (h : History) → ⟦<Recorded<C> as CapStore>⟧.stands self.now h → result ≡ is_slot_writer h slot who }
    {
        self.sets.is_writer(slot, who)
    }

    /// Says whether none of the eight bytes of a slot has a writer.
    pub fn is_clean(&self, slot: u64) -> bool
        requires { slot + 8 ≤ 2 ^ 64 }
        ensures { (h : History) → ⟦<Recorded<C> as CapStore>⟧.stands self.now h → IsTrue result ↔ ((q : Principal) → is_slot_writer h slot q ≡ false) }
    {
        self.sets.is_clean(slot)
    }
}
