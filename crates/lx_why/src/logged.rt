//! A store of capabilities with the list of its acts.
ghost use Rattle.std.specs.Prelude.{◌≡◌, [], All, true, reverse};
ghost use Rattle.lx_caps.specs.History.{History};
ghost use Rattle.lx_caps.specs.Placed.{is_placed_act};

use lx_caps::{Act, Atom, Cap, CapStore, PlainCaps, Principal};
use lx_words::Memory;
use std::alloc::Global;

/// A store of capabilities, and what was done to it. The store answers, and the list is told.
#[derive(Drop)]
pub struct Logged<C: CapStore + Drop> {
    log: PlainCaps,
    caps: C,
}

impl<C: CapStore + Drop> CapStore for Logged<C> {
    ghost use Rattle.lx_why.specs.Logged.{IsLogged};
    ghost use Rattle.lx_writer_sets.specs.Recorded.{lesser};

    ghost stands = { λ r h. IsLogged ⟦<PlainCaps as CapStore>⟧.stands C.stands r.log r.caps h };

    ghost spare = { λ r. lesser (⟦<PlainCaps as CapStore>⟧.spare r.log) (C.spare r.caps) };

    ghost lies_in_memory = { λ r h is. C.lies_in_memory r.caps h is.owned };

    fn spare(&self) -> u64 {
        let log = self.log.spare();
        let caps = self.caps.spare();
        if log <= caps { log } else { caps }
    }

    fn reserve(&mut self, n: u64) -> Result<(), Memory> {
        self.log.reserve(n)?;
        self.caps.reserve(n)?;
        Ok(())
    }

    fn grant(&mut self, to: Principal, cap: Cap) {
        self.log.grant(to, cap);
        self.caps.grant(to, cap);
    }

    fn strip(&mut self, cap: Cap) {
        self.log.strip(cap);
        self.caps.strip(cap);
    }

    fn open_loan(&mut self, thread: u32) {
        self.log.open_loan(thread);
        self.caps.open_loan(thread);
    }

    fn lend(&mut self, thread: u32, to: Principal, cap: Cap) {
        self.log.lend(thread, to, cap);
        self.caps.lend(thread, to, cap);
    }

    fn shut(&mut self, thread: u32, count: u32) {
        self.log.shut(thread, count);
        self.caps.shut(thread, count);
    }

    fn shut_all(&mut self, thread: u32) {
        self.log.shut_all(thread);
        self.caps.shut_all(thread);
    }

    fn holds(&self, who: Principal, cap: Cap) -> bool {
        self.caps.holds(who, cap)
    }

    fn keeps(&self, who: Principal, cap: Cap) -> bool {
        self.caps.keeps(who, cap)
    }

    fn next_owner(&self, atom: Atom, after: Option<Principal>) -> Option<Principal> {
        self.caps.next_owner(atom, after)
    }

    fn next_owned(&self, who: Principal, after: Option<Atom>) -> Option<Atom> {
        self.caps.next_owned(who, after)
    }

    fn calls_and_refs(&self, alloc: Global, who: Principal) -> Result<Vec<Atom>, Memory> {
        self.caps.calls_and_refs(alloc, who)
    }

    fn byte_ranges(&self, alloc: Global, who: Principal) -> Result<Vec<Cap>, Memory> {
        self.caps.byte_ranges(alloc, who)
    }
}

/// The acts for which a store stands lie in memory.
fn see_placed<L: CapStore>(store: &L, acts: &[Act])
    requires { L.stands store.now (reverse acts.now) }
    ensures { All (λ act. is_placed_act act ≡ true) acts.now }
{
    let _ = acts.len();
    let _ = store.spare();
}

impl<C: CapStore + Drop> Logged<C> {
    /// A store that stands for the empty history, over a store that does.
    pub fn new(alloc: Global, caps: C) -> Self
        requires { C.stands caps [] }
        ensures { ⟦<Logged<C> as CapStore>⟧.stands result [] }
    {
        Logged {
            log: PlainCaps::new(alloc),
            caps,
        }
    }

    /// What was done to the store, the oldest act first. The history that it stands for is this list, read from its end.
    pub fn acts(&self) -> &[Act]
        ensures alone { (h : History) → ⟦<Logged<C> as CapStore>⟧.stands self.now h → h ≡ reverse result.now }
        ensures placed { All (λ act. is_placed_act act ≡ true) result.now }
    {
        let acts = self.log.acts().as_slice();
        see_placed(&self.log, acts);
        acts
    }
}
