//! Capabilities in page tables.
ghost use Rattle.std.specs.Prelude.{◌≡◌, ◌+◌, ◌-◌, ◌<◌, ◌≤◌, ℕ, true, length, max, replicate, slice_set, [], ◌∷◌, OnOk, OnErr, IfOk};
ghost use Rattle.lx_caps.specs.declared.Act.{Act};
ghost use Rattle.lx_caps.specs.declared.Act.TheVariants.{Lend, Shut, ShutAll, Strip};
ghost use Rattle.lx_caps.specs.Cells.{cells};
ghost use Rattle.lx_caps.specs.Loans.{lends};
ghost use Rattle.lx_caps.specs.History.{History};
ghost use Rattle.lx_caps.specs.Placed.{is_placed};
ghost use Rattle.lx_cap_nodes.specs.Words.{nodes_at};
ghost use Rattle.lx_cap_lists.specs.Loans.{loans_of};
ghost use Rattle.lx_cap_tables.specs.Sound.{IsEnd, StandsFor};
ghost use Rattle.lx_cap_lists.specs.Tables.{loans_work};
ghost use Rattle.lx_cap_tables.specs.Work.{shut_bound, strip_bound};

use crate::caps::{PARTS, give_cap, take_cap};
use crate::gather::{calls_and_refs, owned_parts};
use crate::held::{Wanted, holds_cap, owned_behind, owner_behind};
use crate::loans::{Ended, THREADS, shut_loans};
use indexmap::IndexSet;
use lx_cap_lists::{Holder, InReach, Key, Pool, loan_key, owner_key, place_for, ranges_of};
use lx_cap_nodes::Family;
use lx_caps::{Atom, Cap, CapStore, Principal, Steps, cells, in_order};
use lx_words::Memory;
use std::alloc::Global;
use std::marker::{Brand, Model};
use std::sync::ledger::{Blank, Ledger};

/// A store that keeps nodes in the lists of places and of owners.
///
/// The room that it tells is the room that was promised and not taken since. There may be more, since a strip and the end of loans
/// give nodes back: were that told, a caller who asks for some room beside what there is would make it grow without end.
pub struct CapTables {
    pool: Pool,
    // The owners and the loans that have a list, by its number.
    owners: IndexSet<Key>,
    // The calls and references that have a list, by its number behind those of the parts.
    atoms: IndexSet<Key>,
    // How many lists of owners there are, and how many of places.
    owner_lists: u64,
    place_lists: u64,
    // How many loans of each thread have not ended, and the most that there were of one.
    loans: Vec<u64>,
    deepest: u64,
    promised: u64,
}

impl Drop for CapTables {
    fn drop(self) {
        let CapTables {
            pool: _,
            owners: _,
            atoms: _,
            owner_lists: _,
            place_lists: _,
            loans: _,
            deepest: _,
            promised: _,
        } = self;
    }
}

impl Model for CapTables {
    ghost use Rattle.indexmap.specs.IndexSet.{spare};
    ghost use Rattle.lx_cap_tables.specs.Sound.{Tables, shown, IsSound};

    ghost Value = { Tables };

    ghost view = { λ t. shown t.pool t.owners.keys t.atoms.keys t.owner_lists t.place_lists t.loans.items t.promised };

    ghost invariant = { λ t. IsSound t.pool t.owners.keys t.atoms.keys (spare t.owners) (spare t.atoms) t.owner_lists t.place_lists t.loans.items t.deepest t.promised };
}

/// Adds lists of places until there are so many.
fn more_places(pool: &mut Pool, have: &mut u64, want: u64) -> Result<(), Memory>
    requires { length pool.old.places ≡ have.old }
    ensures count { length pool.new.places ≡ have.new }
    ensures ok { OnOk result (want ≤ have.new) }
    ensures grows { have.old ≤ have.new }
    ensures bound { have.new ≤ max have.old want }
    ensures places { (l : ℕ) → nodes_at pool.new.places l ≡ nodes_at pool.old.places l }
    ensures rest { (pool.new.owners ≡ pool.old.owners) × (pool.new.spare ≡ pool.old.spare) }
{
    while *have < want {
        match pool.add_list(Family::Place) {
            Ok(_) => *have += 1,
            Err(_) => return Err(Memory),
        }
    }
    Ok(())
}

/// Adds lists of owners until there are so many.
fn more_owners(pool: &mut Pool, have: &mut u64, want: u64) -> Result<(), Memory>
    requires { length pool.old.owners ≡ have.old }
    ensures count { length pool.new.owners ≡ have.new }
    ensures ok { OnOk result (want ≤ have.new) }
    ensures grows { have.old ≤ have.new }
    ensures bound { have.new ≤ max have.old want }
    ensures owners { (l : ℕ) → nodes_at pool.new.owners l ≡ nodes_at pool.old.owners l }
    ensures rest { (pool.new.places ≡ pool.old.places) × (pool.new.spare ≡ pool.old.spare) }
{
    while *have < want {
        match pool.add_list(Family::Owner) {
            Ok(_) => *have += 1,
            Err(_) => return Err(Memory),
        }
    }
    Ok(())
}

fn sum(a: u64, b: u64) -> Result<u64, Memory>
    ensures { IfOk result (λ n. n ≡ a + b) }
{
    match a.checked_add(b) {
        Some(n) => Ok(n),
        None => Err(Memory),
    }
}

/// No loan of any thread.
fn no_loans(alloc: Global) -> Result<Vec<u64>, Memory>
    ensures { IfOk result (λ loans. loans.items ≡ replicate 16 0) }
{
    let loans = vec![in alloc; 0; THREADS as usize]?;
    Ok(loans)
}

/// How many loans of a thread have not ended.
fn loans_of(loans: &Vec<u64>, thread: u32) -> u64
    requires { thread < length loans.now.items }
    ensures { result ≡ loans_of loans.now.items thread }
{
    loans[thread as usize]
}

/// Counts one loan more of a thread, and gives how many there are then.
fn count_loan(loans: &mut Vec<u64>, thread: u32) -> u64
    requires thread { thread < length loans.old.items }
    requires small { loans_of loans.old.items thread < 0xFFFFFFFFFFFFFFFF }
    ensures count { result ≡ loans_of loans.old.items thread + 1 }
    ensures loans { loans.new.items ≡ slice_set loans.old.items thread result }
{
    let count = loans[thread as usize] + 1;
    loans[thread as usize] = count;
    count
}

impl CapTables {
    /// A store that stands for the empty history.
    pub fn new(alloc: Global) -> Result<Self, Memory>
        ensures { IfOk result (λ t. StandsFor t []) }
    {
        let mut pool = Pool::new(alloc);
        let mut place_lists = 0;
        more_places(&mut pool, &mut place_lists, PARTS)?;
        let loans = no_loans(alloc)?;
        Ok(CapTables {
            pool,
            owners: IndexSet::new(alloc),
            atoms: IndexSet::new(alloc),
            owner_lists: 0,
            place_lists,
            loans,
            deepest: 0,
            promised: 0,
        })
    }

    #[tactic(auto, unfolding(crate::specs::Sound::StandsFor))]
    fn reserve_nodes(&mut self, n: u64) -> Result<(), Memory>
        ensures room { OnOk result (n ≤ self.new.pool.spare) }
        ensures promised { self.new.spare ≡ self.old.spare }
        ensures stays { (h : History) → StandsFor self.old h → StandsFor self.new h }
    {
        match self.pool.reserve(n) {
            Ok(()) => Ok(()),
            Err(_) => Err(Memory),
        }
    }

    #[tactic(auto, unfolding(crate::specs::Sound::StandsFor))]
    fn reserve_owners(&mut self, n: u64) -> Result<(), Memory>
        ensures room { OnOk result (n ≤ self.new.owner_room) }
        ensures nodes { self.new.pool.spare ≡ self.old.pool.spare }
        ensures promised { self.new.spare ≡ self.old.spare }
        ensures stays { (h : History) → StandsFor self.old h → StandsFor self.new h }
    {
        self.owners.reserve(n as usize)?;
        let want = sum(self.owners.len() as u64, n)?;
        let more = more_owners(&mut self.pool, &mut self.owner_lists, want);
        more?;
        Ok(())
    }

    #[tactic(auto, unfolding(crate::specs::Sound::StandsFor))]
    fn reserve_atoms(&mut self, n: u64) -> Result<(), Memory>
        ensures room { OnOk result (n ≤ self.new.atom_room) }
        ensures nodes { self.new.pool.spare ≡ self.old.pool.spare }
        ensures owners { self.new.owner_room ≡ self.old.owner_room }
        ensures promised { self.new.spare ≡ self.old.spare }
        ensures stays { (h : History) → StandsFor self.old h → StandsFor self.new h }
    {
        self.atoms.reserve(n as usize)?;
        let atoms = sum(self.atoms.len() as u64, PARTS)?;
        let want = sum(atoms, n)?;
        let more = more_places(&mut self.pool, &mut self.place_lists, want);
        more?;
        Ok(())
    }

    /// Promises room that there is. A thread has as many loans at most as a number of 64 bits counts.
    #[tactic(auto, unfolding(crate::specs::Sound::StandsFor))]
    fn promise(&mut self, n: u64) -> Result<(), Memory>
        requires nodes { n ≤ self.old.pool.spare }
        requires owners { n ≤ self.old.owner_room }
        requires atoms { n ≤ self.old.atom_room }
        ensures room { OnOk result (self.new.spare ≡ n) }
        ensures err { OnErr result (self.new.spare ≡ self.old.spare) }
        ensures stays { (h : History) → StandsFor self.old h → StandsFor self.new h }
    {
        sum(self.deepest, n)?;
        self.promised = n;
        Ok(())
    }

    /// Takes the capability from everyone, as `strip` does, and counts each table entry and each node that is looked at. They
    /// are no more than the parts of 64 bytes that the range touches, and the holders in each of them: a principal that keeps a
    /// byte of the part, or one that has a byte of it on a loan, for each such loan. For a call or a reference they are
    /// no more than its holders and one.
    pub fn strip_counted<L: Ledger>(&mut self, cap: Cap, steps: &mut Steps<L>)
        requires room { 0 < self.old.spare }
        requires placed { is_placed cap ≡ true }
        ensures appends { (h : History) → StandsFor self.old h → StandsFor self.new (Strip cap ∷ h) }
        ensures takes { self.old.spare ≡ self.new.spare + 1 }
        ensures bound { (h : History) → StandsFor self.old h → steps.new ≤ steps.old + strip_bound h cap }
    {
        take_cap(&mut self.pool, &self.atoms, cap, steps);
        self.promised -= 1;
    }

    fn strip_by<L: Ledger>(&mut self, cap: Cap, blank: Blank)
        requires name { blank.name ≡ L.name }
        requires parts { blank.parts ≡ L.parts }
        requires some { 0 < L.parts }
        requires room { 0 < self.old.spare }
        requires placed { is_placed cap ≡ true }
        ensures appends { (h : History) → StandsFor self.old h → StandsFor self.new (Strip cap ∷ h) }
        ensures takes { self.old.spare ≡ self.new.spare + 1 }
    {
        let mut steps = Steps::<L>::new(blank);
        self.strip_counted(cap, &mut steps);
    }

    /// Lends on the loan of the thread that has so many older ones, which is its newest.
    fn lend_on(&mut self, thread: u32, older: u64, to: Principal, cap: Cap)
        requires room { cells cap ≤ self.old.spare }
        requires thread { thread < 16 }
        requires newest { older + 1 ≡ loans_of self.old.loans thread }
        requires placed { is_placed cap ≡ true }
        ensures appends { (h : History) → StandsFor self.old h → lends h thread ≡ true → StandsFor self.new (Lend thread to cap ∷ h) }
        ensures takes { self.old.spare ≤ self.new.spare + cells cap }
    {
        let list = place_for(&mut self.owners, loan_key(thread, older));
        let holder = Holder::Borrower(thread, older, to);
        give_cap(&mut self.pool, &mut self.atoms, list, holder, cap);
        self.promised -= cells(cap);
    }

    /// Ends the loans of the thread that have at least `first` older ones.
    fn end_loans<L: Ledger>(&mut self, thread: u32, first: u64, steps: &mut Steps<L>)
        requires room { 0 < self.old.spare }
        requires thread { thread < 16 }
        requires some { first ≤ loans_of self.old.loans thread }
        ensures appends { (h : History) (act : Act) → StandsFor self.old h → IsEnd h act thread first → StandsFor self.new (act ∷ h) }
        ensures takes { self.old.spare ≡ self.new.spare + 1 }
        ensures cost { steps.new ≡ steps.old + loans_work self.old.pool.owners self.old.owners thread first (loans_of self.old.loans thread - first) }
    {
        let ended = Ended {
            thread,
            first,
            end: loans_of(&self.loans, thread),
        };
        shut_loans(&mut self.pool, &self.owners, ended, steps);
        self.loans[thread as usize] = first;
        self.promised -= 1;
    }

    /// Ends the `count` newest loans of the thread, as `shut` does, and counts each table entry and each node that is looked at. They
    /// are no more than the loans that end, and for each of them its borrowers with the parts of 64 bytes, the calls and
    /// the references where each has something on the loan.
    pub fn shut_counted<L: Ledger>(&mut self, thread: u32, count: u32, steps: &mut Steps<L>)
        requires room { 0 < self.old.spare }
        requires thread { thread < 16 }
        ensures appends { (h : History) → StandsFor self.old h → StandsFor self.new (Shut thread count ∷ h) }
        ensures takes { self.old.spare ≡ self.new.spare + 1 }
        ensures bound { (h : History) → StandsFor self.old h → steps.new ≤ steps.old + shut_bound h thread count }
    {
        self.pool.laws();
        let open = loans_of(&self.loans, thread);
        let first = open.saturating_sub(count as u64);
        self.end_loans(thread, first, steps);
    }

    fn shut_by<L: Ledger>(&mut self, thread: u32, count: u32, blank: Blank)
        requires name { blank.name ≡ L.name }
        requires parts { blank.parts ≡ L.parts }
        requires some { 0 < L.parts }
        requires room { 0 < self.old.spare }
        requires thread { thread < 16 }
        ensures appends { (h : History) → StandsFor self.old h → StandsFor self.new (Shut thread count ∷ h) }
        ensures takes { self.old.spare ≡ self.new.spare + 1 }
    {
        let mut steps = Steps::<L>::new(blank);
        self.shut_counted(thread, count, &mut steps);
    }

    fn shut_all_by<L: Ledger>(&mut self, thread: u32, blank: Blank)
        requires name { blank.name ≡ L.name }
        requires parts { blank.parts ≡ L.parts }
        requires some { 0 < L.parts }
        requires room { 0 < self.old.spare }
        requires thread { thread < 16 }
        ensures appends { (h : History) → StandsFor self.old h → StandsFor self.new (ShutAll thread ∷ h) }
        ensures takes { self.old.spare ≡ self.new.spare + 1 }
    {
        let mut steps = Steps::<L>::new(blank);
        self.end_loans(thread, 0, &mut steps);
    }
}

impl CapStore for CapTables {
    ghost use Rattle.std.specs.Prelude.{◌≡◌};
    ghost use Rattle.lx_cap_tables.specs.Sound.{StandsFor, placed_of};

    ghost stands = { StandsFor };

    ghost spare = { λ t. t.spare };

    ghost lies_in_memory = { λ t h stands. placed_of t h stands };

    fn spare(&self) -> u64 {
        self.promised
    }

    fn reserve(&mut self, n: u64) -> Result<(), Memory> {
        if self.promised < n {
            self.reserve_nodes(n)?;
            self.reserve_owners(n)?;
            self.reserve_atoms(n)?;
            self.promise(n)?;
        }
        Ok(())
    }

    fn grant(&mut self, to: Principal, cap: Cap) {
        let list = place_for(&mut self.owners, owner_key(to));
        give_cap(
            &mut self.pool,
            &mut self.atoms,
            list,
            Holder::Keeper(to),
            cap,
        );
        self.promised -= cells(cap);
    }

    fn strip(&mut self, cap: Cap) {
        self.strip_by::<Brand>(cap, Blank::new(1));
    }

    fn open_loan(&mut self, thread: u32) {
        let count = count_loan(&mut self.loans, thread);
        self.deepest = self.deepest.max(count);
        self.promised -= 1;
    }

    fn lend(&mut self, thread: u32, to: Principal, cap: Cap) {
        let count = loans_of(&self.loans, thread);
        // Where the thread has no loan nothing is said.
        if count > 0 {
            self.lend_on(thread, count - 1, to, cap);
        } else {
            self.promised -= cells(cap);
        }
    }

    fn shut(&mut self, thread: u32, count: u32) {
        self.shut_by::<Brand>(thread, count, Blank::new(1));
    }

    fn shut_all(&mut self, thread: u32) {
        self.shut_all_by::<Brand>(thread, Blank::new(1));
    }

    fn holds(&self, who: Principal, cap: Cap) -> bool {
        let _lists = self.place_lists;
        match who {
            // The condition says that the capability lies in memory.
            Principal::Kernel => true,
            _ => holds_cap(&self.pool, &self.atoms, InReach::Owned(who), cap),
        }
    }

    fn keeps(&self, who: Principal, cap: Cap) -> bool {
        let _lists = self.place_lists;
        match who {
            // The condition says that the capability lies in memory.
            Principal::Kernel => true,
            _ => holds_cap(&self.pool, &self.atoms, InReach::Kept(who), cap),
        }
    }

    fn next_owner(&self, atom: Atom, after: Option<Principal>) -> Option<Principal> {
        let _lists = self.place_lists;
        owner_behind(&self.pool, &self.atoms, atom, after)
    }

    fn next_owned(&self, who: Principal, after: Option<Atom>) -> Option<Atom> {
        owned_behind(
            &self.pool,
            &self.owners,
            &self.atoms,
            self.loans.as_slice(),
            Wanted { who, after },
        )
    }

    fn calls_and_refs(&self, alloc: Global, who: Principal) -> Result<Vec<Atom>, Memory> {
        self.pool.laws();
        let found = calls_and_refs(alloc, &self.pool, &self.owners, self.loans.as_slice(), who)?;
        let listed = in_order(alloc, found)?;
        Ok(listed)
    }

    fn byte_ranges(&self, alloc: Global, who: Principal) -> Result<Vec<Cap>, Memory> {
        self.pool.laws();
        let parts = owned_parts(alloc, &self.pool, &self.owners, self.loans.as_slice(), who)?;
        let ranges = ranges_of(alloc, parts)?;
        Ok(ranges)
    }
}
