//! The end of loans.
ghost use Rattle.std.specs.Prelude.{◌≡◌, ◌≢◌, ◌-◌, ◌+◌, ◌<◌, ◌≤◌, ℕ, Bool, [], true, length, not, List, Some, IfSome};
ghost use Rattle.lx_cap_nodes.specs.Words.{nodes_at};
ghost use Rattle.lx_cap_nodes.specs.declared.pool.ListName.{ListName};
ghost use Rattle.lx_cap_lists.specs.declared.entry.Entry.{Entry};
ghost use Rattle.lx_cap_lists.specs.declared.holder.Holder.{Holder};
ghost use Rattle.lx_cap_lists.specs.Entries.{bit_among};
ghost use Rattle.lx_cap_lists.specs.Kept.{all_nodes, AllNodes, AreAll, AreEnded, StayBut};
ghost use Rattle.lx_cap_lists.specs.Tables.{Key, count_in, is_in_order, loan_key, loans_work, place_in};

use indexmap::IndexSet;
use lx_cap_lists::{Key, Pool, loan_key, place_in, take_all};
use lx_caps::Steps;
use std::sync::ledger::Ledger;

/// Threads are below this number.
pub(crate) const THREADS: u32 = 16;

/// The loans of a thread that have at least `first` older ones, and fewer than `end`.
#[derive(Clone, Copy)]
pub(crate) struct Ended {
    pub(crate) thread: u32,
    pub(crate) first: u64,
    pub(crate) end: u64,
}

/// Takes out every node of a list of owners, if there is one.
fn take_list<L: Ledger>(pool: &mut Pool, list: Option<u64>, steps: &mut Steps<L>)
    requires { IfSome list (λ o. o < length pool.old.owners) }
    ensures gone { (o : ℕ) → list ≡ Some o → nodes_at pool.new.owners o ≡ [] }
    ensures stays { (among : Holder → Bool) → ((o : ℕ) → list ≡ Some o → all_nodes (λ e. not (among e.holder)) (nodes_at pool.old.owners o) ≡ true) → (l k : ℕ) → bit_among among (nodes_at pool.new.places l) k ≡ bit_among among (nodes_at pool.old.places l) k }
    ensures others { (o : ℕ) → list ≢ Some o → nodes_at pool.new.owners o ≡ nodes_at pool.old.owners o }
    ensures empty { (l : ℕ) → nodes_at pool.old.places l ≡ [] → nodes_at pool.new.places l ≡ [] }
    ensures counts { (length pool.new.places ≡ length pool.old.places) × (length pool.new.owners ≡ length pool.old.owners) }
    ensures spare { pool.old.spare ≤ pool.new.spare }
    ensures nodes { AllNodes pool.old.places → AllNodes pool.new.places }
    ensures kept { (p : ListName → Entry → Bool) → AreAll p pool.old → AreAll p pool.new }
    ensures cost { steps.new ≡ steps.old + count_in pool.old.owners list }
{
    if let Some(list) = list {
        take_all(pool, list, steps);
    }
}

/// Ends the loan of a thread that has so many older ones.
fn shut_loan<L: Ledger>(
    pool: &mut Pool,
    owners: &IndexSet<Key>,
    thread: u32,
    older: u64,
    steps: &mut Steps<L>,
)
    requires lists { length owners.now.keys ≤ length pool.old.owners }
    requires thread { thread < 16 }
    ensures gone { (atoms : List Key) (loans : List ℕ) → AreAll (is_in_order owners.now.keys atoms loans) pool.old → AreEnded thread older (older + 1) pool.new }
    ensures stays { (atoms : List Key) (loans : List ℕ) → AreAll (is_in_order owners.now.keys atoms loans) pool.old → StayBut thread older (older + 1) pool.old.places pool.new.places }
    ensures empty { (l : ℕ) → nodes_at pool.old.places l ≡ [] → nodes_at pool.new.places l ≡ [] }
    ensures counts { (length pool.new.places ≡ length pool.old.places) × (length pool.new.owners ≡ length pool.old.owners) }
    ensures spare { pool.old.spare ≤ pool.new.spare }
    ensures nodes { AllNodes pool.old.places → AllNodes pool.new.places }
    ensures kept { (p : ListName → Entry → Bool) → AreAll p pool.old → AreAll p pool.new }
    ensures others { (o : ℕ) → place_in owners.now.keys (loan_key thread older) ≢ Some o → nodes_at pool.new.owners o ≡ nodes_at pool.old.owners o }
    ensures cost { steps.new ≡ steps.old + (1 + count_in pool.old.owners (place_in owners.now.keys (loan_key thread older))) }
{
    steps.tick();
    pool.laws();
    let list = place_in(owners, loan_key(thread, older));
    take_list(pool, list, steps);
    pool.laws();
}

/// Ends these loans.
pub(crate) fn shut_loans<L: Ledger>(
    pool: &mut Pool,
    owners: &IndexSet<Key>,
    ended: Ended,
    steps: &mut Steps<L>,
)
    requires lists { length owners.now.keys ≤ length pool.old.owners }
    requires thread { ended.thread < 16 }
    ensures gone { (atoms : List Key) (loans : List ℕ) → AreAll (is_in_order owners.now.keys atoms loans) pool.old → AreEnded ended.thread ended.first ended.end pool.new }
    ensures stays { (atoms : List Key) (loans : List ℕ) → AreAll (is_in_order owners.now.keys atoms loans) pool.old → StayBut ended.thread ended.first ended.end pool.old.places pool.new.places }
    ensures empty { (l : ℕ) → nodes_at pool.old.places l ≡ [] → nodes_at pool.new.places l ≡ [] }
    ensures counts { (length pool.new.places ≡ length pool.old.places) × (length pool.new.owners ≡ length pool.old.owners) }
    ensures spare { pool.old.spare ≤ pool.new.spare }
    ensures nodes { AllNodes pool.old.places → AllNodes pool.new.places }
    ensures kept { (p : ListName → Entry → Bool) → AreAll p pool.old → AreAll p pool.new }
    ensures cost { steps.new ≡ steps.old + loans_work pool.old.owners owners.now.keys ended.thread ended.first (ended.end - ended.first) }
{
    for older in ended.first..ended.end {
        shut_loan(pool, owners, ended.thread, older, steps);
    }
}
