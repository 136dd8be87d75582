//! Capabilities and their atoms.
ghost use Rattle.std.specs.Prelude.{true, ◌≡◌, ◌≢◌, ◌+◌, ◌^◌, ◌<◌, ◌≤◌, ℕ, Bool, ◌&&◌, ◌||◌, not, length, Some};
ghost use Rattle.indexmap.specs.IndexSet.{spare};
ghost use Rattle.lx_cap_lists.specs.declared.holder.Holder.{Holder};
ghost use Rattle.lx_caps.specs.declared.Atom.{Atom};
ghost use Rattle.lx_caps.specs.Cells.{cells};
ghost use Rattle.lx_caps.specs.History.{has};
ghost use Rattle.lx_caps.specs.Placed.{is_placed};
ghost use Rattle.lx_cap_nodes.specs.Words.{nodes_at};
ghost use Rattle.lx_cap_lists.specs.Entries.{bit_among, cut_all};
ghost use Rattle.lx_cap_nodes.specs.declared.pool.ListName.{ListName};
ghost use Rattle.lx_cap_lists.specs.declared.entry.Entry.{Entry};
ghost use Rattle.lx_cap_lists.specs.Kept.{AllNodes, AreAll, Fits, FitsSpots, Respects};
ghost use Rattle.lx_cap_lists.specs.Tables.{AreEmpty, behind_parts, bit_of, cap_work, count_in, place_in, place_of, shown_at, with_key};

use indexmap::IndexSet;
use lx_cap_lists::{
    Entry, Holder, Key, Pool, Spot, call_key, give, give_range, place_for, place_in, ref_key, take,
    take_range,
};
use lx_caps::{Cap, Steps};
use std::sync::ledger::Ledger;

/// How many lists of parts there are. Those of calls and references stand behind them.
pub(crate) const PARTS: u64 = 0xc000;

/// The list of a call or a reference, if it has one.
pub(crate) fn list_of_key(atoms: &IndexSet<Key>, key: Key) -> Option<u64>
    requires { 0xc000 + length atoms.now.keys < 2 ^ 64 }
    ensures { result ≡ behind_parts (place_in atoms.now.keys key) }
{
    match place_in(atoms, key) {
        Some(i) => Some(PARTS + i),
        None => None,
    }
}

/// Takes a call or a reference from everyone.
fn take_atom<L: Ledger>(pool: &mut Pool, atoms: &IndexSet<Key>, key: Key, steps: &mut Steps<L>)
    requires lists { 0xc000 + length atoms.now.keys ≤ length pool.old.places }
    requires small { length pool.old.places < 2 ^ 64 }
    ensures here { (l : ℕ) → behind_parts (place_in atoms.now.keys key) ≡ Some l → nodes_at pool.new.places l ≡ cut_all 1 (nodes_at pool.old.places l) }
    ensures others { (l : ℕ) → behind_parts (place_in atoms.now.keys key) ≢ Some l → nodes_at pool.new.places l ≡ nodes_at pool.old.places l }
    ensures counts { (length pool.new.places ≡ length pool.old.places) × (length pool.new.owners ≡ length pool.old.owners) }
    ensures spare { pool.old.spare ≤ pool.new.spare }
    ensures nodes { AllNodes pool.old.places → AllNodes pool.new.places }
    ensures kept { (p : ListName → Entry → Bool) → Respects p → AreAll p pool.old → AreAll p pool.new }
    ensures cost { steps.new ≡ steps.old + (1 + count_in pool.old.places (behind_parts (place_in atoms.now.keys key))) }
{
    steps.tick();
    if let Some(place) = list_of_key(atoms, key) {
        take(pool, place, 1, steps);
    }
}

/// Takes a capability from everyone.
pub(crate) fn take_cap<L: Ledger>(
    pool: &mut Pool,
    atoms: &IndexSet<Key>,
    cap: Cap,
    steps: &mut Steps<L>,
)
    requires placed { is_placed cap ≡ true }
    requires lists { 0xc000 + length atoms.now.keys ≤ length pool.old.places }
    requires small { length pool.old.places < 2 ^ 64 }
    ensures shows { (among : Holder → Bool) (x : Atom) → shown_at pool.new.places (place_of atoms.now.keys x) among (bit_of x)
        ≡ (not (has cap x) && shown_at pool.old.places (place_of atoms.now.keys x) among (bit_of x)) }
    ensures empty { AreEmpty pool.old.places atoms.now.keys → AreEmpty pool.new.places atoms.now.keys }
    ensures counts { (length pool.new.places ≡ length pool.old.places) × (length pool.new.owners ≡ length pool.old.owners) }
    ensures spare { pool.old.spare ≤ pool.new.spare }
    ensures nodes { AllNodes pool.old.places → AllNodes pool.new.places }
    ensures kept { (p : ListName → Entry → Bool) → Respects p → AreAll p pool.old → AreAll p pool.new }
    ensures cost { steps.new ≡ steps.old + cap_work pool.old.places atoms.now.keys cap }
{
    match cap {
        Cap::Write { at, size } => if size > 0 {
            take_range(pool, at, size, steps);
        },
        Cap::Call { at } => take_atom(pool, atoms, call_key(at), steps),
        Cap::Ref { ty, at } => take_atom(pool, atoms, ref_key(ty, at), steps),
    }
}

/// Gives a holder a call or a reference.
fn give_atom(
    pool: &mut Pool,
    atoms: &mut IndexSet<Key>,
    owner: u64,
    key: Key,
    to: Holder,
    spot: Spot,
)
    requires lists { 0xc000 + length atoms.old.keys < length pool.old.places }
    requires small { length pool.old.places < 2 ^ 64 }
    requires owner { owner < length pool.old.owners }
    requires room { 0 < pool.old.spare }
    requires keys { 0 < spare atoms.old }
    ensures keys { atoms.new.keys ≡ with_key atoms.old.keys key }
    ensures here { (l : ℕ) → behind_parts (place_in atoms.new.keys key) ≡ Some l → (among : Holder → Bool) → bit_among among (nodes_at pool.new.places l) 0 ≡ (among to || bit_among among (nodes_at pool.old.places l) 0) }
    ensures others { (l : ℕ) → behind_parts (place_in atoms.new.keys key) ≢ Some l → nodes_at pool.new.places l ≡ nodes_at pool.old.places l }
    ensures counts { (length pool.new.places ≡ length pool.old.places) × (length pool.new.owners ≡ length pool.old.owners) }
    ensures spare { pool.old.spare ≤ pool.new.spare + 1 }
    ensures nodes { AllNodes pool.old.places → AllNodes pool.new.places }
    ensures kept { (p : ListName → Entry → Bool) → Respects p → ((l : ℕ) → behind_parts (place_in atoms.new.keys key) ≡ Some l → Fits p l owner (record { holder = to; spot = spot; mask = 1 })) → AreAll p pool.old → AreAll p pool.new }
    ensures spare_keys { spare atoms.old + length atoms.old.keys ≤ spare atoms.new + length atoms.new.keys }
{
    let i = place_for(atoms, key);
    let entry = Entry {
        holder: to,
        spot,
        mask: 1,
    };
    give(pool, PARTS + i, owner, entry);
}

/// Gives a holder a capability.
pub(crate) fn give_cap(pool: &mut Pool, atoms: &mut IndexSet<Key>, owner: u64, to: Holder, cap: Cap)
    requires placed { is_placed cap ≡ true }
    requires lists { 0xc000 + length atoms.old.keys < length pool.old.places }
    requires small { length pool.old.places < 2 ^ 64 }
    requires owner { owner < length pool.old.owners }
    requires room { cells cap ≤ pool.old.spare }
    requires keys { 0 < spare atoms.old }
    requires empty { AreEmpty pool.old.places atoms.old.keys }
    ensures shows { (among : Holder → Bool) (x : Atom) → shown_at pool.new.places (place_of atoms.new.keys x) among (bit_of x)
        ≡ ((among to && has cap x) || shown_at pool.old.places (place_of atoms.old.keys x) among (bit_of x)) }
    ensures empty { AreEmpty pool.new.places atoms.new.keys }
    ensures counts { (length pool.new.places ≡ length pool.old.places) × (length pool.new.owners ≡ length pool.old.owners) }
    ensures spare { pool.old.spare ≤ pool.new.spare + cells cap }
    ensures nodes { AllNodes pool.old.places → AllNodes pool.new.places }
    ensures kept { (p : ListName → Entry → Bool) → Respects p → FitsSpots p atoms.new.keys to owner → AreAll p pool.old → AreAll p pool.new }
    ensures spare_keys { spare atoms.old + length atoms.old.keys ≤ spare atoms.new + length atoms.new.keys }
    ensures more_keys { length atoms.new.keys ≤ length atoms.old.keys + 1 }
    ensures found { (x : ℕ × ℕ) (j : ℕ) → place_in atoms.old.keys x ≡ Some j → place_in atoms.new.keys x ≡ Some j }
{
    match cap {
        Cap::Write { at, size } => if size > 0 {
            give_range(pool, to, owner, at, size);
        },
        Cap::Call { at } => give_atom(pool, atoms, owner, call_key(at), to, Spot::Call(at)),
        Cap::Ref { ty, at } => give_atom(
            pool,
            atoms,
            owner,
            ref_key(ty, at),
            to,
            Spot::Ref(ty, at),
        ),
    }
}
