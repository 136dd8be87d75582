//! What principals hold.
ghost use Rattle.std.specs.Prelude.{true, false, ◌≡◌, ◌+◌, ◌*◌, ◌/◌, ◌%◌, ◌^◌, ◌<◌, ◌≤◌, ◌&&◌, ◌||◌, length, List, Some, IfSome};
ghost use Rattle.lx_caps.specs.declared.Principal.{Principal};
ghost use Rattle.lx_caps.specs.History.{each_byte};
ghost use Rattle.lx_caps.specs.Placed.{is_placed};
ghost use Rattle.lx_caps.specs.Regions.{mapped};
ghost use Rattle.lx_caps.specs.Precedence.{follows, IsFirstPrincipal};
ghost use Rattle.lx_cap_lists.specs.Holders.{counts, held_by};
ghost use Rattle.lx_caps.specs.declared.Atom.{Atom};
ghost use Rattle.lx_caps.specs.declared.Atom.TheVariants.{Byte};
ghost use Rattle.lx_cap_lists.specs.Tables.{Key};
ghost use Rattle.lx_caps.specs.Order.{is_behind, IsFirst};
ghost use Rattle.lx_cap_lists.specs.Kept.{AreAll};
ghost use Rattle.lx_cap_lists.specs.Lists.{some_below};
ghost use Rattle.lx_cap_lists.specs.Loans.{loans_of};
ghost use Rattle.lx_cap_lists.specs.Owned.{AllFit, lent_atom, listed_atom, owned_from};
ghost use Rattle.lx_cap_lists.specs.Tables.{behind_parts, bit_of, HoldsPart, is_in_order, owner_key, place_in, place_of, shown_at, shown_cap};
ghost use Rattle.lx_cap_nodes.specs.Pieces.{part_list};

use crate::caps::list_of_key;
use crate::loans::THREADS;
use indexmap::IndexSet;
use lx_cap_lists::{
    InReach, Key, PART, Pool, bits_from, call_key, first_byte, first_owned, first_owner, has_bits,
    list_of_part, loan_key, owner_key, parts_end, piece_bits, piece_of, place_in, reached, ref_key,
    sooner,
};
use lx_caps::{Atom, Cap, Principal};

/// Whether each byte of a range in one part is had in reach.
fn holds_part(pool: &Pool, in_reach: InReach, at: u64, size: u64, part: u64) -> bool
    requires within { at + size + 63 < 2 ^ 64 }
    requires low { at / 64 ≤ part }
    requires high { part * 64 < at + size }
    requires some { 0 < size }
    requires lists { 0xc000 ≤ length pool.now.places }
    ensures { HoldsPart (λ b. shown_at pool.now.places (part_list (b / 64)) (counts in_reach) (b % 64)) at size part result }
{
    match list_of_part(part) {
        Some(place) => has_bits(pool, place, in_reach, piece_bits(piece_of(at, size, part))),
        None => false,
    }
}

/// Whether each byte of a range is had in reach.
fn holds_range(pool: &Pool, in_reach: InReach, at: u64, size: u64) -> bool
    requires placed { mapped at size ≡ true }
    requires some { 0 < size }
    requires lists { 0xc000 ≤ length pool.now.places }
    ensures { result ≡ each_byte (λ b. shown_at pool.now.places (part_list (b / 64)) (counts in_reach) (b % 64)) at size }
{
    for part in at / PART..parts_end(at, size) {
        if !holds_part(pool, in_reach, at, size, part) {
            return false;
        }
    }
    true
}

/// Whether a call or a reference is had in reach.
fn holds_atom(pool: &Pool, atoms: &IndexSet<Key>, in_reach: InReach, key: Key) -> bool
    requires lists { 0xc000 + length atoms.now.keys ≤ length pool.now.places }
    requires small { length pool.now.places < 2 ^ 64 }
    ensures { result ≡ shown_at pool.now.places (behind_parts (place_in atoms.now.keys key)) (counts in_reach) 0 }
{
    match list_of_key(atoms, key) {
        Some(place) => has_bits(pool, place, in_reach, 1),
        None => false,
    }
}

/// Whether each atom of a capability is had in reach.
pub(crate) fn holds_cap(pool: &Pool, atoms: &IndexSet<Key>, in_reach: InReach, cap: Cap) -> bool
    requires placed { is_placed cap ≡ true }
    requires lists { 0xc000 + length atoms.now.keys ≤ length pool.now.places }
    requires small { length pool.now.places < 2 ^ 64 }
    ensures { result ≡ shown_cap pool.now.places atoms.now.keys (counts in_reach) cap }
{
    match cap {
        Cap::Write { at, size } => size == 0 || holds_range(pool, in_reach, at, size),
        Cap::Call { at } => holds_atom(pool, atoms, in_reach, call_key(at)),
        Cap::Ref { ty, at } => holds_atom(pool, atoms, in_reach, ref_key(ty, at)),
    }
}

fn list_of_atom(atoms: &IndexSet<Key>, atom: Atom) -> Option<u64>
    requires { 0xc000 + length atoms.now.keys < 2 ^ 64 }
    ensures { result ≡ place_of atoms.now.keys atom }
{
    match atom {
        Atom::Byte(b) => list_of_part(b / PART),
        Atom::Call(at) => list_of_key(atoms, call_key(at)),
        Atom::Ref(ty, at) => list_of_key(atoms, ref_key(ty, at)),
    }
}

fn bit_of(atom: Atom) -> u64
    ensures { result ≡ bit_of atom }
{
    match atom {
        Atom::Byte(b) => b % PART,
        _ => 0,
    }
}

/// The first owner of an atom behind `after`.
pub(crate) fn owner_behind(
    pool: &Pool,
    atoms: &IndexSet<Key>,
    atom: Atom,
    after: Option<Principal>,
) -> Option<Principal>
    requires lists { 0xc000 + length atoms.now.keys ≤ length pool.now.places }
    requires small { length pool.now.places < 2 ^ 64 }
    ensures { IsFirstPrincipal (λ q. follows after q && shown_at pool.now.places (place_of atoms.now.keys atom) (held_by q) (bit_of atom)) result }
{
    match list_of_atom(atoms, atom) {
        Some(place) => first_owner(pool, place, bit_of(atom), after),
        None => None,
    }
}

/// What is looked for: the first atom behind `after` that the principal owns.
#[derive(Clone, Copy)]
pub(crate) struct Wanted {
    pub(crate) who: Principal,
    pub(crate) after: Option<Atom>,
}

/// What is looked for in the list of owners that has this key.
fn owned_by_list(pool: &Pool, owners: &IndexSet<Key>, key: Key, wanted: Wanted) -> Option<Atom>
    requires lists { length owners.now.keys ≤ length pool.now.owners }
    requires fit { AllFit pool.now.owners }
    ensures { IsFirst (λ x. is_behind wanted.after x && listed_atom pool.now.owners owners.now.keys wanted.who x key) result }
{
    match place_in(owners, key) {
        Some(list) => first_owned(pool, list, wanted.who, wanted.after),
        None => None,
    }
}

/// What is looked for in the lists of so many loans of a thread.
fn owned_on_loans_of(
    pool: &Pool,
    owners: &IndexSet<Key>,
    thread: u32,
    count: u64,
    wanted: Wanted,
) -> Option<Atom>
    requires lists { length owners.now.keys ≤ length pool.now.owners }
    requires fit { AllFit pool.now.owners }
    ensures { IsFirst (λ x. is_behind wanted.after x && lent_atom pool.now.owners owners.now.keys wanted.who x thread count) result }
{
    let mut first = None;
    for older in 0..count {
        let found = owned_by_list(pool, owners, loan_key(thread, older), wanted);
        first = sooner(first, found);
    }
    first
}

/// What is looked for in the lists of all loans.
fn owned_on_loans(
    pool: &Pool,
    owners: &IndexSet<Key>,
    loans: &[u64],
    wanted: Wanted,
) -> Option<Atom>
    requires lists { length owners.now.keys ≤ length pool.now.owners }
    requires fit { AllFit pool.now.owners }
    requires threads { length loans.now ≡ 16 }
    ensures { IsFirst (λ x. is_behind wanted.after x && some_below 16 (λ t. lent_atom pool.now.owners owners.now.keys wanted.who x t (loans_of loans.now t))) result }
{
    let mut first = None;
    for thread in 0..THREADS {
        let found = owned_on_loans_of(pool, owners, thread, loans[thread as usize], wanted);
        first = sooner(first, found);
    }
    first
}

/// The first byte of a part, from one of its places on, that the principal owns.
fn owned_from(pool: &Pool, who: Principal, part: u64, from: u64) -> Option<Atom>
    requires lists { 0xc000 ≤ length pool.now.places }
    ensures { IsFirst (owned_from pool.now.places who part from) result }
{
    match list_of_part(part) {
        Some(place) => {
            let bits = reached(pool, place, InReach::Own(who));
            first_byte(part, bits_from(bits, from))
        }
        None => None,
    }
}

/// What is looked for behind a byte, if it lies in the byte's part or in the next one.
fn owned_near(pool: &Pool, who: Principal, byte: u64) -> Option<Atom>
    requires lists { 0xc000 ≤ length pool.now.places }
    ensures { (atoms : List Key) → IfSome result (λ next. IsFirst (λ x. is_behind (Some (Byte byte)) x && shown_at pool.now.places (place_of atoms x) (held_by who) (bit_of x)) (Some next)) }
{
    let part = byte / PART;
    match owned_from(pool, who, part, byte % PART + 1) {
        Some(next) => Some(next),
        None => owned_from(pool, who, part + 1, 0),
    }
}

/// What is looked for behind an atom, if it is a byte near it.
fn owned_near_atom(pool: &Pool, who: Principal, last: Atom) -> Option<Atom>
    requires lists { 0xc000 ≤ length pool.now.places }
    ensures { (atoms : List Key) → IfSome result (λ next. IsFirst (λ x. is_behind (Some last) x && shown_at pool.now.places (place_of atoms x) (held_by who) (bit_of x)) (Some next)) }
{
    match last {
        Atom::Byte(byte) => owned_near(pool, who, byte),
        _ => None,
    }
}

/// What is looked for, if a look at the part of the last byte and the next part finds it.
fn owned_soon(pool: &Pool, wanted: Wanted) -> Option<Atom>
    requires lists { 0xc000 ≤ length pool.now.places }
    ensures { (atoms : List Key) → IfSome result (λ next. IsFirst (λ x. is_behind wanted.after x && shown_at pool.now.places (place_of atoms x) (held_by wanted.who) (bit_of x)) (Some next)) }
{
    match wanted.after {
        Some(last) => owned_near_atom(pool, wanted.who, last),
        None => None,
    }
}

/// What is looked for: near the last byte, or else by the lists of the principal and of all loans.
pub(crate) fn owned_behind(
    pool: &Pool,
    owners: &IndexSet<Key>,
    atoms: &IndexSet<Key>,
    loans: &[u64],
    wanted: Wanted,
) -> Option<Atom>
    requires lists { length owners.now.keys ≤ length pool.now.owners }
    requires places { 0xc000 ≤ length pool.now.places }
    requires threads { length loans.now ≡ 16 }
    requires order { AreAll (is_in_order owners.now.keys atoms.now.keys loans.now) pool.now }
    ensures { IsFirst (λ x. is_behind wanted.after x && shown_at pool.now.places (place_of atoms.now.keys x) (held_by wanted.who) (bit_of x)) result }
{
    match owned_soon(pool, wanted) {
        Some(next) => Some(next),
        None => owned_by_lists(pool, owners, atoms, loans, wanted),
    }
}

/// What is looked for, by the list of the principal and those of all loans.
fn owned_by_lists(
    pool: &Pool,
    owners: &IndexSet<Key>,
    atoms: &IndexSet<Key>,
    loans: &[u64],
    wanted: Wanted,
) -> Option<Atom>
    requires lists { length owners.now.keys ≤ length pool.now.owners }
    requires threads { length loans.now ≡ 16 }
    requires order { AreAll (is_in_order owners.now.keys atoms.now.keys loans.now) pool.now }
    ensures { IsFirst (λ x. is_behind wanted.after x && shown_at pool.now.places (place_of atoms.now.keys x) (held_by wanted.who) (bit_of x)) result }
{
    pool.laws();
    let kept = owned_by_list(pool, owners, owner_key(wanted.who), wanted);
    let lent = owned_on_loans(pool, owners, loans, wanted);
    sooner(kept, lent)
}
