//! Walks along the lists of a pool.
ghost use Rattle.std.specs.Prelude.{◌≡◌, ◌+◌, ◌<◌, ◌≤◌, ℕ, Bool, ◌&&◌, ◌||◌, not, false, true, Some, None, [], ◌∷◌, ◌++◌, List, ◌≢◌, length};
ghost use Rattle.lx_caps.specs.Precedence.{follows, is_found, IsFirstPrincipal};
ghost use Rattle.lx_caps.specs.declared.Principal.{Principal};
ghost use Rattle.lx_cap_nodes.specs.Words.{is_live, names, nodes_at, nodes_of, pool_with, value_in};
ghost use Rattle.lx_cap_nodes.specs.Names.{first_of};
ghost use Rattle.lx_cap_nodes.specs.Bits.{is_set};
ghost use Rattle.std.specs.Int.{bit_at};
ghost use Rattle.lx_cap_lists.specs.declared.entry.Entry.{Entry};
ghost use Rattle.lx_cap_lists.specs.declared.holder.Holder.{Holder};
ghost use Rattle.lx_cap_lists.specs.Holders.{counts, held_by, principal_of};
ghost use Rattle.lx_cap_lists.specs.Entries.{HasBits, bit_among, cut_all, cut_node, gives_bit, with_mask};
ghost use Rattle.lx_cap_nodes.specs.declared.pool.ListName.{ListName};
ghost use Rattle.lx_caps.specs.Order.{is_behind, IsFirst};
ghost use Rattle.lx_caps.specs.declared.Atom.{Atom};
ghost use Rattle.lx_cap_lists.specs.Atoms.{atom_among, gives_atom, spot_fits};
ghost use Rattle.lx_cap_lists.specs.Kept.{all_nodes, AllNodes, AreAll, Fits, IsMask, Respects, width_of};
ghost use Rattle.lx_cap_lists.specs.Lists.{family_of};
ghost use Rattle.lx_cap_lists.specs.Walks.{from, HasCome, StandsAt};

use crate::bits::has_all;
use crate::entry::{Entry, atom_behind, sooner};
use crate::holder::{Holder, InReach, asked_for, counts, principal_of};
use crate::pool::Pool;
use lx_cap_nodes::bits::{is_set, with};
use lx_cap_nodes::{Family, ListName};
use lx_caps::{Atom, Principal, Steps, earlier, follows, is_same};
use std::sync::ledger::Ledger;

/// What a walk finds at a node, and the node behind.
#[derive(Clone, Copy)]
pub struct Seen {
    pub entry: Entry,
    pub next: Option<u64>,
}

fn family_of(list: ListName) -> Family
    ensures { result ≡ family_of list }
{
    match list {
        ListName::Place(_) => Family::Place,
        ListName::Owner(_) => Family::Owner,
    }
}

/// Looks at a node of a list.
pub fn visit(pool: &Pool, list: ListName, node: u64) -> Seen
    requires { HasCome (nodes_of list pool.now) (Some node) }
    ensures entry { from (Some node) (nodes_of list pool.now) ≡ (node, result.entry) ∷ from result.next (nodes_of list pool.now) }
    ensures next { HasCome (nodes_of list pool.now) result.next }
{
    pool.laws();
    Seen {
        entry: *pool.value(node),
        next: pool.after(node, family_of(list)),
    }
}

/// The bits at a place that someone in reach has.
pub fn reached(pool: &Pool, place: u64, in_reach: InReach) -> u64
    requires { place < length pool.now.places }
    ensures { (k : ℕ) → is_set result k ≡ bit_among (counts in_reach) (nodes_at pool.now.places place) k }
{
    pool.laws();
    let mut bits = 0;
    let mut node = pool.first(ListName::Place(place));
    while let Some(n) = node {
        let seen = visit(pool, ListName::Place(place), n);
        if counts(in_reach, seen.entry.holder) {
            bits = with(bits, seen.entry.mask);
        }
        node = seen.next;
    }
    bits
}

/// The bits at a place that the principal itself keeps.
fn kept_bits(pool: &Pool, place: u64, in_reach: InReach) -> u64
    ensures { (k : ℕ) → is_set result k ≡ true → bit_among (counts in_reach) (nodes_at pool.now.places place) k ≡ true }
{
    pool.laws();
    match pool.node_of(place, Holder::Keeper(asked_for(in_reach))) {
        Some(n) => pool.value(n).mask,
        None => 0,
    }
}

/// The bits at a place of whoever came last to it, where that one is in reach.
fn newest_bits(pool: &Pool, place: u64, in_reach: InReach) -> u64
    requires { place < length pool.now.places }
    ensures { (k : ℕ) → is_set result k ≡ true → bit_among (counts in_reach) (nodes_at pool.now.places place) k ≡ true }
{
    pool.laws();
    match pool.first(ListName::Place(place)) {
        Some(n) => {
            let newest = visit(pool, ListName::Place(place), n).entry;
            if counts(in_reach, newest.holder) {
                newest.mask
            } else {
                0
            }
        }
        None => 0,
    }
}

/// Says whether someone in reach has each of these bits at a place. Where whoever came last, or the principal itself, has them all, no other
/// holder is looked at.
pub fn has_bits(pool: &Pool, place: u64, in_reach: InReach, wanted: u64) -> bool
    requires { place < length pool.now.places }
    ensures { HasBits (counts in_reach) (nodes_at pool.now.places place) wanted result }
{
    if has_all(newest_bits(pool, place, in_reach), wanted) {
        return true;
    }
    if has_all(kept_bits(pool, place, in_reach), wanted) {
        return true;
    }
    has_all(reached(pool, place, in_reach), wanted)
}

/// Writes the mask of a node.
fn put_mask(pool: &mut Pool, n: u64, mask: u64)
    requires { is_live pool.old n ≡ true }
    ensures written { (v : Entry) → value_in n pool.old.places ≡ Some v → pool.new ≡ pool_with pool.old n (with_mask v mask) }
    ensures kept { (p : ListName → Entry → Bool) → Respects p → AreAll p pool.old → AreAll p pool.new }
{
    pool.laws();
    pool.put_mask(n, mask);
}

/// Adds bits to a node of a place.
fn widen(pool: &mut Pool, place: u64, n: u64, more: u64)
    requires { StandsAt (nodes_at pool.old.places place) n (λ e. Unit {0}) }
    ensures here { (xs ys : List (ℕ × Entry)) (v : Entry) → nodes_at pool.old.places place ≡ xs ++ (n, v) ∷ ys → (m : ℕ) × (nodes_at pool.new.places place ≡ xs ++ (n, with_mask v m) ∷ ys)
        × ((k : ℕ) → is_set m k ≡ (is_set v.mask k || is_set more k)) }
    ensures others { (l : ℕ) → l ≢ place → nodes_at pool.new.places l ≡ nodes_at pool.old.places l }
    ensures counts { (length pool.new.places ≡ length pool.old.places) × (length pool.new.owners ≡ length pool.old.owners) }
    ensures spare { pool.new.spare ≡ pool.old.spare }
    ensures nodes { ((k : ℕ) → width_of place ≤ k → bit_at more k ≡ 0) → AllNodes pool.old.places → AllNodes pool.new.places }
    ensures kept { (p : ListName → Entry → Bool) → Respects p → AreAll p pool.old → AreAll p pool.new }
{
    pool.laws();
    let mask = pool.value(n).mask;
    put_mask(pool, n, with(mask, more));
}

/// Gives a holder bits at a place.
pub fn give(pool: &mut Pool, place: u64, owner: u64, entry: Entry)
    requires place { place < length pool.old.places }
    requires owner { owner < length pool.old.owners }
    requires room { 0 < pool.old.spare }
    ensures here { (among : Holder → Bool) (k : ℕ) → bit_among among (nodes_at pool.new.places place) k ≡ (gives_bit among k entry || bit_among among (nodes_at pool.old.places place) k) }
    ensures others { (l : ℕ) → l ≢ place → nodes_at pool.new.places l ≡ nodes_at pool.old.places l }
    ensures counts { (length pool.new.places ≡ length pool.old.places) × (length pool.new.owners ≡ length pool.old.owners) }
    ensures spare { pool.old.spare ≤ pool.new.spare + 1 }
    ensures nodes { IsMask (width_of place) entry.mask → AllNodes pool.old.places → AllNodes pool.new.places }
    ensures kept { (p : ListName → Entry → Bool) → Respects p → Fits p place owner entry → AreAll p pool.old → AreAll p pool.new }
{
    match pool.node_of(place, entry.holder) {
        Some(n) => widen(pool, place, n, entry.mask),
        None => {
            pool.link(place, owner, entry);
        }
    }
}

/// Takes bits from a node of a place, and the node from its lists where none are left.
fn cut(pool: &mut Pool, place: u64, n: u64, bits: u64)
    requires { StandsAt (nodes_at pool.old.places place) n (λ e. Unit {0}) }
    ensures here { (xs ys : List (ℕ × Entry)) (v : Entry) → nodes_at pool.old.places place ≡ xs ++ (n, v) ∷ ys → nodes_at pool.new.places place ≡ xs ++ cut_node bits (n, v) ys }
    ensures others { (l : ℕ) → l ≢ place → nodes_at pool.new.places l ≡ nodes_at pool.old.places l }
    ensures counts { (length pool.new.places ≡ length pool.old.places) × (length pool.new.owners ≡ length pool.old.owners) }
    ensures spare { pool.old.spare ≤ pool.new.spare }
    ensures kept { (p : ListName → Entry → Bool) → Respects p → AreAll p pool.old → AreAll p pool.new }
{
    pool.laws();
    let left = pool.value(n).mask & !bits;
    if left == 0 {
        pool.unlink(n);
    } else {
        put_mask(pool, n, left);
    }
}

/// Takes bits at a place from every holder.
pub fn take<L: Ledger>(pool: &mut Pool, place: u64, bits: u64, steps: &mut Steps<L>)
    requires place { place < length pool.old.places }
    ensures here { nodes_at pool.new.places place ≡ cut_all bits (nodes_at pool.old.places place) }
    ensures others { (l : ℕ) → l ≢ place → nodes_at pool.new.places l ≡ nodes_at pool.old.places l }
    ensures counts { (length pool.new.places ≡ length pool.old.places) × (length pool.new.owners ≡ length pool.old.owners) }
    ensures spare { pool.old.spare ≤ pool.new.spare }
    ensures kept { (p : ListName → Entry → Bool) → Respects p → AreAll p pool.old → AreAll p pool.new }
    ensures cost { steps.new ≡ steps.old + length (nodes_at pool.old.places place) }
{
    pool.laws();
    let mut node = pool.first(ListName::Place(place));
    while let Some(n) = node {
        steps.tick();
        let seen = visit(pool, ListName::Place(place), n);
        cut(pool, place, n, bits);
        pool.laws();
        node = seen.next;
    }
}

/// The first owner of a bit at a place behind `after`.
pub fn first_owner(pool: &Pool, place: u64, bit: u64, after: Option<Principal>) -> Option<Principal>
    requires place { place < length pool.now.places }
    requires bit { bit < 64 }
    ensures { IsFirstPrincipal (λ q. follows after q && bit_among (held_by q) (nodes_at pool.now.places place) bit) result }
{
    pool.laws();
    let mut first = None;
    let mut node = pool.first(ListName::Place(place));
    while let Some(n) = node {
        let seen = visit(pool, ListName::Place(place), n);
        first = earlier(first, owner_by(seen.entry, bit, after));
        node = seen.next;
    }
    first
}

/// The principal that has the entry, if it has the bit and comes behind `after`.
fn owner_by(entry: Entry, bit: u64, after: Option<Principal>) -> Option<Principal>
    requires { bit < 64 }
    ensures { (q : Principal) → (follows after q && (held_by q entry.holder && is_set entry.mask bit)) ≡ is_found result q }
{
    let owner = principal_of(entry.holder);
    if follows(after, owner) && is_set(entry.mask, bit) {
        Some(owner)
    } else {
        None
    }
}

/// The first atom behind `after` that an entry gives a principal.
fn atom_by(entry: Entry, who: Principal, after: Option<Atom>) -> Option<Atom>
    requires { spot_fits entry.spot ≡ true }
    ensures { IsFirst (λ x. is_behind after x && gives_atom who x entry) result }
{
    if is_same(who, principal_of(entry.holder)) {
        atom_behind(entry, after)
    } else {
        None
    }
}

/// The first atom behind `after` that a list of owners gives a principal.
pub fn first_owned(pool: &Pool, list: u64, who: Principal, after: Option<Atom>) -> Option<Atom>
    requires list { list < length pool.now.owners }
    requires fit { all_nodes (λ e. spot_fits e.spot) (nodes_at pool.now.owners list) ≡ true }
    ensures { IsFirst (λ x. is_behind after x && atom_among who (nodes_at pool.now.owners list) x) result }
{
    pool.laws();
    let mut first = None;
    let mut node = pool.first(ListName::Owner(list));
    while let Some(n) = node {
        let seen = visit(pool, ListName::Owner(list), n);
        first = sooner(first, atom_by(seen.entry, who, after));
        node = seen.next;
    }
    first
}

/// Takes every node of a list of owners out of both its lists.
pub fn take_all<L: Ledger>(pool: &mut Pool, list: u64, steps: &mut Steps<L>)
    requires { list < length pool.old.owners }
    ensures gone { nodes_at pool.new.owners list ≡ [] }
    ensures stays { (among : Holder → Bool) → all_nodes (λ e. not (among e.holder)) (nodes_at pool.old.owners list) ≡ true → (l k : ℕ) → bit_among among (nodes_at pool.new.places l) k ≡ bit_among among (nodes_at pool.old.places l) k }
    ensures other_owners { (l : ℕ) → l ≢ list → nodes_at pool.new.owners l ≡ nodes_at pool.old.owners l }
    ensures empty { (l : ℕ) → nodes_at pool.old.places l ≡ [] → nodes_at pool.new.places l ≡ [] }
    ensures counts { (length pool.new.places ≡ length pool.old.places) × (length pool.new.owners ≡ length pool.old.owners) }
    ensures spare { pool.old.spare ≤ pool.new.spare }
    ensures nodes { AllNodes pool.old.places → AllNodes pool.new.places }
    ensures kept { (p : ListName → Entry → Bool) → AreAll p pool.old → AreAll p pool.new }
    ensures cost { steps.new ≡ steps.old + length (nodes_at pool.old.owners list) }
{
    let mut node = pool.first(ListName::Owner(list));
    while let Some(n) = node {
        steps.tick();
        take_out(pool, list, n);
        node = pool.first(ListName::Owner(list));
    }
}

/// Takes the first node of a list of owners out of both its lists.
fn take_out(pool: &mut Pool, list: u64, n: u64)
    requires list { list < length pool.old.owners }
    requires first { first_of (names (nodes_at pool.old.owners list)) ≡ Some n }
    ensures rest { (v : Entry) × (nodes_at pool.old.owners list ≡ (n, v) ∷ nodes_at pool.new.owners list)
        × ((among : Holder → Bool) → among v.holder ≡ false → (l k : ℕ) → bit_among among (nodes_at pool.new.places l) k ≡ bit_among among (nodes_at pool.old.places l) k) }
    ensures other_owners { (l : ℕ) → l ≢ list → nodes_at pool.new.owners l ≡ nodes_at pool.old.owners l }
    ensures empty { (l : ℕ) → nodes_at pool.old.places l ≡ [] → nodes_at pool.new.places l ≡ [] }
    ensures counts { (length pool.new.places ≡ length pool.old.places) × (length pool.new.owners ≡ length pool.old.owners) }
    ensures spare { pool.old.spare ≤ pool.new.spare }
    ensures nodes { AllNodes pool.old.places → AllNodes pool.new.places }
    ensures kept { (p : ListName → Entry → Bool) → AreAll p pool.old → AreAll p pool.new }
{
    pool.laws();
    pool.unlink(n);
}
