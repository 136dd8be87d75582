//! Walks along the list of a part.
ghost use Rattle.std.specs.Prelude.{◌≡◌, ◌≢◌, ◌+◌, ◌*◌, ◌^◌, ◌<◌, ◌≤◌, ℕ, Bool, ◌&&◌, ◌||◌, not, nat_eq, nat_le, nat_lt, true, false, Some, ◌∷◌, ◌++◌, List, length};
ghost use Rattle.lx_caps.specs.declared.Principal.{Principal};
ghost use Rattle.lx_caps.specs.declared.Atom.TheVariants.{Byte};
ghost use Rattle.lx_caps.specs.History.{History, owns, same_principal};
ghost use Rattle.lx_caps.specs.Precedence.{IsFirstPrincipal};
ghost use Rattle.indexmap.specs.IndexMap.{spare};
ghost use Rattle.lx_cap_nodes.specs.Words.{is_live, nodes_at, pool_with, value_in};
ghost use Rattle.lx_cap_nodes.specs.Bits.{is_set};
ghost use Rattle.lx_writer_sets.specs.declared.entry.Entry.{Entry};
ghost use Rattle.lx_writer_sets.specs.Index.{AreIndexed};
ghost use Rattle.lx_writer_sets.specs.Nodes.{AllNodes, HasBit, has_nodes, put_node, with_mask};
ghost use Rattle.lx_writer_sets.specs.Sets.{IsNobody, IsSomePrincipal, is_given, writes_in};
ghost use Rattle.lx_writer_sets.specs.Walks.{from, HasCome, StandsAt};

use crate::PrincipalTest;
use crate::entry::{Entry, SlotPart, kept_mask, touches, writer_by};
use crate::index::{Table, key_of, node_at, put, remove};
use lx_cap_nodes::bits::with;
use lx_cap_nodes::{Family, ListName, NodePool, Piece};
use lx_caps::{CapStore, Principal, Steps, earlier};
use std::sync::ledger::Ledger;

pub(crate) type Pool = NodePool<Entry>;

/// What a walk finds at a node, and the node behind.
#[derive(Clone, Copy)]
struct Seen {
    entry: Entry,
    next: Option<u64>,
}

/// Looks at a node of a list.
fn visit(pool: &Pool, list: u64, node: u64) -> Seen
    requires { HasCome (nodes_at pool.now.places list) (Some node) }
    ensures entry { from (Some node) (nodes_at pool.now.places list) ≡ (node, result.entry) ∷ from result.next (nodes_at pool.now.places list) }
    ensures next { HasCome (nodes_at pool.now.places list) result.next }
{
    pool.laws();
    Seen {
        entry: *pool.value(node),
        next: pool.after(node, Family::Place),
    }
}

/// Writes the mask of a node.
fn put_mask(pool: &mut Pool, n: u64, mask: u64)
    requires { is_live pool.old n ≡ true }
    ensures { (v : Entry) → value_in n pool.old.places ≡ Some v → pool.new ≡ pool_with pool.old n (with_mask v mask) }
{
    let entry = pool.value_mut(n);
    entry.mask = mask;
}

/// Adds bits to a node of a list.
fn widen(pool: &mut Pool, list: u64, n: u64, more: u64)
    requires { StandsAt (nodes_at pool.old.places list) n (λ e. Unit {0}) }
    ensures here { (xs ys : List (ℕ × Entry)) (v : Entry) → nodes_at pool.old.places list ≡ xs ++ (n, v) ∷ ys → (m : ℕ) × (nodes_at pool.new.places list ≡ xs ++ (n, with_mask v m) ∷ ys)
        × ((k : ℕ) → is_set m k ≡ (is_set v.mask k || is_set more k)) }
    ensures others { (l : ℕ) → l ≢ list → nodes_at pool.new.places l ≡ nodes_at pool.old.places l }
    ensures counts { (length pool.new.places ≡ length pool.old.places) × (length pool.new.owners ≡ length pool.old.owners) }
    ensures spare { pool.new.spare ≡ pool.old.spare }
{
    pool.laws();
    let mask = pool.value(n).mask;
    put_mask(pool, n, with(mask, more));
}

/// Records what an entry says. The table finds the writer's node. It takes at most one of the room of each.
pub(crate) fn add(pool: &mut Pool, table: &mut Table, list: u64, entry: Entry)
    requires list { list < length pool.old.places }
    requires owner { 0 < length pool.old.owners }
    requires room { 0 < pool.old.spare }
    requires keys { 0 < spare table.old }
    requires bit { HasBit entry.mask }
    requires indexed { AreIndexed table.old.entries pool.old.places }
    ensures here { (k : ℕ) (q : Principal) → is_given (nodes_at pool.new.places list) k q ≡ ((same_principal q entry.writer && is_set entry.mask k) || is_given (nodes_at pool.old.places list) k q) }
    ensures some { has_nodes (nodes_at pool.new.places list) ≡ true }
    ensures others { (l : ℕ) → l ≢ list → nodes_at pool.new.places l ≡ nodes_at pool.old.places l }
    ensures counts { (length pool.new.places ≡ length pool.old.places) × (length pool.new.owners ≡ length pool.old.owners) }
    ensures spare { pool.old.spare ≤ pool.new.spare + 1 }
    ensures keys { spare table.old ≤ spare table.new + 1 }
    ensures nodes { AllNodes pool.old.places → AllNodes pool.new.places }
    ensures indexed { AreIndexed table.new.entries pool.new.places }
{
    let key = key_of(list, entry.writer);
    match node_at(table, key) {
        Some(n) => widen(pool, list, n, entry.mask),
        None => {
            let n = pool.link(list, 0, entry);
            put(table, key, n);
        }
    }
}

/// Writes the mask of a node of a list, and takes the node out where no bit is left.
fn keep(pool: &mut Pool, list: u64, n: u64, mask: u64)
    requires { StandsAt (nodes_at pool.old.places list) n (λ e. Unit {0}) }
    ensures here { (xs ys : List (ℕ × Entry)) (v : Entry) → nodes_at pool.old.places list ≡ xs ++ (n, v) ∷ ys → nodes_at pool.new.places list ≡ xs ++ put_node mask (n, v) ys }
    ensures others { (l : ℕ) → l ≢ list → nodes_at pool.new.places l ≡ nodes_at pool.old.places l }
    ensures counts { (length pool.new.places ≡ length pool.old.places) × (length pool.new.owners ≡ length pool.old.owners) }
    ensures spare { pool.old.spare ≤ pool.new.spare }
    ensures nodes { AllNodes pool.old.places → AllNodes pool.new.places }
{
    pool.laws();
    if mask == 0 {
        pool.unlink(n);
    } else {
        put_mask(pool, n, mask);
    }
}

/// Writes the mask of a node of a list, as `keep` does. Where the node goes, its writer leaves the table.
fn keep_indexed(pool: &mut Pool, table: &mut Table, list: u64, n: u64, mask: u64)
    requires { StandsAt (nodes_at pool.old.places list) n (λ e. Unit {0}) }
    ensures here { (xs ys : List (ℕ × Entry)) (v : Entry) → nodes_at pool.old.places list ≡ xs ++ (n, v) ∷ ys → nodes_at pool.new.places list ≡ xs ++ put_node mask (n, v) ys }
    ensures others { (l : ℕ) → l ≢ list → nodes_at pool.new.places l ≡ nodes_at pool.old.places l }
    ensures counts { (length pool.new.places ≡ length pool.old.places) × (length pool.new.owners ≡ length pool.old.owners) }
    ensures spare { pool.old.spare ≤ pool.new.spare }
    ensures keys { spare table.old ≤ spare table.new }
    ensures nodes { AllNodes pool.old.places → AllNodes pool.new.places }
    ensures indexed { AllNodes pool.old.places → AreIndexed table.old.entries pool.old.places → AreIndexed table.new.entries pool.new.places }
{
    pool.laws();
    let writer = pool.value(n).writer;
    keep(pool, list, n, mask);
    if mask == 0 {
        remove(table, key_of(list, writer));
    }
}

/// Clears the bytes of a piece in each node of its part's list whose writer does not own them.
pub(crate) fn forget<C: CapStore>(
    pool: &mut Pool,
    table: &mut Table,
    list: u64,
    piece: Piece,
    caps: &C,
)
    requires list { list < length pool.old.places }
    requires some { piece.from < piece.to }
    requires to { piece.to ≤ 64 }
    requires within { piece.part * 64 + 64 ≤ 2 ^ 64 }
    ensures here { (h : History) → C.stands caps.now h → (k : ℕ) → k < 64 → (q : Principal)
        → is_given (nodes_at pool.new.places list) k q ≡ (is_given (nodes_at pool.old.places list) k q && (not (nat_le piece.from k && nat_lt k piece.to) || owns h q (Byte (piece.part * 64 + k)))) }
    ensures others { (l : ℕ) → l ≢ list → nodes_at pool.new.places l ≡ nodes_at pool.old.places l }
    ensures counts { (length pool.new.places ≡ length pool.old.places) × (length pool.new.owners ≡ length pool.old.owners) }
    ensures spare { pool.old.spare ≤ pool.new.spare }
    ensures keys { spare table.old ≤ spare table.new }
    ensures nodes { AllNodes pool.old.places → AllNodes pool.new.places }
    ensures indexed { AllNodes pool.old.places → AreIndexed table.old.entries pool.old.places → AreIndexed table.new.entries pool.new.places }
{
    pool.laws();
    let mut node = pool.first(ListName::Place(list));
    while let Some(n) = node {
        let seen = visit(pool, list, n);
        let mask = kept_mask(caps, seen.entry, piece);
        keep_indexed(pool, table, list, n, mask);
        pool.laws();
        node = seen.next;
    }
}

/// The first of a principal that was found and the writers in a list of a slot that pass the test. Each is asked once.
pub(crate) fn first_writer<T: PrincipalTest>(
    pool: &Pool,
    list: u64,
    at: SlotPart,
    test: &T,
    found: Option<Principal>,
) -> Option<Principal>
    requires list { list < length pool.now.places }
    ensures { (t : Principal → Bool) → T.stands test.now t → (p : Principal → Bool) → IsFirstPrincipal p found
        → IsFirstPrincipal (λ q. p q || (t q && writes_in at.part (nodes_at pool.now.places list) at.slot q)) result }
{
    pool.laws();
    let mut first = found;
    let mut node = pool.first(ListName::Place(list));
    while let Some(n) = node {
        let seen = visit(pool, list, n);
        first = earlier(first, writer_by(seen.entry, at, test));
        node = seen.next;
    }
    first
}

/// Some writer in a list of a slot that passes the test. None is asked behind the first that is met.
pub(crate) fn some_writer<T: PrincipalTest>(
    pool: &Pool,
    list: u64,
    at: SlotPart,
    test: &T,
) -> Option<Principal>
    requires { list < length pool.now.places }
    ensures { (t : Principal → Bool) → T.stands test.now t → IsSomePrincipal (λ q. t q && writes_in at.part (nodes_at pool.now.places list) at.slot q) result }
{
    pool.laws();
    let mut node = pool.first(ListName::Place(list));
    while let Some(n) = node {
        let seen = visit(pool, list, n);
        if let Some(writer) = writer_by(seen.entry, at, test) {
            return Some(writer);
        }
        node = seen.next;
    }
    None
}

/// Whether a list has the principal as a writer of a slot. The table finds its node.
pub(crate) fn writes(pool: &Pool, table: &Table, list: u64, at: SlotPart, who: Principal) -> bool
    requires nodes { AllNodes pool.now.places }
    requires indexed { AreIndexed table.now.entries pool.now.places }
    ensures { result ≡ writes_in at.part (nodes_at pool.now.places list) at.slot who }
{
    pool.laws();
    let key = key_of(list, who);
    match node_at(table, key) {
        Some(n) => touches(*pool.value(n), at),
        None => false,
    }
}

/// Whether a list has no writer of a slot. Each node that is looked at is a step.
pub(crate) fn is_untouched<L: Ledger>(
    pool: &Pool,
    list: u64,
    at: SlotPart,
    steps: &mut Steps<L>,
) -> bool
    requires list { list < length pool.now.places }
    ensures nobody { IsNobody result (writes_in at.part (nodes_at pool.now.places list) at.slot) }
    ensures cost { steps.new ≤ steps.old + length (nodes_at pool.now.places list) }
{
    pool.laws();
    let mut node = pool.first(ListName::Place(list));
    while let Some(n) = node {
        steps.tick();
        let seen = visit(pool, list, n);
        if touches(seen.entry, at) {
            return false;
        }
        node = seen.next;
    }
    true
}
