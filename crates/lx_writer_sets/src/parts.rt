//! The lists of the parts of memory, each with a bit that says whether it has a writer.
ghost use Rattle.std.specs.Prelude.{◌≡◌, ◌+◌, ◌-◌, ◌*◌, ◌/◌, ◌<◌, ◌≤◌, ℕ, Bool, ◌&&◌, ◌||◌, not, nat_eq, true, false, Some, [], IfNone, IfSome, length, OnOk};
ghost use Rattle.lx_caps.specs.declared.Principal.{Principal};
ghost use Rattle.lx_caps.specs.declared.Atom.TheVariants.{Byte};
ghost use Rattle.lx_caps.specs.History.{History, owns, same_principal};
ghost use Rattle.lx_caps.specs.Precedence.{IsFirstPrincipal};
ghost use Rattle.lx_caps.specs.Regions.{covers, mapped};
ghost use Rattle.indexmap.specs.IndexMap.{spare};
ghost use Rattle.lx_cap_nodes.specs.Words.{nodes_at};
ghost use Rattle.lx_writer_sets.specs.Nodes.{AllNodes, has_nodes, is_ready};
ghost use Rattle.lx_writer_sets.specs.Sets.{IsNobody, IsSomePrincipal, count_in, is_given_at, is_recorded, writes_part};
ghost use Rattle.lx_cap_nodes.specs.Pieces.{part_list};

use crate::PrincipalTest;
use crate::bitmap::{add_words, is_marked, mark, mark_anew};
use crate::chain::{Pool, add, first_writer, forget, is_untouched, some_writer, writes};
use crate::entry::{Entry, SlotPart};
use crate::index::{Table, make_keys};
use indexmap::IndexMap;
use lx_cap_nodes::{Family, NodePool, PART, list_of_part, parts_end, piece_bits, piece_of};
use lx_caps::{CapStore, Principal, Steps};
use lx_words::Memory;
use std::alloc::Global;
use std::marker::Model;
use std::sync::ledger::Ledger;

/// How many parts memory has.
const PARTS: u64 = 0xc000;

/// The writers of each part. The lists and the bits are made when there is first asked for room.
#[derive(Drop)]
pub(crate) struct PartLists {
    // A node stands in the list of its part. All stand in one list of owners, which nobody asks for.
    pool: Pool,
    // The node of each writer in each list, so that nobody walks along a list to find it.
    table: Table,
    // The bit of each part is set where its list has a node.
    words: Vec<u64>,
    // How many lists of parts there are so far.
    count: u64,
}

impl Model for PartLists {
    ghost use Rattle.lx_writer_sets.specs.Nodes.{Parts, shown, IsSound};

    ghost Value = { Parts };

    ghost use Rattle.indexmap.specs.IndexMap.{spare};

    ghost view = { λ p. shown p.pool p.words.items (spare p.table) };

    ghost invariant = { λ p. IsSound p.pool p.words.items p.count p.table.entries };
}

/// Adds lists until each part has one.
fn add_parts(pool: &mut Pool, count: &mut u64) -> Result<(), Memory>
    requires counted { length pool.old.places ≡ count.old }
    requires few { count.old ≤ 0xc000 }
    ensures counted { length pool.new.places ≡ count.new }
    ensures few { count.new ≤ 0xc000 }
    ensures grows { count.old ≤ count.new }
    ensures enough { OnOk result (0xc000 ≤ count.new) }
    ensures lists { (l : ℕ) → nodes_at pool.new.places l ≡ nodes_at pool.old.places l }
    ensures rest { (pool.new.owners ≡ pool.old.owners) × (pool.new.spare ≡ pool.old.spare) }
{
    while *count < PARTS {
        match pool.add_list(Family::Place) {
            Ok(_) => *count += 1,
            Err(_) => return Err(Memory),
        }
    }
    Ok(())
}

/// Adds the list of owners before the first list of a part.
fn add_owners(pool: &mut Pool, count: u64) -> Result<(), Memory>
    requires { 0 < count → 0 < length pool.old.owners }
    ensures owned { OnOk result (0 < length pool.new.owners) }
    ensures grows { length pool.old.owners ≤ length pool.new.owners }
    ensures rest { (pool.new.places ≡ pool.old.places) × (pool.new.spare ≡ pool.old.spare) }
{
    if count == 0 {
        match pool.add_list(Family::Owner) {
            Ok(_) => Ok(()),
            Err(_) => Err(Memory),
        }
    } else {
        Ok(())
    }
}

/// Adds the list of owners, and lists until each part has one.
fn add_lists(pool: &mut Pool, count: &mut u64) -> Result<(), Memory>
    requires counted { length pool.old.places ≡ count.old }
    requires few { count.old ≤ 0xc000 }
    requires owned { 0 < count.old → 0 < length pool.old.owners }
    ensures counted { length pool.new.places ≡ count.new }
    ensures few { count.new ≤ 0xc000 }
    ensures owned { 0 < count.new → 0 < length pool.new.owners }
    ensures grows { count.old ≤ count.new }
    ensures enough { OnOk result (0xc000 ≤ count.new) }
    ensures lists { (l : ℕ) → nodes_at pool.new.places l ≡ nodes_at pool.old.places l }
    ensures spare { pool.new.spare ≡ pool.old.spare }
{
    add_owners(pool, *count)?;
    add_parts(pool, count)?;
    Ok(())
}

/// Makes room for at least `n` nodes more, and for as many keys that find them.
fn make_room(pool: &mut Pool, table: &mut Table, n: u64) -> Result<(), Memory>
    ensures nodes { OnOk result (n ≤ pool.new.spare) }
    ensures keys { OnOk result (n ≤ spare table.new) }
    ensures grows { (pool.old.spare ≤ pool.new.spare) × (spare table.old ≤ spare table.new) }
    ensures places { pool.new.places ≡ pool.old.places }
    ensures owners { pool.new.owners ≡ pool.old.owners }
    ensures entries { table.new.entries ≡ table.old.entries }
{
    pool.reserve(n)?;
    make_keys(table, n)?;
    Ok(())
}

impl PartLists {
    /// Lists without nodes.
    pub(crate) fn new(alloc: Global) -> Self
        ensures { result.lists ≡ [] }
    {
        PartLists {
            pool: NodePool::new(alloc),
            table: IndexMap::new(alloc),
            words: Vec::new(alloc),
            count: 0,
        }
    }

    fn make_lists(&mut self) -> Result<(), Memory>
        ensures enough { OnOk result (0xc000 ≤ length self.new.lists) }
        ensures count { length self.old.lists ≤ length self.new.lists }
        ensures few { length self.new.lists ≤ 0xc000 }
        ensures lists { (l : ℕ) → nodes_at self.new.lists l ≡ nodes_at self.old.lists l }
        ensures rest { (self.new.words ≡ self.old.words) × (self.new.spare ≡ self.old.spare) }
    {
        match add_lists(&mut self.pool, &mut self.count) {
            Ok(()) => Ok(()),
            Err(_) => Err(Memory),
        }
    }

    fn make_words(&mut self) -> Result<(), Memory>
        ensures enough { OnOk result (768 ≤ self.new.words) }
        ensures count { self.old.words ≤ self.new.words }
        ensures few { self.new.words ≤ 768 }
        ensures rest { (self.new.lists ≡ self.old.lists) × (self.new.spare ≡ self.old.spare) }
    {
        match add_words(&mut self.words) {
            Ok(()) => Ok(()),
            Err(_) => Err(Memory),
        }
    }

    fn make_nodes(&mut self, n: u64) -> Result<(), Memory>
        ensures room { OnOk result (n ≤ self.new.spare) }
        ensures grows { self.old.spare ≤ self.new.spare }
        ensures rest { (self.new.lists ≡ self.old.lists) × (self.new.words ≡ self.old.words) }
    {
        match make_room(&mut self.pool, &mut self.table, n) {
            Ok(()) => Ok(()),
            Err(_) => Err(Memory),
        }
    }

    /// Makes room for at least `n` nodes more. What is recorded stays, also after want of memory.
    pub(crate) fn reserve(&mut self, n: u64) -> Result<(), Memory>
        ensures ready { OnOk result (is_ready self.new ≡ true) }
        ensures room { OnOk result (n ≤ self.new.spare) }
        ensures stays { is_ready self.old ≡ true → is_ready self.new ≡ true }
        ensures grows { self.old.spare ≤ self.new.spare }
        ensures lists { (l : ℕ) → nodes_at self.new.lists l ≡ nodes_at self.old.lists l }
    {
        self.make_lists()?;
        self.make_words()?;
        self.make_nodes(n)?;
        Ok(())
    }

    /// The list of a part, if it has a node.
    fn list_at(&self, part: u64) -> Option<u64>
        ensures found { IfSome result (λ l. (part_list part ≡ Some l) × (l < length self.now.lists) × (l / 64 < self.now.words) × (has_nodes (nodes_at self.now.lists l) ≡ true)) }
        ensures none { IfNone result ((k : ℕ) (q : Principal) → is_given_at self.now.lists (part_list part) k q ≡ false) }
    {
        match list_of_part(part) {
            Some(list) => if is_marked(&self.words, list) {
                Some(list)
            } else {
                None
            },
            None => None,
        }
    }

    /// Records a principal as a writer of the bytes of a range in one part.
    fn note_part(&mut self, who: Principal, at: u64, size: u64, part: u64)
        requires ready { is_ready self.old ≡ true }
        requires room { 0 < self.old.spare }
        requires placed { mapped at size ≡ true }
        requires low { at / 64 ≤ part }
        requires high { part * 64 < at + size }
        requires some { 0 < size }
        ensures ready { is_ready self.new ≡ true }
        ensures records { (b : ℕ) (q : Principal) → is_recorded self.new.lists b q ≡ ((same_principal q who && (covers at size b && nat_eq part (b / 64))) || is_recorded self.old.lists b q) }
        ensures takes { self.old.spare ≤ self.new.spare + 1 }
    {
        if let Some(list) = list_of_part(part) {
            let entry = Entry {
                writer: who,
                mask: piece_bits(piece_of(at, size, part)),
            };
            add(&mut self.pool, &mut self.table, list, entry);
            mark(&mut self.words, list);
        }
    }

    /// Forgets the writers of the bytes of a range in one part, but for those that own the byte.
    fn zero_part<C: CapStore>(&mut self, at: u64, size: u64, part: u64, caps: &C)
        requires placed { mapped at size ≡ true }
        requires low { at / 64 ≤ part }
        requires high { part * 64 < at + size }
        requires some { 0 < size }
        ensures ready { is_ready self.old ≡ true → is_ready self.new ≡ true }
        ensures records { (h : History) → C.stands caps.now h → (b : ℕ) (q : Principal)
            → is_recorded self.new.lists b q ≡ (is_recorded self.old.lists b q && (not (covers at size b && nat_eq part (b / 64)) || owns h q (Byte b))) }
        ensures keeps { self.old.spare ≤ self.new.spare }
    {
        match self.list_at(part) {
            Some(list) => {
                let piece = piece_of(at, size, part);
                forget(&mut self.pool, &mut self.table, list, piece, caps);
                mark_anew(&mut self.words, &self.pool, list);
            }
            None => {}
        }
    }

    /// The first of a principal that was found and the writers of a slot in one part that pass the test.
    pub(crate) fn first_writer<T: PrincipalTest>(
        &self,
        at: SlotPart,
        test: &T,
        found: Option<Principal>,
    ) -> Option<Principal>
        ensures { (t : Principal → Bool) → T.stands test.now t → (p : Principal → Bool) → IsFirstPrincipal p found
            → IsFirstPrincipal (λ q. p q || (t q && writes_part self.now.lists at.part at.slot q)) result }
    {
        match self.list_at(at.part) {
            Some(list) => first_writer(&self.pool, list, at, test, found),
            None => found,
        }
    }

    /// Some writer of a slot in one part that passes the test.
    pub(crate) fn some_writer<T: PrincipalTest>(&self, at: SlotPart, test: &T) -> Option<Principal>
        ensures { (t : Principal → Bool) → T.stands test.now t → IsSomePrincipal (λ q. t q && writes_part self.now.lists at.part at.slot q) result }
    {
        match self.list_at(at.part) {
            Some(list) => some_writer(&self.pool, list, at, test),
            None => None,
        }
    }

    /// Whether the principal is a writer of a slot in one part.
    pub(crate) fn writes(&self, at: SlotPart, who: Principal) -> bool
        ensures { result ≡ writes_part self.now.lists at.part at.slot who }
    {
        match self.list_at(at.part) {
            Some(list) => writes(&self.pool, &self.table, list, at, who),
            None => false,
        }
    }

    /// Whether a slot has no writer in one part. The part's bit is a step, and so is each node that is looked at.
    pub(crate) fn is_untouched<L: Ledger>(&self, at: SlotPart, steps: &mut Steps<L>) -> bool
        ensures nobody { IsNobody result (writes_part self.now.lists at.part at.slot) }
        ensures cost { steps.new ≤ steps.old + (1 + count_in self.now.lists (part_list at.part)) }
        ensures nodes { AllNodes self.now.lists }
    {
        steps.tick();
        match self.list_at(at.part) {
            Some(list) => is_untouched(&self.pool, list, at, steps),
            None => true,
        }
    }
}

/// Records a principal as a writer of each byte of a range. Each part of it is a step: there the table is asked once.
pub(crate) fn note_range<L: Ledger>(
    parts: &mut PartLists,
    who: Principal,
    at: u64,
    size: u64,
    steps: &mut Steps<L>,
)
    requires ready { is_ready parts.old ≡ true }
    requires room { size / 64 + 2 ≤ parts.old.spare }
    requires placed { mapped at size ≡ true }
    requires some { 0 < size }
    ensures ready { is_ready parts.new ≡ true }
    ensures records { (b : ℕ) (q : Principal) → is_recorded parts.new.lists b q ≡ ((same_principal q who && covers at size b) || is_recorded parts.old.lists b q) }
    ensures takes { parts.old.spare ≤ parts.new.spare + (size / 64 + 2) }
    ensures cost { steps.new ≤ steps.old + ((at + size + 63) / 64 - at / 64) }
{
    for part in at / PART..parts_end(at, size) {
        steps.tick();
        parts.note_part(who, at, size, part);
    }
}

/// Forgets the writers of each byte of a range, but for those that own the byte.
pub(crate) fn zero_range<C: CapStore>(parts: &mut PartLists, at: u64, size: u64, caps: &C)
    requires placed { mapped at size ≡ true }
    requires some { 0 < size }
    ensures ready { is_ready parts.old ≡ true → is_ready parts.new ≡ true }
    ensures records { (h : History) → C.stands caps.now h → (b : ℕ) (q : Principal)
        → is_recorded parts.new.lists b q ≡ (is_recorded parts.old.lists b q && (not (covers at size b) || owns h q (Byte b))) }
    ensures keeps { parts.old.spare ≤ parts.new.spare }
{
    for part in at / PART..parts_end(at, size) {
        parts.zero_part(at, size, part, caps);
    }
}
