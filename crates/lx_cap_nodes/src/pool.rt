//! The pool of nodes.
ghost use Rattle.std.specs.Prelude.{◌≡◌, ◌+◌, ◌<◌, ◌≤◌, ◌∷◌, [], ◌++◌, ℕ, ◌&&◌, ◌||◌, not, nat_eq, true, false, Some, length, map, slice_set, OnOk, OnErr, IfOk, IfSome, vec_capacity};
ghost use Rattle.std.specs.Borrow.{Lends, sem};
ghost use Rattle.lx_cap_nodes.specs.Names.{first_of, has, next_in};
ghost use Rattle.lx_cap_nodes.specs.Slots.{is_used, slot_at};
ghost use Rattle.lx_cap_nodes.specs.Words.{IsInUse, PoolLaws, is_live, lists_in, names, nodes_at, nodes_of, value_in, with_list, without};

use crate::links::{Link, add_empty, after_in, first_in, list_of, no_link, put_first, take_out};
use lx_words::Memory;
use std::alloc::Global;
use std::marker::Model;
use std::mem;

/// The lists by places, or those by owners.
#[derive(Clone, Copy)]
pub enum Family {
    Place,
    Owner,
}

/// A list, by its family and its number there.
#[derive(Clone, Copy)]
pub enum ListName {
    Place(u64),
    Owner(u64),
}

#[derive(Drop)]
enum Slot<T> {
    Free,
    Used(T),
}

impl<T> Slot<T> {
    ghost use Rattle.lx_cap_nodes.specs.contracts.pool.Slot.{the_row};

    fn value(&self) -> &T
        requires { is_used self.now ≡ true }
        ensures { self.now ≡ Slot.Used result.now }
    {
        match self {
            Slot::Used(value) => value,
            Slot::Free => unreachable!(),
        }
    }

    fn value_mut(&mut self) -> &mut T
        requires { is_used self.old ≡ true }
        ensures* lends { sem 𝓛 (Lends (the_row T.row) T.row self.entry result Slot.Used) }
        ensures value { self.old ≡ Slot.Used result.now }
    {
        match self {
            Slot::Used(value) => value,
            Slot::Free => unreachable!(),
        }
    }
}

/// Nodes, each with a value and each at once in a list of places and in a list of owners. Nodes and lists have numbers.
pub struct NodePool<T> {
    place_links: Vec<Link>,
    place_heads: Vec<Option<usize>>,
    owner_links: Vec<Link>,
    owner_heads: Vec<Option<usize>>,
    slots: Vec<Slot<T>>,
    // The numbers of the nodes that hold no value.
    free: Vec<usize>,
}

impl<T: Drop> Drop for NodePool<T> {
    fn drop(self) {
        let NodePool {
            place_links: _,
            place_heads: _,
            owner_links: _,
            owner_heads: _,
            slots: _,
            free: _,
        } = self;
    }
}

impl<T> Model for NodePool<T> {
    ghost use Rattle.std.specs.Prelude.{vec_capacity};
    ghost use Rattle.lx_cap_nodes.specs.Pool.{Pool, pool_code};

    ghost Value = { Pool T };

    ghost coded = { pool_code T.code };

    ghost use Rattle.lx_cap_nodes.specs.Slots.{shown, IsSound};

    ghost view = { λ p. shown p.place_links.items p.place_heads.items p.owner_links.items p.owner_heads.items p.slots.items p.free.items };

    ghost invariant = { λ p. IsSound p.place_links.items p.place_heads.items p.owner_links.items p.owner_heads.items p.slots.items p.free.items (vec_capacity p.free) };
}

impl<T> NodePool<T> {
    ghost use Rattle.lx_cap_nodes.specs.Lends.{lends_value};

    /// A pool without nodes and lists.
    pub fn new(alloc: Global) -> Self
        ensures places { result.places ≡ [] }
        ensures owners { result.owners ≡ [] }
        ensures spare { result.spare ≡ 0 }
    {
        NodePool {
            place_links: Vec::new(alloc),
            place_heads: Vec::new(alloc),
            owner_links: Vec::new(alloc),
            owner_heads: Vec::new(alloc),
            slots: Vec::new(alloc),
            free: Vec::new(alloc),
        }
    }

    /// Makes an empty list behind the others of its family, and gives its number. All else stays, also after want of
    /// memory.
    pub fn add_list(&mut self, family: Family) -> Result<u64, Memory>
        ensures number { IfOk result (λ l. l ≡ length (lists_in family self.old)) }
        ensures ok { OnOk result (self.new ≡ with_list family self.old) }
        ensures err { OnErr result (self.new ≡ self.old) }
    {
        match family {
            Family::Place => {
                let number = add_empty(&self.place_links, &mut self.place_heads)?;
                Ok(number as u64)
            }
            Family::Owner => {
                let number = add_empty(&self.owner_links, &mut self.owner_heads)?;
                Ok(number as u64)
            }
        }
    }

    /// Makes room for at least `n` nodes more, or tells want of memory, as for more nodes than any memory holds. The
    /// lists stay either way.
    pub fn reserve(&mut self, n: u64) -> Result<(), Memory>
        ensures room { OnOk result (n ≤ self.new.spare) }
        ensures grows { self.old.spare ≤ self.new.spare }
        ensures places { self.new.places ≡ self.old.places }
        ensures owners { self.new.owners ≡ self.old.owners }
    {
        let spare = self.spare();
        if n > spare {
            self.make_room((n - spare) as usize)?;
        }
        for _ in spare..n {
            self.grow()?;
        }
        Ok(())
    }

    /// Asks for the memory of so many nodes more.
    fn make_room(&mut self, more: usize) -> Result<(), Memory>
        ensures { self.new ≡ self.old }
    {
        let room = room_for(
            &mut self.place_links,
            &mut self.owner_links,
            &mut self.slots,
            &mut self.free,
            more,
        );
        room?;
        Ok(())
    }

    /// Adds a free node.
    fn grow(&mut self) -> Result<(), Memory>
        ensures ok { OnOk result (self.new.spare ≡ self.old.spare + 1) }
        ensures err { OnErr result (self.new.spare ≡ self.old.spare) }
        ensures places { self.new.places ≡ self.old.places }
        ensures owners { self.new.owners ≡ self.old.owners }
    {
        let room = room_for(
            &mut self.place_links,
            &mut self.owner_links,
            &mut self.slots,
            &mut self.free,
            1,
        );
        room?;
        self.free.push_reserved(self.slots.len());
        self.slots.push_reserved(Slot::Free);
        self.place_links.push_reserved(no_link());
        self.owner_links.push_reserved(no_link());
        Ok(())
    }

    /// Tells how many more nodes there is room for.
    pub fn spare(&self) -> u64
        ensures { result ≡ self.now.spare }
    {
        self.free.len() as u64
    }

    /// Makes a node that is first in both its lists, and gives its number. It takes one of the room.
    pub fn link(&mut self, place: u64, owner: u64, value: T) -> u64
        requires spare { 0 < self.old.spare }
        requires place { place < length self.old.places }
        requires owner { owner < length self.old.owners }
        ensures fresh { is_live self.old result ≡ false }
        ensures live { (n : ℕ) → is_live self.new n ≡ (nat_eq n result || is_live self.old n) }
        ensures places { self.new.places ≡ slice_set self.old.places place ((result, value) ∷ nodes_at self.old.places place) }
        ensures owners { self.new.owners ≡ slice_set self.old.owners owner ((result, value) ∷ nodes_at self.old.owners owner) }
        ensures spare { self.new.spare + 1 ≡ self.old.spare }
    {
        let node = take_last(&mut self.free);
        put_first(
            &mut self.place_links,
            &mut self.place_heads,
            place as usize,
            node,
        );
        put_first(
            &mut self.owner_links,
            &mut self.owner_heads,
            owner as usize,
            node,
        );
        fill(&mut self.slots, node, value);
        node as u64
    }

    /// Takes a node out of both its lists, and gives its value. Its room is free again.
    pub fn unlink(&mut self, node: u64) -> T
        requires { is_live self.old node ≡ true }
        ensures value { value_in node self.old.places ≡ Some result }
        ensures live { (n : ℕ) → is_live self.new n ≡ (not (nat_eq n node) && is_live self.old n) }
        ensures places { self.new.places ≡ map (without node) self.old.places }
        ensures owners { self.new.owners ≡ map (without node) self.old.owners }
        ensures spare { self.new.spare ≡ self.old.spare + 1 }
    {
        let node = node as usize;
        take_out(&mut self.place_links, &mut self.place_heads, node);
        take_out(&mut self.owner_links, &mut self.owner_heads, node);
        self.free.push_reserved(node);
        vacate(&mut self.slots, node)
    }

    /// The first node of a list, if it has one.
    pub fn first(&self, list: ListName) -> Option<u64>
        requires { IsInUse list self.now }
        ensures first { result ≡ first_of (names (nodes_of list self.now)) }
        ensures live { IfSome result (λ n. is_live self.now n ≡ true) }
    {
        match list {
            ListName::Place(l) => as_name(first_in(
                &self.place_links,
                &self.place_heads,
                l as usize,
            )),
            ListName::Owner(l) => as_name(first_in(
                &self.owner_links,
                &self.owner_heads,
                l as usize,
            )),
        }
    }

    /// The node behind a node in its list of the family, if there is one.
    pub fn after(&self, node: u64, family: Family) -> Option<u64>
        requires { is_live self.now node ≡ true }
        ensures next { result ≡ next_in node (map names (lists_in family self.now)) }
        ensures live { IfSome result (λ n. is_live self.now n ≡ true) }
    {
        match family {
            Family::Place => as_name(after_in(&self.place_links, &self.place_heads, node as usize)),
            Family::Owner => as_name(after_in(&self.owner_links, &self.owner_heads, node as usize)),
        }
    }

    /// The number of the list of places that a node stands in.
    pub fn place_of(&self, node: u64) -> u64
        requires { is_live self.now node ≡ true }
        ensures { has node (names (nodes_at self.now.places result)) ≡ true }
    {
        list_of(&self.place_links, &self.place_heads, node as usize) as u64
    }

    /// A node's value.
    pub fn value(&self, node: u64) -> &T
        requires { is_live self.now node ≡ true }
        ensures { value_in node self.now.places ≡ Some result.now }
    {
        self.slots[node as usize].value()
    }

    /// A node's value for writing.
    pub fn value_mut(&mut self, node: u64) -> &mut T
        requires { is_live self.old node ≡ true }
        ensures* writes_back { sem 𝓛 (lends_value T.row self.entry node result) }
        ensures value { value_in node self.old.places ≡ Some result.now }
    {
        self.slots[node as usize].value_mut()
    }

    /// Does nothing. Its contract is what holds of every pool.
    pub fn laws(&self)
        ensures { PoolLaws self.now }
    {
        let _slots = &self.slots;
    }
}

fn as_name(node: Option<usize>) -> Option<u64>
    ensures { result ≡ node }
{
    match node {
        Some(n) => Some(n as u64),
        None => None,
    }
}

/// Makes room in each of these vectors. The free ones may be as many as there are slots.
fn room_for<T>(
    place_links: &mut Vec<Link>,
    owner_links: &mut Vec<Link>,
    slots: &mut Vec<Slot<T>>,
    free: &mut Vec<usize>,
    more: usize,
) -> Result<(), Memory>
    ensures stays { (place_links.new.items ≡ place_links.old.items) × (owner_links.new.items ≡ owner_links.old.items) × (slots.new.items ≡ slots.old.items) × (free.new.items ≡ free.old.items) }
    ensures capacity { vec_capacity free.old ≤ vec_capacity free.new }
    ensures ok { OnOk result ((length place_links.new.items + more ≤ vec_capacity place_links.new) × (length owner_links.new.items + more ≤ vec_capacity owner_links.new)
        × (length slots.new.items + more ≤ vec_capacity slots.new) × (length slots.new.items + more ≤ vec_capacity free.new)) }
{
    place_links.reserve(more)?;
    owner_links.reserve(more)?;
    slots.reserve(more)?;
    free.reserve((slots.len() + more).saturating_sub(free.len()))?;
    Ok(())
}

fn take_last(free: &mut Vec<usize>) -> usize
    requires { 0 < length free.old.items }
    ensures items { free.old.items ≡ free.new.items ++ result ∷ [] }
    ensures capacity { vec_capacity free.new ≡ vec_capacity free.old }
{
    free.pop().unwrap()
}

/// Puts a value into a free slot.
fn fill<T>(slots: &mut Vec<Slot<T>>, at: usize, value: T)
    requires within { at < length slots.old.items }
    requires free { slot_at slots.old.items at ≡ Slot.Free }
    ensures { slots.new.items ≡ slice_set slots.old.items at (Slot.Used value) }
{
    match mem::replace(&mut slots[at], Slot::Used(value)) {
        Slot::Free => (),
        Slot::Used(_) => unreachable!(),
    }
}

/// Takes the value out of a slot that is used.
fn vacate<T>(slots: &mut Vec<Slot<T>>, at: usize) -> T
    requires { is_used (slot_at slots.old.items at) ≡ true }
    ensures value { slot_at slots.old.items at ≡ Slot.Used result }
    ensures slots { slots.new.items ≡ slice_set slots.old.items at Slot.Free }
{
    match mem::replace(&mut slots[at], Slot::Free) {
        Slot::Used(value) => value,
        Slot::Free => unreachable!(),
    }
}
