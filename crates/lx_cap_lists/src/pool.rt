//! The pool of nodes, with a table by which the node of a holder at a place is found without a walk.
ghost use Rattle.std.specs.Prelude.{◌≡◌, ◌+◌, ◌<◌, ◌≤◌, ◌∷◌, [], false, true, Some, length, map, slice_set, OnOk, OnErr, IfOk, IfNone, IfSome};
ghost use Rattle.lx_cap_nodes.specs.Names.{first_of, next_in};
ghost use Rattle.lx_cap_nodes.specs.Words.{IsInUse, PoolLaws, is_live, lists_in, names, nodes_at, nodes_of, pool_with, value_in, with_list, without};
ghost use Rattle.lx_cap_lists.specs.declared.entry.Entry.{Entry};
ghost use Rattle.lx_cap_lists.specs.Entries.{is_holder, with_mask};
ghost use Rattle.lx_cap_lists.specs.Holders.{same_holder};
ghost use Rattle.lx_cap_lists.specs.Walks.{StandsAt};

use crate::entry::Entry;
use crate::holder::Holder;
use crate::index::{Index, key_at, node_at, put_node, remove_key};
use indexmap::IndexMap;
use lx_cap_nodes::{Family, ListName, NodePool};
use lx_words::Memory;
use std::alloc::Global;
use std::marker::Model;

/// The nodes of all lists. No two nodes of a place are of one holder, so that a place and a holder name a node. What a contract sees of
/// it is a pool of nodes, with room for as many more as fit into its lists and into its table too.
pub struct Pool {
    nodes: NodePool<Entry>,
    index: Index,
}

impl Drop for Pool {
    fn drop(self) {
        let Pool { nodes: _, index: _ } = self;
    }
}

impl Model for Pool {
    ghost use Rattle.indexmap.specs.IndexMap.{spare};
    ghost use Rattle.lx_cap_nodes.specs.Pool.{Pool as NodesOf};
    ghost use Rattle.lx_cap_lists.specs.declared.entry.Entry.{Entry};
    ghost use Rattle.lx_cap_lists.specs.Index.{IsIndexed, shown};

    ghost Value = { NodesOf Entry };

    ghost view = { λ p. shown p.nodes (spare p.index) };

    ghost invariant = { λ p. IsIndexed p.nodes.places p.index.entries };
}

impl Pool {
    /// A pool without nodes and lists.
    pub fn new(alloc: Global) -> Self
        ensures places { result.places ≡ [] }
        ensures owners { result.owners ≡ [] }
        ensures spare { result.spare ≡ 0 }
    {
        Pool {
            nodes: NodePool::new(alloc),
            index: IndexMap::new(alloc),
        }
    }

    /// Makes an empty list behind the others of its family, and gives its number. All else stays, also after want of
    /// memory.
    pub fn add_list(&mut self, family: Family) -> Result<u64, Memory>
        ensures number { IfOk result (λ l. l ≡ length (lists_in family self.old)) }
        ensures ok { OnOk result (self.new ≡ with_list family self.old) }
        ensures err { OnErr result (self.new ≡ self.old) }
    {
        match self.nodes.add_list(family) {
            Ok(number) => Ok(number),
            Err(why) => Err(why),
        }
    }

    /// Makes room for at least `n` nodes more, or tells want of memory, as for more nodes than any memory holds. The
    /// lists stay either way.
    pub fn reserve(&mut self, n: u64) -> Result<(), Memory>
        ensures room { OnOk result (n ≤ self.new.spare) }
        ensures grows { self.old.spare ≤ self.new.spare }
        ensures places { self.new.places ≡ self.old.places }
        ensures owners { self.new.owners ≡ self.old.owners }
    {
        self.nodes.reserve(n)?;
        self.index.reserve(n as usize)?;
        Ok(())
    }

    /// Tells how many more nodes there is room for.
    pub fn spare(&self) -> u64
        ensures { result ≡ self.now.spare }
    {
        let nodes = self.nodes.spare();
        let keys = (self.index.capacity() - self.index.len()) as u64;
        if nodes < keys { nodes } else { keys }
    }

    /// The first node of a list, if it has one.
    pub fn first(&self, list: ListName) -> Option<u64>
        requires { IsInUse list self.now }
        ensures first { result ≡ first_of (names (nodes_of list self.now)) }
        ensures live { IfSome result (λ n. is_live self.now n ≡ true) }
    {
        self.nodes.first(list)
    }

    /// The node behind a node in its list of the family, if there is one.
    pub fn after(&self, node: u64, family: Family) -> Option<u64>
        requires { is_live self.now node ≡ true }
        ensures next { result ≡ next_in node (map names (lists_in family self.now)) }
        ensures live { IfSome result (λ n. is_live self.now n ≡ true) }
    {
        self.nodes.after(node, family)
    }

    /// A node's value.
    pub fn value(&self, node: u64) -> &Entry
        requires { is_live self.now node ≡ true }
        ensures { value_in node self.now.places ≡ Some result.now }
    {
        self.nodes.value(node)
    }

    /// Does nothing. Its contract is what holds of every pool.
    pub fn laws(&self)
        ensures { PoolLaws self.now }
    {
        self.nodes.laws();
    }

    /// The node of a holder in the list of a place.
    pub(crate) fn node_of(&self, place: u64, holder: Holder) -> Option<u64>
        ensures found { IfSome result (λ n. StandsAt (nodes_at self.now.places place) n (λ e. same_holder holder e.holder ≡ true)) }
        ensures none { IfNone result (is_holder holder (nodes_at self.now.places place) ≡ false) }
    {
        node_at(&self.index, key_at(place, holder))
    }

    /// Makes a node that is first in both its lists, and gives its number. Its holder has none at the place. It takes one of the room.
    pub(crate) fn link(&mut self, place: u64, owner: u64, value: Entry) -> u64
        requires spare { 0 < self.old.spare }
        requires place { place < length self.old.places }
        requires owner { owner < length self.old.owners }
        requires none { is_holder value.holder (nodes_at self.old.places place) ≡ false }
        ensures places { self.new.places ≡ slice_set self.old.places place ((result, value) ∷ nodes_at self.old.places place) }
        ensures owners { self.new.owners ≡ slice_set self.old.owners owner ((result, value) ∷ nodes_at self.old.owners owner) }
        ensures spare { self.old.spare ≤ self.new.spare + 1 }
    {
        let node = self.nodes.link(place, owner, value);
        put_node(&mut self.index, key_at(place, value.holder), node);
        node
    }

    /// Takes a node out of both its lists. Its room is free again.
    pub(crate) fn unlink(&mut self, node: u64)
        requires { is_live self.old node ≡ true }
        ensures places { self.new.places ≡ map (without node) self.old.places }
        ensures owners { self.new.owners ≡ map (without node) self.old.owners }
        ensures spare { self.old.spare ≤ self.new.spare }
    {
        self.nodes.laws();
        let place = self.nodes.place_of(node);
        let entry = self.nodes.unlink(node);
        remove_key(&mut self.index, key_at(place, entry.holder));
    }

    /// Writes the mask of a node.
    pub(crate) fn put_mask(&mut self, node: u64, mask: u64)
        requires { is_live self.old node ≡ true }
        ensures { (v : Entry) × (value_in node self.old.places ≡ Some v) × (self.new ≡ pool_with self.old node (with_mask v mask)) }
    {
        self.nodes.laws();
        write_mask(&mut self.nodes, node, mask);
    }
}

fn write_mask(nodes: &mut NodePool<Entry>, node: u64, mask: u64)
    requires { is_live nodes.old node ≡ true }
    ensures { (v : Entry) × (value_in node nodes.old.places ≡ Some v) × (nodes.new ≡ pool_with nodes.old node (with_mask v mask)) }
{
    let entry = nodes.value_mut(node);
    entry.mask = mask;
}
