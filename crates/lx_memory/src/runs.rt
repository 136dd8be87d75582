//! The free runs of the heap's places, and the first one that is long enough.
ghost use Rattle.std.specs.Prelude.{◌≡◌, ◌+◌, ◌*◌, ◌<◌, ◌≤◌, ℕ, length, drop, max, slice_index, slice_set, IfOk};
ghost use Rattle.lx_memory.specs.Runs.{places, AreGreater, IsFirst};

use lx_words::Memory;
use std::alloc::Global;
use std::marker::Model;

/// How many places of 16 bytes the heap has.
pub const PLACES: usize = 0x1_0000;

/// Of each place how long the free run is that begins there, in places, and 0 where none begins; seen as the list of these lengths.
/// It is kept as a tree in which each node has the greater of its two halves.
pub struct Runs {
    // Node 1 is the root, the halves of node k are 2k and 2k + 1, and the last nodes are those of the places.
    nodes: Vec<u32>,
}

impl Drop for Runs {
    fn drop(self) {
        let Runs { nodes: _ } = self;
    }
}

impl Model for Runs {
    ghost use Rattle.std.specs.Prelude.{List, ℕ, drop};
    ghost use Rattle.lx_memory.specs.Runs.{places, IsTree};

    ghost Value = { List ℕ };

    ghost view = { λ runs. drop places runs.nodes.items };

    ghost invariant = { λ runs. IsTree runs.nodes.items };
}

/// So many numbers that are 0.
pub fn zeros(alloc: Global, count: usize) -> Result<Vec<u32>, Memory>
    ensures len { IfOk result (λ numbers. length numbers.items ≡ count) }
    ensures zero { IfOk result (λ numbers. (k : ℕ) → k < count → slice_index numbers.items k ≡ 0) }
{
    let numbers = vec![in alloc; 0; count]?;
    Ok(numbers)
}

fn greater(one: u32, other: u32) -> u32
    ensures { result ≡ max one other }
{
    if one < other { other } else { one }
}

/// Puts right what stands above a place.
#[tactic(auto, using(crate::proofs::Places::places_are))]
fn raise(nodes: &mut Vec<u32>, place: usize)
    requires place { place < places }
    requires len { length nodes.old.items ≡ 2 * places }
    requires others { AreGreater nodes.old.items (places + place) }
    ensures len { length nodes.new.items ≡ 2 * places }
    ensures all { AreGreater nodes.new.items 1 }
    ensures places { drop places nodes.new.items ≡ drop places nodes.old.items }
{
    let mut node = PLACES + place;
    while node > 1 {
        node /= 2;
        nodes[node] = greater(nodes[2 * node], nodes[2 * node + 1]);
    }
}

/// Sets the length of one place, and puts right what stands above it.
#[tactic(auto, using(crate::proofs::Places::places_are))]
fn set_length(nodes: &mut Vec<u32>, place: usize, count: u32)
    requires place { place < places }
    requires len { length nodes.old.items ≡ 2 * places }
    requires all { AreGreater nodes.old.items 1 }
    ensures len { length nodes.new.items ≡ 2 * places }
    ensures all { AreGreater nodes.new.items 1 }
    ensures places { drop places nodes.new.items ≡ slice_set (drop places nodes.old.items) place count }
{
    nodes[PLACES + place] = count;
    raise(nodes, place);
}

/// The first place whose run has at least so many places.
#[tactic(auto, using(crate::proofs::Places::places_are))]
fn first_long(nodes: &[u32], count: u32) -> Option<usize>
    requires len { length nodes.now ≡ 2 * places }
    requires all { AreGreater nodes.now 1 }
    ensures { IsFirst count (drop places nodes.now) result }
{
    if nodes[1] < count {
        return None;
    }
    let mut node = 1;
    let mut level = 1;
    while level < PLACES {
        level *= 2;
        node *= 2;
        if nodes[node] < count {
            node += 1;
        }
    }
    Some(node - PLACES)
}

impl Runs {
    ghost use Rattle.std.specs.Prelude.{IfOk, ℕ, ◌≡◌, length, slice_index, slice_set};
    ghost use Rattle.lx_memory.specs.Runs.{places, IsFirst};

    /// No run begins anywhere.
    #[tactic(auto, using(crate::proofs::Places::places_are, crate::proofs::Trees::leaf_count))]
    pub fn new(alloc: Global) -> Result<Self, Memory>
        ensures len { IfOk result (λ runs. length runs ≡ places) }
        ensures none { IfOk result (λ runs. (k : ℕ) → slice_index runs k ≡ 0) }
    {
        let nodes = zeros(alloc, 2 * PLACES)?;
        Ok(Runs { nodes })
    }

    /// The length of the run that begins at a place; 0 behind the last one.
    #[tactic(auto, using(crate::proofs::Places::places_are))]
    pub fn at(&self, place: usize) -> u32
        ensures { result ≡ slice_index self.now place }
    {
        if place < PLACES {
            self.nodes[PLACES + place]
        } else {
            0
        }
    }

    /// Sets the length of the run that begins at a place; there is none behind the last one.
    #[tactic(auto, using(crate::proofs::Places::places_are))]
    pub fn set(&mut self, place: usize, count: u32)
        ensures { self.new ≡ slice_set self.old place count }
    {
        if place < PLACES {
            set_length(&mut self.nodes, place, count);
        }
    }

    /// The first place where a run of at least so many places begins.
    #[tactic(auto, using(crate::proofs::Places::places_are))]
    pub fn first(&self, count: u32) -> Option<usize>
        ensures { IsFirst count self.now result }
    {
        first_long(&self.nodes, count)
    }
}
