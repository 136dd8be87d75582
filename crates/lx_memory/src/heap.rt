//! The heap: which of its bytes are given out.
ghost use Rattle.std.specs.Prelude.{◌≡◌, ◌≢◌, ◌+◌, ◌-◌, ◌*◌, ◌≤◌, ◌<◌, ℕ, MatchOption, length, slice_index, slice_set};
ghost use Rattle.lx_caps.specs.Regions.{region_size};
ghost use Rattle.lx_memory.specs.Runs.{places};
ghost use Rattle.lx_memory.specs.Tiles.{address, taken};

use crate::runs::{PLACES, Runs, zeros};
use lx_caps::{Block, HEAP_START, REGION_SIZE, heap_laws};
use lx_words::Memory;
use std::alloc::Global;
use std::marker::Model;
use thiserror::Error;

/// No live block starts there.
#[derive(Clone, Copy, Debug, PartialEq, Eq, Error)]
#[error("no live block starts at 0x{at:x}")]
pub struct NotLive {
    /// The address that was to be freed.
    pub at: u64,
}

/// The heap, seen as its live blocks by their addresses.
pub struct KHeap {
    runs: Runs,
    // Of each place the bytes of the block that begins there, or 0.
    sizes: Vec<u32>,
    // Of each place where a block begins how many places are free right before it.
    rooms: Vec<u32>,
}

impl Drop for KHeap {
    fn drop(self) {
        let KHeap {
            runs: _,
            sizes: _,
            rooms: _,
        } = self;
    }
}

impl Model for KHeap {
    ghost use Rattle.std.specs.Prelude.{List};
    ghost use Rattle.lx_caps.specs.declared.Block.{Block};
    ghost use Rattle.lx_memory.specs.Tiles.{blocks_from, IsHeap};

    ghost Value = { List Block };

    ghost view = { λ heap. blocks_from 0 heap.sizes.items };

    ghost invariant = { λ heap. IsHeap heap.sizes.items heap.rooms.items heap.runs };
}

/// How many places a block of so many bytes takes.
fn taken(size: u32) -> u32
    requires { size ≤ region_size }
    ensures { result ≡ taken size }
{
    (size + 15) / 16
}

#[tactic(auto, using(crate::proofs::Places::places_are))]
fn address(place: usize) -> u64
    requires { place < places }
    ensures { result ≡ address place }
{
    HEAP_START + 16 * place as u64
}

/// Sets a number of a table; there is none behind its end.
fn put(table: &mut Vec<u32>, place: usize, number: u32)
    ensures { table.new.items ≡ slice_set table.old.items place number }
{
    if place < table.len() {
        table[place] = number;
    }
}

/// Takes the places of a block from the front of a run.
#[tactic(auto, using(crate::proofs::Places::places_are))]
fn give(runs: &mut Runs, sizes: &mut Vec<u32>, rooms: &mut Vec<u32>, place: usize, size: u32)
    requires bytes { size ≤ region_size }
    requires place { place < places }
    requires room { taken size ≤ slice_index runs.old place }
    ensures runs { runs.new ≡ slice_set (slice_set runs.old place 0) (place + taken size) (slice_index runs.old place - taken size) }
    ensures sizes { sizes.new.items ≡ slice_set sizes.old.items place size }
    ensures rooms { rooms.new.items ≡ slice_set (slice_set rooms.old.items place 0) (place + slice_index runs.old place) (slice_index runs.old place - taken size) }
{
    let run = runs.at(place);
    let taken = taken(size);
    let rest = run - taken;
    runs.set(place, 0);
    runs.set(place + taken as usize, rest);
    put(sizes, place, size);
    put(rooms, place, 0);
    put(rooms, place + run as usize, rest);
}

/// Joins the places of a block with the runs before and behind it.
#[tactic(auto, using(crate::proofs::Places::places_are))]
fn join(runs: &mut Runs, sizes: &mut Vec<u32>, rooms: &mut Vec<u32>, place: usize)
    requires sizes_len { place < length sizes.old.items }
    requires rooms_len { place < length rooms.old.items }
    requires bytes { slice_index sizes.old.items place ≤ region_size }
    requires before { slice_index rooms.old.items place ≤ place }
    requires all { place + taken (slice_index sizes.old.items place) + slice_index runs.old (place + taken (slice_index sizes.old.items place)) ≤ places }
    ensures runs { (run next : ℕ) → run + slice_index rooms.old.items place ≡ place → next ≡ place + taken (slice_index sizes.old.items place) → runs.new ≡ slice_set (slice_set runs.old next 0) run (slice_index rooms.old.items place + taken (slice_index sizes.old.items place) + slice_index runs.old next) }
    ensures sizes { sizes.new.items ≡ slice_set sizes.old.items place 0 }
    ensures rooms { (next : ℕ) → next ≡ place + taken (slice_index sizes.old.items place) → rooms.new.items ≡ slice_set rooms.old.items (next + slice_index runs.old next) (slice_index rooms.old.items place + taken (slice_index sizes.old.items place) + slice_index runs.old next) }
{
    let room = rooms[place];
    let taken = taken(sizes[place]);
    let next = place + taken as usize;
    let run = runs.at(next);
    let all = room + taken + run;
    runs.set(next, 0);
    runs.set(place - room as usize, all);
    put(sizes, place, 0);
    put(rooms, next + run as usize, all);
}

/// The place at an address, if it is one of the heap's.
#[tactic(auto, using(crate::proofs::Places::places_are))]
fn place_at(at: u64) -> Option<usize>
    ensures { MatchOption result ((p : ℕ) → p < places → address p ≢ at) (λ p. (p < places) × (address p ≡ at)) }
{
    if at < HEAP_START || HEAP_START + REGION_SIZE <= at || at % 16 != 0 {
        return None;
    }
    Some(((at - HEAP_START) / 16) as usize)
}

/// The place of the block that starts at an address, if one does.
#[tactic(auto, using(crate::proofs::Places::places_are))]
fn live_place(sizes: &[u32], at: u64) -> Option<usize>
    requires { length sizes.now ≡ places }
    ensures { MatchOption result ((p : ℕ) → p < places → address p ≡ at → slice_index sizes.now p ≡ 0) (λ p. (p < places) × (address p ≡ at) × (0 < slice_index sizes.now p)) }
{
    match place_at(at) {
        Some(place) => { if sizes[place] > 0 { Some(place) } else { None } }
        None => None,
    }
}

impl KHeap {
    ghost use Rattle.std.specs.Prelude.{◌≡◌, ◌≢◌, ℕ, IfOk, OnOk, OnErr, IsOk, IfErr, true, false, []};
    ghost use Rattle.lx_caps.specs.Heap.{Blocks, alloc_address, is_live, without_block};
    ghost use Rattle.lx_memory.specs.Heaps.{KeepsBlocks, with_block};

    /// A heap without blocks.
    pub fn new(alloc: Global) -> Result<Self, Memory>
        ensures { IfOk result (λ heap. KeepsBlocks heap []) }
    {
        let mut runs = Runs::new(alloc)?;
        runs.set(0, PLACES as u32);
        let sizes = zeros(alloc, PLACES)?;
        let rooms = zeros(alloc, PLACES)?;
        Ok(KHeap { runs, sizes, rooms })
    }

    /// Gives out so many bytes: the least address divisible by 16 where they are free, or 0 where they are nowhere
    /// free or none are asked for.
    ///
    /// # Errors
    /// None: what is recorded of a block stands in tables that were made with the heap.
    pub fn alloc(&mut self, size: u64) -> Result<u64, Memory>
        ensures given { IfOk result (λ at. (bs : Blocks) → KeepsBlocks self.old bs → at ≡ alloc_address bs size) }
        ensures live { IfOk result (λ at. (bs : Blocks) → KeepsBlocks self.old bs → KeepsBlocks self.new (with_block at size bs)) }
        ensures err { OnErr result (self.new ≡ self.old) }
        ensures succeeds { IsOk result }
        ensures held { OnErr result ((bs : Blocks) → KeepsBlocks self.old bs → alloc_address bs size ≢ 0) }
    {
        heap_laws();
        if size == 0 || size > REGION_SIZE {
            return Ok(0);
        }
        let bytes = size as u32;
        match self.runs.first(taken(bytes)) {
            Some(place) => {
                give(
                    &mut self.runs,
                    &mut self.sizes,
                    &mut self.rooms,
                    place,
                    bytes,
                );
                Ok(address(place))
            }
            None => Ok(0),
        }
    }

    /// Takes back the block that starts at an address. It takes no memory.
    ///
    /// # Errors
    /// `NotLive` exactly where no live block starts there, and then nothing is changed.
    pub fn free(&mut self, at: u64) -> Result<(), NotLive>
        ensures freed { OnOk result ((bs : Blocks) → KeepsBlocks self.old bs → (is_live bs at ≡ true) × KeepsBlocks self.new (without_block bs at)) }
        ensures fault { IfErr result (λ e. (e ≡ record { at = at }) × ((bs : Blocks) → KeepsBlocks self.old bs → is_live bs at ≡ false)) }
        ensures err { OnErr result (self.new ≡ self.old) }
    {
        match live_place(&self.sizes, at) {
            Some(place) => {
                join(&mut self.runs, &mut self.sizes, &mut self.rooms, place);
                Ok(())
            }
            None => Err(NotLive { at }),
        }
    }
}
