//! Blocks of memory that a trace has names for.

ghost use Rattle.std.specs.Prelude.{◌≡◌, ℕ, ◌<◌, List, None, IfNone, IfSome, IsSome, OnOk, IsTrue, false, true, ◌&&◌, nat_eq, nat_le, ◌∷◌};
ghost use Rattle.std.specs.Ordering.{nat_cmp};
ghost use Rattle.std.specs.BTreeMap.{btree_map_len, get};
ghost use Rattle.lx_caps.specs.Regions.{covers};
ghost use Rattle.lx_trace_text.specs.declared.blocks.Block.{Block as Known};
ghost use Rattle.lx_trace_text.specs.Blocks.{Holds, around, block_at, changed, near_of, nearest, without};

use lx_model::request::What;
use lx_words::Memory;
use std::collections::BTreeMap;

/// What gave a block: a global of a text, or the event with a number.
#[derive(Clone, Copy)]
pub(crate) enum Giver {
    Global { home: Option<u32>, number: u32 },
    Event(u64),
}

/// Bytes that a trace has a name for.
#[derive(Clone, Copy)]
pub(crate) struct Block {
    pub(crate) start: u64,
    pub(crate) size: u64,
    pub(crate) giver: Giver,
}

/// What an event does to the known blocks.
#[derive(Clone, Copy)]
pub(crate) enum Change {
    Nothing,
    Gives(Block),
    /// Takes back those that start from `first` up to `last`.
    Takes { first: u64, last: u64 },
}

/// The blocks in which a request reads and writes memory.
#[derive(Clone, Copy)]
pub(crate) struct Near {
    pub(crate) to: Option<Block>,
    pub(crate) from: Option<Block>,
}

/// The newest known block by each start.
pub(crate) type Blocks = BTreeMap<u64, Block>;

/// The block that starts last up to an address.
fn nearest(blocks: &Blocks, at: u64) -> Option<Block>
    ensures { (bs : List Known) → Holds bs blocks.now → result ≡ nearest bs at }
{
    match blocks.range(..=at).next_back() {
        Some((_, block)) => Some(*block),
        None => None,
    }
}

/// Whether an address lies in a block.
fn covers(block: Block, at: u64) -> bool
    ensures { result ≡ covers block.start block.size at }
{
    at >= block.start && at - block.start < block.size
}

/// A block, if the address lies in it.
fn around(at: u64, block: Option<Block>) -> Option<Block>
    ensures { result ≡ around at block }
{
    match block {
        None => None,
        Some(block) => { if covers(block, at) { Some(block) } else { None } }
    }
}

/// The block of an address.
fn block_at(blocks: &Blocks, at: u64) -> Option<Block>
    ensures { (bs : List Known) → Holds bs blocks.now → result ≡ block_at bs at }
{
    around(at, nearest(blocks, at))
}

/// The blocks of two addresses.
fn both_near(to: Option<Block>, from: Option<Block>) -> Near
    ensures { result ≡ record { to = to; from = from } }
{
    Near { to, from }
}

/// The blocks in which a request reads and writes memory.
pub(crate) fn near_of(blocks: &Blocks, what: &What) -> Near
    ensures { (bs : List Known) → Holds bs blocks.now → result ≡ near_of bs what.now }
{
    match what {
        What::Load { at, .. } => both_near(block_at(blocks, *at), None),
        What::Store { at, .. } => both_near(block_at(blocks, *at), None),
        What::Copy { to, from, .. } => both_near(block_at(blocks, *to), block_at(blocks, *from)),
        What::Fill { to, .. } => both_near(block_at(blocks, *to), None),
        What::Alloca { .. } => both_near(None, None),
        What::Enter { .. } => both_near(None, None),
        What::Perform { .. } => both_near(None, None),
        What::Return { .. } => both_near(None, None),
        What::Native { .. } => both_near(None, None),
        What::Finish { .. } => both_near(None, None),
    }
}

/// The first start among those from `first` up to `last`.
fn start_among(blocks: &Blocks, first: u64, last: u64) -> Option<u64>
    ensures some { IfSome result (λ start. IsTrue (nat_le first start && nat_le start last)) }
    ensures there { IfSome result (λ start. IsSome (get nat_cmp blocks.now start)) }
    ensures none { IfNone result ((start : ℕ) → nat_le first start && nat_le start last ≡ true → get nat_cmp blocks.now start ≡ None) }
{
    if first > last {
        return None;
    }
    match blocks.range(first..=last).next() {
        Some((start, _)) => Some(*start),
        None => None,
    }
}

/// Knows a block, and no longer an older one with its start.
pub(crate) fn give(blocks: &mut Blocks, block: Block) -> Result<(), Memory>
    ensures { (bs : List Known) → Holds bs blocks.old → OnOk result (Holds (block ∷ bs) blocks.new) }
{
    blocks.insert(block.start, block)?;
    Ok(())
}

/// Forgets the block with this start.
fn forget(blocks: &mut Blocks, start: u64)
    requires { IsSome (get nat_cmp blocks.old start) }
    ensures others { (other : ℕ) → nat_eq start other ≡ false → get nat_cmp blocks.new other ≡ get nat_cmp blocks.old other }
    ensures fewer { btree_map_len blocks.new < btree_map_len blocks.old }
{
    blocks.remove(&start);
}

/// Forgets the blocks that start from `first` up to `last`.
fn take(blocks: &mut Blocks, first: u64, last: u64)
    ensures { (bs : List Known) → Holds bs blocks.old → Holds (without first last bs) blocks.new }
{
    while let Some(start) = start_among(blocks, first, last) {
        forget(blocks, start);
    }
}

/// Makes a change to the known blocks.
pub(crate) fn apply(blocks: &mut Blocks, change: Change) -> Result<(), Memory>
    ensures { (bs : List Known) → Holds bs blocks.old → OnOk result (Holds (changed change bs) blocks.new) }
{
    match change {
        Change::Nothing => Ok(()),
        Change::Gives(block) => give(blocks, block),
        Change::Takes { first, last } => {
            take(blocks, first, last);
            Ok(())
        }
    }
}
