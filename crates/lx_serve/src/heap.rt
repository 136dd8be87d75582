//! The heap's blocks, as they are given out and taken back.
ghost use Rattle.std.specs.Prelude.{◌≡◌, true, false, [], IfOk, OnErr, OnOk};
ghost use Rattle.lx_caps.specs.Heap.{Blocks, alloc_address, is_live, without_block};
ghost use Rattle.lx_memory.specs.Heaps.{with_block};
ghost use Rattle.lx_serve.specs.Blocks.{AreKept};

use lx_memory::{KHeap, NotLive};
use lx_words::Memory;
use std::alloc::Global;

/// A heap without blocks.
#[tactic(auto, unfolding(crate::specs::Blocks::AreKept))]
pub(crate) fn no_blocks(alloc: Global) -> Result<KHeap, Memory>
    ensures { IfOk result (λ heap. AreKept heap []) }
{
    match KHeap::new(alloc) {
        Ok(heap) => Ok(heap),
        Err(_) => Err(Memory),
    }
}

/// Gives out so many bytes, if they fit anywhere.
#[tactic(auto, unfolding(crate::specs::Blocks::AreKept))]
pub(crate) fn give_out(heap: &mut KHeap, size: u64) -> Result<u64, Memory>
    ensures given { IfOk result (λ at. (bs : Blocks) → AreKept heap.old bs → at ≡ alloc_address bs size) }
    ensures live { IfOk result (λ at. (bs : Blocks) → AreKept heap.old bs → AreKept heap.new (with_block at size bs)) }
    ensures err { OnErr result (heap.new ≡ heap.old) }
{
    let at = heap.alloc(size)?;
    Ok(at)
}

/// Takes back the block that starts there.
#[tactic(auto, unfolding(crate::specs::Blocks::AreKept))]
pub(crate) fn take_back(heap: &mut KHeap, at: u64) -> Result<(), NotLive>
    ensures live { OnOk result ((bs : Blocks) → AreKept heap.old bs → is_live bs at ≡ true) }
    ensures freed { OnOk result ((bs : Blocks) → AreKept heap.old bs → AreKept heap.new (without_block bs at)) }
    ensures fault { OnErr result ((bs : Blocks) → AreKept heap.old bs → is_live bs at ≡ false) }
    ensures err { OnErr result (heap.new ≡ heap.old) }
{
    match heap.free(at) {
        Ok(()) => Ok(()),
        Err(fault) => Err(fault),
    }
}
