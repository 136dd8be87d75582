//! The heap beside a plain walk over its blocks, over thousands of calls.
use lx_caps::{Block, HEAP_START, REGION_SIZE};
use lx_memory::{KHeap, NotLive};
use std::alloc::Global;
use std::test::Fail;

/// The first gap of so many bytes between blocks that ascend: how many blocks stand before it, and where it begins.
fn first_gap(blocks: &[Block], size: u64) -> Option<(usize, u64)> {
    let mut at = HEAP_START;
    for (place, block) in blocks.iter().enumerate() {
        if at.saturating_add(size) <= block.at {
            return Some((place, at));
        }
        at = block.at.saturating_add(block.size).saturating_add(15) / 16 * 16;
    }
    if at.saturating_add(size) <= HEAP_START + REGION_SIZE {
        Some((blocks.len(), at))
    } else {
        None
    }
}

fn give(blocks: &mut Vec<Block>, size: u64) -> Result<u64, Fail> {
    if size == 0 {
        return Ok(0);
    }
    match first_gap(blocks, size) {
        Some((place, at)) if place <= blocks.len() => {
            blocks.insert(place, Block { at, size })?;
            Ok(at)
        }
        _ => Ok(0),
    }
}

fn take(blocks: &mut Vec<Block>, at: u64) -> Result<(), NotLive> {
    match blocks.iter().position(|block| block.at == at) {
        Some(place) if place < blocks.len() => {
            blocks.remove(place);
            Ok(())
        }
        _ => Err(NotLive { at }),
    }
}

/// The start of a block, or some address of the heap.
fn start(blocks: &[Block], number: u64) -> u64 {
    match blocks.get((number % 300) as usize) {
        Some(block) => block.at,
        None => HEAP_START.wrapping_add(number % REGION_SIZE),
    }
}

/// Whether both answer a call alike: one of three takes a block back, the others ask for up to 8,191 bytes.
fn answer_alike(heap: &mut KHeap, blocks: &mut Vec<Block>, number: u64) -> Result<bool, Fail> {
    if number % 3 == 0 {
        let at = start(blocks, number / 3);
        return Ok(heap.free(at) == take(blocks, at));
    }
    let size = number / 3 % 8192;
    Ok(heap.alloc(size)? == give(blocks, size)?)
}

fn all_alike(heap: &mut KHeap, blocks: &mut Vec<Block>, calls: u32) -> Result<bool, Fail> {
    let mut seed: u64 = 1;
    for _ in 0..calls {
        seed = seed
            .wrapping_mul(6_364_136_223_846_793_005)
            .wrapping_add(1_442_695_040_888_963_407);
        if !answer_alike(heap, blocks, seed >> 33)? {
            return Ok(false);
        }
    }
    Ok(true)
}

fn walks_alike(alloc: Global) -> Result<bool, Fail> {
    let mut heap = KHeap::new(alloc)?;
    let mut blocks = Vec::new(alloc);
    all_alike(&mut heap, &mut blocks, 6000)
}

#[test]
fn a_heap_answers_as_the_walk_over_its_blocks(rt: HostRuntime) -> Result<(), Fail> {
    assert!(rt; walks_alike(rt.alloc())?);
    Ok(())
}

/// Whether 16 bytes each are given at so many addresses, one every so many bytes.
fn are_given(heap: &mut KHeap, step: u64, count: u64) -> Result<bool, Fail> {
    let mut at = HEAP_START;
    for _ in 0..count {
        if heap.alloc(16)? != at {
            return Ok(false);
        }
        at = at.wrapping_add(step);
    }
    Ok(true)
}

/// Whether blocks are taken back at so many addresses, one every so many bytes.
fn are_freed(heap: &mut KHeap, from: u64, step: u64, count: u64) -> bool {
    let mut at = from;
    for _ in 0..count {
        if heap.free(at).is_err() {
            return false;
        }
        at = at.wrapping_add(step);
    }
    true
}

/// A heap that is filled place by place, of which each second place is taken back and given again, and then all.
fn is_filled_twice(heap: &mut KHeap) -> Result<bool, Fail> {
    let full = are_given(heap, 16, 0x10000)? && heap.alloc(1)? == 0;
    let halved = full && are_freed(heap, HEAP_START, 32, 0x8000) && heap.alloc(17)? == 0;
    let again = halved && are_given(heap, 32, 0x8000)? && heap.alloc(1)? == 0;
    let second = HEAP_START + 16;
    let empty = again
        && are_freed(heap, second, 32, 0x8000)
        && are_freed(heap, HEAP_START, 32, 0x8000);
    Ok(empty && heap.alloc(REGION_SIZE)? == HEAP_START)
}

fn fills_twice(alloc: Global) -> Result<bool, Fail> {
    let mut heap = KHeap::new(alloc)?;
    is_filled_twice(&mut heap)
}

#[test]
fn each_place_is_given_and_taken_back(rt: HostRuntime) -> Result<(), Fail> {
    assert!(rt; fills_twice(rt.alloc())?);
    Ok(())
}
