//! Each call once with ample memory, and the edges of the regions. What a call answers is proved.
use crate::common::goes_between_threads;
use lx_memory::{KHeap, NotLive, Space, Unmapped, mapped};
use std::alloc::Global;
use std::process::Abort;
use std::test::Fail;

/// A call of memory, and what it has to answer.
#[derive(Clone, Copy)]
enum SpaceStep {
    Read(u64, u8, Result<u64, Unmapped>),
    Write(u64, u8, u64),
    /// To, from and how many.
    Copy(u64, u64, u64, Result<(), Unmapped>),
    Fill(u64, u8, u64),
    Zero(u64, u64, Result<(), Unmapped>),
    IsMapped(u64, u64, bool),
}

/// Takes a step, and says whether it answered as it has to.
fn goes_so(space: &mut Space, step: SpaceStep) -> bool {
    match step {
        SpaceStep::Read(at, bytes, want) => {
            0 < bytes && bytes <= 8 && space.read(at, bytes) == want
        }
        SpaceStep::Write(at, bytes, number) => {
            0 < bytes && bytes <= 8 && space.write(at, bytes, number) == Ok(())
        }
        SpaceStep::Copy(to, from, len, want) => space.copy(to, from, len) == want,
        SpaceStep::Fill(to, byte, len) => space.fill(to, byte, len) == Ok(()),
        SpaceStep::Zero(at, len, want) => space.zero(at, len) == want,
        SpaceStep::IsMapped(at, len, want) => mapped(at, len) == want,
    }
}

/// A new space takes steps, each of which has to answer as it says.
fn assert_space(rt: &impl Abort, alloc: Global, steps: &[SpaceStep]) -> Result<(), Fail> {
    let mut space = Space::new(alloc)?;
    goes_between_threads(&space);
    for (number, step) in steps.iter().enumerate() {
        assert!(rt; goes_so(&mut space, *step), "step {number}");
    }
    Ok(())
}

static NUMBERS: [SpaceStep; 4] = [
    SpaceStep::Read(0x3000000, 8, Ok(0)),
    SpaceStep::Write(0x1000000, 4, 0x1_0403_0201),
    SpaceStep::Read(0x1000000, 8, Ok(0x0403_0201)),
    SpaceStep::Read(0x1000001, 2, Ok(0x0302)),
];

#[test]
fn numbers_stand_with_the_least_byte_first(rt: HostRuntime) -> Result<(), Fail> {
    assert_space(&rt, rt.alloc(), &NUMBERS)
}

static BLOCKS: [SpaceStep; 6] = [
    SpaceStep::Write(0x2000000, 4, 0x0403_0201),
    SpaceStep::Copy(0x2000001, 0x2000000, 3, Ok(())),
    SpaceStep::Read(0x2000000, 4, Ok(0x0302_0101)),
    SpaceStep::Fill(0x2000002, 9, 2),
    SpaceStep::Zero(0x2000001, 2, Ok(())),
    SpaceStep::Read(0x2000000, 4, Ok(0x0900_0001)),
];

#[test]
fn blocks_are_copied_filled_and_zeroed(rt: HostRuntime) -> Result<(), Fail> {
    assert_space(&rt, rt.alloc(), &BLOCKS)
}

static EDGES: [SpaceStep; 6] = [
    SpaceStep::Write(0x10ffff8, 8, 1),
    SpaceStep::Read(0x10ffffc, 8, Err(Unmapped { at: 0x1100000 })),
    SpaceStep::Zero(0x10ffff8, 9, Err(Unmapped { at: 0x1100000 })),
    SpaceStep::Copy(0xffffff, 0, 1, Err(Unmapped { at: 0xffffff })),
    SpaceStep::IsMapped(0x10ffff8, 8, true),
    SpaceStep::IsMapped(0x10ffff8, 9, false),
];

#[test]
fn a_region_ends_where_it_ends(rt: HostRuntime) -> Result<(), Fail> {
    assert_space(&rt, rt.alloc(), &EDGES)
}

/// A call of the heap, and what it has to answer.
#[derive(Clone, Copy)]
enum HeapStep {
    /// So many bytes are asked for, and this address is given.
    Alloc(u64, u64),
    Free(u64, Result<(), NotLive>),
}

static CALLS: [HeapStep; 12] = [
    HeapStep::Alloc(0, 0),
    HeapStep::Alloc(17, 0x2000000),
    HeapStep::Alloc(1, 0x2000020),
    HeapStep::Alloc(16, 0x2000030),
    HeapStep::Free(0x2000020, Ok(())),
    HeapStep::Free(0x2000020, Err(NotLive { at: 0x2000020 })),
    HeapStep::Alloc(17, 0x2000040),
    HeapStep::Alloc(16, 0x2000020),
    HeapStep::Alloc(0x100000, 0),
    HeapStep::Alloc(u64::MAX, 0),
    HeapStep::Alloc(0xfffa0, 0x2000060),
    HeapStep::Alloc(1, 0),
];

fn answers_so(heap: &mut KHeap, step: HeapStep) -> Result<bool, Fail> {
    match step {
        HeapStep::Alloc(size, want) => Ok(heap.alloc(size)? == want),
        HeapStep::Free(at, want) => Ok(heap.free(at) == want),
    }
}

#[test]
fn the_least_gap_is_given(rt: HostRuntime) -> Result<(), Fail> {
    let mut heap = KHeap::new(rt.alloc())?;
    for (number, step) in CALLS.iter().enumerate() {
        assert!(rt; answers_so(&mut heap, *step)?, "step {number}");
    }
    Ok(())
}
