//! Room that is asked for beside what there is and then taken is never gathered, however often that is done.
use crate::common::{FIRST, STRANGER, is_in_memory};
use lx_caps::{Cap, CapStore, PlainCaps, Principal, cells, mapped};
use lx_words::Memory;
use lx_writer_sets::{Recorded, WriterSets};
use std::process::Abort;
use std::test::Fail;

/// So often is each thing done.
const TIMES: u32 = 2000;

/// No store of these tests has as much room.
const FEW: u64 = 0x10000;

/// Gives a capability to an instance and takes it back, in room for as much beside what there is. Says whether there is
/// then exactly as much as before.
fn is_out_and_back<C: CapStore>(caps: &mut C, cap: Cap) -> Result<bool, Memory> {
    let (spare, more) = (caps.spare(), cells(cap));
    if !is_in_memory(cap) || spare >= FEW || more >= FEW {
        return Ok(false);
    }
    caps.reserve(spare + more + 1)?;
    caps.grant(FIRST, cap);
    caps.strip(cap);
    Ok(caps.spare() == spare)
}

/// Lends a capability on a loan of its own, which ends, likewise.
fn is_lent_and_back<C: CapStore>(caps: &mut C, cap: Cap) -> Result<bool, Memory> {
    let (spare, more) = (caps.spare(), cells(cap));
    if !is_in_memory(cap) || spare >= FEW || more >= FEW {
        return Ok(false);
    }
    caps.reserve(spare + more + 2)?;
    caps.open_loan(3);
    caps.lend(3, STRANGER, cap);
    caps.shut(3, 1);
    Ok(caps.spare() == spare)
}

static CAPS: [Cap; 4] = [
    Cap::Write {
        at: 0x2000000,
        size: 128,
    },
    Cap::Write {
        at: 0x100003c,
        size: 8,
    },
    Cap::Call { at: 0x10000 },
    Cap::Ref {
        ty: 1,
        at: 0x2000000,
    },
];

/// Each capability goes out and comes back.
fn is_as_before<C: CapStore>(caps: &mut C) -> Result<bool, Memory> {
    for cap in CAPS.iter() {
        if !is_out_and_back(caps, *cap)? || !is_lent_and_back(caps, *cap)? {
            return Ok(false);
        }
    }
    Ok(true)
}

fn assert_stays<C: CapStore>(rt: &impl Abort, caps: &mut C) -> Result<(), Fail> {
    for time in 0..TIMES {
        assert!(rt; is_as_before(caps)?, "time {time}");
    }
    Ok(())
}

#[test]
fn a_store_gathers_no_room(rt: HostRuntime) -> Result<(), Fail> {
    let mut caps = PlainCaps::new(rt.alloc());
    let went = assert_stays(&rt, &mut caps);
    drop(caps);
    went
}

/// A store stays with the room that it has been asked for.
fn assert_keeps_five<C: CapStore>(rt: &impl Abort, caps: &mut C) -> Result<(), Fail> {
    caps.reserve(5)?;
    assert_stays(rt, caps)?;
    assert!(rt; caps.spare() == 5);
    Ok(())
}

#[test]
fn a_store_with_writers_gathers_no_room(rt: HostRuntime) -> Result<(), Fail> {
    let alloc = rt.alloc();
    let mut caps = Recorded::new(alloc, PlainCaps::new(alloc));
    let went = assert_keeps_five(&rt, &mut caps);
    drop(caps);
    went
}

/// Notes a writer of a range, in room for as much beside what there is. Says whether there is then exactly as much as
/// before, though the range was noted already.
fn is_noted_again(
    sets: &mut WriterSets,
    who: Principal,
    at: u64,
    size: u64,
) -> Result<bool, Memory> {
    let (spare, more) = (sets.spare(), cells(Cap::Write { at, size }));
    if who == Principal::Kernel || !mapped(at, size) || spare >= FEW || more >= FEW {
        return Ok(false);
    }
    sets.reserve(spare + more)?;
    sets.note(who, at, size);
    Ok(sets.spare() == spare)
}

static NOTES: [(Principal, u64, u64); 4] = [
    (STRANGER, 0x1000000, 200),
    (FIRST, 0x100003c, 4),
    (STRANGER, 0x10000c8, 56),
    (FIRST, 0x2000000, 0),
];

/// Each range is noted.
fn are_noted_again(sets: &mut WriterSets) -> Result<bool, Memory> {
    for (who, at, size) in NOTES.iter() {
        if !is_noted_again(sets, *who, *at, *size)? {
            return Ok(false);
        }
    }
    Ok(true)
}

/// Sets stay with the room that they have been asked for.
fn assert_keep_seven(rt: &impl Abort, sets: &mut WriterSets) -> Result<(), Fail> {
    sets.reserve(7)?;
    for time in 0..TIMES {
        assert!(rt; are_noted_again(sets)?, "time {time}");
    }
    assert!(rt; sets.spare() == 7);
    Ok(())
}

#[test]
fn writer_sets_gather_no_room(rt: HostRuntime) -> Result<(), Fail> {
    let mut sets = WriterSets::new(rt.alloc());
    let went = assert_keep_seven(&rt, &mut sets);
    drop(sets);
    went
}
