//! Many writers of one slot, beside a plain list of what each of them wrote.
use lx_caps::{Cap, PlainCaps, Principal, cells, mapped};
use lx_words::Memory;
use lx_writer_sets::WriterSets;
use std::process::Abort;
use std::test::Fail;

/// How many instances write a byte of the slot.
const MANY: u32 = 200;

/// A slot over the end of a part of 64 bytes.
const SLOT: u64 = 0x100003c;

/// The byte of the slot that an instance writes.
fn byte_of(instance: u32) -> u64 {
    SLOT + (instance % 8) as u64
}

/// Notes one byte, and says whether it lies in memory.
fn note_byte(sets: &mut WriterSets, who: Principal, at: u64) -> Result<bool, Memory> {
    if who == Principal::Kernel || !mapped(at, 1) {
        return Ok(false);
    }
    sets.reserve(cells(Cap::Write { at, size: 1 }))?;
    sets.note(who, at, 1);
    Ok(true)
}

/// Notes each instance with its byte.
fn note_all(sets: &mut WriterSets) -> Result<bool, Memory> {
    for instance in 0..MANY {
        let who = Principal::Inst(0, instance);
        if !note_byte(sets, who, byte_of(instance))? {
            return Ok(false);
        }
    }
    Ok(true)
}

/// Whether the writers of the slot are the instances but for those of one byte.
fn are_all_but(sets: &WriterSets, gone: u64) -> bool {
    for instance in 0..MANY {
        let is_writer = sets.is_writer(SLOT, Principal::Inst(0, instance));
        if is_writer != (byte_of(instance) != gone) {
            return false;
        }
    }
    true
}

/// A principal, or none, and the first writer behind it: first of all instances, then without those of one byte.
static FIRSTS: [(Option<Principal>, Option<Principal>, Option<Principal>); 5] = [
    (
        None,
        Some(Principal::Inst(0, 0)),
        Some(Principal::Inst(0, 0)),
    ),
    (
        Some(Principal::Inst(0, 2)),
        Some(Principal::Inst(0, 3)),
        Some(Principal::Inst(0, 4)),
    ),
    (
        Some(Principal::Inst(0, 99)),
        Some(Principal::Inst(0, 100)),
        Some(Principal::Inst(0, 100)),
    ),
    (
        Some(Principal::Inst(0, 194)),
        Some(Principal::Inst(0, 195)),
        Some(Principal::Inst(0, 196)),
    ),
    (Some(Principal::Inst(0, 199)), None, None),
];

fn assert_firsts(rt: &impl Abort, sets: &WriterSets, is_zeroed: bool) {
    for (number, (after, all, left)) in FIRSTS.iter().enumerate() {
        let first = sets.next_writer(SLOT, *after);
        let wanted = if is_zeroed { *left } else { *all };
        assert!(rt; first == wanted, "row {number}");
    }
}

/// The fourth byte of the slot, which the instances 3, 11, 19 and so on write.
const FOURTH: u64 = SLOT + 3;

fn assert_many(rt: &impl Abort, sets: &mut WriterSets, caps: &PlainCaps) -> Result<(), Fail> {
    assert!(rt; note_all(sets)?);
    assert!(rt; are_all_but(sets, 0));
    assert_firsts(rt, sets, false);
    assert!(rt; mapped(FOURTH, 1));
    sets.zero(FOURTH, 1, caps);
    assert!(rt; are_all_but(sets, FOURTH));
    assert_firsts(rt, sets, true);
    assert!(rt; note_all(sets)?);
    assert!(rt; are_all_but(sets, 0));
    Ok(())
}

#[test]
fn many_write_one_slot(rt: HostRuntime) -> Result<(), Fail> {
    let mut sets = WriterSets::new(rt.alloc());
    let caps = PlainCaps::new(rt.alloc());
    let went = assert_many(&rt, &mut sets, &caps);
    drop(caps);
    drop(sets);
    went
}
