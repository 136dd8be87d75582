//! Writers of a slot, as owners come and go and bytes are zeroed.
use crate::common::{FIRST, SHARED, Step, goes_so};
use lx_caps::{Atom, PlainCaps, Principal, mapped};
use lx_words::Memory;
use lx_writer_sets::Recorded;
use std::process::Abort;
use std::test::Fail;

/// An act on a store that records writers, or a question with its answer.
#[derive(Clone, Copy)]
enum WriterStep {
    /// What any store does and answers.
    Store(Step),
    /// An address, and how many bytes.
    Zero(u64, u64),
    IsWriter(u64, Principal, bool),
    /// The next writer of a slot behind one.
    NextWriter(u64, Option<Principal>, Option<Principal>),
    IsClean(u64, bool),
}

/// Zeroes bytes that lie in memory, and says whether they do.
fn zero(caps: &mut Recorded<PlainCaps>, at: u64, size: u64) -> bool {
    let placed = mapped(at, size);
    if placed {
        caps.zero(at, size);
    }
    placed
}

fn is_writer(caps: &Recorded<PlainCaps>, slot: u64, who: Principal) -> bool {
    slot < 0x3100000 && caps.is_slot_writer(slot, who)
}

fn next_writer(
    caps: &Recorded<PlainCaps>,
    slot: u64,
    after: Option<Principal>,
) -> Option<Principal> {
    if slot < 0x3100000 {
        caps.next_writer(slot, after)
    } else {
        None
    }
}

fn is_clean(caps: &Recorded<PlainCaps>, slot: u64) -> bool {
    slot < 0x3100000 && caps.is_clean(slot)
}

/// Takes a step, and says whether it answered as it has to.
fn records_so(caps: &mut Recorded<PlainCaps>, step: WriterStep) -> Result<bool, Memory> {
    match step {
        WriterStep::Store(step) => goes_so(caps, step),
        WriterStep::Zero(at, size) => Ok(zero(caps, at, size)),
        WriterStep::IsWriter(slot, who, want) => Ok(is_writer(caps, slot, who) == want),
        WriterStep::NextWriter(slot, after, want) => Ok(next_writer(caps, slot, after) == want),
        WriterStep::IsClean(slot, want) => Ok(is_clean(caps, slot) == want),
    }
}

/// One slot is granted and taken away, then granted to another and zeroed while that one owns it.
static STEPS: [WriterStep; 14] = [
    WriterStep::Store(Step::GrantBytes(SHARED, 0x1000000, 8)),
    WriterStep::Store(Step::StripBytes(0x1000000, 8)),
    WriterStep::Store(Step::HoldsBytes(SHARED, 0x1000000, 8, false)),
    WriterStep::IsWriter(0x1000007, SHARED, true),
    WriterStep::IsWriter(0x1000008, SHARED, false),
    WriterStep::IsWriter(0x1000000, FIRST, false),
    WriterStep::NextWriter(0x1000000, None, Some(SHARED)),
    WriterStep::Store(Step::NextOwner(Atom::Byte(0x1000000), None, None)),
    WriterStep::IsClean(0x1000008, true),
    WriterStep::Store(Step::GrantBytes(FIRST, 0x1000000, 8)),
    WriterStep::Zero(0x1000000, 8),
    WriterStep::IsWriter(0x1000000, SHARED, false),
    WriterStep::IsWriter(0x1000000, FIRST, true),
    WriterStep::Store(Step::HoldsBytes(FIRST, 0x1000000, 8, true)),
];

fn assert_recorded(rt: &impl Abort, caps: &mut Recorded<PlainCaps>) -> Result<(), Fail> {
    for (number, step) in STEPS.iter().enumerate() {
        assert!(rt; records_so(caps, *step)?, "step {number}");
    }
    Ok(())
}

#[test]
fn writers_stay_until_bytes_are_zeroed(rt: HostRuntime) -> Result<(), Fail> {
    let alloc = rt.alloc();
    let mut caps = Recorded::new(alloc, PlainCaps::new(alloc));
    let went = assert_recorded(&rt, &mut caps);
    drop(caps);
    went
}
