//! Writers of slots, as ranges are noted and zeroed.
use crate::common::{FIRST, SECOND, SHARED, STRANGER, Step, goes_so};
use lx_caps::{Cap, PlainCaps, Principal, cells, is_same, mapped};
use lx_words::Memory;
use lx_writer_sets::{PrincipalTest, WriterSets};
use std::process::Abort;
use std::test::Fail;

/// The test that one principal alone passes.
#[derive(Clone, Copy)]
struct Only {
    who: Principal,
}

impl PrincipalTest for Only {
    ghost use Rattle.std.specs.Prelude.{◌≡◌};
    ghost use Rattle.lx_caps.specs.declared.Principal.{Principal};
    ghost use Rattle.lx_caps.specs.History.{same_principal};

    ghost stands = { λ only p. (q : Principal) → p q ≡ same_principal q only.who };

    fn passes(&self, who: Principal) -> bool {
        is_same(who, self.who)
    }
}

/// Notes a principal as a writer of bytes that lie in memory, and says whether they do.
fn note(sets: &mut WriterSets, who: Principal, at: u64, size: u64) -> Result<bool, Memory> {
    if who == Principal::Kernel || !mapped(at, size) {
        return Ok(false);
    }
    sets.reserve(cells(Cap::Write { at, size }))?;
    sets.note(who, at, size);
    Ok(true)
}

/// Notes these in the sets: who, the address, and how many bytes.
fn assert_noted(
    rt: &impl Abort,
    sets: &mut WriterSets,
    notes: &[(Principal, u64, u64)],
) -> Result<(), Fail> {
    for (number, (who, at, size)) in notes.iter().enumerate() {
        assert!(rt; note(sets, *who, *at, *size)?, "note {number}");
    }
    Ok(())
}

/// Whether these are the writers of a slot, one behind the other.
fn are_listed(sets: &WriterSets, slot: u64, wanted: &[Principal]) -> bool {
    if slot >= 0x3100000 {
        return false;
    }
    let mut writer = None;
    for want in wanted {
        writer = sets.next_writer(slot, writer);
        if writer != Some(*want) || !sets.is_writer(slot, *want) {
            return false;
        }
        if sets.some_writer(slot, &Only { who: *want }) != writer {
            return false;
        }
    }
    sets.next_writer(slot, writer).is_none()
}

/// Whether nobody is found by a test that this principal alone passes.
fn is_none_found(sets: &WriterSets, slot: u64, who: Principal) -> bool {
    slot < 0x3100000 && sets.some_writer(slot, &Only { who }).is_none()
}

/// Whether a slot has these writers and no other.
fn are_writers(sets: &WriterSets, slot: u64, wanted: &[Principal]) -> bool {
    are_listed(sets, slot, wanted)
        && slot < 0x3100000
        && !sets.is_writer(slot, Principal::Global(0))
        && is_none_found(sets, slot, Principal::Global(0))
        && sets.is_clean(slot) == wanted.is_empty()
}

fn assert_writers(rt: &impl Abort, sets: &WriterSets, slots: &[(u64, &[Principal])]) {
    for (slot, wanted) in slots {
        assert!(rt; are_writers(sets, *slot, wanted), "{slot:#x}");
    }
}

/// The writers of slots, once these are noted.
fn assert_writers_behind(
    rt: &impl Abort,
    sets: &mut WriterSets,
    notes: &[(Principal, u64, u64)],
    slots: &[(u64, &[Principal])],
) -> Result<(), Fail> {
    assert_noted(rt, sets, notes)?;
    assert_writers(rt, sets, slots);
    Ok(())
}

static NOTES: [(Principal, u64, u64); 6] = [
    (STRANGER, 0x1000000, 200),
    (SECOND, 0x1000040, 1),
    (FIRST, 0x100003c, 4),
    (SECOND, 0x10000c8, 56),
    (SHARED, 0x2000000, 64),
    (SHARED, 0x2000000, 0),
];

static SLOTS: [(u64, &[Principal]); 12] = [
    (0x1000039, &[FIRST, SECOND, STRANGER]),
    (0x1000038, &[FIRST, STRANGER]),
    (0x1000040, &[SECOND, STRANGER]),
    (0x1000041, &[STRANGER]),
    (0x10000c1, &[SECOND, STRANGER]),
    (0x10000c8, &[SECOND]),
    (0x10000ff, &[SECOND]),
    (0x1000100, &[]),
    (0x1fffff9, &[SHARED]),
    (0x1fffff8, &[]),
    (0x200003f, &[SHARED]),
    (0x2000040, &[]),
];

#[test]
fn writers_come_in_order(rt: HostRuntime) -> Result<(), Fail> {
    let mut sets = WriterSets::new(rt.alloc());
    let went = assert_writers_behind(&rt, &mut sets, &NOTES, &SLOTS);
    drop(sets);
    went
}

static NOTE_OF_EIGHT: [(Principal, u64, u64); 1] = [(SHARED, 0x2000000, 8)];

/// Slots of the part that was written, of both sides of its end, and of the next one.
static SLOTS_NEAR: [(u64, &[Principal]); 5] = [
    (0x2000040, &[]),
    (0x2000038, &[]),
    (0x200003c, &[]),
    (0x2000000, &[SHARED]),
    (0x1fffffc, &[SHARED]),
];

#[test]
fn slots_near_a_writer_are_clean(rt: HostRuntime) -> Result<(), Fail> {
    let mut sets = WriterSets::new(rt.alloc());
    let went = assert_writers_behind(&rt, &mut sets, &NOTE_OF_EIGHT, &SLOTS_NEAR);
    drop(sets);
    went
}

static NOTES_TO_ZERO: [(Principal, u64, u64); 2] = [
    (FIRST, 0x1000000, 256),
    (SHARED, 0x1000030, 0x60),
];

/// The slots about the bytes that are zeroed, of which the first principal owns eight.
static SLOTS_ZEROED: [(u64, &[Principal]); 9] = [
    (0x1000009, &[FIRST]),
    (0x1000010, &[]),
    (0x1000040, &[]),
    (0x1000048, &[]),
    (0x1000049, &[FIRST]),
    (0x1000057, &[FIRST]),
    (0x1000058, &[]),
    (0x1000088, &[]),
    (0x1000089, &[FIRST]),
];

/// The first principal gets eight bytes.
fn assert_owned(rt: &impl Abort, caps: &mut PlainCaps) -> Result<(), Fail> {
    assert!(rt; goes_so(caps, Step::GrantBytes(FIRST, 0x1000050, 8))?);
    Ok(())
}

/// The writers of slots, once bytes are zeroed of which some are owned.
fn assert_zeroed(rt: &impl Abort, sets: &mut WriterSets, caps: &mut PlainCaps) -> Result<(), Fail> {
    assert_noted(rt, sets, &NOTES_TO_ZERO)?;
    assert_owned(rt, caps)?;
    assert!(rt; mapped(0x1000010, 0x80));
    sets.zero(0x1000010, 0x80, caps);
    assert_writers(rt, sets, &SLOTS_ZEROED);
    Ok(())
}

#[test]
fn owners_stay_writers_of_zeroed_bytes(rt: HostRuntime) -> Result<(), Fail> {
    let mut sets = WriterSets::new(rt.alloc());
    let mut caps = PlainCaps::new(rt.alloc());
    let went = assert_zeroed(&rt, &mut sets, &mut caps);
    drop(caps);
    drop(sets);
    went
}
