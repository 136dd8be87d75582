//! The ranges of bytes that a principal owns, as each kind of store lists them.
ghost use Rattle.std.specs.Prelude.{◌+◌, ◌*◌, ◌^◌, ◌<◌, IfOk};
ghost use Rattle.std.specs.List.{All};

use crate::common::{FIRST, LoanAct, SHARED, STRANGER, Step, goes_so};
use lx_cap_lists::{PartBytes, ranges_of};
use lx_cap_tables::CapTables;
use lx_caps::{Cap, CapStore, PlainCaps, Principal};
use lx_words::Memory;
use lx_writer_sets::Recorded;
use std::alloc::Global;
use std::test::Fail;

/// Steps, and the ranges that the principal then owns, each by its address and how many bytes it has.
#[derive(Clone, Copy)]
struct Case {
    who: Principal,
    steps: &'static [Step],
    ranges: &'static [(u64, u64)],
}

static CASES: [Case; 11] = [
    // Parts of 64 bytes that touch, whichever comes first.
    Case {
        who: SHARED,
        steps: &[
            Step::GrantBytes(SHARED, 0x1000080, 64),
            Step::GrantBytes(SHARED, 0x1000000, 64),
            Step::GrantBytes(SHARED, 0x1000040, 64),
        ],
        ranges: &[(0x1000000, 192)],
    },
    // A range over the end of a part, beside one that begins a byte behind it.
    Case {
        who: SHARED,
        steps: &[
            Step::GrantBytes(SHARED, 0x100003c, 8),
            Step::GrantBytes(SHARED, 0x1000045, 1),
        ],
        ranges: &[(0x100003c, 8), (0x1000045, 1)],
    },
    // What two bytes less leave of a range.
    Case {
        who: SHARED,
        steps: &[
            Step::GrantBytes(SHARED, 0x1000000, 200),
            Step::StripBytes(0x100003f, 2),
        ],
        ranges: &[(0x1000000, 63), (0x1000041, 135)],
    },
    // Bytes that are kept and lent overlap.
    Case {
        who: SHARED,
        steps: &[
            Step::GrantBytes(SHARED, 0x1000000, 16),
            Step::Loans(0, LoanAct::Open),
            Step::LendBytes(0, SHARED, 0x1000008, 16),
        ],
        ranges: &[(0x1000000, 24)],
    },
    // Loans of two threads in one part.
    Case {
        who: SHARED,
        steps: &[
            Step::GrantBytes(SHARED, 0x1000000, 4),
            Step::Loans(0, LoanAct::Open),
            Step::LendBytes(0, SHARED, 0x1000002, 4),
            Step::Loans(1, LoanAct::Open),
            Step::LendBytes(1, SHARED, 0x1000008, 4),
        ],
        ranges: &[(0x1000000, 6), (0x1000008, 4)],
    },
    // An outer loan goes on where the inner one has ended.
    Case {
        who: STRANGER,
        steps: &[
            Step::Loans(0, LoanAct::Open),
            Step::LendBytes(0, STRANGER, 0x1000000, 8),
            Step::Loans(0, LoanAct::Open),
            Step::LendBytes(0, STRANGER, 0x1000004, 8),
            Step::Loans(0, LoanAct::Shut(1)),
        ],
        ranges: &[(0x1000000, 8)],
    },
    // The three regions of memory, and their last byte.
    Case {
        who: SHARED,
        steps: &[
            Step::GrantBytes(SHARED, 0x30fffff, 1),
            Step::GrantBytes(SHARED, 0x2000000, 1),
            Step::GrantBytes(SHARED, 0x10fffff, 1),
            Step::GrantBytes(SHARED, 0x1000000, 1),
        ],
        ranges: &[
            (0x1000000, 1),
            (0x10fffff, 1),
            (0x2000000, 1),
            (0x30fffff, 1),
        ],
    },
    // What others own, and what is no byte.
    Case {
        who: SHARED,
        steps: &[
            Step::GrantBytes(FIRST, 0x1000000, 16),
            Step::Grant(SHARED, Cap::Call { at: 0x1000000 }),
            Step::Grant(
                SHARED,
                Cap::Ref {
                    ty: 1,
                    at: 0x1000000,
                },
            ),
            Step::GrantBytes(SHARED, 0x1000000, 0),
        ],
        ranges: &[],
    },
    // What was stripped.
    Case {
        who: SHARED,
        steps: &[
            Step::GrantBytes(SHARED, 0x1000000, 16),
            Step::StripBytes(0x1000000, 16),
        ],
        ranges: &[],
    },
    // What was lent to another, and what its loan no longer lends.
    Case {
        who: STRANGER,
        steps: &[
            Step::GrantBytes(SHARED, 0x1000000, 16),
            Step::Loans(0, LoanAct::Open),
            Step::LendBytes(0, STRANGER, 0x1000000, 16),
            Step::Loans(0, LoanAct::ShutAll),
        ],
        ranges: &[],
    },
    Case {
        who: SHARED,
        steps: &[],
        ranges: &[],
    },
];

/// Whether these are the ranges.
pub fn are_ranges(listed: &[Cap], ranges: &[(u64, u64)]) -> bool {
    listed.len() == ranges.len()
        && listed.iter().zip(ranges).all(|(cap, (at, size))| {
            *cap == Cap::Write {
                at: *at,
                size: *size,
            }
        })
}

/// Takes the steps, and says whether each answered as it has to.
fn go_so<C: CapStore>(caps: &mut C, steps: &[Step]) -> Result<bool, Memory> {
    for step in steps {
        if !goes_so(caps, *step)? {
            return Ok(false);
        }
    }
    Ok(true)
}

/// Whether a store lists the case's ranges behind its steps.
fn lists_so<C: CapStore>(alloc: Global, caps: &mut C, case: Case) -> Result<bool, Memory> {
    let went = go_so(caps, case.steps)?;
    let listed = caps.byte_ranges(alloc, case.who)?;
    let alike = are_ranges(&listed, case.ranges);
    Ok(went && alike)
}

fn plain_lists_so(alloc: Global, case: Case) -> Result<bool, Memory> {
    let mut caps = PlainCaps::new(alloc);
    let listed = lists_so(alloc, &mut caps, case);
    drop(caps);
    listed
}

fn tables_list_so(alloc: Global, case: Case) -> Result<bool, Memory> {
    let mut caps = CapTables::new(alloc)?;
    let listed = lists_so(alloc, &mut caps, case);
    drop(caps);
    listed
}

fn recorded_lists_so(alloc: Global, case: Case) -> Result<bool, Memory> {
    let mut caps = Recorded::new(alloc, CapTables::new(alloc)?);
    let listed = lists_so(alloc, &mut caps, case);
    drop(caps);
    listed
}

#[test]
fn stores_list_the_greatest_ranges(rt: HostRuntime) -> Result<(), Fail> {
    for (number, case) in CASES.iter().enumerate() {
        assert!(&rt; plain_lists_so(rt.alloc(), *case)?, "plain, case {number}");
        assert!(&rt; tables_list_so(rt.alloc(), *case)?, "tables, case {number}");
        assert!(&rt;
            recorded_lists_so(rt.alloc(), *case)?,
            "recorded, case {number}"
        );
    }
    Ok(())
}

/// So many ranges of eight bytes, 256 bytes apart.
const FAR: u64 = 3000;

fn far(number: u64) -> u64
    requires { number < 3000 }
{
    0x2000000 + 0x100 * number
}

/// Grants the ranges, each one 7 places on.
fn grant_far<C: CapStore>(caps: &mut C) -> Result<bool, Memory> {
    for number in 0..FAR {
        if !goes_so(caps, Step::GrantBytes(SHARED, far(number * 7 % FAR), 8))? {
            return Ok(false);
        }
    }
    Ok(true)
}

fn far_ranges(alloc: Global) -> Result<Vec<Cap>, Memory> {
    let mut ranges = Vec::new(alloc);
    for number in 0..FAR {
        ranges.push(Cap::Write {
            at: far(number),
            size: 8,
        })?;
    }
    Ok(ranges)
}

fn lists_far<C: CapStore>(alloc: Global, caps: &mut C) -> Result<bool, Memory> {
    let went = grant_far(caps)?;
    let listed = caps.byte_ranges(alloc, SHARED)?;
    let wanted = far_ranges(alloc)?;
    Ok(went && listed == wanted)
}

#[test]
fn ranges_far_apart_are_listed(rt: HostRuntime) -> Result<(), Fail> {
    let alloc = rt.alloc();
    let mut tables = CapTables::new(alloc)?;
    let listed = lists_far(alloc, &mut tables);
    drop(tables);
    assert!(&rt; listed?);
    Ok(())
}

#[test]
fn ranges_far_apart_are_listed_beside_writers(rt: HostRuntime) -> Result<(), Fail> {
    let alloc = rt.alloc();
    let mut recorded = Recorded::new(alloc, CapTables::new(alloc)?);
    let listed = lists_far(alloc, &mut recorded);
    drop(recorded);
    assert!(&rt; listed?);
    Ok(())
}

/// Parts by their numbers, each with its mask, and the ranges of their bytes.
#[derive(Clone, Copy)]
struct Masks {
    parts: &'static [(u32, u64)],
    ranges: &'static [(u64, u64)],
}

static MASKS: [Masks; 7] = [
    // Unordered, with repeats: byte 63, all of part 1, byte 128, and three bytes of part 3.
    Masks {
        parts: &[
            (3, 0b001),
            (1, 0xffffffffffffffff),
            (3, 0b110),
            (2, 0b1),
            (1, 0b101),
            (0, 0x8000000000000000),
        ],
        ranges: &[(63, 66), (192, 3)],
    },
    // The ends of a part, and the part behind it.
    Masks {
        parts: &[(2, 0b1), (1, 0x8000000000000001)],
        ranges: &[(64, 1), (127, 2)],
    },
    // A part is left out between two whole ones.
    Masks {
        parts: &[(12, 0xffffffffffffffff), (10, 0xffffffffffffffff)],
        ranges: &[(640, 64), (768, 64)],
    },
    // Every other byte of the four lowest.
    Masks {
        parts: &[(0, 0b0100), (0, 0b0001)],
        ranges: &[(0, 1), (2, 1)],
    },
    // A far part.
    Masks {
        parts: &[(0xffffffff, 0xff00000000000000)],
        ranges: &[(0x3ffffffff8, 8)],
    },
    // No byte of a part.
    Masks {
        parts: &[(5, 0), (4, 0)],
        ranges: &[],
    },
    Masks {
        parts: &[],
        ranges: &[],
    },
];

fn parts_of(alloc: Global, parts: &[(u32, u64)]) -> Result<Vec<PartBytes>, Memory>
    ensures { IfOk result (λ xs. All (λ x. x.part * 64 + 64 < 2 ^ 64) xs.items) }
{
    let mut made = Vec::new(alloc);
    for (part, mask) in parts {
        made.push(PartBytes {
            part: *part as u64,
            mask: *mask,
        })?;
    }
    Ok(made)
}

/// Whether the bytes of the parts are in these ranges.
fn joins_so(alloc: Global, masks: Masks) -> Result<bool, Memory> {
    let parts = parts_of(alloc, masks.parts)?;
    let listed = ranges_of(alloc, parts)?;
    let alike = are_ranges(&listed, masks.ranges);
    Ok(alike)
}

#[test]
fn parts_join_in_any_order(rt: HostRuntime) -> Result<(), Fail> {
    for (number, masks) in MASKS.iter().enumerate() {
        assert!(&rt; joins_so(rt.alloc(), *masks)?, "masks {number}");
    }
    Ok(())
}
