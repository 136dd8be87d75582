//! Certificates of needs over lists of acts, and what is refused as one.
ghost use Rattle.std.specs.Prelude.{◌≡◌, IfOk};
ghost use Rattle.lx_caps.specs.Placed.{is_placed_act};
ghost use Rattle.lx_certificates.specs.Certificates.{is_kernel};

use crate::common::{FIRST, SHARED, STRANGER, is_in_memory};
use lx_act_index::ActIndex;
use lx_caps::{Act, Acts, Atom, Cap, Principal, mapped};
use lx_certificates::{Cert, Need, Part, cert_for, certs_for, check_cert, is_told, told_acts};
use lx_words::{Items, Memory};
use std::alloc::Global;
use std::process::Abort;
use std::test::Fail;

const STACK: Cap = Cap::Write {
    at: 0x3000000,
    size: 65536,
};

const EMPTY: Cap = Cap::Write {
    at: 0x3000000,
    size: 0,
};

/// A global of seven bytes and a function, and the end of a call.
static CALLED: [Act; 4] = [
    Act::Grant(
        SHARED,
        Cap::Write {
            at: 0x1000000,
            size: 7,
        },
    ),
    Act::Grant(SHARED, Cap::Call { at: 0x10060 }),
    Act::Strip(STACK),
    Act::ShutAll(0),
];

/// Half of sixteen bytes is given on, the middle is lent, and then the loan ends.
static SPLIT: [Act; 6] = [
    Act::Grant(
        SHARED,
        Cap::Write {
            at: 0x1000000,
            size: 16,
        },
    ),
    Act::Strip(Cap::Write {
        at: 0x1000008,
        size: 8,
    }),
    Act::Grant(
        FIRST,
        Cap::Write {
            at: 0x1000008,
            size: 8,
        },
    ),
    Act::Loan(3),
    Act::Lend(
        3,
        STRANGER,
        Cap::Write {
            at: 0x1000004,
            size: 8,
        },
    ),
    Act::Shut(3, 1),
];

/// What a certificate says of a need. A part is its first address, its size and its act.
#[derive(Clone, Copy)]
enum Wanted {
    Allow(&'static [(u64, u64, u32)]),
    Deny(Atom, Option<u32>),
    Borrowed(Atom, u32),
}

/// How many acts came before, a need, whether it must be kept, and what its certificate says.
type Row = (u32, Principal, Cap, bool, Wanted);

static OF_CALLED: [Row; 5] = [
    (
        2,
        SHARED,
        Cap::Write {
            at: 0x1000000,
            size: 8,
        },
        false,
        Wanted::Deny(Atom::Byte(0x1000007), None),
    ),
    (
        2,
        FIRST,
        Cap::Write {
            at: 0x1000000,
            size: 7,
        },
        true,
        Wanted::Allow(&[(0x1000000, 7, 0)]),
    ),
    (
        4,
        SHARED,
        Cap::Call { at: 0x10060 },
        false,
        Wanted::Allow(&[(0x10060, 1, 1)]),
    ),
    (
        4,
        SHARED,
        STACK,
        true,
        Wanted::Deny(Atom::Byte(0x3000000), Some(2)),
    ),
    (4, STRANGER, EMPTY, true, Wanted::Allow(&[])),
];

static OF_SPLIT: [Row; 5] = [
    (
        3,
        FIRST,
        Cap::Write {
            at: 0x1000000,
            size: 16,
        },
        true,
        Wanted::Allow(&[(0x1000000, 8, 0), (0x1000008, 8, 2)]),
    ),
    (
        3,
        SHARED,
        Cap::Write {
            at: 0x1000000,
            size: 16,
        },
        true,
        Wanted::Deny(Atom::Byte(0x1000008), Some(1)),
    ),
    (
        5,
        STRANGER,
        Cap::Write {
            at: 0x1000005,
            size: 6,
        },
        false,
        Wanted::Allow(&[(0x1000005, 6, 4)]),
    ),
    (
        5,
        STRANGER,
        Cap::Write {
            at: 0x1000005,
            size: 6,
        },
        true,
        Wanted::Borrowed(Atom::Byte(0x1000005), 4),
    ),
    (
        6,
        STRANGER,
        Cap::Write {
            at: 0x1000005,
            size: 6,
        },
        true,
        Wanted::Deny(Atom::Byte(0x1000005), None),
    ),
];

fn is_of_kernel(who: Principal) -> bool
    ensures { result ≡ is_kernel who }
{
    matches!(who, Principal::Kernel)
}

fn acts_of(alloc: Global, acts: &[Act]) -> Result<Acts, Memory>
    ensures { IfOk result (λ told. told.list ≡ acts.now) }
{
    let mut list = Vec::new(alloc);
    for act in acts {
        list.push(*act)?;
    }
    Ok(Acts::from_vec(list))
}

fn are_parts(parts: &[Part], wanted: &[(u64, u64, u32)]) -> bool {
    if parts.len() != wanted.len() {
        return false;
    }
    for (i, (low, size, act)) in wanted.iter().enumerate() {
        let part = part(*low, *size, *act);
        if parts.get(i) != Some(&part) {
            return false;
        }
    }
    true
}

/// Says whether a certificate is of this need, and says what is wanted.
fn says(cert: &Cert, need: Need, wanted: Wanted) -> bool {
    match (cert, wanted) {
        (
            Cert::Allow {
                who,
                cap,
                kept,
                parts,
            },
            Wanted::Allow(wanted),
        ) => {
            *who == need.who
                && *cap == need.cap
                && *kept == need.kept
                && are_parts(parts.as_slice(), wanted)
        }
        (
            Cert::Deny {
                who,
                cap,
                atom,
                strip,
            },
            Wanted::Deny(first, newest),
        ) => *who == need.who && *cap == need.cap && *atom == first && *strip == newest,
        (
            Cert::Borrowed {
                who,
                cap,
                atom,
                act,
            },
            Wanted::Borrowed(first, lend),
        ) => *who == need.who && *cap == need.cap && *atom == first && *act == lend,
        _ => false,
    }
}

fn lies_in_memory(act: Act) -> bool
    ensures { result ≡ is_placed_act act }
{
    match act {
        Act::Grant(_, cap) | Act::Strip(cap) | Act::Lend(_, _, cap) => is_in_memory(cap),
        Act::Zero { at, size } => mapped(at, size),
        Act::Loan(_) | Act::Shut(..) | Act::ShutAll(_) => true,
    }
}

/// Notes acts in an index, and says whether all of them lie in memory.
fn note_all(index: &mut ActIndex, acts: &[Act]) -> Result<bool, Memory> {
    for act in acts {
        if !lies_in_memory(*act) {
            return Ok(false);
        }
        index.note(*act)?;
    }
    Ok(true)
}

/// Says whether the certificate that an index of the acts makes for a need says what is wanted.
fn is_indexed(alloc: Global, acts: &[Act], need: Need, wanted: Wanted) -> Result<bool, Memory> {
    if is_of_kernel(need.who) {
        return Ok(false);
    }
    let mut index = ActIndex::new(alloc)?;
    if !note_all(&mut index, acts)? {
        return Ok(false);
    }
    let cert = index.cert_for(alloc, need.who, need.cap, need.kept)?;
    Ok(says(&cert, need, wanted))
}

/// Says whether the certificate that is made for a need says what is wanted, and is accepted.
fn is_made(
    alloc: Global,
    acts: &Acts,
    before: u32,
    need: Need,
    wanted: Wanted,
) -> Result<bool, Memory> {
    if before as usize > acts.as_slice().len() || is_of_kernel(need.who) {
        return Ok(false);
    }
    let so_far = acts.as_slice().split_at(before as usize).0;
    let cert = cert_for(alloc, so_far, need.who, need.cap, need.kept)?;
    let indexed = is_indexed(alloc, so_far, need, wanted)?;
    Ok(indexed && says(&cert, need, wanted) && check_cert(acts, before, &cert))
}

fn assert_made(rt: &impl Abort, alloc: Global, acts: &Acts, rows: &[Row]) -> Result<(), Fail> {
    for (number, (before, who, cap, kept, wanted)) in rows.iter().enumerate() {
        let need = Need {
            who: *who,
            cap: *cap,
            kept: *kept,
        };
        assert!(rt;
            is_made(alloc, acts, *before, need, *wanted)?,
            "row {number}"
        );
    }
    Ok(())
}

#[test]
fn a_need_has_its_certificate(rt: HostRuntime) -> Result<(), Fail> {
    let acts = acts_of(rt.alloc(), &CALLED)?;
    assert_made(&rt, rt.alloc(), &acts, &OF_CALLED)
}

#[test]
fn parts_and_loans_have_their_acts(rt: HostRuntime) -> Result<(), Fail> {
    let acts = acts_of(rt.alloc(), &SPLIT)?;
    assert_made(&rt, rt.alloc(), &acts, &OF_SPLIT)
}

fn part(low: u64, size: u64, act: u32) -> Part {
    Part { low, size, act }
}

/// Says whether these parts are accepted for eight bytes, of which the instance's module owns four and the instance four.
fn accepts(alloc: Global, acts: &Acts, parts: &[Part]) -> Result<bool, Memory> {
    if acts.as_slice().len() < 3 {
        return Ok(false);
    }
    let parts = Items::from_slice(alloc, parts)?;
    let cert = Cert::Allow {
        who: FIRST,
        cap: Cap::Write {
            at: 0x1000004,
            size: 8,
        },
        kept: true,
        parts,
    };
    Ok(check_cert(acts, 3, &cert))
}

/// Parts, and whether they are accepted: an older grant that was stripped, a gap, one part cut in two, and one too long.
static PARTS: [(&[(u64, u64, u32)], bool); 5] = [
    (&[(0x1000004, 4, 0), (0x1000008, 4, 2)], true),
    (&[(0x1000004, 8, 0)], false),
    (&[(0x1000004, 3, 0), (0x1000008, 4, 2)], false),
    (
        &[(0x1000004, 2, 0), (0x1000006, 2, 0), (0x1000008, 4, 2)],
        false,
    ),
    (&[(0x1000004, 4, 0), (0x1000008, 5, 2)], false),
];

fn parts_of(alloc: Global, rows: &[(u64, u64, u32)]) -> Result<Vec<Part>, Memory> {
    let mut parts = Vec::new(alloc);
    for (low, size, act) in rows {
        parts.push(part(*low, *size, *act))?;
    }
    Ok(parts)
}

#[test]
fn only_the_greatest_parts_are_accepted(rt: HostRuntime) -> Result<(), Fail> {
    let acts = acts_of(rt.alloc(), &SPLIT)?;
    for (number, (rows, wanted)) in PARTS.iter().enumerate() {
        let parts = parts_of(rt.alloc(), rows)?;
        assert!(rt;
            accepts(rt.alloc(), &acts, &parts)? == *wanted,
            "parts {number}"
        );
    }
    Ok(())
}

/// Neighbouring words, each granted by an act of its own.
fn words(alloc: Global, count: u32) -> Result<Acts, Memory> {
    let mut list = Vec::new(alloc);
    for i in 0..count {
        let at = 0x1000000 + 8 * u64::from(i);
        list.push(Act::Grant(SHARED, Cap::Write { at, size: 8 }))?;
    }
    Ok(Acts::from_vec(list))
}

/// Says whether the part of each act is the word that it granted.
fn are_words(parts: &[Part]) -> bool {
    for (i, found) in parts.iter().enumerate() {
        let Ok(act) = u32::try_from(i) else {
            return false;
        };
        if *found != part(0x1000000 + 8 * u64::from(act), 8, act) {
            return false;
        }
    }
    true
}

/// Says whether the certificate of the oldest 16 words has a part for each, and is accepted.
fn has_oldest_words(alloc: Global, acts: &Acts, count: u32) -> Result<bool, Memory> {
    let cap = Cap::Write {
        at: 0x1000000,
        size: 128,
    };
    if acts.as_slice().len() != count as usize {
        return Ok(false);
    }
    let cert = cert_for(alloc, acts.as_slice(), FIRST, cap, true)?;
    let Cert::Allow { parts, .. } = &cert else {
        return Ok(false);
    };
    Ok(parts.len() == 16 && are_words(parts.as_slice()) && check_cert(acts, count, &cert))
}

#[test]
fn thousands_of_acts_are_looked_through(rt: HostRuntime) -> Result<(), Fail> {
    let acts = words(rt.alloc(), 4000)?;
    assert!(rt; has_oldest_words(rt.alloc(), &acts, 4000)?);
    Ok(())
}

/// A store that is allowed, one that is not, and one that is never asked for.
static NEEDS: [Need; 3] = [
    Need {
        who: FIRST,
        cap: Cap::Call { at: 0x10060 },
        kept: false,
    },
    Need {
        who: SHARED,
        cap: STACK,
        kept: false,
    },
    Need {
        who: SHARED,
        cap: Cap::Call { at: 0x10060 },
        kept: true,
    },
];

#[test]
fn certificates_end_behind_what_is_refused(rt: HostRuntime) -> Result<(), Fail> {
    let certs = certs_for(rt.alloc(), &CALLED, &NEEDS)?;
    let certs = certs.as_slice();
    assert_eq!(rt; certs.len(), 2);
    assert!(rt; says(&certs[0], NEEDS[0], Wanted::Allow(&[(0x10060, 1, 1)])));
    assert!(rt;
        says(
            &certs[1],
            NEEDS[1],
            Wanted::Deny(Atom::Byte(0x3000000), Some(2))
        )
    );
    Ok(())
}

/// Acts of which the first and the last are told.
static WRITTEN: [Act; 4] = [
    Act::Grant(SHARED, STACK),
    Act::Zero { at: 0, size: 8 },
    Act::Strip(EMPTY),
    Act::ShutAll(0),
];

#[test]
fn what_changes_nothing_is_not_told(rt: HostRuntime) -> Result<(), Fail> {
    assert!(rt; !is_told(Act::Lend(0, SHARED, EMPTY)));
    let told = told_acts(rt.alloc(), &WRITTEN)?;
    assert!(rt; told.as_slice() == [Act::Grant(SHARED, STACK), Act::ShutAll(0)].as_slice());
    Ok(())
}
