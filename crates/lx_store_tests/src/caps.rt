// Hostile cases of the plain store, and each call that takes memory.
ghost use Rattle.std.specs.Prelude.{◌≡◌, ◌≢◌, ◌+◌, ◌≤◌, ◌∷◌, true};
ghost use Rattle.lx_caps.specs.declared.Act.TheVariants.{Grant, Strip};
ghost use Rattle.lx_caps.specs.declared.Principal.TheVariants.{Kernel};
ghost use Rattle.lx_caps.specs.History.{History, holds};
ghost use Rattle.lx_caps.specs.Cells.{cells};
ghost use Rattle.lx_caps.specs.Placed.{is_placed};

use crate::common::{
    FIRST, GLOBAL, LoanAct, SECOND, SHARED, STRANGER, Step, goes_so, is_in_memory,
};
use lx_caps::{Act, Atom, Cap, CapStore, PlainCaps, Principal, cells, precedes, reaches};
use std::alloc::Global;
use std::process::Abort;
use std::test::Fail;

/// Moves a capability to a principal, where its source holds it. Any store will do.
fn moved<C: CapStore>(caps: &mut C, source: Principal, dest: Principal, cap: Cap) -> bool
    requires room { cells cap + 1 ≤ C.spare caps.old }
    requires recorded { dest ≢ Kernel }
    requires placed { is_placed cap ≡ true }
    ensures answer { (h : History) → C.stands caps.old h → result ≡ holds h source cap }
    ensures done { (h : History) → C.stands caps.old h → holds h source cap ≡ true → C.stands caps.new (Grant dest cap ∷ Strip cap ∷ h) }
{
    if caps.holds(source, cap) {
        caps.strip(cap);
        caps.grant(dest, cap);
        true
    } else {
        false
    }
}

/// A store takes steps, each of which has to answer as it says.
fn assert_go_on(rt: &impl Abort, caps: &mut PlainCaps, steps: &[Step]) -> Result<(), Fail> {
    for (number, step) in steps.iter().enumerate() {
        assert!(rt; goes_so(caps, *step)?, "step {number}");
    }
    Ok(())
}

fn assert_steps(rt: &impl Abort, alloc: Global, steps: &[Step]) -> Result<(), Fail> {
    let mut caps = PlainCaps::new(alloc);
    assert_go_on(rt, &mut caps, steps)?;
    Ok(())
}

static BYTES: [Step; 15] = [
    Step::GrantBytes(SHARED, 0x1000000, 16),
    Step::StripBytes(0x1000008, 8),
    Step::GrantBytes(FIRST, 0x1000008, 8),
    Step::HoldsBytes(FIRST, 0x1000000, 16, true),
    Step::HoldsBytes(FIRST, 0x1000004, 8, true),
    Step::HoldsBytes(SHARED, 0x1000000, 8, true),
    Step::HoldsBytes(SHARED, 0x1000000, 9, false),
    Step::HoldsBytes(SHARED, 0x1000004, 8, false),
    Step::HoldsBytes(SECOND, 0x1000007, 2, false),
    Step::HoldsBytes(SECOND, 0x1000007, 1, true),
    Step::HoldsBytes(GLOBAL, 0x1000000, 16, true),
    Step::HoldsBytes(GLOBAL, 0x1000000, 17, false),
    Step::HoldsBytes(STRANGER, 0x1000000, 1, false),
    Step::HoldsBytes(STRANGER, 0x1000000, 0, true),
    Step::HoldsBytes(Principal::Kernel, 0x2000000, 0x100000, true),
];

#[test]
fn different_bytes_have_different_owners(rt: HostRuntime) -> Result<(), Fail> {
    assert_steps(&rt, rt.alloc(), &BYTES)
}

static CALLS: [Step; 12] = [
    Step::Grant(SHARED, Cap::Call { at: 0x10000 }),
    Step::Grant(FIRST, Cap::Call { at: 0x10000 }),
    Step::Grant(FIRST, Cap::Ref { ty: 1, at: 0x10000 }),
    Step::Strip(Cap::Call { at: 0x10000 }),
    Step::Grant(SECOND, Cap::Ref { ty: 1, at: 0x10000 }),
    Step::Holds(SHARED, Cap::Call { at: 0x10000 }, false),
    Step::Holds(FIRST, Cap::Call { at: 0x10000 }, false),
    Step::Holds(GLOBAL, Cap::Call { at: 0x10000 }, false),
    Step::Holds(FIRST, Cap::Ref { ty: 1, at: 0x10000 }, true),
    Step::Holds(FIRST, Cap::Ref { ty: 2, at: 0x10000 }, false),
    Step::Holds(SHARED, Cap::Ref { ty: 1, at: 0x10000 }, false),
    Step::Holds(Principal::Kernel, Cap::Call { at: 7 }, true),
];

#[test]
fn a_strip_takes_from_everyone(rt: HostRuntime) -> Result<(), Fail> {
    assert_steps(&rt, rt.alloc(), &CALLS)
}

/// Two loans of thread 0 to a stranger, the outer one of eight bytes and the inner one of the eight bytes behind them.
static LENT: [Step; 5] = [
    Step::GrantBytes(SHARED, 0x1000000, 16),
    Step::Loans(0, LoanAct::Open),
    Step::LendBytes(0, STRANGER, 0x1000000, 8),
    Step::Loans(0, LoanAct::Open),
    Step::LendBytes(0, STRANGER, 0x1000008, 8),
];

/// A further act, and whether the stranger then holds the outer and the inner bytes.
static ENDS: [(Step, bool, bool); 8] = [
    (Step::Loans(0, LoanAct::Open), true, true),
    (Step::Loans(0, LoanAct::Shut(0)), true, true),
    (Step::Loans(0, LoanAct::Shut(1)), true, false),
    (Step::Loans(0, LoanAct::Shut(2)), false, false),
    (Step::Loans(0, LoanAct::Shut(9)), false, false),
    (Step::Loans(0, LoanAct::ShutAll), false, false),
    (Step::Loans(1, LoanAct::ShutAll), true, true),
    (Step::StripBytes(0x1000007, 1), false, true),
];

/// What the stranger holds behind the loans and a further act. It keeps nothing.
fn assert_end(
    rt: &impl Abort,
    alloc: Global,
    last: Step,
    outer: bool,
    inner: bool,
) -> Result<(), Fail> {
    let mut caps = PlainCaps::new(alloc);
    assert_go_on(rt, &mut caps, &LENT)?;
    let found = [
        last,
        Step::HoldsBytes(STRANGER, 0x1000000, 8, outer),
        Step::HoldsBytes(STRANGER, 0x1000008, 8, inner),
        Step::KeepsBytes(STRANGER, 0x1000000, 1, false),
        Step::KeepsBytes(STRANGER, 0x1000008, 1, false),
    ];
    assert_go_on(rt, &mut caps, &found)?;
    Ok(())
}

#[test]
fn loans_end_the_newest_first(rt: HostRuntime) -> Result<(), Fail> {
    for (last, outer, inner) in ENDS.iter() {
        assert_end(&rt, rt.alloc(), *last, *outer, *inner)?;
    }
    Ok(())
}

/// What is owned on both loans, and once the inner one has ended.
static BORROWED: [Step; 7] = [
    Step::Loans(1, LoanAct::Open),
    Step::KeepsBytes(SHARED, 0x1000000, 16, true),
    Step::NextOwner(Atom::Byte(0x1000008), Some(SHARED), Some(STRANGER)),
    Step::NextOwned(STRANGER, None, Some(Atom::Byte(0x1000000))),
    Step::Loans(0, LoanAct::Shut(1)),
    Step::NextOwner(Atom::Byte(0x1000008), Some(SHARED), None),
    Step::NextOwned(STRANGER, Some(Atom::Byte(0x1000007)), None),
];

#[test]
fn a_borrower_owns_until_the_end(rt: HostRuntime) -> Result<(), Fail> {
    let mut caps = PlainCaps::new(rt.alloc());
    assert_go_on(&rt, &mut caps, &LENT)?;
    assert_go_on(&rt, &mut caps, &BORROWED)?;
    Ok(())
}

static ATOMS: [Step; 16] = [
    Step::Grant(SHARED, Cap::Ref { ty: 1, at: 3 }),
    Step::Grant(SHARED, Cap::Ref { ty: 0, at: 9 }),
    Step::Grant(SHARED, Cap::Call { at: 0x10010 }),
    Step::GrantBytes(SHARED, 0x30fffff, 1),
    Step::GrantBytes(SHARED, 0x1000000, 4),
    Step::StripBytes(0x1000001, 2),
    Step::GrantBytes(FIRST, 0x1000001, 1),
    Step::NextOwned(SHARED, None, Some(Atom::Byte(0x1000000))),
    Step::NextOwned(
        SHARED,
        Some(Atom::Byte(0x1000000)),
        Some(Atom::Byte(0x1000003)),
    ),
    Step::NextOwned(
        SHARED,
        Some(Atom::Byte(0x1000003)),
        Some(Atom::Byte(0x30fffff)),
    ),
    Step::NextOwned(
        SHARED,
        Some(Atom::Byte(0x30fffff)),
        Some(Atom::Call(0x10010)),
    ),
    Step::NextOwned(SHARED, Some(Atom::Call(0x10010)), Some(Atom::Ref(0, 9))),
    Step::NextOwned(SHARED, Some(Atom::Ref(0, 9)), Some(Atom::Ref(1, 3))),
    Step::NextOwned(SHARED, Some(Atom::Ref(1, 3)), None),
    Step::NextOwned(GLOBAL, None, None),
    Step::NextOwned(FIRST, Some(Atom::Byte(u64::MAX)), None),
];

#[test]
fn owned_atoms_come_in_order(rt: HostRuntime) -> Result<(), Fail> {
    assert_steps(&rt, rt.alloc(), &ATOMS)
}

static OWNERS: [Step; 19] = [
    Step::GrantBytes(STRANGER, 0x1000000, 8),
    Step::GrantBytes(SECOND, 0x1000004, 8),
    Step::GrantBytes(FIRST, 0x1000006, 2),
    Step::GrantBytes(GLOBAL, 0x1000000, 64),
    Step::GrantBytes(SHARED, 0x1000007, 1),
    Step::StripBytes(0x1000007, 2),
    Step::GrantBytes(SECOND, 0x1000007, 1),
    Step::NextOwner(Atom::Byte(0x1000006), None, Some(GLOBAL)),
    Step::NextOwner(Atom::Byte(0x1000006), Some(GLOBAL), Some(FIRST)),
    Step::NextOwner(Atom::Byte(0x1000006), Some(FIRST), Some(SECOND)),
    Step::NextOwner(Atom::Byte(0x1000006), Some(SECOND), Some(STRANGER)),
    Step::NextOwner(Atom::Byte(0x1000006), Some(STRANGER), None),
    Step::NextOwner(Atom::Byte(0x1000007), None, Some(SECOND)),
    Step::NextOwner(Atom::Byte(0x1000008), None, None),
    Step::NextOwner(Atom::Call(0x1000006), None, None),
    Step::OwnsByte(FIRST, 0x1000006, true),
    Step::OwnsByte(FIRST, 0x1000005, false),
    Step::OwnsByte(GLOBAL, 0x1000000, true),
    Step::OwnsByte(GLOBAL, 0, false),
];

#[test]
fn owners_come_in_order(rt: HostRuntime) -> Result<(), Fail> {
    assert!(rt; precedes(Principal::Kernel, SHARED));
    assert_steps(&rt, rt.alloc(), &OWNERS)
}

const WHOLE: Cap = Cap::Write {
    at: 0x3000000,
    size: 64,
};

static MOVED: [Act; 3] = [
    Act::Grant(SHARED, WHOLE),
    Act::Strip(WHOLE),
    Act::Grant(FIRST, WHOLE),
];

#[test]
fn a_store_keeps_its_list(rt: HostRuntime) -> Result<(), Fail> {
    let mut caps = PlainCaps::new(rt.alloc());
    assert!(rt; goes_so(&mut caps, Step::Grant(SHARED, WHOLE))?);
    caps.reserve(4)?;
    assert!(rt; is_in_memory(WHOLE));
    assert!(rt; cells(WHOLE) < caps.spare());
    assert!(rt; moved(&mut caps, SHARED, FIRST, WHOLE));
    assert!(rt; caps.acts().as_slice() == MOVED.as_slice());
    Ok(())
}

static REACHED: [(Principal, Principal, bool); 14] = [
    (Principal::Kernel, Principal::Kernel, true),
    (Principal::Kernel, SHARED, false),
    (SHARED, SHARED, true),
    (SHARED, FIRST, false),
    (SHARED, GLOBAL, false),
    (FIRST, FIRST, true),
    (FIRST, SHARED, true),
    (FIRST, SECOND, false),
    (FIRST, STRANGER, false),
    (GLOBAL, GLOBAL, true),
    (GLOBAL, SHARED, true),
    (GLOBAL, SECOND, true),
    (GLOBAL, STRANGER, false),
    (GLOBAL, Principal::Kernel, false),
];

#[test]
fn principals_reach_owners(rt: HostRuntime) {
    for (number, (who, owner, want)) in REACHED.iter().enumerate() {
        assert!(rt; reaches(*who, *owner) == *want, "row {number}");
    }
}
