//! The tables against the plain list, act by act.
ghost use Rattle.std.specs.Prelude.{◌≡◌, ◌<◌};
ghost use Rattle.lx_caps.specs.Placed.{is_placed};

use lx_cap_tables::CapTables;
use lx_caps::{Act, Atom, Cap, CapStore, PlainCaps, Principal, cells, mapped};
use lx_words::Memory;
use std::alloc::Global;
use std::process::Abort;
use std::test::Fail;

const WHO: [Principal; 6] = [
    Principal::Shared(0),
    Principal::Global(0),
    Principal::Inst(0, 0),
    Principal::Inst(0, 1),
    Principal::Shared(1),
    Principal::Inst(1, 0),
];

/// Threads are below this number.
const THREADS: u32 = 16;

fn is_in_memory(cap: Cap) -> bool
    ensures { result ≡ is_placed cap }
{
    match cap {
        Cap::Write { at, size } => mapped(at, size),
        _ => true,
    }
}

#[derive(Clone, Copy)]
struct Random {
    state: u64,
}

impl Random {
    fn below(&mut self, n: u64) -> u64
        requires { 0 < n }
        ensures { result < n }
    {
        self.state = self
            .state
            .wrapping_mul(6364136223846793005)
            .wrapping_add(1442695040888963407);
        (self.state >> 33) % n
    }
}

fn some_principal(random: &mut Random) -> Principal {
    WHO[random.below(6) as usize]
}

fn some_cap(random: &mut Random) -> Cap {
    match random.below(6) {
        0 => Cap::Call {
            at: random.below(3),
        },
        1 => Cap::Ref {
            ty: random.below(2) as u32,
            at: random.below(3),
        },
        _ => {
            let region = [0x1000000, 0x2000000, 0x30fff00][random.below(3) as usize];
            Cap::Write {
                at: region + random.below(200),
                size: random.below(56),
            }
        }
    }
}

/// Whether the newest loan of each of two threads goes on.
#[derive(Clone, Copy)]
struct Lending {
    first: bool,
    second: bool,
}

impl Lending {
    fn of(self, thread: u32) -> bool {
        if thread == 0 { self.first } else { self.second }
    }

    fn with(self, thread: u32, lends: bool) -> Self {
        if thread == 0 {
            Lending {
                first: lends,
                second: self.second,
            }
        } else {
            Lending {
                first: self.first,
                second: lends,
            }
        }
    }

    fn behind(self, act: Act) -> Self {
        match act {
            Act::Loan(thread) => self.with(thread, true),
            Act::Shut(thread, count) if count > 0 => self.with(thread, false),
            Act::ShutAll(thread) => self.with(thread, false),
            _ => self,
        }
    }
}

/// An act of one of two threads, which lends only on a newest loan that goes on.
fn some_act(random: &mut Random, lending: Lending) -> Act {
    let thread = random.below(2) as u32;
    match random.below(12) {
        0 => Act::Shut(thread, random.below(3) as u32),
        1 => Act::ShutAll(thread),
        2 | 3 => Act::Loan(thread),
        4 | 5 => Act::Strip(some_cap(random)),
        6 | 7 | 8 if lending.of(thread) => {
            Act::Lend(thread, some_principal(random), some_cap(random))
        }
        _ => Act::Grant(some_principal(random), some_cap(random)),
    }
}

/// Does the act where the conditions of its call hold, and says whether they do.
fn perform<C: CapStore>(caps: &mut C, act: Act) -> Result<bool, Memory> {
    match act {
        Act::Grant(to, cap) if to != Principal::Kernel && is_in_memory(cap) => {
            caps.reserve(cells(cap))?;
            caps.grant(to, cap);
        }
        Act::Strip(cap) if is_in_memory(cap) => {
            caps.reserve(1)?;
            caps.strip(cap);
        }
        Act::Lend(thread, to, cap)
            if thread < THREADS && to != Principal::Kernel && is_in_memory(cap) => {
            caps.reserve(cells(cap))?;
            caps.lend(thread, to, cap);
        }
        Act::Loan(thread) if thread < THREADS => {
            caps.reserve(1)?;
            caps.open_loan(thread);
        }
        Act::Shut(thread, count) if thread < THREADS => {
            caps.reserve(1)?;
            caps.shut(thread, count);
        }
        Act::ShutAll(thread) if thread < THREADS => {
            caps.reserve(1)?;
            caps.shut_all(thread);
        }
        _ => return Ok(false),
    }
    Ok(true)
}

/// What the principal holds and keeps of some capabilities.
fn assert_same_held(
    rt: &impl Abort,
    plain: &PlainCaps,
    tables: &CapTables,
    who: Principal,
    random: &mut Random,
) {
    for _ in 0..6 {
        let cap = some_cap(random);
        assert!(rt; is_in_memory(cap));
        assert_eq!(rt;
            plain.holds(who, cap),
            tables.holds(who, cap),
            "{who:?} {cap:?}"
        );
        assert_eq!(rt;
            plain.keeps(who, cap),
            tables.keeps(who, cap),
            "{who:?} {cap:?}"
        );
    }
}

/// All that the principal owns, in order.
fn assert_same_owned(rt: &impl Abort, plain: &PlainCaps, tables: &CapTables, who: Principal) {
    let mut after = None;
    for _ in 0..2000 {
        let next = plain.next_owned(who, after);
        assert_eq!(rt; next, tables.next_owned(who, after), "{who:?} {after:?}");
        after = next;
        if after.is_none() {
            break;
        }
    }
}

/// All owners of an atom, in order.
fn assert_same_owners(rt: &impl Abort, plain: &PlainCaps, tables: &CapTables, atom: Atom) {
    let mut after = None;
    for _ in 0..8 {
        let next = plain.next_owner(atom, after);
        assert_eq!(rt; next, tables.next_owner(atom, after), "{atom:?} {after:?}");
        after = next;
        if after.is_none() {
            break;
        }
    }
}

/// Whether both stores list the same calls and references of the principal.
fn calls_alike(
    alloc: Global,
    plain: &PlainCaps,
    tables: &CapTables,
    who: Principal,
) -> Result<bool, Memory> {
    let listed = plain.calls_and_refs(alloc, who)?;
    match tables.calls_and_refs(alloc, who) {
        Ok(walked) => Ok(listed == walked),
        Err(error) => {
            drop(listed);
            Err(error)
        }
    }
}

/// Whether both stores list the same ranges of the principal.
fn ranges_alike(
    alloc: Global,
    plain: &PlainCaps,
    tables: &CapTables,
    who: Principal,
) -> Result<bool, Memory> {
    let listed = plain.byte_ranges(alloc, who)?;
    match tables.byte_ranges(alloc, who) {
        Ok(gathered) => Ok(listed == gathered),
        Err(error) => {
            drop(listed);
            Err(error)
        }
    }
}

fn assert_same_listed(
    rt: &impl Abort,
    alloc: Global,
    plain: &PlainCaps,
    tables: &CapTables,
) -> Result<(), Memory> {
    for who in WHO {
        assert!(rt; calls_alike(alloc, plain, tables, who)?, "{who:?}");
        assert!(rt; ranges_alike(alloc, plain, tables, who)?, "{who:?}");
    }
    Ok(())
}

fn assert_same(rt: &impl Abort, plain: &PlainCaps, tables: &CapTables, random: &mut Random) {
    for who in WHO {
        assert_same_held(rt, plain, tables, who, random);
        assert_same_owned(rt, plain, tables, who);
    }
    let byte = Atom::Byte(0x1000000 + random.below(220));
    for atom in [byte, Atom::Call(1), Atom::Ref(0, 1), Atom::Byte(5)] {
        assert_same_owners(rt, plain, tables, atom);
    }
}

/// Both stores do the act.
fn assert_done(
    rt: &impl Abort,
    plain: &mut PlainCaps,
    tables: &mut CapTables,
    act: Act,
) -> Result<(), Memory> {
    assert!(rt; perform(plain, act)?);
    assert!(rt; perform(tables, act)?);
    Ok(())
}

/// Both stores do sixty acts, and answer alike behind each.
fn assert_alike(
    rt: &impl Abort,
    alloc: Global,
    plain: &mut PlainCaps,
    tables: &mut CapTables,
) -> Result<(), Memory> {
    let mut random = Random { state: 7 };
    let mut lending = Lending {
        first: false,
        second: false,
    };
    for _ in 0..60 {
        let act = some_act(&mut random, lending);
        lending = lending.behind(act);
        assert_done(rt, plain, tables, act)?;
        assert_same(rt, plain, tables, &mut random);
        assert_same_listed(rt, alloc, plain, tables)?;
    }
    Ok(())
}

#[test]
fn the_tables_answer_as_the_list_does(rt: HostRuntime) -> Result<(), Fail> {
    let alloc = rt.alloc();
    let mut tables = CapTables::new(alloc)?;
    let mut plain = PlainCaps::new(alloc);
    let went = assert_alike(&rt, alloc, &mut plain, &mut tables);
    drop(plain);
    drop(tables);
    went?;
    Ok(())
}
