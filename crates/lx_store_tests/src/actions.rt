//! Actions over a plain store and memory: what is moved, what is refused, and that a refused action moves nothing.
ghost use Rattle.std.specs.Prelude.{◌≡◌, ◌≤◌, length, true};
ghost use Rattle.lx_annot.specs.Items.{list_items, list_of_action};

use crate::common::{self, FIRST, SECOND, SHARED, STRANGER};
use lx_actions::{ActFault, SpaceLook, perform};
use lx_annot::action::{Action, ActionNode, CapSpec};
use lx_annot::caps::caps_of;
use lx_annot::expr::{Env, Expr, ExprNode, Ty};
use lx_annot::interface::{CapIterator, Interface, Item};
use lx_annot::value::Look;
use lx_cap_tables::CapTables;
use lx_caps::{Act, Cap, CapStore, PlainCaps, Principal};
use lx_memory::Space;
use lx_model::request::Refusal;
use lx_words::{Items, Memory, Width, Word};
use lx_writer_sets::Recorded;
use std::alloc::{AllocError, Global};
use std::process::Abort;
use std::test::Fail;

const KERNEL: Principal = Principal::Kernel;

/// How an action ended, in values that compare.
#[derive(Clone, Copy, PartialEq, Eq)]
enum Ending {
    Done,
    Write(Principal, u64, u64),
    OnStack(Principal, u64, u64),
    Outside(Principal, u64, u64),
    Borrowed(Principal, Cap),
    Unmapped(u64),
    Other,
}

fn told(answer: Result<(), ActFault>) -> Ending {
    match answer {
        Ok(()) => Ending::Done,
        Err(ActFault::Refused(Refusal::Write { who, at, size })) => Ending::Write(who, at, size),
        Err(ActFault::Refused(Refusal::OnStack { who, at, size })) => {
            Ending::OnStack(who, at, size)
        }
        Err(ActFault::Refused(Refusal::Outside { who, at, size })) => {
            Ending::Outside(who, at, size)
        }
        Err(ActFault::Refused(Refusal::Borrowed { who, cap })) => Ending::Borrowed(who, cap),
        Err(ActFault::Unmapped { at }) => Ending::Unmapped(at),
        Err(_) => Ending::Other,
    }
}

fn number(n: u64) -> Expr {
    Expr {
        node: ExprNode::Number(n),
    }
}

fn first_param() -> Expr {
    Expr {
        node: ExprNode::Param(0, Ty::Ptr),
    }
}

fn looked_at(alloc: Global, at: Expr) -> Result<Expr, Memory> {
    let at = Box::new(alloc, at)?;
    Ok(Expr {
        node: ExprNode::Load64(at),
    })
}

/// What an action names: so many bytes at an address, or the items of the one iterator.
#[derive(Clone, Copy)]
enum Named {
    Bytes(u64, u64),
    Items,
}

fn list(named: Named) -> CapSpec {
    match named {
        Named::Bytes(at, size) => CapSpec::Write(number(at), number(size)),
        Named::Items => CapSpec::Each(0, first_param()),
    }
}

/// What an action does with what it names.
#[derive(Clone, Copy)]
enum Kind {
    Copy,
    Transfer,
    Check,
    Lend,
}

fn action(kind: Kind, named: Named) -> Action {
    let list = list(named);
    let node = match kind {
        Kind::Copy => ActionNode::Copy(list),
        Kind::Transfer => ActionNode::Transfer(list),
        Kind::Check => ActionNode::Check(list),
        Kind::Lend => ActionNode::Lend(list),
    };
    Action { node }
}

/// An action behind a condition that is 0.
fn not_done(alloc: Global, kind: Kind, named: Named) -> Result<Action, Memory> {
    match Box::new(alloc, action(kind, named)) {
        Ok(action) => Ok(Action {
            node: ActionNode::If(number(0), action),
        }),
        Err(e) => Err(AllocError::from(e).into()),
    }
}

/// An end of so many loans.
fn end(count: u32) -> Action {
    Action {
        node: ActionNode::End(count),
    }
}

/// One argument, a 64-bit word.
fn env(alloc: Global, bits: u64) -> Result<Env, Memory> {
    let width = Width::W64;
    let words = vec![in alloc; Word { width, bits }]?;
    Ok(Env {
        args: Items::from_vec(words),
        ret: None,
    })
}

/// The 8 bytes at `p`, and 8 bytes at the address that the word at `p` is. Between them is an item whose condition is 0.
fn packet(alloc: Global) -> Result<Vec<Item>, Memory> {
    let at = looked_at(alloc, first_param())?;
    let own = Item {
        cond: None,
        cap: CapSpec::Write(first_param(), number(8)),
    };
    let left_out = Item {
        cond: Some(number(0)),
        cap: CapSpec::Call(first_param()),
    };
    let further = Item {
        cond: None,
        cap: CapSpec::Write(at, number(8)),
    };
    let items = vec![in alloc; own, left_out, further]?;
    Ok(items)
}

/// An interface with one iterator.
fn interface(alloc: Global) -> Result<Interface, Memory> {
    let items = Items::from_vec(packet(alloc)?);
    let iterator = CapIterator {
        name: Items::new(alloc),
        items,
        line: 2,
    };
    let iterators = vec![in alloc; iterator]?;
    Ok(Interface {
        reftypes: Items::new(alloc),
        iterators: Items::from_vec(iterators),
        slots: Items::new(alloc),
        fields: Items::new(alloc),
        exports: Items::new(alloc),
    })
}

/// Whether the list names at most 16 items.
fn is_short_list(i: &Interface, list: &CapSpec) -> bool
    ensures { result ≡ true → length (list_items i.now list.now) ≤ 16 }
{
    match list {
        CapSpec::Each(iterator, _) => match i.iterators.as_slice().get(*iterator as usize) {
            Some(iterator) => iterator.items.len() <= 16,
            None => true,
        },
        CapSpec::Write(_, _) | CapSpec::Call(_) | CapSpec::Ref(_, _) => true,
    }
}

/// Whether the action names at most 16 items.
fn is_short(i: &Interface, a: &Action) -> bool
    ensures { result ≡ true → length (list_items i.now (list_of_action a.now)) ≤ 16 }
{
    match &a.node {
        ActionNode::Copy(list) => is_short_list(i, list),
        ActionNode::Transfer(list) => is_short_list(i, list),
        ActionNode::Check(list) => is_short_list(i, list),
        ActionNode::Lend(list) => is_short_list(i, list),
        ActionNode::End(_) => true,
        ActionNode::If(_, a) => is_short(i, a),
    }
}

/// What actions are tried over.
#[derive(Drop)]
struct Bench {
    alloc: Global,
    interface: Interface,
    env: Env,
    space: Space,
    caps: PlainCaps,
}

/// What an action looks at: an interface, the values of names, and memory.
fn bench_over(alloc: Global, interface: Interface, env: Env) -> Result<Bench, Fail> {
    match Space::new(alloc) {
        Ok(space) => Ok(Bench {
            alloc,
            interface,
            env,
            space,
            caps: PlainCaps::new(alloc),
        }),
        Err(error) => {
            drop(interface);
            drop(env);
            Err(error.into())
        }
    }
}

fn new_bench(alloc: Global, bits: u64) -> Result<Bench, Fail> {
    let env = env(alloc, bits)?;
    match interface(alloc) {
        Ok(interface) => bench_over(alloc, interface, env),
        Err(error) => {
            drop(env);
            Err(error.into())
        }
    }
}

/// How an action of thread 0 ends, from one principal to another.
fn ending_of(bench: &mut Bench, a: &Action, between: (Principal, Principal)) -> Ending {
    let i = &bench.interface;
    if !is_short(i, a) {
        return Ending::Other;
    }
    let (env, space) = (&bench.env, &bench.space);
    told(perform(i, a, env, 0, between.0, between.1, space, &mut bench.caps))
}

/// What is done on the bench, and what is found there.
#[derive(Clone, Copy)]
enum Step {
    Grant(Principal, u64, u64),
    /// A number of eight bytes is put at an address.
    Put(u64, u64),
    /// An action from one principal to another, and how it ends.
    Act(Kind, Named, (Principal, Principal), Ending),
    /// The same behind a condition that is 0.
    NotDone(Kind, Named, (Principal, Principal), Ending),
    /// An end of so many loans.
    End(u32, (Principal, Principal), Ending),
    /// How many capabilities an action names.
    Names(Deed, usize),
    /// How many acts the store took.
    Count(usize),
    /// The acts that the store took.
    Acts(&'static [Act]),
}

/// What is acted.
#[derive(Clone, Copy)]
enum Deed {
    Do(Kind, Named),
    /// The same behind a condition that is 0.
    NotDone(Kind, Named),
    End(u32),
}

fn action_of(alloc: Global, deed: Deed) -> Result<Action, Memory> {
    match deed {
        Deed::Do(kind, named) => Ok(action(kind, named)),
        Deed::NotDone(kind, named) => not_done(alloc, kind, named),
        Deed::End(count) => Ok(end(count)),
    }
}

/// Whether a deed from one principal to another ends so.
fn ends_so(
    bench: &mut Bench,
    deed: Deed,
    between: (Principal, Principal),
    want: Ending,
) -> Result<bool, Memory> {
    let action = action_of(bench.alloc, deed)?;
    let ending = ending_of(bench, &action, between);
    drop(action);
    Ok(ending == want)
}

/// How many capabilities an action names, where all that it looks at is there.
fn count_named(bench: &Bench, a: &Action) -> Option<usize> {
    let i = &bench.interface;
    if !is_short(i, a) {
        return None;
    }
    let space = &bench.space;
    match caps_of(i, a, &bench.env, &SpaceLook { space }) {
        Ok(caps) => Some(caps.as_slice().len()),
        Err(_) => None,
    }
}

/// Whether the action of a deed names so many capabilities.
fn names_so_many(bench: &Bench, deed: Deed, count: usize) -> Result<bool, Memory> {
    let action = action_of(bench.alloc, deed)?;
    let named = count_named(bench, &action);
    drop(action);
    Ok(named == Some(count))
}

/// Takes a step, and says whether it went as it has to.
fn goes_so(bench: &mut Bench, step: Step) -> Result<bool, Memory> {
    match step {
        Step::Grant(to, at, size) => {
            common::goes_so(&mut bench.caps, common::Step::GrantBytes(to, at, size))
        }
        Step::Put(at, number) => Ok(bench.space.write(at, 8, number).is_ok()),
        Step::Act(kind, named, between, want) => {
            ends_so(bench, Deed::Do(kind, named), between, want)
        }
        Step::NotDone(kind, named, between, want) => {
            ends_so(bench, Deed::NotDone(kind, named), between, want)
        }
        Step::End(count, between, want) => ends_so(bench, Deed::End(count), between, want),
        Step::Names(deed, want) => names_so_many(bench, deed, want),
        Step::Count(want) => Ok(bench.caps.acts().as_slice().len() == want),
        Step::Acts(want) => Ok(bench.caps.acts().as_slice() == want),
    }
}

/// Takes steps, each of which has to go as it says.
fn assert_go(rt: &impl Abort, bench: &mut Bench, steps: &[Step]) -> Result<(), Fail> {
    for (number, step) in steps.iter().enumerate() {
        assert!(rt; goes_so(bench, *step)?, "step {number}");
    }
    Ok(())
}

/// Takes steps on a new bench with this argument.
fn assert_steps(rt: &impl Abort, alloc: Global, bits: u64, steps: &[Step]) -> Result<(), Fail> {
    let mut bench = new_bench(alloc, bits)?;
    let went = assert_go(rt, &mut bench, steps);
    drop(bench);
    went
}

/// Eight bytes go out to a module and come back, and then it has them no more; a copy that is not done gives it nothing.
static OUT_AND_BACK: [Step; 7] = [
    Step::Names(Deed::Do(Kind::Copy, Named::Bytes(0x2000000, 8)), 1),
    Step::Names(Deed::NotDone(Kind::Copy, Named::Bytes(0x2000000, 8)), 0),
    Step::Act(
        Kind::Transfer,
        Named::Bytes(0x2000000, 8),
        (KERNEL, SHARED),
        Ending::Done,
    ),
    Step::Act(
        Kind::Transfer,
        Named::Bytes(0x2000000, 8),
        (SHARED, KERNEL),
        Ending::Done,
    ),
    Step::Act(
        Kind::Transfer,
        Named::Bytes(0x2000000, 8),
        (SHARED, KERNEL),
        Ending::Write(SHARED, 0x2000000, 8),
    ),
    Step::NotDone(
        Kind::Copy,
        Named::Bytes(0x2000000, 8),
        (KERNEL, SHARED),
        Ending::Done,
    ),
    Step::Acts(&[
        Act::Strip(EIGHT_BYTES),
        Act::Grant(SHARED, EIGHT_BYTES),
        Act::Strip(EIGHT_BYTES),
    ]),
];

const EIGHT_BYTES: Cap = Cap::Write {
    at: 0x2000000,
    size: 8,
};

#[test]
fn bytes_go_out_and_come_back(rt: HostRuntime) -> Result<(), Fail> {
    assert_steps(&rt, rt.alloc(), 0, &OUT_AND_BACK)
}

const LENT_BYTES: Cap = Cap::Write {
    at: 0x1000000,
    size: 8,
};

const FOUR_OF_THEM: Cap = Cap::Write {
    at: 0x1000000,
    size: 4,
};

const OUT: (Principal, Principal) = (SHARED, STRANGER);

const BACK: (Principal, Principal) = (STRANGER, SHARED);

/// Bytes are lent to another module, which may use them and may not give them away, until the loan ends. A lend that is
/// not done opens a loan all the same, which the first end ends; and one end ends two loans.
static OUT_ON_LOAN: [Step; 15] = [
    Step::Grant(SHARED, 0x1000000, 8),
    Step::Act(Kind::Lend, Named::Bytes(0x1000000, 8), OUT, Ending::Done),
    Step::Act(Kind::Check, Named::Bytes(0x1000000, 8), BACK, Ending::Done),
    Step::Act(
        Kind::Transfer,
        Named::Bytes(0x1000000, 8),
        BACK,
        Ending::Borrowed(STRANGER, LENT_BYTES),
    ),
    Step::Act(
        Kind::Lend,
        Named::Bytes(0x1000000, 4),
        BACK,
        Ending::Borrowed(STRANGER, FOUR_OF_THEM),
    ),
    Step::NotDone(Kind::Lend, Named::Bytes(0x1000000, 8), OUT, Ending::Done),
    Step::End(1, BACK, Ending::Done),
    Step::Act(Kind::Check, Named::Bytes(0x1000000, 8), BACK, Ending::Done),
    Step::End(1, BACK, Ending::Done),
    Step::Act(
        Kind::Check,
        Named::Bytes(0x1000000, 8),
        BACK,
        Ending::Write(STRANGER, 0x1000000, 8),
    ),
    Step::Act(Kind::Lend, Named::Bytes(0x1000000, 8), OUT, Ending::Done),
    Step::Act(Kind::Lend, Named::Bytes(0x1000000, 4), OUT, Ending::Done),
    Step::End(2, BACK, Ending::Done),
    Step::Act(
        Kind::Check,
        Named::Bytes(0x1000000, 8),
        BACK,
        Ending::Write(STRANGER, 0x1000000, 8),
    ),
    Step::Acts(&[
        Act::Grant(SHARED, LENT_BYTES),
        Act::Loan(0),
        Act::Lend(0, STRANGER, LENT_BYTES),
        Act::Loan(0),
        Act::Shut(0, 1),
        Act::Shut(0, 1),
        Act::Loan(0),
        Act::Lend(0, STRANGER, LENT_BYTES),
        Act::Loan(0),
        Act::Lend(0, STRANGER, FOUR_OF_THEM),
        Act::Shut(0, 2),
    ]),
];

#[test]
fn what_is_lent_comes_back(rt: HostRuntime) -> Result<(), Fail> {
    assert_steps(&rt, rt.alloc(), 0, &OUT_ON_LOAN)
}

const BETWEEN: (Principal, Principal) = (FIRST, SECOND);

/// What an instance that owns 16 bytes at 0x1000000 and 16 of a stack may not pass on, and what it may.
static REFUSED: [Step; 12] = [
    Step::Grant(FIRST, 0x1000000, 16),
    Step::Grant(FIRST, 0x3000000, 16),
    // With one byte that is not held the whole range is refused.
    Step::Act(
        Kind::Copy,
        Named::Bytes(0x1000000, 17),
        BETWEEN,
        Ending::Write(FIRST, 0x1000000, 17),
    ),
    Step::Act(
        Kind::Check,
        Named::Bytes(0x1000010, 1),
        BETWEEN,
        Ending::Write(FIRST, 0x1000010, 1),
    ),
    // A byte past the end of memory, one round the end of addresses, and one in no region.
    Step::Act(
        Kind::Copy,
        Named::Bytes(0x10ffff8, 9),
        BETWEEN,
        Ending::Outside(FIRST, 0x10ffff8, 9),
    ),
    Step::Act(
        Kind::Check,
        Named::Bytes(u64::MAX, 2),
        BETWEEN,
        Ending::Outside(FIRST, u64::MAX, 2),
    ),
    // What lies outside memory is refused before bytes of a stack are.
    Step::Act(
        Kind::Transfer,
        Named::Bytes(0x30fffff, 2),
        BETWEEN,
        Ending::Outside(FIRST, 0x30fffff, 2),
    ),
    // A transfer of bytes of a stack is refused, held or not; a check is not.
    Step::Act(
        Kind::Transfer,
        Named::Bytes(0x3000000, 8),
        BETWEEN,
        Ending::OnStack(FIRST, 0x3000000, 8),
    ),
    Step::Act(
        Kind::Transfer,
        Named::Bytes(0x3000010, 1),
        BETWEEN,
        Ending::OnStack(FIRST, 0x3000010, 1),
    ),
    Step::Act(
        Kind::Check,
        Named::Bytes(0x3000000, 16),
        BETWEEN,
        Ending::Done,
    ),
    // Nothing is held by everyone.
    Step::Act(Kind::Check, Named::Bytes(0, 0), BETWEEN, Ending::Done),
    Step::Count(2),
];

#[test]
fn what_is_refused(rt: HostRuntime) -> Result<(), Fail> {
    assert_steps(&rt, rt.alloc(), 0, &REFUSED)
}

/// The second item is not held as a whole, and then it is.
static ALL_OR_NONE: [Step; 8] = [
    Step::Put(0x1000010, 0x2000000),
    Step::Grant(SHARED, 0x1000000, 64),
    Step::Grant(SHARED, 0x2000000, 7),
    Step::Act(
        Kind::Transfer,
        Named::Items,
        (SHARED, FIRST),
        Ending::Write(SHARED, 0x2000000, 8),
    ),
    Step::Count(2),
    Step::Grant(SHARED, 0x2000007, 1),
    Step::Act(Kind::Transfer, Named::Items, (SHARED, FIRST), Ending::Done),
    Step::Count(7),
];

#[test]
fn all_items_are_moved_or_none(rt: HostRuntime) -> Result<(), Fail> {
    assert_steps(&rt, rt.alloc(), 0x1000010, &ALL_OR_NONE)
}

/// The first item is not held and the second one is looked at past the end of memory: looking comes first.
static IN_VAIN: [Step; 1] = [Step::Act(
    Kind::Copy,
    Named::Items,
    (SHARED, FIRST),
    Ending::Unmapped(0x1100000),
)];

#[test]
fn what_is_looked_at_in_vain(rt: HostRuntime) -> Result<(), Fail> {
    assert_steps(&rt, rt.alloc(), 0x10ffffc, &IN_VAIN)
}

/// A page goes out to a module, which copies it to the kernel, lends it to the kernel for a while, and gives it back.
static PAGE_OUT_AND_BACK: [(Deed, (Principal, Principal)); 5] = [
    (Deed::Do(Kind::Copy, PAGE), (KERNEL, SHARED)),
    (Deed::Do(Kind::Copy, PAGE), (SHARED, KERNEL)),
    (Deed::Do(Kind::Lend, PAGE), (SHARED, KERNEL)),
    (Deed::End(1), (KERNEL, SHARED)),
    (Deed::Do(Kind::Transfer, PAGE), (SHARED, KERNEL)),
];

const PAGE: Named = Named::Bytes(0x2000000, 4096);

/// Whether a deed is done and leaves the store with just the room that it had.
fn keeps_room<C: CapStore>(
    bench: &Bench,
    caps: &mut C,
    deed: Deed,
    between: (Principal, Principal),
) -> Result<bool, Memory> {
    let action = action_of(bench.alloc, deed)?;
    let spare = caps.spare();
    let done = is_short(&bench.interface, &action)
        && {
            let (i, env, space) = (&bench.interface, &bench.env, &bench.space);
            perform(i, &action, env, 0, between.0, between.1, space, caps).is_ok()
        };
    drop(action);
    Ok(done && caps.spare() == spare)
}

fn assert_rounds_keep_room<C: CapStore>(
    rt: &impl Abort,
    bench: &Bench,
    caps: &mut C,
) -> Result<(), Fail> {
    for round in 0..2000 {
        for (deed, between) in PAGE_OUT_AND_BACK.iter() {
            assert!(rt; keeps_room(bench, caps, *deed, *between)?, "round {round}");
        }
    }
    Ok(())
}

/// What is given to the kernel is not recorded, so no room is made for it: thousands of actions leave none behind.
#[test]
fn actions_gather_no_room(rt: HostRuntime) -> Result<(), Fail> {
    let alloc = rt.alloc();
    let mut caps = Recorded::new(alloc, CapTables::new(alloc)?);
    let went = match new_bench(alloc, 0) {
        Ok(bench) => {
            let went = assert_rounds_keep_room(&rt, &bench, &mut caps);
            drop(bench);
            went
        }
        Err(fail) => Err(fail),
    };
    drop(caps);
    went
}

fn assert_looked(rt: &impl Abort, space: &mut Space) -> Result<(), Fail> {
    space.write(0x20ffff8, 8, 0x0807_0605_0403_0201)?;
    let look = SpaceLook { space };
    assert!(rt; look.load64(0x20ffff4) == Some(0x0403_0201_0000_0000));
    assert!(rt; look.load64(0x20ffff9).is_none());
    Ok(())
}

#[test]
fn a_space_is_looked_at(rt: HostRuntime) -> Result<(), Fail> {
    let mut space = Space::new(rt.alloc())?;
    let looked = assert_looked(&rt, &mut space);
    drop(space);
    looked
}

/// A fault, and what it says.
struct Saying(ActFault, &'static str);

static SAYINGS: [Saying; 3] = [
    Saying(
        ActFault::Refused(Refusal::Ref {
            who: Principal::Kernel,
            ty: 1,
            at: 16,
        }),
        "the action is refused: Ref { who: Kernel, ty: 1, at: 16 }",
    ),
    Saying(ActFault::Unmapped { at: 16 }, "address 0x10 is not mapped"),
    Saying(ActFault::Memory, "out of memory"),
];

#[test]
fn a_fault_says_what_is_wrong(rt: HostRuntime) -> Result<(), Fail> {
    for row in SAYINGS.iter() {
        let text = format!(in rt.alloc(); "{}", row.0)?;
        assert_eq!(rt; text.as_str(), row.1);
    }
    Ok(())
}
