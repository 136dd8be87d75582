//! Names as they are told: by whom, in which module, and in which order.
use crate::common::{FIRST, GLOBAL, SECOND, goes_between_threads};
use lx_caps::Principal;
use lx_principals::{AliasFault, Principals};
use lx_words::Memory;
use std::alloc::Global;
use std::process::Abort;
use std::test::Fail;

const THIRD: Principal = Principal::Inst(0, 2);

const OTHER: Principal = Principal::Inst(1, 0);

/// A call of the names, and what it has to answer.
#[derive(Clone, Copy)]
enum Step {
    /// The instance that a module's value names.
    Named(u32, u64, Principal),
    /// Who asks, a known name, and the further one that is given.
    Gives(Principal, u64, u64),
    /// Who asks, a known name, the further one, and why it is not given.
    Refuses(Principal, u64, u64, AliasFault),
    /// A module, an instance's number, and its first name.
    First(u32, u32, Option<u64>),
}

fn named(principals: &mut Principals, home: u32, value: u64) -> Result<Option<Principal>, Memory> {
    if home as usize >= principals.modules() {
        return Ok(None);
    }
    let found = principals.named(home, value)?;
    Ok(Some(found))
}

/// Takes a step, and says whether it answered as it has to.
fn goes_so(principals: &mut Principals, step: Step) -> Result<bool, Memory> {
    match step {
        Step::Named(home, value, want) => Ok(named(principals, home, value)? == Some(want)),
        Step::Gives(who, known, further) => Ok(principals.alias(who, known, further).is_ok()),
        Step::Refuses(who, known, further, want) => {
            Ok(principals.alias(who, known, further) == Err(want))
        }
        Step::First(home, instance, want) => Ok(principals.first_name(home, instance) == want),
    }
}

/// Names of so many modules take steps, each of which has to answer as it says.
fn assert_steps(rt: &impl Abort, alloc: Global, modules: u32, steps: &[Step]) -> Result<(), Fail> {
    let mut principals = Principals::new(alloc, modules)?;
    goes_between_threads(&principals);
    for (number, step) in steps.iter().enumerate() {
        assert!(rt; goes_so(&mut principals, *step)?, "step {number}");
    }
    Ok(())
}

static INSTANCES: [Step; 13] = [
    Step::Named(0, 0x1000000, FIRST),
    Step::Named(0, 0, SECOND),
    Step::Named(1, 0, OTHER),
    Step::Named(0, 0x1000000, FIRST),
    Step::Named(0, 0, SECOND),
    Step::Named(0, u64::MAX, THIRD),
    Step::First(0, 0, Some(0x1000000)),
    Step::First(0, 1, Some(0)),
    Step::First(0, 2, Some(u64::MAX)),
    Step::First(0, 3, None),
    Step::First(1, 0, Some(0)),
    Step::First(1, 1, None),
    Step::First(2, 0, None),
];

#[test]
fn a_value_that_names_nobody_makes_an_instance(rt: HostRuntime) -> Result<(), Fail> {
    assert_steps(&rt, rt.alloc(), 2, &INSTANCES)
}

static FURTHER: [Step; 12] = [
    Step::Named(0, 5, FIRST),
    Step::Named(0, 6, SECOND),
    Step::Gives(FIRST, 5, 7),
    Step::Gives(FIRST, 7, 8),
    Step::Gives(GLOBAL, 6, 0),
    Step::Named(0, 7, FIRST),
    Step::Named(0, 8, FIRST),
    Step::Named(0, 0, SECOND),
    Step::Named(0, 9, THIRD),
    Step::First(0, 0, Some(5)),
    Step::First(0, 1, Some(6)),
    Step::First(0, 2, Some(9)),
];

#[test]
fn an_instance_names_itself_further(rt: HostRuntime) -> Result<(), Fail> {
    assert_steps(&rt, rt.alloc(), 1, &FURTHER)
}

static REFUSED: [Step; 21] = [
    Step::Named(0, 5, FIRST),
    Step::Named(0, 6, SECOND),
    Step::Named(1, 9, OTHER),
    Step::Refuses(FIRST, 6, 7, AliasFault::NotCurrent { known: 6 }),
    Step::Refuses(FIRST, 6, 6, AliasFault::NotCurrent { known: 6 }),
    Step::Refuses(FIRST, 7, 8, AliasFault::NotCurrent { known: 7 }),
    Step::Refuses(GLOBAL, 7, 8, AliasFault::NotCurrent { known: 7 }),
    Step::Refuses(GLOBAL, 9, 8, AliasFault::NotCurrent { known: 9 }),
    Step::Refuses(
        Principal::Shared(0),
        0,
        0,
        AliasFault::NotCurrent { known: 0 },
    ),
    Step::Refuses(
        Principal::Shared(0),
        5,
        7,
        AliasFault::NotCurrent { known: 5 },
    ),
    Step::Refuses(Principal::Kernel, 5, 7, AliasFault::NotCurrent { known: 5 }),
    Step::Refuses(
        Principal::Global(1),
        5,
        7,
        AliasFault::NotCurrent { known: 5 },
    ),
    Step::Refuses(OTHER, 5, 7, AliasFault::NotCurrent { known: 5 }),
    Step::Refuses(FIRST, 5, 5, AliasFault::NameTaken { further: 5 }),
    Step::Refuses(FIRST, 5, 6, AliasFault::NameTaken { further: 6 }),
    Step::Refuses(GLOBAL, 6, 5, AliasFault::NameTaken { further: 5 }),
    // Another module's name is free here.
    Step::Gives(FIRST, 5, 9),
    // What was refused has named nobody.
    Step::Named(1, 9, OTHER),
    Step::Named(0, 9, FIRST),
    Step::Named(0, 7, THIRD),
    Step::Named(0, 8, Principal::Inst(0, 3)),
];

#[test]
fn a_name_is_refused_to_those_that_it_is_not_for(rt: HostRuntime) -> Result<(), Fail> {
    assert_steps(&rt, rt.alloc(), 2, &REFUSED)
}

/// Names in three modules in turn, then the first names in one of them, and none in a module that is not there.
fn many(alloc: Global) -> Result<Vec<Step>, Fail> {
    let mut steps = Vec::new(alloc);
    for place in 0..210u32 {
        let (home, number) = (place % 3, place / 3);
        let want = Principal::Inst(home, number);
        steps.push(Step::Named(home, u64::from(number) * 8, want))?;
    }
    for number in 0..70u32 {
        steps.push(Step::First(1, number, Some(u64::from(number) * 8)))?;
        steps.push(Step::First(3, number, None))?;
    }
    Ok(steps)
}

#[test]
fn many_names_are_kept(rt: HostRuntime) -> Result<(), Fail> {
    let steps = many(rt.alloc())?;
    assert_steps(&rt, rt.alloc(), 3, steps.as_slice())
}

/// As many names of one module as 16 bits count, and one more; then the first of them again, and the last one's first name.
fn past_16_bits(alloc: Global) -> Result<Vec<Step>, Fail> {
    let mut steps = Vec::new(alloc);
    for number in 0..0x10001u32 {
        let want = Principal::Inst(0, number);
        steps.push(Step::Named(0, u64::from(number) * 8, want))?;
    }
    steps.push(Step::Named(0, 0, FIRST))?;
    steps.push(Step::First(0, 0x10000, Some(0x80000)))?;
    Ok(steps)
}

#[test]
fn more_instances_are_named_than_16_bits_count(rt: HostRuntime) -> Result<(), Fail> {
    let steps = past_16_bits(rt.alloc())?;
    assert_steps(&rt, rt.alloc(), 1, steps.as_slice())
}

/// A fault, and what it says.
struct Saying(AliasFault, &'static str);

static SAYINGS: [Saying; 3] = [
    Saying(
        AliasFault::NotCurrent { known: 16 },
        "0x10 names no instance as which the caller acts",
    ),
    Saying(
        AliasFault::NameTaken { further: 16 },
        "0x10 is a name already",
    ),
    Saying(AliasFault::Memory, "out of memory"),
];

#[test]
fn a_fault_says_what_is_wrong(rt: HostRuntime) -> Result<(), Fail> {
    for row in SAYINGS.iter() {
        let text = format!(in rt.alloc(); "{}", row.0)?;
        assert_eq!(rt; text.as_str(), row.1);
    }
    Ok(())
}
