//! For whom a runner asks: what it does is what its image says, and what no mark covers there it asks for as the kernel.
ghost use Rattle.lx_input.specs.Laws.{IsReady};

use crate::codes::{Coded, code_of_text};
use crate::rows::{Row, Wanted, assert_rows};
use crate::texts::{calls_given, stores_seven};
use lx_caps::Principal;
use lx_input::Input;
use lx_interp::{Code, Runner};
use lx_model::request::{Reply, Way, What};
use lx_words::{Memory, Word};
use std::alloc::Global;
use std::test::Fail;

/// What the monitor replies to the start of a call of the first module, and to a load of a zero. Nothing else is replied to.
fn reply_to(what: &What) -> Option<Reply> {
    match what {
        What::Enter {
            way: Way::Script(function),
            ..
        } => Some(Reply::Entered {
            function: *function,
            principal: Principal::Shared(0),
            crosses: true,
        }),
        What::Load { width, .. } => Some(Reply::Value(Word::new(*width, 0))),
        _ => None,
    }
}

fn reply(runner: &Runner) -> Option<Reply> {
    match runner.request() {
        Some(request) => reply_to(&request.what),
        None => None,
    }
}

/// Goes on to the first request that is not replied to. These images come to it behind the start of their call and one load at most.
fn go_on(code: &Code, runner: &mut Runner) -> Result<(), Memory> {
    for _ in 0..4 {
        runner.local(code)?;
        match reply(runner) {
            Some(said) => runner.absorb(code, &said),
            None => return Ok(()),
        }
    }
    Ok(())
}

/// Where a store, or a call by a register, goes to.
fn place_of(what: &What) -> Option<u64> {
    match what {
        What::Store { at, .. } => Some(*at),
        What::Enter {
            way: Way::Indirect(at),
            ..
        } => Some(*at),
        _ => None,
    }
}

/// Whether the runner asks for this principal for a store or a call by a register that goes here.
fn asks(runner: &Runner, who: Principal, at: u64) -> bool {
    match runner.request() {
        Some(request) => request.who == who && place_of(&request.what) == Some(at),
        None => false,
    }
}

/// The same of a runner that begins with the first call of the first thread.
fn first_asks(alloc: Global, coded: &Coded, who: Principal, at: u64) -> Result<bool, Fail> {
    match coded.script.as_slice().first() {
        Some(calls) => {
            let mut runner = Runner::open(alloc, 0, calls)?;
            let went = go_on(&coded.code, &mut runner);
            let found = asks(&runner, who, at);
            drop(runner);
            went?;
            Ok(found)
        }
        None => Err(Fail::new("there is no thread")),
    }
}

/// The same of an input's first call over the image that a text says.
pub fn is_asked(
    alloc: Global,
    input: Input,
    text: &str,
    who: Principal,
    at: u64,
) -> Result<bool, Fail>
    requires { IsReady input }
{
    let coded = code_of_text(alloc, input, text)?;
    let found = first_asks(alloc, &coded, who, at);
    drop(coded);
    found
}

/// The guard of an image, and where the store behind it goes to: the one global, since globals begin here.
const GUARD: &str = "  call void @lxfi.guard(ptr @g, i64 4)\n";

const GLOBAL: u64 = 0x1000000;

/// For whom the store is asked for, and where it goes to.
const STORES_AS_MODULE: Wanted = Wanted::Asked(Principal::Shared(0), GLOBAL);

const STORES_AS_KERNEL: Wanted = Wanted::Asked(Principal::Kernel, GLOBAL);

/// Lines in place of the guard, and for whom the store is asked for: for the module where a guard that names all its bytes stands
/// directly before it, and else for the kernel.
static GUARDS: [Row; 8] = [
    Row(
        GUARD,
        "call void @lxfi.guard(ptr @g, i64 4)\n",
        STORES_AS_MODULE,
    ),
    // bytes behind the store's are named too
    Row(
        GUARD,
        "call void @lxfi.guard(ptr @g, i64 8)\n",
        STORES_AS_MODULE,
    ),
    // no guard
    Row(GUARD, "", STORES_AS_KERNEL),
    // the last byte is not named
    Row(
        GUARD,
        "call void @lxfi.guard(ptr @g, i64 3)\n",
        STORES_AS_KERNEL,
    ),
    // other bytes are named
    Row(
        GUARD,
        "call void @lxfi.guard(ptr null, i64 4)\n",
        STORES_AS_KERNEL,
    ),
    // an instruction stands between
    Row(
        GUARD,
        "call void @lxfi.guard(ptr @g, i64 4)\n%x = load i32, ptr @g\n",
        STORES_AS_KERNEL,
    ),
    // the first store has no guard, the second one has
    Row(
        GUARD,
        "store i32 6, ptr @g\ncall void @lxfi.guard(ptr @g, i64 4)\n",
        STORES_AS_KERNEL,
    ),
    // a check is no guard
    Row(GUARD, "call void @lxfi.check(ptr @g)\n", STORES_AS_KERNEL),
];

#[test]
fn what_no_guard_covers_is_stored_as_the_kernel(rt: HostRuntime) -> Result<(), Fail> {
    assert_rows(&rt, rt.alloc(), stores_seven(), &GUARDS)
}

/// The check of an image, and where the call behind it goes to: the case gives the module this address.
const CHECK: &str = "  call void @lxfi.check(ptr %f)\n";

const FUNCTION: u64 = 0x10060;

/// For whom the call is asked for, and where it goes to.
const CALLS_AS_MODULE: Wanted = Wanted::Asked(Principal::Shared(0), FUNCTION);

const CALLS_AS_KERNEL: Wanted = Wanted::Asked(Principal::Kernel, FUNCTION);

/// Lines in place of the check, and for whom the call is asked for: for the module where a check of its target stands directly before
/// it, and else for the kernel.
static CHECKS: [Row; 5] = [
    Row(CHECK, "call void @lxfi.check(ptr %f)\n", CALLS_AS_MODULE),
    // no check
    Row(CHECK, "", CALLS_AS_KERNEL),
    // another target is checked
    Row(CHECK, "call void @lxfi.check(ptr null)\n", CALLS_AS_KERNEL),
    // an instruction stands between
    Row(
        CHECK,
        "call void @lxfi.check(ptr %f)\n%x = load i64, ptr %f\n",
        CALLS_AS_KERNEL,
    ),
    // a guard is no check
    Row(
        CHECK,
        "call void @lxfi.guard(ptr %f, i64 8)\n",
        CALLS_AS_KERNEL,
    ),
];

#[test]
fn what_is_not_checked_is_called_as_the_kernel(rt: HostRuntime) -> Result<(), Fail> {
    assert_rows(&rt, rt.alloc(), calls_given(), &CHECKS)
}
