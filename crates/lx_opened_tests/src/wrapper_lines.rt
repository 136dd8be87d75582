//! Wrappers may say anything that has their form, and what a call that crosses does is what their lines say. Of each bent wrapper stands
//! here the run that it gives, and what the checker says of it.
use crate::crossings::{borrows, hooks, probed, puts, puts_by_address};
use crate::rows::{Row, Wanted, assert_rows};
use crate::runs::Told;
use std::test::Fail;

/// What a call of `put` comes to: its events, how many checks its image has, and its end.
macro_rules! put {
    ($count:literal in $schedule:expr, checks $checks:literal => $end:literal) => {
        Wanted::Run(Told { schedule: &$schedule, report: concat!("schedule 0*", $count, "
call 0.0 m:main ", $end, "
image m guards 0 checks ", $checks, " wrappers 1
owns m.shared write 0x1000000+4
owns m.shared call 0x10060
owns m.shared call 0x10070
") })
    };
}

/// What a call of `lend` comes to: its events, its end, and what the module was given.
macro_rules! lent {
    ($count:literal in $schedule:expr => $end:literal, $given:literal) => {
        Wanted::Run(Told { schedule: &$schedule, report: concat!("schedule 0*", $count, "
call 0.0 m:main ", $end, "
image m guards 1 checks 0 wrappers 1
", $given, "owns m.shared write 0x1000010+4
owns m.shared call 0x10060
owns m.shared call 0x10070
") })
    };
}

/// What the checker says of a wrapper that is bent: where it differs.
macro_rules! bent {
    (line $line:literal, $function:literal, $instruction:literal) => {
        Wanted::Refused(concat!("line ", $line, ": `@", $function, "`, instruction ", $instruction,
            ": a wrapper is missing or differs, or the text is no image as a whole"))
    };
}

/// Rows of which each puts a line in another's place, with the same wanted of all.
macro_rules! all_rows {
    ($wanted:expr; $($part:ident $other:literal,)+) => {
        [$(Row($part, $other, $wanted)),+]
    };
}

/// The actions before the body, of an import that has two.
const FIRST: &str = "  call void @lxfi.pre(ptr @put, i32 0)\n";

const BOTH: &str = "  call void @lxfi.pre(ptr @put, i32 0)
  call void @lxfi.pre(ptr @put, i32 1)
";

/// What the call's start, the enter and the first action that is done come to, where that asks for eight bytes.
const EIGHT: Wanted = put!(3 in [0, 0, 0], checks 0 => "refused 1 m.shared write 0x1000000+8");

/// The same, where it asks for sixteen.
const SIXTEEN: Wanted = put!(3 in [0, 0, 0], checks 0 => "refused 1 m.shared write 0x1000000+16");

/// Nothing is asked for before the body: the start, the enter, a return from each of both and the call's end are the five events.
const UNCHECKED: Wanted = put!(5 in [0, 0, 0, 0, 0], checks 0 => "returned 5");

/// Behind the enter the wrapper comes to a line that cannot run.
const TRAPPED: Wanted = put!(3 in [0, 0, 0], checks 0 => "trap 3");

/// The checker names the line behind the enter.
const PUT_DIFFERS: Wanted = bent!(line 11, "lxfi.out.put", 1);

/// The second action in the place of the first, one that the import does not have, and both the other way round.
const SECOND: &str = "  call void @lxfi.pre(ptr @put, i32 1)\n";

const NO_ACTION: &str = "  call void @lxfi.pre(ptr @put, i32 2)\n";

const TURNED: &str = "  call void @lxfi.pre(ptr @put, i32 1)
  call void @lxfi.pre(ptr @put, i32 0)
";

static BEFORE: [Row; 11] = [
    Row(FIRST, FIRST, EIGHT),
    Row(FIRST, "", SIXTEEN),
    Row(BOTH, "", UNCHECKED),
    Row(FIRST, SECOND, SIXTEEN),
    Row(FIRST, NO_ACTION, TRAPPED),
    Row(BOTH, TURNED, SIXTEEN),
    Row(FIRST, "", PUT_DIFFERS),
    Row(BOTH, "", PUT_DIFFERS),
    Row(FIRST, SECOND, PUT_DIFFERS),
    Row(FIRST, NO_ACTION, PUT_DIFFERS),
    Row(BOTH, TURNED, PUT_DIFFERS),
];

#[test]
fn an_action_before_the_body_is_done_where_its_line_stands(rt: HostRuntime) -> Result<(), Fail> {
    assert_rows(&rt, rt.alloc(), puts(), &BEFORE)
}

/// The actions of an import that has one before its body and one behind it.
const ASKS: &str = "  call void @lxfi.pre(ptr @lend, i32 0)\n";

const ASKS_TWICE: &str = "  call void @lxfi.pre(ptr @lend, i32 0)
  call void @lxfi.pre(ptr @lend, i32 0)
";

const GIVES: &str = "  call void @lxfi.post(ptr @lend, i32 0)\n";

const GIVES_TWICE: &str = "  call void @lxfi.post(ptr @lend, i32 0)
  call void @lxfi.post(ptr @lend, i32 0)
";

/// All from the first action to the second, and the call alone.
const WITH_ACTIONS: &str = "  call void @lxfi.pre(ptr @lend, i32 0)
  %r = call ptr @lend(ptr %0)
  call void @lxfi.post(ptr @lend, i32 0)
";

const CALL_ALONE: &str = "  %r = call ptr @lend(ptr %0)\n";

/// The start, the enter, the action, the return, the action behind it, the store, the return and the call's end are the eight events.
const GIVEN: Wanted =
    lent!(8 in [0, 0, 0, 0, 0, 0, 0, 0] => "returned", "owns m.shared write 0x1000000+8\n");

/// An action is done once more, and there is an event more.
const GIVEN_IN_NINE: Wanted =
    lent!(9 in [0, 0, 0, 0, 0, 0, 0, 0, 0] => "returned", "owns m.shared write 0x1000000+8\n");

/// The action before the body is not done, and there is an event less.
const GIVEN_IN_SEVEN: Wanted =
    lent!(7 in [0, 0, 0, 0, 0, 0, 0] => "returned", "owns m.shared write 0x1000000+8\n");

/// The module was given nothing, so its store is refused: the start, the enter, the action, the return and the store.
const NOT_GIVEN: Wanted = lent!(5 in [0, 0, 0, 0, 0] => "refused 1 m.shared write 0x1000000+8", "");

/// Nor was it asked for anything.
const NO_ACTIONS: Wanted = lent!(4 in [0, 0, 0, 0] => "refused 1 m.shared write 0x1000000+8", "");

static AROUND: [Row; 6] = [
    Row(ASKS, ASKS, GIVEN),
    Row(ASKS, "", GIVEN_IN_SEVEN),
    Row(ASKS, ASKS_TWICE, GIVEN_IN_NINE),
    Row(GIVES, "", NOT_GIVEN),
    Row(GIVES, GIVES_TWICE, GIVEN_IN_NINE),
    Row(WITH_ACTIONS, CALL_ALONE, NO_ACTIONS),
];

#[test]
fn an_action_behind_the_body_is_done_where_its_line_stands(rt: HostRuntime) -> Result<(), Fail> {
    assert_rows(&rt, rt.alloc(), borrows(), &AROUND)
}

static AROUND_REFUSED: [Row; 5] = [
    Row(ASKS, "", bent!(line 13, "lxfi.out.lend", 1)),
    Row(ASKS, ASKS_TWICE, bent!(line 14, "lxfi.out.lend", 2)),
    Row(GIVES, "", bent!(line 15, "lxfi.out.lend", 3)),
    Row(GIVES, GIVES_TWICE, bent!(line 16, "lxfi.out.lend", 4)),
    Row(WITH_ACTIONS, CALL_ALONE, bent!(line 13, "lxfi.out.lend", 1)),
];

#[test]
fn the_checker_refuses_each_of_these(rt: HostRuntime) -> Result<(), Fail> {
    assert_rows(&rt, rt.alloc(), borrows(), &AROUND_REFUSED)
}

/// The action of a wrapper whose function the script and the kernel enter, and the wrapper as a whole.
const IN_ASKS: &str = "  call void @lxfi.pre(ptr @probe, i32 0)\n";

const IN_WRAPPER: &str = "define i64 @lxfi.in.probe(ptr %0) {
0:
  call void @lxfi.enter(ptr @probe)
  call void @lxfi.pre(ptr @probe, i32 0)
  %r = call i64 @probe(ptr %0)
  call void @lxfi.leave(ptr @probe)
  ret i64 %r
}
";

/// The bytes that the kernel passes do not lie in memory. The first call's start and action, and the second one's start, the call through
/// the slot and the action are the five events.
const NOT_PROBED: Wanted = Wanted::Run(Told {
    schedule: &[0, 0, 0, 0, 0],
    report: "schedule 0*5
call 0.0 m:probe refused 8 kernel write 0x0+8
call 0.1 kernel:do_probe refused 8 kernel write 0x0+8
image m guards 0 checks 0 wrappers 1
owns m.shared write 0x1000000+8
owns m.shared call 0x10070
",
});

/// Nothing is asked for: the start, the return and the end, and the start, the call through the slot, a return from each of both and the
/// end are the eight events.
const PROBED: Wanted = Wanted::Run(Told {
    schedule: &[0, 0, 0, 0, 0, 0, 0, 0],
    report: "schedule 0*8
call 0.0 m:probe returned 5
call 0.1 kernel:do_probe returned 5
image m guards 0 checks 0 wrappers 1
owns m.shared write 0x1000000+8
owns m.shared call 0x10070
",
});

static ENTERED: [Row; 5] = [
    Row(IN_ASKS, IN_ASKS, NOT_PROBED),
    Row(IN_ASKS, "", PROBED),
    Row(IN_WRAPPER, "", PROBED),
    Row(IN_ASKS, "", bent!(line 10, "lxfi.in.probe", 1)),
    Row(IN_WRAPPER, "", bent!(line 1, "lxfi.in.probe", 0)),
];

#[test]
fn what_the_kernel_calls_of_a_module_is_entered_by_its_wrapper(
    rt: HostRuntime,
) -> Result<(), Fail> {
    assert_rows(&rt, rt.alloc(), probed(), &ENTERED)
}

/// The start, the call by the address and the action are the three events.
const CHECKED: Wanted = put!(3 in [0, 0, 0], checks 1 => "refused 1 m.shared write 0x1000000+8");

/// The wrapper of a kernel function that is entered by its address is none of the image's.
static BY_ADDRESS: [Row; 2] = [Row(FIRST, FIRST, CHECKED), Row(FIRST, "", CHECKED)];

#[test]
fn a_kernel_function_has_a_wrapper_of_its_own(rt: HostRuntime) -> Result<(), Fail> {
    assert_rows(&rt, rt.alloc(), puts_by_address(), &BY_ADDRESS)
}

/// The example's report: the first call is refused, and the second one is given the call.
const HOOKED: Wanted = Wanted::Run(Told {
    schedule: &[0, 0, 0, 0, 0, 0, 0, 0, 0, 0, 0, 0, 0, 0, 0],
    report: "schedule 0*15
call 0.0 m:wild refused 2 m.shared call 0x10100
call 0.1 m:main returned 42
call 0.2 m:wild returned 2
image m guards 0 checks 2 wrappers 1
owns m.shared call 0x100f0
owns m.shared call 0x10100
owns m.shared call 0x10130
owns m.shared call 0x10140
",
});

/// Without its action the import gives nothing: two events, the four up to the call that is refused, and two.
const UNHOOKED: Wanted = Wanted::Run(Told {
    schedule: &[0, 0, 0, 0, 0, 0, 0, 0],
    report: "schedule 0*8
call 0.0 m:wild refused 2 m.shared call 0x10100
call 0.1 m:main refused 2 m.shared call 0x10100
call 0.2 m:wild refused 2 m.shared call 0x10100
image m guards 0 checks 2 wrappers 1
owns m.shared call 0x100f0
owns m.shared call 0x10130
owns m.shared call 0x10140
",
});

/// The one action of the example's wrappers.
const HOOK_GIVES: &str = "  call void @lxfi.post(ptr @hook_get, i32 0)\n";

static HOOKS: [Row; 2] = [
    Row(HOOK_GIVES, HOOK_GIVES, HOOKED),
    Row(HOOK_GIVES, "", UNHOOKED),
];

#[test]
fn without_its_actions_an_image_gives_another_report_than_its_module(
    rt: HostRuntime,
) -> Result<(), Fail> {
    assert_rows(&rt, rt.alloc(), hooks(), &HOOKS)
}

/// The other lines of the wrapper, and what may stand in their place.
const ENTER: &str = "  call void @lxfi.enter(ptr @put)\n";

const CALL: &str = "  %r = call i64 @put(ptr %0, ptr %1)\n";

const LEAVE: &str = "  call void @lxfi.leave(ptr @put)\n";

/// The wrapper's end, from its `leave` on.
const END: &str = "  call void @lxfi.leave(ptr @put)
  ret i64 %r
";

/// The image's wrapper is its third function.
const NO_WRAPPER: Wanted = Wanted::Unformed(2);

/// No enter, two, that of another function; an action of another function; a call of another function, with the arguments exchanged, with
/// one that is no parameter; no `leave`, two, that of another function; a line of a body; another result; a second block; an action behind
/// the call that stands before it, and one before it that stands behind.
static UNFORMED: [Row; 15] = all_rows! { NO_WRAPPER;
    ENTER "",
    ENTER "  call void @lxfi.enter(ptr @put)\n  call void @lxfi.enter(ptr @put)\n",
    ENTER "  call void @lxfi.enter(ptr @main)\n",
    FIRST "  call void @lxfi.pre(ptr @main, i32 0)\n",
    CALL "  %r = call i64 @main(ptr %0, ptr %1)\n",
    CALL "  %r = call i64 @put(ptr %1, ptr %0)\n",
    CALL "  %r = call i64 @put(ptr %0, ptr @g)\n",
    LEAVE "",
    LEAVE "  call void @lxfi.leave(ptr @put)\n  call void @lxfi.leave(ptr @put)\n",
    LEAVE "  call void @lxfi.leave(ptr @main)\n",
    LEAVE "  %x = add i64 %r, 1\n  call void @lxfi.leave(ptr @put)\n",
    END "  call void @lxfi.leave(ptr @put)\n  ret i64 5\n",
    END "  call void @lxfi.leave(ptr @put)\n  ret i64 %r\nb:\n  ret i64 5\n",
    FIRST "  call void @lxfi.post(ptr @put, i32 0)\n",
    LEAVE "  call void @lxfi.pre(ptr @put, i32 0)\n  call void @lxfi.leave(ptr @put)\n",
};

#[test]
fn what_is_named_as_a_wrapper_has_the_form_of_one(rt: HostRuntime) -> Result<(), Fail> {
    assert_rows(&rt, rt.alloc(), puts(), &UNFORMED)
}

/// The heads of two functions that are named as wrappers of others than their lines name: one that stands before the import's, and one
/// behind it.
const OUT_HEAD: &str = "define i64 @lxfi.out.put(ptr %0, ptr %1) {
";

const ANOTHER_BEFORE: &str = "define i64 @lxfi.in.main(ptr %0, ptr %1) {
0:
  call void @lxfi.enter(ptr @put)
  %r = call i64 @put(ptr %0, ptr %1)
  call void @lxfi.leave(ptr @put)
  ret i64 %r
}
define i64 @lxfi.out.put(ptr %0, ptr %1) {
";

const ANOTHER_BEHIND: &str = "  call void @lxfi.leave(ptr @put)
  ret i64 %r
}
define i64 @lxfi.in.main(ptr %0, ptr %1) {
0:
  call void @lxfi.enter(ptr @put)
  %r = call i64 @put(ptr %0, ptr %1)
  call void @lxfi.leave(ptr @put)
  ret i64 %r
";

/// One of a function without an annotation, which it wraps: it has the form, and the run is that of the other wrapper.
const FITTING_BEFORE: &str = "define i64 @lxfi.in.main(ptr %0, ptr %1) {
0:
  call void @lxfi.enter(ptr @main)
  %r = call i64 @main(ptr %0, ptr %1)
  call void @lxfi.leave(ptr @main)
  ret i64 %r
}
define i64 @lxfi.out.put(ptr %0, ptr %1) {
";

/// The first function without the form is told.
static NAMED: [Row; 3] = [
    Row(OUT_HEAD, ANOTHER_BEFORE, Wanted::Unformed(2)),
    Row(END, ANOTHER_BEHIND, Wanted::Unformed(3)),
    Row(OUT_HEAD, FITTING_BEFORE, EIGHT),
];

#[test]
fn a_wrapper_is_of_the_function_that_its_name_says(rt: HostRuntime) -> Result<(), Fail> {
    assert_rows(&rt, rt.alloc(), puts(), &NAMED)
}
