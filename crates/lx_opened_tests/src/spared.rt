//! Whichever of the guards of spared stores an image has, its runs are the same.
use crate::images::Image;
use crate::inputs::input_of;
use crate::runs::{Told, is_told_over};
use std::alloc::Global;
use std::process::Abort;
use std::test::Fail;

/// A kernel that notes numbers and lends its global.
fn kernel() -> &'static str {
    "@pool = global i64 0
declare void @k.note(i64)
define void @tell(i64 %n) {
call void @k.note(i64 %n)
ret void
}
define ptr @lend() {
ret ptr @pool
}
"
}

/// The whole global is lent.
const LENDS_ALL: &str = "interface 1
export tell : void (i64 n)
export lend : ptr () post(copy(write, return, 8))
";

/// Half of the global is lent.
const LENDS_HALF: &str = "interface 1
export tell : void (i64 n)
export lend : ptr () post(copy(write, return, 4))
";

/// A call with all the fuel that it needs.
const FUELLED: &str = "lxfi case 1
kernel file k.ll
interface file k.txt
module m m.ll
thread
call m:main 7 fuel 16
";

/// The same with one unit less.
const SHORT_OF_FUEL: &str = "lxfi case 1
kernel file k.ll
interface file k.txt
module m m.ll
thread
call m:main 7 fuel 15
";

/// A module that stores three times to its stack, and once to what was lent. A line behind `-` stands in the module alone, one behind
/// `+` in each of its images, and one behind `A`, `B` or `C` in those that have this guard.
fn lines() -> &'static str {
    "declare ptr @lend()
declare void @tell(i64)
define i64 @main(i64 %n) {
0:
  %a = alloca i64
  %b = alloca i64
A  call void @lxfi.guard(ptr %a, i64 8)
  store i64 %n, ptr %a
-  %p = call ptr @lend()
+  %p = call ptr @lxfi.out.lend()
+  call void @lxfi.guard(ptr %p, i64 8)
  store i64 5, ptr %p
B  call void @lxfi.guard(ptr %b, i64 8)
  store i64 6, ptr %b
  %x = load i64, ptr %a
-  call void @tell(i64 %x)
+  call void @lxfi.out.tell(i64 %x)
C  call void @lxfi.guard(ptr %b, i64 4)
  store i32 9, ptr %b
  %y = load i64, ptr %b
  ret i64 %y
}
+define ptr @lxfi.out.lend() {
+0:
+  call void @lxfi.enter(ptr @lend)
+  %r = call ptr @lend()
+  call void @lxfi.post(ptr @lend, i32 0)
+  call void @lxfi.leave(ptr @lend)
+  ret ptr %r
+}
+define void @lxfi.out.tell(i64 %0) {
+0:
+  call void @lxfi.enter(ptr @tell)
+  call void @tell(i64 %0)
+  call void @lxfi.leave(ptr @tell)
+  ret void
+}"
}

/// What lines are taken together for: the module, or an image with the guards of these marks.
#[derive(Clone, Copy)]
enum Version {
    Module,
    Image(&'static str),
}

/// Whether a line behind a mark stands in a version.
fn has_mark(version: Version, mark: char) -> bool {
    match version {
        Version::Module => mark == '-',
        Version::Image(guards) => mark == '+' || guards.contains(mark),
    }
}

/// The marks of lines.
static MARKS: [char; 5] = ['-', '+', 'A', 'B', 'C'];

/// The line as it stands in a version, where it does.
fn line_in(version: Version, line: &'static str) -> Option<&'static str> {
    for mark in MARKS.iter() {
        if let Some(rest) = line.strip_prefix(*mark) {
            return if has_mark(version, *mark) {
                Some(rest)
            } else {
                None
            };
        }
    }
    Some(line)
}

fn text_of(alloc: Global, version: Version) -> Result<String, Fail> {
    let mut text = String::new(alloc);
    for line in lines().lines() {
        if let Some(line) = line_in(version, line) {
            text.push_str(line)?;
            text.push('\n')?;
        }
    }
    Ok(text)
}

/// A run of the module: its case and interface, and what is told of it.
#[derive(Clone, Copy)]
struct Run {
    case: &'static str,
    interface: &'static str,
    told: Told,
}

/// What is told of a run: its events, how many bytes the module owns behind it, and the call's end with what it noted.
macro_rules! told {
    ($count:literal in $schedule:ident, owns $size:literal => $end:literal) => {
        Told { schedule: $schedule, report: concat!("schedule 0*", $count, "
call 0.0 m:main ", $end, "
image m guards 4 checks 0 wrappers 2
owns m.shared write 0x1000000+", $size, "
owns m.shared call 0x10060
owns m.shared call 0x10070
owns m.shared call 0x10080
") }
    };
}

const SEVENTEEN_EVENTS: &[u32] = &[0, 0, 0, 0, 0, 0, 0, 0, 0, 0, 0, 0, 0, 0, 0, 0, 0];

const SIXTEEN_EVENTS: &[u32] = &[0, 0, 0, 0, 0, 0, 0, 0, 0, 0, 0, 0, 0, 0, 0, 0];

const EIGHT_EVENTS: &[u32] = &[0, 0, 0, 0, 0, 0, 0, 0];

/// With all its fuel, the call returns. Its units are the start, two allocas, the store, the call of `lend` with its return and the action
/// behind it, two stores, a load, the call of `tell` with what it calls and its return, a store, a load and the return: sixteen, and the
/// call's end is one event more. Guards cost nothing. What is read is the 9, over the low half of a 6. There are four stores to count, in
/// the full image of the module.
fn returns() -> Run {
    Run {
        case: FUELLED,
        interface: LENDS_ALL,
        told: told!(17 in SEVENTEEN_EVENTS, owns 8 => "returned 9\nnote 0 7"),
    }
}

/// With one unit less, it stops before its return.
fn stops() -> Run {
    Run {
        case: SHORT_OF_FUEL,
        interface: LENDS_ALL,
        told: told!(16 in SIXTEEN_EVENTS, owns 8 => "budget\nnote 0 7"),
    }
}

/// Where half is lent, the store to all is refused: the start, two allocas, the store to the stack, three of `lend`, and this one.
fn is_refused() -> Run {
    Run {
        case: FUELLED,
        interface: LENDS_HALF,
        told: told!(8 in EIGHT_EVENTS, owns 4 => "refused 1 m.shared write 0x1000000+8"),
    }
}

/// Whether a run of the module over an image is told as it is to be.
fn runs_so(alloc: Global, module: &str, image: Image<'_>, run: Run) -> Result<bool, Fail> {
    let files = [
        ("k.ll", kernel()),
        ("k.txt", run.interface),
        ("m.ll", module),
    ];
    let input = input_of(alloc, run.case, &files)?;
    is_told_over(alloc, input, &[image], run.told)
}

/// An image for the module.
#[derive(Clone, Copy)]
enum Choice {
    /// That of the lines, with the guards of these marks.
    Marked(&'static str),
    /// What is made of the module, with all guards.
    Full,
    /// The same without those of spared stores.
    Spared,
}

/// Whether a run of the module over such an image is told as it is to be.
fn is_so(alloc: Global, module: &str, choice: Choice, run: Run) -> Result<bool, Fail> {
    match choice {
        Choice::Marked(guards) => {
            let image = text_of(alloc, Version::Image(guards))?;
            let is_so = runs_so(alloc, module, Image::Text(image.as_str()), run);
            drop(image);
            is_so
        }
        Choice::Full => runs_so(alloc, module, Image::Full(module), run),
        Choice::Spared => runs_so(alloc, module, Image::Spared(module), run),
    }
}

/// A run of the module is told as it is to be over each image.
fn assert_run(
    rt: &impl Abort,
    alloc: Global,
    module: &str,
    choices: &[Choice],
    run: Run,
) -> Result<(), Fail> {
    for (number, choice) in choices.iter().enumerate() {
        assert!(rt;
            is_so(alloc, module, *choice, run)?,
            "image {number}: {}",
            run.told.report
        );
    }
    Ok(())
}

fn assert_runs(
    rt: &impl Abort,
    alloc: Global,
    module: &str,
    choices: &[Choice],
) -> Result<(), Fail> {
    assert_run(rt, alloc, module, choices, returns())?;
    assert_run(rt, alloc, module, choices, stops())?;
    assert_run(rt, alloc, module, choices, is_refused())
}

/// Each run of the module is told as it is to be over each image.
fn assert_choices(rt: &impl Abort, alloc: Global, choices: &[Choice]) -> Result<(), Fail> {
    let module = text_of(alloc, Version::Module)?;
    let went = assert_runs(rt, alloc, module.as_str(), choices);
    drop(module);
    went
}

/// Which of the guards of spared stores an image may have.
static MARKED: [Choice; 8] = [
    Choice::Marked(""),
    Choice::Marked("A"),
    Choice::Marked("B"),
    Choice::Marked("C"),
    Choice::Marked("AB"),
    Choice::Marked("AC"),
    Choice::Marked("BC"),
    Choice::Marked("ABC"),
];

#[test]
fn with_any_guards_the_run_is_the_same(rt: HostRuntime) -> Result<(), Fail> {
    assert_choices(&rt, rt.alloc(), &MARKED)
}

static MADE: [Choice; 2] = [Choice::Full, Choice::Spared];

#[test]
fn over_the_images_that_are_made_the_run_is_the_same(rt: HostRuntime) -> Result<(), Fail> {
    assert_choices(&rt, rt.alloc(), &MADE)
}
