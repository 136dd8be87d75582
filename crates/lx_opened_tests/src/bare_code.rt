//! Worlds over images that may be any: the image runs, and not the module's text, and what no mark stands before is done as the kernel
//! does it.
ghost use Rattle.std.specs.Prelude.{◌≡◌, [], IfOk};
ghost use Rattle.std.specs.Arc.{arc_value};
ghost use Rattle.lx_input.specs.Laws.{IsReady};
ghost use Rattle.lx_opened_tests.specs.Coded.{IsCoded};
ghost use Rattle.lx_opened_tests.specs.Opened.{IsOpened};

use crate::codes::{Coded, code_of_text};
use crate::images::image_of_text;
use crate::opened::Opened;
use crate::rows::{Row, Wanted, assert_rows};
use crate::runs::{Told, is_told};
use crate::texts::{calls_given, stores_past, stores_seven};
use lx_annot::interface::Interface;
use lx_caps::{CapStore, PlainCaps};
use lx_image_check::check;
use lx_input::Input;
use lx_opening::open_code;
use lx_words::Memory;
use std::alloc::Global;
use std::test::Fail;

/// The world of an input over its code.
#[tactic(auto, using(crate::proofs::Worlds::opened))]
fn open_coded<C: CapStore + Drop>(alloc: Global, coded: Coded, caps: C) -> Result<Opened<C>, Memory>
    requires coded { IsCoded coded.code (arc_value coded.program) coded.script coded.annotated coded.counts }
    requires new { C.stands caps [] }
    ensures { IfOk result (λ o. IsOpened C.stands o.world o.counts) }
{
    let Coded {
        code,
        program,
        script,
        annotated,
        counts,
    } = coded;
    let (calls, marked) = (script.as_slice(), annotated.as_slice());
    let world = open_code(alloc, code, program, marked, calls, caps);
    drop(script);
    drop(annotated);
    match world {
        Ok(world) => Ok(Opened { world, counts }),
        Err(why) => {
            drop(counts);
            Err(why)
        }
    }
}

/// Whether an input's run over the image that a text says, whatever a checker says of it, is told so.
pub fn runs_so(alloc: Global, input: Input, text: &str, told: Told) -> Result<bool, Fail>
    requires { IsReady input }
{
    let coded = code_of_text(alloc, input, text)?;
    let opened = open_coded(alloc, coded, PlainCaps::new(alloc))?;
    is_told(alloc, opened, told)
}

/// Whether the checker refuses the image that a text says with these words.
fn is_refused_by(alloc: Global, i: &Interface, text: &str, words: &str) -> Result<bool, Fail> {
    let image = image_of_text(alloc, text.as_bytes())?;
    match check(alloc, i, image) {
        Ok(checked) => {
            drop(checked);
            Ok(false)
        }
        Err(why) => {
            let said = format!(in alloc; "{why}");
            drop(why);
            let said = said?;
            Ok(said.as_str() == words)
        }
    }
}

/// The same by the interface of an input.
pub fn is_refused(alloc: Global, input: Input, text: &str, words: &str) -> Result<bool, Fail> {
    let refused = is_refused_by(alloc, &input.program.interface, text, words);
    drop(input);
    refused
}

/// What a call that stores to the module's global comes to: its events, how many bytes that has, and the call's end.
macro_rules! stores {
    ($count:literal in $schedule:expr, owns $size:literal => $end:literal) => {
        Wanted::Run(Told { schedule: &$schedule, report: concat!("schedule 0*", $count, "
call 0.0 m:main ", $end, "
image m guards 1 checks 0 wrappers 0
owns m.shared write 0x1000000+", $size, "
owns m.shared call 0x10060
") })
    };
}

/// What a call that calls what it is given comes to: its events and its end.
macro_rules! calls {
    ($count:literal in $schedule:expr => $end:literal) => {
        Wanted::Run(Told { schedule: &$schedule, report: concat!("schedule 0*", $count, "
call 0.0 m:main ", $end, "
image m guards 0 checks 1 wrappers 0
owns m.shared call 0x10070
") })
    };
}

/// The module owns seven bytes of eight. The call's start, and the store that is refused, are the two events.
const REFUSED: Wanted = stores!(2 in [0, 0], owns 7 => "refused 1 m.shared write 0x1000000+8");

/// The kernel may write all eight bytes. The call's start, the store, the return and the call's end are the four events.
const STORED: Wanted = stores!(4 in [0, 0, 0, 0], owns 7 => "returned");

/// The guard of the store of eight bytes to a global of seven.
const PAST_GUARD: &str = "  call void @lxfi.guard(ptr @g, i64 8)\n";

/// A guard that names the seven bytes.
const SHORT_GUARD: &str = "  call void @lxfi.guard(ptr @g, i64 7)\n";

/// What is told of the runs of the image as it is made, and of two that the checker refuses; then what it says of these.
static STORES: [Row; 5] = [
    Row(PAST_GUARD, PAST_GUARD, REFUSED),
    Row(PAST_GUARD, "", STORED),
    Row(PAST_GUARD, SHORT_GUARD, STORED),
    Row(
        PAST_GUARD,
        "",
        Wanted::Refused("line 4: `@main`, instruction 0: a store or block write has no guard"),
    ),
    Row(
        PAST_GUARD,
        SHORT_GUARD,
        Wanted::Refused(
            "line 4: `@main`, instruction 0: a guard or check has another operand or size than what follows it",
        ),
    ),
];

#[test]
fn a_store_is_refused_behind_its_guard_alone(rt: HostRuntime) -> Result<(), Fail> {
    assert_rows(&rt, rt.alloc(), stores_past(), &STORES)
}

/// The call's start, the store, the load, the return and the call's end are the five events.
const SEVEN: Wanted = stores!(5 in [0, 0, 0, 0, 0], owns 4 => "returned 7");

/// The image stores an 8. What is counted, and who owns what, is the program's.
const EIGHT: Wanted = stores!(5 in [0, 0, 0, 0, 0], owns 4 => "returned 8");

/// The image stores nothing: the global still holds what it began with, and there is an event less.
const NOTHING: Wanted = stores!(4 in [0, 0, 0, 0], owns 4 => "returned 0");

/// The store of a 7 in an image.
const STORE: &str = "  store i32 7, ptr @g\n";

static OTHER_STORES: [Row; 3] = [
    Row(STORE, STORE, SEVEN),
    Row(STORE, "  store i32 8, ptr @g\n", EIGHT),
    Row(STORE, "", NOTHING),
];

#[test]
fn the_image_runs_and_not_the_text_of_its_module(rt: HostRuntime) -> Result<(), Fail> {
    assert_rows(&rt, rt.alloc(), stores_seven(), &OTHER_STORES)
}

/// The module owns the call of its own function, which stands behind the kernel's, and not that of the kernel's. The call's start, and the
/// call that is refused, are the two events.
const NOT_CALLED: Wanted = calls!(2 in [0, 0] => "refused 2 m.shared call 0x10060");

/// The kernel may call all that is its own. The call's start, the call, a return from each of both and the call's end are the five events.
const CALLED: Wanted = calls!(5 in [0, 0, 0, 0, 0] => "returned 5");

/// The check of the call of what the module is given.
const CHECK: &str = "  call void @lxfi.check(ptr %f)\n";

static CALLS: [Row; 3] = [
    Row(CHECK, CHECK, NOT_CALLED),
    Row(CHECK, "", CALLED),
    Row(CHECK, "  call void @lxfi.check(ptr null)\n", CALLED),
];

#[test]
fn a_call_is_refused_behind_its_check_alone(rt: HostRuntime) -> Result<(), Fail> {
    assert_rows(&rt, rt.alloc(), calls_given(), &CALLS)
}
