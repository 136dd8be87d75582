//! Where in its image a thread asks, event by event.
use crate::images::Image;
use crate::inputs::input_of;
use crate::opened::{Opened, open_over};
use crate::texts::Sample;
use lx_caps::{CapStore, PlainCaps};
use lx_world::{Standing, World};
use std::alloc::Global;
use std::process::Abort;
use std::test::Fail;

/// A case whose module is called with a zero.
const DIVIDED_CASE: &str = "lxfi case 1
kernel file k.ll
interface file i.txt
module m m.ll
thread
call m:main 0 fuel 100
";

/// A module that stores to its global, calls an import with an action before the body and one behind it, jumps to a block that begins
/// with a phi, stores there, and divides by what it was called with.
fn divides() -> Sample {
    Sample {
        case: DIVIDED_CASE,
        kernel: "@pool = global i64 0
define ptr @lend(ptr %p) {
ret ptr @pool
}
",
        interface: "interface 1
export lend : ptr (ptr p) pre(check(write, p, 4)) post(copy(write, return, 8))
",
        module: "@g = global i32 0
declare ptr @lend(ptr)
define i64 @main(i64 %n) {
store i32 7, ptr @g
%p = call ptr @lend(ptr @g)
br label %next
next:
%v = phi i64 [ 7, %0 ]
store i64 %v, ptr %p
%q = sdiv i64 %v, %n
ret i64 %q
}
",
        image: "@g = global i32 0
declare ptr @lend(ptr)
define i64 @main(i64 %n) {
0:
  call void @lxfi.guard(ptr @g, i64 4)
  store i32 7, ptr @g
  %p = call ptr @lxfi.out.lend(ptr @g)
  br label %next
next:
  %v = phi i64 [ 7, %0 ]
  call void @lxfi.guard(ptr %p, i64 8)
  store i64 %v, ptr %p
  %q = sdiv i64 %v, %n
  ret i64 %q
}
define ptr @lxfi.out.lend(ptr %0) {
0:
  call void @lxfi.enter(ptr @lend)
  call void @lxfi.pre(ptr @lend, i32 0)
  %r = call ptr @lend(ptr %0)
  call void @lxfi.post(ptr @lend, i32 0)
  call void @lxfi.leave(ptr @lend)
  ret ptr %r
}
",
    }
}

/// Where a thread asks: the number of the function, that of its block, the place there, and whether the block was jumped to.
type Place = Option<(u32, usize, usize, bool)>;

/// The kernel's function, and the module's. Six natives stand before them.
const LEND: u32 = 6;

const MAIN: u32 = 7;

/// Where each event of the call is asked.
static PLACES: [Place; 8] = [
    // the script's call
    None,
    // the store, before its guard
    Some((MAIN, 0, 0, false)),
    // the call, which asks to enter, and by its wrapper for the action before the body
    Some((MAIN, 0, 2, false)),
    Some((MAIN, 0, 2, false)),
    // the import's return
    Some((LEND, 0, 0, false)),
    // the call again, for the action behind the body
    Some((MAIN, 0, 2, false)),
    // the store behind the phi, before its guard
    Some((MAIN, 1, 0, true)),
    // the division, which ends the call
    Some((MAIN, 1, 3, true)),
];

/// Whether a place is the wanted one.
fn is_place(found: Option<Standing>, wanted: Place) -> bool {
    match (found, wanted) {
        (Some(at), Some((function, block, place, arrived))) => {
            at.function == function
                && at.block == block
                && at.place == place
                && at.arrived == arrived
        }
        (None, None) => true,
        _ => false,
    }
}

/// Whether the next event of the one thread is asked there and comes.
fn comes_from<C: CapStore + Drop>(world: &mut World<C>, wanted: Place) -> bool {
    match world.local_from(0) {
        Ok(found) => is_place(found, wanted) && world.answer(0).is_ok(),
        Err(_) => false,
    }
}

fn assert_places<C: CapStore + Drop>(rt: &impl Abort, world: &mut World<C>) {
    for (number, wanted) in PLACES.iter().enumerate() {
        assert!(rt; world.call(0) == Some((0, MAIN)), "event {number}");
        assert!(rt; comes_from(world, *wanted), "event {number}");
    }
    assert!(rt; world.call(0).is_none());
    assert!(rt; world.done());
}

/// The world of the division, before its first event.
fn open_divides(alloc: Global) -> Result<Opened<PlainCaps>, Fail> {
    let sample = divides();
    let files = [
        ("k.ll", sample.kernel),
        ("i.txt", sample.interface),
        ("m.ll", sample.module),
    ];
    let input = input_of(alloc, sample.case, &files)?;
    match open_over(alloc, input, &[Image::Text(sample.image)])? {
        Ok(opened) => Ok(opened),
        Err(why) => {
            drop(why);
            Err(Fail::new("the world is not opened"))
        }
    }
}

#[test]
fn a_thread_tells_where_it_asks(rt: HostRuntime) -> Result<(), Fail> {
    let Opened { mut world, counts } = open_divides(rt.alloc())?;
    drop(counts);
    assert_places(&rt, &mut world);
    drop(world);
    Ok(())
}
