//! A stranger's whole call between two events of a call that crosses a wrapper with actions before and behind its body.
//!
//! Thread 0 crosses from the module to the kernel (`hand`, which hands over eight bytes of its own), or from the kernel to
//! the module (`run`, which hands over eight bytes of the kernel's). Both have nine events: the entry of the script's call,
//! that of the crossing, the action before the body, a load, a store, `ret`, the action behind it, `ret`, and the end. So the
//! bytes are the other side's from the third event on, up to the seventh. Thread 1 has one call, which reads and writes the
//! same bytes (`poke`), or gives them to the kernel (`give`). The first has five events: its entry, a load, a store, `ret`, and
//! the end; the second six: its entry, that of `take`, the action before that, two `ret`, and the end. Where the module does
//! not hold the bytes, the store and the action are refused, each of them in the third event, which is then the call's last.

use crate::forms::put_rows;
use std::test::Fail;

/// The kernel, the interface and the module of all scenes.
pub fn scene_files() -> &'static str {
    "---- file kernel.ll
@buf = global i64 3
declare i64 @k.slot.work(ptr, ptr)
define i64 @run(ptr %s) {
  %r = call i64 @k.slot.work(ptr %s, ptr @buf)
  ret i64 %r
}
define i64 @keep(ptr %p) {
  %v = load i64, ptr %p
  store i64 4, ptr %p
  ret i64 %v
}
define void @take(ptr %p) {
  ret void
}
---- file hands.txt
interface 1
slot work : i64 (ptr p) pre(transfer(write, p, 8)) post(transfer(write, p, 8))
field %struct.ops 0 : work
export keep : i64 (ptr p) pre(transfer(write, p, 8)) post(transfer(write, p, 8))
export take : void (ptr p) pre(transfer(write, p, 8))
---- file module.ll
%struct.ops = type { ptr }
@ops = global %struct.ops { ptr @work }
@own = global i64 1
declare i64 @keep(ptr)
declare void @take(ptr)
define i64 @hand() {
  %r = call i64 @keep(ptr @own)
  ret i64 %r
}
define i64 @work(ptr %p) {
  %v = load i64, ptr %p
  store i64 5, ptr %p
  ret i64 %v
}
define i64 @poke(ptr %p) {
  %v = load i64, ptr %p
  store i64 9, ptr %p
  ret i64 %v
}
define void @give(ptr %p) {
  call void @take(ptr %p)
  ret void
}
"
}

/// A schedule that is whole: the calls of both threads, each as its function and its arguments, the schedule, the status, the reply of
/// each call, and whether the module owns its own bytes in the end.
fn whole_form() -> &'static str {
    "---- case
lxfi case 1
kernel file kernel.ll
interface file hands.txt
module m module.ll
thread
call <0><1> fuel 100
thread
call <2><3> fuel 100
---- <0> and <2>
---- schedule
schedule <4>---- whole
status <5>
schedule <4>
call 0.0 <0> <6>
call 1.0 <2> <7>
image m guards 2 checks 0 wrappers 3
owns m.shared write 0x1000010+8
<8?owns m.shared write 0x1000020+8
>owns m.shared call 0x10070
owns m.shared call 0x10080
owns m.shared call 0x10090
owns m.shared call 0x100a0
owns m.shared call 0x100b0
owns m.shared call 0x100c0
"
}

/// Thread 1's call at each of ten places, in each of four scenes:
/// - Thread 1 is refused while the bytes are the kernel's; before, `keep` reads what thread 1 wrote; behind, the other way round.
/// - Thread 1 may write the kernel's bytes exactly while `work` may: before its load, before its store, and behind it.
/// - Who comes first hands the bytes over: what was given before is not there for the action before the body.
/// - What thread 1 gives away is missed by the store of `work`, and behind the store by the action behind the body.
fn whole_rows() -> &'static str {
    "m:hand||m:poke| &m:own|1*5 0*9|0|returned 9|returned 1|owns
m:hand||m:poke| &m:own|0*1 1*5 0*8|0|returned 9|returned 1|owns
m:hand||m:poke| &m:own|0*2 1*5 0*7|0|returned 9|returned 1|owns
m:hand||m:poke| &m:own|0*3 1*3 0*6|1|returned 1|refused 1 m.shared write 0x1000020+8|owns
m:hand||m:poke| &m:own|0*4 1*3 0*5|1|returned 1|refused 1 m.shared write 0x1000020+8|owns
m:hand||m:poke| &m:own|0*5 1*3 0*4|1|returned 1|refused 1 m.shared write 0x1000020+8|owns
m:hand||m:poke| &m:own|0*6 1*3 0*3|1|returned 1|refused 1 m.shared write 0x1000020+8|owns
m:hand||m:poke| &m:own|0*7 1*5 0*2|0|returned 1|returned 4|owns
m:hand||m:poke| &m:own|0*8 1*5 0*1|0|returned 1|returned 4|owns
m:hand||m:poke| &m:own|0*9 1*5|0|returned 1|returned 4|owns
kernel:run| &m:ops|m:poke| &kernel:buf|1*3 0*9|1|returned 3|refused 1 m.shared write 0x1000000+8|owns
kernel:run| &m:ops|m:poke| &kernel:buf|0*1 1*3 0*8|1|returned 3|refused 1 m.shared write 0x1000000+8|owns
kernel:run| &m:ops|m:poke| &kernel:buf|0*2 1*3 0*7|1|returned 3|refused 1 m.shared write 0x1000000+8|owns
kernel:run| &m:ops|m:poke| &kernel:buf|0*3 1*5 0*6|0|returned 9|returned 3|owns
kernel:run| &m:ops|m:poke| &kernel:buf|0*4 1*5 0*5|0|returned 3|returned 3|owns
kernel:run| &m:ops|m:poke| &kernel:buf|0*5 1*5 0*4|0|returned 3|returned 5|owns
kernel:run| &m:ops|m:poke| &kernel:buf|0*6 1*5 0*3|0|returned 3|returned 5|owns
kernel:run| &m:ops|m:poke| &kernel:buf|0*7 1*3 0*2|1|returned 3|refused 1 m.shared write 0x1000000+8|owns
kernel:run| &m:ops|m:poke| &kernel:buf|0*8 1*3 0*1|1|returned 3|refused 1 m.shared write 0x1000000+8|owns
kernel:run| &m:ops|m:poke| &kernel:buf|0*9 1*3|1|returned 3|refused 1 m.shared write 0x1000000+8|owns
m:hand||m:give| &m:own|1*6 0*3|1|refused 1 m.shared write 0x1000020+8|returned
m:hand||m:give| &m:own|0*1 1*6 0*2|1|refused 1 m.shared write 0x1000020+8|returned
m:hand||m:give| &m:own|0*2 1*6 0*1|1|refused 1 m.shared write 0x1000020+8|returned
m:hand||m:give| &m:own|0*3 1*3 0*6|1|returned 1|refused 1 m.shared write 0x1000020+8|owns
m:hand||m:give| &m:own|0*4 1*3 0*5|1|returned 1|refused 1 m.shared write 0x1000020+8|owns
m:hand||m:give| &m:own|0*5 1*3 0*4|1|returned 1|refused 1 m.shared write 0x1000020+8|owns
m:hand||m:give| &m:own|0*6 1*3 0*3|1|returned 1|refused 1 m.shared write 0x1000020+8|owns
m:hand||m:give| &m:own|0*7 1*6 0*2|0|returned 1|returned
m:hand||m:give| &m:own|0*8 1*6 0*1|0|returned 1|returned
m:hand||m:give| &m:own|0*9 1*6|0|returned 1|returned
kernel:run| &m:ops|m:give| &kernel:buf|1*3 0*9|1|returned 3|refused 1 m.shared write 0x1000000+8|owns
kernel:run| &m:ops|m:give| &kernel:buf|0*1 1*3 0*8|1|returned 3|refused 1 m.shared write 0x1000000+8|owns
kernel:run| &m:ops|m:give| &kernel:buf|0*2 1*3 0*7|1|returned 3|refused 1 m.shared write 0x1000000+8|owns
kernel:run| &m:ops|m:give| &kernel:buf|0*3 1*6 0*2|1|refused 1 m.shared write 0x1000000+8|returned|owns
kernel:run| &m:ops|m:give| &kernel:buf|0*4 1*6 0*1|1|refused 1 m.shared write 0x1000000+8|returned|owns
kernel:run| &m:ops|m:give| &kernel:buf|0*5 1*6 0*2|1|refused 1 m.shared write 0x1000000+8|returned|owns
kernel:run| &m:ops|m:give| &kernel:buf|0*6 1*6 0*1|1|refused 1 m.shared write 0x1000000+8|returned|owns
kernel:run| &m:ops|m:give| &kernel:buf|0*7 1*3 0*2|1|returned 3|refused 1 m.shared write 0x1000000+8|owns
kernel:run| &m:ops|m:give| &kernel:buf|0*8 1*3 0*1|1|returned 3|refused 1 m.shared write 0x1000000+8|owns
kernel:run| &m:ops|m:give| &kernel:buf|0*9 1*3|1|returned 3|refused 1 m.shared write 0x1000000+8|owns
"
}

/// A schedule of both calls that fails at an entry.
fn cut_form() -> &'static str {
    "---- case
lxfi case 1
kernel file kernel.ll
interface file hands.txt
module m module.ll
thread
call <0><1> fuel 100
thread
call <2><3> fuel 100
---- <0> and <2>
---- schedule
schedule <4>---- whole
status 7
lxfi: schedule not whole at entry <5>
"
}

/// For each place at which the calls come to something else than at the one before: a schedule that ends behind thread 1's call while
/// thread 0 has work, and one that asks thread 1 once more there. Both fail at the entry behind that call.
fn cut_rows() -> &'static str {
    "m:hand||m:poke| &m:own|1*5|5
m:hand||m:poke| &m:own|1*6 0*9|5
m:hand||m:poke| &m:own|0*3 1*3|6
m:hand||m:poke| &m:own|0*3 1*4 0*6|6
m:hand||m:poke| &m:own|0*7 1*5|12
m:hand||m:poke| &m:own|0*7 1*6 0*2|12
kernel:run| &m:ops|m:poke| &kernel:buf|1*3|3
kernel:run| &m:ops|m:poke| &kernel:buf|1*4 0*9|3
kernel:run| &m:ops|m:poke| &kernel:buf|0*3 1*5|8
kernel:run| &m:ops|m:poke| &kernel:buf|0*3 1*6 0*6|8
kernel:run| &m:ops|m:poke| &kernel:buf|0*4 1*5|9
kernel:run| &m:ops|m:poke| &kernel:buf|0*4 1*6 0*5|9
kernel:run| &m:ops|m:poke| &kernel:buf|0*5 1*5|10
kernel:run| &m:ops|m:poke| &kernel:buf|0*5 1*6 0*4|10
kernel:run| &m:ops|m:poke| &kernel:buf|0*7 1*3|10
kernel:run| &m:ops|m:poke| &kernel:buf|0*7 1*4 0*2|10
m:hand||m:give| &m:own|1*6|6
m:hand||m:give| &m:own|1*7 0*3|6
m:hand||m:give| &m:own|0*3 1*3|6
m:hand||m:give| &m:own|0*3 1*4 0*6|6
m:hand||m:give| &m:own|0*7 1*6|13
m:hand||m:give| &m:own|0*7 1*7 0*2|13
kernel:run| &m:ops|m:give| &kernel:buf|1*3|3
kernel:run| &m:ops|m:give| &kernel:buf|1*4 0*9|3
kernel:run| &m:ops|m:give| &kernel:buf|0*3 1*6|9
kernel:run| &m:ops|m:give| &kernel:buf|0*3 1*7 0*2|9
kernel:run| &m:ops|m:give| &kernel:buf|0*5 1*6|11
kernel:run| &m:ops|m:give| &kernel:buf|0*5 1*7 0*2|11
kernel:run| &m:ops|m:give| &kernel:buf|0*7 1*3|10
kernel:run| &m:ops|m:give| &kernel:buf|0*7 1*4 0*2|10
"
}

/// Puts ten places in each of four scenes, and two broken schedules for each of fifteen spans of these.
pub fn put_scenes(text: &mut String) -> Result<(), Fail> {
    put_rows(text, whole_form(), whole_rows())?;
    put_rows(text, cut_form(), cut_rows())
}

/// A schedule of one thread that ends behind so many events.
fn end_form() -> &'static str {
    "---- case
lxfi case 1
kernel file kernel.ll
interface file hands.txt
module m module.ll
thread
call <0><1> fuel 100
---- <0><1>
---- schedule
schedule 0*<2>---- whole
status 7
lxfi: schedule not whole at entry <2>
"
}

/// A call to the kernel and one from the kernel, each up to each event but the last.
fn end_rows() -> &'static str {
    "m:hand||1
m:hand||2
m:hand||3
m:hand||4
m:hand||5
m:hand||6
m:hand||7
m:hand||8
kernel:run| &m:ops|1
kernel:run| &m:ops|2
kernel:run| &m:ops|3
kernel:run| &m:ops|4
kernel:run| &m:ops|5
kernel:run| &m:ops|6
kernel:run| &m:ops|7
kernel:run| &m:ops|8
"
}

/// Puts schedules of one thread that end before each event but the first of the call, inside its wrapper among them: work remains
/// then, so each fails at its length.
pub fn put_ends(text: &mut String) -> Result<(), Fail> {
    put_rows(text, end_form(), end_rows())
}
