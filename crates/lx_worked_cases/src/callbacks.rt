//! A module's function that the kernel calls through a slot, and that calls the kernel's function, which calls it again.
//!
//! Frames of wrappers are none of the 256. In `kernel:again` the chain to depth D has a frame of `again` and one of `up`
//! for each number from 0 to D, so 127 is the last depth: 256 frames, and 255 wrappers between them. `m:up` has one frame
//! less, so at depth 128 it is `again` in frame 256 that calls the slot; `kernel:start` has one more, so 126 is its last.
//!
//! The units of `kernel:again` to depth D are its start and the last `ret` of `up`; six for each of D + 1 numbers, which are the
//! call through the slot, the copy, the comparison, the jump, the transfer behind `up`, and the `ret` of `again`; and six for
//! each of D, which are the addition, the call of `again`, the transfer before it and that behind it, the addition, and `ret`:
//! 12 D + 8 in all. But for comparisons, jumps and additions they are events, and so is the end: 8 D + 7. `m:up` lacks the call
//! through the slot and the `ret` of the first `again`, two of each. `kernel:start` has the call and a `ret` more, and of these
//! the `ret` is an event.
//!
//! A trap at depth 128 comes to `kernel:again` in the call of number 127: before it are the start, 128 times the four units up to
//! the jump, 128 additions, 127 calls and 127 transfers, so it is unit 896, and event 512. To `m:up` it comes in the call through
//! the slot of number 128, behind the start, 128 times the copy, comparison, jump, addition, call and transfer, and 127 calls
//! through the slot: unit 897, event 513. To `kernel:start` it comes at depth 127 in the call through the slot of that number,
//! behind its entry and 127 times four events: event 510.
//!
//! Each step takes a reference of its number, which the call of the kernel hands over and gets back. A call that ends in
//! the middle leaves the references where they are then: the kernel has all but the deepest, which is the last instance's
//! where the call of the kernel finds no frame, and the kernel's too where the slot finds none.

/// The chains, with the least fuel at which each comes to its end and with one unit less.
pub fn callbacks() -> &'static str {
    "---- file steps_kernel.ll
declare i64 @k.slot.step(ptr, i64, i64)
define i64 @again(ptr %s, i64 %n, i64 %d) {
  %r = call i64 @k.slot.step(ptr %s, i64 %n, i64 %d)
  ret i64 %r
}
define i64 @start(ptr %s, i64 %n, i64 %d) {
  %r = call i64 @again(ptr %s, i64 %n, i64 %d)
  ret i64 %r
}
---- file steps.txt
interface 1
reftype level
slot step : i64 (i64 n, i64 d) principal(n) pre(copy(ref(level), n)) post(transfer(ref(level), n))
field %struct.ops 0 : step
export again : i64 (ptr s, i64 n, i64 d) pre(transfer(ref(level), n - 1)) post(transfer(ref(level), n - 1))
---- file steps.ll
%struct.ops = type { ptr }
@ops = global %struct.ops { ptr @up }
declare i64 @again(ptr, i64, i64)
define i64 @up(i64 %n, i64 %d) {
  %last = icmp eq i64 %n, %d
  br i1 %last, label %end, label %more
more:
  %m = add i64 %n, 1
  %r = call i64 @again(ptr @ops, i64 %m, i64 %d)
  %s = add i64 %r, 1
  ret i64 %s
end:
  ret i64 0
}
---- as deep as frames allow, and a unit short of it: the last is the first function's `ret`
---- case
lxfi case 1
kernel file steps_kernel.ll
interface file steps.txt
module m steps.ll
thread
call kernel:again &m:ops 0 127 fuel 1532
call kernel:again &m:ops 0 127 fuel 1531
---- whole
status 1
schedule 0*2045
call 0.0 kernel:again returned 127
call 0.1 kernel:again budget
image m guards 0 checks 0 wrappers 2
owns m.shared write 0x1000000+8
owns m.shared call 0x10060
owns m.shared call 0x10080
---- one deeper the module's call of the kernel finds no frame; fuel is looked at before it
---- case
lxfi case 1
kernel file steps_kernel.ll
interface file steps.txt
module m steps.ll
thread
call kernel:again &m:ops 0 128 fuel 896
call kernel:again &m:ops 0 128 fuel 895
call kernel:again &m:ops 0 -1 fuel 100000
---- whole
status 1
schedule 0*1536
call 0.0 kernel:again trap 5
call 0.1 kernel:again budget
call 0.2 kernel:again trap 5
image m guards 0 checks 0 wrappers 2
owns m.shared write 0x1000000+8
owns m.shared call 0x10060
owns m.shared call 0x10080
owns m[0x7f] ref level 0x7f
---- behind the trap the chain begins anew
---- case
lxfi case 1
kernel file steps_kernel.ll
interface file steps.txt
module m steps.ll
thread
call kernel:again &m:ops 0 128 fuel 896
call kernel:again &m:ops 0 127 fuel 1532
---- whole
status 1
schedule 0*1535
call 0.0 kernel:again trap 5
call 0.1 kernel:again returned 127
image m guards 0 checks 0 wrappers 2
owns m.shared write 0x1000000+8
owns m.shared call 0x10060
owns m.shared call 0x10080
---- from the module on, and a unit short of it: the last is the action that hands the first reference back
---- case
lxfi case 1
kernel file steps_kernel.ll
interface file steps.txt
module m steps.ll
thread
call m:up 0 127 fuel 1530
call m:up 0 127 fuel 1529
---- whole
status 1
schedule 0*2041
call 0.0 m:up returned 127
call 0.1 m:up budget
image m guards 0 checks 0 wrappers 2
owns m.shared write 0x1000000+8
owns m.shared call 0x10060
owns m.shared call 0x10080
owns m[0x0] ref level 0x0
---- one deeper the kernel's call through the slot finds no frame
---- case
lxfi case 1
kernel file steps_kernel.ll
interface file steps.txt
module m steps.ll
thread
call m:up 0 128 fuel 897
call m:up 0 128 fuel 896
---- whole
status 1
schedule 0*1026
call 0.0 m:up trap 5
call 0.1 m:up budget
image m guards 0 checks 0 wrappers 2
owns m.shared write 0x1000000+8
owns m.shared call 0x10060
owns m.shared call 0x10080
---- behind a direct call inside the kernel, whose frame counts
---- case
lxfi case 1
kernel file steps_kernel.ll
interface file steps.txt
module m steps.ll
thread
call kernel:start &m:ops 0 126 fuel 100000
call kernel:start &m:ops 0 127 fuel 100000
---- whole
status 1
schedule 0*1526
call 0.0 kernel:start returned 126
call 0.1 kernel:start trap 5
image m guards 0 checks 0 wrappers 2
owns m.shared write 0x1000000+8
owns m.shared call 0x10060
owns m.shared call 0x10080
---- two threads with all their frames at once
---- case
lxfi case 1
kernel file steps_kernel.ll
interface file steps.txt
module m steps.ll
thread
call kernel:again &m:ops 0 127 fuel 1532
thread
call kernel:again &m:ops 1000 1127 fuel 1532
---- schedule
0*511 1*511 0*512 1*512
---- whole
status 0
schedule 0*511 1*511 0*512 1*512
call 0.0 kernel:again returned 127
call 1.0 kernel:again returned 127
image m guards 0 checks 0 wrappers 2
owns m.shared write 0x1000000+8
owns m.shared call 0x10060
owns m.shared call 0x10080
---- a trap of one thread while the other is at its last frame
---- case
lxfi case 1
kernel file steps_kernel.ll
interface file steps.txt
module m steps.ll
thread
call kernel:again &m:ops 0 127 fuel 1532
thread
call kernel:again &m:ops 1000 1128 fuel 896
---- schedule
0*511 1*512 0*512
---- whole
status 1
schedule 0*511 1*512 0*512
call 0.0 kernel:again returned 127
call 1.0 kernel:again trap 5
image m guards 0 checks 0 wrappers 2
owns m.shared write 0x1000000+8
owns m.shared call 0x10060
owns m.shared call 0x10080
owns m[0x467] ref level 0x467
"
}
