//! Loans: what is lent for the length of a call, who may use it, and what ends it.
//!
//! What is wanted was worked out from the rules by hand; above each case stands why. The kernel's buffer lies at 0x1000000; the
//! instances have the names 1 and 2.

/// The kernel, the module and the interface of the table.
pub fn loan_files() -> &'static str {
    r#"---- file kernel.ll
@buf = global [64 x i8] zeroinitializer
@kind = global i64 0
@slot = global ptr null
@what = global ptr null
@whom = global ptr null
declare i64 @k.slot.plain(ptr, ptr, ptr)
declare i64 @k.slot.lent(ptr, ptr, ptr)
declare i64 @k.slot.given(ptr, ptr, ptr)
declare i64 @k.slot.both(ptr, ptr, ptr)
declare i64 @k.slot.maybe(ptr, ptr, ptr)
declare i64 @k.slot.nothing(ptr, ptr, ptr)
declare i64 @k.slot.common(ptr, ptr, ptr)
declare i64 @k.slot.whole(ptr, ptr, ptr)
declare void @k.zero(ptr, i64)
define void @plan(i64 %k, ptr %s, ptr %p, ptr %d) {
store i64 %k, ptr @kind
store ptr %s, ptr @slot
store ptr %p, ptr @what
store ptr %d, ptr @whom
ret void
}
define i64 @by(i64 %k, ptr %s, ptr %p, ptr %d) {
switch i64 %k, label %plain [ i64 1, label %lent i64 2, label %given i64 3, label %both i64 4, label %maybe i64 5, label %nothing i64 6, label %common i64 7, label %whole ]
plain:
%a = call i64 @k.slot.plain(ptr %s, ptr %p, ptr %d)
ret i64 %a
lent:
%b = call i64 @k.slot.lent(ptr %s, ptr %p, ptr %d)
ret i64 %b
given:
%c = call i64 @k.slot.given(ptr %s, ptr %p, ptr %d)
ret i64 %c
both:
%e = call i64 @k.slot.both(ptr %s, ptr %p, ptr %d)
ret i64 %e
maybe:
%f = call i64 @k.slot.maybe(ptr %s, ptr %p, ptr %d)
ret i64 %f
nothing:
%g = call i64 @k.slot.nothing(ptr %s, ptr %p, ptr %d)
ret i64 %g
common:
%h = call i64 @k.slot.common(ptr %s, ptr %p, ptr %d)
ret i64 %h
whole:
%i = call i64 @k.slot.whole(ptr %s, ptr %p, ptr %d)
ret i64 %i
}
define i64 @nested() {
%k = load i64, ptr @kind
%s = load ptr, ptr @slot
%p = load ptr, ptr @what
%d = load ptr, ptr @whom
%r = call i64 @by(i64 %k, ptr %s, ptr %p, ptr %d)
ret i64 %r
}
define i64 @twice(i64 %k, ptr %s, ptr %p, ptr %d) {
%a = call i64 @by(i64 %k, ptr %s, ptr %p, ptr %d)
%b = call i64 @nested()
ret i64 %b
}
define void @set(ptr %p, i64 %v) {
store i64 %v, ptr %p
ret void
}
define void @lends(ptr %p) {
ret void
}
define void @copies(ptr %p) {
ret void
}
define void @takes(ptr %p) {
ret void
}
define void @checks(ptr %p) {
ret void
}
define void @wide_lends(ptr %p) {
ret void
}
define void @wide_checks(ptr %p) {
ret void
}
define void @none_lends(ptr %p) {
ret void
}
define void @runs(ptr %p) {
ret void
}
define void @shows(ptr %p) {
ret void
}
define void @passes(ptr %p) {
ret void
}
define i64 @idle(i64 %x) {
%y = add i64 %x, 1
ret i64 %y
}
define void @wipe(ptr %p) {
call void @k.zero(ptr %p, i64 8)
ret void
}
---- file module.ll
%struct.plain = type { ptr }
%struct.both = type { ptr }
%struct.lent = type { ptr }
%struct.given = type { ptr }
%struct.maybe = type { ptr }
%struct.nothing = type { ptr }
%struct.some = type { ptr }
%struct.far = type { ptr }
%struct.common = type { ptr }
%struct.whole = type { ptr }
%struct.shares = type { ptr }
%struct.calls = type { ptr }
%struct.refers = type { ptr }
%struct.back = type { ptr }
%struct.seen = type { ptr }
@own = global i64 0
@plain_put_slot = global %struct.plain { ptr @plain_put }
@both_put_slot = global %struct.both { ptr @both_put }
@lent_put_slot = global %struct.lent { ptr @lent_put }
@lent_over_slot = global %struct.lent { ptr @lent_over }
@lent_trap_slot = global %struct.lent { ptr @lent_trap }
@lent_lends_slot = global %struct.lent { ptr @lent_lends }
@lent_copies_slot = global %struct.lent { ptr @lent_copies }
@lent_takes_slot = global %struct.lent { ptr @lent_takes }
@lent_checks_slot = global %struct.lent { ptr @lent_checks }
@lent_wide_slot = global %struct.lent { ptr @lent_wide }
@lent_own_slot = global %struct.lent { ptr @lent_own }
@lent_point_slot = global %struct.lent { ptr @lent_point }
@given_put_slot = global %struct.given { ptr @given_put }
@maybe_put_slot = global %struct.maybe { ptr @maybe_put }
@maybe_idle_slot = global %struct.maybe { ptr @maybe_idle }
@nothing_idle_slot = global %struct.nothing { ptr @nothing_idle }
@some_put_slot = global %struct.some { ptr @some_put }
@far_put_slot = global %struct.far { ptr @far_put }
@common_put_slot = global %struct.common { ptr @common_put }
@whole_put_slot = global %struct.whole { ptr @whole_put }
@shares_over_slot = global %struct.shares { ptr @shares_over }
@calls_run_slot = global %struct.calls { ptr @calls_run }
@calls_on_slot = global %struct.calls { ptr @calls_on }
@plain_run_slot = global %struct.plain { ptr @plain_run }
@refers_show_slot = global %struct.refers { ptr @refers_show }
@refers_pass_slot = global %struct.refers { ptr @refers_pass }
@plain_show_slot = global %struct.plain { ptr @plain_show }
@back_put_slot = global %struct.back { ptr @back_put }
@seen_put_slot = global %struct.seen { ptr @seen_put }
declare i64 @nested()
declare void @lends(ptr)
declare void @copies(ptr)
declare void @takes(ptr)
declare void @checks(ptr)
declare void @wide_lends(ptr)
declare void @wide_checks(ptr)
declare void @none_lends(ptr)
declare void @runs(ptr)
declare void @shows(ptr)
declare void @passes(ptr)
define i64 @plain_put(ptr %p, ptr %d) {
store i64 5, ptr %p
ret i64 0
}
define i64 @both_put(ptr %p, ptr %d) {
store i64 5, ptr %p
%q = getelementptr i8, ptr %p, i64 8
store i64 6, ptr %q
ret i64 0
}
define i64 @lent_put(ptr %p, ptr %d) {
store i64 5, ptr %p
ret i64 0
}
define i64 @lent_over(ptr %p, ptr %d) {
%r = call i64 @nested()
store i64 5, ptr %p
ret i64 %r
}
define i64 @lent_trap(ptr %p, ptr %d) {
%z = udiv i64 1, 0
ret i64 %z
}
define i64 @lent_lends(ptr %p, ptr %d) {
call void @lends(ptr %p)
ret i64 0
}
define i64 @lent_copies(ptr %p, ptr %d) {
call void @copies(ptr %p)
ret i64 0
}
define i64 @lent_takes(ptr %p, ptr %d) {
call void @takes(ptr %p)
ret i64 0
}
define i64 @lent_checks(ptr %p, ptr %d) {
call void @checks(ptr %p)
ret i64 0
}
define i64 @lent_wide(ptr %p, ptr %d) {
call void @wide_checks(ptr %p)
call void @wide_lends(ptr %p)
ret i64 0
}
define i64 @lent_own(ptr %p, ptr %d) {
call void @lends(ptr @own)
store i64 5, ptr %p
store i64 6, ptr @own
ret i64 0
}
define i64 @lent_point(ptr %p, ptr %d) {
store ptr inttoptr (i64 65648 to ptr), ptr %p
ret i64 0
}
define i64 @given_put(ptr %p, ptr %d) {
store i64 5, ptr %p
ret i64 0
}
define i64 @maybe_put(ptr %p, ptr %d) {
store i64 5, ptr %p
ret i64 0
}
define i64 @maybe_idle(ptr %p, ptr %d) {
ret i64 0
}
define i64 @nothing_idle(ptr %p, ptr %d) {
ret i64 0
}
define i64 @some_put(ptr %p, ptr %d) {
store i64 5, ptr %p
%h = getelementptr i8, ptr %p, i64 8
%q = load ptr, ptr %h
store i64 6, ptr %q
ret i64 0
}
define i64 @far_put(ptr %p, ptr %d) {
ret i64 0
}
define i64 @common_put(ptr %p, ptr %d) {
store i64 5, ptr %p
ret i64 0
}
define i64 @whole_put(ptr %p, ptr %d) {
store i64 5, ptr %p
ret i64 0
}
define i64 @shares_over(ptr %p, ptr %d) {
%r = call i64 @nested()
store i64 5, ptr %p
ret i64 %r
}
define i64 @calls_run(ptr %p, ptr %d) {
%r = call i64 %p(i64 3)
ret i64 %r
}
define i64 @calls_on(ptr %p, ptr %d) {
call void @runs(ptr %p)
ret i64 0
}
define i64 @plain_run(ptr %p, ptr %d) {
%r = call i64 %p(i64 3)
ret i64 %r
}
define i64 @refers_show(ptr %p, ptr %d) {
call void @shows(ptr %p)
ret i64 0
}
define i64 @refers_pass(ptr %p, ptr %d) {
call void @passes(ptr %p)
ret i64 0
}
define i64 @plain_show(ptr %p, ptr %d) {
call void @shows(ptr %p)
ret i64 0
}
define i64 @back_put(ptr %p, ptr %d) {
store i64 5, ptr %p
ret i64 0
}
define i64 @seen_put(ptr %p, ptr %d) {
store i64 5, ptr %p
ret i64 0
}
define void @own_lends() {
call void @lends(ptr @own)
store i64 7, ptr @own
ret void
}
define void @stack_lends() {
%a = alloca i64
call void @lends(ptr %a)
store i64 7, ptr %a
ret void
}
define void @stack_takes() {
%a = alloca i64
call void @takes(ptr %a)
ret void
}
define void @wild_lends(ptr %p) {
call void @lends(ptr %p)
ret void
}
define void @wild_none(ptr %p) {
call void @none_lends(ptr %p)
ret void
}
---- file loans.txt
interface 2
reftype thing
iterator none(p) { if (0) write p, 8; if (0) call p }
iterator some(p) { write p, 8; write load64(p + 8), 8 }
slot plain : i64 (ptr p, ptr d) principal(d)
slot lent : i64 (ptr p, ptr d) principal(d) pre(lend(write, p, 8))
slot given : i64 (ptr p, ptr d) principal(d) pre(transfer(write, p, 8))
slot both : i64 (ptr p, ptr d) principal(d) pre(lend(write, p, 8)) pre(lend(write, p + 8, 8))
slot maybe : i64 (ptr p, ptr d) principal(d) pre(if (load64(p)) lend(write, p, 8))
slot nothing : i64 (ptr p, ptr d) principal(d) pre(lend(none(p)))
slot some : i64 (ptr p, ptr d) principal(d) pre(lend(some(p)))
slot far : i64 (ptr p, ptr d) principal(d) pre(lend(write, load64(p), 8))
slot common : i64 (ptr p, ptr d) principal(shared)
slot whole : i64 (ptr p, ptr d) principal(global)
slot shares : i64 (ptr p, ptr d) principal(shared) pre(lend(write, p, 8))
slot calls : i64 (ptr p, ptr d) principal(d) pre(lend(call, p))
slot refers : i64 (ptr p, ptr d) principal(d) pre(lend(ref(thing), p))
slot back : i64 (ptr p, ptr d) principal(d) pre(lend(write, p, 8)) post(transfer(write, p, 8))
slot seen : i64 (ptr p, ptr d) principal(d) pre(lend(write, p, 8)) post(check(write, p, 8))
field %struct.plain 0 : plain
field %struct.both 0 : both
field %struct.lent 0 : lent
field %struct.given 0 : given
field %struct.maybe 0 : maybe
field %struct.nothing 0 : nothing
field %struct.some 0 : some
field %struct.far 0 : far
field %struct.common 0 : common
field %struct.whole 0 : whole
field %struct.shares 0 : shares
field %struct.calls 0 : calls
field %struct.refers 0 : refers
field %struct.back 0 : back
field %struct.seen 0 : seen
export nested : i64 ()
export lends : void (ptr p) pre(lend(write, p, 8))
export copies : void (ptr p) pre(copy(write, p, 8))
export takes : void (ptr p) pre(transfer(write, p, 8))
export checks : void (ptr p) pre(check(write, p, 8))
export wide_lends : void (ptr p) pre(lend(write, p, 16))
export wide_checks : void (ptr p) pre(check(write, p, 16))
export none_lends : void (ptr p) pre(lend(write, p, 0))
export runs : void (ptr f) pre(lend(call, f))
export shows : void (ptr r) pre(check(ref(thing), r))
export passes : void (ptr r) pre(copy(ref(thing), r))
export idle : i64 (i64 x)"#
}

/// A packet that is lent to the driver: the driver keeps its address, or hands the packet on.
pub fn packet_cases() -> &'static str {
    r#"---- file packets.txt
interface 2
reftype device
iterator skb_caps(p) { write p, 24; write load64(p), load64(p + 8) }
slot probe : i32 (ptr dev) principal(dev) pre(copy(ref(device), dev)) post(if (return < 0) transfer(ref(device), dev))
slot xmit : i32 (ptr skb, ptr dev) principal(dev) pre(lend(skb_caps(skb)))
field %struct.dev_ops 0 : probe
field %struct.dev_ops 1 : xmit
export kmalloc : ptr (i64 n) post(if (return != 0) transfer(write, return, n))
export kzalloc : ptr (i64 n) post(if (return != 0) transfer(write, return, n))
export kfree : void (ptr p) pre(if (p != 0) transfer(write, p, load64(p - 16)))
export dev_register : ptr (ptr ops)
export dev_set_priv : void (ptr dev, ptr v) pre(check(ref(device), dev))
export dev_zero : void (ptr p, i64 n) pre(check(write, p, n))
export dev_wipe : void (ptr p, i64 n) pre(transfer(write, p, n)) post(transfer(write, p, n))
export skb_new : ptr (i64 n) post(if (return != 0) transfer(write, return, 24)) post(if (return != 0) transfer(write, load64(return), n))
export netif_rx : i32 (ptr skb) pre(transfer(skb_caps(skb)))
export hook_get : ptr () post(copy(call, return))
export hook_fn : i64 (i64 x)
---- file lend.ll
%struct.dev_ops = type { ptr, ptr }
@ops = global %struct.dev_ops { ptr @probe, ptr @xmit }
@keep = global ptr null
declare ptr @dev_register(ptr)
define void @init() {
  %d = call ptr @dev_register(ptr @ops)
  ret void
}
define i32 @probe(ptr %d) {
%b = load ptr, ptr @keep
store i64 6, ptr %b
ret i32 0
}
define i32 @xmit(ptr %s, ptr %d) {
%b = load ptr, ptr %s
store i64 5, ptr %b
store ptr %b, ptr @keep
ret i32 0
}
---- file sent.ll
%struct.dev_ops = type { ptr, ptr }
@ops = global %struct.dev_ops { ptr @probe, ptr @xmit }
@keep = global ptr null
declare ptr @dev_register(ptr)
declare i32 @netif_rx(ptr)
define void @init() {
  %d = call ptr @dev_register(ptr @ops)
  ret void
}
define i32 @probe(ptr %d) {
%b = load ptr, ptr @keep
store i64 6, ptr %b
ret i32 0
}
define i32 @xmit(ptr %s, ptr %d) {
%r = call i32 @netif_rx(ptr %s)
ret i32 %r
}
---- a packet that is lent, of which the driver keeps the address
---- file row.case
lxfi case 1
kernel builtin
interface file packets.txt
module m lend.ll
thread
call m:init fuel 100
call kernel:skb_new 8 fuel 100
call kernel:do_xmit 0 0x2000010 fuel 100
call kernel:do_probe 0 fuel 100
---- whole
status 1
schedule 0*39
call 0.0 m:init returned
call 0.1 kernel:skb_new returned 0x2000010
call 0.2 kernel:do_xmit returned 0
call 0.3 kernel:do_probe refused 1 m[0x1000020] write 0x2000040+8
image m guards 3 checks 0 wrappers 3
owns m.shared write 0x10000e0+24
owns m.shared call 0x10090
owns m.shared call 0x10130
owns m.shared call 0x10140
owns m.shared call 0x10150
owns m[0x1000020] ref device 0x1000020
---- a packet that is lent, which the driver hands on
---- file row.case
lxfi case 1
kernel builtin
interface file packets.txt
module m sent.ll
thread
call m:init fuel 100
call kernel:skb_new 8 fuel 100
call kernel:do_xmit 0 0x2000010 fuel 100
call kernel:do_probe 0 fuel 100
---- lines
status 1
call 0.2 kernel:do_xmit refused 10 m[0x1000020] write 0x2000010+24
call 0.3 kernel:do_probe refused 1 m[0x1000020] write 0x0+8"#
}

/// What ends a loan: fuel, traps and refusals.
pub fn end_cases() -> &'static str {
    r#"---- enter, lend, store, return, end and finish are six events; the start, the lend, the store, `ret` and the end are five units
---- calls
thread
call m:lent_put &kernel:buf 1 fuel 5
---- lines
status 0
schedule 0*6
call 0.0 m:lent_put returned 0
---- the end of loans costs a unit; want of it ends the call, and that ends the loan
---- calls
thread
call m:lent_put &kernel:buf 1 fuel 4
call m:plain_put &kernel:buf 1 fuel 100
---- lines
status 1
schedule 0*7
call 0.0 m:lent_put budget
call 0.1 m:plain_put refused 1 m[0x1] write 0x1000000+8
---- no fuel for the lend; and fuel for it, but for nothing behind it: the loan ends all the same
---- calls
thread
call m:lent_put &kernel:buf 1 fuel 1
call m:lent_put &kernel:buf 1 fuel 2
call m:plain_put &kernel:buf 1 fuel 100
---- lines
status 1
schedule 0*7
call 0.0 m:lent_put budget
call 0.1 m:lent_put budget
call 0.2 m:plain_put refused 1 m[0x1] write 0x1000000+8
---- a trap ends the loan
---- calls
thread
call m:lent_trap &kernel:buf 1 fuel 100
call m:plain_put &kernel:buf 1 fuel 100
---- lines
status 1
schedule 0*5
call 0.0 m:lent_trap trap 2
call 0.1 m:plain_put refused 1 m[0x1] write 0x1000000+8
---- a refusal in the callee's callee, at another range, ends the loan of the caller
---- calls
thread
call kernel:plan 0 &m:plain_put_slot 0x1000020 1 fuel 100
call m:lent_over &kernel:buf 1 fuel 100
call m:plain_put &kernel:buf 1 fuel 100
---- lines
status 1
schedule 0*18
call 0.0 kernel:plan returned
call 0.1 m:lent_over refused 1 m[0x1] write 0x1000020+8
call 0.2 m:plain_put refused 1 m[0x1] write 0x1000000+8
---- want of fuel in the callee's callee: the outer start, lend and two calls, four loads, three calls and their switch, the inner lend, and no unit for its store
---- calls
thread
call kernel:plan 1 &m:lent_put_slot &kernel:buf 2 fuel 100
call m:lent_over &kernel:buf 1 fuel 11
call m:plain_put &kernel:buf 1 fuel 100
call m:plain_put &kernel:buf 2 fuel 100
---- lines
status 1
call 0.1 m:lent_over budget
call 0.2 m:plain_put refused 1 m[0x1] write 0x1000000+8
call 0.3 m:plain_put refused 1 m[0x2] write 0x1000000+8"#
}

/// Loans of nested calls, and how many of them an end ends.
pub fn nested_cases() -> &'static str {
    r#"---- nested calls lend the same bytes to one borrower: the inner end leaves the outer loan
---- calls
thread
call kernel:plan 1 &m:lent_put_slot &kernel:buf 1 fuel 100
call m:lent_over &kernel:buf 1 fuel 100
---- lines
status 0
schedule 0*25
call 0.1 m:lent_over returned 0
---- nested calls lend the same bytes to two borrowers
---- calls
thread
call kernel:plan 1 &m:lent_put_slot &kernel:buf 2 fuel 100
call m:lent_over &kernel:buf 1 fuel 100
call m:plain_put &kernel:buf 2 fuel 100
call m:plain_put &kernel:buf 1 fuel 100
---- lines
status 1
schedule 0*29
call 0.1 m:lent_over returned 0
call 0.2 m:plain_put refused 1 m[0x2] write 0x1000000+8
call 0.3 m:plain_put refused 1 m[0x1] write 0x1000000+8
---- a loan is over behind the call that it was for, within one call of the script
---- calls
thread
call kernel:plan 0 &m:plain_put_slot &kernel:buf 2 fuel 100
call kernel:twice 1 &m:lent_put_slot &kernel:buf 2 fuel 100
---- lines
status 1
call 0.1 kernel:twice refused 1 m[0x2] write 0x1000000+8
---- two lends of one call: both are over behind it, the newer
---- calls
thread
call kernel:plan 0 &m:plain_put_slot 0x1000008 1 fuel 100
call kernel:twice 3 &m:both_put_slot &kernel:buf 1 fuel 100
---- lines
status 1
call 0.1 kernel:twice refused 1 m[0x1] write 0x1000008+8
---- and the older
---- calls
thread
call kernel:plan 0 &m:plain_put_slot &kernel:buf 1 fuel 100
call kernel:twice 3 &m:both_put_slot &kernel:buf 1 fuel 100
---- lines
status 1
call 0.1 kernel:twice refused 1 m[0x1] write 0x1000000+8
---- a lend behind a false condition opens a loan of nothing, which is the one that its end ends
---- calls
thread
call kernel:plan 4 &m:maybe_idle_slot 0x1000020 1 fuel 100
call m:lent_over &kernel:buf 1 fuel 100
---- lines
status 0
call 0.1 m:lent_over returned 0
---- it lends nothing; where the condition holds it lends
---- calls
thread
call m:maybe_put 0x1000020 1 fuel 100
call kernel:set 0x1000020 7 fuel 100
call m:maybe_put 0x1000020 1 fuel 100
call m:plain_put 0x1000020 1 fuel 100
---- lines
status 1
call 0.0 m:maybe_put refused 1 m[0x1] write 0x1000020+8
call 0.2 m:maybe_put returned 0
call 0.3 m:plain_put refused 1 m[0x1] write 0x1000020+8
---- a list of which every item is left out opens a loan of nothing too
---- calls
thread
call kernel:plan 5 &m:nothing_idle_slot &kernel:buf 1 fuel 100
call m:lent_over &kernel:buf 1 fuel 100
---- lines
status 0
call 0.1 m:lent_over returned 0
---- a list of two ranges is one loan
---- calls
thread
call kernel:set 0x1000008 0x1000020 fuel 100
call m:some_put &kernel:buf 1 fuel 100
call m:plain_put &kernel:buf 1 fuel 100
call m:plain_put 0x1000020 1 fuel 100
---- lines
status 1
call 0.1 m:some_put returned 0
call 0.2 m:plain_put refused 1 m[0x1] write 0x1000000+8
call 0.3 m:plain_put refused 1 m[0x1] write 0x1000020+8"#
}
