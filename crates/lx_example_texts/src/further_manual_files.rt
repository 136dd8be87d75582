//! Files of `examples/manual/`.
//! Written by `tools/example-texts` from them.

/// Files of `examples/manual/` that runs and traces read, each behind its name.
pub fn further_manual_files_table() -> &'static str {
    r#"---- file examples/manual/lend.ll
%struct.dev_ops = type { ptr, ptr }
@ops = global %struct.dev_ops { ptr @probe, ptr @xmit }
@keep = global ptr null
declare ptr @dev_register(ptr)
define void @init() {
  %d = call ptr @dev_register(ptr @ops)
  ret void
}
define i32 @probe(ptr %d) {
  %b = load ptr, ptr @keep
  store i64 6, ptr %b
  ret i32 0
}
define i32 @xmit(ptr %s, ptr %d) {
  %b = load ptr, ptr %s
  store i64 5, ptr %b
  store ptr %b, ptr @keep
  ret i32 0
}
---- file examples/manual/lend_on.case
lxfi case 1
kernel builtin
interface file examples/manual/lend.txt
module m examples/manual/lend_on.ll
thread
call m:init fuel 100
call kernel:skb_new 8 fuel 100
call kernel:do_xmit 0 0x2000010 fuel 100
---- file examples/manual/lend_on.ll
%struct.dev_ops = type { ptr, ptr }
@ops = global %struct.dev_ops { ptr @probe, ptr @xmit }
declare ptr @dev_register(ptr)
declare i32 @netif_rx(ptr)
define void @init() {
  %d = call ptr @dev_register(ptr @ops)
  ret void
}
define i32 @probe(ptr %d) {
  ret i32 0
}
define i32 @xmit(ptr %s, ptr %d) {
  %r = call i32 @netif_rx(ptr %s)
  ret i32 %r
}
---- file examples/manual/start.case
lxfi case 1
kernel file examples/manual/start_kernel.ll
interface file examples/manual/timer.txt
module t examples/manual/timer.ll
thread
call t:start fuel 100
call kernel:open fuel 10
thread
call kernel:wait fuel 100000
call kernel:do_tick 7 fuel 100
call t:read_last fuel 100
---- file examples/manual/start.schedule
schedule 1*4 0*12 1*16
---- file examples/manual/start_kernel.ll
@timer = global ptr null
@shut = global i32 1
declare void @k.slot.tick(ptr, i64)
define void @timer_set(ptr %fn) {
  store ptr %fn, ptr @timer
  ret void
}
define void @do_tick(i64 %now) {
  call void @k.slot.tick(ptr @timer, i64 %now)
  ret void
}
define void @open() {
  store i32 0, ptr @shut
  ret void
}
define void @wait() {
  br label %look
look:
  %shut = load i32, ptr @shut
  %again = icmp ne i32 %shut, 0
  br i1 %again, label %look, label %on
on:
  ret void
}
---- file examples/manual/start_early.case
lxfi case 1
kernel file examples/manual/start_kernel.ll
interface file examples/manual/timer.txt
module t examples/manual/timer.ll
thread
call t:start fuel 100
thread
call kernel:do_tick 7 fuel 100
call t:read_last fuel 100
---- file examples/manual/start_early.schedule
schedule 1*6 0*8
---- file examples/manual/held.case
lxfi case 1
kernel file examples/manual/held_kernel.ll
interface file examples/manual/timer.txt
module m examples/manual/held.ll
thread
call m:start fuel 100
call kernel:locked_tick 7 fuel 100
call kernel:locked_tick 8 fuel 100
call kernel:counted_tick 9 fuel 100
call kernel:count fuel 10
call kernel:mend fuel 10
call kernel:careful_tick 10 fuel 100
call kernel:careful_tick 11 fuel 100
---- file examples/manual/held_kernel.ll
@timer = global ptr null
@lock = global i32 0
@inside = global i64 0
@asked = global i64 0
declare i32 @k.try_lock(ptr)
declare void @k.slot.tick(ptr, i64)
define void @timer_set(ptr %fn) {
  store ptr %fn, ptr @timer
  ret void
}
define i32 @locked_tick(i64 %now) {
  %got = call i32 @k.try_lock(ptr @lock)
  %free = icmp ne i32 %got, 0
  br i1 %free, label %go, label %busy
go:
  call void @k.slot.tick(ptr @timer, i64 %now)
  store i32 0, ptr @lock
  ret i32 0
busy:
  ret i32 -16
}
define void @counted_tick(i64 %now) {
  %before = load i64, ptr @inside
  %more = add i64 %before, 1
  store i64 %more, ptr @inside
  call void @k.slot.tick(ptr @timer, i64 %now)
  store i64 %before, ptr @inside
  ret void
}
define i32 @careful_tick(i64 %now) {
  %got = call i32 @k.try_lock(ptr @lock)
  %free = icmp ne i32 %got, 0
  br i1 %free, label %go, label %busy
go:
  store i64 %now, ptr @asked
  store i32 0, ptr @lock
  call void @k.slot.tick(ptr @timer, i64 %now)
  ret i32 0
busy:
  ret i32 -16
}
define i64 @count() {
  %v = load i64, ptr @inside
  ret i64 %v
}
define void @mend() {
  store i32 0, ptr @lock
  store i64 0, ptr @inside
  ret void
}
---- file examples/manual/held.ll
%struct.timer = type { ptr }
@table = global %struct.timer { ptr @on_tick }
@last = global i32 0
declare void @timer_set(ptr)
define void @start() {
  %fn = load ptr, ptr @table
  call void @timer_set(ptr %fn)
  ret void
}
define void @on_tick(i64 %now) {
  store i64 %now, ptr @last
  ret void
}
---- file examples/manual/uncaught.case
lxfi case 1
kernel file examples/manual/uncaught_kernel.ll
interface file examples/manual/uncaught.txt
module m examples/manual/uncaught.ll
thread
call m:inside fuel 100
call m:neighbour fuel 100
call m:look fuel 100
call m:through fuel 100
---- file examples/manual/uncaught_kernel.ll
@secret = global i64 42
declare ptr @k.alloc(i64)
define ptr @get(i64 %n) {
  %p = call ptr @k.alloc(i64 %n)
  ret ptr %p
}
define void @fill(ptr %p, i64 %v) {
  store i64 %v, ptr %p
  ret void
}
---- file examples/manual/uncaught.txt
interface 1
export get : ptr (i64 n) post(if (return != 0) transfer(write, return, n))
export fill : void (ptr p, i64 v)
---- file examples/manual/uncaught.ll
%struct.record = type { [8 x i8], i64 }
@record = global %struct.record zeroinitializer
declare ptr @get(i64)
declare void @fill(ptr, i64)
define i64 @inside() {
  %ninth = getelementptr %struct.record, ptr @record, i64 0, i32 0, i64 8
  store i8 9, ptr %ninth
  %size = getelementptr %struct.record, ptr @record, i64 0, i32 1
  %v = load i64, ptr %size
  ret i64 %v
}
define i64 @neighbour() {
  %a = call ptr @get(i64 16)
  %b = call ptr @get(i64 16)
  %behind = getelementptr i8, ptr %a, i64 16
  store i64 5, ptr %behind
  %v = load i64, ptr %b
  ret i64 %v
}
define i64 @look() {
  %v = load i64, ptr inttoptr (i64 16777216 to ptr)
  ret i64 %v
}
define i64 @through() {
  call void @fill(ptr inttoptr (i64 16777216 to ptr), i64 7)
  %v = load i64, ptr inttoptr (i64 16777216 to ptr)
  ret i64 %v
}
---- file examples/manual/caught.case
lxfi case 1
kernel file examples/manual/uncaught_kernel.ll
interface file examples/manual/caught.txt
module m examples/manual/uncaught.ll
thread
call m:inside fuel 100
call m:neighbour fuel 100
call m:look fuel 100
call m:through fuel 100
---- file examples/manual/caught.txt
interface 1
export get : ptr (i64 n) post(if (return != 0) transfer(write, return, n))
export fill : void (ptr p, i64 v) pre(check(write, p, 8))
---- file examples/manual/misspelt.case
lxfi case 1
kernel file examples/manual/timer_kernel.ll
interface file examples/manual/misspelt.txt
module t examples/manual/timer.ll
thread
call t:start fuel 100
call kernel:do_tick 7 fuel 100
---- file examples/manual/misspelt.txt
interface 1
slot tick : void (i64 now)
field %struct.timers 0 : tick
export timer_set : void (ptr fn) pre(check(call, fn))
---- file examples/manual/seven.case
lxfi case 1
kernel none
interface none
module m examples/manual/seven.ll
thread
call m:main fuel 100
---- file examples/manual/seven.ll
@g = global [7 x i8] zeroinitializer
define void @main() {
  store i64 7, ptr @g
  ret void
}
---- file examples/manual/seven.schedule
schedule 0*2
---- file examples/manual/bad_bend.case
lxfi case 1
kernel builtin
interface builtin
module m examples/manual/bad.ll
thread
call m:init fuel 100
call m:bend fuel 100
call kernel:do_probe 0 fuel 100
---- file examples/manual/bad_bend.schedule
schedule 0*18
---- file examples/manual/bad.ll
%struct.dev_ops = type { ptr, ptr }
@ops = global %struct.dev_ops { ptr @probe, ptr @xmit }
declare ptr @dev_register(ptr)
declare void @dev_zero(ptr, i64)
define void @init() {
  %d = call ptr @dev_register(ptr @ops)
  ret void
}
define void @bend() {
  store ptr inttoptr (i64 65792 to ptr), ptr @ops
  ret void
}
define void @swap() {
  %s = getelementptr %struct.dev_ops, ptr @ops, i64 0, i32 1
  %f = load ptr, ptr %s
  store ptr %f, ptr @ops
  ret void
}
define void @again() {
  call void @dev_zero(ptr @ops, i64 16)
  store ptr inttoptr (i64 65792 to ptr), ptr @ops
  ret void
}
define i32 @probe(ptr %d) {
  ret i32 0
}
define i32 @xmit(ptr %s, ptr %d) {
  ret i32 0
}
define void @cold() {
  %d = call ptr @dev_register(ptr inttoptr (i64 33554432 to ptr))
  ret void
}
---- file examples/manual/items.case
lxfi case 1
kernel file examples/manual/items_kernel.ll
interface file examples/manual/items.txt
module m examples/manual/items.ll
thread
call m:second fuel 100
call m:nothing fuel 100
call m:turned fuel 100
---- file examples/manual/items_kernel.ll
define void @look(ptr %p) {
  ret void
}
define void @give(ptr %p, i64 %n) {
  ret void
}
define void @turn(ptr %p) {
  ret void
}
---- file examples/manual/items.txt
interface 1
iterator three(p) { write p, 8; write p + 8, 8; write p, 4 }
export look : void (ptr p) pre(check(three(p)))
export give : void (ptr p, i64 n) pre(copy(write, p, n)) post(copy(write, p, n))
export turn : void (ptr p) pre(transfer(write, p, 4)) post(transfer(write, p, 4))
---- file examples/manual/items.ll
@g = global i64 0
declare void @look(ptr)
declare void @give(ptr, i64)
declare void @turn(ptr)
define void @second() {
  call void @look(ptr @g)
  ret void
}
define void @nothing() {
  call void @give(ptr @g, i64 0)
  ret void
}
define void @turned() {
  call void @turn(ptr @g)
  store i64 1, ptr @g
  ret void
}
---- file examples/manual/items.schedule
schedule 0*18
---- file examples/manual/lent.case
lxfi case 1
kernel file examples/manual/lent_kernel.ll
interface file examples/manual/lent.txt
module m examples/manual/lent.ll
thread
call m:use 0x2000000 fuel 100
call m:give 0x2000000 fuel 100
call m:late 0x2000000 fuel 100
---- file examples/manual/lent_kernel.ll
define void @pass(ptr %p) {
  ret void
}
---- file examples/manual/lent.txt
interface 2
slot borrow : void (ptr p) pre(lend(write, p, 8))
field %struct.ops 0 : borrow
field %struct.ops 1 : borrow
export pass : void (ptr p) pre(copy(write, p, 8))
---- file examples/manual/lent.ll
%struct.ops = type { ptr, ptr }
@ops = global %struct.ops { ptr @use, ptr @give }
declare void @pass(ptr)
define void @use(ptr %p) {
  store i64 1, ptr %p
  ret void
}
define void @give(ptr %p) {
  call void @pass(ptr %p)
  ret void
}
define void @late(ptr %p) {
  store i64 2, ptr %p
  ret void
}
---- file examples/manual/lent.schedule
schedule 0*12
---- file examples/manual/writers.case
lxfi case 1
kernel file examples/manual/writers_kernel.ll
interface file examples/manual/writers.txt
module m examples/manual/writers.ll
module n examples/manual/writers.ll
thread
call m:take 0x2000000 &kernel:stop fuel 100
call n:take 0x2000000 &kernel:stop fuel 100
call kernel:go 0x2000000 fuel 100
call n:take 0x2000000 &n:own fuel 100
call kernel:go 0x2000000 fuel 100
---- file examples/manual/writers_kernel.ll
declare void @k.slot.act(ptr)
define void @open(ptr %s) {
  ret void
}
define void @go(ptr %s) {
  call void @k.slot.act(ptr %s)
  ret void
}
define void @stop() {
  ret void
}
---- file examples/manual/writers.txt
interface 1
slot act : void ()
export open : void (ptr s) post(copy(write, s, 8))
export stop : void ()
---- file examples/manual/writers.ll
declare void @open(ptr)
declare void @stop()
define void @take(ptr %s, ptr %f) {
  call void @open(ptr %s)
  store ptr %f, ptr %s
  ret void
}
define void @own() {
  ret void
}
---- file examples/manual/writers.schedule
schedule 0*28
---- file examples/manual/further.case
lxfi case 1
kernel none
interface file examples/manual/further.txt
module m examples/manual/further.ll
thread
call m:first 1 0x2000000 fuel 100
call m:later 2 0x2000000 fuel 100
call m:later 3 0x2000000 fuel 100
---- file examples/manual/further.txt
interface 1
slot first : void (ptr d, ptr p) principal(d) pre(copy(write, p, 8))
slot later : void (ptr d, ptr p) principal(d)
field %struct.ops 0 : first
field %struct.ops 1 : later
---- file examples/manual/further.ll
%struct.ops = type { ptr, ptr }
@ops = global %struct.ops { ptr @first, ptr @later }
declare void @lxfi_princ_alias(ptr, ptr)
define void @first(ptr %d, ptr %p) {
  %e = getelementptr i8, ptr %d, i64 1
  call void @lxfi_princ_alias(ptr %d, ptr %e)
  ret void
}
define void @later(ptr %d, ptr %p) {
  store i64 1, ptr %p
  ret void
}
---- file examples/manual/further.schedule
schedule 0*11
---- file examples/manual/short.schedule
schedule 0*4
---- file examples/manual/results.case
lxfi case 1
kernel none
interface none
module m examples/manual/results.ll
thread
call m:add 100 100 fuel 99
call m:add 127 1 fuel 99
call m:sdiv -7 2 fuel 99
call m:srem -7 2 fuel 99
call m:sdiv 7 0 fuel 99
call m:udiv -7 2 fuel 99
call m:shl 1 31 fuel 99
call m:shl 1 32 fuel 99
call m:lshr -1 28 fuel 99
call m:lshr -1 32 fuel 99
call m:ashr -8 1 fuel 99
call m:ashr -8 40 fuel 99
call m:slt -1 1 fuel 99
call m:ult -1 1 fuel 99
call m:sext 200 fuel 99
call m:zext 200 fuel 99
call m:trunc 511 fuel 99
call m:ptrtoint fuel 99
call m:inttoptr -1 fuel 99
call m:undefined fuel 99
call m:fresh fuel 99
call m:lowest fuel 99
call m:overlap fuel 99
call m:member 1 fuel 99
call m:member -1 fuel 99
call m:choose 1 fuel 99
call m:choose 2 fuel 99
call m:choose 3 fuel 99
---- file examples/manual/results.ll
%struct.point = type { i8, i32 }
@bytes = global [8 x i8] c"abcdefgh"
@points = global [2 x %struct.point] [%struct.point { i8 1, i32 2 }, %struct.point { i8 3, i32 4 }]
@two = global i8 2
define i8 @add(i8 %a, i8 %b) {
  %r = add i8 %a, %b
  ret i8 %r
}
define i32 @sdiv(i32 %a, i32 %b) {
  %r = sdiv i32 %a, %b
  ret i32 %r
}
define i32 @srem(i32 %a, i32 %b) {
  %r = srem i32 %a, %b
  ret i32 %r
}
define i32 @udiv(i32 %a, i32 %b) {
  %r = udiv i32 %a, %b
  ret i32 %r
}
define i32 @shl(i32 %a, i32 %b) {
  %r = shl i32 %a, %b
  ret i32 %r
}
define i32 @lshr(i32 %a, i32 %b) {
  %r = lshr i32 %a, %b
  ret i32 %r
}
define i32 @ashr(i32 %a, i32 %b) {
  %r = ashr i32 %a, %b
  ret i32 %r
}
define i1 @slt(i8 %a, i8 %b) {
  %r = icmp slt i8 %a, %b
  ret i1 %r
}
define i1 @ult(i8 %a, i8 %b) {
  %r = icmp ult i8 %a, %b
  ret i1 %r
}
define i64 @sext(i8 %a) {
  %r = sext i8 %a to i64
  ret i64 %r
}
define i64 @zext(i8 %a) {
  %r = zext i8 %a to i64
  ret i64 %r
}
define i8 @trunc(i64 %a) {
  %r = trunc i64 %a to i8
  ret i8 %r
}
define i8 @ptrtoint() {
  %r = ptrtoint ptr @points to i8
  ret i8 %r
}
define ptr @inttoptr(i8 %a) {
  %r = inttoptr i8 %a to ptr
  ret ptr %r
}
define i32 @undefined() {
  %r = add i32 undef, poison
  ret i32 %r
}
define i64 @fresh() {
  %p = alloca i64
  %v = load i64, ptr %p
  ret i64 %v
}
define i1 @lowest() {
  %v = load i1, ptr @two
  ret i1 %v
}
define i64 @overlap() {
  %to = getelementptr i8, ptr @bytes, i64 2
  call void @llvm.memcpy.p0.p0.i64(ptr %to, ptr @bytes, i64 6, i1 false)
  %v = load i64, ptr @bytes
  ret i64 %v
}
define ptr @member(i64 %n) {
  %p = getelementptr %struct.point, ptr @points, i64 %n, i32 1
  ret ptr %p
}
define i32 @choose(i32 %n) {
  switch i32 %n, label %other [
    i32 1, label %one
    i32 2, label %end
  ]
one:
  br label %end
other:
  br label %end
end:
  %r = phi i32 [ 20, %0 ], [ 10, %one ], [ %n, %other ]
  ret i32 %r
}
---- file examples/manual/limits.case
lxfi case 1
kernel none
interface none
module m examples/manual/limits.ll
thread
call m:down 255 fuel 9999
call m:down 256 fuel 9999
call m:large 1 fuel 9
call m:large 2 fuel 9
call m:loop fuel 100
---- file examples/manual/limits.ll
define i64 @down(i64 %n) {
  %last = icmp eq i64 %n, 0
  br i1 %last, label %end, label %more
more:
  %m = sub i64 %n, 1
  %r = call i64 @down(i64 %m)
  %s = add i64 %r, 1
  ret i64 %s
end:
  ret i64 0
}
define void @large(i64 %n) {
  %p = alloca [65536 x i8]
  %one = icmp eq i64 %n, 1
  br i1 %one, label %end, label %more
more:
  %q = alloca i8
  br label %end
end:
  ret void
}
define void @loop() {
  br label %l
l:
  br label %l
}
---- file examples/manual/natives.case
lxfi case 1
kernel file examples/manual/natives_kernel.ll
interface none
thread
call kernel:alloc 1 fuel 9
call kernel:alloc 20 fuel 9
call kernel:alloc 0 fuel 9
call kernel:alloc 1048577 fuel 9
call kernel:free 0x2000000 fuel 9
call kernel:alloc 16 fuel 9
call kernel:free 0x2000000 fuel 9
call kernel:free 0x2000000 fuel 9
call kernel:lock fuel 9
call kernel:lock fuel 9
call kernel:zero &kernel:held 4 fuel 9
call kernel:lock fuel 9
call kernel:note -3 fuel 9
---- file examples/manual/natives_kernel.ll
declare ptr @k.alloc(i64)
declare void @k.free(ptr)
declare void @k.zero(ptr, i64)
declare i32 @k.try_lock(ptr)
declare void @k.note(i64)
@held = global i32 0
define ptr @alloc(i64 %n) {
  %p = call ptr @k.alloc(i64 %n)
  ret ptr %p
}
define void @free(ptr %p) {
  call void @k.free(ptr %p)
  ret void
}
define i32 @lock() {
  %r = call i32 @k.try_lock(ptr @held)
  ret i32 %r
}
define void @zero(ptr %p, i64 %n) {
  call void @k.zero(ptr %p, i64 %n)
  ret void
}
define void @note(i64 %v) {
  call void @k.note(i64 %v)
  ret void
}
---- file examples/manual/traps.case
lxfi case 1
kernel builtin
interface builtin
module m examples/manual/traps.ll
thread
call m:read 0 fuel 9
call m:read 0x10ffffc fuel 9
call m:div 7 0 fuel 9
call m:div -2147483648 -1 fuel 9
call m:never fuel 9
call m:large fuel 9
call m:deep fuel 999
call m:narrow &m:id fuel 9
call kernel:kmalloc 8 fuel 99
call kernel:kfree 0x2000010 fuel 99
call kernel:kfree 0x2000010 fuel 99
call kernel:dev_zero 0x10ffff8 16 fuel 99
call m:deep fuel 9
---- file examples/manual/traps.ll
declare void @dev_zero(ptr, i64)
define i64 @read(ptr %p) {
  %v = load i64, ptr %p
  ret i64 %v
}
define i32 @div(i32 %a, i32 %b) {
  %q = sdiv i32 %a, %b
  ret i32 %q
}
define void @never() {
  unreachable
}
define void @large() {
  %p = alloca [65537 x i8]
  ret void
}
define void @deep() {
  call void @deep()
  ret void
}
define i64 @id(i64 %n) {
  ret i64 %n
}
define i64 @narrow(ptr %f) {
  %r = call i64 %f(i32 1)
  ret i64 %r
}
---- file examples/manual/hook.case
lxfi case 1
kernel builtin
interface builtin
module m examples/manual/hook.ll
thread
call m:wild fuel 100
call m:main fuel 100
call m:wild fuel 100
---- file examples/manual/hook.ll
declare ptr @hook_get()
define i64 @main() {
  %f = call ptr @hook_get()
  %r = call i64 %f(i64 41)
  ret i64 %r
}
define i64 @wild() {
  %f = inttoptr i64 65792 to ptr
  %r = call i64 %f(i64 1)
  ret i64 %r
}
"#
}
