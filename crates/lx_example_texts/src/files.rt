//! The files that worked cases name.

/// A case of one module and one call.
pub const ONE_CASE: &str =
    "lxfi case 1\nkernel none\ninterface none\nmodule m one.ll\nthread\ncall m:main fuel 4\n";

/// Small files.
pub fn small_files() -> &'static str {
    r#"---- file one.case
lxfi case 1
kernel none
interface none
module m one.ll
thread
call m:main fuel 4
---- file down.ll
define i64 @down(i64 %n) {
  %last = icmp eq i64 %n, 0
  br i1 %last, label %end, label %more
more:
  %m = sub i64 %n, 1
  %r = call i64 @down(i64 %m)
  %s = add i64 %r, 1
  ret i64 %s
end:
  ret i64 0
}
define void @ever() {
  call void @ever()
  ret void
}
---- file loop.ll
define i64 @loop(i64 %n) {
a:
  br label %l
l:
  %i = phi i64 [ 0, %a ], [ %j, %l ]
  %j = add i64 %i, 1
  %c = icmp ult i64 %j, %n
  br i1 %c, label %l, label %e
e:
  ret i64 %j
}
---- file places.ll
define ptr @byte() {
  %b = alloca i8
  %w = alloca i64
  ret ptr %b
}
define ptr @word() {
  %b = alloca i8
  %w = alloca i64
  ret ptr %w
}
---- file one.ll
@g = global i32 0
define i32 @main() {
store i32 7, ptr @g
%v = load i32, ptr @g
ret i32 %v
}
---- file constant.ll
@limit = constant i32 7
@count = global i32 0
define void @main() {
  store i32 1, ptr @count
  store i32 8, ptr @limit
  ret void
}
---- file past.ll
@g = global [7 x i8] zeroinitializer
define void @main() {
store i64 7, ptr @g
ret void
}
---- file span.ll
%struct.dev_ops = type { ptr, ptr }
@ops = global %struct.dev_ops { ptr @probe, ptr null }
@buf = global [16 x i8] zeroinitializer
declare ptr @dev_register(ptr)
declare void @dev_wipe(ptr, i64)
define void @init() {
  %d = call ptr @dev_register(ptr @ops)
  ret void
}
define i32 @probe(ptr %d) {
%h = getelementptr i8, ptr @buf, i64 8
call void @dev_wipe(ptr %h, i64 8)
%q = getelementptr i8, ptr @buf, i64 4
store i64 -1, ptr %q
ret i32 0
}
---- file empty.ll
---- file free.ll
declare ptr @kmalloc(i64)
declare void @kfree(ptr)
define void @main() {
%p = call ptr @kmalloc(i64 8)
store i64 1, ptr %p
call void @kfree(ptr %p)
store i64 2, ptr %p
ret void
}
---- file race.ll
@pkt = global ptr null
declare ptr @skb_new(i64)
declare i32 @netif_rx(ptr)
define void @make() {
%s = call ptr @skb_new(i64 8)
store ptr %s, ptr @pkt
ret void
}
define i32 @send() {
%s = load ptr, ptr @pkt
%r = call i32 @netif_rx(ptr %s)
ret i32 %r
}
define void @poke() {
%s = load ptr, ptr @pkt
%d = load ptr, ptr %s
store i8 1, ptr %d
store i8 2, ptr %d
ret void
}
---- file neg.ll
%struct.dev_ops = type { ptr, ptr }
@ops = global %struct.dev_ops { ptr @probe, ptr null }
declare ptr @dev_register(ptr)
declare void @dev_set_priv(ptr, ptr)
define void @init() {
  %d = call ptr @dev_register(ptr @ops)
  ret void
}
define i32 @probe(ptr %d) {
call void @dev_set_priv(ptr %d, ptr null)
ret i32 -5
}
define void @late(ptr %d) {
call void @dev_set_priv(ptr %d, ptr null)
ret void
}
---- file two.ll
%struct.dev_ops = type { ptr, ptr }
@oa = global %struct.dev_ops { ptr @probe_a, ptr null }
@ob = global %struct.dev_ops { ptr @probe_b, ptr null }
@box = global ptr null
@flag = global i64 0
declare ptr @dev_register(ptr)
declare ptr @kmalloc(i64)
declare void @lxfi_princ_alias(ptr, ptr)
define void @init() {
%a = call ptr @dev_register(ptr @oa)
%b = call ptr @dev_register(ptr @ob)
ret void
}
define void @mode(i64 %v) {
store i64 %v, ptr @flag
ret void
}
define i32 @probe_a(ptr %d) {
%p = load ptr, ptr @box
store i64 9, ptr %p
ret i32 0
}
define i32 @probe_b(ptr %d) {
%p = call ptr @kmalloc(i64 8)
store ptr %p, ptr @box
%f = load i64, ptr @flag
%t = icmp ne i64 %f, 0
br i1 %t, label %y, label %n
y:
call void @lxfi_princ_alias(ptr %d, ptr inttoptr (i64 16777248 to ptr))
br label %n
n:
ret i32 0
}
---- file bad.ll
%struct.dev_ops = type { ptr, ptr }
@ops = global %struct.dev_ops { ptr @probe, ptr @xmit }
declare ptr @dev_register(ptr)
declare void @dev_zero(ptr, i64)
define void @init() {
  %d = call ptr @dev_register(ptr @ops)
  ret void
}
define void @bend() {
store ptr inttoptr (i64 65792 to ptr), ptr @ops
ret void
}
define void @swap() {
%s = getelementptr %struct.dev_ops, ptr @ops, i64 0, i32 1
%f = load ptr, ptr %s
store ptr %f, ptr @ops
ret void
}
define void @again() {
call void @dev_zero(ptr @ops, i64 16)
store ptr inttoptr (i64 65792 to ptr), ptr @ops
ret void
}
define i32 @probe(ptr %d) {
ret i32 0
}
define i32 @xmit(ptr %s, ptr %d) {
ret i32 0
}
define void @cold() {
%d = call ptr @dev_register(ptr inttoptr (i64 33554432 to ptr))
ret void
}
---- file bent.ll
declare ptr @skb_new(i64)
declare i32 @netif_rx(ptr)
define void @main() {
%s = call ptr @skb_new(i64 8)
store ptr inttoptr (i64 16777216 to ptr), ptr %s
%r = call i32 @netif_rx(ptr %s)
ret void
}
---- file stack.ll
declare void @dev_wipe(ptr, i64)
declare void @dev_zero(ptr, i64)
define void @main() {
%b = alloca i64
call void @dev_zero(ptr %b, i64 8)
call void @dev_wipe(ptr %b, i64 8)
ret void
}
---- file clang.ll
; ModuleID = 'both.c'
source_filename = "both.c"
target triple = "x86_64-pc-linux-gnu"

@src = dso_local global [4 x i8] c"abc\00", align 1

; Function Attrs: noinline nounwind optnone uwtable
define dso_local i32 @both(i32 noundef %0, i32 noundef %1) #0 {
  %3 = alloca i32, align 4
  %4 = alloca i32, align 4
  %5 = alloca [4 x i8], align 1
  store i32 %0, ptr %3, align 4
  store i32 %1, ptr %4, align 4
  call void @llvm.memcpy.p0.p0.i64(ptr align 1 %5, ptr align 1 @src, i64 4, i1 false)
  %6 = load i32, ptr %3, align 4
  %7 = icmp ne i32 %6, 0
  br i1 %7, label %8, label %11

8:                                                ; preds = %2
  %9 = load i32, ptr %4, align 4
  %10 = icmp ne i32 %9, 0
  br label %11

11:                                               ; preds = %8, %2
  %12 = phi i1 [ false, %2 ], [ %10, %8 ]
  %13 = zext i1 %12 to i32
  ret i32 %13
}

declare void @llvm.memcpy.p0.p0.i64(ptr noalias nocapture writeonly, ptr noalias nocapture readonly, i64, i1 immarg) #1

attributes #0 = { noinline nounwind optnone uwtable "frame-pointer"="all" }
attributes #1 = { nounwind }

!llvm.module.flags = !{!0}
!0 = !{i32 1, !"wchar_size", i32 4}
---- file cut.ll
define i32 @f(i32 %0) {
switch i32 %0, label %3 [
i32 1, label %2
---- file both.ll
%struct.dev_ops = type { ptr, ptr }
@ops = global %struct.dev_ops { ptr @h, ptr @h }
define i32 @h(ptr %d) {
ret i32 0
}
---- file edge.ll
declare void @dev_zero(ptr, i64)
define void @main(ptr %p, i64 %n) {
call void @dev_zero(ptr %p, i64 %n)
ret void
}
---- file hook.ll
declare ptr @hook_get()
define i64 @main() {
%f = call ptr @hook_get()
%r = call i64 %f(i64 41)
ret i64 %r
}
define i64 @wild() {
%f = inttoptr i64 65792 to ptr
%r = call i64 %f(i64 1)
ret i64 %r
}
---- file math.ll
define i32 @div(i32 %a, i32 %b) {
%q = sdiv i32 %a, %b
ret i32 %q
}
define void @loop() {
br label %l
l:
br label %l
}
---- file un.ll
define i32 @f() {
ret i32 %x
}
---- file imp.ll
declare i32 @do_probe(i64)
---- file i.txt
interface 1
export f : void (ptr p) pre(copy(write, p))
---- file k2.ll
declare ptr @k.alloc(i64)
declare void @k.free(ptr)
define ptr @get(i64 %n) {
%p = call ptr @k.alloc(i64 %n)
ret ptr %p
}
define void @put(ptr %p) {
call void @k.free(ptr %p)
ret void
}
---- file i2.txt
interface 1
export get : ptr (i64 n) post(transfer(write, return, n))
export put : void (ptr p) pre(transfer(write, p, 8))
---- file u.ll
@box = global ptr null
declare ptr @get(i64)
declare void @put(ptr)
define void @make() {
%p = call ptr @get(i64 8)
store ptr %p, ptr @box
ret void
}
define void @drop() {
%p = load ptr, ptr @box
call void @put(ptr %p)
ret void
}
define void @poke() {
%p = load ptr, ptr @box
store i64 5, ptr %p
store i64 6, ptr %p
ret void
}
---- file k5.ll
define ptr @open(i64 %n) {
%p = inttoptr i64 %n to ptr
ret ptr %p
}
define void @use(ptr %p) {
ret void
}
---- file i5.txt
interface 1
reftype file
export open : ptr (i64 n) post(if (n < 4) copy(ref(file), return))
export use : void (ptr p) pre(check(ref(file), p))
---- file file.ll
declare ptr @open(i64)
declare void @use(ptr)
define void @main(i64 %n) {
%p = call ptr @open(i64 %n)
call void @use(ptr %p)
ret void
}
---- file alias.ll
declare void @lxfi_princ_alias(ptr, ptr)
define void @main() {
call void @lxfi_princ_alias(ptr null, ptr null)
ret void
}
---- file deep.ll
define void @f() {
call void @f()
ret void
}
---- file wide.ll
define void @a() {
%p = alloca [65536 x i8]
ret void
}
define void @b() {
%p = alloca [65537 x i8]
ret void
}
"#
}
