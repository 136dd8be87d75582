//! Files of `examples/manual/`.
//! Written by `tools/example-texts` from them.

/// Files of `examples/manual/` that runs and traces read, each behind its name.
pub fn manual_files_table() -> &'static str {
    r#"---- file examples/manual/arguments.case
lxfi case 1
kernel builtin
interface builtin
module m examples/manual/arguments.ll
thread
call m:same -5 fuel 9
call m:same 18446744073709551615 fuel 9
call m:same 0xff fuel 9
call m:byte 255 fuel 9
call m:byte -128 fuel 9
call m:truth 1 fuel 9
call m:place &m:word fuel 9
call m:place &m:same fuel 9
call m:place &kernel:kmalloc fuel 9
---- file examples/manual/arguments.ll
@word = global i64 0
define i64 @same(i64 %n) {
  ret i64 %n
}
define i8 @byte(i8 %n) {
  ret i8 %n
}
define i1 @truth(i1 %t) {
  ret i1 %t
}
define ptr @place(ptr %p) {
  ret ptr %p
}
---- file examples/manual/c_read.case
lxfi case 1
kernel none
interface none
module m examples/manual/c_read.ll
thread
call m:backslash fuel 999
call m:square 1 2 fuel 999
call m:apply 1 5 9 fuel 999
call m:distance 4294967297 fuel 999
call m:third_byte 0x11223344 fuel 999
call m:header_size fuel 999
call m:is_large 1 fuel 999
call m:absolute -7 fuel 999
call m:counted fuel 999
call m:counted fuel 999
call m:classify 1 fuel 999
call m:classify 3 fuel 999
call m:classify -5 fuel 999
call m:classify 9 fuel 999
call m:filled 1 fuel 999
call m:first_zero &m:path 4 fuel 999
---- file examples/manual/c_read.ll
; ModuleID = 'c_read.c'
source_filename = "c_read.c"
target datalayout = "e-m:e-p270:32:32-p271:32:32-p272:64:64-i64:64-f80:128-n8:16:32:64-S128"
target triple = "x86_64-pc-linux-gnu"

%struct.point = type { i32, i32 }
%union.word = type { i32 }
%struct.header = type <{ i8, i32 }>

@path = internal constant [4 x i8] c"a\5Cb\00", align 1
@squares = internal constant [2 x [3 x i64]] [[3 x i64] [i64 0, i64 1, i64 4], [3 x i64] [i64 9, i64 16, i64 25]], align 16
@operators = internal constant [2 x ptr] [ptr @add, ptr @sub], align 16
@corner = internal global %struct.point { i32 3, i32 4 }, align 4
@counted.calls = internal global i32 0, align 4

; Function Attrs: noinline nounwind optnone uwtable
define dso_local i32 @backslash() #0 {
  %1 = load i8, ptr getelementptr inbounds ([4 x i8], ptr @path, i64 0, i64 1), align 1
  %2 = sext i8 %1 to i32
  ret i32 %2
}

; Function Attrs: noinline nounwind optnone uwtable
define dso_local i64 @square(i64 noundef %0, i64 noundef %1) #0 {
  %3 = alloca i64, align 8
  %4 = alloca i64, align 8
  store i64 %0, ptr %3, align 8
  store i64 %1, ptr %4, align 8
  %5 = load i64, ptr %3, align 8
  %6 = getelementptr inbounds [2 x [3 x i64]], ptr @squares, i64 0, i64 %5
  %7 = load i64, ptr %4, align 8
  %8 = getelementptr inbounds [3 x i64], ptr %6, i64 0, i64 %7
  %9 = load i64, ptr %8, align 8
  ret i64 %9
}

; Function Attrs: noinline nounwind optnone uwtable
define dso_local i32 @apply(i32 noundef %0, i32 noundef %1, i32 noundef %2) #0 {
  %4 = alloca i32, align 4
  %5 = alloca i32, align 4
  %6 = alloca i32, align 4
  store i32 %0, ptr %4, align 4
  store i32 %1, ptr %5, align 4
  store i32 %2, ptr %6, align 4
  %7 = load i32, ptr %4, align 4
  %8 = and i32 %7, 1
  %9 = zext i32 %8 to i64
  %10 = getelementptr inbounds [2 x ptr], ptr @operators, i64 0, i64 %9
  %11 = load ptr, ptr %10, align 8
  %12 = load i32, ptr %5, align 4
  %13 = load i32, ptr %6, align 4
  %14 = call i32 %11(i32 noundef %12, i32 noundef %13)
  ret i32 %14
}

; Function Attrs: noinline nounwind optnone uwtable
define dso_local i32 @distance(i64 %0) #0 {
  %2 = alloca %struct.point, align 4
  %3 = alloca %struct.point, align 4
  store i64 %0, ptr %2, align 4
  call void @llvm.memcpy.p0.p0.i64(ptr align 4 %3, ptr align 4 @corner, i64 8, i1 false)
  %4 = getelementptr inbounds %struct.point, ptr %2, i32 0, i32 0
  %5 = load i32, ptr %4, align 4
  %6 = getelementptr inbounds %struct.point, ptr %3, i32 0, i32 0
  %7 = load i32, ptr %6, align 4
  %8 = sub nsw i32 %7, %5
  store i32 %8, ptr %6, align 4
  %9 = getelementptr inbounds %struct.point, ptr %2, i32 0, i32 1
  %10 = load i32, ptr %9, align 4
  %11 = getelementptr inbounds %struct.point, ptr %3, i32 0, i32 1
  %12 = load i32, ptr %11, align 4
  %13 = sub nsw i32 %12, %10
  store i32 %13, ptr %11, align 4
  %14 = getelementptr inbounds %struct.point, ptr %3, i32 0, i32 0
  %15 = load i32, ptr %14, align 4
  %16 = getelementptr inbounds %struct.point, ptr %3, i32 0, i32 0
  %17 = load i32, ptr %16, align 4
  %18 = mul nsw i32 %15, %17
  %19 = getelementptr inbounds %struct.point, ptr %3, i32 0, i32 1
  %20 = load i32, ptr %19, align 4
  %21 = getelementptr inbounds %struct.point, ptr %3, i32 0, i32 1
  %22 = load i32, ptr %21, align 4
  %23 = mul nsw i32 %20, %22
  %24 = add nsw i32 %18, %23
  ret i32 %24
}

; Function Attrs: argmemonly nofree nounwind willreturn
declare void @llvm.memcpy.p0.p0.i64(ptr noalias nocapture writeonly, ptr noalias nocapture readonly, i64, i1 immarg) #1

; Function Attrs: noinline nounwind optnone uwtable
define dso_local i32 @third_byte(i32 noundef %0) #0 {
  %2 = alloca i32, align 4
  %3 = alloca %union.word, align 4
  store i32 %0, ptr %2, align 4
  %4 = load i32, ptr %2, align 4
  store i32 %4, ptr %3, align 4
  %5 = getelementptr inbounds [4 x i8], ptr %3, i64 0, i64 2
  %6 = load i8, ptr %5, align 2
  %7 = zext i8 %6 to i32
  ret i32 %7
}

; Function Attrs: noinline nounwind optnone uwtable
define dso_local i64 @header_size() #0 {
  %1 = alloca [2 x %struct.header], align 1
  %2 = getelementptr inbounds [2 x %struct.header], ptr %1, i64 0, i64 1
  %3 = getelementptr inbounds %struct.header, ptr %2, i32 0, i32 1
  %4 = getelementptr inbounds [2 x %struct.header], ptr %1, i64 0, i64 0
  %5 = ptrtoint ptr %3 to i64
  %6 = ptrtoint ptr %4 to i64
  %7 = sub i64 %5, %6
  ret i64 %7
}

; Function Attrs: noinline nounwind optnone uwtable
define dso_local zeroext i1 @is_large(i32 noundef %0) #0 {
  %2 = alloca i32, align 4
  store i32 %0, ptr %2, align 4
  %3 = load i32, ptr %2, align 4
  %4 = icmp eq i32 %3, 1
  ret i1 %4
}

; Function Attrs: noinline nounwind optnone uwtable
define dso_local i32 @absolute(i32 noundef %0) #0 {
  %2 = alloca i32, align 4
  store i32 %0, ptr %2, align 4
  %3 = load i32, ptr %2, align 4
  %4 = sub nsw i32 0, %3
  %5 = icmp slt i32 %3, 0
  %6 = select i1 %5, i32 %4, i32 %3
  ret i32 %6
}

; Function Attrs: noinline nounwind optnone uwtable
define dso_local i32 @counted() #0 {
  %1 = load i32, ptr @counted.calls, align 4
  %2 = add nsw i32 %1, 1
  store i32 %2, ptr @counted.calls, align 4
  ret i32 %2
}

; Function Attrs: noinline nounwind optnone uwtable
define dso_local i32 @classify(i32 noundef %0) #0 {
  %2 = alloca i32, align 4
  %3 = alloca i32, align 4
  store i32 %0, ptr %3, align 4
  %4 = load i32, ptr %3, align 4
  switch i32 %4, label %7 [
    i32 1, label %5
    i32 2, label %6
    i32 3, label %6
    i32 4, label %6
  ]

5:                                                ; preds = %1
  store i32 10, ptr %2, align 4
  br label %12

6:                                                ; preds = %1, %1, %1
  store i32 20, ptr %2, align 4
  br label %12

7:                                                ; preds = %1
  %8 = load i32, ptr %3, align 4
  %9 = icmp slt i32 %8, 0
  %10 = zext i1 %9 to i64
  %11 = select i1 %9, i32 -1, i32 0
  store i32 %11, ptr %2, align 4
  br label %12

12:                                               ; preds = %7, %6, %5
  %13 = load i32, ptr %2, align 4
  ret i32 %13
}

; Function Attrs: noinline nounwind optnone uwtable
define dso_local i32 @filled(i32 noundef %0) #0 {
  %2 = alloca i32, align 4
  %3 = alloca [4 x i32], align 16
  %4 = alloca i32, align 4
  %5 = alloca i32, align 4
  store i32 %0, ptr %2, align 4
  store i32 0, ptr %4, align 4
  store i32 0, ptr %5, align 4
  %6 = getelementptr inbounds [4 x i32], ptr %3, i64 0, i64 0
  %7 = load i32, ptr %2, align 4
  %8 = trunc i32 %7 to i8
  call void @llvm.memset.p0.i64(ptr align 16 %6, i8 %8, i64 16, i1 false)
  %9 = getelementptr inbounds [4 x i32], ptr %3, i64 0, i64 2
  %10 = getelementptr inbounds [4 x i32], ptr %3, i64 0, i64 0
  call void @llvm.memcpy.p0.p0.i64(ptr align 8 %9, ptr align 16 %10, i64 8, i1 false)
  br label %11

11:                                               ; preds = %18, %1
  %12 = load i32, ptr %5, align 4
  %13 = zext i32 %12 to i64
  %14 = getelementptr inbounds [4 x i32], ptr %3, i64 0, i64 %13
  %15 = load i32, ptr %14, align 4
  %16 = load i32, ptr %4, align 4
  %17 = add i32 %16, %15
  store i32 %17, ptr %4, align 4
  br label %18

18:                                               ; preds = %11
  %19 = load i32, ptr %5, align 4
  %20 = add i32 %19, 1
  store i32 %20, ptr %5, align 4
  %21 = icmp ult i32 %20, 4
  br i1 %21, label %11, label %22, !llvm.loop !6

22:                                               ; preds = %18
  %23 = load i32, ptr %4, align 4
  ret i32 %23
}

; Function Attrs: argmemonly nofree nounwind willreturn writeonly
declare void @llvm.memset.p0.i64(ptr nocapture writeonly, i8, i64, i1 immarg) #2

; Function Attrs: noinline nounwind optnone uwtable
define dso_local i32 @first_zero(ptr noundef %0, i32 noundef %1) #0 {
  %3 = alloca i32, align 4
  %4 = alloca ptr, align 8
  %5 = alloca i32, align 4
  %6 = alloca i32, align 4
  store ptr %0, ptr %4, align 8
  store i32 %1, ptr %5, align 4
  store i32 0, ptr %6, align 4
  br label %7

7:                                                ; preds = %22, %2
  %8 = load i32, ptr %6, align 4
  %9 = load i32, ptr %5, align 4
  %10 = icmp slt i32 %8, %9
  br i1 %10, label %11, label %25

11:                                               ; preds = %7
  %12 = load ptr, ptr %4, align 8
  %13 = load i32, ptr %6, align 4
  %14 = sext i32 %13 to i64
  %15 = getelementptr inbounds i8, ptr %12, i64 %14
  %16 = load i8, ptr %15, align 1
  %17 = icmp ne i8 %16, 0
  br i1 %17, label %18, label %19

18:                                               ; preds = %11
  br label %22

19:                                               ; preds = %11
  br label %20

20:                                               ; preds = %19
  %21 = load i32, ptr %6, align 4
  store i32 %21, ptr %3, align 4
  br label %26

22:                                               ; preds = %18
  %23 = load i32, ptr %6, align 4
  %24 = add nsw i32 %23, 1
  store i32 %24, ptr %6, align 4
  br label %7, !llvm.loop !8

25:                                               ; preds = %7
  store i32 -1, ptr %3, align 4
  br label %26

26:                                               ; preds = %25, %20
  %27 = load i32, ptr %3, align 4
  ret i32 %27
}

; Function Attrs: noinline nounwind optnone uwtable
define internal i32 @add(i32 noundef %0, i32 noundef %1) #0 {
  %3 = alloca i32, align 4
  %4 = alloca i32, align 4
  store i32 %0, ptr %3, align 4
  store i32 %1, ptr %4, align 4
  %5 = load i32, ptr %3, align 4
  %6 = load i32, ptr %4, align 4
  %7 = add nsw i32 %5, %6
  ret i32 %7
}

; Function Attrs: noinline nounwind optnone uwtable
define internal i32 @sub(i32 noundef %0, i32 noundef %1) #0 {
  %3 = alloca i32, align 4
  %4 = alloca i32, align 4
  store i32 %0, ptr %3, align 4
  store i32 %1, ptr %4, align 4
  %5 = load i32, ptr %3, align 4
  %6 = load i32, ptr %4, align 4
  %7 = sub nsw i32 %5, %6
  ret i32 %7
}

attributes #0 = { noinline nounwind optnone uwtable "frame-pointer"="all" "min-legal-vector-width"="0" "no-trapping-math"="true" "stack-protector-buffer-size"="8" "target-cpu"="x86-64" "target-features"="+cx8,+fxsr,+mmx,+sse,+sse2,+x87" "tune-cpu"="generic" }
attributes #1 = { argmemonly nofree nounwind willreturn }
attributes #2 = { argmemonly nofree nounwind willreturn writeonly }

!llvm.module.flags = !{!0, !1, !2, !3, !4}
!llvm.ident = !{!5}

!0 = !{i32 1, !"wchar_size", i32 4}
!1 = !{i32 7, !"PIC Level", i32 2}
!2 = !{i32 7, !"PIE Level", i32 2}
!3 = !{i32 7, !"uwtable", i32 1}
!4 = !{i32 7, !"frame-pointer", i32 2}
!5 = !{!"Debian clang version 14.0.6"}
!6 = distinct !{!6, !7}
!7 = !{!"llvm.loop.mustprogress"}
!8 = distinct !{!8, !7}
---- file examples/manual/padded_field.case
lxfi case 1
kernel none
interface none
module m examples/manual/padded_field.ll
thread
call m:is_ready fuel 9
call m:count fuel 9
---- file examples/manual/padded_field.ll
; ModuleID = 'padded_field.c'
source_filename = "padded_field.c"
target datalayout = "e-m:e-p270:32:32-p271:32:32-p272:64:64-i64:64-f80:128-n8:16:32:64-S128"
target triple = "x86_64-pc-linux-gnu"

%struct.flags = type { i32 }

@flags = dso_local global %struct.flags zeroinitializer, align 4

; Function Attrs: noinline nounwind optnone uwtable
define dso_local i32 @is_ready() #0 {
  %1 = load i32, ptr @flags, align 4
  %2 = and i32 %1, 1
  ret i32 %2
}

; Function Attrs: noinline nounwind optnone uwtable
define dso_local i32 @count() #0 {
  %1 = load i32, ptr @flags, align 4
  %2 = lshr i32 %1, 2
  %3 = and i32 %2, 262143
  ret i32 %3
}

attributes #0 = { noinline nounwind optnone uwtable "frame-pointer"="all" "min-legal-vector-width"="0" "no-trapping-math"="true" "stack-protector-buffer-size"="8" "target-cpu"="x86-64" "target-features"="+cx8,+fxsr,+mmx,+sse,+sse2,+x87" "tune-cpu"="generic" }

!llvm.module.flags = !{!0, !1, !2, !3, !4}
!llvm.ident = !{!5}

!0 = !{i32 1, !"wchar_size", i32 4}
!1 = !{i32 7, !"PIC Level", i32 2}
!2 = !{i32 7, !"PIE Level", i32 2}
!3 = !{i32 7, !"uwtable", i32 1}
!4 = !{i32 7, !"frame-pointer", i32 2}
!5 = !{!"Debian clang version 14.0.6"}
---- file examples/manual/builtin.case
lxfi case 1
kernel file examples/manual/builtin_kernel.ll
interface file examples/manual/builtin.txt
module nic examples/nic_past.ll
thread
call nic:card_init fuel 100
call kernel:do_probe 0 fuel 200
call kernel:skb_new 4 fuel 100
call kernel:do_xmit 0 0x2000030 fuel 400
---- file examples/manual/builtin_kernel.ll
%struct.device = type { ptr, i64, ptr }
%struct.dev_ops = type { ptr, ptr }
@lock = global i32 0
@ndevs = global i64 0
@devs = global [8 x %struct.device] zeroinitializer
declare ptr @k.alloc(i64)
declare void @k.free(ptr)
declare void @k.zero(ptr, i64)
declare i32 @k.try_lock(ptr)
declare void @k.note(i64)
declare i32 @k.slot.probe(ptr, ptr)
declare i32 @k.slot.xmit(ptr, ptr, ptr)
define ptr @kmalloc(i64 %n) {
a:
  %d = sub i64 %n, 1
  %ok = icmp ult i64 %d, 1048560
  br i1 %ok, label %b, label %none
b:
  %m = add i64 %n, 16
  %p = call ptr @k.alloc(i64 %m)
  %z = icmp eq ptr %p, null
  br i1 %z, label %none, label %c
c:
  store i64 %n, ptr %p
  %u = getelementptr i8, ptr %p, i64 16
  ret ptr %u
none:
  ret ptr null
}
define ptr @kzalloc(i64 %n) {
a:
  %p = call ptr @kmalloc(i64 %n)
  %z = icmp eq ptr %p, null
  br i1 %z, label %c, label %b
b:
  call void @k.zero(ptr %p, i64 %n)
  br label %c
c:
  ret ptr %p
}
define void @kfree(ptr %p) {
a:
  %z = icmp eq ptr %p, null
  br i1 %z, label %c, label %b
b:
  %h = getelementptr i8, ptr %p, i64 -16
  call void @k.free(ptr %h)
  br label %c
c:
  ret void
}
define ptr @dev_register(ptr %ops) {
a:
  br label %l
l:
  %g = call i32 @k.try_lock(ptr @lock)
  %t = icmp eq i32 %g, 0
  br i1 %t, label %l, label %b
b:
  %n = load i64, ptr @ndevs
  %f = icmp ult i64 %n, 8
  br i1 %f, label %c, label %e
c:
  %dv = getelementptr %struct.device, ptr @devs, i64 %n
  store ptr %ops, ptr %dv
  %ip = getelementptr %struct.device, ptr %dv, i64 0, i32 1
  store i64 %n, ptr %ip
  %n1 = add i64 %n, 1
  store i64 %n1, ptr @ndevs
  br label %e
e:
  %r = phi ptr [ null, %b ], [ %dv, %c ]
  store i32 0, ptr @lock
  ret ptr %r
}
define void @dev_set_priv(ptr %dev, ptr %v) {
a:
  %p = getelementptr %struct.device, ptr %dev, i64 0, i32 2
  store ptr %v, ptr %p
  ret void
}
define void @dev_zero(ptr %p, i64 %n) {
a:
  call void @k.zero(ptr %p, i64 %n)
  ret void
}
define void @dev_wipe(ptr %p, i64 %n) {
a:
  call void @k.zero(ptr %p, i64 %n)
  ret void
}
define ptr @skb_new(i64 %n) {
a:
  %s = call ptr @kmalloc(i64 24)
  %z = icmp eq ptr %s, null
  br i1 %z, label %no, label %b
b:
  %d = call ptr @kmalloc(i64 %n)
  %y = icmp eq ptr %d, null
  br i1 %y, label %u, label %c
c:
  store ptr %d, ptr %s
  %q = getelementptr i8, ptr %s, i64 8
  store i64 %n, ptr %q
  ret ptr %s
u:
  call void @kfree(ptr %s)
  br label %no
no:
  ret ptr null
}
define i32 @netif_rx(ptr %s) {
a:
  %q = getelementptr i8, ptr %s, i64 8
  %n = load i64, ptr %q
  call void @k.note(i64 %n)
  ret i32 0
}
define ptr @hook_get() {
a:
  ret ptr @hook_fn
}
define i64 @hook_fn(i64 %x) {
a:
  %y = add i64 %x, 1
  ret i64 %y
}
define i32 @do_probe(i64 %i) {
a:
  %d = getelementptr %struct.device, ptr @devs, i64 %i
  %o = load ptr, ptr %d
  %r = call i32 @k.slot.probe(ptr %o, ptr %d)
  ret i32 %r
}
define i32 @do_xmit(i64 %i, ptr %s) {
a:
  %d = getelementptr %struct.device, ptr @devs, i64 %i
  %o = load ptr, ptr %d
  %x = getelementptr %struct.dev_ops, ptr %o, i64 0, i32 1
  %r = call i32 @k.slot.xmit(ptr %x, ptr %s, ptr %d)
  ret i32 %r
}
---- file examples/manual/builtin.txt
interface 1
reftype device
iterator skb_caps(p) { write p, 24; write load64(p), load64(p + 8) }
slot probe : i32 (ptr dev) principal(dev) pre(copy(ref(device), dev)) post(if (return < 0) transfer(ref(device), dev))
slot xmit : i32 (ptr skb, ptr dev) principal(dev) pre(transfer(skb_caps(skb))) post(if (return < 0) transfer(skb_caps(skb)))
field %struct.dev_ops 0 : probe
field %struct.dev_ops 1 : xmit
export kmalloc : ptr (i64 n) post(if (return != 0) transfer(write, return, n))
export kzalloc : ptr (i64 n) post(if (return != 0) transfer(write, return, n))
export kfree : void (ptr p) pre(if (p != 0) transfer(write, p, load64(p - 16)))
export dev_register : ptr (ptr ops)
export dev_set_priv : void (ptr dev, ptr v) pre(check(ref(device), dev))
export dev_zero : void (ptr p, i64 n) pre(check(write, p, n))
export dev_wipe : void (ptr p, i64 n) pre(transfer(write, p, n)) post(transfer(write, p, n))
export skb_new : ptr (i64 n) post(if (return != 0) transfer(write, return, 24)) post(if (return != 0) transfer(write, load64(return), n))
export netif_rx : i32 (ptr skb) pre(transfer(skb_caps(skb)))
export hook_get : ptr () post(copy(call, return))
export hook_fn : i64 (i64 x)
---- file examples/manual/timer.case
lxfi case 1
kernel file examples/manual/timer_kernel.ll
interface file examples/manual/timer.txt
module t examples/manual/timer.ll
thread
call t:start fuel 100
call kernel:do_tick 7 fuel 100
call t:read_last fuel 100
call t:wild fuel 100
---- file examples/manual/timer_kernel.ll
@timer = global ptr null
declare void @k.slot.tick(ptr, i64)
define void @timer_set(ptr %fn) {
  store ptr %fn, ptr @timer
  ret void
}
define void @do_tick(i64 %now) {
  call void @k.slot.tick(ptr @timer, i64 %now)
  ret void
}
---- file examples/manual/timer.txt
interface 1
slot tick : void (i64 now)
field %struct.timer 0 : tick
export timer_set : void (ptr fn) pre(check(call, fn))
---- file examples/manual/timer.ll
; ModuleID = 'timer.c'
source_filename = "timer.c"
target datalayout = "e-m:e-p270:32:32-p271:32:32-p272:64:64-i64:64-f80:128-n8:16:32:64-S128"
target triple = "x86_64-pc-linux-gnu"

%struct.timer = type { ptr }

@timer = internal global %struct.timer { ptr @on_tick }, align 8
@last = internal global i64 0, align 8

; Function Attrs: noinline nounwind optnone uwtable
define dso_local void @start() #0 {
  %1 = load ptr, ptr getelementptr inbounds (%struct.timer, ptr @timer, i32 0, i32 0), align 8
  call void @timer_set(ptr noundef %1)
  ret void
}

declare void @timer_set(ptr noundef) #1

; Function Attrs: noinline nounwind optnone uwtable
define dso_local void @wild() #0 {
  call void @timer_set(ptr noundef inttoptr (i64 65648 to ptr))
  ret void
}

; Function Attrs: noinline nounwind optnone uwtable
define dso_local i64 @read_last() #0 {
  %1 = load i64, ptr @last, align 8
  ret i64 %1
}

; Function Attrs: noinline nounwind optnone uwtable
define internal void @on_tick(i64 noundef %0) #0 {
  %2 = alloca i64, align 8
  store i64 %0, ptr %2, align 8
  %3 = load i64, ptr %2, align 8
  store i64 %3, ptr @last, align 8
  ret void
}

attributes #0 = { noinline nounwind optnone uwtable "frame-pointer"="all" "min-legal-vector-width"="0" "no-trapping-math"="true" "stack-protector-buffer-size"="8" "target-cpu"="x86-64" "target-features"="+cx8,+fxsr,+mmx,+sse,+sse2,+x87" "tune-cpu"="generic" }
attributes #1 = { "frame-pointer"="all" "no-trapping-math"="true" "stack-protector-buffer-size"="8" "target-cpu"="x86-64" "target-features"="+cx8,+fxsr,+mmx,+sse,+sse2,+x87" "tune-cpu"="generic" }

!llvm.module.flags = !{!0, !1, !2, !3, !4}
!llvm.ident = !{!5}

!0 = !{i32 1, !"wchar_size", i32 4}
!1 = !{i32 7, !"PIC Level", i32 2}
!2 = !{i32 7, !"PIE Level", i32 2}
!3 = !{i32 7, !"uwtable", i32 1}
!4 = !{i32 7, !"frame-pointer", i32 2}
!5 = !{!"Debian clang version 14.0.6"}
---- file examples/manual/disk.case
lxfi case 1
kernel file examples/manual/disk_kernel.ll
interface file examples/manual/disk.txt
module disk examples/manual/disk.ll
thread
call disk:init fuel 100
call kernel:do_read 0 7 fuel 1000
call kernel:do_read 1 9 fuel 1000
call kernel:do_close 0 fuel 100
call kernel:do_close 0 fuel 100
"#
}
