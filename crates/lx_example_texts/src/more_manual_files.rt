//! Files of `examples/manual/`.
//! Written by `tools/example-texts` from them.

/// Files of `examples/manual/` that runs and traces read, each behind its name.
pub fn more_manual_files_table() -> &'static str {
    r#"---- file examples/manual/disk_kernel.ll
; ModuleID = 'disk_kernel.c'
source_filename = "disk_kernel.c"
target datalayout = "e-m:e-p270:32:32-p271:32:32-p272:64:64-i64:64-f80:128-n8:16:32:64-S128"
target triple = "x86_64-pc-linux-gnu"

%struct.disk = type { ptr, ptr }
%struct.disk_ops = type { ptr, ptr }

@count = internal global i64 0, align 8
@disks = internal global [4 x %struct.disk] zeroinitializer, align 16
@buffer = internal global [16 x i8] zeroinitializer, align 16

; Function Attrs: noinline nounwind optnone uwtable
define dso_local ptr @alloc(i64 noundef %0) #0 {
  %2 = alloca i64, align 8
  store i64 %0, ptr %2, align 8
  %3 = load i64, ptr %2, align 8
  %4 = call ptr @k.alloc(i64 noundef %3)
  ret ptr %4
}

declare ptr @k.alloc(i64 noundef) #1

; Function Attrs: noinline nounwind optnone uwtable
define dso_local void @release(ptr noundef %0) #0 {
  %2 = alloca ptr, align 8
  store ptr %0, ptr %2, align 8
  %3 = load ptr, ptr %2, align 8
  call void @k.free(ptr noundef %3)
  ret void
}

declare void @k.free(ptr noundef) #1

; Function Attrs: noinline nounwind optnone uwtable
define dso_local ptr @disk_add(ptr noundef %0) #0 {
  %2 = alloca ptr, align 8
  %3 = alloca ptr, align 8
  store ptr %0, ptr %3, align 8
  %4 = load i64, ptr @count, align 8
  %5 = icmp eq i64 %4, 4
  br i1 %5, label %6, label %7

6:                                                ; preds = %1
  store ptr null, ptr %2, align 8
  br label %15

7:                                                ; preds = %1
  %8 = load ptr, ptr %3, align 8
  %9 = load i64, ptr @count, align 8
  %10 = getelementptr inbounds [4 x %struct.disk], ptr @disks, i64 0, i64 %9
  %11 = getelementptr inbounds %struct.disk, ptr %10, i32 0, i32 0
  store ptr %8, ptr %11, align 16
  %12 = load i64, ptr @count, align 8
  %13 = add i64 %12, 1
  store i64 %13, ptr @count, align 8
  %14 = getelementptr inbounds [4 x %struct.disk], ptr @disks, i64 0, i64 %12
  store ptr %14, ptr %2, align 8
  br label %15

15:                                               ; preds = %7, %6
  %16 = load ptr, ptr %2, align 8
  ret ptr %16
}

; Function Attrs: noinline nounwind optnone uwtable
define dso_local void @disk_private(ptr noundef %0, ptr noundef %1) #0 {
  %3 = alloca ptr, align 8
  %4 = alloca ptr, align 8
  store ptr %0, ptr %3, align 8
  store ptr %1, ptr %4, align 8
  %5 = load ptr, ptr %4, align 8
  %6 = load ptr, ptr %3, align 8
  %7 = getelementptr inbounds %struct.disk, ptr %6, i32 0, i32 1
  store ptr %5, ptr %7, align 8
  ret void
}

; Function Attrs: noinline nounwind optnone uwtable
define dso_local i32 @do_read(i64 noundef %0, i64 noundef %1) #0 {
  %3 = alloca i64, align 8
  %4 = alloca i64, align 8
  %5 = alloca ptr, align 8
  %6 = alloca i32, align 4
  store i64 %0, ptr %3, align 8
  store i64 %1, ptr %4, align 8
  %7 = load i64, ptr %3, align 8
  %8 = getelementptr inbounds [4 x %struct.disk], ptr @disks, i64 0, i64 %7
  store ptr %8, ptr %5, align 8
  %9 = load ptr, ptr %5, align 8
  %10 = getelementptr inbounds %struct.disk, ptr %9, i32 0, i32 0
  %11 = load ptr, ptr %10, align 8
  %12 = getelementptr inbounds %struct.disk_ops, ptr %11, i32 0, i32 0
  %13 = load ptr, ptr %5, align 8
  %14 = load i64, ptr %4, align 8
  %15 = call i32 @k.slot.read(ptr noundef %12, ptr noundef %13, i64 noundef %14, ptr noundef getelementptr inbounds ([16 x i8], ptr @buffer, i64 0, i64 0))
  store i32 %15, ptr %6, align 4
  %16 = load i8, ptr getelementptr inbounds ([16 x i8], ptr @buffer, i64 0, i64 0), align 16
  %17 = zext i8 %16 to i64
  call void @k.note(i64 noundef %17)
  %18 = load i32, ptr %6, align 4
  ret i32 %18
}

declare i32 @k.slot.read(ptr noundef, ptr noundef, i64 noundef, ptr noundef) #1

declare void @k.note(i64 noundef) #1

; Function Attrs: noinline nounwind optnone uwtable
define dso_local i32 @do_close(i64 noundef %0) #0 {
  %2 = alloca i64, align 8
  %3 = alloca ptr, align 8
  store i64 %0, ptr %2, align 8
  %4 = load i64, ptr %2, align 8
  %5 = getelementptr inbounds [4 x %struct.disk], ptr @disks, i64 0, i64 %4
  store ptr %5, ptr %3, align 8
  %6 = load ptr, ptr %3, align 8
  %7 = getelementptr inbounds %struct.disk, ptr %6, i32 0, i32 0
  %8 = load ptr, ptr %7, align 8
  %9 = getelementptr inbounds %struct.disk_ops, ptr %8, i32 0, i32 1
  %10 = load ptr, ptr %3, align 8
  %11 = call i32 @k.slot.close(ptr noundef %9, ptr noundef %10)
  ret i32 %11
}

declare i32 @k.slot.close(ptr noundef, ptr noundef) #1

attributes #0 = { noinline nounwind optnone uwtable "frame-pointer"="all" "min-legal-vector-width"="0" "no-trapping-math"="true" "stack-protector-buffer-size"="8" "target-cpu"="x86-64" "target-features"="+cx8,+fxsr,+mmx,+sse,+sse2,+x87" "tune-cpu"="generic" }
attributes #1 = { "frame-pointer"="all" "no-trapping-math"="true" "stack-protector-buffer-size"="8" "target-cpu"="x86-64" "target-features"="+cx8,+fxsr,+mmx,+sse,+sse2,+x87" "tune-cpu"="generic" }

!llvm.module.flags = !{!0, !1, !2, !3, !4}
!llvm.ident = !{!5}

!0 = !{i32 1, !"wchar_size", i32 4}
!1 = !{i32 7, !"PIC Level", i32 2}
!2 = !{i32 7, !"PIE Level", i32 2}
!3 = !{i32 7, !"uwtable", i32 1}
!4 = !{i32 7, !"frame-pointer", i32 2}
!5 = !{!"Debian clang version 14.0.6"}
---- file examples/manual/disk.txt
interface 2
reftype disk
slot read : i32 (ptr disk, i64 sector, ptr to) principal(disk) pre(lend(write, to, 16)) pre(copy(ref(disk), disk))
slot close : i32 (ptr disk) principal(disk)
field %struct.disk_ops 0 : read
field %struct.disk_ops 1 : close
export alloc : ptr (i64 size) post(if (return != 0) transfer(write, return, size))
export release : void (ptr block) pre(transfer(write, block, 32))
export disk_add : ptr (ptr ops)
export disk_private : void (ptr disk, ptr priv) pre(check(ref(disk), disk))
---- file examples/manual/disk.ll
; ModuleID = 'disk.c'
source_filename = "disk.c"
target datalayout = "e-m:e-p270:32:32-p271:32:32-p272:64:64-i64:64-f80:128-n8:16:32:64-S128"
target triple = "x86_64-pc-linux-gnu"

%struct.disk_ops = type { ptr, ptr }
%struct.disk = type { ptr, ptr }
%struct.cache = type { i64, i64, [16 x i8] }

@ops = internal global %struct.disk_ops { ptr @disk_read, ptr @disk_close }, align 8

; Function Attrs: noinline nounwind optnone uwtable
define dso_local i32 @init() #0 {
  %1 = call ptr @disk_add(ptr noundef @ops)
  %2 = icmp ne ptr %1, null
  br i1 %2, label %3, label %6

3:                                                ; preds = %0
  %4 = call ptr @disk_add(ptr noundef @ops)
  %5 = icmp ne ptr %4, null
  br label %6

6:                                                ; preds = %3, %0
  %7 = phi i1 [ false, %0 ], [ %5, %3 ]
  %8 = zext i1 %7 to i64
  %9 = select i1 %7, i32 0, i32 -12
  ret i32 %9
}

declare ptr @disk_add(ptr noundef) #1

; Function Attrs: noinline nounwind optnone uwtable
define internal i32 @disk_read(ptr noundef %0, i64 noundef %1, ptr noundef %2) #0 {
  %4 = alloca i32, align 4
  %5 = alloca ptr, align 8
  %6 = alloca i64, align 8
  %7 = alloca ptr, align 8
  %8 = alloca ptr, align 8
  %9 = alloca i32, align 4
  store ptr %0, ptr %5, align 8
  store i64 %1, ptr %6, align 8
  store ptr %2, ptr %7, align 8
  %10 = load ptr, ptr %5, align 8
  %11 = getelementptr inbounds %struct.disk, ptr %10, i32 0, i32 1
  %12 = load ptr, ptr %11, align 8
  store ptr %12, ptr %8, align 8
  %13 = load ptr, ptr %8, align 8
  %14 = icmp ne ptr %13, null
  br i1 %14, label %23, label %15

15:                                               ; preds = %3
  %16 = call ptr @alloc(i64 noundef 32)
  store ptr %16, ptr %8, align 8
  %17 = load ptr, ptr %8, align 8
  %18 = icmp ne ptr %17, null
  br i1 %18, label %20, label %19

19:                                               ; preds = %15
  store i32 -12, ptr %4, align 4
  br label %53

20:                                               ; preds = %15
  %21 = load ptr, ptr %5, align 8
  %22 = load ptr, ptr %8, align 8
  call void @disk_private(ptr noundef %21, ptr noundef %22)
  br label %23

23:                                               ; preds = %20, %3
  %24 = load ptr, ptr %8, align 8
  %25 = getelementptr inbounds %struct.cache, ptr %24, i32 0, i32 0
  %26 = load i64, ptr %25, align 8
  %27 = add i64 %26, 1
  store i64 %27, ptr %25, align 8
  %28 = load i64, ptr %6, align 8
  %29 = load ptr, ptr %8, align 8
  %30 = getelementptr inbounds %struct.cache, ptr %29, i32 0, i32 1
  store i64 %28, ptr %30, align 8
  store i32 0, ptr %9, align 4
  br label %31

31:                                               ; preds = %49, %23
  %32 = load i32, ptr %9, align 4
  %33 = icmp slt i32 %32, 16
  br i1 %33, label %34, label %52

34:                                               ; preds = %31
  %35 = load i64, ptr %6, align 8
  %36 = load i32, ptr %9, align 4
  %37 = sext i32 %36 to i64
  %38 = add i64 %35, %37
  %39 = trunc i64 %38 to i8
  %40 = load ptr, ptr %8, align 8
  %41 = getelementptr inbounds %struct.cache, ptr %40, i32 0, i32 2
  %42 = load i32, ptr %9, align 4
  %43 = sext i32 %42 to i64
  %44 = getelementptr inbounds [16 x i8], ptr %41, i64 0, i64 %43
  store i8 %39, ptr %44, align 1
  %45 = load ptr, ptr %7, align 8
  %46 = load i32, ptr %9, align 4
  %47 = sext i32 %46 to i64
  %48 = getelementptr inbounds i8, ptr %45, i64 %47
  store i8 %39, ptr %48, align 1
  br label %49

49:                                               ; preds = %34
  %50 = load i32, ptr %9, align 4
  %51 = add nsw i32 %50, 1
  store i32 %51, ptr %9, align 4
  br label %31, !llvm.loop !6

52:                                               ; preds = %31
  store i32 16, ptr %4, align 4
  br label %53

53:                                               ; preds = %52, %19
  %54 = load i32, ptr %4, align 4
  ret i32 %54
}

; Function Attrs: noinline nounwind optnone uwtable
define internal i32 @disk_close(ptr noundef %0) #0 {
  %2 = alloca ptr, align 8
  store ptr %0, ptr %2, align 8
  %3 = load ptr, ptr %2, align 8
  %4 = getelementptr inbounds %struct.disk, ptr %3, i32 0, i32 1
  %5 = load ptr, ptr %4, align 8
  %6 = icmp ne ptr %5, null
  br i1 %6, label %7, label %11

7:                                                ; preds = %1
  %8 = load ptr, ptr %2, align 8
  %9 = getelementptr inbounds %struct.disk, ptr %8, i32 0, i32 1
  %10 = load ptr, ptr %9, align 8
  call void @release(ptr noundef %10)
  br label %11

11:                                               ; preds = %7, %1
  ret i32 0
}

declare ptr @alloc(i64 noundef) #1

declare void @disk_private(ptr noundef, ptr noundef) #1

declare void @release(ptr noundef) #1

attributes #0 = { noinline nounwind optnone uwtable "frame-pointer"="all" "min-legal-vector-width"="0" "no-trapping-math"="true" "stack-protector-buffer-size"="8" "target-cpu"="x86-64" "target-features"="+cx8,+fxsr,+mmx,+sse,+sse2,+x87" "tune-cpu"="generic" }
attributes #1 = { "frame-pointer"="all" "no-trapping-math"="true" "stack-protector-buffer-size"="8" "target-cpu"="x86-64" "target-features"="+cx8,+fxsr,+mmx,+sse,+sse2,+x87" "tune-cpu"="generic" }

!llvm.module.flags = !{!0, !1, !2, !3, !4}
!llvm.ident = !{!5}

!0 = !{i32 1, !"wchar_size", i32 4}
!1 = !{i32 7, !"PIC Level", i32 2}
!2 = !{i32 7, !"PIE Level", i32 2}
!3 = !{i32 7, !"uwtable", i32 1}
!4 = !{i32 7, !"frame-pointer", i32 2}
!5 = !{!"Debian clang version 14.0.6"}
!6 = distinct !{!6, !7}
!7 = !{!"llvm.loop.mustprogress"}
---- file examples/manual/c_kernel.case
lxfi case 1
kernel file examples/manual/c_kernel.ll
interface file examples/manual/timer.txt
module t examples/manual/timer.ll
thread
call t:start fuel 100
call kernel:do_tick 7 fuel 100
call t:read_last fuel 100
call t:wild fuel 100
---- file examples/manual/c_kernel.ll
; ModuleID = 'c_kernel.c'
source_filename = "c_kernel.c"
target datalayout = "e-m:e-p270:32:32-p271:32:32-p272:64:64-i64:64-f80:128-n8:16:32:64-S128"
target triple = "x86_64-pc-linux-gnu"

@timer = internal global ptr null, align 8

; Function Attrs: noinline nounwind optnone uwtable
define dso_local void @timer_set(ptr noundef %0) #0 {
  %2 = alloca ptr, align 8
  store ptr %0, ptr %2, align 8
  %3 = load ptr, ptr %2, align 8
  store ptr %3, ptr @timer, align 8
  ret void
}

; Function Attrs: noinline nounwind optnone uwtable
define dso_local void @do_tick(i64 noundef %0) #0 {
  %2 = alloca i64, align 8
  store i64 %0, ptr %2, align 8
  %3 = load i64, ptr %2, align 8
  call void @k.slot.tick(ptr noundef @timer, i64 noundef %3)
  ret void
}

declare void @k.slot.tick(ptr noundef, i64 noundef) #1

attributes #0 = { noinline nounwind optnone uwtable "frame-pointer"="all" "min-legal-vector-width"="0" "no-trapping-math"="true" "stack-protector-buffer-size"="8" "target-cpu"="x86-64" "target-features"="+cx8,+fxsr,+mmx,+sse,+sse2,+x87" "tune-cpu"="generic" }
attributes #1 = { "frame-pointer"="all" "no-trapping-math"="true" "stack-protector-buffer-size"="8" "target-cpu"="x86-64" "target-features"="+cx8,+fxsr,+mmx,+sse,+sse2,+x87" "tune-cpu"="generic" }

!llvm.module.flags = !{!0, !1, !2, !3, !4}
!llvm.ident = !{!5}

!0 = !{i32 1, !"wchar_size", i32 4}
!1 = !{i32 7, !"PIC Level", i32 2}
!2 = !{i32 7, !"PIE Level", i32 2}
!3 = !{i32 7, !"uwtable", i32 1}
!4 = !{i32 7, !"frame-pointer", i32 2}
!5 = !{!"Debian clang version 14.0.6"}
---- file examples/manual/sites.case
lxfi case 1
kernel file examples/manual/timer_kernel.ll
interface file examples/manual/timer.txt
module m examples/manual/sites.ll
thread
call m:set_a fuel 100
call kernel:do_tick 1 fuel 100
call m:set_b fuel 100
call kernel:do_tick 2 fuel 100
call m:set_c 3 fuel 100
call kernel:do_tick 3 fuel 100
call m:set_d fuel 100
call kernel:do_tick 4 fuel 100
---- file examples/manual/sites.ll
%struct.timer = type { ptr }
%struct.pair = type { i64, %struct.timer }
@first = global %struct.timer { ptr @a }
@second = global %struct.pair zeroinitializer
@third = global [4 x %struct.timer] zeroinitializer
declare void @timer_set(ptr)
define void @a(i64 %now) {
  ret void
}
define void @b(i64 %now) {
  ret void
}
define void @c(i64 %now) {
  ret void
}
define void @d(i64 %now) {
  ret void
}
define void @set_a() {
  call void @timer_set(ptr @a)
  ret void
}
define void @set_b() {
  store ptr @b, ptr getelementptr (%struct.pair, ptr @second, i64 0, i32 1, i32 0)
  call void @timer_set(ptr @b)
  ret void
}
define void @set_c(i64 %n) {
  %p = getelementptr [4 x %struct.timer], ptr @third, i64 0, i64 %n, i32 0
  store ptr @c, ptr %p
  call void @timer_set(ptr @c)
  ret void
}
define void @set_d() {
  call void @timer_set(ptr @d)
  ret void
}
---- file examples/manual/principals.case
lxfi case 1
kernel file examples/manual/principals_kernel.ll
interface file examples/manual/principals.txt
module m examples/manual/principals.ll
thread
call m:init fuel 100
call kernel:open 1 fuel 100
call kernel:poke 1 fuel 100
call kernel:poke 2 fuel 100
call kernel:sum 1 fuel 100
call kernel:tidy 1 fuel 100
---- file examples/manual/principals_kernel.ll
declare ptr @k.alloc(i64)
declare i64 @k.slot.open(ptr, ptr)
declare i64 @k.slot.poke(ptr, ptr)
declare i64 @k.slot.sum(ptr, ptr)
declare i64 @k.slot.tidy(ptr, ptr)
@ops = global ptr null
define ptr @get(i64 %n) {
  %p = call ptr @k.alloc(i64 %n)
  ret ptr %p
}
define void @set(ptr %ops) {
  store ptr %ops, ptr @ops
  ret void
}
define i64 @open(ptr %who) {
  %t = load ptr, ptr @ops
  %r = call i64 @k.slot.open(ptr %t, ptr %who)
  ret i64 %r
}
define i64 @poke(ptr %who) {
  %t = load ptr, ptr @ops
  %s = getelementptr ptr, ptr %t, i64 1
  %r = call i64 @k.slot.poke(ptr %s, ptr %who)
  ret i64 %r
}
define i64 @sum(ptr %who) {
  %t = load ptr, ptr @ops
  %s = getelementptr ptr, ptr %t, i64 2
  %r = call i64 @k.slot.sum(ptr %s, ptr %who)
  ret i64 %r
}
define i64 @tidy(ptr %who) {
  %t = load ptr, ptr @ops
  %s = getelementptr ptr, ptr %t, i64 3
  %r = call i64 @k.slot.tidy(ptr %s, ptr %who)
  ret i64 %r
}
---- file examples/manual/principals.txt
interface 1
slot open : i64 (ptr who) principal(who)
slot poke : i64 (ptr who) principal(who)
slot sum : i64 (ptr who) principal(shared)
slot tidy : i64 (ptr who) principal(global)
field %struct.ops 0 : open
field %struct.ops 1 : poke
field %struct.ops 2 : sum
field %struct.ops 3 : tidy
export get : ptr (i64 n) post(if (return != 0) transfer(write, return, n))
export set : void (ptr ops)
---- file examples/manual/principals.ll
; ModuleID = 'principals.c'
source_filename = "principals.c"
target datalayout = "e-m:e-p270:32:32-p271:32:32-p272:64:64-i64:64-f80:128-n8:16:32:64-S128"
target triple = "x86_64-pc-linux-gnu"

%struct.ops = type { ptr, ptr, ptr, ptr }

@ops = internal global %struct.ops { ptr @open_box, ptr @poke_box, ptr @sum_box, ptr @tidy_box }, align 8
@opened = internal global i64 0, align 8
@box = internal global ptr null, align 8

; Function Attrs: noinline nounwind optnone uwtable
define dso_local void @init() #0 {
  call void @set(ptr noundef @ops)
  ret void
}

declare void @set(ptr noundef) #1

; Function Attrs: noinline nounwind optnone uwtable
define internal i64 @open_box(ptr noundef %0) #0 {
  %2 = alloca ptr, align 8
  store ptr %0, ptr %2, align 8
  %3 = load i64, ptr @opened, align 8
  %4 = add i64 %3, 1
  store i64 %4, ptr @opened, align 8
  %5 = call ptr @get(i64 noundef 8)
  store ptr %5, ptr @box, align 8
  ret i64 0
}

; Function Attrs: noinline nounwind optnone uwtable
define internal i64 @poke_box(ptr noundef %0) #0 {
  %2 = alloca ptr, align 8
  store ptr %0, ptr %2, align 8
  %3 = load ptr, ptr @box, align 8
  store i64 1, ptr %3, align 8
  ret i64 1
}

; Function Attrs: noinline nounwind optnone uwtable
define internal i64 @sum_box(ptr noundef %0) #0 {
  %2 = alloca ptr, align 8
  store ptr %0, ptr %2, align 8
  %3 = load ptr, ptr @box, align 8
  store i64 2, ptr %3, align 8
  ret i64 2
}

; Function Attrs: noinline nounwind optnone uwtable
define internal i64 @tidy_box(ptr noundef %0) #0 {
  %2 = alloca ptr, align 8
  store ptr %0, ptr %2, align 8
  %3 = load ptr, ptr @box, align 8
  store i64 3, ptr %3, align 8
  ret i64 3
}

declare ptr @get(i64 noundef) #1

attributes #0 = { noinline nounwind optnone uwtable "frame-pointer"="all" "min-legal-vector-width"="0" "no-trapping-math"="true" "stack-protector-buffer-size"="8" "target-cpu"="x86-64" "target-features"="+cx8,+fxsr,+mmx,+sse,+sse2,+x87" "tune-cpu"="generic" }
attributes #1 = { "frame-pointer"="all" "no-trapping-math"="true" "stack-protector-buffer-size"="8" "target-cpu"="x86-64" "target-features"="+cx8,+fxsr,+mmx,+sse,+sse2,+x87" "tune-cpu"="generic" }

!llvm.module.flags = !{!0, !1, !2, !3, !4}
!llvm.ident = !{!5}

!0 = !{i32 1, !"wchar_size", i32 4}
!1 = !{i32 7, !"PIC Level", i32 2}
!2 = !{i32 7, !"PIE Level", i32 2}
!3 = !{i32 7, !"uwtable", i32 1}
!4 = !{i32 7, !"frame-pointer", i32 2}
!5 = !{!"Debian clang version 14.0.6"}
---- file examples/manual/lists.case
lxfi case 1
kernel file examples/manual/lists_kernel.ll
interface file examples/manual/lists.txt
module m examples/manual/lists.ll
thread
call m:take fuel 100
call m:show 0x1000010 fuel 100
---- file examples/manual/lists_kernel.ll
define ptr @give(i64 %n) {
  ret ptr @thing
}
@thing = global [4 x i64] [i64 1, i64 4096, i64 7, i64 0]
define void @want(ptr %p) {
  ret void
}
---- file examples/manual/lists.txt
interface 1
reftype key
iterator thing(p) { write p, 16; call load64(p + 8); if (load64(p)) ref key, p; if (load64(p + 24)) write load64(p + 24), 8 }
export give : ptr (i64 n) post(copy(thing(return)))
export want : void (ptr p) pre(check(thing(p)))
---- file examples/manual/lists.ll
declare ptr @give(i64)
declare void @want(ptr)
define void @take() {
  %p = call ptr @give(i64 1)
  call void @want(ptr %p)
  ret void
}
define void @show(ptr %p) {
  call void @want(ptr %p)
  ret void
}
---- file examples/manual/values.case
lxfi case 1
kernel file examples/manual/values_kernel.ll
interface file examples/manual/values.txt
module m examples/manual/values.ll
thread
call m:shift 3 4 fuel 9
call m:shift 3 64 fuel 9
call m:compare -1 0 fuel 9
call m:compare 0 -1 fuel 9
call m:decide 0 fuel 9
call m:decide &m:five fuel 9
call m:decide 1 fuel 9
call m:look &m:five fuel 9
call m:look 0x10ffffc fuel 9
---- file examples/manual/values_kernel.ll
define void @shifts(i64 %a, i64 %b) {
  ret void
}
define void @compares(i64 %a, i64 %b) {
  ret void
}
define void @lazy(ptr %p) {
  ret void
}
define void @loads(ptr %p) {
  ret void
}
---- file examples/manual/values.txt
interface 1
export shifts : void (i64 a, i64 b) pre(check(call, a << b)) pre(check(call, a >> b))
export compares : void (i64 a, i64 b) pre(check(call, 256 + (a < b)))
export lazy : void (ptr p) pre(if (p != 0 && load64(p) == 5) check(call, 1))
export loads : void (ptr p) pre(check(call, load64(p)))
---- file examples/manual/values.ll
@five = global i64 5
declare void @shifts(i64, i64)
declare void @compares(i64, i64)
declare void @lazy(ptr)
declare void @loads(ptr)
define void @shift(i64 %a, i64 %b) {
  call void @shifts(i64 %a, i64 %b)
  ret void
}
define void @compare(i64 %a, i64 %b) {
  call void @compares(i64 %a, i64 %b)
  ret void
}
define void @decide(ptr %p) {
  call void @lazy(ptr %p)
  ret void
}
define void @look(ptr %p) {
  call void @loads(ptr %p)
  ret void
}
---- file examples/manual/signs.case
lxfi case 1
kernel file examples/manual/signs_kernel.ll
interface file examples/manual/signs.txt
module m examples/manual/signs.ll
thread
call m:i8 fuel 9
call m:u8 fuel 9
call m:bool fuel 9
---- file examples/manual/signs_kernel.ll
define void @take_i8(i8 %n) {
  ret void
}
define void @take_u8(i8 %n) {
  ret void
}
define void @take_bool(i1 %n) {
  ret void
}
---- file examples/manual/signs.txt
interface 1
export take_i8 : void (i8 n) pre(check(call, n))
export take_u8 : void (u8 n) pre(check(call, n))
export take_bool : void (bool n) pre(check(call, n))
---- file examples/manual/signs.ll
declare void @take_i8(i8)
declare void @take_u8(i8)
declare void @take_bool(i1)
define void @i8() {
  call void @take_i8(i8 -1)
  ret void
}
define void @u8() {
  call void @take_u8(i8 -1)
  ret void
}
define void @bool() {
  call void @take_bool(i1 true)
  ret void
}
---- file examples/manual/canonical.case
lxfi case 1
kernel file examples/manual/canonical_kernel.ll
interface file examples/manual/canonical.txt
module m examples/manual/canonical.ll
thread
call m:init fuel 100
call kernel:go fuel 100
---- file examples/manual/canonical_kernel.ll
declare void @k.slot.plain(ptr, ptr, i64)
@hook = global ptr null
define void @set(ptr %slot) {
  store ptr %slot, ptr @hook
  ret void
}
define void @go() {
  %slot = load ptr, ptr @hook
  call void @k.slot.plain(ptr %slot, ptr null, i64 0)
  ret void
}
---- file examples/manual/canonical.txt
interface 1
slot plain : void (ptr p, i64 q)
slot rich : void (ptr p, i64 q)
  pre(check(call, p - q - 1)) pre(check(call, -p * q)) pre(check(call, p << 1 + 2 >> q))
  pre(check(call, p & q == 1)) pre(check(call, p || q && 1)) pre(check(call, load64(p + 8) + 8))
field %struct.table 0 : plain
field %struct.other 0 : rich
export set : void (ptr slot)
---- file examples/manual/canonical.ll
%struct.table = type { ptr }
%struct.other = type { ptr }
@table = global %struct.table zeroinitializer
@other = global %struct.other { ptr @f }
declare void @set(ptr)
define void @f(ptr %p, i64 %q) {
  ret void
}
define void @init() {
  %f = load ptr, ptr @other
  store ptr %f, ptr @table
  call void @set(ptr @table)
  ret void
}
---- file examples/manual/lend.case
lxfi case 1
kernel builtin
interface file examples/manual/lend.txt
module m examples/manual/lend.ll
thread
call m:init fuel 100
call kernel:skb_new 8 fuel 100
call kernel:do_xmit 0 0x2000010 fuel 100
call kernel:do_probe 0 fuel 100
---- file examples/manual/lend.txt
interface 2
reftype device
iterator skb_caps(p) { write p, 24; write load64(p), load64(p + 8) }
slot probe : i32 (ptr dev) principal(dev) pre(copy(ref(device), dev)) post(if (return < 0) transfer(ref(device), dev))
slot xmit : i32 (ptr skb, ptr dev) principal(dev) pre(lend(skb_caps(skb)))
field %struct.dev_ops 0 : probe
field %struct.dev_ops 1 : xmit
export kmalloc : ptr (i64 n) post(if (return != 0) transfer(write, return, n))
export kzalloc : ptr (i64 n) post(if (return != 0) transfer(write, return, n))
export kfree : void (ptr p) pre(if (p != 0) transfer(write, p, load64(p - 16)))
export dev_register : ptr (ptr ops)
export dev_set_priv : void (ptr dev, ptr v) pre(check(ref(device), dev))
export dev_zero : void (ptr p, i64 n) pre(check(write, p, n))
export dev_wipe : void (ptr p, i64 n) pre(transfer(write, p, n)) post(transfer(write, p, n))
export skb_new : ptr (i64 n) post(if (return != 0) transfer(write, return, 24)) post(if (return != 0) transfer(write, load64(return), n))
export netif_rx : i32 (ptr skb) pre(transfer(skb_caps(skb)))
export hook_get : ptr () post(copy(call, return))
export hook_fn : i64 (i64 x)
"#
}
