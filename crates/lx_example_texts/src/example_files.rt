//! Files of `examples/`.
//! Written by `tools/example-texts` from them.

/// Files of `examples/` that runs and traces read, each behind its name.
pub fn example_files_table() -> &'static str {
    r#"---- file examples/one.case
lxfi case 1
kernel none
interface none
module m examples/one.ll
thread
call m:main fuel 4
---- file examples/one.ll
@g = global i32 0
define i32 @main() {
store i32 7, ptr @g
%v = load i32, ptr @g
ret i32 %v
}
---- file examples/budget.case
lxfi case 1
kernel none
interface none
module m examples/one.ll
thread
call m:main fuel 3
---- file examples/past.case
lxfi case 1
kernel none
interface none
module m examples/past.ll
thread
call m:main fuel 4
---- file examples/past.ll
@g = global i32 0
define i32 @main() {
  store i64 7, ptr @g
  %v = load i32, ptr @g
  ret i32 %v
}
---- file examples/shared.case
lxfi case 1
kernel file examples/shared_kernel.ll
interface file examples/shared.txt
module m examples/shared.ll
thread
call m:make fuel 100
call m:drop fuel 100
thread
call m:poke fuel 100
---- file examples/shared.schedule
schedule 0*8 1*3 0*4 1*1 0*4
---- file examples/shared_kernel.ll
declare ptr @k.alloc(i64)
declare void @k.free(ptr)
define ptr @get(i64 %n) {
  %p = call ptr @k.alloc(i64 %n)
  ret ptr %p
}
define void @put(ptr %p) {
  call void @k.free(ptr %p)
  ret void
}
---- file examples/shared.txt
interface 1
export get : ptr (i64 n) post(transfer(write, return, n))
export put : void (ptr p) pre(transfer(write, p, 8))
---- file examples/shared.ll
@box = global ptr null
declare ptr @get(i64)
declare void @put(ptr)
define void @make() {
  %p = call ptr @get(i64 8)
  store ptr %p, ptr @box
  ret void
}
define void @drop() {
  %p = load ptr, ptr @box
  call void @put(ptr %p)
  ret void
}
define void @poke() {
  %p = load ptr, ptr @box
  store i64 5, ptr %p
  store i64 6, ptr %p
  ret void
}
---- file examples/letters.case
lxfi case 1
kernel file examples/letters_kernel.ll
interface file examples/letters.txt
module m examples/letters.ll
thread
call m:send 3 fuel 100
call m:send 7 fuel 100
call m:send_and_write 2 fuel 100
---- file examples/letters_kernel.ll
declare ptr @k.alloc(i64)
declare void @k.note(i64)
define ptr @box_open(i64 %k) {
  %b = inttoptr i64 %k to ptr
  ret ptr %b
}
define ptr @letter_new(i64 %n) {
  %l = call ptr @k.alloc(i64 16)
  %t = call ptr @k.alloc(i64 %n)
  store ptr %t, ptr %l
  %s = getelementptr i8, ptr %l, i64 8
  store i64 %n, ptr %s
  ret ptr %l
}
define void @letter_send(ptr %b, ptr %l) {
  %s = getelementptr i8, ptr %l, i64 8
  %n = load i64, ptr %s
  call void @k.note(i64 %n)
  ret void
}
---- file examples/letters.txt
interface 1
reftype box
# a letter is its head of 16 bytes, and the text that the head points to
iterator letter(p) { write p, 16; write load64(p), load64(p + 8) }
export box_open : ptr (i64 k) post(if (k < 4) copy(ref(box), return))
export letter_new : ptr (i64 n) post(if (return != 0) transfer(letter(return)))
export letter_send : void (ptr b, ptr l) pre(check(ref(box), b)) pre(transfer(letter(l)))
---- file examples/letters.ll
declare ptr @box_open(i64)
declare ptr @letter_new(i64)
declare void @letter_send(ptr, ptr)
define void @send(i64 %k) {
  %b = call ptr @box_open(i64 %k)
  %l = call ptr @letter_new(i64 8)
  %t = load ptr, ptr %l
  store i64 7, ptr %t
  call void @letter_send(ptr %b, ptr %l)
  ret void
}
define void @send_and_write(i64 %k) {
  %b = call ptr @box_open(i64 %k)
  %l = call ptr @letter_new(i64 8)
  %t = load ptr, ptr %l
  call void @letter_send(ptr %b, ptr %l)
  store i64 7, ptr %t
  ret void
}
---- file examples/c_files.case
lxfi case 1
kernel none
interface none
module ring examples/c/ring.ll
module sum examples/c/checksum.ll
thread
call ring:ring_sum 5 fuel 10000
call ring:ring_sum 40 fuel 100000
call ring:ring_put 9 fuel 1000
call ring:ring_take fuel 1000
call ring:ring_take fuel 1000
call sum:checksum_of_packet fuel 100000
---- file examples/driver.case
lxfi case 1
kernel file examples/driver_kernel.ll
interface file examples/driver.txt
module driver examples/c/driver.ll
thread
call driver:driver_init fuel 1000
call driver:driver_init fuel 1000
call kernel:do_open fuel 1000
call kernel:do_open fuel 1000
call kernel:users fuel 1000
call kernel:do_write 12 fuel 1000
call kernel:last fuel 1000
call kernel:do_write 3 fuel 1000
call kernel:last fuel 1000
call kernel:written fuel 1000
call kernel:do_close fuel 1000
call kernel:users fuel 1000
call kernel:written fuel 1000
call kernel:do_close fuel 1000
call kernel:users fuel 1000
call kernel:written fuel 1000
call kernel:do_close fuel 1000
call kernel:users fuel 1000
---- file examples/device.case
lxfi case 1
kernel file examples/driver_kernel.ll
interface file examples/device.txt
module driver examples/c/driver.ll
thread
call driver:driver_init fuel 1000
call driver:driver_init fuel 1000
call kernel:do_open fuel 1000
call kernel:do_open fuel 1000
call kernel:users fuel 1000
call kernel:do_write 12 fuel 1000
call kernel:last fuel 1000
call kernel:do_write 3 fuel 1000
call kernel:last fuel 1000
call kernel:written fuel 1000
call kernel:do_close fuel 1000
call kernel:users fuel 1000
call kernel:written fuel 1000
call kernel:do_close fuel 1000
call kernel:users fuel 1000
call kernel:written fuel 1000
call kernel:do_close fuel 1000
call kernel:users fuel 1000
---- file examples/device.txt
lxfi_c 1
// device.h, by tools/module --prototypes
// device.h:18
struct device_ops {
    int (*open)(struct device *device);
    long (*write)(struct device *device, const char *bytes, unsigned long length);
    void (*close)(struct device *device);
};
// device.h:33
void *kmalloc(unsigned long size) post(if (return != 0) transfer(write, return, size));
// device.h:34
void kfree(void *block) pre(transfer(write, block, 32));
// device.h:36
int device_register(struct device *device);
---- file examples/nic.case
lxfi case 1
kernel builtin
interface builtin
module nic examples/nic.ll
thread
call nic:card_init fuel 100
call kernel:do_probe 0 fuel 200
call kernel:skb_new 4 fuel 100
call kernel:do_xmit 0 0x2000030 fuel 400
---- file examples/nic_past.case
lxfi case 1
kernel builtin
interface builtin
module nic examples/nic_past.ll
thread
call nic:card_init fuel 100
call kernel:do_probe 0 fuel 200
call kernel:skb_new 4 fuel 100
call kernel:do_xmit 0 0x2000030 fuel 400
---- file examples/nic_after.case
lxfi case 1
kernel builtin
interface builtin
module nic examples/nic_after.ll
thread
call nic:card_init fuel 100
call kernel:do_probe 0 fuel 200
call kernel:skb_new 4 fuel 100
call kernel:do_xmit 0 0x2000030 fuel 400
---- file examples/nic_bent.case
lxfi case 1
kernel builtin
interface builtin
module nic examples/nic_bent.ll
thread
call nic:card_init fuel 100
call nic:card_bend fuel 100
call kernel:do_probe 0 fuel 200
---- file examples/other.case
lxfi case 1
kernel builtin
interface builtin
module nic examples/other.ll
thread
call nic:card_init fuel 100
call kernel:do_probe 0 fuel 200
call kernel:do_probe 1 fuel 200
call kernel:skb_new 4 fuel 100
call kernel:do_xmit 0 0x2000050 fuel 400
---- file examples/other.ll
; ModuleID = 'other.c'
source_filename = "other.c"
target datalayout = "e-m:e-p270:32:32-p271:32:32-p272:64:64-i64:64-f80:128-n8:16:32:64-S128"
target triple = "x86_64-pc-linux-gnu"

%struct.dev_ops = type { ptr, ptr }
%struct.card = type { i64, i64 }
%struct.packet = type { ptr, i64, i64 }

@card_ops = internal global %struct.dev_ops { ptr @card_probe, ptr @card_xmit }, align 8
@card = internal global ptr null, align 8

; Function Attrs: noinline nounwind optnone uwtable
define dso_local i32 @card_init() #0 {
  %1 = alloca i32, align 4
  %2 = call ptr @dev_register(ptr noundef @card_ops)
  %3 = icmp ne ptr %2, null
  br i1 %3, label %4, label %7

4:                                                ; preds = %0
  %5 = call ptr @dev_register(ptr noundef @card_ops)
  %6 = icmp ne ptr %5, null
  br i1 %6, label %8, label %7

7:                                                ; preds = %4, %0
  store i32 -12, ptr %1, align 4
  br label %9

8:                                                ; preds = %4
  store i32 0, ptr %1, align 4
  br label %9

9:                                                ; preds = %8, %7
  %10 = load i32, ptr %1, align 4
  ret i32 %10
}

declare ptr @dev_register(ptr noundef) #1

; Function Attrs: noinline nounwind optnone uwtable
define internal i32 @card_probe(ptr noundef %0) #0 {
  %2 = alloca i32, align 4
  %3 = alloca ptr, align 8
  store ptr %0, ptr %3, align 8
  %4 = call ptr @kzalloc(i64 noundef 16)
  store ptr %4, ptr @card, align 8
  %5 = load ptr, ptr @card, align 8
  %6 = icmp ne ptr %5, null
  br i1 %6, label %8, label %7

7:                                                ; preds = %1
  store i32 -12, ptr %2, align 4
  br label %11

8:                                                ; preds = %1
  %9 = load ptr, ptr %3, align 8
  %10 = load ptr, ptr @card, align 8
  call void @dev_set_priv(ptr noundef %9, ptr noundef %10)
  store i32 0, ptr %2, align 4
  br label %11

11:                                               ; preds = %8, %7
  %12 = load i32, ptr %2, align 4
  ret i32 %12
}

; Function Attrs: noinline nounwind optnone uwtable
define internal i32 @card_xmit(ptr noundef %0, ptr noundef %1) #0 {
  %3 = alloca ptr, align 8
  %4 = alloca ptr, align 8
  store ptr %0, ptr %3, align 8
  store ptr %1, ptr %4, align 8
  %5 = load ptr, ptr @card, align 8
  %6 = getelementptr inbounds %struct.card, ptr %5, i32 0, i32 0
  %7 = load i64, ptr %6, align 8
  %8 = add i64 %7, 1
  store i64 %8, ptr %6, align 8
  %9 = load ptr, ptr %3, align 8
  %10 = getelementptr inbounds %struct.packet, ptr %9, i32 0, i32 1
  %11 = load i64, ptr %10, align 8
  %12 = load ptr, ptr @card, align 8
  %13 = getelementptr inbounds %struct.card, ptr %12, i32 0, i32 1
  %14 = load i64, ptr %13, align 8
  %15 = add i64 %14, %11
  store i64 %15, ptr %13, align 8
  %16 = load ptr, ptr %3, align 8
  %17 = call i32 @netif_rx(ptr noundef %16)
  ret i32 %17
}

declare ptr @kzalloc(i64 noundef) #1

declare void @dev_set_priv(ptr noundef, ptr noundef) #1

declare i32 @netif_rx(ptr noundef) #1

attributes #0 = { noinline nounwind optnone uwtable "frame-pointer"="all" "min-legal-vector-width"="0" "no-trapping-math"="true" "stack-protector-buffer-size"="8" "target-cpu"="x86-64" "target-features"="+cx8,+fxsr,+mmx,+sse,+sse2,+x87" "tune-cpu"="generic" }
attributes #1 = { "frame-pointer"="all" "no-trapping-math"="true" "stack-protector-buffer-size"="8" "target-cpu"="x86-64" "target-features"="+cx8,+fxsr,+mmx,+sse,+sse2,+x87" "tune-cpu"="generic" }

!llvm.module.flags = !{!0, !1, !2, !3, !4}
!llvm.ident = !{!5}

!0 = !{i32 1, !"wchar_size", i32 4}
!1 = !{i32 7, !"PIC Level", i32 2}
!2 = !{i32 7, !"PIE Level", i32 2}
!3 = !{i32 7, !"uwtable", i32 1}
!4 = !{i32 7, !"frame-pointer", i32 2}
!5 = !{!"Debian clang version 14.0.6"}
---- file examples/left.case
lxfi case 1
kernel file examples/left_kernel.ll
interface file examples/left.txt
module m examples/left.ll
thread
call m:send 64 fuel 100
call m:send 9000 fuel 100
call m:send 64 fuel 100
call kernel:users 0 fuel 10
---- file examples/left_kernel.ll
%struct.device = type { i64, i64 }
@lock = global i32 0
@devices = global [2 x %struct.device] zeroinitializer
declare i32 @k.try_lock(ptr)
declare void @k.note(i64)
define i32 @queue_lock() {
  %got = call i32 @k.try_lock(ptr @lock)
  ret i32 %got
}
define void @queue_unlock() {
  store i32 0, ptr @lock
  ret void
}
define ptr @device_get(i64 %number) {
  %known = icmp ult i64 %number, 2
  br i1 %known, label %get, label %none
get:
  %device = getelementptr [2 x %struct.device], ptr @devices, i64 0, i64 %number
  %users = load i64, ptr %device
  %more = add i64 %users, 1
  store i64 %more, ptr %device
  ret ptr %device
none:
  ret ptr null
}
define void @device_put(ptr %device) {
  %users = load i64, ptr %device
  %less = sub i64 %users, 1
  store i64 %less, ptr %device
  ret void
}
define void @device_send(ptr %device, i64 %length) {
  call void @k.note(i64 %length)
  ret void
}
define i64 @users(i64 %number) {
  %device = getelementptr [2 x %struct.device], ptr @devices, i64 0, i64 %number
  %users = load i64, ptr %device
  ret i64 %users
}
---- file examples/left.txt
interface 1
reftype device
export queue_lock : i32 ()
export queue_unlock : void ()
export device_get : ptr (i64 number) post(if (return != 0) copy(ref(device), return))
export device_put : void (ptr device) pre(transfer(ref(device), device))
export device_send : void (ptr device, i64 length) pre(check(ref(device), device))
---- file examples/left.ll
; ModuleID = 'left.c'
source_filename = "left.c"
target datalayout = "e-m:e-p270:32:32-p271:32:32-p272:64:64-i64:64-f80:128-n8:16:32:64-S128"
target triple = "x86_64-pc-linux-gnu"

; Function Attrs: noinline nounwind optnone uwtable
define dso_local i32 @send(i64 noundef %0) #0 {
  %2 = alloca i32, align 4
  %3 = alloca i64, align 8
  %4 = alloca ptr, align 8
  store i64 %0, ptr %3, align 8
  %5 = call i32 @queue_lock()
  %6 = icmp ne i32 %5, 0
  br i1 %6, label %8, label %7

7:                                                ; preds = %1
  store i32 -16, ptr %2, align 4
  br label %17

8:                                                ; preds = %1
  %9 = call ptr @device_get(i64 noundef 0)
  store ptr %9, ptr %4, align 8
  %10 = load i64, ptr %3, align 8
  %11 = icmp ugt i64 %10, 1500
  br i1 %11, label %12, label %13

12:                                               ; preds = %8
  store i32 -90, ptr %2, align 4
  br label %17

13:                                               ; preds = %8
  %14 = load ptr, ptr %4, align 8
  %15 = load i64, ptr %3, align 8
  call void @device_send(ptr noundef %14, i64 noundef %15)
  %16 = load ptr, ptr %4, align 8
  call void @device_put(ptr noundef %16)
  call void @queue_unlock()
  store i32 0, ptr %2, align 4
  br label %17

17:                                               ; preds = %13, %12, %7
  %18 = load i32, ptr %2, align 4
  ret i32 %18
}

declare i32 @queue_lock() #1

declare ptr @device_get(i64 noundef) #1

declare void @device_send(ptr noundef, i64 noundef) #1

declare void @device_put(ptr noundef) #1

declare void @queue_unlock() #1

attributes #0 = { noinline nounwind optnone uwtable "frame-pointer"="all" "min-legal-vector-width"="0" "no-trapping-math"="true" "stack-protector-buffer-size"="8" "target-cpu"="x86-64" "target-features"="+cx8,+fxsr,+mmx,+sse,+sse2,+x87" "tune-cpu"="generic" }
attributes #1 = { "frame-pointer"="all" "no-trapping-math"="true" "stack-protector-buffer-size"="8" "target-cpu"="x86-64" "target-features"="+cx8,+fxsr,+mmx,+sse,+sse2,+x87" "tune-cpu"="generic" }

!llvm.module.flags = !{!0, !1, !2, !3, !4}
!llvm.ident = !{!5}

!0 = !{i32 1, !"wchar_size", i32 4}
!1 = !{i32 7, !"PIC Level", i32 2}
!2 = !{i32 7, !"PIE Level", i32 2}
!3 = !{i32 7, !"uwtable", i32 1}
!4 = !{i32 7, !"frame-pointer", i32 2}
!5 = !{!"Debian clang version 14.0.6"}
"#
}
