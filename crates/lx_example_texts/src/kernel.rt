//! A kernel with one device, which calls its driver through a table of operations.
//! Written by `tools/example-texts` from `examples/driver_kernel.ll`, `examples/driver.txt`.

/// The kernel.
pub fn kernel_text() -> &'static str {
    r#"; A kernel with one device, which calls its driver through a table of operations.
%struct.device = type { ptr, i32, i64, [8 x i8] }
@device = global ptr null
@text = global [12 x i8] c"hello, world"
declare ptr @k.alloc(i64)
declare void @k.free(ptr)
declare i32 @k.slot.open(ptr, ptr)
declare i64 @k.slot.write(ptr, ptr, ptr, i64)
declare void @k.slot.close(ptr, ptr)

define ptr @kmalloc(i64 %n) {
  %p = call ptr @k.alloc(i64 %n)
  ret ptr %p
}

define void @kfree(ptr %p) {
  call void @k.free(ptr %p)
  ret void
}

define i32 @device_register(ptr %device) {
  %old = load ptr, ptr @device
  %none = icmp eq ptr %old, null
  br i1 %none, label %take, label %busy
take:
  store ptr %device, ptr @device
  ret i32 0
busy:
  ret i32 -16
}

define i32 @do_open() {
  %d = load ptr, ptr @device
  %ops = load ptr, ptr %d
  %r = call i32 @k.slot.open(ptr %ops, ptr %d)
  ret i32 %r
}

define i64 @do_write(i64 %n) {
  %d = load ptr, ptr @device
  %ops = load ptr, ptr %d
  %s = getelementptr ptr, ptr %ops, i64 1
  %r = call i64 @k.slot.write(ptr %s, ptr %d, ptr @text, i64 %n)
  ret i64 %r
}

define void @do_close() {
  %d = load ptr, ptr @device
  %ops = load ptr, ptr %d
  %s = getelementptr ptr, ptr %ops, i64 2
  call void @k.slot.close(ptr %s, ptr %d)
  ret void
}

define i32 @users() {
  %d = load ptr, ptr @device
  %p = getelementptr %struct.device, ptr %d, i64 0, i32 1
  %r = load i32, ptr %p
  ret i32 %r
}

define i64 @written() {
  %d = load ptr, ptr @device
  %p = getelementptr %struct.device, ptr %d, i64 0, i32 2
  %r = load i64, ptr %p
  ret i64 %r
}

define i64 @last() {
  %d = load ptr, ptr @device
  %p = getelementptr %struct.device, ptr %d, i64 0, i32 3
  %r = load i64, ptr %p
  ret i64 %r
}
"#
}

/// What its calls check, copy and transfer.
pub fn interface_text() -> &'static str {
    r#"interface 1
slot open : i32 (ptr device)
slot write : i64 (ptr device, ptr bytes, i64 length)
slot close : void (ptr device)
field %struct.device_ops 0 : open
field %struct.device_ops 1 : write
field %struct.device_ops 2 : close
export kmalloc : ptr (i64 size) post(if (return != 0) transfer(write, return, size))
export kfree : void (ptr block) pre(transfer(write, block, 32))
export device_register : i32 (ptr device)
"#
}
