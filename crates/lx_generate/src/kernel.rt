//! The kernel.

ghost use Rattle.std.specs.Prelude.{◌≡◌, ◌≤◌, length};
ghost use Rattle.lx_generate.specs.Kernel.{kernel_text};

const KERNEL: &str = "\
%struct.device = type { ptr, i64, ptr }
%struct.dev_ops = type { ptr, ptr }
@lock = global i32 0
@ndevs = global i64 0
@devs = global [8 x %struct.device] zeroinitializer
declare ptr @k.alloc(i64)
declare void @k.free(ptr)
declare void @k.zero(ptr, i64)
declare i32 @k.try_lock(ptr)
declare void @k.note(i64)
declare i32 @k.slot.probe(ptr, ptr)
declare i32 @k.slot.xmit(ptr, ptr, ptr)
define ptr @kmalloc(i64 %n) {
a:
  %d = sub i64 %n, 1
  %ok = icmp ult i64 %d, 1048560
  br i1 %ok, label %b, label %none
b:
  %m = add i64 %n, 16
  %p = call ptr @k.alloc(i64 %m)
  %z = icmp eq ptr %p, null
  br i1 %z, label %none, label %c
c:
  store i64 %n, ptr %p
  %u = getelementptr i8, ptr %p, i64 16
  ret ptr %u
none:
  ret ptr null
}
define ptr @kzalloc(i64 %n) {
a:
  %p = call ptr @kmalloc(i64 %n)
  %z = icmp eq ptr %p, null
  br i1 %z, label %c, label %b
b:
  call void @k.zero(ptr %p, i64 %n)
  br label %c
c:
  ret ptr %p
}
define void @kfree(ptr %p) {
a:
  %z = icmp eq ptr %p, null
  br i1 %z, label %c, label %b
b:
  %h = getelementptr i8, ptr %p, i64 -16
  call void @k.free(ptr %h)
  br label %c
c:
  ret void
}
define ptr @dev_register(ptr %ops) {
a:
  br label %l
l:
  %g = call i32 @k.try_lock(ptr @lock)
  %t = icmp eq i32 %g, 0
  br i1 %t, label %l, label %b
b:
  %n = load i64, ptr @ndevs
  %f = icmp ult i64 %n, 8
  br i1 %f, label %c, label %e
c:
  %dv = getelementptr %struct.device, ptr @devs, i64 %n
  store ptr %ops, ptr %dv
  %ip = getelementptr %struct.device, ptr %dv, i64 0, i32 1
  store i64 %n, ptr %ip
  %n1 = add i64 %n, 1
  store i64 %n1, ptr @ndevs
  br label %e
e:
  %r = phi ptr [ null, %b ], [ %dv, %c ]
  store i32 0, ptr @lock
  ret ptr %r
}
define void @dev_set_priv(ptr %dev, ptr %v) {
a:
  %p = getelementptr %struct.device, ptr %dev, i64 0, i32 2
  store ptr %v, ptr %p
  ret void
}
define void @dev_zero(ptr %p, i64 %n) {
a:
  call void @k.zero(ptr %p, i64 %n)
  ret void
}
define void @dev_wipe(ptr %p, i64 %n) {
a:
  call void @k.zero(ptr %p, i64 %n)
  ret void
}
define ptr @skb_new(i64 %n) {
a:
  %s = call ptr @kmalloc(i64 24)
  %z = icmp eq ptr %s, null
  br i1 %z, label %no, label %b
b:
  %d = call ptr @kmalloc(i64 %n)
  %y = icmp eq ptr %d, null
  br i1 %y, label %u, label %c
c:
  store ptr %d, ptr %s
  %q = getelementptr i8, ptr %s, i64 8
  store i64 %n, ptr %q
  ret ptr %s
u:
  call void @kfree(ptr %s)
  br label %no
no:
  ret ptr null
}
define i32 @netif_rx(ptr %s) {
a:
  %q = getelementptr i8, ptr %s, i64 8
  %n = load i64, ptr %q
  call void @k.note(i64 %n)
  ret i32 0
}
define ptr @hook_get() {
a:
  ret ptr @hook_fn
}
define i64 @hook_fn(i64 %x) {
a:
  %y = add i64 %x, 1
  ret i64 %y
}
define i32 @do_probe(i64 %i) {
a:
  %d = getelementptr %struct.device, ptr @devs, i64 %i
  %o = load ptr, ptr %d
  %r = call i32 @k.slot.probe(ptr %o, ptr %d)
  ret i32 %r
}
define i32 @do_xmit(i64 %i, ptr %s) {
a:
  %d = getelementptr %struct.device, ptr @devs, i64 %i
  %o = load ptr, ptr %d
  %x = getelementptr %struct.dev_ops, ptr %o, i64 0, i32 1
  %r = call i32 @k.slot.xmit(ptr %x, ptr %s, ptr %d)
  ret i32 %r
}
";

/// The kernel as IR text. Each line ends with a line feed.
#[tactic(auto, unfolding(crate::specs::Kernel::kernel_text))]
pub fn kernel_text() -> &'static str
    ensures text { result.now ≡ kernel_text }
    ensures length { length result.now ≤ 4096 }
{
    KERNEL
}
