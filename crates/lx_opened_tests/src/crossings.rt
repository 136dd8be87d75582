//! The texts of these tests whose calls cross: by an import, by an address, from the kernel, and over the kernel that is brought along.
use crate::texts::Sample;

/// A case whose module is called with the address of its global twice.
const PUTS_CASE: &str = "lxfi case 1
kernel file k.ll
interface file i.txt
module m m.ll
thread
call m:main 0x1000000 0x1000000 fuel 100
";

/// A module that owns four bytes and calls an import with two actions before its body: the first one asks for eight bytes, the second one
/// for sixteen.
pub fn puts() -> Sample {
    Sample {
        case: PUTS_CASE,
        kernel: "define i64 @put(ptr %p, ptr %q) {
ret i64 5
}
",
        interface: "interface 1
export put : i64 (ptr p, ptr q) pre(check(write, p, 8)) pre(check(write, q, 16))
",
        module: "@g = global i32 0
declare i64 @put(ptr, ptr)
define i64 @main(ptr %p, ptr %q) {
%r = call i64 @put(ptr %p, ptr %q)
ret i64 %r
}
",
        image: "@g = global i32 0
declare i64 @put(ptr, ptr)
define i64 @main(ptr %p, ptr %q) {
0:
  %r = call i64 @lxfi.out.put(ptr %p, ptr %q)
  ret i64 %r
}
define i64 @lxfi.out.put(ptr %0, ptr %1) {
0:
  call void @lxfi.enter(ptr @put)
  call void @lxfi.pre(ptr @put, i32 0)
  call void @lxfi.pre(ptr @put, i32 1)
  %r = call i64 @put(ptr %0, ptr %1)
  call void @lxfi.leave(ptr @put)
  ret i64 %r
}
",
    }
}

/// A case whose module is called without arguments.
const PLAIN_CASE: &str = "lxfi case 1
kernel file k.ll
interface file i.txt
module m m.ll
thread
call m:main fuel 100
";

/// A module that owns four bytes, and calls an import that asks for these and then gives it eight of the kernel's, to which it stores.
pub fn borrows() -> Sample {
    Sample {
        case: PLAIN_CASE,
        kernel: "@pool = global i64 0
define ptr @lend(ptr %p) {
ret ptr @pool
}
",
        interface: "interface 1
export lend : ptr (ptr p) pre(check(write, p, 4)) post(copy(write, return, 8))
",
        module: "@g = global i32 0
declare ptr @lend(ptr)
define void @main() {
%p = call ptr @lend(ptr @g)
store i64 7, ptr %p
ret void
}
",
        image: "@g = global i32 0
declare ptr @lend(ptr)
define void @main() {
0:
  %p = call ptr @lxfi.out.lend(ptr @g)
  call void @lxfi.guard(ptr %p, i64 8)
  store i64 7, ptr %p
  ret void
}
define ptr @lxfi.out.lend(ptr %0) {
0:
  call void @lxfi.enter(ptr @lend)
  call void @lxfi.pre(ptr @lend, i32 0)
  %r = call ptr @lend(ptr %0)
  call void @lxfi.post(ptr @lend, i32 0)
  call void @lxfi.leave(ptr @lend)
  ret ptr %r
}
",
    }
}

/// A case whose module is called with the address of the kernel's function.
const BY_ADDRESS_CASE: &str = "lxfi case 1
kernel file k.ll
interface file i.txt
module m m.ll
thread
call m:main 0x10060 fuel 100
";

/// A module that owns four bytes, and calls by its address an import that asks for eight.
pub fn puts_by_address() -> Sample {
    Sample {
        case: BY_ADDRESS_CASE,
        kernel: "define i64 @put(ptr %p) {
ret i64 5
}
",
        interface: "interface 1
export put : i64 (ptr p) pre(check(write, p, 8))
",
        module: "@g = global i32 0
declare i64 @put(ptr)
define i64 @main(ptr %f) {
%r = call i64 %f(ptr @g)
ret i64 %r
}
",
        image: "@g = global i32 0
declare i64 @put(ptr)
define i64 @main(ptr %f) {
0:
  call void @lxfi.check(ptr %f)
  %r = call i64 %f(ptr @g)
  ret i64 %r
}
define i64 @lxfi.out.put(ptr %0) {
0:
  call void @lxfi.enter(ptr @put)
  call void @lxfi.pre(ptr @put, i32 0)
  %r = call i64 @put(ptr %0)
  call void @lxfi.leave(ptr @put)
  ret i64 %r
}
",
    }
}

/// A case whose script calls a function of the module with a null pointer, and then the kernel, which calls the same through a slot.
const PROBED_CASE: &str = "lxfi case 1
kernel file k.ll
interface file i.txt
module m m.ll
thread
call m:probe 0 fuel 100
call kernel:do_probe 0x1000000 0 fuel 100
";

/// A module whose function stands in a slot that asks for eight bytes before the body.
pub fn probed() -> Sample {
    Sample {
        case: PROBED_CASE,
        kernel: "declare i64 @k.slot.probe(ptr, ptr)
define i64 @do_probe(ptr %slot, ptr %p) {
%r = call i64 @k.slot.probe(ptr %slot, ptr %p)
ret i64 %r
}
",
        interface: "interface 1
slot probe : i64 (ptr p) pre(check(write, p, 8))
field %struct.ops 0 : probe
",
        module: "%struct.ops = type { ptr }
@ops = global %struct.ops { ptr @probe }
define i64 @probe(ptr %p) {
ret i64 5
}
",
        image: "%struct.ops = type { ptr }
@ops = global %struct.ops { ptr @probe }
define i64 @probe(ptr %p) {
0:
  ret i64 5
}
define i64 @lxfi.in.probe(ptr %0) {
0:
  call void @lxfi.enter(ptr @probe)
  call void @lxfi.pre(ptr @probe, i32 0)
  %r = call i64 @probe(ptr %0)
  call void @lxfi.leave(ptr @probe)
  ret i64 %r
}
",
    }
}

/// The example of a hook over the kernel that is brought along: the module calls what it was not given, then asks for it and calls it,
/// and calls it once more.
const HOOK_CASE: &str = "lxfi case 1
kernel builtin
interface builtin
module m m.ll
thread
call m:wild fuel 100
call m:main fuel 100
call m:wild fuel 100
";

pub fn hooks() -> Sample {
    Sample {
        case: HOOK_CASE,
        kernel: "",
        interface: "",
        module: "declare ptr @hook_get()
define i64 @main() {
%f = call ptr @hook_get()
%r = call i64 %f(i64 41)
ret i64 %r
}
define i64 @wild() {
%f = inttoptr i64 65792 to ptr
%r = call i64 %f(i64 1)
ret i64 %r
}
",
        image: "declare ptr @hook_get()
define i64 @main() {
0:
  %f = call ptr @lxfi.out.hook_get()
  call void @lxfi.check(ptr %f)
  %r = call i64 %f(i64 41)
  ret i64 %r
}
define i64 @wild() {
0:
  %f = inttoptr i64 65792 to ptr
  call void @lxfi.check(ptr %f)
  %r = call i64 %f(i64 1)
  ret i64 %r
}
define ptr @lxfi.out.hook_get() {
0:
  call void @lxfi.enter(ptr @hook_get)
  %r = call ptr @hook_get()
  call void @lxfi.post(ptr @hook_get, i32 0)
  call void @lxfi.leave(ptr @hook_get)
  ret ptr %r
}
",
    }
}
