//! Files of `examples/manual/`.
//! Written by `tools/example-texts` from them.

/// Files of `examples/manual/` that runs and traces read, each behind its name.
pub fn last_manual_files_table() -> &'static str {
    r#"---- file examples/manual/bad_swap.case
lxfi case 1
kernel builtin
interface builtin
module m examples/manual/bad.ll
thread
call m:init fuel 100
call m:swap fuel 100
call kernel:do_probe 0 fuel 100
---- file examples/manual/bad_again.case
lxfi case 1
kernel builtin
interface builtin
module m examples/manual/bad.ll
thread
call m:init fuel 100
call m:again fuel 100
call kernel:do_probe 0 fuel 100
---- file examples/manual/bad_cold.case
lxfi case 1
kernel builtin
interface builtin
module m examples/manual/bad.ll
thread
call m:cold fuel 100
call kernel:do_probe 0 fuel 100
---- file examples/manual/stack.case
lxfi case 1
kernel builtin
interface builtin
module m examples/manual/stack.ll
thread
call m:main fuel 100
---- file examples/manual/stack.ll
declare void @dev_wipe(ptr, i64)
declare void @dev_zero(ptr, i64)
define void @main() {
  %b = alloca i64
  call void @dev_zero(ptr %b, i64 8)
  call void @dev_wipe(ptr %b, i64 8)
  ret void
}
---- file examples/manual/edge.case
lxfi case 1
kernel builtin
interface builtin
module m examples/manual/edge.ll
thread
call m:main 0 0 fuel 100
call m:main 0x10ffff8 16 fuel 100
call m:main -8 16 fuel 100
---- file examples/manual/edge.ll
declare void @dev_zero(ptr, i64)
define void @main(ptr %p, i64 %n) {
  call void @dev_zero(ptr %p, i64 %n)
  ret void
}
---- file examples/manual/two.case
lxfi case 1
kernel builtin
interface builtin
module m examples/manual/two.ll
thread
call m:init fuel 100
call kernel:do_probe 1 fuel 100
call kernel:do_probe 0 fuel 100
---- file examples/manual/two.ll
%struct.dev_ops = type { ptr, ptr }
@oa = global %struct.dev_ops { ptr @probe_a, ptr null }
@ob = global %struct.dev_ops { ptr @probe_b, ptr null }
@box = global ptr null
@flag = global i64 0
declare ptr @dev_register(ptr)
declare ptr @kmalloc(i64)
declare void @lxfi_princ_alias(ptr, ptr)
define void @init() {
  %a = call ptr @dev_register(ptr @oa)
  %b = call ptr @dev_register(ptr @ob)
  ret void
}
define void @mode(i64 %v) {
  store i64 %v, ptr @flag
  ret void
}
define i32 @probe_a(ptr %d) {
  %p = load ptr, ptr @box
  store i64 9, ptr %p
  ret i32 0
}
define i32 @probe_b(ptr %d) {
  %p = call ptr @kmalloc(i64 8)
  store ptr %p, ptr @box
  %f = load i64, ptr @flag
  %t = icmp ne i64 %f, 0
  br i1 %t, label %y, label %n
y:
  call void @lxfi_princ_alias(ptr %d, ptr inttoptr (i64 16777248 to ptr))
  br label %n
n:
  ret i32 0
}
---- file examples/manual/writers_back.case
lxfi case 1
kernel file examples/manual/writers_kernel.ll
interface file examples/manual/writers.txt
module m examples/manual/writers.ll
module n examples/manual/writers.ll
thread
call m:take 0x2000000 &kernel:stop fuel 100
call n:take 0x2000000 &kernel:stop fuel 100
call m:take 0x2000000 &m:own fuel 100
call kernel:go 0x2000000 fuel 100
---- file examples/manual/alias.case
lxfi case 1
kernel builtin
interface builtin
module m examples/manual/two.ll
thread
call m:init fuel 100
call m:mode 1 fuel 100
call kernel:do_probe 1 fuel 100
call kernel:do_probe 0 fuel 100
---- file examples/manual/alias_taken.case
lxfi case 1
kernel builtin
interface builtin
module m examples/manual/two.ll
thread
call m:init fuel 100
call m:mode 1 fuel 100
call kernel:do_probe 0 fuel 100
call kernel:do_probe 1 fuel 100
---- file examples/manual/quiet.case
lxfi case 1
kernel none
interface none
module m examples/manual/quiet.ll
thread
call m:f 5 fuel 100
---- file examples/manual/quiet.ll
define i32 @f(i32 %a) {
  %s = alloca i32
  store i32 %a, ptr %s
  %v = load i32, ptr %s
  ret i32 %v
}
---- file examples/manual/one.image
@g = global i32 0
define i32 @main() {
0:
  call void @lxfi.guard(ptr @g, i64 4)
  store i32 7, ptr @g
  %v = load i32, ptr @g
  ret i32 %v
}
---- file examples/manual/image_1.ll
@g = global i32 0
define i32 @main() {
0:
  store i32 7, ptr @g
  %v = load i32, ptr @g
  ret i32 %v
}
---- file examples/manual/image_2.ll
@g = global i32 0
define i32 @main() {
0:
  call void @lxfi.guard(ptr @g, i64 2)
  store i32 7, ptr @g
  %v = load i32, ptr @g
  ret i32 %v
}
---- file examples/manual/image_3.ll
declare ptr @hook_get()
define i64 @main() {
0:
  %f = call ptr @lxfi.out.hook_get()
  %r = call i64 %f(i64 41)
  ret i64 %r
}
define i64 @wild() {
0:
  %f = inttoptr i64 65792 to ptr
  call void @lxfi.check(ptr %f)
  %r = call i64 %f(i64 1)
  ret i64 %r
}
define ptr @lxfi.out.hook_get() {
0:
  call void @lxfi.enter(ptr @hook_get)
  %r = call ptr @hook_get()
  call void @lxfi.post(ptr @hook_get, i32 0)
  call void @lxfi.leave(ptr @hook_get)
  ret ptr %r
}
---- file examples/manual/image_4.ll
declare ptr @hook_get()
define i64 @main() {
0:
  %f = call ptr @lxfi.out.hook_get()
  call void @lxfi.check(ptr %f)
  %r = call i64 %f(i64 41)
  ret i64 %r
}
define i64 @wild() {
0:
  %f = inttoptr i64 65792 to ptr
  call void @lxfi.check(ptr %f)
  %r = call i64 %f(i64 1)
  ret i64 %r
}
define ptr @lxfi.out.hook_get() {
0:
  call void @lxfi.enter(ptr @hook_get)
  %r = call ptr @hook_get()
  call void @lxfi.leave(ptr @hook_get)
  ret ptr %r
}
---- file examples/manual/image_5.ll
declare ptr @hook_get()
define i64 @main() {
0:
  %f = call ptr @hook_get()
  call void @lxfi.check(ptr %f)
  %r = call i64 %f(i64 41)
  ret i64 %r
}
define i64 @wild() {
0:
  %f = inttoptr i64 65792 to ptr
  call void @lxfi.check(ptr %f)
  %r = call i64 %f(i64 1)
  ret i64 %r
}
define ptr @lxfi.out.hook_get() {
0:
  call void @lxfi.enter(ptr @hook_get)
  %r = call ptr @hook_get()
  call void @lxfi.post(ptr @hook_get, i32 0)
  call void @lxfi.leave(ptr @hook_get)
  ret ptr %r
}
---- file examples/manual/image_6.ll
@g = global i32 0
define i32 @main() {
0:
  call void @lxfi.guard(ptr @g, i64 4)
  call void @lxfi.guard(ptr @g, i64 4)
  store i32 7, ptr @g
  %v = load i32, ptr @g
  ret i32 %v
}
---- file examples/manual/whole.schedule
0*2 0*3
---- file examples/manual/long.schedule
schedule 0*6
---- file examples/manual/nobody.schedule
schedule 1*1
---- file examples/manual/missing.case
lxfi case 1
kernel none
interface none
module m examples/manual/absent.ll
"#
}
