//! Modules with a fault, as the manual's tables show them.
//! Written by `tools/example-texts` from `examples/` and `docs/MANUAL.md`.

/// Modules with a fault, as the manual's tables show them: what is run, over which files beside those of `file_table`, and what it writes.
pub fn module_faults_table() -> &'static str {
    r#"---- file x.case
lxfi case 1
kernel none
interface none
module m m.ll
---- file m.ll
@g = global i32
*
---- words run x.case
---- m.ll:2: ir 1 0x2a
---- whole
status 3
m.ll:2: ir 1 0x2a
---- file m.ll
@g = global i32
---- words run x.case
---- m.ll:1: ir 2 end
---- whole
status 3
m.ll:1: ir 2 end
---- file m.ll
define void @f() {
ret void
ret void
}
---- words run x.case
---- m.ll:3: ir 2 ret
---- whole
status 3
m.ll:3: ir 2 ret
---- file m.ll
define void @f() !dbg !10 {
ret void
}
---- words run x.case
---- m.ll:1: ir 2 !
---- whole
status 3
m.ll:1: ir 2 !
---- file m.ll
define i32 @f() {
%r = load i32, i32 7
ret i32 %r
}
---- words run x.case
---- m.ll:2: ir 2 i32
---- whole
status 3
m.ll:2: ir 2 i32
---- file m.ll
define void @f(i1 %c) {
br i1 %c, label %1, label %2
ret void
}
---- words run x.case
---- m.ll:3: ir 2 ret
---- whole
status 3
m.ll:3: ir 2 ret
---- file m.ll
define i32 @f(i32 %0) {
switch i32 %0, label %3 [
i32 1, label %2
---- words run x.case
---- m.ll:3: ir 2 end
---- whole
status 3
m.ll:3: ir 2 end
---- file m.ll
@g = global float 1
---- words run x.case
---- m.ll:1: ir 3 float
---- whole
status 3
m.ll:1: ir 3 float
---- file m.ll
define i32 @f() {
%r = load volatile i32, ptr null
ret i32 %r
}
---- words run x.case
---- m.ll:2: ir 3 volatile
---- whole
status 3
m.ll:2: ir 3 volatile
---- file m.ll
define void @f() {
ret void, !dbg !4
}
---- words run x.case
---- m.ll:2: ir 3 dbg
---- whole
status 3
m.ll:2: ir 3 dbg
---- file m.ll
define void @f({ i8, i8 } %p) {
ret void
}
---- words run x.case
---- m.ll:1: ir 3 {
---- whole
status 3
m.ll:1: ir 3 {
---- file m.ll
@g = global i32 5000000000
---- words run x.case
---- m.ll:1: ir 3 5000000000
---- whole
status 3
m.ll:1: ir 3 5000000000
---- file m.ll
%t = type
{ %t }
---- words run x.case
---- m.ll:1: ir 3 %t
---- whole
status 3
m.ll:1: ir 3 %t
---- file m.ll
@g = global [4294967297 x i8] undef
---- words run x.case
---- m.ll:1: ir 3 [
---- whole
status 3
m.ll:1: ir 3 [
---- file m.ll
%t = type { i8, i8 }
@g = global ptr getelementptr (%t, ptr null, i64 0, i32 2)
---- words run x.case
---- m.ll:2: ir 3 getelementptr
---- whole
status 3
m.ll:2: ir 3 getelementptr
---- file m.ll
@g = global i32 1
@lxfi.a = global i32 1
---- words run x.case
---- m.ll:2: ir 3 @lxfi.a
---- whole
status 3
m.ll:2: ir 3 @lxfi.a
---- file m.ll
@g = global i32 1
define void @llvm.memset.p0.i64(ptr %p, i8 %b, i64 %n, i1 %v) {
ret void
}
---- words run x.case
---- m.ll:2: ir 3 @llvm.memset.p0.i64
---- whole
status 3
m.ll:2: ir 3 @llvm.memset.p0.i64
---- file m.ll
@"g" = global i32 1
@g = global i32 2
---- words run x.case
---- m.ll:2: ir 4 @g
---- whole
status 3
m.ll:2: ir 4 @g
---- file m.ll
define void @f() {
a:
br label %a
a:
ret void
}
---- words run x.case
---- m.ll:4: ir 4 %a
---- whole
status 3
m.ll:4: ir 4 %a
---- file m.ll
define i32 @f() {
%a = add i32 1, 1
%a = add i32 1, 2
ret i32 %a
}
---- words run x.case
---- m.ll:3: ir 4 %a
---- whole
status 3
m.ll:3: ir 4 %a
---- file m.ll
@g = global ptr @h
---- words run x.case
---- m.ll:1: ir 5 @h
---- whole
status 3
m.ll:1: ir 5 @h
---- file m.ll
%t = type { %t }
@g = global %u undef
---- words run x.case
---- m.ll:2: ir 5 %u
---- whole
status 3
m.ll:2: ir 5 %u
---- file m.ll
define i32 @f(i1 %p) {
%a = add i32 %p, 1
ret i32 1
}
---- words run x.case
---- m.ll:2: verify 1 add
---- whole
status 3
m.ll:2: verify 1 add
---- file m.ll
define i32 @f(i32 %p) {
%a = zext i32 %p to i32
ret i32 %a
}
---- words run x.case
---- m.ll:2: verify 1 zext
---- whole
status 3
m.ll:2: verify 1 zext
---- file m.ll
declare void @g(i64)
define void @f() {
call void @g(i32 1)
ret void
}
---- words run x.case
---- m.ll:3: verify 1 call
---- whole
status 3
m.ll:3: verify 1 call
---- file m.ll
@g = global i32 0
define void @f() {
call void @g()
ret void
}
---- words run x.case
---- m.ll:3: verify 1 call
---- whole
status 3
m.ll:3: verify 1 call
---- file m.ll
define ptr @f(ptr %p) {
%a = getelementptr { i8, i8 }, ptr %p, i64 0, i32 2
ret ptr %a
}
---- words run x.case
---- m.ll:2: verify 1 getelementptr
---- whole
status 3
m.ll:2: verify 1 getelementptr
---- file m.ll
define i32 @f() {
ret i64 1
}
---- words run x.case
---- m.ll:2: verify 1 ret
---- whole
status 3
m.ll:2: verify 1 ret
---- file m.ll
@g = constant [3 x i8] c"ab"
---- words run x.case
---- m.ll:1: verify 1 @g
---- whole
status 3
m.ll:1: verify 1 @g
---- file m.ll
define void @f() {
br label %l
}
---- words run x.case
---- m.ll:2: verify 2 l
---- whole
status 3
m.ll:2: verify 2 l
---- file m.ll
define i32 @f() {
ret i32 %x
}
---- words run x.case
---- m.ll:2: verify 3 %x
---- whole
status 3
m.ll:2: verify 3 %x
---- file m.ll
define i32 @f(i1 %p) {
%a = phi i32 [ 0, %0 ]
br label %0
}
---- words run x.case
---- m.ll:2: verify 4 %a
---- whole
status 3
m.ll:2: verify 4 %a
---- file m.ll
define i32 @f(i1 %p) {
%a = add i32 1, 1
%b = add i32 1, 1
}
---- words run x.case
---- m.ll:3: verify 5 0
---- whole
status 3
m.ll:3: verify 5 0
"#
}
