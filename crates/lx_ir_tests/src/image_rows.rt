//! Texts that are images or none, and what the checker says of each.

/// Each part begins with `---- `, what is wanted and why, and then has the text.
pub fn rows() -> &'static str {
    "---- accepted: one guard before one store
@g = global i32 0
define i32 @main() {
0:
  call void @lxfi.guard(ptr @g, i64 4)
  store i32 7, ptr @g
  %v = load i32, ptr @g
  ret i32 %v
}
---- 4: image 1 @main 0: the guard stands behind the store
@g = global i32 0
define i32 @main() {
0:
  store i32 7, ptr @g
  call void @lxfi.guard(ptr @g, i64 4)
  %v = load i32, ptr @g
  ret i32 %v
}
---- 4: image 6 @main 0: the guard stands twice
@g = global i32 0
define i32 @main() {
0:
  call void @lxfi.guard(ptr @g, i64 4)
  call void @lxfi.guard(ptr @g, i64 4)
  store i32 7, ptr @g
  %v = load i32, ptr @g
  ret i32 %v
}
---- 4: image 6 @main 0: a line of wrappers before the guard
@g = global i32 0
define i32 @main() {
0:
  call void @lxfi.enter(ptr @main)
  call void @lxfi.guard(ptr @g, i64 4)
  store i32 7, ptr @g
  %v = load i32, ptr @g
  ret i32 %v
}
---- 9: image 4 @lxfi.out.main 0: a wrapper of a function that is no import
@g = global i32 0
define i32 @main() {
0:
  call void @lxfi.guard(ptr @g, i64 4)
  store i32 7, ptr @g
  %v = load i32, ptr @g
  ret i32 %v
}
define void @lxfi.out.main() {
0:
  ret void
}
---- 3: image 2 @f 0: the guard of another register
define void @f(ptr %p, ptr %q) {
0:
  call void @lxfi.guard(ptr %q, i64 4)
  store i32 1, ptr %p
  ret void
}
---- 3: image 2 @f 0: the guard of one byte less
define void @f(ptr %p) {
0:
  call void @lxfi.guard(ptr %p, i64 3)
  store i32 1, ptr %p
  ret void
}
---- 3: image 6 @f 0: the guard not directly before the store
define void @f(ptr %p) {
0:
  call void @lxfi.guard(ptr %p, i64 4)
  %v = load i32, ptr %p
  store i32 1, ptr %p
  ret void
}
---- 3: image 2 @f 0: the guard of the size of another type
define void @f(ptr %p) {
0:
  call void @lxfi.guard(ptr %p, i64 8)
  store i32 1, ptr %p
  ret void
}
---- accepted: a store to the function's own stack is spared
define void @f() {
0:
  %a = alloca i32
  store i32 1, ptr %a
  ret void
}
---- 4: image 1 @f 1: a store is not spared whose register is stored too
define void @f(ptr %p) {
0:
  %a = alloca i32
  store i32 1, ptr %a
  call void @lxfi.guard(ptr %p, i64 8)
  store ptr %a, ptr %p
  ret void
}
---- 4: image 5 @main 0: an import is called by its own name
declare void @f()
define void @main() {
0:
  call void @f()
  ret void
}
define void @lxfi.out.f() {
0:
  call void @lxfi.enter(ptr @f)
  call void @f()
  call void @lxfi.leave(ptr @f)
  ret void
}
---- accepted: an import is called by its wrapper
declare void @f()
define void @main() {
0:
  call void @lxfi.out.f()
  ret void
}
define void @lxfi.out.f() {
0:
  call void @lxfi.enter(ptr @f)
  call void @f()
  call void @lxfi.leave(ptr @f)
  ret void
}
---- 1: image 4 @lxfi.out.f 0: the wrapper of an import that nothing calls is missing
declare void @f()
define void @main() {
0:
  ret void
}
---- 3: image 3 @f 0: a call by a register without its check
define void @f(ptr %p) {
0:
  call void %p()
  ret void
}
---- accepted: a block write with its guard
define void @f(ptr %p, ptr %q) {
0:
  call void @lxfi.guard(ptr %p, i64 8)
  call void @llvm.memcpy.p0.p0.i64(ptr %p, ptr %q, i64 8, i1 false)
  ret void
}
---- accepted: a block write with a length of 32 bits
define void @f(ptr %p, ptr %q) {
0:
  call void @lxfi.guard32(ptr %p, i32 8)
  call void @llvm.memcpy.p0.p0.i32(ptr %p, ptr %q, i32 8, i1 false)
  ret void
}
---- 3: image 2 @f 0: the source is guarded
define void @f(ptr %p, ptr %q) {
0:
  call void @lxfi.guard(ptr %q, i64 8)
  call void @llvm.memcpy.p0.p0.i64(ptr %p, ptr %q, i64 8, i1 false)
  ret void
}
---- 3: image 2 @f 0: a guard of 64 bits for a length of 32 bits
define void @f(ptr %p, ptr %q) {
0:
  call void @lxfi.guard(ptr %p, i64 8)
  call void @llvm.memcpy.p0.p0.i32(ptr %p, ptr %q, i32 8, i1 false)
  ret void
}
---- 3: image 1 @f 0: a block write without its guard
define void @f(ptr %p, ptr %q) {
0:
  call void @llvm.memcpy.p0.p0.i64(ptr %p, ptr %q, i64 8, i1 false)
  ret void
}
---- 4: image 1 @f 1: a block write to the stack is not spared
define void @f() {
0:
  %a = alloca i64
  call void @llvm.memset.p0.i64(ptr %a, i8 0, i64 8, i1 false)
  ret void
}
---- 4: image 1 @f 1: a store of more bytes than the stack gave
define void @f() {
0:
  %a = alloca i32
  store i64 1, ptr %a
  ret void
}
---- accepted: a spared store with its guard
define void @f() {
0:
  %a = alloca i32
  call void @lxfi.guard(ptr %a, i64 4)
  store i32 1, ptr %a
  ret void
}
---- 5: image 1 @f 2: a store into the stack by another register
define void @f() {
0:
  %a = alloca i64
  %b = getelementptr i8, ptr %a, i64 4
  store i32 1, ptr %b
  ret void
}
---- accepted: a call by a register with its check
define void @f(ptr %p) {
0:
  call void @lxfi.check(ptr %p)
  call void %p()
  ret void
}
---- 3: image 2 @f 0: the check of another register
define void @f(ptr %p, ptr %q) {
0:
  call void @lxfi.check(ptr %q)
  call void %p()
  ret void
}
---- 3: image 6 @f 0: a check before a call by name
define void @f(ptr %p) {
0:
  call void @lxfi.check(ptr %p)
  call void @f(ptr %p)
  ret void
}
---- 3: image 6 @f 0: a guard before a call by a register
define void @f(ptr %p) {
0:
  call void @lxfi.guard(ptr %p, i64 8)
  call void %p()
  ret void
}
---- 3: image 6 @f 0: the guard in the block before
define void @f(ptr %p) {
0:
  call void @lxfi.guard(ptr %p, i64 4)
  br label %1
1:
  store i32 1, ptr %p
  ret void
}
---- 5: image 1 @f 1: places count through blocks
define void @f(ptr %p) {
0:
  br label %1
1:
  store i32 1, ptr %p
  ret void
}
---- 5: image 5 @f 1: a wrapper's address is stored
declare void @g()
define void @f(ptr %p) {
0:
  call void @lxfi.guard(ptr %p, i64 8)
  store ptr @lxfi.out.g, ptr %p
  ret void
}
define void @lxfi.out.g() {
0:
  call void @lxfi.enter(ptr @g)
  call void @g()
  call void @lxfi.leave(ptr @g)
  ret void
}
---- 1: image 4 @t 0: an initialiser names a wrapper
@t = global ptr @lxfi.out.g
declare void @g()
define void @main() {
0:
  ret void
}
define void @lxfi.out.g() {
0:
  call void @lxfi.enter(ptr @g)
  call void @g()
  call void @lxfi.leave(ptr @g)
  ret void
}
---- 1: image 4 @lxfi.g 0: a global with a name of images
@lxfi.g = global i32 0
define void @main() {
0:
  ret void
}
---- 1: image 4 @lxfi.x 0: an import with a name of images
declare void @lxfi.x()
define void @main() {
0:
  ret void
}
---- 9: image 4 @lxfi.out.f 1: a line too many
declare void @f()
define void @main() {
0:
  ret void
}
define void @lxfi.out.f() {
0:
  call void @lxfi.enter(ptr @f)
  call void @lxfi.pre(ptr @f, i32 0)
  call void @f()
  call void @lxfi.leave(ptr @f)
  ret void
}
---- 10: image 4 @lxfi.out.f 2: a line too few
declare void @f()
define void @main() {
0:
  ret void
}
define void @lxfi.out.f() {
0:
  call void @lxfi.enter(ptr @f)
  call void @f()
  ret void
}
---- 11: image 4 @lxfi.out.f 3: another end
declare void @f()
define void @main() {
0:
  ret void
}
define void @lxfi.out.f() {
0:
  call void @lxfi.enter(ptr @f)
  call void @f()
  call void @lxfi.leave(ptr @f)
  unreachable
}
---- 8: image 4 @lxfi.out.f 0: another function is entered
declare void @f()
define void @main() {
0:
  ret void
}
define void @lxfi.out.f() {
0:
  call void @lxfi.enter(ptr @main)
  call void @f()
  call void @lxfi.leave(ptr @f)
  ret void
}
---- 6: image 4 @lxfi.out.f 0: another name of the block
declare void @f()
define void @main() {
0:
  ret void
}
define void @lxfi.out.f() {
a:
  call void @lxfi.enter(ptr @f)
  call void @f()
  call void @lxfi.leave(ptr @f)
  ret void
}
---- 6: image 4 @lxfi.out.f 0: another name of a parameter
declare void @f(i32)
define void @main() {
0:
  ret void
}
define void @lxfi.out.f(i32 %x) {
0:
  call void @lxfi.enter(ptr @f)
  call void @f(i32 %x)
  call void @lxfi.leave(ptr @f)
  ret void
}
---- accepted: the wrapper of an import with a parameter
declare void @f(i32)
define void @main() {
0:
  ret void
}
define void @lxfi.out.f(i32 %0) {
0:
  call void @lxfi.enter(ptr @f)
  call void @f(i32 %0)
  call void @lxfi.leave(ptr @f)
  ret void
}
---- 2: image 4 @lxfi.out.f 0: the wrapper before the program
declare void @f()
define void @lxfi.out.f() {
0:
  call void @lxfi.enter(ptr @f)
  call void @f()
  call void @lxfi.leave(ptr @f)
  ret void
}
define void @main() {
0:
  ret void
}
---- 7: image 4 @lxfi.out.g 0: the wrappers in another order
declare void @f()
declare void @g()
define void @main() {
0:
  ret void
}
define void @lxfi.out.g() {
0:
  call void @lxfi.enter(ptr @g)
  call void @g()
  call void @lxfi.leave(ptr @g)
  ret void
}
define void @lxfi.out.f() {
0:
  call void @lxfi.enter(ptr @f)
  call void @f()
  call void @lxfi.leave(ptr @f)
  ret void
}
---- accepted: the import by which principals are named has no wrapper
declare void @lxfi_princ_alias(ptr, ptr)
define void @f(ptr %p) {
0:
  call void @lxfi_princ_alias(ptr %p, ptr %p)
  ret void
}
---- 3: image 5 @main 0: a wrapper of no import is called
define void @main() {
0:
  call void @lxfi.out.f()
  ret void
}
define void @lxfi.out.f() {
0:
  ret void
}
"
}
