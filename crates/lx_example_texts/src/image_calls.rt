//! Images of block writes and of calls by an address, made and forged.

pub fn image_call_cases() -> &'static str {
    r#"---- file row.case
lxfi case 1
kernel none
interface none
module m one.ll
---- file one.ll
declare void @llvm.memcpy.p0.p0.i64(ptr, ptr, i64, i1)
declare void @llvm.memset.p0.i32(ptr, i8, i32, i1)
define void @copy(ptr %d, ptr %s, i64 %n) {
call void @llvm.memcpy.p0.p0.i64(ptr %d, ptr %s, i64 %n, i1 false)
ret void
}
define void @fill(ptr %d, i32 %n) {
call void @llvm.memset.p0.i32(ptr %d, i8 0, i32 %n, i1 false)
ret void
}
---- block writes have their guards
---- words instrument row.case m
---- whole
status 0
define void @copy(ptr %d, ptr %s, i64 %n) {
0:
  call void @lxfi.guard(ptr %d, i64 %n)
  call void @llvm.memcpy.p0.p0.i64(ptr %d, ptr %s, i64 %n, i1 false)
  ret void
}
define void @fill(ptr %d, i32 %n) {
0:
  call void @lxfi.guard32(ptr %d, i32 %n)
  call void @llvm.memset.p0.i32(ptr %d, i8 0, i32 %n, i1 false)
  ret void
}
---- guards of block writes
---- file img.ll
define void @copy(ptr %d, ptr %s, i64 %n) {
0:
  call void @lxfi.guard(ptr %d, i64 %n)
  call void @llvm.memcpy.p0.p0.i64(ptr %d, ptr %s, i64 %n, i1 false)
  ret void
}
define void @fill(ptr %d, i32 %n) {
0:
  call void @lxfi.guard32(ptr %d, i32 %n)
  call void @llvm.memset.p0.i32(ptr %d, i8 0, i32 %n, i1 false)
  ret void
}
---- words check row.case m img.ll
---- whole
status 0
accepted
---- a block write without its guard
---- file img.ll
define void @copy(ptr %d, ptr %s, i64 %n) {
0:
  call void @llvm.memcpy.p0.p0.i64(ptr %d, ptr %s, i64 %n, i1 false)
  ret void
}
define void @fill(ptr %d, i32 %n) {
0:
  call void @lxfi.guard32(ptr %d, i32 %n)
  call void @llvm.memset.p0.i32(ptr %d, i8 0, i32 %n, i1 false)
  ret void
}
---- words check row.case m img.ll
---- whole
status 8
img.ll:3: image 1 @copy 0
---- a guard of the source
---- file img.ll
define void @copy(ptr %d, ptr %s, i64 %n) {
0:
  call void @lxfi.guard(ptr %s, i64 %n)
  call void @llvm.memcpy.p0.p0.i64(ptr %d, ptr %s, i64 %n, i1 false)
  ret void
}
define void @fill(ptr %d, i32 %n) {
0:
  call void @lxfi.guard32(ptr %d, i32 %n)
  call void @llvm.memset.p0.i32(ptr %d, i8 0, i32 %n, i1 false)
  ret void
}
---- words check row.case m img.ll
---- whole
status 8
img.ll:3: image 2 @copy 0
---- a guard of another length
---- file img.ll
define void @copy(ptr %d, ptr %s, i64 %n) {
0:
  call void @lxfi.guard(ptr %d, i64 8)
  call void @llvm.memcpy.p0.p0.i64(ptr %d, ptr %s, i64 %n, i1 false)
  ret void
}
define void @fill(ptr %d, i32 %n) {
0:
  call void @lxfi.guard32(ptr %d, i32 %n)
  call void @llvm.memset.p0.i32(ptr %d, i8 0, i32 %n, i1 false)
  ret void
}
---- words check row.case m img.ll
---- whole
status 8
img.ll:3: image 2 @copy 0
---- a length of 32 bits without its form
---- file img.ll
define void @copy(ptr %d, ptr %s, i64 %n) {
0:
  call void @lxfi.guard(ptr %d, i64 %n)
  call void @llvm.memcpy.p0.p0.i64(ptr %d, ptr %s, i64 %n, i1 false)
  ret void
}
define void @fill(ptr %d, i32 %n) {
0:
  call void @lxfi.guard(ptr %d, i64 8)
  call void @llvm.memset.p0.i32(ptr %d, i8 0, i32 %n, i1 false)
  ret void
}
---- words check row.case m img.ll
---- whole
status 8
img.ll:9: image 2 @fill 0
---- a fill without its guard
---- file img.ll
define void @copy(ptr %d, ptr %s, i64 %n) {
0:
  call void @lxfi.guard(ptr %d, i64 %n)
  call void @llvm.memcpy.p0.p0.i64(ptr %d, ptr %s, i64 %n, i1 false)
  ret void
}
define void @fill(ptr %d, i32 %n) {
0:
  call void @llvm.memset.p0.i32(ptr %d, i8 0, i32 %n, i1 false)
  ret void
}
---- words check row.case m img.ll
---- whole
status 8
img.ll:9: image 1 @fill 0
---- file row.case
lxfi case 1
kernel builtin
interface builtin
module m hook.ll
---- calls of imports and of addresses
---- words instrument row.case m
---- whole
status 0
declare ptr @hook_get()
define i64 @main() {
0:
  %f = call ptr @lxfi.out.hook_get()
  call void @lxfi.check(ptr %f)
  %r = call i64 %f(i64 41)
  ret i64 %r
}
define i64 @wild() {
0:
  %f = inttoptr i64 65792 to ptr
  call void @lxfi.check(ptr %f)
  %r = call i64 %f(i64 1)
  ret i64 %r
}
define ptr @lxfi.out.hook_get() {
0:
  call void @lxfi.enter(ptr @hook_get)
  %r = call ptr @hook_get()
  call void @lxfi.post(ptr @hook_get, i32 0)
  call void @lxfi.leave(ptr @hook_get)
  ret ptr %r
}
---- the image with its wrapper
---- file img.ll
declare ptr @hook_get()
define i64 @main() {
0:
  %f = call ptr @lxfi.out.hook_get()
  call void @lxfi.check(ptr %f)
  %r = call i64 %f(i64 41)
  ret i64 %r
}
define i64 @wild() {
0:
  %f = inttoptr i64 65792 to ptr
  call void @lxfi.check(ptr %f)
  %r = call i64 %f(i64 1)
  ret i64 %r
}
define ptr @lxfi.out.hook_get() {
0:
  call void @lxfi.enter(ptr @hook_get)
  %r = call ptr @hook_get()
  call void @lxfi.post(ptr @hook_get, i32 0)
  call void @lxfi.leave(ptr @hook_get)
  ret ptr %r
}
---- words check row.case m img.ll
---- whole
status 0
accepted
---- an indirect call without its check
---- file img.ll
declare ptr @hook_get()
define i64 @main() {
0:
  %f = call ptr @lxfi.out.hook_get()
  %r = call i64 %f(i64 41)
  ret i64 %r
}
define i64 @wild() {
0:
  %f = inttoptr i64 65792 to ptr
  call void @lxfi.check(ptr %f)
  %r = call i64 %f(i64 1)
  ret i64 %r
}
define ptr @lxfi.out.hook_get() {
0:
  call void @lxfi.enter(ptr @hook_get)
  %r = call ptr @hook_get()
  call void @lxfi.post(ptr @hook_get, i32 0)
  call void @lxfi.leave(ptr @hook_get)
  ret ptr %r
}
---- words check row.case m img.ll
---- whole
status 8
img.ll:5: image 3 @main 1
---- an import in the place of its wrapper
---- file img.ll
declare ptr @hook_get()
define i64 @main() {
0:
  %f = call ptr @hook_get()
  call void @lxfi.check(ptr %f)
  %r = call i64 %f(i64 41)
  ret i64 %r
}
define i64 @wild() {
0:
  %f = inttoptr i64 65792 to ptr
  call void @lxfi.check(ptr %f)
  %r = call i64 %f(i64 1)
  ret i64 %r
}
define ptr @lxfi.out.hook_get() {
0:
  call void @lxfi.enter(ptr @hook_get)
  %r = call ptr @hook_get()
  call void @lxfi.post(ptr @hook_get, i32 0)
  call void @lxfi.leave(ptr @hook_get)
  ret ptr %r
}
---- words check row.case m img.ll
---- whole
status 8
img.ll:4: image 5 @main 0
---- a wrapper without its last action
---- file img.ll
declare ptr @hook_get()
define i64 @main() {
0:
  %f = call ptr @lxfi.out.hook_get()
  call void @lxfi.check(ptr %f)
  %r = call i64 %f(i64 41)
  ret i64 %r
}
define i64 @wild() {
0:
  %f = inttoptr i64 65792 to ptr
  call void @lxfi.check(ptr %f)
  %r = call i64 %f(i64 1)
  ret i64 %r
}
define ptr @lxfi.out.hook_get() {
0:
  call void @lxfi.enter(ptr @hook_get)
  %r = call ptr @hook_get()
  call void @lxfi.leave(ptr @hook_get)
  ret ptr %r
}
---- words check row.case m img.ll
---- whole
status 8
img.ll:20: image 4 @lxfi.out.hook_get 2
---- a wrapper with another action
---- file img.ll
declare ptr @hook_get()
define i64 @main() {
0:
  %f = call ptr @lxfi.out.hook_get()
  call void @lxfi.check(ptr %f)
  %r = call i64 %f(i64 41)
  ret i64 %r
}
define i64 @wild() {
0:
  %f = inttoptr i64 65792 to ptr
  call void @lxfi.check(ptr %f)
  %r = call i64 %f(i64 1)
  ret i64 %r
}
define ptr @lxfi.out.hook_get() {
0:
  call void @lxfi.enter(ptr @hook_get)
  %r = call ptr @hook_get()
  call void @lxfi.post(ptr @hook_get, i32 1)
  call void @lxfi.leave(ptr @hook_get)
  ret ptr %r
}
---- words check row.case m img.ll
---- whole
status 8
img.ll:20: image 4 @lxfi.out.hook_get 2
---- a wrapper with the action twice
---- file img.ll
declare ptr @hook_get()
define i64 @main() {
0:
  %f = call ptr @lxfi.out.hook_get()
  call void @lxfi.check(ptr %f)
  %r = call i64 %f(i64 41)
  ret i64 %r
}
define i64 @wild() {
0:
  %f = inttoptr i64 65792 to ptr
  call void @lxfi.check(ptr %f)
  %r = call i64 %f(i64 1)
  ret i64 %r
}
define ptr @lxfi.out.hook_get() {
0:
  call void @lxfi.enter(ptr @hook_get)
  %r = call ptr @hook_get()
  call void @lxfi.post(ptr @hook_get, i32 0)
  call void @lxfi.post(ptr @hook_get, i32 0)
  call void @lxfi.leave(ptr @hook_get)
  ret ptr %r
}
---- words check row.case m img.ll
---- whole
status 8
img.ll:21: image 4 @lxfi.out.hook_get 3
---- a wrapper of the other side
---- file img.ll
declare ptr @hook_get()
define i64 @main() {
0:
  %f = call ptr @lxfi.in.hook_get()
  call void @lxfi.check(ptr %f)
  %r = call i64 %f(i64 41)
  ret i64 %r
}
define i64 @wild() {
0:
  %f = inttoptr i64 65792 to ptr
  call void @lxfi.check(ptr %f)
  %r = call i64 %f(i64 1)
  ret i64 %r
}
define ptr @lxfi.in.hook_get() {
0:
  call void @lxfi.enter(ptr @hook_get)
  %r = call ptr @hook_get()
  call void @lxfi.post(ptr @hook_get, i32 0)
  call void @lxfi.leave(ptr @hook_get)
  ret ptr %r
}
---- words check row.case m img.ll
---- whole
status 8
img.ll:4: image 5 @main 0
---- a check of another address
---- file img.ll
declare ptr @hook_get()
define i64 @main() {
0:
  %f = call ptr @lxfi.out.hook_get()
  call void @lxfi.check(ptr null)
  %r = call i64 %f(i64 41)
  ret i64 %r
}
define i64 @wild() {
0:
  %f = inttoptr i64 65792 to ptr
  call void @lxfi.check(ptr %f)
  %r = call i64 %f(i64 1)
  ret i64 %r
}
define ptr @lxfi.out.hook_get() {
0:
  call void @lxfi.enter(ptr @hook_get)
  %r = call ptr @hook_get()
  call void @lxfi.post(ptr @hook_get, i32 0)
  call void @lxfi.leave(ptr @hook_get)
  ret ptr %r
}
---- words check row.case m img.ll
---- whole
status 8
img.ll:5: image 2 @main 1
---- a check twice
---- file img.ll
declare ptr @hook_get()
define i64 @main() {
0:
  %f = call ptr @lxfi.out.hook_get()
  call void @lxfi.check(ptr %f)
  call void @lxfi.check(ptr %f)
  %r = call i64 %f(i64 41)
  ret i64 %r
}
define i64 @wild() {
0:
  %f = inttoptr i64 65792 to ptr
  call void @lxfi.check(ptr %f)
  %r = call i64 %f(i64 1)
  ret i64 %r
}
define ptr @lxfi.out.hook_get() {
0:
  call void @lxfi.enter(ptr @hook_get)
  %r = call ptr @hook_get()
  call void @lxfi.post(ptr @hook_get, i32 0)
  call void @lxfi.leave(ptr @hook_get)
  ret ptr %r
}
---- words check row.case m img.ll
---- whole
status 8
img.ll:5: image 6 @main 1
---- a guard before an indirect call
---- file img.ll
declare ptr @hook_get()
define i64 @main() {
0:
  %f = call ptr @lxfi.out.hook_get()
  call void @lxfi.guard(ptr %f, i64 8)
  %r = call i64 %f(i64 41)
  ret i64 %r
}
define i64 @wild() {
0:
  %f = inttoptr i64 65792 to ptr
  call void @lxfi.check(ptr %f)
  %r = call i64 %f(i64 1)
  ret i64 %r
}
define ptr @lxfi.out.hook_get() {
0:
  call void @lxfi.enter(ptr @hook_get)
  %r = call ptr @hook_get()
  call void @lxfi.post(ptr @hook_get, i32 0)
  call void @lxfi.leave(ptr @hook_get)
  ret ptr %r
}
---- words check row.case m img.ll
---- whole
status 8
img.ll:5: image 6 @main 1
---- a check in the other function alone
---- file img.ll
declare ptr @hook_get()
define i64 @main() {
0:
  %f = call ptr @lxfi.out.hook_get()
  call void @lxfi.check(ptr %f)
  %r = call i64 %f(i64 41)
  ret i64 %r
}
define i64 @wild() {
0:
  %f = inttoptr i64 65792 to ptr
  %r = call i64 %f(i64 1)
  ret i64 %r
}
define ptr @lxfi.out.hook_get() {
0:
  call void @lxfi.enter(ptr @hook_get)
  %r = call ptr @hook_get()
  call void @lxfi.post(ptr @hook_get, i32 0)
  call void @lxfi.leave(ptr @hook_get)
  ret ptr %r
}
---- words check row.case m img.ll
---- whole
status 8
img.ll:12: image 3 @wild 1
---- a wrapper whose result has another name
---- file img.ll
declare ptr @hook_get()
define i64 @main() {
0:
  %f = call ptr @lxfi.out.hook_get()
  call void @lxfi.check(ptr %f)
  %r = call i64 %f(i64 41)
  ret i64 %r
}
define i64 @wild() {
0:
  %f = inttoptr i64 65792 to ptr
  call void @lxfi.check(ptr %f)
  %r = call i64 %f(i64 1)
  ret i64 %r
}
define ptr @lxfi.out.hook_get() {
0:
  call void @lxfi.enter(ptr @hook_get)
  %q = call ptr @hook_get()
  call void @lxfi.post(ptr @hook_get, i32 0)
  call void @lxfi.leave(ptr @hook_get)
  ret ptr %q
}
---- words check row.case m img.ll
---- whole
status 8
img.ll:16: image 4 @lxfi.out.hook_get 0
---- the module alone
---- file img.ll
declare ptr @hook_get()
define i64 @main() {
0:
  %f = call ptr @lxfi.out.hook_get()
  call void @lxfi.check(ptr %f)
  %r = call i64 %f(i64 41)
  ret i64 %r
}
define i64 @wild() {
0:
  %f = inttoptr i64 65792 to ptr
  call void @lxfi.check(ptr %f)
  %r = call i64 %f(i64 1)
  ret i64 %r
}
---- words check row.case m img.ll
---- whole
status 3
img.ll:4: ir 5 @lxfi.out.hook_get
"#
}
