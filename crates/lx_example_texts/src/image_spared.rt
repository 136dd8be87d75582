//! Images whose stores may lack their guard, made and forged.

pub fn spared_cases() -> &'static str {
    r#"---- file row.case
lxfi case 1
kernel none
interface none
module m quiet.ll
---- file quiet.ll
define i32 @f(i32 %a) {
%s = alloca i32
store i32 %a, ptr %s
%v = load i32, ptr %s
ret i32 %v
}
---- a spared store has no guard
---- words instrument row.case m
---- whole
status 0
define i32 @f(i32 %a) {
0:
  %s = alloca i32
  store i32 %a, ptr %s
  %v = load i32, ptr %s
  ret i32 %v
}
---- a spared store without its guard
---- file img.ll
define i32 @f(i32 %a) {
0:
  %s = alloca i32
  store i32 %a, ptr %s
  %v = load i32, ptr %s
  ret i32 %v
}
---- words check row.case m img.ll
---- whole
status 0
accepted
---- a spared store with its guard
---- file img.ll
define i32 @f(i32 %a) {
0:
  %s = alloca i32
  call void @lxfi.guard(ptr %s, i64 4)
  store i32 %a, ptr %s
  %v = load i32, ptr %s
  ret i32 %v
}
---- words check row.case m img.ll
---- whole
status 0
accepted
---- a spared store with another guard
---- file img.ll
define i32 @f(i32 %a) {
0:
  %s = alloca i32
  call void @lxfi.guard(ptr %s, i64 8)
  store i32 %a, ptr %s
  %v = load i32, ptr %s
  ret i32 %v
}
---- words check row.case m img.ll
---- whole
status 8
img.ll:4: image 2 @f 1
---- more is stored than the register has
---- file img.ll
define i32 @f(i32 %a) {
0:
  %s = alloca i32
  store i64 1, ptr %s
  %v = load i32, ptr %s
  ret i32 %v
}
---- words check row.case m img.ll
---- whole
status 8
img.ll:4: image 1 @f 1
---- less is stored
---- file img.ll
define i32 @f(i32 %a) {
0:
  %s = alloca i32
  store i8 1, ptr %s
  %v = load i32, ptr %s
  ret i32 %v
}
---- words check row.case m img.ll
---- whole
status 0
accepted
---- the register is stored
---- file img.ll
define i32 @f(i32 %a) {
0:
  %s = alloca i32
  store i32 %a, ptr %s
  store ptr %s, ptr %s
  %v = load i32, ptr %s
  ret i32 %v
}
---- words check row.case m img.ll
---- whole
status 8
img.ll:4: image 1 @f 1
---- the register is compared
---- file img.ll
define i32 @f(i32 %a) {
0:
  %s = alloca i32
  store i32 %a, ptr %s
  %v = load i32, ptr %s
  %c = icmp eq ptr %s, null
  ret i32 %v
}
---- words check row.case m img.ll
---- whole
status 8
img.ll:4: image 1 @f 1
---- the register is indexed
---- file img.ll
define i32 @f(i32 %a) {
0:
  %s = alloca i32
  store i32 %a, ptr %s
  %v = load i32, ptr %s
  %e = getelementptr i8, ptr %s, i64 1
  ret i32 %v
}
---- words check row.case m img.ll
---- whole
status 8
img.ll:4: image 1 @f 1
---- the register is cast
---- file img.ll
define i32 @f(i32 %a) {
0:
  %s = alloca i32
  store i32 %a, ptr %s
  %v = load i32, ptr %s
  %e = ptrtoint ptr %s to i64
  ret i32 %v
}
---- words check row.case m img.ll
---- whole
status 8
img.ll:4: image 1 @f 1
---- the register is selected
---- file img.ll
define i32 @f(i32 %a) {
0:
  %s = alloca i32
  store i32 %a, ptr %s
  %v = load i32, ptr %s
  %e = select i1 true, ptr %s, ptr null
  ret i32 %v
}
---- words check row.case m img.ll
---- whole
status 8
img.ll:4: image 1 @f 1
---- the register is frozen
---- file img.ll
define i32 @f(i32 %a) {
0:
  %s = alloca i32
  store i32 %a, ptr %s
  %v = load i32, ptr %s
  %e = freeze ptr %s
  ret i32 %v
}
---- words check row.case m img.ll
---- whole
status 8
img.ll:4: image 1 @f 1
---- the register is passed
---- file img.ll
define i32 @f(i32 %a) {
0:
  %s = alloca i32
  store i32 %a, ptr %s
  %v = load i32, ptr %s
  %e = call i32 @g(ptr %s)
  ret i32 %v
}
define i32 @g(ptr %p) {
0:
  ret i32 0
}
---- words check row.case m img.ll
---- whole
status 8
img.ll:4: image 1 @f 1
---- the register is returned
---- file img.ll
define ptr @f(i32 %a) {
0:
  %s = alloca i32
  store i32 %a, ptr %s
  %v = load i32, ptr %s
  ret ptr %s
}
---- words check row.case m img.ll
---- whole
status 8
img.ll:4: image 1 @f 1
---- a phi reads the register
---- file img.ll
define i32 @f(i32 %a) {
0:
  %s = alloca i32
  store i32 %a, ptr %s
  %v = load i32, ptr %s
  br label %e
e:
  %p = phi ptr [ %s, %0 ]
  ret i32 %v
}
---- words check row.case m img.ll
---- whole
status 8
img.ll:4: image 1 @f 1
---- the register is filled
---- file img.ll
define i32 @f(i32 %a) {
0:
  %s = alloca i32
  store i32 %a, ptr %s
  %v = load i32, ptr %s
  call void @lxfi.guard(ptr %s, i64 4)
  call void @llvm.memset.p0.i64(ptr %s, i8 0, i64 4, i1 false)
  ret i32 %v
}
---- words check row.case m img.ll
---- whole
status 8
img.ll:4: image 1 @f 1
---- the register is no alloca
---- file img.ll
define i32 @f(i32 %a) {
0:
  %s = inttoptr i64 50331648 to ptr
  store i32 %a, ptr %s
  %v = load i32, ptr %s
  ret i32 %v
}
---- words check row.case m img.ll
---- whole
status 8
img.ll:4: image 1 @f 1
---- another register of the same name
---- file img.ll
define i32 @f(i32 %a) {
0:
  %s = alloca i32
  store i32 %a, ptr %s
  %v = load i32, ptr %s
  ret i32 %v
}
define void @h(ptr %s) {
0:
  store i32 1, ptr %s
  ret void
}
---- words check row.case m img.ll
---- whole
status 8
img.ll:10: image 1 @h 0
---- a block that no walk reaches reads registers that nothing gives
---- file img.ll
define void @f() {
0:
  ret void
l:
  call void @lxfi.guard(ptr %p, i64 8)
  store i64 %v, ptr %p
  ret void
}
---- words check row.case m img.ll
---- whole
status 0
accepted
"#
}
