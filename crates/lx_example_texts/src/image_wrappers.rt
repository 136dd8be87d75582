//! Images whose names and wrappers are forged: each fault is reasoned from what an image is.

pub fn wrapper_cases() -> &'static str {
    r#"---- file row.case
lxfi case 1
kernel none
interface none
module m one.ll
module q quiet.ll
thread
call m:main fuel 4
---- file quiet.ll
define i32 @f(i32 %a) {
%s = alloca i32
store i32 %a, ptr %s
%v = load i32, ptr %s
ret i32 %v
}
---- a global with a name that images alone have
---- file img.ll
@lxfi.g = global i32 0
@g = global i32 0
define i32 @main() {
0:
  call void @lxfi.guard(ptr @g, i64 4)
  store i32 7, ptr @g
  %v = load i32, ptr @g
  ret i32 %v
}
---- words check row.case m img.ll
---- whole
status 8
img.ll:1: image 4 @lxfi.g 0
---- an import with a name that images alone have
---- file img.ll
declare void @lxfi.out.x()
@g = global i32 0
define i32 @main() {
0:
  call void @lxfi.guard(ptr @g, i64 4)
  store i32 7, ptr @g
  %v = load i32, ptr @g
  ret i32 %v
}
---- words check row.case m img.ll
---- whole
status 8
img.ll:1: image 4 @lxfi.out.x 0
---- an import that nobody calls has no wrapper
---- file img.ll
declare void @x()
@g = global i32 0
define i32 @main() {
0:
  call void @lxfi.guard(ptr @g, i64 4)
  store i32 7, ptr @g
  %v = load i32, ptr @g
  ret i32 %v
}
---- words check row.case m img.ll
---- whole
status 8
img.ll:1: image 4 @lxfi.out.x 0
---- an import and its wrapper
---- file img.ll
declare void @x()
@g = global i32 0
define i32 @main() {
0:
  call void @lxfi.guard(ptr @g, i64 4)
  store i32 7, ptr @g
  %v = load i32, ptr @g
  ret i32 %v
}
define void @lxfi.out.x() {
0:
  call void @lxfi.enter(ptr @x)
  call void @x()
  call void @lxfi.leave(ptr @x)
  ret void
}
---- words check row.case m img.ll
---- whole
status 0
accepted
---- a global is the address of a wrapper
---- file img.ll
@p = global ptr @lxfi.out.x
declare void @x()
@g = global i32 0
define i32 @main() {
0:
  call void @lxfi.guard(ptr @g, i64 4)
  store i32 7, ptr @g
  %v = load i32, ptr @g
  ret i32 %v
}
define void @lxfi.out.x() {
0:
  call void @lxfi.enter(ptr @x)
  call void @x()
  call void @lxfi.leave(ptr @x)
  ret void
}
---- words check row.case m img.ll
---- whole
status 8
img.ll:1: image 4 @p 0
---- a wrapper is stored
---- file img.ll
@p = global ptr null
declare void @x()
@g = global i32 0
define i32 @main() {
0:
  call void @lxfi.guard(ptr @p, i64 8)
  store ptr @lxfi.out.x, ptr @p
  store i32 7, ptr @g
  %v = load i32, ptr @g
  ret i32 %v
}
define void @lxfi.out.x() {
0:
  call void @lxfi.enter(ptr @x)
  call void @x()
  call void @lxfi.leave(ptr @x)
  ret void
}
---- words check row.case m img.ll
---- whole
status 8
img.ll:7: image 5 @main 1
---- a wrapper is compared
---- file img.ll
declare void @x()
@g = global i32 0
define i32 @main() {
0:
  call void @lxfi.guard(ptr @g, i64 4)
  store i32 7, ptr @g
  %c = icmp eq ptr @lxfi.out.x, null
  %v = load i32, ptr @g
  ret i32 %v
}
define void @lxfi.out.x() {
0:
  call void @lxfi.enter(ptr @x)
  call void @x()
  call void @lxfi.leave(ptr @x)
  ret void
}
---- words check row.case m img.ll
---- whole
status 8
img.ll:7: image 5 @main 2
---- an import is called by its own name
---- file img.ll
declare void @x()
@g = global i32 0
define i32 @main() {
0:
  call void @lxfi.guard(ptr @g, i64 4)
  store i32 7, ptr @g
  call void @x()
  %v = load i32, ptr @g
  ret i32 %v
}
define void @lxfi.out.x() {
0:
  call void @lxfi.enter(ptr @x)
  call void @x()
  call void @lxfi.leave(ptr @x)
  ret void
}
---- words check row.case m img.ll
---- whole
status 8
img.ll:7: image 5 @main 2
---- an import is called by its wrapper
---- file img.ll
declare void @x()
@g = global i32 0
define i32 @main() {
0:
  call void @lxfi.guard(ptr @g, i64 4)
  store i32 7, ptr @g
  call void @lxfi.out.x()
  %v = load i32, ptr @g
  ret i32 %v
}
define void @lxfi.out.x() {
0:
  call void @lxfi.enter(ptr @x)
  call void @x()
  call void @lxfi.leave(ptr @x)
  ret void
}
---- words check row.case m img.ll
---- whole
status 0
accepted
---- a wrapper without an import is called
---- file img.ll
@g = global i32 0
define i32 @main() {
0:
  call void @lxfi.guard(ptr @g, i64 4)
  store i32 7, ptr @g
  call void @lxfi.out.y()
  %v = load i32, ptr @g
  ret i32 %v
}
define void @lxfi.out.y() {
0:
  call void @lxfi.enter(ptr @main)
  call i32 @main()
  call void @lxfi.leave(ptr @main)
  ret void
}
---- words check row.case m img.ll
---- whole
status 8
img.ll:6: image 5 @main 2
---- the wrapper stands before the module
---- file img.ll
declare void @x()
define void @lxfi.out.x() {
0:
  call void @lxfi.enter(ptr @x)
  call void @x()
  call void @lxfi.leave(ptr @x)
  ret void
}
@g = global i32 0
define i32 @main() {
0:
  call void @lxfi.guard(ptr @g, i64 4)
  store i32 7, ptr @g
  %v = load i32, ptr @g
  ret i32 %v
}
---- words check row.case m img.ll
---- whole
status 8
img.ll:2: image 4 @lxfi.out.x 0
---- the wrapper is renamed
---- file img.ll
declare void @x()
@g = global i32 0
define i32 @main() {
0:
  call void @lxfi.guard(ptr @g, i64 4)
  store i32 7, ptr @g
  %v = load i32, ptr @g
  ret i32 %v
}
define void @lxfi.out.z() {
0:
  call void @lxfi.enter(ptr @x)
  call void @x()
  call void @lxfi.leave(ptr @x)
  ret void
}
---- words check row.case m img.ll
---- whole
status 8
img.ll:1: image 4 @lxfi.out.x 0
---- the wrapper enters another function
---- file img.ll
declare void @x()
@g = global i32 0
define i32 @main() {
0:
  call void @lxfi.guard(ptr @g, i64 4)
  store i32 7, ptr @g
  %v = load i32, ptr @g
  ret i32 %v
}
define void @lxfi.out.x() {
0:
  call void @lxfi.enter(ptr @main)
  call void @x()
  call void @lxfi.leave(ptr @x)
  ret void
}
---- words check row.case m img.ll
---- whole
status 8
img.ll:12: image 4 @lxfi.out.x 0
---- the wrapper calls another function
---- file img.ll
declare void @x()
@g = global i32 0
define i32 @main() {
0:
  call void @lxfi.guard(ptr @g, i64 4)
  store i32 7, ptr @g
  %v = load i32, ptr @g
  ret i32 %v
}
define void @lxfi.out.x() {
0:
  call void @lxfi.enter(ptr @x)
  call void @lxfi.out.x()
  call void @lxfi.leave(ptr @x)
  ret void
}
---- words check row.case m img.ll
---- whole
status 8
img.ll:13: image 4 @lxfi.out.x 1
---- the wrapper does not leave
---- file img.ll
declare void @x()
@g = global i32 0
define i32 @main() {
0:
  call void @lxfi.guard(ptr @g, i64 4)
  store i32 7, ptr @g
  %v = load i32, ptr @g
  ret i32 %v
}
define void @lxfi.out.x() {
0:
  call void @lxfi.enter(ptr @x)
  call void @x()
  ret void
}
---- words check row.case m img.ll
---- whole
status 8
img.ll:14: image 4 @lxfi.out.x 2
---- the wrapper does not enter
---- file img.ll
declare void @x()
@g = global i32 0
define i32 @main() {
0:
  call void @lxfi.guard(ptr @g, i64 4)
  store i32 7, ptr @g
  %v = load i32, ptr @g
  ret i32 %v
}
define void @lxfi.out.x() {
0:
  call void @x()
  call void @lxfi.leave(ptr @x)
  ret void
}
---- words check row.case m img.ll
---- whole
status 8
img.ll:12: image 4 @lxfi.out.x 0
---- the wrapper calls twice
---- file img.ll
declare void @x()
@g = global i32 0
define i32 @main() {
0:
  call void @lxfi.guard(ptr @g, i64 4)
  store i32 7, ptr @g
  %v = load i32, ptr @g
  ret i32 %v
}
define void @lxfi.out.x() {
0:
  call void @lxfi.enter(ptr @x)
  call void @x()
  call void @x()
  call void @lxfi.leave(ptr @x)
  ret void
}
---- words check row.case m img.ll
---- whole
status 8
img.ll:14: image 4 @lxfi.out.x 2
---- the wrapper acts where nothing is to be done
---- file img.ll
declare void @x()
@g = global i32 0
define i32 @main() {
0:
  call void @lxfi.guard(ptr @g, i64 4)
  store i32 7, ptr @g
  %v = load i32, ptr @g
  ret i32 %v
}
define void @lxfi.out.x() {
0:
  call void @lxfi.enter(ptr @x)
  call void @lxfi.pre(ptr @x, i32 0)
  call void @x()
  call void @lxfi.leave(ptr @x)
  ret void
}
---- words check row.case m img.ll
---- whole
status 8
img.ll:13: image 4 @lxfi.out.x 1
---- the block of the wrapper has another name
---- file img.ll
declare void @x()
@g = global i32 0
define i32 @main() {
0:
  call void @lxfi.guard(ptr @g, i64 4)
  store i32 7, ptr @g
  %v = load i32, ptr @g
  ret i32 %v
}
define void @lxfi.out.x() {
1:
  call void @lxfi.enter(ptr @x)
  call void @x()
  call void @lxfi.leave(ptr @x)
  ret void
}
---- words check row.case m img.ll
---- whole
status 8
img.ll:10: image 4 @lxfi.out.x 0
---- the wrapper has a parameter
---- file img.ll
declare void @x()
@g = global i32 0
define i32 @main() {
0:
  call void @lxfi.guard(ptr @g, i64 4)
  store i32 7, ptr @g
  %v = load i32, ptr @g
  ret i32 %v
}
define void @lxfi.out.x(i32 %0) {
0:
  call void @lxfi.enter(ptr @x)
  call void @x()
  call void @lxfi.leave(ptr @x)
  ret void
}
---- words check row.case m img.ll
---- whole
status 8
img.ll:10: image 4 @lxfi.out.x 0
"#
}
