//! Images that are made, and forged guards that are refused: each fault is reasoned from what an image is.

pub fn worked_image_cases() -> &'static str {
    r#"---- file row.case
lxfi case 1
kernel none
interface none
module m one.ll
module q quiet.ll
thread
call m:main fuel 4
---- file quiet.ll
define i32 @f(i32 %a) {
%s = alloca i32
store i32 %a, ptr %s
%v = load i32, ptr %s
ret i32 %v
}
---- a store has its guard
---- words instrument row.case m
---- whole
status 0
@g = global i32 0
define i32 @main() {
0:
  call void @lxfi.guard(ptr @g, i64 4)
  store i32 7, ptr @g
  %v = load i32, ptr @g
  ret i32 %v
}
---- a store to a register of its own has none
---- words instrument row.case q
---- whole
status 0
define i32 @f(i32 %a) {
0:
  %s = alloca i32
  store i32 %a, ptr %s
  %v = load i32, ptr %s
  ret i32 %v
}
---- the image of the module
---- file img.ll
@g = global i32 0
define i32 @main() {
0:
  call void @lxfi.guard(ptr @g, i64 4)
  store i32 7, ptr @g
  %v = load i32, ptr @g
  ret i32 %v
}
---- words check row.case m img.ll
---- whole
status 0
accepted
---- the image of another module of the case, by the name of this one
---- file img.ll
define i32 @f(i32 %a) {
0:
  %s = alloca i32
  store i32 %a, ptr %s
  %v = load i32, ptr %s
  ret i32 %v
}
---- words check row.case m img.ll
---- whole
status 0
accepted
---- a guard of less bytes
---- file img.ll
@g = global i32 0
define i32 @main() {
0:
  call void @lxfi.guard(ptr @g, i64 2)
  store i32 7, ptr @g
  %v = load i32, ptr @g
  ret i32 %v
}
---- words check row.case m img.ll
---- whole
status 8
img.ll:4: image 2 @main 0
---- a guard of one byte less
---- file img.ll
@g = global i32 0
define i32 @main() {
0:
  call void @lxfi.guard(ptr @g, i64 3)
  store i32 7, ptr @g
  %v = load i32, ptr @g
  ret i32 %v
}
---- words check row.case m img.ll
---- whole
status 8
img.ll:4: image 2 @main 0
---- a guard of more bytes
---- file img.ll
@g = global i32 0
define i32 @main() {
0:
  call void @lxfi.guard(ptr @g, i64 8)
  store i32 7, ptr @g
  %v = load i32, ptr @g
  ret i32 %v
}
---- words check row.case m img.ll
---- whole
status 8
img.ll:4: image 2 @main 0
---- no guard
---- file img.ll
@g = global i32 0
define i32 @main() {
0:
  store i32 7, ptr @g
  %v = load i32, ptr @g
  ret i32 %v
}
---- words check row.case m img.ll
---- whole
status 8
img.ll:4: image 1 @main 0
---- the guard twice
---- file img.ll
@g = global i32 0
define i32 @main() {
0:
  call void @lxfi.guard(ptr @g, i64 4)
  call void @lxfi.guard(ptr @g, i64 4)
  store i32 7, ptr @g
  %v = load i32, ptr @g
  ret i32 %v
}
---- words check row.case m img.ll
---- whole
status 8
img.ll:4: image 6 @main 0
---- the guard behind the store
---- file img.ll
@g = global i32 0
define i32 @main() {
0:
  store i32 7, ptr @g
  call void @lxfi.guard(ptr @g, i64 4)
  %v = load i32, ptr @g
  ret i32 %v
}
---- words check row.case m img.ll
---- whole
status 8
img.ll:4: image 1 @main 0
---- the guard behind the load
---- file img.ll
@g = global i32 0
define i32 @main() {
0:
  store i32 7, ptr @g
  %v = load i32, ptr @g
  call void @lxfi.guard(ptr @g, i64 4)
  ret i32 %v
}
---- words check row.case m img.ll
---- whole
status 8
img.ll:4: image 1 @main 0
---- something between guard and store
---- file img.ll
@g = global i32 0
define i32 @main() {
0:
  call void @lxfi.guard(ptr @g, i64 4)
  %v = load i32, ptr @g
  store i32 7, ptr @g
  ret i32 %v
}
---- words check row.case m img.ll
---- whole
status 8
img.ll:4: image 6 @main 0
---- a guard of another global
---- file img.ll
@h = global i32 0
@g = global i32 0
define i32 @main() {
0:
  call void @lxfi.guard(ptr @h, i64 4)
  store i32 7, ptr @g
  %v = load i32, ptr @g
  ret i32 %v
}
---- words check row.case m img.ll
---- whole
status 8
img.ll:5: image 2 @main 0
---- a guard of no address
---- file img.ll
@g = global i32 0
define i32 @main() {
0:
  call void @lxfi.guard(ptr null, i64 4)
  store i32 7, ptr @g
  %v = load i32, ptr @g
  ret i32 %v
}
---- words check row.case m img.ll
---- whole
status 8
img.ll:4: image 2 @main 0
---- a guard of one byte further
---- file img.ll
@g = global i32 0
define i32 @main() {
0:
  call void @lxfi.guard(ptr getelementptr (i8, ptr @g, i64 1), i64 4)
  store i32 7, ptr @g
  %v = load i32, ptr @g
  ret i32 %v
}
---- words check row.case m img.ll
---- whole
status 8
img.ll:4: image 2 @main 0
---- a guard of 32 bits
---- file img.ll
@g = global i32 0
define i32 @main() {
0:
  call void @lxfi.guard32(ptr @g, i32 4)
  store i32 7, ptr @g
  %v = load i32, ptr @g
  ret i32 %v
}
---- words check row.case m img.ll
---- whole
status 8
img.ll:4: image 2 @main 0
---- a check before a store
---- file img.ll
@g = global i32 0
define i32 @main() {
0:
  call void @lxfi.check(ptr @g)
  store i32 7, ptr @g
  %v = load i32, ptr @g
  ret i32 %v
}
---- words check row.case m img.ll
---- whole
status 8
img.ll:4: image 6 @main 0
---- a principal is entered before the guard
---- file img.ll
@g = global i32 0
define i32 @main() {
0:
  call void @lxfi.enter(ptr @main)
  call void @lxfi.guard(ptr @g, i64 4)
  store i32 7, ptr @g
  %v = load i32, ptr @g
  ret i32 %v
}
---- words check row.case m img.ll
---- whole
status 8
img.ll:4: image 6 @main 0
---- a principal is left behind the store
---- file img.ll
@g = global i32 0
define i32 @main() {
0:
  call void @lxfi.guard(ptr @g, i64 4)
  store i32 7, ptr @g
  call void @lxfi.leave(ptr @main)
  %v = load i32, ptr @g
  ret i32 %v
}
---- words check row.case m img.ll
---- whole
status 8
img.ll:6: image 6 @main 2
---- an action before the body
---- file img.ll
@g = global i32 0
define i32 @main() {
0:
  call void @lxfi.guard(ptr @g, i64 4)
  store i32 7, ptr @g
  call void @lxfi.pre(ptr @main, i32 0)
  %v = load i32, ptr @g
  ret i32 %v
}
---- words check row.case m img.ll
---- whole
status 8
img.ll:6: image 6 @main 2
---- an action behind the body
---- file img.ll
@g = global i32 0
define i32 @main() {
0:
  call void @lxfi.guard(ptr @g, i64 4)
  store i32 7, ptr @g
  %v = load i32, ptr @g
  call void @lxfi.post(ptr @main, i32 0)
  ret i32 %v
}
---- words check row.case m img.ll
---- whole
status 8
img.ll:7: image 6 @main 3
---- a further wrapper
---- file img.ll
@g = global i32 0
define i32 @main() {
0:
  call void @lxfi.guard(ptr @g, i64 4)
  store i32 7, ptr @g
  %v = load i32, ptr @g
  ret i32 %v
}
define void @lxfi.out.main() {
0:
ret void
}
---- words check row.case m img.ll
---- whole
status 8
img.ll:9: image 4 @lxfi.out.main 0
---- a wrapper of a function without a slot type
---- file img.ll
@g = global i32 0
define i32 @main() {
0:
  call void @lxfi.guard(ptr @g, i64 4)
  store i32 7, ptr @g
  %v = load i32, ptr @g
  ret i32 %v
}
define i32 @lxfi.in.main() {
0:
  call void @lxfi.enter(ptr @main)
  %r = call i32 @main()
  call void @lxfi.leave(ptr @main)
  ret i32 %r
}
---- words check row.case m img.ll
---- whole
status 8
img.ll:9: image 4 @lxfi.in.main 0
---- a function with a name that images alone have
---- file img.ll
@g = global i32 0
define i32 @main() {
0:
  call void @lxfi.guard(ptr @g, i64 4)
  store i32 7, ptr @g
  %v = load i32, ptr @g
  ret i32 %v
}
define void @lxfi.more() {
0:
  ret void
}
---- words check row.case m img.ll
---- whole
status 8
img.ll:9: image 4 @lxfi.more 0
---- a text that ends too early
---- file img.ll
@g = global i32 0
define i32 @main() {
0:
  call void @lxfi.guard(ptr @g, i64 4)
---- words check row.case m img.ll
---- whole
status 3
img.ll:4: ir 2 end
---- a register that nothing assigns
---- file img.ll
@g = global i32 0
define i32 @main() {
0:
  call void @lxfi.guard(ptr @g, i64 4)
  store i32 7, ptr @g
  %v = load i32, ptr @g
  ret i32 %w
}
---- words check row.case m img.ll
---- whole
status 3
img.ll:7: verify 3 %w
---- a module that the case lacks
---- file img.ll
@g = global i32 0
define i32 @main() {
0:
  call void @lxfi.guard(ptr @g, i64 4)
  store i32 7, ptr @g
  %v = load i32, ptr @g
  ret i32 %v
}
---- words check row.case n img.ll
---- whole
status 3
row.case:0: case 3 n
"#
}
