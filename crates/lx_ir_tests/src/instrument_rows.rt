//! Modules with their images. A line behind `-` stands in the module alone, one behind `+` in both images, and one behind `?` in the
//! image with all guards.

/// A module with its images.
pub struct Row {
    pub name: &'static str,
    pub lines: &'static str,
}

/// A function behind its name: of its two stores one is to its own stack. The other one is not spared.
pub const FUNCTION_LINES: &str = "(ptr %p) {
0:
  %a = alloca i64
  %b = alloca [4 x i32]
?  call void @lxfi.guard(ptr %a, i64 8)
  store i64 7, ptr %a
?  call void @lxfi.guard(ptr %b, i64 4)
  store i32 1, ptr %b
+  call void @lxfi.guard(ptr %p, i64 4)
  store i32 7, ptr %p
  %v = load i32, ptr %a
  ret i32 %v
}";

pub static ROWS: [Row; 14] = [
    Row {
        name: "a store to a global",
        lines: "@g = global i32 0
define i32 @main() {
0:
+  call void @lxfi.guard(ptr @g, i64 4)
  store i32 7, ptr @g
  %v = load i32, ptr @g
  ret i32 %v
}",
    },
    Row {
        name: "a store to a parameter",
        lines: "define void @main(ptr %p) {
0:
+  call void @lxfi.guard(ptr %p, i64 1)
  store i8 7, ptr %p
  ret void
}",
    },
    Row {
        name: "stores to the stack",
        lines: "define i32 @main(i32 %n) {
entry:
  %a = alloca i32
  %b = alloca i64
?  call void @lxfi.guard(ptr %a, i64 4)
  store i32 %n, ptr %a
?  call void @lxfi.guard(ptr %b, i64 1)
  store i8 1, ptr %b
  br label %more
more:
  %v = load i32, ptr %a
?  call void @lxfi.guard(ptr %a, i64 4)
  store i32 %v, ptr %a
  ret i32 %v
}",
    },
    Row {
        name: "a wider value",
        lines: "define void @main() {
0:
  %a = alloca i16
+  call void @lxfi.guard(ptr %a, i64 4)
  store i32 7, ptr %a
?  call void @lxfi.guard(ptr %a, i64 2)
  store i16 7, ptr %a
  ret void
}",
    },
    Row {
        name: "an address that is stored",
        lines: "define void @main() {
0:
  %a = alloca i32
  %b = alloca ptr
?  call void @lxfi.guard(ptr %b, i64 8)
  store ptr %a, ptr %b
+  call void @lxfi.guard(ptr %a, i64 4)
  store i32 7, ptr %a
  ret void
}",
    },
    Row {
        name: "an address that is stored to itself",
        lines: "define void @main() {
0:
  %a = alloca ptr
+  call void @lxfi.guard(ptr %a, i64 8)
  store ptr %a, ptr %a
  ret void
}",
    },
    Row {
        name: "an address that is passed in another block",
        lines: "declare void @f(ptr)
define void @main() {
entry:
  %a = alloca i32
+  call void @lxfi.guard(ptr %a, i64 4)
  store i32 7, ptr %a
  br label %more
more:
+  call void @lxfi.out.f(ptr %a)
-  call void @f(ptr %a)
  ret void
}
+define void @lxfi.out.f(ptr %0) {
+0:
+  call void @lxfi.enter(ptr @f)
+  call void @f(ptr %0)
+  call void @lxfi.leave(ptr @f)
+  ret void
+}",
    },
    Row {
        name: "an address that is compared",
        lines: "define i1 @main() {
0:
  %a = alloca i32
+  call void @lxfi.guard(ptr %a, i64 4)
  store i32 7, ptr %a
  %c = icmp eq ptr %a, null
  ret i1 %c
}",
    },
    Row {
        name: "an address that is indexed",
        lines: "define void @main() {
0:
  %a = alloca [2 x i32]
  %b = getelementptr i32, ptr %a, i64 1
+  call void @lxfi.guard(ptr %a, i64 4)
  store i32 7, ptr %a
+  call void @lxfi.guard(ptr %b, i64 4)
  store i32 7, ptr %b
  ret void
}",
    },
    Row {
        name: "an address at a phi",
        lines: "define void @main(ptr %p, i1 %c) {
entry:
  %a = alloca i32
+  call void @lxfi.guard(ptr %a, i64 4)
  store i32 7, ptr %a
  br i1 %c, label %left, label %right
left:
  br label %right
right:
  %q = phi ptr [ %a, %entry ], [ %p, %left ]
+  call void @lxfi.guard(ptr %q, i64 4)
  store i32 7, ptr %q
  ret void
}",
    },
    Row {
        name: "an address that is returned",
        lines: "define ptr @main() {
0:
  %a = alloca i32
+  call void @lxfi.guard(ptr %a, i64 4)
  store i32 7, ptr %a
  ret ptr %a
}",
    },
    Row {
        name: "bytes that are filled",
        lines: "define void @main(i32 %n) {
0:
  %a = alloca i64
+  call void @lxfi.guard32(ptr %a, i32 %n)
  call void @llvm.memset.p0.i32(ptr %a, i8 0, i32 %n, i1 false)
+  call void @lxfi.guard(ptr %a, i64 8)
  call void @llvm.memset.p0.i64(ptr %a, i8 0, i64 8, i1 false)
+  call void @lxfi.guard(ptr %a, i64 8)
  store i64 7, ptr %a
  ret void
}",
    },
    Row {
        name: "a call by a register",
        lines: "define void @main(ptr %p) {
0:
+  call void @lxfi.check(ptr %p)
  call void %p()
  ret void
}",
    },
    Row {
        name: "imports and own functions",
        lines: "declare void @lxfi_princ_alias(ptr, ptr)
declare i32 @f(i32)
define void @main(ptr %p) {
0:
  call void @lxfi_princ_alias(ptr %p, ptr null)
  call void @main(ptr %p)
-  %v = call i32 @f(i32 7)
+  %v = call i32 @lxfi.out.f(i32 7)
  ret void
}
+define i32 @lxfi.out.f(i32 %0) {
+0:
+  call void @lxfi.enter(ptr @f)
+  %r = call i32 @f(i32 %0)
+  call void @lxfi.leave(ptr @f)
+  ret i32 %r
+}",
    },
];
