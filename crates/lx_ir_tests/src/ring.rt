//! A ring buffer of bytes: `examples/c/ring.ll`, and its module as it is printed.

/// Its module: no word or line that is passed over, each block with its label, each constant pointer by its offset.
pub fn ring_printed() -> &'static str {
    r#"%struct.ring = type { [16 x i8], i32, i32 }
@ring = global %struct.ring zeroinitializer
define i32 @ring_put(i8 %0) {
1:
  %2 = alloca i32
  %3 = alloca i8
  store i8 %0, ptr %3
  %4 = call i32 @used(ptr @ring)
  %5 = icmp eq i32 %4, 15
  br i1 %5, label %6, label %7
6:
  store i32 -1, ptr %2
  br label %15
7:
  %8 = load i8, ptr %3
  %9 = load i32, ptr getelementptr (i8, ptr @ring, i64 16)
  %10 = zext i32 %9 to i64
  %11 = getelementptr [16 x i8], ptr @ring, i64 0, i64 %10
  store i8 %8, ptr %11
  %12 = load i32, ptr getelementptr (i8, ptr @ring, i64 16)
  %13 = add i32 %12, 1
  %14 = and i32 %13, 15
  store i32 %14, ptr getelementptr (i8, ptr @ring, i64 16)
  store i32 0, ptr %2
  br label %15
15:
  %16 = load i32, ptr %2
  ret i32 %16
}
define i32 @used(ptr %0) {
1:
  %2 = alloca ptr
  store ptr %0, ptr %2
  %3 = load ptr, ptr %2
  %4 = getelementptr %struct.ring, ptr %3, i32 0, i32 1
  %5 = load i32, ptr %4
  %6 = load ptr, ptr %2
  %7 = getelementptr %struct.ring, ptr %6, i32 0, i32 2
  %8 = load i32, ptr %7
  %9 = sub i32 %5, %8
  %10 = and i32 %9, 15
  ret i32 %10
}
define i32 @ring_take() {
0:
  %1 = alloca i32
  %2 = alloca i8
  %3 = call i32 @used(ptr @ring)
  %4 = icmp eq i32 %3, 0
  br i1 %4, label %5, label %6
5:
  store i32 -1, ptr %1
  br label %16
6:
  %7 = load i32, ptr getelementptr (i8, ptr @ring, i64 20)
  %8 = zext i32 %7 to i64
  %9 = getelementptr [16 x i8], ptr @ring, i64 0, i64 %8
  %10 = load i8, ptr %9
  store i8 %10, ptr %2
  %11 = load i32, ptr getelementptr (i8, ptr @ring, i64 20)
  %12 = add i32 %11, 1
  %13 = and i32 %12, 15
  store i32 %13, ptr getelementptr (i8, ptr @ring, i64 20)
  %14 = load i8, ptr %2
  %15 = zext i8 %14 to i32
  store i32 %15, ptr %1
  br label %16
16:
  %17 = load i32, ptr %1
  ret i32 %17
}
define i32 @ring_sum(i32 %0) {
1:
  %2 = alloca i32
  %3 = alloca i32
  %4 = alloca i32
  store i32 %0, ptr %2
  store i32 0, ptr %3
  store i32 0, ptr %4
  br label %5
5:
  %6 = load i32, ptr %4
  %7 = load i32, ptr %2
  %8 = icmp slt i32 %6, %7
  br i1 %8, label %9, label %21
9:
  %10 = load i32, ptr %4
  %11 = mul i32 3, %10
  %12 = add i32 %11, 1
  %13 = trunc i32 %12 to i8
  %14 = call i32 @ring_put(i8 %13)
  %15 = call i32 @ring_take()
  %16 = load i32, ptr %3
  %17 = add i32 %16, %15
  store i32 %17, ptr %3
  br label %18
18:
  %19 = load i32, ptr %4
  %20 = add i32 %19, 1
  store i32 %20, ptr %4
  br label %5
21:
  %22 = load i32, ptr %3
  ret i32 %22
}
"#
}
