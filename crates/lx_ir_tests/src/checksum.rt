//! The checksum of the Internet protocols: `examples/c/checksum.ll`, and its module as it is printed.

/// Its module: no word or line that is passed over, each block with its label, each constant pointer by its offset.
pub fn checksum_printed() -> &'static str {
    r#"@packet = constant [21 x i8] c"E\00\00<\1CF@\00@\06\00\00\AC\10\0Ac\AC\10\0A\0C\00"
define i16 @checksum(ptr %0, i32 %1) {
2:
  %3 = alloca ptr
  %4 = alloca i32
  %5 = alloca i32
  %6 = alloca i32
  store ptr %0, ptr %3
  store i32 %1, ptr %4
  store i32 0, ptr %5
  store i32 0, ptr %6
  br label %7
7:
  %8 = load i32, ptr %6
  %9 = add i32 %8, 1
  %10 = load i32, ptr %4
  %11 = icmp ult i32 %9, %10
  br i1 %11, label %12, label %34
12:
  %13 = load i32, ptr %5
  %14 = load ptr, ptr %3
  %15 = load i32, ptr %6
  %16 = zext i32 %15 to i64
  %17 = getelementptr i8, ptr %14, i64 %16
  %18 = load i8, ptr %17
  %19 = zext i8 %18 to i32
  %20 = shl i32 %19, 8
  %21 = load ptr, ptr %3
  %22 = load i32, ptr %6
  %23 = add i32 %22, 1
  %24 = zext i32 %23 to i64
  %25 = getelementptr i8, ptr %21, i64 %24
  %26 = load i8, ptr %25
  %27 = zext i8 %26 to i32
  %28 = or i32 %20, %27
  %29 = add i32 %13, %28
  %30 = call i32 @folded(i32 %29)
  store i32 %30, ptr %5
  br label %31
31:
  %32 = load i32, ptr %6
  %33 = add i32 %32, 2
  store i32 %33, ptr %6
  br label %7
34:
  %35 = load i32, ptr %4
  %36 = and i32 %35, 1
  %37 = icmp ne i32 %36, 0
  br i1 %37, label %38, label %50
38:
  %39 = load i32, ptr %5
  %40 = load ptr, ptr %3
  %41 = load i32, ptr %4
  %42 = sub i32 %41, 1
  %43 = zext i32 %42 to i64
  %44 = getelementptr i8, ptr %40, i64 %43
  %45 = load i8, ptr %44
  %46 = zext i8 %45 to i32
  %47 = shl i32 %46, 8
  %48 = add i32 %39, %47
  %49 = call i32 @folded(i32 %48)
  store i32 %49, ptr %5
  br label %50
50:
  %51 = load i32, ptr %5
  %52 = xor i32 %51, -1
  %53 = trunc i32 %52 to i16
  ret i16 %53
}
define i32 @folded(i32 %0) {
1:
  %2 = alloca i32
  store i32 %0, ptr %2
  br label %3
3:
  %4 = load i32, ptr %2
  %5 = lshr i32 %4, 16
  %6 = icmp ne i32 %5, 0
  br i1 %6, label %7, label %13
7:
  %8 = load i32, ptr %2
  %9 = and i32 %8, 65535
  %10 = load i32, ptr %2
  %11 = lshr i32 %10, 16
  %12 = add i32 %9, %11
  store i32 %12, ptr %2
  br label %3
13:
  %14 = load i32, ptr %2
  ret i32 %14
}
define i32 @checksum_of_packet() {
0:
  %1 = call i16 @checksum(ptr @packet, i32 20)
  %2 = zext i16 %1 to i32
  ret i32 %2
}
"#
}
