//! A driver with a table of operations: `examples/c/driver.ll`, and its module as it is printed.

/// Its module: no word or line that is passed over, each block with its label, each constant pointer by its offset.
pub fn driver_printed() -> &'static str {
    r#"%struct.device_ops = type { ptr, ptr, ptr }
%struct.device = type { ptr, i32, i64, [8 x i8] }
@ops = constant %struct.device_ops { ptr @driver_open, ptr @driver_write, ptr @driver_close }
declare ptr @kmalloc(i64)
declare i32 @device_register(ptr)
declare void @kfree(ptr)
define i32 @driver_init() {
0:
  %1 = alloca i32
  %2 = alloca ptr
  %3 = alloca i32
  %4 = call ptr @kmalloc(i64 32)
  store ptr %4, ptr %2
  %5 = load ptr, ptr %2
  %6 = icmp ne ptr %5, null
  br i1 %6, label %8, label %7
7:
  store i32 -12, ptr %1
  br label %23
8:
  %9 = load ptr, ptr %2
  %10 = getelementptr %struct.device, ptr %9, i32 0, i32 0
  store ptr @ops, ptr %10
  %11 = load ptr, ptr %2
  %12 = getelementptr %struct.device, ptr %11, i32 0, i32 1
  store i32 0, ptr %12
  %13 = load ptr, ptr %2
  %14 = getelementptr %struct.device, ptr %13, i32 0, i32 2
  store i64 0, ptr %14
  %15 = load ptr, ptr %2
  %16 = call i32 @device_register(ptr %15)
  store i32 %16, ptr %3
  %17 = load i32, ptr %3
  %18 = icmp ne i32 %17, 0
  br i1 %18, label %19, label %21
19:
  %20 = load ptr, ptr %2
  call void @kfree(ptr %20)
  br label %21
21:
  %22 = load i32, ptr %3
  store i32 %22, ptr %1
  br label %23
23:
  %24 = load i32, ptr %1
  ret i32 %24
}
define i32 @driver_open(ptr %0) {
1:
  %2 = alloca ptr
  store ptr %0, ptr %2
  %3 = load ptr, ptr %2
  %4 = getelementptr %struct.device, ptr %3, i32 0, i32 1
  %5 = load i32, ptr %4
  %6 = add i32 %5, 1
  store i32 %6, ptr %4
  ret i32 0
}
define i64 @driver_write(ptr %0, ptr %1, i64 %2) {
3:
  %4 = alloca ptr
  %5 = alloca ptr
  %6 = alloca i64
  %7 = alloca i64
  store ptr %0, ptr %4
  store ptr %1, ptr %5
  store i64 %2, ptr %6
  store i64 0, ptr %7
  br label %8
8:
  %9 = load i64, ptr %7
  %10 = load i64, ptr %6
  %11 = icmp ult i64 %9, %10
  br i1 %11, label %12, label %25
12:
  %13 = load ptr, ptr %5
  %14 = load i64, ptr %7
  %15 = getelementptr i8, ptr %13, i64 %14
  %16 = load i8, ptr %15
  %17 = load ptr, ptr %4
  %18 = getelementptr %struct.device, ptr %17, i32 0, i32 3
  %19 = load i64, ptr %7
  %20 = urem i64 %19, 8
  %21 = getelementptr [8 x i8], ptr %18, i64 0, i64 %20
  store i8 %16, ptr %21
  br label %22
22:
  %23 = load i64, ptr %7
  %24 = add i64 %23, 1
  store i64 %24, ptr %7
  br label %8
25:
  %26 = load i64, ptr %6
  %27 = load ptr, ptr %4
  %28 = getelementptr %struct.device, ptr %27, i32 0, i32 2
  %29 = load i64, ptr %28
  %30 = add i64 %29, %26
  store i64 %30, ptr %28
  %31 = load i64, ptr %6
  ret i64 %31
}
define void @driver_close(ptr %0) {
1:
  %2 = alloca ptr
  store ptr %0, ptr %2
  %3 = load ptr, ptr %2
  %4 = getelementptr %struct.device, ptr %3, i32 0, i32 1
  %5 = load i32, ptr %4
  switch i32 %5, label %10 [ i32 0, label %6 i32 1, label %7 ]
6:
  br label %15
7:
  %8 = load ptr, ptr %2
  %9 = getelementptr %struct.device, ptr %8, i32 0, i32 2
  store i64 0, ptr %9
  br label %10
10:
  %11 = load ptr, ptr %2
  %12 = getelementptr %struct.device, ptr %11, i32 0, i32 1
  %13 = load i32, ptr %12
  %14 = add i32 %13, -1
  store i32 %14, ptr %12
  br label %15
15:
  ret void
}
"#
}
