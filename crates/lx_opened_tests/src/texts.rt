//! The texts of these tests: cases, a kernel, modules with their images, and texts of which a part is exchanged.
use std::alloc::Global;
use std::test::Fail;

/// A case of one module over no kernel, which calls its function once.
const ONE_CASE: &str = "lxfi case 1
kernel none
interface none
module m m.ll
thread
call m:main fuel 100
";

/// The same module called once by each of two threads.
pub fn two_threads() -> &'static str {
    "lxfi case 1
kernel none
interface none
module m m.ll
thread
call m:main fuel 100
thread
call m:main fuel 100
"
}

/// A case of two modules.
pub fn two_modules() -> &'static str {
    "lxfi case 1
kernel none
interface none
module m m.ll
module n n.ll
thread
call m:main fuel 100
call n:main fuel 100
"
}

/// A case over a kernel with a function that the module does not import, but is given the address of. Six natives stand from 0x10000, 16
/// bytes each; behind them it is the first function.
const HIDDEN_CASE: &str = "lxfi case 1
kernel file k.ll
interface none
module m m.ll
thread
call m:main 0x10060 fuel 100
";

/// A case of one module, with the texts of the kernel and the interface, empty where the case names none, of the module, and of its
/// image.
#[derive(Clone, Copy)]
pub struct Sample {
    pub case: &'static str,
    pub kernel: &'static str,
    pub interface: &'static str,
    pub module: &'static str,
    pub image: &'static str,
}

/// A module that calls what it is given.
pub fn calls_given() -> Sample {
    Sample {
        case: HIDDEN_CASE,
        kernel: "define i64 @hidden() {
ret i64 5
}
",
        interface: "",
        module: "define i64 @main(ptr %f) {
%r = call i64 %f()
ret i64 %r
}
",
        image: "define i64 @main(ptr %f) {
0:
  call void @lxfi.check(ptr %f)
  %r = call i64 %f()
  ret i64 %r
}
",
    }
}

/// A module that stores a number to its global and reads it again.
pub fn stores_seven() -> Sample {
    Sample {
        case: ONE_CASE,
        kernel: "",
        interface: "",
        module: "@g = global i32 0
define i32 @main() {
store i32 7, ptr @g
%v = load i32, ptr @g
ret i32 %v
}
",
        image: "@g = global i32 0
define i32 @main() {
0:
  call void @lxfi.guard(ptr @g, i64 4)
  store i32 7, ptr @g
  %v = load i32, ptr @g
  ret i32 %v
}
",
    }
}

/// A module whose store is one byte longer than its global.
pub fn stores_past() -> Sample {
    Sample {
        case: ONE_CASE,
        kernel: "",
        interface: "",
        module: "@g = global [7 x i8] zeroinitializer
define void @main() {
store i64 7, ptr @g
ret void
}
",
        image: "@g = global [7 x i8] zeroinitializer
define void @main() {
0:
  call void @lxfi.guard(ptr @g, i64 8)
  store i64 7, ptr @g
  ret void
}
",
    }
}

/// A module with a type of its own, which no instruction names.
pub fn has_type() -> Sample {
    Sample {
        case: ONE_CASE,
        kernel: "",
        interface: "",
        module: "%pair = type { i32, i32 }
define i32 @main() {
ret i32 0
}
",
        image: "%pair = type { i32, i32 }
define i32 @main() {
0:
  ret i32 0
}
",
    }
}

/// A text with one part exchanged, where that stands in it first.
pub fn exchanged(alloc: Global, text: &str, old: &str, new: &str) -> Result<String, Fail> {
    match text.split_once(old) {
        Some((before, behind)) => {
            let text = format!(in alloc; "{before}{new}{behind}")?;
            Ok(text)
        }
        None => Err(Fail::new("the part does not stand there")),
    }
}
