//! Modules from texts and back, and the faults of texts.

use crate::reprinted;
use lx_ir_read::{ReadFault, TextForm};
use lx_words::Memory;
use std::alloc::Global;
use std::process::Abort;

/// What is wanted of a text.
#[derive(Clone, Copy)]
enum Wanted {
    /// A module that is printed so.
    Printed(&'static str),
    Module,
    /// The first fault: the number of its kind, its line, and what names it.
    Fault(u32, u32, &'static str),
    /// What the first fault says.
    Says(&'static str),
}

fn is_fault(fault: &ReadFault, kind: u32, line: u32, what: &[u8]) -> bool {
    let (found, at, words) = match fault {
        ReadFault::Memory => return false,
        ReadFault::Lexical { line, what } => (1, *line, what),
        ReadFault::Statement { line, what } => (2, *line, what),
        ReadFault::OutOfProfile { line, what } => (3, *line, what),
        ReadFault::Twice { line, what } => (4, *line, what),
        ReadFault::Unknown { line, what } => (5, *line, what),
    };
    found == kind && at == line && words.is_same(what)
}

fn says(alloc: Global, fault: &ReadFault, wanted: &str) -> bool {
    match format!(in alloc; "{fault}") {
        Ok(text) => text.as_str() == wanted,
        Err(_) => false,
    }
}

fn fault_is(alloc: Global, fault: &ReadFault, wanted: Wanted) -> bool {
    match wanted {
        Wanted::Fault(kind, line, what) => is_fault(fault, kind, line, what.as_bytes()),
        Wanted::Says(text) => says(alloc, fault, text),
        _ => false,
    }
}

fn text_is(text: &[u8], wanted: Wanted) -> bool {
    match wanted {
        Wanted::Printed(printed) => text == printed.as_bytes(),
        Wanted::Module => true,
        _ => false,
    }
}

/// Whether a text is as it is wanted.
fn is_so(alloc: Global, form: TextForm, text: &[u8], wanted: Wanted) -> bool {
    if text.len() > 20000 {
        return false;
    }
    match reprinted(alloc, form, text) {
        Ok(printed) => {
            let is_wanted = text_is(printed.as_slice(), wanted);
            drop(printed);
            is_wanted
        }
        Err(fault) => {
            let is_wanted = fault_is(alloc, &fault, wanted);
            drop(fault);
            is_wanted
        }
    }
}

/// Whether the module of a program's text is printed so.
pub fn is_printed(alloc: Global, text: &str, printed: &'static str) -> bool {
    let wanted = Wanted::Printed(printed);
    is_so(alloc, TextForm::Program, text.as_bytes(), wanted)
}

/// A text, and how its module is printed.
struct Said(&'static str, &'static str);

static SAID: [Said; 9] = [
    Said("", ""),
    Said(
        "; ModuleID = 'both.c'\nsource_filename = \"both.c\"\ntarget triple = \"x86_64-pc-linux-gnu\"\n\n@src = dso_local global [4 x i8] c\"abc\\00\", align 1\n\n; Function Attrs: noinline nounwind optnone uwtable\ndefine dso_local i32 @both(i32 noundef %0, i32 noundef %1) #0 {\n  %3 = alloca i32, align 4\n  %4 = alloca i32, align 4\n  %5 = alloca [4 x i8], align 1\n  store i32 %0, ptr %3, align 4\n  store i32 %1, ptr %4, align 4\n  call void @llvm.memcpy.p0.p0.i64(ptr align 1 %5, ptr align 1 @src, i64 4, i1 false)\n  %6 = load i32, ptr %3, align 4\n  %7 = icmp ne i32 %6, 0\n  br i1 %7, label %8, label %11\n\n8:                                                ; preds = %2\n  %9 = load i32, ptr %4, align 4\n  %10 = icmp ne i32 %9, 0\n  br label %11\n\n11:                                               ; preds = %8, %2\n  %12 = phi i1 [ false, %2 ], [ %10, %8 ]\n  %13 = zext i1 %12 to i32\n  ret i32 %13\n}\n\ndeclare void @llvm.memcpy.p0.p0.i64(ptr noalias nocapture writeonly, ptr noalias nocapture readonly, i64, i1 immarg) #1\n\nattributes #0 = { noinline nounwind optnone uwtable \"frame-pointer\"=\"all\" }\nattributes #1 = { nounwind }\n\n!llvm.module.flags = !{!0}\n!0 = !{i32 1, !\"wchar_size\", i32 4}\n",
        "@src = global [4 x i8] c\"abc\\00\"\ndefine i32 @both(i32 %0, i32 %1) {\n2:\n  %3 = alloca i32\n  %4 = alloca i32\n  %5 = alloca [4 x i8]\n  store i32 %0, ptr %3\n  store i32 %1, ptr %4\n  call void @llvm.memcpy.p0.p0.i64(ptr %5, ptr @src, i64 4, i1 false)\n  %6 = load i32, ptr %3\n  %7 = icmp ne i32 %6, 0\n  br i1 %7, label %8, label %11\n8:\n  %9 = load i32, ptr %4\n  %10 = icmp ne i32 %9, 0\n  br label %11\n11:\n  %12 = phi i1 [ false, %2 ], [ %10, %8 ]\n  %13 = zext i1 %12 to i32\n  ret i32 %13\n}\n",
    ),
    Said(
        "define i32 @f() {\n  ret i32 %x\n}\n",
        "define i32 @f() {\n0:\n  ret i32 %x\n}\n",
    ),
    // An import keeps no names, and stands before the functions that are defined.
    Said(
        "define void @g() {\n  %1 = call i32 @f(i32 %x)\n  ret void\n}\ndeclare i32 @f(i32 noundef %x) #0\n",
        "declare i32 @f(i32)\ndefine void @g() {\n0:\n  %1 = call i32 @f(i32 %x)\n  ret void\n}\n",
    ),
    // Types have the numbers of their order, wherever they are used; a global and a type may have one name.
    Said(
        "@t = global %t { i8 1, ptr @u }\n@u = global %u zeroinitializer\n%u = type { %t, ptr }\n%t = type <{ i8, ptr }>\n",
        "%u = type { %t, ptr }\n%t = type <{ i8, ptr }>\n@t = global %t { i8 1, ptr @u }\n@u = global %u zeroinitializer\n",
    ),
    // How far an index goes is reckoned by types that stand later.
    Said(
        "@g = global ptr getelementptr (%t, ptr @g, i64 1, i32 1)\n%t = type { i8, i32 }\n",
        "%t = type { i8, i32 }\n@g = global ptr getelementptr (i8, ptr @g, i64 12)\n",
    ),
    // A label and a register may have one name, and a block write may be declared twice.
    Said(
        "declare void @llvm.memset.p0.i32(ptr, i8, i32, i1)\ndeclare void @llvm.memset.p0.i32()\ndefine void @f(i32 %0, i8 %b) {\na:\n  %a = add i8 %b, 1\n  call void @llvm.memset.p0.i32(ptr %p, i8 %a, i32 %0, i1 false)\n  br label %a\n}\n",
        "define void @f(i32 %0, i8 %b) {\na:\n  %a = add i8 %b, 1\n  call void @llvm.memset.p0.i32(ptr %p, i8 %a, i32 %0, i1 false)\n  br label %a\n}\n",
    ),
    // The second function's registers are its own.
    Said(
        "define i32 @f(i32 %a, i32) {\n  %r = add i32 %a, %1\n  ret i32 %r\n}\ndefine i32 @g(i32 %r) {\n  %a = sub i32 %r, %q\n  ret i32 %a\n}\n",
        "define i32 @f(i32 %a, i32 %0) {\n1:\n  %r = add i32 %a, %1\n  ret i32 %r\n}\ndefine i32 @g(i32 %r) {\n0:\n  %a = sub i32 %r, %q\n  ret i32 %a\n}\n",
    ),
    Said(
        "@g = global [4294967296 x i8] undef\n@h = global { [4294967288 x i8], i64 } undef\n",
        "@g = global [4294967296 x i8] undef\n@h = global { [4294967288 x i8], i64 } undef\n",
    ),
];

fn assert_said(rt: &impl Abort, alloc: Global, rows: &[Said]) {
    for (number, row) in rows.iter().enumerate() {
        assert!(rt; is_printed(alloc, row.0, row.1), "row {number}");
        assert!(rt;
            is_printed(alloc, row.1, row.1),
            "row {number}, as it is printed"
        );
    }
}

#[test]
fn modules_are_printed_as_they_read_and_read_the_same(rt: HostRuntime) {
    assert_said(&rt, rt.alloc(), &SAID);
}

/// A text, and its first fault: the number of its kind, its line, and what names it.
struct Faulty(&'static str, u32, u32, &'static str);

/// Texts with their faults: the number of a fault's kind, its line, and what names it.
macro_rules! faulty {
    ($($text:literal => $kind:literal $line:literal $what:literal,)+) => {
        [$(Faulty($text, $kind, $line, $what)),+]
    };
}

static LEXICAL: [Faulty; 9] = faulty! {
    "\x01" => 1 1 "0x1",
    "@g = global i32 0\n\x7f" => 1 2 "0x7f",
    "?\n@g = i32" => 1 1 "0x3f",
    "@g = global i32\n*" => 1 2 "0x2a",
    "@g = global ptr @h\n?" => 1 2 "0x3f",
    "define void @f() {\nfoo ?" => 1 2 "0x3f",
    "@g = i32 global\n?" => 3 1 "i32",
    "@g = global i32 1\n@g = global i32 2 ?" => 4 2 "@g",
    "@g = global [4294967297 x i8] undef ?" => 1 1 "0x3f",
};

static STATEMENTS: [Faulty; 20] = faulty! {
    "@g = global i32" => 2 1 "end",
    "\n@g = global i32 ; end\n\n" => 2 2 "end",
    "@g =\n!0 = !{}\n" => 2 2 "end",
    "@g = global void 0" => 2 1 "void",
    "@g = global { i32 i64 } undef" => 2 1 "i64",
    "%t = type i32" => 2 1 "i32",
    "%t = type [2 x i8]" => 2 1 "[",
    "define void @f() {\nret void\nret void\n}" => 2 3 "ret",
    "define void @f() {\nfoo" => 2 2 "end",
    "define void @f() {\nret void\nfoo\n}" => 2 3 "foo",
    "store i32 1, ptr null" => 2 1 "store",
    "define i32 @f(i32 %0) {\n  switch i32 %0, label %3 [\n    i32 1, label %2\n" => 2 3 "end",
    "@g = global [-1 x i8] undef" => 2 1 "-1",
    "@g = global <4 x i8> undef" => 2 1 "4",
    "define void @f() {\n%r = call void @f()\nret void\n}" => 2 2 "void",
    "@g = global i32 1, align 4\n, align 4" => 2 2 ",",
    "define @lxfi.x" => 2 1 "@lxfi.x",
    "define void @f() !dbg !10 {\nret void\n}" => 2 1 "!",
    "@g = global ptr getelementptr ({ i8 }, ptr null, i64 0, i32 2" => 2 1 "end",
    "@g = global ptr getelementptr (%t, ptr null, i64 0, i32 2)\n@h = global i32 x\n%t = type { i8 }" => 2 2 "x",
};

static PROFILE: [Faulty; 30] = faulty! {
    "@g = global float 1" => 3 1 "float",
    "@g = global i32 5000000000" => 3 1 "5000000000",
    "@g = global i32 -2147483649" => 3 1 "-2147483649",
    "@g = global ptr 5" => 3 1 "5",
    "@g = global i1 2" => 3 1 "2",
    "@g = i32 global 1" => 3 1 "i32",
    "define void @f() {\n%r = load volatile i32, ptr null\nret void\n}" => 3 2 "volatile",
    "define void @f() {\ncall ccc void @f()\nret void\n}" => 3 2 "ccc",
    "define void @f() {\nret void, !dbg !1\n}" => 3 2 "dbg",
    "define void @f() {\n%r = icmp i32 1, 2\nret void\n}" => 3 2 "i32",
    "define void @f() {\nbr foo\n}" => 3 2 "foo",
    "define { i32 } @f() {\nret void\n}" => 3 1 "{",
    "declare void @f(%t)" => 3 1 "%t",
    "@g = global i32 1\nfoo" => 3 2 "foo",
    "%t = type { i8, i8 }\n@g = global ptr getelementptr (%t, ptr null, i64 0, i32 2)" => 3 2 "getelementptr",
    "@g = global ptr getelementptr (%t, ptr null, i64 0, i32 2)\n%t = type { i8, i8 }" => 3 1 "getelementptr",
    "@g = global ptr getelementptr ({ i8, i8 }, ptr null, i64 0, i64 1)\n@g = global i32 x" => 3 1 "getelementptr",
    "%t = type\n{ %t }" => 3 1 "%t",
    "%u = type { i8, ptr }\n%a = type { %b }\n%b = type { %a }" => 3 2 "%a",
    "@g = global [4294967297 x i8] undef" => 3 1 "[",
    "@g = global [0 x\n[4294967297 x i8]] undef" => 3 2 "[",
    "@g = global\n{ i8, [4294967296 x i8] } undef" => 3 2 "{",
    "@g = global { i8,\n<{ i8, [4294967296 x i8] }>, i8 } undef" => 3 1 "{",
    "%t = type { [4294967290 x i8], i64 }" => 3 1 "%t",
    "@g = global i32 1\n@lxfi.a = global i32 1" => 3 2 "@lxfi.a",
    "@\"lxfi.a\" = global i32 1" => 3 1 "@\"lxfi.a\"",
    "@lxfi.x" => 3 1 "@lxfi.x",
    "@g = global i32 1\ndefine void @llvm.memset.p0.i64(ptr %p, i8 %b, i64 %n, i1 %v) {\nret void\n}" => 3 2 "@llvm.memset.p0.i64",
    "%t = type {}\ndefine i32\n@llvm.memcpy.p0.p0.i32(i7) {\nret void\n}" => 3 3 "@llvm.memcpy.p0.p0.i32",
    "define void @f() {\n%r = alloca\n[2 x [4294967296 x i8]]\nret void\n}" => 3 3 "[",
};

static NAMES: [Faulty; 22] = faulty! {
    "%t = type {}\n%t = type {}" => 4 2 "%t",
    "@g = global i32 1\ndefine void @g(i7) {\nret void\n}" => 4 2 "@g",
    "declare void @f()\ndeclare void @f()" => 4 2 "@f",
    "@llvm.memmove.p0.p0.i64 = global i8 1\ndefine void @llvm.memmove.p0.p0.i64() {\nret void\n}" => 4 2 "@llvm.memmove.p0.p0.i64",
    "define void @f(i32 %a, i32 %a) {\nret void\n}" => 4 1 "%a",
    "define void @f(i32 %a) {\n%a = add i32 1, 2\nret void\n}" => 4 2 "%a",
    "define void @f() {\na:\nbr label %a\na:\nret void\n}" => 4 4 "%a",
    "define void @f() {\ni32:\nbr label %i32\ni32:\nret void\n}" => 4 4 "%i32",
    "define void @f(i32 %0, i32 %2,\ni32) {\nret void\n}" => 4 2 "%2",
    "define void @f(ptr dereferenceable(8) %a, i32 %1, i32) {\nret void\n}" => 4 1 "%1",
    "@\"x y\" = global i32 1\n@\"x y\" = global i32 1" => 4 2 "@x y",
    "@\"g\" = global i32 1\n@g = global i32 2" => 4 2 "@g",
    "@g = global ptr @h\n@g = global i32 1" => 4 2 "@g",
    "%t = type { %t }\n@g = global %u undef" => 5 2 "%u",
    "@g = global ptr @h" => 5 1 "@h",
    "@g = global %u undef\n@h = global ptr @k" => 5 1 "%u",
    "define void @f() {\ncall void @h()\nret void\n}" => 5 2 "@h",
    "define void @f() {\n%r = alloca %\"a b\"\nret void\n}" => 5 2 "%a b",
    "%t = type { %u }\n@t = global ptr @u" => 5 1 "%u",
    "@a = global ptr @llvm.memset.p0.i64\ndeclare void @llvm.memset.p0.i64()" => 5 1 "@llvm.memset.p0.i64",
    "define void @f() {\nret void\n}\n@g = global ptr @r\ndefine void @h(i32 %r) {\nret void\n}" => 5 4 "@r",
    "@g = global ptr @t\n%t = type { i8 }" => 5 1 "@t",
};

/// Each text has its fault, as it is told.
fn assert_told(rt: &impl Abort, alloc: Global, rows: &[Faulty]) {
    for (number, row) in rows.iter().enumerate() {
        let wanted = Wanted::Fault(row.1, row.2, row.3);
        let is_told = is_so(alloc, TextForm::Program, row.0.as_bytes(), wanted);
        assert!(rt; is_told, "row {number}");
    }
}

#[test]
fn bytes_that_begin_no_token_are_told(rt: HostRuntime) {
    assert_told(&rt, rt.alloc(), &LEXICAL);
}

#[test]
fn tokens_that_cannot_stand_there_are_told(rt: HostRuntime) {
    assert_told(&rt, rt.alloc(), &STATEMENTS);
}

#[test]
fn what_is_outside_the_profile_is_told(rt: HostRuntime) {
    assert_told(&rt, rt.alloc(), &PROFILE);
}

#[test]
fn names_that_are_defined_twice_or_not_at_all_are_told(rt: HostRuntime) {
    assert_told(&rt, rt.alloc(), &NAMES);
}

fn put_times(text: &mut Vec<u8>, piece: &[u8], count: usize) -> Result<(), Memory> {
    for _ in 0..count {
        text.extend_from_slice(piece)?;
    }
    Ok(())
}

/// Puts a text of so many arrays, one in another, with the last bracket in a line of its own.
fn put_nested(text: &mut Vec<u8>, depth: usize) -> Result<(), Memory> {
    text.extend_from_slice(b"@g = global ")?;
    put_times(text, b"[1 x ", depth.saturating_sub(1))?;
    text.extend_from_slice(b"\n[1 x i8")?;
    put_times(text, b"]", depth)?;
    text.extend_from_slice(b" undef")?;
    Ok(())
}

fn nested_is_so(alloc: Global, depth: usize, wanted: Wanted) -> bool {
    let mut text = Vec::new(alloc);
    let put = put_nested(&mut text, depth);
    let is_so = put.is_ok() && is_so(alloc, TextForm::Program, text.as_slice(), wanted);
    drop(text);
    is_so
}

#[test]
fn types_nest_64_deep(rt: HostRuntime) {
    let alloc = rt.alloc();
    assert!(rt; nested_is_so(alloc, 64, Wanted::Module));
    assert!(rt; nested_is_so(alloc, 65, Wanted::Fault(3, 2, "[")));
}

/// Puts a text of so many types `%t1`, `%t2` and so on, the first in the last line, each but it with the one before in it.
fn put_chained(alloc: Global, text: &mut Vec<u8>, count: u8) -> Result<(), Memory> {
    let count = u64::from(count);
    for k in 1..count {
        let line = format!(in alloc; "%t{} = type {{ %t{} }}\n", count + 1 - k, count - k)?;
        text.extend_from_slice(line.as_bytes())?;
    }
    text.extend_from_slice(b"%t1 = type { i8 }")?;
    Ok(())
}

fn chained_is_so(alloc: Global, count: u8, wanted: Wanted) -> bool {
    let mut text = Vec::new(alloc);
    let put = put_chained(alloc, &mut text, count);
    let is_so = put.is_ok() && is_so(alloc, TextForm::Program, text.as_slice(), wanted);
    drop(text);
    is_so
}

#[test]
fn types_nest_64_deep_through_names(rt: HostRuntime) {
    let alloc = rt.alloc();
    assert!(rt; chained_is_so(alloc, 64, Wanted::Module));
    assert!(rt; chained_is_so(alloc, 66, Wanted::Fault(3, 1, "%t66")));
}

#[test]
fn an_image_has_names_of_its_own(rt: HostRuntime) {
    let text = b"@lxfi.a = global i32 1\n";
    assert!(rt; is_so(rt.alloc(), TextForm::Image, text.as_slice(), Wanted::Module));
}

/// A text, and what its first fault says.
struct Saying(&'static str, &'static str);

static SAYINGS: [Saying; 5] = [
    Saying("\x01", "line 1: the byte 0x1 begins no token"),
    Saying("@g = global i32", "line 1: `end` cannot stand here"),
    Saying(
        "@g = global float 1",
        "line 1: `float` is outside the language that is read",
    ),
    Saying(
        "@g = global i32 1\n@g = global i32 2",
        "line 2: `@g` is defined twice",
    ),
    Saying("@g = global ptr @h", "line 1: `@h` is not defined"),
];

#[test]
fn a_fault_says_what_is_wrong(rt: HostRuntime) {
    let alloc = rt.alloc();
    for (number, row) in SAYINGS.iter().enumerate() {
        let wanted = Wanted::Says(row.1);
        let is_said = is_so(alloc, TextForm::Program, row.0.as_bytes(), wanted);
        assert!(rt; is_said, "row {number}");
    }
}
