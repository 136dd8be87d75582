//! Instructions from text, as the printer writes them, and their faults.

use crate::alone::{body_is_printed, function_with};
use crate::short_texts::{Faulty, Rule, assert_refused, is_read};
use lx_ir::instr::{Instr, Op};
use lx_ir::module::{Block, Function};
use lx_ir_calls::TextForm;
use lx_ir_instructions::instruction;
use lx_ir_terms::{Context, FaultKind, ReadError, Reader};
use lx_words::{Items, Memory};
use std::alloc::Global;
use std::process::Abort;

/// The block `b` of one instruction.
fn block_of(alloc: Global, op: Op) -> Result<Block, Memory> {
    let instrs = vec![in alloc; Instr { op, line: 1 }]?;
    match Items::from_bytes(alloc, b"b") {
        Ok(name) => Ok(Block {
            name,
            instrs: Items::from_vec(instrs),
        }),
        Err(_) => {
            drop(instrs);
            Err(Memory)
        }
    }
}

/// The function `@f` of one instruction.
fn function_of(alloc: Global, op: Op) -> Result<Function, Memory> {
    let block = block_of(alloc, op)?;
    let blocks = vec![in alloc; block]?;
    match Items::from_bytes(alloc, b"f") {
        Ok(name) => {
            let blocks = Some(Items::from_vec(blocks));
            Ok(function_with(alloc, name, Items::new(alloc), None, blocks))
        }
        Err(_) => {
            drop(blocks);
            Err(Memory)
        }
    }
}

/// Reads an instruction, and says whether the function `@f` of it is printed so.
pub fn instruction_is_printed(
    alloc: Global,
    reader: &mut Reader<'_>,
    context: &Context<'_>,
    form: TextForm,
    wanted: &[u8],
) -> Result<bool, ReadError> {
    let op = instruction(alloc, reader, context, form)?;
    let function = function_of(alloc, op)?;
    let is_printed = body_is_printed(alloc, context.names, function, wanted)?;
    Ok(is_printed)
}

/// A text, and the function that is printed for its first instruction, of which so many tokens are no part.
struct Said(&'static str, &'static str, usize);

fn assert_said(rt: &impl Abort, alloc: Global, form: TextForm, rows: &[Said]) {
    for (number, row) in rows.iter().enumerate() {
        let rule = Rule::Instruction(form, row.1.as_bytes());
        assert!(rt;
            is_read(alloc, row.0.as_bytes(), rule, row.2),
            "row {number}"
        );
    }
}

static SAID: [Said; 25] = [
    Said(
        "call void @lxfi.pre(ptr @g, i32 0)",
        "define void @f() {\nb:\n  call void @f(ptr @f, i32 0)\n}\n",
        0,
    ),
    Said(
        "%r = add nuw nsw i32 %a, 7, !tbaa !5 ret",
        "define void @f() {\nb:\n  %r = add i32 %a, 7\n}\n",
        1,
    ),
    Said(
        "%r = icmp samesign ult ptr %a, null",
        "define void @f() {\nb:\n  %r = icmp ult ptr %a, null\n}\n",
        0,
    ),
    Said(
        "%r = inttoptr i64 5 to ptr",
        "define void @f() {\nb:\n  %r = inttoptr i64 5 to ptr\n}\n",
        0,
    ),
    Said(
        "%r = freeze i8 %a",
        "define void @f() {\nb:\n  %r = freeze i8 %a\n}\n",
        0,
    ),
    Said(
        "%r = select i1 %c, i32 1, i32 %b",
        "define void @f() {\nb:\n  %r = select i1 %c, i32 1, i32 %b\n}\n",
        0,
    ),
    Said(
        "%r = select i1 %c, i32 1, i64 %b",
        "define void @f() {\nb:\n  %r = select i1 %c, i32 1, i32 null\n}\n",
        0,
    ),
    Said(
        "%r = phi i1 [ false, %2 ], [ %x, %y ], !a !1, !b !2",
        "define void @f() {\nb:\n  %r = phi i1 [ false, %2 ], [ %x, %y ]\n}\n",
        0,
    ),
    Said(
        "%r = alloca [4 x i8], align 1, !a !1",
        "define void @f() {\nb:\n  %r = alloca [4 x i8]\n}\n",
        0,
    ),
    Said(
        "%r = load i32, ptr %p, align 4",
        "define void @f() {\nb:\n  %r = load i32, ptr %p\n}\n",
        0,
    ),
    Said(
        "store i32 %a, ptr %p, align 4, !a !1",
        "define void @f() {\nb:\n  store i32 %a, ptr %p\n}\n",
        0,
    ),
    Said(
        "%r = getelementptr inbounds { i8, i32 }, ptr %p, i64 0, i32 1, !a !1",
        "define void @f() {\nb:\n  %r = getelementptr { i8, i32 }, ptr %p, i64 0, i32 1\n}\n",
        0,
    ),
    Said(
        "%r = tail call noundef i32 %f(i32 noundef 1, ptr align 8 %p) #4 nounwind, !a !1",
        "define void @f() {\nb:\n  %r = call i32 %f(i32 1, ptr %p)\n}\n",
        0,
    ),
    Said(
        "call void %f() section \"s\" align 4 nounwind:",
        "define void @f() {\nb:\n  call void %f()\n}\n",
        2,
    ),
    Said(
        "call i32 %f() other",
        "define void @f() {\nb:\n  call i32 %f()\n}\n",
        1,
    ),
    Said(
        "call void @llvm.memcpy.p0.p0.i64(ptr align 1 %5, ptr align 1 %6, i64 4, i1 false)",
        "define void @f() {\nb:\n  call void @llvm.memcpy.p0.p0.i64(ptr %5, ptr %6, i64 4, i1 false)\n}\n",
        0,
    ),
    Said(
        "call void @llvm.memmove.p0.p0.i32(ptr %5, ptr %6, i32 %n, i1 immarg false)",
        "define void @f() {\nb:\n  call void @llvm.memmove.p0.p0.i32(ptr %5, ptr %6, i32 %n, i1 false)\n}\n",
        0,
    ),
    Said(
        "call void @llvm.memset.p0.i32(ptr %5, i8 1, i32 %n, i1 false)",
        "define void @f() {\nb:\n  call void @llvm.memset.p0.i32(ptr %5, i8 1, i32 %n, i1 false)\n}\n",
        0,
    ),
    Said("ret void }", "define void @f() {\nb:\n  ret void\n}\n", 1),
    Said("ret i8 255", "define void @f() {\nb:\n  ret i8 -1\n}\n", 0),
    Said(
        "br label %l",
        "define void @f() {\nb:\n  br label %l\n}\n",
        0,
    ),
    Said(
        "br i1 %c, label %l, label %3",
        "define void @f() {\nb:\n  br i1 %c, label %l, label %3\n}\n",
        0,
    ),
    Said(
        "switch i32 %0, label %3 [ i32 1, label %2 i8 2, label %4 ]",
        "define void @f() {\nb:\n  switch i32 %0, label %3 [ i32 1, label %2 i32 null, label %4 ]\n}\n",
        0,
    ),
    Said(
        "switch i32 %0, label %3 []",
        "define void @f() {\nb:\n  switch i32 %0, label %3 []\n}\n",
        0,
    ),
    Said(
        "unreachable",
        "define void @f() {\nb:\n  unreachable\n}\n",
        0,
    ),
];

#[test]
fn instructions_read_as_they_are_printed(rt: HostRuntime) {
    assert_said(&rt, rt.alloc(), TextForm::Program, &SAID);
}

static FAULTY: [Faulty; 35] = [
    Faulty("%r = icmp i32 1, 2", FaultKind::OutOfProfile, 4),
    Faulty("br foo", FaultKind::OutOfProfile, 1),
    Faulty("br i32 %c", FaultKind::Statement, 2),
    Faulty("%r = load i32, i32 %p", FaultKind::Statement, 2),
    Faulty("%r = load i32, float %p", FaultKind::OutOfProfile, 2),
    Faulty("%r = load nuw label", FaultKind::OutOfProfile, 1),
    Faulty("%r = add %t %a, %b", FaultKind::OutOfProfile, 4),
    Faulty("%r = add tail i32 1, 2", FaultKind::OutOfProfile, 5),
    Faulty("%r = call void %f()", FaultKind::Statement, 4),
    Faulty("call ccc i32 %f()", FaultKind::OutOfProfile, 5),
    Faulty("call i32 float", FaultKind::OutOfProfile, 1),
    Faulty("call i32 label", FaultKind::Statement, 1),
    Faulty("call i32 %f(i32 foo 1)", FaultKind::OutOfProfile, 3),
    Faulty("call i32 %f(i32 1) foo }", FaultKind::OutOfProfile, 2),
    Faulty("call i32 %f(i32 1,)", FaultKind::Statement, 1),
    Faulty("store i32 ptr", FaultKind::Statement, 1),
    Faulty("store i32 float", FaultKind::OutOfProfile, 1),
    Faulty("store ptr 5, ptr %p", FaultKind::OutOfProfile, 4),
    Faulty("%r = store i32 1, ptr %p", FaultKind::Statement, 6),
    Faulty("add i32 1, 2", FaultKind::Statement, 5),
    Faulty("%r = fadd i32 1, 2", FaultKind::OutOfProfile, 5),
    Faulty("%r add i32 1, 2", FaultKind::Statement, 5),
    Faulty("tail ret void", FaultKind::OutOfProfile, 2),
    Faulty("%r = alloca i32, i32 4", FaultKind::OutOfProfile, 2),
    Faulty("%r = alloca i32, align 4, align 4", FaultKind::Statement, 2),
    Faulty("%r = alloca i32, !a !1, align 4", FaultKind::Statement, 2),
    Faulty("%r = alloca i32, align -4", FaultKind::Statement, 1),
    Faulty("ret void, !dbg !4", FaultKind::OutOfProfile, 3),
    Faulty(
        "call void @llvm.memset.p0.i32(ptr %5, i8 1, i64 %n, i1 false)",
        FaultKind::Statement,
        6,
    ),
    Faulty(
        "call void @llvm.memset.p0.i32(ptr %5, i8 1, i32 %n, i1 true)",
        FaultKind::OutOfProfile,
        2,
    ),
    Faulty(
        "call void @llvm.memset.p0.i32([2 x i8] %5",
        FaultKind::OutOfProfile,
        6,
    ),
    Faulty(
        "call i32 @llvm.memset.p0.i32(ptr %5, i8 1, i32 %n, i1 true)",
        FaultKind::Statement,
        14,
    ),
    Faulty(
        "%r = getelementptr i8, ptr %p, !a !1",
        FaultKind::Statement,
        4,
    ),
    Faulty(
        "switch i32 %0, label %3 [ i32 %c, label %2 ]",
        FaultKind::Statement,
        5,
    ),
    Faulty(
        "switch i32 %0, label %3 [\ni32 1, label %2",
        FaultKind::Statement,
        0,
    ),
];

#[test]
fn faults_are_met_at_their_tokens(rt: HostRuntime) {
    let rule = Rule::Instruction(TextForm::Program, &[]);
    assert_refused(&rt, rt.alloc(), rule, &FAULTY);
}

static LINES: [Said; 14] = [
    Said(
        "call void @lxfi.guard(ptr align 4 %p, i64 4)",
        "define void @f() {\nb:\n  call void @lxfi.guard(ptr %p, i64 4)\n}\n",
        0,
    ),
    Said(
        "tail call void @lxfi.guard32(ptr null, i32 %n) nounwind, !a !1 ret",
        "define void @f() {\nb:\n  call void @lxfi.guard32(ptr null, i32 %n)\n}\n",
        1,
    ),
    Said(
        "call void @lxfi.check(ptr %g)",
        "define void @f() {\nb:\n  call void @lxfi.check(ptr %g)\n}\n",
        0,
    ),
    Said(
        "call void @llvm.memset.p0.i32(ptr %5, i8 1, i32 %n, i1 false)",
        "define void @f() {\nb:\n  call void @llvm.memset.p0.i32(ptr %5, i8 1, i32 %n, i1 false)\n}\n",
        0,
    ),
    Said(
        "%r = call i32 %f(i32 1)",
        "define void @f() {\nb:\n  %r = call i32 %f(i32 1)\n}\n",
        0,
    ),
    Said("ret void", "define void @f() {\nb:\n  ret void\n}\n", 0),
    Said(
        "call void @lxfi.guard(ptr noundef %p, i64 noundef -1)",
        "define void @f() {\nb:\n  call void @lxfi.guard(ptr %p, i64 -1)\n}\n",
        0,
    ),
    Said(
        "call void @lxfi.check(ptr %g) #3",
        "define void @f() {\nb:\n  call void @lxfi.check(ptr %g)\n}\n",
        0,
    ),
    Said(
        "call void @lxfi.enter(ptr @g)",
        "define void @f() {\nb:\n  call void @lxfi.enter(ptr @f)\n}\n",
        0,
    ),
    Said(
        "call void @lxfi.leave(ptr noundef @g)",
        "define void @f() {\nb:\n  call void @lxfi.leave(ptr @f)\n}\n",
        0,
    ),
    Said(
        "call void @lxfi.pre(ptr @g, i32 0)",
        "define void @f() {\nb:\n  call void @lxfi.pre(ptr @f, i32 0)\n}\n",
        0,
    ),
    Said(
        "call void @lxfi.post(ptr @g, i32 4294967295)",
        "define void @f() {\nb:\n  call void @lxfi.post(ptr @f, i32 -1)\n}\n",
        0,
    ),
    Said(
        "call void @lxfi.post(ptr @g, i32 -1)",
        "define void @f() {\nb:\n  call void @lxfi.post(ptr @f, i32 -1)\n}\n",
        0,
    ),
    Said(
        "call void @lxfi.other(ptr @g)",
        "define void @f() {\nb:\n  call void @f(ptr @f)\n}\n",
        0,
    ),
];

#[test]
fn lines_of_images_read_as_they_are_printed(rt: HostRuntime) {
    assert_said(&rt, rt.alloc(), TextForm::Image, &LINES);
}

static FAULTY_LINES: [Faulty; 13] = [
    Faulty(
        "call i32 @lxfi.guard(ptr %p, i64 4)",
        FaultKind::Statement,
        8,
    ),
    Faulty(
        "call void @lxfi.guard(ptr %p, i32 4)",
        FaultKind::Statement,
        3,
    ),
    Faulty(
        "call void @lxfi.guard32(ptr %p, [2 x i8] 4)",
        FaultKind::OutOfProfile,
        7,
    ),
    Faulty(
        "call void @lxfi.guard(ptr %p, i64 4, i1 false)",
        FaultKind::Statement,
        4,
    ),
    Faulty("call void @lxfi.enter(ptr %f)", FaultKind::Statement, 2),
    Faulty(
        "call void @lxfi.enter(ptr null)",
        FaultKind::OutOfProfile,
        2,
    ),
    Faulty("call void @lxfi.enter(ptr @unknown)", FaultKind::Unknown, 2),
    Faulty(
        "call void @lxfi.pre(ptr @f, i32 %k)",
        FaultKind::Statement,
        2,
    ),
    Faulty(
        "call void @lxfi.pre(ptr @f, i64 0)",
        FaultKind::Statement,
        3,
    ),
    Faulty(
        "call void @lxfi.post(ptr @f, i32 4294967296)",
        FaultKind::OutOfProfile,
        2,
    ),
    Faulty(
        "call void @lxfi.leave(ptr @f, i32 0)",
        FaultKind::Statement,
        4,
    ),
    Faulty("call void @lxfi.check(ptr %g", FaultKind::Statement, 0),
    Faulty(
        "%r = call void @lxfi.check(ptr %g)",
        FaultKind::Statement,
        6,
    ),
];

#[test]
fn faults_of_lines_are_met_at_their_tokens(rt: HostRuntime) {
    let rule = Rule::Instruction(TextForm::Image, &[]);
    assert_refused(&rt, rt.alloc(), rule, &FAULTY_LINES);
}
