//! Statements from text, as the printer writes them, and their faults.

use crate::alone::{
    body_is_printed, function_is_printed, function_with, global_is_printed, type_is_printed,
};
use crate::known::meaning;
use crate::short_texts::{Outcome, Rule, answer_of, is_refused, outcome_of};
use lx_ir::module::{Block, Function, GlobalVar, Parameter};
use lx_ir::types::{NamedType, Scalar};
use lx_ir_statements::{Defined, Statement, TextForm, statement};
use lx_ir_terms::{Context, FaultKind, ReadError, Reader};
use lx_ir_tokens::{IrTokens, NameTable};
use lx_words::{Items, Memory, Name, Token};
use std::alloc::Global;
use std::process::Abort;

/// What is asked of the statements of a text.
#[derive(Clone, Copy)]
pub enum Asked<'a> {
    /// Whether the last one is printed so, as a module that has it alone. Before a function stand the names of its
    /// parameters, and it is printed without them, so that its registers are the names of the text.
    Last(&'a [u8]),
    /// Whether the first one is a function of two blocks of one instruction, in these lines.
    Lines(u32, u32),
}

/// The parameters of these types without names.
fn nameless(alloc: Global, types: &[Scalar]) -> Result<Items<Parameter>, Memory> {
    let mut params = Items::new(alloc);
    for ty in types {
        let name = Items::new(alloc);
        params.push(Parameter { name, ty: *ty })?;
    }
    Ok(params)
}

fn import_is_printed(
    alloc: Global,
    name: Name,
    ret: Option<Scalar>,
    types: Items<Scalar>,
    wanted: &[u8],
) -> Result<bool, Memory> {
    let params = nameless(alloc, types.as_slice());
    drop(types);
    match params {
        Ok(params) => {
            let function = function_with(alloc, name, params, ret, None);
            function_is_printed(alloc, function, wanted)
        }
        Err(error) => {
            drop(name);
            Err(error)
        }
    }
}

/// What stands in a text behind the names of parameters, each with a space behind it, if they stand there.
fn behind_names<'a>(params: &[Parameter], text: &'a [u8]) -> Option<&'a [u8]> {
    let mut rest = text;
    for param in params {
        let named = rest.strip_prefix(param.name.as_slice())?;
        rest = named.strip_prefix(b" ")?;
    }
    Some(rest)
}

/// Whether a function is printed so, behind the names of these parameters.
fn defined_is_printed(
    alloc: Global,
    names: &NameTable,
    function: Function,
    params: Items<Parameter>,
    wanted: &[u8],
) -> Result<bool, Memory> {
    let rest = behind_names(params.as_slice(), wanted);
    drop(params);
    match rest {
        Some(rest) => body_is_printed(alloc, names, function, rest),
        None => {
            drop(function);
            Ok(false)
        }
    }
}

/// Whether a statement with this name is printed so.
fn named_is_printed(
    alloc: Global,
    names: &NameTable,
    name: Name,
    statement: Statement,
    wanted: &[u8],
) -> Result<bool, Memory> {
    match statement {
        Statement::Type { ty, .. } => type_is_printed(alloc, NamedType { name, ty }, wanted),
        Statement::Global {
            constant,
            ty,
            init,
            ..
        } => {
            let global = GlobalVar {
                name,
                constant,
                ty,
                init,
                line: 1,
            };
            global_is_printed(alloc, global, wanted)
        }
        Statement::Import { ret, params, .. } => {
            import_is_printed(alloc, name, ret, params, wanted)
        }
        Statement::Function {
            ret,
            params,
            blocks,
            ..
        } => {
            let function = function_with(alloc, name, Items::new(alloc), ret, Some(blocks));
            defined_is_printed(alloc, names, function, params, wanted)
        }
    }
}

/// The name of a statement; no bytes for a number that the table lacks.
fn name_of<'a>(names: &'a NameTable, statement: &Statement) -> &'a [u8] {
    let number = match statement {
        Statement::Type { name, .. }
        | Statement::Global { name, .. }
        | Statement::Import { name, .. }
        | Statement::Function { name, .. } => *name,
    };
    if number < names.len() {
        names.name(number)
    } else {
        &[]
    }
}

fn statement_is_printed(
    alloc: Global,
    names: &NameTable,
    statement: Statement,
    wanted: &[u8],
) -> Result<bool, Memory> {
    let name = Items::from_bytes(alloc, name_of(names, &statement));
    match name {
        Ok(name) => named_is_printed(alloc, names, name, statement, wanted),
        Err(_) => {
            drop(statement);
            Err(Memory)
        }
    }
}

/// Whether a block has one instruction, in this line.
fn has_line(block: &Block, line: u32) -> bool {
    match block.instrs.as_slice() {
        [instr] => instr.line == line,
        _ => false,
    }
}

/// Whether a statement is a function of two blocks of one instruction, in these lines.
fn has_lines(statement: &Statement, one: u32, other: u32) -> bool {
    match statement {
        Statement::Function { blocks, .. } => match blocks.as_slice() {
            [first, second] => has_line(first, one) && has_line(second, other),
            _ => false,
        },
        _ => false,
    }
}

/// The statements that have been read, and what they define.
#[derive(Drop)]
struct Read {
    defined: Defined,
    statements: Vec<Statement>,
}

/// Reads a statement more.
fn read_next(
    alloc: Global,
    reader: &mut Reader<'_>,
    context: &Context<'_>,
    places: &[Token],
    read: &mut Read,
) -> Result<(), ReadError> {
    let form = TextForm::Program;
    let next = statement(alloc, reader, context, form, places, &read.defined)?;
    let defined = read.defined.define(context, &next);
    read.statements.push(next)?;
    defined?;
    Ok(())
}

/// Reads all statements.
fn read_all(
    alloc: Global,
    tokens: &IrTokens,
    registers: &[Option<u32>],
    reader: &mut Reader<'_>,
    read: &mut Read,
) -> Result<(), ReadError> {
    let context = meaning(tokens, registers, &[], false);
    for _ in 0..reader.left() {
        if reader.left() == 0 {
            break;
        }
        read_next(alloc, reader, &context, tokens.places.as_slice(), read)?;
    }
    Ok(())
}

fn answer(
    alloc: Global,
    names: &NameTable,
    statements: &mut Vec<Statement>,
    asked: Asked<'_>,
) -> Result<bool, Memory> {
    match asked {
        Asked::Last(wanted) => match statements.pop() {
            Some(last) => statement_is_printed(alloc, names, last, wanted),
            None => Ok(false),
        },
        Asked::Lines(one, other) => match statements.as_slice().first() {
            Some(first) => Ok(has_lines(first, one, other)),
            None => Ok(false),
        },
    }
}

/// Reads the statements of a text, and says whether what is asked of them is so.
pub fn statements_are(
    alloc: Global,
    tokens: &IrTokens,
    registers: &[Option<u32>],
    reader: &mut Reader<'_>,
    asked: Asked<'_>,
) -> Result<bool, ReadError> {
    let mut read = Read {
        defined: Defined::new(alloc),
        statements: Vec::new(alloc),
    };
    match read_all(alloc, tokens, registers, reader, &mut read) {
        Ok(()) => {
            let answer = answer(alloc, &tokens.names, &mut read.statements, asked);
            drop(read);
            Ok(answer?)
        }
        Err(error) => {
            drop(read);
            Err(error)
        }
    }
}

/// A text, and what is printed for its last statement.
struct Said(&'static str, &'static str);

static SAID: [Said; 14] = [
    Said(
        "%t = type <{ i8, [2 x ptr] }>",
        "%t = type <{ i8, [2 x ptr] }>\n",
    ),
    Said("%u = type {} %\"t x\" = type {}", "%\"t x\" = type {}\n"),
    Said(
        "@g = private unnamed_addr constant [2 x i8] c\"a\\00\", align 1",
        "@g = constant [2 x i8] c\"a\\00\"\n",
    ),
    Said("@g = dso_local global i32 7", "@g = global i32 7\n"),
    Said(
        "declare noundef dso_local ptr @f(i32 noundef %a, ptr align 8 captures(none), i1 %a) #3 nounwind section \"s\"",
        "declare ptr @f(i32, ptr, i1)\n",
    ),
    Said(
        "declare void @llvm.memset.p0.i32(ptr) declare void @llvm.memset.p0.i32() align 4",
        "declare void @llvm.memset.p0.i32()\n",
    ),
    Said(
        "%f = type {} define void @f() { unreachable }",
        "define void @f() {\n0:\n  unreachable\n}\n",
    ),
    Said(
        "define i32 @f(i32 noundef %a, i32, i32 %07, ptr) #0 nounwind { ret i32 %a }",
        "a 0 07 2 define i32 @f() {\n3:\n  ret i32 %a\n}\n",
    ),
    Said("define void @f() { }", "define void @f() {\n0:\n}\n"),
    Said(
        "define void @f() { a: 7: ret void }",
        "define void @f() {\na:\n7:\n  ret void\n}\n",
    ),
    Said(
        "define void @f(i1 %a) { br label %a a: br i1 %a, label %f, label %a f: unreachable }",
        "a define void @f() {\n0:\n  br label %a\na:\n  br i1 %a, label %f, label %a\nf:\n  unreachable\n}\n",
    ),
    Said(
        "define void @f() { %r = freeze i8 1 ret: ret void, !a !1 ret2: }",
        "define void @f() {\n0:\n  %r = freeze i8 1\nret:\n  ret void\nret2:\n}\n",
    ),
    Said(
        "define void @f() { call void %f() nounwind add: call void %f() }",
        "define void @f() {\n0:\n  call void %f()\nadd:\n  call void %f()\n}\n",
    ),
    Said(
        "define void @f() { ret void } define internal hidden zeroext i8 @g() comdat { %f = freeze i8 1 ret i8 %f }",
        "define i8 @g() {\n0:\n  %f = freeze i8 1\n  ret i8 %f\n}\n",
    ),
];

fn assert_said(rt: &impl Abort, alloc: Global, rows: &[Said]) {
    for (number, row) in rows.iter().enumerate() {
        let rule = Rule::Statements(Asked::Last(row.1.as_bytes()));
        assert!(rt;
            answer_of(alloc, row.0.as_bytes(), rule) == Some(true),
            "row {number}"
        );
    }
}

#[test]
fn statements_read_as_they_are_printed(rt: HostRuntime) {
    assert_said(&rt, rt.alloc(), &SAID);
}

/// A text in two pieces, and its fault, which is at the first token of the second piece, or at the end where that has none.
struct Faulty(&'static str, &'static str, FaultKind);

/// Texts in two pieces with the kinds of their faults.
macro_rules! faulty {
    ($($front:literal $rest:literal => $kind:ident,)+) => {
        [$(Faulty($front, $rest, FaultKind::$kind)),+]
    };
}

static DECLARED: [Faulty; 41] = faulty! {
    "" "foo" => OutOfProfile,
    "" "global" => Statement,
    "" "7" => Statement,
    "%t = type " "opaque" => OutOfProfile,
    "%t = type " "i32" => Statement,
    "%t = type " "[2 x i8]" => Statement,
    "%t = type " "%u" => Statement,
    "%t = type <" "i8, i8>" => Statement,
    "%t = type { " "void }" => Statement,
    "%t = type { i8" "" => Statement,
    "%t = " "foo {}" => Statement,
    "%t " "type {}" => Statement,
    "%t = type {} " "%t foo" => Twice,
    "@g = " "i32 global" => OutOfProfile,
    "@g = " "noundef global i32 0" => OutOfProfile,
    "@g = " "external global i32" => OutOfProfile,
    "@g = private " "7" => Statement,
    "@g = global " "dso_local i32 0" => Statement,
    "@g = global " "void 0" => Statement,
    "@g = global i32 " "foo" => OutOfProfile,
    "@g = global i32 0, " "section \"s\"" => OutOfProfile,
    "@g = global i32 0, " "!dbg !1" => Statement,
    "@g = global i32 0, align 4" ", align 4" => Statement,
    "@g = global i32 0 " "@g = foo" => Twice,
    "declare " "foo void @f()" => OutOfProfile,
    "declare i32 " "foo()" => Statement,
    "declare i32 " "%f()" => Statement,
    "declare void @f(" "void)" => OutOfProfile,
    "declare void @f(" "...)" => OutOfProfile,
    "declare void @f(" "noundef i32)" => Statement,
    "declare void @f(" "{ i8 } %a)" => OutOfProfile,
    "declare void @f(i32 " "foo)" => OutOfProfile,
    "declare void @f(i32 %a " "noundef)" => Statement,
    "declare void @f(i32," ")" => Statement,
    "declare void @f() " "foo" => OutOfProfile,
    "declare void @f() " "global" => OutOfProfile,
    "declare void @f() " "foo: ret void" => OutOfProfile,
    "declare void @f() #" "-1" => Statement,
    "declare void @f() declare void " "@f(foo" => Twice,
    "@llvm.memset.p0.i32 = global i8 0 declare i8 @llvm.memset.p0.i32() " "foo" => OutOfProfile,
    "declare void @f(i32 %a, i32 %a) " "foo" => OutOfProfile,
};

static DEFINED: [Faulty; 35] = faulty! {
    "define void " "@llvm.memset.p0.i64(foo" => OutOfProfile,
    "@llvm.memset.p0.i64 = global i8 0 define void " "@llvm.memset.p0.i64(foo" => Twice,
    "define ccc dso_local noundef " "float @f()" => OutOfProfile,
    "define void @f" "{" => Statement,
    "define void @f(i32 %a, i32 " "%a, foo" => Twice,
    "define void @f(i32 %1, " "i32 noundef) {" => Twice,
    "define void @f(i32 %a, i32 noundef, i32 " "%0)" => Twice,
    "define void @f(i32 %1, i32" "" => Statement,
    "define void @f(i32 " "foo)" => OutOfProfile,
    "define void @f() " "7" => Statement,
    "define void @f() " "!dbg !1 {" => Statement,
    "define void @f() " "personality ptr @f {" => OutOfProfile,
    "define void @f() { ret void } define void " "@f(i32 %a, i32 %a)" => Twice,
    "@f = global i32 0 define i32 " "@f()" => Twice,
    "define void @f() {" "" => Statement,
    "define void @f() { foo" "" => Statement,
    "define void @f() { 5" "" => Statement,
    "define void @f() { " "-5" => Statement,
    "define void @f() { " "5 ret void" => Statement,
    "define void @f() { " "foo bar" => OutOfProfile,
    "define void @f() { ret void " "foo bar" => Statement,
    "define void @f() { ret void foo" "" => Statement,
    "define void @f() { ret void " "add i32" => Statement,
    "define void @f() { ret void " "%r = add" => Statement,
    "define void @f() { a: ret void " "%x: ret void }" => Statement,
    "define void @f() { a: ret void " "a: foo" => Twice,
    "define void @f() { a: ret void " "a foo" => Statement,
    "define void @f(i32 %0) { ret void " "1: ret void }" => Twice,
    "define void @f(i32 %r) { " "%r foo" => Twice,
    "define void @f() { %r = freeze i8 1 " "%r = foo" => Twice,
    "define void @f() { call void %f() foo" "" => Statement,
    "define void @f() { call void %f() " "foo bar" => OutOfProfile,
    "define void @f() { ret void, !" "dbg !1" => OutOfProfile,
    "define void @f() { unreachable } " "}" => Statement,
    "define void @f(i32) { " "%0 = freeze i8 1 }" => Twice,
};

/// How many tokens a text has.
fn count(alloc: Global, text: &[u8]) -> usize {
    match outcome_of(alloc, text, Rule::Nothing) {
        Outcome::Read(_, left) => left,
        _ => 0,
    }
}

/// Whether a text has a fault of this kind, at the first token behind a front.
fn is_behind(alloc: Global, text: &[u8], front: &[u8], kind: FaultKind) -> bool {
    let left = count(alloc, text).saturating_sub(count(alloc, front));
    let rule = Rule::Statements(Asked::Last(&[]));
    is_refused(alloc, text, rule, kind, left)
}

fn is_faulty(alloc: Global, row: &Faulty) -> bool {
    let front = row.0.as_bytes();
    let mut text = Vec::new(alloc);
    let one = text.extend_from_slice(front);
    let other = text.extend_from_slice(row.1.as_bytes());
    let whole = one.is_ok() && other.is_ok();
    let is_faulty = whole && is_behind(alloc, text.as_slice(), front, row.2);
    drop(text);
    is_faulty
}

fn assert_faulty(rt: &impl Abort, alloc: Global, rows: &[Faulty]) {
    for (number, row) in rows.iter().enumerate() {
        assert!(rt; is_faulty(alloc, row), "row {number}");
    }
}

#[test]
fn faults_of_types_globals_and_imports_are_met_at_their_tokens(rt: HostRuntime) {
    assert_faulty(&rt, rt.alloc(), &DECLARED);
}

#[test]
fn faults_of_functions_are_met_at_their_tokens(rt: HostRuntime) {
    assert_faulty(&rt, rt.alloc(), &DEFINED);
}

#[test]
fn the_line_of_an_instruction_is_that_of_its_first_token(rt: HostRuntime) {
    let text = b"; a comment\ndefine void @f() {\n\n  %r = add i32 1,\n  2\n\
        !0 = !{}\nb: unreachable\n}\n@g = global i8 0";
    let rule = Rule::Statements(Asked::Lines(4, 7));
    assert!(rt; answer_of(rt.alloc(), text.as_slice(), rule) == Some(true));
}
