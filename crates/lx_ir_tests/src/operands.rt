//! Operands from text: how many tokens are left behind each, and their faults.

use crate::short_texts::{Rule, answer_of, is_read, is_refused};
use lx_ir::module::{Constant, Pointer, Value};
use lx_ir::types::Scalar;
use lx_ir_operands::{
    address, again, align, attributes, case, edge, flagged_scalar, flagged_type, flagged_typed,
    has_case, has_further, has_label_word, local, metadata, next_label, second, skip_flags,
    truth_type, typed,
};
use lx_ir_terms::{Context, FaultKind, ReadError, Reader};
use lx_words::Width;
use std::alloc::Global;
use std::process::Abort;

/// How an operand is kept.
#[derive(Clone, Copy)]
pub enum Kept {
    Null,
    True,
    Register,
}

/// What may stand next.
#[derive(Clone, Copy)]
pub enum Next {
    LabelWord,
    Case,
    Further,
}

/// What is read of a text.
#[derive(Clone, Copy)]
pub enum Part {
    Typed,
    FlaggedTyped,
    FlaggedScalar,
    FlaggedType,
    Truth,
    Second,
    Address,
    Again,
    Label,
    NextLabel,
    Edge,
    Case,
    Metadata,
    Align,
    Attributes,
    /// A further operand, where the form wrote this type before, which has to be kept so.
    KeptAs(Scalar, Kept),
    /// So many tokens, behind which this has to stand.
    Behind(usize, Next),
}

fn is_kept(value: Value, kept: Kept) -> bool {
    match kept {
        Kept::Null => matches!(value, Value::Constant(Constant::Pointer(Pointer::Null))),
        Kept::True => matches!(value, Value::Constant(Constant::Truth(true))),
        Kept::Register => matches!(value, Value::Register(_)),
    }
}

fn stands_behind(reader: &mut Reader<'_>, skipped: usize, next: Next) -> bool {
    for _ in 0..skipped {
        reader.skip();
    }
    match next {
        Next::LabelWord => has_label_word(reader),
        Next::Case => has_case(reader),
        Next::Further => has_further(reader),
    }
}

/// The answer for a part that only has to be read.
fn done<T: Drop>(read: Result<T, ReadError>) -> Result<bool, ReadError> {
    match read {
        Ok(part) => {
            drop(part);
            Ok(true)
        }
        Err(error) => Err(error),
    }
}

/// Reads a part, and says whether it is as it has to be. Types that a form wrote before are `i32`.
pub fn operand_is_read(
    alloc: Global,
    reader: &mut Reader<'_>,
    context: &Context<'_>,
    part: Part,
) -> Result<bool, ReadError> {
    let ty = Scalar::Int(Width::W32);
    match part {
        Part::Typed => done(typed(alloc, reader, context)),
        Part::FlaggedTyped => done(flagged_typed(alloc, reader, context)),
        Part::FlaggedScalar => done(flagged_scalar(reader)),
        Part::FlaggedType => done(flagged_type(alloc, reader, context)),
        Part::Truth => {
            skip_flags(reader);
            done(truth_type(reader))
        }
        Part::Second => done(second(alloc, reader, context, ty)),
        Part::Address => done(address(alloc, reader, context)),
        Part::Again => done(again(alloc, reader, context, ty)),
        Part::Label => done(local(alloc, reader, context)),
        Part::NextLabel => done(next_label(alloc, reader, context)),
        Part::Edge => done(edge(alloc, reader, context, ty)),
        Part::Case => done(case(alloc, reader, context, ty)),
        Part::Metadata => done(metadata(reader)),
        Part::Align => done(align(reader)),
        Part::Attributes => done(attributes(reader)),
        Part::KeptAs(written, kept) => {
            let value = again(alloc, reader, context, written)?;
            Ok(is_kept(value, kept))
        }
        Part::Behind(skipped, next) => Ok(stands_behind(reader, skipped, next)),
    }
}

/// A text, what is read of it, and how many tokens are left behind that.
struct Said(Part, &'static str, usize);

static SAID: [Said; 22] = [
    Said(Part::Typed, "i32 -1, x", 2),
    Said(Part::FlaggedTyped, "nuw nsw ptr null", 0),
    Said(Part::FlaggedScalar, "exact i64 %a", 1),
    Said(Part::FlaggedType, "inbounds [2 x { i8, ptr }], ptr", 2),
    Said(Part::Truth, "nneg i1 %c", 1),
    Said(Part::Second, ", 7, 8", 2),
    Said(Part::Address, ", ptr %p, align 4", 3),
    Said(Part::Again, ", i64 %b", 0),
    Said(Part::Label, "%l ]", 1),
    Said(Part::NextLabel, ", label %3, label %4", 3),
    Said(Part::Edge, "[ %a, %b ], [", 2),
    Said(Part::Case, "i8 1, label %b i8", 1),
    Said(Part::Metadata, ", !a !1, !b !2 x", 1),
    Said(Part::Metadata, "x", 1),
    Said(Part::Align, ", align 8, !a !1", 5),
    Said(Part::Align, ", !a !1", 5),
    Said(Part::Attributes, "#1 nounwind align 4 section \"s\" ret", 1),
    Said(Part::Attributes, "noinline nounwind:", 2),
    Said(Part::Attributes, "nounwind", 1),
    Said(Part::Attributes, "tail call", 2),
    Said(Part::Attributes, "", 0),
    Said(Part::Metadata, "", 0),
];

fn assert_said(rt: &impl Abort, alloc: Global, rows: &[Said]) {
    for (number, row) in rows.iter().enumerate() {
        let rule = Rule::Operand(row.0);
        assert!(rt;
            is_read(alloc, row.1.as_bytes(), rule, row.2),
            "row {number}"
        );
    }
}

#[test]
fn operands_end_where_they_end(rt: HostRuntime) {
    assert_said(&rt, rt.alloc(), &SAID);
}

/// A text, what is read of it, and its fault: the kind, and how many tokens are left.
struct Faulty(Part, &'static str, FaultKind, usize);

static FAULTY: [Faulty; 16] = [
    Faulty(Part::Typed, "%t %a", FaultKind::OutOfProfile, 2),
    Faulty(Part::Typed, "add %a", FaultKind::Statement, 2),
    Faulty(
        Part::FlaggedScalar,
        "nuw label %a",
        FaultKind::OutOfProfile,
        2,
    ),
    Faulty(
        Part::FlaggedType,
        "inbounds add i8",
        FaultKind::OutOfProfile,
        2,
    ),
    Faulty(Part::FlaggedType, ", i8", FaultKind::Statement, 2),
    Faulty(Part::Truth, "i8 %c", FaultKind::Statement, 2),
    Faulty(Part::Truth, "label %c", FaultKind::OutOfProfile, 2),
    Faulty(Part::Second, "7", FaultKind::Statement, 1),
    Faulty(Part::Address, ", i64 %p", FaultKind::Statement, 2),
    Faulty(Part::Again, ", i32 foo", FaultKind::OutOfProfile, 1),
    Faulty(Part::NextLabel, ", %3", FaultKind::Statement, 1),
    Faulty(Part::Edge, "[ %a, label %b ]", FaultKind::Statement, 3),
    Faulty(Part::Case, "i8 %c, label %b", FaultKind::Statement, 4),
    Faulty(Part::Metadata, ", !dbg !1", FaultKind::OutOfProfile, 3),
    Faulty(Part::Align, ", volatile 1", FaultKind::OutOfProfile, 2),
    Faulty(
        Part::Attributes,
        "nounwind noundef }",
        FaultKind::OutOfProfile,
        2,
    ),
];

fn assert_faulty(rt: &impl Abort, alloc: Global, rows: &[Faulty]) {
    for (number, row) in rows.iter().enumerate() {
        let rule = Rule::Operand(row.0);
        assert!(rt;
            is_refused(alloc, row.1.as_bytes(), rule, row.2, row.3),
            "row {number}"
        );
    }
}

#[test]
fn faults_are_met_at_their_tokens(rt: HostRuntime) {
    assert_faulty(&rt, rt.alloc(), &FAULTY);
}

/// A further operand, the type that the form wrote before, and how the operand is kept.
struct Further(&'static str, Scalar, Kept);

static FURTHER: [Further; 4] = [
    Further(", i64 null", Scalar::Int(Width::W64), Kept::Null),
    Further(", i32 1", Scalar::Int(Width::W64), Kept::Null),
    Further(", i32 1", Scalar::Ptr, Kept::True),
    Further(", ptr %a", Scalar::Ptr, Kept::Register),
];

#[test]
fn an_operand_of_another_type_does_not_fit(rt: HostRuntime) {
    let alloc = rt.alloc();
    for (number, row) in FURTHER.iter().enumerate() {
        let rule = Rule::Operand(Part::KeptAs(row.1, row.2));
        assert!(rt;
            answer_of(alloc, row.0.as_bytes(), rule) == Some(true),
            "row {number}"
        );
    }
}

/// How many tokens are passed over, what may stand next, and whether it does.
struct Ahead(usize, Next, bool);

static AHEAD: [Ahead; 6] = [
    Ahead(0, Next::LabelWord, true),
    Ahead(0, Next::Case, true),
    Ahead(1, Next::LabelWord, false),
    Ahead(1, Next::Case, false),
    Ahead(2, Next::Further, false),
    Ahead(4, Next::Further, true),
];

#[test]
fn what_stands_next_is_told(rt: HostRuntime) {
    let alloc = rt.alloc();
    for (number, row) in AHEAD.iter().enumerate() {
        let rule = Rule::Operand(Part::Behind(row.0, row.1));
        let found = answer_of(alloc, b"label ] , ! , x", rule);
        assert!(rt; found == Some(row.2), "row {number}");
    }
}
