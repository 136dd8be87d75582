//! Types and initialisers from text, as the printer writes them, and their faults.

use crate::alone::global_is_printed;
use crate::short_texts::{Faulty, Rule, answer_of, assert_refused};
use lx_ir::module::GlobalVar;
use lx_ir_constants::init;
use lx_ir_terms::{Context, FaultKind, ReadError, Reader};
use lx_words::Items;
use std::alloc::Global;

/// Reads the type and the initialiser of the global `@g`.
fn global(
    alloc: Global,
    reader: &mut Reader<'_>,
    context: &Context<'_>,
) -> Result<GlobalVar, ReadError> {
    let name = Items::from_bytes(alloc, b"g")?;
    let ty = reader.ty(alloc, context)?;
    let init = init(alloc, reader, context, &ty)?;
    Ok(GlobalVar {
        name,
        constant: false,
        ty,
        init,
        line: 1,
    })
}

/// Reads a type and an initialiser, and says whether the global `@g` of them is printed so.
pub fn constant_is_printed(
    alloc: Global,
    reader: &mut Reader<'_>,
    context: &Context<'_>,
    wanted: &[u8],
) -> Result<bool, ReadError> {
    let global = global(alloc, reader, context)?;
    let is_printed = global_is_printed(alloc, global, wanted)?;
    Ok(is_printed)
}

/// A text of a type and an initialiser, and the line that is printed for them.
struct Said(&'static str, &'static str);

static SAID: [Said; 10] = [
    Said("i32 7", "@g = global i32 7\n"),
    Said("i8 255", "@g = global i8 -1\n"),
    Said(
        "[2 x {i16,ptr}] zeroinitializer",
        "@g = global [2 x { i16, ptr }] zeroinitializer\n",
    ),
    Said("<{ i1, {} }> undef", "@g = global <{ i1, {} }> undef\n"),
    Said("[2 x i8] c\"a\\00\"", "@g = global [2 x i8] c\"a\\00\"\n"),
    Said(
        "{ i32, ptr } { i32 -1, ptr null }",
        "@g = global { i32, ptr } { i32 -1, ptr null }\n",
    ),
    Said(
        "ptr getelementptr inbounds ({ i8, i32, [4 x i16] }, ptr null, i64 1, i32 2, i64 -1)",
        "@g = global ptr inttoptr (i64 22 to ptr)\n",
    ),
    Said(
        "i64 ptrtoint (ptr inttoptr (i64 -16 to ptr) to i32)",
        "@g = global i64 ptrtoint (ptr inttoptr (i64 -16 to ptr) to i32)\n",
    ),
    Said(
        "ptr getelementptr ({ i32, i8 }, ptr null, i64 1)",
        "@g = global ptr inttoptr (i64 8 to ptr)\n",
    ),
    Said("i1 1", "@g = global i1 -1\n"),
];

#[test]
fn constants_read_as_they_are_printed(rt: HostRuntime) {
    let alloc = rt.alloc();
    for (number, said) in SAID.iter().enumerate() {
        let rule = Rule::Constant(said.1.as_bytes());
        assert!(rt;
            answer_of(alloc, said.0.as_bytes(), rule) == Some(true),
            "row {number}"
        );
    }
}

static FAULTY: [Faulty; 12] = [
    Faulty("i8 256", FaultKind::OutOfProfile, 1),
    Faulty("i1 2", FaultKind::OutOfProfile, 1),
    Faulty("ptr 5", FaultKind::OutOfProfile, 1),
    Faulty("float 1", FaultKind::OutOfProfile, 2),
    Faulty("void 1", FaultKind::Statement, 2),
    Faulty("{ i8 i8 } undef", FaultKind::Statement, 3),
    Faulty("<4 x i8> undef", FaultKind::Statement, 5),
    Faulty("[-1 x i8] undef", FaultKind::Statement, 5),
    Faulty("ptr ptrtoint (ptr true to i8)", FaultKind::Statement, 4),
    Faulty("ptr ptrtoint (ptr null to ptr)", FaultKind::OutOfProfile, 2),
    Faulty("ptr @x", FaultKind::Unknown, 1),
    Faulty("ptr", FaultKind::Statement, 0),
];

#[test]
fn faults_are_met_at_their_tokens(rt: HostRuntime) {
    assert_refused(&rt, rt.alloc(), Rule::Constant(&[]), &FAULTY);
}

/// A constant `getelementptr`, and whether its indices name no part.
struct Misplaced(&'static str, bool);

static MISPLACED: [Misplaced; 4] = [
    Misplaced("getelementptr ({ i8, i8 }, ptr null, i64 0, i32 1)", false),
    Misplaced("getelementptr ({ i8, i8 }, ptr null, i64 0, i32 2)", true),
    Misplaced("getelementptr ({ i8, i8 }, ptr null, i64 0, i64 1)", true),
    Misplaced("getelementptr (i8, ptr null, i64 0, i64 0)", true),
];

#[test]
fn indices_that_name_no_part_are_found(rt: HostRuntime) {
    let alloc = rt.alloc();
    for (number, row) in MISPLACED.iter().enumerate() {
        let found = answer_of(alloc, row.0.as_bytes(), Rule::Misplaced);
        assert!(rt; found == Some(row.1), "row {number}");
    }
}
