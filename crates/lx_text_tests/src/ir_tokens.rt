//! A text with every kind of token, lines that are passed over, and a byte that begins no token.

use lx_ir_tokens::{
    ConstantWord, InstructionWord, IrTokens, Keyword, Kind, Mark, ScalarWord, StatementWord, Tok,
    read_tokens,
};
use lx_words::{BinOp, Memory, Pred, Stop, Width};
use std::alloc::Global;
use std::test::Fail;

/// A token's kind, its name and its line.
#[derive(Drop)]
struct Row(Kind, &'static [u8], u32);

fn is_right(ir: &IrTokens, tok: Tok, line: u32, row: &Row) -> bool {
    let named = match tok.kind {
        Kind::Text | Kind::Mark(_) => tok.name == 0,
        _ => ir.names.number_of(row.1) == Some(tok.name),
    };
    tok.kind == row.0 && named && line == row.2
}

/// The first token that is not that of its row.
fn first_wrong(ir: &IrTokens, rows: &[Row]) -> Option<usize> {
    if ir.toks.len() != rows.len() {
        return Some(rows.len());
    }
    let toks = ir.toks.as_slice();
    let places = ir.places.as_slice();
    toks.iter()
        .zip(places)
        .zip(rows)
        .position(|((tok, place), row)| !is_right(ir, *tok, place.line, row))
}

static EVERY_KIND: [Row; 23] = [
    Row(Kind::Local, b"x", 4),
    Row(Kind::Mark(Mark::Equal), b"", 4),
    Row(
        Kind::Word(Keyword::Instruction(InstructionWord::Operator(BinOp::Add))),
        b"add",
        4,
    ),
    Row(
        Kind::Word(Keyword::Scalar(ScalarWord::Int(Width::W32))),
        b"i32",
        4,
    ),
    Row(
        Kind::Number {
            value: Some(-5),
            minus: true,
        },
        b"-5",
        4,
    ),
    Row(Kind::Mark(Mark::Comma), b"", 4),
    Row(
        Kind::Number {
            value: Some(7),
            minus: false,
        },
        b"007",
        4,
    ),
    Row(Kind::Word(Keyword::Heading), b"target", 5),
    Row(Kind::Mark(Mark::Colon), b"", 5),
    Row(
        Kind::Word(Keyword::Instruction(InstructionWord::Ret)),
        b"ret",
        5,
    ),
    Row(Kind::Word(Keyword::Void), b"void", 5),
    Row(Kind::Word(Keyword::Other), b"$d", 8),
    Row(Kind::Mark(Mark::Colon), b"", 8),
    Row(Kind::Local, b"x", 8),
    Row(Kind::Mark(Mark::Hash), b"", 8),
    Row(
        Kind::Number {
            value: Some(0),
            minus: false,
        },
        b"0",
        8,
    ),
    Row(Kind::Word(Keyword::Other), b"float", 8),
    Row(Kind::Text, b"", 8),
    Row(Kind::Word(Keyword::Heading), b"attributes", 10),
    Row(Kind::Mark(Mark::Colon), b"", 11),
    Row(Kind::Global, b"x", 11),
    Row(Kind::Bytes, b"a\\\n", 11),
    Row(Kind::Bytes, b"x", 11),
];

static PLACES: [Row; 26] = [
    Row(Kind::Global, b"g", 1),
    Row(Kind::Mark(Mark::Equal), b"", 1),
    Row(Kind::Word(Keyword::Linkage), b"private", 1),
    Row(
        Kind::Word(Keyword::Statement(StatementWord::Constant)),
        b"constant",
        1,
    ),
    Row(Kind::Mark(Mark::OpenBracket), b"", 1),
    Row(
        Kind::Number {
            value: Some(2),
            minus: false,
        },
        b"2",
        1,
    ),
    Row(Kind::Word(Keyword::Times), b"x", 1),
    Row(Kind::Word(Keyword::Scalar(ScalarWord::Ptr)), b"ptr", 1),
    Row(Kind::Mark(Mark::CloseBracket), b"", 1),
    Row(Kind::Mark(Mark::Less), b"", 1),
    Row(Kind::Mark(Mark::OpenBrace), b"", 1),
    Row(
        Kind::Word(Keyword::Constant(ConstantWord::Null)),
        b"null",
        1,
    ),
    Row(Kind::Mark(Mark::CloseBrace), b"", 1),
    Row(Kind::Mark(Mark::Greater), b"", 1),
    Row(
        Kind::Word(Keyword::Instruction(InstructionWord::Compare)),
        b"icmp",
        1,
    ),
    Row(Kind::Word(Keyword::Predicate(Pred::Ugt)), b"ugt", 1),
    Row(Kind::Mark(Mark::OpenParenthesis), b"", 1),
    Row(
        Kind::Word(Keyword::Scalar(ScalarWord::Int(Width::W1))),
        b"i1",
        1,
    ),
    Row(
        Kind::Word(Keyword::Constant(ConstantWord::True)),
        b"true",
        1,
    ),
    Row(Kind::Mark(Mark::CloseParenthesis), b"", 1),
    Row(Kind::Word(Keyword::To), b"to", 1),
    Row(Kind::Word(Keyword::Label), b"label", 1),
    Row(Kind::Word(Keyword::Align), b"align", 1),
    Row(Kind::Word(Keyword::Nothing), b"none", 1),
    Row(Kind::Word(Keyword::Debug), b"dbg", 1),
    Row(Kind::Word(Keyword::Other), b"c", 1),
];

/// What is found in a text's tokens.
#[derive(Clone, Copy)]
struct Found {
    wrong: Option<usize>,
    stop: Option<Stop>,
    last_line: u32,
    /// How many names there are, and the number of that in the first row.
    names: u32,
    first: Option<u32>,
    tokens: usize,
}

/// The number of the name in the first row.
fn first_name(ir: &IrTokens, rows: &[Row]) -> Option<u32> {
    match rows.first() {
        Some(row) => ir.names.number_of(row.1),
        None => None,
    }
}

/// What is found in a text's tokens beside these rows; nothing in a text of more than 1,000 bytes.
fn tokens_found(alloc: Global, text: &[u8], rows: &[Row]) -> Result<Found, Memory> {
    if text.len() > 1000 {
        return Err(Memory);
    }
    let ir = read_tokens(alloc, text)?;
    Ok(Found {
        wrong: first_wrong(&ir, rows),
        stop: ir.stop,
        last_line: ir.last_line,
        names: ir.names.len(),
        first: first_name(&ir, rows),
        tokens: ir.toks.len(),
    })
}

#[test]
fn every_kind_and_the_lines_passed_over(rt: HostRuntime) -> Result<(), Fail> {
    let text = b"; a comment\n\
        source_filename = \"both.c\"\n\
        target triple = \"x\n\
        y\" %\"x\" = add i32 -5, 007\n\
        target: ret void\n\
        !llvm.ident = !{!0}\n\
        $c = comdat any\n\
        $d: %x #0 float \"a\n\
        b\" target {}\n\
        attributes\n\
        : @\"x\" c\"a\\5C\\0a\" c\"x\"\n\
        ! = attributes";
    let found = tokens_found(rt.alloc(), text.as_slice(), &EVERY_KIND)?;
    assert_eq!(rt; found.wrong, None);
    assert!(rt; found.stop.is_none());
    assert_eq!(rt; found.last_line, 12);
    Ok(())
}

#[test]
fn words_and_marks_in_their_places(rt: HostRuntime) -> Result<(), Fail> {
    let text = b"@g=private constant[2 x ptr]<{null}>icmp ugt(i1 true)to label align none dbg c";
    let found = tokens_found(rt.alloc(), text.as_slice(), &PLACES)?;
    assert_eq!(rt; found.wrong, None);
    Ok(())
}

/// A text, and the value of the one number that it is, if 128 bits have it.
struct OneNumber(&'static [u8], Option<i128>);

static ONE_NUMBER: [OneNumber; 6] = [
    OneNumber(b"170141183460469231731687303715884105727", Some(i128::MAX)),
    OneNumber(b"170141183460469231731687303715884105728", None),
    OneNumber(b"-170141183460469231731687303715884105728", Some(i128::MIN)),
    OneNumber(b"-170141183460469231731687303715884105729", None),
    OneNumber(b"340282366920938463463374607431768211456", None),
    OneNumber(b"-0", Some(0)),
];

fn is_one_number(alloc: Global, number: &OneNumber) -> bool {
    let kind = Kind::Number {
        value: number.1,
        minus: number.0.starts_with(b"-"),
    };
    let row = [Row(kind, number.0, 1)];
    match tokens_found(alloc, number.0, row.as_slice()) {
        Ok(found) => found.wrong.is_none(),
        Err(_) => false,
    }
}

#[test]
fn numbers_of_128_bits_and_of_more(rt: HostRuntime) {
    let alloc = rt.alloc();
    assert_eq!(rt;
        ONE_NUMBER
            .iter()
            .position(|number| !is_one_number(alloc, number)),
        None
    );
}

/// The one token before a bad byte in line 4.
static UP_TO_LINE_4: [Row; 1] = [Row(
    Kind::Word(Keyword::Instruction(InstructionWord::Ret)),
    b"ret",
    2,
)];

#[test]
fn tokens_up_to_the_first_bad_byte(rt: HostRuntime) -> Result<(), Fail> {
    let found = tokens_found(rt.alloc(), b"\nret\n\n!0 \x01 void", &UP_TO_LINE_4)?;
    assert_eq!(rt; found.wrong, None);
    assert!(rt; matches!(found.stop, Some(Stop { line: 4, byte: 1 })));
    assert!(rt; found.last_line == 4 && found.names == 1 && found.first == Some(0));
    Ok(())
}

#[test]
fn a_text_without_tokens(rt: HostRuntime) -> Result<(), Fail> {
    let found = tokens_found(rt.alloc(), b" ; nothing\n\n", &[])?;
    assert!(rt; found.tokens == 0 && found.last_line == 1);
    Ok(())
}
