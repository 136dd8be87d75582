//! Which keyword a word is.

ghost use Rattle.std.specs.Prelude.{◌≡◌, bytes_eq, find, map, unwrap_or};
ghost use Rattle.std.specs.Option.{option_map};
ghost use Rattle.std.specs.Map.{lookup};
ghost use Rattle.lx_ir_tokens.specs.Keywords.{keyword_of};

use crate::keyword::{
    ConstantWord, ConversionWord, InstructionWord, Keyword, ScalarWord, StatementWord,
};
use lx_words::{BinOp, Pred, Width};

/// The words of the language.
const WORDS: [(&[u8], Keyword); 113] = [
    (b"i1", Keyword::Scalar(ScalarWord::Int(Width::W1))),
    (b"i8", Keyword::Scalar(ScalarWord::Int(Width::W8))),
    (b"i16", Keyword::Scalar(ScalarWord::Int(Width::W16))),
    (b"i32", Keyword::Scalar(ScalarWord::Int(Width::W32))),
    (b"i64", Keyword::Scalar(ScalarWord::Int(Width::W64))),
    (b"ptr", Keyword::Scalar(ScalarWord::Ptr)),
    (b"type", Keyword::Statement(StatementWord::NamedType)),
    (b"global", Keyword::Statement(StatementWord::Global)),
    (b"constant", Keyword::Statement(StatementWord::Constant)),
    (b"declare", Keyword::Statement(StatementWord::Declare)),
    (b"define", Keyword::Statement(StatementWord::Define)),
    (
        b"add",
        Keyword::Instruction(InstructionWord::Operator(BinOp::Add)),
    ),
    (
        b"sub",
        Keyword::Instruction(InstructionWord::Operator(BinOp::Sub)),
    ),
    (
        b"mul",
        Keyword::Instruction(InstructionWord::Operator(BinOp::Mul)),
    ),
    (
        b"udiv",
        Keyword::Instruction(InstructionWord::Operator(BinOp::UDiv)),
    ),
    (
        b"sdiv",
        Keyword::Instruction(InstructionWord::Operator(BinOp::SDiv)),
    ),
    (
        b"urem",
        Keyword::Instruction(InstructionWord::Operator(BinOp::URem)),
    ),
    (
        b"srem",
        Keyword::Instruction(InstructionWord::Operator(BinOp::SRem)),
    ),
    (
        b"and",
        Keyword::Instruction(InstructionWord::Operator(BinOp::And)),
    ),
    (
        b"or",
        Keyword::Instruction(InstructionWord::Operator(BinOp::Or)),
    ),
    (
        b"xor",
        Keyword::Instruction(InstructionWord::Operator(BinOp::Xor)),
    ),
    (
        b"shl",
        Keyword::Instruction(InstructionWord::Operator(BinOp::Shl)),
    ),
    (
        b"lshr",
        Keyword::Instruction(InstructionWord::Operator(BinOp::LShr)),
    ),
    (
        b"ashr",
        Keyword::Instruction(InstructionWord::Operator(BinOp::AShr)),
    ),
    (b"eq", Keyword::Predicate(Pred::Eq)),
    (b"ne", Keyword::Predicate(Pred::Ne)),
    (b"ugt", Keyword::Predicate(Pred::Ugt)),
    (b"uge", Keyword::Predicate(Pred::Uge)),
    (b"ult", Keyword::Predicate(Pred::Ult)),
    (b"ule", Keyword::Predicate(Pred::Ule)),
    (b"sgt", Keyword::Predicate(Pred::Sgt)),
    (b"sge", Keyword::Predicate(Pred::Sge)),
    (b"slt", Keyword::Predicate(Pred::Slt)),
    (b"sle", Keyword::Predicate(Pred::Sle)),
    (b"icmp", Keyword::Instruction(InstructionWord::Compare)),
    (
        b"zext",
        Keyword::Instruction(InstructionWord::Conversion(ConversionWord::ZExt)),
    ),
    (
        b"sext",
        Keyword::Instruction(InstructionWord::Conversion(ConversionWord::SExt)),
    ),
    (
        b"trunc",
        Keyword::Instruction(InstructionWord::Conversion(ConversionWord::Trunc)),
    ),
    (
        b"ptrtoint",
        Keyword::Instruction(InstructionWord::Conversion(ConversionWord::PtrToInt)),
    ),
    (
        b"inttoptr",
        Keyword::Instruction(InstructionWord::Conversion(ConversionWord::IntToPtr)),
    ),
    (b"freeze", Keyword::Instruction(InstructionWord::Freeze)),
    (b"select", Keyword::Instruction(InstructionWord::Select)),
    (b"phi", Keyword::Instruction(InstructionWord::Phi)),
    (b"alloca", Keyword::Instruction(InstructionWord::Alloca)),
    (b"load", Keyword::Instruction(InstructionWord::Load)),
    (b"store", Keyword::Instruction(InstructionWord::Store)),
    (
        b"getelementptr",
        Keyword::Instruction(InstructionWord::GetElementPtr),
    ),
    (b"call", Keyword::Instruction(InstructionWord::Call)),
    (b"ret", Keyword::Instruction(InstructionWord::Ret)),
    (b"br", Keyword::Instruction(InstructionWord::Br)),
    (b"switch", Keyword::Instruction(InstructionWord::Switch)),
    (
        b"unreachable",
        Keyword::Instruction(InstructionWord::Unreachable),
    ),
    (b"true", Keyword::Constant(ConstantWord::True)),
    (b"false", Keyword::Constant(ConstantWord::False)),
    (b"null", Keyword::Constant(ConstantWord::Null)),
    (b"undef", Keyword::Constant(ConstantWord::Undef)),
    (b"poison", Keyword::Constant(ConstantWord::Poison)),
    (b"zeroinitializer", Keyword::Constant(ConstantWord::Zero)),
    (b"void", Keyword::Void),
    (b"x", Keyword::Times),
    (b"to", Keyword::To),
    (b"label", Keyword::Label),
    (b"align", Keyword::Align),
    (b"captures", Keyword::Captures),
    (b"none", Keyword::Nothing),
    (b"section", Keyword::Section),
    (b"dbg", Keyword::Debug),
    (b"private", Keyword::Linkage),
    (b"internal", Keyword::Linkage),
    (b"linkonce", Keyword::Linkage),
    (b"linkonce_odr", Keyword::Linkage),
    (b"weak", Keyword::Linkage),
    (b"weak_odr", Keyword::Linkage),
    (b"common", Keyword::Linkage),
    (b"default", Keyword::Linkage),
    (b"hidden", Keyword::Linkage),
    (b"protected", Keyword::Linkage),
    (b"dso_local", Keyword::Linkage),
    (b"unnamed_addr", Keyword::Linkage),
    (b"local_unnamed_addr", Keyword::Linkage),
    (b"ccc", Keyword::Linkage),
    (b"noundef", Keyword::Parameter),
    (b"nonnull", Keyword::Parameter),
    (b"signext", Keyword::Parameter),
    (b"zeroext", Keyword::Parameter),
    (b"noalias", Keyword::Parameter),
    (b"nocapture", Keyword::Parameter),
    (b"readonly", Keyword::Parameter),
    (b"readnone", Keyword::Parameter),
    (b"writeonly", Keyword::Parameter),
    (b"returned", Keyword::Parameter),
    (b"immarg", Keyword::Parameter),
    (b"nofree", Keyword::Parameter),
    (b"nounwind", Keyword::Attribute),
    (b"noinline", Keyword::Attribute),
    (b"optnone", Keyword::Attribute),
    (b"uwtable", Keyword::Attribute),
    (b"comdat", Keyword::Attribute),
    (b"nuw", Keyword::Flag),
    (b"nsw", Keyword::Flag),
    (b"exact", Keyword::Flag),
    (b"disjoint", Keyword::Flag),
    (b"inbounds", Keyword::Flag),
    (b"nusw", Keyword::Flag),
    (b"nneg", Keyword::Flag),
    (b"samesign", Keyword::Flag),
    (b"dereferenceable", Keyword::Dereferenceable),
    (b"dereferenceable_or_null", Keyword::Dereferenceable),
    (b"tail", Keyword::Tail),
    (b"notail", Keyword::Tail),
    (b"source_filename", Keyword::Heading),
    (b"target", Keyword::Heading),
    (b"attributes", Keyword::Heading),
];

/// What a word may be by a table, or none where it does not stand there.
fn found(table: &[(&[u8], Keyword)], text: &[u8]) -> Option<Keyword>
    ensures { result ≡ option_map (λ row. row.1) (find (λ row. bytes_eq text.now row.0.now) table.now) }
{
    let row = table.iter().find(|row| text == row.0)?;
    Some(row.1)
}

/// What a word may be, where these are the words of the language.
fn keyword_in(table: &[(&[u8], Keyword)], text: &[u8]) -> Keyword
    ensures { result ≡ unwrap_or (lookup (bytes_eq text.now) (map (λ row. (row.0.now, row.1)) table.now)) Keyword.Other }
{
    found(table, text).unwrap_or(Keyword::Other)
}

/// What a word may be.
#[tactic(auto, unfolding(crate::specs::Keywords::keyword_of))]
pub fn keyword(text: &[u8]) -> Keyword
    ensures { result ≡ keyword_of text.now }
{
    keyword_in(&WORDS, text)
}
