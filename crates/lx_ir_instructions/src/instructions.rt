//! Instructions.

ghost use Rattle.std.specs.Prelude.{◌≡◌, ◌≤◌, None, Some, length, option_map};
ghost use Rattle.lx_ir_terms.specs.Reading.{Gives, Passes, behind, has};
ghost use Rattle.lx_ir_terms.specs.Types.{result_in};
ghost use Rattle.lx_ir_constants.specs.Constants.{is_register};
ghost use Rattle.lx_ir_operands.specs.Steps.{items_while, unbroken_at};
ghost use Rattle.lx_ir_operands.specs.Operands.{typed_at, edge_at, case_at, has_case, some_cases_at, cases_at, instruction_in};
ghost use Rattle.lx_ir_instructions.specs.Instructions.{binary_behind, predicate_in, predicate_at, compare_behind, conversion_of, convert_behind, unary_behind, select_behind, phi_behind, alloca_behind, load_behind, element_behind, store_behind, flagged_result_at, returned_at, ret_behind, jump_behind, branch_behind, br_at, br_behind, switch_behind, giving_of, silent_of, first_word_at, giving_at, silent_at, given_behind, form_at, instruction_at};

use lx_ir::instr::{Argument, Conversion, Edge, Op, SwitchCase, UnaryOp};
use lx_ir::module::{Constant, Value};
use lx_ir::types::Scalar;
use lx_ir_calls::{TextForm, call, has_tail_word, tail_call};
use lx_ir_constants::value;
use lx_ir_operands::{
    address, again, align, case, edge, flagged_scalar, flagged_type, flagged_typed, has_case,
    has_further, has_label_word, local, metadata, next_label, scalar_in, second, skip_flags,
    truth_type, type_word_refusal, typed, word_refusal,
};
use lx_ir_terms::{Context, FaultKind, ReadError, Reader, refusal};
use lx_ir_tokens::{ConversionWord, InstructionWord, Keyword, Kind, Mark, Tok};
use lx_words::{BinOp, Items, Pred, Width};
use std::alloc::Global;

/// An operator behind its word.
fn binary(
    alloc: Global,
    reader: &mut Reader<'_>,
    context: &Context<'_>,
    to: u32,
    op: BinOp,
) -> Result<Op, ReadError>
    ensures reads { Gives result reader.new (binary_behind context.now to op reader.old) }
    ensures shrinks { length reader.new ≤ length reader.old }
{
    let first = flagged_typed(alloc, reader, context)?;
    let b = second(alloc, reader, context, first.ty)?;
    Ok(Op::Binary {
        to,
        op,
        ty: first.ty,
        a: first.value,
        b,
    })
}

fn predicate_in(kind: Kind) -> Option<Pred>
    ensures { result ≡ predicate_in kind }
{
    match kind {
        Kind::Word(Keyword::Predicate(pred)) => Some(pred),
        _ => None,
    }
}

/// The comparison of an `icmp` behind flags.
fn predicate(reader: &mut Reader<'_>) -> Result<Pred, ReadError>
    ensures reads { Gives result reader.new (predicate_at reader.old) }
    ensures shrinks { length reader.new ≤ length reader.old }
{
    skip_flags(reader);
    let [token, ..] = reader.rest else {
        return Err(reader.fault(FaultKind::Statement));
    };
    let pred = reader.picked(predicate_in(token.kind), word_refusal(token.kind))?;
    Ok(pred)
}

/// An `icmp` behind its word.
fn compare(
    alloc: Global,
    reader: &mut Reader<'_>,
    context: &Context<'_>,
    to: u32,
) -> Result<Op, ReadError>
    ensures reads { Gives result reader.new (compare_behind context.now to reader.old) }
    ensures shrinks { length reader.new ≤ length reader.old }
{
    let pred = predicate(reader)?;
    let first = typed(alloc, reader, context)?;
    let b = second(alloc, reader, context, first.ty)?;
    Ok(Op::Compare {
        to,
        pred,
        ty: first.ty,
        a: first.value,
        b,
    })
}

fn conversion_of(word: ConversionWord) -> Conversion
    ensures { result ≡ conversion_of word }
{
    match word {
        ConversionWord::Trunc => Conversion::Trunc,
        ConversionWord::ZExt => Conversion::ZExt,
        ConversionWord::SExt => Conversion::SExt,
        ConversionWord::PtrToInt => Conversion::PtrToInt,
        ConversionWord::IntToPtr => Conversion::IntToPtr,
    }
}

/// A conversion behind its word.
fn convert(
    alloc: Global,
    reader: &mut Reader<'_>,
    context: &Context<'_>,
    to: u32,
    how: Conversion,
) -> Result<Op, ReadError>
    ensures reads { Gives result reader.new (convert_behind context.now to how reader.old) }
    ensures shrinks { length reader.new ≤ length reader.old }
{
    let operand = flagged_typed(alloc, reader, context)?;
    reader.to()?;
    let into = reader.scalar()?;
    Ok(Op::Convert {
        to,
        how,
        from: operand.ty,
        a: operand.value,
        into,
    })
}

/// A `freeze` behind its word.
fn unary(
    alloc: Global,
    reader: &mut Reader<'_>,
    context: &Context<'_>,
    to: u32,
    op: UnaryOp,
) -> Result<Op, ReadError>
    ensures reads { Gives result reader.new (unary_behind context.now to op reader.old) }
    ensures shrinks { length reader.new ≤ length reader.old }
{
    let operand = flagged_typed(alloc, reader, context)?;
    Ok(Op::Unary {
        to,
        op,
        ty: operand.ty,
        a: operand.value,
    })
}

/// A `select` behind its word.
fn select(
    alloc: Global,
    reader: &mut Reader<'_>,
    context: &Context<'_>,
    to: u32,
) -> Result<Op, ReadError>
    ensures reads { Gives result reader.new (select_behind context.now to reader.old) }
    ensures shrinks { length reader.new ≤ length reader.old }
{
    skip_flags(reader);
    truth_type(reader)?;
    let condition = value(alloc, reader, context, Scalar::Int(Width::W1))?;
    reader.mark(Mark::Comma)?;
    let first = typed(alloc, reader, context)?;
    let b = again(alloc, reader, context, first.ty)?;
    Ok(Op::Select {
        to,
        condition,
        ty: first.ty,
        a: first.value,
        b,
    })
}

/// A comma, and an edge behind it.
fn further_edge(
    alloc: Global,
    reader: &mut Reader<'_>,
    context: &Context<'_>,
    ty: Scalar,
) -> Result<Edge, ReadError>
    ensures reads { Gives result reader.new (edge_at context.now ty (behind reader.old)) }
    ensures shrinks { length reader.new ≤ length (behind reader.old) }
{
    reader.skip();
    let edge = edge(alloc, reader, context, ty)?;
    Ok(edge)
}

/// The edges of a `phi`.
fn edges(
    alloc: Global,
    reader: &mut Reader<'_>,
    context: &Context<'_>,
    ty: Scalar,
) -> Result<Items<Edge>, ReadError>
    ensures reads { Gives result reader.new (unbroken_at (edge_at context.now ty) reader.old) }
    ensures shrinks { length reader.new ≤ length reader.old }
{
    let mut edges = Items::new(alloc);
    let first = edge(alloc, reader, context, ty)?;
    edges.push(first)?;
    while has_further(reader) {
        let next = further_edge(alloc, reader, context, ty)?;
        edges.push(next)?;
    }
    Ok(edges)
}

/// A `phi` behind its word.
fn phi(
    alloc: Global,
    reader: &mut Reader<'_>,
    context: &Context<'_>,
    to: u32,
) -> Result<Op, ReadError>
    ensures reads { Gives result reader.new (phi_behind context.now to reader.old) }
    ensures shrinks { length reader.new ≤ length reader.old }
{
    let ty = flagged_scalar(reader)?;
    let edges = edges(alloc, reader, context, ty)?;
    Ok(Op::Phi { to, ty, edges })
}

/// An `alloca` behind its word.
fn alloca(
    alloc: Global,
    reader: &mut Reader<'_>,
    context: &Context<'_>,
    to: u32,
) -> Result<Op, ReadError>
    ensures reads { Gives result reader.new (alloca_behind context.now to reader.old) }
    ensures shrinks { length reader.new ≤ length reader.old }
{
    let ty = flagged_type(alloc, reader, context)?;
    align(reader)?;
    Ok(Op::Alloca { to, ty })
}

/// A `load` behind its word.
fn load(
    alloc: Global,
    reader: &mut Reader<'_>,
    context: &Context<'_>,
    to: u32,
) -> Result<Op, ReadError>
    ensures reads { Gives result reader.new (load_behind context.now to reader.old) }
    ensures shrinks { length reader.new ≤ length reader.old }
{
    let ty = flagged_scalar(reader)?;
    let at = address(alloc, reader, context)?;
    align(reader)?;
    Ok(Op::Load { to, ty, at })
}

/// A comma, and an index behind it.
fn further_index(
    alloc: Global,
    reader: &mut Reader<'_>,
    context: &Context<'_>,
) -> Result<Argument, ReadError>
    ensures reads { Gives result reader.new (typed_at context.now (behind reader.old)) }
    ensures shrinks { length reader.new ≤ length (behind reader.old) }
{
    reader.skip();
    let index = typed(alloc, reader, context)?;
    Ok(index)
}

/// The indices of a `getelementptr`.
fn indices(
    alloc: Global,
    reader: &mut Reader<'_>,
    context: &Context<'_>,
) -> Result<Items<Argument>, ReadError>
    ensures reads { Gives result reader.new (unbroken_at (typed_at context.now) reader.old) }
    ensures shrinks { length reader.new ≤ length reader.old }
{
    let first = typed(alloc, reader, context)?;
    // The prover has to see the types of the constants and values in the list.
    let _seen: Option<Constant> = None;
    let _seen_too: Option<Value> = None;
    let mut indices = Items::new(alloc);
    indices.push(first)?;
    while has_further(reader) {
        let next = further_index(alloc, reader, context)?;
        indices.push(next)?;
    }
    Ok(indices)
}

/// A `getelementptr` behind its word.
fn element(
    alloc: Global,
    reader: &mut Reader<'_>,
    context: &Context<'_>,
    to: u32,
) -> Result<Op, ReadError>
    ensures reads { Gives result reader.new (element_behind context.now to reader.old) }
    ensures shrinks { length reader.new ≤ length reader.old }
{
    let ty = flagged_type(alloc, reader, context)?;
    let base = address(alloc, reader, context)?;
    reader.mark(Mark::Comma)?;
    let indices = indices(alloc, reader, context)?;
    Ok(Op::GetElementPtr {
        to,
        ty,
        base,
        indices,
    })
}

/// A `store` behind its word.
fn store(alloc: Global, reader: &mut Reader<'_>, context: &Context<'_>) -> Result<Op, ReadError>
    ensures reads { Gives result reader.new (store_behind context.now reader.old) }
    ensures shrinks { length reader.new ≤ length reader.old }
{
    let stored = flagged_typed(alloc, reader, context)?;
    let at = address(alloc, reader, context)?;
    align(reader)?;
    Ok(Op::Store {
        ty: stored.ty,
        value: stored.value,
        at,
    })
}

fn result_in(kind: Kind) -> Option<Option<Scalar>>
    ensures { result ≡ result_in kind }
{
    match kind {
        Kind::Word(Keyword::Void) => Some(None),
        _ => Some(Some(scalar_in(kind)?)),
    }
}

/// The type of what is returned behind flags; none is `void`.
fn flagged_result(reader: &mut Reader<'_>) -> Result<Option<Scalar>, ReadError>
    ensures reads { Gives result reader.new (flagged_result_at reader.old) }
    ensures shrinks { length reader.new ≤ length reader.old }
{
    skip_flags(reader);
    let [token, ..] = reader.rest else {
        return Err(reader.fault(FaultKind::Statement));
    };
    let ret = reader.picked(result_in(token.kind), type_word_refusal(token.kind))?;
    Ok(ret)
}

/// What is returned, behind its type.
fn returned(
    alloc: Global,
    reader: &mut Reader<'_>,
    context: &Context<'_>,
    ret: Option<Scalar>,
) -> Result<Option<Argument>, ReadError>
    ensures reads { Gives result reader.new (returned_at context.now ret reader.old) }
    ensures shrinks { length reader.new ≤ length reader.old }
{
    match ret {
        None => Ok(None),
        Some(ty) => {
            let value = value(alloc, reader, context, ty)?;
            Ok(Some(Argument { ty, value }))
        }
    }
}

/// A `ret` behind its word.
fn ret(alloc: Global, reader: &mut Reader<'_>, context: &Context<'_>) -> Result<Op, ReadError>
    ensures reads { Gives result reader.new (ret_behind context.now reader.old) }
    ensures shrinks { length reader.new ≤ length reader.old }
{
    let ty = flagged_result(reader)?;
    let value = returned(alloc, reader, context, ty)?;
    Ok(Op::Ret { value })
}

/// A `br` without condition behind `label`.
fn jump(alloc: Global, reader: &mut Reader<'_>, context: &Context<'_>) -> Result<Op, ReadError>
    ensures reads { Gives result reader.new (jump_behind context.now reader.old) }
    ensures shrinks { length reader.new ≤ length reader.old }
{
    let label = local(alloc, reader, context)?;
    Ok(Op::Jump { label })
}

/// A `br` with a condition behind its flags.
fn branch(alloc: Global, reader: &mut Reader<'_>, context: &Context<'_>) -> Result<Op, ReadError>
    ensures reads { Gives result reader.new (branch_behind context.now reader.old) }
    ensures shrinks { length reader.new ≤ length reader.old }
{
    truth_type(reader)?;
    let condition = value(alloc, reader, context, Scalar::Int(Width::W1))?;
    let if_true = next_label(alloc, reader, context)?;
    let if_false = next_label(alloc, reader, context)?;
    Ok(Op::Branch {
        condition,
        if_true,
        if_false,
    })
}

/// A `br` behind its word.
fn br(alloc: Global, reader: &mut Reader<'_>, context: &Context<'_>) -> Result<Op, ReadError>
    ensures reads { Gives result reader.new (br_behind context.now reader.old) }
    ensures shrinks { length reader.new ≤ length reader.old }
{
    skip_flags(reader);
    if has_label_word(reader) {
        reader.skip();
        let jump = jump(alloc, reader, context)?;
        return Ok(jump);
    }
    let branch = branch(alloc, reader, context)?;
    Ok(branch)
}

/// The cases of a `switch` up to the bracket that closes them.
fn some_cases(
    alloc: Global,
    reader: &mut Reader<'_>,
    context: &Context<'_>,
    ty: Scalar,
) -> Result<Items<SwitchCase>, ReadError>
    ensures reads { Gives result reader.new (some_cases_at context.now ty reader.old) }
    ensures shrinks { length reader.new ≤ length reader.old }
{
    let mut cases = Items::new(alloc);
    while has_case(reader) {
        let next = case(alloc, reader, context, ty)?;
        cases.push(next)?;
    }
    Ok(cases)
}

/// The cases of a `switch` in brackets.
fn cases(
    alloc: Global,
    reader: &mut Reader<'_>,
    context: &Context<'_>,
    ty: Scalar,
) -> Result<Items<SwitchCase>, ReadError>
    ensures reads { Gives result reader.new (cases_at context.now ty reader.old) }
    ensures shrinks { length reader.new ≤ length reader.old }
{
    reader.mark(Mark::OpenBracket)?;
    let cases = some_cases(alloc, reader, context, ty)?;
    reader.mark(Mark::CloseBracket)?;
    Ok(cases)
}

/// A `switch` behind its word.
fn switch(alloc: Global, reader: &mut Reader<'_>, context: &Context<'_>) -> Result<Op, ReadError>
    ensures reads { Gives result reader.new (switch_behind context.now reader.old) }
    ensures shrinks { length reader.new ≤ length reader.old }
{
    let operand = flagged_typed(alloc, reader, context)?;
    let otherwise = next_label(alloc, reader, context)?;
    let cases = cases(alloc, reader, context, operand.ty)?;
    Ok(Op::Switch {
        ty: operand.ty,
        value: operand.value,
        otherwise,
        cases,
    })
}

fn instruction_in(kind: Kind) -> Option<InstructionWord>
    ensures { result ≡ instruction_in kind }
{
    match kind {
        Kind::Word(Keyword::Instruction(word)) => Some(word),
        _ => None,
    }
}

/// An instruction behind `%r =`, at its first word.
fn giving_of(
    alloc: Global,
    reader: &mut Reader<'_>,
    context: &Context<'_>,
    form: TextForm,
    to: u32,
    word: InstructionWord,
) -> Result<Op, ReadError>
    ensures reads { Gives result reader.new (giving_of context.now form to word reader.old) }
    ensures shrinks { length reader.new ≤ length reader.old }
{
    let op = match word {
        InstructionWord::Operator(op) => {
            reader.skip();
            binary(alloc, reader, context, to, op)?
        }
        InstructionWord::Compare => {
            reader.skip();
            compare(alloc, reader, context, to)?
        }
        InstructionWord::Conversion(word) => {
            reader.skip();
            convert(alloc, reader, context, to, conversion_of(word))?
        }
        InstructionWord::Freeze => {
            reader.skip();
            unary(alloc, reader, context, to, UnaryOp::Freeze)?
        }
        InstructionWord::Select => {
            reader.skip();
            select(alloc, reader, context, to)?
        }
        InstructionWord::Phi => {
            reader.skip();
            phi(alloc, reader, context, to)?
        }
        InstructionWord::Alloca => {
            reader.skip();
            alloca(alloc, reader, context, to)?
        }
        InstructionWord::Load => {
            reader.skip();
            load(alloc, reader, context, to)?
        }
        InstructionWord::GetElementPtr => {
            reader.skip();
            element(alloc, reader, context, to)?
        }
        InstructionWord::Call => {
            reader.skip();
            call(alloc, reader, context, form, Some(to))?
        }
        _ => return Err(reader.fault(FaultKind::Statement)),
    };
    Ok(op)
}

/// An instruction without `%r =`, at its first word.
fn silent_of(
    alloc: Global,
    reader: &mut Reader<'_>,
    context: &Context<'_>,
    form: TextForm,
    word: InstructionWord,
) -> Result<Op, ReadError>
    ensures reads { Gives result reader.new (silent_of context.now form word reader.old) }
    ensures shrinks { length reader.new ≤ length reader.old }
{
    let op = match word {
        InstructionWord::Store => {
            reader.skip();
            store(alloc, reader, context)?
        }
        InstructionWord::Call => {
            reader.skip();
            call(alloc, reader, context, form, None)?
        }
        InstructionWord::Ret => {
            reader.skip();
            ret(alloc, reader, context)?
        }
        InstructionWord::Br => {
            reader.skip();
            br(alloc, reader, context)?
        }
        InstructionWord::Switch => {
            reader.skip();
            switch(alloc, reader, context)?
        }
        InstructionWord::Unreachable => {
            reader.skip();
            Op::Unreachable
        }
        _ => return Err(reader.fault(FaultKind::Statement)),
    };
    Ok(op)
}

/// How an instruction is read by its first word.
fn giving_by_word(
    alloc: Global,
    reader: &mut Reader<'_>,
    context: &Context<'_>,
    form: TextForm,
    to: u32,
) -> Result<Op, ReadError>
    ensures reads { Gives result reader.new (first_word_at (giving_of context.now form to) reader.old) }
    ensures shrinks { length reader.new ≤ length reader.old }
{
    let [token, ..] = reader.rest else {
        return Err(reader.fault(FaultKind::Statement));
    };
    let Some(word) = instruction_in(token.kind) else {
        return Err(reader.fault(refusal(token.kind)));
    };
    let op = giving_of(alloc, reader, context, form, to, word)?;
    Ok(op)
}

/// How an instruction is read by its first word, where no register is given.
fn silent_by_word(
    alloc: Global,
    reader: &mut Reader<'_>,
    context: &Context<'_>,
    form: TextForm,
) -> Result<Op, ReadError>
    ensures reads { Gives result reader.new (first_word_at (silent_of context.now form) reader.old) }
    ensures shrinks { length reader.new ≤ length reader.old }
{
    let [token, ..] = reader.rest else {
        return Err(reader.fault(FaultKind::Statement));
    };
    let Some(word) = instruction_in(token.kind) else {
        return Err(reader.fault(refusal(token.kind)));
    };
    let op = silent_of(alloc, reader, context, form, word)?;
    Ok(op)
}

/// What gives this register.
fn giving(
    alloc: Global,
    reader: &mut Reader<'_>,
    context: &Context<'_>,
    form: TextForm,
    to: u32,
) -> Result<Op, ReadError>
    ensures reads { Gives result reader.new (giving_at context.now form to reader.old) }
    ensures shrinks { length reader.new ≤ length reader.old }
{
    if has_tail_word(reader) {
        let op = tail_call(alloc, reader, context, form, Some(to))?;
        return Ok(op);
    }
    let op = giving_by_word(alloc, reader, context, form, to)?;
    Ok(op)
}

/// An instruction without a register that it gives.
fn silent(
    alloc: Global,
    reader: &mut Reader<'_>,
    context: &Context<'_>,
    form: TextForm,
) -> Result<Op, ReadError>
    ensures reads { Gives result reader.new (silent_at context.now form reader.old) }
    ensures shrinks { length reader.new ≤ length reader.old }
{
    if has_tail_word(reader) {
        let op = tail_call(alloc, reader, context, form, None)?;
        return Ok(op);
    }
    let op = silent_by_word(alloc, reader, context, form)?;
    Ok(op)
}

/// The equality sign behind a register, and what gives it.
fn given(
    alloc: Global,
    reader: &mut Reader<'_>,
    context: &Context<'_>,
    form: TextForm,
    to: u32,
) -> Result<Op, ReadError>
    ensures reads { Gives result reader.new (given_behind context.now form to reader.old) }
    ensures shrinks { length reader.new ≤ length reader.old }
{
    reader.mark(Mark::Equal)?;
    let op = giving(alloc, reader, context, form, to)?;
    Ok(op)
}

/// An instruction without the metadata behind it.
fn bare_instruction(
    alloc: Global,
    reader: &mut Reader<'_>,
    context: &Context<'_>,
    form: TextForm,
) -> Result<Op, ReadError>
    ensures reads { Gives result reader.new (form_at context.now form reader.old) }
    ensures shrinks { length reader.new ≤ length reader.old }
{
    if let [
        Tok {
            kind: Kind::Local,
            name,
        },
        ..
    ] = reader.rest
    {
        let to = context.register(*name);
        reader.skip();
        let op = given(alloc, reader, context, form, to)?;
        return Ok(op);
    }
    let op = silent(alloc, reader, context, form)?;
    Ok(op)
}

/// An instruction, with the register that it gives and the words and metadata that say nothing.
///
/// A fault is at the first token that cannot stand where it stands. That a register is given twice is no fault here.
pub fn instruction(
    alloc: Global,
    reader: &mut Reader<'_>,
    context: &Context<'_>,
    form: TextForm,
) -> Result<Op, ReadError>
    ensures reads { Gives result reader.new (instruction_at context.now form reader.old) }
    ensures shrinks { length reader.new ≤ length reader.old }
{
    let op = bare_instruction(alloc, reader, context, form)?;
    metadata(reader)?;
    Ok(op)
}
