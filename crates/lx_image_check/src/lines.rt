//! The lines of a wrapper, beside those that it ought to have.
ghost use Rattle.std.specs.Prelude.{◌≡◌, ◌+◌, IfOk, drop, flat_map, option_copied, slice_get};
ghost use Rattle.lx_ir.specs.declared.instr.Op.TheVariants as op;
ghost use Rattle.lx_ir.specs.Faults.{same_symbol};
ghost use Rattle.lx_image_texts.specs.ImageFaults.{different_from, same_argument, same_arguments, same_callee, same_line, same_register, same_returned};
ghost use Rattle.lx_image_marks.specs.Told.{Gives};
ghost use Rattle.lx_image_check.specs.Compared.{line_fault, lines_fault, same_line_as};

use lx_image_marks::{FaultKind, Refusal, refuse};
use lx_ir::instr::{Argument, Callee, Instr, Op};
use lx_ir::module::{Block, Function, Symbol};
use lx_ir::types::Scalar;
use lx_ir_verify::{is_same_result, is_same_scalar, is_same_symbol, is_same_value};
use lx_words::Memory;
use std::alloc::Global;

fn is_same_register(a: Option<u32>, b: Option<u32>) -> bool
    ensures { result ≡ same_register a b }
{
    match (a, b) {
        (None, None) => true,
        (Some(a), Some(b)) => a == b,
        _ => false,
    }
}

fn is_same_argument(a: Argument, b: Argument) -> bool
    ensures { result ≡ same_argument a b }
{
    is_same_scalar(a.ty, b.ty) && is_same_value(a.value, b.value)
}

#[tactic(auto, using(crate::proofs::Comparing::arguments_step, crate::proofs::Comparing::arguments_end, crate::proofs::Comparing::arguments_length))]
fn are_same_arguments(a: &[Argument], b: &[Argument]) -> bool
    ensures { result ≡ same_arguments a.now b.now }
{
    if a.len() != b.len() {
        return false;
    }
    for i in 0..a.len() {
        if !is_same_argument(a[i], b[i]) {
            return false;
        }
    }
    true
}

fn is_same_returned(a: Option<Argument>, b: Option<Argument>) -> bool
    ensures { result ≡ same_returned a b }
{
    match (a, b) {
        (None, None) => true,
        (Some(a), Some(b)) => is_same_argument(a, b),
        _ => false,
    }
}

fn is_same_callee(a: Callee, b: Callee) -> bool
    ensures { result ≡ same_callee a b }
{
    match (a, b) {
        (Callee::Symbol(a), Callee::Symbol(b)) => is_same_symbol(a, b),
        _ => false,
    }
}

fn enters(f: Symbol, line: &Op) -> bool
    ensures { result ≡ same_line (op.Enter f) line.now }
{
    match line {
        Op::Enter { f: other } => is_same_symbol(f, *other),
        _ => false,
    }
}

fn acts_before(f: Symbol, k: u32, line: &Op) -> bool
    ensures { result ≡ same_line (op.Pre f k) line.now }
{
    match line {
        Op::Pre { f: other, k: place } => is_same_symbol(f, *other) && k == *place,
        _ => false,
    }
}

fn acts_behind(f: Symbol, k: u32, line: &Op) -> bool
    ensures { result ≡ same_line (op.Post f k) line.now }
{
    match line {
        Op::Post { f: other, k: place } => is_same_symbol(f, *other) && k == *place,
        _ => false,
    }
}

fn leaves(f: Symbol, line: &Op) -> bool
    ensures { result ≡ same_line (op.Leave f) line.now }
{
    match line {
        Op::Leave { f: other } => is_same_symbol(f, *other),
        _ => false,
    }
}

fn returns(value: Option<Argument>, line: &Op) -> bool
    ensures { result ≡ same_line (op.Ret value) line.now }
{
    match line {
        Op::Ret { value: other } => is_same_returned(value, *other),
        _ => false,
    }
}

fn calls(to: Option<u32>, ret: Option<Scalar>, target: Callee, args: &[Argument], line: &Op) -> bool
    ensures { result ≡ same_line (op.Call to ret target args.now) line.now }
{
    match line {
        Op::Call {
            to: other_to,
            ret: other_ret,
            callee: other,
            args: others,
        } => {
            is_same_register(to, *other_to)
                && is_same_result(ret, *other_ret)
                && is_same_callee(target, *other)
                && are_same_arguments(args, others.as_slice())
        }
        _ => false,
    }
}

/// Whether what stands in the place of a wrapper's line is that line.
fn is_same_line(wanted: &Op, line: &Op) -> bool
    ensures { result ≡ same_line wanted.now line.now }
{
    match wanted {
        Op::Enter { f } => enters(*f, line),
        Op::Pre { f, k } => acts_before(*f, *k, line),
        Op::Call {
            to,
            ret,
            callee,
            args,
        } => calls(*to, *ret, *callee, args.as_slice(), line),
        Op::Post { f, k } => acts_behind(*f, *k, line),
        Op::Leave { f } => leaves(*f, line),
        Op::Ret { value } => returns(*value, line),
        _ => false,
    }
}

/// Whether an instruction is the line that is wanted; behind the last one none is.
fn is_wanted(wanted: Option<&Instr>, instr: &Instr) -> bool
    ensures { result ≡ same_line_as (option_copied wanted.entry) instr.now }
{
    match wanted {
        Some(wanted) => is_same_line(&wanted.op, &instr.op),
        None => false,
    }
}

/// The number of the instruction so many behind another. A text with more instructions than numbers of 32 bits is want of memory.
fn behind_by(place: u32, count: usize) -> Result<u32, Memory>
    ensures { IfOk result (λ n. n ≡ count + place) }
{
    let Ok(count) = u32::try_from(count) else {
        return Err(Memory);
    };
    match place.checked_add(count) {
        Some(place) => Ok(place),
        None => Err(Memory),
    }
}

/// Compares an instruction with the line that is wanted there.
fn check_line(
    alloc: Global,
    name: &[u8],
    place: u32,
    wanted: Option<&Instr>,
    instr: &Instr,
) -> Result<(), Refusal>
    ensures { Gives (line_fault name.now place (option_copied wanted.entry) instr.now) result }
{
    if is_wanted(wanted, instr) {
        Ok(())
    } else {
        Err(refuse(alloc, FaultKind::WrapperDiffers, instr.line, name, place))
    }
}

fn line_at(wanted: &[Instr], k: usize) -> Option<&Instr>
    ensures { option_copied result ≡ slice_get wanted.now k }
{
    wanted.get(k)
}

/// Compares the instructions of a block, which have numbers from `first` on, with the lines that are wanted from that number on.
#[tactic(auto, using(crate::proofs::Comparing::lines_end))]
fn check_block(
    alloc: Global,
    name: &[u8],
    wanted: &[Instr],
    first: u32,
    instrs: &[Instr],
) -> Result<(), Refusal>
    ensures { Gives (lines_fault name.now first (drop first wanted.now) instrs.now) result }
{
    let mut place = first;
    for instr in instrs {
        check_line(alloc, name, place, line_at(wanted, place as usize), instr)?;
        place = behind_by(place, 1)?;
    }
    Ok(())
}

/// Finds the first instruction of a function that is another than the line that is wanted in its place, or one too many.
#[tactic(auto, using(crate::proofs::Comparing::blocks_end))]
pub(crate) fn check_lines(
    alloc: Global,
    name: &[u8],
    wanted: &[Instr],
    blocks: &[Block],
) -> Result<(), Refusal>
    ensures { Gives (lines_fault name.now 0 wanted.now (flat_map (λ b. b.instrs) blocks.now)) result }
{
    let mut place = 0;
    for block in blocks {
        check_block(alloc, name, wanted, place, block.instrs.as_slice())?;
        place = behind_by(place, block.instrs.len())?;
    }
    Ok(())
}
