//! What an instruction reads and gives.
ghost use Rattle.std.specs.Prelude.{◌≡◌, ◌∷◌, ◌++◌, IfOk, map};
ghost use Rattle.lx_words.specs.declared.word.Width.TheVariants.{W1};
ghost use Rattle.lx_ir.specs.Lookup.{blocks_of};
ghost use Rattle.lx_ir.specs.Operands.{operands_of, operands_where, callee_operands, given_by, guard_width, is_image_line};

use lx_ir::instr::{Argument, Callee, Edge, Op, SwitchCase};
use lx_ir::module::{Block, Function, Value};
use lx_ir::types::Scalar;
use lx_words::{Memory, Width};
use std::alloc::Global;

/// The blocks of a function; an import has none.
pub fn blocks_of(f: &Function) -> &[Block]
    ensures { result.now ≡ blocks_of f.now }
{
    match &f.blocks {
        Some(blocks) => blocks.as_slice(),
        None => &[],
    }
}

fn argument(ty: Scalar, value: Value) -> Argument
    ensures { result ≡ record { ty = ty; value = value } }
{
    Argument { ty, value }
}

/// The width of the length that a guard names.
fn guard_width(narrow: bool) -> Width
    ensures { result ≡ guard_width narrow }
{
    if narrow { Width::W32 } else { Width::W64 }
}

/// A value at `ptr`.
fn pointer(value: Value) -> Argument
    ensures { result ≡ record { ty = Scalar.Ptr; value = value } }
{
    argument(Scalar::Ptr, value)
}

/// A value at `i1`.
fn truth(value: Value) -> Argument
    ensures { result ≡ record { ty = Scalar.Int W1; value = value } }
{
    argument(Scalar::Int(Width::W1), value)
}

/// A list of these operands.
fn listed(alloc: Global, operands: &[Argument]) -> Result<Vec<Argument>, Memory>
    ensures { IfOk result (λ v. v.items ≡ operands.now) }
{
    let operands = Vec::from_slice(alloc, operands)?;
    Ok(operands)
}

/// The operands of a call: the register that is called, and the arguments.
fn called_operands(
    alloc: Global,
    callee: Callee,
    arguments: &[Argument],
) -> Result<Vec<Argument>, Memory>
    ensures { IfOk result (λ v. v.items ≡ callee_operands callee ++ arguments.now) }
{
    let mut operands = Vec::new(alloc);
    if let Callee::Register(register) = callee {
        operands.push(pointer(Value::Register(register)))?;
    }
    operands.extend_from_slice(arguments)?;
    Ok(operands)
}

/// An operand, and others behind it.
fn first_and(alloc: Global, first: Argument, rest: &[Argument]) -> Result<Vec<Argument>, Memory>
    ensures { IfOk result (λ v. v.items ≡ first ∷ rest.now) }
{
    let mut operands = vec![in alloc; first]?;
    operands.extend_from_slice(rest)?;
    Ok(operands)
}

/// The values of a phi, each at its type.
fn phi_operands(alloc: Global, ty: Scalar, edges: &[Edge]) -> Result<Vec<Argument>, Memory>
    ensures { IfOk result (λ v. v.items ≡ map (λ e. record { ty = ty; value = e.value }) edges.now) }
{
    let operands = edges
        .iter()
        .map(|edge| argument(ty, edge.value))
        .collect(alloc)?;
    Ok(operands)
}

/// The values of a switch's cases, each at its type.
fn case_operands(alloc: Global, ty: Scalar, cases: &[SwitchCase]) -> Result<Vec<Argument>, Memory>
    ensures { IfOk result (λ v. v.items ≡ map (λ c. record { ty = ty; value = c.value }) cases.now) }
{
    let operands = cases
        .iter()
        .map(|case| argument(ty, case.value))
        .collect(alloc)?;
    Ok(operands)
}

/// The operands of an instruction in the order of its text, each with the type that the form asks for.
pub fn operands_of(alloc: Global, op: &Op) -> Result<Vec<Argument>, Memory>
    ensures { IfOk result (λ v. v.items ≡ operands_of op.now) }
{
    match op {
        Op::Binary { ty, a, b, .. } | Op::Compare { ty, a, b, .. } => {
            listed(alloc, &[argument(*ty, *a), argument(*ty, *b)])
        }
        Op::Convert { from, a, .. } => listed(alloc, &[argument(*from, *a)]),
        Op::Unary { ty, a, .. } => listed(alloc, &[argument(*ty, *a)]),
        Op::Select {
            condition,
            ty,
            a,
            b,
            ..
        } => {
            listed(
                alloc,
                &[truth(*condition), argument(*ty, *a), argument(*ty, *b)],
            )
        }
        Op::Phi { ty, edges, .. } => phi_operands(alloc, *ty, edges.as_slice()),
        Op::Load { at, .. } => listed(alloc, &[pointer(*at)]),
        Op::Store { ty, value, at } => { listed(alloc, &[argument(*ty, *value), pointer(*at)]) }
        Op::GetElementPtr { base, indices, .. } => {
            first_and(alloc, pointer(*base), indices.as_slice())
        }
        Op::Call { callee, args, .. } => called_operands(alloc, *callee, args.as_slice()),
        Op::CopyBlock {
            dest,
            source,
            len,
            ..
        } => { listed(alloc, &[pointer(*dest), pointer(*source), *len]) }
        Op::FillBlock { dest, byte, len } => {
            listed(
                alloc,
                &[
                    pointer(*dest),
                    argument(Scalar::Int(Width::W8), *byte),
                    *len,
                ],
            )
        }
        Op::Ret { value: Some(value) } => listed(alloc, &[*value]),
        Op::Branch { condition, .. } => { listed(alloc, &[truth(*condition)]) }
        Op::Switch {
            ty,
            value,
            cases,
            ..
        } => {
            let cases = case_operands(alloc, *ty, cases.as_slice())?;
            first_and(alloc, argument(*ty, *value), &cases)
        }
        Op::Guard { at, size, narrow } => {
            listed(
                alloc,
                &[
                    pointer(*at),
                    argument(Scalar::Int(guard_width(*narrow)), *size),
                ],
            )
        }
        Op::Check { target } => listed(alloc, &[pointer(*target)]),
        Op::Alloca { .. }
        | Op::Ret { value: None }
        | Op::Jump { .. }
        | Op::Unreachable
        | Op::Enter { .. }
        | Op::Pre { .. }
        | Op::Post { .. }
        | Op::Leave { .. } => Ok(Vec::new(alloc)),
    }
}

/// Whether an instruction is a line that images alone have.
fn is_image_line(op: &Op) -> bool
    ensures { result ≡ is_image_line op.now }
{
    matches!(
        op,
        Op::Guard { .. }
            | Op::Check { .. }
            | Op::Enter { .. }
            | Op::Pre { .. }
            | Op::Post { .. }
            | Op::Leave { .. }
    )
}

/// The operands of an instruction, if it is a line that images alone have (`lines`), or if it is another (not `lines`); else none.
pub fn operands_where(alloc: Global, op: &Op, lines: bool) -> Result<Vec<Argument>, Memory>
    ensures { IfOk result (λ v. v.items ≡ operands_where lines op.now) }
{
    match (lines, is_image_line(op)) {
        (true, true) | (false, false) => operands_of(alloc, op),
        (true, false) | (false, true) => Ok(Vec::new(alloc)),
    }
}

/// The register that an instruction gives.
pub fn given_by(op: &Op) -> Option<u32>
    ensures { result ≡ given_by op.now }
{
    match op {
        Op::Binary { to, .. }
        | Op::Compare { to, .. }
        | Op::Convert { to, .. }
        | Op::Unary { to, .. }
        | Op::Select { to, .. }
        | Op::Phi { to, .. }
        | Op::Alloca { to, .. }
        | Op::Load { to, .. }
        | Op::GetElementPtr { to, .. } => Some(*to),
        Op::Call { to, .. } => *to,
        _ => None,
    }
}
