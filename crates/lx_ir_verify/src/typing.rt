//! The types of operands, arguments and results.
ghost use Rattle.std.specs.Prelude.{◌≡◌, ◌&&◌, IfOk, option_copied, option_map, slice_get, flat_map};
ghost use Rattle.std.specs.List.{list_all};
ghost use Rattle.lx_words.specs.Word.{signed};
ghost use Rattle.lx_ir.specs.Lawful.{same_scalar, is_function};
ghost use Rattle.lx_ir.specs.Layout.{unnamed};
ghost use Rattle.lx_ir.specs.Lookup.{instrs_of};
ghost use Rattle.lx_ir.specs.Operands.{register_types};
ghost use Rattle.lx_ir.specs.Faults.{fits_if_typed, value_fits, is_integer, is_narrower, converts, number_or_none, value_number, field_number, field_type, inner_type, has_path, indices_fit, same_result, are_arguments, has_signature, calls_well, form_fits, is_typed, type_fault, first_some};
ghost use Rattle.lx_ir_verify.specs.Shown.{Gives};

use crate::fault::VerifyFault;
use crate::operands::{op_word, register_types};
use crate::types::{is_same_scalar, type_of_constant};
use lx_ir::instr::{Argument, Callee, Conversion, Instr, Op};
use lx_ir::module::{Block, Constant, Function, Module, Parameter, Symbol, Value};
use lx_ir::types::{IrType, Scalar, TypeNode};
use lx_ir::unnamed;
use lx_ir_uses::{blocks_of, operands_of};
use lx_words::{Memory, Name, Width, Word};
use std::alloc::Global;

/// Whether a register is of the type, if it has one.
fn fits_if_typed(ty: Scalar, register: Option<Scalar>) -> bool
    ensures { result ≡ fits_if_typed ty register }
{
    match register {
        None => true,
        Some(other) => is_same_scalar(other, ty),
    }
}

/// Whether a value is of the type, where the registers have these types.
fn value_fits(types: &[Scalar], ty: Scalar, value: Value) -> bool
    ensures { result ≡ value_fits types.now ty value }
{
    match value {
        Value::Register(register) => fits_if_typed(ty, types.get(register as usize).copied()),
        Value::Constant(constant) => is_same_scalar(type_of_constant(constant), ty),
    }
}

/// Whether operands are of the types that they stand at.
fn operands_fit(types: &[Scalar], operands: &[Argument]) -> bool
    ensures { result ≡ list_all (λ a. value_fits types.now a.ty a.value) operands.now }
{
    operands
        .iter()
        .all(|operand| value_fits(types, operand.ty, operand.value))
}

fn is_integer(ty: Scalar) -> bool
    ensures { result ≡ is_integer ty }
{
    matches!(ty, Scalar::Int(_))
}

fn is_narrower(a: Scalar, b: Scalar) -> bool
    ensures { result ≡ is_narrower a b }
{
    match (a, b) {
        (Scalar::Int(a), Scalar::Int(b)) => a.bit_count() < b.bit_count(),
        _ => false,
    }
}

fn is_pointer(ty: Scalar) -> bool
    ensures { result ≡ same_scalar ty Scalar.Ptr }
{
    is_same_scalar(ty, Scalar::Ptr)
}

/// Whether a conversion goes to a wider or narrower width as its word says.
fn converts(how: Conversion, from: Scalar, into: Scalar) -> bool
    ensures { result ≡ converts how from into }
{
    match how {
        Conversion::Trunc => is_narrower(into, from),
        Conversion::ZExt | Conversion::SExt => is_narrower(from, into),
        Conversion::PtrToInt => is_pointer(from) && is_integer(into),
        Conversion::IntToPtr => is_integer(from) && is_pointer(into),
    }
}

/// The signed value of a word, if it is not negative.
#[tactic(auto, using(crate::proofs::Numbers::negative_none))]
fn natural(word: Word) -> Option<u64>
    ensures { result ≡ number_or_none (signed word) }
{
    if word.bits > word.width.mask() >> 1 {
        None
    } else {
        Some(word.bits)
    }
}

/// The number that a constant is; a blank one is 0.
fn constant_number(constant: Constant) -> Option<u64>
    ensures { result ≡ value_number (Value.Constant constant) }
{
    match constant {
        Constant::Number(word) => natural(word),
        Constant::Blank(..) => Some(0),
        _ => None,
    }
}

/// The number that an index is, if it is constant.
fn value_number(value: Value) -> Option<u64>
    ensures { result ≡ value_number value }
{
    match value {
        Value::Register(_) => None,
        Value::Constant(constant) => constant_number(constant),
    }
}

/// The number of the field that an index names.
fn field_number(index: Argument) -> Option<u64>
    ensures { result ≡ field_number index }
{
    if is_same_scalar(index.ty, Scalar::Int(Width::W32)) {
        value_number(index.value)
    } else {
        None
    }
}

/// The field that an index names.
fn field_type(fields: &[IrType], index: Argument) -> Option<&IrType>
    ensures { option_copied result ≡ field_type fields.now (field_number index) }
{
    match field_number(index) {
        None => None,
        Some(k) => fields.get(k as usize),
    }
}

/// The type that an index goes into: of an element of an array, or of the field of a struct.
#[tactic(auto, using(lx_ir::proofs::Layouts::list_back))]
fn inner_type(t: &IrType, index: Argument) -> Option<&IrType>
    ensures { option_copied result ≡ inner_type t.now index }
{
    match &t.node {
        TypeNode::Array(_, element) => Some(element),
        TypeNode::Struct(fields) | TypeNode::Packed(fields) => field_type(fields, index),
        _ => None,
    }
}

/// Whether each index names an element or a field.
#[tactic(auto, using(crate::proofs::Numbers::path_none, crate::proofs::Numbers::path_some, crate::proofs::Numbers::path_end))]
fn has_path(m: &Module, t: &IrType, indices: &[Argument]) -> bool
    ensures { result ≡ has_path m.now.types indices.now t.now }
{
    let mut t = t;
    for index in indices {
        match inner_type(unnamed(m, t), *index) {
            None => return false,
            Some(inner) => t = inner,
        }
    }
    true
}

/// Whether the indices of a `getelementptr` go into the type; the first one counts whole values.
fn indices_fit(m: &Module, t: &IrType, indices: &[Argument]) -> bool
    ensures { result ≡ indices_fit m.now.types t.now indices.now }
{
    match indices.split_first() {
        None => true,
        Some((_, inner)) => has_path(m, t, inner),
    }
}

/// Whether a call or a return has the result that is asked for.
pub fn is_same_result(a: Option<Scalar>, b: Option<Scalar>) -> bool
    ensures { result ≡ same_result a b }
{
    match (a, b) {
        (None, None) => true,
        (Some(a), Some(b)) => is_same_scalar(a, b),
        _ => false,
    }
}

/// Whether arguments are as many as the parameters, and of their types.
#[tactic(auto, using(crate::proofs::Numbers::arguments_step, crate::proofs::Numbers::arguments_end, crate::proofs::Numbers::arguments_length))]
fn are_arguments(arguments: &[Argument], parameters: &[Parameter]) -> bool
    ensures { result ≡ are_arguments arguments.now parameters.now }
{
    if arguments.len() != parameters.len() {
        return false;
    }
    for i in 0..arguments.len() {
        if !is_same_scalar(arguments[i].ty, parameters[i].ty) {
            return false;
        }
    }
    true
}

/// Whether a call is as the function with this number asks.
fn has_signature(m: &Module, ret: Option<Scalar>, arguments: &[Argument], k: u32) -> bool
    ensures { result ≡ has_signature ret arguments.now (slice_get m.now.functions k) }
{
    match m.functions.as_slice().get(k as usize) {
        None => false,
        Some(f) => { is_same_result(ret, f.ret) && are_arguments(arguments, f.params.as_slice()) }
    }
}

/// Whether a call is as what it calls asks; nothing is known of what a register calls.
fn calls_well(m: &Module, ret: Option<Scalar>, arguments: &[Argument], callee: Callee) -> bool
    ensures { result ≡ calls_well m.now ret arguments.now callee }
{
    match callee {
        Callee::Symbol(Symbol::Function(k)) => has_signature(m, ret, arguments, k),
        Callee::Symbol(Symbol::Global(_)) => false,
        Callee::Register(_) => true,
    }
}

fn is_function(symbol: Symbol) -> bool
    ensures { result ≡ is_function symbol }
{
    matches!(symbol, Symbol::Function(_))
}

/// The type of an argument, if there is one.
fn type_of_argument(argument: Option<Argument>) -> Option<Scalar>
    ensures { result ≡ option_map (λ a. a.ty) argument }
{
    match argument {
        None => None,
        Some(argument) => Some(argument.ty),
    }
}

fn are_integers(indices: &[Argument]) -> bool
    ensures { result ≡ list_all (λ a. is_integer a.ty) indices.now }
{
    indices.iter().all(|index| is_integer(index.ty))
}

/// What a form asks beside the types of its operands.
fn form_fits(m: &Module, f: &Function, op: &Op) -> bool
    ensures { result ≡ form_fits m.now f.now op.now }
{
    match op {
        Op::Binary { ty, .. } | Op::Switch { ty, .. } => is_integer(*ty),
        Op::Convert {
            how,
            from,
            into,
            ..
        } => converts(*how, *from, *into),
        Op::GetElementPtr { ty, indices, .. } => {
            are_integers(indices.as_slice()) && indices_fit(m, ty, indices.as_slice())
        }
        Op::Call {
            ret,
            callee,
            args,
            ..
        } => calls_well(m, *ret, args.as_slice(), *callee),
        Op::Ret { value } => is_same_result(type_of_argument(*value), f.ret),
        Op::Enter { f } | Op::Pre { f, .. } | Op::Post { f, .. } | Op::Leave { f } => {
            is_function(*f)
        }
        _ => true,
    }
}

/// Whether the operands, the arguments and the result of an instruction are of the types that are asked for.
fn is_typed(
    alloc: Global,
    m: &Module,
    f: &Function,
    types: &[Scalar],
    op: &Op,
) -> Result<bool, Memory>
    ensures { IfOk result (λ b. b ≡ is_typed m.now f.now types.now op.now) }
{
    let operands = operands_of(alloc, op)?;
    Ok(operands_fit(types, &operands) && form_fits(m, f, op))
}

fn check_type(
    alloc: Global,
    m: &Module,
    f: &Function,
    types: &[Scalar],
    instr: &Instr,
) -> Result<(), VerifyFault>
    ensures { Gives (type_fault m.now f.now types.now instr.now) result }
{
    if is_typed(alloc, m, f, types, &instr.op)? {
        return Ok(());
    }
    let what = Name::from_bytes(alloc, op_word(&instr.op))?;
    Err(VerifyFault::TypeDiffers {
        line: instr.line,
        what,
    })
}

#[tactic(auto, using(crate::proofs::Passes::first_step, crate::proofs::Passes::first_end, crate::proofs::Passes::first_answer))]
fn check_block(
    alloc: Global,
    m: &Module,
    f: &Function,
    types: &[Scalar],
    instrs: &[Instr],
) -> Result<(), VerifyFault>
    ensures { Gives (first_some (type_fault m.now f.now types.now) instrs.now) result }
{
    for instr in instrs {
        check_type(alloc, m, f, types, instr)?;
    }
    Ok(())
}

#[tactic(auto, using(crate::proofs::Passes::first_flat_step, crate::proofs::Passes::first_flat_end, crate::proofs::Passes::first_answer))]
fn check_blocks(
    alloc: Global,
    m: &Module,
    f: &Function,
    types: &[Scalar],
    blocks: &[Block],
) -> Result<(), VerifyFault>
    ensures { Gives (first_some (type_fault m.now f.now types.now) (flat_map (λ b. b.instrs) blocks.now)) result }
{
    for block in blocks {
        check_block(alloc, m, f, types, block.instrs.as_slice())?;
    }
    Ok(())
}

/// Finds the first instruction with an operand, an argument or a result of another type.
pub fn check_types(alloc: Global, m: &Module, f: &Function) -> Result<(), VerifyFault>
    ensures { Gives (first_some (type_fault m.now f.now (register_types f.now)) (instrs_of f.now)) result }
{
    let types = register_types(alloc, f)?;
    check_blocks(alloc, m, f, &types, blocks_of(f))?;
    Ok(())
}
