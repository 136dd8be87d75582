//! The edges of phis.
ghost use Rattle.std.specs.Prelude.{◌≡◌, ℕ, ◌&&◌, true, Some, cond, is_some, nat_eq, OnOk, IfOk};
ghost use Rattle.std.specs.List.{list_all, list_any};
ghost use Rattle.lx_ir.specs.Lookup.{blocks_of};
ghost use Rattle.lx_ir.specs.Faults.{has_block, same_symbol, same_blank, same_pointer, same_constant, same_value, edges_fit, phi_fault, phi_faults, block_phi_faults, first_some};
ghost use Rattle.lx_ir_walks.specs.Sources.{ArePredecessors};
ghost use Rattle.lx_ir_verify.specs.Shown.{Gives};
ghost use Rattle.lx_ir_verify.specs.Edges.{at_number, is_from, HasFirsts, is_first, edge_by, AreBlocksOf};

use crate::fault::{VerifyFault, marked};
use crate::operands::{is_phi, register_name};
use indexmap::{IndexMap, IndexSet};
use lx_ir::instr::{Edge, Instr, Op};
use lx_ir::module::{Blank, Block, Constant, Pointer, Symbol, Value};
use lx_ir_uses::blocks_of;
use lx_ir_walks::Blocks;
use lx_words::{Memory, Width, Word};
use std::alloc::Global;

/// Whether two names stand for the same function or global.
pub fn is_same_symbol(a: Symbol, b: Symbol) -> bool
    ensures { result ≡ same_symbol a b }
{
    match (a, b) {
        (Symbol::Function(j), Symbol::Function(k)) => j == k,
        (Symbol::Global(j), Symbol::Global(k)) => j == k,
        _ => false,
    }
}

fn is_same_blank(a: Blank, b: Blank) -> bool
    ensures { result ≡ same_blank a b }
{
    match (a, b) {
        (Blank::Undef, Blank::Undef) => true,
        (Blank::Poison, Blank::Poison) => true,
        (Blank::Zero, Blank::Zero) => true,
        _ => false,
    }
}

fn is_same_pointer(a: Pointer, b: Pointer) -> bool
    ensures { result ≡ same_pointer a b }
{
    match (a, b) {
        (Pointer::Null, Pointer::Null) => true,
        (Pointer::Blank(a), Pointer::Blank(b)) => is_same_blank(a, b),
        (Pointer::Number(m), Pointer::Number(n)) => m == n,
        (Pointer::Symbol(a, m), Pointer::Symbol(b, n)) => is_same_symbol(a, b) && m == n,
        _ => false,
    }
}

/// Whether a constant is this word.
fn is_word(word: Word, constant: Constant) -> bool
    ensures { result ≡ same_constant (Constant.Number word) constant }
{
    match constant {
        Constant::Number(other) => {
            word.width.bit_count() == other.width.bit_count() && word.bits == other.bits
        }
        _ => false,
    }
}

/// Whether a constant is this `true` or `false`.
fn is_truth(truth: bool, constant: Constant) -> bool
    ensures { result ≡ same_constant (Constant.Truth truth) constant }
{
    match constant {
        Constant::Truth(other) => { if truth { other } else { !other } }
        _ => false,
    }
}

/// Whether a constant is this blank one.
fn is_blank(blank: Blank, width: Width, constant: Constant) -> bool
    ensures { result ≡ same_constant (Constant.Blank blank width) constant }
{
    match constant {
        Constant::Blank(other, at) => {
            is_same_blank(blank, other) && width.bit_count() == at.bit_count()
        }
        _ => false,
    }
}

/// Whether a constant is this pointer.
fn is_pointer(pointer: Pointer, constant: Constant) -> bool
    ensures { result ≡ same_constant (Constant.Pointer pointer) constant }
{
    match constant {
        Constant::Pointer(other) => is_same_pointer(pointer, other),
        _ => false,
    }
}

/// Whether a constant is this pointer as an integer.
fn is_cast(pointer: Pointer, width: Width, constant: Constant) -> bool
    ensures { result ≡ same_constant (Constant.Cast pointer width) constant }
{
    match constant {
        Constant::Cast(other, at) => {
            is_same_pointer(pointer, other) && width.bit_count() == at.bit_count()
        }
        _ => false,
    }
}

fn is_same_constant(a: Constant, b: Constant) -> bool
    ensures { result ≡ same_constant a b }
{
    match a {
        Constant::Number(word) => is_word(word, b),
        Constant::Truth(truth) => is_truth(truth, b),
        Constant::Blank(blank, width) => is_blank(blank, width, b),
        Constant::Pointer(pointer) => is_pointer(pointer, b),
        Constant::Cast(pointer, width) => is_cast(pointer, width, b),
    }
}

/// Whether two operands are kept alike.
pub fn is_same_value(a: Value, b: Value) -> bool
    ensures { result ≡ same_value a b }
{
    match (a, b) {
        (Value::Register(q), Value::Register(r)) => q == r,
        (Value::Constant(c), Value::Constant(d)) => is_same_constant(c, d),
        _ => false,
    }
}

/// A block's name, and the numbers of its predecessors.
#[derive(Clone, Copy)]
struct Join<'a> {
    name: &'a [u8],
    before: &'a IndexSet<usize>,
}

/// Puts an edge's operand at the number of the block that its label names.
fn put_operand(f: &Blocks, firsts: &mut IndexMap<usize, Value>, edge: &Edge) -> Result<(), Memory>
    ensures { OnOk result ((n : ℕ) → at_number firsts.new.entries n ≡ cond (is_from f.now n edge.now) (Some edge.now.value) (at_number firsts.old.entries n)) }
{
    // The prover's part on loans is told of the types in the map by this.
    let _seen: Option<Constant> = None;
    match f.number_of(edge.label.as_slice()) {
        None => Ok(()),
        Some(number) => {
            firsts.insert(number, edge.value)?;
            Ok(())
        }
    }
}

/// The first operand from each block. The map is filled from the last edge to the first, so that of equal labels the first stays.
fn first_operands(
    alloc: Global,
    f: &Blocks,
    edges: &[Edge],
) -> Result<IndexMap<usize, Value>, Memory>
    ensures { IfOk result (λ firsts. HasFirsts f.now edges.now firsts.entries) }
{
    let mut firsts = IndexMap::new(alloc);
    let mut left = edges.len();
    while left > 0 {
        left -= 1;
        put_operand(f, &mut firsts, &edges[left])?;
    }
    Ok(firsts)
}

/// Whether an operand is the first one from its block.
fn is_first(first: Option<Value>, value: Value) -> bool
    ensures { result ≡ is_first first value }
{
    match first {
        None => false,
        Some(first) => is_same_value(first, value),
    }
}

fn first_from(firsts: &IndexMap<usize, Value>, number: usize) -> Option<Value>
    ensures { result ≡ at_number firsts.now.entries number }
{
    firsts.get(&number).copied()
}

fn is_before(before: &IndexSet<usize>, number: usize) -> bool
    ensures { result ≡ list_any (nat_eq number) before.now.keys }
{
    before.contains(&number)
}

/// Whether an edge is from a predecessor, with the same operand as the first edge from there.
fn is_edge(
    f: &Blocks,
    before: &IndexSet<usize>,
    firsts: &IndexMap<usize, Value>,
    edge: &Edge,
) -> bool
    ensures { result ≡ edge_by f.now before.now.keys firsts.now.entries edge.now }
{
    match f.number_of(edge.label.as_slice()) {
        None => false,
        Some(number) => {
            is_before(before, number) && is_first(first_from(firsts, number), edge.value)
        }
    }
}

fn are_edges(
    f: &Blocks,
    before: &IndexSet<usize>,
    firsts: &IndexMap<usize, Value>,
    edges: &[Edge],
) -> bool
    ensures { result ≡ list_all (edge_by f.now before.now.keys firsts.now.entries) edges.now }
{
    edges.iter().all(|edge| is_edge(f, before, firsts, edge))
}

/// Whether there is an edge from each of these blocks.
fn are_all_named(before: &IndexSet<usize>, firsts: &IndexMap<usize, Value>) -> bool
    ensures { result ≡ list_all (λ q. is_some (at_number firsts.now.entries q)) before.now.keys }
{
    before
        .as_slice()
        .iter()
        .all(|number| first_from(firsts, *number).is_some())
}

/// Whether each edge is from one of these blocks, and each of them has one.
fn are_matched(
    f: &Blocks,
    before: &IndexSet<usize>,
    firsts: &IndexMap<usize, Value>,
    edges: &[Edge],
) -> bool
    ensures { result ≡ (list_all (edge_by f.now before.now.keys firsts.now.entries) edges.now && list_all (λ q. is_some (at_number firsts.now.entries q)) before.now.keys) }
{
    are_edges(f, before, firsts, edges) && are_all_named(before, firsts)
}

/// Whether the labels of a phi are exactly the predecessors of its block, with one operand each.
fn edges_fit(alloc: Global, f: &Blocks, join: &Join, edges: &[Edge]) -> Result<bool, Memory>
    requires { ArePredecessors f.now join.now.name.now join.now.before.now.keys }
    ensures { IfOk result (λ fits. fits ≡ edges_fit f.now join.now.name.now edges.now) }
{
    let firsts = first_operands(alloc, f, edges)?;
    Ok(are_matched(f, join.before, &firsts, edges))
}

/// Whether a phi stands behind phis alone, and its edges fit.
fn is_in_place(
    alloc: Global,
    f: &Blocks,
    join: &Join,
    behind_phis: bool,
    edges: &[Edge],
) -> Result<bool, Memory>
    requires { ArePredecessors f.now join.now.name.now join.now.before.now.keys }
    ensures { IfOk result (λ fits. fits ≡ (behind_phis && edges_fit f.now join.now.name.now edges.now)) }
{
    if behind_phis {
        let fits = edges_fit(alloc, f, join, edges)?;
        Ok(fits)
    } else {
        Ok(false)
    }
}

/// At an instruction behind phis alone, or behind others.
fn check_instr(
    alloc: Global,
    f: &Blocks,
    join: &Join,
    behind_phis: bool,
    instr: &Instr,
) -> Result<(), VerifyFault>
    requires { ArePredecessors f.now join.now.name.now join.now.before.now.keys }
    ensures { Gives (phi_fault f.now join.now.name.now behind_phis instr.now) result }
{
    match &instr.op {
        Op::Phi { to, edges, .. } => {
            if is_in_place(alloc, f, join, behind_phis, edges.as_slice())? {
                return Ok(());
            }
            let what = marked(alloc, b"%", register_name(f.function(), *to))?;
            Err(VerifyFault::PhiEdges {
                line: instr.line,
                what,
            })
        }
        _ => Ok(()),
    }
}

/// At the instructions of a block, where a phi can stand at its start or cannot.
#[tactic(auto, using(crate::proofs::BehindPhis::phi_step, crate::proofs::BehindPhis::phi_end, crate::proofs::Passes::first_answer))]
fn check_instrs(
    alloc: Global,
    f: &Blocks,
    join: &Join,
    at_start: bool,
    instrs: &[Instr],
) -> Result<(), VerifyFault>
    requires { ArePredecessors f.now join.now.name.now join.now.before.now.keys }
    ensures { Gives (phi_faults f.now join.now.name.now at_start instrs.now) result }
{
    let mut behind_phis = at_start;
    for instr in instrs {
        check_instr(alloc, f, join, behind_phis, instr)?;
        behind_phis = behind_phis && is_phi(&instr.op);
    }
    Ok(())
}

fn check_block(alloc: Global, f: &Blocks, block: &Block, at_start: bool) -> Result<(), VerifyFault>
    requires { has_block f.now block.now.name ≡ true }
    ensures { Gives (phi_faults f.now block.now.name at_start block.now.instrs) result }
{
    let name = block.name.as_slice();
    let join = Join {
        name,
        before: f.before(name),
    };
    check_instrs(alloc, f, &join, at_start, block.instrs.as_slice())?;
    Ok(())
}

#[tactic(auto, using(crate::proofs::BehindPhis::block_step, crate::proofs::FittingEdges::block_at, crate::proofs::Passes::first_end, crate::proofs::Passes::first_answer))]
fn check_later(alloc: Global, f: &Blocks, blocks: &[Block]) -> Result<(), VerifyFault>
    requires { AreBlocksOf f.now blocks.now }
    ensures { Gives (first_some (λ c. phi_faults f.now c.name true c.instrs) blocks.now) result }
{
    for block in blocks {
        check_block(alloc, f, block, true)?;
    }
    Ok(())
}

/// Finds the first phi whose labels are not the block's predecessors, or that stands where none can.
#[tactic(auto, using(crate::proofs::Passes::first_answer, crate::proofs::FittingEdges::all_blocks, crate::proofs::FittingEdges::later_blocks, crate::proofs::FittingEdges::block_at))]
pub fn check_phis(alloc: Global, f: &Blocks) -> Result<(), VerifyFault>
    ensures { Gives (block_phi_faults f.now (blocks_of f.now)) result }
{
    match blocks_of(f.function()).split_first() {
        None => Ok(()),
        Some((first, later)) => {
            check_block(alloc, f, first, false)?;
            check_later(alloc, f, later)?;
            Ok(())
        }
    }
}
