//! How a running function goes on.
ghost use Rattle.std.specs.Prelude.{◌≡◌, ◌+◌, ◌<◌, ◌≤◌, ◌++◌, Some, List, IsSome, IsTrue, IfSome, IfOk, MatchResult, OnErr, map, option_copied, replicate, slice_get, true, vec_len, vec_capacity};
ghost use Rattle.lx_ir.specs.declared.instr.Op.{Op};
ghost use Rattle.lx_model.specs.Thread.{activation_behind, code_block_of, start_of, with_register, zero_word};
ghost use Rattle.lx_model.specs.Effect.{arrival, edge_value, is_phi, returned_by, returned_value, site_result, call_result, types_of, with_phis};
ghost use Rattle.lx_model.specs.Next.{with_alloca, without_allocas};
ghost use Rattle.lx_words.specs.Word.{Word};
ghost use Rattle.lx_code.specs.Reach.{is_sized};
ghost use Rattle.lx_image_steps.specs.Standing.{block_at, front_at, head_of, item_at, phi_at, rest_from, run_of};
ghost use Rattle.lx_image_code.specs.Jumps.{IsEdgeAt, op_at};
ghost use Rattle.lx_image_steps.specs.Effects.{arrived_as};
ghost use Rattle.lx_image_steps.specs.Phis.{phi_words, with_words};
ghost use Rattle.std.specs.Prelude.{bytes_eq, find, position};
ghost use Rattle.lx_images.specs.Image.{Code as Images, image_routine};

use crate::activation::{Activation, Range};
use crate::operand::{blank_word, operand};
use lx_code::width_of;
use lx_image_code::Code;
use lx_ir::instr::{Edge, Instr, Op};
use lx_ir::module::Block;
use lx_ir_uses::given_by;
use lx_words::{Memory, Width, Word};
use std::alloc::Global;

/// A jump: the label of the block that it leaves, and the number of the block that it leads to.
#[derive(Clone, Copy)]
struct Jump<'a> {
    from: &'a [u8],
    to: usize,
}

/// The place of an instruction in the block that a jump leads to.
#[derive(Clone, Copy)]
struct Place<'a> {
    jump: Jump<'a>,
    place: usize,
}

/// So many edges are searched as fast as a table is asked.
const FEW: usize = 8;

/// The most that the part of the stack of a function may end at.
const MOST_HIGH: u64 = 0x8000_0000_0000_0000;

pub(crate) fn is_phi(op: &Op) -> bool
    ensures { result ≡ is_phi op.now }
{
    matches!(op, Op::Phi { .. })
}

// Whether a phi stands at a place.
#[tactic(auto, using(crate::proofs::Places::phi_there, crate::proofs::Places::no_phi_there))]
fn is_phi_at(instrs: &[Instr], place: usize) -> bool
    ensures { result ≡ phi_at (map (λ i. i.op) instrs.now) place }
{
    match instrs.get(place) {
        Some(instr) => is_phi(&instr.op),
        None => false,
    }
}

/// The place of the next instruction: where a jump led to the block, its phis are behind it.
#[tactic(auto, using(crate::proofs::Places::plain_here, crate::proofs::Places::phi_passed, crate::proofs::Places::found_here, crate::proofs::Places::at_the_end))]
pub(crate) fn next_place(instrs: &[Instr], arrived: bool, from: usize) -> usize
    ensures { rest_from arrived from (map (λ i. i.op) instrs.now) ≡ front_at arrived result (map (λ i. i.op) instrs.now) }
{
    if !arrived {
        return from;
    }
    for place in from..instrs.len() {
        if !is_phi_at(instrs, place) {
            return place;
        }
    }
    instrs.len()
}

/// The instruction at a place.
pub(crate) fn instr_at(instrs: &[Instr], place: usize) -> Option<&Instr>
    ensures { option_copied result ≡ slice_get instrs.now place }
{
    instrs.get(place)
}

/// The instructions of the block that runs.
pub(crate) fn instrs_of<'a>(code: &'a Code, run: &Activation) -> &'a [Instr]
    ensures { map (λ i. i.op) result.now ≡ (block_at (image_routine code.now run.now.function).blocks run.now.block).code }
{
    match code.blocks(run.function).get(run.block) {
        Some(block) => block.instrs.as_slice(),
        None => &[],
    }
}

// The label of the block with a number.
fn label_in(blocks: &[Block], number: usize) -> &[u8]
    ensures { result.now ≡ (block_at (map code_block_of blocks.now) number).label }
{
    match blocks.get(number) {
        Some(block) => block.name.as_slice(),
        None => &[],
    }
}

/// The next instruction of a running function.
pub fn instruction<'a>(code: &'a Code, run: &Activation) -> Option<&'a Op>
    ensures next { option_copied result ≡ head_of (run_of code.now run.now).code }
    ensures sized { IfSome result (λ op. IsTrue (is_sized (types_of code.now.program (run_of code.now run.now)) op.now)) }
{
    let _program = code.program();
    let instrs = instrs_of(code, run);
    match instr_at(instrs, next_place(instrs, run.arrived, run.place)) {
        Some(instr) => Some(&instr.op),
        None => None,
    }
}

/// Gives a register a word, if there is a word and a register.
fn set_register(registers: &mut Vec<Word>, number: Option<u32>, word: &Option<Word>)
    ensures { registers.new.items ≡ with_register number word.now registers.old.items }
{
    if let (Some(number), Some(word)) = (number, word) {
        let place = number as usize;
        if place < registers.len() {
            registers[place] = *word;
        }
    }
}

fn is_from(edge: &Edge, label: &[u8]) -> bool
    ensures { result ≡ bytes_eq edge.now.label label.now }
{
    edge.label.is_same(label)
}

fn edge_at(edges: &[Edge], place: Option<usize>) -> Option<&Edge>
    ensures { option_copied result ≡ item_at edges.now place }
{
    match place {
        Some(place) => edges.get(place),
        None => None,
    }
}

// The first edge from a label: at the place that a table has, or searched where there is no table.
#[tactic(auto, using(crate::proofs::Firsts::at_first))]
fn edge_from<'a>(edges: &'a [Edge], label: &[u8], found: Option<Option<usize>>) -> Option<&'a Edge>
    requires { IfSome found (λ place. place ≡ position (λ e. bytes_eq e.label label.now) edges.now) }
    ensures { option_copied result ≡ find (λ e. bytes_eq e.label label.now) edges.now }
{
    match found {
        Some(place) => edge_at(edges, place),
        None => edges.iter().find(|edge| is_from(edge, label)),
    }
}

// The value of a phi on the edge from the block that runs, whose place a table may have.
fn edge_value(
    code: &Code,
    before: &Activation,
    edges: &[Edge],
    label: &[u8],
    found: Option<Option<usize>>,
) -> Word
    requires label { label.now ≡ (run_of code.now before.now).label }
    requires found { IfSome found (λ place. place ≡ position (λ e. bytes_eq e.label label.now) edges.now) }
    ensures { result ≡ edge_value code.now.program (run_of code.now before.now) edges.now }
{
    match edge_from(edges, label, found) {
        Some(edge) => operand(code, before, &edge.value),
        None => blank_word(),
    }
}

// The word that a phi gives its register.
#[derive(Clone, Copy)]
struct PhiWord {
    register: u32,
    word: Word,
}

// The place of the edge by which a jump comes to a phi with so many edges, where a table has it.
fn edge_in_table(code: &Code, function: u32, at: &Place, count: usize) -> Option<Option<usize>>
    ensures { IfSome result (λ found. IsEdgeAt (op_at (image_routine code.now function).blocks at.now.jump.to at.now.place) at.now.jump.from.now found) }
{
    if count <= FEW {
        None
    } else {
        code.edge(function, at.jump.to, at.place, at.jump.from)
    }
}

// The value of an instruction at a place of a block that a jump leads to is added, where it is a phi.
fn add_phi(
    code: &Code,
    before: &Activation,
    at: Place<'_>,
    op: &Op,
    words: &mut Vec<PhiWord>,
) -> Result<(), Memory>
    requires op { op_at (image_routine code.now before.now.function).blocks at.jump.to at.place ≡ Some op.now }
    requires label { at.jump.from.now ≡ (run_of code.now before.now).label }
    ensures { MatchResult result (λ _. words.new.items ≡ words.old.items ++ phi_words code.now.program (run_of code.now before.now) op.now) (λ _. is_phi op.now ≡ true) }
{
    if let Op::Phi { to, edges, .. } = op {
        let found = edge_in_table(code, before.function, &at, edges.len());
        let word = edge_value(code, before, edges.as_slice(), at.jump.from, found);
        words.push(PhiWord {
            register: *to,
            word,
        })?;
    }
    Ok(())
}

// The values of the phis of the block that a jump leads to, each on the registers as they are before any is given. A block without phis takes
// no memory.
fn phis_of(
    alloc: Global,
    code: &Code,
    before: &Activation,
    jump: Jump<'_>,
    instrs: &[Instr],
) -> Result<Vec<PhiWord>, Memory>
    requires instrs { map (λ i. i.op) instrs.now ≡ (block_at (image_routine code.now before.now.function).blocks jump.to).code }
    requires label { jump.from.now ≡ (run_of code.now before.now).label }
    ensures { MatchResult result (λ words. with_words words.items before.now.registers.items ≡ with_phis code.now.program (run_of code.now before.now) (map (λ i. i.op) instrs.now) before.now.registers.items) (λ _. IsSome (find is_phi (map (λ i. i.op) instrs.now))) }
{
    let mut words = Vec::new(alloc);
    for place in 0..instrs.len() {
        let at = Place { jump, place };
        add_phi(code, before, at, &instrs[place].op, &mut words)?;
    }
    Ok(words)
}

// The phis give their registers their words.
fn give_phis(registers: &mut Vec<Word>, words: &[PhiWord])
    ensures { registers.new.items ≡ with_words words.now registers.old.items }
{
    for phi in words {
        set_register(registers, Some(phi.register), &Some(phi.word));
    }
}

// The value that an instruction returns, where it is a `ret`.
fn returned_by(code: &Code, run: &Activation, op: &Op) -> Option<Word>
    ensures { result ≡ returned_by code.now.program (run_of code.now run.now) op.now }
{
    match op {
        Op::Ret {
            value: Some(argument),
        } => Some(operand(code, run, &argument.value)),
        _ => None,
    }
}

/// The value that a function returns, where it stands at a `ret`.
#[tactic(auto, using(crate::proofs::Places::returned_here, crate::proofs::Places::returned_nowhere))]
pub fn returned(code: &Code, run: &Activation) -> Option<Word>
    ensures { result ≡ returned_value code.now.program (run_of code.now run.now) }
{
    match instruction(code, run) {
        Some(op) => returned_by(code, run, op),
        None => None,
    }
}

// The width of the result that the site of a call expects.
fn site_result(op: &Op) -> Option<Width>
    ensures { result ≡ site_result op.now }
{
    match op {
        Op::Call { ret: Some(ty), .. } => Some(width_of(ty)),
        _ => None,
    }
}

/// The width of the result that a function expects, where it stands at a call.
#[tactic(auto, using(crate::proofs::Places::expected_here, crate::proofs::Places::expected_nowhere))]
pub fn call_result(code: &Code, run: &Activation) -> Option<Width>
    ensures { result ≡ call_result (run_of code.now run.now).code }
{
    match instruction(code, run) {
        Some(op) => site_result(op),
        None => None,
    }
}

/// The registers of a function that is called: the arguments, and room for what its instructions give.
pub fn registers_of(args: Vec<Word>, locals: usize) -> Result<Vec<Word>, Memory>
    ensures { IfOk result (λ registers. registers.items ≡ args.items ++ replicate locals zero_word) }
{
    let mut registers = args;
    match registers.len().checked_add(locals) {
        Some(count) => registers.resize(count, blank_word())?,
        None => return Err(Memory),
    }
    Ok(registers)
}

impl Activation {
    /// A function at its start, with these registers, whose part of the stack begins at a place.
    pub fn start(alloc: Global, function: u32, registers: Vec<Word>, low: u64) -> Activation
        requires { low ≤ 9223372036854775808 }
        ensures started { (c : Images) → (args : List Word) → registers.items ≡ args ++ replicate (image_routine c function).locals zero_word → run_of c result ≡ start_of function (image_routine c function) args low }
    {
        Activation {
            function,
            block: 0,
            place: 0,
            arrived: false,
            registers,
            low,
            high: low,
            allocas: Vec::new(alloc),
        }
    }

    // The function goes past the instruction at a place, which is the next one, with a value or none.
    pub(crate) fn pass_at(&mut self, instrs: &[Instr], place: usize, value: &Option<Word>)
        requires { rest_from self.old.arrived self.old.place (map (λ i. i.op) instrs.now) ≡ front_at self.old.arrived place (map (λ i. i.op) instrs.now) }
        ensures { (c : Images) → map (λ i. i.op) instrs.now ≡ (block_at (image_routine c self.old.function).blocks self.old.block).code → run_of c self.new ≡ activation_behind value.now (run_of c self.old) }
    {
        if let Some(instr) = instrs.get(place) {
            set_register(&mut self.registers, given_by(&instr.op), value);
            self.place = place + 1;
        }
    }

    /// The function goes past its instruction, with a value or none.
    pub fn pass(&mut self, code: &Code, value: &Option<Word>)
        ensures { run_of code.now self.new ≡ activation_behind value.now (run_of code.now self.old) }
    {
        let instrs = instrs_of(code, self);
        let place = next_place(instrs, self.arrived, self.place);
        self.pass_at(instrs, place, value);
    }

    /// The function goes to the block with a number, and its phis are evaluated together; `false`, where there is no
    /// such block. `Memory` leaves it where it is, and comes only where the block has phis.
    pub fn arrive(&mut self, alloc: Global, code: &Code, block: usize) -> Result<bool, Memory>
        ensures arrives { IfOk result (λ there. arrival code.now.program (run_of code.now self.old) (slice_get (run_of code.now self.old).blocks block) ≡ arrived_as there (run_of code.now self.new)) }
        ensures stays { OnErr result (run_of code.now self.new ≡ run_of code.now self.old) }
        ensures phis { OnErr result (IsSome (find is_phi (block_at (image_routine code.now self.old.function).blocks block).code)) }
    {
        let blocks = code.blocks(self.function);
        match blocks.get(block) {
            Some(found) => {
                let jump = Jump {
                    from: label_in(blocks, self.block),
                    to: block,
                };
                let words = phis_of(alloc, code, self, jump, found.instrs.as_slice())?;
                give_phis(&mut self.registers, words.as_slice());
                self.block = block;
                self.place = 0;
                self.arrived = true;
                Ok(true)
            }
            None => Ok(false),
        }
    }

    /// The function has bytes of the stack, which end within the stack's room.
    pub fn lodge(&mut self, at: u64, size: u64)
        ensures { (c : Images) → at + size ≤ 9223372036854775808 → vec_len self.old.allocas < vec_capacity self.old.allocas → run_of c self.new ≡ with_alloca at size (run_of c self.old) }
    {
        if let Some(high) = at.checked_add(size) {
            if high <= MOST_HIGH && self.allocas.push(Range { at, size }).is_ok() {
                self.high = high;
            }
        }
    }

    /// The function's bytes of the stack are gone.
    pub fn clear(&mut self)
        ensures { (c : Images) → run_of c self.new ≡ without_allocas (run_of c self.old) }
    {
        self.allocas.clear();
    }
}
