//! A program of one function, which calls itself for ever, run by hand.
ghost use Rattle.std.specs.Prelude.{◌≡◌, true, IsTrue, IfOk, []};
ghost use Rattle.lx_code.specs.Reach.{CountsActions, IsWithinReach, are_sized, are_sized_instrs, is_sized, is_sized_function};

use crate::common::{call_with, kernel_alone, owned};
use lx_caps::Principal;
use lx_interp::{Code, Runner};
use lx_ir::instr::{Callee, Instr, Op};
use lx_ir::module::{Block, Function, Symbol};
use lx_model::program::Program;
use lx_model::request::{Outcome, Reply, Trap, What};
use lx_words::{Items, Memory, Names};
use std::alloc::Global;
use std::test::Fail;

fn line(op: Op) -> Instr
    ensures { result.op ≡ op }
{
    Instr { op, line: 1 }
}

/// A call of the first function of the kernel.
fn call(alloc: Global) -> Op
    ensures { is_sized [] result ≡ true }
{
    Op::Call {
        to: None,
        ret: None,
        callee: Callee::Symbol(Symbol::Function(0)),
        args: Items::new(alloc),
    }
}

fn ret() -> Op
    ensures { is_sized [] result ≡ true }
{
    Op::Ret { value: None }
}

fn body(alloc: Global) -> Result<Items<Instr>, Memory>
    ensures { IfOk result (λ instrs. IsTrue (are_sized_instrs [] instrs)) }
{
    let instrs = vec![in alloc; line(call(alloc)), line(ret())]?;
    Ok(Items::from_vec(instrs))
}

fn blocks(alloc: Global) -> Result<Items<Block>, Memory>
    ensures { IfOk result (λ blocks. IsTrue (are_sized [] blocks)) }
{
    let instrs = body(alloc)?;
    let name = Items::new(alloc);
    let blocks = vec![in alloc; Block { name, instrs }]?;
    Ok(Items::from_vec(blocks))
}

/// One register.
fn locals(alloc: Global) -> Result<Names, Memory> {
    let names = vec![in alloc; Items::new(alloc)]?;
    Ok(Items::from_vec(names))
}

fn deep(alloc: Global) -> Result<Function, Memory>
    ensures { IfOk result (λ f. IsTrue (is_sized_function [] f)) }
{
    let locals = locals(alloc)?;
    let blocks = blocks(alloc)?;
    Ok(Function {
        name: Items::new(alloc),
        params: Items::new(alloc),
        locals,
        ret: None,
        blocks: Some(blocks),
        line: 1,
    })
}

#[tactic(auto, using(crate::proofs::Programs::is_within_reach, crate::proofs::Programs::counts_none))]
fn program_of(alloc: Global, function: Function) -> Result<Program, Memory>
    requires { IsTrue (is_sized_function [] function) }
    ensures reach { IfOk result (λ p. IsWithinReach p) }
    ensures actions { IfOk result (λ p. CountsActions p []) }
{
    let program = kernel_alone(alloc, function)?;
    Ok(program)
}

fn code_of(alloc: Global) -> Result<Code, Fail> {
    let function = deep(alloc)?;
    let program = program_of(alloc, function)?;
    let program = owned(alloc, program)?;
    let code = Code::new(alloc, program, Vec::new(alloc), Vec::new(alloc))?;
    Ok(code)
}

/// A runner of thread 1 before one call of function 0, with this fuel.
fn runner_of(alloc: Global, fuel: u32) -> Result<Runner, Memory> {
    let calls = Items::from_vec(vec![in alloc; call_with(alloc, fuel)]?);
    let runner = Runner::open(alloc, 1, &calls);
    drop(calls);
    runner
}

/// Enters the function of the call, and goes on to what ends it.
fn run(code: &Code, runner: &mut Runner) -> Result<(), Memory> {
    runner.local(code)?;
    let entered = Reply::Entered {
        function: 0,
        principal: Principal::Kernel,
        crosses: false,
    };
    runner.absorb(code, &entered);
    runner.local(code)
}

fn ending(runner: &Runner) -> Option<Outcome> {
    match runner.request() {
        Some(request) => match &request.what {
            What::Finish { outcome } => Some(*outcome),
            _ => None,
        },
        None => None,
    }
}

/// How the call ends with this fuel.
fn ended(code: &Code, alloc: Global, fuel: u32) -> Result<Option<Outcome>, Memory> {
    let mut runner = runner_of(alloc, fuel)?;
    let ran = run(code, &mut runner);
    let ending = ending(&runner);
    drop(runner);
    ran?;
    Ok(ending)
}

/// The start and 255 calls cost 256 units and stand in 256 frames; a further call traps, where there is a unit for it.
fn endings(code: &Code, alloc: Global) -> Result<(bool, bool), Memory> {
    let deep = ended(code, alloc, 257)?;
    let short = ended(code, alloc, 256)?;
    Ok((
        matches!(deep, Some(Outcome::Trapped(Trap::TooDeep))),
        matches!(short, Some(Outcome::Budget)),
    ))
}

#[test]
fn a_frame_too_many_traps(rt: HostRuntime) -> Result<(), Fail> {
    let alloc = rt.alloc();
    let code = code_of(alloc)?;
    let ended = endings(&code, alloc);
    drop(code);
    let (traps, budget) = ended?;
    assert!(rt; traps);
    assert!(rt; budget);
    Ok(())
}
