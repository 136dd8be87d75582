//! Requests as the monitor answers them, one after the other.
ghost use Rattle.std.specs.Prelude.{◌≡◌, ◌∷◌, [], IfOk};
ghost use Rattle.lx_opened_tests.specs.Programs.{slotted};

use crate::common::{
    function_with, interface_with, module_with, modules_with, owned, part_of, slot_with,
};
use lx_caps::{PlainCaps, Principal};
use lx_model::program::{Program, ProgramFunction};
use lx_model::request::{Outcome, Refusal, Reply, Request, Trap, Way, What};
use lx_serve::SharedPart;
use lx_words::{Items, Memory, Width, Word, Words};
use lx_writer_sets::Recorded;
use std::alloc::Global;
use std::process::Abort;
use std::test::Fail;

const KERNEL: Principal = Principal::Kernel;

const SHARED: Principal = Principal::Shared(0);

/// What a row asks, in 64-bit words.
#[derive(Clone, Copy)]
enum Asked {
    Load(u64),
    Store(u64, u64),
    Alloca(u64, u64),
    /// A native, by its number, and its argument.
    Native(u32, u64),
    /// A call without arguments of what stands at an address.
    Address(u64),
    /// A call without arguments through a slot of the first slot type.
    Slot(u64),
}

/// What is answered.
#[derive(Clone, Copy)]
enum Answer {
    Done,
    /// A word with these bits.
    Value(u64),
    /// The function with this number is entered.
    Entered(u32),
    Refused(Refusal),
    Trapped(Trap),
}

/// A request: the thread, for whom it asks, what it asks, and what is answered.
type Row = (u32, Principal, Asked, Answer);

/// A module writes its own bytes of the stack alone, and the kernel's write past the end of memory is trapped.
static BYTES: [Row; 5] = [
    (
        0,
        SHARED,
        Asked::Store(0x3000000, 7),
        Answer::Refused(Refusal::Write {
            who: SHARED,
            at: 0x3000000,
            size: 8,
        }),
    ),
    (0, SHARED, Asked::Alloca(0x3000000, 8), Answer::Done),
    (0, SHARED, Asked::Store(0x3000000, 7), Answer::Done),
    (0, SHARED, Asked::Load(0x3000000), Answer::Value(7)),
    (
        0,
        KERNEL,
        Asked::Store(0x10ffffc, 7),
        Answer::Trapped(Trap::Unmapped { at: 0x1100000 }),
    ),
];

/// Blocks of 16, 8 and 0 bytes; the first of them is taken back, once.
static BLOCKS: [Row; 6] = [
    (0, KERNEL, Asked::Native(0, 16), Answer::Value(0x2000000)),
    (0, KERNEL, Asked::Native(0, 8), Answer::Value(0x2000010)),
    (0, KERNEL, Asked::Native(1, 0x2000000), Answer::Done),
    (
        0,
        KERNEL,
        Asked::Native(1, 0x2000000),
        Answer::Trapped(Trap::NotLive { at: 0x2000000 }),
    ),
    (0, KERNEL, Asked::Native(0, 16), Answer::Value(0x2000000)),
    (0, KERNEL, Asked::Native(0, 0), Answer::Value(0)),
];

/// A module calls no address whose call it does not hold. A slot is called where nobody wrote in it, and not where a module
/// did that holds no call.
static CALLS: [Row; 6] = [
    (
        0,
        SHARED,
        Asked::Address(0x10000),
        Answer::Refused(Refusal::Call {
            who: SHARED,
            at: 0x10000,
        }),
    ),
    (0, KERNEL, Asked::Store(0x3000000, 0x10000), Answer::Done),
    (0, KERNEL, Asked::Slot(0x3000000), Answer::Entered(0)),
    (0, SHARED, Asked::Alloca(0x3000000, 8), Answer::Done),
    (0, SHARED, Asked::Store(0x3000000, 0x10000), Answer::Done),
    (
        0,
        KERNEL,
        Asked::Slot(0x3000000),
        Answer::Refused(Refusal::Writer {
            who: SHARED,
            at: 0x10000,
            slot: 0x3000000,
        }),
    ),
];

fn long(bits: u64) -> Word {
    Word {
        width: Width::W64,
        bits,
    }
}

fn one_word(alloc: Global, bits: u64) -> Result<Words, Memory> {
    let words = vec![in alloc; long(bits)]?;
    Ok(Items::from_vec(words))
}

fn what_of(alloc: Global, asked: Asked) -> Result<What, Memory> {
    let what = match asked {
        Asked::Load(at) => What::Load {
            at,
            width: Width::W64,
        },
        Asked::Store(at, bits) => What::Store {
            at,
            value: long(bits),
        },
        Asked::Alloca(at, size) => What::Alloca { at, size },
        Asked::Native(native, bits) => What::Native {
            native,
            args: one_word(alloc, bits)?,
        },
        Asked::Address(at) => What::Enter {
            way: Way::Indirect(at),
            args: Items::new(alloc),
        },
        Asked::Slot(slot) => What::Enter {
            way: Way::Slot { slot, ty: 0 },
            args: Items::new(alloc),
        },
    };
    Ok(what)
}

fn is_ended(outcome: Outcome, answer: Answer) -> bool {
    match outcome {
        Outcome::Refused(refusal) => match answer {
            Answer::Refused(wanted) => refusal == wanted,
            _ => false,
        },
        Outcome::Trapped(trap) => match answer {
            Answer::Trapped(wanted) => trap == wanted,
            _ => false,
        },
        _ => false,
    }
}

fn is_answer(reply: Reply, answer: Answer) -> bool {
    match reply {
        Reply::Done => matches!(answer, Answer::Done),
        Reply::Value(word) => match answer {
            Answer::Value(bits) => word.bits == bits,
            _ => false,
        },
        Reply::Entered { function, .. } => match answer {
            Answer::Entered(number) => function == number,
            _ => false,
        },
        Reply::Ended(outcome) => is_ended(outcome, answer),
    }
}

/// A program of one function of the kernel, at 0x10000, one slot type, and a module that has nothing.
fn program(alloc: Global) -> Result<Program, Memory>
    ensures { IfOk result (λ p. p ≡ slotted) }
{
    let functions = vec![in alloc; function_with(alloc, Items::new(alloc), None)]?;
    let modules = modules_with(alloc, Items::new(alloc), Vec::new(alloc))?;
    let first = ProgramFunction::Of {
        module: None,
        function: 0,
    };
    let numbers = vec![in alloc; first]?;
    let slots = vec![in alloc; slot_with(alloc, Items::new(alloc))]?;
    Ok(Program {
        kernel: module_with(alloc, functions),
        modules,
        functions: Items::from_vec(numbers),
        globals: Items::new(alloc),
        interface: interface_with(alloc, Items::new(alloc), Items::from_vec(slots)),
    })
}

#[tactic(auto, using(crate::proofs::Programs::slotted_blank, crate::proofs::Programs::slotted_owns, crate::proofs::Programs::slotted_known, crate::proofs::Programs::slotted_linked))]
fn part(alloc: Global, program: Program) -> Result<SharedPart<PlainCaps>, Fail>
    requires { program ≡ slotted }
{
    let program = owned(alloc, program)?;
    let caps = Recorded::new(alloc, PlainCaps::new(alloc));
    let part = part_of(alloc, program, caps)?;
    Ok(part)
}

/// Serves the request of a row, and says whether it is answered so.
fn serves_so(alloc: Global, part: &mut SharedPart<PlainCaps>, row: &Row) -> Result<bool, Fail> {
    let what = what_of(alloc, row.2)?;
    let request = Request { who: row.1, what };
    let reply = part.serve(row.0, &request);
    drop(request);
    Ok(is_answer(reply?, row.3))
}

/// Serves each row, one after the other.
fn serve_each(
    rt: &impl Abort,
    alloc: Global,
    part: &mut SharedPart<PlainCaps>,
    rows: &[Row],
) -> Result<(), Fail> {
    for (number, row) in rows.iter().enumerate() {
        assert!(rt; serves_so(alloc, part, row)?, "row {number}");
    }
    Ok(())
}

/// Serves the rows from the state before the first call.
fn serve_all(rt: &impl Abort, alloc: Global, rows: &[Row]) -> Result<(), Fail> {
    let program = program(alloc)?;
    let mut part = part(alloc, program)?;
    let served = serve_each(rt, alloc, &mut part, rows);
    drop(part);
    served
}

#[test]
fn bytes_are_written_by_their_owners(rt: HostRuntime) -> Result<(), Fail> {
    serve_all(&rt, rt.alloc(), &BYTES)
}

#[test]
fn blocks_are_given_out_and_taken_back(rt: HostRuntime) -> Result<(), Fail> {
    serve_all(&rt, rt.alloc(), &BLOCKS)
}

#[test]
fn calls_enter_what_may_be_called(rt: HostRuntime) -> Result<(), Fail> {
    serve_all(&rt, rt.alloc(), &CALLS)
}
