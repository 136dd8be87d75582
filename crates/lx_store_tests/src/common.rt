//! Principals of these tests, and what several of them ask of a store.
ghost use Rattle.std.specs.Prelude.{◌≡◌};
ghost use Rattle.lx_caps.specs.Placed.{is_placed};

use lx_caps::{Atom, Cap, CapStore, Principal, cells, mapped, owns_byte};
use lx_words::Memory;

pub const SHARED: Principal = Principal::Shared(0);

pub const GLOBAL: Principal = Principal::Global(0);

pub const FIRST: Principal = Principal::Inst(0, 0);

pub const SECOND: Principal = Principal::Inst(0, 1);

pub const STRANGER: Principal = Principal::Shared(1);

pub fn is_in_memory(cap: Cap) -> bool
    ensures { result ≡ is_placed cap }
{
    match cap {
        Cap::Write { at, size } => mapped(at, size),
        _ => true,
    }
}

pub fn goes_between_threads<T: Send + Sync>(_: &T) {}

fn bytes(at: u64, size: u64) -> Cap {
    Cap::Write { at, size }
}

/// Gives a capability that lies in memory to a principal that is not the kernel, and says whether it is one.
fn grant<C: CapStore>(caps: &mut C, to: Principal, cap: Cap) -> Result<bool, Memory> {
    if to == Principal::Kernel || !is_in_memory(cap) {
        return Ok(false);
    }
    caps.reserve(cells(cap))?;
    caps.grant(to, cap);
    Ok(true)
}

/// Takes a capability that lies in memory from everyone, and says whether it is one.
fn strip<C: CapStore>(caps: &mut C, cap: Cap) -> Result<bool, Memory> {
    if !is_in_memory(cap) {
        return Ok(false);
    }
    caps.reserve(1)?;
    caps.strip(cap);
    Ok(true)
}

/// Threads are below this number.
const THREADS: u32 = 16;

/// Lends a capability that lies in memory to a principal that is not the kernel, and says whether it is one.
fn lend<C: CapStore>(caps: &mut C, thread: u32, to: Principal, cap: Cap) -> Result<bool, Memory> {
    if thread >= THREADS || to == Principal::Kernel || !is_in_memory(cap) {
        return Ok(false);
    }
    caps.reserve(cells(cap))?;
    caps.lend(thread, to, cap);
    Ok(true)
}

/// What a thread does with its loans.
#[derive(Clone, Copy)]
pub enum LoanAct {
    Open,
    Shut(u32),
    ShutAll,
}

/// Opens or ends loans of a thread, and says whether there is such a thread.
fn act_on_loans<C: CapStore>(caps: &mut C, thread: u32, act: LoanAct) -> Result<bool, Memory> {
    if thread >= THREADS {
        return Ok(false);
    }
    caps.reserve(1)?;
    match act {
        LoanAct::Open => caps.open_loan(thread),
        LoanAct::Shut(count) => caps.shut(thread, count),
        LoanAct::ShutAll => caps.shut_all(thread),
    }
    Ok(true)
}

fn holds<C: CapStore>(caps: &C, who: Principal, cap: Cap) -> bool {
    is_in_memory(cap) && caps.holds(who, cap)
}

fn keeps<C: CapStore>(caps: &C, who: Principal, cap: Cap) -> bool {
    is_in_memory(cap) && caps.keeps(who, cap)
}

/// An act on a store, or a question with its answer. Bytes are given by their address and how many there are.
#[derive(Clone, Copy)]
pub enum Step {
    Grant(Principal, Cap),
    Strip(Cap),
    GrantBytes(Principal, u64, u64),
    StripBytes(u64, u64),
    /// A thread opens a loan or ends some.
    Loans(u32, LoanAct),
    /// A thread lends bytes on its newest loan.
    LendBytes(u32, Principal, u64, u64),
    Holds(Principal, Cap, bool),
    HoldsBytes(Principal, u64, u64, bool),
    KeepsBytes(Principal, u64, u64, bool),
    /// The next atom that a principal owns behind one.
    NextOwned(Principal, Option<Atom>, Option<Atom>),
    /// The next owner of an atom behind one.
    NextOwner(Atom, Option<Principal>, Option<Principal>),
    OwnsByte(Principal, u64, bool),
}

/// Takes a step, and says whether it answered as it has to. Any store will do.
pub fn goes_so<C: CapStore>(caps: &mut C, step: Step) -> Result<bool, Memory> {
    match step {
        Step::Grant(to, cap) => grant(caps, to, cap),
        Step::Strip(cap) => strip(caps, cap),
        Step::GrantBytes(to, at, size) => grant(caps, to, bytes(at, size)),
        Step::StripBytes(at, size) => strip(caps, bytes(at, size)),
        Step::Loans(thread, act) => act_on_loans(caps, thread, act),
        Step::LendBytes(thread, to, at, size) => lend(caps, thread, to, bytes(at, size)),
        Step::Holds(who, cap, want) => Ok(holds(caps, who, cap) == want),
        Step::HoldsBytes(who, at, size, want) => Ok(holds(caps, who, bytes(at, size)) == want),
        Step::KeepsBytes(who, at, size, want) => Ok(keeps(caps, who, bytes(at, size)) == want),
        Step::NextOwned(who, after, want) => Ok(caps.next_owned(who, after) == want),
        Step::NextOwner(atom, after, want) => Ok(caps.next_owner(atom, after) == want),
        Step::OwnsByte(who, byte, want) => Ok(owns_byte(caps, who, byte) == want),
    }
}
