//! The loans of threads that have not ended.
ghost use Rattle.std.specs.Prelude.{◌≡◌, ◌+◌, ◌-◌, ◌<◌, ◌≤◌, ℕ, ◌&&◌, nat_lt, nat_eq, not, length, take, OnOk, OnErr, slice_index_or};
ghost use Rattle.lx_caps.specs.Loans.{none_end};
ghost use Rattle.lx_act_index.specs.Threads.{HasTurned, idle, is_open, newest_of, opened, shut, thread_at};

use lx_words::{Items, Memory};
use std::alloc::Global;

/// A loan: its thread, how many older ones of the thread had not ended, and the number of the act that opened it.
#[derive(Clone, Copy)]
pub struct Loan {
    pub thread: u32,
    pub older: u64,
    pub opened: u32,
}

/// The loans of a thread that have not ended, the oldest first, by the acts that opened them. It lends where the newest that it
/// ever opened is one of them.
#[derive(Drop)]
pub struct Thread {
    pub loans: Items<u32>,
    pub lends: bool,
}

fn is_loan(loans: &[u32], loan: Loan) -> bool
    ensures { result ≡ (nat_lt loan.older (length loans.now) && nat_eq (slice_index_or loans.now loan.older 0) loan.opened) }
{
    if loan.older < loans.len() as u64 {
        loans[loan.older as usize] == loan.opened
    } else {
        false
    }
}

/// Says whether a loan has not ended.
pub fn stands(threads: &[Thread], loan: Loan) -> bool
    ensures { result ≡ is_open none_end threads.now loan }
{
    if (loan.thread as usize) < threads.len() {
        is_loan(threads[loan.thread as usize].loans.as_slice(), loan)
    } else {
        false
    }
}

fn newest_of(thread: u32, now: &Thread) -> Option<Loan>
    ensures { result ≡ newest_of thread now.now }
{
    let loans = now.loans.as_slice();
    if now.lends && !loans.is_empty() {
        let older = loans.len() - 1;
        Some(Loan {
            thread,
            older: older as u64,
            opened: loans[older],
        })
    } else {
        None
    }
}

/// The loan that a thread lends on.
pub fn newest_loan(threads: &[Thread], thread: u32) -> Option<Loan>
    ensures { result ≡ newest_of thread (thread_at threads.now thread) }
{
    if (thread as usize) < threads.len() {
        newest_of(thread, &threads[thread as usize])
    } else {
        None
    }
}

/// Adds threads without loans, up to this one.
fn make_room(alloc: Global, threads: &mut Vec<Thread>, thread: u32) -> Result<(), Memory>
    ensures same { (t : ℕ) → thread_at threads.new.items t ≡ thread_at threads.old.items t }
    ensures room { OnOk result (thread < length threads.new.items) }
{
    while threads.len() <= thread as usize {
        threads.push(Thread {
            loans: Items::new(alloc),
            lends: false,
        })?;
    }
    Ok(())
}

fn push_loan(thread: &mut Thread, number: u32) -> Result<(), Memory>
    ensures ok { OnOk result (thread.new ≡ opened number thread.old) }
    ensures err { OnErr result (thread.new ≡ thread.old) }
{
    thread.loans.push(number)?;
    thread.lends = true;
    Ok(())
}

/// Opens a loan of a thread.
pub fn open_loan(
    alloc: Global,
    threads: &mut Vec<Thread>,
    thread: u32,
    number: u32,
) -> Result<(), Memory>
    ensures ok { OnOk result (HasTurned thread (opened number) threads.old.items threads.new.items) }
    ensures err { OnErr result ((t : ℕ) → thread_at threads.new.items t ≡ thread_at threads.old.items t) }
{
    make_room(alloc, threads, thread)?;
    push_loan(&mut threads[thread as usize], number)?;
    Ok(())
}

fn keep_first(loans: &mut Vec<u32>, count: usize)
    ensures { loans.new.items ≡ take count loans.old.items }
{
    loans.truncate(count);
}

fn shut_newest(thread: &mut Thread, n: u32)
    ensures { thread.new ≡ shut n thread.old }
{
    let left = thread.loans.len().saturating_sub(n as usize);
    keep_first(&mut thread.loans.items, left);
    thread.lends = thread.lends && n == 0;
}

/// Ends so many of the newest loans of a thread.
pub fn shut_loans(threads: &mut Vec<Thread>, thread: u32, n: u32)
    ensures { HasTurned thread (shut n) threads.old.items threads.new.items }
{
    if (thread as usize) < threads.len() {
        shut_newest(&mut threads[thread as usize], n);
    }
}

fn shut_every(thread: &mut Thread)
    ensures { thread.new ≡ idle }
{
    keep_first(&mut thread.loans.items, 0);
    thread.lends = false;
}

/// Ends all loans of a thread.
pub fn shut_all_loans(threads: &mut Vec<Thread>, thread: u32)
    ensures { HasTurned thread (λ t. idle) threads.old.items threads.new.items }
{
    if (thread as usize) < threads.len() {
        shut_every(&mut threads[thread as usize]);
    }
}
