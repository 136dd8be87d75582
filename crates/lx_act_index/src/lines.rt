//! Lines: what acts said of a place, the newest first.
ghost use Rattle.std.specs.Prelude.{◌≡◌, ◌++◌, ◌<◌, ◌≤◌, ℕ, IfOk, OnOk};
ghost use Rattle.lx_caps.specs.History.{reaches};
ghost use Rattle.lx_caps.specs.Loans.{none_end};
ghost use Rattle.lx_certificates.specs.Givers.{by_grant, by_lend};
ghost use Rattle.lx_act_index.specs.Lines.{is_strip, left_mask, left_over, line_giver, line_strip, line_with, replaces, same_loan, says};
ghost use Rattle.lx_act_index.specs.Threads.{is_open};

use crate::runs::{said_at, said_until};
use crate::threads::{Loan, Thread, stands};
use lx_cap_lists::is_set;
use lx_caps::{Principal, is_same, reaches};
use lx_certificates::Gifts;
use lx_words::{Items, Memory};
use std::alloc::Global;

/// What an act says of an atom.
#[derive(Clone, Copy)]
pub enum Said {
    Grant(Principal),
    Lend(Loan, Principal),
    Strip,
}

/// What the act with a number says of a place, by a bit for each byte of a part. A call or a reference has the lowest bit.
#[derive(Clone, Copy)]
pub struct Entry {
    pub said: Said,
    pub act: u32,
    pub mask: u64,
}

/// The entries of a place, the newest first.
pub type Line = Items<Entry>;

/// Which acts are looked for, and by whom.
#[derive(Clone, Copy)]
pub struct Asked {
    pub gifts: Gifts,
    pub who: Principal,
}

fn by_grant(gifts: Gifts) -> bool
    ensures { result ≡ by_grant gifts }
{
    matches!(gifts, Gifts::Grants | Gifts::Both)
}

fn by_lend(gifts: Gifts) -> bool
    ensures { result ≡ by_lend gifts }
{
    matches!(gifts, Gifts::Lends | Gifts::Both)
}

fn is_strip(said: Said) -> bool
    ensures { result ≡ is_strip said }
{
    matches!(said, Said::Strip)
}

fn same_loan(one: Loan, other: Loan) -> bool
    ensures { result ≡ same_loan one other }
{
    one.thread == other.thread && one.older == other.older && one.opened == other.opened
}

/// Says whether what is said anew says all that an older entry does.
fn replaces(new: Said, old: Said) -> bool
    ensures { result ≡ replaces new old }
{
    match (new, old) {
        (Said::Strip, _) => true,
        (Said::Grant(to), Said::Grant(holder)) => is_same(to, holder),
        (Said::Lend(loan, to), Said::Lend(older, holder)) => {
            same_loan(loan, older) && is_same(to, holder)
        }
        _ => false,
    }
}

/// Says whether something is lent on a loan that has ended.
fn is_spent(threads: &[Thread], said: Said) -> bool
    ensures { result ≡ Rattle.lx_act_index.specs.Lines.is_spent (is_open none_end threads.now) said }
{
    match said {
        Said::Lend(loan, _) => !stands(threads, loan),
        _ => false,
    }
}

/// The bits that a newer entry leaves an older one.
fn left_mask(threads: &[Thread], new: Entry, old: Entry) -> u64
    ensures { result ≡ left_mask (is_open none_end threads.now) new old }
{
    if is_spent(threads, old.said) {
        0
    } else if replaces(new.said, old.said) {
        old.mask & !new.mask
    } else {
        old.mask
    }
}

fn push_left(line: &mut Line, threads: &[Thread], new: Entry, old: Entry) -> Result<(), Memory>
    ensures { OnOk result (line.new ≡ line.old ++ left_over (is_open none_end threads.now) new old) }
{
    let mask = left_mask(threads, new, old);
    if mask != 0 {
        line.push(Entry {
            said: old.said,
            act: old.act,
            mask,
        })?;
    }
    Ok(())
}

/// The line with an entry more, which takes from the others what it says anew.
pub fn line_with(
    alloc: Global,
    line: &[Entry],
    threads: &[Thread],
    new: Entry,
) -> Result<Line, Memory>
    ensures { IfOk result (λ now. now ≡ line_with (is_open none_end threads.now) new line.now) }
{
    let mut now = Items::new(alloc);
    now.push(new)?;
    for old in line {
        push_left(&mut now, threads, new, *old)?;
    }
    Ok(now)
}

fn says(threads: &[Thread], asked: Asked, said: Said) -> Option<bool>
    ensures { result ≡ says asked.gifts (reaches asked.who) (is_open none_end threads.now) said }
{
    match said {
        Said::Grant(to) => if by_grant(asked.gifts) && reaches(asked.who, to) {
            Some(true)
        } else {
            None
        },
        Said::Lend(loan, to) => if by_lend(asked.gifts)
            && reaches(asked.who, to)
            && stands(threads, loan)
        {
            Some(true)
        } else {
            None
        },
        Said::Strip => Some(false),
    }
}

/// Who gave the atoms of bits that are alike, and where they end.
#[derive(Clone, Copy)]
pub struct Run {
    pub giver: Option<u32>,
    pub end: u64,
}

/// The newest act that gave the atom of a bit, and still stands, and how far that is so.
pub fn line_run(line: &[Entry], threads: &[Thread], asked: Asked, bit: u64) -> Run
    requires { bit < 64 }
    ensures more { bit < result.end }
    ensures bound { result.end ≤ 64 }
    ensures alike { (k : ℕ) → bit ≤ k → k < result.end → line_giver asked.gifts (reaches asked.who) (is_open none_end threads.now) k line.now ≡ result.giver }
{
    let mut end = 64;
    for entry in line {
        let said = says(threads, asked, entry.said);
        end = said_until(said, entry.mask, bit, end);
        match said_at(said, entry.mask, bit) {
            Some(true) => return Run {
                giver: Some(entry.act),
                end,
            },
            Some(false) => return Run { giver: None, end },
            None => {}
        }
    }
    Run { giver: None, end }
}

fn strips(entry: Entry, bit: u64) -> bool
    requires { bit < 64 }
    ensures { result ≡ Rattle.lx_act_index.specs.Lines.strips bit entry }
{
    is_set(entry.mask, bit) && is_strip(entry.said)
}

/// The newest strip that has the atom of a bit.
pub fn line_strip(line: &[Entry], bit: u64) -> Option<u32>
    requires { bit < 64 }
    ensures { result ≡ line_strip bit line.now }
{
    for entry in line {
        if strips(*entry, bit) {
            return Some(entry.act);
        }
    }
    None
}
