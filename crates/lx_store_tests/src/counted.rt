//! What the counted calls look at. Contracts alone see the counter, so each bound stands in the contract of the function that
//! makes the call, and a test runs it and asks what the stores then answer.
ghost use Rattle.std.specs.Prelude.{◌≡◌, ◌≢◌, ◌+◌, ◌<◌, ◌≤◌, ◌∷◌, [], true, OnOk};
ghost use Rattle.lx_caps.specs.History.{History};
ghost use Rattle.lx_caps.specs.Loans.{lends};
ghost use Rattle.lx_caps.specs.Placed.{is_placed};
ghost use Rattle.lx_caps.specs.declared.Act.TheVariants.{Grant, Lend, Loan, Shut};
ghost use Rattle.lx_caps.specs.declared.Cap.TheVariants.{Write};
ghost use Rattle.lx_caps.specs.declared.Principal.TheVariants.{Kernel, Shared};
ghost use Rattle.lx_cap_tables.specs.Laws.{lent, three};
ghost use Rattle.lx_cap_tables.specs.Sound.{StandsFor};
ghost use Rattle.lx_writer_sets.specs.Laws.{granted};
ghost use Rattle.lx_writer_sets.specs.Stands.{StandsForWriters, spare_of};

use crate::ranges::are_ranges;
use lx_cap_tables::{CapTables, worked_bounds};
use lx_caps::{Cap, CapStore, Principal, Steps, cells};
use lx_words::Memory;
use lx_writer_sets::{WriterSets, writer_look_laws};
use std::alloc::Global;
use std::marker::Brand;
use std::process::Abort;
use std::sync::ledger::{Blank, Ledger};
use std::test::Fail;

const OWNER: Principal = Principal::Shared(0);

const BORROWER: Principal = Principal::Shared(1);

const OTHER: Principal = Principal::Shared(2);

const OWNERS: [Principal; 3] = [OWNER, BORROWER, OTHER];

fn grant(tables: &mut CapTables, to: Principal, at: u64, size: u64) -> Result<(), Memory>
    requires other { to ≢ Kernel }
    requires placed { is_placed (Write at size) ≡ true }
    ensures { OnOk result ((h : History) → StandsFor tables.old h → StandsFor tables.new (Grant to (Write at size) ∷ h)) }
{
    let cap = Cap::Write { at, size };
    tables.reserve(cells(cap))?;
    tables.grant(to, cap);
    Ok(())
}

/// Three principals are each granted the same 64 bytes.
fn grant_three(tables: &mut CapTables) -> Result<(), Memory>
    requires { StandsFor tables.old [] }
    ensures { OnOk result (StandsFor tables.new three) }
{
    grant(tables, OWNER, 0x2000000, 64)?;
    grant(tables, BORROWER, 0x2000000, 64)?;
    grant(tables, OTHER, 0x2000000, 64)?;
    Ok(())
}

/// Sixteen of these bytes are taken from everyone: four steps are enough.
fn take_from_three<L: Ledger>(tables: &mut CapTables, steps: &mut Steps<L>) -> Result<(), Memory>
    requires { StandsFor tables.old three }
    ensures { OnOk result (steps.new ≤ steps.old + 4) }
{
    worked_bounds();
    tables.reserve(1)?;
    let cap = Cap::Write {
        at: 0x2000010,
        size: 16,
    };
    tables.strip_counted(cap, steps);
    Ok(())
}

fn take_by<L: Ledger>(tables: &mut CapTables, blank: Blank) -> Result<(), Memory>
    requires name { blank.name ≡ L.name }
    requires parts { blank.parts ≡ L.parts }
    requires some { 0 < L.parts }
    requires stands { StandsFor tables.old three }
{
    let mut steps = Steps::<L>::new(blank);
    take_from_three(tables, &mut steps)?;
    Ok(())
}

fn take(tables: &mut CapTables) -> Result<(), Memory>
    requires { StandsFor tables.old three }
{
    take_by::<Brand>(tables, Blank::new(1))?;
    Ok(())
}

/// Whether these are the ranges that the principal owns.
fn owns(
    alloc: Global,
    tables: &CapTables,
    who: Principal,
    ranges: &[(u64, u64)],
) -> Result<bool, Memory> {
    let listed = tables.byte_ranges(alloc, who)?;
    let alike = are_ranges(&listed, ranges);
    Ok(alike)
}

/// What is left of the 64 bytes.
static LEFT: [(u64, u64); 2] = [(0x2000000, 16), (0x2000020, 32)];

fn assert_taken(rt: &impl Abort, alloc: Global, tables: &mut CapTables) -> Result<(), Fail>
    requires { StandsFor tables.old [] }
{
    grant_three(tables)?;
    take(tables)?;
    for who in OWNERS {
        assert!(rt; owns(alloc, tables, who, &LEFT)?, "{who:?}");
    }
    Ok(())
}

#[test]
fn a_strip_looks_at_three_owners_and_their_part(rt: HostRuntime) -> Result<(), Fail> {
    let alloc = rt.alloc();
    let mut tables = CapTables::new(alloc)?;
    let went = assert_taken(&rt, alloc, &mut tables);
    drop(tables);
    went
}

fn open_loan(tables: &mut CapTables) -> Result<(), Memory>
    ensures { OnOk result ((h : History) → StandsFor tables.old h → StandsFor tables.new (Loan 0 ∷ h)) }
{
    tables.reserve(1)?;
    tables.open_loan(0);
    Ok(())
}

fn lend(tables: &mut CapTables, at: u64, size: u64) -> Result<(), Memory>
    requires { is_placed (Write at size) ≡ true }
    ensures { OnOk result ((h : History) → StandsFor tables.old h → lends h 0 ≡ true → StandsFor tables.new (Lend 0 (Shared 1) (Write at size) ∷ h)) }
{
    let cap = Cap::Write { at, size };
    tables.reserve(cells(cap))?;
    tables.lend(0, BORROWER, cap);
    Ok(())
}

/// An owner of two parts lends eight bytes on a loan, and sixteen over the edge of the parts on a newer one.
fn lend_twice(tables: &mut CapTables) -> Result<(), Memory>
    requires { StandsFor tables.old [] }
    ensures { OnOk result (StandsFor tables.new lent) }
{
    grant(tables, OWNER, 0x2000000, 128)?;
    open_loan(tables)?;
    lend(tables, 0x2000000, 8)?;
    open_loan(tables)?;
    lend(tables, 0x2000038, 16)?;
    Ok(())
}

/// The newer loan ends: three steps are enough, for the loan and for two parts of its borrower.
fn end_newer<L: Ledger>(tables: &mut CapTables, steps: &mut Steps<L>) -> Result<(), Memory>
    requires { StandsFor tables.old lent }
    ensures looks { OnOk result (steps.new ≤ steps.old + 3) }
    ensures stands { OnOk result (StandsFor tables.new (Shut 0 1 ∷ lent)) }
{
    worked_bounds();
    tables.reserve(1)?;
    tables.shut_counted(0, 1, steps);
    Ok(())
}

/// The older loan ends: two steps are enough.
fn end_older<L: Ledger>(tables: &mut CapTables, steps: &mut Steps<L>) -> Result<(), Memory>
    requires { StandsFor tables.old (Shut 0 1 ∷ lent) }
    ensures { OnOk result (steps.new ≤ steps.old + 2) }
{
    worked_bounds();
    tables.reserve(1)?;
    tables.shut_counted(0, 1, steps);
    Ok(())
}

fn end_newer_by<L: Ledger>(tables: &mut CapTables, blank: Blank) -> Result<(), Memory>
    requires name { blank.name ≡ L.name }
    requires parts { blank.parts ≡ L.parts }
    requires some { 0 < L.parts }
    requires stands { StandsFor tables.old lent }
    ensures { OnOk result (StandsFor tables.new (Shut 0 1 ∷ lent)) }
{
    let mut steps = Steps::<L>::new(blank);
    end_newer(tables, &mut steps)?;
    Ok(())
}

fn end_older_by<L: Ledger>(tables: &mut CapTables, blank: Blank) -> Result<(), Memory>
    requires name { blank.name ≡ L.name }
    requires parts { blank.parts ≡ L.parts }
    requires some { 0 < L.parts }
    requires stands { StandsFor tables.old (Shut 0 1 ∷ lent) }
{
    let mut steps = Steps::<L>::new(blank);
    end_older(tables, &mut steps)?;
    Ok(())
}

/// What the borrower has on both loans, and on the older one.
static ON_BOTH: [(u64, u64); 2] = [(0x2000000, 8), (0x2000038, 16)];

static ON_THE_OLDER: [(u64, u64); 1] = [(0x2000000, 8)];

/// What the owner keeps.
static KEPT: [(u64, u64); 1] = [(0x2000000, 128)];

fn assert_ended(rt: &impl Abort, alloc: Global, tables: &mut CapTables) -> Result<(), Fail>
    requires { StandsFor tables.old [] }
{
    lend_twice(tables)?;
    assert!(rt; owns(alloc, tables, BORROWER, &ON_BOTH)?);
    end_newer_by::<Brand>(tables, Blank::new(1))?;
    assert!(rt; owns(alloc, tables, BORROWER, &ON_THE_OLDER)?);
    end_older_by::<Brand>(tables, Blank::new(1))?;
    assert!(rt; owns(alloc, tables, BORROWER, &[])?);
    assert!(rt; owns(alloc, tables, OWNER, &KEPT)?);
    Ok(())
}

#[test]
fn an_end_of_loans_looks_at_what_was_lent(rt: HostRuntime) -> Result<(), Fail> {
    let alloc = rt.alloc();
    let mut tables = CapTables::new(alloc)?;
    let went = assert_ended(&rt, alloc, &mut tables);
    drop(tables);
    went
}

fn note_eight(sets: &mut WriterSets) -> Result<(), Memory>
    requires { StandsForWriters sets.old [] }
    ensures { OnOk result (StandsForWriters sets.new granted) }
{
    let cap = Cap::Write {
        at: 0x2000000,
        size: 8,
    };
    sets.reserve(cells(cap))?;
    sets.note(OWNER, 0x2000000, 8);
    Ok(())
}

/// The part behind the one that was written: two steps are enough.
fn looks_at_the_next_part<L: Ledger>(sets: &WriterSets, steps: &mut Steps<L>) -> bool
    requires { StandsForWriters sets.now granted }
    ensures { steps.new ≤ steps.old + 2 }
{
    writer_look_laws();
    sets.is_clean_counted(0x2000040, steps)
}

/// Another slot of the part that was written: three steps are enough.
fn looks_at_the_same_part<L: Ledger>(sets: &WriterSets, steps: &mut Steps<L>) -> bool
    requires { StandsForWriters sets.now granted }
    ensures { steps.new ≤ steps.old + 3 }
{
    writer_look_laws();
    sets.is_clean_counted(0x2000038, steps)
}

/// A slot over the edge of that part: three steps are enough.
fn looks_over_the_edge<L: Ledger>(sets: &WriterSets, steps: &mut Steps<L>) -> bool
    requires { StandsForWriters sets.now granted }
    ensures { steps.new ≤ steps.old + 3 }
{
    writer_look_laws();
    sets.is_clean_counted(0x200003c, steps)
}

/// The slot that was written: three steps are enough.
fn looks_at_the_written_slot<L: Ledger>(sets: &WriterSets, steps: &mut Steps<L>) -> bool
    requires { StandsForWriters sets.now granted }
    ensures { steps.new ≤ steps.old + 3 }
{
    writer_look_laws();
    sets.is_clean_counted(0x2000000, steps)
}

/// Whether the first three are clean and the last one is not.
fn answers_by<L: Ledger>(sets: &WriterSets, blank: Blank) -> bool
    requires name { blank.name ≡ L.name }
    requires parts { blank.parts ≡ L.parts }
    requires some { 0 < L.parts }
    requires stands { StandsForWriters sets.now granted }
{
    let mut steps = Steps::<L>::new(blank);
    let next = looks_at_the_next_part(sets, &mut steps);
    let same = looks_at_the_same_part(sets, &mut steps);
    let over = looks_over_the_edge(sets, &mut steps);
    let written = looks_at_the_written_slot(sets, &mut steps);
    next && same && over && !written
}

fn assert_looked(rt: &impl Abort, sets: &mut WriterSets) -> Result<(), Fail>
    requires { StandsForWriters sets.old [] }
{
    note_eight(sets)?;
    assert!(rt; answers_by::<Brand>(sets, Blank::new(1)));
    Ok(())
}

#[test]
fn slots_near_a_writer_take_few_looks(rt: HostRuntime) -> Result<(), Fail> {
    let mut sets = WriterSets::new(rt.alloc());
    let went = assert_looked(&rt, &mut sets);
    drop(sets);
    went
}

/// A writer more of a slot that has one: one look is enough.
fn notes_another<L: Ledger>(sets: &mut WriterSets, steps: &mut Steps<L>)
    requires { 2 ≤ spare_of sets.old }
    ensures { steps.new ≤ steps.old + 1 }
{
    writer_look_laws();
    sets.note_counted(BORROWER, 0x2000000, 8, steps);
}

fn notes_by<L: Ledger>(sets: &mut WriterSets, blank: Blank)
    requires name { blank.name ≡ L.name }
    requires parts { blank.parts ≡ L.parts }
    requires some { 0 < L.parts }
    requires room { 2 ≤ spare_of sets.old }
{
    let mut steps = Steps::<L>::new(blank);
    notes_another(sets, &mut steps);
}

fn assert_noted(rt: &impl Abort, sets: &mut WriterSets) -> Result<(), Fail>
    requires { StandsForWriters sets.old [] }
{
    note_eight(sets)?;
    sets.reserve(2)?;
    notes_by::<Brand>(sets, Blank::new(1));
    assert!(rt; sets.is_writer(0x2000000, OWNER));
    assert!(rt; sets.is_writer(0x2000000, BORROWER));
    assert!(rt; !sets.is_writer(0x2000000, OTHER));
    assert!(rt; !sets.is_writer(0x2000040, BORROWER));
    Ok(())
}

#[test]
fn a_further_writer_takes_one_look(rt: HostRuntime) -> Result<(), Fail> {
    let mut sets = WriterSets::new(rt.alloc());
    let went = assert_noted(&rt, &mut sets);
    drop(sets);
    went
}
