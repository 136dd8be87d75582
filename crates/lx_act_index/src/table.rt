//! The lines of all places: those of the parts of memory, and behind them those of calls and references.
ghost use Rattle.std.specs.Prelude.{◌≡◌, ◌≢◌, None, ◌+◌, ◌-◌, ◌*◌, ◌/◌, ◌%◌, ◌^◌, ◌<◌, ◌≤◌, ℕ, ◌&&◌, nat_eq, nat_le, nat_lt, true, Some, [], length, IfOk, OnOk, OnErr, slice_set, replicate, slice_index_or};
ghost use Rattle.indexmap.specs.IndexSet.{spare};
ghost use Rattle.lx_caps.specs.declared.Atom.{Atom};
ghost use Rattle.lx_caps.specs.History.{has, reaches};
ghost use Rattle.lx_caps.specs.Loans.{none_end};
ghost use Rattle.lx_caps.specs.Placed.{is_placed};
ghost use Rattle.lx_caps.specs.Regions.{covers, mapped};
ghost use Rattle.lx_cap_lists.specs.Tables.{behind_parts, bit_of, place_in, place_of};
ghost use Rattle.lx_cap_nodes.specs.Pieces.{part_list};
ghost use Rattle.lx_act_index.specs.Lines.{line_giver, line_strip, line_with};
ghost use Rattle.lx_act_index.specs.Table.{AreFresh, ArePut, HasGrown, IsFresh, IsNoted, IsTable, NotedFrom, entry_of, line_at, line_of, shown};
ghost use Rattle.lx_act_index.specs.Threads.{is_open};

use crate::lines::{Asked, Entry, Line, Run, Said, line_run, line_strip, line_with};
use crate::threads::Thread;
use indexmap::IndexSet;
use lx_cap_lists::{
    Key, PART, call_key, list_of_part, parts_end, piece_bits, piece_of, place_for, place_in,
    ref_key,
};
use lx_caps::{Atom, Cap};
use lx_words::{Items, Memory};
use std::alloc::Global;

/// How many parts memory has.
const PARTS: u64 = 0xc000;

/// What the act with a number says.
#[derive(Clone, Copy)]
pub struct Saying {
    pub said: Said,
    pub act: u32,
}

/// Bytes from an address on.
#[derive(Clone, Copy)]
pub struct Range {
    pub at: u64,
    pub size: u64,
}

/// The lines of the parts of memory, and behind them those of the calls and references that have one.
#[derive(Drop)]
pub struct Table {
    pub alloc: Global,
    pub lines: Vec<Line>,
    // The calls and references that have a line.
    pub atoms: IndexSet<Key>,
}

/// A line without entries for each part of memory.
pub fn new_table(alloc: Global) -> Result<Table, Memory>
    ensures table { IfOk result IsTable }
    ensures lines { IfOk result (λ t. (l : ℕ) → line_at t.lines.items l ≡ []) }
    ensures atoms { IfOk result (λ t. t.atoms.keys ≡ []) }
{
    let mut lines = Vec::new(alloc);
    while (lines.len() as u64) < PARTS {
        lines.push(Items::new(alloc))?;
    }
    Ok(Table {
        alloc,
        lines,
        atoms: IndexSet::new(alloc),
    })
}

fn entry_of(saying: Saying, mask: u64) -> Entry
    ensures { result ≡ entry_of saying mask }
{
    Entry {
        said: saying.said,
        act: saying.act,
        mask,
    }
}

/// The line of a part with an entry more for its bytes of a range; none for a part outside of memory.
fn fresh_line(
    table: &Table,
    threads: &[Thread],
    saying: Saying,
    range: Range,
    part: u64,
) -> Result<Line, Memory>
    requires within { range.at + range.size + 63 < 2 ^ 64 }
    requires low { range.at / 64 ≤ part }
    requires high { part * 64 < range.at + range.size }
    requires some { 0 < range.size }
    requires table { IsTable table.now }
    ensures { IfOk result (IsFresh threads.now saying range table.now.lines.items part) }
{
    let bits = piece_bits(piece_of(range.at, range.size, part));
    match list_of_part(part) {
        Some(place) => {
            let line = line_with(
                table.alloc,
                table.lines[place as usize].as_slice(),
                threads,
                entry_of(saying, bits),
            )?;
            Ok(line)
        }
        None => Ok(Items::new(table.alloc)),
    }
}

/// The lines of the parts that a range lies in, with an entry more in each.
fn fresh_lines(
    table: &Table,
    threads: &[Thread],
    saying: Saying,
    range: Range,
) -> Result<Vec<Line>, Memory>
    requires placed { mapped range.at range.size ≡ true }
    requires some { 0 < range.size }
    requires table { IsTable table.now }
    ensures { IfOk result (λ fresh. AreFresh threads.now saying range table.now.lines.items fresh.items ((range.at + range.size + 63) / 64)) }
{
    let mut fresh = Vec::new(table.alloc);
    for part in range.at / PART..parts_end(range.at, range.size) {
        let line = fresh_line(table, threads, saying, range, part)?;
        fresh.push(line)?;
    }
    Ok(fresh)
}

fn put_line(lines: &mut Vec<Line>, part: u64, line: Line)
    requires { 0xc000 ≤ length lines.old.items }
    ensures put { (l : ℕ) → part_list part ≡ Some l → line_at lines.new.items l ≡ line }
    ensures others { (l : ℕ) → part_list part ≢ Some l → line_at lines.new.items l ≡ line_at lines.old.items l }
    ensures count { length lines.new.items ≡ length lines.old.items }
{
    if let Some(place) = list_of_part(part) {
        lines[place as usize] = line;
    }
}

/// Puts fresh lines in the places of the parts from one on.
fn put_lines(lines: &mut Vec<Line>, fresh: Vec<Line>, first: u64)
    requires count { 0xc000 ≤ length lines.old.items }
    requires small { first + length fresh.items < 2 ^ 64 }
    ensures { ArePut first 0 fresh.items lines.old.items lines.new.items }
{
    let mut fresh = fresh;
    while let Some(line) = fresh.pop() {
        put_line(lines, first + fresh.len() as u64, line);
    }
}

/// Notes what an act says of the bytes of a range.
fn say_range(
    table: &mut Table,
    threads: &[Thread],
    saying: Saying,
    range: Range,
) -> Result<(), Memory>
    requires placed { mapped range.at range.size ≡ true }
    requires some { 0 < range.size }
    requires table { IsTable table.old }
    ensures table { IsTable table.new }
    ensures atoms { table.new.atoms.keys ≡ table.old.atoms.keys }
    ensures bytes { OnOk result ((b l : ℕ) → part_list (b / 64) ≡ Some l →
        IsNoted threads.now saying (covers range.at range.size b) (b % 64) (line_at table.old.lines.items l) (line_at table.new.lines.items l)) }
    ensures others { (l : ℕ) → 0xc000 ≤ l → line_at table.new.lines.items l ≡ line_at table.old.lines.items l }
    ensures err { OnErr result (table.new.lines.items ≡ table.old.lines.items) }
{
    let fresh = fresh_lines(table, threads, saying, range)?;
    put_lines(&mut table.lines, fresh, range.at / PART);
    Ok(())
}

fn push_place(table: &mut Table, key: Key) -> Result<u64, Memory>
    requires table { IsTable table.old }
    requires room { 0 < spare table.old.atoms }
    requires fresh { place_in table.old.atoms.keys key ≡ None }
    ensures grown { HasGrown table.old table.new }
    ensures place { IfOk result (λ l. behind_parts (place_in table.new.atoms.keys key) ≡ Some l) }
{
    table.lines.push(Items::new(table.alloc))?;
    let place = place_for(&mut table.atoms, key);
    Ok(PARTS + place)
}

/// The place of a call or a reference, which gets an empty line where it has none.
fn place_of_key(table: &mut Table, key: Key) -> Result<u64, Memory>
    requires table { IsTable table.old }
    ensures grown { HasGrown table.old table.new }
    ensures place { IfOk result (λ l. behind_parts (place_in table.new.atoms.keys key) ≡ Some l) }
{
    table.atoms.reserve(1)?;
    match place_in(&table.atoms, key) {
        Some(place) => Ok(PARTS + place),
        None => {
            let place = push_place(table, key)?;
            Ok(place)
        }
    }
}

/// Notes what an act says at a place of one atom.
fn say_at(table: &mut Table, threads: &[Thread], saying: Saying, place: u64) -> Result<(), Memory>
    requires { place < length table.old.lines.items }
    ensures ok { OnOk result (table.new.lines.items ≡ slice_set table.old.lines.items place (line_with (is_open none_end threads.now) (entry_of saying 1) (line_at table.old.lines.items place))) }
    ensures err { OnErr result (table.new.lines.items ≡ table.old.lines.items) }
    ensures atoms { table.new.atoms ≡ table.old.atoms }
{
    let line = line_with(
        table.alloc,
        table.lines[place as usize].as_slice(),
        threads,
        entry_of(saying, 1),
    )?;
    table.lines[place as usize] = line;
    Ok(())
}

/// Notes what an act says of a call or a reference.
fn say_key(table: &mut Table, threads: &[Thread], saying: Saying, key: Key) -> Result<(), Memory>
    requires table { IsTable table.old }
    ensures table { IsTable table.new }
    ensures ok { OnOk result (NotedFrom threads.now saying key table.old table.new) }
    ensures err { OnErr result ((x : Atom) → line_of table.new x ≡ line_of table.old x) }
{
    let place = place_of_key(table, key)?;
    say_at(table, threads, saying, place)?;
    Ok(())
}

/// Notes what an act says of the atoms of a capability.
pub fn say(table: &mut Table, threads: &[Thread], saying: Saying, cap: Cap) -> Result<(), Memory>
    requires placed { is_placed cap ≡ true }
    requires table { IsTable table.old }
    ensures table { IsTable table.new }
    ensures ok { OnOk result ((x : Atom) → IsNoted threads.now saying (has cap x) (bit_of x) (line_of table.old x) (line_of table.new x)) }
    ensures err { OnErr result ((x : Atom) → line_of table.new x ≡ line_of table.old x) }
{
    match cap {
        Cap::Write { at, size } => {
            if size > 0 {
                say_range(table, threads, saying, Range { at, size })?;
            }
            Ok(())
        }
        Cap::Call { at } => {
            say_key(table, threads, saying, call_key(at))?;
            Ok(())
        }
        Cap::Ref { ty, at } => {
            say_key(table, threads, saying, ref_key(ty, at))?;
            Ok(())
        }
    }
}

fn key_place(table: &Table, key: Key) -> Option<u64>
    requires { IsTable table.now }
    ensures { result ≡ behind_parts (place_in table.now.atoms.keys key) }
{
    match place_in(&table.atoms, key) {
        Some(place) => Some(PARTS + place),
        None => None,
    }
}

/// The place of an atom, if it has one.
pub fn place_of(table: &Table, atom: Atom) -> Option<u64>
    requires { IsTable table.now }
    ensures { result ≡ place_of table.now.atoms.keys atom }
{
    match atom {
        Atom::Byte(at) => list_of_part(at / PART),
        Atom::Call(at) => key_place(table, call_key(at)),
        Atom::Ref(ty, at) => key_place(table, ref_key(ty, at)),
    }
}

/// The bit of an atom in the masks of its place.
pub fn bit_of(atom: Atom) -> u64
    ensures is { result ≡ bit_of atom }
    ensures below { result < 64 }
{
    match atom {
        Atom::Byte(at) => at % PART,
        Atom::Call(_) | Atom::Ref(..) => 0,
    }
}

fn line_in(table: &Table, place: u64) -> &[Entry]
    requires { place < length table.now.lines.items }
    ensures { result.now ≡ line_at table.now.lines.items place }
{
    table.lines[place as usize].as_slice()
}

/// The newest act that gave the atom, and still stands, and how many atoms of its part from it on are so, itself with them.
pub fn run_in(table: &Table, threads: &[Thread], asked: Asked, atom: Atom) -> Run
    requires { IsTable table.now }
    ensures some { 0 < result.end }
    ensures within { bit_of atom + result.end ≤ 64 }
    ensures alike { (k : ℕ) → k < result.end → line_giver asked.gifts (reaches asked.who) (is_open none_end threads.now) (bit_of atom + k) (line_of table.now atom) ≡ result.giver }
{
    let bit = bit_of(atom);
    match place_of(table, atom) {
        Some(place) => {
            let run = line_run(line_in(table, place), threads, asked, bit);
            Run {
                giver: run.giver,
                end: run.end - bit,
            }
        }
        None => Run {
            giver: None,
            end: PART - bit,
        },
    }
}

/// The newest strip that has the atom.
pub fn strip_in(table: &Table, atom: Atom) -> Option<u32>
    requires { IsTable table.now }
    ensures { result ≡ line_strip (bit_of atom) (line_of table.now atom) }
{
    match place_of(table, atom) {
        Some(place) => line_strip(line_in(table, place), bit_of(atom)),
        None => None,
    }
}
