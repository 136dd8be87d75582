//! Texts of cases, cut into parts by the marks `----`.

use crate::bench::{Bench, Output, run_at};
use crate::reports::schedule_in;
use lx_outside::{MemShelf, OpenGate};
use std::alloc::Global;
use std::sync::Wait;
use std::test::Fail;
use std::thread::Threads;

/// The words of a case that is run.
const RUN: &str = "run row.case";

/// The words of a case that is replayed.
const REPLAY: &str = "replay row.case row.schedule";

/// The first lines of each case that `calls` begins.
const HEAD: &str =
    "lxfi case 1\nkernel file kernel.ll\ninterface file loans.txt\nmodule m module.ll\n";

/// What begins a part.
const MARK: &str = "---- ";

fn set(text: &mut String, to: &str) -> Result<(), Fail> {
    text.clear();
    text.push_str(to)?;
    Ok(())
}

fn put_words(alloc: Global, words: &mut Vec<String>, text: &str) -> Result<(), Fail> {
    for word in text.split(' ') {
        words.push(String::from_str(alloc, word)?)?;
    }
    Ok(())
}

/// Notes the words of the next run, of which an empty text has none.
fn set_words(alloc: Global, bench: &mut Bench, text: &str) -> Result<(), Fail> {
    set(&mut bench.how, text)?;
    bench.words.clear();
    if text.is_empty() {
        return Ok(());
    }
    put_words(alloc, &mut bench.words, text)
}

fn put_file(alloc: Global, shelf: &mut MemShelf, name: &str, body: &str) -> Result<(), Fail> {
    shelf.put_file(alloc, name, body.as_bytes())?;
    Ok(())
}

fn put_case(
    alloc: Global,
    shelf: &mut MemShelf,
    case: &mut String,
    calls: &str,
) -> Result<(), Fail> {
    case.push_str(HEAD)?;
    case.push_str(calls)?;
    put_file(alloc, shelf, "row.case", case.as_str())
}

/// Puts the calls of a case behind the first lines of all.
fn put_calls(alloc: Global, shelf: &mut MemShelf, calls: &str) -> Result<(), Fail> {
    let mut case = String::new(alloc);
    let put = put_case(alloc, shelf, &mut case, calls);
    drop(case);
    put
}

/// Puts a schedule, under which the next case is replayed.
fn put_schedule(alloc: Global, bench: &mut Bench, schedule: &str) -> Result<(), Fail> {
    put_file(alloc, &mut bench.shelf, "row.schedule", schedule)?;
    set_words(alloc, bench, REPLAY)?;
    set(&mut bench.how, schedule)
}

/// Notes what takes the output; all else is why the next case is there.
fn put_note(bench: &mut Bench, head: &str) -> Result<(), Fail> {
    match head {
        "failing output" => bench.output = Output::Failing,
        "short output" => bench.output = Output::Short,
        _ => set(&mut bench.why, head)?,
    }
    Ok(())
}

/// Has a read of the next run fail, by its number, where the first is 0.
fn fail_read(bench: &mut Bench, number: &str) -> Result<(), Fail> {
    let ahead = match number {
        "0" => 0,
        "1" => 1,
        _ => 2,
    };
    let next = u32::try_from(bench.shelf.calls).unwrap_or(u32::MAX);
    bench.shelf.fails.push(next.saturating_add(ahead))?;
    Ok(())
}

/// Puts a file by its name, has a read fail, or notes the words of a command.
fn put_named(alloc: Global, bench: &mut Bench, head: &str, body: &str) -> Result<(), Fail> {
    if let Some(name) = head.strip_prefix("file ") {
        return put_file(alloc, &mut bench.shelf, name, body);
    }
    if let Some(number) = head.strip_prefix("failing read ") {
        return fail_read(bench, number);
    }
    match head.strip_prefix("words ") {
        Some(words) => set_words(alloc, bench, words),
        None => put_note(bench, head),
    }
}

/// Puts a file, a case, its schedule, its words, its output or what it may not write; all else is why the next case is there.
fn put_part(alloc: Global, bench: &mut Bench, head: &str, body: &str) -> Result<(), Fail> {
    match head {
        "case" => put_file(alloc, &mut bench.shelf, "row.case", body),
        "calls" => put_calls(alloc, &mut bench.shelf, body),
        "schedule" => put_schedule(alloc, bench, body),
        "without" => set(&mut bench.without, body),
        _ => put_named(alloc, bench, head, body),
    }
}

fn has_line(text: &str, line: &str) -> bool {
    for other in text.lines() {
        if other == line {
            return true;
        }
    }
    false
}

fn has_lines(text: &str, lines: &str) -> bool {
    for line in lines.lines() {
        if !has_line(text, line) {
            return false;
        }
    }
    true
}

fn lacks_lines(text: &str, lines: &str) -> bool {
    for line in lines.lines() {
        if text.contains(line) {
            return false;
        }
    }
    true
}

/// Whether the report is the wanted text, or has each of its lines and holds nothing that it may not.
fn is_wanted(bench: &Bench, whole: bool, wanted: &str) -> bool {
    let report = bench.report.as_str();
    if whole {
        report == wanted
    } else {
        has_lines(report, wanted) && lacks_lines(report, bench.without.as_str())
    }
}

fn put_wrong(
    wrong: &mut String,
    why: &str,
    how: &str,
    wanted: &str,
    report: &str,
) -> Result<(), Fail> {
    for piece in [why, "\n", how, "\nwanted\n", wanted, "written\n", report] {
        wrong.push_str(piece)?;
    }
    Ok(())
}

/// Notes that the last run did not write what is wanted.
fn note_wrong(bench: &mut Bench, wanted: &str) -> Result<(), Fail> {
    let (why, how) = (bench.why.as_str(), bench.how.as_str());
    let report = bench.report.as_str();
    put_wrong(&mut bench.wrong, why, how, wanted, report)
}

/// Runs the case that was put last; where it does not write what is wanted, that goes to what went wrong.
fn compare<R: Threads + Wait + Sync>(
    rt: &R,
    alloc: Global,
    bench: &mut Bench,
    whole: bool,
    wanted: &str,
) -> Result<(), Fail> {
    run_at(rt, alloc, bench, &OpenGate)?;
    bench.tried = bench.tried.saturating_add(1);
    if !is_wanted(bench, whole, wanted) {
        note_wrong(bench, wanted)?;
    }
    bench.without.clear();
    set_words(alloc, bench, RUN)
}

/// Whether a run came to a report.
fn is_reported(report: &str) -> bool {
    report.starts_with("status 0\n") || report.starts_with("status 1\n")
}

/// Runs the case that was put last, whose report goes to `first`, and replays it under the schedule that it printed.
fn replay_behind<R: Threads + Wait + Sync>(
    rt: &R,
    alloc: Global,
    bench: &mut Bench,
    first: &mut String,
) -> Result<(), Fail> {
    run_at(rt, alloc, bench, &OpenGate)?;
    first.push_str(bench.report.as_str())?;
    if !is_reported(first.as_str()) {
        return note_wrong(bench, "status 0 or 1\n");
    }
    put_schedule(alloc, bench, schedule_in(first.as_str()))?;
    compare(rt, alloc, bench, true, first.as_str())
}

/// Runs the case that was put last, whose replay under the schedule that it prints has to write the same, with the same status.
fn run_and_replay<R: Threads + Wait + Sync>(
    rt: &R,
    alloc: Global,
    bench: &mut Bench,
) -> Result<(), Fail> {
    let mut first = String::new(alloc);
    let replayed = replay_behind(rt, alloc, bench, &mut first);
    drop(first);
    replayed
}

/// Does what a part says: `file NAME`, `case`, `calls`, `schedule` or `without` puts its body, `words WORD ..` is the command,
/// `failing output` or `short output` is what it writes to, `failing read N` a read of the next run that fails, `lines` or `whole` runs the case, `run and replay` does so twice,
/// and all else is why the next case is there.
fn take_part<R: Threads + Wait + Sync>(
    rt: &R,
    alloc: Global,
    bench: &mut Bench,
    part: &str,
) -> Result<(), Fail> {
    let Some((head, body)) = part.split_once('\n') else {
        return Ok(());
    };
    match head {
        "lines" => compare(rt, alloc, bench, false, body),
        "whole" => compare(rt, alloc, bench, true, body),
        "run and replay" => run_and_replay(rt, alloc, bench),
        _ => put_part(alloc, bench, head, body),
    }
}

/// Does what each part of a text says.
pub fn take_parts<R: Threads + Wait + Sync>(
    rt: &R,
    alloc: Global,
    bench: &mut Bench,
    text: &str,
) -> Result<(), Fail> {
    set_words(alloc, bench, RUN)?;
    let mut rest = text;
    for _ in 0..text.len() {
        let Some((part, behind)) = rest.split_once(MARK) else {
            break;
        };
        take_part(rt, alloc, bench, part)?;
        rest = behind;
    }
    take_part(rt, alloc, bench, rest)
}
