//! Texts of cases, cut into parts by the marks `----`.

use crate::bench::{Bench, run};
use std::alloc::Global;
use std::sync::Wait;
use std::test::Fail;
use std::thread::Threads;

/// What begins a part.
const MARK: &str = "---- ";

fn set(text: &mut String, to: &str) -> Result<(), Fail> {
    text.clear();
    text.push_str(to)?;
    Ok(())
}

/// Notes the words of the next run.
fn set_words(alloc: Global, words: &mut Vec<String>, text: &str) -> Result<(), Fail> {
    words.clear();
    for word in text.split(' ') {
        words.push(String::from_str(alloc, word)?)?;
    }
    Ok(())
}

/// Puts a file by its name, or notes words; all else is why the next case is there.
fn put_named(alloc: Global, bench: &mut Bench, head: &str, body: &str) -> Result<(), Fail> {
    if let Some(name) = head.strip_prefix("file ") {
        bench.shelf.put_file(alloc, name, body.as_bytes())?;
        return Ok(());
    }
    match head.strip_prefix("words ") {
        Some(words) => set_words(alloc, &mut bench.words, words),
        None => set(&mut bench.why, head),
    }
}

fn put_wrong(wrong: &mut String, why: &str, wanted: &str, written: &str) -> Result<(), Fail> {
    for piece in [why, "\nwanted\n", wanted, "written\n", written] {
        wrong.push_str(piece)?;
    }
    Ok(())
}

/// Runs the case that was put last; where it does not write what is wanted, that goes to what went wrong.
fn compare<R: Threads + Wait + Sync>(rt: &R, alloc: Global, bench: &mut Bench) -> Result<(), Fail> {
    run(rt, alloc, bench)?;
    bench.tried = bench.tried.saturating_add(1);
    bench.is_short = false;
    let (wanted, written) = (bench.wanted.as_str(), bench.written.as_str());
    if written != wanted {
        put_wrong(&mut bench.wrong, bench.why.as_str(), wanted, written)?;
    }
    bench.wanted.clear();
    Ok(())
}

/// Runs the case that was put last, which has to write this text behind what was said before.
fn compare_whole<R: Threads + Wait + Sync>(
    rt: &R,
    alloc: Global,
    bench: &mut Bench,
    ending: &str,
) -> Result<(), Fail> {
    bench.wanted.push_str(ending)?;
    compare(rt, alloc, bench)
}

/// Notes that the next run has no words.
fn set_no_words(bench: &mut Bench) -> Result<(), Fail> {
    bench.words.clear();
    set(&mut bench.why, "no words")
}

/// Does what a part says: `file NAME` puts its body, `words WORD ..` or `no words` is the command, `short output` is what it writes to, `whole`
/// runs the case, which has to write the body behind those of `further` before, and all else is why the next case is there.
fn take_part<R: Threads + Wait + Sync>(
    rt: &R,
    alloc: Global,
    bench: &mut Bench,
    part: &str,
) -> Result<(), Fail> {
    let Some((head, body)) = part.split_once('\n') else {
        return Ok(());
    };
    match head {
        "whole" => return compare_whole(rt, alloc, bench, body),
        "further" => bench.wanted.push_str(body)?,
        "short output" => bench.is_short = true,
        "no words" => set_no_words(bench)?,
        _ => put_named(alloc, bench, head, body)?,
    }
    Ok(())
}

/// Does what each part of a text says.
pub fn take_parts<R: Threads + Wait + Sync>(
    rt: &R,
    alloc: Global,
    bench: &mut Bench,
    text: &str,
) -> Result<(), Fail> {
    let mut rest = text;
    for _ in 0..text.len() {
        let Some((part, behind)) = rest.split_once(MARK) else {
            break;
        };
        take_part(rt, alloc, bench, part)?;
        rest = behind;
    }
    take_part(rt, alloc, bench, rest)
}
