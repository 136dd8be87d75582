//! Runs of bytes, one behind the other.
ghost use Rattle.std.specs.Prelude.{◌≡◌, ℕ, ◌<◌, ◌++◌, Bool, IfOk, OnOk};
ghost use Rattle.lx_cap_lists.specs.Runs.{write_of, AreRangesUpTo, IsFull};

use lx_caps::Cap;
use lx_words::Memory;

/// A range of bytes, up to its end.
#[derive(Clone, Copy)]
pub(crate) struct Span {
    pub(crate) from: u64,
    pub(crate) end: u64,
}

/// Adds a range to those that are done, if it has a byte.
pub(crate) fn put_span(done: &mut Vec<Cap>, span: Span) -> Result<(), Memory>
    ensures { OnOk result (done.new.items ≡ done.old.items ++ write_of span) }
{
    if span.from < span.end {
        done.push(Cap::Write {
            at: span.from,
            size: span.end - span.from,
        })?;
    }
    Ok(())
}

/// Adds a run of bytes behind the last range, or to it if they touch. Gives the range that is the last one then.
pub(crate) fn put_run(done: &mut Vec<Cap>, last: Span, run: Span) -> Result<Span, Memory>
    ensures { IfOk result (λ now. (p : ℕ → Bool) → run.from < run.end → IsFull p run → AreRangesUpTo p done.old.items last run.from
        → AreRangesUpTo p done.new.items now run.end) }
{
    if last.end == run.from {
        return Ok(Span {
            from: last.from,
            end: run.end,
        });
    }
    put_span(done, last)?;
    Ok(run)
}
