//! The first line of a report: the schedule.

ghost use Rattle.std.specs.Prelude.{◌≡◌, ◌++◌, ◌∷◌, ◌+◌, ◌-◌, ◌<◌, ◌≤◌, ◌^◌, List, ℕ, IfOk, OnOk, flat_map};
ghost use Rattle.lx_report.specs.Begun.{begun_count, closed, runs_from};
ghost use Rattle.lx_report.specs.Report.{run_text, schedule_line};
ghost use Rattle.lx_report.specs.Runs.{runs};

use crate::text::{put, put_number};
use lx_words::Memory;

/// A run of one thread that may go on.
#[derive(Clone, Copy)]
pub(crate) struct Begun {
    thread: u32,
    count: u64,
}

fn put_begun(out: &mut Vec<u8>, begun: Option<Begun>) -> Result<(), Memory>
    ensures { OnOk result (out.new.items ≡ out.old.items ++ flat_map run_text (closed begun)) }
{
    match begun {
        None => Ok(()),
        Some(run) => {
            put(out, " ")?;
            put_number(out, u64::from(run.thread))?;
            put(out, "*")?;
            put_number(out, run.count)
        }
    }
}

/// The run that has begun after a further event; one that the event ends is written.
fn add_event(out: &mut Vec<u8>, begun: Option<Begun>, thread: u32) -> Result<Option<Begun>, Memory>
    requires { begun_count begun < 2 ^ 64 - 1 }
    ensures counts { IfOk result (λ next. begun_count next ≤ begun_count begun + 1) }
    ensures texts { IfOk result (λ next. (rest : List ℕ) → out.new.items ++ flat_map run_text (runs_from next rest) ≡ out.old.items ++ flat_map run_text (runs_from begun (thread ∷ rest))) }
{
    match begun {
        None => Ok(Some(Begun { thread, count: 1 })),
        Some(run) => {
            if thread == run.thread {
                Ok(Some(Begun {
                    thread: run.thread,
                    count: run.count + 1,
                }))
            } else {
                put_begun(out, begun)?;
                Ok(Some(Begun { thread, count: 1 }))
            }
        }
    }
}

fn put_runs(out: &mut Vec<u8>, schedule: &[u32]) -> Result<(), Memory>
    ensures { OnOk result (out.new.items ≡ out.old.items ++ flat_map run_text (runs schedule.now)) }
{
    let mut begun = None;
    for thread in schedule {
        begun = add_event(out, begun, *thread)?;
    }
    put_begun(out, begun)
}

pub(crate) fn put_schedule(out: &mut Vec<u8>, schedule: &[u32]) -> Result<(), Memory>
    ensures { OnOk result (out.new.items ≡ out.old.items ++ schedule_line schedule.now) }
{
    put(out, "schedule")?;
    put_runs(out, schedule)?;
    put(out, "\n")
}
