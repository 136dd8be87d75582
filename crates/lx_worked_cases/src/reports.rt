//! What a report says of its schedule.

/// The schedule that a report prints.
pub fn schedule_in(report: &str) -> &str {
    match report.split_once("schedule ") {
        Some((_, rest)) => match rest.split_once('\n') {
            Some((schedule, _)) => schedule,
            None => rest,
        },
        None => "",
    }
}

/// How many entries a schedule has.
pub fn entries_in(schedule: &str) -> u32 {
    let mut entries = 0u32;
    for turn in schedule.split(' ') {
        if let Some((_, count)) = turn.split_once('*') {
            entries = entries.saturating_add(count.parse::<u32>().unwrap_or(0));
        }
    }
    entries
}

/// How many events of other threads stand before the event of a thread with this number, counted from 0.
pub fn events_before(schedule: &str, thread: &str, number: u32) -> Option<u32> {
    let mut own = 0u32;
    let mut others = 0u32;
    for turn in schedule.split(' ') {
        let (who, count) = turn.split_once('*')?;
        let Ok(count) = count.parse::<u32>() else {
            return None;
        };
        if who != thread {
            others = others.saturating_add(count);
            continue;
        }
        own = own.saturating_add(count);
        if own > number {
            return Some(others);
        }
    }
    None
}
