//! The cases of each test, as a text of parts.

use crate::between::{put_ends, put_scenes, scene_files};
use crate::callbacks::callbacks;
use crate::edges::{outputs, put_no_commands, put_past_limit, put_without_module};
use crate::examples::examples;
use crate::files::{put_example_files, put_files};
use crate::fuels::put_fuels;
use crate::long::{put_all_calls, put_long_reports};
use crate::one_entry::{is_store, put_entries, store};
use crate::reports::{events_before, schedule_in};
use crate::threads::{EVENTS, put_crowd, put_race, twice};
use lx_example_texts::{
    atomic_cases, borrowed_cases, borrower_cases, c_file_cases, end_cases, failing_devices,
    faulty_cases, forged_images, generated_cases, guessed_addresses, image_call_cases,
    lent_slot_cases, limit_cases, many_cases, memory_cases, nested_cases, own_kernel_cases,
    packet_cases, plain_cases, principal_cases, prototype_cases, raced_pokes, replayed_cases,
    slot_cases, small_files, spared_cases, surface_cases, text_cases, thread_cases,
    worked_image_cases, wrapper_cases,
};
use std::test::Fail;

/// The cases of a test.
#[derive(Clone, Copy)]
pub enum Series {
    /// A table of worked cases, by its number.
    Table(u32),
    /// A table of examples, by its number.
    Example(u32),
    Callbacks,
    LongReports,
    AllCalls,
    Scenes,
    Ends,
    Fuels,
    Entries,
    Outputs,
    WithoutModule,
    PastLimit,
    NoCommands,
    ForgedImages,
    RacedPokes,
    GuessedAddresses,
    FailingDevices,
    Race,
    Crowd,
    /// Two threads that meet at the gate.
    Meeting,
    /// Two threads, of which the gate holds this one before its second call.
    Held(&'static str),
    /// A store that is made or refused, as the gate holds the other thread or its own.
    Store(bool),
}

/// The text of a table of cases, by its number.
fn cases(number: u32) -> &'static str {
    match number {
        0 => plain_cases(),
        1 => memory_cases(),
        2 => principal_cases(),
        3 => slot_cases(),
        4 => own_kernel_cases(),
        5 => replayed_cases(),
        6 => faulty_cases(),
        7 => c_file_cases(),
        8 => limit_cases(),
        9 => many_cases(),
        10 => packet_cases(),
        11 => end_cases(),
        12 => nested_cases(),
        13 => borrowed_cases(),
        14 => borrower_cases(),
        15 => thread_cases(),
        16 => atomic_cases(),
        17 => lent_slot_cases(),
        18 => worked_image_cases(),
        19 => wrapper_cases(),
        20 => image_call_cases(),
        21 => spared_cases(),
        22 => generated_cases(),
        23 => surface_cases(),
        24 => prototype_cases(),
        _ => text_cases(),
    }
}

pub const TABLES: u32 = 26;

/// What of a series is written out.
fn text_of(series: Series) -> &'static str {
    match series {
        Series::Table(number) => cases(number),
        Series::Example(number) => examples(number),
        Series::Callbacks => callbacks(),
        Series::Scenes | Series::Ends => scene_files(),
        Series::Fuels => small_files(),
        Series::Entries | Series::Store(_) => store(),
        Series::Outputs => outputs(),
        Series::ForgedImages => forged_images(),
        Series::RacedPokes => raced_pokes(),
        Series::GuessedAddresses => guessed_addresses(),
        Series::FailingDevices => failing_devices(),
        Series::Meeting | Series::Held(_) => twice(),
        _ => "",
    }
}

/// Puts what of a series is computed.
fn put_computed(text: &mut String, series: Series) -> Result<(), Fail> {
    match series {
        Series::LongReports => put_long_reports(text),
        Series::AllCalls => put_all_calls(text),
        Series::Scenes => put_scenes(text),
        Series::Ends => put_ends(text),
        Series::Fuels => put_fuels(text),
        Series::Entries => put_entries(text),
        Series::WithoutModule => put_without_module(text),
        Series::PastLimit => put_past_limit(text),
        Series::NoCommands => put_no_commands(text),
        Series::Race => put_race(text),
        Series::Crowd => put_crowd(text),
        _ => Ok(()),
    }
}

/// Puts the cases of a series behind the files that worked cases name, if it may have these.
pub fn put_series(text: &mut String, series: Series) -> Result<(), Fail> {
    if !matches!(series, Series::WithoutModule) {
        put_files(text)?;
    }
    if let Series::Example(_) = series {
        put_example_files(text)?;
    }
    text.push_str(text_of(series))?;
    put_computed(text, series)
}

/// How many cases are run, where they are computed.
pub fn count_of(series: Series) -> Option<u32> {
    match series {
        Series::Scenes => Some(70),
        Series::Ends => Some(16),
        Series::Fuels => Some(40),
        Series::Entries => Some(85),
        Series::NoCommands => Some(17),
        Series::ForgedImages | Series::RacedPokes => Some(4),
        Series::GuessedAddresses => Some(3),
        Series::FailingDevices => Some(9),
        Series::Race => Some(20),
        Series::Crowd => Some(3),
        _ => None,
    }
}

/// Whether the case of a series is run at a gate.
pub fn is_gated(series: Series) -> bool {
    matches!(series, Series::Meeting | Series::Held(_) | Series::Store(_))
}

/// Whether the second call of a thread stands behind the events of the other one but for its last.
fn is_behind(report: &str, thread: &str) -> bool {
    match events_before(schedule_in(report), thread, EVENTS) {
        Some(count) => count >= 2 * EVENTS - 1,
        None => false,
    }
}

/// Whether a run at a gate writes what is wanted.
pub fn is_told(report: &str, series: Series) -> bool {
    match series {
        Series::Meeting => report.starts_with("status 0\nschedule "),
        Series::Held(thread) => is_behind(report, thread),
        Series::Store(made) => is_store(report, made),
        _ => true,
    }
}
