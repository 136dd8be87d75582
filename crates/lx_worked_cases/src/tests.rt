//! Cases are run, and what they write and their status are compared.

use crate::examples::EXAMPLES;
use crate::series::{Series, TABLES};
use crate::trial::assert_cases;
use std::test::Fail;

#[test]
fn cases_write_what_is_wanted(rt: HostRuntime) -> Result<(), Fail> {
    for number in 0..TABLES {
        assert_cases(&rt, rt.alloc(), Series::Table(number))?;
    }
    Ok(())
}

#[test]
fn examples_write_what_stands_beside_them(rt: HostRuntime) -> Result<(), Fail> {
    for number in 0..EXAMPLES {
        assert_cases(&rt, rt.alloc(), Series::Example(number))?;
    }
    Ok(())
}

#[test]
fn callbacks_to_the_frame_limit(rt: HostRuntime) -> Result<(), Fail> {
    assert_cases(&rt, rt.alloc(), Series::Callbacks)
}

#[test]
fn long_reports(rt: HostRuntime) -> Result<(), Fail> {
    assert_cases(&rt, rt.alloc(), Series::LongReports)
}

#[test]
fn as_many_calls_as_a_case_may_have(rt: HostRuntime) -> Result<(), Fail> {
    assert_cases(&rt, rt.alloc(), Series::AllCalls)
}

#[test]
fn a_call_between_the_events_of_a_crossing(rt: HostRuntime) -> Result<(), Fail> {
    assert_cases(&rt, rt.alloc(), Series::Scenes)
}

#[test]
fn a_schedule_that_ends_inside_a_wrapper(rt: HostRuntime) -> Result<(), Fail> {
    assert_cases(&rt, rt.alloc(), Series::Ends)
}

#[test]
fn a_callback_at_every_fuel(rt: HostRuntime) -> Result<(), Fail> {
    assert_cases(&rt, rt.alloc(), Series::Fuels)
}

#[test]
fn a_store_is_one_entry_of_every_schedule(rt: HostRuntime) -> Result<(), Fail> {
    assert_cases(&rt, rt.alloc(), Series::Entries)
}

#[test]
fn an_output_that_fails_or_has_no_room(rt: HostRuntime) -> Result<(), Fail> {
    assert_cases(&rt, rt.alloc(), Series::Outputs)
}

#[test]
fn a_file_that_is_not_there(rt: HostRuntime) -> Result<(), Fail> {
    assert_cases(&rt, rt.alloc(), Series::WithoutModule)
}

#[test]
fn a_file_past_the_limit(rt: HostRuntime) -> Result<(), Fail> {
    assert_cases(&rt, rt.alloc(), Series::PastLimit)
}

#[test]
fn words_that_are_no_command(rt: HostRuntime) -> Result<(), Fail> {
    assert_cases(&rt, rt.alloc(), Series::NoCommands)
}

#[test]
fn forged_images(rt: HostRuntime) -> Result<(), Fail> {
    assert_cases(&rt, rt.alloc(), Series::ForgedImages)
}

#[test]
fn schedules_of_a_race(rt: HostRuntime) -> Result<(), Fail> {
    assert_cases(&rt, rt.alloc(), Series::RacedPokes)
}

#[test]
fn guessed_stack_addresses(rt: HostRuntime) -> Result<(), Fail> {
    assert_cases(&rt, rt.alloc(), Series::GuessedAddresses)
}

#[test]
fn devices_that_fail(rt: HostRuntime) -> Result<(), Fail> {
    assert_cases(&rt, rt.alloc(), Series::FailingDevices)
}

#[test]
fn a_race_replays_itself(rt: HostRuntime) -> Result<(), Fail> {
    assert_cases(&rt, rt.alloc(), Series::Race)
}

#[test]
fn a_crowd_replays_itself(rt: HostRuntime) -> Result<(), Fail> {
    assert_cases(&rt, rt.alloc(), Series::Crowd)
}
