//! The texts that are run, one behind another over one shelf.

use crate::annotation_traces::annotation_traces_table;
use crate::c_traces::c_traces_table;
use crate::card_traces::card_traces_table;
use crate::driver_traces::driver_traces_table;
use crate::ends::ends;
use crate::first_traces::first_traces_table;
use crate::further_long_traces::further_long_traces_table;
use crate::lesson_traces::lesson_traces_table;
use crate::long_traces::long_traces_table;
use crate::machine_traces::machine_traces_table;
use crate::more_long_traces::more_long_traces_table;
use crate::need_traces::need_traces_table;
use crate::refusal_traces::refusal_traces_table;

/// How many texts there are.
pub const TEXTS: u32 = 13;

/// How many cases are in them: 53 traces of examples, and 21 that `ends` has.
pub const CASES: u32 = 74;

/// A text by its number, in the order of `examples/RUNS`: the schedule of a row may stand in an earlier one.
pub fn text(number: u32) -> &'static str {
    match number {
        0 => first_traces_table(),
        1 => c_traces_table(),
        2 => card_traces_table(),
        3 => driver_traces_table(),
        4 => annotation_traces_table(),
        5 => lesson_traces_table(),
        6 => machine_traces_table(),
        7 => refusal_traces_table(),
        8 => need_traces_table(),
        9 => long_traces_table(),
        10 => more_long_traces_table(),
        11 => further_long_traces_table(),
        _ => ends(),
    }
}
