//! The examples and the rows of the manual: what is run, over which files, and what it writes, byte for byte. The texts are those of
//! `examples/` and `docs/MANUAL.md`, which `tools/example-texts` copies.

use lx_example_texts::{
    annotation_cases_table, c_cases_table, card_cases_table, driver_cases_table, first_cases_table,
    image_cases_table, input_faults_table, lesson_cases_table, loan_cases_table,
    machine_cases_table, module_faults_table, more_refused_table, refusal_cases_table,
    refused_table, text_faults_table, why_cases_table, word_cases_table,
};

/// How many tables of examples there are.
pub const EXAMPLES: u32 = 17;

/// The text of a table of examples, by its number.
pub fn examples(number: u32) -> &'static str {
    match number {
        0 => first_cases_table(),
        1 => c_cases_table(),
        2 => card_cases_table(),
        3 => annotation_cases_table(),
        4 => loan_cases_table(),
        5 => machine_cases_table(),
        6 => refusal_cases_table(),
        7 => image_cases_table(),
        8 => word_cases_table(),
        9 => text_faults_table(),
        10 => module_faults_table(),
        11 => input_faults_table(),
        12 => refused_table(),
        13 => more_refused_table(),
        14 => why_cases_table(),
        15 => lesson_cases_table(),
        _ => driver_cases_table(),
    }
}
