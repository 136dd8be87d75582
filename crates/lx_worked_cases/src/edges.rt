//! Runs that end at the program's edges: its output, its files and its words.

use crate::forms::put_row;
use crate::long::put_parts;
use lx_example_texts::ONE_CASE;
use std::test::Fail;

/// What is written of words that are no command.
pub const USAGE: &str =
    "usage: lxfi_run run CASE | replay CASE SCHEDULE | instrument CASE MODULE | check CASE MODULE IMAGE | generate N | why CASE SCHEDULE | surface CASE\n";

/// An output that fails, and one without room.
pub fn outputs() -> &'static str {
    "---- nothing is written
---- failing output
---- words run one.case
---- whole
status 5
---- ten bytes are written
---- short output
---- words run one.case
---- whole
status 5
schedule 0"
}

/// Puts a case whose module is not there.
pub fn put_without_module(text: &mut String) -> Result<(), Fail> {
    put_parts(
        text,
        &[
            ("---- file one.case\n", 0, 1),
            (ONE_CASE, 0, 1),
            ("---- words run one.case\n---- whole\nstatus 4\n", 0, 1),
            ("lxfi: cannot read one.ll\n", 0, 1),
        ],
    )
}

/// Puts a module with a byte more than a file may have.
pub fn put_past_limit(text: &mut String) -> Result<(), Fail> {
    put_parts(
        text,
        &[
            ("---- file one.ll\n", 0, 1),
            ("\n", 0, 1_048_577),
            ("---- words run one.case\n---- whole\nstatus 3\n", 0, 1),
            ("one.ll:1: limit 1 file\n", 0, 1),
        ],
    )
}

/// Words that are no command: none in the first row, and one without letters at the end of the ninth.
static NO_COMMANDS: [&str; 17] = [
    "",
    "run",
    "run --x",
    "generate",
    "generate 4097",
    "generate 18446744073709551617",
    "generate 007",
    "generate -1",
    "generate ",
    "generate 1 2",
    "run one.case one.case",
    "replay one.case",
    "replay one.case -",
    "why one.case",
    "surface",
    "surface --x",
    "surface one.case m",
];

pub fn put_no_commands(text: &mut String) -> Result<(), Fail> {
    for words in &NO_COMMANDS {
        put_row(text, "---- words <0>\n---- whole\nstatus 2\n", words)?;
        text.push_str(USAGE)?;
    }
    Ok(())
}
