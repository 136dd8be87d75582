//! The files that a shelf of worked cases and of traces has before any case is run.

use crate::checksum::checksum_text;
use crate::driver::driver_text;
use crate::example_files::example_files_table;
use crate::further_manual_files::further_manual_files_table;
use crate::kernel::{interface_text, kernel_text};
use crate::last_manual_files::last_manual_files_table;
use crate::manual_files::manual_files_table;
use crate::more_manual_files::more_manual_files_table;
use crate::nic::nic_text;
use crate::nic_after::nic_after_text;
use crate::nic_bent::nic_bent_text;
use crate::nic_past::nic_past_text;
use crate::ring::ring_text;

/// How many files `named_file` knows.
pub const NAMED_FILES: u32 = 14;

/// The name and the text of a file, by its number: the C files and what the driver among them stands on, the same by the names
/// that they have in `examples`, and the driver of a network card, as it is and with each of its bugs.
pub fn named_file(number: u32) -> (&'static str, &'static str) {
    match number {
        0 => ("ring.ll", ring_text()),
        1 => ("checksum.ll", checksum_text()),
        2 => ("driver.ll", driver_text()),
        3 => ("driver_kernel.ll", kernel_text()),
        4 => ("driver.txt", interface_text()),
        5 => ("examples/c/ring.ll", ring_text()),
        6 => ("examples/c/checksum.ll", checksum_text()),
        7 => ("examples/c/driver.ll", driver_text()),
        8 => ("examples/driver_kernel.ll", kernel_text()),
        9 => ("examples/driver.txt", interface_text()),
        10 => ("examples/nic.ll", nic_text()),
        11 => ("examples/nic_past.ll", nic_past_text()),
        12 => ("examples/nic_after.ll", nic_after_text()),
        _ => ("examples/nic_bent.ll", nic_bent_text()),
    }
}

/// How many tables of files `file_table` knows.
pub const FILE_TABLES: u32 = 5;

/// The other files of `examples`, as parts of a table, by its number.
pub fn file_table(number: u32) -> &'static str {
    match number {
        0 => example_files_table(),
        1 => manual_files_table(),
        2 => more_manual_files_table(),
        3 => further_manual_files_table(),
        _ => last_manual_files_table(),
    }
}
