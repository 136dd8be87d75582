//! Texts that worked cases and traces run over: those of `examples/` and of the manual, modules of C files as clang printed them, and small ones;
//! and the cases as tables, which `lx_worked_cases` cuts by the lines that begin with `----`. A file of `examples/` stands once: in a table of files
//! (`file_table`), or in a function of its own (`named_file`).
//!
//! ```text
//! ---- file examples/one.case
//! lxfi case 1
//! ..
//! ---- words run examples/one.case
//! ---- run examples/one.case
//! ---- whole
//! status 0
//! schedule 0*5
//! call 0.0 m:main returned 7
//! ..
//! ```
//!
//! `tools/example-texts` writes those of `examples/` and of the manual.
#![tactic(auto)]

mod annotation_cases;
mod c_cases;
mod c_files;
mod card_cases;
mod checksum;
mod driver;
mod driver_cases;
mod example_files;
mod files;
mod first_cases;
mod further_manual_files;
mod generated;
mod hostile;
mod image_calls;
mod image_cases;
mod image_spared;
mod image_wrappers;
mod images;
mod input_faults;
mod kernel;
mod last_manual_files;
mod lesson_cases;
mod limits;
mod loan_cases;
mod loan_users;
mod loans;
mod machine_cases;
mod manual_files;
mod many;
mod module_faults;
mod more_manual_files;
mod more_refused;
mod nic;
mod nic_after;
mod nic_bent;
mod nic_past;
mod over_kernels;
mod plain;
mod prototypes;
mod refusal_cases;
mod refused;
mod replayed;
mod ring;
mod shelf;
mod surfaces;
mod text_faults;
mod why_cases;
mod word_cases;

pub use annotation_cases::annotation_cases_table;
pub use c_cases::c_cases_table;
pub use c_files::c_file_cases;
pub use card_cases::card_cases_table;
pub use checksum::checksum_text;
pub use driver::driver_text;
pub use driver_cases::driver_cases_table;
pub use files::{ONE_CASE, small_files};
pub use first_cases::first_cases_table;
pub use generated::generated_cases;
pub use hostile::{failing_devices, forged_images, guessed_addresses, raced_pokes};
pub use image_calls::image_call_cases;
pub use image_cases::image_cases_table;
pub use image_spared::spared_cases;
pub use image_wrappers::wrapper_cases;
pub use images::worked_image_cases;
pub use input_faults::input_faults_table;
pub use kernel::{interface_text, kernel_text};
pub use lesson_cases::lesson_cases_table;
pub use limits::limit_cases;
pub use loan_cases::loan_cases_table;
pub use loan_users::{
    atomic_cases, borrowed_cases, borrower_cases, lent_slot_cases, text_cases, thread_cases,
};
pub use loans::{end_cases, loan_files, nested_cases, packet_cases};
pub use machine_cases::machine_cases_table;
pub use many::{many_cases, many_files};
pub use module_faults::module_faults_table;
pub use more_refused::more_refused_table;
pub use nic::nic_text;
pub use nic_after::nic_after_text;
pub use nic_bent::nic_bent_text;
pub use nic_past::nic_past_text;
pub use over_kernels::{memory_cases, own_kernel_cases, principal_cases, slot_cases};
pub use plain::{faulty_cases, plain_cases};
pub use prototypes::prototype_cases;
pub use refusal_cases::refusal_cases_table;
pub use refused::refused_table;
pub use replayed::replayed_cases;
pub use ring::ring_text;
pub use shelf::{FILE_TABLES, NAMED_FILES, file_table, named_file};
pub use surfaces::surface_cases;
pub use text_faults::text_faults_table;
pub use why_cases::why_cases_table;
pub use word_cases::word_cases_table;
