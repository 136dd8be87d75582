//! The text of a report: what a run did, one line a fact.
//!
//! ```text
//! // Of `examples/one.case`:
//! let text = report(alloc, &account, &program)?;
//! schedule 0*5
//! call 0.0 m:main returned 7
//! image m guards 1 checks 0 wrappers 0
//! owns m.shared write 0x1000000+4
//! owns m.shared call 0x10060
//! ```
#![tactic(auto)]

ghost use Rattle.std.specs.Prelude.{◌≡◌, ◌++◌, IfOk, OnOk};
ghost use Rattle.lx_report.specs.Lawful.{HasLawfulModules};
ghost use Rattle.lx_report.specs.Report.{report_text};
ghost use Rattle.lx_report.specs.Laws.{ReportLaws};
ghost use Rattle.lx_report.specs.Rows.{WorkedReports};

mod annotations;
mod given;
mod lines;
mod names;
mod reply;
mod schedule;
mod slots;
mod teller;
mod text;
mod told;

use crate::lines::{put_calls, put_images, put_notes, put_owners};
use crate::schedule::put_schedule;
use lx_model::account::Account;
use lx_model::program::Program;
use lx_words::{Memory, number_texts};
pub use names::{put_called, put_principal};
pub use reply::{put_cap, put_outcome};
use std::alloc::Global;
pub use teller::Teller;
pub use text::{put, put_address, put_bytes, put_number, put_signed};
pub use told::Told;

/// The parts of a report, one behind the other. It owns nothing, so that a want of memory has nothing to drop.
fn put_report(out: &mut Vec<u8>, told: &Told, a: &Account) -> Result<(), Memory>
    requires { told.now.teller.names ≡ a.now.names }
    ensures { OnOk result (out.new.items ≡ out.old.items ++ report_text told.now.teller.program.now a.now) }
{
    put_schedule(out, a.schedule.as_slice())?;
    put_calls(out, told, a.outcomes.as_slice())?;
    put_notes(out, a.notes.as_slice())?;
    put_images(out, told.teller.program, a.images.as_slice())?;
    put_owners(out, told, a.owners.as_slice())
}

/// The text of an account, over the tables of its program.
fn text_of(alloc: Global, told: &Told, a: &Account) -> Result<Vec<u8>, Memory>
    requires { told.now.teller.names ≡ a.now.names }
    ensures { IfOk result (λ text. text.items ≡ report_text told.now.teller.program.now a.now) }
{
    let mut out = Vec::new(alloc);
    match put_report(&mut out, told, a) {
        Ok(()) => Ok(out),
        Err(why) => {
            drop(out);
            Err(why)
        }
    }
}

/// The text of an account: the schedule, the calls, the notes, the images, and what each principal owns. A name
/// that the program lacks is empty. Want of memory is the only error.
pub fn report(alloc: Global, a: &Account, p: &Program) -> Result<Vec<u8>, Memory>
    requires { HasLawfulModules p.now }
    ensures { IfOk result (λ text. text.items ≡ report_text p.now a.now) }
{
    let told = Told::new(alloc, p, a.names.as_slice(), a.outcomes.as_slice())?;
    let text = text_of(alloc, &told, a);
    drop(told);
    text
}

/// Worked reports.
pub fn worked_reports()
    ensures { WorkedReports }
{}

/// What a report tells of its schedule.
pub fn report_laws()
    ensures { ReportLaws }
{
    number_texts()
}
