//! The text of certificates: the acts of a run by their numbers, and why each need was met or refused, one line each.
//!
//! [`why_text`] of a program with a module `m` tells an act as in the first line below, and certificates as in the others: what
//! need not be kept, what must be, what nobody in reach owns, and what is on loan alone.
//!
//! ```text
//! act 0 grant m.shared write 0x10000e0+24
//! 12 0 allow m.shared write 0x10000e0+8 0x10000e0+8@0
//! 20 3 keep m[0x2000000] write 0x2000000+32 0x2000000+24@4 0x2000018+8@11
//! 31 0 deny m.global ref device 0x1000020 atom 0x1000020 strip 6
//! 30 1 borrowed m[0x2000000] write 0x2000000+24 atom 0x2000010 loan 5
//! ```
#![tactic(auto)]

ghost use Rattle.std.specs.Prelude.{◌≡◌, ◌++◌, IfOk, OnOk};
ghost use Rattle.lx_why_text.specs.Rows.{WorkedCertificateTexts};
ghost use Rattle.lx_why_text.specs.Text.{why_text};

mod acts;
mod certs;

use crate::acts::put_acts;
use crate::certs::put_certs;
use lx_caps::Act;
use lx_certificates::Cert;
use lx_model::account::InstanceName;
use lx_model::program::Program;
use lx_report::Teller;
use lx_words::Memory;
use std::alloc::Global;

/// A certificate of a need of an event: the event's number from 0, its thread, and the certificate.
#[derive(Drop)]
pub struct Certified {
    pub event: u64,
    pub thread: u32,
    pub cert: Cert,
}

/// The lines, one behind the other. It owns nothing, so that a want of memory has nothing to drop.
fn put_lines(
    out: &mut Vec<u8>,
    teller: &Teller,
    acts: &[Act],
    certs: &[Certified],
) -> Result<(), Memory>
    ensures { OnOk result (out.new.items ≡ out.old.items ++ why_text teller.now.program.now teller.now.names acts.now certs.now) }
{
    put_acts(out, teller, acts)?;
    put_certs(out, teller, certs)
}

/// The text of acts and certificates, as this teller names principals.
fn text_of(
    alloc: Global,
    teller: &Teller,
    acts: &[Act],
    certs: &[Certified],
) -> Result<Vec<u8>, Memory>
    ensures { IfOk result (λ text. text.items ≡ why_text teller.now.program.now teller.now.names acts.now certs.now) }
{
    let mut out = Vec::new(alloc);
    match put_lines(&mut out, teller, acts, certs) {
        Ok(()) => Ok(out),
        Err(why) => {
            drop(out);
            Err(why)
        }
    }
}

/// The text of acts, numbered from 0 in their order, and behind them of certificates in theirs. Addresses are in
/// hexadecimal, and sizes, numbers and threads in decimal; an instance is told by its first name. An act that only zeroes
/// memory has a number and no line. Want of memory is the only error.
pub fn why_text(
    alloc: Global,
    program: &Program,
    names: &[InstanceName],
    acts: &[Act],
    certs: &[Certified],
) -> Result<Vec<u8>, Memory>
    ensures { IfOk result (λ text. text.items ≡ why_text program.now names.now acts.now certs.now) }
{
    let teller = Teller::new(alloc, program, names)?;
    let text = text_of(alloc, &teller, acts, certs);
    drop(teller);
    text
}

/// Worked texts of acts and certificates.
pub fn worked_certificate_texts()
    ensures { WorkedCertificateTexts }
{}
