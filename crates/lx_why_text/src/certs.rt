//! The lines of certificates.

ghost use Rattle.std.specs.Prelude.{◌≡◌, ◌++◌, OnOk, flat_map};
ghost use Rattle.lx_certificates.specs.Certificates.{address_of};
ghost use Rattle.lx_why_text.specs.Text.{allow_word, atom_text, cert_text, certified_line, part_text, span_text, strip_text};

use crate::Certified;
use crate::acts::put_claim;
use lx_caps::Atom;
use lx_certificates::{Cert, Part};
use lx_report::{Teller, put, put_address, put_number};
use lx_words::Memory;

fn put_span(out: &mut Vec<u8>, low: u64, size: u64) -> Result<(), Memory>
    ensures { OnOk result (out.new.items ≡ out.old.items ++ span_text low size) }
{
    put_address(out, low)?;
    put(out, "+")?;
    put_number(out, size)
}

/// Atoms, and the number of the act that gave them.
fn put_part(out: &mut Vec<u8>, part: Part) -> Result<(), Memory>
    ensures { OnOk result (out.new.items ≡ out.old.items ++ part_text part) }
{
    put(out, " ")?;
    put_span(out, part.low, part.size)?;
    put(out, "@")?;
    put_number(out, u64::from(part.act))
}

fn put_parts(out: &mut Vec<u8>, parts: &[Part]) -> Result<(), Memory>
    ensures { OnOk result (out.new.items ≡ out.old.items ++ flat_map part_text parts.now) }
{
    for part in parts {
        put_part(out, *part)?;
    }
    Ok(())
}

fn put_allow_word(out: &mut Vec<u8>, kept: bool) -> Result<(), Memory>
    ensures { OnOk result (out.new.items ≡ out.old.items ++ allow_word kept) }
{
    if kept {
        put(out, "keep ")
    } else {
        put(out, "allow ")
    }
}

fn address_of(atom: Atom) -> u64
    ensures { result ≡ address_of atom }
{
    match atom {
        Atom::Byte(at) | Atom::Call(at) | Atom::Ref(_, at) => at,
    }
}

fn put_atom(out: &mut Vec<u8>, atom: Atom) -> Result<(), Memory>
    ensures { OnOk result (out.new.items ≡ out.old.items ++ atom_text atom) }
{
    put(out, " atom ")?;
    put_address(out, address_of(atom))
}

/// The newest strip of an atom, if there is one.
fn put_strip(out: &mut Vec<u8>, strip: Option<u32>) -> Result<(), Memory>
    ensures { OnOk result (out.new.items ≡ out.old.items ++ strip_text strip) }
{
    match strip {
        None => put(out, " strip none"),
        Some(act) => {
            put(out, " strip ")?;
            put_number(out, u64::from(act))
        }
    }
}

/// What a certificate says.
fn put_cert(out: &mut Vec<u8>, teller: &Teller, cert: &Cert) -> Result<(), Memory>
    ensures { OnOk result (out.new.items ≡ out.old.items ++ cert_text teller.now.program.now teller.now.names cert.now) }
{
    match cert {
        Cert::Allow {
            who,
            cap,
            kept,
            parts,
        } => {
            put_allow_word(out, *kept)?;
            put_claim(out, teller, *who, *cap)?;
            put_parts(out, parts.as_slice())
        }
        Cert::Deny {
            who,
            cap,
            atom,
            strip,
        } => {
            put(out, "deny ")?;
            put_claim(out, teller, *who, *cap)?;
            put_atom(out, *atom)?;
            put_strip(out, *strip)
        }
        Cert::Borrowed {
            who,
            cap,
            atom,
            act,
        } => {
            put(out, "borrowed ")?;
            put_claim(out, teller, *who, *cap)?;
            put_atom(out, *atom)?;
            put(out, " loan ")?;
            put_number(out, u64::from(*act))
        }
    }
}

/// The line of a certificate, with the number and the thread of the event that had the need.
fn put_certified(out: &mut Vec<u8>, teller: &Teller, certified: &Certified) -> Result<(), Memory>
    ensures { OnOk result (out.new.items ≡ out.old.items ++ certified_line teller.now.program.now teller.now.names certified.now) }
{
    put_number(out, certified.event)?;
    put(out, " ")?;
    put_number(out, u64::from(certified.thread))?;
    put(out, " ")?;
    put_cert(out, teller, &certified.cert)?;
    put(out, "\n")
}

/// The lines of certificates, in their order.
pub(crate) fn put_certs(
    out: &mut Vec<u8>,
    teller: &Teller,
    certs: &[Certified],
) -> Result<(), Memory>
    ensures { OnOk result (out.new.items ≡ out.old.items ++ flat_map (certified_line teller.now.program.now teller.now.names) certs.now) }
{
    for certified in certs {
        put_certified(out, teller, certified)?;
    }
    Ok(())
}
