//! The lines of a report behind its first one.

ghost use Rattle.std.specs.Prelude.{◌≡◌, ◌++◌, ◌≤◌, OnOk, count_by, flat_map, length, nat_eq};
ghost use Rattle.std.specs.List.{enumerate_from};
ghost use Rattle.lx_report.specs.Report.{call_line_of, call_number_text, called_text, counts_text, image_line, note_line, owner_line};

use crate::names::{module_name, put_called, put_principal};
use crate::reply::{put_cap, put_outcome};
use crate::text::{put, put_bytes, put_number, put_signed};
use crate::told::Told;
use lx_model::account::{CallOutcome, ImageCount, Note, Owned};
use lx_model::program::Program;
use lx_words::{Memory, Width, Word};

/// How many of the calls are of the thread.
fn calls_of(calls: &[CallOutcome], thread: u32) -> usize
    ensures { result ≡ count_by (λ c. nat_eq c.thread thread) calls.now }
{
    calls.iter().filter(|call| call.thread == thread).count()
}

/// The thread of a call at its place among all calls, and the number of the call among the thread's own.
fn put_call_number(
    out: &mut Vec<u8>,
    calls: &[CallOutcome],
    k: usize,
    thread: u32,
) -> Result<(), Memory>
    requires { k ≤ length calls.now }
    ensures { OnOk result (out.new.items ≡ out.old.items ++ call_number_text calls.now k thread) }
{
    let (before, _) = calls.split_at(k);
    let number = calls_of(before, thread);
    put(out, "call ")?;
    put_number(out, u64::from(thread))?;
    put(out, ".")?;
    put_number(out, number as u64)
}

fn put_call(
    out: &mut Vec<u8>,
    told: &Told,
    calls: &[CallOutcome],
    k: usize,
    call: &CallOutcome,
) -> Result<(), Memory>
    requires { k ≤ length calls.now }
    ensures { OnOk result (out.new.items ≡ out.old.items ++ call_line_of told.now.teller.program.now calls.now told.now.teller.names (k, call.now)) }
{
    put_call_number(out, calls, k, call.thread)?;
    put(out, " ")?;
    put_called(out, told.teller.program, call.function)?;
    put(out, " ")?;
    put_outcome(out, told, call.function, call.outcome)?;
    put(out, "\n")
}

pub(crate) fn put_calls(out: &mut Vec<u8>, told: &Told, calls: &[CallOutcome]) -> Result<(), Memory>
    ensures { OnOk result (out.new.items ≡ out.old.items ++ flat_map (call_line_of told.now.teller.program.now calls.now told.now.teller.names) (enumerate_from 0 calls.now)) }
{
    for (k, call) in calls.iter().enumerate() {
        put_call(out, told, calls, k, call)?;
    }
    Ok(())
}

fn put_note(out: &mut Vec<u8>, note: &Note) -> Result<(), Memory>
    ensures { OnOk result (out.new.items ≡ out.old.items ++ note_line note.now) }
{
    put(out, "note ")?;
    put_number(out, u64::from(note.thread))?;
    put(out, " ")?;
    put_signed(
        out,
        Word {
            width: Width::W64,
            bits: note.value,
        },
    )?;
    put(out, "\n")
}

pub(crate) fn put_notes(out: &mut Vec<u8>, notes: &[Note]) -> Result<(), Memory>
    ensures { OnOk result (out.new.items ≡ out.old.items ++ flat_map note_line notes.now) }
{
    for note in notes {
        put_note(out, note)?;
    }
    Ok(())
}

fn put_counts(out: &mut Vec<u8>, image: &ImageCount) -> Result<(), Memory>
    ensures { OnOk result (out.new.items ≡ out.old.items ++ counts_text image.now) }
{
    put(out, " guards ")?;
    put_number(out, image.guards)?;
    put(out, " checks ")?;
    put_number(out, image.checks)?;
    put(out, " wrappers ")?;
    put_number(out, image.wrappers)
}

fn put_image(out: &mut Vec<u8>, p: &Program, m: usize, image: &ImageCount) -> Result<(), Memory>
    ensures { OnOk result (out.new.items ≡ out.old.items ++ image_line p.now (m, image.now)) }
{
    put(out, "image ")?;
    put_bytes(out, module_name(p, m))?;
    put_counts(out, image)?;
    put(out, "\n")
}

pub(crate) fn put_images(
    out: &mut Vec<u8>,
    p: &Program,
    images: &[ImageCount],
) -> Result<(), Memory>
    ensures { OnOk result (out.new.items ≡ out.old.items ++ flat_map (image_line p.now) (enumerate_from 0 images.now)) }
{
    for (m, image) in images.iter().enumerate() {
        put_image(out, p, m, image)?;
    }
    Ok(())
}

fn put_owner(out: &mut Vec<u8>, told: &Told, owned: &Owned) -> Result<(), Memory>
    ensures { OnOk result (out.new.items ≡ out.old.items ++ owner_line told.now.teller.program.now told.now.teller.names owned.now) }
{
    put(out, "owns ")?;
    put_principal(out, &told.teller, owned.who)?;
    put(out, " ")?;
    put_cap(out, &told.teller.program.interface, owned.cap)?;
    put(out, "\n")
}

pub(crate) fn put_owners(out: &mut Vec<u8>, told: &Told, owners: &[Owned]) -> Result<(), Memory>
    ensures { OnOk result (out.new.items ≡ out.old.items ++ flat_map (owner_line told.now.teller.program.now told.now.teller.names) owners.now) }
{
    for owned in owners {
        put_owner(out, told, owned)?;
    }
    Ok(())
}
