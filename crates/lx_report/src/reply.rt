//! How a call ended, as text.

ghost use Rattle.std.specs.Prelude.{◌≡◌, ◌++◌, OnOk, codes};
ghost use Rattle.lx_annot.specs.Canonical.{Text};
ghost use Rattle.lx_report.specs.Report.{address_text, number_text, alias_text, call_text, cap_text, other_text, outcome_text, ref_text, refusal_text, refused, returned_text, slot_text, trap_text, value_text, write_text};

use crate::annotations::{put_function_annotation, put_slot_annotation};
use crate::names::{put_principal, reftype_name, result_type};
use crate::text::{put, put_address, put_bytes, put_number, put_signed};
use crate::told::Told;
use lx_annot::interface::Interface;
use lx_caps::{Cap, Principal};
use lx_ir::types::Scalar;
use lx_model::request::{Outcome, Refusal, Trap};
use lx_words::{Memory, Width, Word};

fn put_write(out: &mut Vec<u8>, at: u64, size: u64) -> Result<(), Memory>
    ensures { OnOk result (out.new.items ≡ out.old.items ++ write_text at size) }
{
    put(out, "write ")?;
    put_address(out, at)?;
    put(out, "+")?;
    put_number(out, size)
}

fn put_call(out: &mut Vec<u8>, at: u64) -> Result<(), Memory>
    ensures { OnOk result (out.new.items ≡ out.old.items ++ call_text at) }
{
    put(out, "call ")?;
    put_address(out, at)
}

fn put_ref(out: &mut Vec<u8>, i: &Interface, ty: u32, at: u64) -> Result<(), Memory>
    ensures { OnOk result (out.new.items ≡ out.old.items ++ ref_text i.now ty at) }
{
    put(out, "ref ")?;
    put_bytes(out, reftype_name(i, ty))?;
    put(out, " ")?;
    put_address(out, at)
}

/// Adds what a capability is told as: its kind, its reference type's name, its address and a range's size in bytes.
/// Want of memory is the only error.
pub fn put_cap(out: &mut Vec<u8>, i: &Interface, cap: Cap) -> Result<(), Memory>
    ensures { OnOk result (out.new.items ≡ out.old.items ++ cap_text i.now cap) }
{
    match cap {
        Cap::Write { at, size } => put_write(out, at, size),
        Cap::Call { at } => put_call(out, at),
        Cap::Ref { ty, at } => put_ref(out, i, ty, at),
    }
}

fn put_value(out: &mut Vec<u8>, ty: Option<Scalar>, word: Word) -> Result<(), Memory>
    ensures { OnOk result (out.new.items ≡ out.old.items ++ value_text ty word) }
{
    match ty {
        Some(Scalar::Ptr) => put_address(out, word.bits),
        Some(Scalar::Int(Width::W1)) => put_number(out, word.bits),
        _ => put_signed(out, word),
    }
}

fn put_returned(out: &mut Vec<u8>, ty: Option<Scalar>, value: Option<Word>) -> Result<(), Memory>
    ensures { OnOk result (out.new.items ≡ out.old.items ++ returned_text ty value) }
{
    match value {
        None => put(out, "returned"),
        Some(word) => {
            put(out, "returned ")?;
            put_value(out, ty, word)
        }
    }
}

/// A trap that has an address.
fn put_trap_at(out: &mut Vec<u8>, opening: &str, at: u64) -> Result<(), Memory>
    ensures { OnOk result (out.new.items ≡ out.old.items ++ opening.now ++ address_text at) }
{
    put(out, opening)?;
    put_address(out, at)
}

fn put_trap(out: &mut Vec<u8>, trap: Trap) -> Result<(), Memory>
    ensures { OnOk result (out.new.items ≡ out.old.items ++ trap_text trap) }
{
    match trap {
        Trap::Unmapped { at } => put_trap_at(out, "trap 1 ", at),
        Trap::Division => put(out, "trap 2"),
        Trap::Unreachable => put(out, "trap 3"),
        Trap::StackFull => put(out, "trap 4"),
        Trap::TooDeep => put(out, "trap 5"),
        Trap::Signature { at } => put_trap_at(out, "trap 6 ", at),
        Trap::NotLive { at } => put_trap_at(out, "trap 7 ", at),
    }
}

fn put_slot(out: &mut Vec<u8>, at: u64, slot: u64) -> Result<(), Memory>
    ensures { OnOk result (out.new.items ≡ out.old.items ++ slot_text at slot) }
{
    put_call(out, at)?;
    put(out, " slot ")?;
    put_address(out, slot)
}

fn put_alias(out: &mut Vec<u8>, known: u64, further: u64) -> Result<(), Memory>
    ensures { OnOk result (out.new.items ≡ out.old.items ++ alias_text known further) }
{
    put(out, "alias ")?;
    put_address(out, known)?;
    put(out, " ")?;
    put_address(out, further)
}

/// The function that a slot holds, and the two annotations.
fn put_other(
    out: &mut Vec<u8>,
    told: &Told,
    at: u64,
    slot: u32,
    function: u32,
) -> Result<(), Memory>
    ensures { OnOk result (out.new.items ≡ out.old.items ++ other_text told.now.teller.program.now at slot function) }
{
    put_call(out, at)?;
    put(out, ": ")?;
    put_slot_annotation(out, told, slot)?;
    put(out, " | ")?;
    put_function_annotation(out, told, function)
}

/// The number of a refusal, and the principal that it meets.
fn put_refused(out: &mut Vec<u8>, told: &Told, number: u64, who: Principal) -> Result<(), Memory>
    ensures { OnOk result (out.new.items ≡ out.old.items ++ refused told.now.teller.program.now told.now.teller.names number who) }
{
    put(out, "refused ")?;
    put_number(out, number)?;
    put(out, " ")?;
    put_principal(out, &told.teller, who)?;
    put(out, " ")
}

/// A refusal about a capability.
fn put_about(
    out: &mut Vec<u8>,
    told: &Told,
    number: u64,
    who: Principal,
    cap: Cap,
) -> Result<(), Memory>
    ensures { OnOk result (out.new.items ≡ out.old.items ++ refused told.now.teller.program.now told.now.teller.names number who ++ cap_text told.now.teller.program.now.interface cap) }
{
    put_refused(out, told, number, who)?;
    put_cap(out, &told.teller.program.interface, cap)
}

fn put_refusal(out: &mut Vec<u8>, told: &Told, refusal: Refusal) -> Result<(), Memory>
    ensures { OnOk result (out.new.items ≡ out.old.items ++ refusal_text told.now.teller.program.now told.now.teller.names refusal) }
{
    match refusal {
        Refusal::Write { who, at, size } => put_about(out, told, 1, who, Cap::Write { at, size }),
        Refusal::Call { who, at } => put_about(out, told, 2, who, Cap::Call { at }),
        Refusal::Ref { who, ty, at } => put_about(out, told, 3, who, Cap::Ref { ty, at }),
        Refusal::NotAnnotated { who, at } => put_about(out, told, 4, who, Cap::Call { at }),
        Refusal::OtherAnnotation {
            who,
            at,
            slot,
            function,
        } => {
            put_refused(out, told, 5, who)?;
            put_other(out, told, at, slot, function)
        }
        Refusal::Writer { who, at, slot } => {
            put_refused(out, told, 6, who)?;
            put_slot(out, at, slot)
        }
        Refusal::OnStack { who, at, size } => put_about(out, told, 7, who, Cap::Write { at, size }),
        Refusal::Outside { who, at, size } => put_about(out, told, 8, who, Cap::Write { at, size }),
        Refusal::Alias {
            who,
            known,
            further,
        } => {
            put_refused(out, told, 9, who)?;
            put_alias(out, known, further)
        }
        Refusal::Borrowed { who, cap } => put_about(out, told, 10, who, cap),
    }
}

/// Adds how a call of the function with this number ended. Want of memory is the only error.
pub fn put_outcome(
    out: &mut Vec<u8>,
    told: &Told,
    function: u32,
    outcome: Outcome,
) -> Result<(), Memory>
    ensures { OnOk result (out.new.items ≡ out.old.items ++ outcome_text told.now.teller.program.now told.now.teller.names function outcome) }
{
    match outcome {
        Outcome::Returned(value) => put_returned(
            out,
            result_type(told.teller.program, function),
            value,
        ),
        Outcome::Refused(refusal) => put_refusal(out, told, refusal),
        Outcome::Trapped(trap) => put_trap(out, trap),
        Outcome::Budget => put(out, "budget"),
    }
}
