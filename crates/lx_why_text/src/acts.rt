//! The lines of acts.

ghost use Rattle.std.specs.Prelude.{◌≡◌, ◌++◌, OnOk, flat_map};
ghost use Rattle.std.specs.List.{enumerate_from};
ghost use Rattle.lx_why_text.specs.Text.{act_line, act_line_of, act_opening, claim_text, lend_text, shut_text};

use lx_caps::{Act, Cap, Principal};
use lx_report::{Teller, put, put_cap, put_number, put_principal};
use lx_words::Memory;

/// A principal, and a capability that it gets or needs.
pub(crate) fn put_claim(
    out: &mut Vec<u8>,
    teller: &Teller,
    who: Principal,
    cap: Cap,
) -> Result<(), Memory>
    ensures { OnOk result (out.new.items ≡ out.old.items ++ claim_text teller.now.program.now teller.now.names who cap) }
{
    put_principal(out, teller, who)?;
    put(out, " ")?;
    put_cap(out, &teller.program.interface, cap)
}

/// The number of an act, and the word for what it does.
fn put_opening(out: &mut Vec<u8>, n: u64, word: &str) -> Result<(), Memory>
    ensures { OnOk result (out.new.items ≡ out.old.items ++ act_opening n word.now) }
{
    put(out, "act ")?;
    put_number(out, n)?;
    put(out, word)
}

fn put_lend(
    out: &mut Vec<u8>,
    teller: &Teller,
    thread: u32,
    who: Principal,
    cap: Cap,
) -> Result<(), Memory>
    ensures { OnOk result (out.new.items ≡ out.old.items ++ lend_text teller.now.program.now teller.now.names thread who cap) }
{
    put_number(out, u64::from(thread))?;
    put(out, " ")?;
    put_claim(out, teller, who, cap)
}

fn put_shut(out: &mut Vec<u8>, thread: u32, count: u32) -> Result<(), Memory>
    ensures { OnOk result (out.new.items ≡ out.old.items ++ shut_text thread count) }
{
    put_number(out, u64::from(thread))?;
    put(out, " ")?;
    put_number(out, u64::from(count))
}

/// The line of the act with this number, if it has one.
fn put_act(out: &mut Vec<u8>, teller: &Teller, n: u64, act: Act) -> Result<(), Memory>
    ensures { OnOk result (out.new.items ≡ out.old.items ++ act_line_of teller.now.program.now teller.now.names n act) }
{
    match act {
        Act::Grant(who, cap) => {
            put_opening(out, n, " grant ")?;
            put_claim(out, teller, who, cap)?;
            put(out, "\n")
        }
        Act::Strip(cap) => {
            put_opening(out, n, " strip ")?;
            put_cap(out, &teller.program.interface, cap)?;
            put(out, "\n")
        }
        Act::Zero { .. } => Ok(()),
        Act::Loan(thread) => {
            put_opening(out, n, " loan ")?;
            put_number(out, u64::from(thread))?;
            put(out, "\n")
        }
        Act::Lend(thread, who, cap) => {
            put_opening(out, n, " lend ")?;
            put_lend(out, teller, thread, who, cap)?;
            put(out, "\n")
        }
        Act::Shut(thread, count) => {
            put_opening(out, n, " shut ")?;
            put_shut(out, thread, count)?;
            put(out, "\n")
        }
        Act::ShutAll(thread) => {
            put_opening(out, n, " shutall ")?;
            put_number(out, u64::from(thread))?;
            put(out, "\n")
        }
    }
}

/// The lines of acts, with their numbers from 0.
pub(crate) fn put_acts(out: &mut Vec<u8>, teller: &Teller, acts: &[Act]) -> Result<(), Memory>
    ensures { OnOk result (out.new.items ≡ out.old.items ++ flat_map (act_line teller.now.program.now teller.now.names) (enumerate_from 0 acts.now)) }
{
    for (n, act) in acts.iter().enumerate() {
        put_act(out, teller, n as u64, *act)?;
    }
    Ok(())
}
