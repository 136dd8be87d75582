// The ranges of bytes that a principal owns, by a list of acts, the oldest first.
ghost use Rattle.std.specs.Prelude.{◌≡◌, ℕ, ◌^◌, ◌<◌, ◌≤◌, false, nat_eq, reverse, suc, true, All, IfOk, IfSome};
ghost use Rattle.lx_caps.specs.declared.Atom.TheVariants.{Byte};
ghost use Rattle.lx_caps.specs.History.{owns};
ghost use Rattle.lx_caps.specs.NextByte.{IsFirstFrom, behind, byte_in, last_byte};
ghost use Rattle.lx_caps.specs.Placed.{is_placed_act};
ghost use Rattle.lx_caps.specs.Ranges.{AreByteRanges};

use crate::owned::next_in;
use crate::{Act, Atom, Cap, Principal};
use lx_words::Memory;
use std::alloc::Global;

fn last_byte(after: Option<u64>) -> Option<Atom>
    ensures { result ≡ last_byte after }
{
    match after {
        None => None,
        Some(byte) => Some(Atom::Byte(byte)),
    }
}

fn byte_in(atom: Option<Atom>) -> Option<u64>
    ensures { result ≡ byte_in atom }
{
    match atom {
        Some(Atom::Byte(byte)) => Some(byte),
        _ => None,
    }
}

/// The first owned byte behind the last one, if there is one.
#[tactic(auto, using(crate::proofs::OwnedByte::first_byte))]
fn next_byte(acts: &[Act], who: Principal, after: Option<u64>) -> Option<u64>
    requires { All (λ act. is_placed_act act ≡ true) acts.now }
    ensures first { IsFirstFrom (λ b. owns (reverse acts.now) who (Byte b)) (behind after) result }
    ensures small { IfSome result (λ n. n < 2 ^ 64) }
{
    let next = next_in(acts, who, last_byte(after));
    byte_in(next)
}

fn touches(last: u64, next: u64) -> bool
    ensures { result ≡ nat_eq next (suc last) }
{
    last.checked_add(1) == Some(next)
}

/// The last byte of the range of owned bytes that begins at an owned one.
fn range_end(acts: &[Act], who: Principal, at: u64) -> u64
    requires placed { All (λ act. is_placed_act act ≡ true) acts.now }
    requires owned { owns (reverse acts.now) who (Byte at) ≡ true }
    ensures order { at ≤ result }
    ensures small { result < 2 ^ 64 }
    ensures all { (m : ℕ) → at ≤ m → m < suc result → owns (reverse acts.now) who (Byte m) ≡ true }
    ensures end { owns (reverse acts.now) who (Byte (suc result)) ≡ false }
{
    let mut last = at;
    while let Some(next) = next_byte(acts, who, Some(last)) {
        if !touches(last, next) {
            return last;
        }
        last = next;
    }
    last
}

/// The greatest ranges of bytes that the principal owns, in order. The last byte of the address space lies in no memory, so
/// that no range is 2^64 bytes long.
pub(crate) fn byte_ranges_in(
    alloc: Global,
    acts: &[Act],
    who: Principal,
) -> Result<Vec<Cap>, Memory>
    requires { All (λ act. is_placed_act act ≡ true) acts.now }
    ensures { IfOk result (λ ranges. AreByteRanges (reverse acts.now) who ranges.items) }
{
    let mut ranges = Vec::new(alloc);
    let mut after = None;
    while let Some(at) = next_byte(acts, who, after) {
        let last = range_end(acts, who, at);
        let size = (last - at).saturating_add(1);
        ranges.push(Cap::Write { at, size })?;
        after = Some(last);
    }
    Ok(ranges)
}
