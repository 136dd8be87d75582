//! A walk through parts in order.
ghost use Rattle.std.specs.Prelude.{◌≡◌, ℕ, ◌+◌, ◌*◌, ◌^◌, ◌<◌, ◌∷◌, Bool, List, IfOk};
ghost use Rattle.std.specs.List.{All};
ghost use Rattle.std.specs.List.Sorted.{IsNonDecreasingBy};
ghost use Rattle.lx_caps.specs.Ranges.{IsRanges};
ghost use Rattle.lx_cap_lists.specs.declared.PartBytes.{PartBytes};
ghost use Rattle.lx_cap_lists.specs.Parts.{is_among, IsPartOf};
ghost use Rattle.lx_cap_lists.specs.Runs.{AreRangesUpTo};
ghost use Rattle.lx_cap_lists.specs.Walk.{HasWalked};

use crate::PartBytes;
use crate::mask::{next_set, run_end};
use crate::runs::{Span, put_run, put_span};
use lx_cap_nodes::PART;
use lx_caps::Cap;
use lx_words::Memory;
use std::alloc::Global;

/// How far a walk has come: the range that may go on, and the bytes of the part that it stands at.
#[derive(Clone, Copy)]
struct Walk {
    last: Span,
    at_hand: PartBytes,
}

/// Adds the bytes of a part behind the last range. Gives the range that is the last one then.
fn put_part(done: &mut Vec<Cap>, mut last: Span, bytes: PartBytes) -> Result<Span, Memory>
    requires { bytes.part * 64 + 64 < 2 ^ 64 }
    ensures { IfOk result (λ now. (p : ℕ → Bool) → IsPartOf p bytes → AreRangesUpTo p done.old.items last (bytes.part * 64)
        → AreRangesUpTo p done.new.items now (bytes.part * 64 + 64)) }
{
    let start = bytes.part * PART;
    let mut place = 0;
    while let Some(from) = next_set(bytes.mask, place) {
        let end = run_end(bytes.mask, from);
        let run = Span {
            from: start + from,
            end: start + end,
        };
        last = put_run(done, last, run)?;
        place = end;
    }
    Ok(last)
}

/// Walks to the next part, or adds its bytes to those at hand if they are of the same part.
fn go_on(done: &mut Vec<Cap>, walk: Walk, next: PartBytes) -> Result<Walk, Memory>
    requires fits { walk.at_hand.part * 64 + 64 < 2 ^ 64 }
    requires next_fits { next.part * 64 + 64 < 2 ^ 64 }
    ensures fits { IfOk result (λ now. now.at_hand.part * 64 + 64 < 2 ^ 64) }
    ensures walks { IfOk result (λ now. (p : ℕ → Bool) (left : List PartBytes) → HasWalked p done.old.items walk (next ∷ left) → HasWalked p done.new.items now left) }
{
    let Walk { last, at_hand } = walk;
    if next.part == at_hand.part {
        let mask = at_hand.mask | next.mask;
        let at_hand = PartBytes {
            part: next.part,
            mask,
        };
        return Ok(Walk { last, at_hand });
    }
    let last = put_part(done, last, at_hand)?;
    Ok(Walk {
        last,
        at_hand: next,
    })
}

fn sort(parts: &mut Vec<PartBytes>)
    ensures sorted { IsNonDecreasingBy (λ x. x.part) parts.new.items }
    ensures same { (b : ℕ) → is_among b parts.new.items ≡ is_among b parts.old.items }
    ensures fit { All (λ x. x.part * 64 + 64 < 2 ^ 64) parts.old.items → All (λ x. x.part * 64 + 64 < 2 ^ 64) parts.new.items }
{
    parts.sort_unstable_by_key(|bytes| bytes.part);
}

/// The greatest ranges of the bytes of these parts, which stand in order.
fn ranges_in_order(alloc: Global, sorted: &[PartBytes]) -> Result<Vec<Cap>, Memory>
    requires fit { All (λ x. x.part * 64 + 64 < 2 ^ 64) sorted.now }
    requires sorted { IsNonDecreasingBy (λ x. x.part) sorted.now }
    ensures { IfOk result (λ cs. IsRanges (λ b. is_among b sorted.now) 0 cs.items) }
{
    let mut done = Vec::new(alloc);
    let last = Span { from: 0, end: 0 };
    let at_hand = PartBytes { part: 0, mask: 0 };
    let mut walk = Walk { last, at_hand };
    for bytes in sorted {
        walk = go_on(&mut done, walk, *bytes)?;
    }
    let last = put_part(&mut done, walk.last, walk.at_hand)?;
    put_span(&mut done, last)?;
    Ok(done)
}

/// The greatest ranges of the bytes of these parts, in ascending order, each as a `Write`. Parts may stand in any
/// order, and the same part more than once. It needs memory for lists alone, and time for a sort and a walk.
pub fn ranges_of(alloc: Global, mut parts: Vec<PartBytes>) -> Result<Vec<Cap>, Memory>
    requires { All (λ x. x.part * 64 + 64 < 2 ^ 64) parts.items }
    ensures { IfOk result (λ cs. IsRanges (λ b. is_among b parts.items) 0 cs.items) }
{
    sort(&mut parts);
    let ranges = ranges_in_order(alloc, &parts)?;
    Ok(ranges)
}
