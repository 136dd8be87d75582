//! The parts of memory.
ghost use Rattle.std.specs.Prelude.{true, ◌-◌, ◌≡◌, ◌≢◌, ◌+◌, ◌*◌, ◌/◌, ◌%◌, ◌^◌, ◌<◌, ◌≤◌, ℕ, Bool, ◌&&◌, ◌||◌, not, nat_eq, length, Some};
ghost use Rattle.lx_cap_lists.specs.declared.holder.Holder.{Holder};
ghost use Rattle.lx_caps.specs.Regions.{covers, mapped};
ghost use Rattle.lx_cap_nodes.specs.Words.{nodes_at};
ghost use Rattle.lx_cap_lists.specs.Entries.{bit_among};
ghost use Rattle.lx_cap_nodes.specs.declared.pool.ListName.{ListName};
ghost use Rattle.lx_cap_lists.specs.declared.entry.Entry.{Entry};
ghost use Rattle.lx_cap_lists.specs.Kept.{AllNodes, AreAll, FitsParts, Respects};
ghost use Rattle.lx_cap_lists.specs.Tables.{count_in, work_in};
ghost use Rattle.lx_cap_nodes.specs.Pieces.{part_list};

use crate::entry::{Entry, Spot};
use crate::holder::Holder;
use crate::lists::{give, take};
use crate::pool::Pool;
use lx_cap_nodes::{PART, list_of_part, parts_end, piece_bits, piece_of};
use lx_caps::Steps;
use std::sync::ledger::Ledger;

/// Takes the bytes of a range in one part from everyone.
fn take_part<L: Ledger>(pool: &mut Pool, at: u64, size: u64, part: u64, steps: &mut Steps<L>)
    requires within { at + size + 63 < 2 ^ 64 }
    requires low { at / 64 ≤ part }
    requires high { part * 64 < at + size }
    requires some { 0 < size }
    requires lists { 0xc000 ≤ length pool.old.places }
    ensures bytes { (b l : ℕ) → part_list (b / 64) ≡ Some l → (among : Holder → Bool)
        → bit_among among (nodes_at pool.new.places l) (b % 64) ≡ (bit_among among (nodes_at pool.old.places l) (b % 64) && not (covers at size b && nat_eq part (b / 64))) }
    ensures others { (l : ℕ) → part_list part ≢ Some l → nodes_at pool.new.places l ≡ nodes_at pool.old.places l }
    ensures counts { (length pool.new.places ≡ length pool.old.places) × (length pool.new.owners ≡ length pool.old.owners) }
    ensures spare { pool.old.spare ≤ pool.new.spare }
    ensures nodes { AllNodes pool.old.places → AllNodes pool.new.places }
    ensures kept { (p : ListName → Entry → Bool) → Respects p → AreAll p pool.old → AreAll p pool.new }
    ensures cost { steps.new ≡ steps.old + (1 + count_in pool.old.places (part_list part)) }
{
    steps.tick();
    if let Some(place) = list_of_part(part) {
        take(pool, place, piece_bits(piece_of(at, size, part)), steps);
    }
}

/// Takes the bytes of a range from everyone.
pub fn take_range<L: Ledger>(pool: &mut Pool, at: u64, size: u64, steps: &mut Steps<L>)
    requires placed { mapped at size ≡ true }
    requires some { 0 < size }
    requires lists { 0xc000 ≤ length pool.old.places }
    ensures bytes { (b l : ℕ) → part_list (b / 64) ≡ Some l → (among : Holder → Bool)
        → bit_among among (nodes_at pool.new.places l) (b % 64) ≡ (bit_among among (nodes_at pool.old.places l) (b % 64) && not (covers at size b)) }
    ensures others { (l : ℕ) → 0xc000 ≤ l → nodes_at pool.new.places l ≡ nodes_at pool.old.places l }
    ensures counts { (length pool.new.places ≡ length pool.old.places) × (length pool.new.owners ≡ length pool.old.owners) }
    ensures spare { pool.old.spare ≤ pool.new.spare }
    ensures nodes { AllNodes pool.old.places → AllNodes pool.new.places }
    ensures kept { (p : ListName → Entry → Bool) → Respects p → AreAll p pool.old → AreAll p pool.new }
    ensures cost { steps.new ≡ steps.old + work_in pool.old.places (at / 64) ((at + size + 63) / 64 - at / 64) }
{
    for part in at / PART..parts_end(at, size) {
        take_part(pool, at, size, part, steps);
    }
}

/// Gives a holder the bytes of a range in one part.
fn give_part(pool: &mut Pool, to: Holder, owner: u64, at: u64, size: u64, part: u64)
    requires within { at + size + 63 < 2 ^ 64 }
    requires low { at / 64 ≤ part }
    requires high { part * 64 < at + size }
    requires some { 0 < size }
    requires lists { 0xc000 ≤ length pool.old.places }
    requires owner { owner < length pool.old.owners }
    requires room { 0 < pool.old.spare }
    ensures bytes { (b l : ℕ) → part_list (b / 64) ≡ Some l → (among : Holder → Bool)
        → bit_among among (nodes_at pool.new.places l) (b % 64) ≡ ((among to && (covers at size b && nat_eq part (b / 64))) || bit_among among (nodes_at pool.old.places l) (b % 64)) }
    ensures others { (l : ℕ) → part_list part ≢ Some l → nodes_at pool.new.places l ≡ nodes_at pool.old.places l }
    ensures counts { (length pool.new.places ≡ length pool.old.places) × (length pool.new.owners ≡ length pool.old.owners) }
    ensures spare { pool.old.spare ≤ pool.new.spare + 1 }
    ensures nodes { AllNodes pool.old.places → AllNodes pool.new.places }
    ensures kept { (p : ListName → Entry → Bool) → Respects p → FitsParts p to owner → AreAll p pool.old → AreAll p pool.new }
{
    if let Some(place) = list_of_part(part) {
        let entry = Entry {
            holder: to,
            spot: Spot::Part(part),
            mask: piece_bits(piece_of(at, size, part)),
        };
        give(pool, place, owner, entry);
    }
}

/// Gives a holder the bytes of a range.
pub fn give_range(pool: &mut Pool, to: Holder, owner: u64, at: u64, size: u64)
    requires placed { mapped at size ≡ true }
    requires some { 0 < size }
    requires lists { 0xc000 ≤ length pool.old.places }
    requires owner { owner < length pool.old.owners }
    requires room { size / 64 + 2 ≤ pool.old.spare }
    ensures bytes { (b l : ℕ) → part_list (b / 64) ≡ Some l → (among : Holder → Bool)
        → bit_among among (nodes_at pool.new.places l) (b % 64) ≡ ((among to && covers at size b) || bit_among among (nodes_at pool.old.places l) (b % 64)) }
    ensures others { (l : ℕ) → 0xc000 ≤ l → nodes_at pool.new.places l ≡ nodes_at pool.old.places l }
    ensures counts { (length pool.new.places ≡ length pool.old.places) × (length pool.new.owners ≡ length pool.old.owners) }
    ensures spare { pool.old.spare ≤ pool.new.spare + (size / 64 + 2) }
    ensures nodes { AllNodes pool.old.places → AllNodes pool.new.places }
    ensures kept { (p : ListName → Entry → Bool) → Respects p → FitsParts p to owner → AreAll p pool.old → AreAll p pool.new }
{
    for part in at / PART..parts_end(at, size) {
        give_part(pool, to, owner, at, size, part);
    }
}
