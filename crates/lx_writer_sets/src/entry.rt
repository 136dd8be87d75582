//! Entries: what is recorded of one writer in one part.
ghost use Rattle.std.specs.Prelude.{◌≡◌, ◌+◌, ◌*◌, ◌/◌, ◌^◌, ◌<◌, ◌≤◌, ℕ, Bool, ◌&&◌, ◌||◌, not, nat_eq, nat_le, nat_lt};
ghost use Rattle.lx_caps.specs.declared.Principal.{Principal};
ghost use Rattle.lx_caps.specs.declared.Atom.TheVariants.{Byte};
ghost use Rattle.lx_caps.specs.History.{History, owns, same_principal};
ghost use Rattle.lx_caps.specs.Precedence.{is_found};
ghost use Rattle.lx_cap_nodes.specs.Bits.{is_set};
ghost use Rattle.lx_writer_sets.specs.Sets.{IsSlotMask, touches};

use crate::PrincipalTest;
use lx_cap_nodes::bits::{between, is_set, without};
use lx_cap_nodes::{PART, Piece};
use lx_caps::{CapStore, Principal, owns_byte};

/// The bytes of a part, by a bit for each, that a principal may have written.
#[derive(Clone, Copy)]
pub(crate) struct Entry {
    pub(crate) writer: Principal,
    pub(crate) mask: u64,
}

/// Those of a slot's eight bytes that lie in one part, with a bit for the place of each.
#[derive(Clone, Copy)]
pub(crate) struct SlotPart {
    pub(crate) slot: u64,
    pub(crate) part: u64,
    pub(crate) mask: u64,
    ghost bits: { IsSlotMask slot part mask },
}

/// A slot in the part of its first byte.
pub(crate) fn first_part(slot: u64) -> SlotPart
    ensures slot { result.slot ≡ slot }
    ensures part { result.part ≡ slot / 64 }
{
    let from = slot % PART;
    let to = if from + 8 < PART { from + 8 } else { PART };
    SlotPart {
        slot,
        part: slot / PART,
        mask: between(from, to),
    }
}

/// A slot in the part of its last byte.
pub(crate) fn last_part(slot: u64) -> SlotPart
    requires { slot + 8 ≤ 2 ^ 64 }
    ensures slot { result.slot ≡ slot }
    ensures part { result.part ≡ (slot + 7) / 64 }
{
    let to = (slot + 7) % PART + 1;
    let from = if to < 8 { 0 } else { to - 8 };
    SlotPart {
        slot,
        part: (slot + 7) / PART,
        mask: between(from, to),
    }
}

/// Whether the entry has one of the slot's bytes in the part.
pub(crate) fn touches(entry: Entry, at: SlotPart) -> bool
    ensures { result ≡ touches at.part entry at.slot }
{
    entry.mask & at.mask != 0
}

/// The entry's writer, if it is one of the slot and passes the test.
pub(crate) fn writer_by<T: PrincipalTest>(entry: Entry, at: SlotPart, test: &T) -> Option<Principal>
    ensures { (p : Principal → Bool) → T.stands test.now p → (q : Principal) → (p q && (same_principal q entry.writer && touches at.part entry at.slot)) ≡ is_found result q }
{
    if touches(entry, at) && test.passes(entry.writer) {
        Some(entry.writer)
    } else {
        None
    }
}

/// The mask once the writer was asked whether it still owns one of the bytes.
fn without_lost<C: CapStore>(caps: &C, writer: Principal, mask: u64, part: u64, place: u64) -> u64
    requires place { place < 64 }
    requires within { part * 64 + 64 ≤ 2 ^ 64 }
    ensures { (h : History) → C.stands caps.now h → (k : ℕ) → k < 64
        → is_set result k ≡ (is_set mask k && (not (nat_eq k place) || owns h writer (Byte (part * 64 + k)))) }
{
    if is_set(mask, place) && !owns_byte(caps, writer, part * PART + place) {
        without(mask, place)
    } else {
        mask
    }
}

/// The bytes of the entry without those of a piece that its writer does not own.
pub(crate) fn kept_mask<C: CapStore>(caps: &C, entry: Entry, piece: Piece) -> u64
    requires some { piece.from < piece.to }
    requires to { piece.to ≤ 64 }
    requires within { piece.part * 64 + 64 ≤ 2 ^ 64 }
    ensures { (h : History) → C.stands caps.now h → (k : ℕ) → k < 64
        → is_set result k ≡ (is_set entry.mask k && (not (nat_le piece.from k && nat_lt k piece.to) || owns h entry.writer (Byte (piece.part * 64 + k)))) }
{
    let mut mask = entry.mask;
    for place in piece.from..piece.to {
        mask = without_lost(caps, entry.writer, mask, piece.part, place);
    }
    mask
}
