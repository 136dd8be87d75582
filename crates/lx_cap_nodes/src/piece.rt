//! The parts of 64 bytes, and the pieces of a range in them.
ghost use Rattle.std.specs.Prelude.{◌≡◌, ◌+◌, ◌*◌, ◌/◌, ◌^◌, ◌<◌, ◌≤◌, ℕ, ◌&&◌, nat_eq, nat_le, nat_lt};
ghost use Rattle.lx_cap_nodes.specs.Bits.{is_set};
ghost use Rattle.lx_cap_nodes.specs.Pieces.{in_range, lies_in, part_list};

use crate::bits::between;

/// How many bytes a part of memory has.
pub const PART: u64 = 64;

/// Some bytes of a part: those from one of its places up to another.
#[derive(Clone, Copy)]
pub struct Piece {
    pub part: u64,
    pub from: u64,
    pub to: u64,
}

/// The piece of a range in one of the parts that it lies in.
pub fn piece_of(at: u64, size: u64, part: u64) -> Piece
    requires within { at + size + 63 < 2 ^ 64 }
    requires low { at / 64 ≤ part }
    requires high { part * 64 < at + size }
    requires some { 0 < size }
    ensures of_the_part { result.part ≡ part }
    ensures from { result.from < result.to }
    ensures to { result.to ≤ 64 }
    ensures bytes { (b : ℕ) → lies_in result b ≡ (in_range at size b && nat_eq part (b / 64)) }
{
    let start = part * PART;
    let end = at + size - start;
    Piece {
        part,
        from: if at < start { 0 } else { at - start },
        to: if end < PART { end } else { PART },
    }
}

/// The part behind the last one that a range lies in.
pub fn parts_end(at: u64, size: u64) -> u64
    requires { at + size + 63 < 2 ^ 64 }
    ensures { result ≡ (at + size + 63) / 64 }
{
    (at + size + (PART - 1)) / PART
}

/// A bit for each byte of a piece.
pub fn piece_bits(piece: Piece) -> u64
    requires some { piece.from < piece.to }
    requires within { piece.to ≤ 64 }
    ensures { (k : ℕ) → k < 64 → is_set result k ≡ (nat_le piece.from k && nat_lt k piece.to) }
{
    between(piece.from, piece.to)
}

/// The number of a part's list, where the part lies in memory.
pub fn list_of_part(part: u64) -> Option<u64>
    ensures { result ≡ part_list part }
{
    if 0x40000 <= part && part < 0x44000 {
        Some(part - 0x40000)
    } else if 0x80000 <= part && part < 0x84000 {
        Some(part - 0x80000 + 0x4000)
    } else if 0xc0000 <= part && part < 0xc4000 {
        Some(part - 0xc0000 + 0x8000)
    } else {
        None
    }
}
