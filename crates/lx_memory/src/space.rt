//! The bytes of memory.
ghost use Rattle.std.specs.Prelude.{◌≡◌, ◌+◌, ◌<◌, ◌≤◌, ℕ, length, slice_index, slice_range, replicate, IfOk};
ghost use Rattle.std.specs.List.{splice};
ghost use Rattle.lx_caps.specs.Memory.{bytes_of};

use crate::numbers::{number, put_number};
use crate::range::{MEMORY_SIZE, Unmapped, place_of, test};
use lx_caps::REGION_SIZE;
use lx_words::Memory;
use std::alloc::Global;
use std::marker::Model;

/// The bytes of memory, seen as the list of the bytes of the three regions, one region behind the
/// other. No call but `new` takes memory, and none changes anything where it answers `Unmapped`.
pub struct Space {
    bytes: Vec<u8>,
    // Bytes of one region: what is copied stands here between being read and being written, so that the whole goes at once
    // where the two ranges share bytes too.
    spare: Vec<u8>,
}

impl Drop for Space {
    fn drop(self) {
        let Space { bytes: _, spare: _ } = self;
    }
}

impl Model for Space {
    ghost use Rattle.std.specs.Prelude.{◌≡◌, List, ℕ, length};
    ghost use Rattle.lx_caps.specs.Regions.{region_size};
    ghost use Rattle.lx_memory.specs.Ranges.{memory_size};

    ghost Value = { List ℕ };

    ghost view = { λ space. space.bytes.items };

    ghost invariant = { λ space. (length space.bytes.items ≡ memory_size) × (length space.spare.items ≡ region_size) };
}

/// So many bytes that are 0.
fn zeros(alloc: Global, size: usize) -> Result<Vec<u8>, Memory>
    ensures len { IfOk result (λ bytes. length bytes.items ≡ size) }
    ensures zero { IfOk result (λ bytes. (k : ℕ) → k < size → slice_index bytes.items k ≡ 0) }
{
    let bytes = vec![in alloc; 0; size]?;
    Ok(bytes)
}

/// Puts the lowest bytes of a number into so many bytes from a place on.
fn put_number_at(bytes: &mut Vec<u8>, place: usize, size: usize, number: u64)
    requires { place + size ≤ length bytes.old.items }
    ensures len { length bytes.new.items ≡ length bytes.old.items }
    ensures put { bytes.new.items ≡ splice bytes.old.items place (place + size) (bytes_of size number) }
{
    put_number(&mut bytes[place..place + size], number);
}

/// Puts a byte into each of so many places.
fn fill_at(bytes: &mut Vec<u8>, place: usize, size: usize, byte: u8)
    requires { place + size ≤ length bytes.old.items }
    ensures len { length bytes.new.items ≡ length bytes.old.items }
    ensures put { bytes.new.items ≡ splice bytes.old.items place (place + size) (replicate size byte) }
{
    bytes[place..place + size].fill(byte);
}

/// Puts bytes from a place on.
fn put_at(bytes: &mut Vec<u8>, place: usize, part: &[u8])
    requires { place + length part.now ≤ length bytes.old.items }
    ensures len { length bytes.new.items ≡ length bytes.old.items }
    ensures put { bytes.new.items ≡ splice bytes.old.items place (place + length part.now) part.now }
{
    bytes[place..place + part.len()].copy_from_slice(part);
}

/// Copies so many bytes to a place, as they were before.
#[tactic(auto, using(crate::proofs::SpaceLemmas::put_first))]
fn copy_at(bytes: &mut Vec<u8>, spare: &mut Vec<u8>, to: usize, from: usize, size: usize)
    requires to_within { to + size ≤ length bytes.old.items }
    requires from_within { from + size ≤ length bytes.old.items }
    requires spare { size ≤ length spare.old.items }
    ensures len { length bytes.new.items ≡ length bytes.old.items }
    ensures put { bytes.new.items ≡ splice bytes.old.items to (to + size) (slice_range bytes.old.items from (from + size)) }
    ensures spare { length spare.new.items ≡ length spare.old.items }
{
    put_at(spare, 0, &bytes[from..from + size]);
    put_at(bytes, to, &spare[..size]);
}

impl Space {
    ghost use Rattle.std.specs.Prelude.{◌≡◌, ◌<◌, ◌≤◌, [], ◌∷◌, IfOk, OnOk, OnErr};
    ghost use Rattle.lx_caps.specs.Memory.{Memory as Writes, Put, Repeat, bytes_at, number_at, put_number};
    ghost use Rattle.lx_memory.specs.Ranges.{range_fault, copy_fault, IsFault};
    ghost use Rattle.lx_memory.specs.Shows.{Shows};

    /// Memory in which each byte is 0.
    pub fn new(alloc: Global) -> Result<Self, Memory>
        ensures { IfOk result (λ space. Shows space []) }
    {
        let bytes = zeros(alloc, MEMORY_SIZE)?;
        let spare = zeros(alloc, REGION_SIZE as usize)?;
        Ok(Space { bytes, spare })
    }

    /// The number in so many bytes, 1 to 8 of them, the least byte first.
    pub fn read(&self, at: u64, bytes: u8) -> Result<u64, Unmapped>
        requires some { 0 < bytes }
        requires word { bytes ≤ 8 }
        ensures fault { IsFault (range_fault at bytes) result }
        ensures told { IfOk result (λ bits. (m : Writes) → Shows self.now m → bits ≡ number_at m at bytes) }
    {
        test(at, u64::from(bytes))?;
        let place = place_of(at);
        Ok(number(&self.bytes[place..place + usize::from(bytes)]))
    }

    /// Puts the lowest bytes of a number, 1 to 8 of them, the least byte first.
    pub fn write(&mut self, at: u64, bytes: u8, bits: u64) -> Result<(), Unmapped>
        requires some { 0 < bytes }
        requires word { bytes ≤ 8 }
        ensures fault { IsFault (range_fault at bytes) result }
        ensures put { OnOk result ((m : Writes) → Shows self.old m → Shows self.new (put_number at bytes bits m)) }
        ensures err { OnErr result (self.new ≡ self.old) }
    {
        test(at, u64::from(bytes))?;
        let place = place_of(at);
        put_number_at(&mut self.bytes, place, usize::from(bytes), bits);
        Ok(())
    }

    /// Copies bytes, as they were before where the ranges share some. The range that is written
    /// is tested first.
    pub fn copy(&mut self, to: u64, from: u64, len: u64) -> Result<(), Unmapped>
        ensures fault { IsFault (copy_fault to from len) result }
        ensures put { OnOk result ((m : Writes) → Shows self.old m → Shows self.new (Put to (bytes_at m from len) ∷ m)) }
        ensures err { OnErr result (self.new ≡ self.old) }
    {
        test(to, len)?;
        test(from, len)?;
        if len > 0 {
            copy_at(
                &mut self.bytes,
                &mut self.spare,
                place_of(to),
                place_of(from),
                len as usize,
            );
        }
        Ok(())
    }

    /// Puts a byte into each byte of a range.
    pub fn fill(&mut self, to: u64, byte: u8, len: u64) -> Result<(), Unmapped>
        ensures fault { IsFault (range_fault to len) result }
        ensures put { OnOk result ((m : Writes) → Shows self.old m → Shows self.new (Repeat to len byte ∷ m)) }
        ensures err { OnErr result (self.new ≡ self.old) }
    {
        test(to, len)?;
        if len > 0 {
            fill_at(&mut self.bytes, place_of(to), len as usize, byte);
        }
        Ok(())
    }

    /// Makes each byte of a range 0.
    pub fn zero(&mut self, at: u64, len: u64) -> Result<(), Unmapped>
        ensures fault { IsFault (range_fault at len) result }
        ensures put { OnOk result ((m : Writes) → Shows self.old m → Shows self.new (Repeat at len 0 ∷ m)) }
        ensures err { OnErr result (self.new ≡ self.old) }
    {
        self.fill(at, 0, len)
    }
}
