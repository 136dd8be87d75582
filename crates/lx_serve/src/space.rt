//! What is done to memory, where the ranges are known to lie in it.
ghost use Rattle.std.specs.Prelude.{◌≡◌, ◌<◌, ◌≤◌, true, ◌∷◌};
ghost use Rattle.lx_caps.specs.Memory.{Memory as Writes, Put, Repeat, bytes_at, number_at, put_number};
ghost use Rattle.lx_caps.specs.Regions.{mapped};
ghost use Rattle.lx_actions.specs.Shown.{IsShownBy};

use lx_memory::Space;

/// The number in so many bytes.
#[tactic(auto, unfolding(lx_actions::specs::Shown::IsShownBy))]
pub(crate) fn read(space: &Space, at: u64, size: u8) -> u64
    requires some { 0 < size }
    requires word { size < 9 }
    requires mapped { mapped at size ≡ true }
    ensures { (m : Writes) → IsShownBy space.now m → result ≡ number_at m at size }
{
    match space.read(at, size) {
        Ok(bits) => bits,
        Err(_) => unreachable!(),
    }
}

/// Puts the lowest bytes of a number.
#[tactic(auto, unfolding(lx_actions::specs::Shown::IsShownBy))]
pub(crate) fn write(space: &mut Space, at: u64, size: u8, bits: u64)
    requires some { 0 < size }
    requires word { size < 9 }
    requires mapped { mapped at size ≡ true }
    ensures { (m : Writes) → IsShownBy space.old m → IsShownBy space.new (put_number at size bits m) }
{
    match space.write(at, size, bits) {
        Ok(()) => {}
        Err(_) => unreachable!(),
    }
}

/// Puts a byte into each byte of a range.
#[tactic(auto, unfolding(lx_actions::specs::Shown::IsShownBy))]
pub(crate) fn fill(space: &mut Space, to: u64, byte: u8, len: u64)
    requires { mapped to len ≡ true }
    ensures { (m : Writes) → IsShownBy space.old m → IsShownBy space.new (Repeat to len byte ∷ m) }
{
    match space.fill(to, byte, len) {
        Ok(()) => {}
        Err(_) => unreachable!(),
    }
}

/// Copies bytes, as they were before.
#[tactic(auto, unfolding(lx_actions::specs::Shown::IsShownBy))]
pub(crate) fn copy(space: &mut Space, to: u64, from: u64, len: u64)
    requires to { mapped to len ≡ true }
    requires from { mapped from len ≡ true }
    ensures { (m : Writes) → IsShownBy space.old m → IsShownBy space.new (Put to (bytes_at m from len) ∷ m) }
{
    match space.copy(to, from, len) {
        Ok(()) => {}
        Err(_) => unreachable!(),
    }
}
