//! Memory before the first call.
ghost use Rattle.std.specs.Prelude.{◌≡◌, ◌<◌, true, [], ◌∷◌, IfOk};
ghost use Rattle.lx_actions.specs.Shown.{IsShownBy};
ghost use Rattle.lx_caps.specs.Memory.{Memory as Writes, Put, put_number};
ghost use Rattle.lx_caps.specs.Regions.{mapped};
ghost use Rattle.lx_words.specs.Width.{byte_count};

use lx_memory::Space;
use lx_words::{Memory, Word};
use std::alloc::Global;

/// Memory in which each byte is 0.
#[tactic(auto, unfolding(lx_actions::specs::Shown::IsShownBy))]
pub(crate) fn blank(alloc: Global) -> Result<Space, Memory>
    ensures { IfOk result (λ space. IsShownBy space []) }
{
    match Space::new(alloc) {
        Ok(space) => Ok(space),
        Err(_) => Err(Memory),
    }
}

/// Puts a word at a mapped address.
#[tactic(auto, unfolding(lx_actions::specs::Shown::IsShownBy))]
pub(crate) fn write(space: &mut Space, at: u64, value: Word)
    requires { mapped at (byte_count value.width) ≡ true }
    ensures { (m : Writes) → IsShownBy space.old m → IsShownBy space.new (put_number at (byte_count value.width) value.bits m) }
{
    match space.write(at, value.width.byte_count(), value.bits) {
        Ok(()) => {}
        Err(_) => unreachable!(),
    }
}

/// Puts a byte at a mapped address.
#[tactic(auto, unfolding(lx_actions::specs::Shown::IsShownBy), using(crate::proofs::PutBytes::one_byte))]
pub(crate) fn write_byte(space: &mut Space, at: u64, byte: u8)
    requires { mapped at 1 ≡ true }
    ensures { (m : Writes) → IsShownBy space.old m → IsShownBy space.new (Put at (byte ∷ []) ∷ m) }
{
    match space.write(at, 1, u64::from(byte)) {
        Ok(()) => {}
        Err(_) => unreachable!(),
    }
}
