//! Byte strings in memory.
ghost use Rattle.std.specs.Prelude.{◌≡◌, true, ◌∷◌, length};
ghost use Rattle.lx_actions.specs.Shown.{IsShownBy};
ghost use Rattle.lx_caps.specs.Memory.{Memory as Writes, Put};
ghost use Rattle.lx_caps.specs.Regions.{mapped};

use crate::space::write_byte;
use lx_memory::Space;

/// Puts bytes one behind another from a mapped address on.
#[tactic(auto, using(crate::proofs::PutBytes::byte_mapped, crate::proofs::PutBytes::byte_near))]
pub(crate) fn write_bytes(space: &mut Space, at: u64, bytes: &[u8])
    requires { mapped at (length bytes.now) ≡ true }
    ensures { (m : Writes) → IsShownBy space.old m → IsShownBy space.new (Put at bytes.now ∷ m) }
{
    for (place, byte) in bytes.iter().enumerate() {
        write_byte(space, at + place as u64, *byte);
    }
}
