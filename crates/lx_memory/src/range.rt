//! Ranges of addresses, and which of them lie in memory.
ghost use Rattle.std.specs.Prelude.{◌≡◌, ◌<◌, true};
ghost use Rattle.lx_caps.specs.Regions.{mapped};
ghost use Rattle.lx_memory.specs.Ranges.{place_of, range_fault, IsFault};

use lx_caps::{GLOBALS_START, HEAP_START, REGION_SIZE, STACKS_START, first_unmapped, mapped};
use thiserror::Error;

/// How many bytes the three regions have.
pub const MEMORY_SIZE: usize = 0x30_0000;

/// A range that does not lie in memory.
#[derive(Clone, Copy, Debug, PartialEq, Eq, Error)]
#[error("address 0x{at:x} is not mapped")]
pub struct Unmapped {
    /// Its first byte that lies in no region.
    pub at: u64,
}

/// Answers Ok exactly where the range lies in memory.
pub fn test(at: u64, len: u64) -> Result<(), Unmapped>
    ensures { IsFault (range_fault at len) result }
{
    if mapped(at, len) {
        Ok(())
    } else {
        Err(Unmapped {
            at: first_unmapped(at),
        })
    }
}

/// The place of the byte at a mapped address.
pub fn place_of(at: u64) -> usize
    requires { mapped at 1 ≡ true }
    ensures { result ≡ place_of at }
{
    let place = if at < HEAP_START {
        at - GLOBALS_START
    } else if at < STACKS_START {
        REGION_SIZE + (at - HEAP_START)
    } else {
        2 * REGION_SIZE + (at - STACKS_START)
    };
    place as usize
}
