//! Why an event did not come.
use lx_words::Memory;
use thiserror::Error;

/// Why an event did not come.
#[derive(Clone, Copy, Debug, Error)]
pub enum EventFault {
    /// There is no such thread, or it has no call left.
    #[error("thread {thread} has no work")]
    NoWork { thread: u32 },
    /// There was not enough memory.
    #[error("out of memory")]
    Memory,
}

impl From<Memory> for EventFault {
    ghost use Rattle.std.specs.Prelude.{◌≡◌};
    ghost use Rattle.lx_world.specs.declared.fault.EventFault.TheVariants.{Memory};

    ghost from_gives = { λ _ e. e ≡ Memory };

    fn from(_: Memory) -> Self {
        EventFault::Memory
    }
}
