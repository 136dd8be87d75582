//! A place that is written to.
ghost use Rattle.std.specs.Prelude.{◌≡◌, ◌≤◌, ◌<◌, ◌++◌, List, ℕ, Option, Some, take, length, IfOk, OnErr};
ghost use Rattle.lx_outside.specs.Counts.{HasRisen};

use thiserror::Error;

/// Why a piece was not taken.
#[derive(Clone, Copy, Debug, Error)]
pub enum SinkFault {
    #[error("the bytes were not taken")]
    Failed,
}

/// What takes bytes.
pub trait Sink {
    /// The bytes that were taken, where the sink tells them.
    ghost bytes: { Self → Option (List ℕ) };

    /// How often the sink has failed.
    ghost faults: { Self → ℕ };

    /// Takes a part of the piece from its front, and says how many bytes. To take nothing of a
    /// piece that is not empty is a fault; after a fault nothing of the piece was taken.
    fn put(&mut self, piece: &[u8]) -> Result<usize, SinkFault>
        ensures part { IfOk result (λ n. (n ≤ length piece.now) × (0 < length piece.now → 0 < n)) }
        ensures taken { IfOk result (λ n. (told : List ℕ) → bytes self.old ≡ Some told → bytes self.new ≡ Some (told ++ take n piece.now)) }
        ensures err { OnErr result (bytes self.new ≡ bytes self.old) }
        ensures count { faults self.old ≤ faults self.new }
        ensures failed { OnErr result (HasRisen (faults self.old) (faults self.new)) };
}
