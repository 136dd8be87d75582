//! All of the bytes, piece by piece.
ghost use Rattle.std.specs.Prelude.{◌≡◌, ◌≤◌, ◌<◌, ◌++◌, List, ℕ, Some, take, length, OnOk, OnErr};
ghost use Rattle.lx_outside.specs.Counts.{HasRisen};

use crate::sink::{Sink, SinkFault};

/// Writes all of the bytes, without memory. After `Failed` the sink has gained a proper prefix
/// of them.
pub fn put_all<K: Sink>(sink: &mut K, bytes: &[u8]) -> Result<(), SinkFault>
    ensures all { OnOk result ((told : List ℕ) → K.bytes sink.old ≡ Some told → K.bytes sink.new ≡ Some (told ++ bytes.now)) }
    ensures prefix { OnErr result ((told : List ℕ) → K.bytes sink.old ≡ Some told
        → (n : ℕ) × (n < length bytes.now) × (K.bytes sink.new ≡ Some (told ++ take n bytes.now))) }
    ensures count { K.faults sink.old ≤ K.faults sink.new }
    ensures failed { OnErr result (HasRisen (K.faults sink.old) (K.faults sink.new)) }
{
    let mut done = 0;
    while done < bytes.len() {
        let (_, rest) = bytes.split_at(done);
        done += sink.put(rest)?;
    }
    Ok(())
}
