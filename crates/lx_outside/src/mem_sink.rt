//! A sink in memory.
ghost use Rattle.std.specs.Prelude.{◌≡◌, ◌+◌, ◌≤◌, vec_len, vec_capacity};

use crate::calls::is_to_fail;
use crate::lists::{CallNumbers, Items};
use crate::sink::{Sink, SinkFault};
use lx_words::Memory;
use std::alloc::Global;

/// A sink in memory.
#[derive(Drop)]
pub struct MemSink {
    /// The bytes that were taken.
    pub bytes: Vec<u8>,
    /// How many bytes it still takes.
    pub room: usize,
    /// The numbers of the calls of `put` that are to fail, where the first call is 0.
    pub fails: CallNumbers,
    /// The calls of `put` so far; it stays at its greatest value.
    pub calls: u64,
    /// How many calls failed; it stays at its greatest value.
    pub faults: u64,
    ghost has_room: { vec_len bytes + room ≤ vec_capacity bytes },
}

impl MemSink {
    ghost use Rattle.std.specs.Prelude.{◌≡◌, [], IfOk};

    /// A sink that takes `room` bytes, whose puts with these numbers are to fail. It takes the
    /// memory for all of its bytes.
    pub fn new(alloc: Global, fails: Vec<u32>, room: usize) -> Result<Self, Memory>
        ensures bytes { IfOk result (λ sink. sink.bytes.items ≡ []) }
        ensures room { IfOk result (λ sink. sink.room ≡ room) }
        ensures fails { IfOk result (λ sink. sink.fails ≡ fails.items) }
        ensures calls { IfOk result (λ sink. sink.calls ≡ 0) }
        ensures faults { IfOk result (λ sink. sink.faults ≡ 0) }
    {
        let bytes = Vec::with_capacity(alloc, room)?;
        Ok(MemSink {
            bytes,
            room,
            fails: Items::from_vec(fails),
            calls: 0,
            faults: 0,
        })
    }
}

impl Sink for MemSink {
    ghost use Rattle.std.specs.Prelude.{◌≡◌, ◌+◌, ◌≤◌, ◌<◌, ◌++◌, Some, None, take, length, MatchResult, IfOk, OnOk, OnErr};
    ghost use Rattle.lx_outside.specs.Counts.{HasRisen, one_more};
    ghost use Rattle.lx_outside.specs.Puts.{size_to_take};

    ghost bytes = { λ sink. Some sink.bytes.items };

    ghost faults = { λ sink. sink.faults };

    fn put(&mut self, piece: &[u8]) -> Result<usize, SinkFault>
        ensures part { IfOk result (λ n. (n ≤ length piece.now) × (0 < length piece.now → 0 < n)) }
        ensures taken { IfOk result (λ n. self.new.bytes.items ≡ self.old.bytes.items ++ take n piece.now) }
        ensures err { OnErr result (self.new.bytes.items ≡ self.old.bytes.items) }
        ensures count { self.old.faults ≤ self.new.faults }
        ensures failed { OnErr result (HasRisen self.old.faults self.new.faults) }

        // It takes as much as `room` leaves, and fails exactly at the numbers that stand in
        // `fails`, and at a piece that is not empty where no room is left.
        ensures cause { MatchResult result (λ n. size_to_take self.old piece.now ≡ Some n) (λ _. size_to_take self.old piece.now ≡ None) }
        ensures room { IfOk result (λ n. self.new.room + n ≡ self.old.room) }
        ensures room_kept { OnErr result (self.new.room ≡ self.old.room) }
        ensures faults { OnErr result (self.new.faults ≡ one_more self.old.faults) }
        ensures faults_kept { OnOk result (self.new.faults ≡ self.old.faults) }
        ensures calls { self.new.calls ≡ one_more self.old.calls }
        ensures fails { self.new.fails ≡ self.old.fails }
    {
        let call = self.calls;
        self.calls = call.saturating_add(1);
        let size = piece.len().min(self.room);
        if is_to_fail(self.fails.as_slice(), call) || (size == 0 && !piece.is_empty()) {
            self.faults = self.faults.saturating_add(1);
            return Err(SinkFault::Failed);
        }
        let (part, _) = piece.split_at(size);
        self.bytes.extend_from_slice(part).unwrap();
        self.room -= size;
        Ok(size)
    }
}
