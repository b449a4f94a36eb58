//! A sink over memory that it takes when it is made.

ghost use Rattle.std.specs.Prelude.{IsTrue, ◌↔◌, ◌≡◌, ◌+◌, ◌<◌, ◌⊎◌, ℕ, Some, [], IsErr, IfOk, is_some, is_err, min, length};
ghost use Rattle.std.specs.Io.{WritesAtMost};
ghost use Rattle.std.specs.Io.KnownBytes.{WriteAppends};
ghost use Rattle.sj_edge.specs.Faults.{Counts};
ghost use Rattle.sj_edge.specs.Called.{uncalled, IsNextRefused, after_call};
ghost use Rattle.sj_edge.specs.Memory.{writing};

use crate::calls::Calls;
use crate::pieces::copy_in;
use crate::sink::Sink;
use crate::source::Failed;
use sj_base::memory::OutOfMemory;
use std::alloc::Global;
use std::marker::Model;

/// Takes bytes into memory while there is room, and refuses the calls whose numbers it was told.
#[derive(Debug, Drop)]
pub struct MemSink {
    bytes: Vec<u8>,
    at: usize,
    calls: Calls,
}

impl Model for MemSink {
    ghost use Rattle.std.specs.Prelude.{◌-◌, ◌≤◌, length, take};
    ghost use Rattle.sj_edge.specs.Memory.{Writing, writing};

    ghost Value = { Writing };

    ghost view = { λ s. writing (take s.at s.bytes.items) (length s.bytes.items - s.at) s.calls };

    ghost invariant = { λ s. s.at ≤ length s.bytes.items };
}

impl MemSink {
    /// Takes up to `room` bytes, and refuses each write whose number, from 1, stands in `fail`.
    /// Takes all its memory here. Linear in the room.
    pub fn new(alloc: Global, room: u64, fail: Vec<u64>) -> Result<MemSink, OutOfMemory>
        ensures { IfOk result (λ s. s ≡ writing [] room (uncalled fail.items)) }
    {
        let bytes = vec![in alloc; 0u8; room as usize]?;
        Ok(MemSink {
            bytes,
            at: 0,
            calls: Calls::new(fail),
        })
    }

    /// The bytes taken so far. Constant time.
    pub fn taken(&self) -> &[u8]
        ensures { result.now ≡ self.now.taken }
    {
        &self.bytes[..self.at]
    }

    /// How many faults there were. Constant time.
    pub fn faults(&self) -> u64
        ensures { result ≡ self.now.called.faults }
    {
        self.calls.faults()
    }
}

impl Sink for MemSink {
    ghost taken = { λ s. Some s.taken };

    ghost faults = { λ s. s.called.faults };

    /// Linear in the bytes taken and in the list of calls to refuse.
    fn write(&mut self, bytes: &[u8]) -> Result<usize, Failed>
        ensures takes_at_most_the_bytes { WritesAtMost result bytes.now }
        ensures takes_at_least_one { 0 < length bytes.now → IfOk result (λ n. 0 < n) }
        ensures appends_the_first_bytes { WriteAppends (Some self.old.taken) (Some self.new.taken)
            result bytes.now }
        ensures takes_as_many_as_it_can { IfOk result
            (λ n. n ≡ min (length bytes.now) self.old.room) }
        ensures room_falls_by_what_it_takes { self.new.room + length self.new.taken
            ≡ self.old.room + length self.old.taken }
        ensures fails_exactly_where_told_or_full { IsErr result ↔ (IsNextRefused self.old.called
            ⊎ ((0 < length bytes.now) × (self.old.room ≡ 0))) }
        ensures counts_the_call { self.new.called ≡ after_call self.old.called (is_err result) }
        ensures failed_only_where_faults_rose { Counts
            self.old.called.faults self.new.called.faults (IsErr result) }
    {
        let refused = self.calls.next_is_refused();
        let n = bytes.len().min(self.bytes.len() - self.at);
        if refused || (n == 0 && !bytes.is_empty()) {
            self.calls.add_fault();
            return Err(Failed);
        }
        copy_in(&mut self.bytes, self.at, &bytes[..n]);
        self.at += n;
        Ok(n)
    }
}
