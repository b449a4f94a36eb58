//! A source over bytes in memory.

ghost use Rattle.std.specs.Prelude.{IsTrue, ◌↔◌, ◌≡◌, ℕ, Some, IsErr, OnOk, IfOk, is_some, is_err, min, length};
ghost use Rattle.std.specs.Io.{ReadsAtMost};
ghost use Rattle.std.specs.Io.KnownBytes.{ReadConsumes};
ghost use Rattle.sj_edge.specs.Faults.{Counts};
ghost use Rattle.sj_edge.specs.Called.{uncalled, IsNextRefused, after_call};
ghost use Rattle.sj_edge.specs.Memory.{reading_of};

use crate::calls::Calls;
use crate::pieces::copy_front;
use crate::source::{Failed, Source};
use std::marker::Model;

/// Gives bytes of memory, and refuses the calls whose numbers it was told.
#[derive(Debug, Drop)]
pub struct MemSource {
    bytes: Vec<u8>,
    at: usize,
    calls: Calls,
}

impl Model for MemSource {
    ghost use Rattle.std.specs.Prelude.{◌≤◌, length, drop};
    ghost use Rattle.sj_edge.specs.Memory.{Reading, reading_of};

    ghost Value = { Reading };

    ghost view = { λ s. reading_of (drop s.at s.bytes.items) s.calls };

    ghost invariant = { λ s. s.at ≤ length s.bytes.items };
}

impl MemSource {
    /// Gives these bytes, and refuses each read whose number, from 1, stands in `fail`.
    /// Constant time.
    pub fn new(bytes: Vec<u8>, fail: Vec<u64>) -> MemSource
        ensures { result ≡ reading_of bytes.items (uncalled fail.items) }
    {
        MemSource {
            bytes,
            at: 0,
            calls: Calls::new(fail),
        }
    }

    /// How many faults there were. Constant time.
    pub fn faults(&self) -> u64
        ensures { result ≡ self.now.called.faults }
    {
        self.calls.faults()
    }
}

impl Source for MemSource {
    ghost left = { λ s. Some s.left };

    ghost faults = { λ s. s.called.faults };

    /// Linear in the bytes taken and in the list of calls to refuse.
    fn read(&mut self, buf: &mut [u8]) -> Result<usize, Failed>
        ensures takes_at_most_the_buffer { ReadsAtMost result buf.new }
        ensures gives_the_first_bytes_left_and_takes_them { ReadConsumes (Some self.old.left)
            (Some self.new.left) result buf.new }
        ensures fills_the_buffer_as_far_as_it_can { IfOk result
            (λ n. n ≡ min (length buf.new) (length self.old.left)) }
        ensures fails_exactly_where_told { IsErr result ↔ IsNextRefused self.old.called }
        ensures counts_the_call { self.new.called ≡ after_call self.old.called (is_err result) }
        ensures failed_only_where_faults_rose { Counts
            self.old.called.faults self.new.called.faults (IsErr result) }
    {
        if self.calls.next_is_refused() {
            self.calls.add_fault();
            return Err(Failed);
        }
        let n = copy_front(&self.bytes, self.at, buf);
        self.at += n;
        Ok(n)
    }
}
