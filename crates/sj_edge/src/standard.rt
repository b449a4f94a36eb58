//! Adapters over std's readers and writers.

ghost use Rattle.std.specs.Prelude.{◌≡◌, ◌<◌, ◌≤◌, ℕ, None, IfSome, IfOk, IsErr, MatchOption, is_err, length, take};
ghost use Rattle.std.specs.Io.{ReadsAtMost, WritesAtMost};
ghost use Rattle.std.specs.Io.KnownBytes.{Keeps, Appends, ReadConsumes, WriteAppends};
ghost use Rattle.sj_edge.specs.Faults.{Counts, counted};

use crate::sink::Sink;
use crate::source::{Failed, Source};
use std::io::{ErrorKind, Read, Write};

/// How often a call that was interrupted is tried.
const TRIES: u32 = 1000;

/// Reads from one of std's readers, and counts its errors. Tells nothing.
#[derive(Debug, Drop)]
pub struct StdSource<R> {
    inner: R,
    faults: u64,
}

impl<R> StdSource<R> {
    ghost use Rattle.sj_edge.specs.Standard.{source_inner, source_faults};

    /// Reads from this reader. Constant time.
    pub fn over(inner: R) -> StdSource<R>
        ensures inner { source_inner result ≡ inner }
        ensures faults { source_faults result ≡ 0 }
    {
        StdSource { inner, faults: 0 }
    }

    /// How many faults there were. Constant time.
    pub fn faults(&self) -> u64
        ensures { result ≡ source_faults self.now }
    {
        self.faults
    }
}

impl<R: Read> Source for StdSource<R> {
    ghost use Rattle.sj_edge.specs.Standard.{source_inner, source_faults};

    ghost left = { λ _. None };

    ghost faults = { λ s. s.faults };

    /// One call of the reader's `read`, and another where that was interrupted: 1,000 at most. The
    /// last interruption of so many is a fault, as is any other error.
    fn read(&mut self, buf: &mut [u8]) -> Result<usize, Failed>
        ensures takes_at_most_the_buffer { ReadsAtMost result buf.new }
        ensures gives_what_the_reader_gives { ReadConsumes (R.remaining (source_inner self.old))
            (R.remaining (source_inner self.new)) result buf.new }
        ensures counts_a_fault_exactly_where_it_fails { source_faults self.new
            ≡ counted (source_faults self.old) (is_err result) }
        ensures failed_only_where_faults_rose { Counts
            (source_faults self.old) (source_faults self.new) (IsErr result) }
    {
        match read_some(&mut self.inner, buf) {
            Ok(n) => Ok(n),
            Err(Failed) => {
                self.faults = self.faults.saturating_add(1);
                Err(Failed)
            }
        }
    }
}

/// One read of the reader's, after those that are interrupted.
fn read_some<R: Read>(inner: &mut R, buf: &mut [u8]) -> Result<usize, Failed>
    ensures at_most { ReadsAtMost result buf.new }
    ensures bytes { ReadConsumes (R.remaining inner.old) (R.remaining inner.new) result buf.new }
{
    for _ in 0..TRIES {
        match inner.read(buf) {
            Ok(n) => return Ok(n),
            Err(e) => {
                if e.kind() != ErrorKind::Interrupted {
                    return Err(Failed);
                }
            }
        }
    }
    Err(Failed)
}

/// Writes to one of std's writers, flushes it after each write, and counts its errors.
/// Tells nothing.
#[derive(Debug, Drop)]
pub struct StdSink<W> {
    inner: W,
    faults: u64,
}

impl<W> StdSink<W> {
    ghost use Rattle.sj_edge.specs.Standard.{sink_inner, sink_faults};

    /// Writes to this writer. Constant time.
    pub fn over(inner: W) -> StdSink<W>
        ensures inner { sink_inner result ≡ inner }
        ensures faults { sink_faults result ≡ 0 }
    {
        StdSink { inner, faults: 0 }
    }

    /// The writer. Constant time.
    pub fn into_inner(self) -> W
        ensures { result ≡ sink_inner self }
    {
        self.inner
    }

    /// How many faults there were. Constant time.
    pub fn faults(&self) -> u64
        ensures { result ≡ sink_faults self.now }
    {
        self.faults
    }
}

impl<W: Write> Sink for StdSink<W> {
    ghost use Rattle.sj_edge.specs.Standard.{sink_inner, sink_faults};

    ghost taken = { λ _. None };

    ghost faults = { λ s. s.faults };

    /// One call of the writer's `write` and one of its `flush`, and another of either where that
    /// was interrupted: 1,000 at most. The last interruption of so many is a fault, as is any other
    /// error, and a write that takes nothing of a piece that isn't empty.
    ///
    /// Where the flush fails, the answer is `Failed` though the writer was given bytes.
    fn write(&mut self, bytes: &[u8]) -> Result<usize, Failed>
        ensures takes_at_most_the_bytes { WritesAtMost result bytes.now }
        ensures takes_at_least_one { 0 < length bytes.now → IfOk result (λ n. 0 < n) }
        ensures hands_on_the_first_bytes { IfOk result
            (λ n. Appends (W.contents (sink_inner self.old))
            (W.contents (sink_inner self.new)) (take n bytes.now)) }
        ensures counts_a_fault_exactly_where_it_fails { sink_faults self.new
            ≡ counted (sink_faults self.old) (is_err result) }
        ensures failed_only_where_faults_rose { Counts
            (sink_faults self.old) (sink_faults self.new) (IsErr result) }
    {
        match write_and_flush(&mut self.inner, bytes) {
            Ok(n) => Ok(n),
            Err(Failed) => {
                self.faults = self.faults.saturating_add(1);
                Err(Failed)
            }
        }
    }
}

/// One write of the writer's and one flush.
fn write_and_flush<W: Write>(inner: &mut W, bytes: &[u8]) -> Result<usize, Failed>
    ensures at_most { WritesAtMost result bytes.now }
    ensures at_least_one { 0 < length bytes.now → IfOk result (λ n. 0 < n) }
    ensures bytes { IfOk result (λ n. Appends (W.contents inner.old) (W.contents inner.new)
        (take n bytes.now)) }
{
    let n = write_some(inner, bytes)?;
    flush(inner)?;
    if n == 0 && !bytes.is_empty() {
        return Err(Failed);
    }
    Ok(n)
}

/// One write of the writer's, after those that are interrupted.
fn write_some<W: Write>(inner: &mut W, bytes: &[u8]) -> Result<usize, Failed>
    ensures at_most { WritesAtMost result bytes.now }
    ensures bytes { WriteAppends (W.contents inner.old) (W.contents inner.new) result bytes.now }
{
    for _ in 0..TRIES {
        match inner.write(bytes) {
            Ok(n) => return Ok(n),
            Err(e) => {
                if e.kind() != ErrorKind::Interrupted {
                    return Err(Failed);
                }
            }
        }
    }
    Err(Failed)
}

/// One flush of the writer's, after those that are interrupted.
fn flush<W: Write>(inner: &mut W) -> Result<(), Failed>
    ensures { Keeps (W.contents inner.old) (W.contents inner.new) }
{
    for _ in 0..TRIES {
        match inner.flush() {
            Ok(()) => return Ok(()),
            Err(e) => {
                if e.kind() != ErrorKind::Interrupted {
                    return Err(Failed);
                }
            }
        }
    }
    Err(Failed)
}
