//! The limit that the system sets to the size of files.

ghost use Rattle.std.specs.Prelude.{◌≡◌, ◌<◌, ◌≤◌, None, IfOk, length};
ghost use Rattle.std.specs.Io.{WritesAtMost};

use sj_edge::sink::Sink;
use sj_edge::source::Failed;
use std::fs;
use std::rt::Files;

/// The flag of the system's that a file is written to at its end.
const APPEND: u64 = 0o2000;

/// The most bytes that a file of this process may have, where the system sets a limit. A write beyond it would end the
/// process by a signal.
pub fn file_size_limit<R: Files + Alloc>(rt: &R) -> Option<u64> {
    let limits = fs::read_to_string(rt, "/proc/self/limits").ok()?;
    limits.lines().find_map(limit_of_line)
}

/// The limit that a line of the system's table says, where it is that of file sizes and says one.
fn limit_of_line(line: &str) -> Option<u64> {
    let limits = line.strip_prefix("Max file size")?;
    limits.split_whitespace().next()?.parse::<u64>().ok()
}

/// Where the next byte goes that is written to a stream of this process, into a file of so many bytes.
fn position<R: Files + Alloc>(rt: &R, stream: u8, length: u64) -> Option<u64> {
    let path = format!(in rt.alloc(); "/proc/self/fdinfo/{stream}").ok()?;
    let info = fs::read_to_string(rt, path.as_str()).ok()?;
    let at = info.lines().find_map(|line| line.strip_prefix("pos:"))?;
    let flags = info.lines().find_map(|line| line.strip_prefix("flags:"))?;
    let flags = u64::from_str_radix(flags.trim(), 8).ok()?;
    if flags & APPEND != 0 {
        return Some(length);
    }
    at.trim().parse::<u64>().ok()
}

/// How many bytes a stream of this process takes before the system's limit of file sizes, where it is a regular file and
/// there is a limit.
fn room_of<R: Files + Alloc>(rt: &R, stream: u8) -> Option<u64> {
    let limit = file_size_limit(rt)?;
    let path = format!(in rt.alloc(); "/proc/self/fd/{stream}").ok()?;
    let found = fs::metadata(rt, path.as_str()).ok()?;
    if !found.is_file() {
        return None;
    }
    let at = position(rt, stream, found.len())?;
    Some(limit.saturating_sub(at))
}

/// A sink that refuses what is beyond the room of its stream, in place of a write that would end the process. Tells nothing.
///
/// Where there is a limit the room is asked for anew before each write, since another stream may have written to the same file.
#[derive(Drop)]
pub struct BoundedSink<'a, R, K> {
    rt: &'a R,
    stream: u8,
    inner: K,
    room: Option<u64>,
    faults: u64,
}

impl<'a, R: Files + Alloc, K: Sink> BoundedSink<'a, R, K> {
    /// Writes to this sink, which is a stream of the process, as many bytes as there is room for, or as many as come.
    pub fn over(rt: &'a R, stream: u8, inner: K) -> BoundedSink<'a, R, K>
        ensures tells_nothing { ⟦<BoundedSink<'a, R, K> as Sink>⟧.taken result ≡ None }
        ensures has_no_fault { ⟦<BoundedSink<'a, R, K> as Sink>⟧.faults result ≡ 0 }
    {
        BoundedSink {
            rt,
            stream,
            inner,
            room: room_of(rt, stream),
            faults: 0,
        }
    }

    /// The room that there is now: no more than there was.
    fn room_left(&self) -> Option<u64> {
        let room = self.room?;
        let now = room_of(self.rt, self.stream).unwrap_or(room);
        Some(room.min(now))
    }
}

/// The first of these bytes that there is room for.
fn that_fit(bytes: &[u8], room: Option<u64>) -> &[u8]
    ensures { length result.now ≤ length bytes.now }
{
    match room {
        Some(room) if room < bytes.len() as u64 => &bytes[..room as usize],
        _ => bytes,
    }
}

impl<R: Files + Alloc, K: Sink> BoundedSink<'_, R, K> {
    /// Writes the first bytes that there is room for: at least one, where there is one.
    fn write_some(&mut self, bytes: &[u8]) -> Result<usize, Failed>
        ensures at_most { WritesAtMost result bytes.now }
        ensures at_least_one { 0 < length bytes.now → IfOk result (λ n. 0 < n) }
        ensures counts_no_fault { self.new.faults ≡ self.old.faults }
    {
        let room = self.room_left();
        let bytes_that_fit = that_fit(bytes, room);
        if bytes_that_fit.is_empty() && !bytes.is_empty() {
            return Err(Failed);
        }
        let taken = self.inner.write(bytes_that_fit)?;
        self.room = room.map(|room| room.saturating_sub(taken as u64));
        Ok(taken)
    }
}

impl<R: Files + Alloc, K: Sink> Sink for BoundedSink<'_, R, K> {
    ghost taken = { λ _. None };

    ghost faults = { λ s. s.faults };

    fn write(&mut self, bytes: &[u8]) -> Result<usize, Failed> {
        match self.write_some(bytes) {
            Ok(taken) => Ok(taken),
            Err(Failed) => {
                self.faults = self.faults.saturating_add(1);
                Err(Failed)
            }
        }
    }
}
