//! Standard streams that may not block.

ghost use Rattle.std.specs.Prelude.{◌≡◌};

use std::io::{ErrorKind, Read, Result, Write};
use std::marker::Model;
use std::rt::Clock;
use std::sync::Wait;
use std::thread;
use std::time::Duration;

/// The milliseconds from one try to the next.
const PAUSE: u64 = 1;

/// A stream that is tried again, a thousand times a second, while it has nothing to give or no room: what another process has
/// made not to block is waited for as any other. Contracts see the stream.
#[derive(Drop)]
pub struct Patient<'a, R, S> {
    rt: &'a R,
    stream: S,
}

impl<'a, R, S> Model for Patient<'a, R, S> {
    ghost Value = { S };

    ghost view = { λ p. p.stream };
}

impl<'a, R, S> Patient<'a, R, S> {
    /// Waits for this stream.
    pub fn over(rt: &'a R, stream: S) -> Patient<'a, R, S>
        ensures is_over_the_stream { result ≡ stream }
    {
        Patient { rt, stream }
    }
}

/// Whether a call is to be made again.
fn is_not_yet<T>(done: &Result<T>) -> bool {
    match done {
        Ok(_) => false,
        Err(e) => e.kind() == ErrorKind::WouldBlock,
    }
}

fn pause<R: Clock>(rt: &R) {
    thread::sleep(rt, Duration::from_millis(PAUSE));
}

impl<R: Wait + Clock, S: Read> Read for Patient<'_, R, S> {
    fn read(&mut self, buf: &mut [u8]) -> Result<usize> {
        for _ in self.rt.forever() {
            let done = self.stream.read(buf);
            if !is_not_yet(&done) {
                return done;
            }
            pause(self.rt);
        }
        unreachable!()
    }
}

impl<R: Wait + Clock, S: Write> Write for Patient<'_, R, S> {
    fn write(&mut self, bytes: &[u8]) -> Result<usize> {
        for _ in self.rt.forever() {
            let done = self.stream.write(bytes);
            if !is_not_yet(&done) {
                return done;
            }
            pause(self.rt);
        }
        unreachable!()
    }

    fn flush(&mut self) -> Result<()> {
        for _ in self.rt.forever() {
            let done = self.stream.flush();
            if !is_not_yet(&done) {
                return done;
            }
            pause(self.rt);
        }
        unreachable!()
    }
}
