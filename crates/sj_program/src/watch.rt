//! A line on the terminal that says how far a run has come.

ghost use Rattle.std.specs.Prelude.{◌≡◌};

use crate::tally::RunTally;
use sj_edge::sink::Sink;
use sj_edge::source::Failed;
use std::alloc::Global;
use std::io::Error;
use std::rt::Clock;
use std::sync::{Arc, Condvar, CondvarTimeouts, Mutex, Wait};
use std::time::Duration;

/// How many milliseconds a run may take before its line is shown.
const BEFORE_THE_FIRST: u64 = 1000;

/// The milliseconds from one line to the next.
const BETWEEN: u64 = 100;

/// What takes the line off the terminal.
const ERASED: &str = "\r\x1b[K";

/// What stands on the terminal.
#[derive(Drop)]
struct Shown {
    is_there: bool,
    is_over: bool,
}

/// The line of a run, which one thread shows while the others count.
#[derive(Drop)]
pub struct Watch {
    tally: Arc<RunTally, Global>,
    shown: Mutex<Shown>,
    ends: Condvar,
}

impl Watch {
    /// Shows what this tally says. Nothing has been shown yet.
    pub fn over(tally: Arc<RunTally, Global>) -> Watch {
        Watch {
            tally,
            shown: Mutex::new(Shown {
                is_there: false,
                is_over: false,
            }),
            ends: Condvar::new(),
        }
    }

    /// Waits so many milliseconds for the end, and then shows the line, unless no kernel has begun. Says whether the end came.
    fn waits_or_shows<R>(&self, rt: &R, alloc: Global, millis: u64) -> bool
    where
        R: Wait + Clock + Eprint,
    {
        let time = Duration::from_millis(millis);
        let shown = self.shown.lock(rt);
        let (mut shown, _) = self
            .ends
            .wait_timeout_while(rt, shown, time, |shown| !shown.is_over);
        if shown.is_over {
            return true;
        }
        if !self.tally.has_begun() {
            return false;
        }
        if let Ok(line) = format!(in alloc; "{ERASED}{}", *self.tally) {
            shown.is_there = true;
            let _ = rt.eprint(line.as_str());
        }
        false
    }

    /// Shows the line anew ten times a second, from the first second on, until `end` is called. Returns then.
    pub fn show<R: Wait + Clock + Eprint>(&self, rt: &R, alloc: Global) {
        let mut millis = BEFORE_THE_FIRST;
        for _ in rt.forever() {
            if self.waits_or_shows(rt, alloc, millis) {
                return;
            }
            millis = BETWEEN;
        }
    }

    /// Why the system failed the disk last, where it told that.
    pub fn cause(&self) -> Option<Error> {
        self.tally.cause()
    }

    /// Takes the line off the terminal, for good.
    pub fn end<R: Wait + Eprint>(&self, rt: &R) {
        let mut shown = self.shown.lock(rt);
        if shown.is_there {
            let _ = rt.eprint(ERASED);
        }
        shown.is_there = false;
        shown.is_over = true;
        drop(shown);
        self.ends.notify_all();
    }
}

/// A sink that takes the line off the terminal before it writes.
#[derive(Drop)]
pub struct ErasingSink<'a, R, K> {
    rt: &'a R,
    watch: &'a Watch,
    inner: K,
}

impl<'a, R: Wait + Eprint, K: Sink> ErasingSink<'a, R, K> {
    /// Writes to this sink. Constant time.
    pub fn over(rt: &'a R, watch: &'a Watch, inner: K) -> ErasingSink<'a, R, K>
        ensures tells_the_same { ⟦<ErasingSink<'a, R, K> as Sink>⟧.taken result ≡ K.taken inner }
        ensures has_the_same_faults { ⟦<ErasingSink<'a, R, K> as Sink>⟧.faults result
            ≡ K.faults inner }
    {
        ErasingSink { rt, watch, inner }
    }

    /// The sink that it wrote to. Constant time.
    pub fn into_inner(self) -> K
        ensures tells_the_same { K.taken result
            ≡ ⟦<ErasingSink<'a, R, K> as Sink>⟧.taken self.entry }
        ensures has_the_same_faults { K.faults result
            ≡ ⟦<ErasingSink<'a, R, K> as Sink>⟧.faults self.entry }
    {
        self.inner
    }
}

impl<R: Wait + Eprint, K: Sink> Sink for ErasingSink<'_, R, K> {
    ghost taken = { λ s. K.taken s.inner };

    ghost faults = { λ s. K.faults s.inner };

    fn write(&mut self, bytes: &[u8]) -> Result<usize, Failed> {
        self.watch.end(self.rt);
        self.inner.write(bytes)
    }
}
