//! What is counted of a run while it goes on.

ghost use Rattle.std.specs.Prelude.{◌≡◌};

use sj_base::ids::Task;
use sj_edge::disk::{CheckFault, Disk};
use sj_edge::file_disk::FileDisk;
use sj_edge::gate::Gate;
use sj_edge::memory_disk::MemDisk;
use sj_edge::source::Failed;
use std::alloc::Global;
use std::fmt;
use std::io::Error;
use std::sync::Arc;
use std::sync::atomic::{AtomicU64, Ordering};

/// A mebibyte.
const MEBIBYTE: u64 = 1 << 20;

/// A disk that may tell why the system failed its last call.
pub trait Telling: Disk {
    /// The system's number of the cause.
    fn cause(&self) -> Option<i32>;
}

impl Telling for MemDisk {
    fn cause(&self) -> Option<i32> {
        None
    }
}

impl Telling for FileDisk {
    fn cause(&self) -> Option<i32> {
        FileDisk::cause(self)
    }
}

/// The tasks of a run, the kernels that have begun and ended, the bytes that went to the swap disk and came from it, and the
/// system's number of the cause of its last fault, or 0.
#[derive(Drop)]
pub struct RunTally {
    tasks: AtomicU64,
    begun: AtomicU64,
    ended: AtomicU64,
    stored: AtomicU64,
    fetched: AtomicU64,
    cause: AtomicU64,
}

impl RunTally {
    /// Nothing yet.
    pub fn new() -> RunTally {
        RunTally {
            tasks: AtomicU64::new(0),
            begun: AtomicU64::new(0),
            ended: AtomicU64::new(0),
            stored: AtomicU64::new(0),
            fetched: AtomicU64::new(0),
            cause: AtomicU64::new(0),
        }
    }

    /// Whether a kernel has begun.
    pub fn has_begun(&self) -> bool {
        read(&self.begun) > 0
    }

    /// Why the system failed the last call of the disk that it failed, where it told that.
    pub fn cause(&self) -> Option<Error> {
        let number = i32::try_from(read(&self.cause)).ok()?;
        if number == 0 {
            return None;
        }
        Some(Error::from_raw_os_error(number))
    }
}

fn add(count: &AtomicU64, more: u64) {
    count.fetch_add(more, Ordering::SeqCst);
}

fn read(count: &AtomicU64) -> u64 {
    count.load(Ordering::SeqCst)
}

impl fmt::Display for RunTally {
    fn fmt<W: fmt::Write>(&self, f: &mut fmt::Formatter<W>) -> fmt::Result {
        let tasks = read(&self.tasks);
        let ended = read(&self.ended);
        let in_hand = read(&self.begun).saturating_sub(ended);
        let stored = read(&self.stored) / MEBIBYTE;
        let fetched = read(&self.fetched) / MEBIBYTE;
        write!(
            f,
            "starjob: {ended} of {tasks} tasks done, {in_hand} in hand, swap: {stored} MiB out, {fetched} MiB in"
        )
    }
}

/// Counts kernels where the run is watched, and else returns at once.
#[derive(Drop)]
pub struct TallyGate<'a> {
    tally: Option<&'a RunTally>,
}

impl<'a> TallyGate<'a> {
    /// Counts for this tally, where there is one.
    pub fn over(tally: Option<&'a RunTally>) -> TallyGate<'a> {
        TallyGate { tally }
    }
}

impl Gate for TallyGate<'_> {
    fn begins(&self, tasks: usize) {
        if let Some(tally) = self.tally {
            add(&tally.tasks, tasks as u64);
        }
    }

    fn entered(&self, _task: Task) {
        if let Some(tally) = self.tally {
            add(&tally.begun, 1);
        }
    }

    fn left(&self, _task: Task) {
        if let Some(tally) = self.tally {
            add(&tally.ended, 1);
        }
    }
}

/// A disk whose bytes are counted as they go and come.
#[derive(Drop)]
pub struct TallyDisk<D> {
    disk: D,
    tally: Arc<RunTally, Global>,
}

impl<D: Telling> TallyDisk<D> {
    /// The same disk, with its bytes counted. Constant time.
    pub fn over(disk: D, tally: Arc<RunTally, Global>) -> TallyDisk<D>
        ensures size { ⟦<TallyDisk<D> as Disk>⟧.size result ≡ D.size disk }
        ensures tells_the_same { ⟦<TallyDisk<D> as Disk>⟧.held result ≡ D.held disk }
    {
        TallyDisk { disk, tally }
    }
}

impl<D: Telling> TallyDisk<D> {
    /// Keeps the cause of a fault.
    fn note(&self, has_failed: bool) {
        if !has_failed {
            return;
        }
        let number = self.disk.cause().map_or(0, |number| number.unsigned_abs());
        self.tally.cause.store(u64::from(number), Ordering::SeqCst);
    }
}

impl<D: Telling> Disk for TallyDisk<D> {
    ghost size = { λ d. D.size d.disk };

    ghost held = { λ d. D.held d.disk };

    ghost faults = { λ d. D.faults d.disk };

    ghost mismatches = { λ d. D.mismatches d.disk };

    fn size(&self) -> u64 {
        self.disk.size()
    }

    fn read(&mut self, at: u64, buf: &mut [u8]) -> Result<(), Failed> {
        add(&self.tally.fetched, buf.len() as u64);
        let done = self.disk.read(at, buf);
        self.note(done.is_err());
        done
    }

    fn write(&mut self, at: u64, bytes: &[u8]) -> Result<(), Failed> {
        add(&self.tally.stored, bytes.len() as u64);
        let done = self.disk.write(at, bytes);
        self.note(done.is_err());
        done
    }

    fn check(&mut self, at: u64, want: &[u8; 24]) -> Result<(), CheckFault> {
        add(&self.tally.fetched, want.len() as u64);
        let done = self.disk.check(at, want);
        self.note(matches!(done, Err(CheckFault::Failed)));
        done
    }
}
