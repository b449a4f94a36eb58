//! Disks and a gate that wait for what other threads do. They look so often and then give up, so that a run ends in any case.

ghost use Rattle.std.specs.Prelude.{◌≡◌, Some, length};

use sj_base::ids::Task;
use sj_edge::disk::{CheckFault, Disk};
use sj_edge::gate::Gate;
use sj_edge::memory_disk::MemDisk;
use sj_edge::source::Failed;
use std::sync::atomic::{AtomicU64, Ordering};
use std::thread;
use std::time::{Clock, Duration};

/// How often a thread looks for what it waits for, a millisecond from one look to the next.
const LOOKS: u32 = 10_000;

/// Waits until a number is as high as this, for some ten seconds. Whether it is by then.
fn has_come<R: Clock>(clock: &R, number: &AtomicU64, wanted: u64) -> bool {
    for _ in 0..LOOKS {
        if number.load(Ordering::SeqCst) >= wanted {
            return true;
        }
        thread::sleep(clock, Duration::from_millis(1));
    }
    false
}

/// What the threads of a run have begun.
#[derive(Drop)]
pub struct Begun {
    kernels: AtomicU64,
    /// First writes, or first reads, of disks that are held there.
    transfers: AtomicU64,
}

impl Begun {
    /// Nothing.
    pub fn nothing() -> Begun {
        Begun {
            kernels: AtomicU64::new(0),
            transfers: AtomicU64::new(0),
        }
    }
}

/// Keeps the first task inside until a transfer has begun.
#[derive(Drop)]
pub struct FirstWaits<'a> {
    pub clock: HostRuntime,
    pub begun: &'a Begun,
}

impl Gate for FirstWaits<'_> {
    fn entered(&self, task: Task) {
        self.begun.kernels.fetch_add(1, Ordering::SeqCst);
        if task == Task(0) {
            has_come(&self.clock, &self.begun.transfers, 1);
        }
    }

    fn left(&self, _task: Task) {}
}

/// What a disk's first call of a kind waits for.
#[derive(Clone, Copy, Debug, PartialEq, Eq)]
pub enum Until {
    /// So many kernels more have begun.
    Kernels(u64),
    /// So many transfers have begun, its own among them.
    Transfers(u64),
}

/// Which calls are of that kind.
#[derive(Clone, Copy, Debug, PartialEq, Eq)]
pub enum Held {
    Writes,
    Reads,
}

/// A disk in memory whose first write, or first read, waits.
#[derive(Drop)]
pub struct HeldDisk<'a> {
    pub clock: HostRuntime,
    pub begun: &'a Begun,
    pub disk: MemDisk,
    pub held: Held,
    pub until: Until,
    /// Whether what it waited for came, where it has waited.
    pub came: Option<bool>,
}

impl HeldDisk<'_> {
    /// Waits, where this is the first call of its kind.
    fn hold(&mut self, call: Held)
        ensures { self.new.disk ≡ self.old.disk }
    {
        if call != self.held || self.came.is_some() {
            return;
        }
        let kernels = self.begun.kernels.load(Ordering::SeqCst);
        self.begun.transfers.fetch_add(1, Ordering::SeqCst);
        let came = match self.until {
            Until::Kernels(count) => has_come(
                &self.clock,
                &self.begun.kernels,
                kernels.saturating_add(count),
            ),
            Until::Transfers(count) => has_come(&self.clock, &self.begun.transfers, count),
        };
        self.came = Some(came);
    }
}

impl Disk for HeldDisk<'_> {
    ghost size = { λ d. length d.disk.bytes };

    ghost held = { λ d. Some d.disk.bytes };

    ghost faults = { λ d. d.disk.called.faults };

    ghost mismatches = { λ d. d.disk.mismatches };

    fn size(&self) -> u64 {
        self.disk.size()
    }

    fn read(&mut self, at: u64, buf: &mut [u8]) -> Result<(), Failed> {
        self.hold(Held::Reads);
        self.disk.read(at, buf)
    }

    fn write(&mut self, at: u64, bytes: &[u8]) -> Result<(), Failed> {
        self.hold(Held::Writes);
        self.disk.write(at, bytes)
    }

    fn check(&mut self, at: u64, want: &[u8; 24]) -> Result<(), CheckFault> {
        self.disk.check(at, want)
    }
}
