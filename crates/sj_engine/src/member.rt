//! A worker with its seat, and how far it is between two stretches of its work.

ghost use Rattle.std.specs.Prelude.{◌≡◌};
ghost use Rattle.sj_engine.specs.Member.{may_rest};

use crate::worker_seat::WorkerSeat;
use sj_base::ids::Task;
use sj_edge::disk::Disk;
use sj_steal::shared::Pass;

/// How far a worker is between two stretches of its work.
#[derive(Clone, Copy, Debug, PartialEq, Eq)]
pub enum Stage {
    /// It has nothing in hand, and is to look for a task.
    Fresh,
    /// It has nothing in hand, found nothing that it could claim, and has heard the bell.
    Idle,
    /// It has claimed this task, waits for another worker, and has heard the bell.
    Blocked(Task),
    /// It has stopped.
    Stopped,
}

impl Stage {
    /// Whether the worker has looked and can't go on.
    pub fn may_rest(&self) -> bool
        ensures { result ≡ may_rest self.now }
    {
        match self {
            Stage::Idle | Stage::Blocked(_) => true,
            Stage::Fresh | Stage::Stopped => false,
        }
    }
}

/// A worker with its seat, and with its pass of the shared queues, where ready tasks wait there.
#[derive(Drop)]
pub struct SeatedWorker<D: Disk> {
    pub seat: WorkerSeat<D>,
    pub pass: Option<Pass>,
    pub stage: Stage,
    /// The bell that its thread sleeps on: of its own number where it has a thread to itself, and that of the caller's thread
    /// where it shares it.
    pub bell: u8,
}
