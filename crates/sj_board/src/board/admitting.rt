//! What the board says of a task whose number comes from outside it.

ghost use Rattle.std.specs.Prelude.{◌≡◌, ◌↔◌, ◌<◌, IsTrue, length};
ghost use Rattle.sj_core.specs.Needs.{node_of};
ghost use Rattle.sj_core.specs.Step.{to_come};
ghost use Rattle.sj_core.specs.declared.progress.Progress.TheVariants.{Waiting};
ghost use Rattle.sj_board.specs.Standing.{state};
ghost use Rattle.sj_board.specs.Claimable.{FitsNode, IsClaimable, MayBegin, TellsOf};

use super::Board;
use crate::claimable::Claimable;
use sj_base::ids::{Task, Worker};
use sj_core::progress::Progress;
use sj_edge::disk::Disk;

/// Whether a task is neither claimed nor begun. Constant time.
fn waits(progress: Progress) -> bool
    ensures { IsTrue result ↔ (progress ≡ Waiting) }
{
    matches!(progress, Progress::Waiting)
}

impl<D: Disk> Board<D> {
    /// Whether a task is one of the program's that are ready and wait. Constant time.
    fn is_claimable(&self, t: Task) -> bool
        ensures { IsTrue result ↔ IsClaimable self.now t }
    {
        self.deps.is_ready(t) && waits(self.run.progress(t))
    }

    /// Whether a worker's node is large enough for a task. Constant time, and no memory.
    pub fn fits_node(&self, t: Task, w: Worker) -> bool
        requires task { t.0 < length self.now.run.program.tasks }
        requires worker { w.0 < self.now.run.program.workers }
        ensures { IsTrue result ↔ FitsNode self.now t w }
    {
        self.footprints[t.0 as usize] <= self.run.node_size(w)
    }

    /// The bytes that a claim of a task brings to the worker's node: of those of its cells that have no entry there, each once,
    /// and of its scratch. Quadratic in the operands, which are a task's few; no memory.
    pub fn bytes_to_come(&self, t: Task, w: Worker) -> u64
        requires task { t.0 < length self.now.run.program.tasks }
        requires worker { w.0 < self.now.run.program.workers }
        ensures { result ≡ to_come self.now.run.program (state self.now.run) t w
            (node_of self.now.run.machine w) }
    {
        self.run.bytes_to_come(t, w)
    }

    /// Whether a worker has no task, and no fault is kept. Constant time.
    fn may_begin(&self, w: Worker) -> bool
        requires worker { w.0 < self.now.run.program.workers }
        ensures { IsTrue result ↔ MayBegin self.now w }
    {
        self.hands[w.0 as usize].task.is_none() && self.fault.is_none()
    }

    /// Whether a worker may claim a task whose number comes from outside: the program's, ready and waiting, small enough for its
    /// node, while it has no task and no fault is kept. Constant time, and no memory.
    pub fn may_claim(&self, t: Task, w: Worker) -> Claimable
        requires { w.0 < self.now.run.program.workers }
        ensures { TellsOf self.now t w result }
    {
        if !self.is_claimable(t) {
            return Claimable::Stale;
        }
        if !self.fits_node(t, w) {
            return Claimable::TooBig;
        }
        if !self.may_begin(w) {
            return Claimable::Closed;
        }
        Claimable::Yes
    }
}
