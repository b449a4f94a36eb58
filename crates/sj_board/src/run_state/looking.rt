//! What is read of a run.

use super::RunState;
use sj_base::ids::{Node, Task, Worker};
use sj_base::program::{Machine, Program};
use sj_base::trace::Trace;
use sj_core::progress::Progress;
use sj_disk::lending_set::LendingSet;
use sj_edge::disk::Disk;

impl<D: Disk> RunState<D> {
    ghost use Rattle.std.specs.Prelude.{◌≡◌, ◌<◌, length};
    ghost use Rattle.sj_core.specs.Machine.{progress};
    ghost use Rattle.sj_core.specs.Needs.{node_of, node_size};
    ghost use Rattle.sj_core.specs.Step.{to_come};
    ghost use Rattle.sj_board.specs.Standing.{state};
    ghost use Rattle.sj_board.specs.DiskUnits.{lent};

    /// The program. Constant time.
    pub fn program(&self) -> &Program
        ensures { result.now ≡ self.now.program }
    {
        self.rows.program()
    }

    /// The machine. Constant time.
    pub fn machine(&self) -> &Machine
        ensures { result.now ≡ self.now.machine }
    {
        self.rows.machine()
    }

    /// The node to which a worker is bound. Constant time.
    pub fn node_of(&self, w: Worker) -> Node
        ensures { result ≡ node_of self.now.machine w }
    {
        self.rows.node_of(w)
    }

    /// The bytes of the node to which a worker is bound. Constant time.
    pub fn node_size(&self, w: Worker) -> u64
        ensures { result ≡ node_size self.now.machine (node_of self.now.machine w) }
    {
        self.rows.node_size(w)
    }

    /// How far a task is. Constant time.
    pub fn progress(&self, t: Task) -> Progress
        requires { t.0 < length self.now.program.tasks }
        ensures { result ≡ progress (state self.now) t }
    {
        self.rows.progress(t)
    }

    /// The bytes that a claim of a task brings to the worker's node: of those of its cells that have no entry there, each once,
    /// and of its scratch. Quadratic in the operands; no memory.
    pub fn bytes_to_come(&self, t: Task, w: Worker) -> u64
        requires task { t.0 < length self.now.program.tasks }
        requires worker { w.0 < self.now.program.workers }
        ensures { result ≡ to_come self.now.program (state self.now) t w
            (node_of self.now.machine w) }
    {
        self.rows.bytes_to_come(t, w)
    }

    /// The events, and the disks. Constant time, and no memory.
    pub fn close(self) -> (Trace, LendingSet<D>)
        ensures trace { result.0.events ≡ self.trace }
        ensures disks { result.1 ≡ lent self }
    {
        (self.trace, self.disks)
    }
}
