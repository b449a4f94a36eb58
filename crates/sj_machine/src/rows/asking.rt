//! What is asked of the rows before an event.

use super::Rows;
use crate::choosing::{are_gone, is_fresh, is_read};
use crate::claiming::node_of;
use crate::plan::bytes_to_come;
use sj_base::ids::{Cell, Node, Task, Worker};
use sj_core::tasks::task_at;

impl Rows {
    ghost use Rattle.std.specs.Prelude.{◌≡◌, ◌<◌, length};
    ghost use Rattle.sj_base.specs.declared.ids.Place.TheVariants.{Node as AtNode};
    ghost use Rattle.sj_core.specs.Machine.{has_room, progress};
    ghost use Rattle.sj_core.specs.Needs.{node_of};
    ghost use Rattle.sj_core.specs.Step.{is_fresh, is_read, to_come};
    ghost use Rattle.sj_core.specs.declared.progress.Progress.TheVariants.{Claimed};

    /// Whether a transfer reads a cell at a node. Linear in the workers.
    pub fn is_read(&self, cell: Cell, n: Node) -> bool
        ensures { result ≡ is_read self.now.state cell (AtNode n) }
    {
        is_read(&self.workers, cell, n)
    }

    /// The bytes that a claim of a task brings to the worker's node: of those of its cells that have no entry there, each once,
    /// and of its scratch. Quadratic in the operands; no memory.
    pub fn bytes_to_come(&self, t: Task, w: Worker) -> u64
        requires task { t.0 < length self.now.program.tasks }
        requires worker { w.0 < self.now.program.workers }
        ensures { result ≡ to_come self.now.program self.now.state t w
            (node_of self.now.machine w) }
    {
        let n = node_of(&self.machine, w);
        let node = &self.nodes[n.0 as usize];
        bytes_to_come(&self.program, &self.cells, node, n, t, w)
    }

    /// Whether all victims of a worker's claim are gone. Linear in them.
    pub fn has_room(&self, w: Worker) -> bool
        requires { w.0 < self.now.program.workers }
        ensures { result ≡ has_room self.now.machine self.now.state w }
    {
        let n = node_of(&self.machine, w);
        let victims = self.workers[w.0 as usize].victims();
        are_gone(&self.cells, n, w, victims)
    }

    /// Whether a cell is one whose old value a worker's claimed task doesn't read. Linear in the operands.
    #[tactic(auto, using(crate::proofs::Asking::numbers, crate::proofs::Asking::fresh_is))]
    pub fn is_fresh(&self, t: Task, w: Worker, cell: Cell) -> bool
        requires { progress self.now.state t ≡ Claimed w }
        ensures { result ≡ is_fresh self.now.program self.now.state w cell }
    {
        let accesses = task_at(&self.program, t).accesses.items();
        is_fresh(&self.program, w, accesses, cell)
    }
}
