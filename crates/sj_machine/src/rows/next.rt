//! What a worker does next for the task that it has claimed.

use super::Rows;
use crate::choosing::{first_brought, last_leaving, may_run};
use crate::claiming::node_of;
use crate::gone::gone_among;
use sj_base::ids::{Cell, Task, Worker};
use sj_core::tasks::task_at;

impl Rows {
    ghost use Rattle.std.specs.Prelude.{◌≡◌, ◌<◌};
    ghost use Rattle.sj_core.specs.Machine.{progress};
    ghost use Rattle.sj_core.specs.declared.progress.Progress.TheVariants.{Claimed};
    ghost use Rattle.sj_machine.specs.Choosing.{may_run, next_cell, next_victim};
    ghost use Rattle.sj_machine.specs.Gone.{AreGone};

    /// How many of a worker's victims are gone, of those that go first, where so many are known to be. Linear in those that are
    /// found; no memory.
    pub fn gone(&self, w: Worker, known: usize) -> usize
        requires worker { w.0 < self.now.program.workers }
        requires known { AreGone self.now.machine self.now.state w known }
        ensures { AreGone self.now.machine self.now.state w result }
    {
        let n = node_of(&self.machine, w);
        let victims = self.workers[w.0 as usize].victims();
        gone_among(&self.cells, n, w, victims, known)
    }

    /// The victim of a worker's claim that goes next, where so many of its victims, those that go first, are known to be gone.
    /// Linear in the others that are gone; no memory.
    #[tactic(auto, using(crate::proofs::GoneVictims::next_left))]
    pub fn next_victim(&self, w: Worker, gone: usize) -> Option<Cell>
        requires worker { w.0 < self.now.program.workers }
        requires gone { AreGone self.now.machine self.now.state w gone }
        ensures { result ≡ next_victim self.now.machine self.now.state w }
    {
        let n = node_of(&self.machine, w);
        let victims = self.workers[w.0 as usize].victims();
        last_leaving(&self.cells, n, w, victims, gone)
    }

    /// The cell that a worker brings next for the task that it has claimed. Quadratic in the operands, which are a task's few;
    /// no memory.
    #[tactic(auto, using(crate::proofs::Asking::numbers, crate::proofs::Asking::cell_is))]
    pub fn next_cell(&self, t: Task, w: Worker) -> Option<Cell>
        requires { progress self.now.state t ≡ Claimed w }
        ensures { result ≡ next_cell self.now.program self.now.machine self.now.state t w }
    {
        let n = node_of(&self.machine, w);
        let accesses = task_at(&self.program, t).accesses.items();
        first_brought(&self.cells, &self.program, n, w, accesses)
    }

    /// Whether each cell whose old value a claimed task reads is on its worker's node, and no transfer moves a cell that it
    /// writes. Quadratic in the operands, which are a task's few, and linear in the workers for each written one.
    #[tactic(auto, using(crate::proofs::Asking::numbers))]
    pub fn may_run(&self, t: Task, w: Worker) -> bool
        requires { progress self.now.state t ≡ Claimed w }
        ensures { result ≡ may_run self.now.program self.now.machine self.now.state t w }
    {
        let n = node_of(&self.machine, w);
        let accesses = task_at(&self.program, t).accesses.items();
        may_run(&self.cells, &self.workers, &self.program, n, w, accesses)
    }
}
