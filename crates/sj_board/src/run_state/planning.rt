//! What a worker does next.

use super::RunState;
use crate::todo::Todo;
use sj_base::ids::{Cell, Node, Place, Task, Worker};
use sj_edge::disk::Disk;

impl<D: Disk> RunState<D> {
    ghost use Rattle.std.specs.Prelude.{◌≡◌, ◌<◌, IsTrue, Some, if◌then◌else◌, length};
    ghost use Rattle.sj_core.specs.Machine.{is_leaving, mark, progress};
    ghost use Rattle.sj_core.specs.Step.{source_of};
    ghost use Rattle.sj_core.specs.declared.progress.Progress.TheVariants.{Claimed};
    ghost use Rattle.sj_machine.specs.Gone.{AreGone};
    ghost use Rattle.sj_board.specs.Standing.{state};
    ghost use Rattle.sj_board.specs.NextStep.{Brings, Evicts, IsNext};
    ghost use Rattle.sj_machine.specs.Choosing.{may_run};

    /// Where a node fetches a cell from: the node with the least number that has a copy, else the disk of its block. Linear in
    /// the nodes.
    pub fn source_of(&self, cell: Cell) -> Place
        requires { cell.0 < length self.now.program.cells }
        ensures { source_of self.now.program self.now.machine (state self.now) cell ≡ Some result }
    {
        match self.rows.first_node(cell) {
            Some(n) => Place::Node(n),
            None => Place::Disk(self.disks.disk_of(cell).unwrap()),
        }
    }

    /// What is done with a victim that leaves a node. Linear in the nodes and the workers.
    fn eviction_of(&self, cell: Cell, n: Node) -> Todo
        requires { IsTrue (is_leaving (mark (state self.now) cell n)) }
        ensures { Evicts self.now.program self.now.machine (state self.now) cell n result }
    {
        if !self.rows.is_elsewhere(cell, n) {
            return Todo::Transfer {
                cell,
                from: Place::Node(n),
                to: Place::Disk(self.disks.disk_of(cell).unwrap()),
                writes: self.rows.writes(cell),
            };
        }
        if self.rows.is_read(cell, n) {
            Todo::Wait
        } else {
            Todo::Discard(cell)
        }
    }

    /// How a cell is brought to a node. Linear in the nodes.
    fn arrival_of(&self, cell: Cell, n: Node) -> Todo
        requires { cell.0 < length self.now.program.cells }
        ensures { Brings self.now.program self.now.machine (state self.now) cell n result }
    {
        Todo::Transfer {
            cell,
            from: self.source_of(cell),
            to: Place::Node(n),
            writes: self.rows.writes(cell),
        }
    }

    /// Whether the kernel of a claimed task begins or waits. Quadratic in the operands, which are a task's few, and linear in
    /// the workers for each written one.
    fn start_of(&self, t: Task, w: Worker) -> Todo
        requires { progress (state self.now) t ≡ Claimed w }
        ensures { result ≡ (if may_run self.now.program self.now.machine
            (state self.now) t w then Todo.Start else Todo.Wait) }
    {
        if self.rows.may_run(t, w) {
            Todo::Start
        } else {
            Todo::Wait
        }
    }

    /// How many of a worker's victims are gone, of those that go first, where so many are known to be. Linear in those that are
    /// found; no memory.
    pub fn gone(&self, w: Worker, known: usize) -> usize
        requires worker { w.0 < self.now.program.workers }
        requires known { AreGone self.now.machine (state self.now) w known }
        ensures { AreGone self.now.machine (state self.now) w result }
    {
        self.rows.gone(w, known)
    }

    /// What a worker does next for the task that it has claimed, where so many of its victims, those that go first, are known to
    /// be gone. Linear in the others that are gone, in the nodes and in the workers; quadratic in the operands, which are a
    /// task's few; no memory.
    pub fn next_step(&self, t: Task, w: Worker, gone: usize) -> Todo
        requires claimed { progress (state self.now) t ≡ Claimed w }
        requires gone { AreGone self.now.machine (state self.now) w gone }
        ensures { IsNext self.now.program self.now.machine (state self.now) t w result }
    {
        let n = self.rows.node_of(w);
        if let Some(cell) = self.rows.next_victim(w, gone) {
            return self.eviction_of(cell, n);
        }
        match self.rows.next_cell(t, w) {
            Some(cell) => self.arrival_of(cell, n),
            None => self.start_of(t, w),
        }
    }
}
