//! What is read of the rows.

use super::Rows;
use crate::choosing::mark_at;
use crate::claiming::node_of;
use sj_base::ids::{Cell, Node, Task, Worker};
use sj_base::program::{Machine, Program};
use sj_core::progress::{Progress, Transfer};
use sj_replica::mark::Mark;

impl Rows {
    ghost use Rattle.std.specs.Prelude.{◌≡◌, ◌<◌, length};
    ghost use Rattle.sj_core.specs.Machine.{cell_state, mark, on_disk, progress, transfer, writes};
    ghost use Rattle.sj_core.specs.Needs.{node_of, node_size};
    ghost use Rattle.sj_core.specs.Step.{is_elsewhere};
    ghost use Rattle.sj_replica.specs.Replica.{first_node};

    /// The program. Constant time.
    pub fn program(&self) -> &Program
        ensures { result.now ≡ self.now.program }
    {
        &self.program
    }

    /// The machine. Constant time.
    pub fn machine(&self) -> &Machine
        ensures { result.now ≡ self.now.machine }
    {
        &self.machine
    }

    /// The node to which a worker is bound. Constant time.
    pub fn node_of(&self, w: Worker) -> Node
        ensures { result ≡ node_of self.now.machine w }
    {
        node_of(&self.machine, w)
    }

    /// The bytes of the node to which a worker is bound. Constant time.
    pub fn node_size(&self, w: Worker) -> u64
        ensures { result ≡ node_size self.now.machine (node_of self.now.machine w) }
    {
        let n = node_of(&self.machine, w);
        self.machine.nodes.items()[n.0 as usize]
    }

    /// How far a task is. Constant time.
    pub fn progress(&self, t: Task) -> Progress
        requires { t.0 < length self.now.program.tasks }
        ensures { result ≡ progress self.now.state t }
    {
        self.tasks[t.0 as usize]
    }

    /// A worker's transfer, where it has one. Constant time.
    pub fn transfer(&self, w: Worker) -> Option<Transfer>
        requires { w.0 < self.now.program.workers }
        ensures { result ≡ transfer self.now.state w }
    {
        self.workers[w.0 as usize].transfer()
    }

    /// What a cell is at a node: nothing at one that there isn't. Constant time.
    pub fn mark(&self, cell: Cell, n: Node) -> Mark
        ensures { result ≡ mark self.now.state cell n }
    {
        if n.0 as usize >= self.machine.nodes.len() {
            return Mark::Invalid;
        }
        mark_at(&self.cells, n, cell)
    }

    /// Whether a cell's block on a disk is a copy. Constant time.
    pub fn is_on_disk(&self, cell: Cell) -> bool
        requires { cell.0 < length self.now.program.cells }
        ensures { result ≡ on_disk self.now.state cell }
    {
        self.cells[cell.0 as usize].is_on_disk()
    }

    /// Whether a cell has a copy on a disk, or at another node than this. Linear in the nodes.
    pub fn is_elsewhere(&self, cell: Cell, n: Node) -> bool
        requires { cell.0 < length self.now.program.cells }
        ensures { result ≡ is_elsewhere self.now.state cell n }
    {
        self.cells[cell.0 as usize].is_elsewhere(n)
    }

    /// The node with the least number at which a cell has a copy. Linear in the nodes.
    pub fn first_node(&self, cell: Cell) -> Option<Node>
        requires { cell.0 < length self.now.program.cells }
        ensures { result ≡ first_node (cell_state self.now.state cell) }
    {
        self.cells[cell.0 as usize].first_node()
    }

    /// How many tasks have written a cell. Constant time.
    pub fn writes(&self, cell: Cell) -> u64
        requires { cell.0 < length self.now.program.cells }
        ensures { result ≡ writes self.now.state cell }
    {
        self.cells[cell.0 as usize].writes()
    }
}
