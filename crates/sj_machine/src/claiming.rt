//! What a claim changes in the rows.

ghost use Rattle.std.specs.Prelude.{◌≡◌, ◌<◌, ◌≤◌, All, OnErr, OnOk, fold, length, slice_set, slice_index_or};
ghost use Rattle.sj_core.specs.Machine.{WorkerState};
ghost use Rattle.sj_core.specs.Needs.{node_of as node_of_worker};
ghost use Rattle.sj_machine.specs.Stores.{row_at};
ghost use Rattle.sj_machine.specs.Plan.{CanHold, CanTakeAll, holding, marked, row_with, store_at, taken};

use crate::hold::Hold;
use crate::plan::Plan;
use sj_base::ids::{Cell, Node, Worker};
use sj_base::memory::OutOfMemory;
use sj_base::program::Machine;
use sj_node::store::NodeStore;
use sj_replica::mark::Mark;
use sj_replica::replica::Replica;

/// The node to which a worker is bound. Constant time.
pub fn node_of(machine: &Machine, w: Worker) -> Node
    requires some { 0 < length machine.now.nodes }
    requires few { length machine.now.nodes ≤ 16 }
    ensures { result ≡ node_of_worker machine.now w }
{
    let count = machine.nodes.len() as u8;
    Node(w.0 % count)
}

/// Marks cells at a node. Linear in them.
pub fn mark_all(cells: &mut Vec<Replica>, which: &[Cell], n: Node, mark: Mark)
    requires cells { All (λ c. c.0 < length cells.old.items) which.now }
    requires node { All (λ row. n.0 < length row.marks) cells.old.items }
    ensures { cells.new.items ≡ marked cells.old.items which.now n mark }
{
    for cell in which {
        let row = &mut cells[cell.0 as usize];
        row.set_mark(n, mark);
    }
}

/// Brings cells of a node to the front one after another, and pins each. A look-up for each.
fn take_all(node: &mut NodeStore, cells: &[Cell])
    requires { CanTakeAll node.old cells.now }
    ensures { node.new ≡ fold taken node.old cells.now }
{
    for cell in cells {
        node.touch_and_pin(*cell);
    }
}

/// Takes a plan's victims away from a node, admits the cells that it brings, takes all cells of its task and holds its
/// scratch. After an `Err` the nodes are as before. A look-up for each victim and each cell.
pub fn hold_all(nodes: &mut Vec<NodeStore>, n: Node, plan: &Plan) -> Result<(), OutOfMemory>
    requires node { n.0 < length nodes.old.items }
    requires can { CanHold (store_at nodes.old.items n) plan.now }
    ensures ok { OnOk result (nodes.new.items
        ≡ slice_set nodes.old.items n.0 (holding (store_at nodes.old.items n) plan.now)) }
    ensures err { OnErr result (nodes.new.items ≡ nodes.old.items) }
{
    let node = &mut nodes[n.0 as usize];
    node.admit(plan.victims(), plan.missing(), plan.bytes())?;
    take_all(node, plan.cells());
    node.hold(plan.scratch());
    Ok(())
}

/// A worker has a plan in hand. Linear in the victims that it had.
pub fn take_plan(workers: &mut Vec<Hold>, w: Worker, plan: Plan)
    requires { w.0 < length workers.old.items }
    ensures { workers.new.items ≡ slice_set workers.old.items w.0
        (row_with (row_at workers.old.items w) plan) }
{
    let row = &mut workers[w.0 as usize];
    row.take(plan);
}
