//! What an end changes in the rows of cells, nodes and workers.

ghost use Rattle.std.specs.Prelude.{◌≡◌, ◌<◌, All, length, slice_set};
ghost use Rattle.sj_machine.specs.Ending.{CanCount, CanRelease, CanUnpin, let_go, released, unpinned_each, written_each};
ghost use Rattle.sj_machine.specs.Plan.{store_at};
ghost use Rattle.sj_machine.specs.Stores.{row_at};
ghost use Rattle.sj_node.specs.Store.{with_entries};

use crate::hold::Hold;
use sj_base::ids::{Cell, Node, Worker};
use sj_node::store::NodeStore;
use sj_replica::replica::Replica;

/// These cells are written once more. Linear in them.
pub fn count_each(cells: &mut Vec<Replica>, written: &[Cell])
    requires cells { All (λ c. c.0 < length cells.old.items) written.now }
    requires few { All (CanCount (length written.now)) cells.old.items }
    ensures { cells.new.items ≡ written_each written.now cells.old.items }
{
    for cell in written {
        let row = &mut cells[cell.0 as usize];
        row.count_write();
    }
}

/// Takes a pin off each of these cells. A look-up for each.
fn unpin_each(node: &mut NodeStore, pins: &[Cell])
    requires { CanUnpin pins.now node.old.entries }
    ensures { node.new ≡ with_entries node.old (unpinned_each pins.now node.old.entries) }
{
    for cell in pins {
        node.unpin(*cell);
    }
}

/// A node loses the pins and the scratch of a worker. A look-up for each pin.
pub fn release_at(nodes: &mut Vec<NodeStore>, n: Node, workers: &[Hold], w: Worker)
    requires node { n.0 < length nodes.old.items }
    requires worker { w.0 < length workers.now }
    requires can { let row = row_at workers.now w in
        CanRelease row.pins row.scratch (store_at nodes.old.items n) }
    ensures { let row = row_at workers.now w in
        nodes.new.items ≡ slice_set nodes.old.items n.0
        (released row.pins row.scratch (store_at nodes.old.items n)) }
{
    let hold = &workers[w.0 as usize];
    let node = &mut nodes[n.0 as usize];
    unpin_each(node, hold.pins());
    node.release(hold.scratch());
}

/// A worker lets its pins and its scratch go. Constant time.
pub fn let_go(workers: &mut Vec<Hold>, w: Worker)
    requires { w.0 < length workers.old.items }
    ensures { workers.new.items ≡ let_go workers.old.items w }
{
    let row = &mut workers[w.0 as usize];
    row.release();
}
