//! What a run changes in the rows of cells and nodes.

ghost use Rattle.std.specs.Prelude.{◌≡◌, ◌≢◌, ℕ, ◌<◌, ◌≤◌, All, false, length, slice_index_or, slice_set};
ghost use Rattle.sj_base.specs.declared.ids.Node.{Node};
ghost use Rattle.sj_core.specs.Machine.{is_entry};
ghost use Rattle.sj_machine.specs.Cells.{mark_at};
ghost use Rattle.sj_machine.specs.Running.{AreUnpinned, evicted_at, owned_each};
ghost use Rattle.sj_machine.specs.Stores.{AreMarked};
ghost use Rattle.sj_node.specs.Entry.{has_entry, pins_of, without_all, without_entry};
ghost use Rattle.sj_node.specs.Store.{Store, with_entries};

use crate::choosing::mark_at;
use sj_base::ids::{Cell, Node};
use sj_node::store::NodeStore;
use sj_replica::replica::Replica;

/// These cells become a node's own. Linear in them, and in the nodes for each.
pub fn own_each(cells: &mut Vec<Replica>, written: &[Cell], n: Node)
    requires cells { All (λ c. c.0 < length cells.old.items) written.now }
    requires node { All (λ row. n.0 < length row.marks) cells.old.items }
    ensures { cells.new.items ≡ owned_each n written.now cells.old.items }
{
    for cell in written {
        let row = &mut cells[cell.0 as usize];
        row.own(n);
    }
}

/// Takes a cell's unpinned entry away, if the node has one. One look-up where the cell's mark tells of an entry, and else none.
fn remove_entry(node: &mut NodeStore, rows: &[Replica], k: Node, cell: Cell)
    requires wide { All (λ row. k.0 < length row.marks) rows.now }
    requires absent { is_entry (mark_at rows.now k cell) ≡ false →
        has_entry node.old.entries cell ≡ false }
    requires unpinned { pins_of node.old.entries cell ≡ 0 }
    ensures { node.new ≡ with_entries node.old (without_entry cell node.old.entries) }
{
    if !mark_at(rows, k, cell).is_entry_mark() {
        return;
    }
    if node.has(cell) {
        node.remove(cell);
    }
}

/// Takes the unpinned entries of these cells away. A look-up for each that the node has.
fn remove_entries(node: &mut NodeStore, rows: &[Replica], k: Node, written: &[Cell])
    requires wide { All (λ row. k.0 < length row.marks) rows.now }
    requires marked { AreMarked rows.now k node.old.entries }
    requires unpinned { AreUnpinned written.now node.old.entries }
    ensures { node.new ≡ with_entries node.old (without_all written.now node.old.entries) }
{
    for cell in written {
        remove_entry(node, rows, k, *cell);
    }
}

/// Takes the entries of these cells away from a node, unless it is the one that keeps them. A look-up for each that it has.
fn evict_at(nodes: &mut Vec<NodeStore>, rows: &[Replica], k: Node, written: &[Cell], n: Node)
    requires within { k.0 < length nodes.old.items }
    requires wide { All (λ row. k.0 < length row.marks) rows.now }
    requires marked { (d : Store) → AreMarked rows.now k
        (slice_index_or nodes.old.items k.0 d).entries }
    requires unpinned { (d : Store) → k.0 ≢ n.0 →
        AreUnpinned written.now (slice_index_or nodes.old.items k.0 d).entries }
    ensures { (d : Store) → nodes.new.items
        ≡ slice_set nodes.old.items k.0 (evicted_at n written.now k.0
        (slice_index_or nodes.old.items k.0 d)) }
{
    if k.0 != n.0 {
        let node = &mut nodes[k.0 as usize];
        remove_entries(node, rows, k, written);
    }
}

/// Takes the entries of these cells away from all nodes but one. Linear in the cells and nodes, with a look-up for each that
/// another node has, by the cells' marks.
pub fn evict_elsewhere(nodes: &mut Vec<NodeStore>, rows: &[Replica], written: &[Cell], n: Node)
    requires few { length nodes.old.items ≤ 16 }
    requires wide { All (λ row. length nodes.old.items ≤ length row.marks) rows.now }
    requires marked { (k : Node) (d : Store) → k.0 < length nodes.old.items →
        AreMarked rows.now k (slice_index_or nodes.old.items k.0 d).entries }
    requires unpinned { (k : ℕ) (d : Store) → k < length nodes.old.items → k ≢ n.0 →
        AreUnpinned written.now (slice_index_or nodes.old.items k d).entries }
    ensures every { length nodes.new.items ≡ length nodes.old.items }
    ensures each { (k : ℕ) (d : Store) → k < length nodes.old.items →
        slice_index_or nodes.new.items k d ≡ evicted_at n written.now k
        (slice_index_or nodes.old.items k d) }
{
    for k in 0..nodes.len() {
        evict_at(nodes, rows, Node(k as u8), written, n);
    }
}
