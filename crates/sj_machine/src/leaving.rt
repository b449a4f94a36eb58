//! Copies that leave a node.

ghost use Rattle.std.specs.Prelude.{◌≡◌, ◌<◌, All, IfSome, None, find, length, slice_index_or, true};
ghost use Rattle.sj_machine.specs.Planning.{NoneLeavesFor, is_leaving_at, victims_left};

use crate::choosing::mark_at;
use crate::hold::Hold;
use sj_base::ids::{Cell, Node};
use sj_replica::replica::Replica;

/// The first of these cells of which a copy leaves a node. Linear in them.
fn leaving_among(cells: &[Replica], n: Node, victims: &[Cell]) -> Option<Cell>
    requires { All (λ row. n.0 < length row.marks) cells.now }
    ensures { result ≡ find (is_leaving_at cells.now n) victims.now }
{
    victims
        .iter()
        .copied()
        .find(|c| mark_at(cells, n, *c).is_leaving())
}

/// How many of a worker's victims are known to be gone: none where nothing is said of the worker. Constant time.
fn known_of(gone: &[usize], i: usize) -> usize
    ensures { result ≡ slice_index_or gone.now i 0 }
{
    match gone.get(i) {
        Some(count) => *count,
        None => 0,
    }
}

/// The first victim of the worker of this number of which a copy leaves a node, where so many of each worker's, those that go
/// first, are known to be gone. Linear in the others.
fn leaving_of(
    cells: &[Replica],
    n: Node,
    workers: &[Hold],
    gone: &[usize],
    i: usize,
) -> Option<Cell>
    requires wide { All (λ row. n.0 < length row.marks) cells.now }
    requires worker { i < length workers.now }
    ensures { result ≡ find (is_leaving_at cells.now n) (victims_left workers.now gone.now i) }
{
    let victims = workers[i].victims();
    let left = victims.len().saturating_sub(known_of(gone, i));
    leaving_among(cells, n, &victims[..left])
}

/// A cell of which a copy leaves a node by the claim of a worker, where so many of each worker's victims, those that go first,
/// are known to be gone. Linear in the workers, and in the others of their victims.
pub fn leaving_at(cells: &[Replica], n: Node, workers: &[Hold], gone: &[usize]) -> Option<Cell>
    requires { All (λ row. n.0 < length row.marks) cells.now }
    ensures some { IfSome result (λ c. is_leaving_at cells.now n c ≡ true) }
    ensures none { result ≡ None → NoneLeavesFor cells.now n workers.now gone.now }
{
    for i in 0..workers.len() {
        if let Some(cell) = leaving_of(cells, n, workers, gone, i) {
            return Some(cell);
        }
    }
    None
}
