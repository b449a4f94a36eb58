//! How many victims are gone.

ghost use Rattle.std.specs.Prelude.{◌<◌, All, length};
ghost use Rattle.sj_machine.specs.Gone.{AreGoneIn};

use crate::choosing::mark_at;
use sj_base::ids::{Cell, Node, Worker};
use sj_replica::replica::Replica;

/// How many of a worker's victims are gone, of those that go first, where so many are known to be. Linear in those that are
/// found.
#[tactic(auto, using(crate::proofs::GoneVictims::gone_more))]
pub fn gone_among(cells: &[Replica], n: Node, w: Worker, victims: &[Cell], known: usize) -> usize
    requires marks { All (λ row. n.0 < length row.marks) cells.now }
    requires known { AreGoneIn cells.now n w victims.now known }
    ensures { AreGoneIn cells.now n w victims.now result }
{
    for i in known..victims.len() {
        let victim = victims[victims.len() - 1 - i];
        if mark_at(cells, n, victim).is_leaving_by(w) {
            return i;
        }
    }
    known.max(victims.len())
}
