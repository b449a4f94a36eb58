//! The bytes of the largest node that has a worker.

ghost use Rattle.std.specs.Prelude.{◌≡◌, ◌<◌, length};
ghost use Rattle.sj_core.specs.Needs.{node_of, node_size, room};

use sj_base::ids::Worker;
use sj_base::program::Machine;

/// The bytes of a worker's node. Constant time.
fn node_size(machine: &Machine, w: Worker) -> u64
    requires { 0 < length machine.now.nodes }
    ensures { result ≡ node_size machine.now (node_of machine.now w) }
{
    let nodes = machine.nodes.items();
    nodes[w.0 as usize % nodes.len()]
}

/// The bytes of the largest node that has a worker: no larger task can run. Linear in the workers; no memory.
pub fn room(machine: &Machine) -> u64
    requires { 0 < length machine.now.nodes }
    ensures { result ≡ room machine.now }
{
    let mut most = 0;
    for w in 0..machine.workers {
        most = most.max(node_size(machine, Worker(w)));
    }
    most
}
