//! The machine that the words and a job ask for.

ghost use Rattle.std.specs.Prelude.{◌≡◌, IfOk};
ghost use Rattle.sj_words.specs.Options.{OptionsAreInRange};
ghost use Rattle.sj_words.specs.Machine.{HasNodes, IsWorkerCount, machine_by, nodes_by};

use crate::options::Options;
use sj_base::memory::OutOfMemory;
use sj_base::mode::Policy;
use sj_base::program::Machine;
use sj_base::sequence::Sequence;
use std::alloc::Global;

// So many nodes of the bytes that the words ask for, or those of the job.
fn nodes_of(
    alloc: Global,
    options: &Options,
    nodes: Sequence<u64>,
) -> Result<Sequence<u64>, OutOfMemory>
    requires within { OptionsAreInRange options.now }
    requires nodes { HasNodes nodes }
    ensures nodes { IfOk result (λ r. r ≡ nodes_by options.now nodes) }
    ensures limits { IfOk result HasNodes }
{
    let Some(bytes) = options.node else {
        return Ok(nodes);
    };
    let count = options.nodes.unwrap_or(1) as usize;
    Ok(Sequence::of(vec![in alloc; bytes; count]?))
}

/// The machine of a job under the words: what they ask for wins over the job's number of workers, the
/// bytes of its nodes and its policy. The disks are those that are at hand, by their bytes. Linear in
/// the nodes. The error is want of memory.
pub fn machine_of(
    alloc: Global,
    options: &Options,
    workers: u8,
    nodes: Sequence<u64>,
    policy: Policy,
    disks: Sequence<u64>,
) -> Result<Machine, OutOfMemory>
    requires within { OptionsAreInRange options.now }
    requires workers { IsWorkerCount workers }
    requires nodes { HasNodes nodes }
    ensures machine { IfOk result (λ m. m ≡ machine_by options.now workers nodes policy disks) }
    ensures workers { IfOk result (λ m. IsWorkerCount m.workers) }
    ensures nodes { IfOk result (λ m. HasNodes m.nodes) }
{
    let nodes = nodes_of(alloc, options, nodes)?;
    Ok(Machine {
        workers: options.workers.unwrap_or(workers),
        nodes,
        disks,
        policy: options.policy.unwrap_or(policy),
    })
}
