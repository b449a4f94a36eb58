//! Numbers of ready tasks that are put into shared queues.

ghost use Rattle.std.specs.Prelude.{◌≡◌, ◌<◌, ◌≤◌, ◌^◌, IfOk, OnOk, length, true};
ghost use Rattle.sj_steal.specs.Facts.{AreAllPasses};
ghost use Rattle.sj_engine.specs.Ready.{ArePasses, GetsReadyBy, IsPassOfQueues, PutsAll, StaysItsSource, is_shared};

use crate::ready::ReadyFrom;
use sj_base::ids::{Task, Worker};
use sj_base::memory::OutOfMemory;
use sj_base::mode::Policy;
use sj_board::board::Board;
use sj_board::claimable::Claimable;
use sj_edge::disk::Disk;
use sj_steal::shared::{Pass, Shared};
use std::alloc::Global;
use std::sync::Wait;

/// Puts a task of a board that is ready into the shared queues, by the pass of the worker of its number, modulo the workers.
fn deal<R: Wait>(
    rt: &R,
    shared: &Shared,
    passes: &mut Vec<Pass>,
    t: Task,
) -> Result<(), OutOfMemory>
    requires some { 0 < length passes.old.items }
    requires all { AreAllPasses shared.now passes.old.items }
    ensures all { AreAllPasses shared.now passes.new.items }
{
    let k = t.0 as usize % passes.len();
    shared.put(rt, &mut passes[k], t)
}

/// Puts all tasks of a board that are ready into the shared queues, by number, and tells how many. Linear in the tasks.
pub(crate) fn deal_first<R: Wait, D: Disk>(
    rt: &R,
    board: &Board<D>,
    shared: &Shared,
    passes: &mut Vec<Pass>,
) -> Result<u64, OutOfMemory>
    requires worker { 0 < board.now.run.program.workers }
    requires few { length board.now.run.program.tasks ≤ 2 ^ 22 }
    requires some { 0 < length passes.old.items }
    requires all { AreAllPasses shared.now passes.old.items }
    ensures all { AreAllPasses shared.now passes.new.items }
{
    let count = board.program().tasks.len() as u32;
    let mut dealt = 0;
    for i in 0..count {
        if board.may_claim(Task(i), Worker(0)) != Claimable::Stale {
            deal(rt, shared, passes, Task(i))?;
            dealt += 1;
        }
    }
    Ok(dealt)
}

/// The queues for the ready tasks of a board, and the workers' passes in the order of their numbers: all that are ready at the
/// start are there, so many. Under `prio` none. Linear in the tasks and in the workers, under `ws` quadratic in these.
pub(crate) fn dealt<R: Wait, D: Disk>(
    rt: &R,
    alloc: Global,
    board: &Board<D>,
) -> Result<(Option<Shared>, Vec<Pass>, u64), OutOfMemory>
    requires worker { 0 < board.now.run.program.workers }
    requires few { length board.now.run.program.tasks ≤ 2 ^ 22 }
    ensures policy { IfOk result (λ r. GetsReadyBy r.0 board.now.run.machine.policy) }
    ensures passes { IfOk result (λ r. ArePasses r.0 board.now.run.program.workers r.1.items) }
{
    let policy = board.policy();
    if policy == Policy::Prio {
        return Ok((None, Vec::new(alloc), 0));
    }
    let (shared, mut passes) = Shared::make(alloc, policy, board.program().workers)?;
    let count = deal_first(rt, board, &shared, &mut passes)?;
    Ok((Some(shared), passes, count))
}

/// Puts these numbers into a worker's queue, in order. At the first that finds no memory it ends: then the run fails.
pub(crate) fn put_all<R: Wait>(
    rt: &R,
    ready: &mut ReadyFrom<'_>,
    tasks: &[Task],
) -> Result<(), OutOfMemory>
    requires of { IsPassOfQueues ready.old }
    requires shared { is_shared ready.old ≡ true }
    ensures stays { StaysItsSource ready.old ready.new }
    ensures of { IsPassOfQueues ready.new }
    ensures shared { is_shared ready.new ≡ true }
    ensures ok { OnOk result (PutsAll ready.old tasks.now ready.new) }
{
    for t in tasks {
        ready.put(rt, *t)?;
    }
    Ok(())
}
