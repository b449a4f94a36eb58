//! What a run leaves.

ghost use Rattle.std.specs.Prelude.{◌≡◌, [], Err, IsOk, MatchOption};
ghost use Rattle.sj_engine.specs.Run.{AllStopped, IsOutcome, NoneHasTask, NoneHasUnit};
ghost use Rattle.sj_engine.specs.Turn.{IsSharedSound};

use crate::engine::RunOutcome;
use sj_base::trace::Trace;
use sj_board::board::Board;
use sj_board::delivered::Delivered;
use sj_board::fault::RunFault;
use sj_edge::disk::Disk;
use std::alloc::Global;

/// The result of a run that has kept this fault, or none. Constant time.
fn result_of(fault: Option<RunFault>) -> Result<(), RunFault>
    ensures { MatchOption fault (IsOk result) (λ f. result ≡ Err f) }
{
    match fault {
        None => Ok(()),
        Some(fault) => Err(fault),
    }
}

/// What a board leaves when all its workers have stopped. Constant time, and no memory.
pub(crate) fn ended<D: Disk>(board: Board<D>) -> RunOutcome<D>
    requires sound { IsSharedSound D.size D.faults D.mismatches D.held board }
    requires stopped { AllStopped board.hands }
    ensures { IsOutcome D.size D.faults D.mismatches D.held board.run.program board.run.machine
        board.run.opened result.result result.delivered.pairs result.trace.events
        result.disks.items }
{
    let (delivered, trace, set, fault) = board.close();
    RunOutcome {
        result: result_of(fault),
        delivered,
        trace,
        disks: set.close(),
    }
}

/// What a board leaves that no worker has come to, since memory is wanting. Constant time, and no memory.
pub(crate) fn abandoned<D: Disk>(board: Board<D>) -> RunOutcome<D>
    requires idle { NoneHasTask board.hands }
    requires no_unit { NoneHasUnit board.hands }
    ensures { IsOutcome D.size D.faults D.mismatches D.held board.run.program board.run.machine
        board.run.opened result.result result.delivered.pairs result.trace.events
        result.disks.items }
{
    board.is_sound();
    let (delivered, trace, set, _) = board.close();
    RunOutcome {
        result: Err(RunFault::OutOfMemory),
        delivered,
        trace,
        disks: set.close(),
    }
}

/// What is left where no board could be made, since memory is wanting. Constant time, and no memory.
pub(crate) fn unopened<D: Disk>(alloc: Global, disks: Vec<D>) -> RunOutcome<D>
    ensures result { result.result ≡ Err RunFault.OutOfMemory }
    ensures trace { result.trace.events ≡ [] }
    ensures disks { result.disks.items ≡ disks.items }
{
    RunOutcome {
        result: Err(RunFault::OutOfMemory),
        delivered: Delivered::empty(alloc),
        trace: Trace::empty(alloc),
        disks,
    }
}
