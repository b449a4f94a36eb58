//! The run of a program by its workers.

ghost use Rattle.std.specs.Prelude.{◌≡◌, IfErr, IsOk, map};
ghost use Rattle.sj_codelet.specs.Kernel.{out};
ghost use Rattle.sj_core.specs.Bound.{HasAtMostThreePerTaskAndFivePerOperand};
ghost use Rattle.sj_core.specs.Laws.{IsLawful};
ghost use Rattle.sj_core.specs.Legal.{IsFinished, IsLegal};
ghost use Rattle.sj_core.specs.Needs.{AreFootprints};
ghost use Rattle.sj_core.specs.Proper.{HasSwapFor, IsMachineFor, Proper};
ghost use Rattle.sj_disk.specs.Holding.{CountsStay};
ghost use Rattle.sj_edge.specs.GivenBack.{AreGivenBack};
ghost use Rattle.sj_engine.specs.Outcome.{AllDisksTell, HoldBlocks, IsCausedBy, WantsLastWritten};
ghost use Rattle.sj_engine.specs.Run.{IsOpened, IsOutcome};
ghost use Rattle.sj_board.specs.Delivered.{DeliversEach};

use crate::closing::{abandoned, ended, unopened};
use crate::dealing::dealt;
use crate::noted_board::NotedBoard;
use crate::opening::opened;
use crate::shared_board::SharedBoard;
use crate::sleepers::Sleepers;
use crate::threads::worked;
use sj_base::program::{Machine, Program};
use sj_base::trace::Trace;
use sj_board::board::Board;
use sj_board::delivered::Delivered;
use sj_board::fault::RunFault;
use sj_codelet::set::Codelets;
use sj_desk::Desk;
use sj_edge::disk::Disk;
use sj_edge::gate::Gate;
use std::alloc::Global;
use std::sync::{Arc, Wait};
use std::thread::Threads;

/// What a run leaves: its result, what was delivered, its events, and the disks.
#[derive(Drop)]
pub struct RunOutcome<D> {
    pub result: Result<(), RunFault>,
    pub delivered: Delivered,
    pub trace: Trace,
    pub disks: Vec<D>,
}

/// The run over a board that has just opened.
fn run_over<C: Codelets, G: Gate, D: Disk + Send, R: Threads + Wait + Sync>(
    rt: &R,
    alloc: Global,
    program: &Program,
    board: Board<D>,
    codelets: &C,
    gate: &G,
) -> RunOutcome<D>
    requires opened { IsOpened program.now board.run.machine board.run.opened board }
    requires proper { Proper program.now }
    requires lawful { IsLawful out C.has program.now }
    ensures { IsOutcome D.size D.faults D.mismatches D.held program.now board.run.machine
        board.run.opened result.result result.delivered.pairs result.trace.events
        result.disks.items }
{
    board.is_sound();
    let Ok((queues, passes, waiting)) = dealt(rt, alloc, &board) else {
        return abandoned(board);
    };
    let Ok(posts) = Vec::with_capacity(alloc, program.workers as usize) else {
        return abandoned(board);
    };
    let Ok(sleepers) = Sleepers::new(alloc, program.workers) else {
        return abandoned(board);
    };
    let board = match SharedBoard::new(alloc, board) {
        Ok(board) => NotedBoard {
            board,
            sleepers,
            waiting,
        },
        Err(board) => return abandoned(board),
    };
    let (desk, seats) = match Desk::make(alloc, board, program.workers) {
        Ok(made) => made,
        Err(noted) => return abandoned(noted.board.into_board()),
    };
    gate.begins(program.tasks.len());
    ended(worked(
        rt, alloc, program, codelets, gate, desk, seats, &queues, passes, posts,
    ))
}

/// Runs a program on a machine: one thread for each worker, or fewer where one can't be started, all joined before it
/// returns. Kernels run between the two calls of the gate, outside of every lock. Beside the kernels and transfers, the costs
/// of the board's calls for each event.
///
/// The footprints are the bytes that each task needs on its node, which `fits` of `sj_needs` gives. A task that fits no node of a
/// worker is never claimed, and such a run doesn't return: the caller tests it first, by the same call.
pub fn run<C: Codelets, G: Gate, D: Disk + Send, R: Threads + Wait + Sync>(
    rt: &R,
    alloc: Global,
    program: Arc<Program>,
    footprints: Vec<u64>,
    machine: Machine,
    disks: Vec<D>,
    codelets: &C,
    gate: &G,
) -> RunOutcome<D>
    requires proper { Proper program.value }
    requires lawful { IsLawful out C.has program.value }
    requires footprints { AreFootprints program.value footprints.items }
    requires machine { IsMachineFor program.value machine }
    requires swap { HasSwapFor program.value machine }
    requires sizes { machine.disks ≡ map D.size disks.items }
    // Whatever the result, each event is a legal step.
    ensures legal { IsLegal program.value machine result.trace.events }
    ensures bounded { HasAtMostThreePerTaskAndFivePerOperand program.value result.trace.events }
    ensures given_back { AreGivenBack D.size D.faults D.mismatches D.held disks.items
        result.disks.items }
    ensures finished { IsOk result.result → IsFinished program.value machine result.trace.events }
    ensures delivers { IsOk result.result
        → DeliversEach out program.value (AllDisksTell D.held disks.items)
        result.delivered.pairs }
    ensures no_fault_is_swallowed { IsOk result.result →
        CountsStay D.faults D.mismatches disks.items result.disks.items }
    ensures blocks { AllDisksTell D.held disks.items →
        HoldBlocks D.held out program.value machine result.trace.events result.disks.items }
    ensures cause { IfErr result.result (IsCausedBy D.faults D.mismatches D.held disks.items
        result.disks.items) }
    // Of a disk that held another header: the one that was wanted is the one last written there.
    ensures wanted { IfErr result.result (WantsLastWritten program.value machine
        result.trace.events) }
{
    let Ok(shared) = Arc::try_clone(&program) else {
        return unopened(alloc, disks);
    };
    match opened(alloc, program, footprints, machine, disks) {
        Ok(board) => run_over(rt, alloc, &shared, board, codelets, gate),
        Err(disks) => unopened(alloc, disks),
    }
}
