//! How the board of a run is made.

ghost use Rattle.std.specs.Prelude.{◌≡◌, IfErr, IfOk, map};
ghost use Rattle.sj_codelet.specs.Kernel.{out};
ghost use Rattle.sj_core.specs.Laws.{IsLawful};
ghost use Rattle.sj_core.specs.Needs.{AreFootprints};
ghost use Rattle.sj_core.specs.Proper.{HasSwapFor, IsMachineFor, Proper};
ghost use Rattle.sj_engine.specs.Run.{IsOpened};
ghost use Rattle.sj_board.specs.Sound.{IsRunnableOn};

use sj_base::program::{Machine, Program};
use sj_board::board::Board;
use sj_board::placing::placed;
use sj_edge::disk::Disk;
use std::alloc::Global;
use std::sync::Arc;

/// The board of a program on a machine with these disks, on which nothing has happened. The disks come back where memory is
/// wanting. Linear in the tasks and their accesses, and in cells times nodes and cells times disks; for each ready task
/// logarithmic in all.
pub(crate) fn opened<D: Disk>(
    alloc: Global,
    program: Arc<Program>,
    footprints: Vec<u64>,
    machine: Machine,
    disks: Vec<D>,
) -> Result<Board<D>, Vec<D>>
    requires run { IsRunnableOn out program.value machine }
    requires footprints { AreFootprints program.value footprints.items }
    requires sizes { machine.disks ≡ map D.size disks.items }
    ensures ok { IfOk result (IsOpened program.value machine disks.items) }
    ensures err { IfErr result (λ back. back.items ≡ disks.items) }
{
    let set = match placed(alloc, &program, &machine, disks) {
        Ok(set) => set,
        Err(disks) => return Err(disks),
    };
    match Board::make(alloc, program, footprints, machine, set) {
        Ok(board) => Ok(board),
        Err(refusal) => Err(refusal.disks.close()),
    }
}
