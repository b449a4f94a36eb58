//! The kernel of a task, on its operands.

ghost use Rattle.std.specs.Prelude.{◌≡◌, ◌<◌, IfOk, IsTrue, OnOk, length};
ghost use Rattle.std.specs.List.{AllZip};
ghost use Rattle.sj_base.specs.declared.ids.Cell.{Cell};
ghost use Rattle.sj_base.specs.declared.ids.Worker.{Worker};
ghost use Rattle.sj_base.specs.Array.{Array};
ghost use Rattle.sj_codelet.specs.Frame.{all_dims, arrays};
ghost use Rattle.sj_codelet.specs.Kernel.{fits_in, out};
ghost use Rattle.sj_codelet.specs.Runs.{IsReadyFor, IsRun};
ghost use Rattle.sj_core.specs.Laws.{IsLawful};
ghost use Rattle.sj_core.specs.Operands.{results};
ghost use Rattle.sj_core.specs.Program.{task_of, written_operands};
ghost use Rattle.sj_core.specs.Proper.{Proper};
ghost use Rattle.sj_engine.specs.Operands.{AreSharesOf, HasRoomForOperands, held_for, read_operands};
ghost use Rattle.sj_board.specs.Shares.{IsShare};

use crate::operands::operands;
use crate::results::shares;
use sj_base::ids::Task;
use sj_base::memory::OutOfMemory;
use sj_base::program::{Lowered, Program};
use sj_codelet::frame::Frame;
use sj_codelet::set::Codelets;
use sj_core::tasks::task_at;
use sj_edge::gate::Gate;
use std::alloc::Global;

/// Runs a codelet on a task's operands, between the two calls of the gate. The kernel's cost.
fn run_kernel<C: Codelets, G: Gate>(
    alloc: Global,
    codelets: &C,
    gate: &G,
    t: Task,
    task: &Lowered,
    frame: &mut Frame,
) -> Result<(), OutOfMemory>
    requires fits { IsTrue (fits_in C.has task.now.codelet task.now.args
        (all_dims frame.old.slots)) }
    requires ready { IsReadyFor task.now.codelet frame.old.slots }
    ensures { OnOk result (IsRun task.now.codelet task.now.args frame.old frame.new) }
{
    gate.entered(t);
    let result = codelets.run(alloc, task.codelet, task.args.items(), frame);
    gate.left(t);
    result
}

/// Runs a task's kernel: makes its operands from shares of the tiles whose old value it reads, in operand order, and gives
/// shares of its results, in the order of its written operands, all in the frame that it takes. The cost of the kernel, and
/// linear in the elements of the operands that begin as zeros, and of those to be written to of which somebody else has a
/// share.
///
/// Whatever the cells hold: where the shares are of what the operands hold for a worker, the results are the task's.
pub fn compute<C: Codelets, G: Gate>(
    alloc: Global,
    program: &Program,
    codelets: &C,
    gate: &G,
    t: Task,
    taken: Frame,
) -> Result<Frame, OutOfMemory>
    requires task { t.0 < length program.now.tasks }
    requires proper { Proper program.now }
    requires lawful { IsLawful out C.has program.now }
    requires shares { AreSharesOf program.now t taken.slots }
    requires room { HasRoomForOperands program.now t taken }
    ensures dims { IfOk result (λ f. AllZip (IsShare program.now)
        (written_operands (task_of program.now t)) f.slots) }
    ensures results { IfOk result (λ f. (w : Worker) (held : Cell → Array) →
        arrays taken.slots ≡ held_for program.now w held (read_operands program.now t) →
        arrays f.slots ≡ results out program.now t w held) }
{
    let task = task_at(program, t);
    let mut frame = operands(alloc, program, task.accesses.items(), taken)?;
    run_kernel(alloc, codelets, gate, t, task, &mut frame)?;
    shares(alloc, task.codelet, frame)
}
