//! Whether a trace is one that runs a program to its end.

ghost use Rattle.std.specs.Prelude.{ℕ, ◌≡◌, IfErr, IsOk, take, Bool};
ghost use Rattle.sj_codelet.specs.declared.kernel.Kernel.{Kernel};
ghost use Rattle.sj_codelet.specs.Kernel.{Equations};
ghost use Rattle.sj_core.specs.Arrays.{HoldsContent, arrays_of};
ghost use Rattle.sj_core.specs.Bound.{HasAtMostThreePerTaskAndFivePerOperand};
ghost use Rattle.sj_core.specs.Coherent.{Coherent};
ghost use Rattle.sj_core.specs.Laws.{HoldsFinal, IsLawful};
ghost use Rattle.sj_core.specs.Legal.{IsFinished, state_of};
ghost use Rattle.sj_core.specs.Proper.{IsMachineFor, Proper};
ghost use Rattle.sj_machine.specs.Rows.{rows_at_start};
ghost use Rattle.sj_check.specs.Refusal.{IsCheckRefusal};

use crate::checker::Checker;
use sj_base::memory;
use sj_base::program::{Machine, Program};
use sj_base::trace::Trace;
use sj_core::laws::{bounds, states, traces};
use std::alloc::Global;
use std::sync::Arc;
use thiserror::Error;

/// Why a trace isn't one that runs a program to its end.
#[derive(Clone, Copy, Debug, PartialEq, Eq, Error)]
pub enum CheckRefusal {
    /// The first event that isn't legal, counted from 0.
    #[error("event {index} isn't legal")]
    BadEvent { index: u64 },
    /// Each event is legal, and a task isn't done.
    #[error("a task isn't done")]
    Unfinished,
    #[error("out of memory")]
    OutOfMemory,
}

impl From<memory::OutOfMemory> for CheckRefusal {
    ghost use Rattle.std.specs.Prelude.{◌≡◌};
    ghost use Rattle.sj_check.specs.declared.check.CheckRefusal.TheVariants.{OutOfMemory};

    ghost from_gives = { λ _ e. e ≡ OutOfMemory };

    fn from(_: memory::OutOfMemory) -> Self {
        CheckRefusal::OutOfMemory
    }
}

/// Whether each event of a trace is a legal step, and all tasks are done after the last. Linear in the tasks, in cells times
/// nodes and cells times disks, in the events, the operands of their tasks and the victims, each by the nodes and the workers.
/// Takes memory for the rows of tasks, cells and nodes, and for the plan of one claim; no array is looked at.
///
/// That arrays are what the tasks leave is by the laws of a set of codelets that the program's are of.
pub fn check(
    alloc: Global,
    program: Arc<Program>,
    machine: Machine,
    trace: &Trace,
) -> Result<(), CheckRefusal>
    requires proper { Proper program.value }
    requires machine { IsMachineFor program.value machine }
    ensures finished { IsOk result → IsFinished program.value machine trace.now.events }
    ensures refused { IfErr result (IsCheckRefusal program.value machine trace.now.events) }
    ensures each_state_is_coherent { IsOk result → (n : ℕ) →
        Coherent program.value machine (state_of program.value machine (take n trace.now.events)) }
    ensures each_state_has_its_content { IsOk result → (eq : Equations) (has : Kernel → Bool) →
        IsLawful eq has program.value → (n : ℕ) → HoldsContent eq program.value machine
        (state_of program.value machine (take n trace.now.events))
        (arrays_of eq program.value machine (take n trace.now.events)) }
    ensures holds_what_all_tasks_leave { IsOk result → (eq : Equations) (has : Kernel → Bool) →
        IsLawful eq has program.value → HoldsFinal eq program.value machine
        (state_of program.value machine trace.now.events)
        (arrays_of eq program.value machine trace.now.events) }
    ensures has_at_most_three_events_a_task_and_five_an_operand { IsOk result →
        HasAtMostThreePerTaskAndFivePerOperand program.value trace.now.events }
{
    traces();
    bounds();
    let mut checker = Checker::make(alloc, program, machine)?;
    let checked = check_by(alloc, &mut checker, trace);
    let_go(checker);
    checked
}

/// Drops a checker, whose fields are many, so that no other function does. Linear in what they hold.
fn let_go(_: Checker) {}

/// What `check` answers, by a checker that has seen no event. `check` drops it after any of the returns here.
fn check_by(alloc: Global, checker: &mut Checker, trace: &Trace) -> Result<(), CheckRefusal>
    requires { checker.old ≡ rows_at_start checker.old.program checker.old.machine }
    ensures finished { IsOk result →
        IsFinished checker.old.program checker.old.machine trace.now.events }
    ensures refused { IfErr result
        (IsCheckRefusal checker.old.program checker.old.machine trace.now.events) }
{
    states();
    for i in 0..trace.len() {
        let event = trace.get(i);
        if !checker.step(alloc, event)? {
            return Err(CheckRefusal::BadEvent { index: i as u64 });
        }
    }
    if checker.is_complete() {
        Ok(())
    } else {
        Err(CheckRefusal::Unfinished)
    }
}
