//! The room of a run's trace.

ghost use Rattle.std.specs.Prelude.{◌≡◌, ◌^◌, ◌≤◌, ◌*◌, [], All, IfOk, length, sum_by};
ghost use Rattle.sj_core.specs.Proper.{Proper};
ghost use Rattle.sj_board.specs.Sound.{most_events};

use sj_base::memory::OutOfMemory;
use sj_base::program::{Lowered, Program};
use sj_base::trace::Trace;
use std::alloc::Global;

/// How many operands these tasks have together. Linear in the tasks.
fn operands_in(tasks: &[Lowered]) -> u64
    requires few_tasks { length tasks.now ≤ 2 ^ 32 }
    requires few_operands { All (λ l. length l.accesses ≤ 5) tasks.now }
    ensures operands { result ≡ sum_by (λ l. length l.accesses) tasks.now }
    ensures few { result ≤ 5 * 2 ^ 32 }
{
    let mut operands = 0;
    for task in tasks {
        operands += task.accesses.len() as u64;
    }
    operands
}

/// A trace without events, with room for all that a run of the program makes. Linear in the tasks.
pub fn whole_trace(alloc: Global, program: &Program) -> Result<Trace, OutOfMemory>
    requires { Proper program.now }
    ensures empty { IfOk result (λ t. t.events ≡ []) }
    ensures room { IfOk result (λ t. t.spare ≡ most_events program.now) }
{
    let mut trace = Trace::empty(alloc);
    let tasks = program.tasks.items();
    trace.reserve(3 * tasks.len() as u64 + 5 * operands_in(tasks))?;
    Ok(trace)
}
