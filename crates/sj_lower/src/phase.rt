//! Phases of contributions to a cell, and the tasks that begin and close them.

ghost use Rattle.std.specs.Prelude.{◌≡◌, ◌+◌, ◌≤◌, ◌++◌, IfOk, OnOk};
ghost use Rattle.sj_lower.specs.Lowering.{begin_rows};
ghost use Rattle.sj_lower.specs.Rows.{init_row, init_rows, combine_row, combine_rows};

use crate::rows::{own_task, task_on};
use sj_base::few::Few;
use sj_base::ids::{Cell, Line};
use sj_base::memory::OutOfMemory;
use sj_base::mode::{Access, Mode, Reduction};
use sj_base::program::Lowered;
use sj_codelet::kernel::Kernel;
use std::alloc::Global;

/// A phase of contributions to a cell that is open: partial copies of the cell get them, and are combined into it when the phase
/// is closed (StarPU: REDUX).
#[derive(Clone, Copy)]
pub struct OpenPhase {
    pub by: Reduction,
    /// The first of the cell's partial copies, which are one for each worker.
    pub copies: Cell,
    /// The line of the last contribution so far.
    pub line: Line,
}

/// Gives a cell the reduction's unit.
fn init_row(alloc: Global, by: Reduction, line: Line, cell: Cell) -> Result<Lowered, OutOfMemory>
    ensures { IfOk result (λ l. l ≡ init_row by line cell) }
{
    let unit = Kernel::init(by).id();
    task_on(alloc, unit, Vec::new(alloc), Mode::W, cell, line)
}

/// Gives the partial copies of so many workers, from the first on, the reduction's unit. Linear in the workers.
fn push_inits(
    tasks: &mut Vec<Lowered>,
    alloc: Global,
    by: Reduction,
    first: Cell,
    workers: u8,
    line: Line,
) -> Result<(), OutOfMemory>
    requires cells { first.0 + workers ≤ 262144 }
    ensures { OnOk result (tasks.new.items ≡ tasks.old.items ++ init_rows by first workers line) }
{
    for w in 0..workers {
        let copy = Cell(first.0 + w as u32);
        tasks.push(init_row(alloc, by, line, copy)?)?;
    }
    Ok(())
}

/// Begins a phase of a cell: its partial copies get the unit, and so does the cell itself where it has no value. Linear in the
/// workers.
pub fn push_begin(
    tasks: &mut Vec<Lowered>,
    alloc: Global,
    phase: OpenPhase,
    cell: Cell,
    valued: bool,
    workers: u8,
) -> Result<(), OutOfMemory>
    requires cells { phase.copies.0 + workers ≤ 262144 }
    ensures { OnOk result (tasks.new.items
        ≡ tasks.old.items ++ begin_rows phase.by phase.copies cell valued workers phase.line) }
{
    push_inits(tasks, alloc, phase.by, phase.copies, workers, phase.line)?;
    if !valued {
        tasks.push(init_row(alloc, phase.by, phase.line, cell)?)?;
    }
    Ok(())
}

/// Combines a partial copy into its cell.
fn combine_row(
    alloc: Global,
    by: Reduction,
    cell: Cell,
    line: Line,
    copy: Cell,
) -> Result<Lowered, OutOfMemory>
    ensures { IfOk result (λ l. l ≡ combine_row by cell line copy) }
{
    let from = Access {
        mode: Mode::R,
        cell: copy,
    };
    let to = Access {
        mode: Mode::RW,
        cell,
    };
    let accesses = Few::of(alloc, [from, to])?;
    Ok(own_task(Kernel::combine(by).id(), Vec::new(alloc), accesses, line))
}

/// Closes a phase of a cell: its partial copies are combined into it, by worker. Linear in the workers.
pub fn push_close(
    tasks: &mut Vec<Lowered>,
    alloc: Global,
    phase: OpenPhase,
    cell: Cell,
    workers: u8,
) -> Result<(), OutOfMemory>
    requires cells { phase.copies.0 + workers ≤ 262144 }
    ensures { OnOk result (tasks.new.items ≡ tasks.old.items ++ combine_rows phase cell workers) }
{
    for w in 0..workers {
        let copy = Cell(phase.copies.0 + w as u32);
        tasks.push(combine_row(alloc, phase.by, cell, phase.line, copy)?)?;
    }
    Ok(())
}
