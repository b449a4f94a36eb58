//! The operands of a task as its worker works on them.

ghost use Rattle.std.specs.Prelude.{◌≡◌, ◌≤◌, All, length};
ghost use Rattle.sj_core.specs.Operands.{worked_on as cell_worked_on};
ghost use Rattle.sj_machine.specs.Operands.{CanWorkOn, first_held, is_held, worked_among, written_among};

use crate::few_cells::FewCells;
use crate::hold::Hold;
use sj_base::ids::{Cell, Worker};
use sj_base::mode::{Access, Mode};
use sj_base::program::Program;

/// The cell on which a worker works for an operand: its own partial copy of a cell to which it contributes, and the cell
/// itself for any other operand. Constant time.
pub fn worked_on(program: &Program, w: Worker, access: Access) -> Cell
    requires { CanWorkOn program.now w access }
    ensures { result ≡ cell_worked_on program.now w access }
{
    if access.mode != Mode::Redux {
        return access.cell;
    }
    match program.cells.items()[access.cell.0 as usize].partials {
        Some(first) => Cell(first.0 + w.0 as u32),
        None => access.cell,
    }
}

/// The cells on which a worker works for the operands that are accesses to data, in order. Linear in the operands.
pub fn worked_cells(program: &Program, w: Worker, accesses: &[Access]) -> FewCells
    requires can { All (CanWorkOn program.now w) accesses.now }
    requires few { length accesses.now ≤ 5 }
    ensures { result ≡ worked_among program.now w accesses.now }
{
    let mut cells = FewCells::none();
    for access in accesses {
        if access.mode != Mode::Scratch {
            cells.push(worked_on(program, w, *access));
        }
    }
    cells
}

/// The cells on which a worker works for the operands that are written, in order. Linear in the operands.
pub fn written_cells(program: &Program, w: Worker, accesses: &[Access]) -> FewCells
    requires can { All (CanWorkOn program.now w) accesses.now }
    requires few { length accesses.now ≤ 5 }
    ensures { result ≡ written_among program.now w accesses.now }
{
    let mut cells = FewCells::none();
    for access in accesses {
        if access.mode.is_written() {
            cells.push(worked_on(program, w, *access));
        }
    }
    cells
}

/// Whether a worker pins a cell. Linear in the workers and their pins, which are a task's few.
fn is_held(workers: &[Hold], cell: Cell) -> bool
    ensures { result ≡ is_held workers.now cell }
{
    workers.iter().any(|worker| worker.pins().contains(&cell))
}

/// The first cell of a commuting operand that a worker pins. Linear in the operands, and in the workers for each that
/// commutes.
pub fn commuter_held(workers: &[Hold], accesses: &[Access]) -> Option<Cell>
    ensures { result ≡ first_held workers.now accesses.now }
{
    accesses
        .iter()
        .filter(|a| a.mode == Mode::Commute)
        .map(|a| a.cell)
        .find(|c| is_held(workers, *c))
}
