//! What the rows say of a worker's next step.

ghost use Rattle.std.specs.Prelude.{◌≡◌, ◌<◌, ◌-◌, ◌&&◌, All, find, length, not, reverse, take};
ghost use Rattle.std.specs.List.{list_all, list_any};
ghost use Rattle.sj_base.specs.declared.ids.Place.TheVariants.{Node as AtNode};
ghost use Rattle.sj_core.specs.Operands.{worked_on};
ghost use Rattle.sj_core.specs.Machine.{moves_in};
ghost use Rattle.sj_core.specs.Program.{has_cell};
ghost use Rattle.sj_core.specs.Step.{reads_in};
ghost use Rattle.sj_machine.specs.Choosing.{HasNumbers, are_present, are_unmoved, fresh_among, is_brought, leaves_in};
ghost use Rattle.sj_machine.specs.Cells.{mark_at};
ghost use Rattle.sj_machine.specs.Operands.{worked_among};

use crate::hold::Hold;
use crate::operands::worked_on;
use sj_base::ids::{Cell, Node, Place, Worker};
use sj_base::mode::{Access, Mode};
use sj_base::program::Program;
use sj_replica::mark::Mark;
use sj_replica::replica::Replica;

/// What a cell is at a node. Constant time.
pub fn mark_at(cells: &[Replica], n: Node, cell: Cell) -> Mark
    requires { All (λ row. n.0 < length row.marks) cells.now }
    ensures { result ≡ mark_at cells.now n cell }
{
    match cells.get(cell.0 as usize) {
        Some(row) => row.mark(n),
        None => Mark::Invalid,
    }
}

/// The last of these victims of which the copy at a node still leaves by the claim of a worker, without so many at the end.
/// Linear in those between it and these.
pub fn last_leaving(
    cells: &[Replica],
    n: Node,
    w: Worker,
    victims: &[Cell],
    gone: usize,
) -> Option<Cell>
    requires { All (λ row. n.0 < length row.marks) cells.now }
    ensures { result ≡ find (leaves_in cells.now n w)
        (reverse (take (length victims.now - gone) victims.now)) }
{
    victims[..victims.len().saturating_sub(gone)]
        .iter()
        .rev()
        .copied()
        .find(|c| mark_at(cells, n, *c).is_leaving_by(w))
}

/// Whether none of these victims has a copy at a node that still leaves by the claim of a worker. Linear in them.
pub fn are_gone(cells: &[Replica], n: Node, w: Worker, victims: &[Cell]) -> bool
    requires { All (λ row. n.0 < length row.marks) cells.now }
    ensures { result ≡ list_all (λ c. not (leaves_in cells.now n w c)) victims.now }
{
    victims
        .iter()
        .all(|c| !mark_at(cells, n, *c).is_leaving_by(w))
}

/// Whether a worker's transfer reads a cell at a node. Constant time.
fn reads(hold: &Hold, cell: Cell, n: Node) -> bool
    ensures { result ≡ reads_in hold.now cell (AtNode n) }
{
    match hold.transfer() {
        Some(x) => match x.from {
            Place::Node(k) => x.cell == cell && k == n,
            Place::Disk(_) => false,
        },
        None => false,
    }
}

/// Whether a transfer reads a cell at a node. Linear in the workers.
pub fn is_read(workers: &[Hold], cell: Cell, n: Node) -> bool
    ensures { result ≡ list_any (λ row. reads_in row cell (AtNode n)) workers.now }
{
    workers.iter().any(|hold| reads(hold, cell, n))
}

/// Whether a worker's transfer is one of a cell. Constant time.
fn moves(hold: &Hold, cell: Cell) -> bool
    ensures { result ≡ moves_in hold.now cell }
{
    match hold.transfer() {
        Some(x) => x.cell == cell,
        None => false,
    }
}

/// Whether a transfer of a cell is under way. Linear in the workers.
fn is_moving(workers: &[Hold], cell: Cell) -> bool
    ensures { result ≡ list_any (λ row. moves_in row cell) workers.now }
{
    workers.iter().any(|hold| moves(hold, cell))
}

/// The cell on which a worker works for an operand. Constant time.
fn cell_for(program: &Program, w: Worker, access: Access) -> Cell
    requires { HasNumbers program.now w }
    ensures { result ≡ worked_on program.now w access }
{
    if (access.cell.0 as usize) < program.cells.len() {
        worked_on(program, w, access)
    } else {
        access.cell
    }
}

/// Whether a cell is one of these operands whose old value isn't read. Linear in them.
pub fn is_fresh(program: &Program, w: Worker, accesses: &[Access], cell: Cell) -> bool
    requires { HasNumbers program.now w }
    ensures { result ≡ has_cell (fresh_among program.now w accesses.now) cell }
{
    accesses
        .iter()
        .filter(|a| a.mode != Mode::Scratch)
        .filter(|a| !a.mode.reads_value())
        .map(|a| cell_for(program, w, *a))
        .any(|c| c == cell)
}

/// The first cell in operand order that comes to a node by the claim of a worker, and whose old value is read. Quadratic in
/// the operands, which are a task's few.
pub fn first_brought(
    cells: &[Replica],
    program: &Program,
    n: Node,
    w: Worker,
    accesses: &[Access],
) -> Option<Cell>
    requires marks { All (λ row. n.0 < length row.marks) cells.now }
    requires copies { HasNumbers program.now w }
    ensures { result ≡ find (is_brought cells.now program.now n w accesses.now)
        (worked_among program.now w accesses.now) }
{
    accesses
        .iter()
        .filter(|a| a.mode != Mode::Scratch)
        .map(|a| cell_for(program, w, *a))
        .find(|c| mark_at(cells, n, *c).is_coming_by(w) && !is_fresh(program, w, accesses, *c))
}

/// Whether each cell whose old value is read is on a node. Quadratic in the operands, which are a task's few.
fn are_present(
    cells: &[Replica],
    program: &Program,
    n: Node,
    w: Worker,
    accesses: &[Access],
) -> bool
    requires marks { All (λ row. n.0 < length row.marks) cells.now }
    requires copies { HasNumbers program.now w }
    ensures { result ≡ are_present cells.now program.now n w accesses.now }
{
    accesses
        .iter()
        .filter(|a| a.mode != Mode::Scratch)
        .map(|a| cell_for(program, w, *a))
        .all(|c| is_fresh(program, w, accesses, c) || mark_at(cells, n, c).is_there())
}

/// Whether no transfer moves a cell that is written. Linear in the operands times the workers.
fn are_unmoved(workers: &[Hold], program: &Program, w: Worker, accesses: &[Access]) -> bool
    requires { HasNumbers program.now w }
    ensures { result ≡ are_unmoved workers.now program.now w accesses.now }
{
    accesses
        .iter()
        .filter(|a| a.mode.is_written())
        .map(|a| cell_for(program, w, *a))
        .all(|c| !is_moving(workers, c))
}

/// Whether the kernel of a claimed task may begin. Quadratic in the operands, which are a task's few, and linear in the workers
/// for each written one.
pub fn may_run(
    cells: &[Replica],
    workers: &[Hold],
    program: &Program,
    n: Node,
    w: Worker,
    accesses: &[Access],
) -> bool
    requires marks { All (λ row. n.0 < length row.marks) cells.now }
    requires copies { HasNumbers program.now w }
    ensures { result
        ≡ (are_present cells.now program.now n w accesses.now && are_unmoved workers.now program.now
        w accesses.now) }
{
    are_present(cells, program, n, w, accesses) && are_unmoved(workers, program, w, accesses)
}
