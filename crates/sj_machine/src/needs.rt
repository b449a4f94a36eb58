//! What a task needs on its node.

ghost use Rattle.std.specs.Prelude.{◌≡◌, ◌≤◌, ◌<◌, ◌^◌, ◌*◌, ◌&&◌, ◌∷◌, [], All, filter, length, map, not, sum, sum_by};
ghost use Rattle.sj_base.specs.Array.{area};
ghost use Rattle.sj_base.specs.Mode.{is_scratch};
ghost use Rattle.sj_core.specs.Needs.{tile_bytes as bytes_of_tile};
ghost use Rattle.sj_core.specs.Program.{distinct, has_cell};
ghost use Rattle.sj_machine.specs.Cells.{mark_at};
ghost use Rattle.sj_core.specs.Machine.{is_entry};
ghost use Rattle.sj_machine.specs.Plan.{IsSmallCell};

use crate::choosing::mark_at;
use crate::few_bytes::FewBytes;
use crate::few_cells::FewCells;
use sj_base::ids::{Cell, Node};
use sj_base::mode::{Access, Mode};
use sj_base::program::Program;
use sj_replica::replica::Replica;

/// The bytes of a cell's tile. Constant time.
fn tile_bytes(program: &Program, cell: Cell) -> u64
    requires { IsSmallCell program.now cell }
    ensures { result ≡ bytes_of_tile program.now cell }
{
    8 * program.cells.items()[cell.0 as usize].dims.area()
}

/// The bytes of each cell's tile. Linear in the cells.
pub fn bytes_of(program: &Program, cells: &[Cell]) -> FewBytes
    requires small { All (IsSmallCell program.now) cells.now }
    requires few { length cells.now ≤ 5 }
    ensures { result ≡ map (bytes_of_tile program.now) cells.now }
{
    let mut bytes = FewBytes::none();
    for cell in cells {
        bytes.push(tile_bytes(program, *cell));
    }
    bytes
}

/// The bytes of an operand that is a scratch buffer; none of another. Constant time.
fn scratch_of(program: &Program, access: Access) -> u64
    requires { IsSmallCell program.now access.cell }
    ensures { result ≡ sum_by (λ a. bytes_of_tile program.now a.cell)
        (filter (λ a. is_scratch a.mode) (access ∷ [])) }
{
    if access.mode == Mode::Scratch {
        tile_bytes(program, access.cell)
    } else {
        0
    }
}

/// The bytes of scratch buffers among operands. Linear in the operands.
pub fn scratch_bytes(program: &Program, accesses: &[Access]) -> u64
    requires cells { All (λ a. IsSmallCell program.now a.cell) accesses.now }
    requires few { length accesses.now ≤ 5 }
    ensures small { result ≤ 5 * 2 ^ 27 }
    ensures bytes { result ≡ sum_by (λ a. bytes_of_tile program.now a.cell)
        (filter (λ a. is_scratch a.mode) accesses.now) }
{
    let mut bytes = 0;
    for access in accesses {
        bytes += scratch_of(program, *access);
    }
    bytes
}

/// Whether a node has no entry for a cell, by its mark, and the cell isn't among those that come after it. Linear in these.
fn is_lacking(rows: &[Replica], n: Node, cell: Cell, later: &[Cell]) -> bool
    requires { All (λ row. n.0 < length row.marks) rows.now }
    ensures { result ≡ (not (has_cell later.now cell) && not
        (is_entry (mark_at rows.now n cell))) }
{
    !later.contains(&cell) && !mark_at(rows, n, cell).is_entry_mark()
}

/// The cells without an entry on a node, by their marks, each once. Quadratic in the cells, which are a task's few.
pub fn lacking_cells(rows: &[Replica], n: Node, cells: &[Cell]) -> FewCells
    requires wide { All (λ row. n.0 < length row.marks) rows.now }
    requires few { length cells.now ≤ 5 }
    ensures { result
        ≡ filter (λ c. not (is_entry (mark_at rows.now n c))) (distinct cells.now) }
{
    let mut lacking = FewCells::none();
    for i in 0..cells.len() {
        if is_lacking(rows, n, cells[i], &cells[i + 1..]) {
            lacking.push(cells[i]);
        }
    }
    lacking
}

/// The sum of these. Linear in them.
pub fn total(bytes: &[u64]) -> u64
    requires { sum bytes.now < 2 ^ 63 }
    ensures { result ≡ sum bytes.now }
{
    bytes.iter().sum::<u64>()
}
