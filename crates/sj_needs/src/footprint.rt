//! The bytes that a task needs on its node, and those of all tasks.

ghost use Rattle.std.specs.Prelude.{◌≡◌, ◌≤◌, ◌<◌, ◌^◌, ◌*◌, IfOk, length};
ghost use Rattle.sj_core.specs.Needs.{AreFootprints, footprint, tile_bytes as bytes_of_tile};
ghost use Rattle.sj_core.specs.Proper.{IsWithinLimits, Proper};
ghost use Rattle.sj_needs.specs.Operands.{bytes_before, is_accessed};

use sj_base::ids::{Cell, Task};
use sj_base::memory::OutOfMemory;
use sj_base::mode::{Access, Mode};
use sj_base::program::Program;
use sj_core::tasks::accesses_of;
use std::alloc::Global;

/// The bytes of a cell's tile. Constant time.
fn tile_bytes(program: &Program, cell: Cell) -> u64
    requires limits { IsWithinLimits program.now }
    requires cell { cell.0 < length program.now.cells }
    ensures bytes { result ≡ bytes_of_tile program.now cell }
    ensures small { result ≤ 2 ^ 27 }
{
    8 * program.cells.items()[cell.0 as usize].dims.area()
}

/// Whether one of these operands is an access to the cell, and not a scratch buffer. Linear in them.
fn is_accessed(accesses: &[Access], cell: Cell) -> bool
    ensures { result ≡ is_accessed accesses.now cell }
{
    accesses
        .iter()
        .any(|a| a.mode != Mode::Scratch && a.cell == cell)
}

/// The bytes of an operand before these. Linear in them.
fn bytes_before(program: &Program, later: &[Access], access: Access) -> u64
    requires limits { IsWithinLimits program.now }
    requires cell { access.cell.0 < length program.now.cells }
    ensures bytes { result ≡ bytes_before program.now later.now access }
    ensures small { result ≤ 2 ^ 27 }
{
    if access.mode != Mode::Scratch && is_accessed(later, access.cell) {
        return 0;
    }
    tile_bytes(program, access.cell)
}

/// The bytes that a task needs on its node: those of each cell that it accesses, once, and of its scratch buffers. A partial
/// copy is as large as its cell. Quadratic in the operands, which are five at most; no memory.
pub fn footprint(program: &Program, t: Task) -> u64
    requires program { Proper program.now }
    requires task { t.0 < length program.now.tasks }
    ensures bytes { result ≡ footprint program.now t }
    ensures small { result ≤ 5 * 2 ^ 27 }
{
    let accesses = accesses_of(program, t);
    let mut bytes = 0;
    for i in 0..accesses.len() {
        bytes += bytes_before(program, &accesses[i + 1..], accesses[i]);
    }
    bytes
}

/// The bytes that each task needs on its node, by the task's number. Linear in the accesses.
pub fn footprints_of(alloc: Global, program: &Program) -> Result<Vec<u64>, OutOfMemory>
    requires { Proper program.now }
    ensures { IfOk result (λ v. AreFootprints program.now v.items) }
{
    let count = program.tasks.len();
    let mut bytes = Vec::with_capacity(alloc, count)?;
    for i in 0..count {
        bytes.push(footprint(program, Task(i as u32)))?;
    }
    Ok(bytes)
}
