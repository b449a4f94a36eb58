//! The bytes of all blocks, and whether they have their places on disks.

ghost use Rattle.std.specs.Prelude.{◌≡◌, ◌≤◌, ◌<◌, ◌^◌, ◌*◌, ◌+◌, All, IfOk, is_some, length, replicate, sum};
ghost use Rattle.sj_base.specs.Array.{area};
ghost use Rattle.sj_core.specs.Needs.{cell_block_bytes, place, swap_need};
ghost use Rattle.sj_core.specs.Proper.{IsWithinLimits};

use sj_base::memory::OutOfMemory;
use sj_base::places::first_fit;
use sj_base::program::{CellInfo, Program};
use std::alloc::Global;

/// The bytes of a cell's block on a disk: a header of 24, and eight for each element. Constant time.
fn cell_block_bytes(cell: &CellInfo) -> u64
    requires { area cell.now.dims ≤ 2 ^ 24 }
    ensures bytes { result ≡ cell_block_bytes cell.now }
    ensures small { result ≤ 2 ^ 28 }
{
    24 + 8 * cell.dims.area()
}

/// The bytes of the blocks of all cells. Linear in the cells; no memory.
pub fn swap_need(program: &Program) -> u64
    requires { IsWithinLimits program.now }
    ensures { result ≡ swap_need program.now }
{
    let mut need = 0;
    for cell in program.cells.items() {
        need += cell_block_bytes(cell);
    }
    need
}

/// The bytes of all disks. Linear in them; no memory.
pub fn bytes_of_all(disks: &[u64]) -> u64
    requires few { length disks.now ≤ 16 }
    requires small { All (λ n. n ≤ 2 ^ 40) disks.now }
    ensures { result ≡ sum disks.now }
{
    let mut all = 0;
    for disk in disks {
        all += *disk;
    }
    all
}

/// Nothing taken, of so many disks.
fn none_taken(alloc: Global, disks: usize) -> Result<Vec<u64>, OutOfMemory>
    ensures { IfOk result (λ taken. taken.items ≡ replicate disks 0) }
{
    Ok(vec![in alloc; 0u64; disks]?)
}

/// Whether the blocks of all cells have places on disks of these sizes: in cell order each on the first disk that has room for
/// it behind the earlier ones. Linear in the cells, for each in the disks, which are few.
pub fn has_places(alloc: Global, program: &Program, disks: &[u64]) -> Result<bool, OutOfMemory>
    requires { IsWithinLimits program.now }
    ensures { IfOk result (λ has. has ≡ is_some (place program.now disks.now)) }
{
    let mut taken = none_taken(alloc, disks.len())?;
    for cell in program.cells.items() {
        let need = cell_block_bytes(cell);
        let Some(d) = first_fit(disks, &taken, need) else {
            return Ok(false);
        };
        taken[d] += need;
    }
    Ok(true)
}
