//! On which disk the block of each cell lies.

ghost use Rattle.std.specs.Prelude.{◌≡◌, ◌+◌, ◌<◌, ◌≤◌, ◌^◌, [], IfOk, IfSome, length, map, option_map, replicate, slice_index_or, unwrap_or};
ghost use Rattle.sj_base.specs.Array.{area};
ghost use Rattle.sj_base.specs.FirstFit.{first_fit};
ghost use Rattle.sj_core.specs.Needs.{cell_block_bytes, place};
ghost use Rattle.sj_core.specs.Proper.{IsWithinLimits};

use sj_base::ids::DiskNo;
use sj_base::memory::OutOfMemory;
use sj_base::places::first_fit;
use sj_base::program::{CellInfo, Program};
use std::alloc::Global;

/// The bytes of a cell's block: a header of 24, and eight for each element. Constant time.
fn block_bytes(cell: &CellInfo) -> u64
    requires { area cell.now.dims ≤ 2 ^ 24 }
    ensures bytes { result ≡ cell_block_bytes cell.now }
    ensures small { result ≤ 2 ^ 28 }
{
    24 + 8 * cell.dims.area()
}

/// Nothing taken, of so many disks.
fn none_taken(alloc: Global, disks: usize) -> Result<Vec<u64>, OutOfMemory>
    ensures { IfOk result (λ taken. taken.items ≡ replicate disks 0) }
{
    Ok(vec![in alloc; 0u64; disks]?)
}

/// The first disk that has so many bytes beside those taken. Linear in the disks.
fn fitting(disks: &[u64], taken: &[u64], need: u64) -> Option<usize>
    requires { length taken.now ≡ length disks.now }
    ensures first { result ≡ first_fit disks.now taken.now need }
    ensures disk { IfSome result (λ d. d < length taken.now) }
    ensures room { IfSome result (λ d. slice_index_or taken.now d 0 + need < 2 ^ 64) }
{
    first_fit(disks, taken, need)
}

/// The disk of each cell's block, by the cell's number, on disks of these sizes; none at all where one block fits nowhere. Linear
/// in the cells, for each in the disks, which are few.
pub fn homes_of(alloc: Global, program: &Program, disks: &[u64]) -> Result<Vec<DiskNo>, OutOfMemory>
    requires limits { IsWithinLimits program.now }
    requires few { length disks.now ≤ 16 }
    ensures { IfOk result (λ homes. homes.items
        ≡ unwrap_or (option_map (map (λ b. b.disk)) (place program.now disks.now)) []) }
{
    let mut homes = Vec::with_capacity(alloc, program.cells.len())?;
    let mut taken = none_taken(alloc, disks.len())?;
    for cell in program.cells.items() {
        let need = block_bytes(cell);
        let Some(d) = fitting(disks, &taken, need) else {
            return Ok(Vec::new(alloc));
        };
        taken[d] += need;
        homes.push(DiskNo(d as u8))?;
    }
    Ok(homes)
}
