//! The blocks that a program's cells have on the disks.

ghost use Rattle.std.specs.Prelude.{◌≡◌, ◌^◌, ◌≤◌, All, IfErr, IfOk, IsSome, None, OnErr, OnOk, length, map};
ghost use Rattle.sj_base.specs.Array.{area};
ghost use Rattle.sj_core.specs.Proper.{HasSwapFor, IsMachineFor, IsWithinLimits};
ghost use Rattle.sj_disk.specs.Block.{block_bytes};
ghost use Rattle.sj_disk.specs.Directory.{extent_of, first_fit};
ghost use Rattle.sj_board.specs.Placing.{ArePlaced, IsEmptySet, ReservesSome};

use sj_base::ids::Cell;
use sj_base::memory::OutOfMemory;
use sj_base::program::{Machine, Program};
use sj_base::tile::Dims;
use sj_disk::disk_set::DiskSet;
use sj_disk::refusal::ReserveRefusal;
use sj_edge::disk::Disk;
use std::alloc::Global;

/// Gives a cell of these dimensions its block, on the first disk that has room for it. Linear in the disks.
fn place_cell<D: Disk>(set: &mut DiskSet<D>, cell: Cell, dims: Dims) -> Result<(), OutOfMemory>
    requires has_none { extent_of set.old.directory cell.0 ≡ None }
    requires small { area dims ≤ 2 ^ 24 }
    requires fits { IsSome (first_fit (map D.size set.old.disks) set.old.taken
        (block_bytes (area dims))) }
    ensures reserves { OnOk result (ReservesSome D.size cell.0 (area dims) set.old set.new) }
    ensures err { OnErr result (set.new ≡ set.old) }
{
    match set.reserve(cell, dims.area()) {
        Ok(_) => Ok(()),
        Err(ReserveRefusal::NoRoom) => unreachable!(),
        Err(ReserveRefusal::OutOfMemory) => Err(OutOfMemory),
    }
}

/// Gives each cell of a program its block, in cell order. Linear in the cells times the disks.
fn place_cells<D: Disk>(
    set: &mut DiskSet<D>,
    program: &Program,
    machine: &Machine,
) -> Result<(), OutOfMemory>
    requires limits { IsWithinLimits program.now }
    requires swap { HasSwapFor program.now machine.now }
    requires sizes { machine.now.disks ≡ map D.size set.old.disks }
    requires empty { IsEmptySet set.old }
    ensures disks { set.new.disks ≡ set.old.disks }
    ensures placed { OnOk result (ArePlaced program.now machine.now set.new.directory) }
{
    let _machine = machine;
    for i in 0..program.cells.len() {
        let dims = program.cells.items()[i].dims;
        place_cell(set, Cell(i as u32), dims)?;
    }
    Ok(())
}

/// A set of these disks, on which each cell of a program has its block by first fit. The disks come back where memory is
/// wanting. Linear in the cells times the disks.
pub fn placed<D: Disk>(
    alloc: Global,
    program: &Program,
    machine: &Machine,
    disks: Vec<D>,
) -> Result<DiskSet<D>, Vec<D>>
    requires limits { IsWithinLimits program.now }
    requires machine { IsMachineFor program.now machine.now }
    requires swap { HasSwapFor program.now machine.now }
    requires sizes { machine.now.disks ≡ map D.size disks.items }
    ensures disks { IfOk result (λ set. set.disks ≡ disks.items) }
    ensures placed { IfOk result (λ set. ArePlaced program.now machine.now set.directory) }
    ensures err { IfErr result (λ back. back.items ≡ disks.items) }
{
    let mut set = match DiskSet::make(alloc, disks) {
        Ok(set) => set,
        Err(disks) => return Err(disks),
    };
    match place_cells(&mut set, program, machine) {
        Ok(()) => Ok(set),
        Err(OutOfMemory) => Err(set.close()),
    }
}
