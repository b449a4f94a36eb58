//! A disk in a worker's hand, which it works on while others use the set of disks.

ghost use Rattle.std.specs.Prelude.{◌≡◌, ◌+◌, ◌++◌, ◌^◌, ◌<◌, ◌≤◌, IfErr, Some, true, length};
ghost use Rattle.sj_edge.specs.Held.{Fills};
ghost use Rattle.sj_disk.specs.Block.{block_bytes, element_bytes, header_bytes};
ghost use Rattle.sj_disk.specs.Directory.{last_store};
ghost use Rattle.sj_disk.specs.Transfers.{Writes};
ghost use Rattle.sj_disk.specs.Units.{IsSoundUnit, IsWorkedOn, UnitFetches, UnitStores, unit_state};

use crate::directory::{Extent, LastStore};
use crate::header::Header;
use crate::refusal::DiskRefusal;
use crate::transfer::{read_block, write_block};
use sj_base::ids::Cell;
use sj_base::tile::Tile;
use sj_edge::disk::Disk;
use sj_edge::source::Failed;
use std::marker::Model;

/// A disk that was taken out of its set, with the block of one cell on it.
#[derive(Drop)]
pub struct Unit<D: Disk> {
    disk: D,
    cell: Cell,
    extent: Extent,
}

impl<D: Disk> Model for Unit<D> {
    ghost use Rattle.sj_disk.specs.Units.{IsSoundUnit, UnitState, unit_state};

    ghost Value = { UnitState D };

    ghost view = { λ u. unit_state u.disk u.cell u.extent };

    ghost invariant = { λ u. IsSoundUnit D.size D.held (unit_state u.disk u.cell u.extent) };
}

/// What a unit consists of.
#[derive(Drop)]
pub(crate) struct UnitParts<D: Disk> {
    pub disk: D,
    pub cell: Cell,
    pub extent: Extent,
}

/// Stores a block in its extent.
fn write_on<D: Disk>(
    disk: &mut D,
    extent: &Extent,
    header: Header,
    elements: &[i64],
) -> Result<(), DiskRefusal>
    requires filled { Fills (D.held disk.old) (D.size disk.old) }
    requires in_range { extent.now.position + block_bytes (length elements.now) ≤ D.size disk.old }
    requires fits { extent.now.position + block_bytes (length elements.now) < 2 ^ 64 }
    ensures writes { Writes D.size D.faults D.mismatches D.held extent.now.position
        (header_bytes header ++ element_bytes elements.now) result disk.old disk.new }
    ensures refused { IfErr result (λ r. r ≡ DiskRefusal.DiskFault extent.now.disk) }
{
    match write_block(disk, extent.position, header, elements) {
        Ok(()) => Ok(()),
        Err(Failed) => Err(DiskRefusal::DiskFault { disk: extent.disk }),
    }
}

impl<D: Disk> Unit<D> {
    /// A disk with the block of a cell.
    pub(crate) fn of(disk: D, cell: Cell, extent: Extent) -> Unit<D>
        requires { IsSoundUnit D.size D.held (unit_state disk cell extent) }
        ensures { result ≡ unit_state disk cell extent }
    {
        Unit { disk, cell, extent }
    }

    /// The disk, the cell and the extent.
    pub(crate) fn into_parts(self) -> UnitParts<D>
        ensures parts { unit_state result.disk result.cell result.extent ≡ self }
        ensures sound { IsSoundUnit D.size D.held self }
    {
        let Unit { disk, cell, extent } = self;
        UnitParts { disk, cell, extent }
    }

    /// The cell whose block may be used. Constant time.
    pub fn cell(&self) -> Cell
        ensures { result ≡ self.now.cell }
    {
        self.cell
    }

    /// The extent of the cell. Constant time.
    pub fn extent(&self) -> Extent
        ensures { result ≡ self.now.extent }
    {
        self.extent
    }

    /// Writes a tile to the block, with the cell's write count. Linear in the tile; takes no memory.
    ///
    /// Where it fails the block may hold any bytes, and the extent says so.
    pub fn store(&mut self, writes: u64, tile: &Tile) -> Result<(), DiskRefusal>
        requires whole { length tile.now.elements ≡ self.old.extent.length }
        ensures { UnitStores D.size D.faults D.mismatches D.held writes tile.now.elements result
            self.old self.new }
    {
        let header = Header {
            cell: self.cell.0 as u64,
            writes,
            length: self.extent.length,
        };
        let result = write_on(&mut self.disk, &self.extent, header, tile.elements());
        self.extent.last_store = Some(LastStore {
            writes,
            ended_ok: result.is_ok(),
        });
        result
    }

    /// Reads into a tile what was last stored of the cell, with this write count. Linear in the
    /// tile; takes no memory.
    ///
    /// After a refusal the tile holds any elements.
    pub fn fetch(&mut self, writes: u64, tile: &mut Tile) -> Result<(), DiskRefusal>
        requires whole { length tile.old.elements ≡ self.old.extent.length }
        requires stored { self.old.extent.last_store ≡ Some (last_store writes true) }
        ensures dims_stay { tile.new.dims ≡ tile.old.dims }
        ensures fetches { UnitFetches D.size D.faults D.mismatches D.held writes tile.new.elements
            result self.old self.new }
    {
        let want = Header {
            cell: self.cell.0 as u64,
            writes,
            length: self.extent.length,
        };
        let extent = self.extent;
        read_block(
            &mut self.disk,
            extent.disk,
            extent.position,
            want,
            tile.elements_mut(),
        )
    }

    /// A unit that nothing was done with is one that may come back. Constant time.
    pub fn is_as_it_was(&self)
        ensures { IsWorkedOn D.size D.faults D.mismatches D.held self.now self.now }
    {
        let _ = &self.disk;
    }
}
