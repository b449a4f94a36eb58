//! A set of disks that lends them: a worker takes a disk out and works on it, while others use the rest of the set.

ghost use Rattle.std.specs.Prelude.{◌≡◌, ◌↔◌, Some, IsSome, IsSomeAnd, IfErr, IfNone, IfOk, IfSome, false, true, length, map, option_map, replicate};
ghost use Rattle.sj_disk.specs.Calls.{Fetches, Stores};
ghost use Rattle.sj_disk.specs.Directory.{IsLaidOut, extent_of, last_store};
ghost use Rattle.sj_disk.specs.Lending.{ComesFrom, HasFetched, HasStored, IsInFor, IsOutFor, NoneIsOut, TakesOut, has_back, lending};
ghost use Rattle.sj_disk.specs.Rack.{is_out};

use crate::directory::{Extent, extent_of, known_extent};
use crate::disk_set::{DiskSet, SetParts};
use crate::rack::Rack;
use crate::refusal::DiskRefusal;
use crate::unit::{Unit, UnitParts};
use sj_base::ids::{Cell, DiskNo};
use sj_base::tile::Tile;
use sj_edge::disk::Disk;
use std::alloc::Global;
use std::marker::Model;

/// Disks, of which each is in or out, and for each cell the block that it has on one of them.
#[derive(Drop)]
pub struct LendingSet<D: Disk> {
    rack: Rack<D>,
    /// How many bytes each disk has.
    sizes: Vec<u64>,
    /// How many bytes of each disk are given to blocks, from its front.
    taken: Vec<u64>,
    /// The extent of each cell, by its number.
    directory: Vec<Option<Extent>>,
}

impl<D: Disk> Model for LendingSet<D> {
    ghost use Rattle.sj_disk.specs.Directory.{disk_state};
    ghost use Rattle.sj_disk.specs.Lending.{LendingState, lending};
    ghost use Rattle.sj_disk.specs.Sound.{AreSoundDisks};

    ghost Value = { LendingState D };

    ghost view = { λ s. lending (disk_state s.rack.disks s.taken.items s.directory.items)
        s.rack.out };

    ghost invariant = { λ s. AreSoundDisks D.size D.held s.rack.disks s.sizes.items s.taken.items
        s.directory.items };
}

impl<D: Disk> LendingSet<D> {
    /// The set of these disks, with all of them in. The error hands the set back where memory runs out. Linear in the
    /// disks.
    pub fn make(alloc: Global, set: DiskSet<D>) -> Result<LendingSet<D>, DiskSet<D>>
        ensures ok { IfOk result (λ s. s ≡ lending set (replicate (length set.disks) false)) }
        ensures none_is_out { IfOk result NoneIsOut }
        ensures err { IfErr result (λ back. back ≡ set) }
    {
        let SetParts {
            disks,
            sizes,
            taken,
            directory,
        } = set.into_parts();
        match Rack::make(alloc, disks) {
            Ok(rack) => Ok(LendingSet {
                rack,
                sizes,
                taken,
                directory,
            }),
            Err(disks) => Err(DiskSet::of_parts(SetParts {
                disks,
                sizes,
                taken,
                directory,
            })),
        }
    }

    /// The extent of a cell, where it has one. Constant time.
    ///
    /// Of a cell whose disk is out it is the extent as it was when the disk was taken.
    pub fn extent(&self, cell: Cell) -> Option<Extent>
        ensures extent { result ≡ extent_of self.now.set.directory cell.0 }
        ensures laid_out { IsLaidOut (map D.size self.now.set.disks) self.now.set.taken
            self.now.set.directory }
    {
        extent_of(&self.directory, cell)
    }

    /// The disk on which a cell's block lies, where it has one. Constant time.
    pub fn disk_of(&self, cell: Cell) -> Option<DiskNo>
        ensures { result ≡ option_map (λ e. e.disk) (extent_of self.now.set.directory cell.0) }
    {
        extent_of(&self.directory, cell).map(|extent| extent.disk)
    }

    /// Whether the disk on which a cell's block lies is out. Constant time.
    pub fn is_out_for(&self, cell: Cell) -> bool
        requires reserved { IsSome (extent_of self.now.set.directory cell.0) }
        ensures { IfSome (extent_of self.now.set.directory cell.0)
            (λ e. result ≡ is_out self.now.out e.disk.0) }
    {
        let extent = known_extent(&self.directory, cell);
        self.rack.is_out(extent.disk)
    }

    /// Whether a disk is out. Linear in the disks.
    pub fn any_is_out(&self) -> bool
        ensures { (result ≡ false) ↔ NoneIsOut self.now }
    {
        self.rack.any_is_out()
    }

    /// Takes out the disk on which a cell's block lies, with that block, where it is in. Constant time; takes no memory.
    ///
    /// Until it is put back, the set knows the disk and what it holds as they are now.
    pub fn take_out(&mut self, cell: Cell) -> Option<Unit<D>>
        requires reserved { IsSome (extent_of self.old.set.directory cell.0) }
        ensures some { IfSome result (λ u. TakesOut cell u self.old self.new) }
        ensures none { IfNone result (IsOutFor self.old cell.0 × (self.new ≡ self.old)) }
    {
        let extent = known_extent(&self.directory, cell);
        let disk = self.rack.take(extent.disk)?;
        Some(Unit::of(disk, cell, extent))
    }

    /// Puts a unit in its place again. What was stored and fetched through it, the set has then stored and fetched.
    /// Constant time; takes no memory.
    pub fn put_back(&mut self, unit: Unit<D>)
        requires { ComesFrom D.size D.faults D.mismatches D.held self.old unit }
        ensures back { self.new ≡ has_back self.old unit }
        ensures stores { HasStored D.size D.faults D.mismatches D.held unit self.old self.new }
        ensures fetches { HasFetched D.size D.faults D.mismatches D.held unit self.old self.new }
    {
        let UnitParts { disk, cell, extent } = unit.into_parts();
        self.rack.put(extent.disk, disk);
        self.directory[cell.0 as usize] = Some(extent);
    }

    /// Writes a tile to the block of its cell, with the cell's write count. Linear in the tile; takes no memory.
    ///
    /// Where it fails the block may hold any bytes, and the directory says so.
    pub fn store(&mut self, cell: Cell, writes: u64, tile: &Tile) -> Result<(), DiskRefusal>
        requires reserved { IsSomeAnd (extent_of self.old.set.directory cell.0)
            (λ e. length tile.now.elements ≡ e.length) }
        requires its_disk_is_in { IsInFor self.old cell.0 }
        ensures stores { IfSome (extent_of self.old.set.directory cell.0)
            (Stores D.size D.faults D.mismatches D.held cell.0 writes tile.now.elements result
            self.old.set self.new.set) }
        ensures out_stay { self.new.out ≡ self.old.out }
    {
        let mut unit = self.take_out(cell).unwrap();
        let result = unit.store(writes, tile);
        self.put_back(unit);
        result
    }

    /// Reads into a tile what was last stored of its cell, with this write count. Linear in the tile; takes no memory.
    ///
    /// After a refusal the tile holds any elements.
    pub fn fetch(&mut self, cell: Cell, writes: u64, tile: &mut Tile) -> Result<(), DiskRefusal>
        requires stored { IsSomeAnd (extent_of self.old.set.directory cell.0)
            (λ e. (length tile.old.elements ≡ e.length)
            × (e.last_store ≡ Some (last_store writes true))) }
        requires its_disk_is_in { IsInFor self.old cell.0 }
        ensures dims_stay { tile.new.dims ≡ tile.old.dims }
        ensures fetches { IfSome (extent_of self.old.set.directory cell.0)
            (Fetches D.size D.faults D.mismatches D.held cell.0 writes tile.new.elements result
            self.old.set self.new.set) }
        ensures out_stay { self.new.out ≡ self.old.out }
    {
        let mut unit = self.take_out(cell).unwrap();
        let result = unit.fetch(writes, tile);
        self.put_back(unit);
        result
    }

    /// The disks in their order. Linear in them; takes no memory.
    pub fn close(self) -> Vec<D>
        requires none_is_out { NoneIsOut self }
        ensures { result.items ≡ self.set.disks }
    {
        self.rack.close()
    }
}
