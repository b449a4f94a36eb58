//! The disks that evicted tiles are kept on.

ghost use Rattle.std.specs.Prelude.{◌≡◌, ℕ, ◌↔◌, ◌+◌, ◌^◌, ◌<◌, ◌≤◌, ◌++◌, Some, None, Ok, Err, [], All, FitsSigned, IsSomeAnd, IfSome, IfOk, IfErr, OnOk, OnErr, true, false, length, map, option_map, replicate, slice_index_or};
ghost use Rattle.std.specs.Int.{w64};
ghost use Rattle.sj_disk.specs.Block.{block_bytes, element_bytes, header_bytes};
ghost use Rattle.sj_disk.specs.Calls.{Fetches, Reserves, Stores};
ghost use Rattle.sj_disk.specs.Directory.{disk_state, extent_of, first_fit, last_store, IsLaidOut};
ghost use Rattle.sj_disk.specs.Holding.{ChangesAt, Holds, IsInside, TellsBytes};
ghost use Rattle.sj_disk.specs.Refusals.{is_damage, is_fault, RefusesFor};
ghost use Rattle.sj_disk.specs.Sound.{AreFilled, AreSoundDisks};
ghost use Rattle.sj_disk.specs.Transfers.{Looks, Writes};

use crate::directory::{Extent, LastStore, add_extent, extent_of, known_extent};
use crate::header::{HEADER_BYTES, Header};
use crate::refusal::{DiskRefusal, ReserveRefusal};
use crate::transfer::{read_block, write_block};
use sj_base::ids::{Cell, DiskNo};
use sj_base::memory::OutOfMemory;
use sj_base::places::first_fit;
use sj_base::tile::Tile;
use sj_edge::disk::Disk;
use sj_edge::source::Failed;
use std::alloc::Global;
use std::marker::Model;

/// Disks, and for each cell the block that it has on one of them (StarPU Handbook, "Out Of Core").
///
/// A block is 24 bytes of header and eight for each element. It stays where it is.
#[derive(Drop)]
pub struct DiskSet<D: Disk> {
    disks: Vec<D>,
    /// How many bytes each disk has.
    sizes: Vec<u64>,
    /// How many bytes of each disk are given to blocks, from its front.
    taken: Vec<u64>,
    /// The extent of each cell, by its number.
    directory: Vec<Option<Extent>>,
}

impl<D: Disk> Model for DiskSet<D> {
    ghost use Rattle.sj_disk.specs.Directory.{DiskState, disk_state};
    ghost use Rattle.sj_disk.specs.Sound.{AreSoundDisks};

    ghost Value = { DiskState D };

    ghost view = { λ s. disk_state s.disks.items s.taken.items s.directory.items };

    ghost invariant = { λ s. AreSoundDisks D.size D.held s.disks.items s.sizes.items s.taken.items
        s.directory.items };
}

/// What a set of disks consists of.
#[derive(Drop)]
pub(crate) struct SetParts<D: Disk> {
    pub disks: Vec<D>,
    pub sizes: Vec<u64>,
    pub taken: Vec<u64>,
    pub directory: Vec<Option<Extent>>,
}

/// The sizes of disks, and what follows for a set of them. Linear in them.
fn measured<D: Disk>(alloc: Global, disks: &[D]) -> Result<Vec<u64>, OutOfMemory>
    ensures sizes { IfOk result (λ s. s.items ≡ map D.size disks.now) }
    ensures bounded { IfOk result (λ s. (k : ℕ) → slice_index_or s.items k 0 < 2 ^ 64) }
    ensures filled { OnOk result (AreFilled D.size D.held disks.now) }
{
    let mut sizes = Vec::new(alloc);
    for disk in disks {
        sizes.push(disk.size())?;
    }
    Ok(sizes)
}

/// So many zeros.
fn zeros(alloc: Global, many: usize) -> Result<Vec<u64>, OutOfMemory>
    ensures { IfOk result (λ v. v.items ≡ replicate many 0) }
{
    Ok(vec![in alloc; 0u64; many]?)
}

/// Stores a block in its extent.
fn store_on<D: Disk>(
    disks: &mut Vec<D>,
    extent: &Extent,
    header: Header,
    elements: &[i64],
) -> Result<(), DiskRefusal>
    requires on_a_disk { extent.now.disk.0 < length disks.old.items }
    requires filled { AreFilled D.size D.held disks.old.items }
    requires in_range { IsInside D.size disks.old.items extent.now (length elements.now) }
    requires fits { extent.now.position + block_bytes (length elements.now) < 2 ^ 64 }
    ensures writes { ChangesAt extent.now.disk.0 (Writes D.size D.faults D.mismatches D.held
        extent.now.position (header_bytes header ++ element_bytes elements.now) result)
        disks.old.items disks.new.items }
    ensures refused { IfErr result (λ r. r ≡ DiskRefusal.DiskFault extent.now.disk) }
{
    let disk = &mut disks[extent.disk.0 as usize];
    match write_block(disk, extent.position, header, elements) {
        Ok(()) => Ok(()),
        Err(Failed) => Err(DiskRefusal::DiskFault { disk: extent.disk }),
    }
}

/// Fetches a block from its extent.
fn fetch_on<D: Disk>(
    disks: &mut Vec<D>,
    extent: &Extent,
    want: Header,
    elements: &mut [i64],
) -> Result<(), DiskRefusal>
    requires on_a_disk { extent.now.disk.0 < length disks.old.items }
    requires in_range { IsInside D.size disks.old.items extent.now (length elements.old) }
    requires fits { extent.now.position + block_bytes (length elements.old) < 2 ^ 64 }
    ensures looks { ChangesAt extent.now.disk.0 (Looks D.size D.faults D.mismatches D.held
        (is_fault result) (is_damage result)) disks.old.items disks.new.items }
    ensures gives { OnOk result (Holds D.held disks.old.items extent.now
        (header_bytes want ++ element_bytes elements.new)) }
    ensures fits { OnOk result (All (FitsSigned w64) elements.new) }
    ensures refused { RefusesFor extent.now.disk want result }
    ensures undamaged { TellsBytes D.held disks.old.items extent.now →
        Holds D.held disks.old.items extent.now (header_bytes want) → is_damage result ≡ false }
{
    let disk = &mut disks[extent.disk.0 as usize];
    read_block(disk, extent.disk, extent.position, want, elements)
}

impl<D: Disk> DiskSet<D> {
    /// A set of these disks, with no block. The error hands them back where memory runs out.
    /// Linear in the disks.
    pub fn make(alloc: Global, disks: Vec<D>) -> Result<DiskSet<D>, Vec<D>>
        requires few { length disks.items ≤ 16 }
        ensures ok { IfOk result (λ s. s ≡ disk_state disks.items
            (replicate (length disks.items) 0) []) }
        ensures err { IfErr result (λ back. back.items ≡ disks.items) }
    {
        let Ok(sizes) = measured(alloc, &disks) else {
            return Err(disks);
        };
        let Ok(taken) = zeros(alloc, disks.len()) else {
            return Err(disks);
        };
        Ok(DiskSet {
            disks,
            sizes,
            taken,
            directory: Vec::new(alloc),
        })
    }

    /// Gives a cell a block of so many elements, on the first disk that has room for it, behind the
    /// blocks that are there. Linear in the disks; the directory grows to the cell's number.
    pub fn reserve(&mut self, cell: Cell, length: u64) -> Result<DiskNo, ReserveRefusal>
        requires has_none { extent_of self.old.directory cell.0 ≡ None }
        requires few { length ≤ 2 ^ 24 }
        ensures no_room { (result ≡ Err ReserveRefusal.NoRoom) ↔
            (first_fit (map D.size self.old.disks) self.old.taken (block_bytes length) ≡ None) }
        ensures reserves { IfOk result (λ d. Reserves D.size cell.0 length d self.old self.new) }
        ensures err { OnErr result (self.new ≡ self.old) }
    {
        let need = HEADER_BYTES as u64 + 8 * length;
        let Some(d) = first_fit(&self.sizes, &self.taken, need) else {
            return Err(ReserveRefusal::NoRoom);
        };
        let disk = DiskNo(d as u8);
        let extent = Extent {
            disk,
            position: self.taken[d],
            length,
            last_store: None,
        };
        add_extent(&mut self.directory, cell, extent)?;
        self.taken[d] += need;
        Ok(disk)
    }

    /// The extent of a cell, where it has one. Constant time.
    pub fn extent(&self, cell: Cell) -> Option<Extent>
        ensures extent { result ≡ extent_of self.now.directory cell.0 }
        ensures laid_out { IsLaidOut (map D.size self.now.disks) self.now.taken
            self.now.directory }
    {
        extent_of(&self.directory, cell)
    }

    /// The disk on which a cell's block lies, where it has one. Constant time.
    pub fn disk_of(&self, cell: Cell) -> Option<DiskNo>
        ensures { result ≡ option_map (λ e. e.disk) (extent_of self.now.directory cell.0) }
    {
        extent_of(&self.directory, cell).map(|extent| extent.disk)
    }

    /// Writes a tile to the block of its cell, with the cell's write count. Linear in the tile;
    /// takes no memory.
    ///
    /// Where it fails the block may hold any bytes, and the directory says so.
    pub fn store(&mut self, cell: Cell, writes: u64, tile: &Tile) -> Result<(), DiskRefusal>
        requires reserved { IsSomeAnd (extent_of self.old.directory cell.0)
            (λ e. length tile.now.elements ≡ e.length) }
        ensures { IfSome (extent_of self.old.directory cell.0)
            (Stores D.size D.faults D.mismatches D.held cell.0 writes tile.now.elements result
            self.old self.new) }
    {
        let extent = known_extent(&self.directory, cell);
        let header = Header {
            cell: cell.0 as u64,
            writes,
            length: extent.length,
        };
        let result = store_on(&mut self.disks, &extent, header, tile.elements());
        let last_store = LastStore {
            writes,
            ended_ok: result.is_ok(),
        };
        self.directory[cell.0 as usize] = Some(Extent {
            last_store: Some(last_store),
            ..extent
        });
        result
    }

    /// Reads into a tile what was last stored of its cell, with this write count. Linear in the
    /// tile; takes no memory.
    ///
    /// After a refusal the tile holds any elements.
    pub fn fetch(&mut self, cell: Cell, writes: u64, tile: &mut Tile) -> Result<(), DiskRefusal>
        requires stored { IsSomeAnd (extent_of self.old.directory cell.0)
            (λ e. (length tile.old.elements ≡ e.length)
            × (e.last_store ≡ Some (last_store writes true))) }
        ensures dims_stay { tile.new.dims ≡ tile.old.dims }
        ensures fetches { IfSome (extent_of self.old.directory cell.0)
            (Fetches D.size D.faults D.mismatches D.held cell.0 writes tile.new.elements result
            self.old self.new) }
    {
        let extent = known_extent(&self.directory, cell);
        let want = Header {
            cell: cell.0 as u64,
            writes,
            length: extent.length,
        };
        fetch_on(&mut self.disks, &extent, want, tile.elements_mut())
    }

    /// What the set consists of. Constant time.
    pub(crate) fn into_parts(self) -> SetParts<D>
        ensures parts { disk_state result.disks.items result.taken.items result.directory.items
            ≡ self }
        ensures sound { AreSoundDisks D.size D.held result.disks.items result.sizes.items
            result.taken.items result.directory.items }
    {
        let DiskSet {
            disks,
            sizes,
            taken,
            directory,
        } = self;
        SetParts {
            disks,
            sizes,
            taken,
            directory,
        }
    }

    /// A set of these parts. Constant time.
    pub(crate) fn of_parts(parts: SetParts<D>) -> DiskSet<D>
        requires { AreSoundDisks D.size D.held parts.disks.items parts.sizes.items parts.taken.items
            parts.directory.items }
        ensures { result ≡ disk_state parts.disks.items parts.taken.items
            parts.directory.items }
    {
        let SetParts {
            disks,
            sizes,
            taken,
            directory,
        } = parts;
        DiskSet {
            disks,
            sizes,
            taken,
            directory,
        }
    }

    /// The disks in their order. Constant time; takes no memory.
    pub fn close(self) -> Vec<D>
        ensures { result.items ≡ self.disks }
    {
        self.disks
    }
}
