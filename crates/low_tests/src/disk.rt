//! Blocks by their bytes, first fit, and disks that fail or lose a write.

ghost use Rattle.std.specs.Prelude.{None};

use sj_base::ids::{Cell, DiskNo};
use sj_base::memory::OutOfMemory;
use sj_base::tile::{Dims, Tile};
use sj_disk::directory::LastStore;
use sj_disk::disk_set::DiskSet;
use sj_disk::header::Header;
use sj_disk::refusal::{DiskRefusal, ReserveRefusal};
use sj_edge::disk::{CheckFault, Disk};
use sj_edge::memory_disk::MemDisk;
use sj_edge::source::Failed;
use sj_edge::sure::SureDisk;
use std::alloc::Global;
use std::fmt::Debug;
use std::process::Abort;

/// Two values are equal.
fn same<R: Abort, T: PartialEq + Debug + Drop>(rt: &R, found: T, wanted: T) {
    assert_eq!(rt; found, wanted);
}

/// A row of elements.
fn row(rt: &impl Abort, alloc: Global, elements: &[i64]) -> Result<Tile, OutOfMemory> {
    assert!(rt; elements.len() < 1000);
    let dims = Dims {
        rows: 1,
        cols: elements.len() as u32,
    };
    Ok(Tile::of(dims, Vec::from_slice(alloc, elements)?))
}

fn set_of<D: Disk>(rt: &impl Abort, alloc: Global, disks: Vec<D>) -> DiskSet<D> {
    assert!(rt; disks.len() <= 16);
    match DiskSet::make(alloc, disks) {
        Ok(set) => set,
        Err(_) => panic!(rt; "out of memory"),
    }
}

fn reserve<D: Disk>(
    rt: &impl Abort,
    set: &mut DiskSet<D>,
    cell: u32,
    length: u64,
) -> Result<DiskNo, ReserveRefusal> {
    assert!(rt; length <= 1 << 24);
    match set.extent(Cell(cell)) {
        None => set.reserve(Cell(cell), length),
        Some(_) => panic!(rt; "cell {cell} has a block"),
    }
}

fn store<D: Disk>(
    rt: &impl Abort,
    set: &mut DiskSet<D>,
    cell: u32,
    writes: u64,
    tile: &Tile,
) -> Result<(), DiskRefusal> {
    let many = tile.elements().len() as u64;
    match set.extent(Cell(cell)) {
        Some(extent) if extent.length == many => set.store(Cell(cell), writes, tile),
        _ => panic!(rt; "cell {cell} has no such block"),
    }
}

fn fetch<D: Disk>(
    rt: &impl Abort,
    set: &mut DiskSet<D>,
    cell: u32,
    writes: u64,
    tile: &mut Tile,
) -> Result<(), DiskRefusal> {
    let many = tile.elements().len() as u64;
    let Some(extent) = set.extent(Cell(cell)) else {
        panic!(rt; "cell {cell} has no block");
    };
    let Some(last) = extent.last_store else {
        panic!(rt; "cell {cell} was not stored");
    };
    assert!(rt; extent.length == many);
    assert!(rt; last.writes == writes);
    assert!(rt; last.ended_ok);
    set.fetch(Cell(cell), writes, tile)
}

/// The one disk of a set.
fn close_one<D: Disk>(rt: &impl Abort, set: DiskSet<D>) -> D {
    let mut disks = set.close();
    match disks.pop() {
        Some(disk) => disk,
        None => panic!(rt; "no disk"),
    }
}

#[test]
fn a_block_is_a_header_and_the_elements(rt: HostRuntime) -> Result<(), OutOfMemory> {
    let disk = SureDisk::new(rt.alloc(), 64)?;
    let mut set = set_of(&rt, rt.alloc(), Vec::from_array(rt.alloc(), [disk])?);
    same(&rt, reserve(&rt, &mut set, 0, 3), Ok(DiskNo(0)));
    let stored = row(&rt, rt.alloc(), &[1, 2, 3])?;
    same(&rt, store(&rt, &mut set, 0, 1, &stored), Ok(()));
    let mut fetched = row(&rt, rt.alloc(), &[0, 0, 0])?;
    same(&rt, fetch(&rt, &mut set, 0, 1, &mut fetched), Ok(()));
    same(&rt, fetched.elements(), [1i64, 2, 3].as_slice());
    let disk = close_one(&rt, set);
    let block: [u8; 48] = [
        0, 0, 0, 0, 0, 0, 0, 0, 1, 0, 0, 0, 0, 0, 0, 0, 3, 0, 0, 0, 0, 0, 0, 0, // the header
        1, 0, 0, 0, 0, 0, 0, 0, 2, 0, 0, 0, 0, 0, 0, 0, 3, 0, 0, 0, 0, 0, 0, 0,
    ];
    same(&rt, disk.bytes().get(..48), Some(block.as_slice()));
    Ok(())
}

#[test]
fn cells_go_to_the_first_disk_with_room(rt: HostRuntime) -> Result<(), OutOfMemory> {
    let small = SureDisk::new(rt.alloc(), 60)?;
    let large = SureDisk::new(rt.alloc(), 96)?;
    let mut set = set_of(
        &rt,
        rt.alloc(),
        Vec::from_array(rt.alloc(), [small, large])?,
    );
    same(&rt, reserve(&rt, &mut set, 3, 5), Ok(DiskNo(1)));
    same(&rt, reserve(&rt, &mut set, 0, 2), Ok(DiskNo(0)));
    same(&rt, reserve(&rt, &mut set, 1, 1), Ok(DiskNo(1)));
    same(
        &rt,
        reserve(&rt, &mut set, 2, 1),
        Err(ReserveRefusal::NoRoom),
    );
    let positions = [0, 1, 3].map(|c| set.extent(Cell(c)).map(|e| e.position));
    same(&rt, positions, [Some(0), Some(64), Some(0)]);
    Ok(())
}

#[test]
fn a_failing_disk_is_named_and_the_directory_says_so(rt: HostRuntime) -> Result<(), OutOfMemory> {
    let fail = Vec::from_array(rt.alloc(), [2, 6])?;
    let disk = MemDisk::new(rt.alloc(), 64, fail)?;
    let mut set = set_of(&rt, rt.alloc(), Vec::from_array(rt.alloc(), [disk])?);
    let fault = Err(DiskRefusal::DiskFault { disk: DiskNo(0) });
    same(&rt, reserve(&rt, &mut set, 0, 2), Ok(DiskNo(0)));
    let mut tile = row(&rt, rt.alloc(), &[-1, i64::MAX])?;
    same(&rt, store(&rt, &mut set, 0, 7, &tile), fault);
    let failed = LastStore {
        writes: 7,
        ended_ok: false,
    };
    let last = set.extent(Cell(0)).and_then(|e| e.last_store);
    same(&rt, last, Some(failed));
    same(&rt, store(&rt, &mut set, 0, 8, &tile), Ok(()));
    same(&rt, fetch(&rt, &mut set, 0, 8, &mut tile), fault);
    same(&rt, fetch(&rt, &mut set, 0, 8, &mut tile), Ok(()));
    same(&rt, tile.elements(), [-1i64, i64::MAX].as_slice());
    same(&rt, close_one(&rt, set).faults(), 2);
    Ok(())
}

/// Keeps what is first written, and answers later writes without doing them.
#[derive(Drop)]
struct LosingDisk {
    inner: SureDisk,
    writes: u8,
}

impl Disk for LosingDisk {
    ghost size = { λ d. ⟦<SureDisk as Disk>⟧.size d.inner };

    ghost held = { λ _. None };

    ghost faults = { λ _. 0 };

    ghost mismatches = { λ d. ⟦<SureDisk as Disk>⟧.mismatches d.inner };

    fn size(&self) -> u64 {
        self.inner.size()
    }

    fn read(&mut self, at: u64, buf: &mut [u8]) -> Result<(), Failed> {
        self.inner.read(at, buf)
    }

    fn write(&mut self, at: u64, bytes: &[u8]) -> Result<(), Failed> {
        if self.writes == 2 {
            return Ok(());
        }
        self.writes = self.writes.saturating_add(1);
        self.inner.write(at, bytes)
    }

    fn check(&mut self, at: u64, want: &[u8; 24]) -> Result<(), CheckFault> {
        self.inner.check(at, want)
    }
}

#[test]
fn a_lost_write_is_damage_with_both_headers(rt: HostRuntime) -> Result<(), OutOfMemory> {
    let disk = LosingDisk {
        inner: SureDisk::new(rt.alloc(), 64)?,
        writes: 0,
    };
    let mut set = set_of(&rt, rt.alloc(), Vec::from_array(rt.alloc(), [disk])?);
    same(&rt, reserve(&rt, &mut set, 4, 2), Ok(DiskNo(0)));
    let mut tile = row(&rt, rt.alloc(), &[5, 6])?;
    same(&rt, store(&rt, &mut set, 4, 1, &tile), Ok(()));
    same(&rt, store(&rt, &mut set, 4, 2, &tile), Ok(()));
    let header = |writes| Header {
        cell: 4,
        writes,
        length: 2,
    };
    let damaged = DiskRefusal::Damaged {
        disk: DiskNo(0),
        want: header(2),
        found: header(1),
    };
    same(&rt, fetch(&rt, &mut set, 4, 2, &mut tile), Err(damaged));
    same(&rt, close_one(&rt, set).inner.mismatches(), 1);
    Ok(())
}
