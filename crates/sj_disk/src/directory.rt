//! Where each cell's block lies, and what was last stored there.

ghost use Rattle.std.specs.Prelude.{◌≡◌, ◌≢◌, ℕ, Some, IsSome, OnOk, OnErr, length, ◌≤◌};
ghost use Rattle.sj_disk.specs.Directory.{extent_of};

use sj_base::ids::{Cell, DiskNo};
use std::alloc::AllocError;

/// The bytes of a disk that are a cell's block, and what was last stored there.
#[derive(Clone, Copy, Debug, PartialEq, Eq)]
pub struct Extent {
    pub disk: DiskNo,
    /// Its first byte on the disk.
    pub position: u64,
    /// How many elements it has room for.
    pub length: u64,
    pub last_store: Option<LastStore>,
}

/// The last store of a cell.
#[derive(Clone, Copy, Debug, PartialEq, Eq)]
pub struct LastStore {
    /// The cell's write count then.
    pub writes: u64,
    /// Whether it answered Ok. Where it didn't, the block may hold any bytes.
    pub ended_ok: bool,
}

/// The extent of a cell, where it has one. Constant time.
pub fn extent_of(directory: &[Option<Extent>], cell: Cell) -> Option<Extent>
    ensures { result ≡ extent_of directory.now cell.0 }
{
    match directory.get(cell.0 as usize) {
        Some(extent) => *extent,
        None => None,
    }
}

/// The extent of a cell that has one. Constant time.
pub fn known_extent(directory: &[Option<Extent>], cell: Cell) -> Extent
    requires { IsSome (extent_of directory.now cell.0) }
    ensures { extent_of directory.now cell.0 ≡ Some result }
{
    directory[cell.0 as usize].unwrap()
}

/// Gives a cell its extent. Constant time, amortised where cells come in order; else linear in the
/// cell's number.
pub fn add_extent(
    directory: &mut Vec<Option<Extent>>,
    cell: Cell,
    extent: Extent,
) -> Result<(), AllocError>
    ensures gives { OnOk result (extent_of directory.new.items cell.0 ≡ Some extent) }
    ensures others_stay { (c : ℕ) → c ≢ cell.0 →
        extent_of directory.new.items c ≡ extent_of directory.old.items c }
    ensures err { OnErr result (directory.new.items ≡ directory.old.items) }
{
    let index = cell.0 as usize;
    make_room(directory, index + 1)?;
    directory[index] = Some(extent);
    Ok(())
}

/// Makes the list at least so long.
fn make_room(directory: &mut Vec<Option<Extent>>, many: usize) -> Result<(), AllocError>
    ensures room { OnOk result (many ≤ length directory.new.items) }
    ensures extents_stay { (c : ℕ) →
        extent_of directory.new.items c ≡ extent_of directory.old.items c }
    ensures err { OnErr result (directory.new.items ≡ directory.old.items) }
{
    if directory.len() < many {
        directory.resize(many, None)?;
    }
    Ok(())
}
