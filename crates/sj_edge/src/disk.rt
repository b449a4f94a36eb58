//! What evicted data is kept on.

ghost use Rattle.std.specs.Prelude.{◌≡◌, ◌+◌, ◌≤◌, ◌++◌, ◌∷◌, [], ℕ, List, Option, IsErr, IsOk, IsTrue, OnOk, OnErr, is_err, length, option_map, IfOk, map};
ghost use Rattle.sj_edge.specs.Faults.{Counts, counted};
ghost use Rattle.sj_edge.specs.Sizes.{AreWithin};
ghost use Rattle.sj_edge.specs.Held.{Fills, GivesHeld, written, HoldsAnyIn};

use crate::source::Failed;
use sj_base::memory::OutOfMemory;
use std::alloc::Global;

/// Why a check of a disk doesn't answer that the bytes are as they should be.
#[derive(Clone, Copy, Debug, PartialEq, Eq)]
pub enum CheckFault {
    /// The disk refused the call.
    Failed,
    /// The disk holds these bytes instead.
    Differs([u8; 24]),
}

/// A fixed number of bytes, with a count of faults and one of mismatches. It may tell proofs the
/// bytes that it holds.
///
/// The count of faults rises only in a call that fails, and that of mismatches only in a check that
/// finds other bytes; either then rises by one, and stays once it is `u64::MAX`. The size never
/// changes, nor does whether a disk tells. No call takes memory.
pub trait Disk: Drop {
    ghost use Rattle.sj_edge.specs.Checks.{has_failed, has_differed, CarriesOther, Compares};

    // How many bytes it has.
    ghost size: { Self → ℕ };

    // Its bytes, where the disk tells.
    ghost held: { Self → Option (List ℕ) };

    // How many faults there were.
    ghost faults: { Self → ℕ };

    // How many checks found other bytes than they wanted.
    ghost mismatches: { Self → ℕ };

    /// How many bytes it has.
    fn size(&self) -> u64
        ensures size { result ≡ size self.now }
        ensures told_bytes_fill_the_size { Fills (held self.now) (size self.now) };

    /// Copies the bytes from `at` on into `buf`. Linear in them.
    fn read(&mut self, at: u64, buf: &mut [u8]) -> Result<(), Failed>
        requires in_range { at + length buf.old ≤ size self.old }
        ensures gives_the_held_bytes { OnOk result (GivesHeld (held self.old) at buf.new) }
        ensures changes_no_byte { held self.new ≡ held self.old }
        ensures told_bytes_fill_the_size { Fills (held self.new) (size self.new) }
        ensures size_stays { size self.new ≡ size self.old }
        ensures failed_only_where_faults_rose { Counts
            (faults self.old) (faults self.new) (IsErr result) }
        ensures faults_rise_by_one_where_it_fails_and_else_stay { faults self.new
            ≡ counted (faults self.old) (is_err result) }
        ensures mismatches_stay { mismatches self.new ≡ mismatches self.old };

    /// Puts these bytes in place of those from `at` on. Linear in them.
    ///
    /// Where it fails, the range may hold any bytes.
    fn write(&mut self, at: u64, bytes: &[u8]) -> Result<(), Failed>
        requires in_range { at + length bytes.now ≤ size self.old }
        ensures puts_the_bytes { OnOk result
            (held self.new ≡ option_map (written at bytes.now) (held self.old)) }
        ensures changes_no_byte_outside { HoldsAnyIn at (length bytes.now) (held self.old)
            (held self.new) }
        ensures told_bytes_fill_the_size { Fills (held self.new) (size self.new) }
        ensures size_stays { size self.new ≡ size self.old }
        ensures failed_only_where_faults_rose { Counts
            (faults self.old) (faults self.new) (IsErr result) }
        ensures faults_rise_by_one_where_it_fails_and_else_stay { faults self.new
            ≡ counted (faults self.old) (is_err result) }
        ensures mismatches_stay { mismatches self.new ≡ mismatches self.old };

    /// Compares the 24 bytes from `at` on with `want`. Constant time.
    fn check(&mut self, at: u64, want: &[u8; 24]) -> Result<(), CheckFault>
        requires in_range { at + 24 ≤ size self.old }
        ensures compares_the_held_bytes { Compares (held self.old) at want.now result }
        ensures differs_carries_other_bytes { CarriesOther result want.now }
        ensures changes_no_byte { held self.new ≡ held self.old }
        ensures told_bytes_fill_the_size { Fills (held self.new) (size self.new) }
        ensures size_stays { size self.new ≡ size self.old }
        ensures failed_only_where_faults_rose { Counts
            (faults self.old) (faults self.new) (IsTrue (has_failed result)) }
        ensures differs_only_where_mismatches_rose { Counts
            (mismatches self.old) (mismatches self.new) (IsTrue (has_differed result)) }
        ensures faults_rise_by_one_where_it_fails_and_else_stay { faults self.new
            ≡ counted (faults self.old) (has_failed result) }
        ensures mismatches_rise_by_one_where_it_differs_and_else_stay { mismatches self.new
            ≡ counted (mismatches self.old) (has_differed result) };
}

impl Disk for Box<dyn Disk + Send> {
    ghost size = { λ b. (Disk-box b).size b.value };

    ghost held = { λ b. (Disk-box b).held b.value };

    ghost faults = { λ b. (Disk-box b).faults b.value };

    ghost mismatches = { λ b. (Disk-box b).mismatches b.value };

    fn size(&self) -> u64 {
        (**self).size()
    }

    fn read(&mut self, at: u64, buf: &mut [u8]) -> Result<(), Failed> {
        (**self).read(at, buf)
    }

    fn write(&mut self, at: u64, bytes: &[u8]) -> Result<(), Failed> {
        (**self).write(at, bytes)
    }

    fn check(&mut self, at: u64, want: &[u8; 24]) -> Result<(), CheckFault> {
        (**self).check(at, want)
    }
}

/// Appends a disk. Linear in the list where it has to move.
pub fn add_disk(
    disks: &mut Vec<Box<dyn Disk + Send>>,
    disk: Box<dyn Disk + Send>,
) -> Result<(), OutOfMemory>
    ensures appends { OnOk result (disks.new.items ≡ disks.old.items ++ disk ∷ []) }
    ensures stays_without_memory { OnErr result (disks.new.items ≡ disks.old.items) }
    ensures stay_within_a_limit_that_the_disk_is_within { (limit : ℕ)
        → AreWithin ⟦<Box<dyn Disk + Send> as Disk>⟧.size limit disks.old.items
        → ⟦<Box<dyn Disk + Send> as Disk>⟧.size disk ≤ limit
        → AreWithin ⟦<Box<dyn Disk + Send> as Disk>⟧.size limit disks.new.items }
{
    disks.push(disk)?;
    Ok(())
}

/// The sizes of disks. Linear in them.
pub fn sizes_of<D: Disk>(alloc: Global, disks: &[D]) -> Result<Vec<u64>, OutOfMemory>
    ensures { IfOk result (λ sizes. sizes.items ≡ map D.size disks.now) }
{
    let mut sizes = Vec::new(alloc);
    for disk in disks {
        sizes.push(disk.size())?;
    }
    Ok(sizes)
}
