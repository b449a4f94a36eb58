//! A disk over memory, whose room it takes when it is made.

ghost use Rattle.std.specs.Prelude.{◌≡◌, ◌↔◌, ◌+◌, ◌≤◌, ℕ, Some, IsTrue, IsErr, OnErr, OnOk, IfOk, is_err, length, replicate, option_map};
ghost use Rattle.sj_edge.specs.Faults.{Counts, counted};
ghost use Rattle.sj_edge.specs.Called.{uncalled, IsNextRefused, after_call};
ghost use Rattle.sj_edge.specs.Held.{written, GivesHeld, HoldsAnyIn};
ghost use Rattle.sj_edge.specs.Memory.{keeping};
ghost use Rattle.sj_edge.specs.Checks.{has_failed, has_differed, CarriesOther, Compares};

use crate::calls::Calls;
use crate::disk::{CheckFault, Disk};
use crate::medium::Medium;
use crate::source::Failed;
use sj_base::memory::OutOfMemory;
use std::alloc::Global;
use std::marker::Model;

/// Keeps bytes in memory, and refuses the calls whose numbers it was told.
#[derive(Debug, Drop)]
pub struct MemDisk {
    bytes: Medium,
    mismatches: u64,
    calls: Calls,
}

impl Model for MemDisk {
    ghost use Rattle.sj_edge.specs.Memory.{Keeping, keeping};

    ghost Value = { Keeping };

    ghost view = { λ d. keeping d.bytes d.mismatches d.calls };
}

impl MemDisk {
    /// So many zeros. Refuses each call whose number, from 1, stands in `fail`: reads, writes and
    /// checks are counted together. Takes room for all its bytes here, so that no write can want
    /// memory, but touches none: one that no write has reached costs no page. Constant time, apart
    /// from the allocator's.
    pub fn new(alloc: Global, size: u64, fail: Vec<u64>) -> Result<MemDisk, OutOfMemory>
        ensures { IfOk result (λ d. d ≡ keeping (replicate size 0) 0 (uncalled fail.items)) }
    {
        Ok(MemDisk {
            bytes: Medium::new(alloc, size as usize)?,
            mismatches: 0,
            calls: Calls::new(fail),
        })
    }

    /// The bytes that it held. Linear in those that no write has reached.
    pub fn into_bytes(self) -> Vec<u8>
        ensures { result.items ≡ self.bytes }
    {
        self.bytes.into_bytes()
    }

    /// How many faults there were. Constant time.
    pub fn faults(&self) -> u64
        ensures { result ≡ self.now.called.faults }
    {
        self.calls.faults()
    }

    /// How many checks differed. Constant time.
    pub fn mismatches(&self) -> u64
        ensures { result ≡ self.now.mismatches }
    {
        self.mismatches
    }
}

impl Disk for MemDisk {
    ghost size = { λ d. length d.bytes };

    ghost held = { λ d. Some d.bytes };

    ghost faults = { λ d. d.called.faults };

    ghost mismatches = { λ d. d.mismatches };

    fn size(&self) -> u64 {
        self.bytes.len() as u64
    }

    fn read(&mut self, at: u64, buf: &mut [u8]) -> Result<(), Failed>
        requires in_range { at + length buf.old ≤ length self.old.bytes }
        ensures gives_the_held_bytes { OnOk result (GivesHeld (Some self.old.bytes) at buf.new) }
        ensures changes_no_byte { self.new.bytes ≡ self.old.bytes }
        ensures fails_exactly_where_told { IsErr result ↔ IsNextRefused self.old.called }
        ensures counts_the_call { self.new.called ≡ after_call self.old.called (is_err result) }
        ensures failed_only_where_faults_rose { Counts
            self.old.called.faults self.new.called.faults (IsErr result) }
        ensures mismatches_stay { self.new.mismatches ≡ self.old.mismatches }
    {
        if self.calls.next_is_refused() {
            self.calls.add_fault();
            return Err(Failed);
        }
        self.bytes.read(at as usize, buf);
        Ok(())
    }

    fn write(&mut self, at: u64, bytes: &[u8]) -> Result<(), Failed>
        requires in_range { at + length bytes.now ≤ length self.old.bytes }
        ensures puts_the_bytes { OnOk result
            (self.new.bytes ≡ written at bytes.now self.old.bytes) }
        ensures changes_no_byte_where_it_fails { OnErr result (self.new.bytes ≡ self.old.bytes) }
        ensures changes_no_byte_outside { HoldsAnyIn at (length bytes.now) (Some self.old.bytes)
            (Some self.new.bytes) }
        ensures size_stays { length self.new.bytes ≡ length self.old.bytes }
        ensures fails_exactly_where_told { IsErr result ↔ IsNextRefused self.old.called }
        ensures counts_the_call { self.new.called ≡ after_call self.old.called (is_err result) }
        ensures failed_only_where_faults_rose { Counts
            self.old.called.faults self.new.called.faults (IsErr result) }
        ensures mismatches_stay { self.new.mismatches ≡ self.old.mismatches }
    {
        if self.calls.next_is_refused() {
            self.calls.add_fault();
            return Err(Failed);
        }
        self.bytes.write(at as usize, bytes);
        Ok(())
    }

    fn check(&mut self, at: u64, want: &[u8; 24]) -> Result<(), CheckFault>
        requires in_range { at + 24 ≤ length self.old.bytes }
        ensures compares_the_held_bytes { Compares (Some self.old.bytes) at want.now result }
        ensures differs_carries_other_bytes { CarriesOther result want.now }
        ensures changes_no_byte { self.new.bytes ≡ self.old.bytes }
        ensures fails_exactly_where_told { IsTrue (has_failed result) ↔ IsNextRefused
            self.old.called }
        ensures counts_the_call { self.new.called ≡ after_call self.old.called (has_failed result) }
        ensures counts_a_mismatch_exactly_where_it_differs { self.new.mismatches
            ≡ counted self.old.mismatches (has_differed result) }
        ensures failed_only_where_faults_rose { Counts
            self.old.called.faults self.new.called.faults (IsTrue (has_failed result)) }
        ensures differs_only_where_mismatches_rose { Counts
            self.old.mismatches self.new.mismatches (IsTrue (has_differed result)) }
    {
        if self.calls.next_is_refused() {
            self.calls.add_fault();
            return Err(CheckFault::Failed);
        }
        let found = self.bytes.header(at as usize);
        if found == *want {
            return Ok(());
        }
        self.mismatches = self.mismatches.saturating_add(1);
        Err(CheckFault::Differs(found))
    }
}
