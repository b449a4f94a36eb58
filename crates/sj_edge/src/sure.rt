//! Devices in memory that never fail: the count of faults of each is the constant 0.

ghost use Rattle.std.specs.Prelude.{◌≡◌, ◌+◌, ◌≤◌, ℕ, Some, None, Ok, IsOk, IfOk, IsTrue, IsFalse, min, length, replicate, slice_range};
ghost use Rattle.std.specs.Io.{ReadsAtMost};
ghost use Rattle.std.specs.Io.KnownBytes.{ReadConsumes};
ghost use Rattle.sj_edge.specs.Faults.{Counts, counted};
ghost use Rattle.sj_edge.specs.Held.{written};
ghost use Rattle.sj_edge.specs.Checks.{has_failed, has_differed, CarriesOther, Compares};
ghost use Rattle.sj_edge.specs.Memory.{kept};

use crate::disk::{CheckFault, Disk};
use crate::pieces::{copy_front, copy_in, copy_out, header_at};
use crate::sink::Sink;
use crate::source::{Failed, Source};
use sj_base::memory::OutOfMemory;
use std::alloc::Global;
use std::marker::Model;

/// Gives bytes of memory.
#[derive(Debug, Drop)]
pub struct SureSource {
    bytes: Vec<u8>,
    at: usize,
}

impl Model for SureSource {
    ghost use Rattle.std.specs.Prelude.{◌≤◌, ℕ, List, length, drop};

    ghost Value = { List ℕ };

    ghost view = { λ s. drop s.at s.bytes.items };

    ghost invariant = { λ s. s.at ≤ length s.bytes.items };
}

impl SureSource {
    /// Gives these bytes. Constant time.
    pub fn new(bytes: Vec<u8>) -> SureSource
        ensures { result ≡ bytes.items }
    {
        SureSource { bytes, at: 0 }
    }
}

impl Source for SureSource {
    ghost left = { λ s. Some s };

    ghost faults = { λ _. 0 };

    /// Linear in the bytes taken.
    fn read(&mut self, buf: &mut [u8]) -> Result<usize, Failed>
        ensures takes_at_most_the_buffer { ReadsAtMost result buf.new }
        ensures gives_the_first_bytes_left_and_takes_them { ReadConsumes (Some self.old)
            (Some self.new) result buf.new }
        ensures fills_the_buffer_as_far_as_it_can { result ≡ Ok
            (min (length buf.new) (length self.old)) }
    {
        let n = copy_front(&self.bytes, self.at, buf);
        self.at += n;
        Ok(n)
    }
}

/// Takes every byte and keeps none, so it tells nothing.
#[derive(Clone, Copy, Debug, PartialEq, Eq)]
pub struct SureSink;

impl SureSink {
    /// The only one there is. Constant time.
    pub fn new() -> SureSink {
        SureSink
    }
}

impl Sink for SureSink {
    ghost taken = { λ _. None };

    ghost faults = { λ _. 0 };

    /// Constant time.
    fn write(&mut self, bytes: &[u8]) -> Result<usize, Failed>
        ensures takes_every_byte { result ≡ Ok (length bytes.now) }
    {
        Ok(bytes.len())
    }
}

/// Keeps bytes in memory.
#[derive(Debug, Drop)]
pub struct SureDisk {
    bytes: Vec<u8>,
    mismatches: u64,
}

impl Model for SureDisk {
    ghost use Rattle.sj_edge.specs.Memory.{Kept, kept};

    ghost Value = { Kept };

    ghost view = { λ d. kept d.bytes.items d.mismatches };
}

impl SureDisk {
    /// So many zeros. Takes all its memory here. Linear in the size.
    pub fn new(alloc: Global, size: u64) -> Result<SureDisk, OutOfMemory>
        ensures { IfOk result (λ d. d ≡ kept (replicate size 0) 0) }
    {
        let bytes = vec![in alloc; 0u8; size as usize]?;
        Ok(SureDisk {
            bytes,
            mismatches: 0,
        })
    }

    /// The bytes that it holds. Constant time.
    pub fn bytes(&self) -> &[u8]
        ensures { result.now ≡ self.now.bytes }
    {
        &self.bytes
    }

    /// How many checks differed. Constant time.
    pub fn mismatches(&self) -> u64
        ensures { result ≡ self.now.mismatches }
    {
        self.mismatches
    }
}

impl Disk for SureDisk {
    ghost size = { λ d. length d.bytes };

    ghost held = { λ d. Some d.bytes };

    ghost faults = { λ _. 0 };

    ghost mismatches = { λ d. d.mismatches };

    fn size(&self) -> u64 {
        self.bytes.len() as u64
    }

    fn read(&mut self, at: u64, buf: &mut [u8]) -> Result<(), Failed>
        requires in_range { at + length buf.old ≤ length self.old.bytes }
        ensures never_fails { IsOk result }
        ensures gives_the_held_bytes { buf.new ≡ slice_range self.old.bytes at
            (at + length buf.new) }
        ensures changes_nothing { self.new ≡ self.old }
    {
        copy_out(&self.bytes, at as usize, buf);
        Ok(())
    }

    fn write(&mut self, at: u64, bytes: &[u8]) -> Result<(), Failed>
        requires in_range { at + length bytes.now ≤ length self.old.bytes }
        ensures never_fails { IsOk result }
        ensures puts_the_bytes { self.new ≡ kept (written at bytes.now self.old.bytes)
            self.old.mismatches }
        ensures size_stays { length self.new.bytes ≡ length self.old.bytes }
    {
        copy_in(&mut self.bytes, at as usize, bytes);
        Ok(())
    }

    fn check(&mut self, at: u64, want: &[u8; 24]) -> Result<(), CheckFault>
        requires in_range { at + 24 ≤ length self.old.bytes }
        ensures never_fails { IsFalse (has_failed result) }
        ensures compares_the_held_bytes { Compares (Some self.old.bytes) at want.now result }
        ensures differs_carries_other_bytes { CarriesOther result want.now }
        ensures changes_no_byte { self.new.bytes ≡ self.old.bytes }
        ensures counts_a_mismatch_exactly_where_it_differs { self.new.mismatches
            ≡ counted self.old.mismatches (has_differed result) }
        ensures differs_only_where_mismatches_rose { Counts
            self.old.mismatches self.new.mismatches (IsTrue (has_differed result)) }
    {
        let found = header_at(&self.bytes, at as usize);
        if found == *want {
            return Ok(());
        }
        self.mismatches = self.mismatches.saturating_add(1);
        Err(CheckFault::Differs(found))
    }
}
