//! What a disk in memory keeps its bytes on.

ghost use Rattle.std.specs.Prelude.{◌≡◌, ◌+◌, ◌-◌, ◌≤◌, ℕ, ◌++◌, IfOk, length, replicate, slice_range, vec_capacity};
ghost use Rattle.sj_edge.specs.Held.{written};

use crate::pieces::{copy_in, copy_out};
use sj_base::memory::OutOfMemory;
use std::alloc::Global;
use std::marker::Model;

/// A fixed number of bytes, zeros until they are written. The room for all of them is taken when it
/// is made, but none is touched before a write: the system gives no page to those behind `front`.
#[derive(Debug, Drop)]
pub struct Medium {
    /// The bytes up to the last one written; those behind it are zeros.
    front: Vec<u8>,
    size: usize,
}

impl Model for Medium {
    ghost use Rattle.std.specs.Prelude.{◌≤◌, ◌-◌, ◌++◌, ℕ, List, length, replicate};
    ghost use Rattle.std.specs.Vec.{vec_capacity};

    ghost Value = { List ℕ };

    ghost view = { λ m. m.front.items ++ replicate (m.size - length m.front.items) 0 };

    ghost invariant = { λ m. (length m.front.items ≤ m.size) × (m.size ≤ vec_capacity m.front) };
}

impl Medium {
    /// So many zeros. Takes all its room here. Constant time, apart from the allocator's.
    pub fn new(alloc: Global, size: usize) -> Result<Medium, OutOfMemory>
        ensures { IfOk result (λ m. m ≡ replicate size 0) }
    {
        let front = Vec::with_capacity(alloc, size)?;
        Ok(Medium { front, size })
    }

    /// How many bytes it has. Constant time.
    pub fn len(&self) -> usize
        ensures { result ≡ length self.now }
    {
        self.size
    }

    /// Copies the bytes from `at` on into `buf`. Linear in them.
    pub fn read(&self, at: usize, buf: &mut [u8])
        requires { at + length buf.old ≤ length self.now }
        ensures { buf.new ≡ slice_range self.now at (at + length buf.new) }
    {
        let start = at.min(self.front.len());
        let n = buf.len().min(self.front.len() - start);
        let (known, zeros) = buf.split_at_mut(n);
        copy_out(&self.front, start, known);
        zeros.fill(0);
    }

    /// The 24 bytes from `at` on. Constant time.
    pub fn header(&self, at: usize) -> [u8; 24]
        requires { at + 24 ≤ length self.now }
        ensures { result ≡ slice_range self.now at (at + 24) }
    {
        let mut found = [0u8; 24];
        self.read(at, &mut found);
        found
    }

    /// Puts the piece in place of the bytes from `at` on. Linear in the piece, and in the bytes
    /// before it that no write has reached yet, which happens to each byte at most once.
    pub fn write(&mut self, at: usize, piece: &[u8])
        requires { at + length piece.now ≤ length self.old }
        ensures { self.new ≡ written at piece.now self.old }
    {
        fill(&mut self.front, at + piece.len());
        copy_in(&mut self.front, at, piece);
    }

    /// All its bytes. Linear in those that no write has reached yet.
    pub fn into_bytes(mut self) -> Vec<u8>
        ensures { result.items ≡ self }
    {
        fill(&mut self.front, self.size);
        self.front
    }
}

/// Fills up with zeros to `end` bytes, where there are fewer. Takes no memory.
fn fill(front: &mut Vec<u8>, end: usize)
    requires { end ≤ vec_capacity front.old }
    ensures zeros { front.new.items
        ≡ front.old.items ++ replicate (end - length front.old.items) 0 }
    ensures room { vec_capacity front.old ≤ vec_capacity front.new }
{
    if front.len() < end {
        let _ = front.resize(end, 0);
    }
}
