//! A memory node: its size, its entries and its scratch.

ghost use Rattle.std.specs.Prelude.{◌≡◌, ◌+◌, ◌-◌, ◌<◌, ◌≤◌, ◌∷◌, All, IsTrue, OnOk, OnErr, IfOk, length, option_map, sum, false};
ghost use Rattle.sj_node.specs.Entry.{AreDistinctCells, has_entry, pins_of, without_entry, without_all, entry_to_front, repinned, admitted, unpinned};
ghost use Rattle.sj_node.specs.Store.{empty, with_entries, used_bytes, free_bytes, need_victims};

use crate::entries::Entries;
use sj_base::ids::Cell;
use sj_base::memory::OutOfMemory;
use std::alloc::Global;
use std::marker::Model;

/// A memory node. Its entries and its scratch together never exceed its size.
#[derive(Drop)]
pub struct NodeStore {
    size: u64,
    scratch: u64,
    /// The bytes of all entries.
    filled: u64,
    entries: Entries,
}

impl Model for NodeStore {
    ghost use Rattle.std.specs.Prelude.{◌≡◌, ◌+◌, ◌≤◌};
    ghost use Rattle.sj_node.specs.Entry.{total};
    ghost use Rattle.sj_node.specs.Store.{Store, store};

    ghost Value = { Store };

    ghost view = { λ n. store n.size n.scratch n.entries.limit n.entries.order };

    ghost invariant = { λ n. (n.filled ≡ total n.entries.order) × (n.filled + n.scratch ≤ n.size) };
}

impl NodeStore {
    /// A node of so many bytes with nothing on it, for so many entries at most. Linear in these.
    pub fn make(alloc: Global, size: u64, cells: u32) -> Result<NodeStore, OutOfMemory>
        ensures { IfOk result (λ s. s ≡ empty size cells) }
    {
        let entries = Entries::make(alloc, cells)?;
        Ok(NodeStore {
            size,
            scratch: 0,
            filled: 0,
            entries,
        })
    }

    /// The bytes that neither entries nor scratch take. Constant time, and no memory.
    pub fn free(&self) -> u64
        ensures { result + used_bytes self.now ≡ self.now.size }
    {
        self.size - self.filled - self.scratch
    }

    /// Whether the cell has an entry. One look-up, and no memory.
    pub fn has(&self, cell: Cell) -> bool
        ensures { result ≡ has_entry self.now.entries cell }
    {
        self.entries.has(cell)
    }

    /// Puts a cell of so many bytes to the front, without pins. One look-up.
    pub fn insert(&mut self, cell: Cell, bytes: u64) -> Result<(), OutOfMemory>
        requires absent { has_entry self.old.entries cell ≡ false }
        requires fits { bytes ≤ free_bytes self.old }
        requires few { length self.old.entries < self.old.limit }
        ensures ok { OnOk result
            (self.new ≡ with_entries self.old (unpinned cell bytes ∷ self.old.entries)) }
        ensures err { OnErr result (self.new ≡ self.old) }
    {
        self.entries.put(cell, bytes)?;
        self.filled += bytes;
        Ok(())
    }

    /// Takes the victims away and puts the cells to the front one after another, without pins. After
    /// `OutOfMemory` all is as before. A look-up for each cell given.
    pub fn admit(
        &mut self,
        victims: &[Cell],
        cells: &[Cell],
        bytes: &[u64],
    ) -> Result<(), OutOfMemory>
        requires victims_there { All (λ c. IsTrue (has_entry self.old.entries c)) victims.now }
        requires victims_unpinned { All (λ c. pins_of self.old.entries c ≡ 0) victims.now }
        requires cells_differ { AreDistinctCells cells.now }
        requires cells_absent { All (λ c. has_entry self.old.entries c ≡ false) cells.now }
        requires paired { length cells.now ≡ length bytes.now }
        requires fits { sum bytes.now
            ≤ free_bytes (with_entries self.old (without_all victims.now self.old.entries)) }
        requires few { length self.old.entries + length cells.now ≤ self.old.limit }
        ensures ok { OnOk result
            (self.new ≡ with_entries self.old
            (admitted victims.now cells.now bytes.now self.old.entries)) }
        ensures err { OnErr result (self.new ≡ self.old) }
    {
        self.entries.put_all(cells, bytes)?;
        for victim in victims {
            self.filled -= self.entries.take_out(*victim);
        }
        self.filled += bytes.iter().sum::<u64>();
        Ok(())
    }

    /// The cells to evict for a need, least recent first: the fewest of the least recently used unpinned
    /// ones, those that the claim holds spared, whose bytes with the free ones cover it. `None` exactly where
    /// all of them don't. Linear in the victims and in the entries that are passed, each by the cells held.
    pub fn victims(
        &self,
        alloc: Global,
        held: &[Cell],
        need: u64,
    ) -> Result<Option<Vec<Cell>>, OutOfMemory>
        ensures { IfOk result
            (λ found. option_map (λ v. v.items) found ≡ need_victims held.now self.now need) }
    {
        self.entries.victims(alloc, held, self.free(), need)
    }

    /// Brings a cell to the front. One look-up, and no memory.
    pub fn touch(&mut self, cell: Cell)
        requires { IsTrue (has_entry self.old.entries cell) }
        ensures { self.new ≡ with_entries self.old (entry_to_front cell self.old.entries) }
    {
        self.entries.touch(cell);
    }

    /// Takes an unpinned cell away. One look-up, and no memory.
    pub fn remove(&mut self, cell: Cell)
        requires present { IsTrue (has_entry self.old.entries cell) }
        requires unpinned { pins_of self.old.entries cell ≡ 0 }
        ensures { self.new ≡ with_entries self.old (without_entry cell self.old.entries) }
    {
        self.filled -= self.entries.take_out(cell);
    }

    /// Adds a pin to a cell. One look-up, and no memory.
    pub fn pin(&mut self, cell: Cell)
        requires present { IsTrue (has_entry self.old.entries cell) }
        requires few { pins_of self.old.entries cell < 1024 }
        ensures { self.new ≡ with_entries self.old (repinned (λ n. n + 1) cell self.old.entries) }
    {
        self.entries.pin(cell);
    }

    /// Brings a cell to the front and adds a pin to it. One look-up, and no memory.
    pub fn touch_and_pin(&mut self, cell: Cell)
        requires present { IsTrue (has_entry self.old.entries cell) }
        requires few { pins_of self.old.entries cell < 1024 }
        ensures { self.new ≡
            with_entries self.old
            (repinned (λ n. n + 1) cell (entry_to_front cell self.old.entries)) }
    {
        self.entries.touch_and_pin(cell);
    }

    /// Takes a pin off a cell. One look-up, and no memory.
    pub fn unpin(&mut self, cell: Cell)
        requires { 0 < pins_of self.old.entries cell }
        ensures { self.new ≡ with_entries self.old (repinned (λ n. n - 1) cell self.old.entries) }
    {
        self.entries.unpin(cell);
    }

    /// Holds scratch. Constant time, and no memory.
    pub fn hold(&mut self, bytes: u64)
        requires { bytes ≤ free_bytes self.old }
        ensures { self.new ≡ record self.old { scratch = self.old.scratch + bytes } }
    {
        self.scratch += bytes;
    }

    /// Gives held scratch back. Constant time, and no memory.
    pub fn release(&mut self, bytes: u64)
        requires { bytes ≤ self.old.scratch }
        ensures { self.new ≡ record self.old { scratch = self.old.scratch - bytes } }
    {
        self.scratch -= bytes;
    }
}
