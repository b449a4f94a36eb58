//! The entries of a node in order of recency.

ghost use Rattle.std.specs.Prelude.{◌≡◌, ◌+◌, ◌-◌, ◌<◌, ◌≤◌, ◌∷◌, [], All, IsTrue, OnOk, OnErr, IfOk, length, option_map, false};
ghost use Rattle.sj_node.specs.Entry.{AreDistinctCells, has_entry, pins_of, total, without_entry, without_all, entry_to_front, repinned, put_cells, unpinned, victim_cells};
ghost use Rattle.sj_node.specs.Entries.{listed};

use lru::LruCache;
use sj_base::ids::Cell;
use sj_base::memory::OutOfMemory;
use std::alloc::Global;
use std::marker::Model;
use std::num::NonZeroUsize;

/// What is kept of an entry beside its cell.
#[derive(Clone, Copy, Debug, PartialEq, Eq)]
pub struct Room {
    bytes: u64,
    pins: u16,
}

/// Entries, the most recently used first. No cell has two.
#[derive(Drop)]
pub struct Entries {
    cache: LruCache<u32, Room>,
    limit: u32,
}

impl Model for Entries {
    ghost use Rattle.std.specs.Prelude.{map};
    ghost use Rattle.sj_node.specs.Entries.{Listed, listed, as_entry, IsListed};

    ghost Value = { Listed };

    ghost view = { λ e. listed (map as_entry e.cache.entries) e.limit };

    ghost invariant = { λ e. IsListed e.cache e.limit };
}

impl Entries {
    /// No entry, and room for so many.
    pub fn make(alloc: Global, limit: u32) -> Result<Entries, OutOfMemory>
        ensures { IfOk result (λ e. e ≡ listed [] limit) }
    {
        let cap = NonZeroUsize::new(limit as usize).unwrap_or(NonZeroUsize::MIN);
        let cache = LruCache::new(alloc, cap)?;
        Ok(Entries { cache, limit })
    }

    /// Whether the cell has an entry.
    pub fn has(&self, cell: Cell) -> bool
        ensures { result ≡ has_entry self.now.order cell }
    {
        self.cache.contains(&cell.0)
    }

    /// Puts an entry without pins before the others.
    pub fn put(&mut self, cell: Cell, bytes: u64) -> Result<(), OutOfMemory>
        requires absent { has_entry self.old.order cell ≡ false }
        requires few { length self.old.order < self.old.limit }
        ensures ok { OnOk result
            (self.new ≡ listed (unpinned cell bytes ∷ self.old.order) self.old.limit) }
        ensures err { OnErr result (self.new ≡ self.old) }
    {
        self.cache.put(cell.0, Room { bytes, pins: 0 })?;
        Ok(())
    }

    /// Takes the cell's entry out, where it has one, and gives its bytes.
    pub fn take_out(&mut self, cell: Cell) -> u64
        ensures entries { self.new ≡ listed (without_entry cell self.old.order) self.old.limit }
        ensures bytes { result + total self.new.order ≡ total self.old.order }
    {
        match self.cache.pop(&cell.0) {
            Some(room) => room.bytes,
            None => 0,
        }
    }

    /// Takes these cells' entries out.
    fn take_out_all(&mut self, cells: &[Cell])
        ensures { self.new ≡ listed (without_all cells.now self.old.order) self.old.limit }
    {
        for cell in cells {
            self.take_out(*cell);
        }
    }

    /// Puts entries without pins before the others, one after another.
    pub fn put_all(&mut self, cells: &[Cell], bytes: &[u64]) -> Result<(), OutOfMemory>
        requires distinct { AreDistinctCells cells.now }
        requires absent { All (λ c. has_entry self.old.order c ≡ false) cells.now }
        requires paired { length cells.now ≡ length bytes.now }
        requires few { length self.old.order + length cells.now ≤ self.old.limit }
        ensures ok { OnOk result
            (self.new ≡ listed (put_cells cells.now bytes.now self.old.order) self.old.limit) }
        ensures err { OnErr result (self.new ≡ self.old) }
    {
        for i in 0..cells.len() {
            if self.put(cells[i], bytes[i]).is_err() {
                self.take_out_all(&cells[..i]);
                return Err(OutOfMemory);
            }
        }
        Ok(())
    }

    /// Brings the cell's entry before the others, where it has one.
    pub fn touch(&mut self, cell: Cell)
        ensures { self.new ≡ listed (entry_to_front cell self.old.order) self.old.limit }
    {
        let _ = self.cache.promote(&cell.0);
    }

    /// The cells to evict for a need, least recent first, those held spared; `None` where all other unpinned
    /// entries and the free bytes don't cover it.
    pub fn victims(
        &self,
        alloc: Global,
        held: &[Cell],
        free: u64,
        need: u64,
    ) -> Result<Option<Vec<Cell>>, OutOfMemory>
        ensures { IfOk result
            (λ found. option_map (λ v. v.items) found
            ≡ victim_cells held.now self.now.order free need) }
    {
        let mut found = Vec::new(alloc);
        let mut lacking = need.saturating_sub(free);
        let mut rest = self.cache.iter();
        while lacking > 0 {
            let Some((cell, room)) = rest.next_back() else {
                return Ok(None);
            };
            if room.pins == 0 && !held.contains(&Cell(*cell)) {
                found.push(Cell(*cell))?;
                lacking = lacking.saturating_sub(room.bytes);
            }
        }
        Ok(Some(found))
    }

    /// One pin more.
    pub fn pin(&mut self, cell: Cell)
        requires present { IsTrue (has_entry self.old.order cell) }
        requires few { pins_of self.old.order cell < 1024 }
        ensures { self.new ≡ listed (repinned (λ n. n + 1) cell self.old.order) self.old.limit }
    {
        if let Some(room) = self.cache.peek_mut(&cell.0) {
            room.pins += 1;
        }
    }

    /// Brings the cell's entry before the others, with one pin more.
    pub fn touch_and_pin(&mut self, cell: Cell)
        requires present { IsTrue (has_entry self.old.order cell) }
        requires few { pins_of self.old.order cell < 1024 }
        ensures { self.new ≡
            listed (repinned (λ n. n + 1) cell (entry_to_front cell self.old.order))
            self.old.limit }
    {
        if let Some(first) = self.cache.get_mut(&cell.0) {
            first.pins += 1;
        }
    }

    /// One pin less.
    pub fn unpin(&mut self, cell: Cell)
        requires { 0 < pins_of self.old.order cell }
        ensures { self.new ≡ listed (repinned (λ n. n - 1) cell self.old.order) self.old.limit }
    {
        if let Some(room) = self.cache.peek_mut(&cell.0) {
            room.pins -= 1;
        }
    }
}
