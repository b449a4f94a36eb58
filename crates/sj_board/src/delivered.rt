//! The arrays that deliver tasks handed over.

ghost use Rattle.std.specs.Prelude.{◌≡◌, ◌==◌, ◌+◌, ◌<◌, ◌++◌, ◌∷◌, [], IfOk, Some, length, option_map, slice_get};
ghost use Rattle.sj_board.specs.Delivered.{deliveries};

use sj_base::ids::Task;
use sj_base::memory::OutOfMemory;
use sj_base::roomy::Roomy;
use sj_base::tile::Tile;
use std::alloc::Global;
use std::marker::Model;
use std::sync::Arc;

/// A deliver task, and the array that it handed over.
#[derive(Debug, Drop)]
pub struct Handed {
    pub task: Task,
    pub tile: Arc<Tile>,
}

/// The arrays that were handed over, in the order in which their tasks ended, with room for some more.
#[derive(Debug, Drop)]
pub struct Delivered {
    pairs: Roomy<Handed>,
}

impl Model for Delivered {
    ghost use Rattle.std.specs.Prelude.{map};
    ghost use Rattle.sj_board.specs.Delivered.{Deliveries, deliveries, pair_of};

    ghost Value = { Deliveries };

    ghost view = { λ d. deliveries (map pair_of d.pairs.items) d.pairs.spare };
}

impl Delivered {
    /// None, and no room.
    pub fn empty(alloc: Global) -> Delivered
        ensures pairs { result.pairs ≡ [] }
        ensures room { result.spare ≡ 0 }
    {
        Delivered {
            pairs: Roomy::empty(alloc),
        }
    }

    /// None, and room for so many. Linear in them.
    pub fn with_room(alloc: Global, count: u64) -> Result<Delivered, OutOfMemory>
        ensures { IfOk result (λ d. d ≡ deliveries [] count) }
    {
        let pairs = Roomy::with_room(alloc, count)?;
        Ok(Delivered { pairs })
    }

    /// Appends a task and what it handed over. Constant time, and no memory.
    pub fn add(&mut self, task: Task, tile: Arc<Tile>)
        requires { 0 < self.old.spare }
        ensures pairs { self.new.pairs ≡ self.old.pairs ++ (task, tile.value) ∷ [] }
        ensures room { self.new.spare + 1 ≡ self.old.spare }
    {
        self.pairs.push(Handed { task, tile });
    }

    /// How many there are. Constant time.
    pub fn len(&self) -> usize
        ensures { result ≡ length self.now.pairs }
    {
        self.pairs.len()
    }

    /// Whether there is none. Constant time.
    pub fn is_empty(&self) -> bool
        ensures { result ≡ (length self.now.pairs == 0) }
    {
        self.pairs.is_empty()
    }

    /// The task at a place. Constant time.
    pub fn task(&self, i: usize) -> Task
        requires { i < length self.now.pairs }
        ensures { option_map (λ pair. pair.0) (slice_get self.now.pairs i) ≡ Some result }
    {
        self.pairs.get(i).task
    }

    /// What the task at a place handed over. Constant time.
    pub fn tile(&self, i: usize) -> &Tile
        requires { i < length self.now.pairs }
        ensures { option_map (λ pair. pair.1) (slice_get self.now.pairs i) ≡ Some result.now }
    {
        &self.pairs.get(i).tile
    }
}
