//! What running deliver tasks are to hand over.

ghost use Rattle.std.specs.Prelude.{◌≡◌, ◌<◌, IfOk, None, length, replicate, slice_set};
ghost use Rattle.sj_board.specs.Tiles.{array_in};
ghost use Rattle.sj_board.specs.Delivered.{gift_in};
ghost use Rattle.sj_board.specs.Preparing.{delivery_count};

use crate::delivery::is_delivery;
use sj_base::ids::Worker;
use sj_base::memory::OutOfMemory;
use sj_base::program::Program;
use sj_base::tile::Tile;
use std::alloc::Global;
use std::marker::Model;
use std::sync::Arc;

/// How many tasks of a program hand an array over. Linear in the tasks.
pub fn count_deliveries(program: &Program) -> u64
    ensures { result ≡ delivery_count program.now }
{
    program
        .tasks
        .items()
        .iter()
        .filter(|task| is_delivery(task.codelet))
        .count() as u64
}

/// For each worker the tile that its running task is to hand over, where it is a deliver task.
#[derive(Drop)]
pub struct Gifts {
    tiles: Vec<Option<Arc<Tile>>>,
}

impl Model for Gifts {
    ghost use Rattle.std.specs.Prelude.{List, Option};
    ghost use Rattle.sj_base.specs.Array.{Array};
    ghost use Rattle.sj_board.specs.Tiles.{arrays_in};

    ghost Value = { List (Option Array) };

    ghost view = { λ g. arrays_in g.tiles.items };
}

/// No tile in any place. Linear in the places.
fn no_tiles(alloc: Global, count: usize) -> Result<Vec<Option<Arc<Tile>>>, OutOfMemory>
    ensures { IfOk result (λ v. v.items ≡ replicate count None) }
{
    let mut tiles = Vec::with_capacity(alloc, count)?;
    for _i in 0..count {
        tiles.push(None)?;
    }
    Ok(tiles)
}

impl Gifts {
    /// None for any of so many workers. Linear in them.
    pub fn none(alloc: Global, workers: u8) -> Result<Gifts, OutOfMemory>
        ensures { IfOk result (λ g. g ≡ replicate workers None) }
    {
        let tiles = no_tiles(alloc, workers as usize)?;
        Ok(Gifts { tiles })
    }

    /// Keeps what a worker's task is to hand over, or that this is nothing. Constant time.
    pub fn keep(&mut self, w: Worker, gift: Option<Arc<Tile>>)
        requires { w.0 < length self.old }
        ensures { self.new ≡ slice_set self.old w.0 (array_in gift) }
    {
        self.tiles[w.0 as usize] = gift;
    }

    /// Takes out what is kept for a worker. Constant time.
    pub fn take(&mut self, w: Worker) -> Option<Arc<Tile>>
        requires { w.0 < length self.old }
        ensures gift { array_in result ≡ gift_in self.old w }
        ensures rest { self.new ≡ slice_set self.old w.0 None }
    {
        let place = &mut self.tiles[w.0 as usize];
        place.take()
    }
}
