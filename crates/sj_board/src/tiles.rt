//! The tiles that are kept of one cell.

ghost use Rattle.std.specs.Prelude.{◌≡◌, ◌<◌, IfOk, IsTrue, None, Some, is_some, length, map, replicate, slice_set};
ghost use Rattle.sj_base.specs.Array.{Array};
ghost use Rattle.sj_board.specs.Tiles.{all_out, array_in, arrays_in, tile_in, with_tile};

use crate::spent::Spent;
use sj_base::ids::Node;
use sj_base::memory::OutOfMemory;
use sj_base::tile::Tile;
use smallvec::SmallVec;
use std::alloc::Global;
use std::marker::Model;
use std::mem;
use std::sync::Arc;

/// The tile of a cell at each node, or none. Places of up to two nodes lie in the value itself; of more they are one block.
#[derive(Drop)]
pub struct CellTiles {
    places: SmallVec<Option<Arc<Tile>>, 2>,
}

impl Model for CellTiles {
    ghost use Rattle.std.specs.Prelude.{List, Option};
    ghost use Rattle.sj_base.specs.Array.{Array};
    ghost use Rattle.sj_board.specs.Tiles.{arrays_in};

    ghost Value = { List (Option Array) };

    ghost view = { λ c. arrays_in c.places.items };
}

/// No tile in any place. Takes no memory for up to two places. Linear in them.
fn empty_places(alloc: Global, count: usize) -> Result<SmallVec<Option<Arc<Tile>>, 2>, OutOfMemory>
    ensures { IfOk result (λ v. arrays_in v.items ≡ replicate count None) }
{
    let mut places = SmallVec::with_capacity(alloc, count)?;
    for _i in 0..count {
        places.push(None)?;
    }
    Ok(places)
}

/// The tile in this place goes. Constant time.
fn take_out(places: &mut [Option<Arc<Tile>>], k: usize, spent: &mut Spent)
    requires { k < length places.old }
    ensures { arrays_in places.new ≡ slice_set (arrays_in places.old) k None }
{
    spent.put(mem::replace(&mut places[k], None));
}

/// The tiles in all of these places go. Linear in the places.
fn take_all_out(places: &mut [Option<Arc<Tile>>], spent: &mut Spent)
    ensures { arrays_in places.new ≡ all_out (arrays_in places.old) }
{
    for k in 0..places.len() {
        take_out(places, k, spent);
    }
}

impl CellTiles {
    /// No tile at any of so many nodes. Takes no memory for up to two. Linear in them.
    pub fn none(alloc: Global, nodes: usize) -> Result<CellTiles, OutOfMemory>
        ensures { IfOk result (λ c. c ≡ replicate nodes None) }
    {
        let places = empty_places(alloc, nodes)?;
        Ok(CellTiles { places })
    }

    /// A further share of the tile at a node. Constant time.
    pub fn share(&self, n: Node) -> Result<Arc<Tile>, OutOfMemory>
        requires inside { n.0 < length self.now }
        requires there { IsTrue (is_some (tile_in self.now n)) }
        ensures { IfOk result (λ t. tile_in self.now n ≡ Some t.value) }
    {
        match &self.places[n.0 as usize] {
            Some(tile) => Ok(tile.clone()?),
            None => unreachable!(),
        }
    }

    /// Puts a tile in the place of a node. Constant time.
    pub fn put(&mut self, n: Node, tile: Arc<Tile>)
        requires { n.0 < length self.old }
        ensures { self.new ≡ with_tile self.old n (Some tile.value) }
    {
        self.places[n.0 as usize] = Some(tile);
    }

    /// The tile at a node goes. Constant time.
    pub fn clear(&mut self, n: Node, spent: &mut Spent)
        requires { n.0 < length self.old }
        ensures { self.new ≡ with_tile self.old n None }
    {
        take_out(&mut self.places, n.0 as usize, spent);
    }

    /// The tiles at all nodes go. Linear in the nodes.
    pub fn clear_all(&mut self, spent: &mut Spent)
        ensures { self.new ≡ all_out self.old }
    {
        take_all_out(&mut self.places, spent);
    }
}
