//! Tiles that went out of the board in a turn, and are fetched into or freed after it.

ghost use Rattle.std.specs.Prelude.{◌≡◌, [], IfSome, length, take};
ghost use Rattle.sj_base.specs.Array.{area};

use sj_base::tile::{Dims, Tile};
use std::alloc::Global;
use std::sync::Arc;

/// How many tiles are kept until they are freed.
const MOST_SPENT: usize = 16;

/// Shares of tiles that the board let go. They are kept so that no large tile is freed in a turn, and that a cell that comes may
/// be fetched into one of them.
#[derive(Drop)]
pub struct Spent {
    tiles: Vec<Arc<Tile>>,
}

impl Spent {
    ghost use Rattle.sj_board.specs.Spent.{spent_tiles};

    /// No share, and no room: each is freed as it is put. Constant time, and no memory.
    pub fn none(alloc: Global) -> Spent
        ensures { spent_tiles result ≡ [] }
    {
        Spent {
            tiles: Vec::new(alloc),
        }
    }

    /// No share, and room for some, where there is memory.
    pub fn roomy(alloc: Global) -> Spent
        ensures { spent_tiles result ≡ [] }
    {
        match Vec::with_capacity(alloc, MOST_SPENT) {
            Ok(tiles) => Spent { tiles },
            Err(_) => Spent::none(alloc),
        }
    }

    /// Keeps a share until it is taken or freed; frees it at once where there is no room. Constant time but for that, and no
    /// memory.
    pub fn put(&mut self, tile: Option<Arc<Tile>>) {
        if self.tiles.len() < self.tiles.capacity() {
            if let Some(tile) = tile {
                let _ = self.tiles.push(tile);
            }
        }
    }

    /// A tile of these dimensions, with any elements, of which nobody else has a share; none where none is kept. Those of these
    /// dimensions of which somebody else has one are let go before it. Linear in the shares, and no memory.
    pub fn take_tile(&mut self, dims: Dims) -> Option<Tile>
        ensures dims { IfSome result (λ t. t.dims ≡ dims) }
        ensures whole { IfSome result (λ t. length t.elements ≡ area dims) }
    {
        let mut at = 0;
        while at < self.tiles.len() {
            if self.tiles[at].dims() == dims {
                if let Ok(tile) = Arc::try_unwrap(self.tiles.swap_remove(at)) {
                    return Some(tile);
                }
            } else {
                at += 1;
            }
        }
        None
    }

    /// Frees all but so many, at most, of those that were put first; the room stays. Linear in the shares.
    pub fn free_but(&mut self, most: usize)
        ensures { spent_tiles self.new ≡ take most (spent_tiles self.old) }
    {
        self.tiles.truncate(most);
    }

    /// Frees what is kept; the room stays. Linear in the shares.
    pub fn free(&mut self)
        ensures { spent_tiles self.new ≡ [] }
    {
        self.tiles.clear();
    }
}
