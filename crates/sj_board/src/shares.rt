//! Shares of tiles that a task takes as it begins to run, and gives back as it ends.

ghost use Rattle.std.specs.Prelude.{◌≡◌, ◌+◌, ◌<◌, ◌≤◌, ◌++◌, ◌∷◌, [], All, OnOk, Some, length};
ghost use Rattle.sj_base.specs.Mode.{reads_of};
ghost use Rattle.sj_codelet.specs.Frame.{arrays};
ghost use Rattle.sj_machine.specs.Operands.{written_among};
ghost use Rattle.sj_board.specs.Shares.{CanGive, CanPutBack, put_each, shares_at};
ghost use Rattle.sj_board.specs.Tiles.{out_each, with_tile, with_tiles_of};

use crate::spent::Spent;
use crate::tiles::CellTiles;
use sj_base::ids::{Cell, Node, Worker};
use sj_base::memory::OutOfMemory;
use sj_base::mode::Access;
use sj_base::program::Program;
use sj_base::tile::Tile;
use sj_codelet::frame::Frame;
use sj_machine::operands::worked_on;
use std::sync::Arc;

/// Appends shares of the tiles at a node on which a worker works for those operands whose old value is read. Linear in the
/// operands.
pub fn share_into(
    program: &Program,
    w: Worker,
    tiles: &[CellTiles],
    n: Node,
    accesses: &[Access],
    frame: &mut Frame,
) -> Result<(), OutOfMemory>
    requires room { length (reads_of accesses.now) ≤ frame.old.spare }
    requires can { All (CanGive program.now w tiles.now n) accesses.now }
    ensures slots { OnOk result (frame.new.slots
        ≡ frame.old.slots ++ shares_at program.now w tiles.now n accesses.now) }
    ensures room { OnOk result (frame.new.spare + length (reads_of accesses.now)
        ≡ frame.old.spare) }
{
    for access in accesses {
        share_one(program, w, tiles, n, *access, frame)?;
    }
    Ok(())
}

/// Appends a share of the tile at a node on which a worker works for an operand, if its old value is read. Constant time.
fn share_one(
    program: &Program,
    w: Worker,
    tiles: &[CellTiles],
    n: Node,
    access: Access,
    frame: &mut Frame,
) -> Result<(), OutOfMemory>
    requires room { length (reads_of (access ∷ [])) ≤ frame.old.spare }
    requires can { CanGive program.now w tiles.now n access }
    ensures slots { OnOk result (frame.new.slots
        ≡ frame.old.slots ++ shares_at program.now w tiles.now n (access ∷ [])) }
    ensures room { OnOk result (frame.new.spare + length (reads_of (access ∷ []))
        ≡ frame.old.spare) }
{
    if access.mode.reads_value() {
        let cell = worked_on(program, w, access);
        let row = &tiles[cell.0 as usize];
        frame.push_shared(row.share(n)?);
    }
    Ok(())
}

/// The tiles of these cells leave. Linear in them, and in the nodes for each.
pub fn lend_each(tiles: &mut Vec<CellTiles>, written: &[Cell], spent: &mut Spent)
    requires { All (λ c. c.0 < length tiles.old.items) written.now }
    ensures { tiles.new.items ≡ out_each written.now tiles.old.items }
{
    for cell in written {
        let row = &mut tiles[cell.0 as usize];
        row.clear_all(spent);
    }
}

/// A cell has a tile at a node from now on. Constant time.
pub fn put_tile(tiles: &mut Vec<CellTiles>, cell: Cell, n: Node, tile: Arc<Tile>)
    requires cell { cell.0 < length tiles.old.items }
    requires places { All (λ places. n.0 < length places) tiles.old.items }
    ensures { tiles.new.items ≡ with_tiles_of tiles.old.items cell
        (λ places. with_tile places n (Some tile.value)) }
{
    let row = &mut tiles[cell.0 as usize];
    row.put(n, tile);
}

/// Puts the operands of a frame, the last first, in the places of the cells on which a worker works for the operands that it
/// writes. The frame is empty then. Linear in the accesses, and no memory.
pub fn put_back(
    program: &Program,
    w: Worker,
    tiles: &mut Vec<CellTiles>,
    accesses: &[Access],
    n: Node,
    written: &mut Frame,
)
    requires { CanPutBack program.now w tiles.old.items n accesses.now written.old.slots }
    ensures tiles { tiles.new.items
        ≡ put_each n (written_among program.now w accesses.now)
        (arrays written.old.slots) tiles.old.items }
    ensures spent { written.new.slots ≡ [] }
    ensures room { written.new.spare ≡ written.old.spare + length written.old.slots }
{
    let Some((last, before)) = accesses.split_last() else {
        return;
    };
    if !last.mode.is_written() {
        put_back(program, w, tiles, before, n, written);
        return;
    }
    let cell = worked_on(program, w, *last);
    put_tile(tiles, cell, n, written.take_shared());
    put_back(program, w, tiles, before, n, written);
}
