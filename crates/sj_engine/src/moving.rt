//! The ends of a worker's transfers.

ghost use Rattle.std.specs.Prelude.{◌≡◌, IfSome, IsTrue, MatchBool, false, is_some, true};
ghost use Rattle.sj_base.specs.declared.trace.Event.TheVariants.{Moved};
ghost use Rattle.sj_base.specs.Array.{Array};
ghost use Rattle.sj_board.specs.Cause.{HasCause};
ghost use Rattle.sj_board.specs.Tiles.{array_in};
ghost use Rattle.sj_board.specs.Standing.{is_node};
ghost use Rattle.sj_board.specs.Board.{BoardState};
ghost use Rattle.sj_board.specs.BoardRow.{key_of};
ghost use Rattle.sj_engine.specs.Stage.{HasClaimedRow, HoldsRow, IsCarried, IsFetchedThrough, IsFreeRow, IsStoredThrough, MovesRow, row_in};
ghost use Rattle.sj_engine.specs.Turn.{Happens, IsTurnOf, IsWorkerOf, NothingHappens, PutsUnitBack};

use crate::shared_board::SharedBoard;
use sj_base::ids::{Task, Worker};
use sj_base::tile::Tile;
use sj_board::fault::RunFault;
use sj_core::progress::Transfer;
use sj_disk::refusal::DiskRefusal;
use sj_disk::unit::Unit;
use sj_edge::disk::Disk;
use std::sync::Arc;

impl<D: Disk> SharedBoard<D> {
    /// A worker fails, and lets its task go: the transfer that was under way stays so. Constant time.
    fn fail_moving(&mut self, w: Worker, t: Task, x: Transfer, fault: RunFault)
        requires worker { IsWorkerOf self.old w }
        requires moves { MovesRow w t x (row_in self.old w) }
        requires cause { HasCause D.faults D.mismatches D.held self.old.run fault }
        ensures turn { (b : BoardState D) → PutsUnitBack w b self.old →
            IsTurnOf D.faults D.mismatches w b self.new }
        ensures row { IsFreeRow (row_in self.new w) }
        ensures no_event { NothingHappens self.old self.new }
        ensures fault { IsTrue (is_some self.new.fault) }
    {
        self.board.is_sound();
        self.board.fail(w, fault);
    }

    /// A worker's transfer from a node to a node ends: its tile is there. Constant time.
    pub fn arrive(&mut self, w: Worker, t: Task, x: Transfer, tile: Arc<Tile>)
        requires worker { IsWorkerOf self.old w }
        requires moves { MovesRow w t x (row_in self.old w) }
        requires node { is_node x.to ≡ true }
        requires tile { IsCarried D.held (key_of self.old) x (row_in self.old w) tile.value }
        ensures turn { IsTurnOf D.faults D.mismatches w self.old self.new }
        ensures row { HasClaimedRow w t (row_in self.new w) }
        ensures event { Happens (Moved x.cell x.from x.to) self.old self.new }
    {
        self.board.is_sound();
        self.board.end_move_in(w, tile);
    }

    /// A worker has stored the tile of its transfer on the disk, with this outcome: the disk goes back, and the transfer ends.
    /// Whether it did: else the worker has failed. Constant time.
    pub fn write_out(
        &mut self,
        w: Worker,
        t: Task,
        x: Transfer,
        unit: Unit<D>,
        outcome: Result<(), DiskRefusal>,
    ) -> bool
        requires worker { IsWorkerOf self.old w }
        requires disk { is_node x.to ≡ false }
        requires stored { IsStoredThrough D.size D.faults D.mismatches D.held
            (key_of self.old) w t x (row_in self.old w) unit outcome }
        ensures turn { IsTurnOf D.faults D.mismatches w self.old self.new }
        ensures row { MatchBool result (HasClaimedRow w t (row_in self.new w))
            (IsFreeRow (row_in self.new w)) }
        ensures event { MatchBool result (Happens (Moved x.cell x.from x.to) self.old self.new)
            (NothingHappens self.old self.new) }
        ensures failed { result ≡ false → IsTrue (is_some self.new.fault) }
    {
        self.board.is_sound();
        if let Err(refusal) = self.board.put_written(w, unit, outcome) {
            self.fail_moving(w, t, x, RunFault::from(refusal));
            return false;
        }
        self.board.is_sound();
        self.board.end_move_out(w);
        true
    }

    /// A worker has fetched the tile of its transfer from the disk, with this outcome: the disk goes back, and the transfer ends.
    /// Whether it did: else the worker has failed, also for want of memory where there is no tile. Constant time.
    pub fn read_in(
        &mut self,
        w: Worker,
        t: Task,
        x: Transfer,
        unit: Unit<D>,
        outcome: Result<(), DiskRefusal>,
        tile: Option<Arc<Tile>>,
    ) -> bool
        requires worker { IsWorkerOf self.old w }
        requires node { is_node x.to ≡ true }
        requires disk { is_node x.from ≡ false }
        requires fetched { (a : Array) × IsFetchedThrough D.size D.faults D.mismatches D.held
            (key_of self.old) w t x (row_in self.old w) unit outcome a }
        requires tile { IfSome (array_in tile) (IsFetchedThrough D.size D.faults D.mismatches D.held
            (key_of self.old) w t x (row_in self.old w) unit outcome) }
        ensures turn { IsTurnOf D.faults D.mismatches w self.old self.new }
        ensures row { MatchBool result (HasClaimedRow w t (row_in self.new w))
            (IsFreeRow (row_in self.new w)) }
        ensures event { MatchBool result (Happens (Moved x.cell x.from x.to) self.old self.new)
            (NothingHappens self.old self.new) }
        ensures failed { result ≡ false → IsTrue (is_some self.new.fault) }
    {
        self.board.is_sound();
        if let Err(refusal) = self.board.put_read(w, unit, outcome) {
            self.fail_moving(w, t, x, RunFault::from(refusal));
            return false;
        }
        let Some(tile) = tile else {
            self.fail_moving(w, t, x, RunFault::OutOfMemory);
            return false;
        };
        self.board.is_sound();
        self.board.end_move_in(w, tile);
        true
    }

    /// A worker has no memory for the tile of its transfer: the disk goes back as it was, and the worker has failed. Constant
    /// time.
    pub fn give_unit_up(&mut self, w: Worker, t: Task, x: Transfer, unit: Unit<D>)
        requires worker { IsWorkerOf self.old w }
        requires holds { HoldsRow w t x unit (row_in self.old w) }
        ensures turn { IsTurnOf D.faults D.mismatches w self.old self.new }
        ensures row { IsFreeRow (row_in self.new w) }
        ensures no_event { NothingHappens self.old self.new }
        ensures fault { IsTrue (is_some self.new.fault) }
    {
        self.board.is_sound();
        self.board.put_untouched(w, unit);
        self.fail_moving(w, t, x, RunFault::OutOfMemory);
    }
}
