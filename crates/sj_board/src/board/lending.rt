//! Disks that workers have in hand.

ghost use Rattle.std.specs.Prelude.{◌≡◌, ◌<◌, IfErr, None, OnOk, Some, length};
ghost use Rattle.std.specs.List.{slice_set};
ghost use Rattle.sj_base.specs.Array.{Array};
ghost use Rattle.sj_board.specs.Cause.{HasCause};
ghost use Rattle.sj_board.specs.Counts.{AreCounted, fault_of};
ghost use Rattle.sj_board.specs.Sound.{IsWrittenOut};
ghost use Rattle.sj_board.specs.Standing.{IsFetching, IsMovingOut, IsTileMoved};
ghost use Rattle.sj_board.specs.DiskUnits.{HasBlockOf, HasFetchedMoved, HasItsDiskIn, HasStoredMoved, IsDiskMove, IsUnitOf};
ghost use Rattle.sj_board.specs.Board.{GivesUnitBack, IsBusy, hand_in, hand_of, has_taken};
ghost use Rattle.sj_board.specs.Units.{OthersKeepUnits};

use super::Board;
use crate::hand::Hand;
use sj_base::ids::{Cell, Worker};
use sj_disk::refusal::DiskRefusal;
use sj_disk::unit::Unit;
use sj_edge::disk::Disk;

/// A worker has the disk with the block of a cell in hand, or none. Constant time.
fn hold_unit(hands: &mut Vec<Hand>, w: Worker, unit: Option<Cell>)
    requires { w.0 < length hands.old.items }
    ensures { hands.new.items ≡ slice_set hands.old.items w.0
        (record (hand_in hands.old.items w) { unit = unit }) }
{
    let hand = &mut hands[w.0 as usize];
    hand.unit = unit;
}

impl<D: Disk> Board<D> {
    /// A worker takes out the disk that takes part in its move, with the block of its cell. No event, and no memory. Constant
    /// time.
    pub fn take_unit(&mut self, w: Worker) -> Unit<D>
        requires busy { IsBusy self.old w }
        requires none { (hand_of self.old w).unit ≡ None }
        requires moves { IsDiskMove self.old.run w }
        requires disk_in { HasItsDiskIn self.old.run w }
        ensures takes { self.new ≡ has_taken self.old w result }
        ensures unit { IsUnitOf self.new.run w result }
        ensures block { HasBlockOf self.new.run w result }
    {
        let unit = self.run.take_unit(w);
        hold_unit(&mut self.hands, w, Some(unit.cell()));
        unit
    }

    /// A worker puts the disk back on which it has stored the tile of its move, with this outcome. No event, and no memory.
    /// Constant time.
    ///
    /// After an `Err` the block may hold any bytes, and the move is still under way.
    pub fn put_written(
        &mut self,
        w: Worker,
        unit: Unit<D>,
        outcome: Result<(), DiskRefusal>,
    ) -> Result<(), DiskRefusal>
        requires busy { IsBusy self.old w }
        requires in_hand { (hand_of self.old w).unit ≡ Some unit.cell }
        requires under_way { IsMovingOut self.old.run w }
        requires stored { HasStoredMoved D.size D.faults D.mismatches D.held self.old.run w unit
            outcome }
        ensures result { result ≡ outcome }
        ensures back { GivesUnitBack w self.old self.new }
        ensures others { OthersKeepUnits w self.old self.new }
        ensures counts { AreCounted D.faults D.mismatches result self.old.run.disks.disks
            self.new.run.disks.disks }
        ensures cause { IfErr result (λ r. HasCause D.faults D.mismatches D.held self.new.run
            (fault_of r)) }
        ensures written { OnOk result (IsWrittenOut D.held self.new.run w) }
    {
        let result = self.run.put_written(w, unit, outcome);
        hold_unit(&mut self.hands, w, None);
        result
    }

    /// A worker puts the disk back from which it has fetched elements for its move, with this outcome. No event, and no memory.
    /// Constant time.
    ///
    /// Where the outcome is `Ok`, these elements are the tile of the move.
    pub fn put_read(
        &mut self,
        w: Worker,
        unit: Unit<D>,
        outcome: Result<(), DiskRefusal>,
    ) -> Result<(), DiskRefusal>
        requires busy { IsBusy self.old w }
        requires in_hand { (hand_of self.old w).unit ≡ Some unit.cell }
        requires under_way { IsFetching self.old.run w }
        requires fetched { (array : Array) × HasFetchedMoved D.size D.faults D.mismatches D.held
            self.old.run w unit outcome array }
        ensures result { result ≡ outcome }
        ensures back { GivesUnitBack w self.old self.new }
        ensures others { OthersKeepUnits w self.old self.new }
        ensures counts { AreCounted D.faults D.mismatches result self.old.run.disks.disks
            self.new.run.disks.disks }
        ensures cause { IfErr result (λ r. HasCause D.faults D.mismatches D.held self.new.run
            (fault_of r)) }
        ensures tile { OnOk result ((array : Array) →
            HasFetchedMoved D.size D.faults D.mismatches D.held self.old.run w unit result array →
            IsTileMoved D.held self.new.run w array) }
    {
        let result = self.run.put_read(w, unit, outcome);
        hold_unit(&mut self.hands, w, None);
        result
    }

    /// A worker puts a disk back that it has done nothing with. Constant time.
    pub fn put_untouched(&mut self, w: Worker, unit: Unit<D>)
        requires busy { IsBusy self.old w }
        requires in_hand { (hand_of self.old w).unit ≡ Some unit.cell }
        requires untouched { IsUnitOf self.old.run w unit }
        ensures back { GivesUnitBack w self.old self.new }
        ensures others { OthersKeepUnits w self.old self.new }
        ensures disks_stay { self.new.run.disks ≡ self.old.run.disks }
    {
        self.run.put_untouched(w, unit);
        hold_unit(&mut self.hands, w, None);
    }
}
