//! Disks that workers take out of a run, work on, and put back.

ghost use Rattle.std.specs.Prelude.{◌≡◌, if◌then◌else◌, IfErr, OnOk, false, true};
ghost use Rattle.std.specs.List.{slice_set};
ghost use Rattle.sj_base.specs.Array.{Array};
ghost use Rattle.sj_edge.specs.GivenBack.{AreGivenBack};
ghost use Rattle.sj_disk.specs.Lending.{has_back};
ghost use Rattle.sj_board.specs.Cause.{HasCause};
ghost use Rattle.sj_board.specs.Counts.{AreCounted, fault_of};
ghost use Rattle.sj_board.specs.Sound.{IsWrittenOut, OnlyDisksChange};
ghost use Rattle.sj_board.specs.Standing.{IsFetching, IsMovingOut, IsTileMoved};
ghost use Rattle.sj_board.specs.NextStep.{is_out_for, needs_disk_out};
ghost use Rattle.sj_board.specs.DiskUnits.{HasBlockOf, HasFetchedMoved, HasItsDiskIn, HasStoredMoved, IsDiskMove, IsUnitOf, TakesUnit, lent};

use super::{RunState, disk_at};
use crate::todo::Todo;
use sj_base::ids::{Cell, Place, Worker};
use sj_disk::refusal::DiskRefusal;
use sj_disk::unit::Unit;
use sj_edge::disk::Disk;

impl<D: Disk> RunState<D> {
    /// Whether the disk on which a cell has its block is out. Constant time.
    pub fn is_out(&self, cell: Cell) -> bool
        ensures { result ≡ is_out_for self.now cell }
    {
        match self.disks.extent(cell) {
            Some(_) => self.disks.is_out_for(cell),
            None => false,
        }
    }

    /// Whether a step is a transfer in which a disk takes part that is out. Constant time.
    pub fn needs_disk_out(&self, todo: Todo) -> bool
        ensures { result ≡ needs_disk_out self.now todo }
    {
        match todo {
            Todo::Transfer {
                cell,
                from: Place::Disk(_),
                ..
            } => self.is_out(cell),
            Todo::Transfer {
                cell,
                to: Place::Disk(_),
                ..
            } => self.is_out(cell),
            _ => false,
        }
    }

    /// A step, or to wait where it is a transfer in which a disk takes part that is out. Constant time.
    pub fn unless_out(&self, first: Todo) -> Todo
        ensures { result ≡ (if needs_disk_out self.now first then Todo.Wait else first) }
    {
        if self.needs_disk_out(first) {
            return Todo::Wait;
        }
        first
    }

    /// Takes out the disk that takes part in a worker's move, with the block of its cell. No event, and no memory. Constant time.
    pub fn take_unit(&mut self, w: Worker) -> Unit<D>
        requires moves { IsDiskMove self.old w }
        requires disk_in { HasItsDiskIn self.old w }
        ensures takes { TakesUnit w result self.old self.new }
        ensures block { HasBlockOf self.old w result }
    {
        let x = self.rows.transfer(w).unwrap();
        self.disks.take_out(x.cell).unwrap()
    }

    /// Puts the disk back on which a worker has stored the tile of its move, with this outcome. No event, and no memory.
    /// Constant time.
    ///
    /// After an `Err` the block may hold any bytes, and the move is still under way.
    pub fn put_written(
        &mut self,
        w: Worker,
        unit: Unit<D>,
        outcome: Result<(), DiskRefusal>,
    ) -> Result<(), DiskRefusal>
        requires under_way { IsMovingOut self.old w }
        requires stored { HasStoredMoved D.size D.faults D.mismatches D.held self.old w unit
            outcome }
        ensures result { result ≡ outcome }
        ensures no_event { OnlyDisksChange self.old self.new }
        ensures back { lent self.new ≡ has_back (lent self.old) unit }
        ensures counts { AreCounted D.faults D.mismatches result self.old.disks.disks
            self.new.disks.disks }
        ensures cause { IfErr result (λ r. HasCause D.faults D.mismatches D.held self.new
            (fault_of r)) }
        ensures given_back { AreGivenBack D.size D.faults D.mismatches D.held self.old.disks.disks
            self.new.disks.disks }
        ensures written { OnOk result (IsWrittenOut D.held self.new w) }
    {
        let x = self.rows.transfer(w).unwrap();
        let _d = disk_at(x.to);
        let _extent = self.disks.extent(x.cell);
        self.disks.put_back(unit);
        outcome
    }

    /// Puts the disk back from which a worker has fetched elements for its move, with this outcome. No event, and no memory.
    /// Constant time.
    ///
    /// Where the outcome is `Ok`, these elements are the tile of the move.
    pub fn put_read(
        &mut self,
        w: Worker,
        unit: Unit<D>,
        outcome: Result<(), DiskRefusal>,
    ) -> Result<(), DiskRefusal>
        requires under_way { IsFetching self.old w }
        requires fetched { (array : Array) × HasFetchedMoved D.size D.faults D.mismatches D.held
            self.old w unit outcome array }
        ensures result { result ≡ outcome }
        ensures no_event { OnlyDisksChange self.old self.new }
        ensures back { lent self.new ≡ has_back (lent self.old) unit }
        ensures counts { AreCounted D.faults D.mismatches result self.old.disks.disks
            self.new.disks.disks }
        ensures cause { IfErr result (λ r. HasCause D.faults D.mismatches D.held self.new
            (fault_of r)) }
        ensures given_back { AreGivenBack D.size D.faults D.mismatches D.held self.old.disks.disks
            self.new.disks.disks }
        ensures tile { OnOk result ((array : Array) →
            HasFetchedMoved D.size D.faults D.mismatches D.held self.old w unit result array →
            IsTileMoved D.held self.old w array) }
    {
        let x = self.rows.transfer(w).unwrap();
        let _d = disk_at(x.from);
        let _extent = self.disks.extent(x.cell);
        self.disks.put_back(unit);
        outcome
    }

    /// Puts a disk back that a worker has taken out and done nothing with: the run is as before that. Constant time.
    pub fn put_untouched(&mut self, w: Worker, unit: Unit<D>)
        requires untouched { IsUnitOf self.old w unit }
        ensures { self.new
            ≡ record self.old { out = slice_set self.old.out unit.extent.disk.0 false } }
    {
        let _w = w;
        unit.is_as_it_was();
        self.disks.put_back(unit);
    }
}
