//! The steps of a worker between the claim of its task and the beginning of the kernel.

ghost use Rattle.std.specs.Prelude.{◌≡◌, ◌&&◌, ℕ, IfOk, IsTrue, None, OnErr, OnOk, Some, false, is_some};
ghost use Rattle.sj_base.specs.Array.{Array};
ghost use Rattle.sj_base.specs.declared.trace.Event.TheVariants.{Drop, Move, Run};
ghost use Rattle.sj_core.specs.Needs.{node_of};
ghost use Rattle.sj_core.specs.Step.{mover_of};
ghost use Rattle.sj_core.specs.Machine.{writes as writes_of};
ghost use Rattle.sj_disk.specs.Lending.{IsInFor};
ghost use Rattle.sj_board.specs.Standing.{CanHappen, is_node, state};
ghost use Rattle.sj_board.specs.Tiles.{array_in};
ghost use Rattle.sj_board.specs.DiskUnits.{lent};
ghost use Rattle.sj_board.specs.BoardRow.{key_of};
ghost use Rattle.sj_engine.specs.Stage.{HasClaimedRow, IsCarried, IsFreeRow, MovesRow, row_in};
ghost use Rattle.sj_engine.specs.Stepping.{AfterStep, EndsByFault, IsShareCarried, IsUnitFor, StepMakes};
ghost use Rattle.sj_engine.specs.Turn.{Happens, IsTurnOf, IsWorkerOf, NothingHappens};

use crate::shared_board::SharedBoard;
use crate::tray::Tray;
use sj_base::ids::{Cell, Place, Task, Worker};
use sj_base::memory::OutOfMemory;
use sj_base::tile::Tile;
use sj_board::todo::Todo;
use sj_codelet::frame::Frame;
use sj_core::progress::Transfer;
use sj_core::tasks::task_at;
use sj_disk::unit::Unit;
use sj_edge::disk::Disk;
use std::alloc::Global;
use std::sync::Arc;

/// What a worker has done for the task that it has claimed.
#[derive(Drop)]
pub enum Step<D: Disk> {
    /// Its kernel has begun: shares of the operands whose old value it reads, in order.
    Begun(Frame),
    /// A transfer from node to node has begun, with a share of the tile at its source.
    Moves {
        cell: Cell,
        from: Place,
        to: Place,
        share: Arc<Tile>,
    },
    /// A transfer to a disk has begun, of a cell that so many tasks have written, with a share of its tile. The disk is out.
    Writes {
        cell: Cell,
        from: Place,
        to: Place,
        writes: u64,
        share: Arc<Tile>,
        unit: Unit<D>,
    },
    /// A transfer from a disk has begun, of a cell that so many tasks have written. The disk is out.
    Reads {
        cell: Cell,
        from: Place,
        to: Place,
        writes: u64,
        unit: Unit<D>,
    },
    /// The copy of a victim is gone.
    Discarded,
    /// Nothing could be done before another worker goes on.
    Waits,
    /// A fault is kept, and the worker has stopped.
    Stopped,
    /// It has failed for want of memory, and lets its task go.
    Failed,
}

impl<D: Disk> SharedBoard<D> {
    /// The kernel of a worker's task begins, where no fault is kept. The cost of `run`.
    fn begin(&mut self, alloc: Global, t: Task, w: Worker, tray: &mut Tray) -> Step<D>
        requires worker { IsWorkerOf self.old w }
        requires claimed { HasClaimedRow w t (row_in self.old w) }
        requires no_fault { self.old.fault ≡ None }
        requires can { CanHappen self.old.run (Run t w) }
        ensures turn { IsTurnOf D.faults D.mismatches w self.old self.new }
        ensures row { AfterStep D.held (key_of self.new) w t (row_in self.new w) result }
        ensures event { StepMakes w t self.old self.new result }
        ensures failed { EndsByFault result → IsTrue (is_some self.new.fault) }
    {
        self.board.is_sound();
        let operands = task_at(self.board.program(), t).accesses.len();
        let Ok(frame) = tray.take_frame(alloc, operands as u8) else {
            self.fail_without_memory(w);
            return Step::Failed;
        };
        let Ok(frame) = self.board.run(t, w, frame, &mut tray.spent) else {
            self.fail_without_memory(w);
            return Step::Failed;
        };
        Step::Begun(frame)
    }

    /// A transfer of a worker begins, where no fault is kept; after an `Err` it has failed for want of memory. The cost of
    /// `begin_move`.
    fn begin_move(
        &mut self,
        w: Worker,
        t: Task,
        x: Transfer,
    ) -> Result<Option<Arc<Tile>>, OutOfMemory>
        requires worker { IsWorkerOf self.old w }
        requires claimed { HasClaimedRow w t (row_in self.old w) }
        requires no_fault { self.old.fault ≡ None }
        requires can { CanHappen self.old.run (Move x.cell x.from x.to) }
        requires mover { mover_of (state self.old.run) x.cell x.from x.to ≡ w }
        ensures turn { IsTurnOf D.faults D.mismatches w self.old self.new }
        ensures moves { OnOk result (MovesRow w t x (row_in self.new w)) }
        ensures share { IfOk result
            (λ share. IsShareCarried D.held (key_of self.new) x (row_in self.new w) x.from
            (array_in share)) }
        ensures counts { OnOk result ((row_in self.new w).writes
            ≡ Some (writes_of (state self.old.run) x.cell)) }
        ensures event { OnOk result (Happens (Move x.cell x.from x.to) self.old self.new) }
        ensures disks_stay { OnOk result (lent self.new.run ≡ lent self.old.run) }
        ensures failed { OnErr result (IsFreeRow (row_in self.new w)) }
        ensures no_event { OnErr result (NothingHappens self.old self.new) }
        ensures fault { OnErr result (IsTrue (is_some self.new.fault)) }
    {
        self.board.is_sound();
        match self.board.begin_move(w, x.cell, x.from, x.to) {
            Ok(share) => Ok(share),
            Err(OutOfMemory) => {
                self.fail_without_memory(w);
                Err(OutOfMemory)
            }
        }
    }

    /// The worker takes out the disk that takes part in its transfer, which has begun. Constant time.
    fn take_unit(&mut self, w: Worker, t: Task, x: Transfer) -> Unit<D>
        requires worker { IsWorkerOf self.old w }
        requires moves { MovesRow w t x (row_in self.old w) }
        requires disk { (is_node x.from && is_node x.to) ≡ false }
        requires disk_in { IsInFor (lent self.old.run) x.cell.0 }
        ensures turn { IsTurnOf D.faults D.mismatches w self.old self.new }
        ensures no_event { NothingHappens self.old self.new }
        ensures unit { (count : ℕ) → (row_in self.old w).writes ≡ Some count →
            IsUnitFor (key_of self.new) w t x (row_in self.new w) result count }
        ensures carried { (a : Array) → IsCarried D.held (key_of self.old) x (row_in self.old w) a →
            IsCarried D.held (key_of self.new) x (row_in self.new w) a }
    {
        self.board.is_sound();
        self.board.take_unit(w)
    }

    /// A transfer of a worker begins, and where a disk takes part the worker takes it out. The cost of `begin_move`.
    fn begin_transfer(&mut self, w: Worker, t: Task, x: Transfer, writes: u64) -> Step<D>
        requires worker { IsWorkerOf self.old w }
        requires claimed { HasClaimedRow w t (row_in self.old w) }
        requires no_fault { self.old.fault ≡ None }
        requires can { CanHappen self.old.run (Move x.cell x.from x.to) }
        requires mover { mover_of (state self.old.run) x.cell x.from x.to ≡ w }
        requires disk_in { (is_node x.from && is_node x.to) ≡ false →
            IsInFor (lent self.old.run) x.cell.0 }
        requires counts { writes ≡ writes_of (state self.old.run) x.cell }
        ensures turn { IsTurnOf D.faults D.mismatches w self.old self.new }
        ensures row { AfterStep D.held (key_of self.new) w t (row_in self.new w) result }
        ensures event { StepMakes w t self.old self.new result }
        ensures failed { EndsByFault result → IsTrue (is_some self.new.fault) }
    {
        let Ok(share) = self.begin_move(w, t, x) else {
            return Step::Failed;
        };
        let Transfer { cell, from, to } = x;
        match (from, to, share) {
            (Place::Node(_), Place::Node(_), Some(share)) => Step::Moves {
                cell,
                from,
                to,
                share,
            },
            (Place::Node(_), Place::Disk(_), Some(share)) => Step::Writes {
                cell,
                from,
                to,
                writes,
                share,
                unit: self.take_unit(w, t, x),
            },
            (Place::Disk(_), Place::Node(_), _) => Step::Reads {
                cell,
                from,
                to,
                writes,
                unit: self.take_unit(w, t, x),
            },
            _ => unreachable!(),
        }
    }

    /// The copy of a victim goes. Constant time.
    fn discard(&mut self, w: Worker, t: Task, cell: Cell, tray: &mut Tray) -> Step<D>
        requires worker { IsWorkerOf self.old w }
        requires claimed { HasClaimedRow w t (row_in self.old w) }
        requires can { CanHappen self.old.run (Drop cell (node_of self.old.run.machine w)) }
        ensures turn { IsTurnOf D.faults D.mismatches w self.old self.new }
        ensures row { AfterStep D.held (key_of self.new) w t (row_in self.new w) result }
        ensures event { StepMakes w t self.old self.new result }
        ensures discards { result ≡ Step.Discarded }
    {
        self.board.is_sound();
        self.board.drop_copy(w, cell, &mut tray.spent);
        Step::Discarded
    }

    /// A worker with a claimed task stops, since a fault is kept. Constant time.
    fn give_up(&mut self, w: Worker, t: Task) -> Step<D>
        requires worker { IsWorkerOf self.old w }
        requires claimed { HasClaimedRow w t (row_in self.old w) }
        requires fault { IsTrue (is_some self.old.fault) }
        ensures turn { IsTurnOf D.faults D.mismatches w self.old self.new }
        ensures row { AfterStep D.held (key_of self.new) w t (row_in self.new w) result }
        ensures event { StepMakes w t self.old self.new result }
        ensures fault { IsTrue (is_some self.new.fault) }
    {
        self.board.is_sound();
        self.board.stop(w);
        Step::Stopped
    }

    /// The next step of a worker for the task that it has claimed, as the plan says it; none where a fault is kept. The costs of
    /// `plan_of` and of the step. The tray's frame goes out with the kernel that begins, and tiles that the board lets go come
    /// into it.
    pub fn step(&mut self, alloc: Global, w: Worker, t: Task, tray: &mut Tray) -> Step<D>
        requires worker { IsWorkerOf self.old w }
        requires claimed { HasClaimedRow w t (row_in self.old w) }
        ensures turn { IsTurnOf D.faults D.mismatches w self.old self.new }
        ensures row { AfterStep D.held (key_of self.new) w t (row_in self.new w) result }
        ensures event { StepMakes w t self.old self.new result }
        ensures failed { EndsByFault result → IsTrue (is_some self.new.fault) }
    {
        if self.board.failed() {
            return self.give_up(w, t);
        }
        match self.board.plan_of(w) {
            Todo::Start => self.begin(alloc, t, w, tray),
            Todo::Discard(cell) => self.discard(w, t, cell, tray),
            Todo::Transfer {
                cell,
                from,
                to,
                writes,
            } => self.begin_transfer(w, t, Transfer { cell, from, to }, writes),
            Todo::Wait => Step::Waits,
            Todo::Nothing => unreachable!(),
        }
    }
}
