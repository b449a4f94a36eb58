//! A worker: it claims a task, makes what the plan says, runs its kernel and ends it, until it can't go on or the run is over.

ghost use Rattle.std.specs.Prelude.{◌≡◌, ◌≢◌, ◌<◌, ◌⊎◌, if◌then◌else◌, MatchBool, false, is_some, length, true};
ghost use Rattle.sj_codelet.specs.Kernel.{out};
ghost use Rattle.sj_core.specs.Laws.{IsLawful};
ghost use Rattle.sj_board.specs.Standing.{is_node};
ghost use Rattle.sj_engine.specs.Member.{HasHeard, IsRowAt};
ghost use Rattle.sj_base.specs.declared.mode.Policy.TheVariants.{Prio};
ghost use Rattle.sj_engine.specs.Queued.{LeavesFault, PutsReleased};
ghost use Rattle.sj_engine.specs.Ready.{IsItsSource, PutsAll, StaysItsSource, is_shared};
ghost use Rattle.sj_engine.specs.Stage.{AreDone, GoesOn, HasClaimedRow, HasOperands, IsCarried, IsFreeRow, RunsRow};
ghost use Rattle.sj_engine.specs.Stepping.{IsUnitFor};
ghost use Rattle.sj_engine.specs.Working.{AfterPrepare};
ghost use Rattle.sj_engine.specs.Workplace.{IsSeated, IsProperWorkplace, IsWorkplace, board_key, policy_here};

use crate::dealing::put_all;
use crate::kernel::compute;
use crate::member::Stage;
use crate::picking::Picked;
use crate::ready::ReadyFrom;
use crate::stepping::Step;
use crate::tray::Tray;
use crate::worker_seat::WorkerSeat;
use crate::workplace::Workplace;
use sj_base::ids::Task;
use sj_base::tile::Tile;
use sj_board::run_state::measured;
use sj_codelet::frame::Frame;
use sj_codelet::set::Codelets;
use sj_core::progress::Transfer;
use sj_disk::unit::Unit;
use sj_edge::disk::Disk;
use sj_edge::gate::Gate;
use std::mem;
use std::sync::{Arc, Wait};

/// How far a worker has come with its claim.
#[derive(Drop)]
pub enum Prepared {
    /// The kernel has begun, with these shares.
    Begun(Frame),
    /// A step more is made.
    Further,
    /// Nothing can be done before another worker goes on, and the seat has heard the bell.
    Waits,
    /// It has failed, and let its task go.
    Failed,
    /// A fault is kept, and it has stopped.
    Stopped,
}

/// How far a worker has come where its transfer ended, or has failed.
fn further(ended: bool) -> Prepared
    ensures { result ≡ (if ended then Prepared.Further else Prepared.Failed) }
{
    if ended {
        Prepared::Further
    } else {
        Prepared::Failed
    }
}

impl<R: Wait, D: Disk> Workplace<'_, R, D> {
    /// Stores a tile on the disk that is out, outside of any turn, and ends the transfer. Whether it did: else the worker has
    /// failed. Linear in the tile.
    fn store(
        &self,
        seat: &mut WorkerSeat<D>,
        t: Task,
        x: Transfer,
        writes: u64,
        share: Arc<Tile>,
        mut unit: Unit<D>,
    ) -> bool
        requires workplace { IsProperWorkplace self.now }
        requires outside { seat.old.keeps_turn ≡ false }
        requires disk { is_node x.to ≡ false }
        requires unit { IsSeated self.now (λ r. IsUnitFor
            (board_key self.now) self.now.worker t x r unit writes) seat.old }
        requires share { IsSeated self.now
            (λ r. IsCarried D.held (board_key self.now) x r share.value) seat.old }
        ensures row { IsSeated self.now
            (λ r. MatchBool result (HasClaimedRow self.now.worker t r) (IsFreeRow r)) seat.new }
        ensures events { GoesOn self.now.worker seat.old.facts seat.new.facts }
        ensures outside { result ≡ false → seat.new.keeps_turn ≡ false }
    {
        measured(&share);
        let outcome = unit.store(writes, &share);
        drop(share);
        self.write_out(seat, t, x, unit, outcome)
    }

    /// Fetches a tile from the disk that is out, outside of any turn, into one of the tray or a new one, and ends the transfer.
    /// Whether it did: else the worker has failed. Linear in the tile.
    fn fetch(
        &self,
        seat: &mut WorkerSeat<D>,
        t: Task,
        x: Transfer,
        writes: u64,
        mut unit: Unit<D>,
        tray: &mut Tray,
    ) -> bool
        requires workplace { IsProperWorkplace self.now }
        requires outside { seat.old.keeps_turn ≡ false }
        requires node { is_node x.to ≡ true }
        requires disk { is_node x.from ≡ false }
        requires cell { x.cell.0 < length self.now.program.now.cells }
        requires unit { IsSeated self.now (λ r. IsUnitFor
            (board_key self.now) self.now.worker t x r unit writes) seat.old }
        ensures row { IsSeated self.now
            (λ r. MatchBool result (HasClaimedRow self.now.worker t r) (IsFreeRow r)) seat.new }
        ensures events { GoesOn self.now.worker seat.old.facts seat.new.facts }
        ensures outside { result ≡ false → seat.new.keeps_turn ≡ false }
    {
        let dims = self.program.cells.items()[x.cell.0 as usize].dims;
        let Ok(mut tile) = tray.take_tile(self.alloc, dims) else {
            self.give_unit_up(seat, t, x, unit);
            return false;
        };
        let outcome = unit.fetch(writes, &mut tile);
        measured(&tile);
        let tile = Arc::new(self.alloc, tile).ok();
        self.read_in(seat, t, x, unit, outcome, tile)
    }

    /// One step for the claimed task, with the transfer that it begins.
    fn advance(&self, seat: &mut WorkerSeat<D>, t: Task, tray: &mut Tray) -> Prepared
        requires workplace { IsProperWorkplace self.now }
        requires claimed { IsSeated self.now (HasClaimedRow self.now.worker t) seat.old }
        ensures row { IsSeated self.now
            (λ r. AfterPrepare D.held (board_key self.now) self.now.worker t r result) seat.new }
        ensures heard { result ≡ Prepared.Waits → is_some seat.new.facts.heard ≡ true }
        ensures events { GoesOn self.now.worker seat.old.facts seat.new.facts }
        ensures outside { result ≢ Prepared.Further → seat.new.keeps_turn ≡ false }
    {
        match self.step(seat, t, tray) {
            Step::Begun(frame) => Prepared::Begun(frame),
            Step::Moves {
                cell,
                from,
                to,
                share,
            } => {
                self.arrive(seat, t, Transfer { cell, from, to }, share);
                Prepared::Further
            }
            Step::Writes {
                cell,
                from,
                to,
                writes,
                share,
                unit,
            } => further(self.store(seat, t, Transfer { cell, from, to }, writes, share, unit)),
            Step::Reads {
                cell,
                from,
                to,
                writes,
                unit,
            } => further(self.fetch(seat, t, Transfer { cell, from, to }, writes, unit, tray)),
            Step::Discarded => Prepared::Further,
            Step::Waits => Prepared::Waits,
            Step::Stopped => Prepared::Stopped,
            Step::Failed => Prepared::Failed,
        }
    }

    /// Makes the steps for the claimed task until its kernel begins, or it must wait.
    fn prepare(&self, seat: &mut WorkerSeat<D>, t: Task, tray: &mut Tray) -> Prepared
        requires workplace { IsProperWorkplace self.now }
        requires claimed { IsSeated self.now (HasClaimedRow self.now.worker t) seat.old }
        ensures row { IsSeated self.now
            (λ r. AfterPrepare D.held (board_key self.now) self.now.worker t r result) seat.new }
        ensures not_further { result ≢ Prepared.Further }
        ensures heard { result ≡ Prepared.Waits → is_some seat.new.facts.heard ≡ true }
        ensures events { GoesOn self.now.worker seat.old.facts seat.new.facts }
        ensures outside { seat.new.keeps_turn ≡ false }
    {
        for _ in self.rt.forever() {
            match self.advance(seat, t, tray) {
                Prepared::Further => {}
                prepared => return prepared,
            }
        }
        unreachable!()
    }

    /// Puts these tasks into the worker's queue, where such are shared. Where there is no memory for it, the worker fails.
    fn deal(&self, seat: &mut WorkerSeat<D>, ready: &mut ReadyFrom<'_>, released: &[Task])
        requires workplace { IsWorkplace self.now }
        requires ready { IsItsSource (policy_here self.now) self.now.worker.0 ready.old }
        requires free { IsSeated self.now IsFreeRow seat.old }
        ensures ready { StaysItsSource ready.old ready.new }
        ensures dealt { is_shared ready.old ≡ true
            → LeavesFault seat.new.facts ⊎ PutsAll ready.old released.now ready.new }
        ensures fault { LeavesFault seat.old.facts → LeavesFault seat.new.facts }
        ensures row { IsSeated self.now IsFreeRow seat.new }
        ensures events { GoesOn self.now.worker seat.old.facts seat.new.facts }
    {
        if !ready.is_shared() {
            return;
        }
        if put_all(self.rt, ready, released).is_err() {
            self.fail(seat);
        }
    }

    /// Ends the task that runs, with its results, and puts what the end has released into the worker's queue, where such are
    /// shared: it takes its next task from there, and in that turn wakes another for those that are left.
    fn end_and_deal(
        &self,
        seat: &mut WorkerSeat<D>,
        ready: &mut ReadyFrom<'_>,
        t: Task,
        results: Frame,
        tray: &mut Tray,
    )
        requires workplace { IsProperWorkplace self.now }
        requires ready { IsItsSource (policy_here self.now) self.now.worker.0 ready.old }
        requires runs { IsSeated self.now (RunsRow self.now.worker t) seat.old }
        requires results { IsSeated self.now
            (λ r. AreDone D.held (board_key self.now) self.now.worker t r results.slots) seat.old }
        ensures ready { StaysItsSource ready.old ready.new }
        ensures released { policy_here self.now ≢ Prio → PutsReleased t self.now.worker
            seat.old.facts seat.new.facts ready.old ready.new }
        ensures row { IsSeated self.now IsFreeRow seat.new }
        ensures events { GoesOn self.now.worker seat.old.facts seat.new.facts }
    {
        let mut released = mem::replace(&mut tray.released, Vec::new(self.alloc));
        released.clear();
        self.finish(seat, t, results, tray, &mut released);
        self.deal(seat, ready, &released);
        tray.released = released;
    }

    /// Runs the kernel of a task that has begun, outside of any turn, and ends the task. The kernel's cost.
    fn run_kernel<C: Codelets, G: Gate>(
        &self,
        seat: &mut WorkerSeat<D>,
        ready: &mut ReadyFrom<'_>,
        codelets: &C,
        gate: &G,
        t: Task,
        taken: Frame,
        tray: &mut Tray,
    )
        requires workplace { IsProperWorkplace self.now }
        requires ready { IsItsSource (policy_here self.now) self.now.worker.0 ready.old }
        requires outside { seat.old.keeps_turn ≡ false }
        requires lawful { IsLawful out C.has self.now.program.now }
        requires task { t.0 < length self.now.program.now.tasks }
        requires runs { IsSeated self.now
            (λ r. HasOperands D.held (board_key self.now) self.now.worker t r taken) seat.old }
        ensures ready { StaysItsSource ready.old ready.new }
        ensures row { IsSeated self.now IsFreeRow seat.new }
        ensures events { GoesOn self.now.worker seat.old.facts seat.new.facts }
    {
        match compute(self.alloc, self.program, codelets, gate, t, taken) {
            Ok(results) => self.end_and_deal(seat, ready, t, results, tray),
            Err(_) => self.fail(seat),
        }
    }

    /// The worker has claimed a task: brings it to its end, lets it go where it fails, or waits with it. The stage at which it is
    /// then.
    fn carry_out<C: Codelets, G: Gate>(
        &self,
        seat: &mut WorkerSeat<D>,
        ready: &mut ReadyFrom<'_>,
        codelets: &C,
        gate: &G,
        t: Task,
        tray: &mut Tray,
    ) -> Stage
        requires workplace { IsProperWorkplace self.now }
        requires ready { IsItsSource (policy_here self.now) self.now.worker.0 ready.old }
        requires lawful { IsLawful out C.has self.now.program.now }
        requires claimed { IsSeated self.now (HasClaimedRow self.now.worker t) seat.old }
        ensures ready { StaysItsSource ready.old ready.new }
        ensures row { IsSeated self.now (IsRowAt self.now.worker result) seat.new }
        ensures heard { HasHeard result seat.new.facts }
        ensures events { GoesOn self.now.worker seat.old.facts seat.new.facts }
        ensures outside { result ≢ Stage.Fresh → seat.new.keeps_turn ≡ false }
    {
        match self.prepare(seat, t, tray) {
            Prepared::Begun(taken) => {
                self.run_kernel(seat, ready, codelets, gate, t, taken, tray);
                Stage::Fresh
            }
            Prepared::Waits => Stage::Blocked(t),
            Prepared::Failed => Stage::Fresh,
            Prepared::Stopped => Stage::Stopped,
            Prepared::Further => unreachable!(),
        }
    }

    /// The worker looks for a task and carries it out, as far as it can. The stage at which it is then.
    fn look<C: Codelets, G: Gate>(
        &self,
        seat: &mut WorkerSeat<D>,
        ready: &mut ReadyFrom<'_>,
        codelets: &C,
        gate: &G,
        tray: &mut Tray,
    ) -> Stage
        requires workplace { IsProperWorkplace self.now }
        requires ready { IsItsSource (policy_here self.now) self.now.worker.0 ready.old }
        requires lawful { IsLawful out C.has self.now.program.now }
        requires free { IsSeated self.now IsFreeRow seat.old }
        ensures ready { StaysItsSource ready.old ready.new }
        ensures row { IsSeated self.now (IsRowAt self.now.worker result) seat.new }
        ensures heard { HasHeard result seat.new.facts }
        ensures events { GoesOn self.now.worker seat.old.facts seat.new.facts }
        ensures outside { result ≢ Stage.Fresh → seat.new.keeps_turn ≡ false }
    {
        match self.pick(seat, ready) {
            Picked::Task(t) => self.carry_out(seat, ready, codelets, gate, t, tray),
            Picked::Nothing => Stage::Idle,
            Picked::Failed => Stage::Fresh,
            Picked::Over => Stage::Stopped,
        }
    }

    /// The worker goes on from a stage: with the task that it has claimed, or to look for one.
    fn resume<C: Codelets, G: Gate>(
        &self,
        seat: &mut WorkerSeat<D>,
        ready: &mut ReadyFrom<'_>,
        codelets: &C,
        gate: &G,
        stage: Stage,
        tray: &mut Tray,
    ) -> Stage
        requires workplace { IsProperWorkplace self.now }
        requires ready { IsItsSource (policy_here self.now) self.now.worker.0 ready.old }
        requires outside { seat.old.keeps_turn ≡ false }
        requires lawful { IsLawful out C.has self.now.program.now }
        requires row { IsSeated self.now (IsRowAt self.now.worker stage) seat.old }
        ensures ready { StaysItsSource ready.old ready.new }
        ensures row { IsSeated self.now (IsRowAt self.now.worker result) seat.new }
        ensures heard { HasHeard result seat.new.facts }
        ensures events { GoesOn self.now.worker seat.old.facts seat.new.facts }
        ensures outside { result ≢ Stage.Fresh → seat.new.keeps_turn ≡ false }
    {
        match stage {
            Stage::Fresh | Stage::Idle => self.look(seat, ready, codelets, gate, tray),
            Stage::Blocked(t) => self.carry_out(seat, ready, codelets, gate, t, tray),
            Stage::Stopped => Stage::Stopped,
        }
    }

    /// The worker's work from a stage on, until it can't go on, or all tasks are done or a fault is kept and it has stopped. The
    /// stage at which it is then. It may wait for its turn, and doesn't rest.
    ///
    /// What it does to the board it does in its turns, each with one event at most, so what is said of the board holds however
    /// the turns of the workers fall. Its kernels run outside of them, between the two calls of the gate. The tray is its
    /// thread's, and stays from one stretch of its work to the next.
    pub fn work<C: Codelets, G: Gate>(
        &self,
        seat: &mut WorkerSeat<D>,
        ready: &mut ReadyFrom<'_>,
        codelets: &C,
        gate: &G,
        stage: Stage,
        tray: &mut Tray,
    ) -> Stage
        requires workplace { IsProperWorkplace self.now }
        requires ready { IsItsSource (policy_here self.now) self.now.worker.0 ready.old }
        requires outside { seat.old.keeps_turn ≡ false }
        requires lawful { IsLawful out C.has self.now.program.now }
        requires row { IsSeated self.now (IsRowAt self.now.worker stage) seat.old }
        ensures ready { StaysItsSource ready.old ready.new }
        ensures row { IsSeated self.now (IsRowAt self.now.worker result) seat.new }
        ensures looked { result ≢ Stage.Fresh }
        // Where it can't go on, its seat has heard the bell.
        ensures heard { HasHeard result seat.new.facts }
        // Of its events none that it had is gone or has another place.
        ensures events { GoesOn self.now.worker seat.old.facts seat.new.facts }
        ensures outside { seat.new.keeps_turn ≡ false }
    {
        let mut stage = self.resume(seat, ready, codelets, gate, stage, tray);
        for _ in self.rt.forever() {
            if stage != Stage::Fresh {
                return stage;
            }
            stage = self.look(seat, ready, codelets, gate, tray);
        }
        unreachable!()
    }
}
