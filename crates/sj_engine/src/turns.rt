//! The turns of a worker at the desk: each is one look at the board, or one event on it.

ghost use Rattle.std.specs.Prelude.{[], ◌≡◌, ◌≢◌, ◌+◌, ◌-◌, ◌^◌, min, ◌≤◌, IfSome, IsSomeAnd, IsTrue, MatchBool, MatchOption, None, Some, false, is_some, true};
ghost use Rattle.sj_base.specs.Array.{Array};
ghost use Rattle.sj_board.specs.Tiles.{array_in};
ghost use Rattle.sj_board.specs.Standing.{is_node};
ghost use Rattle.sj_desk.specs.Seats.{rung};
ghost use Rattle.sj_engine.specs.Bell.{HasHeardBell, HasRung, IsChange, MindsBell, is_claimed, noted_after, noted_for_rest, wakes_after, wakes_for_rest};
ghost use Rattle.sj_engine.specs.Picking.{AfterPick, finds_nothing, finds_task};
ghost use Rattle.sj_engine.specs.Stage.{AreDone, GoesOn, HasClaimedRow, HasLeft, HoldsRow, IsCarried, IsFetchedThrough, IsFreeRow, IsStoredThrough, MovesRow, RunsRow, row_in};
ghost use Rattle.sj_engine.specs.Stepping.{AfterStep, HasDone, goes_on, has_to_wait};
ghost use Rattle.sj_base.specs.declared.mode.Policy.TheVariants.{Prio};
ghost use Rattle.sj_engine.specs.Queued.{AccountsForNumbers, HasLookedThrough, IsLookOf, LeavesFault, ListsReleased, PicksOrFails};
ghost use Rattle.sj_engine.specs.Ready.{IsItsSource, StaysItsSource, is_shared};
ghost use Rattle.sj_engine.specs.Turn.{IsTurnOf, IsWorkerOf, MayLeave};
ghost use Rattle.sj_board.specs.Board.{IsOver};
ghost use Rattle.sj_engine.specs.Workplace.{IsSeated, IsWorkplace, board_key, policy_here};

use crate::noted_board::NotedBoard;
use crate::picking::Picked;
use crate::ready::ReadyFrom;
use crate::shared_board::SharedBoard;
use crate::sleepers::Change;
use crate::stepping::Step;
use crate::tray::Tray;
use crate::worker_seat::WorkerSeat;
use crate::workplace::Workplace;
use sj_base::ids::Task;
use sj_base::tile::Tile;
use sj_codelet::frame::Frame;
use sj_core::progress::Transfer;
use sj_disk::refusal::DiskRefusal;
use sj_disk::unit::Unit;
use sj_edge::disk::Disk;
use sj_machine::few_cells::MOST_OPERANDS;
use std::sync::{Arc, Wait};

/// What a step did for those that rest.
fn change_of<D: Disk>(step: &Step<D>) -> Change
    ensures { HasDone step.now result }
{
    match step {
        Step::Moves { .. } | Step::Writes { .. } | Step::Reads { .. } => Change::Begun,
        _ => Change::Freed,
    }
}

/// Whether a worker has claimed a task, and begins the next turn at once.
fn finds_task(picked: &Picked) -> bool
    ensures { result ≡ finds_task picked.now }
{
    match picked {
        Picked::Task(_) => true,
        Picked::Nothing | Picked::Failed | Picked::Over => false,
    }
}

/// How many tasks are ready and not claimed after a look by which one of them was claimed, or none. Under `prio` they aren't
/// counted.
fn waiting_after(waiting: u64, picked: &Picked, ready: &ReadyFrom<'_>) -> u64
    ensures none { finds_task picked.now ≡ false → result ≡ waiting }
    ensures claimed { finds_task picked.now ≡ true → is_shared ready.now ≡ true
        → result ≡ waiting - 1 }
{
    if finds_task(picked) && ready.is_shared() {
        return waiting.saturating_sub(1);
    }
    waiting
}

/// How many are it once so many more are released.
fn waiting_with(waiting: u64, released: usize) -> u64
    ensures { result ≡ min (waiting + released) (2 ^ 64 - 1) }
{
    waiting.saturating_add(released as u64)
}

/// Whether a worker begins the next turn at once after a step.
fn goes_on<D: Disk>(step: &Step<D>) -> bool
    ensures { result ≡ goes_on step.now }
{
    match step {
        Step::Moves { .. } | Step::Discarded => true,
        _ => false,
    }
}

/// How many tiles that turns made needless a worker keeps after a step: all where it goes on at once; as many as it may fetch
/// where it prepares its task; none where a kernel runs next, to which it leaves the memory, or where it lets its task go.
fn most_kept<D: Disk>(step: &Step<D>) -> usize {
    match step {
        Step::Moves { .. } | Step::Discarded => usize::MAX,
        Step::Writes { .. } | Step::Reads { .. } | Step::Waits => MOST_OPERANDS,
        Step::Begun(_) | Step::Stopped | Step::Failed => 0,
    }
}

impl<R, D: Disk> Workplace<'_, R, D> {
    /// Rings a bell, or none.
    fn ring(&self, seat: &mut WorkerSeat<D>, bell: Option<u8>)
        requires of_this_desk { seat.old.facts.desk ≡ Some self.now.desk.now }
        requires outside { seat.old.keeps_turn ≡ false }
        ensures rung { MatchOption bell (seat.new.facts ≡ seat.old.facts)
            (λ b. seat.new.facts ≡ rung seat.old.facts b) }
        ensures outside { seat.new.keeps_turn ≡ false }
    {
        if let Some(bell) = bell {
            seat.ring(self.desk, bell);
        }
    }

    /// Ends a turn that did this, and wakes the next worker that is to look again. Where there is none, a worker that goes on
    /// keeps the turn.
    fn end_turn(
        &self,
        seat: &mut WorkerSeat<D>,
        mut noted: NotedBoard<D>,
        change: Change,
        goes_on: bool,
    )
        requires desk { seat.old.facts.desk ≡ Some self.now.desk.now }
        requires number { seat.old.facts.number ≡ self.now.worker.0 }
        requires turn { IsSomeAnd seat.old.facts.found
            (MayLeave D.size D.faults D.mismatches D.held self.now.desk.now self.now.worker noted) }
        requires did { IsSomeAnd seat.old.facts.found
            (λ found. IsChange found noted change) }
        ensures left { HasLeft self.now.desk.now self.now.worker
            (noted_after self.now.worker change noted) seat.new.facts }
        ensures rung { HasRung (wakes_after self.now.worker change noted)
            seat.old.facts seat.new.facts }
        ensures outside { goes_on ≡ false → seat.new.keeps_turn ≡ false }
    {
        let woken = noted.change(self.worker, change);
        if goes_on && woken.is_none() {
            seat.leave_and_keep(self.desk, noted);
            return;
        }
        seat.leave(self.desk, noted);
        self.ring(seat, woken);
    }

    /// Ends a turn in which the worker found nothing to do, with a claimed task or without one. The seat has heard its bell.
    fn end_turn_to_rest(&self, seat: &mut WorkerSeat<D>, mut noted: NotedBoard<D>, claimed: bool)
        requires desk { seat.old.facts.desk ≡ Some self.now.desk.now }
        requires number { seat.old.facts.number ≡ self.now.worker.0 }
        requires turn { IsSomeAnd seat.old.facts.found
            (MayLeave D.size D.faults D.mismatches D.held self.now.desk.now self.now.worker noted) }
        requires claimed { claimed ≡ is_claimed noted.board self.now.worker }
        ensures left { HasLeft self.now.desk.now self.now.worker
            (noted_for_rest self.now.worker self.now.bell claimed noted) seat.new.facts }
        ensures rung { HasRung (wakes_for_rest self.now.worker claimed noted)
            seat.old.facts seat.new.facts }
        ensures heard { is_some seat.new.facts.heard ≡ true }
        ensures bell { HasHeardBell self.now.bell seat.new.facts }
        ensures outside { seat.new.keeps_turn ≡ false }
    {
        let woken = noted.rest(self.worker, self.bell, claimed);
        seat.listen(self.desk, self.bell);
        seat.leave(self.desk, noted);
        self.ring(seat, woken);
    }
}

impl<R: Wait, D: Disk> Workplace<'_, R, D> {
    /// Claims a task in the worker's turn, or stops: one of the board's, or one of the shared queues.
    fn pick_from(&self, board: &mut SharedBoard<D>, ready: &mut ReadyFrom<'_>) -> Picked
        requires worker { IsWorkerOf board.old self.now.worker }
        requires free { IsFreeRow (row_in board.old self.now.worker) }
        requires ready { IsItsSource board.old.run.machine.policy self.now.worker.0 ready.old }
        ensures turn { IsTurnOf D.faults D.mismatches self.now.worker board.old board.new }
        ensures row { AfterPick self.now.worker (row_in board.new self.now.worker) result }
        ensures event { PicksOrFails self.now.worker board.old board.new result }
        ensures failed { result ≡ Picked.Failed → IsTrue (is_some board.new.fault) }
        ensures over { result ≡ Picked.Over → IsOver board.new }
        ensures ready { StaysItsSource ready.old ready.new }
        ensures numbers { is_shared ready.old ≡ true → IsLookOf result → AccountsForNumbers
            board.old ready.old [] result ready.new }
    {
        if ready.is_shared() {
            return self.pick_queued(board, ready);
        }
        board.pick(self.alloc, self.worker)
    }

    /// Claims a task that is ready, or stops where all is done. Where there is nothing to claim, the seat has heard the bell.
    pub fn pick(&self, seat: &mut WorkerSeat<D>, ready: &mut ReadyFrom<'_>) -> Picked
        requires workplace { IsWorkplace self.now }
        requires free { IsSeated self.now IsFreeRow seat.old }
        requires ready { IsItsSource (policy_here self.now) self.now.worker.0 ready.old }
        ensures ready { StaysItsSource ready.old ready.new }
        ensures numbers { policy_here self.now ≢ Prio → IsLookOf result
            → HasLookedThrough seat.old.facts ready.old result ready.new }
        ensures row { IsSeated self.now (λ r. AfterPick self.now.worker r result) seat.new }
        ensures events { GoesOn self.now.worker seat.old.facts seat.new.facts }
        ensures heard { result ≡ Picked.Nothing → is_some seat.new.facts.heard ≡ true }
        ensures bell { MindsBell self.now.worker self.now.bell
            (finds_nothing result) seat.old.facts seat.new.facts }
        ensures outside { finds_task result ≡ false → seat.new.keeps_turn ≡ false }
    {
        let mut noted = seat.enter(self.rt, self.desk);
        let picked = self.pick_from(&mut noted.board, ready);
        if picked == Picked::Nothing {
            self.end_turn_to_rest(seat, noted, false);
            return Picked::Nothing;
        }
        let goes_on = finds_task(&picked);
        let waiting = waiting_after(noted.waiting, &picked, &*ready);
        noted.waiting = waiting;
        self.end_turn(seat, noted, Change::Claimed, goes_on);
        picked
    }

    /// Makes the next step for the claimed task. Where the worker must wait, the seat has heard the bell. Tiles that the board
    /// lets go are freed when the turn was given away, but for five at most until the kernel begins, into which the task's own
    /// are fetched.
    pub fn step(&self, seat: &mut WorkerSeat<D>, t: Task, tray: &mut Tray) -> Step<D>
        requires workplace { IsWorkplace self.now }
        requires claimed { IsSeated self.now (HasClaimedRow self.now.worker t) seat.old }
        ensures row { IsSeated self.now
            (λ r. AfterStep D.held (board_key self.now) self.now.worker t r result) seat.new }
        ensures events { GoesOn self.now.worker seat.old.facts seat.new.facts }
        ensures heard { result ≡ Step.Waits → is_some seat.new.facts.heard ≡ true }
        ensures bell { MindsBell self.now.worker self.now.bell
            (has_to_wait result) seat.old.facts seat.new.facts }
        ensures outside { goes_on result ≡ false → seat.new.keeps_turn ≡ false }
    {
        let mut noted = seat.enter(self.rt, self.desk);
        let step = noted.board.step(self.alloc, self.worker, t, tray);
        if let Step::Waits = step {
            self.end_turn_to_rest(seat, noted, true);
            tray.free_outside(most_kept(&step));
            return Step::Waits;
        }
        let change = change_of(&step);
        let goes_on = goes_on(&step);
        self.end_turn(seat, noted, change, goes_on);
        tray.free_outside(most_kept(&step));
        step
    }

    /// Ends a transfer from a node to a node.
    pub fn arrive(&self, seat: &mut WorkerSeat<D>, t: Task, x: Transfer, tile: Arc<Tile>)
        requires workplace { IsWorkplace self.now }
        requires moves { IsSeated self.now (MovesRow self.now.worker t x) seat.old }
        requires node { is_node x.to ≡ true }
        requires tile { IsSeated self.now
            (λ r. IsCarried D.held (board_key self.now) x r tile.value) seat.old }
        ensures row { IsSeated self.now (HasClaimedRow self.now.worker t) seat.new }
        ensures events { GoesOn self.now.worker seat.old.facts seat.new.facts }
        ensures bell { MindsBell self.now.worker self.now.bell false seat.old.facts seat.new.facts }
    {
        let mut noted = seat.enter(self.rt, self.desk);
        noted.board.arrive(self.worker, t, x, tile);
        self.end_turn(seat, noted, Change::Freed, true);
    }

    /// Puts a disk back on which a tile was stored, and ends its transfer. Whether it did: else the worker has failed.
    pub fn write_out(
        &self,
        seat: &mut WorkerSeat<D>,
        t: Task,
        x: Transfer,
        unit: Unit<D>,
        outcome: Result<(), DiskRefusal>,
    ) -> bool
        requires workplace { IsWorkplace self.now }
        requires disk { is_node x.to ≡ false }
        requires stored { IsSeated self.now (λ r.
            IsStoredThrough D.size D.faults D.mismatches D.held
            (board_key self.now) self.now.worker t x r unit outcome) seat.old }
        ensures row { IsSeated self.now
            (λ r. MatchBool result (HasClaimedRow self.now.worker t r) (IsFreeRow r)) seat.new }
        ensures events { GoesOn self.now.worker seat.old.facts seat.new.facts }
        ensures bell { MindsBell self.now.worker self.now.bell false seat.old.facts seat.new.facts }
        ensures outside { result ≡ false → seat.new.keeps_turn ≡ false }
    {
        let mut noted = seat.enter(self.rt, self.desk);
        let written = noted.board.write_out(self.worker, t, x, unit, outcome);
        self.end_turn(seat, noted, Change::Freed, written);
        written
    }

    /// Puts a disk back from which a tile was fetched, and ends its transfer. Whether it did: else the worker has failed.
    pub fn read_in(
        &self,
        seat: &mut WorkerSeat<D>,
        t: Task,
        x: Transfer,
        unit: Unit<D>,
        outcome: Result<(), DiskRefusal>,
        tile: Option<Arc<Tile>>,
    ) -> bool
        requires workplace { IsWorkplace self.now }
        requires node { is_node x.to ≡ true }
        requires disk { is_node x.from ≡ false }
        requires fetched { (a : Array) × IsSeated self.now
            (λ r. IsFetchedThrough D.size D.faults D.mismatches D.held
            (board_key self.now) self.now.worker t x r unit outcome a) seat.old }
        requires tile { IfSome (array_in tile) (λ a. IsSeated self.now
            (λ r. IsFetchedThrough D.size D.faults D.mismatches D.held (board_key self.now)
            self.now.worker t x r unit outcome a) seat.old) }
        ensures row { IsSeated self.now
            (λ r. MatchBool result (HasClaimedRow self.now.worker t r) (IsFreeRow r)) seat.new }
        ensures events { GoesOn self.now.worker seat.old.facts seat.new.facts }
        ensures bell { MindsBell self.now.worker self.now.bell false seat.old.facts seat.new.facts }
        ensures outside { result ≡ false → seat.new.keeps_turn ≡ false }
    {
        let mut noted = seat.enter(self.rt, self.desk);
        let read = noted.board.read_in(self.worker, t, x, unit, outcome, tile);
        self.end_turn(seat, noted, Change::Freed, read);
        read
    }

    /// Puts a disk back as it was, and fails for want of memory.
    pub fn give_unit_up(&self, seat: &mut WorkerSeat<D>, t: Task, x: Transfer, unit: Unit<D>)
        requires workplace { IsWorkplace self.now }
        requires holds { IsSeated self.now (HoldsRow self.now.worker t x unit) seat.old }
        ensures row { IsSeated self.now IsFreeRow seat.new }
        ensures events { GoesOn self.now.worker seat.old.facts seat.new.facts }
        ensures bell { MindsBell self.now.worker self.now.bell false seat.old.facts seat.new.facts }
        ensures outside { seat.new.keeps_turn ≡ false }
    {
        let mut noted = seat.enter(self.rt, self.desk);
        noted.board.give_unit_up(self.worker, t, x, unit);
        self.end_turn(seat, noted, Change::Freed, false);
    }

    /// Ends the task that runs, with its results, and appends the tasks that the end has released to a list. The results' frame
    /// goes back into the tray.
    pub fn finish(
        &self,
        seat: &mut WorkerSeat<D>,
        t: Task,
        results: Frame,
        tray: &mut Tray,
        released: &mut Vec<Task>,
    )
        requires workplace { IsWorkplace self.now }
        requires empty { released.old.items ≡ [] }
        requires runs { IsSeated self.now (RunsRow self.now.worker t) seat.old }
        requires results { IsSeated self.now
            (λ r. AreDone D.held (board_key self.now) self.now.worker t r results.slots) seat.old }
        ensures row { IsSeated self.now IsFreeRow seat.new }
        ensures events { GoesOn self.now.worker seat.old.facts seat.new.facts }
        ensures bell { MindsBell self.now.worker self.now.bell false seat.old.facts seat.new.facts }
        ensures released { policy_here self.now ≢ Prio → ListsReleased t self.now.worker
            released.old.items released.new.items seat.old.facts seat.new.facts }
    {
        let mut noted = seat.enter(self.rt, self.desk);
        let spent = noted.board.finish(self.worker, t, results, released);
        let waiting = waiting_with(noted.waiting, released.len());
        noted.waiting = waiting;
        self.end_turn(seat, noted, Change::Ended, true);
        tray.keep_frame(spent);
    }

    /// Fails for want of memory, and lets the task go.
    pub fn fail(&self, seat: &mut WorkerSeat<D>)
        requires workplace { IsWorkplace self.now }
        requires works { IsSeated self.now (λ r. r.hand.has_stopped ≡ false) seat.old }
        requires none_given { IsSeated self.now (λ r. r.hand.given ≡ None) seat.old }
        requires no_unit { IsSeated self.now (λ r. r.hand.unit ≡ None) seat.old }
        ensures row { IsSeated self.now IsFreeRow seat.new }
        ensures events { GoesOn self.now.worker seat.old.facts seat.new.facts }
        ensures bell { MindsBell self.now.worker self.now.bell false seat.old.facts seat.new.facts }
        ensures outside { seat.new.keeps_turn ≡ false }
        ensures fault { LeavesFault seat.new.facts }
    {
        let mut noted = seat.enter(self.rt, self.desk);
        noted.board.fail_without_memory(self.worker);
        self.end_turn(seat, noted, Change::Ended, false);
    }
}
