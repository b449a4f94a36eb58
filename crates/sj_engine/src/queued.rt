//! How a worker gets its next task where ready tasks wait in shared queues.

ghost use Rattle.std.specs.Prelude.{◌≡◌, ◌≢◌, ◌≤◌, [], IsTrue, is_some, take, true};
ghost use Rattle.sj_base.specs.declared.mode.Policy.TheVariants.{Prio};
ghost use Rattle.sj_board.specs.Board.{IsOver};
ghost use Rattle.sj_engine.specs.Picking.{AfterClaim, AfterPick, PickMakes};
ghost use Rattle.sj_engine.specs.Queued.{AccountsForNumbers, AfterTrying, CannotHave, IsLookOf, IsNotNeeded, PicksOrFails, TryingMakes};
ghost use Rattle.sj_engine.specs.Ready.{IsPassOfQueues, StaysItsSource, is_shared};
ghost use Rattle.sj_engine.specs.Stage.{IsFreeRow, row_in};
ghost use Rattle.sj_engine.specs.Turn.{IsTurnOf, IsWorkerOf};

use crate::dealing::put_all;
use crate::picking::{MOST_TRIED, Picked, tries_after};
use crate::ready::ReadyFrom;
use crate::shared_board::SharedBoard;
use crate::workplace::Workplace;
use sj_base::ids::{Task, Worker};
use sj_board::claimable::Claimable;
use sj_board::refusal::ClaimRefusal;
use sj_edge::disk::Disk;
use std::alloc::Global;
use std::sync::Wait;

/// What becomes of a number that a worker has taken from a queue.
#[derive(Clone, Copy, Debug, PartialEq, Eq)]
pub enum Tried {
    /// The worker has claimed the task.
    Claimed,
    /// It isn't needed: another has claimed the task, or a fault is kept.
    Dropped,
    /// The worker can't claim the task, for its node is too small or the claim can't be made now. It is to be put back.
    Kept,
    /// The worker has failed for want of memory.
    Failed,
}

impl<D: Disk> SharedBoard<D> {
    /// A worker claims the task whose number it has taken from a queue, where it may. The cost of `claim`.
    fn claim_number(&mut self, alloc: Global, w: Worker, t: Task) -> Tried
        requires worker { IsWorkerOf self.old w }
        requires free { IsFreeRow (row_in self.old w) }
        requires queues { self.old.run.machine.policy ≢ Prio }
        ensures turn { IsTurnOf D.faults D.mismatches w self.old self.new }
        ensures row { AfterTrying w t (row_in self.new w) result }
        ensures event { TryingMakes w t self.old self.new result }
        ensures failed { result ≡ Tried.Failed → IsTrue (is_some self.new.fault) }
        ensures dropped { result ≡ Tried.Dropped → IsNotNeeded self.old t }
        ensures kept { result ≡ Tried.Kept → CannotHave self.old w t }
        ensures same { result ≢ Tried.Claimed → result ≢ Tried.Failed → self.new ≡ self.old }
    {
        self.board.is_sound();
        match self.board.may_claim(t, w) {
            Claimable::Stale | Claimable::Closed => return Tried::Dropped,
            Claimable::TooBig => return Tried::Kept,
            Claimable::Yes => {}
        }
        match self.board.claim(alloc, t, w) {
            Ok(()) => Tried::Claimed,
            Err(ClaimRefusal::NotNow(_)) => Tried::Kept,
            Err(ClaimRefusal::OutOfMemory) => {
                self.fail_without_memory(w);
                Tried::Failed
            }
        }
    }
}

impl<R: Wait, D: Disk> Workplace<'_, R, D> {
    /// The tries of a worker to claim a task whose number it takes from the queues, in its turn. Those that it is to put back are
    /// held.
    fn try_numbers(
        &self,
        board: &mut SharedBoard<D>,
        ready: &mut ReadyFrom<'_>,
        held: &mut [Task; MOST_TRIED],
    ) -> (Picked, usize)
        requires worker { IsWorkerOf board.old self.now.worker }
        requires free { IsFreeRow (row_in board.old self.now.worker) }
        requires queues { board.old.run.machine.policy ≢ Prio }
        requires of { IsPassOfQueues ready.old }
        requires shared { is_shared ready.old ≡ true }
        ensures turn { IsTurnOf D.faults D.mismatches self.now.worker board.old board.new }
        ensures row { AfterClaim self.now.worker (row_in board.new self.now.worker) result.0 }
        ensures event { PickMakes self.now.worker board.old board.new result.0 }
        ensures failed { result.0 ≡ Picked.Failed → IsTrue (is_some board.new.fault) }
        ensures stays { StaysItsSource ready.old ready.new }
        ensures of { IsPassOfQueues ready.new }
        ensures shared { is_shared ready.new ≡ true }
        ensures few { result.1 ≤ 64 }
        ensures numbers { IsLookOf result.0 → AccountsForNumbers board.old
            ready.old (take result.1 held.new) result.0 ready.new }
    {
        let tries = tries_after(board.misses);
        let mut kept = 0;
        for _i in 0..tries {
            let Some(t) = ready.take(self.rt) else {
                return (Picked::Nothing, kept);
            };
            match board.claim_number(self.alloc, self.worker, t) {
                Tried::Claimed => {
                    board.note_found(kept);
                    return (Picked::Task(t), kept);
                }
                Tried::Failed => return (Picked::Failed, kept),
                Tried::Dropped => {}
                Tried::Kept => {
                    held[kept] = t;
                    kept += 1;
                }
            }
        }
        board.note_miss();
        (Picked::Nothing, kept)
    }

    /// A worker without a task claims one whose number it takes from the queues, or stops where the run is over. The numbers of
    /// those that it can't claim are put back in the same turn. At most 64 times the costs of `take`, `put` and `claim`.
    ///
    /// It takes them in its turn, where it has just been as a rule: one that waits for its turn with a number would keep the
    /// task from all others.
    pub(crate) fn pick_queued(
        &self,
        board: &mut SharedBoard<D>,
        ready: &mut ReadyFrom<'_>,
    ) -> Picked
        requires worker { IsWorkerOf board.old self.now.worker }
        requires free { IsFreeRow (row_in board.old self.now.worker) }
        requires queues { board.old.run.machine.policy ≢ Prio }
        requires of { IsPassOfQueues ready.old }
        requires shared { is_shared ready.old ≡ true }
        ensures turn { IsTurnOf D.faults D.mismatches self.now.worker board.old board.new }
        ensures row { AfterPick self.now.worker (row_in board.new self.now.worker) result }
        ensures event { PicksOrFails self.now.worker board.old board.new result }
        ensures failed { result ≡ Picked.Failed → IsTrue (is_some board.new.fault) }
        ensures over { result ≡ Picked.Over → IsOver board.new }
        ensures stays { StaysItsSource ready.old ready.new }
        ensures numbers { IsLookOf result → AccountsForNumbers board.old
            ready.old [] result ready.new }
    {
        if board.board.failed() || board.board.all_done() {
            return board.stop(self.worker);
        }
        let mut held = [Task(0); MOST_TRIED];
        let (picked, kept) = self.try_numbers(board, ready, &mut held);
        if put_all(self.rt, ready, &held[..kept]).is_err() {
            board.fail_without_memory(self.worker);
            return Picked::Failed;
        }
        picked
    }
}
