//! How a worker gets its next task.

ghost use Rattle.std.specs.Prelude.{◌≡◌, ◌<◌, ◌≤◌, IfNone, IfSome, IsTrue, None, Some, is_some};
ghost use Rattle.sj_base.specs.declared.mode.Policy.TheVariants.{Prio};
ghost use Rattle.sj_board.specs.Board.{IsOver};
ghost use Rattle.sj_board.specs.Passing.{HasLost};
ghost use Rattle.sj_engine.specs.Looking.{CannotClaim, HasLooked, IsLeftTo, NoneIsLeftTo};
ghost use Rattle.sj_engine.specs.Picking.{AfterClaim, AfterPick, PickMakes};
ghost use Rattle.sj_engine.specs.Stage.{IsFreeRow, IsStoppedRow, given_hand, row_in};
ghost use Rattle.sj_engine.specs.Turn.{IsTurnOf, IsWorkerOf, NothingHappens};

use crate::shared_board::SharedBoard;
use sj_base::ids::{Task, Worker};
use sj_board::refusal::ClaimRefusal;
use sj_edge::disk::Disk;
use std::alloc::Global;

/// What a worker without a task finds.
#[derive(Clone, Copy, Debug, PartialEq, Eq)]
pub enum Picked {
    /// It has claimed this task.
    Task(Task),
    /// There is nothing that it may claim now.
    Nothing,
    /// It has failed for want of memory.
    Failed,
    /// All tasks are done or a fault is kept, and it has stopped.
    Over,
}

/// The most tasks that a look tries, and the fewest, where so many are left: tasks that can't be claimed now, as those of a
/// commuting cell that is in use, aren't to hide the others, nor is a look in vain to keep the turn for long.
pub(crate) const MOST_TRIED: usize = 64;

const FEWEST: usize = 4;

/// How many tasks a look tries after so many that were in vain: fewer after each, and the most again after 256. Constant time.
pub(crate) fn tries_after(misses: u8) -> usize
    ensures enough { 4 ≤ result }
    ensures few { result ≤ 64 }
{
    match misses {
        0 => MOST_TRIED,
        1 => 32,
        2 => 16,
        3 => 8,
        _ => FEWEST,
    }
}

/// The misses after a look that ended with a task behind so many others: none where the fewest tries hadn't found it. Constant
/// time.
fn misses_after(misses: u8, passed: usize) -> u8
    ensures kept { passed < 4 → result ≡ misses }
    ensures none { 4 ≤ passed → result ≡ 0 }
{
    if passed < FEWEST { misses } else { 0 }
}

impl<D: Disk> SharedBoard<D> {
    /// A worker claims the task that it was given; where the claim can't be made, the task goes back. The cost of `claim`.
    fn claim_given(&mut self, alloc: Global, w: Worker, t: Task) -> Picked
        requires worker { IsWorkerOf self.old w }
        requires by_urgency { self.old.run.machine.policy ≡ Prio }
        requires given { (row_in self.old w).hand ≡ given_hand t }
        requires no_fault { self.old.fault ≡ None }
        ensures turn { IsTurnOf D.faults D.mismatches w self.old self.new }
        ensures row { AfterClaim w (row_in self.new w) result }
        ensures event { PickMakes w self.old self.new result }
        ensures no_fault { result ≡ Picked.Nothing → self.new.fault ≡ None }
        ensures failed { result ≡ Picked.Failed → IsTrue (is_some self.new.fault) }
        ensures cannot { result ≡ Picked.Nothing → CannotClaim self.old w t }
        ensures back { result ≡ Picked.Nothing → HasLost (Some t) self.new.pool self.old.pool }
    {
        self.board.is_sound();
        match self.board.claim(alloc, t, w) {
            Ok(()) => Picked::Task(t),
            Err(ClaimRefusal::NotNow(_)) => {
                self.put_back(w, t);
                Picked::Nothing
            }
            Err(ClaimRefusal::OutOfMemory) => {
                self.put_back(w, t);
                self.fail_without_memory(w);
                Picked::Failed
            }
        }
    }

    /// A worker puts the task that it was given back. The cost of `give_back`.
    fn put_back(&mut self, w: Worker, t: Task)
        requires worker { IsWorkerOf self.old w }
        requires by_urgency { self.old.run.machine.policy ≡ Prio }
        requires given { (row_in self.old w).hand ≡ given_hand t }
        ensures turn { IsTurnOf D.faults D.mismatches w self.old self.new }
        ensures row { IsFreeRow (row_in self.new w) }
        ensures no_event { NothingHappens self.old self.new }
        ensures fault { self.new.fault ≡ self.old.fault }
        ensures back { HasLost (Some t) self.new.pool self.old.pool }
    {
        self.board.is_sound();
        self.board.give_back(t, w);
    }

    /// A worker is given a task that it hasn't passed, where there is one. The cost of `next`.
    fn give_next(&mut self, w: Worker, passed: &[Task]) -> Option<Task>
        requires worker { IsWorkerOf self.old w }
        requires by_urgency { self.old.run.machine.policy ≡ Prio }
        requires free { IsFreeRow (row_in self.old w) }
        ensures turn { IsTurnOf D.faults D.mismatches w self.old self.new }
        ensures some { IfSome result (λ t. (row_in self.new w).hand ≡ given_hand t) }
        ensures none { IfNone result (IsFreeRow (row_in self.new w)) }
        ensures no_event { NothingHappens self.old self.new }
        ensures fault { self.new.fault ≡ self.old.fault }
        ensures left { IfSome result (IsLeftTo self.old w passed.now) }
        ensures none_left { result ≡ None → NoneIsLeftTo self.old w passed.now }
        ensures lost { HasLost result self.old.pool self.new.pool }
    {
        self.board.is_sound();
        self.board.next(w, passed)
    }

    /// Notes that a look ended with a task behind so many others. Constant time. A count that stays isn't written: the value is
    /// moved next, and would wait for the byte.
    pub(crate) fn note_found(&mut self, passed: usize)
        ensures { self.new ≡ self.old }
    {
        let misses = misses_after(self.misses, passed);
        if misses != self.misses {
            self.misses = misses;
        }
    }

    /// Notes that a look was in vain. Constant time.
    pub(crate) fn note_miss(&mut self)
        ensures { self.new ≡ self.old }
    {
        self.misses = self.misses.wrapping_add(1);
    }

    /// The tries of a worker to claim a task, each of another task: a task that can't be claimed goes back, and is passed.
    fn claim_some(&mut self, alloc: Global, w: Worker) -> Picked
        requires worker { IsWorkerOf self.old w }
        requires by_urgency { self.old.run.machine.policy ≡ Prio }
        requires free { IsFreeRow (row_in self.old w) }
        requires no_fault { self.old.fault ≡ None }
        ensures turn { IsTurnOf D.faults D.mismatches w self.old self.new }
        ensures row { AfterClaim w (row_in self.new w) result }
        ensures event { PickMakes w self.old self.new result }
        ensures failed { result ≡ Picked.Failed → IsTrue (is_some self.new.fault) }
        ensures looked { result ≡ Picked.Nothing → HasLooked self.old w }
    {
        let tries = tries_after(self.misses);
        let mut passed = [Task(0); MOST_TRIED];
        for i in 0..tries {
            let Some(t) = self.give_next(w, &passed[..i]) else {
                return Picked::Nothing;
            };
            match self.claim_given(alloc, w, t) {
                Picked::Nothing => {}
                picked => {
                    self.note_found(i);
                    return picked;
                }
            }
            passed[i] = t;
        }
        self.note_miss();
        Picked::Nothing
    }

    /// A worker without a task stops, since the run is over. Constant time.
    pub(crate) fn stop(&mut self, w: Worker) -> Picked
        requires worker { IsWorkerOf self.old w }
        requires free { IsFreeRow (row_in self.old w) }
        requires over { IsOver self.old }
        ensures turn { IsTurnOf D.faults D.mismatches w self.old self.new }
        ensures over { result ≡ Picked.Over }
        ensures row { IsStoppedRow (row_in self.new w) }
        ensures no_event { NothingHappens self.old self.new }
        ensures still_over { IsOver self.new }
    {
        self.board.is_sound();
        self.board.stop(w);
        Picked::Over
    }

    /// Under `prio` a worker without a task claims one of those that are ready, or stops where the run is over. It finds nothing
    /// only where four different tasks that are ready and fit its node, or all of them, can't be claimed now. At most 64 times
    /// the costs of `next` and `claim`; in a row of looks in vain, about four times.
    pub fn pick(&mut self, alloc: Global, w: Worker) -> Picked
        requires worker { IsWorkerOf self.old w }
        requires by_urgency { self.old.run.machine.policy ≡ Prio }
        requires free { IsFreeRow (row_in self.old w) }
        ensures turn { IsTurnOf D.faults D.mismatches w self.old self.new }
        ensures row { AfterPick w (row_in self.new w) result }
        ensures event { PickMakes w self.old self.new result }
        ensures failed { result ≡ Picked.Failed → IsTrue (is_some self.new.fault) }
        ensures over { result ≡ Picked.Over → IsOver self.new }
        ensures looked { result ≡ Picked.Nothing → HasLooked self.old w }
    {
        if self.board.failed() || self.board.all_done() {
            return self.stop(w);
        }
        self.claim_some(alloc, w)
    }
}
