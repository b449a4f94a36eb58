//! The end of a worker's task.

ghost use Rattle.std.specs.Prelude.{◌≡◌, ◌≢◌, ◌↔◌, ◌++◌, ◌⊎◌, [], IsTrue, None, OnOk, false, is_some};
ghost use Rattle.std.specs.Option.{option_to_list};
ghost use Rattle.sj_base.specs.declared.ids.Worker.{Worker};
ghost use Rattle.sj_base.specs.declared.mode.Policy.TheVariants.{Prio};
ghost use Rattle.sj_base.specs.declared.trace.Event.TheVariants.{End};
ghost use Rattle.sj_board.specs.Board.{HasTakenReleased, has_released, released_of};
ghost use Rattle.sj_board.specs.BoardRow.{key_of};
ghost use Rattle.sj_engine.specs.Queued.{HasReleased};
ghost use Rattle.sj_engine.specs.Stage.{AreDone, IsFreeRow, RunsRow, row_in};
ghost use Rattle.sj_engine.specs.Turn.{Happens, IsTurnOf, IsWorkerOf, NothingHappens};

use crate::shared_board::SharedBoard;
use sj_base::ids::{Task, Worker};
use sj_base::memory::OutOfMemory;
use sj_board::fault::RunFault;
use sj_codelet::frame::Frame;
use sj_edge::disk::Disk;

impl<D: Disk> SharedBoard<D> {
    /// A worker takes away one of the tasks that its end has released. The cost of `released`.
    fn next_released(&mut self, w: Worker) -> Option<Task>
        requires worker { IsWorkerOf self.old w }
        ensures takes { self.new ≡ has_released self.old w }
        ensures first { released_of self.old w
            ≡ option_to_list result ++ released_of self.new w }
        ensures none { (result ≡ None) ↔ (released_of self.old w ≡ []) }
    {
        self.board.released(w)
    }

    /// A worker takes away all tasks that its end has released, and appends them to a list: after an `Err`, where there was no
    /// memory for it, only some. The cost of `released` for each.
    fn take_released(&mut self, w: Worker, list: &mut Vec<Task>) -> Result<(), OutOfMemory>
        requires worker { IsWorkerOf self.old w }
        ensures taken { HasTakenReleased self.new w }
        ensures pool { self.new ≡ record self.old { pool = self.new.pool } }
        ensures others { (v : Worker) → v ≢ w → released_of self.new v ≡ released_of self.old v }
        ensures all { OnOk result (list.new.items ≡ list.old.items ++ released_of self.old w) }
    {
        let mut result = Ok(());
        while let Some(t) = self.next_released(w) {
            if list.push(t).is_err() {
                result = Err(OutOfMemory);
            }
        }
        result
    }

    /// A worker's task ends with these results, and what the end has released is taken away, into a list: after an `Err`, where
    /// there was no memory for it, only some. The frame comes back empty. The cost of `end`, and of `released` for each.
    fn end_and_take(
        &mut self,
        w: Worker,
        t: Task,
        results: Frame,
        released: &mut Vec<Task>,
    ) -> (Frame, Result<(), OutOfMemory>)
        requires worker { IsWorkerOf self.old w }
        requires taken { HasTakenReleased self.old w }
        requires runs { RunsRow w t (row_in self.old w) }
        requires results { AreDone D.held (key_of self.old) w t (row_in self.old w) results.slots }
        ensures turn { IsTurnOf D.faults D.mismatches w self.old self.new }
        ensures row { IsFreeRow (row_in self.new w) }
        ensures event { Happens (End t w) self.old self.new }
        ensures spent { result.0.slots ≡ [] }
        ensures released { OnOk result.1 (self.old.run.machine.policy ≢ Prio
            → HasReleased self.old t w released.old.items released.new.items) }
    {
        self.board.is_sound();
        let spent = self.board.end(t, w, results);
        let taken = self.take_released(w, released);
        (spent, taken)
    }

    /// A worker's task ends with these results. Their frame comes back empty, and the tasks that the end has released are
    /// appended to a list. The cost of `end`, and of `released` for each of these.
    ///
    /// Where there is no memory for the list, a fault is kept.
    pub fn finish(&mut self, w: Worker, t: Task, results: Frame, released: &mut Vec<Task>) -> Frame
        requires worker { IsWorkerOf self.old w }
        requires taken { HasTakenReleased self.old w }
        requires runs { RunsRow w t (row_in self.old w) }
        requires results { AreDone D.held (key_of self.old) w t (row_in self.old w) results.slots }
        ensures turn { IsTurnOf D.faults D.mismatches w self.old self.new }
        ensures row { IsFreeRow (row_in self.new w) }
        ensures event { Happens (End t w) self.old self.new }
        ensures spent { result.slots ≡ [] }
        ensures released { self.old.run.machine.policy ≢ Prio → IsTrue (is_some self.new.fault)
            ⊎ HasReleased self.old t w released.old.items released.new.items }
    {
        let (spent, taken) = self.end_and_take(w, t, results, released);
        if taken.is_err() {
            self.fail_without_memory(w);
        }
        spent
    }

    /// A worker fails for want of memory, and lets its task go. Constant time.
    pub fn fail_without_memory(&mut self, w: Worker)
        requires worker { IsWorkerOf self.old w }
        requires works { (row_in self.old w).hand.has_stopped ≡ false }
        requires none_given { (row_in self.old w).hand.given ≡ None }
        requires no_unit { (row_in self.old w).hand.unit ≡ None }
        ensures turn { IsTurnOf D.faults D.mismatches w self.old self.new }
        ensures row { IsFreeRow (row_in self.new w) }
        ensures no_event { NothingHappens self.old self.new }
        ensures fault { IsTrue (is_some self.new.fault) }
    {
        self.board.is_sound();
        self.board.fail(w, RunFault::OutOfMemory);
    }
}
