//! The board as it passes through the desk, with what is noted of the workers that rest.

ghost use Rattle.std.specs.Prelude.{◌≡◌, ◌&&◌, ◌<◌, length};
ghost use Rattle.sj_board.specs.BoardSound.{IsSoundBoard};
ghost use Rattle.sj_engine.specs.Noted.{has_ready_in};
ghost use Rattle.sj_engine.specs.Resting.{is_over, looks, noted, noted_at_rest, wakes, wakes_at_rest};

use crate::shared_board::SharedBoard;
use crate::sleepers::{Change, Sleepers};
use sj_base::ids::Worker;
use sj_base::keyed::Keyed;
use sj_base::mode::Policy;
use sj_edge::disk::Disk;

/// A board as it passes through the desk, and the notes of the workers that rest.
#[derive(Drop)]
pub struct NotedBoard<D: Disk> {
    pub board: SharedBoard<D>,
    pub sleepers: Sleepers,
    /// But under `prio`, how many tasks are ready and weren't claimed, wherever their numbers are: in the shared queues, or in
    /// the hands of workers that are to put them there or have taken them from there.
    pub waiting: u64,
}

impl<D: Disk> Keyed for NotedBoard<D> {
    ghost use Rattle.sj_board.specs.BoardRow.{BoardKey, BoardRow};
    ghost use Rattle.sj_engine.specs.Noted.{IsNotedSound, noted_key, noted_row};

    ghost Key = { BoardKey D };

    ghost Row = { BoardRow D };

    ghost key = { noted_key };

    ghost row_of = { noted_row };

    ghost sound = { IsNotedSound D.size D.faults D.mismatches D.held };
}

impl<D: Disk> NotedBoard<D> {
    /// Whether a task is ready that nobody was given or has claimed. Constant time.
    fn has_ready(&self) -> bool
        ensures { result ≡ has_ready_in self.now }
    {
        match self.board.policy() {
            Policy::Prio => self.board.has_ready(),
            Policy::Eager | Policy::Ws => self.waiting != 0,
        }
    }

    /// Notes that a worker rests on a bell, with a claimed task or without one. The bell that is to be rung. Linear in the
    /// workers where others rest, and under `ws`, else constant time.
    pub fn rest(&mut self, w: Worker, bell: u8, is_claimed: bool) -> Option<u8>
        requires inside { w.0 < length self.old.sleepers }
        ensures board { self.new.board ≡ self.old.board }
        ensures woken { result ≡
            wakes_at_rest w.0 is_claimed (has_ready_in self.old) self.old.sleepers }
        ensures waiting { self.new.waiting ≡ self.old.waiting }
        ensures noted { self.new.sleepers ≡
            noted_at_rest w.0 bell is_claimed (has_ready_in self.old) self.old.sleepers }
        ensures sound { IsSoundBoard D.size D.faults D.mismatches D.held self.new.board }
    {
        self.board.is_sound();
        let is_ready = self.has_ready();
        self.sleepers.rest(w, bell, is_claimed, is_ready)
    }

    /// Whether a task is ready that nobody was given, where the turn that did this looked for one.
    fn is_ready_after(&self, change: Change) -> bool
        ensures { result ≡ (looks change && has_ready_in self.now) }
    {
        change.looks() && self.has_ready()
    }

    /// Notes a turn of a worker that did this. The bell that is to be rung. Constant time where nobody rests, else linear in the
    /// workers, as under `ws`.
    ///
    /// Under `prio` the tasks in the pool between turns are just those that are ready and not claimed, so a look misses none.
    pub fn change(&mut self, w: Worker, change: Change) -> Option<u8>
        requires inside { w.0 < length self.old.sleepers }
        ensures board { self.new.board ≡ self.old.board }
        ensures woken { result ≡
            wakes w.0 change (is_over self.old.board) (has_ready_in self.old) self.old.sleepers }
        ensures waiting { self.new.waiting ≡ self.old.waiting }
        ensures noted { self.new.sleepers ≡
            noted w.0 change (is_over self.old.board) (has_ready_in self.old) self.old.sleepers }
        ensures sound { IsSoundBoard D.size D.faults D.mismatches D.held self.new.board }
    {
        self.board.is_sound();
        let is_over = self.board.is_over();
        let is_ready = self.is_ready_after(change);
        self.sleepers.change(w, change, is_over, is_ready)
    }
}
