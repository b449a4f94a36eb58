//! A worker's seat at the desk of a run, whose worker may go from one turn into its next one.

ghost use Rattle.std.specs.Prelude.{◌≡◌, None, false, is_some, true};
ghost use Rattle.std.specs.Option.{IsSomeAnd};
ghost use Rattle.sj_desk.specs.Seats.{HasRowLeft, KeepsOtherRows, after_turn, hearing, in_turn, rested, rung};
ghost use Rattle.sj_engine.specs.Noted.{IsNotedSound, noted_key, noted_row};

use crate::noted_board::NotedBoard;
use crate::workplace::{BoardDesk, BoardSeat};
use sj_edge::disk::Disk;
use std::marker::Model;
use std::sync::Wait;

/// A seat, and the board where its worker keeps the turn: then no other seat has one before its next.
///
/// Contracts see the seat as it is between two turns, and whether the turn is kept.
#[derive(Drop)]
pub struct WorkerSeat<D: Disk> {
    seat: BoardSeat<D>,
    kept: Option<NotedBoard<D>>,
}

impl<D: Disk> Model for WorkerSeat<D> {
    ghost use Rattle.std.specs.Prelude.{IfSome};
    ghost use Rattle.sj_engine.specs.WorkerSeats.{IsKeptTurn, WorkerSeatFacts, seen_by_worker};

    ghost Value = { WorkerSeatFacts D };

    ghost view = { λ s. seen_by_worker s.seat s.kept };

    ghost invariant = { λ s. IfSome s.kept (IsKeptTurn D.size D.faults D.mismatches D.held s.seat) };
}

impl<D: Disk> WorkerSeat<D> {
    /// A seat that keeps no turn. Constant time.
    pub fn new(seat: BoardSeat<D>) -> WorkerSeat<D>
        ensures seat { result.facts ≡ seat }
        ensures keeps_none { result.keeps_turn ≡ false }
    {
        WorkerSeat { seat, kept: None }
    }

    /// The seat. Constant time.
    pub fn into_seat(self) -> BoardSeat<D>
        requires keeps_none { self.keeps_turn ≡ false }
        ensures { result ≡ self.facts }
    {
        self.seat
    }

    /// Its number. Constant time.
    pub fn number(&self) -> u8
        ensures { result ≡ self.now.facts.number }
    {
        self.seat.number()
    }

    /// Begins the seat's turn, which it has kept or waits for, and gives the board. Constant time where it was kept, and else the
    /// cost of [`sj_desk::Desk::enter`].
    pub fn enter<R: Wait>(&mut self, rt: &R, desk: &BoardDesk<D>) -> NotedBoard<D>
        requires of_this_desk { self.old.facts.desk ≡ Some desk.now }
        requires not_in_its_turn { self.old.facts.found ≡ None }
        ensures key { noted_key result ≡ noted_key desk.now.opening }
        ensures sound { IsNotedSound D.size D.faults D.mismatches D.held result }
        ensures own_row { HasRowLeft noted_row result self.old.facts }
        ensures seat { self.new.facts ≡ in_turn self.old.facts result self.new.facts.refusals }
        ensures keeps_none { self.new.keeps_turn ≡ false }
    {
        match self.kept.take() {
            Some(board) => board,
            None => desk.enter(rt, &mut self.seat),
        }
    }

    /// Ends the turn, and gives it away. The cost of [`sj_desk::Desk::leave`].
    pub fn leave(&mut self, desk: &BoardDesk<D>, board: NotedBoard<D>)
        requires of_this_desk { self.old.facts.desk ≡ Some desk.now }
        requires other_rows { KeepsOtherRows noted_row desk.now self.old.facts board }
        requires key { noted_key board ≡ noted_key desk.now.opening }
        requires sound { IsNotedSound D.size D.faults D.mismatches D.held board }
        ensures seat { self.new.facts ≡ after_turn self.old.facts board }
        ensures keeps_none { self.new.keeps_turn ≡ false }
    {
        desk.leave(&mut self.seat, board);
    }

    /// Ends the turn, and keeps it for the seat's next one. Constant time, and no memory.
    pub fn leave_and_keep(&mut self, desk: &BoardDesk<D>, board: NotedBoard<D>)
        requires of_this_desk { self.old.facts.desk ≡ Some desk.now }
        requires other_rows { KeepsOtherRows noted_row desk.now self.old.facts board }
        requires key { noted_key board ≡ noted_key desk.now.opening }
        requires sound { IsNotedSound D.size D.faults D.mismatches D.held board }
        ensures seat { self.new.facts ≡ after_turn self.old.facts board }
        ensures keeps { self.new.keeps_turn ≡ true }
    {
        self.kept = Some(desk.renew(&mut self.seat, board));
    }

    /// Hears a bell, in a turn. The cost of [`sj_desk::Desk::listen`].
    pub fn listen(&mut self, desk: &BoardDesk<D>, bell: u8)
        requires of_this_desk { self.old.facts.desk ≡ Some desk.now }
        requires in_its_turn { is_some self.old.facts.found ≡ true }
        ensures seat { IsSomeAnd self.new.facts.heard
            (λ h. (h.bell ≡ bell) × (self.new.facts ≡ hearing self.old.facts (Some h))) }
    {
        desk.listen(&mut self.seat, bell);
    }

    /// Rings a bell, when the turn was given away. The cost of [`sj_desk::Desk::ring`].
    pub fn ring(&mut self, desk: &BoardDesk<D>, bell: u8)
        requires of_this_desk { self.old.facts.desk ≡ Some desk.now }
        requires keeps_none { self.old.keeps_turn ≡ false }
        ensures seat { self.new.facts ≡ rung self.old.facts bell }
        ensures keeps_none { self.new.keeps_turn ≡ false }
    {
        desk.ring(&mut self.seat, bell);
    }

    /// Rests until the bell that it heard has rung. The cost of [`sj_desk::Desk::rest`].
    pub fn rest<R: Wait>(&mut self, rt: &R, desk: &BoardDesk<D>)
        requires of_this_desk { self.old.facts.desk ≡ Some desk.now }
        requires not_in_its_turn { self.old.facts.found ≡ None }
        requires keeps_none { self.old.keeps_turn ≡ false }
        requires heard { is_some self.old.facts.heard ≡ true }
        ensures seat { self.new.facts ≡ rested self.old.facts }
        ensures keeps_none { self.new.keeps_turn ≡ false }
    {
        desk.rest(rt, &mut self.seat);
    }
}
