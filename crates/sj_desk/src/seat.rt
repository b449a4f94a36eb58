//! Seats of a desk.

ghost use Rattle.std.specs.Prelude.{◌≡◌};

use crate::rule::Ticket;
use crate::view::Heard;
use std::marker::Model;

/// The right of one thread to take turns at a desk, and to change one row of its value.
///
/// Contracts see its desk, its number, how many of its tries found the turn taken, the bell that it
/// heard and hasn't rested on yet, with its count, the bells that it rang, the value that it left last,
/// and in its turn the value that it found.
#[derive(Drop)]
pub struct DeskSeat<T> {
    pub(crate) number: u8,
    pub(crate) heard: Option<Heard>,
    pub(crate) ticket: Ticket<T>,
}

impl<T> Model for DeskSeat<T> {
    ghost use Rattle.sj_desk.specs.Seats.{SeatFacts};
    ghost use Rattle.sj_desk.specs.Views.{seat_facts, HasOwnRow};

    ghost Value = { SeatFacts T };

    ghost view = { λ s. seat_facts s.ticket.table_id s.number s.ticket.me.0 };

    ghost invariant = { λ s. HasOwnRow s.number s.heard s.ticket.me };
}

impl<T> DeskSeat<T> {
    /// Its number, which is that of its row. Constant time.
    pub fn number(&self) -> u8
        ensures { result ≡ self.now.number }
    {
        self.number
    }
}
