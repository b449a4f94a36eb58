//! The desk: a turn lock over one value, in which each thread finds its own part as it left it.
//!
//! A plain lock says nothing of the value that a thread finds. Here a value has a *key*, which no
//! turn changes, a fact, *sound*, which holds between any two turns, and one *row* for each seat
//! ([`Keyed`]). [`Desk::enter`] gives a value with the key of the opening value, sound, whose row
//! for the caller's seat is the one that this seat left; [`Desk::leave`] asks that all other rows
//! are as the seat found them; [`Desk::close`] gives a value in which every seat's row is as it
//! left it. [`Desk::renew`] ends a turn and begins the same seat's next one, which finds what was left.
//!
//! # How the turn is kept
//!
//! The table has a word for the turn, one for each of 256 bells, and one slot. The *turn word* is 0 while the turn is free, 1
//! while it is taken, and 2 while it is taken and some seat may be asleep. The value lies in one *slot*. Each seat has a
//! *ticket*, without bytes, which carries what the seat knows: the opening value, the rows that it answers for, each by its
//! number and the value in which the seat left it, how many of its tries found the turn taken, the bell that it heard and at
//! which count, the bells that it rang, and in its turn the value that it found. The seat whose ticket has found a value is
//! the *holder*.
//!
//! Between any two steps these hold:
//!
//! - While the turn is free, the slot has a value with the key, sound. No seat is the holder.
//! - While it is taken there is just one holder, and the value that it found is the current one.
//! - Each row that a ticket answers for is the current value's row of that number, whether the
//!   turn is free or taken. Each number is one ticket's, and less than the number of seats.
//! - A ticket that was joined to another answers for nothing, and is never the holder.
//! - The word tells that the turn is taken, and nothing rests on what else it tells.
//!
//! # The bells
//!
//! A thread that finds nothing to do in its turn must sleep, and must not miss what another's turn
//! brings. A *bell* is a word that counts rings; there are 256, one for each number that a seat can
//! have, and which seat listens to which is the caller's choice. [`Desk::listen`] reads one in the
//! turn in which the thread looked, [`Desk::rest`] sleeps after that turn for as long as it is still
//! at the count that was read, and [`Desk::ring`] raises it, in or after a turn that brings something,
//! and wakes who rests on it. Whoever brings something has the turn either before the one that
//! looked, and then it was seen, or after it, and then the bell is rung at another count than the one
//! that was read: nothing is lost between looking and sleeping. A seat may rest only once it has
//! listened, and never in its turn.
//!
//! # The kinds of step
//!
//! | Step | Changes the ticket of |
//! |---|---|
//! | the table is made, with its first ticket, which answers for every row | that ticket |
//! | the first ticket takes the empty slot, and gives it back with the value, which frees the turn | that ticket |
//! | a seat is dealt its row | the first ticket, which gives the row up, and the new one |
//! | a compare-exchange that takes the turn | the seat, which is now the holder |
//! | a compare-exchange that finds the turn taken, to take it or to mark that a seat sleeps | the seat: one more try |
//! | a compare-exchange that would mark that a seat sleeps, and finds the turn free | nobody |
//! | a load of a bell in the seat's turn | the seat: it has heard that bell at that count |
//! | a ring of a bell, which adds one to it | the seat: one more that it rang |
//! | a load of the bell that a seat rests on, which finds the count that it heard | nobody |
//! | a load of the bell that a seat rests on, which finds another count | the seat: its rest is over |
//! | the value is moved out of the slot, or into it, by the holder | nobody |
//! | the swap that gives the turn back | the holder: its row is that of the value that it left |
//! | a load by the holder, the value in the slot, between two turns | the holder: its row is the value's, which it has found |
//! | two tickets are joined when the desk closes | both: one answers for the rows of both |
//!
//! # What the steps can't say
//!
//! What a step tells its seat can't name the key that the table was made with, nor another seat's
//! ticket. So the opening value is a part of each ticket, and each call asks that the seat is of
//! this desk. No clause says that a seat is ever served, in which order seats are, how long one
//! waits, or that a seat which sleeps wakes: [`Desk::enter`] and [`Desk::rest`] keep their promise if
//! they return. Of a rest it is said that it isn't over before the bell was found at another count.
#![tactic(auto)]

mod desk;
mod rule;
mod seat;
mod view;

pub use desk::{Busy, Desk};
pub use seat::DeskSeat;
pub use sj_base::keyed::Keyed;
pub use view::Heard;
