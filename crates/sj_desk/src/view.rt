// What a seat knows, for the proofs alone.
use std::collections::LinkedList;

/// What the desk's table is told when it is made: the opening value, and the number of seats.
pub struct Opening<T> {
    pub value: T,
    pub seats: u8,
}

/// A bell that a seat heard, and the count at which it was.
#[derive(Clone, Copy, Debug, PartialEq, Eq)]
pub struct Heard {
    pub bell: u8,
    pub count: u64,
}

/// What one seat notes: how many of its tries found the turn taken, the bell that it heard and hasn't
/// rested on yet, and the bells that it rang, one after the other.
pub struct Tally {
    pub refusals: u64,
    pub heard: Option<Heard>,
    pub rings: LinkedList<u8>,
}

/// What one seat knows. No value of it is ever made.
pub struct View<T> {
    pub opening: Option<Opening<T>>,
    // Each row that the seat answers for: its number, and the value in which the seat left it.
    pub rows: LinkedList<(u8, T)>,
    // In its turn, the value that it found.
    pub found: Option<T>,
    pub tally: Tally,
    // 0 and 1 while the desk is made, then 2.
    pub stage: u8,
}
