//! What a worker has in hand.

use sj_base::ids::{Cell, Task};

/// The task that a worker was given and may claim, the one that it has claimed or that runs on it, the cell of whose block it has
/// the disk out, and whether it has stopped.
#[derive(Clone, Copy, Debug, PartialEq, Eq)]
pub struct Hand {
    pub given: Option<Task>,
    pub task: Option<Task>,
    pub unit: Option<Cell>,
    pub has_stopped: bool,
}

/// Nothing.
pub const EMPTY: Hand = Hand {
    given: None,
    task: None,
    unit: None,
    has_stopped: false,
};
