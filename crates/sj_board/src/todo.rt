//! What a worker does next for the task that it has claimed.

use sj_base::ids::{Cell, Place};

/// A worker's next step.
#[derive(Clone, Copy, Debug, PartialEq, Eq)]
pub enum Todo {
    /// It has no task.
    Nothing,
    /// A move of a cell begins, which so many tasks have written.
    Transfer {
        cell: Cell,
        from: Place,
        to: Place,
        writes: u64,
    },
    /// The copy of a victim goes from its node.
    Discard(Cell),
    /// Nothing can be done before another worker goes on.
    Wait,
    /// The kernel of its task begins.
    Start,
}
