//! Whether a worker may claim a task whose number comes from outside the board.

/// What a board says of such a task.
#[derive(Clone, Copy, Debug, PartialEq, Eq)]
pub enum Claimable {
    /// The worker may claim it, where the machine has room for it now.
    Yes,
    /// It isn't one of the program's tasks that are ready and wait.
    Stale,
    /// It needs more bytes than the worker's node has.
    TooBig,
    /// The worker has a task, or a fault is kept.
    Closed,
}
