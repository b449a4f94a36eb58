//! How far a task is, and what a worker carries: the words in which the state of a run is told.

use sj_base::ids::{Cell, Place, Worker};

/// How far a task is, and which worker has it.
#[derive(Clone, Copy, Debug, PartialEq, Eq)]
pub enum Progress {
    /// No worker has it.
    Waiting,
    /// A worker has it and brings its replicas.
    Claimed(Worker),
    /// Its kernel runs.
    Running(Worker),
    /// Its kernel has ended.
    Done(Worker),
}

/// A copy of a cell that is under way from one place to another.
#[derive(Clone, Copy, Debug, PartialEq, Eq)]
pub struct Transfer {
    pub cell: Cell,
    pub from: Place,
    pub to: Place,
}
