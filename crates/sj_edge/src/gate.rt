//! What is called around each kernel.

use sj_base::ids::Task;

/// What a run calls before its first task, and each worker before and after the kernel of each task that it runs, outside of any
/// lock, also where it is the only worker.
///
/// It may wait, and it changes nothing that a contract sees.
pub trait Gate: Sync {
    /// The run begins, and has so many tasks in all.
    fn begins(&self, _tasks: usize) {}

    fn entered(&self, task: Task);

    fn left(&self, task: Task);
}

/// A gate that returns at once.
#[derive(Clone, Copy, Debug, PartialEq, Eq)]
pub struct OpenGate;

impl Gate for OpenGate {
    fn entered(&self, _task: Task) {}

    fn left(&self, _task: Task) {}
}
