//! What a pass of a queue knows.

use sj_base::ids::Task;
use std::collections::LinkedList;

/// The tasks that a pass put and those that it took, each in order, and its parts of the right to know what all passes did. No
/// value of it is made.
pub struct Account {
    pub parts: u64,
    pub put: LinkedList<Task>,
    pub taken: LinkedList<Task>,
}
