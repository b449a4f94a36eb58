//! What a pool keeps of a task.

ghost use Rattle.std.specs.Prelude.{◌≡◌};
ghost use Rattle.sj_pool.specs.Entry.{fits_room, precedes};

use sj_base::ids::Task;

/// A ready task, its priority, and the bytes of its footprint.
#[derive(Clone, Copy, Debug, PartialEq, Eq)]
pub struct Entry {
    pub task: Task,
    /// Higher is more urgent.
    pub priority: i32,
    pub bytes: u64,
}

impl Entry {
    /// Whether the entry fits a node with so much room.
    pub fn fits(&self, room: u64) -> bool
        ensures { result ≡ fits_room room self.now }
    {
        self.bytes <= room
    }

    /// Whether the entry is more urgent than another: of greater priority, or of the same and with
    /// a lesser task number.
    pub fn precedes(&self, other: &Entry) -> bool
        ensures { result ≡ precedes self.now other.now }
    {
        other.priority < self.priority
            || (other.priority == self.priority && self.task.0 < other.task.0)
    }
}
