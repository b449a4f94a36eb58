//! The events of a run, and the trace that lists them.

ghost use Rattle.std.specs.Prelude.{◌≡◌, ◌+◌, ◌<◌, ◌++◌, ◌∷◌, [], length, max, slice_get, OnOk, OnErr, ◌==◌};

use crate::ids::{Cell, Node, Place, Task, Worker};
use crate::memory::OutOfMemory;
use crate::roomy::Roomy;
use std::alloc::Global;
use std::marker::Model;

/// One event of the core (CCPE 2011, "Data management": the states of replicas).
#[derive(Clone, Copy, Debug, PartialEq, Eq)]
pub enum Event {
    /// A worker takes a ready task, pins its replicas and makes room for them.
    Claim(Task, Worker),
    /// A transfer of a cell begins, from one place to another.
    Move(Cell, Place, Place),
    /// That transfer ends.
    Moved(Cell, Place, Place),
    /// A replica is dropped from a memory node.
    Drop(Cell, Node),
    /// The task's kernel begins.
    Run(Task, Worker),
    /// The task's kernel has ended.
    End(Task, Worker),
}

/// The events of a run in order, with room for some more.
#[derive(Debug, Drop)]
pub struct Trace {
    events: Roomy<Event>,
}

impl Model for Trace {
    ghost use Rattle.sj_base.specs.Recorded.{Recorded, recorded};

    ghost Value = { Recorded };

    ghost view = { λ t. recorded t.events.items t.events.spare };
}

impl Trace {
    /// No event, and no room.
    pub fn empty(alloc: Global) -> Trace
        ensures events { result.events ≡ [] }
        ensures room { result.spare ≡ 0 }
    {
        Trace {
            events: Roomy::empty(alloc),
        }
    }

    /// Makes room for at least so many more events; the room that there was stays. No memory where there was as much.
    /// Linear in the events where it has to move them.
    pub fn reserve(&mut self, more: u64) -> Result<(), OutOfMemory>
        ensures events { self.new.events ≡ self.old.events }
        ensures room { OnOk result (self.new.spare ≡ max self.old.spare more) }
        ensures err { OnErr result (self.new ≡ self.old) }
        ensures only_where_wanting { OnErr result (self.old.spare < more) }
    {
        self.events.reserve(more)
    }

    /// Appends an event. Constant time, and no memory.
    pub fn add(&mut self, event: Event)
        requires { 0 < self.old.spare }
        ensures events { self.new.events ≡ self.old.events ++ event ∷ [] }
        ensures room { self.new.spare + 1 ≡ self.old.spare }
    {
        self.events.push(event);
    }

    /// How many events there are. Constant time.
    pub fn len(&self) -> usize
        ensures { result ≡ length self.now.events }
    {
        self.events.len()
    }

    /// Whether there is no event. Constant time.
    pub fn is_empty(&self) -> bool
        ensures { result ≡ (length self.now.events == 0) }
    {
        self.events.is_empty()
    }

    /// The event at a place. Constant time.
    pub fn get(&self, i: usize) -> Event
        requires { i < length self.now.events }
        ensures { slice_get self.now.events i ≡ Some result }
    {
        *self.events.get(i)
    }
}
