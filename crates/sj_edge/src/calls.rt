//! The calls of a device in memory, and which of them it refuses.

ghost use Rattle.std.specs.Prelude.{IsTrue, ◌↔◌, ◌≡◌, ◌≤◌};
ghost use Rattle.sj_edge.specs.Called.{uncalled, IsNextRefused, next_call, after_call, called};
ghost use Rattle.sj_edge.specs.Faults.{one_more, Rose};

use std::marker::Model;

/// Counts the calls, and tells those to refuse by their numbers, from 1.
///
/// Both counts stay at `u64::MAX`.
#[derive(Debug, Drop)]
pub struct Calls {
    fail: Vec<u64>,
    calls: u64,
    faults: u64,
}

impl Model for Calls {
    ghost use Rattle.sj_edge.specs.Called.{Called, called};

    ghost Value = { Called };

    ghost view = { λ c. called c.fail.items c.calls c.faults };
}

impl Calls {
    /// No call yet.
    pub fn new(fail: Vec<u64>) -> Calls
        ensures { result ≡ uncalled fail.items }
    {
        Calls {
            fail,
            calls: 0,
            faults: 0,
        }
    }

    /// Counts a call, and says whether it is to be refused. Linear in the list.
    pub fn next_is_refused(&mut self) -> bool
        ensures refused { IsTrue result ↔ IsNextRefused self.old }
        ensures counted { self.new ≡ called self.old.fail (next_call self.old) self.old.faults }
    {
        self.calls = self.calls.saturating_add(1);
        self.fail.contains(&self.calls)
    }

    /// Counts a fault.
    pub fn add_fault(&mut self)
        ensures counted { self.new ≡ called self.old.fail self.old.calls
            (one_more self.old.faults) }
        ensures never_falls { self.old.faults ≤ self.new.faults }
        ensures rose { Rose self.old.faults self.new.faults }
    {
        self.faults = self.faults.saturating_add(1);
    }

    /// How many faults there were.
    pub fn faults(&self) -> u64
        ensures { result ≡ self.now.faults }
    {
        self.faults
    }
}
