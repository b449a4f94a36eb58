//! Which tasks are ready, and which become ready as others are done.

ghost use Rattle.std.specs.Prelude.{◌≡◌, ◌↔◌, ◌++◌, ◌∷◌, [], ℕ, IfOk, IsTrue, Contains, map};
ghost use Rattle.std.specs.Borrow.{sem};
ghost use Rattle.std.specs.List.Sorted.{IsStrictlyIncreasing};
ghost use Rattle.sj_base.specs.declared.ids.Task.{Task};
ghost use Rattle.sj_deps.specs.Conflict.{Ready, HasDependencies};

use crate::counters::Counters;
use sj_base::ids::Task;
use sj_base::memory::OutOfMemory;
use sj_base::program::Program;
use std::alloc::Global;
use std::marker::Model;
use std::snapshot::Snapshot;

/// The dependencies of a program's tasks: the program, and the tasks that are done so far.
///
/// The accesses to each cell form a sequence of runs: readers, one commuting group, one reduction phase, or
/// one writer. Each cell counts how many accesses of its released runs are finished, and each task how many
/// of its accesses wait for an earlier run. No pairs of tasks are looked at. The contributions of a phase
/// stand in the sequences of its copies as one, and each of them waits for the phase once.
#[derive(Drop)]
pub struct Deps {
    program: Snapshot<Program>,
    counters: Counters,
}

impl Model for Deps {
    ghost use Rattle.sj_deps.specs.Progress.{Dependencies, dependencies, KeepsCounts};

    ghost Value = { Dependencies };

    ghost view = { λ d. dependencies d.program.value d.counters.order.items };

    ghost invariant = { λ d. KeepsCounts d.program.value d.counters };
}

impl Deps {
    ghost use Rattle.sj_deps.specs.Progress.{BecomesReady};
    ghost use Rattle.sj_deps.specs.Lending.{EndsAfter};

    /// The dependencies of a program, with no task done, and room for the answers of `done`. Linear in the
    /// accesses, and in the workers for each reduction phase.
    pub fn of(alloc: Global, program: &Program) -> Result<Deps, OutOfMemory>
        requires { HasDependencies program.now }
        ensures program { IfOk result (λ d. d.program ≡ program.now) }
        ensures none_done { IfOk result (λ d. d.done ≡ []) }
    {
        let counters = Counters::of(alloc, program)?;
        Ok(Deps {
            program: Snapshot::of(program),
            counters,
        })
    }

    /// Whether a task of the program isn't done and all earlier tasks that conflict with it are. Constant
    /// time, no memory.
    pub fn is_ready(&self, t: Task) -> bool
        ensures { IsTrue result ↔ Ready self.now.program self.now.done t.0 }
    {
        let i = t.0 as usize;
        if i >= self.counters.held.len() {
            return false;
        }
        if self.counters.is_done[i] {
            return false;
        }
        self.counters.held[i] == 0
    }

    /// Takes a ready task as done, and answers the tasks that become ready, by number. Over all calls linear in
    /// the accesses, and in the workers for each reduction phase, besides a sort of the answers of each. No
    /// memory.
    pub fn done(&mut self, t: Task) -> &[Task]
        requires { Ready self.old.program self.old.done t.0 }
        ensures* done { sem 𝓛 (EndsAfter self.entry t.0) }
        ensures answers { (u : Task) → Contains result.now u ↔ BecomesReady self.old t.0 u.0 }
        ensures by_number { IsStrictlyIncreasing (map (λ u. u.0) result.now) }
    {
        self.counters.complete(t);
        &self.counters.ready
    }
}
