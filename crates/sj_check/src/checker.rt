//! Rows whose events are judged one after another.

ghost use Rattle.std.specs.Prelude.{◌≡◌, ◌↔◌, ◌<◌, [], IfOk, IsTrue, None, length, replicate, slice_set};
ghost use Rattle.sj_base.specs.declared.trace.Event.TheVariants.{Claim, Drop, End, Move, Moved, Run};
ghost use Rattle.sj_core.specs.Legal.{IsComplete};
ghost use Rattle.sj_core.specs.Proper.{IsMachineFor, Proper};
ghost use Rattle.sj_deps.specs.Conflict.{Ready};
ghost use Rattle.sj_deps.specs.Progress.{after_done, dependencies};
ghost use Rattle.sj_machine.specs.Rows.{rows_at_start};
ghost use Rattle.sj_check.specs.Judging.{Judges};

use crate::homes::homes_of;
use crate::judging::{
    are_done, may_claim, may_drop, may_end, may_end_move, may_move, mover, run_is_legal,
};
use sj_base::ids::{Cell, DiskNo, Node, Place, Task, Worker};
use sj_base::memory::OutOfMemory;
use sj_base::program::{Machine, Program};
use sj_base::trace::Event;
use sj_core::laws::dependencies;
use sj_deps::deps::Deps;
use sj_machine::rows::Rows;
use std::alloc::Global;
use std::marker::Model;
use std::sync::Arc;

/// Rows, and what is kept beside them to judge their next event.
#[derive(Drop)]
pub struct Checker {
    rows: Rows,
    /// The disk of each cell's block; none where the blocks don't fit the disks.
    homes: Vec<DiskNo>,
    /// The task that each worker claimed last.
    tasks: Vec<Option<Task>>,
    deps: Deps,
}

impl Model for Checker {
    ghost use Rattle.sj_machine.specs.Rows.{Rows};
    ghost use Rattle.sj_check.specs.Watching.{Watches};

    ghost Value = { Rows };

    ghost view = { λ c. c.rows };

    ghost invariant = { λ c. Watches c.rows c.homes.items c.tasks.items c.deps };
}

/// A worker has claimed this task. Constant time.
fn set_task(tasks: &mut Vec<Option<Task>>, w: Worker, t: Task)
    requires { w.0 < length tasks.old.items }
    ensures { tasks.new.items ≡ slice_set tasks.old.items w.0 (Some t) }
{
    tasks[w.0 as usize] = Some(t);
}

/// A task is done from now on. Linear in the accesses that are released.
fn set_done(deps: &mut Deps, t: Task)
    requires { Ready deps.old.program deps.old.done t.0 }
    ensures { deps.new ≡ after_done deps.old t.0 }
{
    let _ = deps.done(t);
}

/// No worker has claimed a task. Linear in the workers.
fn no_tasks(alloc: Global, workers: u8) -> Result<Vec<Option<Task>>, OutOfMemory>
    ensures { IfOk result (λ v. v.items ≡ replicate workers None) }
{
    Ok(vec![in alloc; None; workers as usize]?)
}

/// No task is done. Linear in the tasks and their accesses.
fn none_done(alloc: Global, program: &Program) -> Result<Deps, OutOfMemory>
    requires { Proper program.now }
    ensures { IfOk result (λ deps. deps ≡ dependencies program.now []) }
{
    dependencies();
    Deps::of(alloc, program)
}

impl Checker {
    /// A checker that has seen no event. Linear in the tasks and their accesses, and in cells times nodes and cells times
    /// disks.
    pub fn make(
        alloc: Global,
        program: Arc<Program>,
        machine: Machine,
    ) -> Result<Checker, OutOfMemory>
        requires proper { Proper program.value }
        requires machine { IsMachineFor program.value machine }
        ensures { IfOk result (λ c. c ≡ rows_at_start program.value machine) }
    {
        let deps = none_done(alloc, &program)?;
        let tasks = no_tasks(alloc, program.workers)?;
        let homes = homes_of(alloc, &program, machine.disks.items())?;
        let Ok(rows) = Rows::make(alloc, program, machine) else {
            return Err(OutOfMemory);
        };
        Ok(Checker {
            rows,
            homes,
            tasks,
            deps,
        })
    }

    /// A claim. Linear in the operands, the victims, the entries that are passed and the victims of each worker's last claim,
    /// and in the workers for each commuting operand. Takes memory for its plan alone.
    fn claim(&mut self, alloc: Global, t: Task, w: Worker) -> Result<bool, OutOfMemory>
        ensures { IfOk result (λ legal. Judges self.old (Claim t w) legal self.new) }
    {
        self.rows.is_sound();
        if !may_claim(&self.rows, &self.tasks, &self.deps, t, w) {
            return Ok(false);
        }
        let Ok(plan) = self.rows.claim_plan(alloc, t, w)? else {
            return Ok(false);
        };
        self.rows.claim(t, w, plan)?;
        set_task(&mut self.tasks, w, t);
        Ok(true)
    }

    /// The beginning of a move. Linear in the victims, the nodes and the operands.
    fn begin_move(&mut self, cell: Cell, from: Place, to: Place) -> bool
        ensures { Judges self.old (Move cell from to) result self.new }
    {
        if !may_move(&self.rows, &self.homes, &self.tasks, cell, from, to) {
            return false;
        }
        let w = mover(&self.rows, cell, from, to);
        self.rows.begin_move(w, cell, from, to);
        true
    }

    /// The end of a move. Constant time.
    fn end_move(&mut self, cell: Cell, from: Place, to: Place) -> bool
        ensures { Judges self.old (Moved cell from to) result self.new }
    {
        if !may_end_move(&self.rows, cell, from, to) {
            return false;
        }
        let w = mover(&self.rows, cell, from, to);
        let _ = self.rows.end_move(w);
        true
    }

    /// A drop. Linear in the nodes and the workers.
    fn discard(&mut self, cell: Cell, n: Node) -> bool
        ensures { Judges self.old (Drop cell n) result self.new }
    {
        if !may_drop(&self.rows, cell, n) {
            return false;
        }
        self.rows.drop_copy(cell, n);
        true
    }

    /// The beginning of a task's kernel. Quadratic in the operands, which are a task's few; linear in the victims, and in nodes
    /// and workers for each written operand.
    fn begin_run(&mut self, t: Task, w: Worker) -> bool
        ensures { Judges self.old (Run t w) result self.new }
    {
        if !run_is_legal(&self.rows, t, w) {
            return false;
        }
        self.rows.run(t, w);
        true
    }

    /// The end of a task's kernel. Linear in the operands and in the accesses that are released.
    fn end_run(&mut self, t: Task, w: Worker) -> bool
        ensures { Judges self.old (End t w) result self.new }
    {
        if !may_end(&self.rows, t, w) {
            return false;
        }
        self.rows.is_sound();
        self.rows.end(t, w);
        set_done(&mut self.deps, t);
        true
    }

    /// Whether the next event is legal: then it has happened, and else nothing has. Linear in the operands of its task, the
    /// victims, the nodes and the workers.
    pub fn step(&mut self, alloc: Global, event: Event) -> Result<bool, OutOfMemory>
        ensures { IfOk result (λ legal. Judges self.old event legal self.new) }
    {
        match event {
            Event::Claim(t, w) => self.claim(alloc, t, w),
            Event::Move(cell, from, to) => Ok(self.begin_move(cell, from, to)),
            Event::Moved(cell, from, to) => Ok(self.end_move(cell, from, to)),
            Event::Drop(cell, n) => Ok(self.discard(cell, n)),
            Event::Run(t, w) => Ok(self.begin_run(t, w)),
            Event::End(t, w) => Ok(self.end_run(t, w)),
        }
    }

    /// Whether all tasks are done. Linear in them.
    pub fn is_complete(&self) -> bool
        ensures { IsTrue result ↔ IsComplete self.now.state }
    {
        are_done(&self.rows)
    }
}
