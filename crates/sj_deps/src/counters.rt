//! The counters: the chains of the cells, the parties in them, and for each task how many parties it waits for.

ghost use Rattle.std.specs.Prelude.{◌≡◌, ◌+◌, ◌<◌, ◌≤◌, [], ℕ, All, IfOk, OnOk, length, map, count_by, nat_lt, nat_eq, min, slice_set, ◌-◌, vec_capacity, IsPermutation, if◌then◌else◌};
ghost use Rattle.std.specs.List.{sum_by};
ghost use Rattle.std.specs.List.Sorted.{IsNonDecreasingBy};
ghost use Rattle.sj_deps.specs.Conflict.{HasDependencies};
ghost use Rattle.sj_deps.specs.Chains.{is_party, left_of, waits_of};
ghost use Rattle.sj_deps.specs.Counts.{Frees, Mutual, blocked, is_task, owed, parties_at, tasks_at};

use crate::chain::Chain;
use crate::crew::Crew;
use crate::entry::{empty_lists, enter_tasks};
use crate::settle::leave_all;
use sj_base::few::Few;
use sj_base::ids::Task;
use sj_base::memory::OutOfMemory;
use sj_base::program::Program;
use std::alloc::Global;

/// What is counted of a program's tasks. A party is a task by itself, or the contributions of one phase.
#[derive(Drop)]
pub struct Counters {
    /// The accesses to each cell.
    pub chains: Vec<Chain>,
    /// The cells of each party.
    pub cells: Vec<Few<usize>>,
    /// The tasks of each party.
    pub tasks: Vec<Crew>,
    /// The parties of each task.
    pub parties: Vec<Few<usize>>,
    /// How many accesses of each party wait for earlier ones.
    pub waits: Vec<usize>,
    /// How many tasks of each party aren't done.
    pub left: Vec<usize>,
    /// How many parties of each task wait.
    pub held: Vec<usize>,
    /// Which tasks are done.
    pub is_done: Vec<bool>,
    /// The tasks that are done, in the order in which they were.
    pub order: Vec<u32>,
    /// The parties that the last one freed.
    pub opened: Vec<usize>,
    /// The tasks that the last one made ready, by number.
    pub ready: Vec<Task>,
}

impl Counters {
    ghost use Rattle.sj_deps.specs.Progress.{KeepsCounts, Completes, Ledger};

    /// The counters of a program, with no task done and room for all of them. Linear in the accesses, and in
    /// the workers for each phase.
    pub fn of(alloc: Global, program: &Program) -> Result<Counters, OutOfMemory>
        requires { HasDependencies program.now }
        ensures keeps { IfOk result (KeepsCounts program.now) }
        ensures none_done { IfOk result (λ c. c.order.items ≡ []) }
    {
        let count = program.tasks.len();
        let entered = enter_tasks(alloc, program)?;
        let parties = parties_of_tasks(alloc, &entered.tasks, count)?;
        let held = count_blocked(alloc, &parties, &entered.waits)?;
        let left = count_tasks(alloc, &entered.tasks)?;
        Ok(Counters {
            opened: Vec::with_capacity(alloc, entered.tasks.len())?,
            chains: entered.chains,
            cells: entered.cells,
            tasks: entered.tasks,
            parties,
            waits: entered.waits,
            left,
            held,
            is_done: vec![in alloc; false; count]?,
            order: Vec::with_capacity(alloc, count)?,
            ready: Vec::with_capacity(alloc, count)?,
        })
    }

    /// Counts a task as done. Linear in its parties, in the cells of those that are finished, in the accesses
    /// that are released and in the tasks of the parties that are freed, and then a sort of the answers.
    pub fn complete(&mut self, t: Task)
        requires ledger { Ledger self.old }
        requires task { t.0 < length self.old.held.items }
        requires enough { (n : ℕ) → count_by (is_party n) (parties_at self.old.parties.items t.0)
            ≤ left_of self.old.left.items n }
        requires free { All (λ n. waits_of self.old.waits.items n ≡ 0)
            (parties_at self.old.parties.items t.0) }
        requires room_done { length self.old.order.items < vec_capacity self.old.order }
        ensures { Completes self.old self.new t.0 }
    {
        let i = t.0 as usize;
        self.is_done[i] = true;
        let _ = self.order.push(t.0);
        self.opened.clear();
        self.ready.clear();
        leave_all(
            &mut self.chains,
            &mut self.waits,
            &mut self.opened,
            &mut self.left,
            &self.cells,
            self.parties[i].items(),
        );
        free_all(&self.tasks, &self.opened, &mut self.held, &mut self.ready);
        sort(&mut self.ready);
    }
}

/// The parties of each task. Linear in the tasks of all parties.
fn parties_of_tasks(
    alloc: Global,
    tasks: &[Crew],
    count: usize,
) -> Result<Vec<Few<usize>>, OutOfMemory>
    requires { (n : ℕ) → All (λ x. x.0 < count) (tasks_at tasks.now n) }
    ensures len { IfOk result (λ v. length v.items ≡ count) }
    ensures matching { IfOk result (λ v. Mutual v.items tasks.now) }
{
    let mut parties = empty_lists(alloc, count)?;
    for n in 0..tasks.len() {
        list_party(&mut parties, tasks[n].tasks(), n)?;
    }
    Ok(parties)
}

/// Lists a party with each of its tasks.
fn list_party(parties: &mut Vec<Few<usize>>, tasks: &[Task], n: usize) -> Result<(), OutOfMemory>
    requires { All (λ x. x.0 < length parties.old.items) tasks.now }
    ensures len { OnOk result (length parties.new.items ≡ length parties.old.items) }
    ensures listed { OnOk result ((t k : ℕ) → count_by (is_party k) (parties_at parties.new.items t)
        ≡ count_by (is_party k) (parties_at parties.old.items t)
        + (if nat_eq n k then count_by (is_task t) tasks.now else 0)) }
{
    for task in tasks {
        parties[task.0 as usize].push(n)?;
    }
    Ok(())
}

/// How many of these parties wait.
fn blocked(parties: &[usize], waits: &[usize]) -> usize
    requires { All (λ n. n < length waits.now) parties.now }
    ensures { result ≡ blocked waits.now parties.now }
{
    parties.iter().filter(|n| waits[**n] > 0).count()
}

fn count_blocked(
    alloc: Global,
    parties: &[Few<usize>],
    waits: &[usize],
) -> Result<Vec<usize>, OutOfMemory>
    requires { All (All (λ n. n < length waits.now)) parties.now }
    ensures { IfOk result (λ v. v.items ≡ map (blocked waits.now) parties.now) }
{
    let mut held = Vec::with_capacity(alloc, parties.len())?;
    for list in parties {
        held.push(blocked(list.items(), waits))?;
    }
    Ok(held)
}

fn count_tasks(alloc: Global, tasks: &[Crew]) -> Result<Vec<usize>, OutOfMemory>
    ensures { IfOk result (λ v. v.items ≡ map (λ ts. length ts) tasks.now) }
{
    let mut left = Vec::with_capacity(alloc, tasks.len())?;
    for list in tasks {
        left.push(list.tasks().len())?;
    }
    Ok(left)
}

/// Takes one party fewer that a task waits for, and appends the task where it was the last one.
fn free(held: &mut Vec<usize>, ready: &mut Vec<Task>, task: Task)
    requires task { task.0 < length held.old.items }
    requires waiting { 0 < waits_of held.old.items task.0 }
    requires room { length ready.old.items + count_by (nat_lt 0) held.old.items
        ≤ vec_capacity ready.old }
    ensures held { held.new.items
        ≡ slice_set held.old.items task.0 (waits_of held.old.items task.0 - 1) }
    ensures ready { (t : ℕ) → count_by (is_task t) ready.new.items
        + min 1 (waits_of held.new.items t)
        ≡ count_by (is_task t) ready.old.items + min 1 (waits_of held.old.items t) }
    ensures total { length ready.new.items + count_by (nat_lt 0) held.new.items
        ≡ length ready.old.items + count_by (nat_lt 0) held.old.items }
    ensures capacity { vec_capacity ready.old ≤ vec_capacity ready.new }
{
    let i = task.0 as usize;
    let left = held[i] - 1;
    held[i] = left;
    if left == 0 {
        let _ = ready.push(task);
    }
}

/// Frees the tasks of one party.
fn free_party(tasks: &[Task], held: &mut Vec<usize>, ready: &mut Vec<Task>)
    requires known { All (λ x. x.0 < length held.old.items) tasks.now }
    requires enough { (t : ℕ) → count_by (is_task t) tasks.now ≤ waits_of held.old.items t }
    requires room { length ready.old.items + count_by (nat_lt 0) held.old.items
        ≤ vec_capacity ready.old }
    ensures frees { Frees held.old.items held.new.items ready.old.items ready.new.items
        (λ t. count_by (is_task t) tasks.now) }
    ensures capacity { vec_capacity ready.old ≤ vec_capacity ready.new }
{
    for task in tasks {
        free(held, ready, *task);
    }
}

/// Frees the tasks of these parties. Linear in them.
fn free_all(tasks: &[Crew], opened: &[usize], held: &mut Vec<usize>, ready: &mut Vec<Task>)
    requires parties { All (λ n. n < length tasks.now) opened.now }
    requires known { (n : ℕ) → All (λ x. x.0 < length held.old.items) (tasks_at tasks.now n) }
    requires enough { (t : ℕ) → owed tasks.now opened.now t ≤ waits_of held.old.items t }
    requires room { length ready.old.items + count_by (nat_lt 0) held.old.items
        ≤ vec_capacity ready.old }
    ensures frees { Frees held.old.items held.new.items ready.old.items ready.new.items
        (owed tasks.now opened.now) }
    ensures capacity { vec_capacity ready.old ≤ vec_capacity ready.new }
{
    for party in opened {
        free_party(tasks[*party].tasks(), held, ready);
    }
}

/// Puts tasks in the order of their numbers.
fn sort(tasks: &mut Vec<Task>)
    ensures permutation { IsPermutation tasks.old.items tasks.new.items }
    ensures sorted { IsNonDecreasingBy (λ x. x.0) tasks.new.items }
    ensures capacity { vec_capacity tasks.old ≤ vec_capacity tasks.new }
{
    tasks.as_mut_slice().sort_unstable_by_key(|task| task.0);
}
