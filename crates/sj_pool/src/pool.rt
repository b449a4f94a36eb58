//! The pool of ready tasks of a scheduling policy.

ghost use Rattle.std.specs.Prelude.{◌≡◌, ◌↔◌, ◌<◌, ◌≤◌, ◌-◌, [], All, IsTrue, IsNone, IfOk, IfSome, false, replicate, length};
ghost use Rattle.std.specs.List.{list_any, range_with_len};
ghost use Rattle.sj_base.specs.declared.mode.Policy.TheVariants.{Prio};
ghost use Rattle.sj_pool.specs.Entry.{entry};
ghost use Rattle.sj_pool.specs.Queue.{queued, has_fitting, first_fitting, without_first_fitting, is_by_urgency};
ghost use Rattle.sj_pool.specs.Pool.{empty_pool, queue_count, home, queue, contains, put_into, with_entry, turns, serving, first_task, without_first_at, entry_for, task_for, without_entry_for, IsMostUrgent, lists, queue_at, with_entries_at};

use crate::entry::Entry;
use crate::queue::Queue;
use sj_base::ids::{Task, Worker};
use sj_base::memory::OutOfMemory;
use sj_base::mode::Policy;
use std::alloc::Global;
use std::marker::Model;

/// Ready tasks, each with a priority and the bytes of its footprint. Under `eager` and `prio` they
/// are in one queue, under `ws` in one for each worker; a queue has its entries in the order in
/// which they are taken. Each queue's list for when memory is refused is reserved in advance, so
/// that putting never fails.
#[derive(Drop)]
pub struct Pool {
    alloc: Global,
    policy: Policy,
    workers: u8,
    tasks: u32,
    queues: Vec<Queue>,
}

impl Model for Pool {
    ghost use Rattle.sj_pool.specs.Pool.{Pooled, pooled, lists, IsPool};

    ghost Value = { Pooled };

    ghost view = { λ p. pooled p.policy p.workers p.tasks (lists p.queues.items) };

    ghost invariant = { λ p. IsPool p.policy p.workers p.tasks p.queues.items };
}

/// How many queues there are.
fn queue_count(policy: Policy, workers: u8) -> u8
    ensures { result ≡ queue_count policy workers }
{
    match policy {
        Policy::Ws => workers,
        Policy::Eager | Policy::Prio => 1,
    }
}

/// So many empty queues, each for so many tasks.
fn empty_queues(alloc: Global, count: u8, tasks: u32) -> Result<Vec<Queue>, OutOfMemory>
    ensures { IfOk result (λ v. v.items ≡ replicate count (queued [] tasks)) }
{
    let mut queues = Vec::with_capacity(alloc, count as usize)?;
    for _i in 0..count {
        queues.push(Queue::empty(alloc, tasks)?)?;
    }
    Ok(queues)
}

/// The number of a worker's queue.
fn home(policy: Policy, w: Worker) -> usize
    ensures { result ≡ home policy w.0 }
{
    match policy {
        Policy::Ws => w.0 as usize,
        Policy::Eager | Policy::Prio => 0,
    }
}

/// Whether an entry fits in one of some queues.
#[tactic(auto, using(crate::proofs::Lists::of_lists))]
fn fits_at(queues: &[Queue], i: usize, room: u64) -> bool
    requires { i < length queues.now }
    ensures { result ≡ has_fitting room (queue (lists queues.now) i) }
{
    queues[i].fits(room)
}

/// Whether an entry fits in any of some queues.
fn fits_in_any(queues: &[Queue], room: u64) -> bool
    ensures { result ≡ list_any (λ q. has_fitting room q.entries) queues.now }
{
    queues.iter().any(|queue| queue.fits(room))
}

/// The first of some queues where an entry fits.
#[tactic(auto, using(crate::proofs::Serving::between))]
fn serving_between(queues: &[Queue], from: usize, to: usize, room: u64) -> Option<usize>
    requires { to ≤ length queues.now }
    ensures first { result ≡ serving (lists queues.now) room (range_with_len from (to - from)) }
    ensures within { IfSome result (λ i. i < length queues.now) }
{
    for i in from..to {
        if fits_at(queues, i, room) {
            return Some(i);
        }
    }
    None
}

/// The queue that serves a worker whose own is the first: linear in the number of queues.
#[tactic(auto, using(crate::proofs::Serving::two_parts))]
fn serving(queues: &[Queue], first: usize, room: u64) -> Option<usize>
    requires { first < length queues.now }
    ensures first { result
        ≡ serving (lists queues.now) room (turns (length (lists queues.now)) first) }
    ensures within { IfSome result (λ i. i < length queues.now) }
{
    match serving_between(queues, first, queues.len(), room) {
        Some(i) => Some(i),
        None => serving_between(queues, 0, first, room),
    }
}

/// Puts an entry into one of some queues.
fn put_at(queues: &mut Vec<Queue>, i: usize, alloc: Global, policy: Policy, entry: Entry)
    requires within { i < length queues.old.items }
    requires room { length (queue_at queues.old.items i).entries <
        (queue_at queues.old.items i).limit }
    requires in_order { policy ≡ Prio
        → IsTrue (is_by_urgency (queue_at queues.old.items i).entries) }
    ensures { queues.new.items
        ≡ with_entries_at queues.old.items i
        (put_into policy entry (queue_at queues.old.items i).entries) }
{
    queues[i].put(alloc, policy, entry);
}

/// Takes the first entry that fits out of one of some queues.
fn take_first(queues: &mut Vec<Queue>, i: usize, room: u64) -> Option<Entry>
    requires { i < length queues.old.items }
    ensures first { result ≡ first_fitting room (queue_at queues.old.items i).entries }
    ensures rest { queues.new.items
        ≡ with_entries_at queues.old.items i
        (without_first_fitting room (queue_at queues.old.items i).entries) }
{
    queues[i].take(room)
}

impl Pool {
    /// No task, and room for so many. Linear in the workers: the memory for tasks that it reserves
    /// isn't written.
    #[tactic(auto, using(crate::proofs::Lists::of_lists))]
    pub fn make(alloc: Global, policy: Policy, workers: u8, tasks: u32) -> Result<Pool, OutOfMemory>
        requires { 0 < workers }
        ensures { IfOk result (λ p. p ≡ empty_pool policy workers tasks) }
    {
        let queues = empty_queues(alloc, queue_count(policy, workers), tasks)?;
        Ok(Pool {
            alloc,
            policy,
            workers,
            tasks,
            queues,
        })
    }

    /// Puts a task into the queue of the worker that puts it: behind all others, or under `prio`
    /// behind those that are more urgent. Logarithmic in the tasks; where memory for one more is
    /// refused, linear until the queue is empty again.
    #[tactic(auto, using(crate::proofs::Lists::of_lists))]
    pub fn put(&mut self, t: Task, priority: i32, bytes: u64, by: Worker)
        requires absent { contains self.old.queues t.0 ≡ false }
        requires known_task { t.0 < self.old.limit }
        requires known_worker { by.0 < self.old.workers }
        ensures { self.new ≡ with_entry self.old (entry t priority bytes) by.0 }
    {
        let i = home(self.policy, by);
        let entry = Entry {
            task: t,
            priority,
            bytes,
        };
        put_at(&mut self.queues, i, self.alloc, self.policy, entry);
    }

    /// Takes the first entry that fits out of a queue.
    #[tactic(auto, using(crate::proofs::Lists::of_lists))]
    fn take_at(&mut self, i: usize, room: u64) -> Option<Task>
        requires { i < length self.old.queues }
        ensures task { result ≡ first_task room (queue self.old.queues i) }
        ensures rest { self.new
            ≡ record self.old { queues = without_first_at self.old.queues i room } }
    {
        take_first(&mut self.queues, i, room).map(|entry| entry.task)
    }

    /// Takes a task for a worker, by the policy among those of at most so many bytes; `None` exactly
    /// where there is none. Logarithmic in the tasks, and under `ws` linear in the workers; where
    /// memory was refused, linear in the tasks. No memory.
    pub fn take(&mut self, w: Worker, room: u64) -> Option<Task>
        requires { w.0 < self.old.workers }
        ensures task { result ≡ task_for self.old w.0 room }
        ensures rest { self.new ≡ without_entry_for self.old w.0 room }
        ensures none { IsNone result ↔ All (λ q. has_fitting room q ≡ false) self.old.queues }
    {
        match serving(&self.queues, home(self.policy, w), room) {
            None => None,
            Some(i) => self.take_at(i, room),
        }
    }

    /// Takes the first task of at most so many bytes out of a worker's own queue; `None` exactly where
    /// there is none. Logarithmic in the tasks; where memory was refused, linear. No memory.
    #[tactic(auto, using(crate::proofs::Lists::of_lists))]
    pub fn take_own(&mut self, w: Worker, room: u64) -> Option<Task>
        requires { w.0 < self.old.workers }
        ensures task { result
            ≡ first_task room (queue self.old.queues (home self.old.policy w.0)) }
        ensures rest { self.new ≡ record self.old {
          queues = without_first_at self.old.queues (home self.old.policy w.0) room;
        } }
    {
        let i = home(self.policy, w);
        take_first(&mut self.queues, i, room).map(|entry| entry.task)
    }

    /// Whether there is a task of at most so many bytes. Constant time, and under `ws` linear in the
    /// workers; where memory was refused, linear in the tasks.
    #[tactic(auto, using(crate::proofs::Lists::of_lists))]
    pub fn has_fitting(&self, room: u64) -> bool
        ensures { result ≡ list_any (has_fitting room) self.now.queues }
    {
        fits_in_any(&self.queues, room)
    }

    /// Under `prio`, what a worker takes is the most urgent of all that fit. No code: its contract is
    /// the law.
    pub fn the_most_urgent_is_taken(&self, w: Worker, room: u64)
        requires { self.now.policy ≡ Prio }
        ensures { IfSome (entry_for self.now w.0 room) (λ e. IsMostUrgent e room self.now.queues) }
    {
        let _ = &self.queues;
    }
}
