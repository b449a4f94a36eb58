//! A pool that workers share: one queue under the policy `eager`, one for each worker under `ws`, and for each worker a pass.

ghost use Rattle.std.specs.Prelude.{◌≡◌, ◌≢◌, ◌+◌, ◌<◌, All, IfOk, IfSome, IfNone, OnOk, OnErr, length, map};
ghost use Rattle.sj_base.specs.declared.ids.Task.{Task};
ghost use Rattle.sj_base.specs.declared.mode.Policy.TheVariants.{Eager, Prio};
ghost use Rattle.sj_steal.specs.Account.{times};
ghost use Rattle.sj_steal.specs.Facts.{pool, lanes_of, new_passes, new_stake, parts_of, put_through, taken_through, having_put, having_taken, HasTaken, AreAllPasses, HasTakenAll, AreBalanced, puts_of, takes_of};
ghost use Rattle.sj_pool.specs.Pool.{queue_count};

use crate::lane::{Lane, Stake};
use crate::lanes::{dealt, drained, home, merge, open_lanes, queue_count};
use sj_base::ids::Task;
use sj_base::memory::OutOfMemory;
use sj_base::mode::Policy;
use std::alloc::Global;
use std::marker::Model;
use std::sync::Wait;

/// Ready tasks in queues that workers share.
#[derive(Drop)]
pub struct Shared {
    policy: Policy,
    workers: u8,
    lanes: Vec<Lane>,
}

impl Model for Shared {
    ghost use Rattle.std.specs.Prelude.{◌≡◌, ◌<◌, length};
    ghost use Rattle.sj_steal.specs.Facts.{SharedFacts, pool};
    ghost use Rattle.sj_pool.specs.Pool.{queue_count};

    ghost Value = { SharedFacts };

    ghost view = { λ c. pool c.policy c.workers c.lanes.items };

    ghost invariant = { λ c. (0 < c.workers)
        × (length c.lanes.items ≡ queue_count c.policy c.workers) };
}

/// No task was found.
#[derive(Clone, Copy, Debug, PartialEq, Eq)]
pub struct Empty;

/// What one worker has put and taken. It isn't of another pool, and has no copy.
#[derive(Drop)]
pub struct Pass {
    policy: Policy,
    workers: u8,
    number: u8,
    stakes: Vec<Stake>,
}

impl Model for Pass {
    ghost use Rattle.sj_steal.specs.Facts.{AreStakes, PassFacts, lanes_of, pool, put_through, taken_through};

    ghost Value = { PassFacts };

    ghost view = { λ p. record { shared = pool p.policy p.workers (lanes_of p.stakes.items); number = p.number; put = put_through p.stakes.items; taken = taken_through p.stakes.items } };

    ghost invariant = { λ p. AreStakes p.policy p.number p.workers p.stakes.items };
}

/// A pass for each worker, of queues that nobody has used.
fn passes(
    alloc: Global,
    lanes: &Vec<Lane>,
    policy: Policy,
    workers: u8,
    mut rest: Vec<Stake>,
) -> Result<Vec<Pass>, OutOfMemory>
    requires some { 0 < workers }
    requires count { length lanes.now.items ≡ queue_count policy workers }
    requires whole { rest.items ≡ map (new_stake 256) lanes.now.items }
    ensures { IfOk result (λ v. v.items ≡ new_passes (pool policy workers lanes.now.items)) }
{
    let mut passes = Vec::with_capacity(alloc, workers as usize)?;
    for number in 0..workers - 1 {
        let stakes = dealt(alloc, lanes, &mut rest)?;
        passes.push(Pass {
            policy,
            workers,
            number,
            stakes,
        })?;
    }
    passes.push(Pass {
        policy,
        workers,
        number: workers - 1,
        stakes: rest,
    })?;
    Ok(passes)
}

/// Gives all that the passes have to one stake in each queue.
fn gathered(lanes: &Vec<Lane>, policy: Policy, workers: u8, mut passes: Vec<Pass>) -> Vec<Stake>
    requires some { 0 < workers }
    requires all { AreAllPasses (pool policy workers lanes.now.items) passes.items }
    ensures of { lanes_of result.items ≡ lanes.now.items }
    ensures parts { All (λ parts. parts ≡ 256) (parts_of result.items) }
    ensures put { (t : Task) → times t (put_through result.items) ≡ puts_of t passes.items }
    ensures taken { (t : Task) → times t (taken_through result.items) ≡ takes_of t passes.items }
{
    let Some(last) = passes.pop() else {
        unreachable!()
    };
    let Pass {
        policy: _,
        workers: _,
        number: _,
        stakes: mut whole,
    } = last;
    while let Some(pass) = passes.pop() {
        let Pass {
            policy: _,
            workers: _,
            number: _,
            stakes,
        } = pass;
        merge(lanes, &mut whole, stakes);
    }
    whole
}

impl Shared {
    /// An empty pool under `eager` or `ws` for so many workers, and a pass for each of them, in the order of their numbers.
    /// Linear in the workers, and under `ws` quadratic.
    pub fn make(
        alloc: Global,
        policy: Policy,
        workers: u8,
    ) -> Result<(Shared, Vec<Pass>), OutOfMemory>
        requires in_queues { policy ≢ Prio }
        requires some { 0 < workers }
        ensures policy { IfOk result (λ r. r.0.policy ≡ policy) }
        ensures workers { IfOk result (λ r. r.0.workers ≡ workers) }
        ensures new { IfOk result (λ r. r.1.items ≡ new_passes r.0) }
        ensures in_place { IfOk result (λ r. AreAllPasses r.0 r.1.items) }
    {
        let (lanes, stakes) = open_lanes(alloc, queue_count(policy, workers))?;
        let passes = passes(alloc, &lanes, policy, workers, stakes)?;
        Ok((
            Shared {
                policy,
                workers,
                lanes,
            },
            passes,
        ))
    }

    /// Puts a task at the back, under `ws` of the worker's own queue. Where memory is refused, nothing was put. It may take
    /// memory, and wait for the put of another worker. Constant time beside that.
    pub fn put<R: Wait>(&self, rt: &R, pass: &mut Pass, t: Task) -> Result<(), OutOfMemory>
        requires of { pass.old.shared ≡ self.now }
        ensures of { pass.new.shared ≡ self.now }
        ensures number { pass.new.number ≡ pass.old.number }
        ensures ok { OnOk result (pass.new ≡ having_put pass.old t) }
        ensures err { OnErr result (pass.new ≡ pass.old) }
    {
        let own = home(self.policy, pass.number) as usize;
        self.lanes[own].put(rt, &mut pass.stakes[own], t)
    }

    /// Takes the task at the front of one queue.
    fn take_from<R: Wait>(&self, rt: &R, pass: &mut Pass, k: usize) -> Option<Task>
        requires of { pass.old.shared ≡ self.now }
        requires lane { k < length self.now.lanes }
        ensures of { pass.new.shared ≡ self.now }
        ensures number { pass.new.number ≡ pass.old.number }
        ensures some { IfSome result (λ t. HasTaken pass.old t pass.new) }
        ensures order { IfSome result
            (λ t. self.now.policy ≡ Eager → pass.new ≡ having_taken pass.old t) }
        ensures none { IfNone result (pass.new ≡ pass.old) }
        ensures empty { IfNone result (self.now.workers ≡ 1 → HasTakenAll pass.old) }
    {
        self.lanes[k].take(rt, &mut pass.stakes[k])
    }

    /// Takes the task at the front of the first of the other queues that has one, from the next one on.
    fn take_from_others<R: Wait>(&self, rt: &R, pass: &mut Pass, own: usize) -> Result<Task, Empty>
        requires of { pass.old.shared ≡ self.now }
        requires lane { own < length self.now.lanes }
        ensures of { pass.new.shared ≡ self.now }
        ensures number { pass.new.number ≡ pass.old.number }
        ensures ok { IfOk result (λ t. HasTaken pass.old t pass.new) }
        ensures order { IfOk result
            (λ t. self.now.policy ≡ Eager → pass.new ≡ having_taken pass.old t) }
        ensures err { OnErr result (pass.new ≡ pass.old) }
    {
        let count = self.lanes.len();
        for step in 1..count {
            if let Some(t) = self.take_from(rt, pass, (own + step) % count) {
                return Ok(t);
            }
        }
        Err(Empty)
    }

    /// Takes the task at the front, under `ws` of the worker's own queue, else of the first that has one among those of the
    /// workers after it, cyclically. `Empty` only where each queue was empty at a step of this call. It may wait for the put or
    /// the take of another worker. Constant time beside that, under `ws` linear in the workers, and no memory.
    pub fn take<R: Wait>(&self, rt: &R, pass: &mut Pass) -> Result<Task, Empty>
        requires of { pass.old.shared ≡ self.now }
        ensures of { pass.new.shared ≡ self.now }
        ensures number { pass.new.number ≡ pass.old.number }
        ensures ok { IfOk result (λ t. HasTaken pass.old t pass.new) }
        // Under `eager` the tasks that a pass took are in their order.
        ensures order { IfOk result
            (λ t. self.now.policy ≡ Eager → pass.new ≡ having_taken pass.old t) }
        ensures err { OnErr result (pass.new ≡ pass.old) }
        ensures empty { OnErr result (self.now.workers ≡ 1 → HasTakenAll pass.old) }
    {
        let own = home(self.policy, pass.number) as usize;
        let Some(t) = self.take_from(rt, pass, own) else {
            return self.take_from_others(rt, pass, own);
        };
        Ok(t)
    }

    /// Ends the pool, with all its passes, and gives what is left. As often as a task was put, it was taken or is left. Where
    /// memory is refused, the pool and its passes are gone. Linear in the workers, under `ws` quadratic, and in the tasks that
    /// are left.
    pub fn close<R: Wait>(
        self,
        rt: &R,
        alloc: Global,
        passes: Vec<Pass>,
    ) -> Result<Vec<Task>, OutOfMemory>
        requires all { AreAllPasses self passes.items }
        ensures balanced { IfOk result (λ left. AreBalanced passes.items left.items) }
    {
        let stakes = gathered(&self.lanes, self.policy, self.workers, passes);
        drained(rt, alloc, self.lanes, stakes)
    }
}
