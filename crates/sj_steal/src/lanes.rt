//! The queues of a pool, and the stakes that a worker has in them, one in each.

ghost use Rattle.std.specs.Prelude.{◌≡◌, ◌+◌, ◌<◌, All, IfOk, OnOk, length, map, sum_by};
ghost use Rattle.sj_base.specs.declared.ids.Task.{Task};
ghost use Rattle.sj_steal.specs.Account.{times};
ghost use Rattle.sj_steal.specs.Facts.{lanes_of, new_stake, parts_of, put_through, taken_through, with_a_part_less};
ghost use Rattle.sj_pool.specs.Pool.{home, queue_count};

use crate::lane::{Lane, Stake, drain};
use sj_base::ids::Task;
use sj_base::memory::OutOfMemory;
use sj_base::mode::Policy;
use std::alloc::Global;
use std::sync::Wait;

/// How many queues there are.
pub fn queue_count(policy: Policy, workers: u8) -> u8
    ensures { result ≡ queue_count policy workers }
{
    match policy {
        Policy::Eager | Policy::Prio => 1,
        Policy::Ws => workers,
    }
}

/// The number of the queue in which a worker puts.
pub fn home(policy: Policy, number: u8) -> u8
    ensures { result ≡ home policy number }
{
    match policy {
        Policy::Eager | Policy::Prio => 0,
        Policy::Ws => number,
    }
}

/// So many empty queues, and a stake with every part in each.
pub fn open_lanes(alloc: Global, count: u8) -> Result<(Vec<Lane>, Vec<Stake>), OutOfMemory>
    ensures count { IfOk result (λ r. length r.0.items ≡ count) }
    ensures whole { IfOk result (λ r. r.1.items ≡ map (new_stake 256) r.0.items) }
{
    let mut lanes = Vec::with_capacity(alloc, count as usize)?;
    let mut stakes = Vec::with_capacity(alloc, count as usize)?;
    for number in 0..count {
        let (lane, stake) = Lane::open(alloc, number)?;
        lanes.push(lane)?;
        stakes.push(stake)?;
    }
    Ok((lanes, stakes))
}

/// One more stake in each queue, with one part of another's.
pub fn dealt(
    alloc: Global,
    lanes: &Vec<Lane>,
    rest: &mut Vec<Stake>,
) -> Result<Vec<Stake>, OutOfMemory>
    requires of { lanes_of rest.old.items ≡ lanes.now.items }
    requires parts { All (λ parts. 1 < parts) (parts_of rest.old.items) }
    ensures left { OnOk result (rest.new.items ≡ map with_a_part_less rest.old.items) }
    ensures new { IfOk result (λ stakes. stakes.items ≡ map (new_stake 1) lanes.now.items) }
{
    let mut stakes = Vec::with_capacity(alloc, lanes.len())?;
    for k in 0..lanes.len() {
        stakes.push(lanes[k].deal(&mut rest[k]))?;
    }
    Ok(stakes)
}

/// Gives all that some stakes have to others in the same queues.
pub fn merge(lanes: &Vec<Lane>, whole: &mut Vec<Stake>, mut stakes: Vec<Stake>)
    requires of { (lanes_of whole.old.items ≡ lanes.now.items)
        × (lanes_of stakes.items ≡ lanes.now.items) }
    requires some { All (λ parts. 0 < parts) (parts_of whole.old.items) }
    requires one { All (λ parts. parts ≡ 1) (parts_of stakes.items) }
    ensures of { lanes_of whole.new.items ≡ lanes.now.items }
    ensures parts { parts_of whole.new.items
        ≡ map (λ parts. parts + 1) (parts_of whole.old.items) }
    ensures put { (t : Task) → times t (put_through whole.new.items)
        ≡ times t (put_through whole.old.items) + times t (put_through stakes.items) }
    ensures taken { (t : Task) → times t (taken_through whole.new.items)
        ≡ times t (taken_through whole.old.items) + times t (taken_through stakes.items) }
{
    while let Some(stake) = stakes.pop() {
        let k = stakes.len();
        lanes[k].gather(&mut whole[k], stake);
    }
}

/// Takes what is left in all queues, by stakes with every part.
pub fn drained<R: Wait>(
    rt: &R,
    alloc: Global,
    mut lanes: Vec<Lane>,
    mut stakes: Vec<Stake>,
) -> Result<Vec<Task>, OutOfMemory>
    requires of { lanes_of stakes.items ≡ lanes.items }
    requires parts { All (λ parts. parts ≡ 256) (parts_of stakes.items) }
    ensures { IfOk result (λ left. (t : Task) → times t (put_through stakes.items)
        ≡ times t (taken_through stakes.items) + times t left.items) }
{
    let mut left = Vec::new(alloc);
    while let Some(lane) = lanes.pop() {
        let Some(stake) = stakes.pop() else {
            unreachable!()
        };
        drain(rt, lane, stake, &mut left)?;
    }
    Ok(left)
}
