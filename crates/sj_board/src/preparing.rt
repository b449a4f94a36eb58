//! What a board has beside its run when nothing has happened.

ghost use Rattle.std.specs.Prelude.{◌≡◌, ◌↔◌, ◌+◌, ◌<◌, Contains, IfOk, OnOk, length, map};
ghost use Rattle.std.specs.List.Sorted.{IsStrictlyIncreasing};
ghost use Rattle.sj_base.specs.declared.ids.Task.{Task};
ghost use Rattle.sj_deps.specs.Conflict.{Ready};
ghost use Rattle.sj_core.specs.Needs.{AreFootprints};
ghost use Rattle.sj_core.specs.Proper.{Proper};
ghost use Rattle.sj_board.specs.Preparing.{AreReadyBelow, IsPrepared, IsReadyToDeliver};

use crate::delivered::Delivered;
use crate::first_pool::first_pool;
use crate::gifts::{Gifts, count_deliveries};
use crate::hand::{EMPTY, Hand};
use sj_base::ids::Task;
use sj_base::memory::OutOfMemory;
use sj_base::mode::Policy;
use sj_base::program::Program;
use sj_deps::deps::Deps;
use sj_pool::pool::Pool;
use std::alloc::Global;

/// Appends a task, if it is ready, to those before it that are. Constant time, but for moving the list as it grows.
fn add_if_ready(deps: &Deps, ready: &mut Vec<Task>, t: Task) -> Result<(), OutOfMemory>
    requires { AreReadyBelow deps.now.program deps.now.done t.0 ready.old.items }
    ensures { OnOk result (AreReadyBelow deps.now.program deps.now.done (t.0 + 1) ready.new.items) }
{
    if deps.is_ready(t) {
        ready.push(t)?;
    }
    Ok(())
}

/// The tasks that are ready, by number. Linear in all tasks.
pub fn ready_tasks(alloc: Global, deps: &Deps, count: u32) -> Result<Vec<Task>, OutOfMemory>
    requires { count ≡ length deps.now.program.tasks }
    ensures each { IfOk result (λ v. (u : Task) →
        Contains v.items u ↔ Ready deps.now.program deps.now.done u.0) }
    ensures by_number { IfOk result (λ v. IsStrictlyIncreasing (map (λ u. u.0) v.items)) }
{
    let mut ready = Vec::new(alloc);
    for i in 0..count {
        add_if_ready(deps, &mut ready, Task(i))?;
    }
    Ok(ready)
}

/// What a board has beside its run.
#[derive(Drop)]
pub struct BoardParts {
    pub deps: Deps,
    pub footprints: Vec<u64>,
    pub hands: Vec<Hand>,
    pub pool: Pool,
    pub gifts: Gifts,
    pub delivered: Delivered,
}

/// What a board has beside its run when nothing has happened: under `prio` its ready tasks are in the pool, and there is room for
/// what its deliver tasks hand over. Linear in the tasks and their accesses, and for each ready task logarithmic in all.
pub fn prepare(
    alloc: Global,
    program: &Program,
    footprints: Vec<u64>,
    policy: Policy,
) -> Result<BoardParts, OutOfMemory>
    requires proper { Proper program.now }
    requires workers { 0 < program.now.workers }
    requires footprints { AreFootprints program.now footprints.items }
    ensures prepared { IfOk result (λ r. IsPrepared program.now policy r.deps r.footprints.items
        r.hands.items r.pool) }
    ensures delivers { IfOk result (λ r. IsReadyToDeliver program.now r.gifts r.delivered) }
{
    let count = program.tasks.len() as u32;
    let deps = Deps::of(alloc, program)?;
    let hands = vec![in alloc; EMPTY; program.workers as usize]?;
    let gifts = Gifts::none(alloc, program.workers)?;
    let delivered = Delivered::with_room(alloc, count_deliveries(program))?;
    let ready = ready_tasks(alloc, &deps, count)?;
    let pool = first_pool(alloc, program, policy, &footprints, &ready, count)?;
    Ok(BoardParts {
        deps,
        footprints,
        hands,
        pool,
        gifts,
        delivered,
    })
}
