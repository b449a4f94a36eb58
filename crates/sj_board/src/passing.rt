//! What the pool gives a worker that has passed some tasks.

ghost use Rattle.std.specs.Prelude.{◌≡◌, ◌<◌, IfSome};
ghost use Rattle.sj_base.specs.declared.mode.Policy.TheVariants.{Prio};
ghost use Rattle.sj_core.specs.Needs.{AreFootprints};
ghost use Rattle.sj_board.specs.Passing.{IsPoolOf, IsTakenBehind, is_among};
ghost use Rattle.sj_pool.specs.Pool.{IsMostUrgent, entry_for};

use crate::filling::put_ready;
use sj_base::ids::{Task, Worker};
use sj_base::mode::Policy;
use sj_base::program::Program;
use sj_pool::pool::Pool;

/// Whether a task is one of these. Linear in them.
fn is_among(passed: &[Task], t: Task) -> bool
    ensures { result ≡ is_among passed.now t }
{
    passed.iter().any(|u| u.0 == t.0)
}

/// Under `prio`, what a worker takes is the most urgent of all that fit. Constant time.
fn is_most_urgent(pool: &Pool, policy: Policy, w: Worker, room: u64)
    requires { pool.now.policy ≡ policy }
    ensures { pool.now.policy ≡ Prio →
        IfSome (entry_for pool.now w.0 room) (λ e. IsMostUrgent e room pool.now.queues) }
{
    if policy == Policy::Prio {
        pool.the_most_urgent_is_taken(w, room);
    }
}

/// Takes a task for a worker that wasn't passed, by the policy among those of at most so many bytes. Those that are taken on the
/// way, as they were passed, go back: each to its place under `prio`, else behind the worker's others. For each of these
/// linear in those that were passed, logarithmic in the tasks, and under `ws` linear in the workers; no memory.
pub fn take_behind(
    pool: &mut Pool,
    program: &Program,
    footprints: &[u64],
    policy: Policy,
    w: Worker,
    room: u64,
    passed: &[Task],
) -> Option<Task>
    requires worker { w.0 < program.now.workers }
    requires bytes { AreFootprints program.now footprints.now }
    requires pool { IsPoolOf program.now pool.old }
    requires policy { pool.old.policy ≡ policy }
    ensures { IsTakenBehind program.now passed.now w.0 room pool.old pool.new result }
{
    is_most_urgent(pool, policy, w, room);
    let Some(t) = pool.take(w, room) else {
        return None;
    };
    if !is_among(passed, t) {
        return Some(t);
    }
    let other = take_behind(pool, program, footprints, policy, w, room, passed);
    put_ready(pool, program, footprints, t, w);
    other
}
