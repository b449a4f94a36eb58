//! The pool of a board when nothing has happened.

ghost use Rattle.std.specs.Prelude.{◌≡◌, ◌<◌, IfOk, None, length};
ghost use Rattle.sj_base.specs.declared.mode.Policy.TheVariants.{Prio};
ghost use Rattle.sj_core.specs.Needs.{AreFootprints};
ghost use Rattle.sj_board.specs.Filling.{with_each};
ghost use Rattle.sj_board.specs.Preparing.{AreFirst, first_pool};
ghost use Rattle.sj_pool.specs.Pool.{empty_pool};

use crate::filling::put_each;
use sj_base::ids::Task;
use sj_base::memory::OutOfMemory;
use sj_base::mode::Policy;
use sj_base::program::Program;
use sj_pool::pool::Pool;
use std::alloc::Global;

/// The pool in which these tasks are, the most urgent first. For each, logarithmic in all tasks.
fn pool_of(
    alloc: Global,
    program: &Program,
    footprints: &[u64],
    ready: &[Task],
    count: u32,
) -> Result<Pool, OutOfMemory>
    requires workers { 0 < program.now.workers }
    requires count { count ≡ length program.now.tasks }
    requires bytes { AreFootprints program.now footprints.now }
    requires first { AreFirst program.now ready.now }
    ensures { IfOk result (λ pool. pool ≡ with_each program.now None
        (empty_pool Prio program.now.workers (length program.now.tasks)) ready.now) }
{
    let mut pool = Pool::make(alloc, Policy::Prio, program.workers, count)?;
    put_each(&mut pool, program, footprints, ready, None);
    Ok(pool)
}

/// The pool of a program of so many tasks, of which these are ready: they are in it under `prio`, else none is. For each that is
/// put, logarithmic in all tasks, and linear in the workers.
pub fn first_pool(
    alloc: Global,
    program: &Program,
    policy: Policy,
    footprints: &[u64],
    ready: &[Task],
    count: u32,
) -> Result<Pool, OutOfMemory>
    requires workers { 0 < program.now.workers }
    requires count { count ≡ length program.now.tasks }
    requires bytes { AreFootprints program.now footprints.now }
    requires first { AreFirst program.now ready.now }
    ensures { IfOk result (λ pool. pool ≡ first_pool program.now policy ready.now) }
{
    match policy {
        Policy::Prio => pool_of(alloc, program, footprints, ready, count),
        Policy::Eager | Policy::Ws => Pool::make(alloc, Policy::Ws, program.workers, count),
    }
}
