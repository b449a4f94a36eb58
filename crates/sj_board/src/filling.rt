//! Ready tasks that are put into the pool.

ghost use Rattle.std.specs.Prelude.{◌≡◌, ◌<◌, false, length};
ghost use Rattle.sj_core.specs.Needs.{AreFootprints};
ghost use Rattle.sj_board.specs.Filling.{entry_of, CanPutEach, putter, with_each};
ghost use Rattle.sj_pool.specs.Pool.{contains, with_entry};

use sj_base::ids::{Task, Worker};
use sj_base::program::Program;
use sj_pool::pool::Pool;

/// Puts a task into the pool. Logarithmic in the tasks; linear where memory is refused.
pub fn put_ready(pool: &mut Pool, program: &Program, footprints: &[u64], t: Task, by: Worker)
    requires task { t.0 < length program.now.tasks }
    requires bytes { AreFootprints program.now footprints.now }
    requires absent { contains pool.old.queues t.0 ≡ false }
    requires known_task { t.0 < pool.old.limit }
    requires known_worker { by.0 < pool.old.workers }
    ensures { pool.new ≡ with_entry pool.old (entry_of program.now t) by.0 }
{
    let i = t.0 as usize;
    let priority = program.tasks.items()[i].priority;
    pool.put(t, priority, footprints[i], by);
}

/// The worker that puts a task: the one that is given, or the one whose number is the task's, modulo the workers. Constant
/// time.
fn putter(program: &Program, by: Option<Worker>, t: Task) -> Worker
    requires { 0 < program.now.workers }
    ensures { result.0 ≡ putter program.now by t }
{
    match by {
        Some(w) => w,
        None => Worker((t.0 % program.workers as u32) as u8),
    }
}

/// Puts tasks into the pool one after another. For each, logarithmic in the tasks; linear where memory is refused.
pub fn put_each(
    pool: &mut Pool,
    program: &Program,
    footprints: &[u64],
    ready: &[Task],
    by: Option<Worker>,
)
    requires workers { 0 < program.now.workers }
    requires bytes { AreFootprints program.now footprints.now }
    requires can { CanPutEach program.now by pool.old ready.now }
    ensures { pool.new ≡ with_each program.now by pool.old ready.now }
{
    for t in ready {
        let w = putter(program, by, *t);
        put_ready(pool, program, footprints, *t, w);
    }
}
