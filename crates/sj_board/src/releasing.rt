//! The tasks that become ready as a task ends.

ghost use Rattle.std.specs.Prelude.{◌≡◌, ◌<◌, List, Some};
ghost use Rattle.sj_base.specs.declared.ids.Task.{Task};
ghost use Rattle.sj_deps.specs.Conflict.{Ready};
ghost use Rattle.sj_deps.specs.Progress.{after_done};
ghost use Rattle.sj_core.specs.Needs.{AreFootprints};
ghost use Rattle.sj_board.specs.Filling.{CanPutEach};
ghost use Rattle.sj_board.specs.Releasing.{AreReleased, Releases};

use crate::filling::put_each;
use sj_base::ids::{Task, Worker};
use sj_base::program::Program;
use sj_deps::deps::Deps;
use sj_pool::pool::Pool;

/// Takes a task as done, and puts the tasks that become ready into the pool, by number. Linear in the accesses that are
/// released, and for each of these tasks logarithmic in all; no memory.
pub fn release(
    deps: &mut Deps,
    pool: &mut Pool,
    program: &Program,
    footprints: &[u64],
    t: Task,
    w: Worker,
)
    requires ready { Ready deps.old.program deps.old.done t.0 }
    requires workers { 0 < program.now.workers }
    requires bytes { AreFootprints program.now footprints.now }
    requires can { (ts : List Task) → AreReleased deps.old t ts →
        CanPutEach program.now (Some w) pool.old ts }
    ensures deps { deps.new ≡ after_done deps.old t.0 }
    ensures pool { Releases program.now deps.old t w pool.old pool.new }
{
    let ready = deps.done(t);
    put_each(pool, program, footprints, ready, Some(w));
}
