//! Tasks that workers' ends have released, and that they take away.

ghost use Rattle.std.specs.Prelude.{◌≡◌, ◌↔◌, ◌++◌, ◌<◌, ◌≤◌, [], All, IfSome, None};
ghost use Rattle.std.specs.Option.{option_to_list};
ghost use Rattle.sj_board.specs.Board.{has_released, released_of};
ghost use Rattle.sj_board.specs.Claimable.{IsReadyWhereItWaits};

use super::Board;
use sj_base::ids::{Task, Worker};
use sj_base::mode::Policy;
use sj_edge::disk::Disk;

impl<D: Disk> Board<D> {
    /// Takes away and gives the least task that an end of the worker has made ready and that this call hasn't given; `None`
    /// exactly where there is none, so always under `prio`. Such a task is ready; it waits, unless it was claimed before it was
    /// taken away. Logarithmic in the tasks, linear where memory was refused; no memory.
    pub fn released(&mut self, w: Worker) -> Option<Task>
        requires { w.0 < self.old.run.program.workers }
        ensures takes { self.new ≡ has_released self.old w }
        ensures first { released_of self.old w
            ≡ option_to_list result ++ released_of self.new w }
        ensures least { IfSome result (λ t. All (λ u. t.0 ≤ u.0) (released_of self.old w)) }
        ensures ready { IfSome result (IsReadyWhereItWaits self.old) }
        ensures none { (result ≡ None) ↔ (released_of self.old w ≡ []) }
    {
        match self.policy() {
            Policy::Prio => None,
            Policy::Eager | Policy::Ws => self.pool.take_own(w, u64::MAX),
        }
    }
}
