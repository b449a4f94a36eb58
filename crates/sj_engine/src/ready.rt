//! Where a worker gets ready tasks.

ghost use Rattle.std.specs.Prelude.{◌≡◌, ℕ, IfSome, IfNone, OnErr, OnOk, true};
ghost use Rattle.sj_base.specs.declared.mode.Policy.{Policy};
ghost use Rattle.sj_engine.specs.Ready.{IsPassBy, IsPassOfQueues, IsItsSource, PutsNumber, StaysItsSource, TakesNumber, is_shared, queues_of};

use sj_base::ids::Task;
use sj_base::memory::OutOfMemory;
use sj_steal::shared::{Pass, Shared};
use std::sync::Wait;

/// Where a worker gets ready tasks: from the board, where the policy is `prio`, or else from queues that all workers share, by
/// its own pass.
#[derive(Drop)]
pub enum ReadyFrom<'a> {
    Board,
    Shared(&'a Shared, Pass),
}

impl<'a> ReadyFrom<'a> {
    /// From shared queues by this pass, or from the board where there are none. Constant time.
    pub fn new(queues: &'a Option<Shared>, pass: Option<Pass>) -> ReadyFrom<'a>
        ensures { (policy : Policy) (number : ℕ) → IsPassBy queues.now policy number pass
            → (queues_of result ≡ queues.now) × IsItsSource policy number result }
    {
        match (queues, pass) {
            (Some(shared), Some(pass)) => ReadyFrom::Shared(shared, pass),
            _ => ReadyFrom::Board,
        }
    }

    /// The pass, where it has one. Constant time.
    pub fn into_pass(self) -> Option<Pass>
        ensures { (policy : Policy) (number : ℕ) → IsItsSource policy number self.entry
            → IsPassBy (queues_of self.entry) policy number result }
    {
        match self {
            ReadyFrom::Board => None,
            ReadyFrom::Shared(_, pass) => Some(pass),
        }
    }
}

impl ReadyFrom<'_> {
    /// Whether ready tasks wait in shared queues. Constant time.
    pub fn is_shared(&self) -> bool
        ensures { result ≡ is_shared self.now }
    {
        match self {
            ReadyFrom::Board => false,
            ReadyFrom::Shared(_, _) => true,
        }
    }

    /// Takes the number of a task from the shared queues; `None` where none was found, and always from the board. It may wait for
    /// the put or the take of another worker. The cost of [`sj_steal::shared::Shared::take`].
    pub fn take<R: Wait>(&mut self, rt: &R) -> Option<Task>
        requires of { IsPassOfQueues self.old }
        ensures stays { StaysItsSource self.old self.new }
        ensures of { IsPassOfQueues self.new }
        ensures some { IfSome result (λ t. TakesNumber self.old t self.new) }
        ensures none { IfNone result (self.new ≡ self.old) }
    {
        match self {
            ReadyFrom::Board => None,
            ReadyFrom::Shared(shared, pass) => shared.take(rt, pass).ok(),
        }
    }

    /// Puts the number of a task into the worker's queue. The cost of [`sj_steal::shared::Shared::put`].
    pub fn put<R: Wait>(&mut self, rt: &R, t: Task) -> Result<(), OutOfMemory>
        requires of { IsPassOfQueues self.old }
        requires shared { is_shared self.old ≡ true }
        ensures stays { StaysItsSource self.old self.new }
        ensures of { IsPassOfQueues self.new }
        ensures shared { is_shared self.new ≡ true }
        ensures ok { OnOk result (PutsNumber self.old t self.new) }
        ensures err { OnErr result (self.new ≡ self.old) }
    {
        match self {
            ReadyFrom::Board => unreachable!(),
            ReadyFrom::Shared(shared, pass) => shared.put(rt, pass, t),
        }
    }
}
