//! Claims on whole boards, up to the one that is refused.

ghost use Rattle.std.specs.Prelude.{◌≡◌, ◌≢◌, ◌<◌, ◌≤◌, ◌^◌, None, OnOk};
ghost use Rattle.sj_base.specs.declared.ids.Worker.{Worker};
ghost use Rattle.sj_base.specs.declared.mode.Policy.TheVariants.{Prio};
ghost use Rattle.sj_board.specs.Standing.{AllTell};
ghost use Rattle.sj_base.specs.Ids.{worker};
ghost use Rattle.sj_board.specs.Board.{HasTakenReleased, IsFree};

use crate::opening::opened;
use crate::steps::{Claim, carried_out, claimed, claimed_outside, ended, tried};
use sj_base::ids::{Task, Worker};
use sj_base::mode::Policy;
use sj_board::board::Board;
use sj_board::claimable::Claimable;
use sj_edge::disk::Disk;
use std::alloc::Global;
use std::test::Fail;

/// Each of three workers claims a task.
fn three_claims<D: Disk>(alloc: Global, board: &mut Board<D>) -> Result<(Claim, Claim, Claim), Fail>
    requires free { (w : Worker) → w.0 < 3 → IsFree board.old w }
    requires by_urgency { board.old.run.machine.policy ≡ Prio }
    requires no_fault { board.old.fault ≡ None }
{
    let first = claimed(alloc, board, Worker(0))?;
    let second = claimed(alloc, board, Worker(1))?;
    let third = claimed(alloc, board, Worker(2))?;
    Ok((first, second, third))
}

/// Each of three workers claims a task of a job.
pub fn claims_of_three<D: Disk>(
    alloc: Global,
    text: &str,
    disk: D,
) -> Result<(Claim, Claim, Claim), Fail>
    requires small { D.size disk ≤ 2 ^ 40 }
    requires silent { D.held disk ≡ None }
{
    let mut board = opened(alloc, text, disk, Policy::Prio)?;
    if board.program().workers < 3 {
        return Err(Fail::new("there are fewer workers"));
    }
    three_claims(alloc, &mut board)
}

/// A worker carries out two tasks, which fill cells, and claims a third one; then another claims a fourth one.
fn fourth_claim<D: Disk>(
    alloc: Global,
    board: &mut Board<D>,
) -> Result<(Task, Task, Claim, Claim), Fail>
    requires free { (w : Worker) → w.0 < 2 → IsFree board.old w }
    requires by_urgency { board.old.run.machine.policy ≡ Prio }
    requires no_fault { board.old.fault ≡ None }
    requires silent { ¬ AllTell D.held board.old.run }
{
    let first = carried_out(alloc, board, Worker(0))?;
    let second = carried_out(alloc, board, Worker(0))?;
    let third = claimed(alloc, board, Worker(0))?;
    let fourth = claimed(alloc, board, Worker(1))?;
    Ok((first, second, third, fourth))
}

/// On the board of a job, a worker carries out two tasks, which fill cells, and claims a third one; then another claims a fourth
/// one.
pub fn claims_after_two<D: Disk>(
    alloc: Global,
    text: &str,
    disk: D,
) -> Result<(Task, Task, Claim, Claim), Fail>
    requires small { D.size disk ≤ 2 ^ 40 }
    requires silent { D.held disk ≡ None }
{
    let mut board = opened(alloc, text, disk, Policy::Prio)?;
    if board.program().workers < 2 {
        return Err(Fail::new("there are fewer workers"));
    }
    fourth_claim(alloc, &mut board)
}

/// A worker tries to claim a task that it hasn't passed, and is to be refused that.
fn refused<D: Disk>(
    alloc: Global,
    board: &mut Board<D>,
    w: Worker,
    passed: &[Task],
) -> Result<Task, Fail>
    requires free { IsFree board.old w }
    requires by_urgency { board.old.run.machine.policy ≡ Prio }
    requires no_fault { board.old.fault ≡ None }
    ensures no_fault { board.new.fault ≡ None }
    ensures policy { board.new.run.machine.policy ≡ board.old.run.machine.policy }
    ensures free { OnOk result (IsFree board.new w) }
{
    match tried(alloc, board, w, passed)? {
        (t, Err(_)) => Ok(t),
        (_, Ok(())) => Err(Fail::new("the claim isn't refused")),
    }
}

/// A worker's look: three tries, each of them refused, and a fourth one.
fn look<D: Disk>(alloc: Global, board: &mut Board<D>, w: Worker) -> Result<([Task; 3], Claim), Fail>
    requires free { IsFree board.old w }
    requires by_urgency { board.old.run.machine.policy ≡ Prio }
    requires no_fault { board.old.fault ≡ None }
{
    let first = refused(alloc, board, w, &[])?;
    let second = refused(alloc, board, w, &[first])?;
    let third = refused(alloc, board, w, &[first, second])?;
    let passed = [first, second, third];
    let fourth = tried(alloc, board, w, &passed)?;
    Ok((passed, fourth))
}

/// A worker carries out two tasks, which fill cells, and claims a third one; then another looks for one that it may claim.
fn look_after_two<D: Disk>(alloc: Global, board: &mut Board<D>) -> Result<([Task; 3], Claim), Fail>
    requires free { (w : Worker) → w.0 < 2 → IsFree board.old w }
    requires by_urgency { board.old.run.machine.policy ≡ Prio }
    requires no_fault { board.old.fault ≡ None }
    requires silent { ¬ AllTell D.held board.old.run }
{
    carried_out(alloc, board, Worker(0))?;
    carried_out(alloc, board, Worker(0))?;
    let (_, Ok(())) = claimed(alloc, board, Worker(0))? else {
        return Err(Fail::new("the claim is refused"));
    };
    look(alloc, board, Worker(1))
}

/// On the board of a job, a worker carries out two tasks, which fill cells, and claims a third one; then another looks for one
/// that it may claim.
pub fn looks_of_two<D: Disk>(alloc: Global, text: &str, disk: D) -> Result<([Task; 3], Claim), Fail>
    requires small { D.size disk ≤ 2 ^ 40 }
    requires silent { D.held disk ≡ None }
{
    let mut board = opened(alloc, text, disk, Policy::Prio)?;
    if board.program().workers < 2 {
        return Err(Fail::new("there are fewer workers"));
    }
    look_after_two(alloc, &mut board)
}

/// A worker claims the first task, which fills a cell, ends it, and takes away what it has released; and whether it may claim
/// that.
fn release<D: Disk>(
    alloc: Global,
    board: &mut Board<D>,
) -> Result<(Option<Task>, Option<Task>, Claimable), Fail>
    requires outside { board.old.run.machine.policy ≢ Prio }
    requires free { IsFree board.old (worker 0) }
    requires taken { HasTakenReleased board.old (worker 0) }
    requires no_fault { board.old.fault ≡ None }
    requires silent { ¬ AllTell D.held board.old.run }
{
    claimed_outside(alloc, board, Worker(0), Task(0))?;
    ended(alloc, board, Worker(0), Task(0))?;
    let first = board.released(Worker(0));
    let second = board.released(Worker(0));
    let again = board.may_claim(Task(0), Worker(0));
    Ok((first, second, again))
}

/// On the board of a job under `eager`, a worker claims the first task, which fills a cell, ends it, and takes away what it has
/// released: the first of these tasks, the second, and whether the task that is done may be claimed.
pub fn releases_of_one<D: Disk>(
    alloc: Global,
    text: &str,
    disk: D,
) -> Result<(Option<Task>, Option<Task>, Claimable), Fail>
    requires small { D.size disk ≤ 2 ^ 40 }
    requires silent { D.held disk ≡ None }
{
    let mut board = opened(alloc, text, disk, Policy::Eager)?;
    if board.program().workers < 1 {
        return Err(Fail::new("there is no worker"));
    }
    release(alloc, &mut board)
}
