//! What a worker does on a board, step by step.

ghost use Rattle.std.specs.Prelude.{◌≡◌, ◌≢◌, ◌≤◌, ◌^◌, ◌∷◌, [], IfOk, IfSome, None, OnErr, OnOk, map};
ghost use Rattle.sj_base.specs.Array.{area};
ghost use Rattle.sj_base.specs.declared.mode.Policy.TheVariants.{Prio};
ghost use Rattle.sj_core.specs.Program.{dims_of, task_of, written_operands};
ghost use Rattle.sj_board.specs.Standing.{AllTell};
ghost use Rattle.sj_board.specs.Board.{HasTakenReleased, IsFree, released_of};
ghost use Rattle.board_tests.specs.Steps.{HasClaimed, IsStepOf};
ghost use Rattle.sj_base.specs.Mode.{reads_of};

use sj_base::ids::{Task, Worker};
use sj_base::mode::Mode;
use sj_base::program::Program;
use sj_base::tile::{Dims, Tile};
use sj_board::board::Board;
use sj_board::claimable::Claimable;
use sj_board::refusal::ClaimRefusal;
use sj_board::spent::Spent;
use sj_board::todo::Todo;
use sj_codelet::frame::Frame;
use sj_edge::disk::Disk;
use std::alloc::Global;
use std::sync::Arc;
use std::test::Fail;

/// A task that the pool gave a worker, and whether it was claimed.
pub type Claim = (Task, Result<(), ClaimRefusal>);

/// Under `prio` a worker is given a task by the pool and claims it, or is refused that.
pub fn claimed<D: Disk>(alloc: Global, board: &mut Board<D>, w: Worker) -> Result<Claim, Fail>
    requires by_urgency { board.old.run.machine.policy ≡ Prio }
    requires free { IsFree board.old w }
    requires no_fault { board.old.fault ≡ None }
    ensures alone { IsStepOf w board.old board.new }
    ensures claims { IfOk result (λ claim. OnOk claim.1 (HasClaimed board.new w claim.0)) }
{
    board.is_sound();
    let Some(t) = board.next(w, &[]) else {
        return Err(Fail::new("no task is ready"));
    };
    board.is_sound();
    match board.claim(alloc, t, w) {
        Ok(()) => Ok((t, Ok(()))),
        Err(refusal) => Ok((t, Err(refusal))),
    }
}

/// A worker is given a task by the pool that it hasn't passed, and claims it; where that is refused, the task goes back.
pub fn tried<D: Disk>(
    alloc: Global,
    board: &mut Board<D>,
    w: Worker,
    passed: &[Task],
) -> Result<Claim, Fail>
    requires by_urgency { board.old.run.machine.policy ≡ Prio }
    requires free { IsFree board.old w }
    requires no_fault { board.old.fault ≡ None }
    ensures no_fault { board.new.fault ≡ None }
    ensures policy { board.new.run.machine.policy ≡ board.old.run.machine.policy }
    ensures free { IfOk result (λ claim. OnErr claim.1 (IsFree board.new w)) }
{
    board.is_sound();
    let Some(t) = board.next(w, passed) else {
        return Err(Fail::new("no task is left"));
    };
    board.is_sound();
    match board.claim(alloc, t, w) {
        Ok(()) => Ok((t, Ok(()))),
        Err(refusal) => {
            board.give_back(t, w);
            Ok((t, Err(refusal)))
        }
    }
}

/// The dimensions of the cell that a task fills, where that is its only operand.
fn filled(program: &Program, t: Task) -> Option<Dims>
    ensures reads_none { IfSome result (λ _. reads_of (task_of program.now t).accesses ≡ []) }
    ensures writes_one { IfSome result (λ dims.
        map (λ a. dims_of program.now a.cell) (written_operands (task_of program.now t))
        ≡ dims ∷ []) }
    ensures small { IfSome result (λ dims. area dims ≤ 2 ^ 24) }
{
    let accesses = program.tasks.items().get(t.0 as usize)?.accesses.items();
    if accesses.len() != 1 || accesses[0].mode != Mode::W {
        return None;
    }
    let dims = program.cells.items().get(accesses[0].cell.0 as usize)?.dims;
    if dims.area() > 1 << 24 {
        return None;
    }
    Some(dims)
}

/// A worker runs the task that it has claimed, one that fills a cell, and ends it with zeros. Where the disks don't tell what
/// they hold, the board is promised no more than the dimensions.
pub fn ended<D: Disk>(alloc: Global, board: &mut Board<D>, w: Worker, t: Task) -> Result<(), Fail>
    requires taken { HasTakenReleased board.old w }
    requires claimed { HasClaimed board.old w t }
    requires no_fault { board.old.fault ≡ None }
    requires silent { ¬ AllTell D.held board.old.run }
    ensures alone { IsStepOf w board.old board.new }
    ensures free { OnOk result (IsFree board.new w) }
{
    board.is_sound();
    let Some(dims) = filled(board.program(), t) else {
        return Err(Fail::new("the task doesn't fill a cell"));
    };
    let Todo::Start = board.plan_of(w) else {
        return Err(Fail::new("the kernel can't begin"));
    };
    let tile = Arc::new(alloc, Tile::zeros(alloc, dims)?)?;
    let mut results = Frame::with_room(alloc, 1)?;
    results.push_shared(tile);
    let shares = Frame::with_room(alloc, 0)?;
    let _shares = board.run(t, w, shares, &mut Spent::none(alloc))?;
    board.end(t, w, results);
    Ok(())
}

/// By another policy than `prio` a worker claims the task of this number, where it may.
pub fn claimed_outside<D: Disk>(
    alloc: Global,
    board: &mut Board<D>,
    w: Worker,
    t: Task,
) -> Result<(), Fail>
    requires outside { board.old.run.machine.policy ≢ Prio }
    requires free { IsFree board.old w }
    requires no_fault { board.old.fault ≡ None }
    ensures alone { IsStepOf w board.old board.new }
    ensures claims { OnOk result (HasClaimed board.new w t) }
    ensures released { released_of board.new w ≡ released_of board.old w }
{
    board.is_sound();
    let Claimable::Yes = board.may_claim(t, w) else {
        return Err(Fail::new("the task may not be claimed"));
    };
    match board.claim(alloc, t, w) {
        Ok(()) => Ok(()),
        Err(_) => Err(Fail::new("the claim is refused")),
    }
}

/// A worker claims a task, one that fills a cell, and brings it to its end.
pub fn carried_out<D: Disk>(alloc: Global, board: &mut Board<D>, w: Worker) -> Result<Task, Fail>
    requires by_urgency { board.old.run.machine.policy ≡ Prio }
    requires free { IsFree board.old w }
    requires no_fault { board.old.fault ≡ None }
    requires silent { ¬ AllTell D.held board.old.run }
    ensures alone { IsStepOf w board.old board.new }
    ensures free { OnOk result (IsFree board.new w) }
{
    match claimed(alloc, board, w)? {
        (t, Ok(())) => {
            ended(alloc, board, w, t)?;
            Ok(t)
        }
        (_, Err(_)) => Err(Fail::new("the claim is refused")),
    }
}
