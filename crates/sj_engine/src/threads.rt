//! The threads of a run: one for each worker, or fewer where one can't be started.

ghost use Rattle.std.specs.Prelude.{◌≡◌, ◌≤◌, [], All, length, vec_capacity};
ghost use Rattle.sj_codelet.specs.Kernel.{out};
ghost use Rattle.sj_core.specs.Laws.{IsLawful};
ghost use Rattle.sj_core.specs.Proper.{Proper};
ghost use Rattle.sj_engine.specs.Member.{IsSeatOf, MayWork};
ghost use Rattle.sj_engine.specs.Posts.{HasEachWorker};
ghost use Rattle.sj_engine.specs.Ready.{ArePassesFor};
ghost use Rattle.sj_engine.specs.Run.{AllStopped, AreAt};
ghost use Rattle.sj_engine.specs.Stage.{IsFreeRow, IsStoppedRow};
ghost use Rattle.sj_engine.specs.Turn.{IsSharedSound};
ghost use Rattle.sj_board.specs.BoardRow.{key_of};

use crate::posts::{Post, Refused};
use crate::site::Site;
use crate::workplace::{BoardDesk, BoardSeat};
use sj_base::program::Program;
use sj_board::board::Board;
use sj_codelet::set::Codelets;
use sj_edge::disk::Disk;
use sj_edge::gate::Gate;
use sj_steal::shared::{Pass, Shared};
use std::alloc::Global;
use std::sync::Wait;
use std::thread;
use std::thread::Threads;

/// All workers at once, each in a thread of its own as far as threads can be started. Each has stopped when it returns.
fn work_all<C: Codelets, G: Gate, D: Disk + Send, R: Threads + Wait + Sync>(
    site: &Site<'_, C, G, R, D>,
    seats: Vec<BoardSeat<D>>,
    passes: Vec<Pass>,
    posts: Vec<Post<D>>,
) -> Vec<BoardSeat<D>>
    requires site { MayWork C.has site.now.program.now site.now.desk.now }
    requires seats { All (IsSeatOf site.now.desk.now IsFreeRow) seats.items }
    requires passes { ArePassesFor site.now.desk.now site.now.queues.now seats.items passes.items }
    requires each { HasEachWorker site.now.desk.now seats.items posts.items }
    requires none { posts.items ≡ [] }
    requires room { length seats.items ≤ vec_capacity posts }
    ensures each { HasEachWorker site.now.desk.now result.items [] }
    ensures seats { All (IsSeatOf site.now.desk.now IsStoppedRow) result.items }
{
    let flag = Refused::new(0);
    let refused = &flag;
    thread::scope(
        thread::scope_env(),
        site.rt,
        move |scope| -> Vec<BoardSeat<D>>
            requires site { MayWork C.has site.now.program.now site.now.desk.now }
            requires seats { All (IsSeatOf site.now.desk.now IsFreeRow) seats.items }
            requires passes { ArePassesFor site.now.desk.now site.now.queues.now seats.items
                passes.items }
            requires each { HasEachWorker site.now.desk.now seats.items posts.items }
            requires none { posts.items ≡ [] }
            requires room { length seats.items ≤ vec_capacity posts }
            ensures each { HasEachWorker site.entry.now.desk.now result.items [] }
            ensures seats { All (IsSeatOf site.entry.now.desk.now IsStoppedRow) result.items }
        { site.staffed(scope, refused, seats, passes, posts) },
    )
}

/// The board when all workers have stopped.
pub(crate) fn worked<C: Codelets, G: Gate, D: Disk + Send, R: Threads + Wait + Sync>(
    rt: &R,
    alloc: Global,
    program: &Program,
    codelets: &C,
    gate: &G,
    desk: BoardDesk<D>,
    seats: Vec<BoardSeat<D>>,
    queues: &Option<Shared>,
    passes: Vec<Pass>,
    posts: Vec<Post<D>>,
) -> Board<D>
    requires program { desk.opening.board.run.program ≡ program.now }
    requires workers { desk.seats ≡ program.now.workers }
    requires proper { Proper program.now }
    requires lawful { IsLawful out C.has program.now }
    requires free { AreAt desk IsFreeRow seats.items }
    requires passes { ArePassesFor desk queues.now seats.items passes.items }
    requires none { posts.items ≡ [] }
    requires room { length seats.items ≤ vec_capacity posts }
    ensures key { key_of result ≡ key_of desk.opening.board }
    ensures sound { IsSharedSound D.size D.faults D.mismatches D.held result }
    ensures stopped { AllStopped result.hands }
{
    let site = Site {
        rt,
        alloc,
        desk: &desk,
        program,
        codelets,
        gate,
        queues,
    };
    let seats = work_all(&site, seats, passes, posts);
    desk.close(seats).board.into_board()
}
