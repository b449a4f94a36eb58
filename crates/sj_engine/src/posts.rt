//! Where the workers of a run work: each in a thread of its own as far as threads can be started, and the rest in the caller's
//! thread, which goes round them.

ghost use Rattle.std.specs.Prelude.{◌≡◌, ◌+◌, ◌≤◌, [], All, length, vec_capacity};
ghost use Rattle.sj_engine.specs.Member.{IsMember, IsSeatOf, MayWork};
ghost use Rattle.sj_engine.specs.Posts.{HasEachWorker, IsOnPost, number_of, numbers_of_posts};
ghost use Rattle.sj_engine.specs.Ready.{ArePassesFor, IsPassBy};
ghost use Rattle.sj_engine.specs.Stage.{IsFreeRow, IsStoppedRow};

use crate::member::{SeatedWorker, Stage};
use crate::site::Site;
use crate::tray::Tray;
use crate::worker_seat::WorkerSeat;
use crate::workplace::{BoardDesk, BoardSeat};
use sj_codelet::set::Codelets;
use sj_edge::disk::Disk;
use sj_edge::gate::Gate;
use sj_steal::shared::{Pass, Shared};
use std::snapshot::Snapshot;
use std::sync::Wait;
use std::sync::atomic::AtomicU64;
use std::sync::atomic::Ordering::SeqCst;
use std::thread::{Promise, PromisedHandle, Scope, Threads};

/// The bell that the caller's thread sleeps on, whichever of its workers is woken.
const HERE: u8 = 0;

/// The promise of a thread: it comes back with this worker of the desk.
#[derive(Drop)]
pub(crate) struct ComesBack<D: Disk> {
    desk: Snapshot<BoardDesk<D>>,
    queues: Snapshot<Option<Shared>>,
    number: u8,
}

impl<D: Disk> Promise<SeatedWorker<D>> for ComesBack<D> {
    ghost use Rattle.std.specs.Prelude.{◌≡◌};
    ghost use Rattle.sj_engine.specs.Member.{IsMember};

    ghost kept_by = { λ p m. IsMember p.desk.value p.queues.value m × (m.seat.facts.number ≡ p.number) };
}

/// Where a worker works.
#[derive(Drop)]
pub(crate) enum Post<D: Disk> {
    /// In a thread of its own.
    Away(PromisedHandle<SeatedWorker<D>, ComesBack<D>>),
    /// In the caller's thread.
    Here(SeatedWorker<D>),
}

impl<D: Disk> Post<D> {
    /// Whether the worker works here and hasn't stopped.
    fn goes_on_here(&self) -> bool {
        match self {
            Post::Away(_) => false,
            Post::Here(member) => member.stage != Stage::Stopped,
        }
    }
}

/// Which worker was refused its thread last: its number and one.
pub(crate) type Refused = AtomicU64;

impl<C: Codelets, G: Gate, R: Threads + Wait + Sync, D: Disk> Site<'_, C, G, R, D> {
    /// What the thread of a worker does: its work to the end. Where there is no such thread, nothing.
    fn start(&self, refused: &Refused, mut member: SeatedWorker<D>) -> SeatedWorker<D>
        requires site { MayWork C.has self.now.program.now self.now.desk.now }
        requires member { IsMember self.now.desk.now self.now.queues.now member }
        ensures member { IsMember self.now.desk.now self.now.queues.now result }
        ensures number { result.seat.facts.number ≡ member.seat.facts.number }
    {
        if refused.load(SeqCst) != member.seat.number() as u64 + 1 {
            self.see_to_the_end(&mut member);
        }
        member
    }

    /// The worker goes on from where it is, if it works here: then the next one may not rest. Whether the next one may.
    fn visit(&self, post: &mut Post<D>, rests: bool, tray: &mut Tray) -> bool
        requires site { MayWork C.has self.now.program.now self.now.desk.now }
        requires post { IsOnPost self.now.desk.now self.now.queues.now post.old }
        ensures post { IsOnPost self.now.desk.now self.now.queues.now post.new }
        ensures number { number_of post.new ≡ number_of post.old }
    {
        match post {
            Post::Here(member) => {
                let goes_on = member.stage != Stage::Stopped;
                self.go_on(member, rests, tray);
                rests && !goes_on
            }
            Post::Away(_) => rests,
        }
    }

    /// One round: each worker that works here goes on as far as it can. The first of them that couldn't go on before rests first:
    /// no other has heard the bell earlier, so whatever one of them can go on by ends that rest.
    fn go_round(&self, posts: &mut Vec<Post<D>>, tray: &mut Tray)
        requires site { MayWork C.has self.now.program.now self.now.desk.now }
        requires posts { All (IsOnPost self.now.desk.now self.now.queues.now) posts.old.items }
        ensures posts { All (IsOnPost self.now.desk.now self.now.queues.now) posts.new.items }
        ensures numbers { numbers_of_posts posts.new.items ≡ numbers_of_posts posts.old.items }
    {
        let mut rests = true;
        for k in 0..posts.len() {
            rests = self.visit(&mut posts[k], rests, tray);
        }
    }

    /// Goes round the workers that work here until all of them have stopped.
    fn work_here(&self, posts: &mut Vec<Post<D>>)
        requires site { MayWork C.has self.now.program.now self.now.desk.now }
        requires posts { All (IsOnPost self.now.desk.now self.now.queues.now) posts.old.items }
        ensures posts { All (IsOnPost self.now.desk.now self.now.queues.now) posts.new.items }
        ensures numbers { numbers_of_posts posts.new.items ≡ numbers_of_posts posts.old.items }
    {
        let mut tray = Tray::new(self.alloc);
        for _ in self.rt.forever() {
            if !posts.iter().any(|post| post.goes_on_here()) {
                return;
            }
            self.go_round(posts, &mut tray);
        }
        unreachable!()
    }

    /// A worker's seat, once it has stopped: from its thread, which is joined, or from here.
    fn called_in(&self, post: Post<D>) -> BoardSeat<D>
        requires site { MayWork C.has self.now.program.now self.now.desk.now }
        requires post { IsOnPost self.now.desk.now self.now.queues.now post }
        ensures seat { IsSeatOf self.now.desk.now IsStoppedRow result }
        ensures number { result.number ≡ number_of post }
    {
        let mut member = match post {
            Post::Away(thread) => thread.join(self.rt),
            Post::Here(member) => member,
        };
        self.see_to_the_end(&mut member);
        let SeatedWorker { seat, .. } = member;
        seat.into_seat()
    }

    /// The seats of all workers, once they have stopped.
    fn call_in(&self, posts: &mut Vec<Post<D>>, seats: &mut Vec<BoardSeat<D>>)
        requires site { MayWork C.has self.now.program.now self.now.desk.now }
        requires posts { All (IsOnPost self.now.desk.now self.now.queues.now) posts.old.items }
        requires each { HasEachWorker self.now.desk.now seats.old.items posts.old.items }
        requires none { seats.old.items ≡ [] }
        requires room { length posts.old.items ≤ vec_capacity seats.old }
        ensures each { HasEachWorker self.now.desk.now seats.new.items [] }
        ensures seats { All (IsSeatOf self.now.desk.now IsStoppedRow) seats.new.items }
    {
        while let Some(post) = posts.pop() {
            seats.push_reserved(self.called_in(post));
        }
    }
}

impl<'s, C: Codelets, G: Gate, R: Threads + Wait + Sync, D: Disk + Send> Site<'s, C, G, R, D> {
    /// A worker's post in a thread of its own, where one can be started, and else here.
    fn posted<E>(
        &'s self,
        scope: &Scope<'s, E>,
        refused: &'s Refused,
        seat: BoardSeat<D>,
        pass: Option<Pass>,
    ) -> Post<D>
        requires site { MayWork C.has self.now.program.now self.now.desk.now }
        requires seat { IsSeatOf self.now.desk.now IsFreeRow seat }
        requires pass { IsPassBy self.now.queues.now
            self.now.desk.now.opening.board.run.machine.policy seat.number pass }
        ensures post { IsOnPost self.now.desk.now self.now.queues.now result }
        ensures number { number_of result ≡ seat.number }
    {
        let number = seat.number();
        let member = SeatedWorker {
            seat: WorkerSeat::new(seat),
            pass,
            stage: Stage::Fresh,
            bell: number,
        };
        let promise = ComesBack {
            desk: Snapshot::of(self.desk),
            queues: Snapshot::of(self.queues),
            number,
        };
        let started = scope.spawn_with(
            promise,
            move || -> SeatedWorker<D>
                requires site { MayWork C.has self.now.program.now self.now.desk.now }
                requires member { IsMember self.now.desk.now self.now.queues.now member }
                ensures member { IsMember self.entry.now.desk.now self.entry.now.queues.now result }
                ensures number { result.seat.facts.number ≡ member.seat.facts.number }
            { self.start(refused, member) },
        );
        match started {
            Ok(thread) => Post::Away(thread),
            Err(refusal) => {
                refused.store(number as u64 + 1, SeqCst);
                let SeatedWorker {
                    seat,
                    pass,
                    stage,
                    ..
                } = (refusal.value)();
                Post::Here(SeatedWorker {
                    seat,
                    pass,
                    stage,
                    bell: HERE,
                })
            }
        }
    }

    /// A worker's post: here if it is the last that has none, and else in a thread of its own, where one can be started.
    fn placed<E>(
        &'s self,
        scope: &Scope<'s, E>,
        refused: &'s Refused,
        seat: BoardSeat<D>,
        pass: Option<Pass>,
        is_last: bool,
    ) -> Post<D>
        requires site { MayWork C.has self.now.program.now self.now.desk.now }
        requires seat { IsSeatOf self.now.desk.now IsFreeRow seat }
        requires pass { IsPassBy self.now.queues.now
            self.now.desk.now.opening.board.run.machine.policy seat.number pass }
        ensures post { IsOnPost self.now.desk.now self.now.queues.now result }
        ensures number { number_of result ≡ seat.number }
    {
        if is_last {
            return Post::Here(SeatedWorker {
                seat: WorkerSeat::new(seat),
                pass,
                stage: Stage::Fresh,
                bell: HERE,
            });
        }
        self.posted(scope, refused, seat, pass)
    }

    /// Posts all workers: the last that is left here, and the others in threads of their own, where they can be started.
    fn post_all<E>(
        &'s self,
        scope: &Scope<'s, E>,
        refused: &'s Refused,
        seats: &mut Vec<BoardSeat<D>>,
        passes: &mut Vec<Pass>,
        posts: &mut Vec<Post<D>>,
    )
        requires site { MayWork C.has self.now.program.now self.now.desk.now }
        requires seats { All (IsSeatOf self.now.desk.now IsFreeRow) seats.old.items }
        requires passes { ArePassesFor self.now.desk.now self.now.queues.now seats.old.items
            passes.old.items }
        requires each { HasEachWorker self.now.desk.now seats.old.items posts.old.items }
        requires none { posts.old.items ≡ [] }
        requires room { length seats.old.items ≤ vec_capacity posts.old }
        ensures posts { All (IsOnPost self.now.desk.now self.now.queues.now) posts.new.items }
        ensures each { HasEachWorker self.now.desk.now [] posts.new.items }
        ensures count { length posts.new.items ≡ length seats.old.items }
        ensures none { seats.new.items ≡ [] }
        ensures capacity { vec_capacity seats.new ≡ vec_capacity seats.old }
    {
        while let Some(seat) = seats.pop() {
            let is_last = seats.is_empty();
            let pass = passes.pop();
            posts.push_reserved(self.placed(scope, refused, seat, pass, is_last));
        }
    }

    /// The seats of all workers, once they have stopped.
    pub(crate) fn staffed<E>(
        &'s self,
        scope: &Scope<'s, E>,
        refused: &'s Refused,
        mut seats: Vec<BoardSeat<D>>,
        mut passes: Vec<Pass>,
        mut posts: Vec<Post<D>>,
    ) -> Vec<BoardSeat<D>>
        requires site { MayWork C.has self.now.program.now self.now.desk.now }
        requires seats { All (IsSeatOf self.now.desk.now IsFreeRow) seats.items }
        requires passes { ArePassesFor self.now.desk.now self.now.queues.now seats.items
            passes.items }
        requires each { HasEachWorker self.now.desk.now seats.items posts.items }
        requires none { posts.items ≡ [] }
        requires room { length seats.items ≤ vec_capacity posts }
        ensures each { HasEachWorker self.now.desk.now result.items [] }
        ensures seats { All (IsSeatOf self.now.desk.now IsStoppedRow) result.items }
    {
        self.post_all(scope, refused, &mut seats, &mut passes, &mut posts);
        self.work_here(&mut posts);
        self.call_in(&mut posts, &mut seats);
        seats
    }
}
