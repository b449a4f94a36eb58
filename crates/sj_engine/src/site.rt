//! What all workers of a run have at hand, and a worker's work in the thread that it has to itself.

ghost use Rattle.std.specs.Prelude.{◌≡◌};
ghost use Rattle.sj_engine.specs.Member.{IsMember, MayWork};

use crate::member::{SeatedWorker, Stage};
use crate::ready::ReadyFrom;
use crate::tray::Tray;
use crate::workplace::{BoardDesk, Workplace};
use sj_base::ids::Worker;
use sj_base::program::Program;
use sj_codelet::set::Codelets;
use sj_edge::disk::Disk;
use sj_edge::gate::Gate;
use sj_steal::shared::Shared;
use std::alloc::Global;
use std::sync::Wait;

/// What all workers of a run have at hand. Nothing of it changes.
#[derive(Drop)]
pub struct Site<'a, C, G, R, D: Disk> {
    pub rt: &'a R,
    pub alloc: Global,
    pub desk: &'a BoardDesk<D>,
    pub program: &'a Program,
    pub codelets: &'a C,
    pub gate: &'a G,
    /// The queues in which ready tasks wait; none under `prio`.
    pub queues: &'a Option<Shared>,
}

impl<C: Codelets, G: Gate, R: Wait, D: Disk> Site<'_, C, G, R, D> {
    /// Goes on with a worker until it can't, or has stopped. Where it couldn't go on before and may rest, it rests first. The
    /// tray is its thread's.
    pub(crate) fn go_on(&self, member: &mut SeatedWorker<D>, rests: bool, tray: &mut Tray)
        requires site { MayWork C.has self.now.program.now self.now.desk.now }
        requires member { IsMember self.now.desk.now self.now.queues.now member.old }
        ensures member { IsMember self.now.desk.now self.now.queues.now member.new }
        ensures number { member.new.seat.facts.number ≡ member.old.seat.facts.number }
        ensures bell { member.new.bell ≡ member.old.bell }
    {
        let workplace = Workplace {
            rt: self.rt,
            alloc: self.alloc,
            desk: self.desk,
            program: self.program,
            worker: Worker(member.seat.number()),
            bell: member.bell,
        };
        if rests && member.stage.may_rest() {
            member.seat.rest(self.rt, self.desk);
        }
        let mut ready = ReadyFrom::new(self.queues, member.pass.take());
        member.stage = workplace.work(
            &mut member.seat,
            &mut ready,
            self.codelets,
            self.gate,
            member.stage,
            tray,
        );
        member.pass = ready.into_pass();
    }

    /// Works for one worker until it has stopped, and rests where it can't go on.
    pub(crate) fn see_to_the_end(&self, member: &mut SeatedWorker<D>)
        requires site { MayWork C.has self.now.program.now self.now.desk.now }
        requires member { IsMember self.now.desk.now self.now.queues.now member.old }
        ensures member { IsMember self.now.desk.now self.now.queues.now member.new }
        ensures stopped { member.new.stage ≡ Stage.Stopped }
        ensures number { member.new.seat.facts.number ≡ member.old.seat.facts.number }
    {
        let mut tray = Tray::new(self.alloc);
        for _ in self.rt.forever() {
            if member.stage == Stage::Stopped {
                return;
            }
            self.go_on(member, true, &mut tray);
        }
        unreachable!()
    }
}
