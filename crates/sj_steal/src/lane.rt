//! A queue, first in, first out, under a rule that each step keeps, and one function for each kind of step.

ghost use Rattle.std.specs.Prelude.{◌≡◌, ◌+◌, ◌<◌, [], IfOk, IfSome, IfNone, OnOk, OnErr};
ghost use Rattle.sj_base.specs.declared.ids.Task.{Task};
ghost use Rattle.sj_steal.specs.Account.{after_put, after_take, as_one, Knows, times};
ghost use Rattle.sj_steal.specs.Facts.{new_stake, with_a_part_less};

use crate::account::Account;
use crossbeam_queue::protocol::{Join, Lesson, Outcome, Protocol, Split};
use crossbeam_queue::{RuledSegQueue, SegPass};
use sj_base::ids::Task;
use sj_base::memory::OutOfMemory;
use std::alloc::Global;
use std::marker::Model;
use std::sync::Wait;

/// Each task comes out as often as it went in.
pub struct Fair;

impl Protocol<Task, Account> for Fair {
    ghost use Rattle.std.specs.Prelude.{[]};
    ghost use Rattle.sj_steal.specs.Account.{account, IsFair};

    ghost holds = { IsFair };

    ghost first = { account 256 [] [] };
}

struct Cut;

impl Split<Account> for Cut {
    ghost use Rattle.std.specs.Prelude.{[]};
    ghost use Rattle.sj_steal.specs.Account.{account, after_deal};

    ghost left = { after_deal };

    ghost right = { λ v. account 1 [] [] };
}

struct Unite;

impl Join<Account> for Unite {
    ghost use Rattle.std.specs.Prelude.{[]};
    ghost use Rattle.sj_steal.specs.Account.{account, as_one};

    ghost both = { as_one };

    ghost spent = { account 0 [] [] };
}

struct Puts;

impl Outcome<Task, Account> for Puts {
    ghost use Rattle.std.specs.Prelude.{◌≡◌};
    ghost use Rattle.sj_steal.specs.Account.{after_put};

    ghost then = { λ v t w. w ≡ after_put v t };
}

struct Takes;

impl Outcome<Task, Account> for Takes {
    ghost use Rattle.std.specs.Prelude.{◌≡◌};
    ghost use Rattle.sj_steal.specs.Account.{after_take};

    ghost then = { λ v t w. w ≡ after_take v t };
}

impl Lesson<Task, Account> for Takes {
    ghost use Rattle.sj_steal.specs.Account.{Knows};

    ghost fact = { Knows };
}

/// The queue.
pub struct Lane {
    queue: RuledSegQueue<Task, Account, Fair>,
}

impl Model for Lane {
    ghost use Rattle.crossbeam_queue.specs.SegTies.{SegId};
    ghost use Rattle.std.specs.declared.alloc.Global.{Global};

    ghost Value = { SegId Global };

    ghost view = { λ l. l.queue };
}

impl Drop for Lane {
    fn drop(self) {
        let Self { queue } = self;
        queue.destroy();
    }
}

/// What one worker has put into a queue and taken out of it.
#[derive(Drop)]
pub struct Stake {
    /// The queue's number, since a value with no bytes can't stand in a list.
    number: u8,
    pass: SegPass<Task, Account>,
}

impl Model for Stake {
    ghost use Rattle.std.specs.Prelude.{◌≡◌, None};
    ghost use Rattle.sj_steal.specs.Facts.{StakeFacts};

    ghost Value = { StakeFacts };

    ghost view = { λ s. record { lane = record { web = s.pass.web; heap = s.pass.heap }; account = s.pass.me.view.client } };

    ghost invariant = { λ s. (s.pass.me.hand ≡ None) × (s.pass.me.spare ≡ None) };
}

impl Lane {
    /// An empty queue, and a stake with every part.
    pub fn open(alloc: Global, number: u8) -> Result<(Lane, Stake), OutOfMemory>
        ensures { IfOk result (λ r. r.1 ≡ new_stake 256 r.0) }
    {
        let (queue, pass) = RuledSegQueue::with_rule(alloc)?;
        Ok((Lane { queue }, Stake { number, pass }))
    }

    /// One more stake, with one part of another's.
    pub fn deal(&self, stake: &mut Stake) -> Stake
        requires of { stake.old.lane ≡ self.now }
        requires parts { 1 < stake.old.account.parts }
        ensures left { stake.new ≡ with_a_part_less stake.old }
        ensures right { result ≡ new_stake 1 self.now }
    {
        let pass = self.queue.another::<Cut>(&mut stake.pass);
        Stake {
            number: stake.number,
            pass,
        }
    }

    /// Puts a task at the back.
    pub fn put<R: Wait>(&self, rt: &R, stake: &mut Stake, t: Task) -> Result<(), OutOfMemory>
        requires of { stake.old.lane ≡ self.now }
        requires parts { 0 < stake.old.account.parts }
        ensures of { stake.new.lane ≡ self.now }
        ensures ok { OnOk result (stake.new.account ≡ after_put stake.old.account t) }
        ensures err { OnErr result (stake.new.account ≡ stake.old.account) }
    {
        match self.queue.push_as::<Puts, R>(rt, &mut stake.pass, t) {
            Ok(()) => Ok(()),
            Err(_) => Err(OutOfMemory),
        }
    }

    /// Takes the task at the front.
    pub fn take<R: Wait>(&self, rt: &R, stake: &mut Stake) -> Option<Task>
        requires of { stake.old.lane ≡ self.now }
        requires parts { 0 < stake.old.account.parts }
        ensures of { stake.new.lane ≡ self.now }
        ensures some { IfSome result (λ t. stake.new.account ≡ after_take stake.old.account t) }
        ensures none { IfNone result (stake.new.account ≡ stake.old.account) }
        ensures empty { IfNone result (Knows stake.old.account []) }
    {
        self.queue.pop_as::<Takes, R>(rt, &mut stake.pass)
    }

    /// Gives all that a pass has to another.
    pub fn gather(&self, stake: &mut Stake, other: Stake)
        requires of { (stake.old.lane ≡ self.now) × (other.lane ≡ self.now) }
        requires parts { 0 < stake.old.account.parts }
        ensures of { stake.new.lane ≡ self.now }
        ensures both { stake.new.account ≡ as_one stake.old.account other.account }
    {
        self.queue.absorb::<Unite>(&mut stake.pass, other.pass);
    }
}

/// Takes what is left in a queue, by a stake with every part, and appends it to a list.
pub fn drain<R: Wait>(
    rt: &R,
    lane: Lane,
    mut stake: Stake,
    left: &mut Vec<Task>,
) -> Result<(), OutOfMemory>
    requires of { stake.lane ≡ lane }
    requires parts { stake.account.parts ≡ 256 }
    ensures { OnOk result ((t : Task) → times t stake.account.put + times t left.old.items
        ≡ times t stake.account.taken + times t left.new.items) }
{
    for _ in rt.forever() {
        let Some(t) = lane.take(rt, &mut stake) else {
            return Ok(());
        };
        left.push(t)?;
    }
    unreachable!()
}
