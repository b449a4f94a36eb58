//! Chains: the accesses to one cell in the order of tasks, and which of them may begin.

ghost use Rattle.std.specs.Prelude.{◌≡◌, ◌+◌, ◌<◌, ◌≤◌, ◌&&◌, ◌==◌, ℕ, All, IfOk, OnErr, length, vec_capacity, count_by, nat_lt, slice_set, ◌-◌, min};
ghost use Rattle.sj_deps.specs.Chains.{joins, no_chain, joins_last, waits_of, is_party, left_from, Pushes, IsLongestRun, TakesWaits, Finishes};

use crate::manner::Manner;
use sj_base::few::Few;
use sj_base::memory::OutOfMemory;
use std::alloc::Global;

/// A party that accesses the cell, by its number, and how. A party is a task by itself, or the contributions
/// of one reduction phase.
#[derive(Clone, Copy, Debug, PartialEq, Eq)]
pub struct Member {
    pub party: usize,
    pub manner: Manner,
}

impl Default for Member {
    /// What fills the places of a short list that no access takes.
    fn default() -> Member {
        Member {
            party: 0,
            manner: Manner::Read,
        }
    }
}

/// The accesses to one cell, each party once, in the order of tasks. A run is a longest part of it whose
/// accesses don't conflict: readers, one commuting group, one reduction phase, or one writer.
#[derive(Drop)]
pub struct Chain {
    pub members: Few<Member>,
    /// How many accesses may begin or have begun: whole runs, and all of them but the last are finished.
    pub released: usize,
    /// How many of these are finished.
    pub finished: usize,
}

/// Whether an access in the second manner may follow one in the first in one run.
pub fn joins(before: Manner, after: Manner) -> bool
    ensures { result ≡ joins before after }
{
    match (before, after) {
        (Manner::Read, Manner::Read) | (Manner::Contribute, Manner::Contribute) => true,
        (Manner::Commute(first), Manner::Commute(second)) => first.0 == second.0,
        _ => false,
    }
}

/// Whether an access after these would be in their last run.
fn joins_last(members: &[Member], next: Member) -> bool
    ensures { result ≡ joins_last members.now next }
{
    match members.last() {
        Some(last) => joins(last.manner, next.manner),
        None => true,
    }
}

/// Where the run ends that begins at a place.
fn run_end(members: &[Member], first: usize) -> usize
    requires { first ≤ length members.now }
    ensures { IsLongestRun members.now first result }
{
    if first == members.len() {
        return first;
    }
    let mut last = first + 1;
    while last < members.len() && joins(members[last - 1].manner, members[last].manner) {
        last += 1;
    }
    last
}

/// Takes one wait of a party, and appends the party where it was the last one.
fn count_down(waits: &mut Vec<usize>, opened: &mut Vec<usize>, party: usize)
    requires party { party < length waits.old.items }
    requires waiting { 0 < waits_of waits.old.items party }
    requires room { length opened.old.items + count_by (nat_lt 0) waits.old.items
        ≤ vec_capacity opened.old }
    ensures waits { waits.new.items
        ≡ slice_set waits.old.items party (waits_of waits.old.items party - 1) }
    ensures opened { (n : ℕ) → count_by (is_party n) opened.new.items
        + min 1 (waits_of waits.new.items n)
        ≡ count_by (is_party n) opened.old.items + min 1 (waits_of waits.old.items n) }
    ensures total { length opened.new.items + count_by (nat_lt 0) waits.new.items
        ≡ length opened.old.items + count_by (nat_lt 0) waits.old.items }
    ensures capacity { vec_capacity opened.old ≤ vec_capacity opened.new }
{
    let left = waits[party] - 1;
    waits[party] = left;
    if left == 0 {
        let _ = opened.push(party);
    }
}

/// Takes one wait for each access at places `first` to `last - 1`.
fn release(
    members: &[Member],
    first: usize,
    last: usize,
    waits: &mut Vec<usize>,
    opened: &mut Vec<usize>,
)
    requires order { first ≤ last }
    requires within { last ≤ length members.now }
    requires parties { All (λ m. m.party < length waits.old.items) members.now }
    requires waiting { (n : ℕ) → left_from members.now first n ≤ waits_of waits.old.items n }
    requires room { length opened.old.items + count_by (nat_lt 0) waits.old.items
        ≤ vec_capacity opened.old }
    ensures released { TakesWaits waits.old.items waits.new.items opened.old.items opened.new.items
        members.now first last }
    ensures capacity { vec_capacity opened.old ≤ vec_capacity opened.new }
{
    for p in first..last {
        count_down(waits, opened, members[p].party);
    }
}

impl Chain {
    /// No access. Takes no memory.
    pub fn empty(alloc: Global) -> Chain
        ensures { result ≡ no_chain }
    {
        Chain {
            members: Few::empty(alloc),
            released: 0,
            finished: 0,
        }
    }

    /// Appends an access, and answers whether it may begin at once. Constant time, amortised.
    pub fn push(&mut self, next: Member) -> Result<bool, OutOfMemory>
        requires { self.old.released ≤ length self.old.members }
        ensures { IfOk result (Pushes self.old self.new next) }
    {
        let members = self.members.items();
        let at_once = self.released == members.len() && joins_last(members, next);
        self.members.push(next)?;
        if at_once {
            self.released += 1;
        }
        Ok(at_once)
    }

    /// Counts one access as finished, and releases the next run where it was the last of the released ones.
    pub fn finish(&mut self, waits: &mut Vec<usize>, opened: &mut Vec<usize>)
        requires within { self.old.released ≤ length self.old.members }
        requires unfinished { self.old.finished < self.old.released }
        requires parties { All (λ m. m.party < length waits.old.items) self.old.members }
        requires waiting { (n : ℕ) → left_from self.old.members self.old.released n
            ≤ waits_of waits.old.items n }
        requires room { length opened.old.items + count_by (nat_lt 0) waits.old.items
            ≤ vec_capacity opened.old }
        ensures finished { Finishes self.old self.new }
        ensures released { TakesWaits waits.old.items waits.new.items opened.old.items
            opened.new.items self.old.members
            self.old.released self.new.released }
        ensures capacity { vec_capacity opened.old ≤ vec_capacity opened.new }
    {
        self.finished += 1;
        if self.finished == self.released {
            let members = self.members.items();
            let last = run_end(members, self.released);
            release(members, self.released, last, waits, opened);
            self.released = last;
        }
    }
}
