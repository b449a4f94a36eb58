//! A queue: a list of the first entries, and those behind them.

ghost use Rattle.std.specs.Prelude.{◌≡◌, ◌<◌, ◌≤◌, ◌++◌, List, [], length, insert, IfOk, IsSome, IsTrue, false};
ghost use Rattle.std.specs.Vec.{vec_capacity};
ghost use Rattle.sj_base.specs.declared.mode.Policy.TheVariants.{Prio};
ghost use Rattle.sj_pool.specs.declared.entry.Entry.{Entry};
ghost use Rattle.sj_pool.specs.Queue.{queued, has_fitting, first_fitting, without_first_fitting, is_by_urgency};
ghost use Rattle.sj_pool.specs.Pool.{put_into};

use crate::chunk::{CHUNK, take_from_list, urgency_place};
use crate::entry::Entry;
use crate::tail::Tail;
use crate::tree::Fork;
use sj_base::memory::OutOfMemory;
use sj_base::mode::Policy;
use std::alloc::Global;
use std::marker::Model;

/// From so many entries on, the last ones of the list go into the tree.
const FRONT: usize = 64;

/// Entries in the order in which they are taken, at most so many. The first ones are in a list, whose
/// memory was taken in advance, and those behind them in a tree, whose forks are made as they are
/// wanted. Where memory for one is refused, all go into the list.
#[derive(Drop)]
pub struct Queue {
    list: Vec<Entry>,
    tail: Tail,
    /// A fork that isn't used, for the next put that wants one.
    spare: Option<Box<Fork>>,
    limit: u32,
}

impl Model for Queue {
    ghost use Rattle.std.specs.Prelude.{◌++◌, ◌≤◌, length};
    ghost use Rattle.std.specs.Vec.{vec_capacity};
    ghost use Rattle.sj_pool.specs.Queue.{Queued, queued};

    ghost Value = { Queued };

    ghost view = { λ q. queued (q.list.items ++ q.tail) q.limit };

    ghost invariant = { λ q. (length (q.list.items ++ q.tail) ≤ q.limit)
        × (q.limit ≤ vec_capacity q.list) };
}

/// Puts an entry behind a list.
fn put_in_tail(tail: &mut Tail, policy: Policy, entry: Entry, spare: &mut Option<Box<Fork>>)
    requires in_order { policy ≡ Prio → IsTrue (is_by_urgency tail.old) }
    requires spare { IsSome spare.old }
    ensures { tail.new ≡ put_into policy entry tail.old }
{
    match policy {
        Policy::Prio => tail.put_by_urgency(entry, spare),
        Policy::Eager | Policy::Ws => tail.put_last(entry, spare),
    }
}

/// Whether an entry of a list fits. Linear time.
fn fits_in_list(list: &[Entry], room: u64) -> bool
    ensures { result ≡ has_fitting room list.now }
{
    list.iter().any(|entry| entry.fits(room))
}

/// Where the policy has an entry in a list.
#[tactic(auto, using(crate::proofs::Queues::put_in_list))]
fn place_in(list: &[Entry], policy: Policy, entry: &Entry) -> usize
    requires { policy ≡ Prio → IsTrue (is_by_urgency list.now) }
    ensures within { result ≤ length list.now }
    ensures place { insert list.now result entry.now ≡ put_into policy entry.now list.now }
    ensures before { result < length list.now → (es : List Entry)
        → put_into policy entry.now (list.now ++ es) ≡ put_into policy entry.now list.now ++ es }
    ensures behind { result ≡ length list.now → (es : List Entry)
        → put_into policy entry.now (list.now ++ es) ≡ list.now ++ put_into policy entry.now es }
{
    match policy {
        Policy::Prio => urgency_place(list, entry),
        Policy::Eager | Policy::Ws => list.len(),
    }
}

/// Whether a fork that isn't used is at hand: it is made where there is none and memory for it isn't
/// refused.
fn has_spare(spare: &mut Option<Box<Fork>>, alloc: Global) -> bool
    ensures { IsTrue result → IsSome spare.new }
{
    if spare.is_none() {
        *spare = Fork::unused(alloc).ok();
    }
    spare.is_some()
}

/// Moves the last entries of a long list behind it, where memory isn't refused.
fn shorten(list: &mut Vec<Entry>, tail: &mut Tail, spare: &mut Option<Box<Fork>>, alloc: Global)
    ensures entries { list.new.items ++ tail.new ≡ list.old.items ++ tail.old }
    ensures capacity { vec_capacity list.new ≡ vec_capacity list.old }
{
    let len = list.len();
    if len < FRONT || !has_spare(spare, alloc) {
        return;
    }
    tail.put_first(&list[len - CHUNK..], spare);
    list.truncate(len - CHUNK);
}

/// Puts an entry behind a list, or where memory is refused all into the list.
fn put_behind(
    list: &mut Vec<Entry>,
    tail: &mut Tail,
    spare: &mut Option<Box<Fork>>,
    alloc: Global,
    policy: Policy,
    entry: Entry,
)
    requires room { length (list.old.items ++ tail.old) < vec_capacity list.old }
    requires in_order { policy ≡ Prio → IsTrue (is_by_urgency (list.old.items ++ tail.old)) }
    requires behind { put_into policy entry (list.old.items ++ tail.old)
        ≡ list.old.items ++ put_into policy entry tail.old }
    ensures entries { list.new.items ++ tail.new
        ≡ put_into policy entry (list.old.items ++ tail.old) }
    ensures capacity { vec_capacity list.old ≤ vec_capacity list.new }
{
    if has_spare(spare, alloc) {
        put_in_tail(tail, policy, entry, spare);
        return;
    }
    tail.move_to(list);
    let place = place_in(list, policy, &entry);
    let _ = list.insert(place, entry);
}

/// Whether an entry whose place in a list is known goes into the list, and not behind it.
fn goes_into_list(tail: &Tail, place: usize, len: usize) -> bool
    ensures yes { IsTrue result → len ≤ place → tail.now ≡ [] }
    ensures no { result ≡ false → len ≤ place }
{
    place < len || tail.is_empty()
}

/// Puts an entry where the policy has it, into a list or behind it.
#[tactic(auto, using(crate::proofs::Queues::in_list))]
fn put_in_two(
    list: &mut Vec<Entry>,
    tail: &mut Tail,
    spare: &mut Option<Box<Fork>>,
    alloc: Global,
    policy: Policy,
    entry: Entry,
)
    requires room { length (list.old.items ++ tail.old) < vec_capacity list.old }
    requires in_order { policy ≡ Prio → IsTrue (is_by_urgency (list.old.items ++ tail.old)) }
    ensures entries { list.new.items ++ tail.new
        ≡ put_into policy entry (list.old.items ++ tail.old) }
    ensures capacity { vec_capacity list.old ≤ vec_capacity list.new }
{
    shorten(list, tail, spare, alloc);
    let place = place_in(list, policy, &entry);
    if goes_into_list(tail, place, list.len()) {
        let _ = list.insert(place, entry);
    } else {
        put_behind(list, tail, spare, alloc, policy, entry);
    }
}

/// Moves the first entries behind a list into it, where it is empty.
fn refill(list: &mut Vec<Entry>, tail: &mut Tail, spare: &mut Option<Box<Fork>>)
    requires { length (list.old.items ++ tail.old) ≤ vec_capacity list.old }
    ensures entries { list.new.items ++ tail.new ≡ list.old.items ++ tail.old }
    ensures capacity { vec_capacity list.old ≤ vec_capacity list.new }
{
    if list.is_empty() {
        tail.move_first_to(list, spare);
    }
}

/// Takes the first entry that fits out of a list and what is behind it.
#[tactic(auto, using(crate::proofs::Queues::in_two))]
fn take_of_two(
    list: &mut Vec<Entry>,
    tail: &mut Tail,
    spare: &mut Option<Box<Fork>>,
    room: u64,
) -> Option<Entry>
    requires { length (list.old.items ++ tail.old) ≤ vec_capacity list.old }
    ensures taken { result ≡ first_fitting room (list.old.items ++ tail.old) }
    ensures rest { list.new.items ++ tail.new
        ≡ without_first_fitting room (list.old.items ++ tail.old) }
    ensures capacity { vec_capacity list.old ≤ vec_capacity list.new }
{
    refill(list, tail, spare);
    match take_from_list(list, room) {
        None => tail.take(room, spare),
        Some(entry) => Some(entry),
    }
}

impl Queue {
    /// No entry, and memory for so many.
    pub fn empty(alloc: Global, limit: u32) -> Result<Queue, OutOfMemory>
        ensures { IfOk result (λ q. q ≡ queued [] limit) }
    {
        let list = Vec::with_capacity(alloc, limit as usize)?;
        let tail = Tail::empty(alloc)?;
        Ok(Queue {
            list,
            tail,
            spare: None,
            limit,
        })
    }

    /// Whether an entry fits so much room. Constant time; linear where memory was refused.
    #[tactic(auto, using(crate::proofs::Queues::in_two))]
    pub fn fits(&self, room: u64) -> bool
        ensures { result ≡ has_fitting room self.now.entries }
    {
        fits_in_list(&self.list, room) || self.tail.fits(room)
    }

    /// Puts an entry where the policy has it. Logarithmic time; linear where memory is refused.
    #[tactic(auto, using(crate::proofs::Queues::fewer))]
    pub fn put(&mut self, alloc: Global, policy: Policy, entry: Entry)
        requires room { length self.old.entries < self.old.limit }
        requires in_order { policy ≡ Prio → IsTrue (is_by_urgency self.old.entries) }
        ensures { self.new ≡ record self.old { entries = put_into policy entry self.old.entries } }
    {
        let tail = &mut self.tail;
        put_in_two(&mut self.list, tail, &mut self.spare, alloc, policy, entry);
    }

    /// Takes the first entry that fits out. Logarithmic time; linear where memory was refused.
    #[tactic(auto, using(crate::proofs::Queues::fewer))]
    pub fn take(&mut self, room: u64) -> Option<Entry>
        ensures taken { result ≡ first_fitting room self.old.entries }
        ensures rest { self.new
            ≡ record self.old { entries = without_first_fitting room self.old.entries } }
    {
        take_of_two(&mut self.list, &mut self.tail, &mut self.spare, room)
    }
}
