//! The entries of a queue behind its first ones: a tree, and a chunk of the last ones.

ghost use Rattle.std.specs.Prelude.{◌≡◌, ◌↔◌, ◌<◌, ◌≤◌, ◌+◌, ◌∷◌, [], ◌++◌, length, insert, IfOk, IsSome, IsTrue, false};
ghost use Rattle.std.specs.Vec.{vec_capacity};
ghost use Rattle.sj_pool.specs.Chunk.{chunk_room};
ghost use Rattle.sj_pool.specs.Queue.{has_fitting, first_fitting, without_first_fitting, put_by_urgency, is_by_urgency};

use crate::chunk::{CHUNK, Chunk, urgency_place};
use crate::entry::Entry;
use crate::tree::{Fork, Tree};
use sj_base::memory::OutOfMemory;
use std::alloc::Global;
use std::marker::Model;
use std::mem;

/// Entries in a tree, and the last ones in a chunk, so that an entry that goes behind all others seldom
/// comes to the tree.
#[derive(Drop)]
pub struct Tail {
    tree: Tree,
    last: Chunk,
}

impl Model for Tail {
    ghost use Rattle.std.specs.Prelude.{◌++◌, List};
    ghost use Rattle.sj_pool.specs.declared.entry.Entry.{Entry};

    ghost Value = { List Entry };

    ghost view = { λ t. t.tree ++ t.last };
}

/// Where a whole chunk is split for an entry that is put at a place of it: behind all, or in the middle.
fn half_at(place: usize) -> usize
    requires { place ≤ chunk_room }
    ensures some { 0 < result }
    ensures within { result ≤ chunk_room }
    ensures room { place < result → result < chunk_room }
{
    if place == CHUNK { CHUNK } else { CHUNK / 2 }
}

/// Puts an entry at a place of the last ones. Where these are a whole chunk, those before the place, or
/// their first half, go into the tree.
fn put_at(
    tree: Tree,
    last: &mut Chunk,
    place: usize,
    entry: Entry,
    spare: &mut Option<Box<Fork>>,
) -> Tree
    requires within { place ≤ length last.old }
    requires spare { IsSome spare.old }
    ensures { result ++ last.new ≡ tree ++ insert last.old place entry }
{
    if last.len() < CHUNK {
        last.insert(place, entry);
        return tree;
    }
    let Some(mut fork) = spare.take() else {
        return tree;
    };
    last.split(half_at(place), place, entry, &mut fork.entries);
    mem::swap(last, &mut fork.entries);
    tree.put_behind(fork)
}

/// Whether an entry that goes before the last ones goes into the tree.
fn goes_into_tree(tree: &Tree, place: usize) -> bool
    ensures yes { IsTrue result → place ≡ 0 }
    ensures no { result ≡ false → place ≡ 0 → tree.now ≡ [] }
{
    place == 0 && !tree.is_empty()
}

/// Puts an entry behind those that are more urgent, into a tree or the last ones behind it.
fn put_urgent(tree: Tree, last: &mut Chunk, entry: Entry, spare: &mut Option<Box<Fork>>) -> Tree
    requires by_urgency { IsTrue (is_by_urgency (tree ++ last.old)) }
    requires spare { IsSome spare.old }
    ensures { result ++ last.new ≡ put_by_urgency entry (tree ++ last.old) }
{
    let place = urgency_place(last.as_slice(), &entry);
    if goes_into_tree(&tree, place) {
        return tree.put_by_urgency(entry, spare);
    }
    put_at(tree, last, place, entry, spare)
}

impl Tail {
    /// No entry, and memory for the last ones.
    pub fn empty(alloc: Global) -> Result<Tail, OutOfMemory>
        ensures { IfOk result (λ t. t ≡ []) }
    {
        let last = Chunk::make(alloc)?;
        Ok(Tail {
            tree: Tree::empty(),
            last,
        })
    }

    /// Whether there is no entry.
    #[tactic(auto, using(crate::proofs::Queues::nil_parts))]
    pub fn is_empty(&self) -> bool
        ensures { IsTrue result ↔ (self.now ≡ []) }
    {
        self.last.is_empty() && self.tree.is_empty()
    }

    /// Whether an entry fits so much room. Constant time.
    #[tactic(auto, using(crate::proofs::Queues::in_two))]
    pub fn fits(&self, room: u64) -> bool
        ensures { result ≡ has_fitting room self.now }
    {
        self.tree.fits(room) || self.last.fits(room)
    }

    /// Puts an entry behind the others. Constant time, but for one of many puts.
    pub fn put_last(&mut self, entry: Entry, spare: &mut Option<Box<Fork>>)
        requires { IsSome spare.old }
        ensures { self.new ≡ self.old ++ entry ∷ [] }
    {
        let len = self.last.len();
        let tree = mem::replace(&mut self.tree, Tree::empty());
        self.tree = put_at(tree, &mut self.last, len, entry, spare);
    }

    /// Puts an entry behind those that are more urgent. Logarithmic time.
    pub fn put_by_urgency(&mut self, entry: Entry, spare: &mut Option<Box<Fork>>)
        requires by_urgency { IsTrue (is_by_urgency self.old) }
        requires spare { IsSome spare.old }
        ensures { self.new ≡ put_by_urgency entry self.old }
    {
        let tree = mem::replace(&mut self.tree, Tree::empty());
        self.tree = put_urgent(tree, &mut self.last, entry, spare);
    }

    /// Puts entries before the others. Logarithmic time.
    pub fn put_first(&mut self, entries: &[Entry], spare: &mut Option<Box<Fork>>)
        requires some { 0 < length entries.now }
        requires few { length entries.now ≤ chunk_room }
        requires spare { IsSome spare.old }
        ensures { self.new ≡ entries.now ++ self.old }
    {
        if self.is_empty() {
            self.last.fill(entries);
            return;
        }
        let Some(mut fork) = spare.take() else {
            return;
        };
        fork.entries.fill(entries);
        self.tree = mem::replace(&mut self.tree, Tree::empty()).put_first(fork);
    }

    /// Moves the first entries to the end of a list that has room for all. Logarithmic time.
    pub fn move_first_to(&mut self, list: &mut Vec<Entry>, spare: &mut Option<Box<Fork>>)
        requires { length list.old.items + length self.old ≤ vec_capacity list.old }
        ensures entries { list.new.items ++ self.new ≡ list.old.items ++ self.old }
        ensures capacity { vec_capacity list.old ≤ vec_capacity list.new }
    {
        let tree = mem::replace(&mut self.tree, Tree::empty());
        match tree.take_first() {
            None => {
                let _ = list.extend_from_slice(self.last.as_slice());
                self.last.truncate(0);
            }
            Some((fork, rest)) => {
                let _ = list.extend_from_slice(fork.entries.as_slice());
                *spare = Some(fork);
                self.tree = rest;
            }
        }
    }

    /// Moves all entries to the end of a list that has room for them. Linear time.
    pub fn move_to(&mut self, list: &mut Vec<Entry>)
        requires { length list.old.items + length self.old ≤ vec_capacity list.old }
        ensures entries { list.new.items ≡ list.old.items ++ self.old }
        ensures empty { self.new ≡ [] }
        ensures capacity { vec_capacity list.old ≤ vec_capacity list.new }
    {
        mem::replace(&mut self.tree, Tree::empty()).move_to(list);
        let _ = list.extend_from_slice(self.last.as_slice());
        self.last.truncate(0);
    }

    /// Takes the first entry that fits out. Logarithmic time.
    #[tactic(auto, using(crate::proofs::Queues::in_two))]
    pub fn take(&mut self, room: u64, spare: &mut Option<Box<Fork>>) -> Option<Entry>
        ensures taken { result ≡ first_fitting room self.old }
        ensures rest { self.new ≡ without_first_fitting room self.old }
    {
        if !self.tree.fits(room) {
            return self.last.take(room);
        }
        let tree = mem::replace(&mut self.tree, Tree::empty());
        let (taken, rest) = tree.take(room, spare);
        self.tree = rest;
        taken
    }
}
