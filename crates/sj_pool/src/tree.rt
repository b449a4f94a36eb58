//! A queue as a T-tree: a balanced search tree (an AVL tree) whose forks have several entries each. A
//! fork keeps the least bytes here and below, so that the first entry that fits is found on one path
//! from the root.

ghost use Rattle.std.specs.Prelude.{◌≡◌, ℕ, ◌<◌, ◌≤◌, ◌+◌, ◌↔◌, [], ◌∷◌, ◌++◌, ◌||◌, nat_le, insert, false, IsTrue, IsNone, IsSome, IfSome, length};
ghost use Rattle.std.specs.Vec.{vec_capacity};
ghost use Rattle.sj_pool.specs.Chunk.{chunk_room};
ghost use Rattle.sj_pool.specs.Queue.{has_fitting, first_fitting, without_first_fitting, put_by_urgency, is_by_urgency};
ghost use Rattle.sj_pool.specs.Root.{IsLeastBytes};

use crate::chunk::{CHUNK, Chunk, urgency_place};
use crate::entry::Entry;
use sj_base::memory::OutOfMemory;
use std::alloc::Global;
use std::marker::Model;
use std::mem;

/// A tree, seen as its entries from left to right.
#[cycle(tree)]
#[derive(Drop)]
pub struct Tree {
    root: Option<Box<Fork>>,
}

/// Entries between two trees.
#[cycle(tree)]
#[derive(Drop)]
pub struct Fork {
    pub entries: Chunk,
    height: u8,
    /// The least bytes of an entry here or below.
    least: u64,
    left: Tree,
    right: Tree,
}

impl Model for Tree {
    ghost use Rattle.std.specs.Prelude.{List, length};
    ghost use Rattle.sj_pool.specs.declared.entry.Entry.{Entry};
    ghost use Rattle.std.specs.Prelude.{◌++◌};
    ghost use Rattle.sj_pool.specs.Root.{entries_of, IsTreeRoot};

    ghost Value = { List Entry };

    ghost view = { λ t. entries_of (λ f. f.left ++ f.entries ++ f.right) t.root };

    ghost invariant = { λ t. IsTreeRoot (λ f. f.entries) (λ f. f.least)
        (λ f. f.left ++ f.entries ++ f.right) t.root };

    ghost size = { length };

    ghost use Rattle.std.proofs.Common.{arith, length-append};

    ghost size_decreases = { λ t h. Prim.grind (arith, length-append) };
}

/// Whether an entry that goes to an end of a fork's goes into the tree on that side.
fn goes_on(side: &Tree, is_at_end: bool, is_full: bool) -> bool
    ensures yes { IsTrue result → IsTrue is_at_end }
    ensures empty { result ≡ false → IsTrue is_at_end → side.now ≡ [] }
    ensures room { result ≡ false → IsTrue is_at_end → is_full ≡ false }
{
    is_at_end && (is_full || !side.is_empty())
}

impl Tree {
    ghost use Rattle.sj_pool.specs.Fork.{entries, in_order};
    ghost use Rattle.sj_pool.specs.Root.{IsTreeRoot};

    /// No entry.
    pub fn empty() -> Tree
        ensures { result ≡ [] }
    {
        Tree { root: None }
    }

    /// Whether there is no entry.
    pub fn is_empty(&self) -> bool
        ensures { IsTrue result ↔ (self.now ≡ []) }
    {
        self.root.is_none()
    }

    fn height(&self) -> u8 {
        match &self.root {
            None => 0,
            Some(fork) => fork.height,
        }
    }

    /// The least of some bytes and those of the entries. Constant time.
    fn least(&self, bytes: u64) -> u64
        ensures { IsLeastBytes result bytes self.now }
    {
        match &self.root {
            None => bytes,
            Some(fork) => bytes.min(fork.least),
        }
    }

    /// Whether an entry fits so much room. Constant time.
    pub fn fits(&self, room: u64) -> bool
        ensures { result ≡ has_fitting room self.now }
    {
        match &self.root {
            None => false,
            Some(fork) => fork.least <= room,
        }
    }

    fn open(self) -> Option<Box<Fork>>
        ensures entries { entries result ≡ self }
        ensures root { IsTreeRoot (λ f. f.entries) (λ f. f.least) in_order result }
    {
        self.root
    }

    fn close(mut fork: Box<Fork>) -> Tree
        requires { 0 < length fork.value.entries }
        ensures { result ≡ in_order fork.value }
    {
        fork.height = fork
            .left
            .height()
            .max(fork.right.height())
            .saturating_add(1);
        fork.least = fork.left.least(fork.right.least(fork.entries.least()));
        Tree { root: Some(fork) }
    }

    /// A tree of one entry, in the box of a fork that isn't used.
    fn leaf(mut spare: Box<Fork>, entry: Entry) -> Tree
        ensures { result ≡ entry ∷ [] }
    {
        spare.entries.fill(&[entry]);
        spare.left = Tree::empty();
        spare.right = Tree::empty();
        Tree::close(spare)
    }

    /// A tree of one entry, in the box that is at hand.
    fn leaf_of(spare: &mut Option<Box<Fork>>, entry: Entry) -> Tree
        requires { IsSome spare.old }
        ensures { result ≡ entry ∷ [] }
    {
        match spare.take() {
            None => Tree::empty(),
            Some(fork) => Tree::leaf(fork, entry),
        }
    }

    /// The fork as a tree, balanced where its sides differ by at most two levels. Constant time.
    fn balance(fork: Box<Fork>) -> Tree
        requires { 0 < length fork.value.entries }
        ensures { result ≡ in_order fork.value }
    {
        let left = fork.left.height();
        let right = fork.right.height();
        if left > right.saturating_add(1) {
            Tree::close(Fork::raise_left(Fork::lower_left(fork)))
        } else if right > left.saturating_add(1) {
            Tree::close(Fork::raise_right(Fork::lower_right(fork)))
        } else {
            Tree::close(fork)
        }
    }

    /// The fork as a tree where an entry of so many bytes was put below it, and where that may have
    /// made a side higher. Constant time.
    fn settle(mut fork: Box<Fork>, bytes: u64, is_higher: bool) -> Tree
        requires own { 0 < length fork.value.entries }
        requires least { (room : ℕ) → (nat_le fork.value.least room || nat_le bytes room)
            ≡ has_fitting room (in_order fork.value) }
        ensures { result ≡ in_order fork.value }
    {
        if is_higher {
            return Tree::balance(fork);
        }
        fork.least = fork.least.min(bytes);
        Tree { root: Some(fork) }
    }

    /// Puts a fork's entries before the others, in its box. Logarithmic time.
    pub fn put_first(self, mut fork: Box<Fork>) -> Tree
        requires { 0 < length fork.value.entries }
        ensures { result ≡ fork.value.entries ++ self }
    {
        match self.open() {
            None => {
                fork.left = Tree::empty();
                fork.right = Tree::empty();
                Tree::close(fork)
            }
            Some(mut above) => {
                let left = mem::replace(&mut above.left, Tree::empty());
                above.left = left.put_first(fork);
                Tree::balance(above)
            }
        }
    }

    /// Puts a fork's entries behind the others, in its box. Logarithmic time.
    pub fn put_behind(self, mut fork: Box<Fork>) -> Tree
        requires { 0 < length fork.value.entries }
        ensures { result ≡ self ++ fork.value.entries }
    {
        match self.open() {
            None => {
                fork.left = Tree::empty();
                fork.right = Tree::empty();
                Tree::close(fork)
            }
            Some(mut above) => {
                let right = mem::replace(&mut above.right, Tree::empty());
                above.right = right.put_behind(fork);
                Tree::balance(above)
            }
        }
    }

    /// Puts an entry behind those that are more urgent, into the box of a fork that isn't used where
    /// one is wanted. Logarithmic time.
    #[tactic(auto, using(crate::proofs::Queues::put_in_order))]
    pub fn put_by_urgency(self, entry: Entry, spare: &mut Option<Box<Fork>>) -> Tree
        requires by_urgency { IsTrue (is_by_urgency self) }
        requires spare { IsSome spare.old }
        ensures { result ≡ put_by_urgency entry self }
    {
        let Some(mut fork) = self.open() else {
            return Tree::leaf_of(spare, entry);
        };
        let len = fork.entries.len();
        let place = urgency_place(fork.entries.as_slice(), &entry);
        if goes_on(&fork.right, place == len, len == CHUNK) {
            let right = mem::replace(&mut fork.right, Tree::empty());
            let before = right.height();
            fork.right = right.put_by_urgency(entry, spare);
            let is_higher = fork.right.height() != before;
            return Tree::settle(fork, entry.bytes, is_higher);
        }
        if goes_on(&fork.left, place == 0, len == CHUNK) {
            let left = mem::replace(&mut fork.left, Tree::empty());
            let before = left.height();
            fork.left = left.put_by_urgency(entry, spare);
            let is_higher = fork.left.height() != before;
            return Tree::settle(fork, entry.bytes, is_higher);
        }
        if len < CHUNK {
            fork.entries.insert(place, entry);
            return Tree::settle(fork, entry.bytes, false);
        }
        Tree::split(fork, place, entry, spare)
    }

    /// Puts an entry at a place of a fork that is full: those of its latter half go into the box of a
    /// fork that isn't used. Logarithmic time.
    fn split(mut fork: Box<Fork>, place: usize, entry: Entry, spare: &mut Option<Box<Fork>>) -> Tree
        requires full { length fork.value.entries ≡ chunk_room }
        requires within { place ≤ chunk_room }
        requires spare { IsSome spare.old }
        ensures { result ≡ fork.value.left ++ insert fork.value.entries place entry
            ++ fork.value.right }
    {
        let Some(mut behind) = spare.take() else {
            return Tree::empty();
        };
        fork.entries
            .split(CHUNK / 2, place, entry, &mut behind.entries);
        let right = mem::replace(&mut fork.right, Tree::empty());
        fork.right = right.put_first(behind);
        Tree::balance(fork)
    }

    /// Takes the first fork out, in its box. Logarithmic time.
    pub fn take_first(self) -> Option<(Box<Fork>, Tree)>
        ensures none { IsNone result ↔ (self ≡ []) }
        ensures first { IfSome result (λ p. self ≡ p.0.value.entries ++ p.1) }
        ensures own { IfSome result (λ p. 0 < length p.0.value.entries) }
    {
        let mut fork = self.open()?;
        let left = mem::replace(&mut fork.left, Tree::empty());
        match left.take_first() {
            None => {
                let right = mem::replace(&mut fork.right, Tree::empty());
                Some((fork, right))
            }
            Some((first, rest)) => {
                fork.left = rest;
                Some((first, Tree::balance(fork)))
            }
        }
    }

    /// One tree of two that differ by at most a level. Logarithmic time.
    pub fn join(left: Tree, right: Tree) -> Tree
        ensures { result ≡ left ++ right }
    {
        match right.take_first() {
            None => left,
            Some((mut fork, rest)) => {
                fork.left = left;
                fork.right = rest;
                Tree::balance(fork)
            }
        }
    }

    /// A tree of two with what a fork has left between them. Logarithmic time.
    fn around(mut fork: Box<Fork>, left: Tree, right: Tree, spare: &mut Option<Box<Fork>>) -> Tree
        ensures { result ≡ left ++ fork.value.entries ++ right }
    {
        if fork.entries.is_empty() {
            *spare = Some(fork);
            return Tree::join(left, right);
        }
        fork.left = left;
        fork.right = right;
        Tree::balance(fork)
    }

    /// Moves all entries behind those of a list that has room for them. Linear time.
    pub fn move_to(self, list: &mut Vec<Entry>)
        requires { length list.old.items + length self ≤ vec_capacity list.old }
        ensures items { list.new.items ≡ list.old.items ++ self }
        ensures capacity { vec_capacity list.old ≤ vec_capacity list.new }
    {
        let Some(mut fork) = self.open() else {
            return;
        };
        mem::replace(&mut fork.left, Tree::empty()).move_to(list);
        let _ = list.extend_from_slice(fork.entries.as_slice());
        mem::replace(&mut fork.right, Tree::empty()).move_to(list);
    }

    /// Takes the first entry that fits out. A fork that has none left is a box for another one.
    /// Logarithmic time.
    #[tactic(auto, using(crate::proofs::Queues::take_in_order))]
    pub fn take(self, room: u64, spare: &mut Option<Box<Fork>>) -> (Option<Entry>, Tree)
        ensures taken { result.0 ≡ first_fitting room self }
        ensures rest { result.1 ≡ without_first_fitting room self }
    {
        let Some(mut fork) = self.open() else {
            return (None, Tree::empty());
        };
        let left = mem::replace(&mut fork.left, Tree::empty());
        let right = mem::replace(&mut fork.right, Tree::empty());
        if left.fits(room) {
            let (taken, rest) = left.take(room, spare);
            fork.left = rest;
            fork.right = right;
            return (taken, Tree::balance(fork));
        }
        match fork.entries.take(room) {
            None => {
                let (taken, rest) = right.take(room, spare);
                fork.left = left;
                fork.right = rest;
                (taken, Tree::balance(fork))
            }
            Some(entry) => (Some(entry), Tree::around(fork, left, right, spare)),
        }
    }
}

impl Fork {
    ghost use Rattle.sj_pool.specs.Fork.{in_order};

    /// A fork that isn't used.
    pub fn unused(alloc: Global) -> Result<Box<Fork>, OutOfMemory> {
        let entries = Chunk::make(alloc)?;
        let fork = Fork {
            entries,
            height: 0,
            least: 0,
            left: Tree::empty(),
            right: Tree::empty(),
        };
        Ok(Box::new(alloc, fork)?)
    }

    /// The left child above its parent.
    fn raise_left(mut fork: Box<Fork>) -> Box<Fork>
        requires { 0 < length fork.value.entries }
        ensures order { in_order result.value ≡ in_order fork.value }
        ensures own { 0 < length result.value.entries }
    {
        match mem::replace(&mut fork.left, Tree::empty()).open() {
            None => fork,
            Some(mut child) => {
                fork.left = mem::replace(&mut child.right, Tree::empty());
                child.right = Tree::close(fork);
                child
            }
        }
    }

    /// The right child above its parent.
    fn raise_right(mut fork: Box<Fork>) -> Box<Fork>
        requires { 0 < length fork.value.entries }
        ensures order { in_order result.value ≡ in_order fork.value }
        ensures own { 0 < length result.value.entries }
    {
        match mem::replace(&mut fork.right, Tree::empty()).open() {
            None => fork,
            Some(mut child) => {
                fork.right = mem::replace(&mut child.left, Tree::empty());
                child.left = Tree::close(fork);
                child
            }
        }
    }

    /// The left child is at least as high on its left as on its right.
    fn lower_left(mut fork: Box<Fork>) -> Box<Fork>
        requires { 0 < length fork.value.entries }
        ensures order { in_order result.value ≡ in_order fork.value }
        ensures own { 0 < length result.value.entries }
    {
        if let Some(mut child) = mem::replace(&mut fork.left, Tree::empty()).open() {
            if child.left.height() < child.right.height() {
                child = Fork::raise_right(child);
            }
            fork.left = Tree::close(child);
        }
        fork
    }

    /// The right child is at least as high on its right as on its left.
    fn lower_right(mut fork: Box<Fork>) -> Box<Fork>
        requires { 0 < length fork.value.entries }
        ensures order { in_order result.value ≡ in_order fork.value }
        ensures own { 0 < length result.value.entries }
    {
        if let Some(mut child) = mem::replace(&mut fork.right, Tree::empty()).open() {
            if child.right.height() < child.left.height() {
                child = Fork::raise_left(child);
            }
            fork.right = Tree::close(child);
        }
        fork
    }
}
