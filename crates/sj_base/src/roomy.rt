//! A list with room for some more items, which adding within that room can't be refused.

ghost use Rattle.std.specs.Prelude.{◌≡◌, ◌==◌, ◌+◌, ◌<◌, ◌++◌, ◌∷◌, [], length, max, slice_get, IfOk, OnOk, OnErr};
ghost use Rattle.sj_base.specs.Roomy.{roomed};

use crate::memory::OutOfMemory;
use std::alloc::Global;
use std::marker::Model;

/// Items in order, with room for some more.
#[derive(Debug, Drop)]
pub struct Roomy<T> {
    items: Vec<T>,
    /// For how many more items the `Vec` has capacity at least.
    room: u64,
}

impl<T> Model for Roomy<T> {
    ghost use Rattle.std.specs.Prelude.{◌+◌, ◌≤◌};
    ghost use Rattle.std.specs.Vec.{vec_len, vec_capacity};
    ghost use Rattle.sj_base.specs.Roomy.{Roomed, roomed};

    ghost Value = { Roomed T };

    ghost view = { λ l. roomed l.items.items l.room };

    ghost invariant = { λ l. vec_len l.items + l.room ≤ vec_capacity l.items };
}

impl<T: Drop> Roomy<T> {
    /// No item, and no room. Takes no memory.
    pub fn empty(alloc: Global) -> Roomy<T>
        ensures { result ≡ roomed [] 0 }
    {
        Roomy {
            items: Vec::new(alloc),
            room: 0,
        }
    }

    /// No item, and room for `n`. Linear in `n`.
    pub fn with_room(alloc: Global, n: u64) -> Result<Roomy<T>, OutOfMemory>
        ensures { IfOk result (λ l. l ≡ roomed [] n) }
    {
        let items = Vec::with_capacity(alloc, n as usize)?;
        Ok(Roomy { items, room: n })
    }

    /// Makes room for at least so many more items; the room that there was stays. No memory where there was as much.
    /// Linear in the items where it has to move them.
    pub fn reserve(&mut self, more: u64) -> Result<(), OutOfMemory>
        ensures items { self.new.items ≡ self.old.items }
        ensures room { OnOk result (self.new.spare ≡ max self.old.spare more) }
        ensures err { OnErr result (self.new ≡ self.old) }
        ensures only_where_wanting { OnErr result (self.old.spare < more) }
    {
        let room = self.room.max(more);
        self.items.reserve(room as usize)?;
        self.room = room;
        Ok(())
    }

    /// Appends an item. Constant time, and no memory.
    pub fn push(&mut self, item: T)
        requires { 0 < self.old.spare }
        ensures items { self.new.items ≡ self.old.items ++ item ∷ [] }
        ensures room { self.new.spare + 1 ≡ self.old.spare }
    {
        let _ = self.items.push(item);
        self.room -= 1;
    }

    /// Takes the last item away, which leaves room for one more. Constant time, and no memory.
    pub fn pop(&mut self) -> T
        requires { 0 < length self.old.items }
        ensures items { self.old.items ≡ self.new.items ++ result ∷ [] }
        ensures room { self.new.spare ≡ self.old.spare + 1 }
    {
        self.room += 1;
        self.items.pop().unwrap()
    }

    /// The items. Constant time.
    pub fn items(&self) -> &[T]
        ensures { result.now ≡ self.now.items }
    {
        &self.items
    }

    /// The item at a place. Constant time.
    pub fn get(&self, i: usize) -> &T
        requires { i < length self.now.items }
        ensures { slice_get self.now.items i ≡ Some result.now }
    {
        &self.items[i]
    }

    /// How many items there are. Constant time.
    pub fn len(&self) -> usize
        ensures { result ≡ length self.now.items }
    {
        self.items.len()
    }

    /// Whether there is no item. Constant time.
    pub fn is_empty(&self) -> bool
        ensures { result ≡ (length self.now.items == 0) }
    {
        self.items.is_empty()
    }
}
