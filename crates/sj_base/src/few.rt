//! Short lists, whose contracts see nothing but their items.

ghost use Rattle.std.specs.Prelude.{◌≡◌, ◌==◌, ◌++◌, ◌∷◌, [], length, IfOk, OnOk, OnErr};

use crate::memory::OutOfMemory;
use smallvec::SmallVec;
use std::alloc::Global;
use std::default::MadeWith;
use std::marker::Model;

/// A list of items in order. Up to three of them lie in the list itself, and take no memory of their own.
#[derive(Debug, Drop)]
pub struct Few<T> {
    items: SmallVec<T, 3>,
}

impl<T> Model for Few<T> {
    ghost use Rattle.std.specs.Prelude.{List};

    ghost Value = { List T };

    ghost view = { λ few. few.items.items };
}

impl<T> Few<T> {
    /// The items, in constant time.
    pub fn items(&self) -> &[T]
        ensures { result.now ≡ self.now }
    {
        self.items.as_slice()
    }

    /// How many items there are, in constant time.
    pub fn len(&self) -> usize
        ensures { result ≡ length self.now }
    {
        self.items().len()
    }

    /// Whether there is no item, in constant time.
    pub fn is_empty(&self) -> bool
        ensures { result ≡ (length self.now == 0) }
    {
        self.items().is_empty()
    }
}

impl<T: MadeWith<Global> + Drop> Few<T> {
    /// No item. Takes no memory.
    pub fn empty(alloc: Global) -> Few<T>
        ensures { result ≡ [] }
    {
        Few {
            items: SmallVec::new(alloc),
        }
    }

    /// The items of a `Vec`. Linear in them where there are at most three, else constant time.
    pub fn listed(items: Vec<T>) -> Few<T>
        ensures { result ≡ items.items }
    {
        Few {
            items: SmallVec::from_vec(items),
        }
    }

    /// These items. Takes no memory for up to three. Linear in them.
    pub fn of<const M: usize>(alloc: Global, items: [T; M]) -> Result<Few<T>, OutOfMemory>
        ensures { IfOk result (λ few. few ≡ items) }
    {
        let items = SmallVec::from_array(alloc, items)?;
        Ok(Few { items })
    }

    /// Appends an item. Constant time, amortised.
    pub fn push(&mut self, item: T) -> Result<(), OutOfMemory>
        ensures ok { OnOk result (self.new ≡ self.old ++ item ∷ []) }
        ensures err { OnErr result (self.new ≡ self.old) }
    {
        self.items.push(item)?;
        Ok(())
    }
}
