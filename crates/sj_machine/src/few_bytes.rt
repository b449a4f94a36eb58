//! The bytes of a task's few cells, kept without memory of their own.

ghost use Rattle.std.specs.Prelude.{◌≡◌, ◌<◌, ◌++◌, ◌∷◌, [], length};

use crate::few_cells::MOST_OPERANDS;
use std::marker::Model;

/// Five numbers at most, in order. They lie in the value itself.
#[derive(Debug, Drop)]
pub struct FewBytes {
    bytes: [u64; MOST_OPERANDS],
    count: usize,
}

impl Model for FewBytes {
    ghost use Rattle.std.specs.Prelude.{◌≤◌, List, take, ℕ};

    ghost Value = { List ℕ };

    ghost view = { λ f. take f.count f.bytes };

    ghost invariant = { λ f. f.count ≤ 5 };
}

impl FewBytes {
    /// No number. Constant time.
    pub fn none() -> FewBytes
        ensures { result ≡ [] }
    {
        FewBytes {
            bytes: [0; MOST_OPERANDS],
            count: 0,
        }
    }

    /// Appends a number. Constant time, and no memory.
    pub fn push(&mut self, bytes: u64)
        requires { length self.old < 5 }
        ensures { self.new ≡ self.old ++ bytes ∷ [] }
    {
        self.bytes[self.count] = bytes;
        self.count += 1;
    }

    /// The numbers. Constant time.
    pub fn items(&self) -> &[u64]
        ensures { result.now ≡ self.now }
    {
        &self.bytes[..self.count]
    }
}
