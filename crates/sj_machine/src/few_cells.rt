//! A task's few cells, kept without memory of their own.

ghost use Rattle.std.specs.Prelude.{◌≡◌, ◌<◌, ◌++◌, ◌∷◌, [], length};

use sj_base::ids::Cell;
use std::marker::Model;

/// The most operands of a task.
pub const MOST_OPERANDS: usize = 5;

/// Five cells at most, in order. They lie in the value itself.
#[derive(Debug, Drop)]
pub struct FewCells {
    cells: [Cell; MOST_OPERANDS],
    count: usize,
}

impl Model for FewCells {
    ghost use Rattle.std.specs.Prelude.{◌≤◌, List, take};
    ghost use Rattle.sj_base.specs.declared.ids.Cell.{Cell};

    ghost Value = { List Cell };

    ghost view = { λ f. take f.count f.cells };

    ghost invariant = { λ f. f.count ≤ 5 };
}

impl FewCells {
    /// No cell. Constant time.
    pub fn none() -> FewCells
        ensures { result ≡ [] }
    {
        FewCells {
            cells: [Cell(0); MOST_OPERANDS],
            count: 0,
        }
    }

    /// Appends a cell. Constant time, and no memory.
    pub fn push(&mut self, cell: Cell)
        requires { length self.old < 5 }
        ensures { self.new ≡ self.old ++ cell ∷ [] }
    {
        self.cells[self.count] = cell;
        self.count += 1;
    }

    /// The cells. Constant time.
    pub fn items(&self) -> &[Cell]
        ensures { result.now ≡ self.now }
    {
        &self.cells[..self.count]
    }
}
