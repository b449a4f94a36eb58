//! How tasks access cells, as far as the order of tasks goes.

use sj_base::program::Codelet;

/// How a lowered task accesses a cell. Tasks that access one cell in turn by one `Commute` or by
/// `Contribute` need no order among them, and neither do tasks that read it.
#[derive(Clone, Copy, Debug, PartialEq, Eq)]
pub enum Manner {
    /// It only reads the cell.
    Read,
    /// It writes the cell.
    Write,
    /// It writes the cell by this codelet, in any order with others.
    Commute(Codelet),
    /// It may contribute to the cell, which is a partial copy of a reduction.
    Contribute,
}

/// A cell that a task accesses, by its number, and how.
#[derive(Clone, Copy, Debug, PartialEq, Eq)]
pub struct Usage {
    pub cell: usize,
    pub manner: Manner,
}
