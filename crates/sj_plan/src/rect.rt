//! Rectangles of an array.

ghost use Rattle.std.specs.Prelude.{◌≡◌, ◌↔◌, IsTrue};
ghost use Rattle.sj_plan.specs.Rect.{Within, row_interval, col_interval};

use crate::interval::Interval;
use sj_base::tile::Dims;

/// `rows` rows from `row` on, by `cols` columns from `col` on.
#[derive(Clone, Copy, Debug, PartialEq, Eq)]
pub struct Rect {
    pub row: u32,
    pub col: u32,
    pub rows: u32,
    pub cols: u32,
}

impl Rect {
    /// The indices of its rows. Constant time.
    pub fn row_interval(&self) -> Interval
        ensures { result ≡ row_interval self.now }
    {
        Interval {
            first: self.row,
            len: self.rows,
        }
    }

    /// The indices of its columns. Constant time.
    pub fn col_interval(&self) -> Interval
        ensures { result ≡ col_interval self.now }
    {
        Interval {
            first: self.col,
            len: self.cols,
        }
    }

    /// Whether it lies in an array of these dimensions. Constant time.
    pub fn is_within(&self, dims: Dims) -> bool
        ensures { IsTrue result ↔ Within self.now dims }
    {
        self.row as u64 + self.rows as u64 <= dims.rows as u64
            && self.col as u64 + self.cols as u64 <= dims.cols as u64
    }
}
