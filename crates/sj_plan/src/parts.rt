//! Partition plans.

ghost use Rattle.std.specs.Prelude.{◌↔◌, IsTrue};
ghost use Rattle.sj_plan.specs.Parts.{Fits};

use sj_base::tile::Dims;

/// A partition plan: how many parts of rows and of columns an array is cut into.
#[derive(Clone, Copy, Debug, PartialEq, Eq)]
pub struct Parts {
    /// Parts of rows.
    pub r: u32,
    /// Parts of columns.
    pub c: u32,
}

impl Parts {
    /// The most children that a plan may have.
    pub const MOST: u64 = 4096;

    /// Whether the plan is valid for an array of these dimensions: no part is empty, and there are
    /// at most `MOST` children. Every call that takes a plan asks for this. Constant time.
    pub fn fit(&self, dims: Dims) -> bool
        ensures { IsTrue result ↔ Fits self.now dims }
    {
        0 < self.r
            && self.r <= dims.rows
            && 0 < self.c
            && self.c <= dims.cols
            && self.r as u64 * self.c as u64 <= Parts::MOST
    }
}
