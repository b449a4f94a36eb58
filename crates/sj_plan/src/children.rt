//! The children of a partition plan.

ghost use Rattle.std.specs.Prelude.{◌≡◌, ◌<◌, ◌++◌, map, IfOk, OnOk};
ghost use Rattle.std.specs.List.{range_with_len};
ghost use Rattle.sj_plan.specs.Parts.{Fits};
ghost use Rattle.sj_plan.specs.Pieces.{AreInOrder, IsTiling};
ghost use Rattle.sj_plan.specs.Rect.{IsOnlyChild, Within, child, children_of};
ghost use Rattle.sj_plan.specs.Window.{Reassemble};

use crate::interval::{part, part_holding};
use crate::parts::Parts;
use crate::rect::Rect;
use sj_base::memory::OutOfMemory;
use sj_base::sequence::Sequence;
use sj_base::tile::Dims;
use std::alloc::Global;

/// Child `[i, j]`: row part `i` by column part `j`. Constant time, no memory.
pub fn rect(dims: Dims, parts: Parts, i: u32, j: u32) -> Rect
    requires plan { Fits parts dims }
    requires row_part { i < parts.r }
    requires col_part { j < parts.c }
    ensures child { result ≡ child dims parts (i, j) }
    ensures within { Within result dims }
    ensures some_rows { 0 < result.rows }
    ensures some_cols { 0 < result.cols }
{
    let rows = part(dims.rows, parts.r, i);
    let cols = part(dims.cols, parts.c, j);
    Rect {
        row: rows.first,
        col: cols.first,
        rows: rows.len,
        cols: cols.len,
    }
}

/// The child `[i, j]` that holds the element in row `row` and column `col`: there is one, and only
/// one. Constant time, no memory.
pub fn child_holding(dims: Dims, parts: Parts, row: u32, col: u32) -> (u32, u32)
    requires plan { Fits parts dims }
    requires in_rows { row < dims.rows }
    requires in_cols { col < dims.cols }
    ensures { IsOnlyChild dims parts row col result }
{
    let i = part_holding(dims.rows, parts.r, row);
    let j = part_holding(dims.cols, parts.c, col);
    (i, j)
}

/// All children, row by row. Linear in their number.
pub fn children(alloc: Global, dims: Dims, parts: Parts) -> Result<Sequence<Rect>, OutOfMemory>
    requires plan { Fits parts dims }
    ensures children { IfOk result (λ rects. rects ≡ children_of dims parts) }

    // Every element lies in exactly one child.
    ensures tile { IfOk result (IsTiling dims) }

    // Each ends above or left of where the later ones begin.
    ensures order { IfOk result AreInOrder }

    // What `split` gives of them, put back by `gather` in any order, is the array again.
    ensures reassemble { IfOk result (Reassemble dims) }
{
    let mut rects = Vec::with_capacity(alloc, parts.r as usize * parts.c as usize)?;
    for i in 0..parts.r {
        push_row(&mut rects, dims, parts, i)?;
    }
    Ok(Sequence::of(rects))
}

/// Appends the children of row part `i`.
fn push_row(rects: &mut Vec<Rect>, dims: Dims, parts: Parts, i: u32) -> Result<(), OutOfMemory>
    requires plan { Fits parts dims }
    requires row_part { i < parts.r }
    ensures { OnOk result (rects.new.items
        ≡ rects.old.items ++ map (λ j. child dims parts (i, j)) (range_with_len 0 parts.c)) }
{
    for j in 0..parts.c {
        rects.push(rect(dims, parts, i, j))?;
    }
    Ok(())
}
