//! A rectangle of a tile taken out, and put back.

ghost use Rattle.std.specs.Prelude.{◌≡◌, ◌+◌, ◌<◌, ℕ, IfOk};
ghost use Rattle.sj_base.specs.Array.{element};
ghost use Rattle.sj_plan.specs.Rect.{HasElement, Within, rect_dims};
ghost use Rattle.sj_plan.specs.Window.{window, with_window};

use crate::rect::Rect;
use sj_base::memory::OutOfMemory;
use sj_base::tile::{Dims, Tile};
use std::alloc::Global;

/// The rectangle of a tile as a tile of its own. Linear in the rectangle's elements, which are
/// copied row by row.
pub fn split(alloc: Global, tile: &Tile, rect: Rect) -> Result<Tile, OutOfMemory>
    requires { Within rect tile.now.dims }
    ensures window { IfOk result (λ child. child ≡ window tile.now rect) }
    ensures elements { IfOk result (λ child. (i j : ℕ) → i < rect.rows → j < rect.cols →
        element child i j ≡ element tile.now (rect.row + i) (rect.col + j)) }
{
    let dims = tile.dims();
    let elements = tile.elements();
    let across = dims.cols as usize;
    let width = rect.cols as usize;
    let mut taken = Vec::with_capacity(alloc, rect.rows as usize * width)?;
    for i in 0..rect.rows {
        let start = (rect.row + i) as usize * across + rect.col as usize;
        taken.extend_from_slice(&elements[start..start + width])?;
    }
    let dims = Dims {
        rows: rect.rows,
        cols: rect.cols,
    };
    Ok(Tile::of(dims, taken))
}

/// Puts a child's elements into the rectangle of a tile. No other element changes. Linear in the
/// rectangle's elements, which are copied row by row; no memory.
pub fn gather(into: &mut Tile, rect: Rect, child: &Tile)
    requires within { Within rect into.old.dims }
    requires dims { child.now.dims ≡ rect_dims rect }
    ensures with_window { into.new ≡ with_window into.old rect child.now }
    ensures child_there { window into.new rect ≡ child.now }
    ensures others_stay { (i j : ℕ) → i < into.old.dims.rows → j < into.old.dims.cols →
        ¬ (HasElement rect i j) → element into.new i j ≡ element into.old i j }
{
    let across = into.dims().cols as usize;
    let width = rect.cols as usize;
    let from = child.elements();
    let elements = into.elements_mut();
    for k in 0..rect.rows {
        let start = (rect.row + k) as usize * across + rect.col as usize;
        let at = k as usize * width;
        elements[start..start + width].copy_from_slice(&from[at..at + width]);
    }
}
