//! How many pastes a change of plans takes, without making them.

ghost use Rattle.std.specs.Prelude.{◌≡◌, ◌*◌, ◌<◌, ◌≤◌, length};
ghost use Rattle.sj_plan.specs.Interval.{meetings};
ghost use Rattle.sj_plan.specs.Parts.{Fits};
ghost use Rattle.sj_plan.specs.Paste.{pastes_of};

use crate::interval::{part, parts_overlapping};
use crate::parts::Parts;
use sj_base::tile::Dims;

/// How many pastes `pastes` gives. Linear in the parts of the new plan, of rows and of columns; no memory.
pub fn count_pastes(dims: Dims, old: Parts, new: Parts) -> u64
    requires old_plan { Fits old dims }
    requires new_plan { Fits new dims }
    ensures { result ≡ length (pastes_of dims old new) }
{
    pairs(dims.rows, old.r, new.r) * pairs(dims.cols, old.c, new.c)
}

/// How many pairs of an old part and a new part share an index. Linear in the new parts; no memory.
fn pairs(items: u32, old: u32, new: u32) -> u64
    requires some_old { 0 < old }
    requires old_parts { old ≤ items }
    requires few_old { old ≤ 4096 }
    requires new_parts { new ≤ items }
    requires few_new { new ≤ 4096 }
    ensures count { result ≡ meetings items old new }
    ensures most { result ≤ 4096 * 4096 }
{
    let mut pairs = 0u64;
    for k in 0..new {
        pairs += parts_overlapping(items, old, part(items, new, k)).len as u64;
    }
    pairs
}
