//! The copies that turn the children of one partition plan into those of another.

ghost use Rattle.std.specs.Prelude.{◌≡◌, ◌<◌, ◌++◌, ◌↔◌, ℕ, All, Any, map, IfOk, OnOk};
ghost use Rattle.std.specs.List.{filter, flat_map, range_with_len};
ghost use Rattle.sj_plan.specs.Interval.{part, overlap};
ghost use Rattle.sj_plan.specs.Parts.{Fits, IsPlace};
ghost use Rattle.sj_plan.specs.Rect.{Overlap, child};
ghost use Rattle.sj_plan.specs.Paste.{BeginEachOnce, IsPasteBetween, Joins, Repartition, is_first, overlaps, paste_at, pastes_of, pastes_to};

use crate::children::rect;
use crate::interval::{part, parts_overlapping};
use crate::parts::Parts;
use sj_base::memory::OutOfMemory;
use sj_base::sequence::Sequence;
use sj_base::tile::Dims;
use std::alloc::Global;

/// The elements that a child of the old plan shares with a child of the new one: `rows` by `cols`,
/// from row and column `at_from` of the old child on, and from `at_to` of the new child on.
#[derive(Clone, Copy, Debug, PartialEq, Eq)]
pub struct Paste {
    /// The old child.
    pub from: (u32, u32),
    /// The new child.
    pub to: (u32, u32),
    pub at_from: (u32, u32),
    pub at_to: (u32, u32),
    pub rows: u32,
    pub cols: u32,
}

impl Paste {
    /// Whether it is the first paste to its new child, of which nothing is there yet: it writes the child (W), and the later
    /// ones read and write it (RW). Constant time.
    pub fn is_first(&self) -> bool
        ensures { result ≡ is_first self.now }
    {
        self.at_to.0 == 0 && self.at_to.1 == 0
    }
}

/// The pastes that turn the children of the old plan into those of the new one: one for each pair
/// that overlaps, by new child, then old child, row by row. Linear in their number.
pub fn pastes(
    alloc: Global,
    dims: Dims,
    old: Parts,
    new: Parts,
) -> Result<Sequence<Paste>, OutOfMemory>
    requires old_plan { Fits old dims }
    requires new_plan { Fits new dims }
    ensures pastes { IfOk result (λ pastes. pastes ≡ pastes_of dims old new) }
    ensures fit { IfOk result (All (IsPasteBetween dims old new)) }

    // There is one exactly for those pairs of children that have an element in common.
    ensures exactly { IfOk result (λ pastes. (from to : ℕ × ℕ) → IsPlace old from → IsPlace new to →
        (Any (Joins from to) pastes ↔ Overlap (child dims old from) (child dims new to))) }

    // Of the pastes to a new child the first has its first element, and no other has.
    ensures begin { IfOk result (BeginEachOnce new) }

    // Applied in order, they make the new plan's children of any array from the old plan's.
    ensures repartition { IfOk result (Repartition dims old new) }
{
    let mut found = Vec::new(alloc);
    for i in 0..new.r {
        push_to_row(&mut found, dims, old, new, i)?;
    }
    Ok(Sequence::of(found))
}

/// Appends the pastes to the children of row part `i` of the new plan.
fn push_to_row(
    found: &mut Vec<Paste>,
    dims: Dims,
    old: Parts,
    new: Parts,
    i: u32,
) -> Result<(), OutOfMemory>
    requires old_plan { Fits old dims }
    requires new_plan { Fits new dims }
    requires row_part { i < new.r }
    ensures { OnOk result (found.new.items ≡ found.old.items ++ flat_map
        (λ j. pastes_to dims old new (i, j)) (range_with_len 0 new.c)) }
{
    for j in 0..new.c {
        push_to(found, dims, old, new, (i, j))?;
    }
    Ok(())
}

/// Appends the pastes to one child of the new plan.
fn push_to(
    found: &mut Vec<Paste>,
    dims: Dims,
    old: Parts,
    new: Parts,
    to: (u32, u32),
) -> Result<(), OutOfMemory>
    requires old_plan { Fits old dims }
    requires new_plan { Fits new dims }
    requires place { IsPlace new to }
    ensures { OnOk result (found.new.items ≡ found.old.items ++ pastes_to dims old new to) }
{
    let rows = part(dims.rows, new.r, to.0);
    let overlapping = parts_overlapping(dims.rows, old.r, rows);
    for k in overlapping.first..overlapping.first + overlapping.len {
        push_between(found, dims, old, new, k, to)?;
    }
    Ok(())
}

/// Appends the pastes to one child of the new plan from the children of row part `k` of the old
/// one, which overlaps it.
fn push_between(
    found: &mut Vec<Paste>,
    dims: Dims,
    old: Parts,
    new: Parts,
    k: u32,
    to: (u32, u32),
) -> Result<(), OutOfMemory>
    requires old_plan { Fits old dims }
    requires new_plan { Fits new dims }
    requires place { IsPlace new to }
    requires row_part { k < old.r }
    requires overlapping { 0 < (overlap (part dims.rows old.r k) (part dims.rows new.r to.0)).len }
    ensures { OnOk result (found.new.items ≡ found.old.items
        ++ filter overlaps (map (λ l. paste_at dims old new (k, l) to) (range_with_len 0 old.c))) }
{
    let cols = part(dims.cols, new.c, to.1);
    let overlapping = parts_overlapping(dims.cols, old.c, cols);
    for l in overlapping.first..overlapping.first + overlapping.len {
        found.push(between(dims, old, new, (k, l), to))?;
    }
    Ok(())
}

/// What an old and a new child share. Constant time.
fn between(dims: Dims, old: Parts, new: Parts, from: (u32, u32), to: (u32, u32)) -> Paste
    requires old_plan { Fits old dims }
    requires new_plan { Fits new dims }
    requires old_place { IsPlace old from }
    requires new_place { IsPlace new to }
    ensures { result ≡ paste_at dims old new from to }
{
    let old_child = rect(dims, old, from.0, from.1);
    let new_child = rect(dims, new, to.0, to.1);
    let rows = old_child.row_interval().overlap(new_child.row_interval());
    let cols = old_child.col_interval().overlap(new_child.col_interval());
    Paste {
        from,
        to,
        at_from: (rows.first - old_child.row, cols.first - old_child.col),
        at_to: (rows.first - new_child.row, cols.first - new_child.col),
        rows: rows.len,
        cols: cols.len,
    }
}
