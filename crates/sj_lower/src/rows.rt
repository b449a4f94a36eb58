//! The tasks that no task line names, for the children of a root.

ghost use Rattle.std.specs.Prelude.{◌≡◌, ◌+◌, ◌<◌, ◌≤◌, ◌++◌, ◌∷◌, [], length, map, IfOk, OnOk};
ghost use Rattle.sj_base.specs.Array.{area};
ghost use Rattle.sj_base.specs.Mode.{access};
ghost use Rattle.sj_base.specs.declared.tile.Dims.{Dims};
ghost use Rattle.sj_meaning.specs.declared.job.Init.TheVariants.{Values, Fill};
ghost use Rattle.sj_job.specs.Track.{children_count, IsSmallPlan};
ghost use Rattle.sj_plan.specs.Parts.{Fits, IsPlace, places};
ghost use Rattle.sj_plan.specs.Paste.{pastes_of};
ghost use Rattle.sj_plan.specs.Rect.{Within};
ghost use Rattle.sj_lower.specs.Cells.{cells_from};
ghost use Rattle.sj_lower.specs.Rows.{task_by, load_row, fill_arguments, fill_row, paste_row, deliver_row, paste_arguments, paste_mode};
ghost use Rattle.sj_lower.specs.Lowering.{load_rows, a_delivery};

use sj_base::few::Few;
use sj_base::ids::{Cell, Line, Root, Task};
use sj_base::memory::OutOfMemory;
use sj_base::mode::{Access, Mode};
use sj_base::program::{Codelet, Delivery, Lowered};
use sj_base::sequence::Sequence;
use sj_base::tile::{Dims, Tile};
use sj_codelet::kernel::{DELIVER, LOAD, LOADFILL, PASTE};
use sj_plan::children::children;
use sj_plan::parts::Parts;
use sj_plan::paste::{Paste, pastes};
use sj_plan::rect::Rect;
use sj_plan::tiles::split;
use std::alloc::Global;

/// A plan whose children have cells, from this one on, row by row.
#[derive(Clone, Copy)]
pub struct Placed {
    pub parts: Parts,
    pub first: u32,
}

impl Placed {
    /// The cell of child `[i, j]`. Constant time.
    pub fn cell(self, place: (u32, u32)) -> Cell
        requires cells { self.first + children_count self.parts ≤ 262144 }
        requires place { IsPlace self.parts place }
        ensures { result ≡ cells_from self.first self.parts place }
    {
        Cell(self.first + place.0 * self.parts.c + place.1)
    }
}

/// A task of the runtime's own codelets.
pub fn own_task(codelet: Codelet, args: Vec<i64>, accesses: Few<Access>, line: Line) -> Lowered
    ensures { result ≡ task_by codelet args.items accesses line }
{
    Lowered {
        codelet,
        args: Few::listed(args),
        accesses,
        line,
        priority: 0,
    }
}

/// A task of the runtime's own codelets that accesses one cell.
pub fn task_on(
    alloc: Global,
    codelet: Codelet,
    args: Vec<i64>,
    mode: Mode,
    cell: Cell,
    line: Line,
) -> Result<Lowered, OutOfMemory>
    ensures { IfOk result (λ l. l ≡ task_by codelet args.items (access mode cell ∷ []) line) }
{
    let accesses = Few::of(alloc, [Access { mode, cell }])?;
    Ok(own_task(codelet, args, accesses, line))
}

/// Loads one child of a root with its elements, which are copied once. Linear in them.
fn load_row(
    alloc: Global,
    whole: &Tile,
    rect: Rect,
    cell: Cell,
    line: Line,
) -> Result<Lowered, OutOfMemory>
    requires { Within rect whole.now.dims }
    ensures { IfOk result (λ l. l ≡ load_row whole.now.elements whole.now.dims rect cell line) }
{
    let child = split(alloc, whole, rect)?;
    task_on(alloc, LOAD, child.into_elements(), Mode::W, cell, line)
}

/// Loads each child of a root with these elements. Linear in the elements; a root of one child gives its own list away.
pub fn push_loads(
    tasks: &mut Vec<Lowered>,
    alloc: Global,
    dims: Dims,
    placed: Placed,
    values: Sequence<i64>,
    line: Line,
) -> Result<(), OutOfMemory>
    requires plan { Fits placed.parts dims }
    requires cells { placed.first + children_count placed.parts ≤ 262144 }
    requires values { length values ≡ area dims }
    ensures { OnOk result (tasks.new.items ≡ tasks.old.items
        ++ load_rows (Values values) dims placed.parts
        (cells_from placed.first placed.parts) line) }
{
    if placed.parts.r * placed.parts.c == 1 {
        let cell = Cell(placed.first);
        let args = values.into_items();
        tasks.push(task_on(alloc, LOAD, args, Mode::W, cell, line)?)?;
        return Ok(());
    }
    let whole = Tile::of(dims, values.into_items());
    push_windows(tasks, alloc, placed, &whole, line)
}

/// Loads each child of a root with the elements of this tile.
fn push_windows(
    tasks: &mut Vec<Lowered>,
    alloc: Global,
    placed: Placed,
    whole: &Tile,
    line: Line,
) -> Result<(), OutOfMemory>
    requires plan { Fits placed.parts whole.now.dims }
    requires cells { placed.first + children_count placed.parts ≤ 262144 }
    ensures { OnOk result (tasks.new.items ≡ tasks.old.items
        ++ load_rows (Values whole.now.elements) whole.now.dims placed.parts
        (cells_from placed.first placed.parts) line) }
{
    let rects = children(alloc, whole.dims(), placed.parts)?;
    let count = placed.parts.r * placed.parts.c;
    for k in 0..count {
        let rect = rects.items()[k as usize];
        let cell = Cell(placed.first + k);
        tasks.push(load_row(alloc, whole, rect, cell, line)?)?;
    }
    Ok(())
}

/// The arguments of the load of a child of a root of so many columns.
fn fill_arguments(
    alloc: Global,
    fill: (i64, i64),
    cols: u32,
    rect: Rect,
) -> Result<Vec<i64>, OutOfMemory>
    ensures { IfOk result (λ args. args.items ≡ fill_arguments fill.0 fill.1 cols rect) }
{
    let args = [
        fill.0,
        fill.1,
        rect.row as i64,
        rect.col as i64,
        cols as i64,
    ];
    Ok(Vec::from_array(alloc, args)?)
}

/// Loads one child of a root whose element at position i is `a + b·i`.
fn fill_row(
    alloc: Global,
    fill: (i64, i64),
    dims: Dims,
    rect: Rect,
    cell: Cell,
    line: Line,
) -> Result<Lowered, OutOfMemory>
    ensures { IfOk result (λ l. l ≡ fill_row fill.0 fill.1 dims rect cell line) }
{
    let args = fill_arguments(alloc, fill, dims.cols, rect)?;
    task_on(alloc, LOADFILL, args, Mode::W, cell, line)
}

/// Loads each child of a root whose element at position i is `a + b·i`. Linear in the children.
pub fn push_fills(
    tasks: &mut Vec<Lowered>,
    alloc: Global,
    dims: Dims,
    placed: Placed,
    fill: (i64, i64),
    line: Line,
) -> Result<(), OutOfMemory>
    requires plan { Fits placed.parts dims }
    requires cells { placed.first + children_count placed.parts ≤ 262144 }
    ensures { OnOk result (tasks.new.items ≡ tasks.old.items
        ++ load_rows (Fill fill.0 fill.1) dims placed.parts
        (cells_from placed.first placed.parts) line) }
{
    let rects = children(alloc, dims, placed.parts)?;
    let count = placed.parts.r * placed.parts.c;
    for k in 0..count {
        let rect = rects.items()[k as usize];
        let cell = Cell(placed.first + k);
        tasks.push(fill_row(alloc, fill, dims, rect, cell, line)?)?;
    }
    Ok(())
}

/// The arguments of a paste.
fn paste_arguments(alloc: Global, paste: Paste) -> Result<Vec<i64>, OutOfMemory>
    ensures { IfOk result (λ args. args.items ≡ paste_arguments paste) }
{
    let args = [
        paste.at_from.0 as i64,
        paste.at_from.1 as i64,
        paste.at_to.0 as i64,
        paste.at_to.1 as i64,
        paste.rows as i64,
        paste.cols as i64,
    ];
    Ok(Vec::from_array(alloc, args)?)
}

/// In which mode a paste has its new child.
fn paste_mode(paste: Paste) -> Mode
    ensures { result ≡ paste_mode paste }
{
    if paste.is_first() { Mode::W } else { Mode::RW }
}

/// A paste of an old child's cell into a new child's. Constant time.
fn paste_row(
    alloc: Global,
    old: Placed,
    new: Placed,
    paste: Paste,
    line: Line,
) -> Result<Lowered, OutOfMemory>
    requires old_cells { old.first + children_count old.parts ≤ 262144 }
    requires new_cells { new.first + children_count new.parts ≤ 262144 }
    requires from { IsPlace old.parts paste.from }
    requires to { IsPlace new.parts paste.to }
    ensures { IfOk result (λ l. l
        ≡ paste_row (cells_from old.first old.parts) (cells_from new.first new.parts) line paste) }
{
    let args = paste_arguments(alloc, paste)?;
    let from = Access {
        mode: Mode::R,
        cell: old.cell(paste.from),
    };
    let to = Access {
        mode: paste_mode(paste),
        cell: new.cell(paste.to),
    };
    let accesses = Few::of(alloc, [from, to])?;
    Ok(own_task(PASTE, args, accesses, line))
}

/// Pastes the children of one plan into those of another. Linear in the pairs that overlap.
pub fn push_pastes(
    tasks: &mut Vec<Lowered>,
    alloc: Global,
    dims: Dims,
    old: Placed,
    new: Placed,
    line: Line,
) -> Result<(), OutOfMemory>
    requires old_plan { Fits old.parts dims }
    requires new_plan { Fits new.parts dims }
    requires old_cells { old.first + children_count old.parts ≤ 262144 }
    requires new_cells { new.first + children_count new.parts ≤ 262144 }
    ensures { OnOk result (tasks.new.items ≡ tasks.old.items
        ++ map (paste_row (cells_from old.first old.parts) (cells_from new.first new.parts) line)
        (pastes_of dims old.parts new.parts)) }
{
    let pastes = pastes(alloc, dims, old.parts, new.parts)?;
    for paste in pastes.items() {
        tasks.push(paste_row(alloc, old, new, *paste, line)?)?;
    }
    Ok(())
}

/// Hands over a cell.
fn deliver_row(alloc: Global, cell: Cell, line: Line) -> Result<Lowered, OutOfMemory>
    ensures { IfOk result (λ l. l ≡ deliver_row cell line) }
{
    task_on(alloc, DELIVER, Vec::new(alloc), Mode::R, cell, line)
}

/// Hands over the cell of each child of a plan. Linear in the children.
pub fn push_delivers(
    tasks: &mut Vec<Lowered>,
    alloc: Global,
    placed: Placed,
    line: Line,
) -> Result<(), OutOfMemory>
    requires plan { IsSmallPlan placed.parts }
    requires cells { placed.first + children_count placed.parts ≤ 262144 }
    ensures { OnOk result (tasks.new.items ≡ tasks.old.items
        ++ map (λ place. deliver_row (cells_from placed.first placed.parts place) line)
        (places placed.parts)) }
{
    let count = placed.parts.r * placed.parts.c;
    for k in 0..count {
        let cell = Cell(placed.first + k);
        tasks.push(deliver_row(alloc, cell, line)?)?;
    }
    Ok(())
}

/// Where each child of a plan belongs in its root, for a print statement whose first task is this one. Linear in the children.
pub fn push_deliveries(
    deliveries: &mut Vec<Delivery>,
    alloc: Global,
    root: Root,
    dims: Dims,
    parts: Parts,
    task: u32,
    print: u32,
) -> Result<(), OutOfMemory>
    requires plan { Fits parts dims }
    requires tasks { task + children_count parts ≤ 262144 }
    ensures { OnOk result (deliveries.new.items ≡ deliveries.old.items
        ++ map (a_delivery task root dims parts print) (places parts)) }
{
    let rects = children(alloc, dims, parts)?;
    let count = parts.r * parts.c;
    for k in 0..count {
        let rect = rects.items()[k as usize];
        deliveries.push(Delivery {
            task: Task(task + k),
            root,
            place: (rect.row, rect.col),
            print,
        })?;
    }
    Ok(())
}
