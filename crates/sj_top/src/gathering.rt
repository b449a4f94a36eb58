//! The arrays of print statements, put together from what the deliver tasks handed over, in whatever order these ended.

ghost use Rattle.std.specs.Prelude.{◌≡◌, ℕ, ◌<◌, ◌≤◌, ◌++◌, All, AllPairs, Contains, length, map, nat_eq, IfOk, IfSome, OnOk};
ghost use Rattle.std.specs.List.{prefix_len};
ghost use Rattle.sj_base.specs.Array.{zeros};
ghost use Rattle.sj_lower.specs.Delivering.{deliveries_for};
ghost use Rattle.sj_plan.specs.Rect.{Within};
ghost use Rattle.sj_plan.specs.Window.{gathered};
ghost use Rattle.sj_top.specs.Gathering.{HandedOver, AreGrouped, IsIndex, IsShown, ShowsHanded, all_shown, array_found, assembled, part_by, prints_of, rect_at, shown};
ghost use Rattle.sj_top.specs.Output.{output, printed_block};

use crate::output::write_printed;
use sj_base::memory::OutOfMemory;
use sj_base::program::{Delivery, Program};
use sj_base::tile::{Dims, Tile};
use sj_board::delivered::Delivered;
use sj_meaning::roots::Roots;
use sj_plan::rect::Rect;
use sj_plan::tiles::gather;
use std::alloc::Global;
use std::marker::Model;

/// What the deliver tasks of a program handed over, each found by its task. Contracts see both, and the table.
#[derive(Drop)]
struct ByTask<'a> {
    program: &'a Program,
    delivered: &'a Delivered,
    /// At a task's number its place in what was handed over.
    places: Vec<usize>,
}

impl<'a> Model for ByTask<'a> {
    ghost use Rattle.sj_top.specs.Gathering.{HandedArrays, HandedOver, IsIndex};

    ghost Value = { HandedArrays };

    ghost view = { λ b. record { program = b.program.now; places = b.places.items; pairs = b.delivered.now.pairs } };

    ghost invariant = { λ b. HandedOver b.program.now b.delivered.now.pairs
        × IsIndex b.places.items b.delivered.now.pairs };
}

impl<'a> ByTask<'a> {
    /// The places of what was handed over. Linear in the program's tasks.
    fn of(
        alloc: Global,
        program: &'a Program,
        delivered: &'a Delivered,
    ) -> Result<ByTask<'a>, OutOfMemory>
        requires { HandedOver program.now delivered.now.pairs }
        ensures program { IfOk result (λ b. b.program ≡ program.now) }
        ensures pairs { IfOk result (λ b. b.pairs ≡ delivered.now.pairs) }
        ensures index { IfOk result (λ b. IsIndex b.places b.pairs) }
    {
        let places = places_of(alloc, program.tasks.len(), delivered)?;
        Ok(ByTask {
            program,
            delivered,
            places,
        })
    }

    /// The program. Constant time.
    fn program(&self) -> &Program
        ensures { result.now ≡ self.now.program }
    {
        self.program
    }

    /// What a delivery's task handed over. Constant time.
    fn tile(&self, delivery: &Delivery) -> &Tile
        requires { Contains self.now.program.deliveries delivery.now }
        ensures { result.now ≡ array_found self.now delivery.now.task }
    {
        self.delivered.tile(self.places[delivery.task.0 as usize])
    }
}

/// At the number of each task that handed something over the place of that. Linear in the number of all tasks.
fn places_of(alloc: Global, tasks: usize, delivered: &Delivered) -> Result<Vec<usize>, OutOfMemory>
    requires { All (λ pair. pair.0.0 < tasks) delivered.now.pairs }
    ensures { IfOk result (λ places. IsIndex places.items delivered.now.pairs) }
{
    let mut places = vec![in alloc; 0usize; tasks]?;
    for i in 0..delivered.len() {
        places[delivered.task(i).0 as usize] = i;
    }
    Ok(places)
}

/// A tile of zeros, whatever the dimensions: that a root's are small is no fact of its table. Linear in its elements.
fn blank(alloc: Global, dims: Dims) -> Result<Tile, OutOfMemory>
    ensures { IfOk result (λ t. t ≡ zeros dims) }
{
    Ok(Tile::of(dims, vec![in alloc; 0i64; dims.area() as usize]?))
}

/// The rectangle of a root that a delivery's tile of these dimensions has.
fn rect_of(delivery: &Delivery, dims: Dims) -> Rect
    ensures { result ≡ rect_at delivery.now dims }
{
    Rect {
        row: delivery.place.0,
        col: delivery.place.1,
        rows: dims.rows,
        cols: dims.cols,
    }
}

/// Puts what deliveries handed over in their places of a tile. Linear in its elements; no memory.
fn put_in_place(tile: &mut Tile, deliveries: &[Delivery], handed: &ByTask)
    requires handed { All (Contains handed.now.program.deliveries) deliveries.now }
    requires within { All (λ d. Within (part_by (array_found handed.now) d).0 tile.old.dims)
        deliveries.now }
    ensures { tile.new ≡ gathered tile.old (map (part_by (array_found handed.now)) deliveries.now) }
{
    for delivery in deliveries {
        let child = handed.tile(delivery);
        gather(tile, rect_of(delivery, child.dims()), child);
    }
}

/// The tile that was handed over for a whole array, where there is one. Constant time.
fn whole<'a>(dims: Dims, deliveries: &[Delivery], handed: &'a ByTask) -> Option<&'a Tile>
    requires handed { All (Contains handed.now.program.deliveries) deliveries.now }
    requires within { All (λ d. Within (part_by (array_found handed.now) d).0 dims) deliveries.now }
    ensures { IfSome result (λ tile. tile.now
        ≡ assembled (array_found handed.now) dims deliveries.now) }
{
    let [one] = deliveries else {
        return None;
    };
    let tile = handed.tile(one);
    if tile.dims() == dims {
        Some(tile)
    } else {
        None
    }
}

/// Appends what is printed of the deliveries of a print statement: the array, or its summary. Linear in the elements and in the
/// text.
fn write_print(
    alloc: Global,
    text: &mut Vec<u8>,
    roots: &Roots,
    deliveries: &[Delivery],
    handed: &ByTask,
    summary: bool,
) -> Result<(), OutOfMemory>
    requires handed { All (Contains handed.now.program.deliveries) deliveries.now }
    requires shown { IsShown roots.now (array_found handed.now) deliveries.now }
    ensures { OnOk result (text.new.items ≡ text.old.items
        ++ printed_block summary (shown roots.now (array_found handed.now) deliveries.now)) }
{
    let root = deliveries[0].root;
    let info = roots.info(root);
    let name = roots.name(root);
    if let Some(tile) = whole(info.dims, deliveries, handed) {
        return write_printed(text, name, info.kind, tile, summary);
    }
    let mut tile = blank(alloc, info.dims)?;
    put_in_place(&mut tile, deliveries, handed);
    write_printed(text, name, info.kind, &tile, summary)
}

/// How many deliveries from the first on are of a print statement. Linear in them.
fn count_of(deliveries: &[Delivery], print: u64) -> usize
    ensures count { result ≡ prefix_len (λ d. nat_eq d.print print) deliveries.now }
    ensures bound { result ≤ length deliveries.now }
{
    deliveries
        .iter()
        .take_while(|d| d.print as u64 == print)
        .count()
}

/// How many print statements there are deliveries of. Constant time.
fn prints_of(program: &Program) -> u64
    ensures { result ≡ prints_of program.now }
{
    match program.deliveries.items().last() {
        Some(delivery) => delivery.print as u64 + 1,
        None => 0,
    }
}

/// What is printed of all deliveries, one print statement after another. Linear in the elements and in the text; one array is
/// made at a time.
fn write_prints(
    alloc: Global,
    roots: &Roots,
    handed: &ByTask,
    summary: bool,
) -> Result<Vec<u8>, OutOfMemory>
    requires shown { (k : ℕ) → k < prints_of handed.now.program →
        IsShown roots.now (array_found handed.now) (deliveries_for handed.now.program k) }
    requires ascending { AllPairs (λ d e. d.print ≤ e.print) handed.now.program.deliveries }
    ensures { IfOk result (λ text. text.items
        ≡ output summary (all_shown roots.now (array_found handed.now) handed.now.program)) }
{
    let program = handed.program();
    let mut text = Vec::new(alloc);
    let mut rest = program.deliveries.items();
    for print in 0..prints_of(program) {
        let (these, later) = rest.split_at(count_of(rest, print));
        write_print(alloc, &mut text, roots, these, handed, summary)?;
        rest = later;
    }
    Ok(text)
}

/// What a job prints, from what its deliver tasks handed over in whatever order: of each print statement the array that its
/// deliveries make, or its summary. Linear in the program's tasks, in the elements and in the text; one array is made at a time.
pub fn text_of(
    alloc: Global,
    roots: &Roots,
    program: &Program,
    delivered: &Delivered,
    summary: bool,
) -> Result<Vec<u8>, OutOfMemory>
    requires handed { HandedOver program.now delivered.now.pairs }
    requires grouped { AreGrouped roots.now program.now }
    ensures { IfOk result (λ text.
        ShowsHanded summary roots.now program.now delivered.now.pairs text.items) }
{
    let handed = ByTask::of(alloc, program, delivered)?;
    write_prints(alloc, roots, &handed, summary)
}
