//! The state of a run, and the events that change it.

ghost use Rattle.std.specs.Prelude.{◌≡◌, ◌+◌, ◌<◌, ◌≤◌, [], All, FitsSigned, IfErr, IfOk, None, OnErr, OnOk, false, length, replicate, true};
ghost use Rattle.std.specs.Int.{w64};
ghost use Rattle.sj_base.specs.Array.{area};
ghost use Rattle.sj_base.specs.Mode.{reads_of};
ghost use Rattle.sj_base.specs.declared.ids.Place.TheVariants.{Disk as OnDisk, Node as AtNode};
ghost use Rattle.sj_codelet.specs.Kernel.{out};
ghost use Rattle.sj_core.specs.Program.{task_of};
ghost use Rattle.sj_core.specs.Step.{mover_of};
ghost use Rattle.sj_machine.specs.Gone.{KnownGone};
ghost use Rattle.sj_machine.specs.Plan.{IsPlan};
ghost use Rattle.sj_machine.specs.Planning.{AnotherHasTask, IsWhy, MayClaim};
ghost use Rattle.sj_board.specs.Delivery.{IsGift};
ghost use Rattle.sj_board.specs.Shares.{AreResultsFor, AreSharesFor};
ghost use Rattle.sj_board.specs.Sound.{CanStart, IsSoundRun, IsWrittenOut};
ghost use Rattle.sj_board.specs.Sparing.{EventsSpareUsed};
ghost use Rattle.sj_board.specs.Standing.{CanHappen, HasMoved, IsMovingIn, IsMovingOut, IsShareOf, IsTileMoved, is_node, starting, state, with_event};
ghost use Rattle.sj_board.specs.Tiles.{CanShare, array_in, tile_kept, tiles_of, with_tile, with_tiles_of};

mod lending;
mod looking;
mod planning;

use crate::delivery::is_delivery;
use crate::room::whole_trace;
use crate::shares::{lend_each, put_back, put_tile, share_into};
use crate::spent::Spent;
use crate::tiles::CellTiles;
use sj_base::ids::{Cell, DiskNo, Node, Place, Task, Worker};
use sj_base::memory::OutOfMemory;
use sj_base::program::{Machine, Program};
use sj_base::tile::Tile;
use sj_base::trace::{Event, Trace};
use sj_codelet::frame::Frame;
use sj_core::tasks::task_at;
use sj_disk::disk_set::DiskSet;
use sj_disk::lending_set::LendingSet;
use sj_edge::disk::Disk;
use sj_machine::operands::written_cells;
use sj_machine::plan::{Plan, Why};
use sj_machine::rows::{Rows, RowsRefusal};
use std::alloc::Global;
use std::marker::Model;
use std::snapshot::Snapshot;
use std::sync::Arc;

/// How far a run is, on its machine.
#[derive(Drop)]
pub struct RunState<D: Disk> {
    rows: Rows,
    /// The tiles of each cell.
    tiles: Vec<CellTiles>,
    disks: LendingSet<D>,
    /// The disks as they were when the run was made.
    opened: Snapshot<DiskSet<D>>,
    /// With room for all events that are to come.
    trace: Trace,
}

impl<D: Disk> Model for RunState<D> {
    ghost use Rattle.sj_codelet.specs.Kernel.{out};
    ghost use Rattle.sj_board.specs.Sound.{Keeps};
    ghost use Rattle.sj_board.specs.Standing.{Standing, standing};

    ghost Value = { Standing D };

    ghost view = { λ b. standing out b.rows.program b.rows.machine b.trace b.disks b.opened.value };

    ghost invariant = { λ b. Keeps D.size D.faults D.mismatches D.held
        (standing out b.rows.program b.rows.machine b.trace b.disks b.opened.value) b.rows b.tiles.items
        b.trace.spare };
}

/// Why a run isn't made: want of memory. Its program and its disks come back.
#[derive(Drop)]
pub struct RunRefusal<D: Disk> {
    pub program: Arc<Program>,
    pub disks: DiskSet<D>,
}

/// No tile of any cell at any node. Linear in the cells and nodes.
fn no_tiles(alloc: Global, count: usize, nodes: usize) -> Result<Vec<CellTiles>, OutOfMemory>
    ensures { IfOk result (λ v. v.items ≡ replicate count (replicate nodes None)) }
{
    let mut rows = Vec::with_capacity(alloc, count)?;
    for _i in 0..count {
        rows.push(CellTiles::none(alloc, nodes)?)?;
    }
    Ok(rows)
}

/// The tile of a cell at a node goes. Constant time.
fn clear(tiles: &mut Vec<CellTiles>, cell: Cell, n: Node, spent: &mut Spent)
    requires cell { cell.0 < length tiles.old.items }
    requires node { n.0 < length (tiles_of tiles.old.items cell) }
    ensures { tiles.new.items ≡ with_tiles_of tiles.old.items cell
        (λ places. with_tile places n None) }
{
    let row = &mut tiles[cell.0 as usize];
    row.clear(n, spent);
}

/// A share of the tile that is kept of a cell at a node; none of its block on a disk. Constant time.
fn share_of(tiles: &[CellTiles], cell: Cell, place: Place) -> Result<Option<Arc<Tile>>, OutOfMemory>
    requires { CanShare tiles.now cell place }
    ensures share { IfOk result (λ share. array_in share ≡ tile_kept tiles.now cell place) }
    ensures only_from_a_node { OnErr result (is_node place ≡ true) }
{
    match place {
        Place::Node(n) => Ok(Some(tiles[cell.0 as usize].share(n)?)),
        Place::Disk(_) => Ok(None),
    }
}

/// The node that a place is. Constant time.
fn node_at(place: Place) -> Node
    requires { is_node place ≡ true }
    ensures { place ≡ AtNode result }
{
    match place {
        Place::Node(n) => n,
        Place::Disk(_) => unreachable!(),
    }
}

/// The disk that a place is. Constant time.
fn disk_at(place: Place) -> DiskNo
    requires { is_node place ≡ false }
    ensures { place ≡ OnDisk result }
{
    match place {
        Place::Node(_) => unreachable!(),
        Place::Disk(d) => d,
    }
}

/// Reads each element, since what is read is known to fit its type. It does nothing, so that no code is left of it.
fn told(elements: &[i64])
    ensures { All (FitsSigned w64) elements.now }
{
    for x in elements {
        let _element = *x;
    }
}

/// No code: its contract is what a tile's type says of its elements.
pub fn measured(tile: &Tile)
    ensures whole { length tile.now.elements ≡ area tile.now.dims }
    ensures fits { All (FitsSigned w64) tile.now.elements }
{
    let elements = tile.elements();
    told(elements);
}

impl<D: Disk> RunState<D> {
    /// A run on which nothing has happened, with room for all events. The program and the disks come back where memory is
    /// wanting. Linear in tasks, and in cells times nodes.
    pub fn make(
        alloc: Global,
        program: Arc<Program>,
        machine: Machine,
        disks: DiskSet<D>,
    ) -> Result<RunState<D>, RunRefusal<D>>
        requires { CanStart out program.value machine disks }
        ensures ok { IfOk result (λ b. b ≡ starting out program.value machine disks) }
        ensures err { IfErr result (λ r. (r.program.value ≡ program.value) × (r.disks ≡ disks)) }
    {
        let cells = program.cells.len();
        let nodes = machine.nodes.len();
        let Ok(tiles) = no_tiles(alloc, cells, nodes) else {
            return Err(RunRefusal { program, disks });
        };
        let Ok(trace) = whole_trace(alloc, &program) else {
            return Err(RunRefusal { program, disks });
        };
        let rows = match Rows::make(alloc, program, machine) {
            Ok(rows) => rows,
            Err(RowsRefusal { program }) => return Err(RunRefusal { program, disks }),
        };
        let opened = Snapshot::of(&disks);
        let disks = match LendingSet::make(alloc, disks) {
            Ok(disks) => disks,
            Err(disks) => {
                let program = rows.into_program();
                return Err(RunRefusal { program, disks });
            }
        };
        Ok(RunState {
            rows,
            tiles,
            disks,
            opened,
            trace,
        })
    }

    /// The plan of a claim of a ready task by an idle worker, or why the claim can't be made now: only while another worker has
    /// a claimed or running task. So many of each worker's victims, those that go first, are known to be gone. Linear in the
    /// operands, the victims, the entries that are passed, the workers and the others of their victims, and in the workers for
    /// each commuting operand.
    pub fn claim_plan_knowing(
        &self,
        alloc: Global,
        t: Task,
        w: Worker,
        gone: &[usize],
    ) -> Result<Result<Plan, Why>, OutOfMemory>
        requires may { MayClaim self.now.program self.now.machine (state self.now) t w }
        requires gone { KnownGone self.now.machine (state self.now) gone.now }
        ensures can { IfOk result (λ found. OnOk found (CanHappen self.now (Event.Claim t w))) }
        ensures plan { IfOk result (λ found. IfOk found
            (IsPlan self.now.program self.now.machine (state self.now) t w)) }
        ensures why { IfOk result (λ found. IfErr found
            (IsWhy self.now.program self.now.machine (state self.now) t w)) }
        ensures another { IfOk result (λ found. OnErr found (AnotherHasTask (state self.now) w)) }
    {
        self.rows.claim_plan_knowing(alloc, t, w, gone)
    }

    /// A worker takes a ready task by its plan: it pins the task's cells on its node and brings them to the front, the
    /// plan's victims leave, and the cells that were missing come. After an `Err` the run is as before: there was no memory
    /// for the entries of these cells. Linear in the operands and the victims.
    pub fn claim(&mut self, t: Task, w: Worker, plan: Plan) -> Result<(), OutOfMemory>
        requires can { CanHappen self.old (Event.Claim t w) }
        requires plan { IsPlan self.old.program self.old.machine (state self.old) t w plan }
        ensures ok { OnOk result (self.new ≡ with_event self.old (Event.Claim t w)) }
        ensures err { OnErr result (self.new ≡ self.old) }
    {
        self.rows.claim(t, w, plan)?;
        self.trace.add(Event::Claim(t, w));
        Ok(())
    }

    /// A leaving copy goes from its node, since another is valid and no transfer reads it; its tile is spent. Constant time, and
    /// no memory.
    pub fn drop_copy(&mut self, cell: Cell, n: Node, spent: &mut Spent)
        requires { CanHappen self.old (Event.Drop cell n) }
        ensures { self.new ≡ with_event self.old (Event.Drop cell n) }
    {
        self.rows.drop_copy(cell, n);
        clear(&mut self.tiles, cell, n, spent);
        self.trace.add(Event::Drop(cell, n));
    }

    /// A worker begins a move of a cell: one that its claim brings, or a victim of its claim. Hands out a share of the tile
    /// at the source, where that is a node. After an `Err` the run is as before: that share was refused. No memory where the
    /// source is a disk. Constant time.
    pub fn begin_move(
        &mut self,
        w: Worker,
        cell: Cell,
        from: Place,
        to: Place,
    ) -> Result<Option<Arc<Tile>>, OutOfMemory>
        requires can { CanHappen self.old (Event.Move cell from to) }
        requires mover { mover_of (state self.old) cell from to ≡ w }
        ensures ok { OnOk result (self.new ≡ with_event self.old (Event.Move cell from to)) }
        ensures share { IfOk result (λ share. IsShareOf D.held self.old cell from
            (array_in share)) }
        ensures err { OnErr result (self.new ≡ self.old) }
        ensures only_from_a_node { OnErr result (is_node from ≡ true) }
    {
        let share = share_of(&self.tiles, cell, from)?;
        self.rows.begin_move(w, cell, from, to);
        self.trace.add(Event::Move(cell, from, to));
        Ok(share)
    }

    /// The move of a worker into a node ends: the tile is there. Constant time, and no memory.
    pub fn end_move_in(&mut self, w: Worker, tile: Arc<Tile>)
        requires under_way { IsMovingIn self.old w }
        requires tile { IsTileMoved D.held self.old w tile.value }
        ensures { HasMoved w self.old self.new }
    {
        let x = self.rows.end_move(w);
        put_tile(&mut self.tiles, x.cell, node_at(x.to), tile);
        self.trace.add(Event::Moved(x.cell, x.from, x.to));
    }

    /// The move of a worker out to a disk ends: the cell's block there is a copy. Constant time, and no memory.
    pub fn end_move_out(&mut self, w: Worker)
        requires under_way { IsMovingOut self.old w }
        requires written { IsWrittenOut D.held self.old w }
        ensures { HasMoved w self.old self.new }
    {
        let x = self.rows.end_move(w);
        let _d = disk_at(x.to);
        self.trace.add(Event::Moved(x.cell, x.from, x.to));
    }

    /// A further share of the tile that a task will hand over, at the node of the worker that has claimed it, where it is a
    /// deliver task. Constant time.
    pub fn gift(&self, t: Task, w: Worker) -> Result<Option<Arc<Tile>>, OutOfMemory>
        requires can { CanHappen self.now (Event.Run t w) }
        ensures { IfOk result (λ gift. IsGift D.held self.now t w (array_in gift)) }
    {
        let task = task_at(self.rows.program(), t);
        if !is_delivery(task.codelet) {
            return Ok(None);
        }
        let n = self.rows.node_of(w);
        let cell = task.accesses.items()[0].cell;
        let row = &self.tiles[cell.0 as usize];
        Ok(Some(row.share(n)?))
    }

    /// The kernel of a task begins that its worker has claimed. Appends to the frame shares of the operands whose old value
    /// is read, in order; of the cells that it writes, the run keeps no tile: those that it had are spent. After an `Err` the run
    /// is as before. Linear in the operands, and in the nodes for each written one.
    pub fn run(
        &mut self,
        t: Task,
        w: Worker,
        mut frame: Frame,
        spent: &mut Spent,
    ) -> Result<Frame, OutOfMemory>
        requires can { CanHappen self.old (Event.Run t w) }
        requires empty { frame.slots ≡ [] }
        requires room { length (reads_of (task_of self.old.program t).accesses) ≤ frame.spare }
        ensures ok { OnOk result (self.new ≡ with_event self.old (Event.Run t w)) }
        ensures shares { IfOk result (λ f. AreSharesFor D.held self.old t w f.slots) }
        ensures room { IfOk result (λ f. f.spare + length f.slots ≡ frame.spare) }
        ensures err { OnErr result (self.new ≡ self.old) }
    {
        let n = self.rows.node_of(w);
        let program = self.rows.program();
        let accesses = task_at(program, t).accesses.items();
        share_into(program, w, &self.tiles, n, accesses, &mut frame)?;
        let written = written_cells(program, w, accesses);
        lend_each(&mut self.tiles, written.items(), spent);
        self.rows.run(t, w);
        self.trace.add(Event::Run(t, w));
        Ok(frame)
    }

    /// The kernel of a task has ended. The frame has shares of its results, in the order of its written operands; it comes back
    /// empty, with its room. Linear in the operands, and no memory.
    pub fn end(&mut self, t: Task, w: Worker, mut written: Frame) -> Frame
        requires can { CanHappen self.old (Event.End t w) }
        requires written { AreResultsFor D.held self.old t w written.slots }
        ensures event { self.new ≡ with_event self.old (Event.End t w) }
        ensures spent { result.slots ≡ [] }
        ensures room { result.spare ≡ written.spare + length written.slots }
    {
        let n = self.rows.node_of(w);
        let program = self.rows.program();
        let accesses = task_at(program, t).accesses.items();
        put_back(program, w, &mut self.tiles, accesses, n, &mut written);
        self.rows.end(t, w);
        self.trace.add(Event::End(t, w));
        written
    }

    /// No code: its contract is what is true of every run.
    pub fn is_sound(&self)
        ensures { IsSoundRun D.size D.faults D.mismatches D.held self.now }
    {
        let _ = &self.rows;
    }

    /// No code: its contract is the law that no event takes away a copy that a claimed or running task pins, or that a
    /// transfer reads, or changes its array, but for the run of the task that writes it.
    pub fn events_spare_what_is_used(&self)
        ensures { EventsSpareUsed self.now }
    {
        let _ = &self.rows;
    }
}
