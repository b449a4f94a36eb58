//! The rows of a run, and the events that change them.

ghost use Rattle.std.specs.Prelude.{◌≡◌, ◌<◌, ◌≤◌, [], All, IfErr, IfOk, IsSome, None, OnErr, OnOk, Some, length, map, replicate};
ghost use Rattle.sj_base.specs.declared.ids.Node.{Node};
ghost use Rattle.sj_base.specs.declared.ids.Place.{Place};
ghost use Rattle.sj_base.specs.declared.trace.Event.{Event};
ghost use Rattle.sj_core.specs.Machine.{idle_row, transfer};
ghost use Rattle.sj_core.specs.Operands.{written_cells};
ghost use Rattle.sj_core.specs.Program.{task_of};
ghost use Rattle.sj_core.specs.Proper.{IsMachineFor, Proper};
ghost use Rattle.sj_core.specs.Step.{arrived, mover_of};
ghost use Rattle.sj_machine.specs.Cells.{row_of, with_row_of};
ghost use Rattle.sj_machine.specs.Gone.{KnownGone};
ghost use Rattle.sj_machine.specs.Operands.{CanWorkOn};
ghost use Rattle.sj_machine.specs.Plan.{IsPlan};
ghost use Rattle.sj_machine.specs.Planning.{AnotherHasTask, IsAnswer, IsWhy, MayClaim};
ghost use Rattle.sj_machine.specs.Rows.{AreSound, MayHappen, has_happened, rows_at_start};
ghost use Rattle.sj_machine.specs.Stores.{transfer_in, with_transfer_of};
ghost use Rattle.sj_node.specs.Store.{empty};
ghost use Rattle.sj_replica.specs.Replica.{no_copy};

mod asking;
mod looking;
mod next;

use crate::claiming::{hold_all, mark_all, node_of, take_plan};
use crate::ending::{count_each, let_go, release_at};
use crate::few_cells::FewCells;
use crate::hold::Hold;
use crate::leaving::leaving_at;
use crate::operands::{commuter_held, written_cells};
use crate::plan::{Plan, Why};
use crate::running::{evict_elsewhere, own_each};
use sj_base::ids::{Cell, Node, Place, Task, Worker};
use sj_base::memory::OutOfMemory;
use sj_base::program::{Machine, Program};
use sj_core::progress::{Progress, Transfer};
use sj_core::tasks::task_at;
use sj_node::store::NodeStore;
use sj_replica::mark::Mark;
use sj_replica::replica::Replica;
use std::alloc::Global;
use std::marker::Model;
use std::sync::Arc;

/// How far a run is: the rows of its tasks, cells, nodes and workers.
#[derive(Drop)]
pub struct Rows {
    program: Arc<Program>,
    machine: Machine,
    tasks: Vec<Progress>,
    cells: Vec<Replica>,
    nodes: Vec<NodeStore>,
    workers: Vec<Hold>,
}

impl Model for Rows {
    ghost use Rattle.sj_machine.specs.Rows.{Rows};
    ghost use Rattle.sj_machine.specs.Stores.{KeepsStores, state_in};

    ghost Value = { Rows };

    ghost view = { λ r. record { program = r.program.value; machine = r.machine; state = state_in r.tasks.items r.cells.items r.nodes.items r.workers.items } };

    ghost invariant = { λ r. KeepsStores r.program.value r.machine
        (state_in r.tasks.items r.cells.items r.nodes.items r.workers.items) r.nodes.items };
}

/// Why rows aren't made: want of memory. Their program comes back.
#[derive(Drop)]
pub struct RowsRefusal {
    pub program: Arc<Program>,
}

/// All tasks waiting. Linear in them.
fn waiting(alloc: Global, count: usize) -> Result<Vec<Progress>, OutOfMemory>
    ensures { IfOk result (λ v. v.items ≡ replicate count Progress.Waiting) }
{
    Ok(vec![in alloc; Progress::Waiting; count]?)
}

/// No copy of any cell at any node. Linear in the cells and nodes.
fn no_copies(alloc: Global, count: usize, nodes: usize) -> Result<Vec<Replica>, OutOfMemory>
    ensures { IfOk result (λ v. v.items ≡ replicate count (no_copy nodes)) }
{
    let mut rows = Vec::with_capacity(alloc, count)?;
    for _i in 0..count {
        rows.push(Replica::none(alloc, nodes)?)?;
    }
    Ok(rows)
}

/// Empty nodes of these sizes. Linear in the cells and nodes.
fn empty_nodes(alloc: Global, sizes: &[u64], cells: u32) -> Result<Vec<NodeStore>, OutOfMemory>
    ensures { IfOk result (λ v. v.items ≡ map (λ size. empty size cells) sizes.now) }
{
    let mut nodes = Vec::with_capacity(alloc, sizes.len())?;
    for size in sizes {
        nodes.push(NodeStore::make(alloc, *size, cells)?)?;
    }
    Ok(nodes)
}

/// Workers with nothing in hand. Linear in them.
fn idle_workers(alloc: Global, count: u8) -> Result<Vec<Hold>, OutOfMemory>
    ensures { IfOk result (λ v. v.items ≡ replicate count idle_row) }
{
    let mut workers = Vec::with_capacity(alloc, count as usize)?;
    for _i in 0..count {
        workers.push(Hold::nothing(alloc))?;
    }
    Ok(workers)
}

/// A worker begins a transfer, or ends it. Constant time.
fn set_transfer(workers: &mut Vec<Hold>, w: Worker, transfer: Option<Transfer>)
    requires { w.0 < length workers.old.items }
    ensures { workers.new.items ≡ with_transfer_of workers.old.items w transfer }
{
    let row = &mut workers[w.0 as usize];
    row.set_transfer(transfer);
}

/// A worker's transfer, where it has one. Constant time.
fn transfer_of(workers: &[Hold], w: Worker) -> Transfer
    requires inside { w.0 < length workers.now }
    requires some { IsSome (transfer_in workers.now w) }
    ensures { transfer_in workers.now w ≡ Some result }
{
    let row = &workers[w.0 as usize];
    row.transfer().unwrap()
}

/// The cells that a worker writes for a task, in operand order. Linear in the operands.
fn written_by(program: &Program, t: Task, w: Worker) -> FewCells
    requires task { t.0 < length program.now.tasks }
    requires can { All (CanWorkOn program.now w) (task_of program.now t).accesses }
    requires few { length (task_of program.now t).accesses ≤ 5 }
    ensures { result ≡ written_cells program.now t w }
{
    written_cells(program, w, task_at(program, t).accesses.items())
}

/// A copy of a cell has arrived at a place. Constant time.
fn arrive(cells: &mut Vec<Replica>, cell: Cell, to: Place)
    requires cell { cell.0 < length cells.old.items }
    requires node { (n : Node) → to ≡ Place.Node n →
        n.0 < length (row_of cells.old.items cell).marks }
    ensures { cells.new.items ≡ with_row_of cells.old.items cell (arrived to) }
{
    let row = &mut cells[cell.0 as usize];
    match to {
        Place::Node(n) => row.set_mark(n, Mark::Valid),
        Place::Disk(_) => row.store(),
    }
}

impl Rows {
    /// A run on which nothing has happened. The program comes back where memory is wanting. Linear in tasks, and in cells times
    /// nodes.
    pub fn make(alloc: Global, program: Arc<Program>, machine: Machine) -> Result<Rows, RowsRefusal>
        requires proper { Proper program.value }
        requires machine { IsMachineFor program.value machine }
        ensures ok { IfOk result (λ r. r ≡ rows_at_start program.value machine) }
        ensures err { IfErr result (λ r. r.program.value ≡ program.value) }
    {
        let Ok(tasks) = waiting(alloc, program.tasks.len()) else {
            return Err(RowsRefusal { program });
        };
        let Ok(cells) = no_copies(alloc, program.cells.len(), machine.nodes.len()) else {
            return Err(RowsRefusal { program });
        };
        let Ok(nodes) = empty_nodes(alloc, machine.nodes.items(), program.cells.len() as u32) else {
            return Err(RowsRefusal { program });
        };
        let Ok(workers) = idle_workers(alloc, machine.workers) else {
            return Err(RowsRefusal { program });
        };
        Ok(Rows {
            program,
            machine,
            tasks,
            cells,
            nodes,
            workers,
        })
    }

    /// The plan of a claim of a ready task by an idle worker, or why the claim can't be made now: only while another worker has
    /// a claimed or running task. Linear in the operands, the victims, the entries that are passed and the victims of each
    /// worker's last claim, and in the workers for each commuting operand.
    pub fn claim_plan(
        &self,
        alloc: Global,
        t: Task,
        w: Worker,
    ) -> Result<Result<Plan, Why>, OutOfMemory>
        requires { MayClaim self.now.program self.now.machine self.now.state t w }
        ensures can { IfOk result (λ found. OnOk found (MayHappen self.now (Event.Claim t w))) }
        ensures plan { IfOk result (λ found. IfOk found
            (IsPlan self.now.program self.now.machine self.now.state t w)) }
        ensures why { IfOk result (λ found. IfErr found
            (IsWhy self.now.program self.now.machine self.now.state t w)) }
        ensures another { IfOk result (λ found. OnErr found (AnotherHasTask self.now.state w)) }
    {
        self.claim_plan_knowing(alloc, t, w, &[])
    }

    /// The same, where so many of each worker's victims, those that go first, are known to be gone. Linear in the operands, the
    /// victims, the entries that are passed, the workers and the others of their victims, and in the workers for each commuting
    /// operand.
    pub fn claim_plan_knowing(
        &self,
        alloc: Global,
        t: Task,
        w: Worker,
        gone: &[usize],
    ) -> Result<Result<Plan, Why>, OutOfMemory>
        requires may { MayClaim self.now.program self.now.machine self.now.state t w }
        requires gone { KnownGone self.now.machine self.now.state gone.now }
        ensures can { IfOk result (λ found. OnOk found (MayHappen self.now (Event.Claim t w))) }
        ensures plan { IfOk result (λ found. IfOk found
            (IsPlan self.now.program self.now.machine self.now.state t w)) }
        ensures why { IfOk result (λ found. IfErr found
            (IsWhy self.now.program self.now.machine self.now.state t w)) }
        ensures another { IfOk result (λ found. OnErr found (AnotherHasTask self.now.state w)) }
    {
        self.is_sound();
        self.answer_to_claim(alloc, t, w, gone)
    }

    /// What `claim_plan_knowing` answers, at its cost.
    fn answer_to_claim(
        &self,
        alloc: Global,
        t: Task,
        w: Worker,
        gone: &[usize],
    ) -> Result<Result<Plan, Why>, OutOfMemory>
        requires may { MayClaim self.now.program self.now.machine self.now.state t w }
        requires gone { KnownGone self.now.machine self.now.state gone.now }
        ensures { IfOk result (IsAnswer self.now t w) }
    {
        let accesses = task_at(&self.program, t).accesses.items();
        if let Some(cell) = commuter_held(&self.workers, accesses) {
            return Ok(Err(Why::Commute(cell)));
        }
        let n = node_of(&self.machine, w);
        if let Some(cell) = leaving_at(&self.cells, n, &self.workers, gone) {
            return Ok(Err(Why::Leaving(cell)));
        }
        let node = &self.nodes[n.0 as usize];
        let found = Plan::on(alloc, &self.program, &self.cells, node, n, t, w)?;
        Ok(found.ok_or(Why::NoRoom))
    }

    /// A worker takes a ready task by its plan: it pins the task's cells on its node and brings them to the front, the
    /// plan's victims leave, and the cells that were missing come. After an `Err` the run is as before: there was no memory
    /// for the entries of these cells. Linear in the operands and the victims.
    pub fn claim(&mut self, t: Task, w: Worker, plan: Plan) -> Result<(), OutOfMemory>
        requires can { MayHappen self.old (Event.Claim t w) }
        requires plan { IsPlan self.old.program self.old.machine self.old.state t w plan }
        ensures ok { OnOk result (self.new ≡ has_happened self.old (Event.Claim t w)) }
        ensures err { OnErr result (self.new ≡ self.old) }
    {
        let n = node_of(&self.machine, w);
        hold_all(&mut self.nodes, n, &plan)?;
        mark_all(&mut self.cells, plan.victims(), n, Mark::Leaving(w));
        mark_all(&mut self.cells, plan.missing(), n, Mark::Coming(w));
        self.tasks[t.0 as usize] = Progress::Claimed(w);
        take_plan(&mut self.workers, w, plan);
        Ok(())
    }

    /// A worker begins a move of a cell: one that its claim brings, or a victim of its claim. Constant time, and no memory.
    pub fn begin_move(&mut self, w: Worker, cell: Cell, from: Place, to: Place)
        requires can { MayHappen self.old (Event.Move cell from to) }
        requires mover { mover_of self.old.state cell from to ≡ w }
        ensures { self.new ≡ has_happened self.old (Event.Move cell from to) }
    {
        set_transfer(&mut self.workers, w, Some(Transfer { cell, from, to }));
    }

    /// The transfer of a worker ends: there is a copy at its target. Constant time, and no memory.
    pub fn end_move(&mut self, w: Worker) -> Transfer
        requires { IsSome (transfer self.old.state w) }
        ensures under_way { transfer self.old.state w ≡ Some result }
        ensures ended { self.new ≡ has_happened self.old
            (Event.Moved result.cell result.from result.to) }
    {
        let x = transfer_of(&self.workers, w);
        arrive(&mut self.cells, x.cell, x.to);
        set_transfer(&mut self.workers, w, None);
        x
    }

    /// A leaving copy goes from its node, since there is another and no transfer reads it. Constant time, and no memory.
    pub fn drop_copy(&mut self, cell: Cell, n: Node)
        requires { MayHappen self.old (Event.Drop cell n) }
        ensures { self.new ≡ has_happened self.old (Event.Drop cell n) }
    {
        let row = &mut self.cells[cell.0 as usize];
        row.set_mark(n, Mark::Invalid);
    }

    /// The kernel of a task begins that its worker has claimed: the cells that it writes are its node's own. No memory. Linear
    /// in the operands, and in the nodes for each written one.
    pub fn run(&mut self, t: Task, w: Worker)
        requires { MayHappen self.old (Event.Run t w) }
        ensures { self.new ≡ has_happened self.old (Event.Run t w) }
    {
        let n = node_of(&self.machine, w);
        let cells = written_by(&self.program, t, w);
        let written = cells.items();
        evict_elsewhere(&mut self.nodes, &self.cells, written, n);
        own_each(&mut self.cells, written, n);
        self.tasks[t.0 as usize] = Progress::Running(w);
    }

    /// The kernel of a task has ended: the cells that it writes are written once more, and its worker's pins and scratch are
    /// gone. No memory. Linear in the operands.
    pub fn end(&mut self, t: Task, w: Worker)
        requires { MayHappen self.old (Event.End t w) }
        ensures { self.new ≡ has_happened self.old (Event.End t w) }
    {
        let n = node_of(&self.machine, w);
        let written = written_by(&self.program, t, w);
        count_each(&mut self.cells, written.items());
        release_at(&mut self.nodes, n, &self.workers, w);
        let_go(&mut self.workers, w);
        self.tasks[t.0 as usize] = Progress::Done(w);
    }

    /// Ends the run, and gives its program back. Constant time.
    pub fn into_program(self) -> Arc<Program>
        ensures { result.value ≡ self.program }
    {
        self.program
    }

    /// No code: its contract is what is true of all rows.
    pub fn is_sound(&self)
        ensures { AreSound self.now }
    {
        let _ = &self.program;
    }
}
