//! Which events are legal for rows as they are.

ghost use Rattle.std.specs.Prelude.{◌≡◌, ◌↔◌, ◌<◌, IsTrue, length};
ghost use Rattle.sj_base.specs.declared.ids.Place.TheVariants.{Disk as OnDisk, Node as AtNode};
ghost use Rattle.sj_base.specs.declared.trace.Event.TheVariants.{Drop, End, Move, Moved, Run};
ghost use Rattle.sj_core.specs.Legal.{IsComplete};
ghost use Rattle.sj_core.specs.Machine.{is_done, is_idle, is_task_of, is_waiting, mark, progress, transfer};
ghost use Rattle.sj_core.specs.Step.{mover_of, source_of};
ghost use Rattle.sj_machine.specs.Planning.{MayClaim};
ghost use Rattle.sj_machine.specs.Rows.{MayHappen};
ghost use Rattle.sj_replica.specs.Mark.{claimant_of};
ghost use Rattle.sj_replica.specs.declared.mark.Mark.TheVariants.{Coming};
ghost use Rattle.sj_check.specs.Watching.{AreHomes, HasTasks, task_in};
ghost use Rattle.sj_machine.specs.ReadyTasks.{CountsDone};

use sj_base::ids::{Cell, DiskNo, Node, Place, Task, Worker};
use sj_core::progress::{Progress, Transfer};
use sj_deps::deps::Deps;
use sj_machine::rows::Rows;
use sj_needs::footprint::footprint;
use sj_replica::mark::Mark;

/// How far a task is, one of the program or not. Constant time.
fn progress_of(rows: &Rows, t: Task) -> Progress
    ensures { result ≡ progress rows.now.state t }
{
    rows.is_sound();
    if t.0 as usize >= rows.program().tasks.len() {
        return Progress::Waiting;
    }
    rows.progress(t)
}

/// Whether a task that is so far waits. Constant time.
fn is_waiting(progress: Progress) -> bool
    ensures { result ≡ is_waiting progress }
{
    matches!(progress, Progress::Waiting)
}

/// Whether a task that is so far is done. Constant time.
fn is_done(progress: Progress) -> bool
    ensures { result ≡ is_done progress }
{
    matches!(progress, Progress::Done(_))
}

/// Whether a task that is so far is the worker's: claimed by it, or running on it. Constant time.
fn is_task_of(w: Worker, progress: Progress) -> bool
    ensures { result ≡ is_task_of w progress }
{
    match progress {
        Progress::Claimed(v) | Progress::Running(v) => v == w,
        Progress::Waiting | Progress::Done(_) => false,
    }
}

/// Whether all tasks are done. Linear in them.
pub fn are_done(rows: &Rows) -> bool
    ensures { IsTrue result ↔ IsComplete rows.now.state }
{
    rows.is_sound();
    let count = rows.program().tasks.len() as u32;
    for i in 0..count {
        if !is_done(progress_of(rows, Task(i))) {
            return false;
        }
    }
    true
}

/// The task that a worker claimed last. Constant time.
fn last_task(tasks: &[Option<Task>], w: Worker) -> Option<Task>
    ensures { result ≡ task_in tasks.now w }
{
    match tasks.get(w.0 as usize) {
        Some(task) => *task,
        None => None,
    }
}

/// Whether a worker has no task. Constant time.
fn is_idle(rows: &Rows, tasks: &[Option<Task>], w: Worker) -> bool
    requires { HasTasks rows.now.program rows.now.state tasks.now }
    ensures { result ≡ is_idle rows.now.state w }
{
    match last_task(tasks, w) {
        Some(t) => !is_task_of(w, progress_of(rows, t)),
        None => true,
    }
}

/// The transfer of a worker, one of the program or not. Constant time.
fn transfer_of(rows: &Rows, w: Worker) -> Option<Transfer>
    ensures { result ≡ transfer rows.now.state w }
{
    rows.is_sound();
    if w.0 >= rows.program().workers {
        return None;
    }
    rows.transfer(w)
}

/// The worker by whose claim a copy comes or leaves. Constant time.
fn claimant(mark: Mark) -> Worker
    ensures { result ≡ claimant_of mark }
{
    match mark {
        Mark::Coming(w) | Mark::Leaving(w) => w,
        Mark::Invalid | Mark::Valid => Worker(0),
    }
}

/// The worker of a move. Constant time.
pub fn mover(rows: &Rows, cell: Cell, from: Place, to: Place) -> Worker
    ensures { result ≡ mover_of rows.now.state cell from to }
{
    match to {
        Place::Node(n) => claimant(rows.mark(cell, n)),
        Place::Disk(_) => match from {
            Place::Node(k) => claimant(rows.mark(cell, k)),
            Place::Disk(_) => Worker(0),
        },
    }
}

/// Where a node fetches a cell from, if it has a copy or its block has a place. Linear in the nodes.
fn source_of(rows: &Rows, homes: &[DiskNo], cell: Cell) -> Option<Place>
    requires cell { cell.0 < length rows.now.program.cells }
    requires homes { AreHomes rows.now.program rows.now.machine homes.now }
    ensures { result ≡ source_of rows.now.program rows.now.machine rows.now.state cell }
{
    match rows.first_node(cell) {
        Some(n) => Some(Place::Node(n)),
        None => match homes.get(cell.0 as usize) {
            Some(d) => Some(Place::Disk(*d)),
            None => None,
        },
    }
}

/// Whether a drop is legal. Linear in the nodes and the workers.
pub fn may_drop(rows: &Rows, cell: Cell, n: Node) -> bool
    ensures { IsTrue result ↔ MayHappen rows.now (Drop cell n) }
{
    rows.is_sound();
    if !rows.mark(cell, n).is_leaving() {
        return false;
    }
    !rows.is_read(cell, n) && rows.is_elsewhere(cell, n)
}

/// Whether the end of a move is legal. Constant time.
pub fn may_end_move(rows: &Rows, cell: Cell, from: Place, to: Place) -> bool
    ensures { IsTrue result ↔ MayHappen rows.now (Moved cell from to) }
{
    let w = mover(rows, cell, from, to);
    transfer_of(rows, w) == Some(Transfer { cell, from, to })
}

/// Whether a worker may bring a cell, which comes by the claim of its task, to its node. Linear in the victims, the nodes and
/// the operands.
fn may_bring(
    rows: &Rows,
    homes: &[DiskNo],
    t: Task,
    w: Worker,
    cell: Cell,
    from: Place,
    n: Node,
) -> bool
    requires homes { AreHomes rows.now.program rows.now.machine homes.now }
    requires claimed { progress rows.now.state t ≡ Progress.Claimed w }
    requires coming { mark rows.now.state cell n ≡ Coming w }
    ensures { IsTrue result ↔ MayHappen rows.now (Move cell from (AtNode n)) }
{
    rows.is_sound();
    if transfer_of(rows, w).is_some() || rows.is_fresh(t, w, cell) {
        return false;
    }
    if !rows.has_room(w) {
        return false;
    }
    match source_of(rows, homes, cell) {
        Some(source) => source == from,
        None => false,
    }
}

/// Whether the beginning of a move into a node is legal. Linear in the victims, the nodes and the operands.
fn may_move_in(
    rows: &Rows,
    homes: &[DiskNo],
    tasks: &[Option<Task>],
    cell: Cell,
    from: Place,
    n: Node,
) -> bool
    requires homes { AreHomes rows.now.program rows.now.machine homes.now }
    requires tasks { HasTasks rows.now.program rows.now.state tasks.now }
    ensures { IsTrue result ↔ MayHappen rows.now (Move cell from (AtNode n)) }
{
    rows.is_sound();
    let Mark::Coming(w) = rows.mark(cell, n) else {
        return false;
    };
    match last_task(tasks, w) {
        Some(t) => may_bring(rows, homes, t, w, cell, from, n),
        None => false,
    }
}

/// Whether the beginning of a move from a node to a disk is legal. Linear in the nodes.
fn may_move_out(rows: &Rows, homes: &[DiskNo], cell: Cell, n: Node, d: DiskNo) -> bool
    requires homes { AreHomes rows.now.program rows.now.machine homes.now }
    ensures { IsTrue result ↔ MayHappen rows.now (Move cell (AtNode n) (OnDisk d)) }
{
    rows.is_sound();
    let Mark::Leaving(w) = rows.mark(cell, n) else {
        return false;
    };
    if transfer_of(rows, w).is_some() || rows.is_elsewhere(cell, n) {
        return false;
    }
    match homes.get(cell.0 as usize) {
        Some(home) => *home == d,
        None => false,
    }
}

/// Whether the beginning of a move is legal: none is from a disk to a disk. Linear in the victims, the nodes and the operands.
pub fn may_move(
    rows: &Rows,
    homes: &[DiskNo],
    tasks: &[Option<Task>],
    cell: Cell,
    from: Place,
    to: Place,
) -> bool
    requires homes { AreHomes rows.now.program rows.now.machine homes.now }
    requires tasks { HasTasks rows.now.program rows.now.state tasks.now }
    ensures { IsTrue result ↔ MayHappen rows.now (Move cell from to) }
{
    match to {
        Place::Node(n) => may_move_in(rows, homes, tasks, cell, from, n),
        Place::Disk(d) => match from {
            Place::Node(n) => may_move_out(rows, homes, cell, n, d),
            Place::Disk(_) => false,
        },
    }
}

/// Whether the beginning of a task's kernel is legal. Quadratic in the operands, which are a task's few, and linear in the
/// victims, and in the workers for each written operand.
pub fn run_is_legal(rows: &Rows, t: Task, w: Worker) -> bool
    ensures { IsTrue result ↔ MayHappen rows.now (Run t w) }
{
    rows.is_sound();
    if progress_of(rows, t) != Progress::Claimed(w) {
        return false;
    }
    rows.has_room(w) && rows.may_run(t, w)
}

/// Whether the end of a task's kernel is legal. Constant time.
pub fn may_end(rows: &Rows, t: Task, w: Worker) -> bool
    ensures { IsTrue result ↔ MayHappen rows.now (End t w) }
{
    progress_of(rows, t) == Progress::Running(w)
}

/// Whether a claim has what it needs beside room on its node. Quadratic in the operands, which are a task's few.
pub fn may_claim(rows: &Rows, tasks: &[Option<Task>], deps: &Deps, t: Task, w: Worker) -> bool
    requires tasks { HasTasks rows.now.program rows.now.state tasks.now }
    requires done { CountsDone rows.now.program rows.now.state deps.now }
    ensures { IsTrue result ↔ MayClaim rows.now.program rows.now.machine rows.now.state t w }
{
    rows.is_sound();
    if w.0 >= rows.program().workers {
        return false;
    }
    if !deps.is_ready(t) {
        return false;
    }
    if !is_waiting(progress_of(rows, t)) {
        return false;
    }
    if !is_idle(rows, tasks, w) {
        return false;
    }
    footprint(rows.program(), t) <= rows.node_size(w)
}
