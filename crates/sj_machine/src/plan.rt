//! Plans of claims.

ghost use Rattle.std.specs.Prelude.{◌≡◌, ◌<◌, ◌≤◌, ◌+◌, ◌*◌, ◌^◌, All, IfOk, length, map, option_map, reverse, sum};
ghost use Rattle.sj_core.specs.Needs.{scratch_bytes, tile_bytes};
ghost use Rattle.sj_core.specs.Operands.{cells_of};
ghost use Rattle.sj_core.specs.Program.{task_of};
ghost use Rattle.sj_node.specs.Store.{need_victims};
ghost use Rattle.sj_machine.specs.Stores.{AreMarked};
ghost use Rattle.sj_machine.specs.Planning.{HasSmallTask, HasSmallWork, chosen_on, lacking, need_on, planned};

use crate::few_bytes::FewBytes;
use crate::few_cells::FewCells;
use crate::needs::{bytes_of, lacking_cells, scratch_bytes, total};
use crate::operands::worked_cells;
use sj_base::ids::{Cell, Node, Task, Worker};
use sj_base::memory::OutOfMemory;
use sj_base::program::Program;
use sj_core::tasks::accesses_of;
use sj_node::store::NodeStore;
use sj_replica::replica::Replica;
use std::alloc::Global;
use std::marker::Model;

/// Why a claim can't be made now.
#[derive(Clone, Copy, Debug, PartialEq, Eq)]
pub enum Why {
    /// A commuting cell of the task belongs to another claimed or running task.
    Commute(Cell),
    /// A copy of this cell leaves the worker's node.
    Leaving(Cell),
    /// The free bytes of the node and all entries that could be evicted don't cover what the task brings.
    NoRoom,
}

/// What a claim is to do: the cells of its task in operand order, those of them that it brings to the worker's node, with
/// their bytes, the bytes of the task's scratch, and the victims, the most recently used first.
#[derive(Drop)]
pub struct Plan {
    cells: FewCells,
    missing: FewCells,
    bytes: FewBytes,
    scratch: u64,
    victims: Vec<Cell>,
}

impl Model for Plan {
    ghost use Rattle.sj_machine.specs.Plan.{ClaimPlan};

    ghost Value = { ClaimPlan };

    ghost view = { λ c. record { cells = c.cells; missing = c.missing; bytes = c.bytes; scratch = c.scratch; victims = c.victims.items } };
}

/// The cells on which a worker works for a task, in operand order. Linear in the operands.
fn cells_for(program: &Program, t: Task, w: Worker) -> FewCells
    requires { HasSmallWork program.now t w }
    ensures { result ≡ cells_of program.now t w }
{
    worked_cells(program, w, accesses_of(program, t))
}

/// The bytes of a task's scratch. Linear in the operands.
fn scratch_for(program: &Program, t: Task) -> u64
    requires { HasSmallTask program.now t }
    ensures small { result ≤ 5 * 2 ^ 27 }
    ensures bytes { result ≡ scratch_bytes program.now (task_of program.now t) }
{
    scratch_bytes(program, accesses_of(program, t))
}

/// Those of these cells without an entry on a node, as their rows tell, each once. Quadratic in the cells, which are a task's
/// few.
fn lacking_on(rows: &[Replica], node: &NodeStore, n: Node, cells: &[Cell]) -> FewCells
    requires wide { All (λ row. n.0 < length row.marks) rows.now }
    requires marked { AreMarked rows.now n node.now.entries }
    requires few { length cells.now ≤ 5 }
    ensures { result ≡ lacking node.now cells.now }
{
    let _ = node;
    lacking_cells(rows, n, cells)
}

/// The victims of a need, the most recently used first, those held spared; none where there is no room. Linear in the
/// victims and in the entries that are passed, each by the cells held.
fn recent_victims(
    alloc: Global,
    node: &NodeStore,
    held: &[Cell],
    need: u64,
) -> Result<Option<Vec<Cell>>, OutOfMemory>
    ensures { IfOk result (λ found. option_map (λ v. v.items) found
        ≡ option_map reverse (need_victims held.now node.now need)) }
{
    let Some(mut victims) = node.victims(alloc, held, need)? else {
        return Ok(None);
    };
    victims.reverse();
    Ok(Some(victims))
}

/// What a task needs on a node: its cells in operand order, those of them without an entry there with their bytes, and its
/// scratch.
#[derive(Drop)]
struct Need {
    cells: FewCells,
    missing: FewCells,
    bytes: FewBytes,
    scratch: u64,
}

/// What a worker's task needs on its node. What is missing there is told by the cells' rows. Quadratic in the operands.
fn need_of(
    program: &Program,
    rows: &[Replica],
    node: &NodeStore,
    n: Node,
    t: Task,
    w: Worker,
) -> Need
    requires work { HasSmallWork program.now t w }
    requires wide { All (λ row. n.0 < length row.marks) rows.now }
    requires marked { AreMarked rows.now n node.now.entries }
    ensures cells { result.cells ≡ cells_of program.now t w }
    ensures missing { result.missing ≡ lacking node.now (cells_of program.now t w) }
    ensures bytes { result.bytes
        ≡ map (tile_bytes program.now) (lacking node.now (cells_of program.now t w)) }
    ensures scratch { result.scratch ≡ scratch_bytes program.now (task_of program.now t) }
    ensures small { sum result.bytes + result.scratch < 2 ^ 63 }
{
    let cells = cells_for(program, t, w);
    let missing = lacking_on(rows, node, n, cells.items());
    let bytes = bytes_of(program, missing.items());
    let scratch = scratch_for(program, t);
    Need {
        cells,
        missing,
        bytes,
        scratch,
    }
}

/// The bytes that a worker's task brings to its node: of those of its cells that have no entry there, each once, and of its
/// scratch. What is missing there is told by the cells' rows. Quadratic in the operands; no memory.
pub fn bytes_to_come(
    program: &Program,
    rows: &[Replica],
    node: &NodeStore,
    n: Node,
    t: Task,
    w: Worker,
) -> u64
    requires work { HasSmallWork program.now t w }
    requires wide { All (λ row. n.0 < length row.marks) rows.now }
    requires marked { AreMarked rows.now n node.now.entries }
    ensures { result ≡ need_on program.now node.now t w }
{
    let need = need_of(program, rows, node, n, t, w);
    total(need.bytes.items()) + need.scratch
}

impl Plan {
    /// The cells of the task, in operand order. Constant time.
    pub fn cells(&self) -> &[Cell]
        ensures { result.now ≡ self.now.cells }
    {
        self.cells.items()
    }

    /// Those that it brings. Constant time.
    pub fn missing(&self) -> &[Cell]
        ensures { result.now ≡ self.now.missing }
    {
        self.missing.items()
    }

    /// The bytes of each that it brings. Constant time.
    pub fn bytes(&self) -> &[u64]
        ensures { result.now ≡ self.now.bytes }
    {
        self.bytes.items()
    }

    /// The bytes of the task's scratch. Constant time.
    pub fn scratch(&self) -> u64
        ensures { result ≡ self.now.scratch }
    {
        self.scratch
    }

    /// The victims, the most recently used first. Constant time.
    pub fn victims(&self) -> &[Cell]
        ensures { result.now ≡ self.now.victims }
    {
        &self.victims
    }

    /// The cells of the task, and the victims. Constant time.
    pub fn into_lists(self) -> (FewCells, Vec<Cell>)
        ensures cells { result.0 ≡ self.cells }
        ensures victims { result.1.items ≡ self.victims }
    {
        (self.cells, self.victims)
    }

    /// The plan of a worker's task on its node, where there is room for it. What is missing there is told by the cells' rows.
    /// Linear in the operands, the victims and the entries that are passed, each by the operands.
    pub fn on(
        alloc: Global,
        program: &Program,
        rows: &[Replica],
        node: &NodeStore,
        n: Node,
        t: Task,
        w: Worker,
    ) -> Result<Option<Plan>, OutOfMemory>
        requires work { HasSmallWork program.now t w }
        requires wide { All (λ row. n.0 < length row.marks) rows.now }
        requires marked { AreMarked rows.now n node.now.entries }
        ensures { IfOk result (λ plan. plan ≡ option_map (planned program.now node.now t w)
            (chosen_on program.now node.now t w)) }
    {
        let need = need_of(program, rows, node, n, t, w);
        let bytes = total(need.bytes.items()) + need.scratch;
        let Some(victims) = recent_victims(alloc, node, need.cells.items(), bytes)? else {
            return Ok(None);
        };
        Ok(Some(Plan {
            cells: need.cells,
            missing: need.missing,
            bytes: need.bytes,
            scratch: need.scratch,
            victims,
        }))
    }
}
