//! The lowered program: cells, tasks over cells, and deliveries; and the machine that runs it.

use crate::few::Few;
use crate::ids::{Cell, Line, Root, Task};
use crate::mode::{Access, Policy};
use crate::sequence::Sequence;
use crate::tile::Dims;

/// A codelet of a set, by its place in the table of codelets.
#[derive(Clone, Copy, Debug, PartialEq, Eq)]
pub struct Codelet(pub u16);

/// A task over cells.
#[derive(Debug, Drop)]
pub struct Lowered {
    pub codelet: Codelet,
    pub args: Few<i64>,
    pub accesses: Few<Access>,
    /// The line of the statement that it comes from.
    pub line: Line,
    /// Higher is more urgent.
    pub priority: i32,
}

/// What a cell is a child of, and its dimensions.
#[derive(Clone, Copy, Debug, PartialEq, Eq)]
pub struct CellInfo {
    pub root: Root,
    pub dims: Dims,
    /// The first of its partial copies, one for each worker, where it has any.
    pub partials: Option<Cell>,
}

/// Where the array that a deliver task hands over belongs.
#[derive(Clone, Copy, Debug, PartialEq, Eq)]
pub struct Delivery {
    pub task: Task,
    pub root: Root,
    /// The child's first row and column in the root.
    pub place: (u32, u32),
    /// Which print statement asked for it, counted from 0.
    pub print: u32,
}

/// What a job is lowered to.
#[derive(Debug, Drop)]
pub struct Program {
    pub cells: Sequence<CellInfo>,
    pub tasks: Sequence<Lowered>,
    pub deliveries: Sequence<Delivery>,
    pub workers: u8,
}

/// The machine that runs a program: worker w is bound to node `w % nodes`.
#[derive(Debug, Drop)]
pub struct Machine {
    pub workers: u8,
    /// The bytes of each memory node.
    pub nodes: Sequence<u64>,
    /// The bytes of each disk node.
    pub disks: Sequence<u64>,
    pub policy: Policy,
}
