//! The row of one cell, as the events of a run change it.

ghost use Rattle.std.specs.Prelude.{◌≡◌, ◌+◌, ◌^◌, ◌<◌, ◌≤◌, IfOk, IfSome, length, map, position, replicate, slice_index_or, slice_set};
ghost use Rattle.std.specs.List.{list_any, range_with_len};
ghost use Rattle.sj_replica.specs.Mark.{is_valid};
ghost use Rattle.sj_replica.specs.Replica.{first_node, is_copy_beside, is_elsewhere_in, mark_in, no_copy, owned_at, stored, with_mark, written_once_more};

use crate::mark::Mark;
use sj_base::ids::Node;
use sj_base::memory::OutOfMemory;
use smallvec::SmallVec;
use std::alloc::Global;
use std::marker::Model;
use std::mem::size_of;

/// What a cell is at each node, whether its block on a disk is a copy, and how many tasks have written it. Marks of up to eight
/// nodes lie in the value itself; of more they are one block.
#[derive(Drop)]
pub struct Replica {
    marks: SmallVec<Mark, 8>,
    on_disk: bool,
    writes: u64,
}

impl Model for Replica {
    ghost use Rattle.sj_replica.specs.Replica.{CellState};

    ghost Value = { CellState };

    ghost view = { λ r. record { marks = r.marks.items; on_disk = r.on_disk; writes = r.writes } };
}

// Rows are as many as cells.
const _: () = prove!(size_of::<Replica>() <= 48);

/// No copy at any of so many nodes. Linear in them.
fn no_marks(alloc: Global, nodes: usize) -> Result<SmallVec<Mark, 8>, OutOfMemory>
    ensures { IfOk result (λ v. v.items ≡ replicate nodes Mark.Invalid) }
{
    let mut marks = SmallVec::with_capacity(alloc, nodes)?;
    for _i in 0..nodes {
        marks.push(Mark::Invalid)?;
    }
    Ok(marks)
}

/// Whether a copy is at another node than this. Linear in the nodes.
fn is_at_another(marks: &[Mark], here: usize) -> bool
    ensures { result ≡ list_any (is_copy_beside marks.now here)
        (range_with_len 0 (length marks.now)) }
{
    (0..marks.len()).any(|k| k != here && marks[k].is_there())
}

/// The first node with a copy. Linear in the nodes.
fn first_copy(marks: &[Mark]) -> Option<usize>
    ensures place { result ≡ position is_valid marks.now }
    ensures inside { IfSome result (λ k. k < length marks.now) }
{
    marks.iter().position(|mark| mark.is_there())
}

/// No copy at any node. Linear in the nodes.
fn clear_all(marks: &mut [Mark])
    ensures { marks.new ≡ map (λ x. Mark.Invalid) marks.old }
{
    for i in 0..marks.len() {
        marks[i] = Mark::Invalid;
    }
}

/// The one copy is at this node. Linear in the nodes.
fn own_in(marks: &mut [Mark], here: usize)
    requires { here < length marks.old }
    ensures { marks.new ≡ slice_set (map (λ x. Mark.Invalid) marks.old) here Mark.Valid }
{
    clear_all(marks);
    marks[here] = Mark::Valid;
}

impl Replica {
    /// No copy of a cell, of so many nodes. Takes no memory for up to eight. Linear in them.
    pub fn none(alloc: Global, nodes: usize) -> Result<Replica, OutOfMemory>
        ensures { IfOk result (λ r. r ≡ no_copy nodes) }
    {
        let marks = no_marks(alloc, nodes)?;
        Ok(Replica {
            marks,
            on_disk: false,
            writes: 0,
        })
    }

    /// What the cell is at a node. Constant time.
    pub fn mark(&self, n: Node) -> Mark
        requires { n.0 < length self.now.marks }
        ensures { result ≡ mark_in self.now n }
    {
        self.marks[n.0 as usize]
    }

    /// Whether its block on a disk is a copy. Constant time.
    pub fn is_on_disk(&self) -> bool
        ensures { result ≡ self.now.on_disk }
    {
        self.on_disk
    }

    /// Whether a copy is on a disk, or at another node. Linear in the nodes.
    pub fn is_elsewhere(&self, n: Node) -> bool
        ensures { result ≡ is_elsewhere_in self.now n }
    {
        self.on_disk || is_at_another(&self.marks, n.0 as usize)
    }

    /// The node with the least number at which a copy is. Linear in the nodes.
    pub fn first_node(&self) -> Option<Node>
        requires { length self.now.marks ≤ 16 }
        ensures { result ≡ first_node self.now }
    {
        match first_copy(&self.marks) {
            Some(k) => Some(Node(k as u8)),
            None => None,
        }
    }

    /// How many tasks have written the cell. Constant time.
    pub fn writes(&self) -> u64
        ensures { result ≡ self.now.writes }
    {
        self.writes
    }

    /// Puts a mark at a node. Constant time.
    pub fn set_mark(&mut self, n: Node, mark: Mark)
        requires { n.0 < length self.old.marks }
        ensures { self.new ≡ with_mark self.old n mark }
    {
        self.marks[n.0 as usize] = mark;
    }

    /// Its block on a disk is a copy from now on. Constant time.
    pub fn store(&mut self)
        ensures { self.new ≡ stored self.old }
    {
        self.on_disk = true;
    }

    /// The one copy is a node's own from now on. Linear in the nodes.
    pub fn own(&mut self, n: Node)
        requires { n.0 < length self.old.marks }
        ensures { self.new ≡ owned_at n self.old }
    {
        own_in(&mut self.marks, n.0 as usize);
        self.on_disk = false;
    }

    /// The cell is written once more. Constant time.
    pub fn count_write(&mut self)
        requires { self.old.writes + 1 < 2 ^ 64 }
        ensures { self.new ≡ written_once_more self.old }
    {
        self.writes += 1;
    }
}
