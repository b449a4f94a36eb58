//! Numbers that name things: a newtype for each, so that none is taken for another.

/// A root handle: a registered vector or matrix, numbered from 0 in the order of registration.
#[derive(Clone, Copy, Debug, PartialEq, Eq)]
pub struct Root(pub u32);

/// A cell: one child of one partition plan of a root, or a partial copy of a reduction.
#[derive(Clone, Copy, Debug, PartialEq, Eq)]
pub struct Cell(pub u32);

/// A lowered task, numbered from 0 in submission order.
#[derive(Clone, Copy, Debug, PartialEq, Eq)]
pub struct Task(pub u32);

/// A line of a text, numbered from 1; 0 stands for the text as a whole.
#[derive(Clone, Copy, Debug, PartialEq, Eq)]
pub struct Line(pub u32);

/// A memory node.
#[derive(Clone, Copy, Debug, PartialEq, Eq)]
pub struct Node(pub u8);

/// A worker, bound to one memory node.
#[derive(Clone, Copy, Debug, PartialEq, Eq)]
pub struct Worker(pub u8);

/// A disk node, by its place in the list of disks.
#[derive(Clone, Copy, Debug, PartialEq, Eq)]
pub struct DiskNo(pub u8);

/// Where a replica may lie.
#[derive(Clone, Copy, Debug, PartialEq, Eq)]
pub enum Place {
    Node(Node),
    Disk(DiskNo),
}
