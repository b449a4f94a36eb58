//! What a worker has at hand for the whole run.

use crate::noted_board::NotedBoard;
use sj_base::ids::Worker;
use sj_base::program::Program;
use sj_desk::{Desk, DeskSeat};
use sj_edge::disk::Disk;
use std::alloc::Global;

/// The desk of a run, and a worker's seat at it.
pub type BoardDesk<D> = Desk<NotedBoard<D>>;

pub type BoardSeat<D> = DeskSeat<NotedBoard<D>>;

/// What a worker has at hand for the whole run, beside its seat. Nothing of it changes.
#[derive(Drop)]
pub struct Workplace<'a, R, D: Disk> {
    pub rt: &'a R,
    pub alloc: Global,
    pub desk: &'a BoardDesk<D>,
    pub program: &'a Program,
    pub worker: Worker,
    /// The bell that the worker's thread sleeps on.
    pub bell: u8,
}
