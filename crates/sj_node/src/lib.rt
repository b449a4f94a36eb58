//! What one memory node holds: the cells that are valid or coming there in order of recency, their
//! bytes and pins, and scratch. A node that is full evicts its least recently used unpinned cells
//! (StarPU Handbook, "Out Of Core").
#![tactic(auto)]

mod entries;
pub mod store;
