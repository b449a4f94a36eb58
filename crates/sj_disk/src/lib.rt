//! Blocks of cells on disks: where each evicted tile is kept, and how it is written and read back.
#![tactic(auto)]

pub mod directory;
pub mod disk_set;
mod elements;
pub mod header;
pub mod lending_set;
mod rack;
pub mod refusal;
mod transfer;
pub mod unit;
