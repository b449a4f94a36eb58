//! The row of one cell: what it is at each memory node, whether its block on a disk is a copy, and how often it was written
//! (CCPE 2011, "Data management").
#![tactic(auto)]

pub mod mark;
pub mod replica;
