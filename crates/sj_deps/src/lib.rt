//! Dependencies of lowered tasks: which are ready, and which become ready as others are done
//! (StarPU Handbook: implicit data dependencies from the order of submission).
#![tactic(auto)]

mod chain;
mod counters;
mod crew;
pub mod deps;
mod entry;
pub mod manner;
mod settle;
