//! The pool of ready tasks: which of them a worker takes next, under each scheduling policy
//! (StarPU Handbook, "Scheduling Policies": `eager`, `prio` and `ws`).
#![tactic(auto)]

mod chunk;
pub mod entry;
pub mod pool;
mod queue;
mod tail;
mod tree;
