//! Ready tasks in queues that workers share outside the turn of the desk (StarPU Handbook, "Scheduling Policies": `eager`, `ws`).
#![tactic(auto)]

mod account;
mod lane;
mod lanes;
pub mod shared;
