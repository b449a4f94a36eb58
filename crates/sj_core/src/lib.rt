//! The machine that runs a program: its states, its events, what each event needs and leaves, and when a
//! state is coherent (StarPU Handbook, data management: the states of replicas).
#![tactic(auto)]

pub mod laws;
pub mod progress;
pub mod tasks;
