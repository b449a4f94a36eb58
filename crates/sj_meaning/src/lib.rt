//! A job: its settings, its roots and its statements, and what they mean on plain arrays.
#![tactic(auto)]

pub mod job;
pub mod roots;
pub mod settings;
