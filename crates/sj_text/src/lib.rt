//! The canonical text of a job.
#![tactic(auto)]

mod act;
pub mod again;
mod array;
mod plans;
mod settings;
mod task;
pub mod text;
