//! The job language: what a job text says.
#![tactic(auto)]

pub mod crowd;
pub mod form;
pub mod grammar;
pub mod judge;
pub mod line;
pub mod names;
pub mod number;
pub mod read;
pub mod reason;
pub mod settings;
pub mod spell;
pub mod submit;
pub mod track;
pub mod word;
