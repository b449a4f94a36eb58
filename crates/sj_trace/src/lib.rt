//! The text of a trace, and reading it.
#![tactic(auto)]

mod line;
pub mod read;
pub mod text;
mod word;
