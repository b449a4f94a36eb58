//! The text of a lowered program, and the words that it is made of.
#![tactic(auto)]

pub mod program;
pub mod words;
