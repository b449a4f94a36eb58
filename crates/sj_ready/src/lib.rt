//! A job made ready: a text and options to the program that is to be run and its machine, or the reason why there is none.
#![tactic(auto)]

pub mod input;
pub mod laws;
pub mod ready;
pub mod unready;
