//! Checking a trace: whether its events are legal, one after another, and run a program to its end.
#![tactic(auto)]

pub mod check;
mod checker;
mod homes;
mod judging;
