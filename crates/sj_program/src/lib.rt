//! The program `starjob` as a library: the run of a job with a swap disk, what a terminal shows of it, what a person is told, and
//! the exit code.
#![tactic(auto)]

pub mod numbers;
pub mod patient;
mod remark;
pub mod room;
pub mod running;
mod swap;
mod tally;
mod watch;
mod word_at_fault;
