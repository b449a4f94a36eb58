//! A trace judged: whether it is that of a run of a job, to its end; and a job shown, as its canonical text or its program.
#![tactic(auto)]

pub mod judging;
pub mod lines;
pub mod refusal;
pub mod showing;
