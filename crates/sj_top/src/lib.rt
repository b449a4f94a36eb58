//! The call that the program `starjob` makes, for a program of one's own as well: words, source, sinks, disks and gate in, the
//! outcome out.
#![tactic(auto)]

mod gathering;
mod output;
pub mod report;
pub mod running;
pub mod sink_text;
mod source_text;
pub mod status;
pub mod stop;
pub mod top;
