//! The outside: traits of what the runtime reads from, writes to, keeps evicted data on and calls
//! around kernels; their implementations in memory, and adapters over std's readers and writers.
#![tactic(auto)]

mod calls;
pub mod disk;
pub mod file_disk;
pub mod gate;
mod medium;
pub mod memory_disk;
pub mod memory_sink;
pub mod memory_source;
mod pieces;
pub mod sink;
pub mod source;
pub mod standard;
pub mod sure;
