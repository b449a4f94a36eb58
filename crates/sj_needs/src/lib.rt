//! What a program needs before it runs: bytes on a memory node for each task, blocks on disks for its cells; and whether a
//! machine has them (StarPU Handbook, "Out Of Core").
#![tactic(auto)]

pub mod footprint;
pub mod room;
pub mod shortage;
pub mod swap;
