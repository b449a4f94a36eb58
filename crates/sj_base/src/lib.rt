//! The words that every layer of the runtime shares: ids, tiles, access modes, the lowered program,
//! the events of a run, and small list types whose contracts see plain lists.
#![tactic(auto)]

pub mod few;
pub mod ids;
pub mod keyed;
pub mod memory;
pub mod mode;
pub mod places;
pub mod program;
pub mod roomy;
pub mod sequence;
pub mod tile;
pub mod trace;
