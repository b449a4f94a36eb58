//! The rows of a run: how far each task is, what each cell is where, what each node and each worker holds. Each call that is an
//! event is one legal step of the machine. Rows know no tile, no disk and no trace: these are their user's.
#![tactic(auto)]

mod choosing;
mod claiming;
mod ending;
pub mod few_bytes;
pub mod few_cells;
mod gone;
pub mod hold;
mod leaving;
mod needs;
pub mod operands;
pub mod plan;
pub mod rows;
mod running;
