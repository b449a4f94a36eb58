//! A run with its tiles, its disks and its trace, and the board over it: which ready tasks there are, what each worker has in
//! hand, the first fault, and what was delivered.
#![tactic(auto)]

pub mod board;
pub mod claimable;
pub mod delivered;
pub mod delivery;
pub mod fault;
mod filling;
mod first_pool;
pub mod gifts;
mod gone;
pub mod hand;
mod passing;
pub mod placing;
mod preparing;
pub mod refusal;
mod releasing;
mod room;
pub mod run_state;
mod shares;
pub mod spent;
pub mod tiles;
pub mod todo;
