//! The run of a program by workers: each a thread that takes turns at a desk, over one board.
#![tactic(auto)]

mod closing;
mod dealing;
mod ending;
pub mod engine;
mod kernel;
pub mod member;
mod moving;
pub mod noted_board;
mod opening;
mod operands;
mod picking;
mod posts;
pub mod queued;
pub mod ready;
mod results;
pub mod shared_board;
pub mod site;
pub mod sleepers;
mod stepping;
mod threads;
pub mod tray;
pub mod turns;
pub mod work;
pub mod worker_seat;
pub mod workplace;
