//! Claims that a board refuses, and why: boards of small jobs, on which workers claim and carry out tasks step by step. The
//! answers are worked out by hand. Tests alone: they stand on lowering and on the board.
#![tactic(auto)]

#[cfg(test)]
mod opening;
#[cfg(test)]
mod scenes;
#[cfg(test)]
mod spent;
#[cfg(test)]
mod steps;
#[cfg(test)]
mod tests;
