//! Transfers that other workers go on beside: runs by real threads whose disks and gates wait for one another, so that a transfer
//! inside of a turn would keep out what it waits for. Tests alone: they stand on the engine.
#![tactic(auto)]

#[cfg(test)]
mod held_disk;
#[cfg(test)]
mod runs;
#[cfg(test)]
mod tests;
