//! The kernels of ring arithmetic over slices, and the set of codelets that runs them.
#![tactic(auto)]

pub mod elementwise;
pub mod placement;
pub mod product;
pub mod reduction;
pub mod ring;
mod runs;
mod scalar;
