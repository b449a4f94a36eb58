//! Codelets: the table of kernels with their equations, the frame of operands that a kernel works on,
//! and the trait of a set of codelets (StarPU Handbook, "Codelet and Tasks").
#![tactic(auto)]

pub mod formal;
pub mod frame;
pub mod kernel;
pub mod set;
pub mod shape;
pub mod window;
