//! Min-plus kernels over slices: shortest ways and the reduction `least`, with a sum in which `inf` absorbs.
#![tactic(auto)]

pub mod lanes;
pub mod least;
pub mod library;
pub mod product;
mod row;
mod runs;
mod short;
pub mod sum;
pub mod ways;
