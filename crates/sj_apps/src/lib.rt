//! Applications: jobs that are generated, what their answers mean, and the summary of an array.
#![tactic(auto)]

pub mod application;
pub mod draft;
pub mod laws;
pub mod paths;
pub mod product;
pub mod summary;
