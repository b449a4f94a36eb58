//! Partition plans: how an array is cut into a grid of children, and how one plan's children are
//! copied into another's. What is one-dimensional stands in `interval`; a rectangle is an interval
//! of rows by an interval of columns.
#![tactic(auto)]

pub mod children;
pub mod count;
pub mod interval;
pub mod parts;
pub mod paste;
pub mod rect;
pub mod tiles;
