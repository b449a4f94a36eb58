//! Texts of jobs, and what they give: a job, or the first bad line and the first reason against it. Tests alone: they stand on
//! the reader, whose own check needn't wait for them.
#![tactic(auto)]

#[cfg(test)]
mod tests;
#[cfg(test)]
mod tests_of_lines;
#[cfg(test)]
mod tests_of_plans;
#[cfg(test)]
mod tests_of_reductions;
#[cfg(test)]
mod tests_of_settings;
