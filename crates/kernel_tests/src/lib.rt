//! The kernels and their sets by worked answers and by plain loops. Tests alone: they stand on the kernels, whose own check
//! needn't wait for them.
#![tactic(auto)]

#[cfg(test)]
mod numbers;
#[cfg(test)]
mod tests_of_library;
#[cfg(test)]
mod tests_of_min_plus;
#[cfg(test)]
mod tests_of_ring;
