//! Whole jobs by the top call, with devices and disks in memory and refused calls: what is printed and answered, and what is seen
//! of a run from outside. Tests alone: the top call's crate would be proved twice if it had tests of its own.
#![tactic(auto)]

#[cfg(test)]
mod test_calls;
#[cfg(test)]
mod tests;
#[cfg(test)]
mod tests_of_contributions;
#[cfg(test)]
mod tests_of_devices;
#[cfg(test)]
mod tests_of_judging;
#[cfg(test)]
mod tests_of_machines;
#[cfg(test)]
mod tests_of_pieces;
#[cfg(test)]
mod tests_of_plans;
#[cfg(test)]
mod tests_of_scaling;
#[cfg(test)]
mod tests_of_showing;
#[cfg(test)]
mod tests_of_summaries;
#[cfg(test)]
mod tests_of_texts;
#[cfg(test)]
mod tests_of_threads;
#[cfg(test)]
mod tests_of_trouble;
