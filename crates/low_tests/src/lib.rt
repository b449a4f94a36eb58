//! Tests of the lower crates, each of which would be proved twice if it had tests of its own: worked values, and that each call
//! that may want memory is seen to succeed. Tests alone.
#![tactic(auto)]

#[cfg(test)]
mod apps;
#[cfg(test)]
mod base;
#[cfg(test)]
mod codelet;
#[cfg(test)]
mod deps;
#[cfg(test)]
mod desk;
#[cfg(test)]
mod disk;
#[cfg(test)]
mod edge;
#[cfg(test)]
mod needs;
#[cfg(test)]
mod node;
#[cfg(test)]
mod plan;
#[cfg(test)]
mod pool;
#[cfg(test)]
mod replica;
#[cfg(test)]
mod show;
#[cfg(test)]
mod steal;
#[cfg(test)]
mod summaries;
#[cfg(test)]
mod trace;
#[cfg(test)]
mod usages;
#[cfg(test)]
mod words;
#[cfg(test)]
mod words_of_apps;
