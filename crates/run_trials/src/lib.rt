//! Trials of the run with a small command: inputs that are cut, long, late or faulty.
#![tactic(auto)]

mod complete;
mod echo;

pub use complete::run_in_memory;
pub use echo::{Echo, Echoed};

#[cfg(test)]
mod tests;
