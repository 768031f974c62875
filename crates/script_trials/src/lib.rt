//! Trials of `script_core`: lines as they are read and printed.
#![tactic(auto)]

#[cfg(test)]
mod lines;
#[cfg(test)]
mod printing;
