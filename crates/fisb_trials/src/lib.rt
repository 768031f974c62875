//! Trials of the commands: runs over ends that fail or give few bytes, and each command's own call.
#![tactic(auto)]

#[cfg(test)]
mod cuts;
#[cfg(test)]
mod make;
#[cfg(test)]
mod tests;
