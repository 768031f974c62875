//! Trials of what is kept: maps that are taken back, and files of segments.
#![tactic(auto)]

#[cfg(test)]
mod maps;
#[cfg(test)]
mod segments;
