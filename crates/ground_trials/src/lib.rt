//! Trials of the ground: whole rows of updates that are given and frames that are filled.
#![tactic(auto)]

#[cfg(test)]
mod radar;
#[cfg(test)]
mod steps;
#[cfg(test)]
mod texts;
