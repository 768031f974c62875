//! Trials of life tables, of the keys of reports, and of pictures.
#![tactic(auto)]

#[cfg(test)]
mod keys;
#[cfg(test)]
mod pictures;
#[cfg(test)]
mod tables;
