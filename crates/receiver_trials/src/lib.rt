//! Trials of the receiver: whole rows of payloads that are heard and pictures that are shown.
#![tactic(auto)]

#[cfg(test)]
mod many_reports;
#[cfg(test)]
mod passed_on;
#[cfg(test)]
mod random;
#[cfg(test)]
mod tests;
