//! Tests over the field, the polynomials, the code words and the woven frames together. Their expected values were worked
//! out from the definition of a code word, by solving its power sums for the parity, and by no part of this repository.
#![tactic(auto)]

#[cfg(test)]
mod code_words;
#[cfg(test)]
mod codes;
#[cfg(test)]
mod frames;
#[cfg(test)]
mod polynomials;
#[cfg(test)]
mod woven;
