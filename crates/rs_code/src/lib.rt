//! Reed-Solomon code words over the field of the uplink's code.
#![tactic(auto)]

mod generator;
pub mod laws;
mod locator;
mod marks;
mod mend;
mod place_powers;
mod product;
mod remainder;
mod root_powers;
mod rows;
mod rs;
mod uplink_rows;
mod values;
mod wrong_places;

pub use rs::{Rs, Uncorrectable, UplinkCode};
