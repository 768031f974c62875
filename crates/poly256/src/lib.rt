//! Polynomials of fixed capacity over the field of the uplink's code.
#![tactic(auto)]

pub mod laws;
mod polynomial;
mod room;

pub use polynomial::Poly;
