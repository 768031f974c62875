//! The field of 256 elements, by tables of powers and logarithms.
#![tactic(auto)]

mod element;
pub mod laws;
mod tables;

pub use element::{Gf, Uat};
pub use tables::{FieldTables, UatTables};
