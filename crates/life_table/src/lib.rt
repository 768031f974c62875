//! How long weather lives, and in which form its time is sent: the table of lives, by the first word of a report and by
//! the product of a radar block, and the TOML document that it is read from.
#![tactic(auto)]

mod document;
mod entries;
mod fault;
pub mod laws;
mod products;
mod rows;
mod table;

pub use fault::{RowFault, TableFault};
pub use products::{CONUS_RADAR, REGIONAL_RADAR, TEXT_PRODUCT};
pub use rows::{RadarRow, TextRow};
pub use table::LifeTable;
