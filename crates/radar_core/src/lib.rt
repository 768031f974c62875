//! Radar blocks of FIS-B, products 63 and 64 (RTCA DO-358): run records and empty records.
#![tactic(auto)]

mod bitmap;
mod blanks;
mod cells;
mod fault;
mod groups;
mod key;
pub mod laws;
mod part;
mod reading;
mod run;
mod runs;

pub use blanks::write_blank;
pub use cells::Cells;
pub use fault::RadarFault;
pub use groups::{Groups, group_blanks};
pub use key::{BlockKey, FIRST_HIGH, order_of_block_keys};
pub use part::RadarPart;
pub use reading::read_radar;
pub use runs::write_runs;
