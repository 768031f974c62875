//! The ground of weather: it takes updates, and fills frames with what is to be sent.
#![tactic(auto)]

mod air_frame;
mod area;
mod fault;
mod files;
mod ground;
mod item;
mod item_keys;
mod judging;
pub mod laws;
mod line;
mod newest;
mod newest_blocks;
mod numbered_key;
mod place;
mod radar_items;
mod validity;

pub use air_frame::AirFrame;
pub use fault::{FillFault, GiveFault};
pub use ground::Ground;

/// The station of a ground.
pub type Station = uplink_frame::StationId;
