//! The payload of a ground uplink message (RTCA DO-282B): a header of 8 bytes, and 424 bytes of
//! information frames.
#![tactic(auto)]

mod app_data;
mod header;
pub mod laws;
mod lengths;
mod station;
mod walk;

pub use app_data::{AppData, NoRoom};
pub use header::{UplinkHeader, read_header, write_header};
pub use lengths::{FRAME_ROOM, PAYLOAD_LENGTH};
pub use station::StationId;
pub use walk::{FrameWalk, InfoFrame, frames};
