//! Messages to displays (Garmin GDL 90 Data Interface Specification, 560-1058-00): framing, the
//! frame check sequence and the message of an uplink payload.
#![tactic(auto)]

mod check_sequence;
mod deframer;
mod framing;
pub mod laws;
mod piece_bytes;
mod pieces;
mod remainders;
mod uplink;

pub use check_sequence::fcs;
pub use deframer::Deframer;
pub use framing::frame_message;
pub use pieces::{Damage, Framed};
pub use uplink::uplink_message;
