//! A receiver of weather: it stands for the frames that it heard, and shows the picture of them.
#![tactic(auto)]

mod arrival;
mod heard;
mod hearing;
mod laws;
mod radar;
mod receiver;
mod reports;
mod unread;
mod whole;

pub use heard::{HearFault, Heard, ShowFault};
pub use receiver::Receiver;
pub use unread::{Unread, UnreadList, UnreadReason};
