//! What a receiver answers when it hears a frame.

use crate::unread::UnreadList;
use fisb_time::Moment;
use thiserror::Error;
use uplink_frame::UplinkHeader;

/// A frame that was heard.
#[derive(Debug, Drop)]
pub struct Heard {
    /// The header of its payload.
    pub header: UplinkHeader,
    /// How many bytes of each of its six blocks were corrected.
    pub corrected: [u8; 6],
    /// What of it is passed on unread.
    pub unread: UnreadList,
}

/// Why a frame is not heard.
#[derive(Clone, Copy, Debug, PartialEq, Eq, Error)]
pub enum HearFault {
    /// The moment is below that of the last frame that was heard.
    #[error("the moment is before the last reception")]
    Clock {
        /// That moment.
        kept: Moment,
    },
    /// A block of the frame has no code word near it.
    #[error("block {block} of the frame is lost")]
    Lost {
        /// The least such block, 0 to 5.
        block: u8,
    },
    /// The header says that the application data are not valid.
    #[error("the frame has no valid application data")]
    NoApplication,
    /// Memory ran out.
    #[error("out of memory")]
    NoMemory,
}

/// Why no picture is shown.
#[derive(Clone, Copy, Debug, PartialEq, Eq, Error)]
pub enum ShowFault {
    /// The moment is below that of the last frame that was heard.
    #[error("the moment is before the last reception")]
    Clock {
        /// That moment.
        kept: Moment,
    },
    /// Memory ran out.
    #[error("out of memory")]
    NoMemory,
}
