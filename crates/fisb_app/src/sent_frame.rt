//! Frames that were sent.

use fisb_time::Moment;
use uplink_weave::FRAME_BYTES;

/// A frame that was sent: its moment, and its bytes on the air.
#[derive(Clone, Copy)]
pub(crate) struct SentFrame {
    pub(crate) moment: Moment,
    pub(crate) air: [u8; FRAME_BYTES],
}
