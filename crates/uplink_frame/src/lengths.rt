//! How many bytes a payload and its parts have.

/// The bytes of a payload.
pub const PAYLOAD_LENGTH: usize = 432;

/// The bytes of a payload that its information frames may take.
pub const FRAME_ROOM: usize = 424;

/// Where the information frames of a payload begin.
pub(crate) const HEADER_LENGTH: usize = 8;
