//! Why a body is not read as an APDU.

use thiserror::Error;

/// Why a body is not read as an APDU.
#[derive(Clone, Copy, Debug, PartialEq, Eq, Error)]
pub enum ApduFault {
    /// The body has fewer bytes than the header needs.
    #[error("the body is shorter than its header")]
    Short,
    /// One of the three flags at the front is set.
    #[error("a flag of the header is set")]
    Flagged,
    /// The count of segments is 0, or the number of the segment is 0 or above the count.
    #[error("the segment's number is not from 1 to the count")]
    BadSegment,
}
