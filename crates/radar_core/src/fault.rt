//! Why a payload is not read as radar.

use thiserror::Error;

/// Why a payload is not read as radar. Where several reasons stand together, the first in this order is given.
#[derive(Clone, Copy, Debug, PartialEq, Eq, Error)]
pub enum RadarFault {
    /// The payload has fewer than 4 bytes.
    #[error("the payload is shorter than a record")]
    Short,
    /// The scale is 3.
    #[error("there is no scale of this number")]
    BadScale,
    /// The lengths of the runs do not sum to 128.
    #[error("the runs are not 128 cells")]
    RunsNot128,
    /// The base of an empty record is 405,000 or more.
    #[error("the base of the empty record is 405,000 or more")]
    HighEmpty,
    /// The bitmap of an empty record is cut off.
    #[error("the bitmap of the empty record is cut off")]
    BadBitmap,
}
