//! The ground station that a header names.

/// The ground station that sends a message: where it is, and its TIS-B site.
#[derive(Clone, Copy, Debug, PartialEq, Eq, PartialOrd, Ord)]
pub struct StationId {
    /// The latitude, a raw count of 360 / 2^24 degrees, below 2^23.
    pub lat: u32,
    /// The longitude, a raw count of 360 / 2^24 degrees, below 2^24.
    pub lon: u32,
    /// Whether latitude and longitude are valid.
    pub position_valid: bool,
    /// The TIS-B site, 0 to 15.
    pub site: u8,
}
