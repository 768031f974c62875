//! What arrives, and what is answered.

use apdu_core::Seg;
use fisb_time::Moment;
use fisb_wire::Bytes;
use uplink_frame::StationId;

/// An APDU that arrived, with the moment that its time names.
#[derive(Clone, Copy, Debug, PartialEq, Eq)]
pub struct Arrived<'a> {
    /// The station from which it came.
    pub station: StationId,
    /// The product: 63, 64 or 413.
    pub product: u16,
    /// The moment that the time names.
    pub version: Moment,
    /// Which segment of which file it is, where its header says so.
    pub seg: Option<Seg>,
    /// The bytes after the header.
    pub payload: &'a [u8],
}

/// The longest lives of the products, in seconds.
#[derive(Clone, Copy, Debug, PartialEq, Eq)]
pub struct Longest {
    /// That of product 63, regional radar.
    pub regional: u64,
    /// That of product 64, radar of the whole country.
    pub conus: u64,
    /// That of product 413, text.
    pub text: u64,
}

/// What an arrival brought.
#[derive(Drop)]
pub enum Taken {
    /// A payload is whole with it.
    Whole(Bytes),
    /// Other segments of its file are still to come.
    Waits,
    /// The segment had arrived before.
    Again,
    /// The longest life of its product has passed since its version.
    Stale,
}
