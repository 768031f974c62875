//! The header of a payload.
ghost use Rattle.std.specs.Prelude.{◌≡◌, ◌+◌, ◌*◌, ◌/◌, ◌%◌, ◌^◌, ◌<◌, ◌≤◌, take, drop};
ghost use Rattle.uplink_frame.specs.UplinkFrame.{FitsHeader, header_bytes, header_in};
ghost use Rattle.uplink_frame.specs.Station.{station_of};

use crate::lengths::PAYLOAD_LENGTH;
use crate::station::StationId;

/// The header of a payload: where the ground station is, and how the message was sent.
#[derive(Clone, Copy, Debug, PartialEq, Eq)]
pub struct UplinkHeader {
    /// The latitude, a raw count of 360 / 2^24 degrees, below 2^23.
    pub lat: u32,
    /// The longitude, a raw count of 360 / 2^24 degrees, below 2^24.
    pub lon: u32,
    /// Whether latitude and longitude are valid.
    pub position_valid: bool,
    /// Whether the station's clock is coupled to UTC.
    pub utc: bool,
    /// Whether the application data are valid.
    pub app_valid: bool,
    /// The slot in which the message was sent, 0 to 31.
    pub slot: u8,
    /// The TIS-B site, 0 to 15.
    pub site: u8,
}

impl UplinkHeader {
    /// The station that sent the message: its position and its site.
    pub fn station(&self) -> StationId
        ensures { result ≡ station_of self.now }
    {
        StationId {
            lat: self.lat,
            lon: self.lon,
            position_valid: self.position_valid,
            site: self.site,
        }
    }
}

/// The header of a payload. Reserved bits are not looked at.
pub fn read_header(payload: &[u8; PAYLOAD_LENGTH]) -> UplinkHeader
    ensures { result ≡ header_in payload.now }
{
    let [a, b, c, d, e, f, g, h, ..] = *payload;
    let bits = u64::from_be_bytes([a, b, c, d, e, f, g, h]);
    UplinkHeader {
        lat: field(bits, 41, 23) as u32,
        lon: field(bits, 17, 24) as u32,
        position_valid: field(bits, 16, 1) == 1,
        utc: field(bits, 15, 1) == 1,
        app_valid: field(bits, 13, 1) == 1,
        slot: field(bits, 8, 5) as u8,
        site: field(bits, 4, 4) as u8,
    }
}

/// Writes the header into the first 8 bytes of a payload, the reserved bits as 0, and leaves the
/// others.
pub fn write_header(header: &UplinkHeader, payload: &mut [u8; PAYLOAD_LENGTH])
    requires { FitsHeader header.now }
    ensures bytes { take 8 payload.new ≡ header_bytes header.now }
    ensures rest { drop 8 payload.new ≡ drop 8 payload.old }
    ensures reads_back { header_in payload.new ≡ header.now }
{
    let bits = with_field(0, 23, u64::from(header.lat));
    let bits = with_field(bits, 24, u64::from(header.lon));
    let bits = with_field(bits, 1, u64::from(header.position_valid));
    let bits = with_field(bits, 1, u64::from(header.utc));
    let bits = with_field(bits, 1, 0);
    let bits = with_field(bits, 1, u64::from(header.app_valid));
    let bits = with_field(bits, 5, u64::from(header.slot));
    let bits = with_field(bits, 4, u64::from(header.site));
    let bits = with_field(bits, 4, 0);
    payload[..8].copy_from_slice(&bits.to_be_bytes());
}

/// The field of this width that has this many bits below it.
fn field(bits: u64, below: u32, width: u32) -> u64
    requires below { below < 64 }
    requires width { width < 64 }
    ensures value { result ≡ bits / 2 ^ below % 2 ^ width }
    ensures fits { result < 2 ^ width }
{
    (bits >> below) % (1 << width)
}

/// The bits with a field of this width after them.
fn with_field(bits: u64, width: u32, number: u64) -> u64
    requires width { width < 64 }
    requires room { bits * 2 ^ width + number < 2 ^ 64 }
    ensures { result ≡ bits * 2 ^ width + number }
{
    (bits << width) + number
}
