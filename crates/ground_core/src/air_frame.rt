//! A frame that is sent.
ghost use Rattle.std.specs.Prelude.{◌≡◌, ◌<◌};
ghost use Rattle.uplink_frame.specs.Station.{header_of, FitsStation};
ghost use Rattle.uplink_frame.specs.UplinkFrame.{FitsHeader, payload_of};
ghost use Rattle.uplink_weave.specs.Functions.{woven_frame};

use fisb_time::Moment;
use uplink_frame::{AppData, PAYLOAD_LENGTH, StationId, UplinkHeader, write_header};
use uplink_weave::{FRAME_BYTES, weave};

/// A frame that is filled.
#[derive(Clone, Copy, Debug, PartialEq, Eq)]
pub struct AirFrame {
    /// The moment at which it is sent.
    pub moment: Moment,
    /// The slot in which it is sent, 0 to 31.
    pub slot: u8,
    /// How many bodies it has.
    pub bodies: u16,
    /// How many bytes the bodies take, each with two more, at most 424.
    pub used: u16,
    /// Its bytes as they are sent.
    pub air: [u8; FRAME_BYTES],
}

/// The bytes of a frame with these information frames under the header of a station in a slot.
pub(crate) fn air_of(station: StationId, slot: u8, frames: &AppData) -> [u8; FRAME_BYTES]
    requires station { FitsStation station }
    requires slot { slot < 32 }
    ensures { result ≡ woven_frame (payload_of (header_of station slot) frames.now) }
{
    let header = UplinkHeader {
        lat: station.lat,
        lon: station.lon,
        position_valid: station.position_valid,
        utc: true,
        app_valid: true,
        slot,
        site: station.site,
    };
    let mut payload = [0; PAYLOAD_LENGTH];
    write_header(&header, &mut payload);
    frames.finish(&mut payload);
    let mut air = [0; FRAME_BYTES];
    weave(&payload, &mut air);
    air
}
