//! A payload that goes through the air.
ghost use Rattle.std.specs.Prelude.{◌≡◌, ◌<◌, Ok};
ghost use Rattle.uplink_weave.specs.Woven.{frame_bytes};

use uplink_frame::PAYLOAD_LENGTH;
use uplink_weave::laws::burst_gives_payload;
use uplink_weave::{FRAME_BYTES, Lost, unweave, weave};

/// Sends a payload as a frame in which one byte is heard wrong, and gives what is received. It is
/// the payload: no block is lost.
pub fn payload_through_air(
    payload: &[u8; PAYLOAD_LENGTH],
    place: usize,
    heard: u8,
) -> Result<[u8; PAYLOAD_LENGTH], Lost>
    requires { place < frame_bytes }
    ensures { result ≡ Ok payload.now }
{
    burst_gives_payload();
    let mut air = [0; FRAME_BYTES];
    weave(payload, &mut air);
    air[place] = heard;
    let mut received = [0; PAYLOAD_LENGTH];
    match unweave(&air, &mut received) {
        Ok(_) => Ok(received),
        Err(lost) => Err(lost),
    }
}
