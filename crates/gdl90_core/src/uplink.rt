//! Message 7, which hands an uplink payload to a display.
ghost use Rattle.std.specs.Prelude.{◌≡◌, ◌/◌, ◌%◌, ◌^◌, ◌<◌, ◌∷◌, ◌++◌};

/// The message of an uplink payload (Garmin 560-1058-00, Uplink Data Message): its ID, the time of
/// reception in units of 80 ns, least byte first, and the payload.
pub fn uplink_message(time: u32, payload: &[u8; 432]) -> [u8; 436]
    requires { time < 2 ^ 24 }
    ensures { result ≡ 7 ∷ (time % 256) ∷ (time / 256 % 256) ∷ (time / 65536) ∷ payload.now }
{
    let mut message = [0; 436];
    message[0] = 7;
    message[1] = (time % 256) as u8;
    message[2] = (time / 256 % 256) as u8;
    message[3] = (time / 65536) as u8;
    message[4..].copy_from_slice(payload);
    message
}
