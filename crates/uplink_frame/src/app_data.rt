//! Application data of a payload, made of information frames.
ghost use Rattle.std.specs.Prelude.{◌≡◌, ◌+◌, ◌-◌, ◌<◌, ◌≤◌, ◌↔◌, ◌≢◌, [], ◌∷◌, ◌++◌, length};
ghost use Rattle.std.specs.Prelude.{take, drop, replicate, All, IsErr, OnOk, OnErr};
ghost use Rattle.uplink_frame.specs.declared.header.UplinkHeader.{UplinkHeader};
ghost use Rattle.uplink_frame.specs.UplinkFrame.{FitsFrame, frame_room, header_bytes};
ghost use Rattle.uplink_frame.specs.UplinkFrame.{information_frames, spelled_frames};
ghost use Rattle.uplink_frame.specs.UplinkFrame.{application_data, payload_of};

use crate::lengths::{FRAME_ROOM, HEADER_LENGTH, PAYLOAD_LENGTH};
use std::marker::Model;

/// The information frame has more bytes than are left of the application data.
#[derive(Clone, Copy, Debug, PartialEq, Eq)]
pub struct NoRoom;

/// The information frames of a payload that is made: at most 424 bytes of them. A contract sees the
/// list of the frames.
#[derive(Debug, Drop)]
pub struct AppData {
    bytes: [u8; FRAME_ROOM],
    used: usize,
}

impl Model for AppData {
    ghost use Rattle.std.specs.Prelude.{List};
    ghost use Rattle.uplink_frame.specs.UplinkFrame.{InformationFrame, frames_in};
    ghost use Rattle.uplink_frame.specs.AppDataBytes.{IsFilled};

    ghost Value = { List InformationFrame };

    ghost view = { λ a. frames_in a.bytes };

    ghost invariant = { λ a. IsFilled a.bytes a.used };
}

impl AppData {
    /// No information frame.
    pub fn new() -> Self
        ensures { result ≡ [] }
    {
        AppData {
            bytes: zeros(),
            used: 0,
        }
    }

    /// The bytes that the information frames take: two for each, and its body.
    pub fn used_bytes(&self) -> u16
        ensures used { result ≡ length (spelled_frames self.now) }
        ensures room { result ≤ frame_room }
    {
        self.used as u16
    }

    /// Puts an information frame of this type after the others: a type of at most 15, and a body of
    /// at most 511 bytes.
    ///
    /// # Errors
    ///
    /// `NoRoom` exactly where the body and two bytes more are above what the frames leave of the 424
    /// bytes; nothing is changed then.
    pub fn push(&mut self, kind: u8, body: &[u8]) -> Result<(), NoRoom>
        requires kind { kind ≤ 15 }
        requires body { length body.now ≤ 511 }
        requires goes_on { length body.now ≡ 0 → kind ≢ 0 }
        ensures no_room { IsErr result
            ↔ (frame_room - length (spelled_frames self.old) < 2 + length body.now) }
        ensures ok { OnOk result (self.new
            ≡ self.old ++ record { kind = kind; body = body.now } ∷ []) }
        ensures err { OnErr result (self.new ≡ self.old) }
    {
        let length = body.len();
        if FRAME_ROOM - self.used < 2 + length {
            return Err(NoRoom);
        }
        let front = [(length / 2) as u8, (length % 2 * 128) as u8 + kind];
        put(&mut self.bytes, self.used, &front);
        put(&mut self.bytes, self.used + 2, body);
        self.used += 2 + length;
        Ok(())
    }

    /// Writes the information frames into a payload from byte 8 on, and zeros after them. The header
    /// stays.
    pub fn finish(&self, payload: &mut [u8; PAYLOAD_LENGTH])
        ensures bytes { payload.new ≡ take 8 payload.old ++ application_data self.now }
        ensures reads_back { information_frames payload.new ≡ self.now }
        ensures frames { All FitsFrame self.now }
        ensures payload { (h : UplinkHeader) → take 8 payload.old ≡ header_bytes h
            → payload.new ≡ payload_of h self.now }
    {
        put(payload, HEADER_LENGTH, &self.bytes);
    }
}

/// Bytes without a frame.
fn zeros() -> [u8; FRAME_ROOM]
    ensures { result ≡ replicate frame_room 0 }
{
    [0; FRAME_ROOM]
}

/// Writes some bytes over those from a place on.
fn put(bytes: &mut [u8], place: usize, piece: &[u8])
    requires { place + length piece.now ≤ length bytes.old }
    ensures { bytes.new ≡ take place bytes.old
        ++ (piece.now ++ drop (place + length piece.now) bytes.old) }
{
    bytes[place..place + piece.len()].copy_from_slice(piece);
}
