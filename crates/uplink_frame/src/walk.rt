//! The information frames of a payload, lent out of it one by one.
ghost use Rattle.std.specs.Prelude.{◌≡◌, [], ◌∷◌, MatchOption};
ghost use Rattle.uplink_frame.specs.UplinkFrame.{frames_in, information_frames};
ghost use Rattle.uplink_frame.specs.Views.{frame_view};

use crate::lengths::{HEADER_LENGTH, PAYLOAD_LENGTH};
use std::marker::Model;

/// An information frame.
#[derive(Clone, Copy, Debug, PartialEq, Eq)]
pub struct InfoFrame<'a> {
    /// The type, 0 to 15. Type 0 is a FIS-B APDU.
    pub kind: u8,
    /// The bytes of the frame, without the two that have its length and its type.
    pub body: &'a [u8],
}

/// An iterator over information frames. A contract sees it as the list of the frames that are left.
#[derive(Debug, Drop)]
pub struct FrameWalk<'a> {
    left: &'a [u8],
}

impl<'a> Model for FrameWalk<'a> {
    ghost use Rattle.std.specs.Prelude.{List};
    ghost use Rattle.uplink_frame.specs.UplinkFrame.{InformationFrame, frames_in};

    ghost Value = { List InformationFrame };

    ghost view = { λ walk. frames_in walk.left.now };
}

/// The information frames of a payload, in their order: each is lent out of the payload.
///
/// They end where fewer than two bytes are left, where a length and a type are both 0, and where a length is more than
/// the bytes that are left. What stands from there on is not read.
pub fn frames<'a>(payload: &'a [u8; PAYLOAD_LENGTH]) -> FrameWalk<'a>
    ensures { result ≡ information_frames payload.now }
{
    let (_, left) = payload.split_at(HEADER_LENGTH);
    FrameWalk { left }
}

impl<'a> Iterator for FrameWalk<'a> {
    ghost use Rattle.std.specs.Iterator.{YieldsFirstBy, item_count};
    ghost use Rattle.uplink_frame.specs.Views.{frame_view};

    type Item = InfoFrame<'a>;

    ghost next_gives = { YieldsFirstBy frame_view (λ walk. walk) };

    ghost remaining = { item_count (λ walk. walk) };

    fn next(&mut self) -> Option<InfoFrame<'a>> {
        let (frame, behind) = first_frame(self.left)?;
        self.left = behind;
        Some(frame)
    }
}

/// The information frame at the front of some bytes, and the bytes after it. `None` where the list of frames ends.
fn first_frame(bytes: &[u8]) -> Option<(InfoFrame<'_>, &[u8])>
    ensures { MatchOption result
        (frames_in bytes.now ≡ [])
        (λ found. frames_in bytes.now ≡ frame_view found.0 ∷ frames_in found.1.now) }
{
    let [high, low, rest @ ..] = bytes else {
        return None;
    };
    let length = usize::from(*high) * 2 + usize::from(*low / 128);
    let kind = *low % 16;
    if length == 0 && kind == 0 {
        return None;
    }
    if rest.len() < length {
        return None;
    }
    let (body, behind) = rest.split_at(length);
    Some((InfoFrame { kind, body }, behind))
}
