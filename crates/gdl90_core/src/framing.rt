//! A message between two flags.
ghost use Rattle.std.specs.Prelude.{◌≡◌, ◌+◌, ◌<◌, ◌≤◌, ◌++◌, length};
ghost use Rattle.arrayvec.specs.ArrayVec.{array_vec_len};
ghost use Rattle.gdl90_core.specs.Framing.{escaped_byte, framed_message};

use crate::fcs;
use arrayvec::ArrayVec;

/// The byte that begins and ends a piece.
pub(crate) const FLAG: u8 = 0x7e;
/// The byte that stands before a byte whose bit 5 is turned.
pub(crate) const ESCAPE: u8 = 0x7d;
/// The flag after the control-escape.
pub(crate) const ESCAPED_FLAG: u8 = 0x5e;
/// The control-escape after itself.
pub(crate) const ESCAPED_ESCAPE: u8 = 0x5d;

/// Writes the message as it is sent, in place of what `out` held.
pub fn frame_message(message: &[u8], out: &mut ArrayVec<u8, 2052>)
    requires not_empty { 0 < length message.now }
    requires fits { length message.now ≤ 1022 }
    ensures { out.new.items ≡ framed_message message.now }
{
    let check = fcs(message);
    out.clear();
    out.push(FLAG);
    for byte in message {
        push_escaped(out, *byte);
    }
    push_escaped(out, (check % 256) as u8);
    push_escaped(out, (check / 256) as u8);
    out.push(FLAG);
}

/// Writes the byte, escaped where it has to be.
#[inline]
fn push_escaped(out: &mut ArrayVec<u8, 2052>, byte: u8)
    requires { array_vec_len out.old + 2 ≤ 2052 }
    ensures escaped { out.new.items ≡ out.old.items ++ escaped_byte byte }
    ensures room { array_vec_len out.new ≤ array_vec_len out.old + 2 }
{
    if byte == FLAG {
        out.push(ESCAPE);
        out.push(ESCAPED_FLAG);
    } else if byte == ESCAPE {
        out.push(ESCAPE);
        out.push(ESCAPED_ESCAPE);
    } else {
        out.push(byte);
    }
}
