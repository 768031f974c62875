//! The frame check sequence of a message.
ghost use Rattle.std.specs.Prelude.{◌≡◌};
ghost use Rattle.gdl90_core.specs.CheckSequence.{remainder, with_byte};

use crate::remainders::remainder_at;

/// The frame check sequence of a message: its remainder by x^16 + x^12 + x^5 + 1.
pub fn fcs(message: &[u8]) -> u16
    ensures { result ≡ remainder message.now }
{
    let mut rest = 0;
    for byte in message {
        rest = next_remainder(rest, *byte);
    }
    rest
}

/// The remainder of a message that goes on by a byte.
#[inline]
pub(crate) fn next_remainder(rest: u16, byte: u8) -> u16
    ensures { result ≡ with_byte rest byte }
{
    remainder_at(rest / 256) ^ (rest % 256 * 256 + u16::from(byte))
}
