//! The bytes of a piece, as they were before they were escaped.
ghost use Rattle.std.specs.Prelude.{◌≡◌, ℕ, ◌-◌, ◌<◌, List, [], ◌∷◌, ◌++◌, length};

use crate::check_sequence::next_remainder;
use crate::{Damage, Framed};
use arrayvec::ArrayVec;

/// The most bytes of a message and its frame check sequence.
const MOST: usize = 1024;

/// What is kept of a piece.
#[derive(Drop)]
pub(crate) struct PieceBytes {
    /// The first bytes, at most 1,024.
    bytes: ArrayVec<u8, MOST>,
    /// The remainder of the bytes but the last two.
    remainder: u16,
    /// Whether there were more than 1,024 bytes.
    too_long: bool,
}

impl PieceBytes {
    ghost use Rattle.gdl90_core.specs.StandsFor.{Keeps};
    ghost use Rattle.gdl90_core.specs.Reading.{BytesSay, reading_of};

    pub(crate) fn new() -> PieceBytes
        ensures { Keeps result [] }
    {
        PieceBytes {
            bytes: ArrayVec::new(),
            remainder: 0,
            too_long: false,
        }
    }

    /// Forgets all.
    pub(crate) fn clear(&mut self)
        ensures { Keeps self.new [] }
    {
        self.bytes.clear();
        self.remainder = 0;
        self.too_long = false;
    }

    pub(crate) fn push(&mut self, byte: u8)
        ensures { (bytes : List ℕ) → Keeps self.old bytes → Keeps self.new (bytes ++ byte ∷ []) }
    {
        let len = self.bytes.len();
        if len == MOST {
            self.too_long = true;
        } else {
            if len >= 2 {
                self.remainder = next_remainder(self.remainder, self.bytes[len - 2]);
            }
            self.bytes.push(byte);
        }
    }

    /// What the bytes say.
    pub(crate) fn reading(&self) -> Framed<'_>
        ensures { (bytes : List ℕ) → Keeps self.now bytes → BytesSay bytes (reading_of result) }
    {
        let bytes = self.bytes.as_slice();
        if self.too_long {
            return Framed::Damaged(Damage::TooLong);
        }
        if bytes.len() < 3 {
            return Framed::Damaged(Damage::Short);
        }
        let (message, check) = bytes.split_at(bytes.len() - 2);
        if u16::from(check[0]) + 256 * u16::from(check[1]) != self.remainder {
            return Framed::Damaged(Damage::BadFcs);
        }
        Framed::Message(message)
    }
}
