//! The bits of a header as one number.
ghost use Rattle.std.specs.Prelude.{◌≡◌, ℕ, ◌+◌, ◌*◌, ◌^◌, ◌<◌, ◌≤◌, List, length};
ghost use Rattle.bit_fields.specs.Bits.{field_at};
ghost use Rattle.apdu_core.specs.Views.{AreBitsOf};

/// The bits of some bytes, the first bit highest.
#[derive(Clone, Copy, Debug)]
pub(crate) struct Bits {
    number: u128,
    width: usize,
}

/// The bits of a header.
pub(crate) fn bits_of(header: &[u8]) -> Bits
    requires { length header.now ≤ 9 }
    ensures { AreBitsOf header.now result }
{
    let mut number: u128 = 0;
    for byte in header {
        number = 256 * number + u128::from(*byte);
    }
    Bits {
        number,
        width: 8 * header.len(),
    }
}

impl Bits {
    /// The field of this width that begins at this bit, counted from 0.
    pub(crate) fn field(self, place: usize, width: usize) -> u16
        requires whole { place + width ≤ self.width }
        requires header { self.width ≤ 72 }
        requires small { width ≤ 16 }
        ensures value { (header : List ℕ) → AreBitsOf header self
            → result ≡ field_at header place width }
        ensures bound { result < 2 ^ width }
    {
        let behind = self.width - place - width;
        ((self.number >> behind) & ((1 << width) - 1)) as u16
    }
}
