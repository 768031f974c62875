//! Codes of six bits in bytes.
ghost use Rattle.std.specs.Prelude.{◌≡◌, ◌<◌, [], ◌∷◌};
ghost use Rattle.dlac_text.specs.SixBits.{packed_bytes};

/// The three bytes of four six-bit codes.
pub fn packed_group(first: u8, second: u8, third: u8, fourth: u8) -> [u8; 3]
    requires first_fits { first < 64 }
    requires second_fits { second < 64 }
    requires third_fits { third < 64 }
    requires fourth_fits { fourth < 64 }
    ensures { result ≡ packed_bytes (first ∷ second ∷ third ∷ fourth ∷ []) }
{
    [
        first * 4 + second / 16,
        second % 16 * 16 + third / 4,
        third % 4 * 64 + fourth,
    ]
}
