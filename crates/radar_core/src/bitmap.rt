//! The bitmap of an empty record: which offsets from the base it names.
ghost use Rattle.std.specs.Prelude.{◌≡◌, ◌<◌, ◌≤◌, length, slice_get, count_ones, Some};
ghost use Rattle.std.specs.Int.{bit_at};
ghost use Rattle.radar_core.specs.Blanks.{named_offsets};
ghost use Rattle.radar_core.specs.Ranks.{names_at, ones_below};

/// How many bytes the longest bitmap has.
pub(crate) const BITMAP_BYTES: usize = 15;

/// The bits that name offsets in a byte of a bitmap, 0 after its end. Offset 0, the base, is bit 3 of byte 0.
fn names_in(bitmap: &[u8], place: usize) -> u8
    ensures { result ≡ names_at bitmap.now place }
{
    let byte = match bitmap.get(place) {
        Some(byte) => *byte,
        None => 0,
    };
    if place == 0 { byte / 16 * 16 + 8 } else { byte }
}

/// How many offsets a bitmap names, the base among them.
pub(crate) fn count_offsets(bitmap: &[u8]) -> u32
    ensures { result ≡ length (named_offsets bitmap.now) }
{
    let mut count = 0;
    for place in 0..BITMAP_BYTES {
        count += names_in(bitmap, place).count_ones();
    }
    count
}

/// The offset of this rank, counted from 0, among those that a bitmap names.
pub(crate) fn offset_at(bitmap: &[u8], rank: u32) -> u32
    requires { rank < length (named_offsets bitmap.now) }
    ensures value { slice_get (named_offsets bitmap.now) rank ≡ Some result }
    ensures fits { result < 117 }
{
    let mut left = rank;
    for place in 0..BITMAP_BYTES {
        let names = names_in(bitmap, place);
        let ones = names.count_ones();
        if left < ones {
            return 8 * place as u32 + bit_of_rank(names, left) - 3;
        }
        left -= ones;
    }
    unreachable!()
}

/// The bit of this rank, counted from 0, among those that are set in a byte.
fn bit_of_rank(names: u8, rank: u32) -> u32
    requires { rank < count_ones names }
    ensures fits { result < 8 }
    ensures is_set { bit_at names result ≡ 1 }
    ensures rank { ones_below names result ≡ rank }
{
    let mut left = rank;
    for bit in 0..8 {
        if (names >> bit) % 2 == 1 {
            if left == 0 {
                return bit;
            }
            left -= 1;
        }
    }
    unreachable!()
}
