//! The empty record of a group of blocks.
ghost use Rattle.std.specs.Prelude.{◌≡◌, ◌+◌, ◌*◌, ◌<◌, ◌≤◌, false, EachIndex, ◌∷◌, ◌++◌, length};
ghost use Rattle.std.specs.Prelude.{replicate, slice_index, take, drop, Ok};
ghost use Rattle.std.specs.List.{slice_index_or};
ghost use Rattle.radar_core.specs.Blanks.{IsGroup, blank_record, bitmap_of, length_for};
ghost use Rattle.radar_core.specs.Marks.{is_marked, four_bits};
ghost use Rattle.radar_core.specs.Cells.{blank_cells};
ghost use Rattle.radar_core.specs.Keys.{FitsKey, first_high};
ghost use Rattle.radar_core.specs.Radar.{radar_blocks, blank_blocks};

use crate::key::BlockKey;
use crate::runs::{FRONT, put_front};

/// Writes the empty record of a base and of further blocks of its ring, and leaves the rest of the room. Its bitmap is the
/// shortest that names them. The answer is its length.
pub fn write_blank(base: &BlockKey, further: &[u32], room: &mut [u8; 18]) -> usize
    requires scale { base.now.scale ≤ 2 }
    requires number { base.now.number < first_high }
    requires group { IsGroup base.now.number further.now }
    ensures size { result ≡ length (blank_record base.now further.now) }
    ensures record { take result room.new ≡ blank_record base.now further.now }
    ensures rest { drop result room.new ≡ drop result room.old }
    ensures reads_back { radar_blocks base.now.product (take result room.new)
        ≡ Ok (blank_blocks base.now (base.now.number ∷ further.now)) }
{
    put_front(false, base, room);
    put_bitmap(base.number, further, room)
}

/// Writes the bitmap after the front of a record. The answer is the place after it.
fn put_bitmap(base: u32, further: &[u32], room: &mut [u8; 18]) -> usize
    requires base { base < first_high }
    requires group { IsGroup base further.now }
    ensures size { result ≡ 3 + length_for base further.now }
    ensures bitmap { take result room.new ≡ take 3 room.old ++ bitmap_of base further.now }
    ensures rest { drop result room.new ≡ drop result room.old }
{
    let length = length_for(base, further);
    let marks = marks_of(base, further);
    room[FRONT] = 16 * four_bits(&marks, 4) + length as u8;
    for place in 1..length {
        let low = 8 * place;
        room[FRONT + place] = 16 * four_bits(&marks, low + 4) + four_bits(&marks, low);
    }
    FRONT + length
}

/// How many bytes the bitmap has.
fn length_for(base: u32, further: &[u32]) -> usize
    requires base { base < first_high }
    requires group { IsGroup base further.now }
    ensures value { result ≡ length_for base further.now }
    ensures some { 1 ≤ result }
    ensures most { result ≤ 15 }
{
    let last = last_number(base, further);
    (last - base + 3) as usize / 8 + 1
}

/// The last of a base and further numbers.
fn last_number(base: u32, further: &[u32]) -> u32
    ensures { result ≡ slice_index (base ∷ further.now) (length further.now) }
{
    let count = further.len();
    if count == 0 {
        return base;
    }
    further[count - 1]
}

/// The bits of the longest bitmap that name these blocks beside a base: bit o + 3 is offset o.
fn marks_of(base: u32, further: &[u32]) -> [bool; 120]
    requires base { base < first_high }
    requires group { IsGroup base further.now }
    ensures size { length result ≡ 120 }
    ensures marks { EachIndex result
        (λ bit. slice_index_or result bit false ≡ is_marked base further.now bit) }
{
    let mut marks = no_marks();
    for number in further {
        marks[(*number - base + 3) as usize] = true;
    }
    marks
}

/// Four of these bits from a place on, the first one lowest.
fn four_bits(bits: &[bool; 120], place: usize) -> u8
    requires { place < 117 }
    ensures value { result ≡ four_bits bits.now place }
    ensures fits { result < 16 }
{
    u8::from(bits[place])
        + 2 * u8::from(bits[place + 1])
        + 4 * u8::from(bits[place + 2])
        + 8 * u8::from(bits[place + 3])
}

/// No bit is set.
fn no_marks() -> [bool; 120]
    ensures { result ≡ replicate 120 false }
{
    [false; 120]
}
