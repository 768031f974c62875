//! The blocks of a frame, and the parts of a payload.
ghost use Rattle.std.specs.Prelude.{◌≡◌, ◌*◌, ◌<◌, ℕ, length, slice_index};
ghost use Rattle.uplink_weave.specs.Woven.{block, BeginsWithPart};

use crate::frame::FRAME_BYTES;
use uplink_frame::PAYLOAD_LENGTH;

// Puts a block of a frame in the place of a word.
#[inline]
pub(crate) fn read_block(air: &[u8; FRAME_BYTES], number: usize, word: &mut [u8; 92])
    requires { number < 6 }
    ensures { word.new ≡ block number air.now }
{
    for k in 0..92 {
        word[k] = air[6 * k + number];
    }
}

// Puts a word in the place of a block of a frame.
#[inline]
pub(crate) fn write_block(word: &[u8; 92], number: usize, air: &mut [u8; FRAME_BYTES])
    requires { number < 6 }
    ensures block { block number air.new ≡ word.now }
    ensures before { (lower : ℕ) → lower < number → block lower air.new ≡ block lower air.old }
{
    for k in 0..92 {
        air[6 * k + number] = word[k];
    }
}

// A word that begins with the part of a payload that one block carries.
#[inline]
pub(crate) fn read_part(payload: &[u8; PAYLOAD_LENGTH], number: usize) -> [u8; 92]
    requires { number < 6 }
    ensures { BeginsWithPart number payload.now result }
{
    let mut word = [0; 92];
    for k in 0..72 {
        word[k] = payload[72 * number + k];
    }
    word
}

// Puts the beginning of a word in the place of a part of a payload.
#[inline]
pub(crate) fn write_part(word: &[u8; 92], number: usize, payload: &mut [u8; PAYLOAD_LENGTH])
    requires { number < 6 }
    ensures part { BeginsWithPart number payload.new word.now }
    ensures before { (place : ℕ) → place < 72 * number →
        slice_index payload.new place ≡ slice_index payload.old place }
{
    for k in 0..72 {
        payload[72 * number + k] = word[k];
    }
}
