//! Laws of the definitions, for the crates above: each is the contract of a function that does nothing.
ghost use Rattle.uplink_weave.specs.Laws.{BurstGivesPayload, BurstIsSpread, FrameGivesPayload};
ghost use Rattle.uplink_weave.specs.Laws.{GivesPayload, IsTheFrame};
ghost use Rattle.uplink_weave.specs.Laws.{IsUnique, NearFrameGivesPayload, NearGivesPayload};
ghost use Rattle.uplink_weave.specs.Laws.{WovenGivesPayload};

use rs_code::laws::{corrected_is_nearest, differences_laws, one_encoded, one_nearest};

/// The law that a woven frame has the payload that it is woven of, with no byte to be changed.
#[inline]
pub fn woven_gives_payload()
    ensures { WovenGivesPayload }
{
    differences_laws()
}

/// The law that a frame whose blocks are near those of a woven frame has the payload of that frame.
#[inline]
pub fn near_gives_payload()
    ensures { NearGivesPayload }
{}

/// The law that a frame has at most one payload, one list of counts and one first lost block.
#[inline]
pub fn unique_payload()
    ensures { IsUnique }
{
    one_nearest()
}

/// The law that frames which differ only inside 60 consecutive places differ in at most ten places of each block.
#[inline]
pub fn burst_is_spread()
    ensures { BurstIsSpread }
{
    differences_laws()
}

/// The law that the definition `woven` gives the frame that is woven of a payload, and that there is no other.
#[inline]
pub fn woven_is_the_frame()
    ensures { IsTheFrame }
{
    one_encoded()
}

/// The law that the definitions `payload_in`, `counts_in` and `lost_block_in` give the payload of a frame, the counts of
/// its corrected bytes and its first lost block.
#[inline]
pub fn functions_of_a_frame()
    ensures { GivesPayload }
{
    corrected_is_nearest()
}

/// The law that the frame of a payload has that payload, with no byte to be changed.
#[inline]
pub fn frame_gives_payload()
    ensures { FrameGivesPayload }
{
    woven_gives_payload();
    woven_is_the_frame();
    functions_of_a_frame()
}

/// The law that a frame whose blocks are near those of the frame of a payload has that payload, and that each of its counts
/// is the number of places in which its block differs.
#[inline]
pub fn near_frame_gives_payload()
    ensures { NearFrameGivesPayload }
{
    woven_is_the_frame();
    functions_of_a_frame()
}

/// The law that a frame which differs from the frame of a payload only inside 60 consecutive places has that payload.
#[inline]
pub fn burst_gives_payload()
    ensures { BurstGivesPayload }
{
    woven_is_the_frame();
    burst_is_spread();
    near_frame_gives_payload()
}
