//! Laws of the definitions, for the crates above: each is the contract of a function that does
//! nothing.
ghost use Rattle.uplink_frame.specs.Laws.{BodiesComeBack, FramesAreSpelled, FramesHaveSize};
ghost use Rattle.uplink_frame.specs.Laws.{PayloadReadsBack, StationsAreTold};

/// The law that a header and information frames, each of which fits, read back from the payload
/// that is made of them.
#[inline]
pub fn payload_reads_back()
    ensures { PayloadReadsBack }
{}

/// The law that the information frames of a payload are those that its bytes spell from byte 8 on,
/// and no others.
#[inline]
pub fn frames_are_spelled()
    ensures { FramesAreSpelled }
{}

/// The law that the bodies of FIS-B frames read back from the payload of a station, with the
/// station and the slot, and the law how many bytes such frames take.
#[inline]
pub fn bodies_read_back()
    ensures back { BodiesComeBack }
    ensures size { FramesHaveSize }
{}

/// The law that two stations are the same exactly where each field is.
#[inline]
pub fn stations_are_told()
    ensures { StationsAreTold }
{}
