//! Laws of the definitions, for the crates above: each is the contract of a function that does
//! nothing.
ghost use Rattle.segment_core.specs.Bound.{AnswersComplete, StoresAreBounded};
ghost use Rattle.segment_core.specs.Cutting.{PartsAreFew, PartsAreWhole, PartsFitFrames};
ghost use Rattle.segment_core.specs.Cutting.{TextsHaveFewParts};
ghost use Rattle.segment_core.specs.Joining.{CompletedGrows, FilesComplete, OnlyFilesComplete};
ghost use Rattle.segment_core.specs.Joining.{WholeFilesComplete};

use uplink_frame::laws::stations_are_told;

/// The law that the parts of a payload are the payload when they are joined in order, and that
/// there is one at least.
#[inline]
pub fn parts_are_whole()
    ensures { PartsAreWhole }
{}

/// The law that each part fits a frame with its header, and that no part of a payload that is cut
/// is empty.
#[inline]
pub fn parts_fit_frames()
    ensures { PartsFitFrames }
{}

/// The law that a payload has no more parts than it has full segments room, and the longest text
/// 30 at most.
#[inline]
pub fn parts_are_few()
    ensures few { PartsAreFew }
    ensures texts { TextsHaveFewParts }
{}

/// The law that only files become whole of which each segment has arrived, one of them just now.
#[inline]
pub fn only_files_complete()
    ensures { OnlyFilesComplete }
{
    stations_are_told();
}

/// The law that a file becomes whole with the segment that was still to come.
#[inline]
pub fn files_complete()
    ensures { FilesComplete }
{
    stations_are_told();
}

/// The law that a file without segments is whole whenever it arrives.
#[inline]
pub fn whole_files_complete()
    ensures { WholeFilesComplete }
{}

/// The law that what further arrivals complete stands after what was complete before.
#[inline]
pub fn completed_grows()
    ensures { CompletedGrows }
{}

/// The law that the answer to an arrival says a payload is whole exactly where it completes one.
#[inline]
pub fn answers_complete()
    ensures { AnswersComplete }
{}

/// The law that a store that was purged holds at most the numbers and the bytes of the arrivals
/// that are not stale.
#[inline]
pub fn stores_are_bounded()
    ensures { StoresAreBounded }
{
    stations_are_told();
}
