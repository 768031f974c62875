//! Laws of histories, of broadcasts and of what waits, for the crates above: each is the contract of a function that does
//! nothing but call the laws of lower crates.
ghost use Rattle.ground_core.specs.Sound.{AcceptedIsGiven, HistoriesHaveItems};
ghost use Rattle.ground_core.specs.Sent.{FramesReadBack, ItemsAreOfStations, SegmentsAreOfItems};
ghost use Rattle.ground_core.specs.Sent.{HistoriesGrow, SegmentsAreSame};
ghost use Rattle.ground_core.specs.Starving.{NoStarvation};

use apdu_core::laws::apdu_reads_back;
use dlac_text::laws::{payload_size, reading_undoes_writing, refused_texts};
use life_table::laws::longest_is_greatest;
use picture_core::laws::keys_are_ordered;
use radar_core::laws::{blank_records_read_back, groups_are_records, run_records_read_back};
use segment_core::laws::{parts_are_few, parts_fit_frames};
use uplink_frame::laws::{bodies_read_back, stations_are_told};

/// The law that what an accepted update says is sound weather, given in time.
#[inline]
pub fn accepted_is_given()
    ensures { AcceptedIsGiven }
{
    refused_texts();
    payload_size();
    reading_undoes_writing();
    longest_is_greatest();
    keys_are_ordered();
    parts_are_few();
    run_records_read_back();
    blank_records_read_back();
    groups_are_records();
}

/// The law of the items of a history: file numbers are unique, and so are serials, and key and version.
#[inline]
pub fn histories_have_items()
    ensures { HistoriesHaveItems }
{
    accepted_is_given();
    keys_are_ordered();
}

/// The law that each station of a broadcast has a history, and that the items of the broadcast are
/// those of its stations.
#[inline]
pub fn items_are_of_stations()
    ensures { ItemsAreOfStations }
{
    stations_are_told();
}

/// The law that an event is one more in the history of its station, and in that of no other.
#[inline]
pub fn histories_grow()
    ensures { HistoriesGrow }
{
    stations_are_told();
}

/// The law that the segments of an item are those of its file.
#[inline]
pub fn segments_are_of_items()
    ensures { SegmentsAreOfItems }
{}

/// The law that a segment is the same as itself.
#[inline]
pub fn segments_are_same()
    ensures { SegmentsAreSame }
{
    stations_are_told();
}

/// The law that each frame of a broadcast airs segments of live items, as many as fit, and that its payload reads back as its
/// station, its slot and their bodies.
#[inline]
pub fn frames_read_back()
    ensures { FramesReadBack }
{
    stations_are_told();
    bodies_read_back();
    apdu_reads_back();
    parts_fit_frames();
    accepted_is_given();
    histories_have_items();
}

/// The law that no segment waits for ever: while it stays live, it is aired at the latest by the n-th next fill, n being
/// twice the bytes before it by 425, rounded down, plus 2.
#[inline]
pub fn no_starvation()
    ensures { NoStarvation }
{
    keys_are_ordered();
    parts_fit_frames();
    stations_are_told();
}
