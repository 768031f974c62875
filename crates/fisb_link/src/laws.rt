//! Laws of a link, for the crates above: each is the contract of a function that does nothing but
//! call the laws of lower crates.
ghost use Rattle.fisb_link.specs.PicturesAgree.{HearingsStay, PicturesAgree};

use apdu_core::laws::{apdu_reads_back, shown_fits};
use fisb_time::laws::form_round_trip;
use ground_core::laws::{
    frames_read_back, histories_have_items, items_are_of_stations, segments_are_of_items,
    segments_are_same,
};
use picture_core::laws::{keys_are_ordered, same_pictures, shown_is_newest};
use segment_core::laws::{
    completed_grows, files_complete, only_files_complete, parts_fit_frames, whole_files_complete,
};
use uplink_frame::laws::stations_are_told;

/// The law of the two pictures: what is shown of the bytes that were heard is what updates, fills
/// and hearings promise.
#[inline]
pub fn pictures_agree()
    ensures { PicturesAgree }
{
    form_round_trip();
    apdu_reads_back();
    shown_fits();
    stations_are_told();
    histories_have_items();
    items_are_of_stations();
    segments_are_of_items();
    segments_are_same();
    frames_read_back();
    parts_fit_frames();
    only_files_complete();
    files_complete();
    whole_files_complete();
    completed_grows();
    keys_are_ordered();
    shown_is_newest();
    same_pictures();
}

/// The law that a further event changes nothing of what was heard before it.
#[inline]
pub fn hearings_stay()
    ensures { HearingsStay }
{}
