//! A place in the queue.
ghost use Rattle.std.specs.Prelude.{◌≡◌, ◌≤◌, ◌<◌, ◌+◌, ◌-◌, ◌∷◌, [], ◌++◌, nat_lt, nat_le, length};
ghost use Rattle.std.specs.Prelude.{drop, IsTrue};
ghost use Rattle.std.specs.Bool.{OnTrue, OnFalse};
ghost use Rattle.uplink_frame.specs.UplinkFrame.{fisb_frame, frame_room, spelled_frames};

use crate::item::SentItem;
use crate::newest::Newest;
use apdu_core::laws::{apdu_reads_back, shown_fits};
use apdu_core::{Apdu, Seg, write_apdu};
use fisb_time::{Moment, fields_of};
use segment_core::BODY_LIMIT;
use segment_core::laws::parts_fit_frames;
use std::rc::Rc;
use uplink_frame::AppData;

/// A segment that waits, numbered from 1.
#[derive(Drop)]
pub(crate) struct Place {
    pub(crate) item: Rc<SentItem>,
    pub(crate) number: u16,
    ghost in_range: { 1 ≤ number × (number ≤ item.value.count) },
}

impl Place {
    ghost use Rattle.ground_core.specs.Views.{place_view};
    ghost use Rattle.ground_core.specs.Views.{latest_at};
    ghost use Rattle.ground_core.specs.Piece.{body_of_piece, room_of_piece, live_by};
    ghost use Rattle.segment_core.specs.File.{body_limit, segmentation_of};

    /// Whether it is live: its item was given last under one of its keys, and its life is not over.
    pub(crate) fn is_live(&self, newest: &Newest, moment: Moment) -> bool
        ensures { result ≡ live_by (latest_at newest.now) moment (place_view self.now) }
    {
        newest.is_live(&self.item.keys, self.item.serial, moment)
    }

    /// Which segment it is, where the header says so.
    fn seg(&self) -> Option<Seg>
        ensures { result ≡ segmentation_of (place_view self.now).file self.now.number }
    {
        if !self.item.is_segmented() {
            return None;
        }
        Some(Seg {
            file: self.item.file,
            count: self.item.count,
            number: self.number,
        })
    }

    /// Writes its body at the front of a room, and answers how many bytes it has.
    fn write_body(&self, room: &mut [u8; BODY_LIMIT]) -> usize
        ensures written { room.new ≡ body_of_piece (place_view self.now)
            ++ drop (length (body_of_piece (place_view self.now))) room.old }
        ensures number { result ≡ length (body_of_piece (place_view self.now)) }
        ensures size { result + 2 ≡ room_of_piece (place_view self.now) }
        ensures within { result ≤ body_limit }
    {
        apdu_reads_back();
        shown_fits();
        parts_fit_frames();
        let item = &*self.item;
        let _seconds = item.version.seconds();
        let apdu = Apdu {
            product: item.product,
            form: item.form,
            time: fields_of(item.form, item.version),
            seg: self.seg(),
            payload: item.part(self.number),
        };
        write_apdu(&apdu, room)
    }

    /// Puts its information frame after the others, where it fits, and answers whether it did.
    pub(crate) fn is_pushed(&self, room: &mut [u8; BODY_LIMIT], frames: &mut AppData) -> bool
        ensures answer { result
            ≡ nat_le (room_of_piece (place_view self.now))
            (frame_room - length (spelled_frames frames.old)) }
        ensures pushed { OnTrue result (frames.new ≡ frames.old
            ++ fisb_frame (body_of_piece (place_view self.now)) ∷ []) }
        ensures used { OnTrue result (length (spelled_frames frames.new)
            ≡ length (spelled_frames frames.old) + room_of_piece (place_view self.now)) }
        ensures left { OnFalse result (frames.new ≡ frames.old) }
    {
        let length = self.write_body(room);
        let (body, _) = room.split_at(length);
        frames.push(0, body).is_ok()
    }
}
