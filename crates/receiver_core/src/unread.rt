//! What a receiver passes on unread.
ghost use Rattle.std.specs.Prelude.{◌≡◌, ◌<◌, ◌≤◌, ◌==◌, length};
ghost use Rattle.std.specs.List.{slice_index_or};
ghost use Rattle.uplink_frame.specs.UplinkFrame.{frame_room};
ghost use Rattle.uplink_frame.specs.Views.{frame_view};
ghost use Rattle.receiver_core.specs.Hearing.{unread_view};
ghost use Rattle.receiver_core.specs.UnreadParts.{part_in};

use apdu_core::product_of;
use std::marker::Model;
use uplink_frame::InfoFrame;

/// Why an information frame, or a report in it, is passed on unread.
#[derive(Clone, Copy, Debug, PartialEq, Eq)]
pub enum UnreadReason {
    /// The frame is no FIS-B frame.
    Kind,
    /// The body is shorter than its header.
    Short,
    /// A flag of the header is set.
    Flagged,
    /// The segment's number is not from 1 to the count.
    Segment,
    /// The product is none that is read.
    Product,
    /// The life table has no row of the product.
    NoRow,
    /// The file has more than 64 segments.
    Files,
    /// The time names no moment.
    Time,
    /// The longest life of the product has passed since the version.
    Stale,
    /// A whole payload of radar has fewer than 4 bytes.
    RadarShort,
    /// The scale of a radar record is 3.
    Scale,
    /// The runs of a radar record are not 128 cells.
    Runs,
    /// The base of an empty radar record is 405,000 or more.
    High,
    /// The bitmap of an empty radar record is cut off.
    Bitmap,
    /// A report has fewer words than its key.
    Words,
    /// The life table has no row of a report's type.
    Unlisted,
}

/// An information frame that is passed on unread, or one for each report in it that is.
#[derive(Clone, Copy, Debug, PartialEq, Eq)]
pub struct Unread {
    /// Why.
    pub reason: UnreadReason,
    /// The type of the frame, 0 to 15.
    pub kind: u8,
    /// The product in the body of a FIS-B frame; 0 in a body of fewer than 4 bytes and in any
    /// other frame.
    pub product: u16,
    /// How many bytes the body has.
    pub length: u16,
}

impl Unread {
    /// What is passed on of a frame for this reason.
    pub(crate) fn of(frame: &InfoFrame<'_>, reason: UnreadReason) -> Unread
        requires { length frame.now.body.now ≤ frame_room }
        ensures { unread_view result ≡ part_in (frame_view frame.now) reason }
    {
        let product = if frame.kind == 0 {
            product_of(frame.body)
        } else {
            0
        };
        Unread {
            reason,
            kind: frame.kind,
            product,
            length: frame.body.len() as u16,
        }
    }
}

/// What a reception passes on unread, in the order in which it was found.
#[derive(Debug, Drop)]
pub struct UnreadList {
    items: Vec<Unread>,
}

impl Model for UnreadList {
    ghost use Rattle.std.specs.Prelude.{List};
    ghost use Rattle.receiver_core.specs.declared.unread.Unread.{Unread};

    ghost Value = { List Unread };

    ghost view = { λ u. u.items.items };
}

impl UnreadList {
    /// These parts.
    pub(crate) fn of(items: Vec<Unread>) -> UnreadList
        ensures { result ≡ items.items }
    {
        UnreadList { items }
    }

    /// The number of parts.
    pub fn len(&self) -> usize
        ensures { result ≡ length self.now }
    {
        self.items.len()
    }

    /// Whether there is no part.
    pub fn is_empty(&self) -> bool
        ensures { result ≡ (length self.now == 0) }
    {
        self.items.is_empty()
    }

    /// The part at a place, counted from 0.
    pub fn at(&self, place: usize) -> &Unread
        requires { place < length self.now }
        ensures { result.now ≡ slice_index_or self.now place result.now }
    {
        &self.items[place]
    }

    /// All parts.
    pub fn all(&self) -> &[Unread]
        ensures { result.now ≡ self.now }
    {
        self.items.as_slice()
    }
}
