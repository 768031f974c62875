//! The queue of segments that wait.
ghost use Rattle.std.specs.Prelude.{◌≡◌, ℕ, ◌+◌, ◌-◌, ◌*◌, ◌≤◌, ◌∷◌, [], ◌++◌, List, length, map};
ghost use Rattle.std.specs.Prelude.{filter, drop, take, flat_map, IfOk, OnOk, OnErr};
ghost use Rattle.std.specs.List.{range_with_len};
ghost use Rattle.list_members.specs.Membership.{IsIn};
ghost use Rattle.uplink_frame.specs.UplinkFrame.{fisb_frame, frame_room};
ghost use Rattle.ground_core.specs.Views.{latest_at, piece_at};
ghost use Rattle.ground_core.specs.Putting.{pieces_at, values_of};
ghost use Rattle.picture_core.specs.Key.{Key};
ghost use Rattle.ground_core.specs.Piece.{live_by, IsLastOrEnded, ArePlaced};

use crate::item::SentItem;
use crate::newest::Newest;
use crate::place::Place;
use fisb_time::Moment;
use picture_core::laws::keys_are_ordered;
use segment_core::BODY_LIMIT;
use std::alloc::{AllocError, Global};
use std::collections::VecDeque;
use std::rc::Rc;
use uplink_frame::AppData;

/// What a look at the front of the queue did.
#[derive(Clone, Copy)]
pub(crate) enum Turn {
    /// The front was dead and is gone.
    Dropped,
    /// It was aired, and stands last now.
    Aired,
    /// It does not fit the frame, or there is none.
    Stopped,
}

/// The segments that wait, in the order in which they are sent. What has ended or was superseded lies among them until it
/// comes to the front.
#[derive(Drop)]
pub(crate) struct Line {
    places: VecDeque<Place>,
}

impl Line {
    ghost use Rattle.ground_core.specs.Views.{pieces_in};
    ghost use Rattle.ground_core.specs.Piece.{Piece, fitting_pieces, left_pieces, body_of_piece};
    ghost use Rattle.ground_core.specs.Turn.{IsTurn};

    /// Nothing waits.
    pub(crate) fn new(alloc: Global) -> Line
        ensures { pieces_in result ≡ [] }
    {
        Line {
            places: VecDeque::new(alloc),
        }
    }

    /// How many wait, live or dead.
    pub(crate) fn len(&self) -> usize
        ensures { result ≡ length (pieces_in self.now) }
    {
        self.places.len()
    }

    /// Keeps so many at the front, and drops what stands after them.
    pub(crate) fn keep_first(&mut self, count: usize)
        ensures { pieces_in self.new ≡ take count (pieces_in self.old) }
    {
        self.places.truncate(count);
    }

    /// Puts the segments of an item after all others.
    pub(crate) fn put(&mut self, item: &Rc<SentItem>) -> Result<(), AllocError>
        ensures ok { OnOk result (pieces_in self.new
            ≡ pieces_in self.old
            ++ map (piece_at item.now.value) (range_with_len 1 item.now.value.count)) }
        ensures err { OnErr result (pieces_in self.new ≡ pieces_in self.old) }
    {
        let before = self.places.len();
        if self.push_all(item).is_err() {
            self.places.truncate(before);
            return Err(AllocError);
        }
        Ok(())
    }

    /// Puts the segments of items after all others, one item after another, or those of some of them.
    pub(crate) fn put_all(&mut self, items: &[Rc<SentItem>]) -> Result<(), AllocError>
        ensures ok { OnOk result (pieces_in self.new
            ≡ pieces_in self.old ++ flat_map pieces_at (values_of items.now)) }
        ensures others { take (length (pieces_in self.old)) (pieces_in self.new)
            ≡ pieces_in self.old }
    {
        for item in items {
            let Ok(()) = self.put(item) else {
                return Err(AllocError);
            };
        }
        Ok(())
    }

    /// Pushes the segments of an item, or some of them.
    fn push_all(&mut self, item: &Rc<SentItem>) -> Result<(), AllocError>
        ensures ok { OnOk result (pieces_in self.new
            ≡ pieces_in self.old
            ++ map (piece_at item.now.value) (range_with_len 1 item.now.value.count)) }
        ensures others { take (length self.old.places.items) self.new.places.items
            ≡ self.old.places.items }
    {
        let count = item.count;
        for number in 0..count {
            let place = Place {
                item: item.clone()?,
                number: number + 1,
            };
            let Ok(()) = self.places.push_back(place) else {
                return Err(AllocError);
            };
        }
        Ok(())
    }

    /// Airs the longest front of what is live that fits the frame, which stands last then, and answers how many it aired.
    /// What is dead before it is dropped, and the keys of what has ended are forgotten.
    pub(crate) fn air(&mut self, newest: &mut Newest, moment: Moment, frames: &mut AppData) -> usize
        requires { frames.old ≡ [] }
        ensures number { result
            ≡ length (fitting_pieces frame_room (filter (live_by (latest_at newest.old) moment)
            (pieces_in self.old))) }
        ensures frames { frames.new ≡ map (λ p. fisb_frame (body_of_piece p))
            (fitting_pieces frame_room (filter (live_by (latest_at newest.old) moment)
            (pieces_in self.old))) }
        ensures few { 2 * result ≤ frame_room }
        ensures line { filter (live_by (latest_at newest.old) moment) (pieces_in self.new)
            ≡ left_pieces frame_room (filter (live_by (latest_at newest.old) moment)
            (pieces_in self.old))
            ++ fitting_pieces frame_room (filter (live_by (latest_at newest.old) moment)
            (pieces_in self.old)) }
        ensures among { (p : Piece) → IsIn p (pieces_in self.new) → IsIn p (pieces_in self.old) }
        ensures kept { (key : Key)
            → IsLastOrEnded moment (latest_at newest.old key) (latest_at newest.new key) }
        ensures placed { ArePlaced (latest_at newest.old) (pieces_in self.old)
            → ArePlaced (latest_at newest.new) (pieces_in self.new) }
    {
        let mut room = [0; BODY_LIMIT];
        let mut aired = 0;
        for _turn in 0..self.places.len() {
            match self.turn(newest, moment, &mut room, frames) {
                Turn::Dropped => {}
                Turn::Aired => aired += 1,
                Turn::Stopped => return aired,
            }
        }
        aired
    }

    /// Looks at the front: drops it where it is dead, and forgets its keys where that has ended; airs it where it fits.
    fn turn(
        &mut self,
        newest: &mut Newest,
        moment: Moment,
        room: &mut [u8; BODY_LIMIT],
        frames: &mut AppData,
    ) -> Turn
        ensures kept { (key : Key)
            → IsLastOrEnded moment (latest_at newest.old key) (latest_at newest.new key) }
        ensures placed { ArePlaced (latest_at newest.old) (pieces_in self.old)
            → ArePlaced (latest_at newest.new) (pieces_in self.new) }
        ensures turn { IsTurn (live_by (latest_at newest.old) moment)
            (pieces_in self.old) frames.old (pieces_in self.new) frames.new result }
    {
        keys_are_ordered();
        let Some(front) = self.places.front() else {
            return Turn::Stopped;
        };
        if !front.is_live(newest, moment) {
            newest.forget(&front.item.keys, moment);
            let _ = self.places.pop_front();
            return Turn::Dropped;
        }
        if !front.is_pushed(room, frames) {
            return Turn::Stopped;
        }
        self.places.rotate_left(1);
        Turn::Aired
    }
}
