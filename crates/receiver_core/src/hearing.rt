//! What the information frames of a payload bring, and what of them is passed on unread.
ghost use Rattle.std.specs.Prelude.{◌≡◌, ◌≤◌, ◌++◌, List, IfOk, None, OnOk, length, map};
ghost use Rattle.std.specs.Option.{option_map};
ghost use Rattle.uplink_frame.specs.UplinkFrame.{frame_room, information_frames};
ghost use Rattle.uplink_frame.specs.Views.{frame_view};
ghost use Rattle.picture_core.specs.Kept.{put_all};
ghost use Rattle.segment_core.specs.Arrival.{Arrival, whole_with};
ghost use Rattle.segment_core.specs.Bound.{payload_made_whole};
ghost use Rattle.segment_core.specs.Store.{IsNotBefore, StandsFor, answer_of, taken_with};
ghost use Rattle.segment_core.specs.Views.{arrival_view};
ghost use Rattle.receiver_core.specs.Hearing.{unread_view};
ghost use Rattle.receiver_core.specs.Reception.{arrival_in};
ghost use Rattle.receiver_core.specs.StandsFor.{longest_lives};
ghost use Rattle.receiver_core.specs.Steps.{arrivals_after, arrived_with, entries_after};
ghost use Rattle.receiver_core.specs.Steps.{entries_of_whole, frame_entries};
ghost use Rattle.receiver_core.specs.UnreadParts.{frame_reasons, part_in, taken_reasons};
ghost use Rattle.receiver_core.specs.UnreadParts.{unread_after};

use crate::arrival::read_arrival;
use crate::unread::{Unread, UnreadReason};
use crate::whole::take_whole;
use fisb_time::Moment;
use life_table::LifeTable;
use picture_core::Picture;
use segment_core::laws::answers_complete;
use segment_core::{Arrived, Joiner, Taken};
use std::alloc::{AllocError, Global};
use uplink_frame::{InfoFrame, PAYLOAD_LENGTH, StationId, frames};

/// Takes the information frames of a payload in their order, and lists what is passed on unread.
/// Where memory runs out, some of them may have been taken.
pub(crate) fn take_frames(
    alloc: Global,
    table: &LifeTable,
    station: StationId,
    moment: Moment,
    payload: &[u8; PAYLOAD_LENGTH],
    joiner: &mut Joiner,
    picture: &mut Picture,
) -> Result<Vec<Unread>, AllocError>
    requires moment { IsNotBefore joiner.old.store.clock moment }
    requires longest { joiner.old.store.longest ≡ longest_lives table.now }
    ensures joined { (before : List Arrival) → StandsFor joiner.old.store before
        → OnOk result (StandsFor joiner.new.store (arrivals_after table.now station moment before
        (information_frames payload.now))) }
    ensures entries { (before : List Arrival) → StandsFor joiner.old.store before
        → OnOk result (picture.new.entries ≡ put_all (entries_after table.now station moment before
        (information_frames payload.now)) picture.old.entries) }
    ensures unread { (before : List Arrival) → StandsFor joiner.old.store before
        → IfOk result (λ unread. map unread_view unread.items ≡ unread_after table.now station
        moment before (information_frames payload.now)) }
    ensures clock { IsNotBefore joiner.new.store.clock moment }
    ensures longest { joiner.new.store.longest ≡ joiner.old.store.longest }
    ensures joiner_mark { joiner.new.mark ≡ joiner.old.mark }
    ensures picture_mark { picture.new.mark ≡ picture.old.mark }
{
    let mut unread = Vec::new(alloc);
    for frame in frames(payload) {
        take_frame(
            alloc,
            table,
            station,
            moment,
            &frame,
            joiner,
            picture,
            &mut unread,
        )?;
    }
    Ok(unread)
}

/// Takes an information frame.
fn take_frame(
    alloc: Global,
    table: &LifeTable,
    station: StationId,
    moment: Moment,
    frame: &InfoFrame<'_>,
    joiner: &mut Joiner,
    picture: &mut Picture,
    unread: &mut Vec<Unread>,
) -> Result<(), AllocError>
    requires short { length frame.now.body.now ≤ frame_room }
    requires moment { IsNotBefore joiner.old.store.clock moment }
    requires longest { joiner.old.store.longest ≡ longest_lives table.now }
    ensures joined { (before : List Arrival) → StandsFor joiner.old.store before
        → OnOk result (StandsFor joiner.new.store (arrived_with before
        (arrival_in table.now station moment (frame_view frame.now)))) }
    ensures entries { (before : List Arrival) → StandsFor joiner.old.store before
        → OnOk result (picture.new.entries ≡ put_all (frame_entries table.now before
        (arrival_in table.now station moment (frame_view frame.now))) picture.old.entries) }
    ensures unread { (before : List Arrival) → StandsFor joiner.old.store before
        → OnOk result (map unread_view unread.new.items
        ≡ map unread_view unread.old.items ++ map (part_in (frame_view frame.now))
        (frame_reasons table.now before
        (arrival_in table.now station moment (frame_view frame.now)))) }
    ensures clock { IsNotBefore joiner.new.store.clock moment }
    ensures longest { joiner.new.store.longest ≡ joiner.old.store.longest }
    ensures joiner_mark { joiner.new.mark ≡ joiner.old.mark }
    ensures picture_mark { picture.new.mark ≡ picture.old.mark }
{
    answers_complete();
    let arrived = match read_arrival(table, station, moment, frame) {
        Ok(arrived) => arrived,
        Err(reason) => {
            unread.push(Unread::of(frame, reason))?;
            return Ok(());
        }
    };
    if arrived.seg.is_none() {
        take_alone(
            alloc, table, moment, frame, &arrived, joiner, picture, unread,
        )?;
        return Ok(());
    }
    let taken = joiner.take(moment, &arrived)?;
    take_answer(alloc, table, frame, &arrived, taken, picture, unread)?;
    Ok(())
}

/// Takes an arrival that is no segment. Its payload is read where it stands in the frame.
fn take_alone(
    alloc: Global,
    table: &LifeTable,
    moment: Moment,
    frame: &InfoFrame<'_>,
    arrived: &Arrived<'_>,
    joiner: &mut Joiner,
    picture: &mut Picture,
    unread: &mut Vec<Unread>,
) -> Result<(), AllocError>
    requires short { length frame.now.body.now ≤ frame_room }
    requires alone { arrived.now.seg ≡ None }
    requires moment { IsNotBefore joiner.old.store.clock moment }
    ensures joined { (before : List Arrival) → StandsFor joiner.old.store before
        → StandsFor joiner.new.store
        (taken_with joiner.old.store.longest moment before (arrival_view arrived.now)) }
    ensures entries { (before : List Arrival) → OnOk result (picture.new.entries ≡ put_all
        (entries_of_whole table.now (option_map (whole_with (arrival_view arrived.now))
        (payload_made_whole
        (answer_of joiner.old.store.longest moment before (arrival_view arrived.now)))))
        picture.old.entries) }
    ensures unread { (before : List Arrival) → OnOk result (map unread_view unread.new.items
        ≡ map unread_view unread.old.items ++ map (part_in (frame_view frame.now))
        (taken_reasons table.now (arrival_view arrived.now)
        (answer_of joiner.old.store.longest moment before (arrival_view arrived.now)))) }
    ensures clock { IsNotBefore joiner.new.store.clock moment }
    ensures longest { joiner.new.store.longest ≡ joiner.old.store.longest }
    ensures joiner_mark { joiner.new.mark ≡ joiner.old.mark }
    ensures picture_mark { picture.new.mark ≡ picture.old.mark }
{
    if !joiner.take_whole(moment, arrived) {
        unread.push(Unread::of(frame, UnreadReason::Stale))?;
        return Ok(());
    }
    take_whole(
        alloc,
        table,
        frame,
        arrived.product,
        arrived.version,
        arrived.payload,
        picture,
        unread,
    )?;
    Ok(())
}

/// Takes what the joiner answered to an arrival.
fn take_answer(
    alloc: Global,
    table: &LifeTable,
    frame: &InfoFrame<'_>,
    arrived: &Arrived<'_>,
    taken: Taken,
    picture: &mut Picture,
    unread: &mut Vec<Unread>,
) -> Result<(), AllocError>
    requires { length frame.now.body.now ≤ frame_room }
    ensures entries { OnOk result (picture.new.entries ≡ put_all
        (entries_of_whole table.now (option_map (whole_with (arrival_view arrived.now))
        (payload_made_whole taken)))
        picture.old.entries) }
    ensures unread { OnOk result (map unread_view unread.new.items
        ≡ map unread_view unread.old.items ++ map (part_in (frame_view frame.now))
        (taken_reasons table.now (arrival_view arrived.now) taken)) }
    ensures mark { picture.new.mark ≡ picture.old.mark }
{
    match taken {
        Taken::Whole(payload) => {
            let (product, version) = (arrived.product, arrived.version);
            take_whole(
                alloc,
                table,
                frame,
                product,
                version,
                payload.all(),
                picture,
                unread,
            )?;
        }
        Taken::Stale => unread.push(Unread::of(frame, UnreadReason::Stale))?,
        Taken::Waits | Taken::Again => {}
    }
    Ok(())
}
