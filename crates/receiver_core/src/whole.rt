//! What a whole payload says.
ghost use Rattle.std.specs.Prelude.{◌≡◌, ◌≤◌, ◌++◌, OnOk, Some, length, map};
ghost use Rattle.uplink_frame.specs.UplinkFrame.{frame_room};
ghost use Rattle.uplink_frame.specs.Views.{frame_view};
ghost use Rattle.picture_core.specs.Kept.{put_all};
ghost use Rattle.segment_core.specs.Arrival.{Whole};
ghost use Rattle.receiver_core.specs.Hearing.{unread_view};
ghost use Rattle.receiver_core.specs.Reception.{whole_entries};
ghost use Rattle.receiver_core.specs.UnreadParts.{part_in, whole_reasons};

use crate::radar::take_record;
use crate::reports::take_reports;
use crate::unread::Unread;
use fisb_time::Moment;
use life_table::{LifeTable, TEXT_PRODUCT};
use picture_core::Picture;
use std::alloc::{AllocError, Global};
use uplink_frame::InfoFrame;

/// Takes what a whole payload says into the picture, and lists what of it is passed on unread.
pub(crate) fn take_whole(
    alloc: Global,
    table: &LifeTable,
    frame: &InfoFrame<'_>,
    product: u16,
    version: Moment,
    payload: &[u8],
    picture: &mut Picture,
    unread: &mut Vec<Unread>,
) -> Result<(), AllocError>
    requires { length frame.now.body.now ≤ frame_room }
    ensures entries { OnOk result (picture.new.entries ≡ put_all (whole_entries table.now
        (record { product = product; version = version; payload = payload.now }))
        picture.old.entries) }
    ensures unread { OnOk result (map unread_view unread.new.items
        ≡ map unread_view unread.old.items ++ map (part_in (frame_view frame.now))
        (whole_reasons table.now
        (Some (record { product = product; version = version; payload = payload.now })))) }
    ensures mark { picture.new.mark ≡ picture.old.mark }
{
    if product == TEXT_PRODUCT {
        take_reports(alloc, table, frame, version, payload, picture, unread)?;
        return Ok(());
    }
    if let Some(reason) = take_record(table, product, version, payload, picture)? {
        unread.push(Unread::of(frame, reason))?;
    }
    Ok(())
}
