//! The reports of a whole payload of text.
ghost use Rattle.std.specs.Prelude.{◌≡◌, ◌≤◌, ◌++◌, IfOk, OnOk, Some, length, map};
ghost use Rattle.std.specs.Prelude.{flat_map, option_to_list};
ghost use Rattle.uplink_frame.specs.UplinkFrame.{frame_room};
ghost use Rattle.dlac_text.specs.Reports.{reports_of};
ghost use Rattle.text_reports.specs.TextKey.{text_key};
ghost use Rattle.uplink_frame.specs.Views.{frame_view};
ghost use Rattle.picture_core.specs.Contents.{report_entries};
ghost use Rattle.picture_core.specs.Kept.{put_all};
ghost use Rattle.segment_core.specs.Arrival.{Whole};
ghost use Rattle.receiver_core.specs.Hearing.{unread_view};
ghost use Rattle.receiver_core.specs.UnreadParts.{part_in, report_reasons};

use crate::unread::{Unread, UnreadReason};
use dlac_text::{Report, reports};
use fisb_time::Moment;
use life_table::LifeTable;
use picture_core::{Key, Picture, Shown};
use std::alloc::{AllocError, Global};
use text_reports::{KeyFault, key_of};
use uplink_frame::InfoFrame;

/// Takes the reports of a payload of text.
pub(crate) fn take_reports(
    alloc: Global,
    table: &LifeTable,
    frame: &InfoFrame<'_>,
    version: Moment,
    payload: &[u8],
    picture: &mut Picture,
    unread: &mut Vec<Unread>,
) -> Result<(), AllocError>
    requires { length frame.now.body.now ≤ frame_room }
    ensures entries { OnOk result (picture.new.entries
        ≡ put_all (flat_map (report_entries table.now version) (reports_of payload.now))
        picture.old.entries) }
    ensures unread { OnOk result (map unread_view unread.new.items
        ≡ map unread_view unread.old.items ++ map (part_in (frame_view frame.now))
        (flat_map (λ text. report_reasons (text_key table.now text)) (reports_of payload.now))) }
    ensures mark { picture.new.mark ≡ picture.old.mark }
{
    for report in reports(alloc, payload)? {
        if let Some(reason) = take_report(alloc, table, version, report, picture)? {
            unread.push(Unread::of(frame, reason))?;
        }
    }
    Ok(())
}

/// Puts a report into the picture, or answers why it is passed on unread.
fn take_report(
    alloc: Global,
    table: &LifeTable,
    version: Moment,
    report: Report,
    picture: &mut Picture,
) -> Result<Option<UnreadReason>, AllocError>
    ensures entries { OnOk result (picture.new.entries
        ≡ put_all (report_entries table.now version report) picture.old.entries) }
    ensures reason { IfOk result (λ reason. option_to_list reason
        ≡ report_reasons (text_key table.now report)) }
    ensures mark { picture.new.mark ≡ picture.old.mark }
{
    let key = match key_of(alloc, table, report.all()) {
        Ok(key) => key,
        Err(KeyFault::FewWords) => return Ok(Some(UnreadReason::Words)),
        Err(KeyFault::Unlisted) => return Ok(Some(UnreadReason::Unlisted)),
        Err(KeyFault::NoMemory) => return Err(AllocError),
    };
    let Some(row) = table.text_row(key.kind.all()) else {
        return Ok(None);
    };
    let until = version.seconds() + row.life;
    picture.put(Key::Text(key), version, until, Shown::Text(report))?;
    Ok(None)
}
