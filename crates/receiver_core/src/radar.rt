//! The blocks of a whole payload of radar.
ghost use Rattle.std.specs.Prelude.{◌≡◌, ◌≤◌, IfOk, OnOk, map};
ghost use Rattle.std.specs.Prelude.{option_to_list};
ghost use Rattle.life_table.specs.LifeTable.{thirty_days};
ghost use Rattle.radar_core.specs.Radar.{radar_blocks};
ghost use Rattle.picture_core.specs.Contents.{block_entry, radar_entries};
ghost use Rattle.picture_core.specs.Kept.{put_all};
ghost use Rattle.receiver_core.specs.UnreadParts.{radar_reason, radar_reasons};

use crate::unread::UnreadReason;
use fisb_time::Moment;
use life_table::LifeTable;
use picture_core::{Key, Picture, Shown};
use radar_core::{RadarFault, RadarPart, read_radar};
use std::alloc::AllocError;

/// Puts the blocks of a record into the picture, or answers why the record is passed on unread.
pub(crate) fn take_record(
    table: &LifeTable,
    product: u16,
    version: Moment,
    payload: &[u8],
    picture: &mut Picture,
) -> Result<Option<UnreadReason>, AllocError>
    ensures entries { OnOk result (picture.new.entries
        ≡ put_all (radar_entries table.now product version payload.now) picture.old.entries) }
    ensures reason { IfOk result (λ reason. option_to_list reason
        ≡ radar_reasons (radar_blocks product payload.now)) }
    ensures mark { picture.new.mark ≡ picture.old.mark }
{
    let blocks = match read_radar(product, payload) {
        Ok(blocks) => blocks,
        Err(fault) => return Ok(Some(reason_of(fault))),
    };
    let Some(row) = table.radar_row(product) else {
        return Ok(None);
    };
    put_blocks(&blocks, version, row.life, picture)?;
    Ok(None)
}

/// Puts blocks that live so long into the picture.
fn put_blocks(
    blocks: &RadarPart<'_>,
    version: Moment,
    life: u64,
    picture: &mut Picture,
) -> Result<(), AllocError>
    requires { life ≤ thirty_days }
    ensures entries { OnOk result (picture.new.entries
        ≡ put_all (map (block_entry version life) blocks.now) picture.old.entries) }
    ensures mark { picture.new.mark ≡ picture.old.mark }
{
    let until = version.seconds() + life;
    for place in 0..blocks.count() {
        let (key, cells) = blocks.block(place);
        picture.put(Key::Radar(key), version, until, Shown::Cells(cells))?;
    }
    Ok(())
}

/// Why a payload that is no record is passed on unread.
fn reason_of(fault: RadarFault) -> UnreadReason
    ensures { result ≡ radar_reason fault }
{
    match fault {
        RadarFault::Short => UnreadReason::RadarShort,
        RadarFault::BadScale => UnreadReason::Scale,
        RadarFault::RunsNot128 => UnreadReason::Runs,
        RadarFault::HighEmpty => UnreadReason::High,
        RadarFault::BadBitmap => UnreadReason::Bitmap,
    }
}
