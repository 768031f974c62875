//! The blocks of a payload.
ghost use Rattle.std.specs.Prelude.{◌≡◌, ◌<◌, ◌≤◌, ◌^◌, IsSome, IfSome, ◌↔◌, length};
ghost use Rattle.radar_core.specs.Radar.{radar_blocks, read_runs, read_bitmap};
ghost use Rattle.radar_core.specs.Runs.{cells_in};

use crate::cells::CELLS;
use crate::fault::RadarFault;
use crate::key::{BlockKey, FIRST_HIGH};
use crate::part::{Body, RadarPart};
use crate::runs::FRONT;

/// The blocks of a payload of this product: one of a run record, one or more of an empty record.
///
/// # Errors
///
/// `Short` exactly where the payload has fewer than 4 bytes, else `BadScale` exactly where its scale is 3. Of a run record
/// `RunsNot128` where its runs are not 128 cells. Of an empty record `HighEmpty` where its base is 405,000 or more, else
/// `BadBitmap` where it has fewer bytes than its bitmap asks for.
pub fn read_radar<'a>(product: u16, payload: &'a [u8]) -> Result<RadarPart<'a>, RadarFault>
    ensures { result ≡ radar_blocks product payload.now }
{
    let [first, second, third, _, ..] = payload else {
        return Err(RadarFault::Short);
    };
    let scale = *first / 16 % 4;
    if scale == 3 {
        return Err(RadarFault::BadScale);
    }
    let key = BlockKey {
        product,
        scale,
        south: *first / 64 % 2 == 1,
        number: u32::from_be_bytes([0, *first % 16, *second, *third]),
    };
    let (_, rest) = payload.split_at(FRONT);
    if *first / 128 == 1 {
        read_runs(key, rest)
    } else {
        read_bitmap(key, rest)
    }
}

/// The block of a run record.
fn read_runs<'a>(key: BlockKey, runs: &'a [u8]) -> Result<RadarPart<'a>, RadarFault>
    ensures { result ≡ read_runs key runs.now }
{
    if count_cells(runs) != CELLS {
        return Err(RadarFault::RunsNot128);
    }
    let body = Body::Runs(runs);
    Ok(RadarPart { key, body })
}

/// How many cells runs spell, or 0 where there are more runs than a block has cells.
fn count_cells(runs: &[u8]) -> usize
    ensures { (result ≡ 128) ↔ (length (cells_in runs.now) ≡ 128) }
{
    if runs.len() > CELLS {
        return 0;
    }
    let mut count = 0u16;
    for run in runs {
        count += u16::from(*run / 8) + 1;
    }
    usize::from(count)
}

/// The blocks of an empty record.
fn read_bitmap<'a>(base: BlockKey, bytes: &'a [u8]) -> Result<RadarPart<'a>, RadarFault>
    requires { 1 ≤ length bytes.now }
    ensures { result ≡ read_bitmap base bytes.now }
{
    if base.number >= FIRST_HIGH {
        return Err(RadarFault::HighEmpty);
    }
    let length = usize::from(bytes[0] % 16);
    if bytes.len() < length {
        return Err(RadarFault::BadBitmap);
    }
    let (bitmap, _) = bytes.split_at(length);
    let body = Body::Bitmap(bitmap);
    Ok(RadarPart { key: base, body })
}
