//! The arrival that an information frame is.
ghost use Rattle.std.specs.Prelude.{◌≡◌, ℕ, IfOk, true};
ghost use Rattle.uplink_frame.specs.Views.{frame_view};
ghost use Rattle.life_table.specs.Products.{is_read_product};
ghost use Rattle.segment_core.specs.Store.{FitsFile};
ghost use Rattle.receiver_core.specs.Reception.{arrival_in, is_large};
ghost use Rattle.receiver_core.specs.StandsFor.{longest_lives};
ghost use Rattle.receiver_core.specs.Steps.{arrival_in_time};

use crate::unread::UnreadReason;
use apdu_core::{Apdu, ApduFault, Seg, read_apdu};
use fisb_time::{Moment, resolve};
use life_table::{CONUS_RADAR, LifeTable, REGIONAL_RADAR, TEXT_PRODUCT};
use segment_core::Arrived;
use uplink_frame::{InfoFrame, StationId};

/// The most segments of a file.
const MOST_SEGMENTS: u16 = 64;

/// What arrives with an information frame, if it is not stale, or the first reason for which
/// nothing does.
pub(crate) fn read_arrival<'a>(
    table: &LifeTable,
    station: StationId,
    moment: Moment,
    frame: &InfoFrame<'a>,
) -> Result<Arrived<'a>, UnreadReason>
    ensures counted { arrival_in_time (longest_lives table.now) moment result
        ≡ arrival_in table.now station moment (frame_view frame.now) }
    ensures product { IfOk result (λ a. is_read_product a.product ≡ true) }
    ensures segment { IfOk result (λ a. FitsFile a.seg) }
{
    if frame.kind != 0 {
        return Err(UnreadReason::Kind);
    }
    let apdu = match read_apdu(frame.body) {
        Ok(apdu) => apdu,
        Err(ApduFault::Short) => return Err(UnreadReason::Short),
        Err(ApduFault::Flagged) => return Err(UnreadReason::Flagged),
        Err(ApduFault::BadSegment) => return Err(UnreadReason::Segment),
    };
    if !is_read_product(apdu.product) {
        return Err(UnreadReason::Product);
    }
    if table.longest(apdu.product).is_none() {
        return Err(UnreadReason::NoRow);
    }
    if is_large(&apdu.seg) {
        return Err(UnreadReason::Files);
    }
    let Some(version) = resolve(apdu.form, &apdu.time, moment) else {
        return Err(UnreadReason::Time);
    };
    Ok(Arrived {
        station,
        product: apdu.product,
        version,
        seg: apdu.seg,
        payload: apdu.payload,
    })
}

/// Whether the product is radar or text.
fn is_read_product(product: u16) -> bool
    ensures { result ≡ is_read_product product }
{
    product == REGIONAL_RADAR || product == CONUS_RADAR || product == TEXT_PRODUCT
}

/// Whether the file has too many segments.
fn is_large(seg: &Option<Seg>) -> bool
    ensures { result ≡ is_large seg.now }
{
    match seg {
        Some(seg) => MOST_SEGMENTS < seg.count,
        None => false,
    }
}
