//! A caller of the receiver.
ghost use Rattle.std.specs.Prelude.{◌≡◌, ℕ, ◌∷◌, List, Some, IfSome};
ghost use Rattle.life_table.specs.LifeTable.{LifeTable};
ghost use Rattle.uplink_weave.specs.Functions.{payload_in};
ghost use Rattle.receiver_core.specs.Reception.{Reception};
ghost use Rattle.receiver_core.specs.Hearing.{IsPictureOf};
ghost use Rattle.receiver_core.specs.StandsFor.{StandsFor};

use fisb_time::Moment;
use picture_core::Entries;
use receiver_core::Receiver;
use std::alloc::Global;
use uplink_weave::FRAME_BYTES;

/// Hears a frame, and gives the picture after it, unless the frame or the picture is refused. It is
/// the picture of all payloads that were heard, the frame's the newest.
pub fn picture_after(
    alloc: Global,
    receiver: &mut Receiver,
    moment: Moment,
    air: &[u8; FRAME_BYTES],
) -> Option<Entries>
    ensures { (table : LifeTable) (past : List Reception) (payload : List ℕ)
        → StandsFor table receiver.old past
        → payload_in air.now ≡ Some payload
        → IfSome result (IsPictureOf table
        (record { moment = moment; payload = payload } ∷ past) moment) }
{
    let Ok(_) = receiver.hear(moment, air) else {
        return None;
    };
    match receiver.picture(alloc, moment) {
        Ok(shown) => Some(shown),
        Err(_) => None,
    }
}
