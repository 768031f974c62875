//! A caller of the ground.
ghost use Rattle.std.specs.Prelude.{ℕ, ◌<◌, ◌^◌, ◌∷◌, List, IfSome, length};
ghost use Rattle.life_table.specs.LifeTable.{LifeTable};
ghost use Rattle.uplink_frame.specs.declared.station.StationId.{StationId};
ghost use Rattle.ground_core.specs.Airing.{frame_after};
ghost use Rattle.ground_core.specs.History.{Event, accepted};
ghost use Rattle.ground_core.specs.OnAir.{IsOnAir};
ghost use Rattle.ground_core.specs.StandsFor.{StandsFor};
ghost use Rattle.ground_core.specs.Update.{text};

use fisb_time::Moment;
use ground_core::{AirFrame, Ground};

/// Gives a report of this moment, and fills the next frame, unless the report is refused. The frame
/// airs what the definitions air after that update.
pub fn frame_of_report(
    ground: &mut Ground,
    moment: Moment,
    report: &str,
    slot: u8,
) -> Option<AirFrame>
    requires slot { slot < 32 }
    requires size { length report.now < 2 ^ 32 }
    ensures { (table : LifeTable) (station : StationId) (history : List Event)
        → StandsFor table station ground.old history
        → IfSome result (IsOnAir (frame_after table station
        (accepted moment (text moment report.now) ∷ history) moment slot)) }
{
    let Ok(()) = ground.give_text(moment, moment, report) else {
        return None;
    };
    match ground.fill(moment, slot) {
        Ok(frame) => Some(frame),
        Err(_) => None,
    }
}
