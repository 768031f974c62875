//! Hearing frames and showing pictures.
ghost use Rattle.std.specs.Prelude.{◌≡◌, ℕ, List, OnErr, map};
ghost use Rattle.std.specs.List.{cons_option};
ghost use Rattle.life_table.specs.LifeTable.{LifeTable as Table};
ghost use Rattle.picture_core.specs.Views.{shown_value};
ghost use Rattle.receiver_core.specs.Reception.{Reception, received_picture};
ghost use Rattle.script_core.specs.Printed.{picture_text};
ghost use Rattle.fisb_app.specs.Output.{heard_text};
ghost use Rattle.fisb_app.specs.Past.{reception_from};
ghost use Rattle.fisb_app.specs.Reading.{receiver_refusal};
ghost use Rattle.fisb_app.specs.Stands.{HasTried};

use crate::ear::Ear;
use crate::outcome::{Event, Outcome};
use crate::unheard::{answer_unheard, stop_of_show};
use fisb_time::Moment;
use run_core::Stop;
use std::alloc::Global;
use uplink_weave::FRAME_BYTES;

/// Hears a frame.
pub(crate) fn receive<E: Ear>(
    ear: &mut E,
    moment: Moment,
    air: &[u8; FRAME_BYTES],
) -> Result<Outcome, Stop>
    ensures received { (table : Table) (past : List Reception) → E.stands table past ear.old
        → HasTried (receiver_refusal past moment)
        (λ text. (text ≡ heard_text table past moment air.now)
        × E.stands table (cons_option (reception_from past moment air.now) past) ear.new)
        result }
    ensures same { (table : Table) (past : List Reception) → E.stands table past ear.old
        → OnErr result (E.stands table past ear.new) }
{
    match ear.hear(moment, air) {
        Ok(heard) => Ok(Outcome::of(Event::Heard { moment, heard })),
        Err(fault) => answer_unheard(moment, fault),
    }
}

/// The picture at a moment.
pub(crate) fn show<E: Ear>(alloc: Global, ear: &E, moment: Moment) -> Result<Outcome, Stop>
    ensures { (table : Table) (past : List Reception) → E.stands table past ear.now
        → HasTried (receiver_refusal past moment)
        (λ text. text ≡ picture_text moment
        (map shown_value (received_picture table past moment))) result }
{
    match ear.picture(alloc, moment) {
        Ok(entries) => Ok(Outcome::of(Event::Picture { moment, entries })),
        Err(fault) => Err(stop_of_show(fault)),
    }
}
