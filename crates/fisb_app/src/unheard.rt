//! What is told of a frame that is not heard, and of a picture that is not shown.
ghost use Rattle.std.specs.Prelude.{◌≡◌, ℕ, List, Option, option_map};
ghost use Rattle.life_table.specs.LifeTable.{LifeTable as Table};
ghost use Rattle.receiver_core.specs.Hearing.{IsHearFault, IsShowFault, refusal_of_air};
ghost use Rattle.receiver_core.specs.Reception.{Reception};
ghost use Rattle.refusal_core.specs.declared.reason.Reason.TheVariants.{Clock};
ghost use Rattle.fisb_app.specs.Stands.{HasUnheard, TellsRefusal};

use crate::outcome::{Event, Outcome};
use fisb_time::Moment;
use receiver_core::{HearFault, ShowFault};
use run_core::Stop;
use script_core::Reason;

/// What is told of a frame that is not heard, or why the line is not acted on.
pub(crate) fn answer_unheard(moment: Moment, fault: HearFault) -> Result<Outcome, Stop>
    ensures { (table : Table) (past : List Reception) (air : List ℕ)
        → IsHearFault (refusal_of_air past moment air) fault
        → HasUnheard table past moment air result }
{
    match fault {
        HearFault::Clock { kept } => Err(Stop::Refused(Reason::Clock { kept })),
        HearFault::Lost { block } => Ok(Outcome::of(Event::Lost { moment, block })),
        HearFault::NoApplication => Ok(Outcome::of(Event::NoApplication { moment })),
        HearFault::NoMemory => Err(Stop::NoMemory),
    }
}

/// Why no picture is shown.
pub(crate) fn stop_of_show(fault: ShowFault) -> Stop
    ensures { (last : Option ℕ) → IsShowFault last fault
        → TellsRefusal (option_map Clock last) result }
{
    match fault {
        ShowFault::Clock { kept } => Stop::Refused(Reason::Clock { kept }),
        ShowFault::NoMemory => Stop::NoMemory,
    }
}
