//! Why an update is not given, as a line is refused.
ghost use Rattle.std.specs.Prelude.{◌≡◌, Option, option_map};
ghost use Rattle.ground_core.specs.Refusal.{GiveRefusal};
ghost use Rattle.ground_core.specs.Told.{IsToldOfText, kept_told};
ghost use Rattle.fisb_app.specs.Reading.{reason_of_update};
ghost use Rattle.fisb_app.specs.Stands.{HasAnsweredUpdate, TellsFault, TellsRefusal};

use dlac_text::TextFault;
use fisb_time::Moment;
use ground_core::{FillFault, GiveFault};
use run_core::Stop;
use script_core::Reason;

/// The moment before which a frame is not filled.
pub(crate) fn kept_of(fault: FillFault) -> Moment
    ensures { result ≡ kept_told fault }
{
    let FillFault::Clock { kept } = fault;
    kept
}

/// What is answered to an update.
pub(crate) fn answer(given: Result<(), GiveFault>) -> Result<(), Stop>
    ensures { HasAnsweredUpdate given result }
{
    match given {
        Ok(()) => Ok(()),
        Err(fault) => Err(stop_of(fault)),
    }
}

/// Why an update is not given.
pub(crate) fn stop_of(fault: GiveFault) -> Stop
    ensures { TellsFault fault result }
{
    match fault {
        GiveFault::Clock { kept } => Stop::Refused(Reason::Clock { kept }),
        GiveFault::BadText(text) => stop_of_text(text),
        GiveFault::FewWords => Stop::Refused(Reason::FewWords),
        GiveFault::Unlisted => Stop::Refused(Reason::Unlisted),
        GiveFault::BadBlock => Stop::Refused(Reason::BadBlock),
        GiveFault::Coarse => Stop::Refused(Reason::Coarse),
        GiveFault::Ahead => Stop::Refused(Reason::Ahead),
        GiveFault::Expired => Stop::Refused(Reason::Expired),
        GiveFault::NotNewer { kept } => Stop::Refused(Reason::NotNewer { kept }),
        GiveFault::NoFile => Stop::Refused(Reason::NoFile),
        GiveFault::NoMemory => Stop::NoMemory,
    }
}

/// Why a text cannot be sent.
fn stop_of_text(fault: TextFault) -> Stop
    ensures { (refusal : Option GiveRefusal) → IsToldOfText refusal fault
        → TellsRefusal (option_map reason_of_update refusal) result }
{
    match fault {
        TextFault::BadCharacter { place } => Stop::Refused(Reason::BadCharacter { place }),
        TextFault::TooLong => Stop::Refused(Reason::TextLong),
        TextFault::NoMemory => Stop::NoMemory,
    }
}
