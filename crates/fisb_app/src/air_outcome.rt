//! What a line gave whose text has the bytes of a frame.
ghost use Rattle.std.specs.Prelude.{◌≡◌, ℕ, List, IfOk};
ghost use Rattle.fisb_app.specs.AirOutcome.{air_event_text};

use crate::outcome::no_text;
use crate::relay::display_message;
use fisb_wire::Bytes;
use ground_core::AirFrame;
use run_core::Given;
use script_core::print_sent;
use std::alloc::{AllocError, Global};
use std::marker::Model;
use uplink_weave::FRAME_BYTES;

/// What was done for a line, with the bytes of a frame.
#[derive(Drop)]
pub(crate) enum AirEvent {
    /// Nothing that is written.
    Nothing,
    /// A frame was sent.
    Sent { index: u32, frame: AirFrame },
    /// A frame goes on to displays.
    Relayed { air: [u8; FRAME_BYTES] },
}

/// What was done for a line. In contracts it is the text of that.
#[derive(Drop)]
pub(crate) struct AirOutcome {
    event: AirEvent,
}

impl Model for AirOutcome {
    ghost Value = { List ℕ };

    ghost view = { λ o. air_event_text o.event };
}

impl AirOutcome {
    pub(crate) fn of(event: AirEvent) -> AirOutcome
        ensures { result ≡ air_event_text event }
    {
        AirOutcome { event }
    }
}

impl Given for AirOutcome {
    ghost text = { λ outcome. outcome };

    fn print(&self, alloc: Global) -> Result<Bytes, AllocError> {
        match &self.event {
            AirEvent::Nothing => Ok(no_text(alloc)),
            AirEvent::Sent { index, frame } => print_sent(alloc, *index, frame, true),
            AirEvent::Relayed { air } => display_message(alloc, air),
        }
    }
}
