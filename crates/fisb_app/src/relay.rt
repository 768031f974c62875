//! The command `gdl`: hands the payloads of frames on to displays.
ghost use Rattle.std.specs.Prelude.{◌≡◌, ℕ, ◌∷◌, List, IfOk};
ghost use Rattle.uplink_weave.specs.Functions.{payload_in};
ghost use Rattle.script_core.specs.Script.{Line as ScriptLine};
ghost use Rattle.fisb_app.specs.declared.party.Party.TheVariants.{Gdl as TheGdl};
ghost use Rattle.fisb_app.specs.Output.{display_bytes};
ghost use Rattle.fisb_app.specs.Stands.{RelayHolds};

use crate::air_outcome::{AirEvent, AirOutcome};
use crate::in_order::LineActor;
use crate::outcome::no_text;
use crate::party::Party;
use crate::sending::read_table;
use arrayvec::ArrayVec;
use fisb_wire::Bytes;
use gdl90_core::{frame_message, uplink_message};
use life_table::LifeTable;
use run_core::Stop;
use script_core::Line;
use std::alloc::{AllocError, Global};
use uplink_frame::PAYLOAD_LENGTH;
use uplink_weave::{FRAME_BYTES, unweave};

/// The time of reception that says that it is not known.
const UNKNOWN_TIME: u32 = 0x00ff_ffff;

/// What the lines acted on have made: nothing but the table, which each script opens with.
#[derive(Drop)]
pub(crate) struct Relay {
    pub(crate) table: LifeTable,
}

impl LineActor for Relay {
    type Given = AirOutcome;

    ghost PARTY = { TheGdl };

    const PARTY: Party = Party::Gdl;

    ghost table = { λ actor. actor.table };

    ghost holds = { RelayHolds };

    ghost opened = { λ bytes acted actor h. h.opened };

    fn new(alloc: Global, bytes: &[u8]) -> Result<Relay, Stop> {
        let table = read_table(alloc, bytes)?;
        Ok(Relay { table })
    }

    fn act_on(&mut self, _alloc: Global, line: &Line) -> Result<AirOutcome, Stop> {
        match line {
            Line::Nothing
            | Line::Station(_)
            | Line::Text { .. }
            | Line::Radar { .. }
            | Line::Blank { .. }
            | Line::Turn { .. }
            | Line::Hear { .. }
            | Line::Show { .. } => Ok(AirOutcome::of(AirEvent::Nothing)),
            Line::Rx { air, .. } => Ok(AirOutcome::of(AirEvent::Relayed { air: *air })),
        }
    }
}

/// The framed message of the payload of a frame, and nothing where it has none.
pub(crate) fn display_message(alloc: Global, air: &[u8; FRAME_BYTES]) -> Result<Bytes, AllocError>
    ensures { IfOk result (λ bytes. bytes ≡ display_bytes (payload_in air.now)) }
{
    let mut payload = [0; PAYLOAD_LENGTH];
    let Ok(_) = unweave(air, &mut payload) else {
        return Ok(no_text(alloc));
    };
    let message = uplink_message(UNKNOWN_TIME, &payload);
    let mut framed = ArrayVec::new();
    frame_message(&message, &mut framed);
    let bytes = Vec::from_slice(alloc, framed.as_slice())?;
    Ok(Bytes::of(bytes))
}
