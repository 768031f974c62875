//! The command `ground`: a ground alone, which writes what is on the air.
ghost use Rattle.std.specs.Prelude.{◌≡◌, ℕ, ◌<◌, ◌∷◌, List, OnErr, false, true};
ghost use Rattle.uplink_frame.specs.Station.{FitsStation};
ghost use Rattle.script_core.specs.LineView.{line_view, HasRanges};
ghost use Rattle.script_core.specs.Script.{Line as ScriptLine, station, turn};
ghost use Rattle.fisb_app.specs.Output.{given_text, heard_picture};
ghost use Rattle.fisb_app.specs.declared.party.Party.TheVariants.{Ground as TheGround};
ghost use Rattle.fisb_app.specs.Reading.{is_update, own_refusal};
ghost use Rattle.fisb_app.specs.Stands.{AloneHolds, HasTried};

use crate::air_outcome::{AirEvent, AirOutcome};
use crate::in_order::LineActor;
use crate::party::Party;
use crate::sender::Sender;
use crate::sending::Sending;
use fisb_time::Moment;
use run_core::Stop;
use script_core::{Line, Reason};
use std::alloc::Global;
use uplink_frame::StationId;

/// What the lines acted on have made.
#[derive(Drop)]
pub(crate) struct GroundAlone<G: Sender> {
    pub(crate) sending: Sending<G>,
    /// How many frames were sent.
    pub(crate) sent: usize,
}

impl<G: Sender> LineActor for GroundAlone<G> {
    type Given = AirOutcome;

    ghost PARTY = { TheGround };

    const PARTY: Party = Party::Ground;

    ghost table = { λ actor. actor.sending.table };

    ghost holds = { AloneHolds G.stands };

    ghost opened = { λ bytes acted actor h. h.holds.opened };

    fn new(alloc: Global, bytes: &[u8]) -> Result<GroundAlone<G>, Stop> {
        let sending: Sending<G> = Sending::new(alloc, bytes)?;
        Ok(GroundAlone { sending, sent: 0 })
    }

    fn act_on(&mut self, alloc: Global, line: &Line) -> Result<AirOutcome, Stop> {
        match line {
            Line::Nothing | Line::Hear { .. } | Line::Rx { .. } | Line::Show { .. } => {
                Ok(AirOutcome::of(AirEvent::Nothing))
            }
            Line::Station(station) => self.name_station(alloc, *station),
            Line::Text { .. } | Line::Radar { .. } | Line::Blank { .. } => self.give(line),
            Line::Turn { moment, slot } => self.turn(*moment, *slot),
        }
    }
}

impl<G: Sender> GroundAlone<G> {
    /// Names the station that the following lines concern.
    fn name_station(&mut self, alloc: Global, named: StationId) -> Result<AirOutcome, Stop>
        requires { FitsStation named }
        ensures acted { (bytes : List ℕ) (acted : List ScriptLine)
            → AloneHolds G.stands bytes acted self.old
            → HasTried (own_refusal Party.Ground self.old.sending.table acted (station named))
            (λ given. (given ≡ given_text Party.Ground heard_picture self.old.sending.table acted
            (station named))
            × AloneHolds G.stands bytes (station named ∷ acted) self.new) result }
        ensures same { (bytes : List ℕ) (acted : List ScriptLine)
            → AloneHolds G.stands bytes acted self.old
            → OnErr result (AloneHolds G.stands bytes acted self.new) }
    {
        match self.sending.name_station(alloc, named) {
            Ok(()) => Ok(AirOutcome::of(AirEvent::Nothing)),
            Err(stop) => Err(stop),
        }
    }

    /// Gives the update of a line to the ground.
    fn give(&mut self, line: &Line) -> Result<AirOutcome, Stop>
        requires ranges { HasRanges 32768 (line_view line.now) }
        requires update { is_update (line_view line.now) ≡ true }
        ensures acted { (bytes : List ℕ) (acted : List ScriptLine)
            → AloneHolds G.stands bytes acted self.old
            → HasTried (own_refusal Party.Ground self.old.sending.table acted (line_view line.now))
            (λ given. (given ≡ given_text Party.Ground heard_picture self.old.sending.table acted
            (line_view line.now))
            × AloneHolds G.stands bytes (line_view line.now ∷ acted) self.new) result }
        ensures same { (bytes : List ℕ) (acted : List ScriptLine)
            → AloneHolds G.stands bytes acted self.old
            → OnErr result (AloneHolds G.stands bytes acted self.new) }
    {
        match self.sending.give(line) {
            Ok(()) => Ok(AirOutcome::of(AirEvent::Nothing)),
            Err(stop) => Err(stop),
        }
    }

    /// Fills a frame and counts it.
    fn turn(&mut self, moment: Moment, slot: u8) -> Result<AirOutcome, Stop>
        requires { slot < 32 }
        ensures acted { (bytes : List ℕ) (acted : List ScriptLine)
            → AloneHolds G.stands bytes acted self.old
            → HasTried (own_refusal Party.Ground self.old.sending.table acted (turn moment slot))
            (λ given. (given ≡ given_text Party.Ground heard_picture self.old.sending.table acted
            (turn moment slot))
            × AloneHolds G.stands bytes (turn moment slot ∷ acted) self.new) result }
        ensures same { (bytes : List ℕ) (acted : List ScriptLine)
            → AloneHolds G.stands bytes acted self.old
            → OnErr result (AloneHolds G.stands bytes acted self.new) }
    {
        let index = self.sent;
        let frame = match self.sending.turn(index, moment, slot) {
            Ok(frame) => frame,
            Err(reason) => return Err(Stop::Refused(reason)),
        };
        self.sent = index + 1;
        Ok(AirOutcome::of(AirEvent::Sent {
            index: index as u32,
            frame,
        }))
    }
}
