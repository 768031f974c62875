//! The command `link`: a ground, a receiver, and the frames between them.
ghost use Rattle.std.specs.Prelude.{◌≡◌, ℕ, ◌<◌, ◌∷◌, [], ◌++◌, List, All, OnErr, map, slice_get};
ghost use Rattle.std.specs.Prelude.{true, vec_capacity, vec_len};
ghost use Rattle.std.specs.List.{cons_option};
ghost use Rattle.life_table.specs.LifeTable.{LifeTable as Table};
ghost use Rattle.picture_core.specs.Views.{shown_value};
ghost use Rattle.receiver_core.specs.Reception.{Reception, received_picture};
ghost use Rattle.ground_core.specs.Airing.{Frame};
ghost use Rattle.uplink_frame.specs.Station.{FitsStation};
ghost use Rattle.uplink_weave.specs.Woven.{frame_bytes};
ghost use Rattle.script_core.specs.LineView.{line_view, HasRanges};
ghost use Rattle.script_core.specs.Script.{Line as ScriptLine, hear, station, turn};
ghost use Rattle.fisb_app.specs.Output.{given_text, heard_picture, heard_text};
ghost use Rattle.fisb_app.specs.Past.{air_heard, reception_from};
ghost use Rattle.fisb_app.specs.declared.party.Party.TheVariants.{Link as TheLink};
ghost use Rattle.fisb_app.specs.Reading.{is_update, own_refusal, receiver_refusal};
ghost use Rattle.fisb_app.specs.Stands.{HasTried, IsFound, LinkHolds, aired_view, sent_view};

use crate::ear::Ear;
use crate::hearing::{receive, show};
use crate::in_order::LineActor;
use crate::outcome::{Event, Outcome};
use crate::party::Party;
use crate::sender::Sender;
use crate::sending::Sending;
use crate::sent_frame::SentFrame;
use fisb_time::Moment;
use ground_core::AirFrame;
use run_core::Stop;
use script_core::{Line, Reason, Wrong};
use std::alloc::Global;
use uplink_frame::StationId;
use uplink_weave::FRAME_BYTES;

/// What the lines acted on have made.
#[derive(Drop)]
pub(crate) struct Link<G: Sender, E: Ear> {
    pub(crate) sending: Sending<G>,
    pub(crate) ear: E,
    pub(crate) sent: Vec<SentFrame>,
}

impl<G: Sender, E: Ear> LineActor for Link<G, E> {
    type Given = Outcome;

    ghost PARTY = { TheLink };

    const PARTY: Party = Party::Link;

    ghost table = { λ actor. actor.sending.table };

    ghost holds = { LinkHolds G.stands E.stands };

    ghost opened = { λ bytes acted actor h. h.holds.opened };

    fn new(alloc: Global, bytes: &[u8]) -> Result<Link<G, E>, Stop> {
        let sending: Sending<G> = Sending::new(alloc, bytes)?;
        let Ok(copy) = sending.table.copy(alloc) else {
            return Err(Stop::NoMemory);
        };
        Ok(Link {
            sending,
            ear: E::new(alloc, copy),
            sent: Vec::new(alloc),
        })
    }

    fn act_on(&mut self, alloc: Global, line: &Line) -> Result<Outcome, Stop> {
        match line {
            Line::Nothing | Line::Rx { .. } => Ok(Outcome::of(Event::Nothing)),
            Line::Station(station) => self.name_station(alloc, *station),
            Line::Text { .. } | Line::Radar { .. } | Line::Blank { .. } => self.give(line),
            Line::Turn { moment, slot } => self.turn(*moment, *slot),
            Line::Hear {
                moment,
                frame,
                wrong,
            } => self.hear(*moment, *frame, wrong),
            Line::Show { moment } => show(alloc, &self.ear, *moment),
        }
    }
}

impl<G: Sender, E: Ear> Link<G, E> {
    /// Names the station that the following lines concern.
    fn name_station(&mut self, alloc: Global, named: StationId) -> Result<Outcome, Stop>
        requires { FitsStation named }
        ensures acted { (bytes : List ℕ) (acted : List ScriptLine)
            → LinkHolds G.stands E.stands bytes acted self.old
            → HasTried (own_refusal Party.Link self.old.sending.table acted (station named))
            (λ given. (given ≡ given_text Party.Link heard_picture self.old.sending.table acted
            (station named))
            × LinkHolds G.stands E.stands bytes (station named ∷ acted) self.new) result }
        ensures same { (bytes : List ℕ) (acted : List ScriptLine)
            → LinkHolds G.stands E.stands bytes acted self.old
            → OnErr result (LinkHolds G.stands E.stands bytes acted self.new) }
    {
        match self.sending.name_station(alloc, named) {
            Ok(()) => Ok(Outcome::of(Event::Nothing)),
            Err(stop) => Err(stop),
        }
    }

    /// Gives the update of a line to the ground.
    fn give(&mut self, line: &Line) -> Result<Outcome, Stop>
        requires ranges { HasRanges 32768 (line_view line.now) }
        requires update { is_update (line_view line.now) ≡ true }
        ensures acted { (bytes : List ℕ) (acted : List ScriptLine)
            → LinkHolds G.stands E.stands bytes acted self.old
            → HasTried (own_refusal Party.Link self.old.sending.table acted (line_view line.now))
            (λ given. (given ≡ given_text Party.Link heard_picture self.old.sending.table acted
            (line_view line.now))
            × LinkHolds G.stands E.stands bytes (line_view line.now ∷ acted) self.new) result }
        ensures same { (bytes : List ℕ) (acted : List ScriptLine)
            → LinkHolds G.stands E.stands bytes acted self.old
            → OnErr result (LinkHolds G.stands E.stands bytes acted self.new) }
    {
        match self.sending.give(line) {
            Ok(()) => Ok(Outcome::of(Event::Nothing)),
            Err(stop) => Err(stop),
        }
    }

    /// Fills a frame and keeps it, where there is room for it.
    fn turn(&mut self, moment: Moment, slot: u8) -> Result<Outcome, Stop>
        requires { slot < 32 }
        ensures acted { (bytes : List ℕ) (acted : List ScriptLine)
            → LinkHolds G.stands E.stands bytes acted self.old
            → HasTried (own_refusal Party.Link self.old.sending.table acted (turn moment slot))
            (λ given. (given ≡ given_text Party.Link heard_picture self.old.sending.table acted
            (turn moment slot))
            × LinkHolds G.stands E.stands bytes (turn moment slot ∷ acted) self.new) result }
        ensures same { (bytes : List ℕ) (acted : List ScriptLine)
            → LinkHolds G.stands E.stands bytes acted self.old
            → OnErr result (LinkHolds G.stands E.stands bytes acted self.new) }
    {
        let Ok(()) = self.sent.reserve(1) else {
            return Err(Stop::NoMemory);
        };
        let index = self.sent.len();
        let frame = match self.sending.turn(index, moment, slot) {
            Ok(frame) => frame,
            Err(reason) => return Err(Stop::Refused(reason)),
        };
        keep(&mut self.sent, &frame);
        Ok(Outcome::of(Event::Sent {
            index: index as u32,
            moment: frame.moment,
            slot: frame.slot,
            bodies: frame.bodies,
            used: frame.used,
        }))
    }

    /// Hears a frame that was sent, with the wrong bytes in it.
    fn hear(&mut self, moment: Moment, frame: u32, wrong: &Wrong) -> Result<Outcome, Stop>
        requires { All (λ one. (one.0 < frame_bytes) × (one.1 < 256)) wrong.now }
        ensures acted { (bytes : List ℕ) (acted : List ScriptLine)
            → LinkHolds G.stands E.stands bytes acted self.old
            → HasTried
            (own_refusal Party.Link self.old.sending.table acted (hear moment frame wrong.now))
            (λ given. (given ≡ given_text Party.Link heard_picture self.old.sending.table acted
            (hear moment frame wrong.now))
            × LinkHolds G.stands E.stands bytes (hear moment frame wrong.now ∷ acted) self.new)
            result }
        ensures same { (bytes : List ℕ) (acted : List ScriptLine)
            → LinkHolds G.stands E.stands bytes acted self.old
            → OnErr result (LinkHolds G.stands E.stands bytes acted self.new) }
    {
        let mut air = match self.find(moment, frame) {
            Ok(air) => air,
            Err(reason) => return Err(Stop::Refused(reason)),
        };
        put_wrong(&mut air, wrong.all());
        receive(&mut self.ear, moment, &air)
    }

    /// The bytes on the air of a frame that was sent, in time.
    fn find(&self, moment: Moment, frame: u32) -> Result<[u8; FRAME_BYTES], Reason>
        ensures { (sent : List Frame) → map sent_view self.now.sent.items ≡ map aired_view sent
            → IsFound self.now.sending.table.late moment (slice_get sent frame) result }
    {
        let Some(sent) = self.sent.get(frame as usize) else {
            return Err(Reason::NoFrame);
        };
        if moment < sent.moment {
            return Err(Reason::Early);
        }
        if moment.seconds() > sent.moment.seconds() + self.sending.table.late() {
            return Err(Reason::Late);
        }
        Ok(sent.air)
    }
}

/// Keeps a frame that was sent, for which there is room.
fn keep(sent: &mut Vec<SentFrame>, frame: &AirFrame)
    requires { vec_len sent.old < vec_capacity sent.old }
    ensures { map sent_view sent.new.items ≡ map sent_view sent.old.items
        ++ record { moment = frame.now.moment; air = frame.now.air } ∷ [] }
{
    sent.push_reserved(SentFrame {
        moment: frame.moment,
        air: frame.air,
    });
}

/// Puts the wrong bytes of a frame in their places.
fn put_wrong(air: &mut [u8; FRAME_BYTES], wrong: &[(u16, u8)])
    requires { All (λ one. (one.0 < frame_bytes) × (one.1 < 256)) wrong.now }
    ensures { air.new ≡ air_heard wrong.now air.old }
{
    for (place, byte) in wrong {
        air[usize::from(*place)] = *byte;
    }
}
